//! Checks of what a report tells by itself: what the logs, the messages and the lines say of each transaction is one history.
use crate::telling::{Kind, NEVER, NOTHING, Told};

// The commit decision of a transaction, or a row that it never committed.
fn decision(told: &[Told], txn: u64) -> &Told {
    for one in told {
        match one.kind {
            Kind::Commit if one.txn == txn => return one,
            _ => {}
        }
    }
    &NOTHING
}

// The log of a part has a promise of the transaction, and not that it aborted.
fn stands_by(told: &[Told], part: &Told) -> bool {
    let mut is_promised = false;
    for one in told {
        if one.txn == part.txn && one.shard == part.shard {
            match one.kind {
                Kind::Prepare => is_promised = true,
                Kind::Outcome if one.at == NEVER => return false,
                _ => {}
            }
        }
    }
    is_promised
}

// The logs of the other parts stand by a decision, and it is acknowledged once.
fn is_whole(told: &[Told], txn: u64) -> bool {
    let mut acknowledged: u64 = 0;
    for one in told {
        if one.txn == txn {
            match one.kind {
                Kind::Part if !stands_by(told, one) => return false,
                Kind::Ack => acknowledged = acknowledged.saturating_add(1),
                _ => {}
            }
        }
    }
    acknowledged == 1
}

// The value that the transactions before a place in the history left, one after the other: those at a smaller timestamp, or at
// the same one with a smaller number.
fn value_before(told: &[Told], key: u8, at: u64, txn: u64) -> u8 {
    let mut newest_at: u64 = 0;
    let mut newest_txn: u64 = 0;
    let mut value = 0;
    for one in told {
        match one.kind {
            Kind::Write if one.key == key => {
                let placed = decision(told, one.txn).at;
                let is_before = placed < at || placed == at && one.txn < txn;
                let is_old = placed < newest_at || placed == newest_at && one.txn < newest_txn;
                if is_before && !is_old {
                    newest_at = placed;
                    newest_txn = one.txn;
                    value = one.value;
                }
            }
            _ => {}
        }
    }
    value
}

// What a row is, if it is not true. A transaction has one timestamp, or none: records and messages agree with its decision, a promise is not
// above it, and what began after an acknowledgement is above that. What was acknowledged stands whole, and what was read is what stood just
// before.
fn untrue(told: &[Told], one: &Told, last: u64) -> &'static str {
    let decided = decision(told, one.txn);
    let at = decided.at;
    let (is_true, name) = match one.kind {
        Kind::Part | Kind::Write | Kind::Horizon => (true, ""),
        Kind::Commit => (one.at == at && one.coordinator == one.shard, "a decision"),
        Kind::Prepare => {
            let is_kept = one.at <= at && one.coordinator == decided.coordinator;
            (at == NEVER || is_kept, "a promise")
        }
        Kind::Outcome => (one.at == at, "an outcome"),
        Kind::Message => (one.at == at, "a message"),
        Kind::Begin => (at > last, "an order"),
        Kind::Ack => {
            (
                one.at == at && at != NEVER && is_whole(told, one.txn),
                "an acknowledgement",
            )
        }
        Kind::Read => {
            let value = value_before(told, one.key, at, one.txn);
            (at != NEVER && one.value == value, "a read")
        }
        Kind::Look => {
            let value = value_before(told, one.key, one.at, u64::MAX);
            (one.value == value, "a look")
        }
    };
    if is_true { "" } else { name }
}

/// Finds the first row of a report that is not true. Returns what it is, or an empty text.
pub fn judge(told: &[Told]) -> &'static str {
    let mut last: u64 = 0;
    for one in told {
        let wrong = untrue(told, one, last);
        if !wrong.is_empty() {
            return wrong;
        }
        match one.kind {
            Kind::Ack => last = last.max(one.at),
            _ => {}
        }
    }
    ""
}
