//! Transactions in their typed states: promises and decisions that are kept, aborts, locks that are asked for.
use crate::checks::is_printed;
use crate::drawn;
use crate::ids::{admits, ask};
use crate::text_logs::{keys_of, record_of};
use gatelog::{GateLog, Noted};
use made::{WrongRows, id, key, shard, stamp};
use record::Record;
use rows::{CommitRequest, Gathering, Row, Rows};
use simdisk::SimDisk;
use std::alloc::Global;
use texts::Text;
use units::{Fault, Keys, Mode, Parts, Stamp, TxnId, Writes};

// A step of a story, or what must hold then.
enum Step {
    // 1.number is taken in.
    IsAdmitted(u16),
    // It asks for `a`, which is granted, or else not yet.
    Asks(u16, Mode, bool),
    // 1.1 begins to collect votes.
    Collects,
    // A vote of shard 1 comes to 1.1.
    Votes(u32),
    // 1.1 has the vote at 108 alone.
    HasOneVote,
    // A record is logged, and 1.1 goes on by it.
    GoesBy(&'static str),
    // 1.1 alone is prepared, or nobody is.
    IsPrepared(Option<u64>),
    // 1.1 is the first that is decided, or nobody is.
    IsDecided(Option<u64>),
    // 1.1 ends, with nothing logged.
    Ends,
    IsGone(u16),
    // 1.1 alone stands, and holds `a`.
    HoldsAlone,
    NobodyIsReady,
    IsReady(u16),
    // So many drawn requests are answered as a plain table says.
    Draws(u64),
}

struct Story {
    name: &'static str,
    steps: &'static [Step],
}

static STORIES: [Story; 6] = [
    Story {
        name: "a promise is kept",
        steps: &[
            Step::IsAdmitted(1),
            Step::GoesBy("prepare 1.1 0 107 - -"),
            Step::IsPrepared(Some(107)),
            Step::IsDecided(None),
            Step::GoesBy("outcome 1.1 committed 111"),
            Step::IsGone(1),
        ],
    },
    Story {
        name: "a decision is kept: of a shard's votes the first counts",
        steps: &[
            Step::IsAdmitted(1),
            Step::Collects,
            Step::Votes(108),
            Step::Votes(109),
            Step::HasOneVote,
            Step::GoesBy("commit 1.1 111 0 - -"),
            Step::IsDecided(Some(111)),
            Step::IsPrepared(None),
            Step::GoesBy("outcome 1.1 committed 111"),
            Step::IsGone(1),
        ],
    },
    Story {
        name: "aborts, while it collects votes and while it is idle",
        steps: &[
            Step::IsAdmitted(1),
            Step::Collects,
            Step::GoesBy("abort 1.1"),
            Step::IsGone(1),
            Step::IsAdmitted(1),
            Step::GoesBy("abort 1.1"),
            Step::IsGone(1),
        ],
    },
    Story {
        name: "wounds: an older one asks for what a younger one holds",
        steps: &[
            Step::IsAdmitted(1),
            Step::IsAdmitted(2),
            Step::Asks(2, Mode::Exclusive, true),
            Step::Asks(1, Mode::Exclusive, true),
            Step::IsGone(2),
            Step::HoldsAlone,
        ],
    },
    Story {
        name: "waits: a younger one reads what an older one holds, until that ends",
        steps: &[
            Step::IsAdmitted(1),
            Step::IsAdmitted(2),
            Step::Asks(1, Mode::Exclusive, true),
            Step::Asks(2, Mode::Shared, false),
            Step::NobodyIsReady,
            Step::Ends,
            Step::IsReady(2),
        ],
    },
    Story {
        name: "drawn requests",
        steps: &[Step::Draws(400)],
    },
];

type Log = GateLog<SimDisk>;

// Logs a record.
fn logged(log: &mut Log, alloc: Global, record: Record) -> Option<Noted> {
    let Ok(staged) = log.stage(alloc, record) else {
        return None;
    };
    match log.append(staged) {
        Ok(logged) => Some(logged.note()),
        Err(_) => None,
    }
}

// Lets 1.1 go on by a record of its own, if it is in a state for it, and gives the record back.
fn spend(rows: &mut Rows, logged: Noted) -> Record {
    let own = id(1);
    match (logged.item(), rows.find(own)) {
        (Record::Prepare(record), Some(Row::Reading(state)))
            if record.txn == own && state.wait().is_none() => { rows.prepare(own, logged) }
        (Record::Commit(record), Some(Row::Collecting(_))) if record.txn == own => {
            rows.decide(own, logged)
        }
        (Record::Abort { txn }, Some(Row::Reading(_) | Row::Collecting(_))) if *txn == own => {
            rows.abort(own, logged)
        }
        (Record::Outcome { txn, .. }, Some(Row::Prepared(_) | Row::Decided(_))) if *txn == own => {
            rows.close(own, logged)
        }
        _ => logged.spend(),
    }
}

// Logs the record of a line, and tells whether 1.1 hands it back.
fn goes_by(rows: &mut Rows, log: &mut Log, alloc: Global, line: &str) -> bool {
    let Some(record) = record_of(alloc, line) else {
        return false;
    };
    let Some(logged) = logged(log, alloc, record) else {
        return false;
    };
    let record = spend(rows, logged);
    let printed = is_printed(alloc, &Text(&record), line);
    drop(record);
    printed
}

// Lets 1.1 begin to collect votes, if it is idle. It came at 105.
fn collects(rows: &mut Rows, alloc: Global) -> bool {
    let own = id(1);
    match rows.find(own) {
        Some(Row::Reading(state)) if state.wait().is_none() => match gathering(alloc) {
            Ok(gathering) => {
                rows.collect(own, gathering);
                true
            }
            Err(_) => false,
        },
        _ => false,
    }
}

fn gathering(alloc: Global) -> Result<Gathering, Fault> {
    let request = CommitRequest {
        latest: stamp(105),
        parts: Parts::only(shard(0)),
        reads: Keys::none(alloc),
        writes: Writes::none(alloc),
    };
    Gathering::new(alloc, request)
}

// Gives 1.1 a vote of shard 1, if it collects votes.
fn votes(rows: &mut Rows, at: u32) -> bool {
    let own = id(1);
    match rows.find(own) {
        Some(Row::Collecting(_)) => {
            rows.vote(own, shard(1), stamp(at));
            true
        }
        _ => false,
    }
}

// Tells whether 1.1 came at 105, and has the vote at 108 alone.
fn has_one_vote(rows: &Rows) -> bool {
    let Some(Row::Collecting(state)) = rows.find(id(1)) else {
        return false;
    };
    let votes = state.votes().as_slice();
    state.txn() == id(1)
        && state.request().latest.micros() == 105
        && votes.len() == 1
        && votes[0].at.micros() == 108
}

// Ends 1.1 if it is reading, and tells whether it was.
fn ends(rows: &mut Rows) -> bool {
    let own = id(1);
    let reads = rows.is_reading(own);
    if reads {
        rows.end(own);
    }
    reads
}

// Tells whether this is 1.1 at a timestamp, or nobody.
fn is_first(found: Option<(TxnId, Stamp)>, at: Option<u64>) -> bool {
    match (found, at) {
        (Some((txn, found)), Some(at)) => txn == id(1) && found.micros() == at,
        (None, None) => true,
        _ => false,
    }
}

// Tells whether 1.1 alone stands, and holds `a`.
fn holds_alone(rows: &Rows, alloc: Global) -> bool {
    let keys = keys_of(alloc, "a");
    let holds = rows.holds_all(id(1), &keys) && !rows.holds_all(id(2), &keys);
    drop(keys);
    holds && rows.holds(id(1), &key(b'a')) && !rows.is_full()
}

fn stands(rows: &Rows, alloc: Global, step: &Step) -> bool {
    match step {
        Step::HasOneVote => has_one_vote(rows),
        Step::IsPrepared(at) => {
            is_first(rows.nth_prepared(0), *at) && rows.nth_prepared(1).is_none()
        }
        Step::IsDecided(at) => is_first(rows.nth_decided(0), *at),
        Step::IsGone(number) => rows.find(id(*number)).is_none(),
        Step::HoldsAlone => holds_alone(rows, alloc),
        Step::NobodyIsReady => rows.ready().is_none(),
        Step::IsReady(number) => rows.ready() == Some(id(*number)),
        _ => false,
    }
}

fn goes_on(rows: &mut Rows, alloc: Global, step: &Step) -> bool {
    match step {
        Step::IsAdmitted(number) => admits(rows, alloc, id(*number)),
        Step::Asks(number, mode, granted) => {
            ask(rows, alloc, id(*number), key(b'a'), *mode) == Some(*granted)
        }
        Step::Collects => collects(rows, alloc),
        Step::Votes(at) => votes(rows, *at),
        Step::Ends => ends(rows),
        Step::Draws(turns) => drawn::agrees(rows, alloc, *turns),
        _ => stands(rows, alloc, step),
    }
}

// A body that names a table costs much to prove, so a function hands the table on.
fn stories() -> &'static [Story] {
    &STORIES
}

/// Checks all rows, with a log of all records. Each story begins with new rows.
pub fn go_over(wrong: &mut WrongRows, alloc: Global) {
    let Ok(mut log) = GateLog::format(SimDisk::new(alloc)) else {
        return wrong.unless(false, "no log");
    };
    for story in stories() {
        match Rows::new(alloc) {
            Ok(mut rows) => {
                for step in story.steps {
                    let so = match step {
                        Step::GoesBy(line) => goes_by(&mut rows, &mut log, alloc, *line),
                        _ => goes_on(&mut rows, alloc, step),
                    };
                    wrong.unless(so, story.name);
                }
                rows.stop();
            }
            Err(_) => wrong.unless(false, story.name),
        }
    }
    drop(log);
}
