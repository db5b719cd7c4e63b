//! Whether a transaction is whole over all logs.
ghost use Rattle.std.specs.Prelude.{◌≡◌, IfOk, IfErr, ◌&&◌, map, not, nat_eq, nat_lt, false};
ghost use Rattle.std.specs.List.{list_all};
ghost use Rattle.units.specs.Ids.{same_id};
ghost use Rattle.units.specs.Lists.{has, numbered};
ghost use Rattle.record.specs.Whole.{decisions, fits_decision, outcomes_fit, is_whole};
ghost use Rattle.inspector.specs.declared.whole.Tally.TheVariants.{Never};
ghost use Rattle.inspector.specs.Entries.{log_numbered, logs_from};
ghost use Rattle.inspector.specs.Tallies.{after, all_fit, decisions_here, fits_all};
ghost use Rattle.inspector.specs.Tallies.{ended_at_a_time, promised_as, stand_of, turned_down};

use crate::decisions::{Decision, decision_of};
use crate::entries::Entry;
use record::Record;
use std::alloc::Global;
use units::{Fault, ShardNo, Stamp, TxnId};

#[derive(Clone, Copy)]
/// The decisions of a transaction that were found so far: none, one and whether all logs fit it, or more.
pub enum Tally {
    Never,
    Once(bool),
    Again,
}

#[derive(Clone, Copy)]
/// How a record relates to a decision. `Nothing`: it says nothing of it. `Otherwise`: it says something else.
/// `Promised`: it promises it, and whether that fits.
pub enum Stand {
    Nothing,
    Otherwise,
    Promised(bool),
}

/// Tells whether the transaction is whole over a number of logs, of which these are the records.
#[tactic(auto, using(crate::proofs::TallyLaws::whole_is_settled), unfolding(record::specs::Whole::is_whole))]
pub fn is_whole(
    alloc: Global,
    count: usize,
    entries: &[Entry<'_>],
    txn: TxnId,
) -> Result<bool, Fault>
    ensures whole { IfOk result (λ whole. whole ≡ is_whole txn (logs_from count 0 entries.now)) }
    ensures memory { IfErr result (λ fault. fault ≡ Fault.Memory) }
{
    match tally_of(alloc, count, entries, txn)? {
        Tally::Never => Ok(never_ends(count, entries, txn)),
        Tally::Once(fits) => Ok(fits),
        Tally::Again => Ok(false),
    }
}

// Finds the decisions of all logs.
fn tally_of(alloc: Global, count: usize, entries: &[Entry<'_>], txn: TxnId) -> Result<Tally, Fault>
    ensures tally { IfOk result
        (λ tally. tally ≡ after (fits_all (logs_from count 0 entries.now) txn) Never
        (decisions (logs_from count 0 entries.now) txn)) }
    ensures memory { IfErr result (λ fault. fault ≡ Fault.Memory) }
{
    let mut tally = Tally::Never;
    for number in 0..count {
        tally = tally_log(alloc, tally, count, entries, txn, number)?;
    }
    Ok(tally)
}

// Finds the decisions of one log too.
fn tally_log(
    alloc: Global,
    mut tally: Tally,
    count: usize,
    entries: &[Entry<'_>],
    txn: TxnId,
    number: usize,
) -> Result<Tally, Fault>
    ensures after { IfOk result
        (λ found. found ≡ after (fits_all (logs_from count 0 entries.now) txn) tally
        (decisions_here txn number (log_numbered number entries.now))) }
    ensures memory { IfErr result (λ fault. fault ≡ Fault.Memory) }
{
    for entry in entries {
        if number == entry.shard {
            if let Some(decision) = decision_of(entry.item) {
                if txn == decision.txn {
                    tally = match tally {
                        Tally::Never => {
                            Tally::Once(fits(alloc, count, entries, txn, number, &decision)?)
                        }
                        _ => Tally::Again,
                    };
                }
            }
        }
    }
    Ok(tally)
}

// Tells whether every log fits the decision, and it stands in its least part's log.
#[tactic(auto, using(crate::proofs::Numbers::from_length))]
fn fits(
    alloc: Global,
    count: usize,
    entries: &[Entry<'_>],
    txn: TxnId,
    shard: usize,
    commit: &Decision<'_>,
) -> Result<bool, Fault>
    ensures fits { IfOk result
        (λ fits. fits ≡ fits_all (logs_from count 0 entries.now) txn
        (record { shard = shard; commit = commit.now })) }
    ensures memory { IfErr result (λ fault. fault ≡ Fault.Memory) }
{
    let parts = commit.parts.shards(alloc)?;
    Ok(
        shard == commit.parts.least().number() as usize
            && exist(&parts, count)
            && each_fits(count, entries, txn, shard, commit, &parts),
    )
}

// Tells whether each part is below a number.
fn exist(parts: &[ShardNo], count: usize) -> bool
    ensures { result ≡ list_all (λ n. nat_lt n count) parts.now }
{
    for part in parts {
        if part.number() as usize >= count {
            return false;
        }
    }
    true
}

// Tells whether each log fits the decision.
fn each_fits(
    count: usize,
    entries: &[Entry<'_>],
    txn: TxnId,
    shard: usize,
    commit: &Decision<'_>,
    parts: &[ShardNo],
) -> bool
    requires { parts.now ≡ commit.now.parts }
    ensures { result ≡ list_all (fits_decision txn (record { shard = shard; commit = commit.now }))
        (numbered 0 (logs_from count 0 entries.now)) }
{
    for number in 0..count {
        if !log_fits(number, entries, txn, shard, commit, parts) {
            return false;
        }
    }
    true
}

// Tells whether one log fits the decision.
fn log_fits(
    number: usize,
    entries: &[Entry<'_>],
    txn: TxnId,
    shard: usize,
    commit: &Decision<'_>,
    parts: &[ShardNo],
) -> bool
    requires { parts.now ≡ commit.now.parts }
    ensures { result ≡ all_fit (nat_eq number shard) (has commit.now.parts number) false
        (map (stand_of txn (record { shard = shard; commit = commit.now }))
        (log_numbered number entries.now)) }
{
    let is_own = number == shard;
    let is_part = is_part(parts, number);
    let mut found = false;
    for entry in entries {
        if number == entry.shard {
            match stand_of(entry.item, txn, shard, commit) {
                Stand::Nothing => {}
                Stand::Otherwise => return false,
                Stand::Promised(fits) => {
                    if !is_own {
                        if !is_part || found || !fits {
                            return false;
                        }
                        found = true;
                    }
                }
            }
        }
    }
    is_own || found || !is_part
}

// Tells whether the shard of this number is a part.
fn is_part(parts: &[ShardNo], number: usize) -> bool
    ensures { result ≡ has parts.now number }
{
    for part in parts {
        if number == part.number() as usize {
            return true;
        }
    }
    false
}

// Gives how a record relates to the decision.
fn stand_of(item: &Record, txn: TxnId, shard: usize, commit: &Decision<'_>) -> Stand
    ensures { result ≡ stand_of txn (record { shard = shard; commit = commit.now }) item.now }
{
    match item {
        Record::Prepare(prepared) => {
            promised_as(
                prepared.txn,
                prepared.coordinator,
                prepared.at,
                txn,
                shard,
                commit,
            )
        }
        Record::Abort { txn: aborted } => turned_down(txn == *aborted),
        Record::Outcome {
            txn: ended,
            outcome: None,
        } => turned_down(*ended == txn),
        Record::Outcome {
            txn: ended,
            outcome: Some(at),
        } => turned_down(ends_otherwise(*ended, *at, txn, commit)),
        Record::Settled {
            txn: ended,
            at,
            parts: _,
        } => turned_down(ends_otherwise(*ended, *at, txn, commit)),
        Record::Closed {
            txn: ended,
            coordinator: _,
            outcome: None,
        } => turned_down(*ended == txn),
        Record::Closed {
            txn: ended,
            coordinator,
            outcome: Some(at),
        } => {
            if ends_otherwise(*ended, *at, txn, commit) {
                Stand::Otherwise
            } else {
                promised_as(*ended, *coordinator, *at, txn, shard, commit)
            }
        }
        _ => Stand::Nothing,
    }
}

fn turned_down(is_otherwise: bool) -> Stand
    ensures { result ≡ turned_down is_otherwise }
{
    if is_otherwise {
        Stand::Otherwise
    } else {
        Stand::Nothing
    }
}

// Tells whether an outcome at a timestamp is the transaction's, and not the decision's.
fn ends_otherwise(ended: TxnId, at: Stamp, txn: TxnId, commit: &Decision<'_>) -> bool
    ensures { result ≡ (same_id txn ended && not (nat_eq commit.now.at at)) }
{
    txn == ended && commit.at.micros() != at.micros()
}

// Gives how a promise relates to the decision. One that fits names the coordinator, and is not above the commit's
// timestamp.
fn promised_as(
    promised: TxnId,
    coordinator: ShardNo,
    at: Stamp,
    txn: TxnId,
    shard: usize,
    commit: &Decision<'_>,
) -> Stand
    ensures { result ≡ promised_as txn (record { shard = shard; commit = commit.now })
        promised coordinator at }
{
    if promised == txn {
        Stand::Promised(coordinator.number() as usize == shard && at.micros() <= commit.at.micros())
    } else {
        Stand::Nothing
    }
}

// Tells whether no log ends the transaction at a timestamp.
fn never_ends(count: usize, entries: &[Entry<'_>], txn: TxnId) -> bool
    ensures { result ≡ list_all (λ l. outcomes_fit l txn (λ s. false))
        (logs_from count 0 entries.now) }
{
    for number in 0..count {
        if ends(number, entries, txn) {
            return false;
        }
    }
    true
}

// Tells whether the log ends the transaction at a timestamp.
fn ends(number: usize, entries: &[Entry<'_>], txn: TxnId) -> bool
    ensures { result ≡ not (outcomes_fit (log_numbered number entries.now) txn (λ s. false)) }
{
    for entry in entries {
        if number == entry.shard {
            if let Some(ended) = ended_at_a_time(entry.item) {
                if txn == ended {
                    return true;
                }
            }
        }
    }
    false
}

// Gives the transaction that the record ends at a timestamp.
fn ended_at_a_time(item: &Record) -> Option<TxnId>
    ensures { result ≡ ended_at_a_time item.now }
{
    match item {
        Record::Outcome {
            txn,
            outcome: Some(_),
        } => Some(*txn),
        Record::Closed {
            txn,
            outcome: Some(_),
            ..
        } => Some(*txn),
        Record::Settled { txn, .. } => Some(*txn),
        _ => None,
    }
}
