//! Whether the logs of a store are of one store and one moment.
ghost use Rattle.std.specs.Prelude.{◌≡◌, ◌≤◌, IfErr, map};
ghost use Rattle.host_files.specs.Folders.{IsFolderFault};
ghost use Rattle.units.specs.Lists.{greatest};

use crate::names::{Name, StoreFolder};
use crate::newest::Newest;
use crate::owners::all_fit;
use crate::refused::Refused;
use crate::shards::numbered;
use disk::Disk;
use facts::{Facts, Status};
use gatelog::{Entry, GateLog};
use std::alloc::Global;
use std::fs::File;
use std::rt::Files;
use units::{Fault, Parts, ShardNo, Splits, Stamp, TxnId};

/// What the log of a shard says of transactions, and the offset at which its records end.
#[derive(Drop)]
pub struct Known {
    /// What its records say, one after the other.
    pub facts: Facts,
    /// The offset of its closed gate.
    pub end: u64,
}

/// Checks what the opening of one shard cannot: that the logs of a store are of one store and one moment. It reads them all, and writes
/// nothing. It gives the greatest timestamp of all of them. A log is refused for the first of these that is wrong:
///
/// - it is no log, or damaged, or one of its records is of another shard or does not follow those before it;
/// - it lacks the promise of a part of a commit, or the commit of an outcome, that the log of another shard tells of;
/// - its decision leaves out, or puts below its timestamp, a promise that the log of another shard holds;
/// - it holds no record at all, although the log of another shard shows that this one has served.
///
/// The last three are `Damaged` at the end of its records. Put back all logs of one backup then. Of an id that a log has retired it says nothing,
/// so it is not asked for that.
pub fn agree<R: Files<File = File>>(
    folder: &StoreFolder<'_, R>,
    alloc: Global,
    splits: &Splits,
) -> Result<Newest, Refused>
    ensures { IfErr result (λ refused. IsFolderFault refused.fault) }
{
    let mut all = Vec::new(alloc);
    for shard in 0..splits.as_slice().len() + 1 {
        all.push(known_in(folder, alloc, splits, shard)?)?;
    }
    check_agreement(alloc, &all)?;
    Ok(newest_of(&all))
}

/// Checks that some logs, by their shards, are of one store and one moment (`agree`).
pub fn check_agreement(alloc: Global, all: &[Known]) -> Result<(), Refused>
    ensures { IfErr result (λ refused. IsFolderFault refused.fault) }
{
    match first_lack(alloc, all) {
        Ok(None) => Ok(()),
        Ok(Some(lack)) => Err(Refused::older(lack.shard, lack.end, lack.than)),
        Err(fault) => Err(Refused::from(fault)),
    }
}

// The log of a shard, whose records end at this offset, lacks what the log of another one says of it.
#[derive(Clone, Copy)]
struct Lack {
    shard: usize,
    end: u64,
    than: ShardNo,
}

// The first of some logs that lacks something, if one does.
fn first_lack(alloc: Global, all: &[Known]) -> Result<Option<Lack>, Fault>
    ensures { IfErr result IsFolderFault }
{
    for one in all {
        let ids = one.facts.ids(alloc)?;
        let lack = lack_beside(one, &ids, all);
        drop(ids);
        if lack.is_some() {
            return Ok(lack);
        }
    }
    Ok(None)
}

// The greatest timestamp of some logs.
fn newest_of(all: &[Known]) -> Newest
    ensures { result.at ≡ greatest (map (λ one. one.facts.facts.floor) all.now) }
{
    let mut newest = Newest {
        shard: numbered(0),
        at: Stamp::zero(),
    };
    for one in all {
        if newest.at < one.facts.floor() {
            newest = Newest {
                shard: one.facts.shard(),
                at: one.facts.floor(),
            };
        }
    }
    newest
}

// What the log of a shard says.
fn known_in<R: Files<File = File>>(
    folder: &StoreFolder<'_, R>,
    alloc: Global,
    splits: &Splits,
    shard: usize,
) -> Result<Known, Refused>
    requires { shard ≤ 15 }
    ensures { IfErr result (λ refused. IsFolderFault refused.fault) }
{
    let file = Name::Log(shard);
    match known_on(alloc, folder.read_log(file)?, splits, shard) {
        Ok(known) => Ok(known),
        Err(fault) => Err(Refused::from(fault).of(file)),
    }
}

/// Reads what the log on a disk says. It is refused if it is no log of this shard, or if its records do not follow one another.
pub fn known_on<D: Disk + Drop>(
    alloc: Global,
    disk: D,
    splits: &Splits,
    shard: usize,
) -> Result<Known, Fault>
    requires { shard ≤ 15 }
    ensures { IfErr result IsFolderFault }
{
    let (gate_log, entries) = match GateLog::open(alloc, disk) {
        Ok(opened) => opened,
        Err((fault, disk)) => {
            drop(disk);
            return Err(fault);
        }
    };
    let end = gate_log.gate();
    drop(gate_log.into_disk());
    let facts = learnt(alloc, splits, numbered(shard), entries)?;
    Ok(Known { facts, end })
}

// The facts of some entries, if they are those of a log of this shard.
fn learnt(
    alloc: Global,
    splits: &Splits,
    shard: ShardNo,
    entries: Vec<Entry>,
) -> Result<Facts, Fault>
    ensures { IfErr result IsFolderFault }
{
    all_fit(splits, shard, &entries)?;
    let mut facts = Facts::new(alloc, shard);
    for entry in entries {
        facts.reserve()?;
        let offset = entry.offset();
        if let Err((fault, item)) = facts.learn(offset, entry.into_logged().spend()) {
            drop(item);
            return Err(fault);
        }
    }
    Ok(facts)
}

// The first log that lacks what this one says of it, if one does.
fn lack_beside(one: &Known, ids: &[TxnId], all: &[Known]) -> Option<Lack> {
    let shard = one.facts.shard();
    for other in all {
        let number = other.facts.shard();
        if number != shard && (is_new_beside(one, ids, other) || lacks(one, ids, other)) {
            return Some(Lack {
                shard: usize::from(number.number()),
                end: other.end,
                than: shard,
            });
        }
    }
    None
}

// A log holds no record, and another one tells that its shard has served: each shard of a store is opened before that.
fn is_new_beside(one: &Known, ids: &[TxnId], other: &Known) -> bool {
    other.facts.epoch() == 0 && (!ids.is_empty() || one.facts.floor() > Stamp::zero())
}

// A log lacks something that another one says of it. It keeps nothing of an id that it has retired, so it lacks nothing of that.
fn lacks(one: &Known, ids: &[TxnId], other: &Known) -> bool {
    let shard = one.facts.shard();
    let number = other.facts.shard();
    for id in ids {
        let found = other.facts.status(*id);
        if let Some(status) = one.facts.status(*id) {
            if !other.facts.is_retired(*id) && !is_answered(status, shard, number, found) {
                return true;
            }
        }
    }
    false
}

// How a transaction stands at a shard goes with how it stands at another one.
fn is_answered(status: &Status, shard: ShardNo, other: ShardNo, found: Option<&Status>) -> bool {
    match status {
        Status::Decided(committed) => {
            !committed.parts.has(other) || is_promised(found, shard, committed.at)
        }
        Status::Settled { at, parts } => !parts.has(other) || is_promised(found, shard, *at),
        Status::Prepared(prepared) => {
            prepared.coordinator != other || may_end_so(found, shard, prepared.at)
        }
        Status::Closed {
            coordinator,
            outcome,
        } => *coordinator != other || has_ended_so(found, shard, *outcome),
        Status::Aborted => true,
    }
}

// There is a promise to this coordinator, which may commit at that timestamp.
fn is_promised(found: Option<&Status>, coordinator: ShardNo, at: Stamp) -> bool {
    match found {
        Some(Status::Prepared(prepared)) => {
            prepared.coordinator == coordinator && prepared.at <= at
        }
        Some(
            Status::Closed {
                coordinator: to,
                outcome,
            },
        ) => *to == coordinator && *outcome == Some(at),
        _ => false,
    }
}

// There is no decision, or one that takes the promise of this part at that timestamp in.
fn may_end_so(found: Option<&Status>, part: ShardNo, at: Stamp) -> bool {
    match decided(found) {
        Some((decided, parts)) => parts.has(part) && at <= decided,
        None => true,
    }
}

// A promise of this part has ended as the decision says.
fn has_ended_so(found: Option<&Status>, part: ShardNo, outcome: Option<Stamp>) -> bool {
    match (decided(found), outcome) {
        (Some((decided, parts)), Some(at)) => parts.has(part) && decided == at,
        (Some(_), None) | (None, Some(_)) => false,
        (None, None) => true,
    }
}

// The timestamp and the parts of a commit decision.
fn decided(found: Option<&Status>) -> Option<(Stamp, Parts)> {
    match found {
        Some(Status::Decided(committed)) => Some((committed.at, committed.parts)),
        Some(Status::Settled { at, parts }) => Some((*at, *parts)),
        _ => None,
    }
}
