//! The facts of a log of which nobody says whose it is.
ghost use Rattle.std.specs.Prelude.{◌≡◌, ◌⊎◌, [], Some, None, Ok, Err, IfOk, IfErr, OnOk, IsTrue, IsFalse};
ghost use Rattle.record.specs.Accepted.{followed};
ghost use Rattle.record.specs.Facts.{facts_of, learn};
ghost use Rattle.facts.specs.Stages.{follows_next, stage_after};
ghost use Rattle.inspection.specs.Files.{records_behind};
ghost use Rattle.recovery.specs.Recovered.{items};
ghost use Rattle.showing.specs.Stats.{decided_by, parts_in, shard_told};
ghost use Rattle.showing.specs.Whose.{TellsItsShard};

use facts::{Facts, follows_as_known, stage_agrees};
use gatelog::Entry;
use record::{Record, learn_agrees};
use std::alloc::Global;
use units::{Fault, ShardNo};

/// Learns the facts of a log if each record follows those before it; else it is damaged at the first that does not.
pub fn learn_followed(alloc: Global, shard: ShardNo, entries: &[Entry]) -> Result<Facts, Fault>
    ensures facts { IfOk result (λ facts. facts.facts ≡ facts_of (items entries.now)) }
    ensures shard { IfOk result (λ facts. facts.shard ≡ shard) }
    ensures followed { OnOk result (IsTrue (followed shard (items entries.now))) }
    ensures behind { OnOk result
        (records_behind shard [] entries.now ≡ Ok (items entries.now)) }
    ensures refused { IfErr result (λ fault. (fault ≡ Fault.Memory)
        ⊎ (records_behind shard [] entries.now ≡ Err fault)) }
{
    follows_as_known();
    stage_agrees();
    learn_agrees();
    let mut facts = Facts::new(alloc, shard);
    for entry in entries {
        learn_one(&mut facts, alloc, entry)?;
    }
    Ok(facts)
}

// Learns one record more, where it follows.
fn learn_one(facts: &mut Facts, alloc: Global, entry: &Entry) -> Result<(), Fault>
    ensures shard { facts.new.shard ≡ facts.old.shard }
    ensures learnt { OnOk result (facts.new.facts ≡ learn facts.old.facts entry.now.item) }
    ensures stage { OnOk result
        (facts.new.stage ≡ stage_after facts.old.stage entry.now.item) }
    ensures follows { OnOk result
        (IsTrue (follows_next facts.old.shard facts.old.stage facts.old.facts entry.now.item)) }
    ensures refused { IfErr result (λ fault. (fault ≡ Fault.Memory)
        ⊎ ((fault ≡ Fault.Damaged entry.now.offset)
        × IsFalse (follows_next facts.old.shard facts.old.stage facts.old.facts
        entry.now.item))) }
{
    let item = entry.item().copy(alloc)?;
    facts.reserve()?;
    match facts.learn(entry.offset(), item) {
        Ok(()) => Ok(()),
        Err((fault, _)) => Err(fault),
    }
}

/// Tells the shard whose log it is, by its first decision. If there is none it is the last shard, which takes each promise that any
/// shard takes.
pub fn shard_told(entries: &[Entry]) -> ShardNo
    ensures { result ≡ shard_told (items entries.now) }
{
    for entry in entries {
        if let Some(shard) = decided_by(entry.item()) {
            return shard;
        }
    }
    last_shard()
}

/// If some shard takes records one after another, the shard that they tell does.
pub fn tells_its_shard()
    ensures { TellsItsShard }
{}

// The shard that made the decision that a record is.
fn decided_by(item: &Record) -> Option<ShardNo>
    ensures { result ≡ decided_by (parts_in item.now) }
{
    match item {
        Record::Commit(c) => Some(c.parts.least()),
        Record::Settled { parts, .. } => Some(parts.least()),
        _ => None,
    }
}

fn last_shard() -> ShardNo
    ensures { result ≡ 15 }
{
    match ShardNo::new(15) {
        Some(shard) => shard,
        None => unreachable!(),
    }
}
