//! The records of a log, each of which has to follow those before it.
ghost use Rattle.std.specs.Prelude.{◌≡◌, ◌⊎◌, ◌++◌, ◌∷◌, [], Ok, Err, IfErr, IsTrue, IsFalse, OnOk, MatchResult};
ghost use Rattle.record.specs.Accepted.{followed};
ghost use Rattle.record.specs.Facts.{facts_of};
ghost use Rattle.facts.specs.Stages.{stage_of};
ghost use Rattle.inspection.specs.Files.{records_behind};

use facts::{Facts, follows_as_known, stage_agrees};
use gatelog::Entry;
use record::{Record, learn_agrees};
use std::alloc::Global;
use units::{Fault, ShardNo};

/// Takes the records out of some entries, as the log of a shard. A record that does not follow those before it is `Damaged` at its gate.
pub fn records_of(alloc: Global, entries: &[Entry], shard: ShardNo) -> Result<Vec<Record>, Fault>
    ensures { MatchResult result
        (λ records. records_behind shard [] entries.now ≡ Ok records.items)
        (λ fault. (fault ≡ Fault.Memory) ⊎ (records_behind shard [] entries.now ≡ Err fault)) }
{
    let mut facts = Facts::new(alloc, shard);
    let mut records = Vec::new(alloc);
    for entry in entries {
        take(&mut facts, &mut records, alloc, entry)?;
    }
    Ok(records)
}

// Takes one more record after those that were taken, which are what is known.
fn take(
    facts: &mut Facts,
    records: &mut Vec<Record>,
    alloc: Global,
    entry: &Entry,
) -> Result<(), Fault>
    requires known { facts.old.facts ≡ facts_of records.old.items }
    requires stage { facts.old.stage ≡ stage_of records.old.items }
    requires followed { IsTrue (followed facts.old.shard records.old.items) }
    ensures shard { facts.new.shard ≡ facts.old.shard }
    ensures taken { OnOk result (records.new.items ≡ records.old.items ++ entry.now.item ∷ []) }
    ensures known { OnOk result (facts.new.facts ≡ facts_of records.new.items) }
    ensures stage { OnOk result (facts.new.stage ≡ stage_of records.new.items) }
    ensures followed { OnOk result (IsTrue (followed facts.old.shard records.new.items)) }
    ensures refused { IfErr result (λ fault. (fault ≡ Fault.Memory)
        ⊎ ((fault ≡ Fault.Damaged entry.now.offset)
        × IsFalse (followed facts.old.shard (records.old.items ++ entry.now.item ∷ [])))) }
{
    follows_as_known();
    stage_agrees();
    learn_agrees();
    records.push(entry.item().copy(alloc)?)?;
    facts.reserve()?;
    match facts.learn(entry.offset(), entry.item().copy(alloc)?) {
        Ok(()) => Ok(()),
        Err((fault, _)) => Err(fault),
    }
}
