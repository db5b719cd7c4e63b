//! The facts of a log that its shard takes.
ghost use Rattle.std.specs.Prelude.{◌≡◌, IfOk, IfErr, IsTrue};
ghost use Rattle.record.specs.Accepted.{Accepted, followed, taken};
ghost use Rattle.record.specs.Facts.{facts_of};
ghost use Rattle.recovery.specs.Recovered.{items};

use facts::{Facts, follows_as_known, stage_agrees};
use gatelog::Entry;
use record::{accepted_follows, learn_agrees};
use std::alloc::Global;
use units::{Fault, Setup};

/// The facts of a log that its shard takes.
pub fn learn_all(alloc: Global, setup: &Setup, entries: &[Entry]) -> Result<Facts, Fault>
    requires { taken setup.now (items entries.now) ≡ Accepted }
    ensures facts { IfOk result (λ facts. facts.facts ≡ facts_of (items entries.now)) }
    ensures shard { IfOk result (λ facts. facts.shard ≡ setup.now.shard) }
    ensures followed { IsTrue (followed setup.now.shard (items entries.now)) }
    ensures memory { IfErr result (λ fault. fault ≡ Fault.Memory) }
{
    follows_as_known();
    stage_agrees();
    learn_agrees();
    accepted_follows();
    let mut facts = Facts::new(alloc, setup.shard);
    for entry in entries {
        let item = entry.item().copy(alloc)?;
        facts.reserve()?;
        facts.learn_next(item);
    }
    Ok(facts)
}
