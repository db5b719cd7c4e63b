//! What an opening finds.
ghost use Rattle.std.specs.Prelude.{◌≡◌, ◌⊎◌, Some, OnOk, IfOk, IfErr};
ghost use Rattle.record.specs.Accepted.{Accepted, taken};
ghost use Rattle.recovery.specs.Recovered.{IsRebuilt, fault_in, items};

use gatelog::Entry;
use memory::State;
use std::alloc::Global;
use units::{Fault, Setup};

/// Returns the state that all records of a log leave. Its greatest timestamp is the greatest that they tell.
pub fn rebuild(alloc: Global, entries: &[Entry], setup: &Setup) -> Result<Option<State>, Fault>
    ensures found { IfOk result (λ found. IsRebuilt setup.now (items entries.now) found) }
    ensures accepted { OnOk result (taken setup.now (items entries.now) ≡ Accepted) }
    ensures refused { IfErr result
        (λ fault. (fault ≡ Fault.Memory)
        ⊎ (fault_in (taken setup.now (items entries.now)) entries.now ≡ Some fault)) }
{
    recovery::rebuild(alloc, entries, setup)
}
