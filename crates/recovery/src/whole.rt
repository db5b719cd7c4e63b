//! A whole log is rebuilt.
ghost use Rattle.std.specs.Prelude.{◌≡◌, ◌⊎◌, Some, OnOk, IfOk, IfErr};
ghost use Rattle.record.specs.Accepted.{Accepted, taken};
ghost use Rattle.recovery.specs.Recovered.{IsRebuilt, IsSoundlyRebuilt, fault_in, items};

use crate::rebuilding::Rebuild;
use gatelog::Entry;
use memory::State;
use std::alloc::Global;
use units::{Fault, Setup};

/// Returns the state that a whole log leaves, or `None` if it has no record. Its refusals are those of `Rebuild::finish`, and
/// `Memory`.
pub fn rebuild(alloc: Global, entries: &[Entry], setup: &Setup) -> Result<Option<State>, Fault>
    ensures found { IfOk result (IsRebuilt setup.now (items entries.now)) }
    ensures sound { IfOk result (IsSoundlyRebuilt setup.now) }
    ensures accepted { OnOk result (taken setup.now (items entries.now) ≡ Accepted) }
    ensures refused { IfErr result
        (λ fault. (fault ≡ Fault.Memory)
        ⊎ (fault_in (taken setup.now (items entries.now)) entries.now ≡ Some fault)) }
{
    let mut made = Rebuild::new(alloc, setup)?;
    for entry in entries {
        match made.take(alloc, entry) {
            Ok(()) => {}
            Err(fault) => {
                made.stop();
                return Err(fault);
            }
        }
    }
    made.finish()
}
