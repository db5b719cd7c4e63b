//! Locks.
ghost use Rattle.std.specs.Prelude.{◌≡◌, ◌++◌, IfOk, IfErr};
ghost use Rattle.units.specs.Locks.{shared, exclusive};

use std::alloc::Global;
use units::{Fault, Keys, Lock, Writes};

/// Makes what a transaction asks for: a shared lock of each key that it reads, and then an exclusive one of each that
/// it writes.
pub fn shared_and_exclusive(
    alloc: Global,
    reads: &Keys,
    writes: &Writes,
) -> Result<Vec<Lock>, Fault>
    ensures locks { IfOk result
        (λ locks. locks.items ≡ shared reads.now ++ exclusive writes.now) }
    ensures memory { IfErr result (λ fault. fault ≡ Fault.Memory) }
{
    locks::shared_and_exclusive(alloc, reads, writes)
}
