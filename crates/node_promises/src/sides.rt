//! What openings that run at the same time give.
ghost use Rattle.std.specs.Prelude.{◌≡◌, IfOk, IfErr};
ghost use Rattle.std.specs.List.{AllZip};
ghost use Rattle.node.specs.Openings.{IsOpening};

use disk::Disk;
use node::Core;
use std::alloc::Global;
use std::thread::Threads;
use units::{Fault, Setup};

/// Returns for each disk, at its place, what its opening gives, and nothing else; or returns all disks.
pub fn open_all<R: Threads + Sync, D: Disk + Drop + Send>(
    rt: &R,
    alloc: Global,
    disks: Vec<(D, Setup)>,
) -> Result<Vec<Result<Core<D>, (Fault, D)>>, (Fault, Vec<(D, Setup)>)>
    ensures each { IfOk result (λ opened. AllZip
        (IsOpening D.keeps_model D.obeys D.file D.clock D.since D.failures D.plan)
        disks.items opened.items) }
    ensures refused { IfErr result
        (λ refused. (refused.0 ≡ Fault.Memory) × (refused.1.items ≡ disks.items)) }
{
    node::open_all(rt, alloc, disks)
}
