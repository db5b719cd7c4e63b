//! Shards opened side by side.
ghost use Rattle.std.specs.Prelude.{◌≡◌, IfOk, IfErr};
ghost use Rattle.std.specs.List.{AllZip};
ghost use Rattle.node.specs.Openings.{IsOpening};

use crate::side_by_side::side_by_side;
use disk::Disk;
use shard::Core;
use std::alloc::Global;
use std::thread::Threads;
use units::{Fault, Setup};

/// Opens the logs of some disks all at once, each of a shard that is told a setup. Each is opened by a thread of its own, or by the caller if
/// no thread starts. The results are those of `Core::open`, in the order of the disks. All other memory is taken first: if it is refused, no
/// disk is opened, and all come back.
pub fn open_all<R: Threads + Sync, D: Disk + Drop + Send>(
    rt: &R,
    alloc: Global,
    disks: Vec<(D, Setup)>,
) -> Result<Vec<Result<Core<D>, (Fault, D)>>, (Fault, Vec<(D, Setup)>)>
    ensures each { IfOk result (λ opened. AllZip
        (IsOpening D.keeps_model D.obeys D.file D.clock D.since D.failures D.plan)
        disks.items opened.items) }
    ensures refused { IfErr result
        (λ refused. (refused.0 ≡ Fault.Memory) × (refused.1.items ≡ disks.items)) }
{
    let open = |given: (D, Setup)| -> Result<Core<D>, (Fault, D)>
        ensures { IsOpening D.keeps_model D.obeys D.file D.clock D.since D.failures D.plan
            given result }
    {
        let (disk, setup) = given;
        Core::open(alloc, disk, setup)
    };
    match side_by_side(rt, alloc, disks, &open) {
        Ok(opened) => Ok(opened),
        Err(disks) => Err((Fault::Memory, disks)),
    }
}
