//! What is left of a core if an input is refused with `Memory`.
ghost use Rattle.std.specs.Prelude.{◌≡◌, Err};
ghost use Rattle.shard.specs.Core.{seen, book_of};

use disk::Disk;
use message::{Input, Outbox};
use shard::Core;
use std::alloc::Global;
use truetime::Reading;
use units::Fault;

/// All is as it was: what the log determines, the state in memory, the log with the bytes on its disk, and the book. This holds after
/// `Memory`, so nothing grows once a record is logged.
pub fn memory_leaves_all<D: Disk>(
    core: &mut Core<D>,
    alloc: Global,
    now: &Reading,
    input: &Input,
) -> Result<Outbox, Fault>
    ensures state { result ≡ Err Fault.Memory
        → ((seen core.new).setup ≡ (seen core.old).setup)
        × ((seen core.new).facts ≡ (seen core.old).facts)
        × ((seen core.new).memory ≡ (seen core.old).memory)
        × ((seen core.new).stopped ≡ (seen core.old).stopped) }
    ensures log { result ≡ Err Fault.Memory
        → ((seen core.new).gate ≡ (seen core.old).gate)
        × (D.file (seen core.new).disk ≡ D.file (seen core.old).disk) }
    ensures book { result ≡ Err Fault.Memory → book_of core.new ≡ book_of core.old }
{
    core.on(alloc, now, input)
}
