//! Reading a log from its file.
ghost use Rattle.std.specs.Prelude.{◌≡◌, ◌⊎◌, ◌<◌, ◌≤◌, ◌+◌, Ok, Err, length, IsTrue, IfOk, IfErr, IfSome, OnOk, MatchResult, map, true};
ghost use Rattle.disk.specs.Image.{MayLeave, after_sync};
ghost use Rattle.disk.specs.File.{surface, synced};
ghost use Rattle.disk.specs.Moments.{LeavesOnly};
ghost use Rattle.frames.specs.Calls.{waits};

use disk::Disk;
use units::Fault;

/// Syncs a file before it is read. `Memory` leaves it as it was; `Device` means that the device failed.
pub fn sync_first<D: Disk>(disk: &mut D) -> Result<(), Fault>
    ensures synced { OnOk result
        (D.keeps_model → surface (D.file disk.new) ≡ after_sync (surface (D.file disk.old))) }
    ensures crash { D.keeps_model →
        LeavesOnly D.clock D.since disk.old disk.new (MayLeave (surface (D.file disk.old))) }
    ensures failures_stay { D.failures disk.old ≤ D.failures disk.new }
    ensures cause { IfErr result
        (λ fault. ((fault ≡ Fault.Memory) × (D.file disk.new ≡ D.file disk.old))
        ⊎ ((fault ≡ Fault.Device) × (D.failures disk.old < D.failures disk.new))) }
    // With no call to fail before the next write, only memory is refused.
    ensures waits { D.obeys → waits (D.plan disk.old) ≡ true →
        IfErr result (λ fault. (fault ≡ Fault.Memory) × (D.file disk.new ≡ D.file disk.old))
        × OnOk result (D.file disk.new ≡ synced (D.file disk.old))
        × (D.plan disk.new ≡ D.plan disk.old) }
{
    disk.reserve(0)?;
    disk.sync()
}
