//! Changes that are synced.
ghost use Rattle.std.specs.Prelude.{◌≡◌, ◌⊎◌, ◌≤◌, ◌<◌, ◌+◌, ◌^◌, [], ◌∷◌, length, OnOk, ℕ};
ghost use Rattle.disk.specs.Image.{MayLeave, after_write, after_sync, tried_write};
ghost use Rattle.disk.specs.File.{surface};
ghost use Rattle.disk.specs.declared.plan.FailurePlan.TheVariants.{Never};
ghost use Rattle.disk.specs.Planned.{IsAsPlanned};
ghost use Rattle.disk.specs.Moments.{LeavesOnly, HasCause};
ghost use Rattle.frames.specs.Calls.{fails_in_two, after_two, two_made, fails_in_append, appended};
ghost use Rattle.frames.specs.Gate.{open_gate};

use crate::gate::OPEN_GATE;
use disk::Disk;
use units::Fault;

/// Writes bytes at an offset, and syncs. `Device` means that one of both failed.
pub fn write_and_sync<D: Disk>(disk: &mut D, at: u64, bytes: &[u8]) -> Result<(), Fault>
    requires { D.keeps_model → at ≤ length (surface (D.file disk.old)).seen }
    ensures planned { (calls more : ℕ) → D.has_room disk.old (calls + 2) (length bytes.now + more) →
        IsAsPlanned (fails_in_two (D.plan disk.old)) result
        × OnOk result (D.has_room disk.new calls more)
        × (D.file disk.new ≡ two_made (D.plan disk.old) at bytes.now (D.file disk.old)) }
    ensures never { D.plan disk.old ≡ Never → D.plan disk.new ≡ Never }
    ensures plan { OnOk result (D.plan disk.new ≡ after_two (D.plan disk.old)) }
    ensures done { OnOk result
        (D.keeps_model → surface (D.file disk.new) ≡ after_sync
        (after_write at bytes.now (surface (D.file disk.old)))) }
    ensures crash { D.keeps_model
        → LeavesOnly D.clock D.since disk.old disk.new
        (MayLeave (tried_write at (length bytes.now) (surface (D.file disk.old)))) }
    ensures failures_stay { D.failures disk.old ≤ D.failures disk.new }
    ensures cause { HasCause (D.failures disk.old) (D.failures disk.new) result }
{
    disk.write_at(at, bytes)?;
    disk.sync()
}

/// Writes bytes after a closed gate, and opens the gate once they are on the disk. `Device` means that a call of the
/// disk failed.
pub fn open_behind<D: Disk>(disk: &mut D, at: u64, bytes: &[u8]) -> Result<(), Fault>
    requires small { at + 1 < 2 ^ 64 }
    requires inside { D.keeps_model → at + 1 ≤ length (surface (D.file disk.old)).seen }
    ensures any_moment { D.keeps_model → LeavesOnly D.clock D.since disk.old disk.new
        (λ image. MayLeave (tried_write (at + 1) (length bytes.now) (surface (D.file disk.old))) image
        ⊎ MayLeave (tried_write at 1 (after_sync
        (after_write (at + 1) bytes.now (surface (D.file disk.old))))) image) }
    ensures done { OnOk result (D.keeps_model → surface (D.file disk.new) ≡ after_sync
        (after_write at (open_gate ∷ []) (after_sync
        (after_write (at + 1) bytes.now (surface (D.file disk.old)))))) }
    ensures planned { D.has_room disk.old 4 (length bytes.now + 1) →
        IsAsPlanned (fails_in_append (D.plan disk.old)) result
        × (D.file disk.new ≡ appended (D.plan disk.old) at bytes.now (D.file disk.old)) }
    ensures never { D.plan disk.old ≡ Never → D.plan disk.new ≡ Never }
    ensures failures_stay { D.failures disk.old ≤ D.failures disk.new }
    ensures cause { HasCause (D.failures disk.old) (D.failures disk.new) result }
{
    write_and_sync(disk, at + 1, bytes)?;
    write_and_sync(disk, at, &[OPEN_GATE])
}
