//! Putting a record at the end of a log.
ghost use Rattle.std.specs.Prelude.{◌≡◌, ◌≤◌, ◌+◌, length, IsTrue, OnOk, ℕ, nat_lt};
ghost use Rattle.disk.specs.Image.{IsSynced};
ghost use Rattle.disk.specs.File.{surface};
ghost use Rattle.disk.specs.declared.plan.FailurePlan.TheVariants.{Never, AfterWrite};
ghost use Rattle.disk.specs.Planned.{IsAsPlanned};
ghost use Rattle.disk.specs.Moments.{LeavesOnly, HasCause};
ghost use Rattle.frames.specs.Calls.{fails_in_append, appended};
ghost use Rattle.gatelog.specs.Armed.{IsArmed};
ghost use Rattle.gatelog.specs.Crash.{IsOldOrWith};
ghost use Rattle.gatelog.specs.Frames.{next_gate, staged_bytes};
ghost use Rattle.gatelog.specs.Log.{log, ends_at, and_entry};
ghost use Rattle.gatelog.specs.Slots.{begins_in};
ghost use Rattle.gatelog.specs.Turns.{IsNextOrNone};

use crate::token::Staged;
use disk::Disk;
use frames::open_behind;
use units::Fault;

/// Writes the frame of a record after the closed gate of a log, and opens the gate once it is on the disk.
pub fn write_frame<D: Disk>(disk: &mut D, staged: &Staged) -> Result<(), Fault>
    requires synced { D.keeps_model → IsSynced (surface (D.file disk.old)) }
    requires whole { D.keeps_model
        → IsTrue (ends_at (surface (D.file disk.old)).seen staged.now.offset) }
    ensures any_moment { D.keeps_model → LeavesOnly D.clock D.since disk.old disk.new
        (IsOldOrWith (log (surface (D.file disk.old)).seen) staged.now) }
    ensures begins { D.keeps_model → LeavesOnly D.clock D.since disk.old disk.new
        (λ image. begins_in image ≡ begins_in (surface (D.file disk.old)).seen) }
    ensures done { OnOk result (D.keeps_model → IsSynced (surface (D.file disk.new))
        × IsTrue (ends_at (surface (D.file disk.new)).seen
        (next_gate staged.now.offset staged.now.item))
        × (log (surface (D.file disk.new)).seen ≡
        and_entry (log (surface (D.file disk.old)).seen) staged.now)) }
    ensures next { OnOk result ((slot : ℕ) → D.keeps_model
        → IsNextOrNone (surface (D.file disk.old)).seen slot
        → IsNextOrNone (surface (D.file disk.new)).seen slot) }
    ensures planned { D.has_room disk.old 4 (length (staged_bytes staged.now.item) + 1) →
        IsAsPlanned (fails_in_append (D.plan disk.old)) result
        × (D.file disk.new ≡ appended (D.plan disk.old) staged.now.offset
        (staged_bytes staged.now.item) (D.file disk.old)) }
    ensures armed { (call : ℕ) → D.keeps_model
        → D.has_room disk.old 4 (length (staged_bytes staged.now.item) + 1)
        → D.plan disk.old ≡ AfterWrite call →
        IsAsPlanned (nat_lt call 4) result
        × IsArmed call (log (surface (D.file disk.old)).seen) staged.now (D.file disk.new) }
    ensures never { D.plan disk.old ≡ Never → D.plan disk.new ≡ Never }
    ensures failures_stay { D.failures disk.old ≤ D.failures disk.new }
    ensures cause { HasCause (D.failures disk.old) (D.failures disk.new) result }
{
    open_behind(disk, staged.gate, &staged.bytes)
}
