//! Putting a group of records at the end of a log.
ghost use Rattle.std.specs.Prelude.{◌≡◌, ◌≤◌, ◌+◌, length, IsTrue, OnOk, ℕ};
ghost use Rattle.disk.specs.Image.{IsSynced};
ghost use Rattle.disk.specs.File.{surface};
ghost use Rattle.disk.specs.declared.plan.FailurePlan.TheVariants.{Never};
ghost use Rattle.disk.specs.Planned.{IsAsPlanned};
ghost use Rattle.disk.specs.Moments.{LeavesOnly, HasCause};
ghost use Rattle.frames.specs.Calls.{fails_in_append, appended};
ghost use Rattle.gatelog.specs.Frames.{end_from};
ghost use Rattle.gatelog.specs.Groups.{group_bytes, joined, and_entries, IsOldOrWithAll};
ghost use Rattle.gatelog.specs.Log.{log, ends_at};
ghost use Rattle.gatelog.specs.Slots.{begins_in};
ghost use Rattle.gatelog.specs.Turns.{IsNextOrNone};

use crate::group::Gathered;
use disk::Disk;
use frames::open_behind;
use units::Fault;

/// Writes the frames of a group after the closed gate of a log, and opens that gate once they are on the disk.
pub fn write_group<D: Disk>(disk: &mut D, group: &Gathered) -> Result<(), Fault>
    requires some { 1 ≤ length group.now.items }
    requires synced { D.keeps_model → IsSynced (surface (D.file disk.old)) }
    requires whole { D.keeps_model
        → IsTrue (ends_at (surface (D.file disk.old)).seen group.now.gate) }
    ensures any_moment { D.keeps_model → LeavesOnly D.clock D.since disk.old disk.new
        (IsOldOrWithAll (log (surface (D.file disk.old)).seen) (joined group.now)) }
    ensures begins { D.keeps_model → LeavesOnly D.clock D.since disk.old disk.new
        (λ image. begins_in image ≡ begins_in (surface (D.file disk.old)).seen) }
    ensures done { OnOk result (D.keeps_model → IsSynced (surface (D.file disk.new))
        × IsTrue (ends_at (surface (D.file disk.new)).seen
        (end_from group.now.gate group.now.items))
        × (log (surface (D.file disk.new)).seen ≡
        and_entries (log (surface (D.file disk.old)).seen) (joined group.now))) }
    ensures next { OnOk result ((slot : ℕ) → D.keeps_model
        → IsNextOrNone (surface (D.file disk.old)).seen slot
        → IsNextOrNone (surface (D.file disk.new)).seen slot) }
    ensures planned { D.has_room disk.old 4 (length (group_bytes group.now.items) + 1) →
        IsAsPlanned (fails_in_append (D.plan disk.old)) result
        × (D.file disk.new ≡ appended (D.plan disk.old) group.now.gate
        (group_bytes group.now.items) (D.file disk.old)) }
    ensures never { D.plan disk.old ≡ Never → D.plan disk.new ≡ Never }
    ensures failures_stay { D.failures disk.old ≤ D.failures disk.new }
    ensures cause { HasCause (D.failures disk.old) (D.failures disk.new) result }
{
    let gate = group.gate();
    open_behind(disk, gate, group.bytes())
}
