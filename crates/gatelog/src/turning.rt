//! Putting a new area into the place of a log.
ghost use Rattle.std.specs.Prelude.{◌≡◌, ◌≤◌, ◌+◌, length, IsTrue, OnOk, Ok, ℕ, nat_lt};
ghost use Rattle.disk.specs.Image.{IsSynced};
ghost use Rattle.disk.specs.File.{surface};
ghost use Rattle.disk.specs.Moments.{LeavesOnly, HasCause};
ghost use Rattle.disk.specs.Planned.{IsAsPlanned};
ghost use Rattle.disk.specs.declared.plan.FailurePlan.TheVariants.{Never, AfterWrite};
ghost use Rattle.gatelog.specs.ArmedTurn.{fails_in_turnover, turned, IsArmedTurn};
ghost use Rattle.gatelog.specs.Crash.{IsOldOrNew};
ghost use Rattle.gatelog.specs.Frames.{end_from};
ghost use Rattle.gatelog.specs.Areas.{area_bytes, placed_from};
ghost use Rattle.gatelog.specs.Log.{scan, ends_at};
ghost use Rattle.gatelog.specs.Slots.{begins_in};
ghost use Rattle.gatelog.specs.Turns.{IsLogFrom, IsNextOrNone};

use crate::area::StagedArea;
use byteorder::{BigEndian, ByteOrder};
use disk::Disk;
use frames::open_behind;
use units::Fault;

/// Writes an area after the closed gate of a log, and its offset into a slot. It opens the slot once both are on the
/// disk.
pub fn write_area<D: Disk>(disk: &mut D, staged: &StagedArea) -> Result<(), Fault>
    requires synced { D.keeps_model → IsSynced (surface (D.file disk.old)) }
    requires whole { D.keeps_model
        → IsTrue (ends_at (surface (D.file disk.old)).seen staged.now.gate) }
    requires next { D.keeps_model
        → IsNextOrNone (surface (D.file disk.old)).seen staged.now.slot }
    ensures any_moment { D.keeps_model → LeavesOnly D.clock D.since disk.old disk.new
        (IsOldOrNew (surface (D.file disk.old)).seen staged.now.gate
        staged.now.slot staged.now.items) }
    ensures done { OnOk result (D.keeps_model → IsSynced (surface (D.file disk.new))
        × IsNextOrNone (surface (D.file disk.new)).seen (staged.now.slot + 1)
        × IsTrue (ends_at (surface (D.file disk.new)).seen
        (end_from (staged.now.gate + 1) staged.now.items))
        × IsLogFrom (record { at = staged.now.gate + 1; slots = staged.now.slot + 1 })
        (placed_from (staged.now.gate + 1) staged.now.items)
        (surface (D.file disk.new)).seen) }
    ensures planned { D.has_room disk.old 5 (length (area_bytes staged.now.items) + 9) →
        IsAsPlanned (fails_in_turnover (D.plan disk.old)) result
        × (D.file disk.new ≡ turned (D.plan disk.old) staged.now.slot
        staged.now.gate staged.now.items (D.file disk.old)) }
    ensures armed { (call : ℕ) → D.keeps_model
        → D.has_room disk.old 5 (length (area_bytes staged.now.items) + 9)
        → D.plan disk.old ≡ AfterWrite call →
        IsAsPlanned (nat_lt call 5) result
        × IsArmedTurn call (scan (surface (D.file disk.old)).seen)
        (Ok (placed_from (staged.now.gate + 1) staged.now.items))
        (begins_in (surface (D.file disk.old)).seen)
        (record { at = staged.now.gate + 1; slots = staged.now.slot + 1 })
        (D.file disk.new) }
    ensures never { D.plan disk.old ≡ Never → D.plan disk.new ≡ Never }
    ensures failures_stay { D.failures disk.old ≤ D.failures disk.new }
    ensures cause { HasCause (D.failures disk.old) (D.failures disk.new) result }
{
    let gate = staged.gate();
    let slot = staged.slot();
    disk.write_at(gate + 1, staged.bytes())?;
    let mut offset = [0; 8];
    BigEndian::write_u64(&mut offset, gate + 1);
    open_behind(disk, 8 + 9 * slot, &offset)
}
