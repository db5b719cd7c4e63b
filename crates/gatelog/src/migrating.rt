//! Copying a log's file of version 1 into one of version 2.
ghost use Rattle.std.specs.Prelude.{◌≡◌, ◌⊎◌, ◌≤◌, ◌<◌, ◌+◌, ◌++◌, List, ℕ, length, map, true, Ok, Err, IsTrue, IsFalse, IfOk, IfErr, OnOk};
ghost use Rattle.disk.specs.File.{surface};
ghost use Rattle.disk.specs.Moments.{Elapses};
ghost use Rattle.disk.specs.declared.plan.FailurePlan.TheVariants.{Never, AfterWrite};
ghost use Rattle.frames.specs.Calls.{waits};
ghost use Rattle.gatelog.specs.First.{first_scan, first_log, HasTooLong, HasCopied, LeavesCopy, AreSpelled, IsTooLong};
ghost use Rattle.gatelog.specs.Areas.{placed_from};
ghost use Rattle.gatelog.specs.Log.{is_no_log};
ghost use Rattle.frames.specs.Placed.{Placed};
ghost use Rattle.gatelog.specs.Shown.{disk_of, gate_at, next_slot, is_stopped};

use crate::area::put_whole;
use crate::frame::{FIRST_GATE, FIRST_HEADER};
use crate::gatelog::GateLog;
use crate::laying::lay_out;
use crate::scanning::{Found, hand_on, headed};
use crate::token::Entry;
use disk::Disk;
use std::alloc::Global;
use units::Fault;

// How many bytes a copy has more: the slots, which stand before the frames.
const MORE: u64 = 9216;

/// Copies the log of a file of version 1 into another file, of version 2, whatever was in it. The first file stays as
/// it is. `NotALog` or `Damaged` tells of the first file. `TimeSpent` comes if the copy would have more than 2^40
/// bytes. After a fault other than `Device`, the other file is as it was.
pub fn migrate<D: Disk>(alloc: Global, from: &mut D, to: D) -> Result<GateLog<D>, (Fault, D)>
    ensures copied { IfOk result (λ made. D.keeps_model
        → (entries : List Placed) × HasCopied D.file D.clock D.since
        (surface (D.file from.old)).seen to (disk_of made) (gate_at made) entries) }
    ensures slot { IfOk result (λ made. next_slot made ≡ 0) }
    ensures running { IfOk result (λ made. IsFalse (is_stopped made)) }
    ensures from_stays { D.file from.new ≡ D.file from.old }
    ensures from_time { Elapses D.file D.clock D.since D.failures from.old from.new }
    ensures failures_stay { IfOk result (λ made. D.failures to ≤ D.failures (disk_of made)) }
    ensures cause { IfErr result (λ refused. ((D.file refused.1 ≡ D.file to)
        × (D.plan refused.1 ≡ D.plan to) × ((refused.0 ≡ Fault.Memory)
        ⊎ (((refused.0 ≡ Fault.Device) × (D.failures from.old < D.failures from.new))
        ⊎ (((refused.0 ≡ Fault.TimeSpent)
        × (D.keeps_model → HasTooLong (surface (D.file from.old)).seen))
        ⊎ (IsTrue (is_no_log refused.0) × (D.keeps_model
        → first_log (surface (D.file from.old)).seen ≡ Err refused.0))))))
        ⊎ ((refused.0 ≡ Fault.Device) × (D.failures to < D.failures refused.1))) }
    // With a call armed that comes after the first sync, counted from 0 in the first write: what it leaves if it
    // fails.
    ensures late { IfErr result (λ refused. (call : ℕ) → D.obeys → D.keeps_model
        → D.plan to ≡ AfterWrite call → 2 ≤ call
        → refused.0 ≡ Fault.Device → D.failures to < D.failures refused.1
        → LeavesCopy D.file (surface (D.file from.old)).seen refused.1) }
    // With no call armed, the devices do not fail.
    ensures planned { D.obeys → waits (D.plan from.old) ≡ true → D.plan to ≡ Never
        → IfOk result (λ made. D.plan (disk_of made) ≡ Never)
        × IfErr result (λ refused. (refused.0 ≡ Fault.Memory)
        ⊎ ((refused.0 ≡ Fault.TimeSpent) ⊎ IsTrue (is_no_log refused.0))) }
{
    let mut disk = to;
    let bytes = match copy_of(alloc, from) {
        Ok(bytes) => bytes,
        Err(fault) => return Err((fault, disk)),
    };
    if let Err(fault) = lay_out(&mut disk, &bytes) {
        drop(bytes);
        return Err((fault, disk));
    }
    let gate = bytes.len() as u64 - 1;
    drop(bytes);
    Ok(GateLog::laid(disk, gate))
}

/// Checks that a file holds a log of version 1 that `migrate` would copy. Its faults are those that `migrate` would
/// answer of that file.
pub fn is_old<D: Disk>(alloc: Global, from: &mut D) -> Result<(), Fault>
    ensures whole { OnOk result (D.keeps_model
        → (entries : List Placed) × (first_log (surface (D.file from.old)).seen ≡ Ok entries)) }
    ensures same { D.file from.new ≡ D.file from.old }
    ensures time { Elapses D.file D.clock D.since D.failures from.old from.new }
    ensures cause { IfErr result (λ fault. (fault ≡ Fault.Memory)
        ⊎ (((fault ≡ Fault.Device) × (D.failures from.old < D.failures from.new))
        ⊎ (((fault ≡ Fault.TimeSpent)
        × (D.keeps_model → HasTooLong (surface (D.file from.old)).seen))
        ⊎ (IsTrue (is_no_log fault) × (D.keeps_model
        → first_log (surface (D.file from.old)).seen ≡ Err fault))))) }
    ensures waits { D.obeys → waits (D.plan from.old) ≡ true →
        IfErr result (λ fault. (fault ≡ Fault.Memory)
        ⊎ ((fault ≡ Fault.TimeSpent) ⊎ IsTrue (is_no_log fault))) }
{
    drop(copy_of(alloc, from)?);
    Ok(())
}

// Makes the bytes of a copy without its header, by a file of version 1.
fn copy_of<D: Disk>(alloc: Global, disk: &mut D) -> Result<Vec<u8>, Fault>
    ensures spelled { IfOk result (λ bytes. (entries : List Placed) × AreSpelled entries bytes.items
        × (D.keeps_model → first_log (surface (D.file disk.old)).seen ≡ Ok entries)) }
    ensures same { D.file disk.new ≡ D.file disk.old }
    ensures time { Elapses D.file D.clock D.since D.failures disk.old disk.new }
    ensures cause { IfErr result (λ fault. (fault ≡ Fault.Memory)
        ⊎ (((fault ≡ Fault.Device) × (D.failures disk.old < D.failures disk.new))
        ⊎ (((fault ≡ Fault.TimeSpent)
        × (D.keeps_model → HasTooLong (surface (D.file disk.old)).seen))
        ⊎ (IsTrue (is_no_log fault) × (D.keeps_model
        → first_log (surface (D.file disk.old)).seen ≡ Err fault))))) }
    ensures waits { D.obeys → waits (D.plan disk.old) ≡ true →
        IfErr result (λ fault. (fault ≡ Fault.Memory)
        ⊎ ((fault ≡ Fault.TimeSpent) ⊎ IsTrue (is_no_log fault))) }
{
    let ahead = headed(alloc, disk, &FIRST_HEADER)?;
    let mut found = Found {
        entries: Vec::new(alloc),
    };
    match hand_on(alloc, disk, ahead, &mut found) {
        Ok(gate) => {
            let Found { entries } = found;
            let bytes = spelled(alloc, &entries, gate);
            drop(entries);
            bytes
        }
        Err(fault) => {
            drop(found);
            Err(fault)
        }
    }
}

// Makes the bytes of a copy without its header, of a log whose closed gate is at this offset.
fn spelled(alloc: Global, entries: &[Entry], gate: u64) -> Result<Vec<u8>, Fault>
    requires { placed_from 8 (map (λ e. e.item) entries.now) ≡ (entries.now, gate) }
    ensures spelled { IfOk result (λ bytes. AreSpelled entries.now bytes.items) }
    ensures cause { IfErr result (λ fault. (fault ≡ Fault.Memory)
        ⊎ ((fault ≡ Fault.TimeSpent) × IsTooLong gate)) }
{
    if gate > (1 << 40) - MORE - 1 {
        return Err(Fault::TimeSpent);
    }
    let Ok(mut bytes) = Vec::from_elem(alloc, 0, FIRST_GATE as usize) else {
        return Err(Fault::Memory);
    };
    for entry in entries {
        if !put_whole(&mut bytes, entry.item()) {
            drop(bytes);
            return Err(Fault::Memory);
        }
    }
    let Ok(()) = bytes.push(0) else {
        drop(bytes);
        return Err(Fault::Memory);
    };
    Ok(bytes)
}
