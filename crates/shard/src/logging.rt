//! How records are staged and appended.
ghost use Rattle.std.specs.Option.{option_map};
ghost use Rattle.std.specs.Prelude.{◌≡◌, ◌≢◌, ◌⊎◌, ◌+◌, ◌<◌, ◌≤◌, ◌^◌, ℕ, length, Some, IsTrue, IsFalse, IfOk, IfErr, OnOk};
ghost use Rattle.disk.specs.File.{surface};
ghost use Rattle.disk.specs.declared.plan.FailurePlan.TheVariants.{Never, AfterWrite};
ghost use Rattle.disk.specs.Image.{MayLeave};
ghost use Rattle.disk.specs.Moments.{LeavesOnly};
ghost use Rattle.gatelog.specs.Frames.{end_from, next_gate, staged_bytes, IsFull};
ghost use Rattle.gatelog.specs.Shown.{disk_of, gate_at, next_slot, is_stopped};
ghost use Rattle.shard.specs.Groups.{and_logged_all, HoldsOldOrWithAll};
ghost use Rattle.shard.specs.Armed.{FailsIn, GoesPast, HasPlace};
ghost use Rattle.shard.specs.On.{IsLogFull};
ghost use Rattle.shard.specs.Staged.{IsPlaced};
ghost use Rattle.shard.specs.Logs.{records_in, and_logged, KeepsRecords, HoldsOldOrWith, BeginsAsBefore};

use disk::Disk;
use gatelog::{GateLog, Gathered, Logged, Staged};
use record::Record;
use std::alloc::Global;
use units::Fault;

/// Appends a record to a log. All memory is taken before it writes, so `Memory` and `TimeSpent` (the log is full) leave the log as it
/// was. After `Device` the log is stopped, and each append is `Stopped`.
pub fn append_record<D: Disk>(
    gate_log: &mut GateLog<D>,
    alloc: Global,
    item: Record,
) -> Result<Logged, Fault>
    ensures item { IfOk result (λ logged. logged ≡ item) }
    ensures failures_stay { D.failures (disk_of gate_log.old) ≤ D.failures (disk_of gate_log.new) }
    ensures running { OnOk result
        (IsFalse (is_stopped gate_log.old) × IsFalse (is_stopped gate_log.new)) }
    ensures gate { OnOk result ((gate_at gate_log.new ≡ next_gate (gate_at gate_log.old) item)
        × (gate_at gate_log.new ≤ gate_at gate_log.old + 2 ^ 20 + 5)) }
    ensures slot { next_slot gate_log.new ≡ next_slot gate_log.old }
    ensures place { OnOk result (next_gate (gate_at gate_log.old) item + 1 ≤ 2 ^ 40) }
    ensures cause { IfErr result
        (λ fault. ((fault ≡ Fault.Stopped) × IsTrue (is_stopped gate_log.old))
        ⊎ (((fault ≡ Fault.Memory) × IsFalse (is_stopped gate_log.old))
        ⊎ (((fault ≡ Fault.TimeSpent) × IsFalse (is_stopped gate_log.old)
        × IsFull (gate_at gate_log.old) item)
        ⊎ ((fault ≡ Fault.Device) × IsFalse (is_stopped gate_log.old)
        × (D.failures (disk_of gate_log.old) < D.failures (disk_of gate_log.new))
        × IsTrue (is_stopped gate_log.new))))) }
    ensures kept { IfErr result (λ fault. (fault ≡ Fault.Device)
        ⊎ ((is_stopped gate_log.new ≡ is_stopped gate_log.old)
        × (gate_at gate_log.new ≡ gate_at gate_log.old)
        × (D.file (disk_of gate_log.new) ≡ D.file (disk_of gate_log.old)))) }
    ensures tried { IfErr result (λ fault.
        ((fault ≡ Fault.Device) × (next_gate (gate_at gate_log.old) item + 1 ≤ 2 ^ 40))
        ⊎ ((fault ≢ Fault.Device)
        × LeavesOnly D.clock D.since (disk_of gate_log.old) (disk_of gate_log.new)
        (MayLeave (surface (D.file (disk_of gate_log.old)))))) }
    ensures any_moment { IsFalse (is_stopped gate_log.old) → D.keeps_model →
        LeavesOnly D.clock D.since (disk_of gate_log.old) (disk_of gate_log.new)
        (HoldsOldOrWith (records_in (surface (D.file (disk_of gate_log.old))).seen)
        (Some item)) }
    ensures begins { IsFalse (is_stopped gate_log.old) → D.keeps_model →
        LeavesOnly D.clock D.since (disk_of gate_log.old) (disk_of gate_log.new)
        (BeginsAsBefore (surface (D.file (disk_of gate_log.old)))) }
    ensures durable { OnOk result (D.keeps_model →
        KeepsRecords (surface (D.file (disk_of gate_log.new)))
        (and_logged (records_in (surface (D.file (disk_of gate_log.old))).seen)
        (Some item))) }
    ensures read { OnOk result (D.keeps_model →
        records_in (surface (D.file (disk_of gate_log.new))).seen ≡ and_logged
        (records_in (surface (D.file (disk_of gate_log.old))).seen) (Some item)) }
    // With no call armed the device does not fail.
    ensures planned { D.obeys → D.plan (disk_of gate_log.old) ≡ Never
        → (D.plan (disk_of gate_log.new) ≡ Never) × IfErr result (λ fault. fault ≢ Fault.Device) }
    // With a call armed, counted from 0: it fails if it is one of the append's, and leaves this.
    ensures armed { (call : ℕ) → IsFalse (is_stopped gate_log.old) → D.obeys → D.keeps_model
        → D.plan (disk_of gate_log.old) ≡ AfterWrite call
        → OnOk result (GoesPast call (Some item))
        × IfErr result (FailsIn call (gate_at gate_log.old)
        (records_in (surface (D.file (disk_of gate_log.old))).seen) (Some item)
        (D.file (disk_of gate_log.new))) }
{
    if gate_log.is_stopped() {
        drop(item);
        return Err(Fault::Stopped);
    }
    match gate_log.stage(alloc, item) {
        Ok(staged) => gate_log.append(staged),
        Err(fault) => Err(fault),
    }
}

/// Takes all the memory to append a record, if there is one, and writes nothing. `TimeSpent` if the log has no room for it.
pub fn stage_record<D: Disk>(
    gate_log: &mut GateLog<D>,
    alloc: Global,
    item: Option<Record>,
) -> Result<Option<Staged>, Fault>
    requires { IsFalse (is_stopped gate_log.old) }
    ensures item { IfOk result (λ frame. option_map (λ e. e.item) frame ≡ item) }
    ensures placed { IfOk result
        (IsPlaced D.obeys (D.has_room (disk_of gate_log.new)) (gate_at gate_log.new)) }
    ensures same { (gate_at gate_log.new ≡ gate_at gate_log.old)
        × (is_stopped gate_log.new ≡ is_stopped gate_log.old)
        × (next_slot gate_log.new ≡ next_slot gate_log.old) }
    ensures file { D.file (disk_of gate_log.new) ≡ D.file (disk_of gate_log.old) }
    ensures plan { D.plan (disk_of gate_log.new) ≡ D.plan (disk_of gate_log.old) }
    ensures failures_stay { D.failures (disk_of gate_log.old) ≤ D.failures (disk_of gate_log.new) }
    ensures time { LeavesOnly D.clock D.since (disk_of gate_log.old) (disk_of gate_log.new)
        (MayLeave (surface (D.file (disk_of gate_log.old)))) }
    ensures place { OnOk result (HasPlace (gate_at gate_log.old) item) }
    ensures cause { IfErr result
        (λ fault. ((fault ≡ Fault.Memory) × HasPlace (gate_at gate_log.old) item)
        ⊎ ((fault ≡ Fault.TimeSpent) × IsLogFull (gate_at gate_log.old) item)) }
{
    match item {
        Some(item) => match gate_log.stage(alloc, item) {
            Ok(staged) => Ok(Some(staged)),
            Err(fault) => Err(fault),
        },
        None => Ok(None),
    }
}

/// Appends a staged record. It takes no memory. `Device` is its only refusal, and the log is then stopped.
pub fn append_staged<D: Disk>(gate_log: &mut GateLog<D>, staged: Staged) -> Result<Logged, Fault>
    requires running { IsFalse (is_stopped gate_log.old) }
    requires at { staged.offset ≡ gate_at gate_log.old }
    requires place { next_gate (gate_at gate_log.old) staged.item + 1 ≤ 2 ^ 40 }
    requires room { D.obeys
        → D.has_room (disk_of gate_log.old) 4 (length (staged_bytes staged.item) + 1) }
    ensures item { IfOk result (λ logged. logged ≡ staged.item) }
    ensures failures_stay { D.failures (disk_of gate_log.old) ≤ D.failures (disk_of gate_log.new) }
    ensures running { OnOk result (IsFalse (is_stopped gate_log.new)) }
    ensures gate { OnOk result
        (gate_at gate_log.new ≡ next_gate (gate_at gate_log.old) staged.item) }
    ensures slot { next_slot gate_log.new ≡ next_slot gate_log.old }
    ensures cause { IfErr result (λ fault. (fault ≡ Fault.Device)
        × (D.failures (disk_of gate_log.old) < D.failures (disk_of gate_log.new))
        × IsTrue (is_stopped gate_log.new)) }
    ensures any_moment { D.keeps_model →
        LeavesOnly D.clock D.since (disk_of gate_log.old) (disk_of gate_log.new)
        (HoldsOldOrWith (records_in (surface (D.file (disk_of gate_log.old))).seen)
        (Some staged.item)) }
    ensures begins { D.keeps_model →
        LeavesOnly D.clock D.since (disk_of gate_log.old) (disk_of gate_log.new)
        (BeginsAsBefore (surface (D.file (disk_of gate_log.old)))) }
    ensures durable { OnOk result (D.keeps_model →
        KeepsRecords (surface (D.file (disk_of gate_log.new)))
        (and_logged (records_in (surface (D.file (disk_of gate_log.old))).seen)
        (Some staged.item))) }
    ensures read { OnOk result (D.keeps_model →
        records_in (surface (D.file (disk_of gate_log.new))).seen ≡ and_logged
        (records_in (surface (D.file (disk_of gate_log.old))).seen) (Some staged.item)) }
    // With no call armed the device does not fail.
    ensures planned { D.obeys → D.plan (disk_of gate_log.old) ≡ Never
        → (D.plan (disk_of gate_log.new) ≡ Never) × IfErr result (λ fault. fault ≢ Fault.Device) }
    // With a call armed, counted from 0: it fails if it is one of the append's, and leaves this.
    ensures armed { (call : ℕ) → D.obeys → D.keeps_model
        → D.plan (disk_of gate_log.old) ≡ AfterWrite call
        → OnOk result (GoesPast call (Some staged.item))
        × IfErr result (FailsIn call (gate_at gate_log.old)
        (records_in (surface (D.file (disk_of gate_log.old))).seen) (Some staged.item)
        (D.file (disk_of gate_log.new))) }
{
    gate_log.append(staged)
}

/// Appends a group of records. It takes no memory, and fails by the device alone.
pub fn append_group<D: Disk>(gate_log: &mut GateLog<D>, group: Gathered) -> Result<(), Fault>
    requires running { IsFalse (is_stopped gate_log.old) }
    requires at { group.gate ≡ gate_at gate_log.old }
    ensures failures_stay { D.failures (disk_of gate_log.old) ≤ D.failures (disk_of gate_log.new) }
    ensures running { OnOk result (IsFalse (is_stopped gate_log.new)) }
    ensures gate { OnOk result (gate_at gate_log.new ≡ end_from group.gate group.items) }
    ensures slot { next_slot gate_log.new ≡ next_slot gate_log.old }
    ensures cause { IfErr result (λ fault. (fault ≡ Fault.Device)
        × (D.failures (disk_of gate_log.old) < D.failures (disk_of gate_log.new))
        × IsTrue (is_stopped gate_log.new)) }
    ensures any_moment { D.keeps_model →
        LeavesOnly D.clock D.since (disk_of gate_log.old) (disk_of gate_log.new)
        (HoldsOldOrWithAll (records_in (surface (D.file (disk_of gate_log.old))).seen)
        group.items) }
    ensures begins { D.keeps_model →
        LeavesOnly D.clock D.since (disk_of gate_log.old) (disk_of gate_log.new)
        (BeginsAsBefore (surface (D.file (disk_of gate_log.old)))) }
    ensures durable { OnOk result (D.keeps_model →
        KeepsRecords (surface (D.file (disk_of gate_log.new)))
        (and_logged_all (records_in (surface (D.file (disk_of gate_log.old))).seen)
        group.items)) }
    ensures read { OnOk result (D.keeps_model →
        records_in (surface (D.file (disk_of gate_log.new))).seen ≡ and_logged_all
        (records_in (surface (D.file (disk_of gate_log.old))).seen) group.items) }
{
    gate_log.append_all(group)
}
