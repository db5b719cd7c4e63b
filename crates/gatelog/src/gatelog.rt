//! The log. Its last frame is followed by a closed gate, which is on the disk before anything is written after it.
//! The gate is opened by a write of its own, once the frame after it is on the disk.
ghost use Rattle.std.specs.Prelude.{◌≡◌, ◌⊎◌, ◌+◌, ◌≤◌, ◌<◌, ◌^◌, [], ◌∷◌, ◌++◌, length, IsTrue, IsFalse, IfOk, IfErr, OnOk, OnErr, ℕ, nat_lt, map, true, Ok, Err};
ghost use Rattle.disk.specs.Image.{MayLeave, IsSynced, after_sync};
ghost use Rattle.disk.specs.File.{surface, synced};
ghost use Rattle.disk.specs.declared.plan.FailurePlan.TheVariants.{Never, AfterWrite};
ghost use Rattle.disk.specs.Planned.{IsAsPlanned, armed};
ghost use Rattle.disk.specs.Moments.{LeavesOnly};
ghost use Rattle.frames.specs.Calls.{fails_in_append, appended, waits};
ghost use Rattle.gatelog.specs.Armed.{IsArmed};
ghost use Rattle.gatelog.specs.ArmedTurn.{fails_in_turnover, turned, IsArmedTurn};
ghost use Rattle.gatelog.specs.Crash.{Stands, Begins, IsOldOrWith, IsOldOrNew};
ghost use Rattle.gatelog.specs.Frames.{IsNearLimit, end_from, next_gate, staged_bytes, IsFull};
ghost use Rattle.gatelog.specs.Areas.{without_header, area_bytes, placed_from};
ghost use Rattle.gatelog.specs.Gates.{first_gate};
ghost use Rattle.gatelog.specs.Groups.{group_bytes, joined, and_entries, IsOldOrWithAll};
ghost use Rattle.gatelog.specs.Laid.{WasLaid, HasNoneOr};
ghost use Rattle.gatelog.specs.Slots.{slot_count, begins_in};
ghost use Rattle.gatelog.specs.Turns.{IsNextOrNone};
ghost use Rattle.gatelog.specs.Log.{log, scan, and_entry, ends_at, is_no_log};

use crate::appending::write_frame;
use crate::area::{Area, StagedArea};
use crate::frame::{FIRST_GATE, SLOTS};
use crate::group::{Gathered, Joined};
use crate::joining::write_group;
use crate::laying::lay_out;
use crate::scanning::{Found, Sink, scan_synced};
use crate::token::{Entry, Logged, Staged};
use crate::turning::write_area;
use disk::Disk;
use record::Record;
use spelling::encoded_len;
use std::alloc::Global;
use units::Fault;

/// The log in a file on a disk. Once a device call has failed in it, it is stopped: it takes no record any more. Take
/// the disk out with `into_disk`, and open the log again.
#[derive(Drop)]
pub struct GateLog<D: Disk> {
    disk: D,
    gate: u64,
    slot: u64,
    stopped: bool,
    ghost small: { gate < 2 ^ 64 },
    ghost synced: { IsFalse stopped → D.keeps_model → IsSynced (surface (D.file disk)) },
    ghost whole: { IsFalse stopped → D.keeps_model → IsTrue (ends_at (surface (D.file disk)).seen gate) },
    ghost next: { IsFalse stopped → D.keeps_model → IsNextOrNone (surface (D.file disk)).seen slot },
}

impl<D: Disk> GateLog<D> {
    ghost use Rattle.gatelog.specs.Shown.{disk_of, gate_at, next_slot, is_stopped};

    /// Makes an empty log of a file, whatever was in it. The disk is handed back with a fault. After `Memory` the
    /// file is as it was.
    pub fn format(disk: D) -> Result<GateLog<D>, (Fault, D)>
        // From then on every crash leaves the empty log, and a read gives it.
        ensures empty { IfOk result
            (λ made. D.keeps_model → Stands (surface (D.file (disk_of made))) (Ok [])) }
        ensures read { IfOk result
            (λ made. D.keeps_model → log (surface (D.file (disk_of made))).seen ≡ Ok []) }
        ensures running { IfOk result (λ made. IsFalse (is_stopped made)) }
        ensures gate { IfOk result (λ made. gate_at made ≡ first_gate) }
        ensures slot { IfOk result (λ made. next_slot made ≡ 0) }
        ensures begins { IfOk result
            (λ made. D.keeps_model → Begins (surface (D.file (disk_of made)))
            (record { at = first_gate; slots = 0 })) }
        // All but its header was synced first. A crash from then on leaves no log, or the empty one.
        ensures laid { IfOk result (λ made. D.keeps_model
            → WasLaid D.file D.clock D.since (without_header []) (HasNoneOr [])
            disk (disk_of made)) }
        ensures failures_stay { IfOk result (λ made. D.failures disk ≤ D.failures (disk_of made)) }
        ensures cause { IfErr result
            (λ refused. ((refused.0 ≡ Fault.Memory) × (D.file refused.1 ≡ D.file disk)
            × (D.plan refused.1 ≡ D.plan disk))
            ⊎ ((refused.0 ≡ Fault.Device) × (D.failures disk < D.failures refused.1))) }
        // With no call armed, the device does not fail: it is made, or memory was refused.
        ensures planned { D.obeys → D.plan disk ≡ Never
            → IfOk result (λ made. D.plan (disk_of made) ≡ Never)
            × IfErr result (λ refused. refused.0 ≡ Fault.Memory) }
    {
        let mut disk = disk;
        if let Err(fault) = lay_out(&mut disk, &[0; 9225]) {
            return Err((fault, disk));
        }
        Ok(GateLog::laid(disk, FIRST_GATE))
    }

    // Takes up a file that was laid out, whose closed gate is at this offset and whose slots are closed.
    pub(crate) fn laid(disk: D, gate: u64) -> GateLog<D>
        requires synced { D.keeps_model → IsSynced (surface (D.file disk)) }
        requires whole { D.keeps_model → IsTrue (ends_at (surface (D.file disk)).seen gate) }
        requires next { D.keeps_model → IsNextOrNone (surface (D.file disk)).seen 0 }
        ensures disk { disk_of result ≡ disk }
        ensures gate { gate_at result ≡ gate }
        ensures slot { next_slot result ≡ 0 }
        ensures running { IsFalse (is_stopped result) }
    {
        GateLog {
            disk,
            gate,
            slot: 0,
            stopped: false,
        }
    }

    /// Takes up the log of a file, and hands its entries to a sink, one by one in order. It syncs before it reads, in
    /// pieces of at most 65,536 bytes. The disk is handed back with a fault. `NotALog`: the file does not begin with
    /// the header. `Damaged` gives the offset of a slot or of a gate. The slot is missing, is open after a closed
    /// one, or names no area after that of the slot before. The gate is missing, or is open without a whole frame.
    /// Nothing is said of what a sink was handed by a scan that is refused.
    pub fn scan<S: Sink>(alloc: Global, disk: D, sink: &mut S) -> Result<GateLog<D>, (Fault, D)>
        requires fresh { S.taken sink.old ≡ [] }
        ensures told { S.told sink.new ≡ S.told sink.old }
        ensures entries { IfOk result
            (λ made. D.keeps_model → log (surface (D.file disk)).seen ≡ Ok (S.taken sink.new)) }
        ensures gate { IfOk result (λ made. D.keeps_model
            → IsTrue (ends_at (surface (D.file disk)).seen (gate_at made))) }
        ensures end { IfOk result (λ made. D.keeps_model → gate_at made ≡
            end_from (begins_in (surface (D.file disk)).seen).at (map (λ e. e.item) (S.taken sink.new))) }
        ensures slot { IfOk result (λ made. D.keeps_model
            → next_slot made ≡ (begins_in (surface (D.file disk)).seen).slots) }
        ensures running { IfOk result (λ made. IsFalse (is_stopped made)) }
        ensures synced { IfOk result
            (λ made. D.keeps_model
            → surface (D.file (disk_of made)) ≡ after_sync (surface (D.file disk))) }
        // A crash at any moment of the call leaves no more than one before it.
        ensures any_moment { IfOk result
            (λ made. D.keeps_model
            → LeavesOnly D.clock D.since disk (disk_of made)
            (MayLeave (surface (D.file disk)))) }
        ensures refused_moment { IfErr result
            (λ refused. D.keeps_model
            → LeavesOnly D.clock D.since disk refused.1 (MayLeave (surface (D.file disk)))) }
        ensures cause { IfErr result (λ refused. (refused.0 ≡ Fault.Memory)
            ⊎ (((refused.0 ≡ Fault.Device) × (D.failures disk < D.failures refused.1))
            ⊎ (IsTrue (is_no_log refused.0)
            × (D.keeps_model → log (surface (D.file disk)).seen ≡ Err refused.0)))) }
        // Refused, but for `Device`, the file reads as it did.
        ensures unchanged { IfErr result
            (λ refused. (refused.0 ≡ Fault.Device)
            ⊎ (D.keeps_model → (surface (D.file refused.1)).seen ≡ (surface (D.file disk)).seen)) }
        ensures failures_stay { IfOk result
            (λ made. D.failures disk ≤ D.failures (disk_of made)) }

        // Refused, but for `Memory` and `Device`, the file is synced.
        ensures refused_synced { IfErr result
            (λ refused. (refused.0 ≡ Fault.Memory) ⊎ ((refused.0 ≡ Fault.Device)
            ⊎ (D.keeps_model → surface (D.file refused.1) ≡ after_sync (surface (D.file disk))))) }

        // With no call to fail before the next write, the device does not fail.
        ensures planned { D.obeys → waits (D.plan disk) ≡ true
            → IfOk result (λ made. (D.plan (disk_of made) ≡ D.plan disk)
            × (D.file (disk_of made) ≡ synced (D.file disk))) }
        ensures refused_planned { D.obeys → waits (D.plan disk) ≡ true
            → IfErr result (λ refused.
            ((D.file refused.1 ≡ D.file disk) ⊎ (D.file refused.1 ≡ synced (D.file disk)))
            × ((refused.0 ≡ Fault.Memory)
            ⊎ (IsTrue (is_no_log refused.0)
            × (D.keeps_model → log (surface (D.file disk)).seen ≡ Err refused.0)))) }
    {
        let mut disk = disk;
        match scan_synced(alloc, &mut disk, sink) {
            Ok((gate, slot)) => Ok(GateLog {
                disk,
                gate,
                slot,
                stopped: false,
            }),
            Err(fault) => Err((fault, disk)),
        }
    }

    /// Takes up the log of a file, and gives its entries in order. Its faults are those of `scan`.
    pub fn open(alloc: Global, disk: D) -> Result<(GateLog<D>, Vec<Entry>), (Fault, D)>
        ensures entries { IfOk result
            (λ opened. D.keeps_model → log (surface (D.file disk)).seen ≡ Ok opened.1.items) }
        ensures gate { IfOk result
            (λ opened. D.keeps_model
            → IsTrue (ends_at (surface (D.file disk)).seen (gate_at opened.0))) }
        ensures end { IfOk result (λ opened. D.keeps_model → gate_at opened.0 ≡
            end_from (begins_in (surface (D.file disk)).seen).at (map (λ e. e.item) opened.1.items)) }
        ensures slot { IfOk result (λ opened. D.keeps_model
            → next_slot opened.0 ≡ (begins_in (surface (D.file disk)).seen).slots) }
        ensures running { IfOk result (λ opened. IsFalse (is_stopped opened.0)) }
        ensures synced { IfOk result
            (λ opened. D.keeps_model
            → surface (D.file (disk_of opened.0)) ≡ after_sync (surface (D.file disk))) }
        // A crash at any moment of the call leaves no more than one before it.
        ensures any_moment { IfOk result
            (λ opened. D.keeps_model
            → LeavesOnly D.clock D.since disk (disk_of opened.0)
            (MayLeave (surface (D.file disk)))) }
        ensures refused_moment { IfErr result
            (λ refused. D.keeps_model
            → LeavesOnly D.clock D.since disk refused.1 (MayLeave (surface (D.file disk)))) }
        ensures cause { IfErr result (λ refused. (refused.0 ≡ Fault.Memory)
            ⊎ (((refused.0 ≡ Fault.Device) × (D.failures disk < D.failures refused.1))
            ⊎ (IsTrue (is_no_log refused.0)
            × (D.keeps_model → log (surface (D.file disk)).seen ≡ Err refused.0)))) }
        // Refused, but for `Device`, the file reads as it did.
        ensures unchanged { IfErr result
            (λ refused. (refused.0 ≡ Fault.Device)
            ⊎ (D.keeps_model → (surface (D.file refused.1)).seen ≡ (surface (D.file disk)).seen)) }
        ensures failures_stay { IfOk result
            (λ opened. D.failures disk ≤ D.failures (disk_of opened.0)) }

        // Refused, but for `Memory` and `Device`, the file is synced.
        ensures refused_synced { IfErr result
            (λ refused. (refused.0 ≡ Fault.Memory) ⊎ ((refused.0 ≡ Fault.Device)
            ⊎ (D.keeps_model → surface (D.file refused.1) ≡ after_sync (surface (D.file disk))))) }

        // With no call to fail before the next write, the device does not fail.
        ensures planned { D.obeys → waits (D.plan disk) ≡ true
            → IfOk result (λ opened. (D.plan (disk_of opened.0) ≡ D.plan disk)
            × (D.file (disk_of opened.0) ≡ synced (D.file disk))) }
        ensures refused_planned { D.obeys → waits (D.plan disk) ≡ true
            → IfErr result (λ refused.
            ((D.file refused.1 ≡ D.file disk) ⊎ (D.file refused.1 ≡ synced (D.file disk)))
            × ((refused.0 ≡ Fault.Memory)
            ⊎ (IsTrue (is_no_log refused.0)
            × (D.keeps_model → log (surface (D.file disk)).seen ≡ Err refused.0)))) }
    {
        let mut found = Found {
            entries: Vec::new(alloc),
        };
        match GateLog::scan(alloc, disk, &mut found) {
            Ok(log) => {
                let Found { entries } = found;
                Ok((log, entries))
            }
            Err(refused) => {
                drop(found);
                Err(refused)
            }
        }
    }

    /// Gives the offset of the closed gate after its last record.
    pub fn gate(&self) -> u64
        ensures { result ≡ gate_at self.now }
    {
        self.gate
    }

    /// Gives the number of its next free slot, which is 1,024 if none is left. Each turnover takes one.
    pub fn slot(&self) -> u64
        ensures { result ≡ next_slot self.now }
    {
        self.slot
    }

    /// Tells whether a device call has failed in it.
    pub fn is_stopped(&self) -> bool
        ensures value { result ≡ is_stopped self.now }
        // Between two calls every crash leaves the log that a read gives.
        ensures stands { IsFalse result → D.keeps_model
            → Stands (surface (D.file (disk_of self.now)))
            (log (surface (D.file (disk_of self.now))).seen) }
        ensures begun { IsFalse result → D.keeps_model
            → Begins (surface (D.file (disk_of self.now)))
            (begins_in (surface (D.file (disk_of self.now))).seen) }
    {
        self.stopped
    }

    /// Tells whether the file may grow by this record: to no more than 2^40 bytes.
    pub fn has_place(&self, item: &Record) -> bool
        ensures there { IsTrue result → next_gate (gate_at self.now) item.now + 1 ≤ 2 ^ 40 }
        ensures full { IsFalse result → IsFull (gate_at self.now) item.now }
    {
        fits_behind(self.gate, item)
    }

    /// Tells whether the file ends so near its limit of 2^40 bytes that a record may be too long for it.
    pub fn is_near_limit(&self) -> bool
        ensures near { IsTrue result → IsNearLimit (gate_at self.now) }
        ensures far { IsFalse result → gate_at self.now + 2 ^ 20 + 6 ≤ 2 ^ 40 }
    {
        (1 << 40) - (1 << 20) - 6 < self.gate
    }

    /// Takes all the memory that an append of this record needs, the disk's too. `Stopped`: open the log again.
    /// `TimeSpent`: the file would grow beyond 2^40 bytes.
    pub fn stage(&mut self, alloc: Global, item: Record) -> Result<Staged, Fault>
        ensures staged { IfOk result
            (λ staged. (staged.offset ≡ gate_at self.old) × (staged.item ≡ item)) }
        ensures running { OnOk result
            (IsFalse (is_stopped self.old)
            × (next_gate (gate_at self.old) item + 1 ≤ 2 ^ 40)) }
        ensures growth { OnOk result
            (next_gate (gate_at self.old) item ≤ gate_at self.old + 2 ^ 20 + 5) }
        ensures room { OnOk result
            (D.obeys → D.has_room (disk_of self.new) 4 (length (staged_bytes item) + 1)) }
        ensures plan { D.plan (disk_of self.new) ≡ D.plan (disk_of self.old) }
        ensures same { (gate_at self.new ≡ gate_at self.old)
            × (is_stopped self.new ≡ is_stopped self.old)
            × (D.file (disk_of self.new) ≡ D.file (disk_of self.old)) }
        ensures slot { next_slot self.new ≡ next_slot self.old }
        ensures failures_stay { D.failures (disk_of self.old) ≤ D.failures (disk_of self.new) }
        ensures time { LeavesOnly D.clock D.since (disk_of self.old) (disk_of self.new)
            (MayLeave (surface (D.file (disk_of self.old)))) }
        ensures cause { IfErr result
            (λ fault. ((fault ≡ Fault.Stopped) × IsTrue (is_stopped self.old))
            ⊎ (((fault ≡ Fault.TimeSpent) × IsFalse (is_stopped self.old)
            × IsFull (gate_at self.old) item)
            ⊎ ((fault ≡ Fault.Memory) × IsFalse (is_stopped self.old)
            × (next_gate (gate_at self.old) item + 1 ≤ 2 ^ 40)))) }
    {
        if self.stopped {
            drop(item);
            return Err(Fault::Stopped);
        }
        if !self.has_place(&item) {
            drop(item);
            return Err(Fault::TimeSpent);
        }
        let size = encoded_len(&item) + 6;
        if let Err(fault) = self.disk.reserve(size) {
            drop(item);
            return Err(fault);
        }
        Staged::at(alloc, self.gate, item)
    }

    /// Appends a record that was staged. It takes no memory. After a refusal the log is stopped.
    pub fn append(&mut self, staged: Staged) -> Result<Logged, Fault>
        // No append came between.
        requires { staged.offset ≡ gate_at self.old }

        // A crash at any moment of the call leaves the old log, or the old log with the record.
        ensures any_moment { IsFalse (is_stopped self.old) → D.keeps_model →
            LeavesOnly D.clock D.since (disk_of self.old) (disk_of self.new)
            (IsOldOrWith (log (surface (D.file (disk_of self.old))).seen) staged) }

        // The log begins where it began.
        ensures begins { IsFalse (is_stopped self.old) → D.keeps_model →
            LeavesOnly D.clock D.since (disk_of self.old) (disk_of self.new)
            (λ image. begins_in image ≡ begins_in (surface (D.file (disk_of self.old))).seen) }

        // From then on every crash leaves the log with the record, and a read gives it.
        ensures durable { OnOk result (D.keeps_model →
            Stands (surface (D.file (disk_of self.new)))
            (and_entry (log (surface (D.file (disk_of self.old))).seen) staged)) }
        ensures read { OnOk result (D.keeps_model →
            log (surface (D.file (disk_of self.new))).seen ≡ and_entry
            (log (surface (D.file (disk_of self.old))).seen) staged) }

        // A read gives one of the two in any case.
        ensures read_either { IsFalse (is_stopped self.old) → D.keeps_model
            → IsOldOrWith (log (surface (D.file (disk_of self.old))).seen) staged
            (surface (D.file (disk_of self.new))).seen }

        ensures names { IfOk result
            (λ logged. (logged ≡ staged.item) × IsFalse (is_stopped self.old)
            × IsFalse (is_stopped self.new)) }
        ensures gate { OnOk result (gate_at self.new ≡ next_gate staged.offset staged.item) }
        ensures slot { next_slot self.new ≡ next_slot self.old }
        ensures failures_stay { D.failures (disk_of self.old) ≤ D.failures (disk_of self.new) }
        ensures cause { IfErr result
            (λ fault. ((fault ≡ Fault.Stopped) × IsTrue (is_stopped self.old)
            × (self.new ≡ self.old))
            ⊎ ((fault ≡ Fault.Device) × IsFalse (is_stopped self.old)
            × (D.failures (disk_of self.old) < D.failures (disk_of self.new))
            × IsTrue (is_stopped self.new))) }

        // With a call armed, counted from 0: what a read gives then, and what a crash leaves by each choice.
        ensures armed { (call : ℕ) → IsFalse (is_stopped self.old) → D.keeps_model
            → D.has_room (disk_of self.old) 4 (length (staged_bytes staged.item) + 1)
            → D.plan (disk_of self.old) ≡ AfterWrite call →
            IsAsPlanned (nat_lt call 4) result
            × IsArmed call (log (surface (D.file (disk_of self.old))).seen) staged
            (D.file (disk_of self.new)) }

        // With no call armed, none is armed afterwards.
        ensures never { D.plan (disk_of self.old) ≡ Never → D.plan (disk_of self.new) ≡ Never }

        // It needs no more than was reserved: with it, it fails only by the disk's plan.
        ensures planned { IsFalse (is_stopped self.old)
            → D.has_room (disk_of self.old) 4 (length (staged_bytes staged.item) + 1) →
            IsAsPlanned (fails_in_append (D.plan (disk_of self.old))) result
            × (D.file (disk_of self.new) ≡ appended (D.plan (disk_of self.old)) staged.offset
            (staged_bytes staged.item) (D.file (disk_of self.old))) }
    {
        if self.stopped {
            drop(staged);
            return Err(Fault::Stopped);
        }
        self.stopped = true;
        match write_frame(&mut self.disk, &staged) {
            Ok(()) => {
                let Staged { gate, item, bytes } = staged;
                self.gate = gate + bytes.len() as u64;
                self.stopped = false;
                drop(bytes);
                Ok(Logged::new(item))
            }
            Err(fault) => {
                drop(staged);
                Err(fault)
            }
        }
    }

    /// Begins a group of no record, to be appended after the last record.
    pub fn group(&self, alloc: Global) -> Gathered
        ensures { result ≡ record { gate = gate_at self.now; items = [] } }
    {
        Gathered::none(alloc, self.gate)
    }

    /// Adds a record to a group, with all the memory that an append of the group needs, the disk's too. `Stopped`:
    /// open the log again. `TimeSpent`: the file would grow beyond 2^40 bytes. After a refusal the group is as it
    /// was.
    pub fn gather(
        &mut self,
        alloc: Global,
        group: &mut Gathered,
        item: Record,
    ) -> Result<Joined, Fault>
        // No append came between.
        requires { group.old.gate ≡ gate_at self.old }
        ensures joined { IfOk result (λ joined. joined ≡ item) }
        ensures added { OnOk result (group.new ≡
            record { gate = group.old.gate; items = group.old.items ++ item ∷ [] }) }
        ensures refused { OnErr result (group.new ≡ group.old) }
        ensures running { OnOk result
            (IsFalse (is_stopped self.old)
            × (next_gate (end_from group.old.gate group.old.items) item + 1 ≤ 2 ^ 40)) }
        ensures room { OnOk result
            (D.obeys
            → D.has_room (disk_of self.new) 4 (length (group_bytes group.new.items) + 1)) }
        ensures plan { D.plan (disk_of self.new) ≡ D.plan (disk_of self.old) }
        ensures same { (gate_at self.new ≡ gate_at self.old)
            × (is_stopped self.new ≡ is_stopped self.old)
            × (D.file (disk_of self.new) ≡ D.file (disk_of self.old)) }
        ensures slot { next_slot self.new ≡ next_slot self.old }
        ensures failures_stay { D.failures (disk_of self.old) ≤ D.failures (disk_of self.new) }
        ensures time { LeavesOnly D.clock D.since (disk_of self.old) (disk_of self.new)
            (MayLeave (surface (D.file (disk_of self.old)))) }
        ensures cause { IfErr result
            (λ fault. ((fault ≡ Fault.Stopped) × IsTrue (is_stopped self.old))
            ⊎ (((fault ≡ Fault.TimeSpent) × IsFalse (is_stopped self.old)
            × IsFull (end_from group.old.gate group.old.items) item)
            ⊎ ((fault ≡ Fault.Memory) × IsFalse (is_stopped self.old)
            × (next_gate (end_from group.old.gate group.old.items) item + 1 ≤ 2 ^ 40)))) }
    {
        if self.stopped {
            drop(item);
            return Err(Fault::Stopped);
        }
        if !fits_behind(group.end(), &item) {
            drop(item);
            return Err(Fault::TimeSpent);
        }
        let all = group.len() + (encoded_len(&item) + 6);
        if let Err(fault) = self.disk.reserve(all) {
            drop(item);
            return Err(fault);
        }
        match group.add(alloc, &item) {
            Ok(()) => Ok(Joined::new(item)),
            Err(fault) => {
                drop(item);
                Err(fault)
            }
        }
    }

    /// Appends a group, by the four calls of an append. It takes no memory. After a refusal the log is stopped. If
    /// the group has no record, nothing is written.
    pub fn append_all(&mut self, group: Gathered) -> Result<(), Fault>
        // No append came between.
        requires { group.gate ≡ gate_at self.old }

        // A crash at any moment of the call leaves the old log, or the old log with all the records.
        ensures any_moment { IsFalse (is_stopped self.old) → D.keeps_model →
            LeavesOnly D.clock D.since (disk_of self.old) (disk_of self.new)
            (IsOldOrWithAll (log (surface (D.file (disk_of self.old))).seen) (joined group)) }

        // The log begins where it began.
        ensures begins { IsFalse (is_stopped self.old) → D.keeps_model →
            LeavesOnly D.clock D.since (disk_of self.old) (disk_of self.new)
            (λ image. begins_in image ≡ begins_in (surface (D.file (disk_of self.old))).seen) }

        // From then on every crash leaves the log with all of them, and a read gives it.
        ensures durable { OnOk result (D.keeps_model →
            Stands (surface (D.file (disk_of self.new)))
            (and_entries (log (surface (D.file (disk_of self.old))).seen) (joined group))) }
        ensures read { OnOk result (D.keeps_model →
            log (surface (D.file (disk_of self.new))).seen ≡ and_entries
            (log (surface (D.file (disk_of self.old))).seen) (joined group)) }

        // A read gives one of the two in any case.
        ensures read_either { IsFalse (is_stopped self.old) → D.keeps_model
            → IsOldOrWithAll (log (surface (D.file (disk_of self.old))).seen) (joined group)
            (surface (D.file (disk_of self.new))).seen }

        ensures running { OnOk result
            (IsFalse (is_stopped self.old) × IsFalse (is_stopped self.new)) }
        ensures gate { OnOk result (gate_at self.new ≡ end_from group.gate group.items) }
        ensures slot { next_slot self.new ≡ next_slot self.old }
        ensures failures_stay { D.failures (disk_of self.old) ≤ D.failures (disk_of self.new) }
        ensures cause { IfErr result
            (λ fault. ((fault ≡ Fault.Stopped) × IsTrue (is_stopped self.old)
            × (self.new ≡ self.old))
            ⊎ ((fault ≡ Fault.Device) × IsFalse (is_stopped self.old)
            × (D.failures (disk_of self.old) < D.failures (disk_of self.new))
            × IsTrue (is_stopped self.new))) }

        // With no call armed, none is armed afterwards.
        ensures never { D.plan (disk_of self.old) ≡ Never → D.plan (disk_of self.new) ≡ Never }

        // It needs no more than was reserved: with it, it fails only by the disk's plan.
        ensures planned { IsFalse (is_stopped self.old) → 1 ≤ length group.items
            → D.has_room (disk_of self.old) 4 (length (group_bytes group.items) + 1) →
            IsAsPlanned (fails_in_append (D.plan (disk_of self.old))) result
            × (D.file (disk_of self.new) ≡ appended (D.plan (disk_of self.old)) group.gate
            (group_bytes group.items) (D.file (disk_of self.old))) }

        // With no record, it does nothing.
        ensures none { IsFalse (is_stopped self.old) → group.items ≡ [] →
            OnOk result (self.new ≡ self.old) × IfErr result (λ _. ⊥) }
    {
        if self.stopped {
            group.spend();
            return Err(Fault::Stopped);
        }
        if group.is_none() {
            group.spend();
            return Ok(());
        }
        let end = group.end();
        self.stopped = true;
        let written = write_group(&mut self.disk, &group);
        group.spend();
        match written {
            Ok(()) => {
                self.gate = end;
                self.stopped = false;
                Ok(())
            }
            Err(fault) => Err(fault),
        }
    }

    /// Takes all the memory that a turnover to this area needs, the disk's too. `Stopped`: open the log again.
    /// `TimeSpent`: no slot is left, or the file would grow beyond 2^40 bytes.
    pub fn stage_area(&mut self, area: Area) -> Result<StagedArea, Fault>
        ensures staged { IfOk result (λ staged. (staged.items ≡ area)
            × (staged.gate ≡ gate_at self.old)
            × (staged.slot ≡ next_slot self.old)) }
        ensures running { OnOk result (IsFalse (is_stopped self.old)
            × (next_slot self.old < slot_count)
            × (end_from (gate_at self.old + 1) area + 1 ≤ 2 ^ 40)) }
        ensures room { OnOk result (D.obeys
            → D.has_room (disk_of self.new) 5 (length (area_bytes area) + 9)) }
        ensures plan { D.plan (disk_of self.new) ≡ D.plan (disk_of self.old) }
        ensures same { (gate_at self.new ≡ gate_at self.old)
            × (next_slot self.new ≡ next_slot self.old)
            × (is_stopped self.new ≡ is_stopped self.old)
            × (D.file (disk_of self.new) ≡ D.file (disk_of self.old)) }
        ensures failures_stay { D.failures (disk_of self.old) ≤ D.failures (disk_of self.new) }
        ensures time { LeavesOnly D.clock D.since (disk_of self.old) (disk_of self.new)
            (MayLeave (surface (D.file (disk_of self.old)))) }
        ensures cause { IfErr result
            (λ fault. ((fault ≡ Fault.Stopped) × IsTrue (is_stopped self.old))
            ⊎ (((fault ≡ Fault.TimeSpent) × IsFalse (is_stopped self.old)
            × ((slot_count ≤ next_slot self.old)
            ⊎ (2 ^ 40 < end_from (gate_at self.old + 1) area + 1)))
            ⊎ ((fault ≡ Fault.Memory) × IsFalse (is_stopped self.old)
            × (next_slot self.old < slot_count)
            × (end_from (gate_at self.old + 1) area + 1 ≤ 2 ^ 40)))) }
    {
        if self.stopped {
            drop(area);
            return Err(Fault::Stopped);
        }
        if self.slot >= SLOTS || !area.has_place(self.gate) {
            drop(area);
            return Err(Fault::TimeSpent);
        }
        if let Err(fault) = self.disk.reserve(area.len() + 10) {
            drop(area);
            return Err(fault);
        }
        StagedArea::at(self.gate, self.slot, area)
    }

    /// Puts an area that was staged into the place of the log. It takes no memory. After a refusal the log is
    /// stopped.
    pub fn turn_over(&mut self, staged: StagedArea) -> Result<(), Fault>
        // No append and no turnover came between.
        requires gate { staged.gate ≡ gate_at self.old }
        requires slot { staged.slot ≡ next_slot self.old }

        // A crash at any moment of the call leaves the old log where it began, or that of the new area.
        ensures any_moment { IsFalse (is_stopped self.old) → D.keeps_model →
            LeavesOnly D.clock D.since (disk_of self.old) (disk_of self.new)
            (IsOldOrNew (surface (D.file (disk_of self.old))).seen staged.gate
            staged.slot staged.items) }

        // From then on every crash leaves the log of the new area, and a read gives it.
        ensures durable { OnOk result (D.keeps_model →
            Stands (surface (D.file (disk_of self.new)))
            (Ok (placed_from (staged.gate + 1) staged.items).0)) }
        ensures read { OnOk result (D.keeps_model →
            log (surface (D.file (disk_of self.new))).seen ≡
            Ok (placed_from (staged.gate + 1) staged.items).0) }
        ensures begins { OnOk result (D.keeps_model →
            Begins (surface (D.file (disk_of self.new)))
            (record { at = staged.gate + 1; slots = staged.slot + 1 })) }

        // A read gives one of the two in any case.
        ensures read_either { IsFalse (is_stopped self.old) → D.keeps_model
            → IsOldOrNew (surface (D.file (disk_of self.old))).seen staged.gate
            staged.slot staged.items (surface (D.file (disk_of self.new))).seen }

        ensures running { OnOk result
            (IsFalse (is_stopped self.old) × IsFalse (is_stopped self.new)) }
        ensures gate { OnOk result (gate_at self.new ≡
            end_from (staged.gate + 1) staged.items) }
        ensures slot { OnOk result (next_slot self.new ≡ next_slot self.old + 1) }
        ensures failures_stay { D.failures (disk_of self.old) ≤ D.failures (disk_of self.new) }
        ensures cause { IfErr result
            (λ fault. ((fault ≡ Fault.Stopped) × IsTrue (is_stopped self.old)
            × (self.new ≡ self.old))
            ⊎ ((fault ≡ Fault.Device) × IsFalse (is_stopped self.old)
            × (D.failures (disk_of self.old) < D.failures (disk_of self.new))
            × IsTrue (is_stopped self.new))) }

        // With a call armed, counted from 0: what a read gives then, and what a crash leaves by each choice.
        ensures armed { (call : ℕ) → IsFalse (is_stopped self.old) → D.keeps_model
            → D.has_room (disk_of self.old) 5 (length (area_bytes staged.items) + 9)
            → D.plan (disk_of self.old) ≡ AfterWrite call →
            IsAsPlanned (nat_lt call 5) result
            × IsArmedTurn call (scan (surface (D.file (disk_of self.old))).seen)
            (Ok (placed_from (staged.gate + 1) staged.items))
            (begins_in (surface (D.file (disk_of self.old))).seen)
            (record { at = staged.gate + 1; slots = staged.slot + 1 })
            (D.file (disk_of self.new)) }

        // With no call armed, none is armed afterwards.
        ensures never { D.plan (disk_of self.old) ≡ Never → D.plan (disk_of self.new) ≡ Never }

        // It needs no more than was reserved: with it, it fails only by the disk's plan.
        ensures planned { IsFalse (is_stopped self.old)
            → D.has_room (disk_of self.old) 5 (length (area_bytes staged.items) + 9) →
            IsAsPlanned (fails_in_turnover (D.plan (disk_of self.old))) result
            × (D.file (disk_of self.new) ≡ turned (D.plan (disk_of self.old)) staged.slot
            staged.gate staged.items (D.file (disk_of self.old))) }
    {
        if self.stopped {
            drop(staged);
            return Err(Fault::Stopped);
        }
        self.stopped = true;
        match write_area(&mut self.disk, &staged) {
            Ok(()) => {
                self.gate = staged.end();
                self.slot += 1;
                self.stopped = false;
                drop(staged);
                Ok(())
            }
            Err(fault) => {
                drop(staged);
                Err(fault)
            }
        }
    }

    /// Plans a failure, for tests: the device call that comes so many calls after the next append begins fails once.
    /// With `None` none does.
    pub fn arm(&mut self, call: Option<u64>)
        ensures plan { D.obeys → D.plan (disk_of self.new) ≡ armed call }
        ensures room { (calls bytes : ℕ) → D.has_room (disk_of self.old) calls bytes
            → D.has_room (disk_of self.new) calls bytes }
        ensures same { (gate_at self.new ≡ gate_at self.old)
            × (is_stopped self.new ≡ is_stopped self.old)
            × (D.file (disk_of self.new) ≡ D.file (disk_of self.old))
            × (D.failures (disk_of self.new) ≡ D.failures (disk_of self.old)) }
        ensures slot { next_slot self.new ≡ next_slot self.old }
        ensures time { LeavesOnly D.clock D.since (disk_of self.old) (disk_of self.new)
            (MayLeave (surface (D.file (disk_of self.old)))) }
    {
        self.disk.arm(call);
    }

    /// Gives up the disk as it is.
    pub fn into_disk(self) -> D
        ensures { result ≡ disk_of self }
    {
        let GateLog {
            disk,
            gate: _,
            slot: _,
            stopped: _,
        } = self;
        disk
    }
}

// Tells whether a record whose gate is at this offset leaves the file no longer than 2^40 bytes.
fn fits_behind(gate: u64, item: &Record) -> bool
    ensures there { IsTrue result → next_gate gate item.now + 1 ≤ 2 ^ 40 }
    ensures full { IsFalse result → IsFull gate item.now }
{
    let size = encoded_len(item) + 6;
    gate <= 1 << 40 && size <= (1 << 40) - gate
}
