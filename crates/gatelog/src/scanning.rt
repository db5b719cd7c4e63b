//! A scan of a log's file, piece by piece.
ghost use Rattle.std.specs.Prelude.{◌≡◌, ◌≢◌, ◌⊎◌, ◌≤◌, ◌<◌, ◌+◌, ◌++◌, ◌∷◌, [], List, ℕ, length, take, drop, map, Ok, Err, OnOk, IfOk, IfErr};
ghost use Rattle.std.specs.Prelude.{IfSome, IfNone, IsTrue, Result, true};
ghost use Rattle.units.specs.declared.fault.Fault.{Fault};
ghost use Rattle.disk.specs.File.{surface};
ghost use Rattle.disk.specs.Image.{MayLeave, after_sync};
ghost use Rattle.disk.specs.File.{synced};
ghost use Rattle.disk.specs.Moments.{Elapses, LeavesOnly};
ghost use Rattle.frames.specs.Ahead.{IsAhead, ToDo};
ghost use Rattle.frames.specs.Calls.{waits};
ghost use Rattle.gatelog.specs.Areas.{placed_from};
ghost use Rattle.frames.specs.Placed.{Placed};
ghost use Rattle.frames.specs.Entries.{entries_at, with_entries};
ghost use Rattle.gatelog.specs.Log.{scan, is_no_log};
ghost use Rattle.gatelog.specs.Slots.{begins_in};
ghost use Rattle.gatelog.specs.Turns.{IsNextOrNone};

use crate::frame::HEADER;
use crate::opening::sync_first;
use crate::slots::{area_named, open_slots};
use crate::token::Entry;
use disk::Disk;
use frames::{Front, Pieces, front_of};
use std::alloc::Global;
use units::Fault;

/// Takes the entries of a log, one by one, in their order.
pub trait Sink {
    /// What no entry changes of it.
    ghost Told: { Type 0 };

    ghost told: { Self → Told };

    /// The entries that it took.
    ghost taken: { Self → List Placed };

    /// Takes the next entry. It is refused for want of memory alone.
    fn take(&mut self, alloc: Global, entry: Entry) -> Result<(), Fault>
        ensures taken { OnOk result (taken self.new ≡ taken self.old ++ entry ∷ []) }
        ensures told { told self.new ≡ told self.old }
        ensures memory { IfErr result (λ fault. fault ≡ Fault.Memory) };
}

/// All entries of a log, in a list.
#[derive(Drop)]
pub struct Found {
    pub entries: Vec<Entry>,
}

impl Sink for Found {
    ghost Told = { Unit {0} };

    ghost told = { λ found. tt };

    ghost taken = { λ found. found.entries.items };

    fn take(&mut self, _alloc: Global, entry: Entry) -> Result<(), Fault> {
        self.entries.push(entry)?;
        Ok(())
    }
}

// Hands the next entry over, or reads on. At the closed gate it answers its offset.
fn hand_next<D: Disk, S: Sink>(
    alloc: Global,
    disk: &mut D,
    ahead: &mut Pieces,
    sink: &mut S,
) -> Result<Option<u64>, Fault>
    requires there { D.keeps_model → IsAhead (surface (D.file disk.old)).seen ahead.old }
    ensures told { S.told sink.new ≡ S.told sink.old }
    ensures there { OnOk result
        (D.keeps_model → IsAhead (surface (D.file disk.old)).seen ahead.new) }
    ensures less { IfOk result (λ found. IfNone found (ToDo ahead.new < ToDo ahead.old)) }
    ensures goes_on { IfOk result (λ found. IfNone found
        (D.keeps_model → (total : Result (List Placed × ℕ) Fault)
        → with_entries (S.taken sink.old)
        (entries_at ahead.old.at 0 (drop ahead.old.at (surface (D.file disk.old)).seen)) ≡ total
        → with_entries (S.taken sink.new)
        (entries_at ahead.new.at 0 (drop ahead.new.at (surface (D.file disk.old)).seen)) ≡ total)) }
    ensures placed { IfOk result (λ found. IfNone found ((begins : ℕ)
        → placed_from begins (map (λ e. e.item) (S.taken sink.old)) ≡ (S.taken sink.old, ahead.old.at)
        → placed_from begins (map (λ e. e.item) (S.taken sink.new)) ≡ (S.taken sink.new, ahead.new.at))) }
    ensures closed { IfOk result (λ found. IfSome found (λ gate. (gate ≡ ahead.old.at)
        × (S.taken sink.new ≡ S.taken sink.old)
        × (D.keeps_model
        → entries_at ahead.old.at 0 (drop ahead.old.at (surface (D.file disk.old)).seen)
        ≡ Ok ([], gate)))) }
    ensures same { D.file disk.new ≡ D.file disk.old }
    ensures time { Elapses D.file D.clock D.since D.failures disk.old disk.new }
    ensures cause { IfErr result (λ fault. (fault ≡ Fault.Memory)
        ⊎ (((fault ≡ Fault.Device) × (D.failures disk.old < D.failures disk.new))
        ⊎ ((fault ≡ Fault.Damaged ahead.old.at) × (D.keeps_model
        → entries_at ahead.old.at 0 (drop ahead.old.at (surface (D.file disk.old)).seen)
        ≡ Err fault)))) }
    ensures waits { D.obeys → waits (D.plan disk.old) ≡ true →
        IfErr result (λ fault. (fault ≡ Fault.Memory) ⊎ IsTrue (is_no_log fault))
        × (D.plan disk.new ≡ D.plan disk.old) }
{
    let at = ahead.at();
    match front_of(alloc, ahead.bytes(), ahead.left()) {
        Ok(Front::Closed) => Ok(Some(at)),
        Ok(Front::Whole(item, size)) => {
            sink.take(alloc, Entry::new(at, item))?;
            ahead.pass(size);
            Ok(None)
        }
        Ok(Front::Part) => {
            ahead.more(alloc, disk)?;
            Ok(None)
        }
        Ok(Front::Broken) => Err(Fault::Damaged { offset: at }),
        Err(fault) => Err(fault),
    }
}

/// Hands the entries of an area over to a sink, from the front of the area on. Answers the offset of the closed gate.
pub fn hand_on<D: Disk, S: Sink>(
    alloc: Global,
    disk: &mut D,
    ahead: Pieces,
    sink: &mut S,
) -> Result<u64, Fault>
    requires fresh { S.taken sink.old ≡ [] }
    requires there { D.keeps_model → IsAhead (surface (D.file disk.old)).seen ahead }
    ensures told { S.told sink.new ≡ S.told sink.old }
    ensures found { IfOk result (λ gate. D.keeps_model
        → entries_at ahead.at 0 (drop ahead.at (surface (D.file disk.old)).seen)
        ≡ Ok (S.taken sink.new, gate)) }
    ensures placed { IfOk result (λ gate.
        placed_from ahead.at (map (λ e. e.item) (S.taken sink.new)) ≡ (S.taken sink.new, gate)) }
    ensures same { D.file disk.new ≡ D.file disk.old }
    ensures time { Elapses D.file D.clock D.since D.failures disk.old disk.new }
    ensures cause { IfErr result (λ fault. (fault ≡ Fault.Memory)
        ⊎ (((fault ≡ Fault.Device) × (D.failures disk.old < D.failures disk.new))
        ⊎ (IsTrue (is_no_log fault) × (D.keeps_model
        → entries_at ahead.at 0 (drop ahead.at (surface (D.file disk.old)).seen)
        ≡ Err fault)))) }
    ensures waits { D.obeys → waits (D.plan disk.old) ≡ true →
        IfErr result (λ fault. (fault ≡ Fault.Memory) ⊎ IsTrue (is_no_log fault))
        × (D.plan disk.new ≡ D.plan disk.old) }
{
    let mut ahead = ahead;
    let mut gate = None;
    while gate.is_none() {
        gate = hand_next(alloc, disk, &mut ahead, sink)?;
    }
    match gate {
        Some(gate) => Ok(gate),
        None => unreachable!(),
    }
}

/// Hands the entries of a file over to a sink. Answers the offset of its closed gate, and the number of its next
/// slot.
pub fn hand_over<D: Disk, S: Sink>(
    alloc: Global,
    disk: &mut D,
    sink: &mut S,
) -> Result<(u64, u64), Fault>
    requires fresh { S.taken sink.old ≡ [] }
    ensures told { S.told sink.new ≡ S.told sink.old }
    ensures found { IfOk result (λ end. D.keeps_model
        → scan (surface (D.file disk.old)).seen ≡ Ok (S.taken sink.new, end.0)) }
    ensures placed { IfOk result (λ end. D.keeps_model
        → placed_from (begins_in (surface (D.file disk.old)).seen).at
        (map (λ e. e.item) (S.taken sink.new)) ≡ (S.taken sink.new, end.0)) }
    ensures next { IfOk result (λ end. D.keeps_model
        → IsNextOrNone (surface (D.file disk.old)).seen end.1) }
    ensures same { D.file disk.new ≡ D.file disk.old }
    ensures time { Elapses D.file D.clock D.since D.failures disk.old disk.new }
    ensures cause { IfErr result (λ fault. (fault ≡ Fault.Memory)
        ⊎ (((fault ≡ Fault.Device) × (D.failures disk.old < D.failures disk.new))
        ⊎ (IsTrue (is_no_log fault) × (D.keeps_model
        → scan (surface (D.file disk.old)).seen ≡ Err fault)))) }
    ensures waits { D.obeys → waits (D.plan disk.old) ≡ true →
        IfErr result (λ fault. (fault ≡ Fault.Memory) ⊎ IsTrue (is_no_log fault))
        × (D.plan disk.new ≡ D.plan disk.old) }
{
    let (ahead, slot) = begin(alloc, disk)?;
    let gate = hand_on(alloc, disk, ahead, sink)?;
    Ok((gate, slot))
}

/// Syncs a file, and hands its entries over to a sink. Answers the offset of its closed gate, and the number of its
/// next slot.
pub fn scan_synced<D: Disk, S: Sink>(
    alloc: Global,
    disk: &mut D,
    sink: &mut S,
) -> Result<(u64, u64), Fault>
    requires fresh { S.taken sink.old ≡ [] }
    ensures told { S.told sink.new ≡ S.told sink.old }
    ensures found { IfOk result (λ end. D.keeps_model
        → scan (surface (D.file disk.old)).seen ≡ Ok (S.taken sink.new, end.0)) }
    ensures placed { IfOk result (λ end. D.keeps_model
        → placed_from (begins_in (surface (D.file disk.old)).seen).at
        (map (λ e. e.item) (S.taken sink.new)) ≡ (S.taken sink.new, end.0)) }
    ensures next { IfOk result (λ end. D.keeps_model
        → IsNextOrNone (surface (D.file disk.old)).seen end.1) }
    ensures synced { OnOk result
        (D.keeps_model → surface (D.file disk.new) ≡ after_sync (surface (D.file disk.old))) }
    ensures crash { D.keeps_model →
        LeavesOnly D.clock D.since disk.old disk.new (MayLeave (surface (D.file disk.old))) }
    ensures unchanged { IfErr result (λ fault. (fault ≡ Fault.Device)
        ⊎ (D.keeps_model → (surface (D.file disk.new)).seen ≡ (surface (D.file disk.old)).seen)) }
    ensures refused_synced { IfErr result (λ fault. (fault ≡ Fault.Memory) ⊎ ((fault ≡ Fault.Device)
        ⊎ (D.keeps_model → surface (D.file disk.new) ≡ after_sync (surface (D.file disk.old))))) }
    ensures failures_stay { D.failures disk.old ≤ D.failures disk.new }
    ensures cause { IfErr result (λ fault. (fault ≡ Fault.Memory)
        ⊎ (((fault ≡ Fault.Device) × (D.failures disk.old < D.failures disk.new))
        ⊎ (IsTrue (is_no_log fault) × (D.keeps_model
        → scan (surface (D.file disk.old)).seen ≡ Err fault)))) }
    // With no call to fail before the next write, the device does not fail.
    ensures waits { D.obeys → waits (D.plan disk.old) ≡ true →
        IfErr result (λ fault. ((fault ≡ Fault.Memory) ⊎ IsTrue (is_no_log fault))
        × ((D.file disk.new ≡ D.file disk.old) ⊎ (D.file disk.new ≡ synced (D.file disk.old))))
        × OnOk result (D.file disk.new ≡ synced (D.file disk.old))
        × (D.plan disk.new ≡ D.plan disk.old) }
{
    sync_first(disk)?;
    hand_over(alloc, disk, sink)
}

// Begins at the front of the area that the slots of a file name, and answers the number of its next slot too.
fn begin<D: Disk>(alloc: Global, disk: &mut D) -> Result<(Pieces, u64), Fault>
    ensures there { IfOk result (λ begun. D.keeps_model
        → IsAhead (surface (D.file disk.old)).seen begun.0) }
    ensures area { IfOk result (λ begun. D.keeps_model
        → scan (surface (D.file disk.old)).seen ≡
        entries_at begun.0.at 0 (drop begun.0.at (surface (D.file disk.old)).seen)) }
    ensures begins { IfOk result (λ begun. D.keeps_model
        → (begins_in (surface (D.file disk.old)).seen).at ≡ begun.0.at) }
    ensures next { IfOk result (λ begun. D.keeps_model
        → IsNextOrNone (surface (D.file disk.old)).seen begun.1) }
    ensures same { D.file disk.new ≡ D.file disk.old }
    ensures time { Elapses D.file D.clock D.since D.failures disk.old disk.new }
    ensures cause { IfErr result (λ fault. (fault ≡ Fault.Memory)
        ⊎ (((fault ≡ Fault.Device) × (D.failures disk.old < D.failures disk.new))
        ⊎ (IsTrue (is_no_log fault) × (D.keeps_model
        → scan (surface (D.file disk.old)).seen ≡ Err fault)))) }
    ensures waits { D.obeys → waits (D.plan disk.old) ≡ true →
        IfErr result (λ fault. (fault ≡ Fault.Memory) ⊎ IsTrue (is_no_log fault))
        × (D.plan disk.new ≡ D.plan disk.old) }
{
    let mut ahead = headed(alloc, disk, &HEADER)?;
    let area = area_named(ahead.bytes(), ahead.len())?;
    let slot = open_slots(ahead.bytes());
    ahead.skip_to(area);
    Ok((ahead, slot))
}

/// Begins to read a file after its header. `NotALog` comes if it does not begin with this header.
pub fn headed<D: Disk>(alloc: Global, disk: &mut D, header: &[u8; 8]) -> Result<Pieces, Fault>
    ensures at { IfOk result (λ ahead. ahead.at ≡ 8) }
    // All that follows it was read, or 1,024 slots at least.
    ensures enough { IfOk result
        (λ ahead. (9216 ≤ length ahead.bytes) ⊎ (ahead.left ≡ 0)) }
    ensures there { IfOk result (λ ahead. D.keeps_model
        → IsAhead (surface (D.file disk.old)).seen ahead) }
    ensures header { OnOk result (D.keeps_model
        → take 8 (surface (D.file disk.old)).seen ≡ header.now) }
    ensures same { D.file disk.new ≡ D.file disk.old }
    ensures time { Elapses D.file D.clock D.since D.failures disk.old disk.new }
    ensures cause { IfErr result (λ fault. (fault ≡ Fault.Memory)
        ⊎ (((fault ≡ Fault.Device) × (D.failures disk.old < D.failures disk.new))
        ⊎ ((fault ≡ Fault.NotALog) × (D.keeps_model
        → take 8 (surface (D.file disk.old)).seen ≢ header.now)))) }
    ensures waits { D.obeys → waits (D.plan disk.old) ≡ true →
        IfErr result (λ fault. (fault ≡ Fault.Memory) ⊎ IsTrue (is_no_log fault))
        × (D.plan disk.new ≡ D.plan disk.old) }
{
    let len = disk.len();
    if len < 8 {
        return Err(Fault::NotALog);
    }
    let mut ahead = Pieces::of(alloc, len);
    ahead.more(alloc, disk)?;
    let (front, _) = ahead.bytes().split_at(8);
    if front != header.as_slice() {
        return Err(Fault::NotALog);
    }
    ahead.pass(8);
    Ok(ahead)
}
