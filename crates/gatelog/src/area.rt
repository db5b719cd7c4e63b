//! A new area of a log.
ghost use Rattle.std.specs.Prelude.{◌≡◌, ◌<◌, ◌≤◌, ◌+◌, ◌^◌, [], ◌∷◌, ◌++◌, length, flat_map, reverse, IsTrue, IsFalse, IfOk, IfErr, OnOk, OnErr};
ghost use Rattle.std.specs.List.{AllByRecursion};
ghost use Rattle.gatelog.specs.Frames.{end_from};
ghost use Rattle.gatelog.specs.Areas.{whole_frame, area_bytes};
ghost use Rattle.gatelog.specs.Slots.{slot_count};
ghost use Rattle.spelling.specs.Limits.{IsRecord};

use crate::token::put_behind;
use counts::Past;
use frames::OPEN_GATE;
use record::Record;
use std::alloc::Global;
use std::marker::Model;
use units::Fault;

/// The records of a new area, spelled one by one. It holds only their bytes.
#[derive(Drop)]
pub struct Area {
    bytes: Vec<u8>,
    // The frame of one record, before it is added.
    frame: Vec<u8>,
    records: Past<Record>,
}

impl Model for Area {
    ghost use Rattle.std.specs.Prelude.{◌≡◌, List, flat_map, reverse};
    ghost use Rattle.std.specs.List.{AllByRecursion};
    ghost use Rattle.record.specs.declared.record.Record.{Record};
    ghost use Rattle.gatelog.specs.Areas.{whole_frame};
    ghost use Rattle.spelling.specs.Limits.{IsRecord};

    ghost Value = { List Record };

    ghost view = { λ a. reverse a.records.entries };

    ghost invariant = { λ a. (a.bytes.items ≡ flat_map whole_frame (reverse a.records.entries))
        × AllByRecursion IsRecord (reverse a.records.entries) };
}

impl Area {
    /// Makes an area of no record.
    pub fn new(alloc: Global) -> Area
        ensures { result ≡ [] }
    {
        Area {
            bytes: Vec::new(alloc),
            frame: Vec::new(alloc),
            records: Past::none(),
        }
    }

    /// Adds a record at the end. It is refused for want of memory alone, and then the area is as it was.
    pub fn push(&mut self, item: &Record) -> Result<(), Fault>
        ensures added { OnOk result (self.new ≡ self.old ++ item.now ∷ []) }
        ensures same { OnErr result (self.new ≡ self.old) }
        ensures memory { IfErr result (λ fault. fault ≡ Fault.Memory) }
    {
        self.frame.clear();
        if !put_whole(&mut self.frame, item) {
            return Err(Fault::Memory);
        }
        let Ok(()) = self.bytes.extend_from_slice(&self.frame) else {
            return Err(Fault::Memory);
        };
        self.records.add(item);
        Ok(())
    }

    // Gives how many bytes its frames have.
    pub(crate) fn len(&self) -> u64
        ensures { result ≡ length (flat_map whole_frame self.now) }
    {
        self.bytes.len() as u64
    }

    // Tells whether a file that has it after this closed gate has no more than 2^40 bytes.
    pub(crate) fn has_place(&self, gate: u64) -> bool
        ensures there { IsTrue result → end_from (gate + 1) self.now + 1 ≤ 2 ^ 40 }
        ensures full { IsFalse result → 2 ^ 40 < end_from (gate + 1) self.now + 1 }
    {
        let most = (1 << 40) - 2;
        gate <= most && self.len() <= most - gate
    }
}

/// A new area that is ready for one place, with all the memory that a turnover to it takes.
#[derive(Drop)]
pub struct StagedArea {
    gate: u64,
    slot: u64,
    bytes: Vec<u8>,
    records: Past<Record>,
}

impl Model for StagedArea {
    ghost use Rattle.std.specs.Prelude.{◌≡◌, ◌<◌, ◌≤◌, ◌+◌, ◌^◌, reverse};
    ghost use Rattle.std.specs.List.{AllByRecursion};
    ghost use Rattle.gatelog.specs.Frames.{end_from};
    ghost use Rattle.gatelog.specs.Areas.{area_bytes};
    ghost use Rattle.gatelog.specs.Slots.{slot_count};
    ghost use Rattle.gatelog.specs.Turns.{NewArea};
    ghost use Rattle.spelling.specs.Limits.{IsRecord};

    ghost Value = { NewArea };

    ghost view = { λ s. record { gate = s.gate; slot = s.slot; items = reverse s.records.entries } };

    ghost invariant = { λ s. (s.bytes.items ≡ area_bytes (reverse s.records.entries))
        × AllByRecursion IsRecord (reverse s.records.entries)
        × (end_from (s.gate + 1) (reverse s.records.entries) + 1 ≤ 2 ^ 40) × (s.slot < slot_count) };
}

impl StagedArea {
    // Makes the area for a log whose closed gate is at this offset, and whose next slot is this one.
    pub(crate) fn at(gate: u64, slot: u64, area: Area) -> Result<StagedArea, Fault>
        requires small { end_from (gate + 1) area + 1 ≤ 2 ^ 40 }
        requires within { slot < slot_count }
        ensures staged { IfOk result (λ staged. (staged.items ≡ area)
            × (staged.gate ≡ gate) × (staged.slot ≡ slot)) }
        ensures memory { IfErr result (λ fault. fault ≡ Fault.Memory) }
    {
        let Area {
            bytes,
            frame: _,
            records,
        } = area;
        let mut bytes = bytes;
        let Ok(()) = bytes.push(0) else {
            drop(bytes);
            return Err(Fault::Memory);
        };
        Ok(StagedArea {
            gate,
            slot,
            bytes,
            records,
        })
    }

    // Gives the offset of the closed gate after which it is to stand.
    pub(crate) fn gate(&self) -> u64
        ensures gate { result ≡ self.now.gate }
        ensures small { result < 2 ^ 40 }
    {
        self.gate
    }

    // Gives the number of the slot that is to name it.
    pub(crate) fn slot(&self) -> u64
        ensures slot { result ≡ self.now.slot }
        ensures within { result < slot_count }
    {
        self.slot
    }

    // Gives its bytes, with its closed gate.
    pub(crate) fn bytes(&self) -> &[u8]
        ensures bytes { result.now ≡ area_bytes self.now.items }
        ensures fit { AllByRecursion IsRecord self.now.items }
    {
        &self.bytes
    }

    // Gives the offset of its closed gate.
    pub(crate) fn end(&self) -> u64
        ensures end { result ≡ end_from (self.now.gate + 1) self.now.items }
        ensures small { result < 2 ^ 40 }
    {
        self.gate + self.bytes.len() as u64
    }
}

// Adds the frame of a record, with its gate open, and tells whether there was the memory.
pub(crate) fn put_whole(bytes: &mut Vec<u8>, item: &Record) -> bool
    ensures bytes { IsTrue result → bytes.new.items ≡ bytes.old.items ++ whole_frame item.now }
    ensures fits { IsTrue result → IsRecord item.now }
{
    let Ok(()) = bytes.push(OPEN_GATE) else {
        return false;
    };
    put_behind(bytes, item)
}
