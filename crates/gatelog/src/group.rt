//! Records that join a log together.
ghost use Rattle.std.specs.Prelude.{◌≡◌, ◌<◌, ◌≤◌, ◌+◌, ◌^◌, [], ◌∷◌, ◌++◌, length, IsTrue, IsFalse, IfErr, OnOk, OnErr};
ghost use Rattle.gatelog.specs.Frames.{end_from, next_gate};
ghost use Rattle.std.specs.List.{AllByRecursion};
ghost use Rattle.gatelog.specs.Groups.{group_bytes, opened_before};
ghost use Rattle.spelling.specs.Limits.{IsRecord};

use crate::token::{Noted, bytes_for};
use counts::Past;
use frames::OPEN_GATE;
use record::Record;
use std::alloc::Global;
use std::marker::Model;
use units::Fault;

/// Records that are to be appended together, with all the memory that this takes. It holds only their bytes. It has
/// to be spent, by `append_all`.
pub struct Gathered {
    gate: u64,
    bytes: Vec<u8>,
    records: Past<Record>,
}

impl Model for Gathered {
    ghost use Rattle.std.specs.Prelude.{◌≡◌, ◌≤◌, ◌+◌, ◌^◌, length, reverse};
    ghost use Rattle.std.specs.List.{AllByRecursion};
    ghost use Rattle.gatelog.specs.Frames.{end_from};
    ghost use Rattle.gatelog.specs.Groups.{Group, group_bytes};
    ghost use Rattle.spelling.specs.Limits.{IsRecord};

    ghost Value = { Group };

    ghost view = { λ g. record { gate = g.gate; items = reverse g.records.entries } };

    ghost invariant = { λ g. (g.bytes.items ≡ group_bytes (reverse g.records.entries))
        × AllByRecursion IsRecord (reverse g.records.entries)
        × (1 ≤ length (reverse g.records.entries)
        → end_from g.gate (reverse g.records.entries) + 1 ≤ 2 ^ 40) };
}

impl Gathered {
    // Makes a group of no record.
    pub(crate) fn none(alloc: Global, gate: u64) -> Gathered
        ensures { result ≡ record { gate = gate; items = [] } }
    {
        Gathered {
            gate,
            bytes: Vec::new(alloc),
            records: Past::none(),
        }
    }

    /// Gives how many bytes its append writes after the closed gate: 0 if it has no record.
    pub fn len(&self) -> u64
        ensures { result ≡ length (group_bytes self.now.items) }
    {
        self.bytes.len() as u64
    }

    /// Tells whether it has no record.
    pub fn is_none(&self) -> bool
        ensures none { IsTrue result → self.now.items ≡ [] }
        ensures some { IsFalse result → 1 ≤ length self.now.items }
    {
        self.bytes.is_empty()
    }

    // Adds a record at the end: the closed gate after the others is its own, and opens. It is refused for want of
    // memory alone, and then all is as it was.
    pub(crate) fn add(&mut self, alloc: Global, item: &Record) -> Result<(), Fault>
        requires { next_gate (end_from self.old.gate self.old.items) item.now + 1 ≤ 2 ^ 40 }
        ensures added { OnOk result (self.new ≡
            record { gate = self.old.gate; items = self.old.items ++ item.now ∷ [] }) }
        ensures same { OnErr result (self.new ≡ self.old) }
        ensures memory { IfErr result (λ fault. fault ≡ Fault.Memory) }
    {
        let frame = bytes_for(alloc, item)?;
        let before = self.bytes.len();
        let Ok(()) = self.bytes.extend_from_slice(&frame) else {
            return Err(Fault::Memory);
        };
        open_before(&mut self.bytes, before);
        self.records.add(item);
        Ok(())
    }

    // Gives what is written after the closed gate.
    pub(crate) fn bytes(&self) -> &[u8]
        ensures bytes { result.now ≡ group_bytes self.now.items }
        ensures fit { AllByRecursion IsRecord self.now.items }
    {
        &self.bytes
    }

    // Gives the offset of the closed gate after which it is to stand.
    pub(crate) fn gate(&self) -> u64
        ensures gate { result ≡ self.now.gate }
        ensures small { 1 ≤ length self.now.items → result < 2 ^ 40 }
    {
        self.gate
    }

    // Gives the offset that the closed gate after its records is to have.
    pub(crate) fn end(&self) -> u64
        ensures { result ≡ end_from self.now.gate self.now.items }
    {
        self.gate + self.bytes.len() as u64
    }

    // Ends the group.
    pub(crate) fn spend(self) {
        let Gathered {
            gate: _,
            bytes,
            records: _,
        } = self;
        drop(bytes);
    }
}

// Opens the gate before this place, if there is one.
fn open_before(bytes: &mut Vec<u8>, end: usize)
    requires { end ≤ length bytes.old.items }
    ensures { bytes.new.items ≡ opened_before end bytes.old.items }
{
    if end > 0 {
        bytes[end - 1] = OPEN_GATE;
    }
}

/// A token of a record that has its place in a group: it is logged once that is appended. Only `gather` makes it; it
/// has to be spent.
pub struct Joined {
    item: Record,
}

impl Model for Joined {
    ghost use Rattle.record.specs.declared.record.Record.{Record};

    ghost Value = { Record };

    ghost view = { λ j. j.item };

    ghost inverse = { λ r. record { item = r } };
}

impl Joined {
    /// Makes the token of a record that was added to a group.
    pub(crate) fn new(item: Record) -> Joined
        ensures { result ≡ item }
    {
        Joined { item }
    }

    /// Gives its record.
    pub fn item(&self) -> &Record
        ensures { result.now ≡ self.now }
    {
        &self.item
    }

    /// Spends the token for one by which a state may move before the group is appended.
    pub fn note(self) -> Noted
        ensures { result ≡ self }
    {
        Noted::new(self.spend())
    }

    /// Spends the token, and gives its record.
    pub fn spend(self) -> Record
        ensures { result ≡ self }
    {
        let Joined { item } = self;
        item
    }
}
