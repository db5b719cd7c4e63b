//! What a log hands out.
ghost use Rattle.std.specs.Prelude.{◌≡◌, ◌≤◌, ◌+◌, ◌^◌, [], ◌∷◌, ◌++◌, IsTrue, IfOk, IfErr, OnOk};
ghost use Rattle.gatelog.specs.Frames.{behind_gate, next_gate, staged_bytes};
ghost use Rattle.spelling.specs.Limits.{IsRecord};

use byteorder::{BigEndian, ByteOrder};
use record::Record;
use spelling::{encode_into, encoded_len};
use std::alloc::Global;
use std::marker::Model;
use units::Fault;

/// A record that a log holds, and its offset.
pub struct Entry {
    offset: u64,
    item: Record,
}

impl Drop for Entry {
    fn drop(self) {
        let Entry { offset: _, item: _ } = self;
    }
}

impl Model for Entry {
    ghost use Rattle.frames.specs.Placed.{Placed};

    ghost Value = { Placed };

    ghost view = { λ e. record { offset = e.offset; item = e.item } };

    ghost inverse = { λ p. record { offset = p.offset; item = p.item } };
}

impl Entry {
    /// Makes the entry of a record whose gate is at this offset.
    pub(crate) fn new(offset: u64, item: Record) -> Entry
        ensures { result ≡ record { offset = offset; item = item } }
    {
        Entry { offset, item }
    }

    /// Gives the offset of its gate in the file, in bytes.
    pub fn offset(&self) -> u64
        ensures { result ≡ self.now.offset }
    {
        self.offset
    }

    /// Gives its record.
    pub fn item(&self) -> &Record
        ensures { result.now ≡ self.now.item }
    {
        &self.item
    }

    /// Gives up its record, as one that stands in the log.
    pub fn into_logged(self) -> Logged
        ensures { result ≡ self.item }
    {
        let Entry { offset: _, item } = self;
        Logged::new(item)
    }

    /// Copies the entry into memory of its own. It is refused for want of memory alone.
    pub fn copy(&self, alloc: Global) -> Result<Entry, Fault>
        ensures same { IfOk result (λ copy. copy ≡ self.now) }
        ensures memory { IfErr result (λ fault. fault ≡ Fault.Memory) }
    {
        let item = self.item.copy(alloc)?;
        Ok(Entry::new(self.offset, item))
    }
}

/// A record that is ready to be appended at one place, with all the memory that the append takes.
#[derive(Drop)]
pub struct Staged {
    pub(crate) gate: u64,
    pub(crate) item: Record,
    pub(crate) bytes: Vec<u8>,
}

impl Model for Staged {
    ghost use Rattle.std.specs.Prelude.{◌≡◌, ◌≤◌, ◌^◌, ◌+◌};
    ghost use Rattle.frames.specs.Placed.{Placed};
    ghost use Rattle.gatelog.specs.Frames.{staged_bytes, next_gate};
    ghost use Rattle.spelling.specs.Limits.{IsRecord};

    ghost Value = { Placed };

    ghost view = { λ s. record { offset = s.gate; item = s.item } };

    ghost invariant = { λ s. (s.bytes.items ≡ staged_bytes s.item) × IsRecord s.item × (next_gate s.gate s.item + 1 ≤ 2 ^ 40) };
}

impl Staged {
    // Makes the record ready for a log whose closed gate is at this offset, with all the memory that an append of it
    // takes.
    pub(crate) fn at(alloc: Global, gate: u64, item: Record) -> Result<Staged, Fault>
        requires { next_gate gate item + 1 ≤ 2 ^ 40 }
        ensures staged { IfOk result
            (λ staged. (staged.offset ≡ gate) × (staged.item ≡ item)) }
        ensures memory { IfErr result (λ fault. fault ≡ Fault.Memory) }
    {
        match bytes_for(alloc, &item) {
            Ok(bytes) => Ok(Staged { gate, item, bytes }),
            Err(fault) => {
                drop(item);
                Err(fault)
            }
        }
    }
}

// Makes what an append of a record writes after the closed gate.
pub(crate) fn bytes_for(alloc: Global, item: &Record) -> Result<Vec<u8>, Fault>
    ensures bytes { IfOk result (λ bytes. bytes.items ≡ staged_bytes item.now) }
    ensures fits { OnOk result (IsRecord item.now) }
    ensures memory { IfErr result (λ fault. fault ≡ Fault.Memory) }
{
    let Ok(mut bytes) = Vec::with_capacity(alloc, encoded_len(item) as usize + 5) else {
        return Err(Fault::Memory);
    };
    if !put_frame(&mut bytes, item) {
        drop(bytes);
        return Err(Fault::Memory);
    }
    Ok(bytes)
}

// Adds what follows the gate of a record, and a closed gate. It tells whether there was the memory.
fn put_frame(bytes: &mut Vec<u8>, item: &Record) -> bool
    requires { bytes.old.items ≡ [] }
    ensures bytes { IsTrue result → bytes.new.items ≡ staged_bytes item.now }
    ensures fits { IsTrue result → IsRecord item.now }
{
    put_behind(bytes, item) && bytes.push(0).is_ok()
}

// Adds the length of a record's spelling, and the spelling. It tells whether there was the memory.
pub(crate) fn put_behind(bytes: &mut Vec<u8>, item: &Record) -> bool
    ensures bytes { IsTrue result → bytes.new.items ≡ bytes.old.items ++ behind_gate item.now }
    ensures fits { IsTrue result → IsRecord item.now }
{
    let mut count = [0; 4];
    BigEndian::write_u32(&mut count, encoded_len(item) as u32);
    let Ok(()) = bytes.extend_from_slice(&count) else {
        return false;
    };
    encode_into(bytes, item).is_ok()
}

/// A token of a record that stands in the log for good. Only an append, or an entry that was read, makes it; it has
/// to be spent.
pub struct Logged {
    item: Record,
}

impl Model for Logged {
    ghost use Rattle.record.specs.declared.record.Record.{Record};

    ghost Value = { Record };

    ghost view = { λ l. l.item };

    ghost inverse = { λ r. record { item = r } };
}

impl Logged {
    /// Makes the token of a record that stands in the log.
    pub(crate) fn new(item: Record) -> Logged
        ensures { result ≡ item }
    {
        Logged { item }
    }

    /// Gives its record.
    pub fn item(&self) -> &Record
        ensures { result.now ≡ self.now }
    {
        &self.item
    }

    /// Spends the token for one by which a state may move.
    pub fn note(self) -> Noted
        ensures { result ≡ self }
    {
        Noted::new(self.spend())
    }

    /// Spends the token, and gives its record.
    pub fn spend(self) -> Record
        ensures { result ≡ self }
    {
        let Logged { item } = self;
        item
    }
}

/// A record by which a state may move: it stands in the log, or it has its place in a group. In a group it stands once that is appended.
/// Only `Logged` and `Joined` make it; it has to be spent.
pub struct Noted {
    item: Record,
}

impl Model for Noted {
    ghost use Rattle.record.specs.declared.record.Record.{Record};

    ghost Value = { Record };

    ghost view = { λ n. n.item };

    ghost inverse = { λ r. record { item = r } };
}

impl Noted {
    pub(crate) fn new(item: Record) -> Noted
        ensures { result ≡ item }
    {
        Noted { item }
    }

    /// Its record.
    pub fn item(&self) -> &Record
        ensures { result.now ≡ self.now }
    {
        &self.item
    }

    /// Spends the token.
    pub fn spend(self) -> Record
        ensures { result ≡ self }
    {
        let Noted { item } = self;
        item
    }
}
