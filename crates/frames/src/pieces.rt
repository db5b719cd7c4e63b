//! A file that is read in pieces, from its front on.
ghost use Rattle.std.specs.Prelude.{◌≡◌, ◌⊎◌, ◌≤◌, ◌<◌, ◌+◌, ◌^◌, [], List, ℕ, length, take, drop, OnOk, IfOk, IfErr, true};
ghost use Rattle.disk.specs.File.{surface};
ghost use Rattle.disk.specs.Moments.{Elapses};
ghost use Rattle.frames.specs.Ahead.{IsAhead};
ghost use Rattle.frames.specs.Calls.{waits};

use disk::Disk;
use std::alloc::Global;
use std::marker::Model;
use units::Fault;

/// How much is read at once, in bytes.
pub const PIECE: u64 = 65_536;

/// The bytes that were read and not passed yet, and how much of the file is left to be read.
#[derive(Drop)]
pub struct Pieces {
    window: Vec<u8>,
    passed: usize,
    read: u64,
    len: u64,
    ghost within: { passed ≤ length window.items },
    ghost before: { length window.items ≤ read + passed },
    ghost inside: { read ≤ len },
}

impl Model for Pieces {
    ghost use Rattle.std.specs.Prelude.{◌-◌, ◌+◌, length, drop};
    ghost use Rattle.frames.specs.Ahead.{Ahead};

    ghost Value = { Ahead };

    ghost view = { λ p. record {
      at = (p.read + p.passed) - length p.window.items;
      bytes = drop p.passed p.window.items;
      left = p.len - p.read;
    } };
}

impl Pieces {
    /// Begins a file of this length, in bytes, of which nothing was read.
    pub fn of(alloc: Global, len: u64) -> Pieces
        ensures at { result.at ≡ 0 }
        ensures bytes { result.bytes ≡ [] }
        ensures left { result.left ≡ len }
    {
        Pieces {
            window: Vec::new(alloc),
            passed: 0,
            read: 0,
            len,
        }
    }

    /// Gives the offset of the next byte.
    pub fn at(&self) -> u64
        ensures { result ≡ self.now.at }
    {
        self.read - (self.window.len() - self.passed) as u64
    }

    /// Gives what was read from there on.
    pub fn bytes(&self) -> &[u8]
        ensures { result.now ≡ self.now.bytes }
    {
        &self.window[self.passed..]
    }

    /// Gives how many bytes are left to be read.
    pub fn left(&self) -> u64
        ensures value { result ≡ self.now.left }
        ensures small { length self.now.bytes + self.now.left < 2 ^ 64 }
    {
        self.len - self.read
    }

    /// Gives the length of the file, in bytes.
    pub fn len(&self) -> u64
        ensures { result ≡ self.now.at + length self.now.bytes + self.now.left }
    {
        self.len
    }

    /// Passes so many bytes that were read.
    pub fn pass(&mut self, count: usize)
        requires { count ≤ length self.old.bytes }
        ensures at { self.new.at ≡ self.old.at + count }
        ensures bytes { self.new.bytes ≡ drop count self.old.bytes }
        ensures left { self.new.left ≡ self.old.left }
    {
        self.passed += count;
    }

    /// Goes on from an offset that lies no earlier.
    pub fn skip_to(&mut self, at: u64)
        requires later { self.old.at ≤ at }
        requires inside { at ≤ self.old.at + length self.old.bytes + self.old.left }
        ensures at { self.new.at ≡ at }
        ensures there { (image : List ℕ) → IsAhead image self.old → IsAhead image self.new }
    {
        let count = at - self.at();
        if count <= self.bytes().len() as u64 {
            self.passed += count as usize;
        } else {
            self.window.truncate(0);
            self.passed = 0;
            self.read = at;
        }
    }

    /// Reads on, by one piece. It asks for no more than 65,536 bytes at once. `Memory` comes if there is none for it,
    /// and `Device` if the read fails.
    pub fn more<D: Disk>(&mut self, alloc: Global, disk: &mut D) -> Result<(), Fault>
        requires left { 0 < self.old.left }
        requires there { D.keeps_model → IsAhead (surface (D.file disk.old)).seen self.old }
        ensures at { OnOk result (self.new.at ≡ self.old.at) }
        ensures less { OnOk result (self.new.left < self.old.left) }
        ensures piece { OnOk result ((n : ℕ) → n ≤ 65536 → n ≤ self.old.left
            → n ≤ length self.new.bytes) }
        ensures total { OnOk result (length self.new.bytes + self.new.left
            ≡ length self.old.bytes + self.old.left) }
        ensures there { OnOk result
            (D.keeps_model → IsAhead (surface (D.file disk.old)).seen self.new) }
        ensures same { D.file disk.new ≡ D.file disk.old }
        ensures time { Elapses D.file D.clock D.since D.failures disk.old disk.new }
        ensures cause { IfErr result (λ fault. (fault ≡ Fault.Memory)
            ⊎ ((fault ≡ Fault.Device) × (D.failures disk.old < D.failures disk.new))) }
        // With no call to fail before the next write, only memory is refused.
        ensures waits { D.obeys → waits (D.plan disk.old) ≡ true →
            IfErr result (λ fault. fault ≡ Fault.Memory) × (D.plan disk.new ≡ D.plan disk.old) }
    {
        drop(self.window.drain(..self.passed));
        self.passed = 0;
        let count = PIECE.min(self.len - self.read);
        let piece = piece_at(alloc, disk, self.read, count as usize)?;
        self.window.extend_from_slice(&piece)?;
        self.read += count;
        Ok(())
    }
}

// Reads so many bytes of a file from an offset on.
fn piece_at<D: Disk>(alloc: Global, disk: &mut D, at: u64, count: usize) -> Result<Vec<u8>, Fault>
    requires { D.keeps_model → at + count ≤ length (surface (D.file disk.old)).seen }
    ensures size { IfOk result (λ piece. length piece.items ≡ count) }
    ensures bytes { IfOk result (λ piece. D.keeps_model
        → piece.items ≡ take count (drop at (surface (D.file disk.old)).seen)) }
    ensures same { D.file disk.new ≡ D.file disk.old }
    ensures time { Elapses D.file D.clock D.since D.failures disk.old disk.new }
    ensures cause { IfErr result (λ fault. (fault ≡ Fault.Memory)
        ⊎ ((fault ≡ Fault.Device) × (D.failures disk.old < D.failures disk.new))) }
    ensures waits { D.obeys → waits (D.plan disk.old) ≡ true →
        IfErr result (λ fault. fault ≡ Fault.Memory) × (D.plan disk.new ≡ D.plan disk.old) }
{
    let Ok(mut piece) = Vec::from_elem(alloc, 0, count) else {
        return Err(Fault::Memory);
    };
    match disk.read_at(at, &mut piece) {
        Ok(()) => Ok(piece),
        Err(fault) => {
            drop(piece);
            Err(fault)
        }
    }
}
