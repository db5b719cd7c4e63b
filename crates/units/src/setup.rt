//! What a shard is told when it is opened.
ghost use Rattle.std.specs.List.{list_all};
ghost use Rattle.std.specs.Prelude.{◌≡◌, ◌≤◌, ◌↔◌, IsSome, IfSome, IfOk, IfErr, nat_eq};

use crate::{Fault, Key, ShardNo, Splits, Writes};
use std::alloc::Global;
use std::marker::Model;

/// How far ahead of the served time a ceiling is logged, in microseconds: 0 to 10,000,000.
#[derive(Clone, Copy)]
pub struct Stride {
    micros: u64,
}

impl Model for Stride {
    ghost use Rattle.std.specs.Prelude.{ℕ, ◌≤◌};

    ghost Value = { ℕ };

    ghost view = { λ s. s.micros };

    ghost invariant = { λ s. s.micros ≤ 10000000 };

    ghost inverse = { λ n. record { micros = n } };
}

impl Stride {
    /// The greatest stride, in microseconds.
    pub const MAX: u64 = 10_000_000;

    /// Makes the stride of this many microseconds. `None` comes above `Stride::MAX`.
    pub fn new(micros: u64) -> Option<Stride>
        ensures value { IfSome result (λ stride. stride ≡ micros) }
        ensures limit { IsSome result ↔ (micros ≤ 10000000) }
    {
        if micros <= Stride::MAX {
            Some(Stride { micros })
        } else {
            None
        }
    }

    /// Gives its microseconds.
    pub fn micros(self) -> u64
        ensures same { result ≡ self }
        ensures limit { result ≤ 10000000 }
    {
        self.micros
    }
}

/// How many inputs a book has room for: 1 to 65,536.
#[derive(Clone, Copy)]
pub struct Capacity {
    entries: u32,
}

impl Model for Capacity {
    ghost use Rattle.std.specs.Prelude.{ℕ, ◌≤◌};

    ghost Value = { ℕ };

    ghost view = { λ c. c.entries };

    ghost invariant = { λ c. (1 ≤ c.entries) × (c.entries ≤ 65536) };

    ghost inverse = { λ n. record { entries = n } };
}

impl Capacity {
    /// The greatest capacity, in inputs.
    pub const MAX: u32 = 65_536;

    /// Makes the capacity for this many inputs. `None` comes if it is not within the limits.
    pub fn new(entries: u32) -> Option<Capacity>
        ensures value { IfSome result (λ capacity. capacity ≡ entries) }
        ensures limits { IsSome result ↔ ((1 ≤ entries) × (entries ≤ 65536)) }
    {
        if 1 <= entries && entries <= Capacity::MAX {
            Some(Capacity { entries })
        } else {
            None
        }
    }

    /// Gives how many inputs there is room for.
    pub fn entries(self) -> usize
        ensures same { result ≡ self }
        ensures limits { (1 ≤ result) × (result ≤ 65536) }
    {
        self.entries as usize
    }
}

/// Whether a shard keeps a book of the inputs that it accepts, and how many it has room for.
#[derive(Clone, Copy)]
pub enum Book {
    Off,
    On(Capacity),
}

/// What a shard is told when it is opened: its number, the splits of all shards, its stride and its book.
pub struct Setup {
    pub shard: ShardNo,
    pub splits: Splits,
    pub stride: Stride,
    pub book: Book,
}

impl Drop for Setup {
    fn drop(self) {
        let Setup {
            shard: _,
            splits: _,
            stride: _,
            book: _,
        } = self;
    }
}

impl Setup {
    ghost use Rattle.units.specs.Keys.{shard_of};

    /// Copies the setup into memory of its own. It is refused for want of memory alone.
    pub fn copy(&self, alloc: Global) -> Result<Setup, Fault>
        ensures same { IfOk result (λ copied. copied ≡ self.now) }
        ensures memory { IfErr result (λ fault. fault ≡ Fault.Memory) }
    {
        Ok(Setup {
            shard: self.shard,
            splits: self.splits.copy(alloc)?,
            stride: self.stride,
            book: self.book,
        })
    }

    /// Tells whether the key belongs to this shard.
    pub fn owns(&self, key: &Key) -> bool
        ensures { result ≡ nat_eq (shard_of self.now.splits key.now) self.now.shard }
    {
        self.splits.shard_of(key) == self.shard
    }

    /// Tells whether each key that is written belongs to this shard.
    pub fn owns_writes(&self, writes: &Writes) -> bool
        ensures { result ≡
            list_all (λ w. nat_eq (shard_of self.now.splits w.key) self.now.shard) writes.now }
    {
        for write in writes.as_slice() {
            if !self.owns(&write.key) {
                return false;
            }
        }
        true
    }
}
