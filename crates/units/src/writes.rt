//! Writes of keys, and the versions that they become.
ghost use Rattle.std.specs.Prelude.{◌≡◌, ◌≤◌, ◌<◌, ◌⊎◌, IsTrue, IsFalse, [], length, MatchResult, IfOk, IfErr, vec_len};
ghost use Rattle.units.specs.Keys.{write_before, writes_key};
ghost use Rattle.units.specs.Lists.{ascends};

use crate::{Fault, Key, Stamp, Value, copy_value};
use std::alloc::Global;
use std::marker::Model;

/// A write of a key: a value, or `None` if the key is erased.
#[derive(Drop)]
pub struct Write {
    pub key: Key,
    pub value: Option<Value>,
}

impl Write {
    /// Copies the write. Both share the bytes of the value.
    pub fn copy(&self) -> Result<Write, Fault>
        ensures same { IfOk result (λ write. write ≡ self.now) }
        ensures memory { IfErr result (λ fault. fault ≡ Fault.Memory) }
    {
        Ok(Write {
            key: self.key,
            value: copy_value(&self.value)?,
        })
    }
}

/// A version: what a key holds from a timestamp on, or `None` from its erasure on.
#[derive(Drop)]
pub struct Install {
    pub key: Key,
    pub at: Stamp,
    pub value: Option<Value>,
}

impl Install {
    ghost use Rattle.units.specs.Versions.{version_before};

    /// Copies the version. Both share the bytes of the value.
    pub fn copy(&self) -> Result<Install, Fault>
        ensures same { IfOk result (λ install. install ≡ self.now) }
        ensures memory { IfErr result (λ fault. fault ≡ Fault.Memory) }
    {
        Ok(Install {
            key: self.key,
            at: self.at,
            value: copy_value(&self.value)?,
        })
    }

    /// Tells whether it comes before another by key, and then by timestamp.
    pub fn is_before(&self, next: &Install) -> bool
        ensures { result ≡ version_before self.now next.now }
    {
        (&self.key, self.at) < (&next.key, next.at)
    }
}

/// The writes of a transaction: at most 128, by strictly ascending keys.
pub struct Writes {
    writes: Vec<Write>,
}

impl Drop for Writes {
    fn drop(self) {
        let Writes { writes: _ } = self;
    }
}

impl Model for Writes {
    ghost use Rattle.std.specs.Prelude.{List, ◌≤◌, length, IsTrue};
    ghost use Rattle.units.specs.declared.writes.Write.{Write};
    ghost use Rattle.units.specs.Keys.{write_before};
    ghost use Rattle.units.specs.Lists.{ascends};

    ghost Value = { List Write };

    ghost view = { λ w. w.writes.items };

    ghost invariant = { λ w. (length w.writes.items ≤ 128)
        × IsTrue (ascends write_before w.writes.items) };
}

impl Writes {
    /// Makes an empty list of writes.
    pub fn none(alloc: Global) -> Writes
        ensures { result ≡ [] }
    {
        Writes {
            writes: Vec::new(alloc),
        }
    }

    /// Takes the writes of a list. The list is handed back if its keys do not strictly ascend, or if it has more than
    /// 128 writes.
    pub fn from_vec(writes: Vec<Write>) -> Result<Writes, Vec<Write>>
        ensures { MatchResult result (λ taken. (taken ≡ writes.items) × (length writes.items ≤ 128)
            × IsTrue (ascends write_before writes.items))
            (λ back. (back.items ≡ writes.items)
            × ((128 < length writes.items) ⊎ IsFalse (ascends write_before writes.items))) }
    {
        if writes.len() > 128 || !ascend(writes.as_slice()) {
            return Err(writes);
        }
        Ok(Writes { writes })
    }

    /// Copies the list. Both share the bytes of the values.
    pub fn copy(&self, alloc: Global) -> Result<Writes, Fault>
        ensures same { IfOk result (λ writes. writes ≡ self.now) }
        ensures memory { IfErr result (λ fault. fault ≡ Fault.Memory) }
    {
        let mut writes = Vec::with_capacity(alloc, self.writes.len())?;
        for write in &self.writes {
            match write.copy() {
                Ok(copy) => writes.push_reserved(copy),
                Err(fault) => {
                    drop(writes);
                    return Err(fault);
                }
            }
        }
        Ok(Writes { writes })
    }

    /// Tells whether the key is written.
    pub fn writes_key(&self, key: &Key) -> bool
        ensures { result ≡ writes_key self.now key.now }
    {
        for write in &self.writes {
            if write.key == *key {
                return true;
            }
        }
        false
    }

    /// Gives the writes in order.
    pub fn as_slice(&self) -> &[Write]
        ensures same { result.now ≡ self.now }
        ensures few { length result.now ≤ 128 }
        ensures ascending { IsTrue (ascends write_before result.now) }
    {
        self.writes.as_slice()
    }

    /// Gives up the writes as a plain list.
    pub fn into_vec(self) -> Vec<Write>
        ensures same { result.items ≡ self }
        ensures few { vec_len result ≤ 128 }
        ensures ascending { IsTrue (ascends write_before result.items) }
    {
        let Writes { writes } = self;
        writes
    }
}

// Tells whether each key is before the next one.
fn ascend(writes: &[Write]) -> bool
    ensures { result ≡ ascends write_before writes.now }
{
    writes.is_sorted_by(|write, next| write.key < next.key)
}
