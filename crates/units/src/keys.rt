//! Lists of keys that ascend.
ghost use Rattle.std.specs.Prelude.{◌≡◌, ◌≤◌, ◌<◌, ◌⊎◌, IsTrue, IsFalse, [], length, MatchResult, IfOk, IfErr};
ghost use Rattle.units.specs.Keys.{key_before};
ghost use Rattle.units.specs.Lists.{ascends};

use crate::{Fault, Key};
use std::alloc::Global;
use std::marker::Model;

/// At most 128 keys, strictly ascending by bytes, such as those that a transaction reads.
pub struct Keys {
    keys: Vec<Key>,
}

impl Drop for Keys {
    fn drop(self) {
        let Keys { keys: _ } = self;
    }
}

impl Model for Keys {
    ghost use Rattle.std.specs.Prelude.{ℕ, List, ◌≤◌, length, IsTrue};
    ghost use Rattle.units.specs.Keys.{key_before};
    ghost use Rattle.units.specs.Lists.{ascends};

    ghost Value = { List (List ℕ) };

    ghost view = { λ k. k.keys.items };

    ghost invariant = { λ k. (length k.keys.items ≤ 128)
        × IsTrue (ascends key_before k.keys.items) };
}

impl Keys {
    /// Makes an empty list of keys.
    pub fn none(alloc: Global) -> Keys
        ensures { result ≡ [] }
    {
        Keys {
            keys: Vec::new(alloc),
        }
    }

    /// Takes the keys of a list. The list is handed back if they do not strictly ascend, or if they are more than
    /// 128.
    pub fn from_vec(keys: Vec<Key>) -> Result<Keys, Vec<Key>>
        ensures { MatchResult result (λ taken. (taken ≡ keys.items) × (length keys.items ≤ 128)
            × IsTrue (ascends key_before keys.items))
            (λ back. (back.items ≡ keys.items)
            × ((128 < length keys.items) ⊎ IsFalse (ascends key_before keys.items))) }
    {
        if keys.len() > 128 || !ascend(keys.as_slice()) {
            return Err(keys);
        }
        Ok(Keys { keys })
    }

    /// Copies the list into memory of its own.
    pub fn copy(&self, alloc: Global) -> Result<Keys, Fault>
        ensures same { IfOk result (λ keys. keys ≡ self.now) }
        ensures memory { IfErr result (λ fault. fault ≡ Fault.Memory) }
    {
        let keys = self.keys.as_slice().to_vec(alloc)?;
        Ok(Keys { keys })
    }

    /// Gives the keys in order.
    pub fn as_slice(&self) -> &[Key]
        ensures same { result.now ≡ self.now }
        ensures few { length result.now ≤ 128 }
        ensures ascending { IsTrue (ascends key_before result.now) }
    {
        self.keys.as_slice()
    }
}

/// Tells whether each key is before the next one.
pub(crate) fn ascend(keys: &[Key]) -> bool
    ensures { result ≡ ascends key_before keys.now }
{
    keys.is_sorted_by(|key, next| key < next)
}
