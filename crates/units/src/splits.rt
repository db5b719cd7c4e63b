//! The keys that divide all keys among the shards.
ghost use Rattle.std.specs.Prelude.{◌≡◌, ◌≤◌, ◌<◌, ◌⊎◌, IsTrue, IsFalse, length, not, IsOk, IfOk, IfErr};
ghost use Rattle.units.specs.Keys.{key_before, shard_of};
ghost use Rattle.units.specs.Lists.{ascends, count};

use crate::keys::ascend;
use crate::{Fault, Key, Reason, ShardNo};
use std::alloc::Global;
use std::marker::Model;

/// The keys that divide all keys among the shards: at most 15, strictly ascending. There is one shard more than
/// splits.
pub struct Splits {
    keys: Vec<Key>,
}

impl Drop for Splits {
    fn drop(self) {
        let Splits { keys: _ } = self;
    }
}

impl Model for Splits {
    ghost use Rattle.std.specs.Prelude.{ℕ, List, ◌≤◌, length, IsTrue};
    ghost use Rattle.units.specs.Keys.{key_before};
    ghost use Rattle.units.specs.Lists.{ascends};

    ghost Value = { List (List ℕ) };

    ghost view = { λ s. s.keys.items };

    ghost invariant = { λ s. (length s.keys.items ≤ 15)
        × IsTrue (ascends key_before s.keys.items) };
}

impl Splits {
    /// Makes the splits at these keys. `BadRequest(Many)` comes if they are more than 15. `BadRequest(Splits)` comes
    /// if they are at most 15 and do not strictly ascend.
    pub fn new(alloc: Global, keys: &[Key]) -> Result<Splits, Fault>
        ensures made { IfOk result (λ splits. splits ≡ keys.now) }
        ensures fits { IsOk result → (length keys.now ≤ 15) × IsTrue (ascends key_before keys.now) }
        ensures refused { IfErr result (λ fault.
            ((fault ≡ Fault.BadRequest Reason.Many) × (15 < length keys.now))
            ⊎ (((fault ≡ Fault.BadRequest Reason.Splits) × (length keys.now ≤ 15)
            × IsFalse (ascends key_before keys.now))
            ⊎ ((fault ≡ Fault.Memory) × (length keys.now ≤ 15)
            × IsTrue (ascends key_before keys.now)))) }
    {
        if keys.len() > 15 {
            return Err(Fault::BadRequest(Reason::Many));
        }
        if !ascend(keys) {
            return Err(Fault::BadRequest(Reason::Splits));
        }
        let keys = keys.to_vec(alloc)?;
        Ok(Splits { keys })
    }

    /// Gives the splits in order.
    pub fn as_slice(&self) -> &[Key]
        ensures same { result.now ≡ self.now }
        ensures few { length result.now ≤ 15 }
    {
        self.keys.as_slice()
    }

    /// Copies the splits into memory of their own.
    pub fn copy(&self, alloc: Global) -> Result<Splits, Fault>
        ensures same { IfOk result (λ splits. splits ≡ self.now) }
        ensures memory { IfErr result (λ fault. fault ≡ Fault.Memory) }
    {
        let keys = self.keys.to_vec(alloc)?;
        Ok(Splits { keys })
    }

    /// Finds the shard of a key: its number is how many splits are not greater than the key.
    #[tactic(auto, unfolding(crate::specs::Keys::shard_of))]
    pub fn shard_of(&self, key: &Key) -> ShardNo
        ensures { result ≡ shard_of self.now key.now }
    {
        ShardNo::of_count(count_up_to(self.keys.as_slice(), key))
    }
}

// Counts the splits that are not greater than the key.
fn count_up_to(splits: &[Key], key: &Key) -> usize
    ensures value { result ≡ count (λ split. not (key_before key.now split)) splits.now }
    ensures limit { result ≤ length splits.now }
{
    match splits.split_first() {
        None => 0,
        Some((split, rest)) => {
            let others = count_up_to(rest, key);
            if key >= split { others + 1 } else { others }
        }
    }
}
