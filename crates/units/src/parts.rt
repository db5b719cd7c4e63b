//! The shards that take part in a transaction.
ghost use Rattle.std.specs.List.{list_any, list_all};
ghost use Rattle.std.specs.Prelude.{◌≡◌, ◌+◌, ◌<◌, ◌^◌, [], ◌∷◌, Some, None, IfSome, IfNone, IfOk, IfErr, if◌then◌else◌, nat_eq, nat_lt, not, true};
ghost use Rattle.units.specs.Lists.{has, head, once, sorted};
ghost use Rattle.units.specs.Masks.{shards_of_mask, shards_from, mask_of, marked};

use crate::{Fault, ShardNo};
use std::alloc::Global;
use std::marker::Model;

/// The shards that take part in a transaction, at least one. Its mask has the bit 2^n for shard n. A contract sees
/// their numbers in ascending order.
#[derive(Clone, Copy)]
pub struct Parts {
    mask: u16,
}

impl Model for Parts {
    ghost use Rattle.std.specs.Prelude.{ℕ, List, ◌<◌, ◌^◌};
    ghost use Rattle.std.proofs.Common.{ap};
    ghost use Rattle.units.specs.Masks.{shards_of_mask, mask_of};
    ghost use Rattle.units.specs.Parts.{mask_again};

    ghost Value = { List ℕ };

    ghost view = { λ p. shards_of_mask p.mask };

    ghost invariant = { λ p. (0 < p.mask) × (p.mask < 2 ^ 16) };

    ghost inverse = { λ ns. record { mask = mask_of ns } };

    ghost inverse_ok = { λ p h. ap (λ n. record { mask = n }) (mask_again p.mask h.1) };
}

impl Parts {
    /// Makes the shards of a mask. `None` comes if the mask has no bit.
    pub fn from_mask(mask: u16) -> Option<Parts>
        ensures { result ≡ (if nat_eq mask 0 then None else Some (shards_of_mask mask)) }
    {
        if mask == 0 {
            None
        } else {
            Some(Parts { mask })
        }
    }

    /// Makes a set of one shard alone.
    pub fn only(shard: ShardNo) -> Parts
        ensures { result ≡ shard ∷ [] }
    {
        let number = shard.number();
        Parts { mask: 1 << number }
    }

    /// Makes the shards of a list, each once. `None` comes if the list is empty.
    pub fn of(shards: &[ShardNo]) -> Option<Parts>
        ensures none { IfNone result (sorted nat_lt (once shards.now) ≡ []) }
        ensures some { IfSome result (λ parts. parts ≡ sorted nat_lt (once shards.now)) }
    {
        Parts::from_mask(mask_from(shards, 16, 0))
    }

    /// Lists the shards in ascending order.
    pub fn shards(self, alloc: Global) -> Result<Vec<ShardNo>, Fault>
        ensures same { IfOk result (λ shards. shards.items ≡ self) }
        ensures memory { IfErr result (λ fault. fault ≡ Fault.Memory) }
    {
        let mut shards = Vec::new(alloc);
        let mut rest = self.mask;
        for number in 0..16 {
            if rest % 2 == 1 {
                shards.push(ShardNo::of_count(number))?;
            }
            rest /= 2;
        }
        Ok(shards)
    }

    /// Gives the least of them, which is the coordinator.
    pub fn least(self) -> ShardNo
        ensures { head self ≡ Some result }
    {
        let mut rest = self.mask;
        let mut number: u8 = 0;
        while rest % 2 == 0 {
            rest /= 2;
            number += 1;
        }
        ShardNo::of_count(number as usize)
    }

    /// Tells whether the shard is one of them.
    pub fn has(self, shard: ShardNo) -> bool
        ensures { result ≡ has self shard }
    {
        has_from(self.mask, 16, 0, shard.number())
    }

    /// Tells whether another shard than this is one of them.
    pub fn has_others(self, shard: ShardNo) -> bool
        ensures { result ≡ list_any (λ n. not (nat_eq n shard)) self }
    {
        has_others_from(self.mask, 16, 0, shard.number())
    }

    /// Gives their mask.
    pub fn mask(self) -> u16
        ensures value { result ≡ mask_of self }
        ensures shards { shards_of_mask result ≡ self }
        ensures some { 0 < result }
    {
        self.mask
    }
}

// Tells whether a shard is among those of some bits, from number n on.
#[tactic(auto, using(crate::specs::Parts::no_shards))]
fn has_from(mask: u16, bits: u32, n: u8, shard: u8) -> bool
    requires { bits + n ≡ 16 }
    ensures { result ≡ has (shards_from bits n mask) shard }
{
    if bits == 0 || mask == 0 {
        return false;
    }
    (mask % 2 == 1 && shard == n) || has_from(mask / 2, bits - 1, n + 1, shard)
}

// Tells whether another shard is among those of some bits, from number n on.
#[tactic(auto, using(crate::specs::Parts::no_shards))]
fn has_others_from(mask: u16, bits: u32, n: u8, shard: u8) -> bool
    requires { bits + n ≡ 16 }
    ensures { result ≡ list_any (λ k. not (nat_eq k shard)) (shards_from bits n mask) }
{
    if bits == 0 || mask == 0 {
        return false;
    }
    (mask % 2 == 1 && n != shard) || has_others_from(mask / 2, bits - 1, n + 1, shard)
}

// Gives the bits of the shards of a list, from number n on.
fn mask_from(shards: &[ShardNo], bits: u32, n: u8) -> u16
    requires { bits + n ≡ 16 }
    ensures limit { result < 2 ^ bits }
    ensures shards { shards_from bits n result ≡ marked (has shards.now) bits n }
    ensures small { 0 < bits → list_all (λ k. nat_lt k 16) shards.now ≡ true }
{
    if bits == 0 {
        return 0;
    }
    let above = mask_from(shards, bits - 1, n + 1);
    let bit = if is_among(shards, n) { 1 } else { 0 };
    2 * above + bit
}

// Tells whether the list has the shard of this number.
fn is_among(shards: &[ShardNo], n: u8) -> bool
    ensures among { result ≡ has shards.now n }
    ensures small { list_all (λ k. nat_lt k 16) shards.now ≡ true }
{
    let mut found = false;
    for shard in shards {
        if n == shard.number() {
            found = true;
        }
    }
    found
}
