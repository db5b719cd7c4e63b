//! The places of versions in order, each with the head of its key.
ghost use Rattle.std.specs.Prelude.{◌≡◌, ℕ, List, ◌+◌, ◌-◌, ◌<◌, ◌≤◌, ◌++◌, [], length, take, drop, IsOk, IfOk, IfErr, OnOk, slice_index_or, slice_set};
ghost use Rattle.std.specs.List.{insert};
ghost use Rattle.units.specs.Keys.{same_key};
ghost use Rattle.units.specs.declared.writes.Install.{Install};
ghost use Rattle.versions.specs.Heads.{AreBytes, head, prefix_of};
ghost use Rattle.versions.specs.Orders.{Orders};

use crate::chunk::Spot;
use crate::head::{head, prefix_bytes};
use crate::sequence::Sequence;
use std::alloc::Global;
use std::marker::Model;
use units::{Fault, Key};

/// The places, by key and timestamp, of versions that stand in a list as they were installed. Beside each place is the head of its key, and
/// there is room for more. The list is somebody else's, and each look-up is given it.
#[derive(Drop)]
pub struct Places {
    spots: Sequence,
    // The prefix after which heads begin: none if it is empty.
    prefix: Option<Key>,
}

impl Model for Places {
    ghost use Rattle.std.specs.Prelude.{map};
    ghost use Rattle.versions.specs.Headed.{Headed};
    ghost use Rattle.versions.specs.Heads.{prefix_of};

    ghost Value = { Headed };

    ghost view = { λ p. record {
      places = map (λ s. s.place) p.spots.spots;
      heads = map (λ s. s.head) p.spots.spots;
      prefix = prefix_of p.prefix;
      room = p.spots.room;
    } };
}

impl Places {
    /// Begins without a place, and without room.
    pub fn none(alloc: Global) -> Places
        ensures places { result.places ≡ [] }
        ensures heads { result.heads ≡ [] }
        ensures orders { Orders 0 [] 0 result }
    {
        Places {
            spots: Sequence::none(alloc),
            prefix: None,
        }
    }

    /// Begins without a place, and without room. Heads begin after the same prefix as those here.
    pub(crate) fn beside(&self, alloc: Global) -> Places
        ensures places { result.places ≡ [] }
        ensures heads { result.heads ≡ [] }
        ensures prefix { result.prefix ≡ self.now.prefix }
    {
        Places {
            spots: Sequence::none(alloc),
            prefix: self.prefix,
        }
    }

    /// Counts the places.
    pub fn len(&self) -> usize
        ensures { result ≡ length self.now.places }
    {
        self.spots.len()
    }

    /// Gives one of the places.
    pub(crate) fn get(&self, at: usize) -> usize
        requires { at < length self.now.places }
        ensures { result ≡ slice_index_or self.now.places at 0 }
    {
        self.spots.get(at).place
    }

    /// Lists the places, in order.
    pub fn list(&self, alloc: Global) -> Result<Vec<usize>, Fault>
        ensures places { IfOk result (λ list. list.items ≡ self.now.places) }
        ensures memory { IfErr result (λ fault. fault ≡ Fault.Memory) }
    {
        self.spots.list(alloc)
    }

    /// Gives the head beside a place.
    pub(crate) fn head(&self, at: usize) -> u64
        requires { at < length self.now.places }
        ensures { result ≡ slice_index_or self.now.heads at 0 }
    {
        self.spots.get(at).head
    }

    /// Finds the first place whose head is not below a number, if heads ascend. The contract speaks only of the heads there and right before.
    pub(crate) fn first_at(&self, head: u64) -> usize
        ensures within { result ≤ length self.now.places }
        ensures below { 0 < result → slice_index_or self.now.heads (result - 1) 0 < head }
        ensures first { result < length self.now.places →
            head ≤ slice_index_or self.now.heads result 0 }
    {
        self.spots.first_at(head)
    }

    /// Finds the first place whose head is above a number, if heads ascend: the first that is not below the next number.
    pub(crate) fn first_above(&self, head: u64) -> usize
        ensures within { result ≤ length self.now.places }
        ensures last { 0 < result → slice_index_or self.now.heads (result - 1) 0 ≤ head }
        ensures above { result < length self.now.places →
            head < slice_index_or self.now.heads result 0 }
    {
        let len = self.len();
        if len == 0 || self.head(len - 1) <= head {
            return len;
        }
        self.first_at(head + 1)
    }

    /// Computes the head that a key has beside these places.
    pub(crate) fn head_of(&self, key: &Key) -> u64
        ensures head { result ≡ head self.now.prefix key.now }
        ensures bytes { AreBytes key.now }
    {
        head(&self.prefix, key)
    }

    /// Makes room for so many more.
    pub fn reserve(&mut self, more: usize) -> Result<(), Fault>
        ensures room { OnOk result (more ≤ self.new.room) }
        ensures places { self.new.places ≡ self.old.places }
        ensures heads { self.new.heads ≡ self.old.heads }
        ensures prefix { self.new.prefix ≡ self.old.prefix }
        ensures keeps { self.old.room ≤ self.new.room }
        ensures orders { (horizon : ℕ) (installs : List Install) (known : ℕ)
            → Orders horizon installs known self.old → Orders horizon installs known self.new }
        ensures memory { IfErr result (λ fault. fault ≡ Fault.Memory) }
        ensures succeeds { more ≤ self.old.room → IsOk result }
    {
        self.spots.reserve(more)
    }

    /// Puts in a place with its head. It takes no memory.
    pub(crate) fn insert(&mut self, at: usize, place: usize, head: u64)
        requires at { at ≤ length self.old.places }
        requires room { 0 < self.old.room }
        ensures places { self.new.places ≡ insert self.old.places at place }
        ensures heads { self.new.heads ≡ insert self.old.heads at head }
        ensures prefix { self.new.prefix ≡ self.old.prefix }
        ensures room { self.new.room + 1 ≡ self.old.room }
    {
        self.spots.insert(at, Spot { place, head });
    }

    /// Tells whether heads begin after this prefix.
    pub(crate) fn are_behind(&self, prefix: &Option<Key>) -> bool
        ensures { result ≡ same_key self.now.prefix (prefix_of prefix.now) }
    {
        prefix_bytes(&self.prefix) == prefix_bytes(prefix)
    }

    /// Lets heads begin after this prefix from now on. Those that stand are to be written anew.
    pub(crate) fn set_prefix(&mut self, prefix: Option<Key>)
        ensures prefix { self.new.prefix ≡ prefix_of prefix }
        ensures places { self.new.places ≡ self.old.places }
        ensures heads { self.new.heads ≡ self.old.heads }
        ensures room { self.new.room ≡ self.old.room }
    {
        self.prefix = prefix;
    }

    /// Writes over the head beside a place.
    pub(crate) fn set_head(&mut self, at: usize, head: u64)
        requires { at < length self.old.places }
        ensures heads { self.new.heads ≡ slice_set self.old.heads at head }
        ensures places { self.new.places ≡ self.old.places }
        ensures prefix { self.new.prefix ≡ self.old.prefix }
        ensures room { self.new.room ≡ self.old.room }
    {
        let place = self.get(at);
        self.spots.set(at, Spot { place, head });
    }

    /// Writes over a place. The head beside it stays.
    pub(crate) fn set_place(&mut self, at: usize, place: usize)
        requires { at < length self.old.places }
        ensures places { self.new.places ≡ slice_set self.old.places at place }
        ensures heads { self.new.heads ≡ self.old.heads }
        ensures prefix { self.new.prefix ≡ self.old.prefix }
        ensures room { self.new.room ≡ self.old.room }
    {
        let head = self.head(at);
        self.spots.set(at, Spot { place, head });
    }

    /// Writes one place with its head over another.
    pub(crate) fn copy(&mut self, from: usize, to: usize)
        requires from { from < length self.old.places }
        requires to { to < length self.old.places }
        ensures places { self.new.places ≡
            slice_set self.old.places to (slice_index_or self.old.places from 0) }
        ensures heads { self.new.heads ≡
            slice_set self.old.heads to (slice_index_or self.old.heads from 0) }
        ensures prefix { self.new.prefix ≡ self.old.prefix }
        ensures room { self.new.room ≡ self.old.room }
    {
        let spot = self.spots.get(from);
        self.spots.set(to, spot);
    }

    /// Takes one place out, with its head, and puts another in at a later place: those in between move forward by one.
    pub(crate) fn shift(&mut self, from: usize, to: usize, place: usize, head: u64)
        requires from { from ≤ to }
        requires to { to < length self.old.places }
        ensures places { self.new.places ≡
            insert (take from self.old.places ++ drop (from + 1) self.old.places) to place }
        ensures heads { self.new.heads ≡
            insert (take from self.old.heads ++ drop (from + 1) self.old.heads) to head }
        ensures prefix { self.new.prefix ≡ self.old.prefix }
        ensures room { self.new.room ≡ self.old.room }
    {
        self.spots.shift(from, to, Spot { place, head });
    }

    /// Keeps so many places from the front. The space of the others is room from then on.
    pub(crate) fn shorten(&mut self, len: usize)
        requires { len ≤ length self.old.places }
        ensures places { self.new.places ≡ take len self.old.places }
        ensures heads { self.new.heads ≡ take len self.old.heads }
        ensures prefix { self.new.prefix ≡ self.old.prefix }
        ensures room { len + self.new.room ≡ length self.old.places + self.old.room }
    {
        self.spots.shorten(len);
    }
}
