//! The versions of keys.
ghost use Rattle.std.specs.Prelude.{◌≡◌, ℕ, ◌+◌, ◌*◌, ◌<◌, ◌≤◌, ◌^◌, ◌++◌, ◌∷◌, [], List, length, nat_le, IsTrue, IsOk, IfOk, IfErr, OnOk};
ghost use Rattle.std.specs.Option.{option_copied};
ghost use Rattle.units.specs.Versions.{latest, at_time, versions, above_versions};
ghost use Rattle.units.specs.declared.writes.Install.{Install};
ghost use Rattle.units.specs.Keys.{write_before};
ghost use Rattle.units.specs.Lists.{ascends};
ghost use Rattle.versions.specs.Arranged.{arranged, AreWithin};
ghost use Rattle.versions.specs.Next.{IsNextKey, IsNextVersion};
ghost use Rattle.versions.specs.Ordered.{installed, all_installed, count_not_after, is_above, AscendsByVersion};
ghost use Rattle.versions.specs.Orders.{Orders};
ghost use Rattle.versions.specs.Places.{SameFrom};
ghost use Rattle.versions.specs.Due.{ForgetsIfDue};
ghost use Rattle.versions.specs.Pruned.{pruned};

use crate::copying::copy_install;
use crate::forgetting::{forget, gather, is_due};
use crate::held::held_with_room;
use crate::placed::Places;
use crate::search::{self, find, install, install_from};
use counts::Count;
use std::alloc::Global;
use std::marker::Model;
use units::{Fault, Install, Key, Stamp, Value, Write, Writes};

/// The versions of keys. Contracts see them ascending by key and timestamp, with the room for more.
pub struct Versions {
    // As they were installed.
    installs: Vec<Install>,
    // Their places there, ascending by key and timestamp. One more moves places and heads, not versions.
    places: Places,
    // For how many more both have room.
    room: usize,
}

impl Drop for Versions {
    fn drop(self) {
        let Versions {
            installs: _,
            places: _,
            room: _,
        } = self;
    }
}

impl Model for Versions {
    ghost use Rattle.std.specs.Prelude.{◌-◌, vec_capacity, vec_len};
    ghost use Rattle.versions.specs.Arranged.{arranged, IsPlaced};
    ghost use Rattle.versions.specs.Store.{Store};

    ghost Value = { Store };

    ghost view = { λ a. record {
      installs = arranged a.installs.items a.places.places;
      room = a.room;
    } };

    ghost invariant = { λ a. IsPlaced a.installs.items a.places.places a.places.heads a.places.prefix a.room
        (vec_capacity a.installs - vec_len a.installs) a.places.room };
}

impl Versions {
    /// Begins without a version, and without room.
    pub fn none(alloc: Global) -> Versions
        ensures { result.installs ≡ [] }
    {
        Versions {
            installs: Vec::new(alloc),
            places: Places::none(alloc),
            room: 0,
        }
    }

    /// Copies the versions that have a place, in the order of the places. Each comes last, so no place is searched for.
    pub fn of(alloc: Global, installs: &[Install], places: &Places) -> Result<Versions, Fault>
        requires { (horizon : ℕ) × Orders horizon installs.now (length installs.now) places.now }
        ensures versions { IfOk result
            (λ versions. versions.installs ≡ arranged installs.now places.now.places) }
        ensures memory { IfErr result (λ fault. fault ≡ Fault.Memory) }
    {
        Versions::in_order(alloc, installs, places)
    }

    /// A copy, which shares the values.
    pub fn copy(&self, alloc: Global) -> Result<Versions, Fault>
        ensures versions { IfOk result (λ copy. copy.installs ≡ self.now.installs) }
        ensures memory { IfErr result (λ fault. fault ≡ Fault.Memory) }
    {
        Versions::in_order(alloc, &self.installs, &self.places)
    }

    // Copies of the versions at some places.
    fn in_order(alloc: Global, installs: &[Install], places: &Places) -> Result<Versions, Fault>
        requires within { AreWithin places.now.places (length installs.now) }
        requires order { AscendsByVersion (arranged installs.now places.now.places) }
        ensures versions { IfOk result
            (λ versions. versions.installs ≡ arranged installs.now places.now.places) }
        ensures memory { IfErr result (λ fault. fault ≡ Fault.Memory) }
    {
        let mut versions = Versions::none(alloc);
        let Ok(()) = versions.reserve(places.len()) else {
            return Err(Fault::Memory);
        };
        let list = places.list(alloc)?;
        for at in 0..list.len() {
            versions.append(&installs[list[at]])?;
        }
        Ok(versions)
    }

    // Adds a copy of a version that comes after all others in order.
    fn append(&mut self, install: &Install) -> Result<(), Fault>
        requires room { 0 < self.old.room }
        requires last { AscendsByVersion (self.old.installs ++ install.now ∷ []) }
        ensures installs { OnOk result
            (self.new.installs ≡ self.old.installs ++ install.now ∷ []) }
        ensures room { OnOk result (self.new.room + 1 ≡ self.old.room) }
        ensures memory { IfErr result (λ fault. fault ≡ Fault.Memory) }
    {
        let Install { key, at, value } = copy_install(install)?;
        self.install(key, at, value);
        Ok(())
    }

    /// Makes room for so many more installs.
    pub fn reserve(&mut self, more: usize) -> Result<(), Fault>
        ensures room { OnOk result (more ≤ self.new.room) }
        ensures installs { self.new.installs ≡ self.old.installs }
        ensures keeps { self.old.room ≤ self.new.room }
        ensures refused { IfErr result (λ fault. (fault ≡ Fault.Memory) × (self.new ≡ self.old)) }
        ensures succeeds { more ≤ self.old.room → IsOk result }
    {
        let len = self.installs.len();
        if self.installs.capacity() - len < more {
            // An eighth more, so that little of a long list stands empty.
            self.installs.reserve_exact(more.max(len / 8))?;
        }
        self.places.reserve(more)?;
        self.room = self.room.max(more);
        Ok(())
    }

    /// Tells whether the timestamp is above all versions of the key, so that one may be installed there.
    pub fn takes(&self, key: &Key, at: Stamp) -> bool
        ensures { result ≡ is_above self.now.installs key.now at }
    {
        search::is_above(&self.installs, &self.places, key, at)
    }

    /// Installs a value, or an erasure, at a timestamp above the key's others. It takes no memory.
    pub fn install(&mut self, key: Key, at: Stamp, value: Option<Value>)
        requires room { 0 < self.old.room }
        requires above { IsTrue (is_above self.old.installs key at) }
        ensures installs { self.new.installs ≡
            installed self.old.installs (record { key = key; at = at; value = value }) }
        ensures room { self.new.room + 1 ≡ self.old.room }
    {
        self.room -= 1;
        let new = Install { key, at, value };
        install(&mut self.installs, &mut self.places, new);
    }

    /// Installs a value, or an erasure, at a timestamp above the key's others. The first version of the key may go for it, if the next one is not
    /// above the horizon. So a key that is written again and again needs no pass over all. It takes no memory.
    pub fn install_from(&mut self, key: Key, at: Stamp, value: Option<Value>, horizon: Stamp)
        requires room { 0 < self.old.room }
        requires above { IsTrue (is_above self.old.installs key at) }
        ensures same { (log : List Install) → SameFrom horizon self.old.installs log
            → SameFrom horizon self.new.installs
            (log ++ (record { key = key; at = at; value = value }) ∷ []) }
        ensures room { self.old.room ≤ self.new.room + 1 }
    {
        self.room -= 1;
        let new = Install { key, at, value };
        install_from(&mut self.installs, &mut self.places, new, horizon);
    }

    /// Installs some writes at a timestamp above their keys' others. It takes no memory.
    pub fn install_all(&mut self, writes: Writes, at: Stamp)
        requires room { length writes ≤ self.old.room }
        requires above { IsTrue (above_versions self.old.installs at writes) }
        ensures installs { self.new.installs ≡ all_installed self.old.installs
            (versions writes at) }
        ensures order { IsTrue (ascends write_before writes) }
        ensures room { self.new.room + length writes ≡ self.old.room }
    {
        for write in writes.into_vec() {
            let Write { key, value } = write;
            self.install(key, at, value);
        }
    }

    /// Forgets the versions below a horizon: of each key all below it go, except the newest that is not above it. So values at the horizon or
    /// later stay as they are, and so does what is taken as new. What goes leaves its room. If there is memory, the others are copied, each to
    /// where it comes, which is quicker than to move them.
    pub fn forget(&mut self, horizon: Stamp)
        ensures installs { self.new.installs ≡ pruned horizon self.old.installs }
        ensures room { self.old.room ≤ self.new.room }
        ensures freed { length self.new.installs + self.new.room ≡
            length self.old.installs + self.old.room }
    {
        let alloc = *self.installs.allocator();
        let held = held_with_room(alloc, &self.installs, &self.places, horizon, self.room);
        let Ok((installs, places)) = held else {
            self.forget_in_place(horizon);
            return;
        };
        self.room += self.places.len() - places.len();
        self.installs = installs;
        self.places = places;
    }

    // Forgets them (`forget`) without memory.
    fn forget_in_place(&mut self, horizon: Stamp)
        ensures installs { self.new.installs ≡ pruned horizon self.old.installs }
        ensures room { self.old.room ≤ self.new.room }
        ensures freed { length self.new.installs + self.new.room ≡
            length self.old.installs + self.old.room }
    {
        let before = self.places.len();
        forget(&self.installs, &mut self.places, horizon);
        self.room += before - self.places.len();
        gather(&mut self.installs, &mut self.places);
    }

    /// Forgets the versions below a horizon (`forget`) if that is due: if there are half as many more as were left the last time, and 1,024.
    /// `left` says how many that were. So a pass over all versions is paid for by those that came since the last one. Returns whether it was due.
    pub fn forget_if_due(&mut self, horizon: Stamp, left: &mut usize) -> bool
        ensures forgotten { ForgetsIfDue horizon left.old left.new
            self.old.installs self.new.installs }
        ensures room { self.old.room ≤ self.new.room }
        ensures told { result ≡ nat_le (3 * left.old + 2048) (2 * length self.old.installs) }
    {
        let due = is_due(*left, self.places.len());
        if due {
            self.forget(horizon);
            *left = self.places.len();
        }
        due
    }

    /// Gives the most recent value of a key: `None` if there is none or it was erased.
    pub fn latest(&self, key: &Key) -> Option<&Value>
        ensures { option_copied result ≡ latest self.now.installs key.now }
    {
        search::latest(&self.installs, &self.places, key)
    }

    /// Gives the value that a key has at a timestamp: `None` if there is none or it was erased.
    pub fn at(&self, key: &Key, at: Stamp) -> Option<&Value>
        ensures { option_copied result ≡ at_time self.now.installs key.now at }
    {
        search::value_at(&self.installs, &self.places, key, at)
    }

    /// Gives the next key that has versions: `None` if there is none. No key between the two has a value at any time.
    pub fn next_key(&self, key: &Key) -> Option<Key>
        ensures { IsNextKey self.now.installs key.now result }
    {
        search::next_key(&self.installs, &self.places, key)
    }

    /// Gives the next version of a key after a time: `None` if there is none. Between the two the key keeps the value that it has at the time.
    pub fn next_version(&self, key: &Key, at: Stamp) -> Option<&Install>
        ensures { IsNextVersion self.now.installs key.now at (option_copied result) }
    {
        search::next_version(&self.installs, &self.places, key, at)
    }

    /// Counts the versions that are not after a key and timestamp. Returns this, and how many were compared to find it: as many as their
    /// number has binary digits, or one less. Each comparison raises the caller's count, which only proofs see.
    pub fn find(&self, key: &Key, at: Stamp, compared: &mut Count) -> (usize, u32)
        ensures count { result.0 ≡ count_not_after key.now at self.now.installs }
        ensures probes { (digits : ℕ) → length self.now.installs < 2 ^ digits → result.1 ≤ digits }
        ensures fewest { (digits : ℕ) → 2 ^ digits ≤ length self.now.installs + 1
            → digits ≤ result.1 }
        ensures counted { compared.new.number ≡ compared.old.number + result.1 }
    {
        find(&self.installs, &self.places, key, at.micros(), compared)
    }
}
