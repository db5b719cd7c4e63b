//! The ids of the transactions that were ended.
ghost use Rattle.std.specs.Prelude.{◌≡◌, ◌+◌, ◌≤◌, ◌<◌, [], IsOk, IfErr, OnOk, filter, length, not, vec_len, vec_capacity};
ghost use Rattle.units.specs.Fronts.{front};
ghost use Rattle.units.specs.ById.{IsById};
ghost use Rattle.units.specs.Ids.{older, has_id, with_id};

use std::alloc::Global;
use std::marker::Model;
use units::{Fault, TxnId};

/// The ids of the transactions that were ended since the opening. Contracts see them in ascending order, each once, with the
/// room for more.
#[derive(Drop)]
pub struct Ended {
    ids: Vec<TxnId>,
}

impl Model for Ended {
    ghost use Rattle.std.specs.Prelude.{◌-◌, vec_capacity, vec_len};
    ghost use Rattle.units.specs.ById.{IsById};
    ghost use Rattle.ledger.specs.Ended.{EndedIds};

    ghost Value = { EndedIds };

    ghost view = { λ e. record { ids = e.ids.items; room = vec_capacity e.ids - vec_len e.ids } };

    ghost invariant = { λ e. IsById (λ id. id) e.ids.items };
}

impl Ended {
    /// Makes a list without an id and without room.
    pub fn none(alloc: Global) -> Ended
        ensures { result.ids ≡ [] }
    {
        Ended {
            ids: Vec::new(alloc),
        }
    }

    /// Makes room for this many more ids. `Memory` leaves the list as it was.
    pub fn reserve(&mut self, more: usize) -> Result<(), Fault>
        ensures room { OnOk result (more ≤ self.new.room) }
        ensures ids { self.new.ids ≡ self.old.ids }
        ensures keeps { self.old.room ≤ self.new.room }
        ensures refused { IfErr result (λ fault. (fault ≡ Fault.Memory) × (self.new ≡ self.old)) }
        ensures succeeds { more ≤ self.old.room → IsOk result }
    {
        self.ids.reserve(more)?;
        Ok(())
    }

    /// Adds an id, unless it is there. It takes no memory.
    pub fn add(&mut self, txn: TxnId)
        requires { 1 ≤ self.old.room }
        ensures ids { self.new.ids ≡ with_id self.old.ids txn }
        ensures room { self.old.room ≤ self.new.room + 1 }
    {
        put(&mut self.ids, txn);
    }

    /// Drops the ids below one. It takes no memory.
    pub fn retire(&mut self, below: TxnId)
        ensures ids { self.new.ids ≡ filter (λ t. not (older t below)) self.old.ids }
        ensures room { self.old.room ≤ self.new.room }
    {
        keep_from(&mut self.ids, below);
    }

    /// Tells whether the id is in the list, by a binary search.
    pub fn has(&self, txn: TxnId) -> bool
        ensures { result ≡ has_id self.now.ids txn }
    {
        is_among(&self.ids, txn)
    }

    /// Returns the ids in ascending order.
    pub fn as_slice(&self) -> &[TxnId]
        ensures same { result.now ≡ self.now.ids }
        ensures ascending { IsById (λ id. id) result.now }
    {
        self.ids.as_slice()
    }
}

// The number of ids in the list that are older.
fn place_of(ids: &[TxnId], txn: TxnId) -> usize
    requires { IsById (λ id. id) ids.now }
    ensures place { result ≡ front (λ id. older id txn) ids.now }
    ensures limit { result ≤ length ids.now }
{
    ids.partition_point(|id| *id < txn)
}

// Whether the id is in a list that ascends.
fn is_among(ids: &[TxnId], txn: TxnId) -> bool
    requires { IsById (λ id. id) ids.now }
    ensures { result ≡ has_id ids.now txn }
{
    let place = place_of(ids, txn);
    place < ids.len() && ids[place] == txn
}

// Drops the ids below one.
fn keep_from(ids: &mut Vec<TxnId>, below: TxnId)
    requires { IsById (λ id. id) ids.old.items }
    ensures items { ids.new.items ≡ filter (λ t. not (older t below)) ids.old.items }
    ensures order { IsById (λ id. id) ids.new.items }
    ensures len { vec_len ids.new ≤ vec_len ids.old }
    ensures capacity { vec_capacity ids.new ≡ vec_capacity ids.old }
{
    ids.retain(|txn| *txn >= below);
}

// Puts an id in its place, unless it is there. The list has room.
fn put(ids: &mut Vec<TxnId>, txn: TxnId)
    requires order { IsById (λ id. id) ids.old.items }
    requires room { vec_len ids.old < vec_capacity ids.old }
    ensures items { ids.new.items ≡ with_id ids.old.items txn }
    ensures order { IsById (λ id. id) ids.new.items }
    ensures len { vec_len ids.new ≤ vec_len ids.old + 1 }
    ensures capacity { vec_capacity ids.new ≡ vec_capacity ids.old }
{
    if is_among(ids, txn) {
        return;
    }
    match ids.insert(place_of(ids, txn), txn) {
        Ok(()) => {}
        Err(_) => unreachable!(),
    }
}
