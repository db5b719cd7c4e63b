//! Locks, and the answer to a request for some.
ghost use Rattle.std.specs.Prelude.{◌≡◌};

use crate::{Key, TxnId};
use std::marker::Model;

/// The most transactions that may have rows and locks at a shard at the same time.
pub const MOST_ROWS: usize = 1024;

/// How a lock is held: several transactions may share a key, but only one holds it exclusively.
#[derive(Clone, Copy, PartialEq, Eq)]
pub enum Mode {
    Shared,
    Exclusive,
}

/// A key, and how it is locked.
#[derive(Clone, Copy)]
pub struct Lock {
    pub key: Key,
    pub mode: Mode,
}

/// Ids of transactions, the oldest first. Nothing checks that they ascend.
pub struct Ids {
    ids: Vec<TxnId>,
}

impl Drop for Ids {
    fn drop(self) {
        let Ids { ids: _ } = self;
    }
}

impl Model for Ids {
    ghost use Rattle.std.specs.Prelude.{List};
    ghost use Rattle.units.specs.Ids.{Id};

    ghost Value = { List Id };

    ghost view = { λ i. i.ids.items };
}

impl Ids {
    /// Takes the ids of a list, which should ascend.
    pub fn from_vec(ids: Vec<TxnId>) -> Ids
        ensures { result ≡ ids.items }
    {
        Ids { ids }
    }

    /// Gives the ids, the oldest first.
    pub fn as_slice(&self) -> &[TxnId]
        ensures { result.now ≡ self.now }
    {
        self.ids.as_slice()
    }
}

/// The answer to a request for locks. `Granted`: the transaction holds them. `Waits`: it waits for them. `Wounds`:
/// these younger holders are to be ended first, and then the request is made again.
#[derive(Drop)]
pub enum Asked {
    Granted,
    Waits,
    Wounds(Ids),
}
