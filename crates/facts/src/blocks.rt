//! Memory for a promise or a decision that comes.
ghost use Rattle.std.specs.Prelude.{◌≡◌, ◌≤◌, IsOk, IfErr, OnOk};

use record::{Committed, Prepared};
use std::alloc::Global;
use std::marker::Model;
use units::{Fault, Keys, Parts, ShardNo, Stamp, TxnId, Writes};

/// Memory for one more promise, and for one more decision. Contracts see for how many records there is memory: one or
/// none.
#[derive(Drop)]
pub struct Blocks {
    promise: Option<Box<Prepared>>,
    decision: Option<Box<Committed>>,
}

impl Model for Blocks {
    ghost use Rattle.std.specs.Prelude.{ℕ, cond, is_some, ◌&&◌};

    ghost Value = { ℕ };

    ghost view = { λ b. cond (is_some b.promise && is_some b.decision) 1 0 };
}

impl Blocks {
    /// Begins without memory.
    pub fn none() -> Blocks {
        Blocks {
            promise: None,
            decision: None,
        }
    }

    /// Takes the memory that is missing.
    pub fn reserve(&mut self, alloc: Global, shard: ShardNo) -> Result<(), Fault>
        ensures room { OnOk result (1 ≤ self.new) }
        ensures keeps { self.old ≤ self.new }
        ensures succeeds { 1 ≤ self.old → IsOk result }
        ensures memory { IfErr result (λ fault. fault ≡ Fault.Memory) }
    {
        if self.promise.is_none() {
            self.promise = Some(Box::new(alloc, no_promise(alloc, shard))?);
        }
        if self.decision.is_none() {
            self.decision = Some(Box::new(alloc, no_decision(alloc, shard))?);
        }
        Ok(())
    }

    /// Puts a promise into the memory for it.
    pub fn promise(&mut self, prepared: Prepared) -> Box<Prepared>
        requires { 1 ≤ self.old }
        ensures { result.value ≡ prepared }
    {
        let Some(mut place) = self.promise.take() else {
            unreachable!()
        };
        Box::replace(&mut place, prepared);
        place
    }

    /// Puts a decision into the memory for it.
    pub fn decision(&mut self, committed: Committed) -> Box<Committed>
        requires { 1 ≤ self.old }
        ensures { result.value ≡ committed }
    {
        let Some(mut place) = self.decision.take() else {
            unreachable!()
        };
        Box::replace(&mut place, committed);
        place
    }
}

// Gives what fills the memory until a promise comes.
fn no_promise(alloc: Global, shard: ShardNo) -> Prepared {
    Prepared {
        txn: no_txn(),
        coordinator: shard,
        at: Stamp::zero(),
        reads: Keys::none(alloc),
        writes: Writes::none(alloc),
    }
}

// Gives what fills the memory until a decision comes.
fn no_decision(alloc: Global, shard: ShardNo) -> Committed {
    Committed {
        txn: no_txn(),
        at: Stamp::zero(),
        parts: Parts::only(shard),
        reads: Keys::none(alloc),
        writes: Writes::none(alloc),
    }
}

fn no_txn() -> TxnId {
    let Some(txn) = TxnId::new(1, 0) else {
        unreachable!()
    };
    txn
}
