//! Which worker runs which transaction.
ghost use Rattle.std.specs.Prelude.{◌≡◌, ◌<◌, ℕ, length, Some, IfOk, IfErr, IfSome, IfNone, slice_set, slice_get};

use std::alloc::Global;
use std::marker::Model;
use units::{Fault, TxnId};

/// The transaction that each worker runs, by the worker's number. Contracts see the list.
#[derive(Drop)]
pub struct Sessions {
    running: Vec<Option<TxnId>>,
}

impl Model for Sessions {
    ghost use Rattle.std.specs.Prelude.{List, Option};
    ghost use Rattle.units.specs.Ids.{Id};

    ghost Value = { List (Option Id) };

    ghost view = { λ s. s.running.items };
}

impl Sessions {
    /// Begins with so many workers that run no transaction.
    pub fn new(alloc: Global, workers: usize) -> Result<Sessions, Fault>
        ensures workers { IfOk result (λ sessions. length sessions ≡ workers) }
        ensures memory { IfErr result (λ fault. fault ≡ Fault.Memory) }
    {
        let running = vec![in alloc; None; workers]?;
        Ok(Sessions { running })
    }

    /// Notes that the worker runs this transaction, and no other. A number that no worker has changes nothing.
    pub fn run(&mut self, worker: usize, txn: TxnId)
        ensures { self.new ≡ slice_set self.old worker (Some txn) }
    {
        if worker < self.running.len() {
            self.running[worker] = Some(txn);
        }
    }

    /// Finds the first worker that runs the transaction.
    pub fn worker_of(&self, txn: TxnId) -> Option<usize>
        ensures one { IfSome result (λ worker. slice_get self.now worker ≡ Some (Some txn)) }
        ensures first { IfSome result
            (λ worker. (k : ℕ) → k < worker → slice_get self.now k ≡ Some (Some txn) → ⊥) }
        ensures nobody { IfNone result
            ((worker : ℕ) → slice_get self.now worker ≡ Some (Some txn) → ⊥) }
    {
        for (worker, running) in self.running.iter().enumerate() {
            if *running == Some(txn) {
                return Some(worker);
            }
        }
        None
    }
}
