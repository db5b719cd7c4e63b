//! Plans: what an input will do, computed before anything is changed.
ghost use Rattle.std.specs.Prelude.{◌≡◌, []};

use message::Outbox;
use record::Record;
use rows::{Gathering, Wait};
use std::alloc::Global;
use units::{Ids, Lock, ShardNo, Stamp, TxnId};

/// What happens to the row of a step's own transaction.
#[derive(Drop)]
pub enum Change {
    /// The row stays as it is, or there is none.
    Keeps,
    /// The row ends and frees its locks. The transaction counts as ended.
    Ends(TxnId),
    /// The row ends by the record that is logged, and frees its locks.
    Drops(TxnId),
    /// The row gets its locks.
    Reads(TxnId),
    /// The row waits for its locks.
    Waits(TxnId, Wait),
    /// The row gets its locks, and collects votes.
    Collects(TxnId, Gathering),
    /// A shard's yes, at its prepare timestamp, is counted.
    Counts(TxnId, ShardNo, Stamp),
    /// The row gets its locks, and stands by the promise or the decision that is logged.
    Stands(TxnId),
    /// All votes are there, and the row stands by the decision that is logged.
    Decides(TxnId),
    /// All ids below this one are retired by the record that is logged, and none of them counts as ended.
    Retires(TxnId),
}

/// A request for locks: the transactions that it wounds, the locks that it needs beside those that are held, and what then happens
/// to the row.
#[derive(Drop)]
pub struct Request {
    pub wounded: Ids,
    pub needs: Vec<Lock>,
    pub change: Change,
}

/// What a step does in a shard's memory, and which messages it puts out. It ends the wounded transactions first, and then makes the
/// change with the needed locks. `last` is the greatest timestamp after it.
#[derive(Drop)]
pub struct Plan {
    pub wounded: Ids,
    pub needs: Vec<Lock>,
    pub change: Change,
    pub last: Stamp,
    pub outbox: Outbox,
}

impl Plan {
    /// Makes a plan that ends nobody else and puts out no message.
    pub fn quiet(alloc: Global, needs: Vec<Lock>, change: Change, last: Stamp) -> Plan
        ensures { result ≡ record {
          wounded = [];
          needs = needs;
          change = change;
          last = last;
          outbox = [];
        } }
    {
        Plan {
            wounded: Ids::from_vec(Vec::new(alloc)),
            needs,
            change,
            last,
            outbox: Outbox::from_vec(Vec::new(alloc)),
        }
    }
}

/// What an input comes to: a plan, and the record that has to be logged before the plan is carried out, if there is one. The record
/// is moved into the log and back, so it is never copied.
#[derive(Drop)]
pub struct Step {
    pub plan: Plan,
    pub logged: Option<Record>,
}
