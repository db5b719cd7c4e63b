//! How a transaction ends, and why its code goes no further.
ghost use Rattle.std.specs.Prelude.{◌≡◌, true};
ghost use Rattle.units.specs.Ids.{same_id};
ghost use Rattle.session.specs.Shown.{finished_as};
ghost use Rattle.client.specs.Ends.{ended_of};

use message::Done;
use session::{Closed, Finished, Tx};
use std::alloc::AllocError;
use units::{Fault, Reason, ShardNo, Stamp, TxnId};

/// How a transaction ended.
#[derive(Clone, Copy, PartialEq, Eq)]
pub enum Ended {
    /// It stands, whole, at this timestamp.
    Committed(Stamp),
    /// It stands nowhere, and never will.
    Aborted,
    /// It closed, and nobody said how it ended: it stands whole at one timestamp, or nowhere.
    Unknown(TxnId),
}

/// Why the code of a transaction goes no further.
#[derive(Clone, Copy, PartialEq, Eq)]
pub enum Halt {
    /// The store wants the transaction run again, as a new one.
    Again,
    /// The user of the transaction wants it dropped.
    Abandon,
    /// A call was refused.
    Refused(Fault),
    /// A shard has refused a letter of the transaction: it has stopped, its rows are full, or it gave another fault.
    Unserved { shard: ShardNo, fault: Fault },
}

impl From<Fault> for Halt {
    ghost use Rattle.std.specs.Prelude.{◌≡◌};
    ghost use Rattle.client.specs.Ends.{halt_for};

    ghost from_gives = { λ fault halt. halt ≡ halt_for fault };

    fn from(fault: Fault) -> Halt {
        match fault {
            Fault::BadRequest(Reason::Doomed) => Halt::Again,
            _ => Halt::Refused(fault),
        }
    }
}

impl From<AllocError> for Halt {
    ghost use Rattle.units.specs.declared.fault.Fault.TheVariants.{Memory};
    ghost use Rattle.client.specs.Ends.{halt_for};

    ghost from_gives = { λ _ halt. halt ≡ halt_for Memory };

    fn from(_error: AllocError) -> Halt {
        Halt::Refused(Fault::Memory)
    }
}

impl From<Finished> for Ended {
    ghost use Rattle.std.specs.Prelude.{◌≡◌};
    ghost use Rattle.client.specs.Ends.{ended_of};

    ghost from_gives = { λ finished ended. ended ≡ ended_of finished };

    fn from(finished: Finished) -> Ended {
        match finished {
            Finished::Committed(at) => Ended::Committed(at),
            Finished::Aborted => Ended::Aborted,
        }
    }
}

/// Takes the end that a message told of this transaction, and spends the transaction.
pub fn end_of<S: Closed>(tx: Tx<'_, S>, done: &Done) -> Ended
    requires { same_id tx.client.txn done.now.txn ≡ true }
    ensures { result ≡ ended_of (finished_as done.now.outcome) }
{
    match tx.take(done) {
        Ok(finished) => Ended::from(finished),
        Err((_, tx)) => {
            let txn = tx.txn();
            tx.spend();
            Ended::Unknown(txn)
        }
    }
}
