//! How a transaction ends, and why its code goes no further.
ghost use Rattle.std.specs.Prelude.{◌≡◌, ◌≢◌, ◌⊎◌, Err, IfErr, Ok, false};
ghost use Rattle.client.specs.Ends.{left};
ghost use Rattle.client.specs.declared.ended.Ended.TheVariants as finish;
ghost use Rattle.store.specs.Attempts.{IsToldAs, kept, ran_of, runs_again};

use client::Halt as Halted;
use std::alloc::AllocError;
use units::{Fault, ShardNo, Stamp, TxnId};

/// How a transaction ended, whose code gives a `T`, or abandons it for a reason of its own.
#[derive(Clone, Copy, PartialEq, Eq)]
pub enum Ended<T = (), E = ()> {
    /// It stands, whole, at this timestamp under this id, and its code gave this value.
    Committed { at: Stamp, id: TxnId, value: T },
    /// Its code abandoned it, for this reason: it stands nowhere, and never will.
    Abandoned(E),
    /// It stands nowhere, and never will: so many attempts were made, and each was aborted.
    Aborted { tries: u32 },
    /// It closed under this id, and nobody said how it ended: it stands whole at one timestamp, or nowhere. `Client::outcome` asks later.
    Unknown { id: TxnId },
}

/// Why the code of a transaction goes no further. `Abandon` tells a reason of the code's own; the others come by `?` from a call of the
/// transaction, or of a type of the store.
#[derive(Clone, Copy, PartialEq, Eq)]
pub enum Halt<E = ()> {
    /// It wants to be run again, as a new transaction.
    Again,
    /// It wants the transaction dropped, for this reason, and not run again.
    Abandon(E),
    /// A call was refused.
    Refused(Fault),
    /// A shard has refused a letter of the transaction: it has stopped, its rows are full, or it gave another fault.
    Unserved { shard: ShardNo, fault: Fault },
}

impl<E> From<Halted> for Halt<E> {
    ghost use Rattle.std.specs.Prelude.{◌≡◌};
    ghost use Rattle.store.specs.Attempts.{widened};

    ghost from_gives = { λ why halt. halt ≡ widened why };

    fn from(why: Halted) -> Halt<E> {
        match why {
            Halted::Again | Halted::Abandon => Halt::Again,
            Halted::Refused(fault) => Halt::Refused(fault),
            Halted::Unserved { shard, fault } => Halt::Unserved { shard, fault },
        }
    }
}

impl<E> From<Fault> for Halt<E> {
    ghost use Rattle.std.specs.Prelude.{◌≡◌};
    ghost use Rattle.client.specs.Ends.{halt_for};
    ghost use Rattle.store.specs.Attempts.{widened};

    ghost from_gives = { λ fault halt. halt ≡ widened (halt_for fault) };

    fn from(fault: Fault) -> Halt<E> {
        Halt::from(Halted::from(fault))
    }
}

impl<E> From<AllocError> for Halt<E> {
    ghost use Rattle.std.specs.Prelude.{◌≡◌};
    ghost use Rattle.units.specs.declared.fault.Fault.TheVariants.{Memory};
    ghost use Rattle.store.specs.declared.ended.Halt.TheVariants.{Refused};

    ghost from_gives = { λ _ halt. halt ≡ Refused Memory };

    fn from(_error: AllocError) -> Halt<E> {
        Halt::Refused(Fault::Memory)
    }
}

/// What the code of a transaction came to, as its client ends it.
pub(crate) fn ran_of<T, E>(ran: &Result<T, Halt<E>>) -> Result<(), Halted>
    ensures { result ≡ ran_of ran.now }
{
    match ran {
        Ok(_) => Ok(()),
        Err(Halt::Again) => Err(Halted::Again),
        Err(Halt::Abandon(_)) => Err(Halted::Abandon),
        Err(Halt::Refused(fault)) => Err(Halted::Refused(*fault)),
        Err(Halt::Unserved { shard, fault }) => Err(Halted::Unserved {
            shard: *shard,
            fault: *fault,
        }),
    }
}

/// What the code of a transaction comes to, by whether what it left is its own.
pub(crate) fn kept<T: Drop, E: Drop>(own: bool, ran: Result<T, Halt<E>>) -> Result<T, Halt<E>>
    ensures { result ≡ kept own ran }
{
    if own {
        return ran;
    }
    drop(ran);
    Err(Halt::Refused(Fault::Stranger))
}

/// Whether the code runs again after an attempt: one that was aborted, unless it was abandoned.
pub(crate) fn runs_again<T, E>(
    ran: &Result<T, Halt<E>>,
    ended: &Result<client::Ended, Fault>,
) -> bool
    ensures { result ≡ runs_again ran.now ended.now }
{
    match (ran, ended) {
        (Err(Halt::Abandon(_)), _) => false,
        (_, Ok(client::Ended::Aborted)) => true,
        _ => false,
    }
}

/// What is told of a transaction after its last attempt, which had this id.
pub(crate) fn told_of<T: Drop, E: Drop>(
    id: TxnId,
    ran: Result<T, Halt<E>>,
    ended: Result<client::Ended, Fault>,
) -> Result<Ended<T, E>, Fault>
    requires over { runs_again ran ended ≡ false }
    requires ended { IfErr (ran_of ran)
        (λ halt. (ended ≡ left halt) ⊎ (ended ≡ Err Fault.Memory)) }
    ensures { IsToldAs id ran ended result }
{
    match ended {
        Err(fault) => {
            drop(ran);
            Err(fault)
        }
        Ok(ended) => match ran {
            Ok(value) => Ok(closed_as(id, value, ended)),
            Err(Halt::Abandon(why)) => Ok(Ended::Abandoned(why)),
            Err(_) => unreachable!(),
        },
    }
}

// What is told of a transaction with this id that closed, and was not aborted.
fn closed_as<T: Drop, E>(id: TxnId, value: T, ended: client::Ended) -> Ended<T, E>
    requires { ended ≢ finish.Aborted }
    ensures { IsToldAs id (Ok value) (Ok ended) (Ok result) }
{
    match ended {
        client::Ended::Committed(at) => committed(at, id, value),
        client::Ended::Unknown(id) => {
            drop(value);
            Ended::Unknown { id }
        }
        client::Ended::Aborted => unreachable!(),
    }
}

fn committed<T, E>(at: Stamp, id: TxnId, value: T) -> Ended<T, E>
    ensures { result ≡ Ended.Committed at id value }
{
    Ended::Committed { at, id, value }
}
