//! How a transaction stands in a log.
ghost use Rattle.std.specs.Prelude.{◌≡◌, IsTrue};
ghost use Rattle.std.specs.Option.{option_copied};

use record::{Committed, Prepared};
use units::{Parts, ShardNo, Stamp};

/// How a transaction that has a record stands in a log: a promise or a decision without an outcome, an abort
/// decision, or how it ended. After its end the log's facts keep no reads and no writes of it, so it takes little
/// room.
#[derive(Drop)]
pub enum Status {
    Prepared(Box<Prepared>),
    Decided(Box<Committed>),
    Aborted,
    /// The decision was made here, and the transaction committed.
    Settled {
        at: Stamp,
        parts: Parts,
    },
    /// The promise was made here, and the transaction ended: at a timestamp, or `None` for aborted.
    Closed {
        coordinator: ShardNo,
        outcome: Option<Stamp>,
    },
}

impl Status {
    ghost use Rattle.facts.specs.Shown.{meaning};
    ghost use Rattle.facts.specs.Readers.{standing_promise, standing_decision, outcome_in};
    ghost use Rattle.facts.specs.Rules.{allows};
    ghost use Rattle.record.specs.Facts.{after_outcome};

    /// Gives the promise, while it has no outcome.
    pub fn prepared(&self) -> Option<&Prepared>
        ensures { option_copied result ≡ standing_promise (meaning self.now) }
    {
        match self {
            Status::Prepared(prepared) => Some(prepared),
            _ => None,
        }
    }

    /// Gives the commit decision, while it has no outcome.
    pub fn committed(&self) -> Option<&Committed>
        ensures { option_copied result ≡ standing_decision (meaning self.now) }
    {
        match self {
            Status::Decided(committed) => Some(committed),
            _ => None,
        }
    }

    /// Gives how the transaction ended here, if it has: at a timestamp, or `None` for aborted.
    pub fn outcome(&self) -> Option<Option<Stamp>>
        ensures { result ≡ outcome_in (meaning self.now) }
    {
        match self {
            Status::Settled { at, parts: _ } => Some(Some(*at)),
            Status::Closed {
                coordinator: _,
                outcome,
            } => Some(*outcome),
            _ => None,
        }
    }

    /// Tells whether the outcome may follow. An outcome at a timestamp follows a promise not above it, or a decision
    /// at it. Aborted follows a promise.
    pub(crate) fn allows(&self, outcome: Option<Stamp>) -> bool
        ensures { result ≡ allows (meaning self.now) outcome }
    {
        match (self, outcome) {
            (Status::Prepared(_), None) => true,
            (Status::Prepared(prepared), Some(at)) => prepared.at <= at,
            (Status::Decided(committed), Some(at)) => committed.at == at,
            _ => false,
        }
    }

    /// Gives what an outcome that it allows makes of it.
    pub(crate) fn after(&self, outcome: Option<Stamp>) -> Status
        requires { IsTrue (allows (meaning self.now) outcome) }
        ensures { meaning result ≡ after_outcome (meaning self.now) outcome }
    {
        match self {
            Status::Prepared(prepared) => Status::Closed {
                coordinator: prepared.coordinator,
                outcome,
            },
            Status::Decided(committed) => Status::Settled {
                at: committed.at,
                parts: committed.parts,
            },
            _ => unreachable!(),
        }
    }
}
