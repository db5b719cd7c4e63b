//! A client asks later how a transaction ended.
ghost use Rattle.std.specs.Prelude.{◌≡◌, ℕ, List, ◌++◌};
ghost use Rattle.units.specs.Ids.{Id};
ghost use Rattle.message.specs.Ends.{End};
ghost use Rattle.session.specs.Sessions.{closing_messages};
ghost use Rattle.client.specs.Ends.{IsAwaited, times};
ghost use Rattle.client.specs.Outcomes.{IsFound, found_as};

use crate::{InDoubt, Wire};
use message::Done;
use std::sync::Wait;
use std::time;
use units::Stamp;

/// How a transaction ended that closed, by what its shards say when they are asked later.
#[derive(Clone, Copy, PartialEq, Eq)]
pub enum Outcome {
    /// It stands, whole, at this timestamp.
    Committed(Stamp),
    /// It stands nowhere, and never will.
    Aborted,
    /// The shard that decides has logged its commit, but the timestamp has not surely passed. Ask again later.
    Open,
    /// Nobody said. Ask again later, unless the shard that decides has stopped.
    Unknown,
}

impl<'s, R: Wait + time::Clock> Wire<'_, 's, R> {
    /// Asks the shards of a transaction how it ended, by the messages of its closing. It waits until the shard that decides answers, has
    /// stopped, or has said nothing new for as long as the wire waits by progress.
    pub fn ask(&mut self, doubt: &InDoubt<'s>) -> Outcome
        ensures sent { (n : ℕ) × (self.new.sent ≡ self.old.sent
            ++ times n (closing_messages doubt.now.tx.splits doubt.now.tx.client)) }
        ensures heard { (heard : List End) × (self.new.heard ≡ self.old.heard ++ heard)
            × IsFound doubt.now.tx.client.txn result heard }
    {
        self.attend(doubt.txn());
        self.ask_again(&doubt.tx);
        let done = self.await_end(&doubt.tx);
        self.found(done)
    }

    // What was found: what the end says; or if there was none, whether a shard has said that the transaction is decided.
    fn found(&self, done: Option<Done>) -> Outcome
        ensures { (txn : Id) (heard : List End) → IsAwaited txn done heard
            → IsFound txn result heard }
    {
        match done {
            Some(done) => said(done.outcome()),
            None => {
                if self.is_decided() {
                    Outcome::Open
                } else {
                    Outcome::Unknown
                }
            }
        }
    }
}

// What an end says.
fn said(outcome: Option<Stamp>) -> Outcome
    ensures { result ≡ found_as outcome }
{
    match outcome {
        Some(at) => Outcome::Committed(at),
        None => Outcome::Aborted,
    }
}
