//! The messages and their addresses.
ghost use Rattle.std.specs.Prelude.{◌≡◌, Some, None};

use crate::Reads;
use std::marker::Model;
use truetime::Waited;
use units::{Epoch, Key, Parts, ShardNo, Stamp, TxnId, Value, Writes};

/// A session asks for the value of a key.
#[derive(Clone, Copy)]
pub struct Read {
    pub txn: TxnId,
    pub key: Key,
}

/// A session asks a part to promise that it can commit (Prepare). The coordinator decides later.
pub struct Prepare {
    pub txn: TxnId,
    pub coordinator: ShardNo,
    pub reads: Reads,
    pub writes: Writes,
}

impl Drop for Prepare {
    fn drop(self) {
        let Prepare {
            txn: _,
            coordinator: _,
            reads: _,
            writes: _,
        } = self;
    }
}

/// A session asks the coordinator, which is the least of the parts, to commit.
pub struct Commit {
    pub txn: TxnId,
    pub parts: Parts,
    pub reads: Reads,
    pub writes: Writes,
}

impl Drop for Commit {
    fn drop(self) {
        let Commit {
            txn: _,
            parts: _,
            reads: _,
            writes: _,
        } = self;
    }
}

/// A session gives a transaction up.
#[derive(Clone, Copy)]
pub struct GiveUp {
    pub txn: TxnId,
}

/// A part's vote to the coordinator: yes at its prepare timestamp, or `None` for no.
#[derive(Clone, Copy)]
pub struct Vote {
    pub from: ShardNo,
    pub txn: TxnId,
    pub vote: Option<Stamp>,
}

/// The coordinator tells a part how a transaction ended: committed at a timestamp, or `None` for aborted.
#[derive(Clone, Copy)]
pub struct Outcome {
    pub from: ShardNo,
    pub txn: TxnId,
    pub outcome: Option<Stamp>,
}

/// A part asks the coordinator how a transaction ended.
#[derive(Clone, Copy)]
pub struct Ask {
    pub from: ShardNo,
    pub txn: TxnId,
}

/// The answer to a read: `Holds` has the latest value, or `None` if the key has none. A refused read dooms the session.
pub enum Answer {
    Holds(Option<Value>),
    Refused,
}

impl Drop for Answer {
    fn drop(self) {
        match self {
            Answer::Holds(_) | Answer::Refused => {}
        }
    }
}

/// A shard answers a read. The epoch is the shard's at the time of the answer.
pub struct ReadAnswer {
    pub from: ShardNo,
    pub txn: TxnId,
    pub key: Key,
    pub epoch: Epoch,
    pub answer: Answer,
}

impl Drop for ReadAnswer {
    fn drop(self) {
        let ReadAnswer {
            from: _,
            txn: _,
            key: _,
            epoch: _,
            answer: _,
        } = self;
    }
}

/// The coordinator tells a session how its transaction ended: committed at a timestamp, or `None` for aborted. A commit is made
/// with the token that its timestamp has passed (`committed`), or repeats what was said before (`said`).
#[derive(Clone, Copy)]
pub struct Done {
    txn: TxnId,
    outcome: Option<Stamp>,
}

impl Model for Done {
    ghost use Rattle.message.specs.Ends.{End};

    ghost Value = { End };

    ghost view = { λ d. record { txn = d.txn; outcome = d.outcome } };

    ghost inverse = { λ e. record { txn = e.txn; outcome = e.outcome } };
}

impl Done {
    /// Says that the transaction was aborted.
    pub fn aborted(txn: TxnId) -> Done
        ensures { result ≡ record { txn = txn; outcome = None } }
    {
        Done { txn, outcome: None }
    }

    /// Says that the transaction committed at this timestamp. It spends the token that the timestamp has surely passed.
    pub fn committed(txn: TxnId, waited: Waited) -> Done
        ensures { result ≡ record { txn = txn; outcome = Some waited } }
    {
        Done {
            txn,
            outcome: Some(waited.spend()),
        }
    }

    /// Says again what was said before, without the token that a timestamp has passed. A shard calls it only for what its log tells of
    /// a settled transaction (`memory::PastCommit`); models of the network and tests call it too. `scripts/rules.sh` names the files
    /// that may call it.
    pub fn said(txn: TxnId, outcome: Option<Stamp>) -> Done
        ensures { result ≡ record { txn = txn; outcome = outcome } }
    {
        Done { txn, outcome }
    }

    /// Returns the transaction that ended.
    pub fn txn(&self) -> TxnId
        ensures { result ≡ self.now.txn }
    {
        self.txn
    }

    /// Returns its commit timestamp, or `None` if it was aborted.
    pub fn outcome(&self) -> Option<Stamp>
        ensures { result ≡ self.now.outcome }
    {
        self.outcome
    }
}

/// A message between sessions and shards. Each names its transaction.
pub enum Message {
    Read(Read),
    Prepare(Prepare),
    Commit(Commit),
    GiveUp(GiveUp),
    Vote(Vote),
    Outcome(Outcome),
    Ask(Ask),
    ReadAnswer(ReadAnswer),
    Done(Done),
}

impl Drop for Message {
    fn drop(self) {
        match self {
            Message::Prepare(prepare) => drop(prepare),
            Message::Commit(commit) => drop(commit),
            Message::ReadAnswer(answer) => drop(answer),
            Message::Read(_)
            | Message::GiveUp(_)
            | Message::Vote(_)
            | Message::Outcome(_)
            | Message::Ask(_)
            | Message::Done(_) => {}
        }
    }
}

/// The receiver of a message: a shard, or the session of a transaction.
#[derive(Clone, Copy)]
pub enum Address {
    Shard(ShardNo),
    Session(TxnId),
}

/// A message that was put out, with its address.
#[derive(Drop)]
pub struct Envelope {
    pub to: Address,
    pub message: Message,
}

/// An input of a shard: a message, or one of its own chores.
pub enum Input {
    Deliver(Message),
    /// Goes on with the oldest wait that would be granted now.
    Resume,
    /// Settles a decided transaction, once its timestamp has surely passed.
    Settle(TxnId),
    /// Raises the time up to which the shard serves reads.
    Advance(Stamp),
    /// Asks the coordinator of a prepared transaction how it ended.
    Nudge(TxnId),
    /// Raises the horizon to this time: no value below it is read any more.
    Forget(Stamp),
    /// Retires all ids below this one: the shard refuses what is said of them, and keeps nothing of how they ended.
    Retire(TxnId),
}

impl Drop for Input {
    fn drop(self) {
        match self {
            Input::Deliver(message) => drop(message),
            Input::Resume
            | Input::Settle(_)
            | Input::Advance(_)
            | Input::Nudge(_)
            | Input::Forget(_)
            | Input::Retire(_) => {}
        }
    }
}
