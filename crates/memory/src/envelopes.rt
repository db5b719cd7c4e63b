//! The messages that a shard puts out.
ghost use Rattle.std.specs.Prelude.{◌≡◌};
ghost use Rattle.protocol.specs.Outputs.{vote_to, answer_to, done_to, outcome_to, ask_to};

use message::{Address, Answer, Ask, Done, Envelope, Message, Outcome, ReadAnswer, Vote};
use units::{Epoch, Key, ShardNo, Stamp, TxnId};

/// Makes a vote to the coordinator: yes at a timestamp, or `None` for no.
pub fn vote_to(from: ShardNo, coordinator: ShardNo, txn: TxnId, vote: Option<Stamp>) -> Envelope
    ensures { result ≡ vote_to from coordinator txn vote }
{
    Envelope {
        to: Address::Shard(coordinator),
        message: Message::Vote(Vote { from, txn, vote }),
    }
}

/// Makes the answer to a read, to its session.
pub fn answer_to(from: ShardNo, txn: TxnId, key: Key, epoch: Epoch, answer: Answer) -> Envelope
    ensures { result ≡ answer_to from txn key epoch answer }
{
    Envelope {
        to: Address::Session(txn),
        message: Message::ReadAnswer(ReadAnswer {
            from,
            txn,
            key,
            epoch,
            answer,
        }),
    }
}

/// Makes the message that tells a session the end of its transaction.
pub fn done_to(done: Done) -> Envelope
    ensures { result ≡ done_to done.txn done.outcome }
{
    Envelope {
        to: Address::Session(done.txn()),
        message: Message::Done(done),
    }
}

/// Makes the message that tells a part the outcome of its transaction.
pub fn outcome_to(told: &Outcome, to: ShardNo) -> Envelope
    ensures { result ≡ outcome_to told.now.from told.now.txn told.now.outcome to }
{
    Envelope {
        to: Address::Shard(to),
        message: Message::Outcome(*told),
    }
}

/// Makes the message that asks the coordinator how a transaction ended.
pub fn ask_to(from: ShardNo, coordinator: ShardNo, txn: TxnId) -> Envelope
    ensures { result ≡ ask_to from coordinator txn }
{
    Envelope {
        to: Address::Shard(coordinator),
        message: Message::Ask(Ask { from, txn }),
    }
}
