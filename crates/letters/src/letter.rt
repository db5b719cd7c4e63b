//! Letters to a node, replies to workers, and the post that takes on what a node puts out.
use message::{Envelope, Message};
use units::{Fault, ShardNo, Stamp, TxnId};

/// What the inbox of a node carries.
#[derive(Drop)]
pub enum Letter {
    /// A message.
    Carry(Message),
    /// A message that a session sends again, with the number of its round.
    Again(Message, u64),
    /// The word that a reader got `NotYet`.
    Look,
    /// The word to close.
    Close,
}

/// The word that a shard has refused a letter of a transaction's session. Nothing of that letter was done.
#[derive(Clone, Copy)]
pub struct Refused {
    /// The transaction.
    pub txn: TxnId,
    /// The shard that has refused it.
    pub shard: ShardNo,
    /// Why it was refused.
    pub fault: Fault,
}

/// The word that a shard keeps what a session has sent it again. It waits there for a lock, for votes, or for its timestamp to pass.
#[derive(Clone, Copy)]
pub struct UnderWay {
    /// The transaction.
    pub txn: TxnId,
    /// The shard that keeps it.
    pub shard: ShardNo,
    /// The round in which the session has sent it again.
    pub round: u64,
    /// The commit is in the log of the coordinator, which alone says so.
    pub decided: bool,
}

/// What the inbox of a worker carries.
#[derive(Drop)]
pub enum Reply {
    /// A message to a session.
    Carry(Message),
    /// The word that a shard has refused a letter.
    Refused(Refused),
    /// The word that a shard keeps what was sent again.
    UnderWay(UnderWay),
}

/// What takes on the messages that a node puts out, and tells it of readers. If nobody looks at what it shows, `post` is all that is needed.
pub trait Post {
    /// Takes a message to where it goes.
    fn post(&mut self, envelope: Envelope);

    /// Tells a session that a letter of it was refused.
    fn refuse(&mut self, _refused: Refused) {}

    /// Notes that the node was refused memory for something that is due and that nobody waits for a word of.
    fn lack_memory(&mut self) {}

    /// Tells a session that what it has sent again is under way.
    fn assure(&mut self, _under_way: UnderWay) {}

    /// Tells whether a reader got `NotYet` of the shard since `silence`.
    fn is_looked_for(&self, _shard: ShardNo) -> bool {
        false
    }

    /// Clears that, since an advance is about to begin.
    fn silence(&mut self, _shard: ShardNo) {}

    /// Tells readers that the shard serves up to this timestamp.
    fn tell(&mut self, _shard: ShardNo, _served: Stamp) {}
}
