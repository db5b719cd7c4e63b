//! What sessions and shards send each other, what a shard takes as input, and the list of every message that was put out.
#![tactic(auto)]

mod bag;
mod copies;
mod message;
mod outbox;
mod reads;

pub use bag::Bag;
pub use message::{
    Address, Answer, Ask, Commit, Done, Envelope, GiveUp, Input, Message, Outcome, Prepare, Read,
    ReadAnswer, Vote,
};
pub use outbox::Outbox;
pub use reads::Reads;
