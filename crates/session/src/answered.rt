//! The answers that a session gets.
use units::{Epoch, Key, ShardNo, Stamp, Value};

/// An answer with a value that a session took: the key, the shard and its epoch, and the value, or `None` if the key has none.
#[derive(Drop)]
pub struct Answered {
    pub key: Key,
    pub shard: ShardNo,
    pub epoch: Epoch,
    pub value: Option<Value>,
}

/// What an answer to a read comes to: its value is taken, it changes nothing (`Again`), or it dooms the session.
#[derive(Drop)]
pub enum Heard {
    Value(Option<Value>),
    Again,
    Doomed,
}

/// The end of a transaction: committed at a timestamp, or aborted.
#[derive(Clone, Copy, PartialEq, Eq)]
pub enum Finished {
    Committed(Stamp),
    Aborted,
}
