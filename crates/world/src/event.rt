//! The events of a run, and the reply to each.
use disk::Fate;
use truetime::Reading;
use units::{Fault, Key, ShardNo, Splits, Stamp, Stride, TxnId, Value};

/// The shards of a run: one more than there are splits, all with the same stride.
#[derive(Drop)]
pub struct Config {
    pub splits: Splits,
    pub stride: Stride,
}

/// What a shard does at an event. `Take` delivers a message, by its number from 0.
#[derive(Clone, Copy)]
pub enum Doing {
    Take(u64, Reading),
    Resume(Reading),
    Settle(TxnId, Reading),
    Advance(Stamp, Reading),
    Nudge(TxnId, Reading),
    /// Raises the horizon: no value below it is read any more.
    Forget(Stamp, Reading),
    /// Retires all ids below this one: the shard refuses what is said of them, and keeps nothing of how they ended.
    Retire(TxnId, Reading),
    /// Turns the log over in its file.
    Turn,
    Open,
}

/// What happens in an event.
#[derive(Drop)]
pub enum Act {
    /// Begins the session of this id.
    Begin(TxnId),
    Read(TxnId, Key),
    /// Writes a value, or erases with `None`.
    Write(TxnId, Key, Option<Value>),
    Close(TxnId),
    /// Gives the transaction up.
    Quit(TxnId),
    /// Delivers a message, by its number from 0, to the shard or the session to which it was sent.
    Deliver(u64, Reading),
    /// Lets a shard do something.
    At(ShardNo, Doing),
    Look(ShardNo, Key, Stamp),
    /// Looks at a view of a shard, by its number from 0.
    View(ShardNo, u64, Key, Stamp),
    /// Crashes a shard between events: all changes that are not synced are undone.
    Crash(ShardNo),
    /// Crashes a shard in a device call of what it does, by the call's number from 0. The oldest change that is not synced has this fate, and
    /// the others are undone. The event is lawful only if both shards are the same.
    CrashIn(ShardNo, u64, Fate, ShardNo, Doing),
    /// Lets a device call fail in what a shard does, by the call's number from 0. The event is lawful only if both shards are the same.
    FailIn(ShardNo, u64, ShardNo, Doing),
}

/// An event, with its true time in microseconds.
#[derive(Drop)]
pub struct Event {
    pub time: u64,
    pub act: Act,
}

/// The reply to an event. A look shows a value, or `None` if the key has none.
#[derive(Drop)]
pub enum Reply {
    Done,
    Refused(Fault),
    Shows(Option<Value>),
    Crashed,
}
