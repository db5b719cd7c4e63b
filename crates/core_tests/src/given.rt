//! The inputs that tests give to a core. Each transaction is of run 1, and has its number.
use made::{id, shard, stamp};
use message::{Ask, Commit, GiveUp, Input, Message, Outcome, Prepare, Read, Reads, Vote};
use std::alloc::Global;
use std::process::Abort;
use truetime::{Clock, Reading};
use units::{Epoch, Key, Keys, Parts, ShardNo, Stamp, Value, Write, Writes};

/// The greatest timestamp, in microseconds.
pub const LAST: u64 = 4_611_686_018_427_387_903;

/// An input of a core, in short.
#[derive(Clone, Copy)]
pub enum Given {
    // It writes a value to a key at one part, and reads nothing.
    Commit(u16, u8, &'static [u8], &'static [u8]),
    // The same at both shards.
    CommitOfBoth(u16, &'static [u8], &'static [u8]),
    Read(u16, &'static [u8]),
    // Shard 0 decides. It writes a value to a key, and has read nothing.
    Prepare(u16, &'static [u8], &'static [u8]),
    // The same, and it has read the key in the first epoch.
    PrepareOfReader(u16, &'static [u8], &'static [u8]),
    // The same, and it has read the key and writes nothing.
    PrepareOfRead(u16, &'static [u8]),
    // Shard 1 votes yes at a timestamp.
    Vote(u16, u32),
    // Shard 0 says that it committed at a timestamp.
    Outcome(u16, u32),
    GiveUp(u16),
    // Shard 1 asks how it ended.
    Ask(u16),
    Settle(u16),
    Nudge(u16),
    Advance(u64),
    Forget(u32),
    // Each transaction of a lower number is retired.
    Retire(u16),
    Resume,
}

/// A clock that always has this reading.
#[derive(Clone, Copy)]
pub struct Standing {
    pub now: Reading,
}

impl Clock for Standing {
    fn now(&mut self) -> Option<Reading> {
        Some(self.now)
    }
}

fn time(rt: &impl Abort, micros: u64) -> Stamp {
    Stamp::new(micros).expect(rt, "a timestamp")
}

/// Makes a reading from its two ends, in microseconds.
pub fn reading(rt: &impl Abort, earliest: u64, latest: u64) -> Reading {
    Reading::new(time(rt, earliest), time(rt, latest)).expect(rt, "a reading")
}

fn one_write(rt: &impl Abort, alloc: Global, key: &[u8], value: &[u8]) -> Writes {
    let key = Key::new(key).expect(rt, "a key");
    let value = Value::new(alloc, value).expect(rt, "a value");
    let write = Write {
        key,
        value: Some(value),
    };
    let writes = vec![in alloc; write].ok().expect(rt, "memory");
    Writes::from_vec(writes).ok().expect(rt, "writes")
}

fn has_read(rt: &impl Abort, alloc: Global, key: &[u8]) -> Reads {
    let key = Key::new(key).expect(rt, "a key");
    let keys = vec![in alloc; key].ok().expect(rt, "memory");
    let keys = Keys::from_vec(keys).ok().expect(rt, "keys");
    Reads::new(Epoch::first(), keys).ok().expect(rt, "reads")
}

/// Makes the commit of a transaction that has read nothing.
pub fn commit(alloc: Global, number: u16, parts: Parts, writes: Writes) -> Message {
    Message::Commit(Commit {
        txn: id(number),
        parts,
        reads: Reads::none(alloc),
        writes,
    })
}

fn prepare(number: u16, reads: Reads, writes: Writes) -> Message {
    Message::Prepare(Prepare {
        txn: id(number),
        coordinator: shard(0),
        reads,
        writes,
    })
}

/// Makes the message that is given.
pub fn message_of(rt: &impl Abort, alloc: Global, given: Given) -> Message {
    match given {
        Given::Commit(number, part, key, value) => commit(
            alloc,
            number,
            Parts::only(ShardNo::new(part).expect(rt, "a shard")),
            one_write(rt, alloc, key, value),
        ),
        Given::CommitOfBoth(number, key, value) => commit(
            alloc,
            number,
            Parts::from_mask(3).expect(rt, "parts"),
            one_write(rt, alloc, key, value),
        ),
        Given::Prepare(number, key, value) => {
            prepare(number, Reads::none(alloc), one_write(rt, alloc, key, value))
        }
        Given::PrepareOfReader(number, key, value) => {
            prepare(
                number,
                has_read(rt, alloc, key),
                one_write(rt, alloc, key, value),
            )
        }
        Given::PrepareOfRead(number, key) => {
            prepare(number, has_read(rt, alloc, key), Writes::none(alloc))
        }
        _ => notice(rt, given),
    }
}

// A message without writes.
fn notice(rt: &impl Abort, given: Given) -> Message {
    match given {
        Given::Read(number, key) => Message::Read(Read {
            txn: id(number),
            key: Key::new(key).expect(rt, "a key"),
        }),
        Given::Vote(number, at) => Message::Vote(Vote {
            from: shard(1),
            txn: id(number),
            vote: Some(stamp(at)),
        }),
        Given::Outcome(number, at) => Message::Outcome(Outcome {
            from: shard(0),
            txn: id(number),
            outcome: Some(stamp(at)),
        }),
        Given::GiveUp(number) => Message::GiveUp(GiveUp { txn: id(number) }),
        Given::Ask(number) => Message::Ask(Ask {
            from: shard(1),
            txn: id(number),
        }),
        _ => rt.panic("a chore is no message"),
    }
}

/// Makes the input that is given.
pub fn input_of(rt: &impl Abort, alloc: Global, given: Given) -> Input {
    match given {
        Given::Settle(number) => Input::Settle(id(number)),
        Given::Nudge(number) => Input::Nudge(id(number)),
        Given::Advance(to) => Input::Advance(time(rt, to)),
        Given::Forget(at) => Input::Forget(stamp(at)),
        Given::Retire(number) => Input::Retire(id(number)),
        Given::Resume => Input::Resume,
        _ => Input::Deliver(message_of(rt, alloc, given)),
    }
}
