//! Two stories that `scripts/refused_memory.sh` runs while it refuses memory: a commit at one shard, and one over two shards, through
//! sessions and desks. Then both logs are turned over, and a viewer looks. If one allocation is refused, they end as if none was.
use crate::asked_twice::{Shard, open, refused, say, splits};
use crate::given::reading;
use crate::nodes::is_seen;
use board::Viewer;
use made::{id, key};
use message::{Address, Envelope, Input, Message};
use session::{Closing, Finished, Open, Tx};
use std::alloc::Global;
use std::process::Abort;
use std::vec::IntoIter;
use texts::Text;
use units::{Fault, Seen, Splits, TxnId, Value};

// One write of a transaction.
fn write(tx: &mut Tx<'_, Open>, alloc: Global, letter: u8, digit: u8) -> Result<(), Fault> {
    let value = Value::new(alloc, &[digit])?;
    tx.buffer(key(letter), Some(value))
}

// A transaction that writes this and closes, and its messages.
fn closed<'s, R: Print + Abort>(
    rt: &R,
    alloc: Global,
    splits: &'s Splits,
    txn: TxnId,
    writes: &[(u8, u8)],
) -> (Tx<'s, Closing>, IntoIter<Envelope>) {
    let mut tx = Tx::begin(alloc, txn, splits);
    for (letter, digit) in writes {
        if write(&mut tx, alloc, *letter, *digit).is_err() {
            refused(rt, "write", true);
            let written = write(&mut tx, alloc, *letter, *digit).is_ok();
            assert!(rt; written, "a write");
        }
    }
    for _ in 0..2 {
        match tx.close(alloc) {
            Ok((tx, out)) => return (tx, out.into_vec().into_iter()),
            Err((fault, left)) => {
                refused(rt, "close", fault == Fault::Memory);
                tx = left;
            }
        }
    }
    tx.spend();
    rt.panic("close")
}

// Checks that the transaction hears first that it committed, at this timestamp.
fn hear(rt: &(impl Print + Abort), tx: Tx<'_, Closing>, out: &mut IntoIter<Envelope>, at: u64) {
    let envelope = out.next().expect(rt, "an end");
    say(rt, "", &Text(&envelope));
    let Message::Done(done) = &envelope.message else {
        tx.spend();
        rt.panic("no end")
    };
    let ended = tx.take(done);
    drop(envelope);
    match ended {
        Ok(finished) => assert!(rt; is_at(finished, at), "another end"),
        Err((_, tx)) => {
            tx.spend();
            rt.panic("another end")
        }
    }
}

// Whether the transaction committed at this timestamp.
fn is_at(finished: Finished, at: u64) -> bool {
    match finished {
        Finished::Committed(stood) => stood.micros() == at,
        Finished::Aborted => false,
    }
}

// Gives a shard the next message at a reading, `more` times and once again, and returns what it puts out the last time.
fn carry<R: Print + Abort, S: Shard>(
    rt: &R,
    shard: &mut S,
    number: u8,
    name: &str,
    out: &mut IntoIter<Envelope>,
    at: (u64, u64),
    more: u32,
) -> IntoIter<Envelope> {
    let Envelope { to, message } = out.next().expect(rt, name);
    let is_right = match to {
        Address::Shard(shard) => shard.number() == number,
        Address::Session(_) => false,
    };
    assert!(rt; is_right, "{name} goes elsewhere");
    let now = reading(rt, at.0, at.1);
    let input = Input::Deliver(message);
    for _ in 0..more {
        drop(shard.give(rt, name, &now, &input));
    }
    let put = shard.give(rt, name, &now, &input);
    drop(input);
    put.into_iter()
}

// Settles a transaction at a reading, and returns what the shard puts out.
fn settle<R: Print + Abort, S: Shard>(
    rt: &R,
    shard: &mut S,
    txn: TxnId,
    at: (u64, u64),
) -> IntoIter<Envelope> {
    let now = reading(rt, at.0, at.1);
    shard
        .give(rt, "settle", &now, &Input::Settle(txn))
        .into_iter()
}

// 1.1 writes at shard 0: its commit comes, and is settled.
fn tell_one<R: Print + Abort, S: Shard>(rt: &R, alloc: Global, first: &mut S, splits: &Splits) {
    let (tx, mut out) = closed(rt, alloc, splits, id(1), &[(b'a', b'1')]);
    drop(carry(rt, first, 0, "commit", &mut out, (100, 110), 0));
    hear(rt, tx, &mut settle(rt, first, id(1), (112, 121)), 111);
}

// 1.2 writes at both: its commit comes, the promise, its vote, the settling, and twice the outcome.
fn tell_both<R: Print + Abort, S: Shard>(
    rt: &R,
    alloc: Global,
    first: &mut S,
    second: &mut S,
    splits: &Splits,
) {
    let (tx, mut out) = closed(rt, alloc, splits, id(2), &[(b'a', b'1'), (b'z', b'2')]);
    drop(carry(rt, first, 0, "commit", &mut out, (100, 110), 0));
    let mut votes = carry(rt, second, 1, "prepare", &mut out, (200, 210), 0);
    drop(carry(rt, first, 0, "vote", &mut votes, (200, 210), 0));
    let mut told = settle(rt, first, id(2), (201, 230));
    hear(rt, tx, &mut told, 200);
    drop(carry(rt, second, 1, "outcome", &mut told, (210, 220), 1));
}

// Plays both stories. Then both shards turn their logs over, the second one serves up to 200, and its viewer looks there.
fn tell<R: Print + Abort, S: Shard>(
    rt: &R,
    alloc: Global,
    first: &mut S,
    second: &mut S,
    viewers: &mut [Viewer],
) {
    let splits = splits(rt, alloc);
    tell_one(rt, alloc, first, &splits);
    tell_both(rt, alloc, first, second, &splits);
    drop(splits);
    first.turn(rt);
    second.turn(rt);
    second.serve(rt, viewers, &reading(rt, 210, 220));
    assert!(rt; is_seen(viewers, (200, Ok(Seen::Value(1)))), "a look");
    say(rt, "look z 200 =", &2u8);
}

/// Shows that a call that gets `Memory` leaves all as it was, and succeeds when it is called again.
#[test]
fn two_stories(rt: HostRuntime) {
    let alloc = rt.alloc();
    let (mut first, viewers) = open(&rt, alloc, 0);
    drop(viewers);
    let (mut second, mut viewers) = open(&rt, alloc, 1);
    tell(&rt, alloc, &mut first, &mut second, &mut viewers);
    drop(viewers);
    first.end(&rt, alloc, 0);
    second.end(&rt, alloc, 1);
}
