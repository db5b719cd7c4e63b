//! A transaction that waits with a read hears at once that a node has ended it, without asking.
use crate::cores::plain;
use crate::given::{Given, Standing, message_of, reading};
use crate::nodes::fresh_node;
use crate::verdict::end;
use crossbeam_channel::{Receiver, Sender, unbounded};
use letters::{Letter, Post};
use made::{WrongRows, id};
use message::{Answer, Envelope, Message};
use node::{Gate, Node};
use simdisk::SimDisk;
use std::alloc::Global;
use std::process::Abort;
use std::sync::Wait;
use std::sync::atomic::{AtomicU64, Ordering};
use std::thread::Threads;
use std::time::Duration;
use std::{thread, time};
use units::ShardNo;

// The letters to fresh shard 1, one after the other, and how many refused answers then go to 1.5, which asks for nothing more.
struct Row {
    name: &'static str,
    letters: &'static [Given],
    refused: u64,
}

// The commits are decided at a time that does not pass.
static ROWS: [Row; 3] = [
    Row {
        name: "one that waits for 1.9 is ended by 1.2, which is older",
        letters: &[
            Given::Commit(9, 1, b"z", b"1"),
            Given::Read(5, b"y"),
            Given::Read(5, b"z"),
            Given::Commit(2, 1, b"y", b"1"),
        ],
        refused: 1,
    },
    Row {
        name: "one that waits with a commit is ended by 1.2, which is older",
        letters: &[
            Given::Read(4, b"z"),
            Given::Read(5, b"y"),
            Given::Commit(5, 1, b"z", b"1"),
            Given::Commit(2, 1, b"y", b"1"),
        ],
        refused: 1,
    },
    Row {
        name: "one that waits for 1.9 goes on waiting while 1.7 closes, which is younger",
        letters: &[
            Given::Commit(9, 1, b"z", b"1"),
            Given::Read(5, b"y"),
            Given::Read(5, b"z"),
            Given::Commit(7, 1, b"y", b"1"),
        ],
        refused: 0,
    },
];

// Counts the letters that were taken, and the refused answers to 1.5.
#[derive(Drop)]
struct Seen {
    taken: AtomicU64,
    refused: AtomicU64,
}

impl Post for &Seen {
    fn post(&mut self, envelope: Envelope) {
        let refused = match &envelope.message {
            Message::ReadAnswer(told) => {
                told.txn == id(5) && matches!(told.answer, Answer::Refused)
            }
            _ => false,
        };
        drop(envelope);
        if refused {
            self.refused.fetch_add(1, Ordering::SeqCst);
        }
    }
}

impl Gate for &Seen {
    fn before(&self, _shard: ShardNo, _n: u64) {}

    fn after(&self, _shard: ShardNo, _n: u64) {
        self.taken.fetch_add(1, Ordering::SeqCst);
    }
}

// Waits until a count has come this far, for at most this many milliseconds.
fn await_count<R: time::Clock>(rt: &R, count: &AtomicU64, wanted: u64, longest: u32) {
    for _turn in 0..longest {
        if count.load(Ordering::SeqCst) >= wanted {
            return;
        }
        thread::sleep(rt, Duration::from_millis(1));
    }
}

// Sends the letters, each after the one before was taken, waits for what follows from them, and sends the end.
fn send_all<R: Wait + time::Clock + Abort>(
    rt: &R,
    alloc: Global,
    to: &Sender<Letter>,
    seen: &Seen,
    row: &Row,
) {
    let mut sent = 0_u64;
    for given in row.letters {
        let letter = Letter::Carry(message_of(rt, alloc, *given));
        to.send(rt, letter).ok().expect(rt, "a letter");
        sent = sent.saturating_add(1);
        await_count(rt, &seen.taken, sent, 10_000);
    }
    if row.refused > 0 {
        await_count(rt, &seen.refused, row.refused, 10_000);
    } else {
        thread::sleep(rt, Duration::from_millis(50));
    }
    to.send(rt, Letter::Close).ok().expect(rt, "the end");
}

fn serve<'r, R: Wait + time::Clock + Abort>(
    rt: &R,
    node: &Node<SimDisk, &'r R>,
    inbox: &Receiver<Letter>,
    seen: &Seen,
) {
    let mut clock = Standing {
        now: reading(rt, 100, 110),
    };
    let mut post = seen;
    node.serve(rt, inbox, &mut post, &mut clock, &seen);
}

// How many refused answers there are.
fn refused<R: Threads + Wait + time::Clock + Sync + Abort>(
    rt: &R,
    alloc: Global,
    row: &Row,
) -> u64 {
    let (node, viewers) = fresh_node(rt, rt, alloc, plain(1, 0));
    drop(viewers);
    let (to, inbox) = unbounded(alloc).ok().expect(rt, "a channel");
    let seen = Seen {
        taken: AtomicU64::new(0),
        refused: AtomicU64::new(0),
    };
    thread::join(
        rt,
        || serve(rt, &node, &inbox, &seen),
        || send_all(rt, alloc, &to, &seen, row),
    );
    drop(to);
    drop(inbox);
    drop(node);
    let refused = seen.refused.load(Ordering::SeqCst);
    drop(seen);
    refused
}

/// Shows that a node tells a waiting transaction that it was ended, and refuses none that still waits.
#[test]
fn wounded_waiters_hear_of_it(rt: HostRuntime) {
    let alloc = rt.alloc();
    let mut wrong = WrongRows::none(alloc);
    for row in &ROWS {
        let refused = refused(&rt, alloc, row);
        wrong.unless_at(refused == row.refused, row.name, refused);
    }
    end(&rt, wrong);
}
