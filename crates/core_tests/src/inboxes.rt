//! Nodes that serve the letters of their inboxes, each on a thread of its own.
use crate::cores::plain;
use crate::given::{Given, Standing, message_of, reading};
use crate::nodes::fresh_node;
use crate::verdict::end;
use crossbeam_channel::{Receiver, unbounded};
use letters::{Letter, Post};
use made::{WrongRows, id};
use message::{Address, Answer, Envelope, Message};
use node::{Gate, Node, Served, start};
use simdisk::SimDisk;
use std::alloc::Global;
use std::process::Abort;
use std::sync::Wait;
use std::sync::atomic::{AtomicU64, Ordering};
use std::thread::Threads;
use std::time::Duration;
use std::{thread, time};
use units::ShardNo;

// Nodes of fresh shards, each with a key of its own, and how many letters come to each. These are reads of that key, by 1.1 and on, and
// if the row says so the commit of one more transaction, which writes it.
struct Row {
    name: &'static str,
    nodes: &'static [(u8, &'static [u8])],
    letters: u16,
    // So often each of them is sent again.
    again: u16,
    closes: bool,
    // It is the last reader that closes, and not one more transaction.
    own: bool,
    // The letters are no reads: shard 1 asks how the transactions ended, which aborts them.
    asks: bool,
    // The letters of shards 0 and 1 wait for each other.
    meet: bool,
    // How many answers there are.
    answers: u64,
    // How many letters are taken, the end with them.
    taken: u64,
}

// Counts the messages that are posted, and each answer that comes in its turn.
#[derive(Drop)]
struct Answers<'a> {
    from: u8,
    key: &'static [u8],
    next: u16,
    posted: &'a AtomicU64,
    right: &'a AtomicU64,
}

// Whether it goes to the session of 1.number.
fn is_to(to: Address, number: u16) -> bool {
    match to {
        Address::Session(txn) => txn == id(number),
        Address::Shard(_) => false,
    }
}

// Whether it tells 1.number that the shard has no such key, in its first epoch.
fn is_answer(message: &Message, from: u8, key: &[u8], number: u16) -> bool {
    match message {
        Message::ReadAnswer(told) => told.txn == id(number)
            && told.from.number() == from
            && told.key.as_bytes() == key
            && told.epoch.number() == 1
            && matches!(told.answer, Answer::Holds(None)),
        _ => false,
    }
}

// Whether it is to shard 1.
fn is_to_one(to: Address) -> bool {
    match to {
        Address::Shard(shard) => shard.number() == 1,
        Address::Session(_) => false,
    }
}

// Whether it tells that 1.number was aborted.
fn is_abort(message: &Message, number: u16) -> bool {
    match message {
        Message::Outcome(told) => told.txn == id(number) && told.outcome.is_none(),
        _ => false,
    }
}

impl Post for Answers<'_> {
    fn post(&mut self, envelope: Envelope) {
        let right = is_to_one(envelope.to) && is_abort(&envelope.message, self.next)
            || is_to(envelope.to, self.next)
                && is_answer(&envelope.message, self.from, self.key, self.next);
        drop(envelope);
        self.next = self.next.saturating_add(1);
        self.posted.fetch_add(1, Ordering::SeqCst);
        if right {
            self.right.fetch_add(1, Ordering::SeqCst);
        }
    }
}

// Holds the n-th letters of shards 0 and 1, each until the other's has come, for at most 10,000 turns. Once one was held in vain, no
// other is held. It counts what the nodes post.
#[derive(Drop)]
struct Meeting<'a, R> {
    rt: &'a R,
    holds: bool,
    first: AtomicU64,
    second: AtomicU64,
    // Letters that were held in vain, or told of in another order.
    missed: AtomicU64,
    posted: AtomicU64,
    right: AtomicU64,
}

impl<R: time::Clock> Meeting<'_, R> {
    // How many letters the nodes have taken.
    fn taken(&self) -> u64 {
        let first = self.first.load(Ordering::SeqCst);
        first.saturating_add(self.second.load(Ordering::SeqCst))
    }

    // Whether the letter after the first n comes in time.
    fn has_come(&self, letters: &AtomicU64, n: u64) -> bool {
        for _turn in 0..10_000 {
            if letters.load(Ordering::SeqCst) > n {
                return true;
            }
            thread::sleep(self.rt, Duration::from_millis(1));
        }
        false
    }
}

impl<R: time::Clock> Gate for Meeting<'_, R> {
    fn before(&self, shard: ShardNo, n: u64) {
        let (own, other) = if shard.number() == 0 {
            (&self.first, &self.second)
        } else {
            (&self.second, &self.first)
        };
        // It is told of each letter once, in order, also of those that are taken together.
        if own.fetch_add(1, Ordering::SeqCst) != n {
            self.missed.fetch_add(1, Ordering::SeqCst);
        }
        if self.holds && self.missed.load(Ordering::SeqCst) == 0 && !self.has_come(other, n) {
            self.missed.fetch_add(1, Ordering::SeqCst);
        }
    }

    fn after(&self, _shard: ShardNo, _n: u64) {}
}

// An inbox with the letters of a row for a shard and its key, and then the end.
fn inbox<R: Wait + Abort>(
    rt: &R,
    alloc: Global,
    row: &Row,
    shard: u8,
    key: &'static [u8],
) -> Receiver<Letter> {
    let (to, from) = unbounded(alloc).ok().expect(rt, "a channel");
    for before in 0..row.letters {
        let number = before.saturating_add(1);
        let given = if row.asks {
            Given::Ask(number)
        } else {
            Given::Read(number, key)
        };
        let message = message_of(rt, alloc, given);
        to.send(rt, Letter::Carry(message))
            .ok()
            .expect(rt, "a letter");
        for _again in 0..row.again {
            let message = message_of(rt, alloc, given);
            to.send(rt, Letter::Again(message, 1))
                .ok()
                .expect(rt, "a letter again");
        }
    }
    if row.closes {
        let number = row.letters.saturating_add(u16::from(!row.own));
        let message = message_of(rt, alloc, Given::Commit(number, shard, key, b"1"));
        to.send(rt, Letter::Carry(message))
            .ok()
            .expect(rt, "a commit");
    }
    to.send(rt, Letter::Close).ok().expect(rt, "the end");
    drop(to);
    from
}

// The fresh nodes of the row.
fn nodes_of<'r, R: Wait + Abort>(rt: &'r R, alloc: Global, row: &Row) -> Vec<Node<SimDisk, &'r R>> {
    let mut nodes = Vec::new(alloc);
    for (shard, _) in row.nodes {
        let (node, viewers) = fresh_node(rt, rt, alloc, plain(*shard, 0));
        drop(viewers);
        nodes.push(node).ok().expect(rt, row.name);
    }
    nodes
}

// Serves the nodes until all letters are answered.
fn serve<'r, R: Threads + Wait + time::Clock + Sync + Abort>(
    rt: &R,
    alloc: Global,
    nodes: &[Node<SimDisk, &'r R>],
    gate: &Meeting<R>,
    row: &Row,
) {
    let mut served = Vec::new(alloc);
    for (node, (from, key)) in nodes.iter().zip(row.nodes) {
        let post = Answers {
            from: *from,
            key,
            next: 1,
            posted: &gate.posted,
            right: &gate.right,
        };
        let pushed = served.push(Served {
            node,
            inbox: inbox(rt, alloc, row, *from, key),
            post,
            clock: Standing {
                now: reading(rt, 100, 110),
            },
        });
        assert!(rt; pushed.is_ok(), "memory");
    }
    start(rt, served, gate).expect(rt, row.name);
}

// Checks that each letter is answered, in order, and none was held in vain.
fn meet<R: Threads + Wait + time::Clock + Sync + Abort>(rt: &R, alloc: Global, rows: &[Row]) {
    let mut wrong = WrongRows::none(alloc);
    for row in rows {
        let gate = Meeting {
            rt,
            holds: row.meet,
            first: AtomicU64::new(0),
            second: AtomicU64::new(0),
            missed: AtomicU64::new(0),
            posted: AtomicU64::new(0),
            right: AtomicU64::new(0),
        };
        let nodes = nodes_of(rt, alloc, row);
        serve(rt, alloc, nodes.as_slice(), &gate, row);
        drop(nodes);
        let missed = gate.missed.load(Ordering::SeqCst);
        let posted = gate.posted.load(Ordering::SeqCst);
        let right = gate.right.load(Ordering::SeqCst);
        let taken = gate.taken();
        drop(gate);
        let answered = posted == row.answers && right == row.answers && taken == row.taken;
        wrong.unless_at(answered && missed == 0, row.name, right);
    }
    end(rt, wrong);
}

static LETTERS: [Row; 5] = [
    // Each logs an abort. The first 64 are taken together, and so are the others.
    Row {
        name: "letters that are taken together",
        nodes: &[(0, b"a")],
        letters: 100,
        again: 0,
        closes: false,
        own: false,
        asks: true,
        meet: false,
        answers: 100,
        taken: 101,
    },
    Row {
        name: "letters",
        nodes: &[(1, b"z")],
        letters: 100,
        again: 0,
        closes: false,
        own: false,
        asks: false,
        meet: false,
        answers: 100,
        taken: 101,
    },
    // The commit is taken first, and decided at a time that does not pass, so each read waits for its lock.
    Row {
        name: "reads that came beside a commit",
        nodes: &[(1, b"z")],
        letters: 100,
        again: 0,
        closes: true,
        own: false,
        asks: false,
        meet: false,
        answers: 0,
        taken: 102,
    },
    // Each waits once, and is taken once.
    Row {
        name: "reads that are sent again while they wait",
        nodes: &[(1, b"z")],
        letters: 10,
        again: 2,
        closes: false,
        own: false,
        asks: false,
        meet: false,
        answers: 10,
        taken: 11,
    },
    // The commit is taken first, so nobody waits for the read of its transaction any more. The other two wait for its lock.
    Row {
        name: "a read of a transaction that closes",
        nodes: &[(1, b"z")],
        letters: 3,
        again: 1,
        closes: true,
        own: true,
        asks: false,
        meet: false,
        answers: 0,
        taken: 4,
    },
];

/// Shows that serving loses no letter and no answer, and that reads are taken after the letters that came with them. A read that is sent again
/// is taken once, and not at all once its transaction has closed.
#[test]
fn lose_letters(rt: HostRuntime) {
    meet(&rt, rt.alloc(), &LETTERS);
}

static MEETING: [Row; 1] = [Row {
    name: "letters of two nodes",
    nodes: &[(0, b"a"), (1, b"z")],
    letters: 10,
    again: 0,
    closes: false,
    own: false,
    asks: false,
    meet: true,
    answers: 20,
    taken: 22,
}];

/// Shows that nodes are served at the same time, and not one letter at a time over both.
#[test]
fn nodes_in_turn(rt: HostRuntime) {
    meet(&rt, rt.alloc(), &MEETING);
}
