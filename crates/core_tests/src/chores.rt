//! What a node does beside its letters, while they come and while none comes.
use crate::cores::plain;
use crate::given::{Given, message_of, reading};
use crate::logs::{Line, with_log};
use crate::nodes::fresh_node;
use crate::verdict::end;
use crossbeam_channel::{Receiver, Sender, unbounded};
use letters::{Letter, Post};
use made::{WrongRows, id};
use message::{Address, Envelope, Message};
use node::{Gate, Node};
use simdisk::SimDisk;
use std::alloc::Global;
use std::process::Abort;
use std::sync::Wait;
use std::sync::atomic::{AtomicBool, AtomicU64, Ordering};
use std::thread::Threads;
use std::time::Duration;
use std::{thread, time};
use truetime::{Clock, Reading};
use units::{ShardNo, Stamp};

// The pace of the letters that follow the first ones.
#[derive(Clone, Copy)]
enum Pace {
    // All at once, and then the end.
    Burst,
    // One each 500 microseconds, until 1.1 is answered.
    Steady,
    // Each after the one before was taken.
    OneByOne,
}

// The letters to a node of fresh shard 1, and what follows from them.
struct Row {
    name: &'static str,
    first: &'static [Given],
    pace: Pace,
    // At most this many letters follow: reads of `y` by 1.9, which has read it before, or letters that say that a look got `NotYet`.
    letters: u64,
    reads: bool,
    // A look got `NotYet`, after the first letters were taken.
    looked: bool,
    // By how many microseconds each reading is later than the one before, and by how many more all are, once the first letters were taken.
    tick: u64,
    later: u64,
    // This many sessions, from 1.1 on, are answered one right after the other, and at most this many answers come before these.
    sessions: usize,
    before: u64,
    // How often at most the node tells its served time. What it told last and the log at the end are given if they matter.
    tells: u64,
    // Whether it asks shard 0 how 1.1 ended.
    asks: bool,
    end: Option<End>,
}

// The last served time that a node told, or 0, and what its log holds then.
struct End {
    served: u64,
    log: &'static [Line],
}

// Each reading is ten microseconds wide, and later than the one before by a tick.
#[derive(Drop)]
struct Ticking<'a> {
    now: &'a AtomicU64,
    tick: u64,
    later: u64,
    seen: &'a Seen,
}

impl Clock for Ticking<'_> {
    fn now(&mut self) -> Option<Reading> {
        let mut earliest = self.now.fetch_add(self.tick, Ordering::SeqCst);
        if self.seen.has_begun() {
            earliest = earliest.saturating_add(self.later);
        }
        let latest = earliest.saturating_add(10);
        let earliest = Stamp::new(earliest).ok()?;
        let latest = Stamp::new(latest).ok()?;
        Reading::new(earliest, latest).ok()
    }
}

// What was seen of a node: how many messages it posted, and which of them was the first to 1.1, 1.2 and 1.3, from 1. How many letters
// it has taken, and how many come first. How often it asked shard 0 how 1.1 ended, and whether a look got `NotYet`. How often it told
// its served time, and what it told last.
struct Seen {
    first: u64,
    posted: AtomicU64,
    places: [AtomicU64; 3],
    taken: AtomicU64,
    asked: AtomicU64,
    looked: AtomicBool,
    tells: AtomicU64,
    served: AtomicU64,
}

impl Drop for Seen {
    fn drop(self) {
        let Seen {
            first: _,
            posted: _,
            places: _,
            taken: _,
            asked: _,
            looked: _,
            tells: _,
            served: _,
        } = self;
    }
}

impl Seen {
    fn new(row: &Row) -> Seen {
        Seen {
            first: row.first.len() as u64,
            posted: AtomicU64::new(0),
            places: [AtomicU64::new(0), AtomicU64::new(0), AtomicU64::new(0)],
            taken: AtomicU64::new(0),
            asked: AtomicU64::new(0),
            looked: AtomicBool::new(row.looked),
            tells: AtomicU64::new(0),
            served: AtomicU64::new(0),
        }
    }

    // Whether the first letters were taken.
    fn has_begun(&self) -> bool {
        self.taken.load(Ordering::SeqCst) >= self.first
    }

    // Which message was the first to a session, from 1, or 0.
    fn place(&self, session: usize) -> u64 {
        match self.places.get(session) {
            Some(place) => place.load(Ordering::SeqCst),
            None => 0,
        }
    }

    // Whether this many sessions, from 1.1 on, were answered one right after the other, after at most this many messages.
    fn answered(&self, sessions: usize, before: u64) -> bool {
        if sessions > 0 && (self.place(0) == 0 || self.place(0) > before.saturating_add(1)) {
            return false;
        }
        for session in 1..sessions {
            if self.place(session) != self.place(session - 1).saturating_add(1) {
                return false;
            }
        }
        true
    }
}

// Whether it asks shard 0 how 1.1 ended.
fn is_ask(envelope: &Envelope) -> bool {
    let asks = match &envelope.message {
        Message::Ask(ask) => ask.txn == id(1),
        _ => false,
    };
    match envelope.to {
        Address::Shard(shard) => asks && shard.number() == 0,
        Address::Session(_) => false,
    }
}

impl Post for &Seen {
    fn post(&mut self, envelope: Envelope) {
        let asks = is_ask(&envelope);
        let to = envelope.to;
        drop(envelope);
        if asks {
            self.asked.fetch_add(1, Ordering::SeqCst);
        }
        let place = self.posted.fetch_add(1, Ordering::SeqCst).saturating_add(1);
        let Address::Session(txn) = to else {
            return;
        };
        let number = txn.number();
        if number >= 1 && number <= 3 {
            if let Some(first) = self.places.get((number - 1) as usize) {
                if first.load(Ordering::SeqCst) == 0 {
                    first.store(place, Ordering::SeqCst);
                }
            }
        }
    }

    fn is_looked_for(&self, _shard: ShardNo) -> bool {
        self.looked.load(Ordering::SeqCst) && self.has_begun()
    }

    fn silence(&mut self, _shard: ShardNo) {
        self.looked.store(false, Ordering::SeqCst);
    }

    fn tell(&mut self, _shard: ShardNo, served: Stamp) {
        self.served.store(served.micros(), Ordering::SeqCst);
        self.tells.fetch_add(1, Ordering::SeqCst);
    }
}

impl Gate for &Seen {
    fn before(&self, _shard: ShardNo, _n: u64) {}

    fn after(&self, _shard: ShardNo, _n: u64) {
        self.taken.fetch_add(1, Ordering::SeqCst);
    }
}

fn send<R: Wait + Abort>(rt: &R, to: &Sender<Letter>, letter: Letter) {
    to.send(rt, letter).ok().expect(rt, "a letter");
}

// Waits until this many letters were taken, for at most 100,000 turns.
fn await_taken<R: time::Clock>(rt: &R, seen: &Seen, letters: u64) {
    for _turn in 0..100_000 {
        if seen.taken.load(Ordering::SeqCst) >= letters {
            return;
        }
        thread::sleep(rt, Duration::from_micros(100));
    }
}

// Sends the letters of a row at its pace, and then the end.
fn send_all<R: Wait + time::Clock + Abort>(
    rt: &R,
    alloc: Global,
    to: &Sender<Letter>,
    seen: &Seen,
    row: &Row,
) {
    for given in row.first {
        send(rt, to, Letter::Carry(message_of(rt, alloc, *given)));
    }
    for sent in 0..row.letters {
        match row.pace {
            Pace::Burst => {}
            Pace::Steady => {
                if seen.place(0) > 0 {
                    break;
                }
                thread::sleep(rt, Duration::from_micros(500));
            }
            Pace::OneByOne => await_taken(rt, seen, sent),
        }
        let letter = if row.reads {
            Letter::Carry(message_of(rt, alloc, Given::Read(9, b"y")))
        } else {
            Letter::Look
        };
        send(rt, to, letter);
    }
    send(rt, to, Letter::Close);
}

fn serve<'r, R: Wait + time::Clock>(
    rt: &R,
    node: &Node<SimDisk, &'r R>,
    inbox: &Receiver<Letter>,
    seen: &Seen,
    row: &Row,
) {
    let now = AtomicU64::new(1_000);
    let mut clock = Ticking {
        now: &now,
        tick: row.tick,
        later: row.later,
        seen,
    };
    let mut post = seen;
    node.serve(rt, inbox, &mut post, &mut clock, &seen);
}

// Serves a node with the letters of the row, while they are sent.
fn tell<R: Threads + Wait + time::Clock + Sync + Abort>(
    wrong: &mut WrongRows,
    rt: &R,
    alloc: Global,
    row: &Row,
) {
    let (node, viewers) = fresh_node(rt, rt, alloc, plain(1, 0));
    drop(viewers);
    let (to, inbox) = unbounded(alloc).ok().expect(rt, "a channel");
    let seen = Seen::new(row);
    thread::join(
        rt,
        || serve(rt, &node, &inbox, &seen, row),
        || send_all(rt, alloc, &to, &seen, row),
    );
    drop(to);
    drop(inbox);
    compare(wrong, alloc, node.close(), &seen, row);
    drop(seen);
}

// Compares what was seen of a node, and its log, with the row.
fn compare(wrong: &mut WrongRows, alloc: Global, disk: SimDisk, seen: &Seen, row: &Row) {
    let answered = seen.answered(row.sessions, row.before);
    wrong.unless_at(answered, row.name, seen.place(0));
    let tells = seen.tells.load(Ordering::SeqCst);
    wrong.unless_at(tells <= row.tells, row.name, tells);
    let asked = seen.asked.load(Ordering::SeqCst);
    wrong.unless_at((asked > 0) == row.asks, row.name, asked);
    match &row.end {
        Some(end) => {
            let served = seen.served.load(Ordering::SeqCst);
            wrong.unless_at(served == end.served, row.name, served);
            drop(with_log(wrong, alloc, disk, row.name, end.log, &[]));
        }
        None => drop(disk),
    }
}

fn go_over<R: Threads + Wait + time::Clock + Sync + Abort>(rt: &R, alloc: Global, rows: &[Row]) {
    let mut wrong = WrongRows::none(alloc);
    for row in rows {
        tell(&mut wrong, rt, alloc, row);
    }
    end(rt, wrong);
}

static OPEN: [Row; 3] = [
    Row {
        name: "a commit is settled while letters come",
        first: &[Given::Commit(1, 1, b"z", b"1")],
        pace: Pace::Steady,
        letters: 20_000,
        reads: true,
        looked: false,
        tick: 1,
        later: 0,
        sessions: 1,
        before: 20_000,
        tells: 20_000,
        asks: false,
        end: None,
    },
    Row {
        name: "a commit is settled within a burst of letters",
        first: &[Given::Commit(1, 1, b"z", b"1")],
        pace: Pace::Burst,
        letters: 10_000,
        reads: true,
        looked: false,
        tick: 5,
        later: 0,
        sessions: 1,
        before: 1_000,
        tells: 10_000,
        asks: false,
        end: None,
    },
    Row {
        name: "who waits behind a commit goes on with it",
        first: &[
            Given::Commit(1, 1, b"z", b"1"),
            Given::Read(2, b"z"),
            Given::Read(3, b"z"),
        ],
        pace: Pace::Burst,
        letters: 1_000,
        reads: true,
        looked: false,
        tick: 5,
        later: 0,
        sessions: 3,
        before: 1_000,
        tells: 10_000,
        asks: false,
        end: None,
    },
];

/// Shows that a node does its chores while letters come, and lets several waits go on at a time.
#[test]
fn letters_keep_a_node_from_its_chores(rt: HostRuntime) {
    go_over(&rt, rt.alloc(), &OPEN);
}

// Each reading is a millisecond later.
static SILENT: [Row; 3] = [
    Row {
        name: "an idle node logs and shows nothing",
        first: &[],
        pace: Pace::OneByOne,
        letters: 1_000,
        reads: false,
        looked: false,
        tick: 1_000,
        later: 0,
        sessions: 0,
        before: 0,
        tells: 0,
        asks: false,
        end: Some(End {
            served: 0,
            log: &[Line::Opened(1)],
        }),
    },
    Row {
        name: "a node advances once for who looked",
        first: &[],
        pace: Pace::OneByOne,
        letters: 1_000,
        reads: false,
        looked: true,
        tick: 0,
        later: 0,
        sessions: 0,
        before: 0,
        tells: 1,
        asks: false,
        end: Some(End {
            served: 1_010,
            log: &[Line::Opened(1), Line::Ceiling(1_010)],
        }),
    },
    Row {
        name: "a node advances to the latest of a reading, beside a commit that waits",
        first: &[Given::Commit(2, 1, b"z", b"2")],
        pace: Pace::OneByOne,
        letters: 1_000,
        reads: false,
        looked: true,
        tick: 0,
        later: 5,
        sessions: 0,
        before: 0,
        tells: 1,
        asks: false,
        end: Some(End {
            served: 1_010,
            log: &[
                Line::Opened(1),
                Line::Decided(2, 1_011),
                Line::Ceiling(1_015),
            ],
        }),
    },
];

/// Shows that a node does not advance if nobody looked and no version came.
#[test]
fn idle_nodes_log(rt: HostRuntime) {
    go_over(&rt, rt.alloc(), &SILENT);
}

// Shard 0 decides what was promised, and says nothing.
static PROMISED: [Row; 2] = [
    Row {
        name: "a node asks for what it promised 20 milliseconds ago",
        first: &[Given::Prepare(1, b"z", b"1")],
        pace: Pace::Steady,
        letters: 400,
        reads: false,
        looked: false,
        tick: 1_000,
        later: 20_000,
        sessions: 0,
        before: 0,
        tells: 0,
        asks: true,
        end: None,
    },
    Row {
        name: "a node does not ask for what it promised 19 milliseconds ago",
        first: &[Given::Prepare(1, b"z", b"1")],
        pace: Pace::Steady,
        letters: 200,
        reads: false,
        looked: false,
        tick: 0,
        later: 19_999,
        sessions: 0,
        before: 0,
        tells: 0,
        asks: false,
        end: Some(End {
            served: 0,
            log: &[Line::Opened(1), Line::Promised(1, 1_000)],
        }),
    },
];

/// Shows that a node asks how its promises ended, but not at once.
#[test]
fn promises_are_never_asked_for(rt: HostRuntime) {
    go_over(&rt, rt.alloc(), &PROMISED);
}
