//! What a node hears of the letters that wait for it.
use crate::verdict::end;
use crossbeam_channel::{Sender, unbounded};
use letters::{Due, Gauges, Letter, Post, Serves, Taken, serve};
use made::{WrongRows, shard};
use message::{Envelope, Input, Outbox};
use node::Gate;
use std::alloc::Global;
use std::process::Abort;
use std::sync::Wait;
use std::sync::atomic::{AtomicU64, Ordering};
use std::time;
use truetime::{Clock, Reading};
use units::{Fault, ShardNo, Stamp, TxnId};

// So many letters say that a look got `NotYet`, and one more that the node is to end. All are there before the node is served. It hears of so many
// at first, and then of fewer: of one at least, and of so many at most.
struct Row {
    name: &'static str,
    looks: u64,
    first: u64,
    most: u64,
}

// A node does its chores before it takes the first letter, and at the latest after 64 of them.
static ROWS: [Row; 3] = [
    Row {
        name: "the last letter alone",
        looks: 0,
        first: 1,
        most: 1,
    },
    Row {
        name: "nine letters before it",
        looks: 9,
        first: 10,
        most: 10,
    },
    Row {
        name: "a hundred letters before it",
        looks: 100,
        first: 101,
        most: 37,
    },
];

// A node without a shard. It notes how many letters it heard of at first, and how many at the least, each with one added; 0 if it heard nothing.
struct Hearing {
    alloc: Global,
    first: AtomicU64,
    fewest: AtomicU64,
}

impl Drop for Hearing {
    fn drop(self) {
        let Hearing {
            alloc: _,
            first: _,
            fewest: _,
        } = self;
    }
}

impl Serves for Hearing {
    fn shard(&self) -> ShardNo {
        shard(0)
    }

    fn take<W: Wait, C: Clock>(
        &self,
        _rt: &W,
        _clock: &mut C,
        _input: &Input,
    ) -> Result<Outbox, Fault> {
        Err(Fault::Stopped)
    }

    fn take_all<W: Wait, C: Clock>(
        &self,
        _rt: &W,
        _clock: &mut C,
        _inputs: &[Input],
    ) -> Result<Option<Taken>, Fault> {
        Ok(None)
    }

    fn is_ready<W: Wait>(&self, _rt: &W) -> bool {
        false
    }

    fn earliest_decided<W: Wait>(&self, _rt: &W) -> Option<(TxnId, Stamp)> {
        None
    }

    fn due<W: Wait>(&self, _rt: &W, _due: Due, _n: usize) -> Option<(TxnId, Stamp)> {
        None
    }

    fn is_stopped<W: Wait>(&self, _rt: &W) -> bool {
        false
    }

    fn versions<W: Wait>(&self, _rt: &W) -> usize {
        0
    }

    fn gauges<W: Wait>(&self, _rt: &W) -> Gauges {
        Gauges::none()
    }

    fn hear_waiting(&self, letters: usize) {
        let heard = (letters as u64).saturating_add(1);
        if self.first.load(Ordering::SeqCst) == 0 {
            self.first.store(heard, Ordering::SeqCst);
            self.fewest.store(heard, Ordering::SeqCst);
        }
        self.fewest.fetch_min(heard, Ordering::SeqCst);
    }

    fn keep_up<W: Wait, C: Clock>(&self, _rt: &W, _clock: &mut C) -> Option<Stamp> {
        None
    }

    fn publish<W: Wait, C: Clock>(&self, _rt: &W, _clock: &mut C) -> Option<Stamp> {
        None
    }

    fn alloc(&self) -> Global {
        self.alloc
    }
}

// Nobody gets a message, and nobody looks. As a clock it has no reading.
#[derive(Clone, Copy)]
struct Nobody;

impl Post for Nobody {
    fn post(&mut self, envelope: Envelope) {
        drop(envelope);
    }
}

impl Gate for Nobody {
    fn before(&self, _shard: ShardNo, _n: u64) {}

    fn after(&self, _shard: ShardNo, _n: u64) {}
}

impl Clock for Nobody {
    fn now(&mut self) -> Option<Reading> {
        None
    }
}

fn send<R: Wait + Abort>(rt: &R, to: &Sender<Letter>, looks: u64) {
    for _look in 0..looks {
        to.send(rt, Letter::Look).ok().expect(rt, "a letter");
    }
    to.send(rt, Letter::Close).ok().expect(rt, "a letter");
}

// Serves a node with the letters of the row, which are all there.
fn tell<R: Wait + time::Clock + Abort>(wrong: &mut WrongRows, rt: &R, alloc: Global, row: &Row) {
    let (to, inbox) = unbounded(alloc).ok().expect(rt, "a channel");
    send(rt, &to, row.looks);
    let node = Hearing {
        alloc,
        first: AtomicU64::new(0),
        fewest: AtomicU64::new(0),
    };
    serve(&node, rt, &inbox, &mut Nobody, &mut Nobody, &Nobody);
    drop(to);
    drop(inbox);
    let first = node.first.load(Ordering::SeqCst);
    let fewest = node.fewest.load(Ordering::SeqCst);
    drop(node);
    wrong.unless_at(first == row.first.saturating_add(1), row.name, first);
    let few = 1 < fewest && fewest <= row.most.saturating_add(1);
    wrong.unless_at(few, row.name, fewest);
}

/// Shows that a node hears before its chores how many letters wait for it. It fails if the node is always told 0, or nothing.
#[test]
fn waiting_letters_are_heard(rt: HostRuntime) {
    let mut wrong = WrongRows::none(rt.alloc());
    for row in &ROWS {
        tell(&mut wrong, &rt, rt.alloc(), row);
    }
    end(&rt, wrong);
}
