//! Letters that are taken together.
use crate::acts::{post_all, refuse, session_of};
use crate::gate::Gate;
use crate::kept::{Kept, Watched};
use crate::letter::{Letter, Post};
use crate::pace::Pace;
use crate::put_off::Waiting;
use crate::serves::{Serves, Taken};
use crate::turns::Turns;
use crossbeam_channel::Receiver;
use message::{Input, Message};
use std::alloc::Global;
use std::sync::Wait;
use std::time;
use truetime::Clock;
use units::{Stamp, TxnId, Writes};

// So many letters are taken together at most, besides those that a session has sent again.
const LETTERS_TOGETHER: usize = 64;

// So many are taken together with those.
const MOST_TOGETHER: usize = 128;

// No letter joins others once these are to write so many bytes.
const BYTES_TOGETHER: usize = 1 << 20;

/// Letters that are taken together, in order: the inputs that they carry, and for each of these the round in which a session has sent it
/// again. It also counts the letters, those that are new, and the bytes that they are to write.
#[derive(Drop)]
pub struct Batch {
    inputs: Vec<Input>,
    rounds: Vec<Option<u64>>,
    letters: u64,
    new: usize,
    bytes: usize,
}

impl Batch {
    /// Begins with no letter, and with room for as many as are taken together. `None` if memory is refused.
    pub fn none(alloc: Global) -> Option<Batch> {
        let inputs = Vec::with_capacity(alloc, MOST_TOGETHER).ok()?;
        let rounds = Vec::with_capacity(alloc, MOST_TOGETHER).ok()?;
        Some(Batch {
            inputs,
            rounds,
            letters: 0,
            new: 0,
            bytes: 0,
        })
    }

    /// Adds a letter, and the letters of the inbox that are there and are no reads, until there are enough. A closing that is sent again counts
    /// once.
    pub fn fill<W: Wait + time::Clock>(
        &mut self,
        rt: &W,
        reads: &mut Waiting,
        inbox: &Receiver<Letter>,
        pace: &mut Pace,
        first: Letter,
    ) {
        self.add(pace, first);
        for _letter in 1..MOST_TOGETHER {
            if self.is_full() {
                return;
            }
            match reads.further(rt, inbox) {
                Some(letter) => self.add(pace, letter),
                None => return,
            }
        }
    }

    /// Tells whether no letter joins it any more.
    pub fn is_full(&self) -> bool {
        self.new >= LETTERS_TOGETHER
            || self.inputs.len() >= MOST_TOGETHER
            || self.bytes >= BYTES_TOGETHER
    }

    /// Lets the reads of keys wait that its transactions are to write.
    pub fn hold_turns<W: time::Clock>(&self, rt: &W, turns: &mut Turns) {
        for input in &self.inputs {
            if let Input::Deliver(message) = input {
                turns.hold(rt, message);
            }
        }
    }

    /// Tells of the transactions that close by it: their reads wait no more, and keep nobody waiting.
    pub fn end_turns(&self, turns: &mut Turns, reads: &mut Waiting) {
        for input in &self.inputs {
            if let Some(txn) = session_of(input) {
                reads.forget(txn);
            }
            if let Input::Deliver(message) = input {
                turns.end(message);
            }
        }
    }

    // The round in which a session has sent the n-th input again.
    fn round(&self, n: usize) -> Option<u64> {
        *self.rounds.get(n)?
    }

    // Whether the last message of its session is the same as one that is sent again. If it is, that is the round in which it was sent.
    fn has(&mut self, message: &Message, round: u64) -> bool {
        let mut last = None;
        for (at, input) in self.inputs.iter().enumerate() {
            if let Input::Deliver(there) = input {
                if closes(there) == closes(message) {
                    last = if says_the_same(there, message) {
                        Some(at)
                    } else {
                        None
                    };
                }
            }
        }
        match last {
            Some(at) => {
                if let Some(asked) = self.rounds.get_mut(at) {
                    *asked = Some(round);
                }
                true
            }
            None => false,
        }
    }

    // Adds a letter, for which there is room. The word that a reader got `NotYet` only counts as a letter.
    fn add(&mut self, pace: &mut Pace, letter: Letter) {
        let (message, round) = match letter {
            Letter::Carry(message) => {
                if let Some(txn) = closes(&message) {
                    pace.closes(txn);
                }
                self.new = self.new.saturating_add(1);
                (message, None)
            }
            Letter::Again(message, round) => {
                if self.has(&message, round) {
                    return;
                }
                (message, Some(round))
            }
            Letter::Look | Letter::Close => {
                self.letters = self.letters.saturating_add(1);
                return;
            }
        };
        self.letters = self.letters.saturating_add(1);
        self.bytes = self.bytes.saturating_add(bytes_of(&message));
        drop(self.inputs.push(Input::Deliver(message)));
        drop(self.rounds.push(round));
    }
}

// The transaction that a message of its session closes.
fn closes(message: &Message) -> Option<TxnId> {
    match message {
        Message::Prepare(prepare) => Some(prepare.txn),
        Message::Commit(commit) => Some(commit.txn),
        Message::GiveUp(given) => Some(given.txn),
        _ => None,
    }
}

// Whether two messages of sessions close the same transaction in the same way.
fn says_the_same(one: &Message, other: &Message) -> bool {
    match (one, other) {
        (Message::Commit(one), Message::Commit(other)) => one.txn == other.txn,
        (Message::Prepare(one), Message::Prepare(other)) => one.txn == other.txn,
        (Message::GiveUp(one), Message::GiveUp(other)) => one.txn == other.txn,
        _ => false,
    }
}

// How many bytes a message is to write, as far as they are values.
fn bytes_of(message: &Message) -> usize {
    match message {
        Message::Prepare(prepare) => value_bytes(&prepare.writes),
        Message::Commit(commit) => value_bytes(&commit.writes),
        _ => 0,
    }
}

fn value_bytes(writes: &Writes) -> usize {
    let mut bytes = 0_usize;
    for write in writes.as_slice() {
        if let Some(value) = &write.value {
            bytes = bytes.saturating_add(value.as_bytes().len());
        }
    }
    bytes
}

/// Takes letters together; the first of them has this number at the gate. The gate is told of all of them before, and again once each is
/// answered. Returns the number of the next letter.
pub fn take_all<N: Serves, W: Wait, P: Post, C: Clock, G: Gate>(
    node: &N,
    rt: &W,
    post: &mut P,
    clock: &mut C,
    gate: &G,
    kept: &mut Kept,
    first: u64,
    batch: Batch,
) -> u64 {
    let end = first.saturating_add(batch.letters).min(Stamp::MAX);
    for n in first..end {
        gate.before(node.shard(), n);
    }
    answer_all(node, rt, post, clock, kept, &batch);
    for n in first..end {
        gate.after(node.shard(), n);
    }
    end
}

// Gives the node the inputs, and hands on what it makes of each, in their order.
fn answer_all<N: Serves, W: Wait, P: Post, C: Clock>(
    node: &N,
    rt: &W,
    post: &mut P,
    clock: &mut C,
    kept: &mut Kept,
    batch: &Batch,
) {
    match node.take_all(rt, clock, &batch.inputs) {
        Ok(Some(taken)) => hand_on_all(node, rt, post, kept, batch, taken),
        Ok(None) => one_by_one(node, rt, post, clock, kept, batch),
        Err(fault) => {
            for input in &batch.inputs {
                refuse(post, node.shard(), input, fault);
            }
        }
    }
}

// Hands on what the node made of each input, and then what the steps that were due have put out.
fn hand_on_all<N: Serves, W: Wait, P: Post>(
    node: &N,
    rt: &W,
    post: &mut P,
    kept: &mut Kept,
    batch: &Batch,
    taken: Taken,
) {
    let Taken { refusals, outboxes } = taken;
    let mut outboxes = outboxes.into_iter();
    for at in 0..batch.inputs.len() {
        let input = &batch.inputs[at];
        if let Some(Some(fault)) = refusals.get(at) {
            refuse(post, node.shard(), input, *fault);
        } else if let Some(outbox) = outboxes.next() {
            kept.answer(node, rt, post, input, outbox, batch.round(at));
        }
    }
    let mut post = Watched { post, kept };
    for outbox in outboxes {
        post_all(&mut post, outbox);
    }
}

// Gives the node the inputs one by one.
fn one_by_one<N: Serves, W: Wait, P: Post, C: Clock>(
    node: &N,
    rt: &W,
    post: &mut P,
    clock: &mut C,
    kept: &mut Kept,
    batch: &Batch,
) {
    for at in 0..batch.inputs.len() {
        kept.take(node, rt, post, clock, &batch.inputs[at], batch.round(at));
    }
}
