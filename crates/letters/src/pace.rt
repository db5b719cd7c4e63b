//! How long a node gathers letters for its next group.
use crate::bell::left;
use message::{Envelope, Message};
use std::alloc::Global;
use std::time;
use std::time::{Duration, Instant};
use units::TxnId;

// A device is slow if groups take so long.
fn slow() -> Duration {
    Duration::from_millis(2)
}

// After a group a node gathers letters for this share of the time that the group took, at most.
const SHARE_OF_GATHERING: u32 = 2;

// It does not go on once no letter came for this share of that time.
const SHARE_OF_SILENCE: u32 = 16;

// So many transactions are kept in mind.
const MOST: usize = 128;

/// How long the last groups took, and who is likely to send a letter for the next one.
///
/// If a device is slow, a letter that just misses a group waits for all of it. So after a group a node waits a little for those whom it has
/// answered: the sessions whose transaction has ended, which begin another one, and those that have read and not closed. It waits until all
/// of them have closed, or no letter has come for a sixteenth of the time that a group takes. It never waits longer than half of that time.
#[derive(Drop)]
pub struct Pace {
    took: Duration,
    before: Duration,
    ended: Option<Instant>,
    heard: Option<Instant>,
    newcomers: usize,
    begun: Vec<TxnId>,
    readers: Vec<TxnId>,
}

impl Pace {
    /// Begins with no group.
    pub fn none(alloc: Global) -> Pace {
        Pace {
            took: Duration::ZERO,
            before: Duration::ZERO,
            ended: None,
            heard: None,
            newcomers: 0,
            begun: Vec::new(alloc),
            readers: Vec::new(alloc),
        }
    }

    /// Notes that a group begins: nobody is waited for any more.
    pub fn begin_group(&mut self) {
        self.newcomers = 0;
        self.begun.clear();
        self.readers.clear();
    }

    /// Notes that a group has ended, which began at this moment.
    pub fn end_group<W: time::Clock>(&mut self, rt: &W, start: Option<Instant>) {
        self.before = self.took;
        self.ended = Instant::now(rt).ok();
        self.heard = self.ended;
        self.took = match (start, self.ended) {
            (Some(start), Some(end)) => end.duration_since(start),
            _ => Duration::ZERO,
        };
    }

    /// Notes that something else kept the node from its letters, since this moment. If that was long, it gathers letters anew.
    pub fn end_other<W: time::Clock>(&mut self, rt: &W, start: Option<Instant>) {
        let now = Instant::now(rt).ok();
        if let (Some(start), Some(end)) = (start, now) {
            if self.is_slow() && end.duration_since(start) >= slow() {
                self.ended = now;
                self.heard = now;
            }
        }
    }

    // How long a group takes: as long as the shorter of the last two.
    fn pace(&self) -> Duration {
        self.took.min(self.before)
    }

    /// Tells whether groups take long.
    pub fn is_slow(&self) -> bool {
        self.pace() >= slow()
    }

    /// Notes that a letter came.
    pub fn hear<W: time::Clock>(&mut self, rt: &W) {
        if self.is_slow() {
            self.heard = Instant::now(rt).ok();
        }
    }

    /// Notes a message that the node puts out.
    pub fn answered(&mut self, envelope: &Envelope) {
        if !self.is_slow() {
            return;
        }
        match &envelope.message {
            Message::Done(_) => self.newcomers = self.newcomers.saturating_add(1).min(MOST),
            Message::ReadAnswer(answer) => {
                if self.readers.len() < MOST && !self.readers.contains(&answer.txn) {
                    drop(self.readers.push(answer.txn));
                }
            }
            _ => {}
        }
    }

    /// Notes that a transaction reads: whose session has begun it is no newcomer any more.
    pub fn begins(&mut self, txn: TxnId) {
        if self.is_slow() && self.begun.len() < MOST && !self.begun.contains(&txn) {
            self.newcomers = self.newcomers.saturating_sub(1);
            drop(self.begun.push(txn));
        }
    }

    /// Notes that a transaction closes.
    pub fn closes(&mut self, txn: TxnId) {
        if !self.is_slow() {
            return;
        }
        self.readers.retain(|reader| *reader != txn);
    }

    /// Tells for how long the node gathers letters still.
    pub fn gathers<W: time::Clock>(&self, rt: &W) -> Duration {
        if !self.is_slow() || (self.newcomers == 0 && self.readers.is_empty()) {
            return Duration::ZERO;
        }
        let all = left(rt, self.ended, self.pace() / SHARE_OF_GATHERING);
        all.min(left(rt, self.heard, self.pace() / SHARE_OF_SILENCE))
    }
}
