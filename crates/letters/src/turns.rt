//! Reads of keys that are read to be written take turns.
use crate::bell::left;
use message::{Message, Read};
use std::alloc::Global;
use std::time;
use std::time::{Duration, Instant};
use units::{Key, Keys, TxnId, Writes};

// Keys share so many slots, by a hash.
const SLOTS: usize = 2_048;

// A read waits for its turn no longer than this many times as long as the last letters took.
const SHARE_OF_WAITS: u32 = 4;

// It may wait so long, however fast the letters were.
fn shortest() -> Duration {
    Duration::from_millis(4)
}

// It never waits longer.
fn longest() -> Duration {
    Duration::from_millis(100)
}

// The transaction that was the last to read a key of a slot, if it has not closed, and when it did that. `written` says whether the last
// transaction that closed after such a read wrote the key.
#[derive(Clone, Copy)]
struct Slot {
    reader: Option<TxnId>,
    since: Option<Instant>,
    written: bool,
}

/// Who reads a key, and is to close before another transaction reads it.
///
/// Of two transactions that read a key at once and then write it, one is aborted. So if the last transaction that read a key has also written
/// it, the next reads of that key take turns. A read waits until the transaction that has read the key before it has closed, but for 4 ms at
/// most; 100 ms if letters take long. Reads of other keys wait for nobody.
#[derive(Drop)]
pub struct Turns {
    slots: Vec<Slot>,
    patience: Duration,
}

impl Turns {
    /// Begins with no reader. If memory is refused, no read ever waits.
    pub fn none(alloc: Global) -> Turns {
        let mut slots = Vec::new(alloc);
        if slots.reserve(SLOTS).is_ok() {
            for _slot in 0..SLOTS {
                drop(slots.push(Slot {
                    reader: None,
                    since: None,
                    written: false,
                }));
            }
        }
        Turns {
            slots,
            patience: shortest(),
        }
    }

    /// Notes how long letters took that were taken together.
    pub fn note_pace(&mut self, took: Duration) {
        self.patience = took
            .saturating_mul(SHARE_OF_WAITS)
            .max(shortest())
            .min(longest());
    }

    /// Tells whether a read waits for its turn.
    pub fn puts_off<W: time::Clock>(&self, rt: &W, read: &Read) -> bool {
        let Some(slot) = self.slots.get(place_of(&read.key)) else {
            return false;
        };
        match slot.reader {
            Some(reader) if slot.written && reader != read.txn => {
                left(rt, slot.since, self.patience) > Duration::ZERO
            }
            _ => false,
        }
    }

    /// Notes that a read is taken.
    pub fn begin<W: time::Clock>(&mut self, rt: &W, read: &Read) {
        if let Some(slot) = self.slots.get_mut(place_of(&read.key)) {
            slot.reader = Some(read.txn);
            slot.since = Instant::now(rt).ok();
        }
    }

    /// Notes that a transaction is about to close, if a message says so: reads of keys that it writes wait until then.
    pub fn hold<W: time::Clock>(&mut self, rt: &W, message: &Message) {
        match message {
            Message::Prepare(prepare) => self.claim(rt, prepare.txn, &prepare.writes),
            Message::Commit(commit) => self.claim(rt, commit.txn, &commit.writes),
            _ => {}
        }
    }

    // The transaction is about to write these keys.
    fn claim<W: time::Clock>(&mut self, rt: &W, txn: TxnId, writes: &Writes) {
        for write in writes.as_slice() {
            if let Some(slot) = self.slots.get_mut(place_of(&write.key)) {
                slot.reader = Some(txn);
                slot.since = Instant::now(rt).ok();
                slot.written = true;
            }
        }
    }

    /// Notes that a transaction closes, if a message says so.
    pub fn end(&mut self, message: &Message) {
        match message {
            Message::Prepare(prepare) => {
                self.close(prepare.txn, prepare.reads.keys(), &prepare.writes);
            }
            Message::Commit(commit) => self.close(commit.txn, commit.reads.keys(), &commit.writes),
            Message::GiveUp(given) => self.forget(given.txn),
            _ => {}
        }
    }

    // The transaction closes, which has read these keys and writes these.
    fn close(&mut self, txn: TxnId, keys: &Keys, writes: &Writes) {
        for key in keys.as_slice() {
            if let Some(slot) = self.slots.get_mut(place_of(key)) {
                slot.written = writes.writes_key(key);
                if slot.reader == Some(txn) {
                    slot.reader = None;
                }
            }
        }
        for write in writes.as_slice() {
            if let Some(slot) = self.slots.get_mut(place_of(&write.key)) {
                if slot.reader == Some(txn) {
                    slot.reader = None;
                }
            }
        }
    }

    // The transaction has ended.
    fn forget(&mut self, txn: TxnId) {
        for slot in &mut self.slots {
            if slot.reader == Some(txn) {
                slot.reader = None;
            }
        }
    }
}

// The slot of a key.
fn place_of(key: &Key) -> usize {
    let mut hash = 0_usize;
    for byte in key.as_bytes() {
        hash = hash.wrapping_mul(31).wrapping_add(usize::from(*byte));
    }
    hash % SLOTS
}
