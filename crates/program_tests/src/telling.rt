//! What a report tells of its transactions, row by row, as plain numbers.
use commands::Report;
use message::{Envelope, Message};
use record::Record;
use std::alloc::Global;
use units::{Line, Parts, ShardNo, Stamp, TxnId, Value, Writes};

/// What a row tells of.
#[derive(Clone, Copy, PartialEq, Eq)]
pub enum Kind {
    /// A commit decision in a log.
    Commit,
    /// A part of a decision that is not its coordinator.
    Part,
    /// A write of a decision or of a promise.
    Write,
    /// A promise in a log.
    Prepare,
    /// An outcome in a log.
    Outcome,
    /// A horizon in a log.
    Horizon,
    /// A message on how a transaction ended.
    Message,
    /// A line of a begin.
    Begin,
    /// A line of an acknowledgement.
    Ack,
    /// A line of a read.
    Read,
    /// A line of a look.
    Look,
}

/// A row. Its kind says which of the numbers count.
#[derive(Clone, Copy, PartialEq, Eq)]
pub struct Told {
    /// What it tells of.
    pub kind: Kind,
    /// The shard of its log, or the part.
    pub shard: usize,
    /// The transaction.
    pub txn: u64,
    /// The timestamp.
    pub at: u64,
    /// The coordinator.
    pub coordinator: usize,
    /// The key.
    pub key: u8,
    /// The value, or 0 for none.
    pub value: u8,
}

/// The timestamp of a transaction that did not commit.
pub const NEVER: u64 = u64::MAX;

/// A row of no transaction, no key and no value.
pub static NOTHING: Told = Told {
    kind: Kind::Outcome,
    shard: usize::MAX,
    txn: NEVER,
    at: NEVER,
    coordinator: 0,
    key: 0,
    value: 0,
};

// What stands for a key or a value that is not one byte, and for a transaction of another run.
const STRANGE: u8 = u8::MAX;

const STRANGER: u64 = 1 << 62;

// The byte of a key or a value.
fn byte_of(bytes: &[u8]) -> u8 {
    match bytes {
        [byte] if *byte > 0 => *byte,
        _ => STRANGE,
    }
}

/// Gives the byte of a value, or 0 for none.
pub fn value_of(value: &Option<Value>) -> u8 {
    match value {
        Some(value) => byte_of(value.as_bytes()),
        None => 0,
    }
}

// A transaction of run 1, by its number.
fn number_of(txn: TxnId) -> u64 {
    if txn.run() == 1 {
        txn.number()
    } else {
        STRANGER
    }
}

fn end_of(outcome: Option<Stamp>) -> u64 {
    match outcome {
        Some(at) => at.micros(),
        None => NEVER,
    }
}

// Puts in a row. `false` if a number is strange.
fn put(told: &mut Vec<Told>, one: Told) -> bool {
    one.key != STRANGE && one.value != STRANGE && one.txn != STRANGER && told.push(one).is_ok()
}

fn put_writes(told: &mut Vec<Told>, txn: u64, writes: &Writes) -> bool {
    let mut one = NOTHING;
    one.kind = Kind::Write;
    one.txn = txn;
    for write in writes.as_slice() {
        one.key = byte_of(write.key.as_bytes());
        one.value = value_of(&write.value);
        if !put(told, one) {
            return false;
        }
    }
    true
}

// The parts of a decision but for its coordinator.
fn put_parts(told: &mut Vec<Told>, txn: u64, parts: Parts) -> bool {
    let mut one = NOTHING;
    one.kind = Kind::Part;
    one.txn = txn;
    for number in 0..16 {
        if let Some(part) = ShardNo::new(number) {
            one.shard = number as usize;
            if parts.has(part) && part != parts.least() && !put(told, one) {
                return false;
            }
        }
    }
    true
}

// No step logs a record of a renewed log's head.
fn put_record(told: &mut Vec<Told>, shard: usize, item: &Record) -> bool {
    let mut one = NOTHING;
    one.shard = shard;
    match item {
        Record::Opened { .. } | Record::Ceiling { .. } | Record::Retired { .. } => return true,
        Record::Base { .. } | Record::Version(_) => return false,
        Record::Settled { .. } | Record::Closed { .. } => return false,
        Record::Commit(committed) => {
            one.kind = Kind::Commit;
            one.txn = number_of(committed.txn);
            one.at = committed.at.micros();
            one.coordinator = committed.parts.least().number() as usize;
            if !put_parts(told, one.txn, committed.parts)
                || !put_writes(told, one.txn, &committed.writes)
            {
                return false;
            }
        }
        Record::Prepare(promise) => {
            one.kind = Kind::Prepare;
            one.txn = number_of(promise.txn);
            one.at = promise.at.micros();
            one.coordinator = promise.coordinator.number() as usize;
            if !put_writes(told, one.txn, &promise.writes) {
                return false;
            }
        }
        Record::Abort { txn } => one.txn = number_of(*txn),
        Record::Horizon { at } => {
            one.kind = Kind::Horizon;
            one.at = at.micros();
        }
        Record::Outcome { txn, outcome } => {
            one.txn = number_of(*txn);
            one.at = end_of(*outcome);
        }
    }
    put(told, one)
}

// The records of a log, whose openings are to be numbered from 1. Its horizons are to rise, and what comes after one is above it.
fn put_log(told: &mut Vec<Told>, shard: usize, log: &[Record]) -> bool {
    let mut last: u64 = 0;
    let mut horizon: u64 = 0;
    for item in log {
        let rises = match item {
            Record::Opened { epoch } => {
                last = last.saturating_add(1);
                epoch.number() == last
            }
            Record::Horizon { at } => {
                let before = horizon;
                horizon = at.micros();
                horizon > before
            }
            Record::Prepare(promise) => promise.at.micros() > horizon,
            Record::Commit(committed) => committed.at.micros() > horizon,
            Record::Ceiling { .. }
            | Record::Abort { .. }
            | Record::Outcome { .. }
            | Record::Retired { .. } => true,
            Record::Base { .. } | Record::Version(_) => false,
            Record::Settled { .. } | Record::Closed { .. } => false,
        };
        if !rises || !put_record(told, shard, item) {
            return false;
        }
    }
    last > 0
}

// How messages say that transactions ended.
fn put_messages(told: &mut Vec<Told>, envelopes: &[Envelope]) -> bool {
    let mut one = NOTHING;
    one.kind = Kind::Message;
    for envelope in envelopes {
        let (txn, outcome) = match &envelope.message {
            Message::Done(done) => (done.txn(), done.outcome()),
            Message::Outcome(ended) => (ended.txn, ended.outcome),
            _ => continue,
        };
        one.txn = number_of(txn);
        one.at = end_of(outcome);
        if !put(told, one) {
            return false;
        }
    }
    true
}

fn put_line(told: &mut Vec<Told>, line: &Line) -> bool {
    let mut one = NOTHING;
    match line {
        Line::Begin(txn, _) => {
            one.kind = Kind::Begin;
            one.txn = number_of(*txn);
        }
        Line::Ack(txn, at, _) => {
            one.kind = Kind::Ack;
            one.txn = number_of(*txn);
            one.at = at.micros();
        }
        Line::Read(txn, key, value) => {
            one.kind = Kind::Read;
            one.txn = number_of(*txn);
            one.key = byte_of(key.as_bytes());
            one.value = value_of(value);
        }
        Line::Look(key, at, value) => {
            one.kind = Kind::Look;
            one.at = at.micros();
            one.key = byte_of(key.as_bytes());
            one.value = value_of(value);
        }
    }
    put(told, one)
}

/// Puts in all that a report tells: records, then messages, then lines. Returns what is wrong with it by itself.
pub fn put_report(told: &mut Vec<Told>, report: &Report) -> &'static str {
    for (shard, log) in report.logs.iter().enumerate() {
        if !put_log(told, shard, log) {
            return "a log";
        }
    }
    put_said(told, report)
}

/// Puts in what a report tells besides its logs. Returns what is wrong with it by itself.
pub fn put_said(told: &mut Vec<Told>, report: &Report) -> &'static str {
    if !put_messages(told, report.bag.as_slice()) {
        return "the id of a message";
    }
    for line in &report.lines {
        if !put_line(told, line) {
            return "the numbers of a line";
        }
    }
    ""
}
