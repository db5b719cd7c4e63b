//! Logs that are read from the text of their records. If a word cannot be read, another value takes its place, so
//! that the record is not printed as it was written.
use crate::checks::is_printed;
use made::shard;
use record::{Committed, Prepared, Record};
use std::alloc::Global;
use texts::Text;
use units::{Epoch, Install, Key, Keys, Parts, ShardNo, Stamp, TxnId, Value, Write, Writes};

/// Adds the records of a text to a log, one a line, and tells whether each is printed as its line.
pub fn reads(alloc: Global, text: &str, log: &mut Vec<Record>) -> bool {
    for line in text.lines() {
        let Some(record) = record_of(alloc, line) else {
            return false;
        };
        if log.push(record).is_err() {
            return false;
        }
    }
    true
}

/// Reads the record of a line, if it is printed as that line.
pub fn record_of(alloc: Global, line: &str) -> Option<Record> {
    let record = read(alloc, line);
    if is_printed(alloc, &Text(&record), line) {
        Some(record)
    } else {
        drop(record);
        None
    }
}

// Gives the pieces of a text between separators, and then empty ones. One of `-` is empty.
fn pieces(text: &str, separator: char) -> [&str; 6] {
    let mut pieces = [""; 6];
    let mut count = 0;
    for piece in text.split(separator) {
        if count < 6 {
            pieces[count] = piece.strip_prefix('-').unwrap_or(piece);
            count += 1;
        }
    }
    pieces
}

// Reads the record of a line, as far as its words can be read.
fn read(alloc: Global, line: &str) -> Record {
    let [kind, first, second, third, fourth, fifth] = pieces(line, ' ');
    match kind {
        "opened" => Record::Opened {
            epoch: epoch_of(first),
        },
        "ceiling" => Record::Ceiling {
            at: stamp_of(first),
        },
        "horizon" => Record::Horizon {
            at: stamp_of(first),
        },
        "retired" => Record::Retired {
            below: txn_of(first),
        },
        "prepare" => Record::Prepare(Prepared {
            txn: txn_of(first),
            coordinator: coordinator_of(second),
            at: stamp_of(third),
            reads: keys_of(alloc, fourth),
            writes: writes_of(alloc, fifth),
        }),
        "commit" => Record::Commit(Committed {
            txn: txn_of(first),
            at: stamp_of(second),
            parts: parts_of(third),
            reads: keys_of(alloc, fourth),
            writes: writes_of(alloc, fifth),
        }),
        _ => short(alloc, kind, [first, second, third, fourth]),
    }
}

// Reads a record of an end, or one that a renewed log alone has.
fn short(alloc: Global, kind: &str, words: [&str; 4]) -> Record {
    let [first, second, third, fourth] = words;
    match kind {
        "outcome" => Record::Outcome {
            txn: txn_of(first),
            outcome: outcome_of(second, third),
        },
        "base" => Record::Base {
            epoch: epoch_of(first),
            floor: stamp_of(second),
            horizon: stamp_of(third),
        },
        "version" => {
            let Write { key, value } = write_of(alloc, second);
            let at = stamp_of(first);
            Record::Version(Install { key, at, value })
        }
        "settled" => Record::Settled {
            txn: txn_of(first),
            at: stamp_of(second),
            parts: parts_of(third),
        },
        "closed" => Record::Closed {
            txn: txn_of(first),
            coordinator: coordinator_of(second),
            outcome: outcome_of(third, fourth),
        },
        _ => Record::Abort { txn: txn_of(first) },
    }
}

// Reads the outcome that two words tell.
fn outcome_of(word: &str, at: &str) -> Option<Stamp> {
    if word == "committed" {
        Some(stamp_of(at))
    } else {
        None
    }
}

/// Reads the id of a word.
pub fn txn_of(word: &str) -> TxnId {
    texts::txn(word).unwrap_or(made::id(0))
}

fn stamp_of(word: &str) -> Stamp {
    Stamp::new(number(word)).unwrap_or(Stamp::zero())
}

fn epoch_of(word: &str) -> Epoch {
    Epoch::new(number(word)).unwrap_or(Epoch::first())
}

fn coordinator_of(word: &str) -> ShardNo {
    shard((number(word) % 16) as u8)
}

fn number(word: &str) -> u64 {
    texts::number(word).unwrap_or(0)
}

/// Reads the key of a word.
pub fn key_of(word: &str) -> Key {
    texts::key(word).unwrap_or(made::key(b'?'))
}

/// Reads the value of a word, if it is one.
pub fn value_of(alloc: Global, word: &str) -> Option<Value> {
    texts::value(alloc, word).ok()
}

/// Reads shards between commas.
pub fn parts_of(word: &str) -> Parts {
    let mut mask = 0;
    for part in &pieces(word, ',') {
        if !part.is_empty() {
            mask |= 1 << (number(*part) % 16) as u8;
        }
    }
    Parts::from_mask(mask).unwrap_or(Parts::only(shard(15)))
}

/// Reads keys between commas.
pub fn keys_of(alloc: Global, word: &str) -> Keys {
    let mut keys = Vec::new(alloc);
    for part in &pieces(word, ',') {
        if !part.is_empty() {
            let _ = keys.push(key_of(*part));
        }
    }
    Keys::from_vec(keys).unwrap_or(Keys::none(alloc))
}

/// Reads writes between commas, each a key with `=` and a value or with `!`.
pub fn writes_of(alloc: Global, word: &str) -> Writes {
    let mut writes = Vec::new(alloc);
    for part in &pieces(word, ',') {
        if !part.is_empty() {
            let _ = writes.push(write_of(alloc, *part));
        }
    }
    Writes::from_vec(writes).unwrap_or(Writes::none(alloc))
}

fn write_of(alloc: Global, word: &str) -> Write {
    let (name, text) = word.split_once('=').unwrap_or((word, "!"));
    Write {
        key: key_of(name.strip_suffix('!').unwrap_or(name)),
        value: value_of(alloc, text),
    }
}
