// How long the spelling of a record is.
ghost use Rattle.std.specs.Prelude.{◌≡◌, ◌≤◌, ◌^◌, length};
ghost use Rattle.spelling.specs.Grammar.{keys_spelling, value_spelling, writes_spelling, spelling};

use record::Record;
use units::{Keys, Value, Writes};

fn keys_len(keys: &Keys) -> u64
    ensures value { result ≡ length (keys_spelling keys.now) }
    ensures limit { result ≤ 8322 }
{
    let mut total = 2;
    for key in keys.as_slice() {
        total += 1 + key.as_bytes().len() as u64;
    }
    total
}

fn value_len(value: &Option<Value>) -> u64
    ensures value { result ≡ length (value_spelling value.now) }
    ensures limit { result ≤ 4099 }
{
    match value {
        None => 1,
        Some(value) => 3 + value.as_bytes().len() as u64,
    }
}

fn writes_len(writes: &Writes) -> u64
    ensures value { result ≡ length (writes_spelling writes.now) }
    ensures limit { result ≤ 532994 }
{
    let mut total = 2;
    for write in writes.as_slice() {
        total += 1 + write.key.as_bytes().len() as u64 + value_len(&write.value);
    }
    total
}

/// Gives how many bytes the spelling of a record has. It takes no memory.
#[tactic(auto, unfolding(crate::specs::Grammar::parts_spelling))]
pub fn encoded_len(record: &Record) -> u64
    ensures value { result ≡ length (spelling «record».now) }
    ensures limit { result ≤ 2 ^ 20 }
{
    match record {
        Record::Opened { epoch: _ } => 9,
        Record::Ceiling { at: _ } => 9,
        Record::Prepare(p) => 26 + keys_len(&p.reads) + writes_len(&p.writes),
        Record::Commit(c) => 27 + keys_len(&c.reads) + writes_len(&c.writes),
        Record::Abort { txn: _ } => 17,
        Record::Retired { below: _ } => 17,
        Record::Outcome { txn: _, outcome } => match outcome {
            None => 18,
            Some(_) => 26,
        },
        Record::Horizon { at: _ } => 9,
        Record::Base {
            epoch: _,
            floor: _,
            horizon: _,
        } => 25,
        Record::Version(install) => {
            10 + install.key.as_bytes().len() as u64 + value_len(&install.value)
        }
        Record::Settled {
            txn: _,
            at: _,
            parts: _,
        } => 27,
        Record::Closed {
            txn: _,
            coordinator: _,
            outcome,
        } => match outcome {
            None => 19,
            Some(_) => 27,
        },
    }
}
