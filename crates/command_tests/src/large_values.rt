//! The keys of a large store, and the values that its rounds give them.
use std::alloc::Global;
use units::{Fault, Key, Value};

/// How many keys a round writes, as many on each of the four shards.
pub const KEYS: u64 = 128;

/// The key of a number. Its first letter says on which shard it is.
pub fn key_of(alloc: Global, number: u64) -> Result<Key, Fault> {
    let letter = match number % 4 {
        0 => "b",
        1 => "h",
        2 => "o",
        _ => "u",
    };
    let name = format!(in alloc; "{letter}-{number}")?;
    let key = Key::new(name.as_bytes());
    drop(name);
    key
}

/// All keys, by their numbers.
pub fn keys_of(alloc: Global) -> Result<Vec<Key>, Fault> {
    let mut keys = Vec::new(alloc);
    for number in 0..KEYS {
        keys.push(key_of(alloc, number)?)?;
    }
    Ok(keys)
}

// A value of so many bytes, all of them the letter of this number.
fn repeated(alloc: Global, number: u64, length: usize) -> Result<Value, Fault> {
    let letter = 97u64.saturating_add(number % 26) as u8;
    let mut bytes = Vec::new(alloc);
    bytes.resize(length, letter)?;
    let value = Value::new(alloc, &bytes);
    drop(bytes);
    value
}

/// What a round gives a key: 0, 1, 24, 25 or 4,096 bytes, or 6 to 15, or it erases the key. From round to round the letter changes too.
pub fn value_of(alloc: Global, number: u64, round: u64) -> Result<Option<Value>, Fault> {
    let length = match number.saturating_add(round) % 16 {
        2 => 24,
        3 => 25,
        4 => 4_096,
        5 => return Ok(None),
        kind => kind as usize,
    };
    let letter = number.saturating_add(round.saturating_mul(5));
    Ok(Some(repeated(alloc, letter, length)?))
}

/// Version number of the hot key: 4,096 bytes.
pub fn hot_value(alloc: Global, number: u64) -> Result<Value, Fault> {
    repeated(alloc, number, 4_096)
}

fn is_same(found: &Option<Value>, right: &Option<Value>) -> bool {
    match (found, right) {
        (Some(found), Some(right)) => found.as_bytes() == right.as_bytes(),
        (None, None) => true,
        _ => false,
    }
}

/// Whether a key has what a round gave it.
pub fn is_of_round(
    alloc: Global,
    number: u64,
    round: u64,
    found: &Option<Value>,
) -> Result<bool, Fault> {
    let right = value_of(alloc, number, round)?;
    let same = is_same(found, &right);
    drop(right);
    Ok(same)
}
