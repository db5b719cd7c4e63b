//! The words of a line, each read as a value. A word that is none is refused.
ghost use Rattle.std.specs.Prelude.{◌<◌, IfErr, IfSome};
ghost use Rattle.texts.specs.Refusals.{IsNoSpelling};

use crate::numbers::number;
use disk::Fate;
use std::alloc::Global;
use units::{Fault, Key, Reason, ShardNo, TxnId, Value};

/// The fault of a word that is not what it should be, as long as its line is not known.
pub const NO_WORD: Fault = Fault::BadRequest(Reason::Command);

/// Reads a shard, by its number.
pub fn shard(word: &str) -> Result<ShardNo, Fault> {
    let number = number(word)?;
    if number > 15 {
        return Err(NO_WORD);
    }
    ShardNo::new(number as u8).ok_or(NO_WORD)
}

/// Reads an id: two numbers with a dot between them.
pub fn txn(word: &str) -> Result<TxnId, Fault> {
    let Some((run, count)) = word.split_once('.') else {
        return Err(NO_WORD);
    };
    TxnId::new(number(run)?, number(count)?).ok_or(NO_WORD)
}

/// Reads a key of ASCII letters, digits and underscores.
pub fn key(word: &str) -> Result<Key, Fault> {
    Key::new(plain(word)?)
}

/// Reads a value of ASCII letters, digits and underscores.
pub fn value(alloc: Global, word: &str) -> Result<Value, Fault> {
    Value::new(alloc, plain(word)?)
}

/// Reads what a look or a read shows: `none`, or `=` and a value.
pub fn shown(alloc: Global, word: &str) -> Result<Option<Value>, Fault> {
    match word.strip_prefix('=') {
        Some(word) => Ok(Some(value(alloc, word)?)),
        None if word == "none" => Ok(None),
        None => Err(NO_WORD),
    }
}

/// Reads what a crash makes of a change: `old`, `new`, or a byte in two hexadecimal digits of either case.
pub fn fate(word: &str) -> Result<Fate, Fault> {
    match word.as_bytes() {
        b"old" => Ok(Fate::Old),
        b"new" => Ok(Fate::New),
        [high, low] => match (digit(*high), digit(*low)) {
            (Some(high), Some(low)) => Ok(Fate::Filled(high * 16 + low)),
            _ => Err(NO_WORD),
        },
        _ => Err(NO_WORD),
    }
}

// Reads a hexadecimal digit.
fn digit(byte: u8) -> Option<u8>
    ensures { IfSome result (λ digit. digit < 16) }
{
    match byte {
        b'0'..=b'9' => Some(byte - b'0'),
        b'a'..=b'f' => Some(byte - b'a' + 10),
        b'A'..=b'F' => Some(byte - b'A' + 10),
        _ => None,
    }
}

/// Tells whether a word of a schedule may have the byte: an ASCII letter, a digit or an underscore.
pub(crate) fn is_letter(byte: u8) -> bool {
    byte.is_ascii_alphanumeric() || byte == b'_'
}

/// Reads the bytes that a word spells: `\xHH` is the byte of these two hexadecimal digits, and each other byte stands
/// for itself. `BadRequest(Command)` comes if two digits do not follow a `\x`.
pub fn unspelled(alloc: Global, word: &str) -> Result<Vec<u8>, Fault>
    ensures { IfErr result IsNoSpelling }
{
    let mut bytes = Vec::new(alloc);
    for (place, piece) in word.split("\\x").enumerate() {
        let plain = if place > 0 {
            push_spelled(&mut bytes, piece.as_bytes())?
        } else {
            piece.as_bytes()
        };
        bytes.extend_from_slice(plain)?;
    }
    Ok(bytes)
}

// Adds the byte that the first two digits spell, and gives what follows them.
fn push_spelled<'t>(bytes: &mut Vec<u8>, piece: &'t [u8]) -> Result<&'t [u8], Fault>
    ensures { IfErr result IsNoSpelling }
{
    let [high, low, rest @ ..] = piece else {
        return Err(NO_WORD);
    };
    let (Some(high), Some(low)) = (digit(*high), digit(*low)) else {
        return Err(NO_WORD);
    };
    bytes.push(high * 16 + low)?;
    Ok(rest)
}

// Gives the bytes of a word of ASCII letters, digits and underscores.
fn plain(word: &str) -> Result<&[u8], Fault> {
    let bytes = word.as_bytes();
    for byte in bytes {
        if !is_letter(*byte) {
            return Err(NO_WORD);
        }
    }
    if bytes.is_empty() {
        Err(NO_WORD)
    } else {
        Ok(bytes)
    }
}
