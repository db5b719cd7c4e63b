//! Bytes as words spell them: printable ASCII but blank and backslash stands for itself. Each other byte is `\x` and two hexadecimal digits.
ghost use Rattle.std.specs.Prelude.{◌≡◌, ◌⊎◌, ◌<◌, ◌++◌, None, Some, IfErr, IfSome, MatchResult, OnOk, string_bytes};
ghost use Rattle.std.specs.Char.{digit_char};
ghost use Rattle.requests.specs.Spelling.{IsPlace, SpelledIsRead, byte_word, digit_of, is_plain, pass, spelled, unspelled};

use std::alloc::Global;
use units::{Fault, Reason};

/// How far a reader of a word is: between bytes, after a backslash, after `\x`, or after the number of its first digit.
#[derive(Clone, Copy)]
pub enum Place {
    Between,
    Behind,
    Opened,
    Half(u8),
}

/// How far a reader is after a byte more of a word, and the byte that it ends, if it ends one.
#[derive(Clone, Copy)]
pub struct Passed {
    pub place: Place,
    pub byte: Option<u8>,
}

/// The bytes that a word spells.
pub fn unspelled(alloc: Global, word: &str) -> Result<Vec<u8>, Fault>
    ensures { MatchResult result (λ bytes. unspelled word.now ≡ Some bytes.items)
        (λ fault. (fault ≡ Fault.Memory)
        ⊎ ((fault ≡ Fault.BadRequest Reason.Command) × (unspelled word.now ≡ None))) }
{
    let mut bytes = Vec::new(alloc);
    let mut place = Place::Between;
    for byte in word.as_bytes() {
        let Some(passed) = pass(place, *byte) else {
            return Err(Fault::BadRequest(Reason::Command));
        };
        place = passed.place;
        if let Some(byte) = passed.byte {
            bytes.push(byte)?;
        }
    }
    match place {
        Place::Between => Ok(bytes),
        _ => Err(Fault::BadRequest(Reason::Command)),
    }
}

// What a byte more of a word comes to. There is nothing where no word goes on so.
fn pass(place: Place, byte: u8) -> Option<Passed>
    requires { IsPlace place }
    ensures passed { result ≡ pass place byte }
    ensures place { IfSome result (λ passed. IsPlace passed.place) }
{
    match place {
        Place::Between if byte == b'\\' => Some(Passed {
            place: Place::Behind,
            byte: None,
        }),
        Place::Between => Some(Passed {
            place,
            byte: Some(byte),
        }),
        Place::Behind if byte == b'x' => Some(Passed {
            place: Place::Opened,
            byte: None,
        }),
        Place::Behind => None,
        Place::Opened => Some(Passed {
            place: Place::Half(digit_of(byte)?),
            byte: None,
        }),
        Place::Half(high) => Some(Passed {
            place: Place::Between,
            byte: Some(16 * high + digit_of(byte)?),
        }),
    }
}

// The number of a hexadecimal digit of either case.
fn digit_of(byte: u8) -> Option<u8>
    ensures digit { result ≡ digit_of byte }
    ensures limit { IfSome result (λ digit. digit < 16) }
{
    match byte {
        b'0'..=b'9' => Some(byte - b'0'),
        b'a'..=b'f' => Some(byte - b'a' + 10),
        b'A'..=b'F' => Some(byte - b'A' + 10),
        _ => None,
    }
}

/// Adds the word that spells some bytes to a text.
pub fn push_spelled(text: &mut String, bytes: &[u8]) -> Result<(), Fault>
    ensures spelled { OnOk result
        (string_bytes text.new ≡ string_bytes text.old ++ spelled bytes.now) }
    ensures memory { IfErr result (λ fault. fault ≡ Fault.Memory) }
{
    for byte in bytes {
        push_byte(text, *byte)?;
    }
    Ok(())
}

fn push_byte(text: &mut String, byte: u8) -> Result<(), Fault>
    ensures byte { OnOk result (string_bytes text.new ≡ string_bytes text.old ++ byte_word byte) }
    ensures memory { IfErr result (λ fault. fault ≡ Fault.Memory) }
{
    if is_plain(byte) {
        text.push(char::from(byte))?;
        return Ok(());
    }
    text.push_str("\\x")?;
    text.push(digit_of_number(byte / 16))?;
    text.push(digit_of_number(byte % 16))?;
    Ok(())
}

// The byte is printable ASCII, and neither blank nor backslash.
fn is_plain(byte: u8) -> bool
    ensures { result ≡ is_plain byte }
{
    byte >= 33 && byte <= 126 && byte != b'\\'
}

// The hexadecimal digit of a number below 16.
fn digit_of_number(number: u8) -> char
    requires { number < 16 }
    ensures digit { result ≡ digit_char number }
    ensures ascii { result < 128 }
{
    char::from(if number < 10 {
        b'0' + number
    } else {
        b'a' + (number - 10)
    })
}

/// What is spelled is read back: the word that spells some bytes spells these.
pub fn spelled_is_read()
    ensures { SpelledIsRead }
{}
