//! Words that are numbers. The first bad word counts.
ghost use Rattle.std.specs.Prelude.{◌≡◌, Ok, Err, MatchResult};
ghost use Rattle.std.specs.Char.{is_ascii_digit};
ghost use Rattle.std.specs.List.{list_all};
ghost use Rattle.texts.specs.Numbers.{interval_of, is_decimal, number_of, stamp_of};

use crate::words::NO_WORD;
use truetime::Reading;
use units::{Fault, Reason, Stamp};

/// Reads the number that a word spells in decimal digits without leading zeros. `BadRequest(Stamp)` comes if it is
/// beyond 64 bits, and `BadRequest(Command)` if the word is no number.
pub fn number(word: &str) -> Result<u64, Fault>
    ensures { result ≡ number_of word.now }
{
    if !is_decimal_word(word.as_bytes()) {
        return Err(NO_WORD);
    }
    match word.parse::<u64>() {
        Ok(number) => Ok(number),
        Err(_) => Err(Fault::BadRequest(Reason::Stamp)),
    }
}

/// Reads the timestamp that a word spells, in microseconds. Its faults are those of `number`, and `BadRequest(Stamp)`
/// above the greatest timestamp.
pub fn stamp(word: &str) -> Result<Stamp, Fault>
    ensures { result ≡ stamp_of word.now }
{
    Stamp::new(number(word)?)
}

/// Reads the interval between the timestamps of two words. `BadRequest(Stamp)` comes too if the first is above the
/// second.
pub fn reading(earliest: &str, latest: &str) -> Result<Reading, Fault>
    ensures { MatchResult result (λ now. interval_of earliest.now latest.now ≡ Ok now)
        (λ fault. interval_of earliest.now latest.now ≡ Err fault) }
{
    let earliest = stamp(earliest)?;
    let latest = stamp(latest)?;
    Reading::new(earliest, latest)
}

// Tells whether it is decimal digits without leading zeros.
fn is_decimal_word(word: &[u8]) -> bool
    ensures { result ≡ is_decimal word.now }
{
    match word {
        [] => false,
        [digit] => digit.is_ascii_digit(),
        [first, ..] => *first != b'0' && are_digits(word),
    }
}

fn are_digits(word: &[u8]) -> bool
    ensures { result ≡ list_all is_ascii_digit word.now }
{
    for byte in word {
        if !byte.is_ascii_digit() {
            return false;
        }
    }
    true
}
