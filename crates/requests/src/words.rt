//! The words of a line.
ghost use Rattle.std.specs.Prelude.{◌≡◌, ◌==◌, ◌+◌, drop, IfOk, map};
ghost use Rattle.std.specs.List.{after_first, before_first, position_or_len};
ghost use Rattle.requests.specs.Requests.{id_in, id_of, number_in, of_client, words_of};

use std::alloc::{AllocError, Global};
use std::str;
use texts::number;
use units::TxnId;

/// The number of the client whose line it is, and what it asks. If the first word is no number, the client is 0, and it asks all of the line.
pub fn of_client(line: &[u8]) -> (u64, &[u8])
    ensures { (result.0, result.1.now) ≡ of_client line.now }
{
    let at = first_of(line, b' ');
    match number_in(&line[..at]) {
        Some(number) => (number, behind(line, at)),
        None => (0, line),
    }
}

// The place of the first such byte, or the length if there is none.
fn first_of(line: &[u8], mark: u8) -> usize
    ensures { result ≡ position_or_len (λ c. c == mark) line.now }
{
    let mut at = 0;
    while at < line.len() && line[at] != mark {
        at += 1;
    }
    at
}

// What follows the byte at this place.
fn behind(line: &[u8], at: usize) -> &[u8]
    ensures { result.now ≡ drop (at + 1) line.now }
{
    if at < line.len() {
        &line[at + 1..]
    } else {
        &line[line.len()..]
    }
}

// The number that a word spells, if it is one.
fn number_in(word: &[u8]) -> Option<u64>
    ensures { result ≡ number_in word.now }
{
    match str::from_utf8(word) {
        Ok(word) => number(word).ok(),
        Err(_) => None,
    }
}

// The id that a word spells, if it is one: two numbers with a dot between them.
pub fn id_of(word: &str) -> Option<TxnId>
    ensures { result ≡ id_of word.now }
{
    let (run, number) = halves(word.as_bytes());
    id_in(number_in(run), number_in(number))
}

// What stands before and behind the first dot: all of it and nothing, if there is none.
fn halves(word: &[u8]) -> (&[u8], &[u8])
    ensures before { result.0.now ≡ before_first (λ c. c == 46) word.now }
    ensures behind { result.1.now ≡ after_first (λ c. c == 46) word.now }
{
    let at = first_of(word, b'.');
    (&word[..at], behind(word, at))
}

// The id of these numbers, if it is one.
fn id_in(run: Option<u64>, number: Option<u64>) -> Option<TxnId>
    ensures { result ≡ id_in run number }
{
    TxnId::new(run?, number?)
}

/// The words of a line, which are parted by one blank: one more than it has blanks.
pub fn words_of(alloc: Global, line: &str) -> Result<Vec<&str>, AllocError>
    ensures { IfOk result (λ words. map (λ w. w.now) words.items ≡ words_of line.now) }
{
    let mut words = Vec::new(alloc);
    let mut rest = line;
    while let Some((word, behind)) = rest.split_once(' ') {
        words.push(word)?;
        rest = behind;
    }
    words.push(rest)?;
    Ok(words)
}
