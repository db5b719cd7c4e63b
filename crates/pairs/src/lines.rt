//! Lines of a key and its value, as `put` of `serve` takes them.
ghost use Rattle.std.specs.Prelude.{◌≡◌, ◌⊎◌, ◌++◌, Err, IfErr, IfOk, MatchResult, Ok, OnOk, string_bytes};
ghost use Rattle.requests.specs.Requests.{Asked, put_of, put_of_words, words_of};
ghost use Rattle.pairs.specs.Lines.{LinesAreRead};
ghost use Rattle.pairs.specs.Rows.{line_of, lines_of};

use crate::{Pair, Pairs};
use counts::Past;
use requests::{Request, push_spelled, request, words_of};
use std::alloc::Global;
use std::io::{BufRead, ErrorKind};
use std::str;
use units::{Fault, Reason};

/// Writes a line for each pair: the key and the value, both spelled, with one blank between them, and a line feed.
pub fn lines_of(alloc: Global, pairs: &[Pair]) -> Result<Vec<u8>, Fault>
    ensures lines { IfOk result (λ text. text.items ≡ lines_of pairs.now) }
    ensures memory { IfErr result (λ fault. fault ≡ Fault.Memory) }
{
    let mut text = String::new(alloc);
    for pair in pairs {
        push_line(&mut text, pair)?;
    }
    Ok(text.into_bytes())
}

fn push_line(text: &mut String, pair: &Pair) -> Result<(), Fault>
    ensures line { OnOk result
        (string_bytes text.new ≡ string_bytes text.old ++ line_of pair.now) }
    ensures memory { IfErr result (λ fault. fault ≡ Fault.Memory) }
{
    push_spelled(text, pair.key.as_bytes())?;
    text.push(' ')?;
    push_spelled(text, pair.value.as_bytes())?;
    text.push('\n')?;
    Ok(())
}

/// Reads the key and the value that a line without its end tells: what stands after `put` in a line of `serve`. It is refused as that is.
pub fn pair_in(alloc: Global, line: &str) -> Result<Pair, Fault>
    ensures { MatchResult result
        (λ pair. put_of (words_of line.now) ≡ Ok (Asked.put pair.key pair.value))
        (λ fault. (fault ≡ Fault.Memory) ⊎ (put_of (words_of line.now) ≡ Err fault)) }
{
    let words = words_of(alloc, line)?;
    match words.as_slice() {
        [key, value] => put_of(alloc, *key, *value),
        _ => Err(Fault::BadRequest(Reason::Command)),
    }
}

fn put_of(alloc: Global, key: &str, value: &str) -> Result<Pair, Fault>
    ensures { MatchResult result
        (λ pair. put_of_words key.now value.now ≡ Ok (Asked.put pair.key pair.value))
        (λ fault. (fault ≡ Fault.Memory) ⊎ (put_of_words key.now value.now ≡ Err fault)) }
{
    match request(alloc, &["put", key, value]) {
        Ok(asked) => match asked {
            Request::Put(key, value) => Ok(Pair { key, value }),
            _ => Err(Fault::BadRequest(Reason::Command)),
        },
        Err(fault) => Err(fault),
    }
}

/// Lines of keys and values from a stream. Each ends in a line feed, also the last.
#[derive(Drop)]
pub struct Lines<I: BufRead + Drop> {
    stream: I,
    line: Vec<u8>,
    number: u64,
    given: Past<Pair>,
}

impl<I: BufRead + Drop> Lines<I> {
    /// Begins to read the lines of a stream.
    pub fn of(alloc: Global, stream: I) -> Lines<I> {
        Lines {
            stream,
            line: Vec::new(alloc),
            number: 0,
            given: Past::none(),
        }
    }
}

impl<I: BufRead + Drop> Pairs for Lines<I> {
    ghost use Rattle.std.specs.Prelude.{reverse};

    ghost given = { λ lines. reverse lines.given.entries };

    fn next(&mut self, alloc: Global) -> Result<Option<Pair>, Fault> {
        let number = self.number.saturating_add(1);
        self.line.clear();
        match self.stream.read_until(b'\n', &mut self.line) {
            Ok(0) => return Ok(None),
            Ok(_) => {}
            Err(error) if error.kind() == ErrorKind::OutOfMemory => return Err(Fault::Memory),
            Err(_) => return Err(Fault::Device),
        }
        match in_line(alloc, &self.line) {
            Ok(pair) => {
                self.number = number;
                self.given.add(&pair);
                Ok(Some(pair))
            }
            Err(Fault::Memory) => Err(Fault::Memory),
            Err(_) => Err(Fault::BadRequest(Reason::Syntax(number))),
        }
    }

    fn line(&self) -> u64 {
        self.number
    }
}

// The pair of a line with its end.
fn in_line(alloc: Global, line: &[u8]) -> Result<Pair, Fault> {
    let Some(line) = line.strip_suffix(b"\n".as_slice()) else {
        return Err(Fault::BadRequest(Reason::Command));
    };
    match str::from_utf8(line) {
        Ok(line) => pair_in(alloc, line),
        Err(_) => Err(Fault::BadRequest(Reason::Command)),
    }
}

/// What is exported is read back: the line of a key and a value within their limits tells these.
pub fn lines_are_read()
    ensures { LinesAreRead }
{}
