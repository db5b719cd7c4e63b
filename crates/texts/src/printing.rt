//! How each thing of schedules and reports is printed.
use crate::printed::{Word, address_words, line_words, message_words, record_words};
use crate::words::is_letter;
use message::Envelope;
use record::Record;
use std::fmt;
use units::{Key, Keys, Line, Parts, Stamp, Value, Writes};

/// A thing, to be printed. A byte of a key or a value that no word of a schedule may have is printed as `\xHH`, in
/// two hexadecimal digits.
#[derive(Drop)]
pub struct Text<'t, T>(pub &'t T);

// Writes a mark, and after it each byte: itself, if a word of a schedule may have it, or `\xHH`.
fn write_bytes<W: fmt::Write>(f: &mut fmt::Formatter<W>, mark: &str, bytes: &[u8]) -> fmt::Result {
    f.write_str(mark)?;
    for byte in bytes {
        if is_letter(*byte) {
            f.write_char(char::from(*byte))?;
        } else {
            write!(f, "\\x{byte:02x}")?;
        }
    }
    Ok(())
}

impl fmt::Display for Text<'_, Option<Value>> {
    fn fmt<W: fmt::Write>(&self, f: &mut fmt::Formatter<W>) -> fmt::Result {
        write_value(f, self.0, "none")
    }
}

// Writes a value, or this text if there is none.
fn write_value<W: fmt::Write>(
    f: &mut fmt::Formatter<W>,
    value: &Option<Value>,
    none: &str,
) -> fmt::Result {
    match value {
        Some(value) => write_bytes(f, "=", value.as_bytes()),
        None => f.write_str(none),
    }
}

impl fmt::Display for Text<'_, Keys> {
    fn fmt<W: fmt::Write>(&self, f: &mut fmt::Formatter<W>) -> fmt::Result {
        let mut mark = "";
        for key in self.0.as_slice() {
            write_bytes(f, mark, key.as_bytes())?;
            mark = ",";
        }
        write_none(f, mark)
    }
}

// Writes what stands for a list of which nothing was written.
fn write_none<W: fmt::Write>(f: &mut fmt::Formatter<W>, mark: &str) -> fmt::Result {
    f.write_str(if mark.is_empty() { "-" } else { "" })
}

// Writes the writes, with commas between them.
fn write_writes<W: fmt::Write>(f: &mut fmt::Formatter<W>, writes: &Writes) -> fmt::Result {
    let mut mark = "";
    for write in writes.as_slice() {
        write_one(f, mark, &write.key, &write.value)?;
        mark = ",";
    }
    write_none(f, mark)
}

// Writes a mark, and after it a key with its value, or its erasure.
fn write_one<W: fmt::Write>(
    f: &mut fmt::Formatter<W>,
    mark: &str,
    key: &Key,
    value: &Option<Value>,
) -> fmt::Result {
    write_bytes(f, mark, key.as_bytes())?;
    write_value(f, value, "!")
}

// Writes the numbers of the shards, with commas between them.
fn write_parts<W: fmt::Write>(f: &mut fmt::Formatter<W>, parts: &Parts) -> fmt::Result {
    let mut rest = parts.mask();
    let mut mark = "";
    for number in 0..16u16 {
        if rest % 2 == 1 {
            write!(f, "{mark}{number}")?;
            mark = ",";
        }
        rest /= 2;
    }
    Ok(())
}

// Writes how a transaction ended: at a timestamp, or aborted.
fn write_outcome<W: fmt::Write>(f: &mut fmt::Formatter<W>, outcome: &Option<Stamp>) -> fmt::Result {
    match outcome {
        Some(at) => write!(f, "committed {at}"),
        None => f.write_str("aborted"),
    }
}

// Writes a line: its words up to the first that is none, with one space between them.
fn write_words<W: fmt::Write>(f: &mut fmt::Formatter<W>, words: &[Word<'_>]) -> fmt::Result {
    let mut space = "";
    for word in words {
        if let Word::Nothing = word {
            break;
        }
        f.write_str(space)?;
        write_word(f, word)?;
        space = " ";
    }
    Ok(())
}

fn write_word<W: fmt::Write>(f: &mut fmt::Formatter<W>, word: &Word<'_>) -> fmt::Result {
    match word {
        Word::Nothing => Ok(()),
        Word::Plain(text) => f.write_str(text),
        Word::Number(number) => fmt::Display::fmt(number, f),
        Word::Shard(shard) => fmt::Display::fmt(shard, f),
        Word::Txn(txn) => fmt::Display::fmt(txn, f),
        Word::Stamp(at) => fmt::Display::fmt(at, f),
        Word::Key(key) => write_bytes(f, "", key.as_bytes()),
        Word::Keys(keys) => fmt::Display::fmt(&Text(*keys), f),
        Word::Writes(writes) => write_writes(f, writes),
        Word::Version(version) => write_one(f, "", &version.key, &version.value),
        Word::Parts(parts) => write_parts(f, parts),
        Word::Value(value) => write_value(f, value, "none"),
        Word::Outcome(outcome) => write_outcome(f, outcome),
    }
}

impl fmt::Display for Text<'_, Record> {
    fn fmt<W: fmt::Write>(&self, f: &mut fmt::Formatter<W>) -> fmt::Result {
        write_words(f, &record_words(self.0))
    }
}

impl fmt::Display for Text<'_, Envelope> {
    fn fmt<W: fmt::Write>(&self, f: &mut fmt::Formatter<W>) -> fmt::Result {
        write_words(f, &address_words(self.0.to))?;
        f.write_str(" ")?;
        write_words(f, &message_words(&self.0.message))
    }
}

impl fmt::Display for Text<'_, Line> {
    fn fmt<W: fmt::Write>(&self, f: &mut fmt::Formatter<W>) -> fmt::Result {
        write_words(f, &line_words(self.0))
    }
}
