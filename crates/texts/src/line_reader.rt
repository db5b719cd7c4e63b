//! Texts, line by line.
ghost use Rattle.std.specs.Prelude.{IfErr};
ghost use Rattle.texts.specs.Refusals.{IsNoText};

use crate::forms::{Form, Kind, Values};
use crate::words::{NO_WORD, shown};
use std::alloc::Global;
use std::str::SplitInclusive;
use units::{Fault, Line, Reason};

/// The lines of a text that are left, and the number of the last one that was taken, from 1.
#[derive(Drop)]
pub struct LineReader<'t> {
    lines: SplitInclusive<'t, char>,
    number: u64,
}

impl<'t> LineReader<'t> {
    /// Begins to read the lines of a text.
    pub fn of(text: &'t str) -> LineReader<'t> {
        LineReader {
            lines: text.split_inclusive('\n'),
            number: 0,
        }
    }

    /// Takes the words of the next line. `None` means that no line is left. A line ends in a line feed, and one space
    /// stands between two words. A last line without a line feed is refused as `BadRequest(Syntax)`, with its number.
    pub fn next(&mut self, alloc: Global) -> Result<Option<Vec<&'t str>>, Fault>
        ensures { IfErr result IsNoText }
    {
        self.number = self.number.saturating_add(1);
        let Some(line) = self.lines.next() else {
            return Ok(None);
        };
        let Some(line) = line.strip_suffix('\n') else {
            return Err(self.fault(NO_WORD));
        };
        Ok(Some(line.split(' ').collect(alloc)?))
    }

    /// Takes the word that follows a given one on the next line, if these two words are all of it.
    pub fn head(&mut self, alloc: Global, name: &str) -> Result<Option<&'t str>, Fault>
        ensures { IfErr result IsNoText }
    {
        let Some(words) = self.next(alloc)? else {
            return Ok(None);
        };
        let word = match words.as_slice() {
            [first, word] if *first == name => Some(*word),
            _ => None,
        };
        drop(words);
        Ok(word)
    }

    /// Gives the fault of the line that was taken last, from the fault of one of its words. `Memory` stays; any other
    /// becomes `BadRequest(Syntax)` with the line's number.
    pub fn fault(&self, fault: Fault) -> Fault
        ensures { IsNoText result }
    {
        match fault {
            Fault::Memory => Fault::Memory,
            _ => Fault::BadRequest(Reason::Syntax(self.number)),
        }
    }
}

/// Reads the lines of a report. `BadRequest(Syntax)` gives the number of the first line outside the grammar, from 1.
pub fn lines(alloc: Global, text: &str) -> Result<Vec<Line>, Fault>
    ensures { IfErr result IsNoText }
{
    let mut reader = LineReader::of(text);
    let mut lines = Vec::new(alloc);
    match add_lines(alloc, &mut reader, &mut lines) {
        Ok(()) => Ok(lines),
        Err(fault) => {
            drop(lines);
            Err(fault)
        }
    }
}

// Adds the lines that are left.
fn add_lines(alloc: Global, reader: &mut LineReader<'_>, lines: &mut Vec<Line>) -> Result<(), Fault>
    ensures { IfErr result IsNoText }
{
    for _ in 0..u64::MAX {
        let Some(words) = reader.next(alloc)? else {
            break;
        };
        let line = line(alloc, &words);
        drop(words);
        match line {
            Ok(line) => lines.push(line)?,
            Err(fault) => return Err(reader.fault(fault)),
        }
    }
    Ok(())
}

// What a line tells. Either a session began, or a commit was acknowledged. Or a read of a session, or a look at a
// timestamp, showed what the last word says.
#[derive(Clone, Copy)]
enum Told {
    Begin,
    Ack,
    Read,
    Look,
}

static FORMS: [Form<Told>; 4] = [
    Form {
        name: "begin",
        words: &[Kind::Txn, Kind::Number],
        is: Told::Begin,
    },
    Form {
        name: "ack",
        words: &[Kind::Txn, Kind::Stamp, Kind::Number],
        is: Told::Ack,
    },
    Form {
        name: "read",
        words: &[Kind::Txn, Kind::Key],
        is: Told::Read,
    },
    Form {
        name: "look",
        words: &[Kind::Key, Kind::Stamp],
        is: Told::Look,
    },
];

fn line(alloc: Global, words: &[&str]) -> Result<Line, Fault> {
    let mut values = Values::none();
    let (is_look, value) = match values.read_form(&FORMS, words) {
        Some((Told::Begin, [])) => return Ok(Line::Begin(values.txn, values.number)),
        Some((Told::Ack, [])) => return Ok(Line::Ack(values.txn, values.stamp, values.number)),
        Some((Told::Read, [value])) => (false, *value),
        Some((Told::Look, [value])) => (true, *value),
        _ => return Err(NO_WORD),
    };
    let value = shown(alloc, value)?;
    if is_look {
        Ok(Line::Look(values.key, values.stamp, value))
    } else {
        Ok(Line::Read(values.txn, values.key, value))
    }
}
