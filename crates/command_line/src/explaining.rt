//! What is wrong with words that are refused, and how their command is called.
use crate::marks::Words;
use crate::usage::{PAGE, paragraph};
use requests::unspelled;
use std::alloc::{AllocError, Global};
use texts::stamp;
use units::{Fault, Key, Reason};

/// How many logs a command takes.
const MOST_LOGS: usize = 16;

/// How many splits a store takes.
const MOST_SPLITS: usize = 15;

// Options with values, which are read before: no other word stands in their place.
const OPTIONS: &str = "[OPTION..]";

const SPLITS: &str = "[SPLIT..]";

/// Why words were refused for this fault, as one line: what is missing, wrong or too much. A second line tells how the command is called.
/// Words of `serve` and `renew` are given without their options and numbers.
pub fn explanation(alloc: Global, words: &[&str], fault: Fault) -> Result<String, AllocError> {
    let read = Words::new(alloc, words)?;
    let text = match read.plain.as_slice() {
        [] => told_of_page(alloc, "a command is missing"),
        [name, rest @ ..] => match synopsis(*name) {
            Some(synopsis) => told_of(alloc, synopsis, words, rest, fault),
            None => {
                let what = format!(in alloc; "'{name}' is no command")?;
                told_of_page(alloc, &what)
            }
        },
    };
    drop(read);
    text
}

// How a command is called: the first line of what is told of it.
fn synopsis(name: &str) -> Option<&'static str> {
    let text = paragraph(name);
    if text == PAGE {
        None
    } else {
        text.lines().next()
    }
}

fn told_of_page(alloc: Global, what: &str) -> Result<String, AllocError> {
    format!(in alloc;
        "--> {what}\nusage: shards COMMAND WORD..; 'shards --help' lists the commands"
    )
}

fn told_of(
    alloc: Global,
    synopsis: &str,
    words: &[&str],
    rest: &[&str],
    fault: Fault,
) -> Result<String, AllocError> {
    let given = given(alloc, rest)?;
    let what = match wrong_option(synopsis, words) {
        Some(option) => format!(in alloc; "'{option}' is no option of this command"),
        None => match excluded(words) {
            Some(option) => format!(in alloc; "'--raw' and '{option}' exclude each other"),
            None => {
                let spelling = Spelling::of(synopsis, words);
                wrong_word(alloc, synopsis, &given, spelling, fault)
            }
        },
    };
    drop(given);
    let what = what?;
    format!(in alloc; "--> {what}\nusage: shards {synopsis}")
}

// The words of the command, without the first `--`.
fn given<'a>(alloc: Global, rest: &[&'a str]) -> Result<Vec<&'a str>, AllocError> {
    let mut given = Vec::new(alloc);
    let mut ended = false;
    for word in rest {
        if !ended && *word == "--" {
            ended = true;
        } else {
            given.push(*word)?;
        }
    }
    Ok(given)
}

// The first word before any `--` that begins as an option does and is none of the command's.
fn wrong_option<'a>(synopsis: &str, words: &[&'a str]) -> Option<&'a str> {
    for word in words {
        if *word == "--" {
            return None;
        }
        if word.len() > 1 && word.starts_with('-') && !takes(synopsis, *word) {
            return Some(*word);
        }
    }
    None
}

// An option, before any `--`, that does not go with `--raw`, if that is there.
fn excluded<'a>(words: &[&'a str]) -> Option<&'a str> {
    if !has_raw(words) {
        return None;
    }
    for word in words {
        match *word {
            "--" => return None,
            "--json" | "--bytes" => return Some(*word),
            _ => {}
        }
    }
    None
}

// Which words of a command are spelled.
#[derive(Clone, Copy)]
struct Spelling {
    key: bool,
    value: bool,
}

impl Spelling {
    fn of(synopsis: &str, words: &[&str]) -> Spelling {
        let key = !synopsis.starts_with("once");
        Spelling {
            key,
            value: key && !has_raw(words),
        }
    }

    // The word at this place is spelled.
    fn has(self, place: &str) -> bool {
        match place {
            "KEY" => self.key,
            "VALUE" => self.value,
            _ => false,
        }
    }
}

// `--raw` stands before any `--`.
fn has_raw(words: &[&str]) -> bool {
    for word in words {
        match *word {
            "--" => return false,
            "--raw" => return true,
            _ => {}
        }
    }
    false
}

// The option stands in the synopsis, between brackets.
fn takes(synopsis: &str, option: &str) -> bool {
    for place in synopsis.split(' ') {
        if bare(place) == option {
            return true;
        }
    }
    false
}

// A word of a synopsis without its brackets and dots.
fn bare(place: &str) -> &str {
    let place = place.strip_prefix('[').unwrap_or(place);
    let place = place.strip_suffix(']').unwrap_or(place);
    place.strip_suffix("..").unwrap_or(place)
}

// The first word that is missing, wrong or too much.
fn wrong_word(
    alloc: Global,
    synopsis: &str,
    given: &[&str],
    spelling: Spelling,
    fault: Fault,
) -> Result<String, AllocError> {
    let mut left = given;
    for place in synopsis.split(' ').skip(1) {
        if place.starts_with("[-") || place == OPTIONS {
            continue;
        }
        if place == SPLITS {
            return match wrong_split(alloc, left, fault)? {
                Some(what) => Ok(what),
                None => format!(in alloc; "these words are no command line"),
            };
        }
        if place.ends_with("..") && !left.is_empty() {
            return format!(in alloc; "there are more than {MOST_LOGS} of {}", bare(place));
        }
        let [word, others @ ..] = left else {
            if place.starts_with('[') {
                break;
            }
            return format!(in alloc; "{} is missing", bare(place));
        };
        let place = bare(place);
        if let Some(what) = wrong_in(alloc, place, *word, spelling.has(place), fault)? {
            return Ok(what);
        }
        left = others;
    }
    match left {
        [word, ..] => format!(in alloc; "'{word}' is one word too many"),
        [] if fault == Fault::BadRequest(Reason::Stamp) => {
            format!(in alloc; "the first time of a reading is above its second")
        }
        [] => format!(in alloc; "these words are no command line"),
    }
}

// What is wrong with the splits of a store, if the fault is one of theirs.
fn wrong_split(alloc: Global, splits: &[&str], fault: Fault) -> Result<Option<String>, AllocError> {
    if splits.len() > MOST_SPLITS {
        return Ok(Some(format!(in alloc; "there are more than {MOST_SPLITS} of SPLIT")?));
    }
    for word in splits {
        if let Some(what) = wrong_in(alloc, "SPLIT", *word, true, fault)? {
            return Ok(Some(what));
        }
    }
    match unordered(alloc, splits) {
        Some(word) => Ok(Some(format!(in alloc; "'{word}' is not above the SPLIT before it")?)),
        None => Ok(None),
    }
}

// The first split that is not above the one before it.
fn unordered<'a>(alloc: Global, splits: &[&'a str]) -> Option<&'a str> {
    let mut last: Option<Key> = None;
    for word in splits {
        let bytes = unspelled(alloc, word).ok()?;
        let key = Key::new(&bytes).ok()?;
        drop(bytes);
        if last.is_some_and(|before| key <= before) {
            return Some(*word);
        }
        last = Some(key);
    }
    None
}

// How many bytes a word tells: its own, or those that it spells, if it spells any.
fn told_len(alloc: Global, word: &str, is_spelled: bool) -> Option<usize> {
    if !is_spelled {
        return Some(word.len());
    }
    match unspelled(alloc, word) {
        Ok(bytes) => Some(bytes.len()),
        Err(Fault::Memory) => Some(word.len()),
        Err(_) => None,
    }
}

// What is wrong with the word at a place, if the fault is one of that place.
fn wrong_in(
    alloc: Global,
    place: &str,
    word: &str,
    is_spelled: bool,
    fault: Fault,
) -> Result<Option<String>, AllocError> {
    let Some(bytes) = told_len(alloc, word, is_spelled) else {
        return Ok(Some(format!(in alloc;
            "{place} has a backslash that spells no byte: write '\\x5c' for a backslash"
        )?));
    };
    match (place, fault) {
        ("KEY" | "SPLIT", Fault::BadRequest(Reason::Key)) if bytes == 0 || bytes > 64 => {
            Ok(Some(format!(in alloc; "{place} has 1 to 64 bytes, and not {bytes}")?))
        }
        ("VALUE", Fault::BadRequest(Reason::Value)) => Ok(Some(format!(in alloc;
            "VALUE has at most 4096 bytes, and not {bytes}"
        )?)),
        ("AT" | "E1" | "L1" | "E2" | "L2", _) => match stamp(word) {
            Ok(_) => Ok(None),
            Err(Fault::BadRequest(Reason::Stamp)) => Ok(Some(format!(in alloc;
                "{place} is a number of microseconds below 2^62, and not {word}"
            )?)),
            Err(_) => Ok(Some(format!(in alloc;
                "{place} is a whole number of microseconds, and not '{word}'"
            )?)),
        },
        _ => Ok(None),
    }
}
