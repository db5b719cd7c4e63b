//! Options, and the words beside them.
ghost use Rattle.std.specs.Prelude.{◌≡◌, ◌||◌, IfOk, codes, map, not, option_map};
ghost use Rattle.std.specs.Str.{bytes_eq};
ghost use Rattle.command_line.specs.Help.{begins_with, asks_help, told_of, topic_of};
ghost use Rattle.command_line.specs.Lines.{has_mark, is_mark, unmarked};
ghost use Rattle.command_line.specs.Commands.{are_covered, command_of};
ghost use Rattle.command_line.specs.Views.{asked_by, is_covered};

use crate::usage::{VERSION, paragraph};
use std::alloc::{AllocError, Global};

/// Which options are there.
#[derive(Clone, Copy, PartialEq, Eq)]
pub struct Marks {
    /// `--raw`: a value is its bytes as they are.
    pub raw: bool,
    /// `--bytes`: a value is spelled, as without an option.
    pub bytes: bool,
    /// `--json`: what is told is JSON.
    pub json: bool,
    /// `--table`: a drive tells its table.
    pub table: bool,
}

/// The words of a command line, read as far as they tell of themselves. That is what is to be told, if they ask for help or for the version, the
/// options before any `--`, and the other words.
#[derive(Drop)]
pub struct Words<'a> {
    pub(crate) told: Option<&'static str>,
    pub(crate) marks: Marks,
    pub(crate) plain: Vec<&'a str>,
}

impl<'a> Words<'a> {
    /// The words of a command line.
    pub fn new(alloc: Global, words: &[&'a str]) -> Result<Words<'a>, AllocError>
        ensures asks { IfOk result (λ read. asked_by read
            ≡ command_of (map (λ w. w.now) words.now)) }
        ensures covered { IfOk result (λ read. is_covered read
            ≡ are_covered (map (λ w. w.now) words.now)) }
    {
        Ok(Words {
            told: told(words),
            marks: Marks {
                raw: has_mark(words, "--raw"),
                bytes: has_mark(words, "--bytes"),
                json: has_mark(words, "--json"),
                table: has_mark(words, "--table"),
            },
            plain: unmarked(alloc, words)?,
        })
    }
}

// What is printed to whoever asks for help or for the version.
fn told(words: &[&str]) -> Option<&'static str>
    ensures { option_map (λ text. text.now) result ≡ told_of (map (λ w. w.now) words.now) }
{
    if begins_with(words, "help") || asks_help(words) {
        Some(paragraph(topic_of(words)))
    } else if begins_with(words, "--version") || begins_with(words, "version") {
        Some(VERSION)
    } else {
        None
    }
}

// The first word is this one.
fn begins_with(words: &[&str], text: &str) -> bool
    ensures { result ≡ begins_with text.now (map (λ w. w.now) words.now) }
{
    match words {
        [] => false,
        [word, ..] => *word == text,
    }
}

// The first word, and the second one where the first asks for help.
fn topic_of<'a>(words: &[&'a str]) -> &'a str
    ensures { result.now ≡ topic_of (map (λ w. w.now) words.now) }
{
    match words {
        [] => "",
        [word] => *word,
        [word, next, ..] => {
            if *word == "help" || *word == "-h" || *word == "--help" {
                *next
            } else {
                *word
            }
        }
    }
}

// One of the words, before any `--`, is `-h` or `--help`.
fn asks_help(words: &[&str]) -> bool
    ensures { result ≡ asks_help (map (λ w. w.now) words.now) }
{
    has_mark(words, "-h") || has_mark(words, "--help")
}

// One of the words, before any `--`, is this option.
fn has_mark(words: &[&str], mark: &str) -> bool
    ensures { result ≡ has_mark mark.now (map (λ w. w.now) words.now) }
{
    for word in words {
        if *word == "--" {
            return false;
        }
        if *word == mark {
            return true;
        }
    }
    false
}

fn is_mark(word: &str) -> bool
    ensures { result ≡ is_mark word.now }
{
    word == "--raw" || word == "--bytes" || word == "--json" || word == "--table"
}

// The words without the options before any `--`.
fn unmarked<'a>(alloc: Global, words: &[&'a str]) -> Result<Vec<&'a str>, AllocError>
    ensures { IfOk result (λ plain. map (λ w. w.now) plain.items
        ≡ unmarked (map (λ w. w.now) words.now)) }
{
    let mut plain = Vec::new(alloc);
    let mut ended = false;
    for word in words {
        ended = has_ended(ended, *word);
        if is_kept(ended, *word) {
            plain.push(*word)?;
        }
    }
    Ok(plain)
}

// No option is read any more.
fn has_ended(ended: bool, word: &str) -> bool
    ensures { result ≡ (ended || bytes_eq word.now (codes "--")) }
{
    ended || word == "--"
}

// The word is no option that is read.
fn is_kept(ended: bool, word: &str) -> bool
    ensures { result ≡ (ended || not (is_mark word.now)) }
{
    ended || !is_mark(word)
}
