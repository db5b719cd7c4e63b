//! Commands, with their words read.
ghost use Rattle.std.specs.Prelude.{◌≡◌, ◌⊎◌, List, Some, Ok, Err, IfOk, MatchResult, codes, map, option_map, true};
ghost use Rattle.clap.specs.Words.{all_of, first_value, found_of, rows_of, subcommand_rows_of};
ghost use Rattle.units.specs.declared.fault.Fault.TheVariants.{Memory};
ghost use Rattle.command_line.specs.Lines.{CommandLine, Word, are_plain, line_of};
ghost use Rattle.command_line.specs.Commands.{are_within, at_of, choose_one, command_or_refusal, form_of, given_of, key_of, log_marks, marks_for, spelled_key_of, takes, told_bytes, value_of};
ghost use Rattle.command_line.specs.Parser.{entry_of};
ghost use Rattle.command_line.specs.Views.{Answers, AnswersAs, asked_by, given_by, is_covered};

use crate::commands::{Command, Form, Source};
use crate::marks::{Marks, Words};
use crate::parsing::shards;
use clap::ArgMatches;
use clap::error::ErrorKind;
use requests::unspelled;
use std::alloc::{AllocError, Global};
use texts::{reading, stamp};
use units::{Fault, Key, Reason, Stamp, Value};

impl Words<'_> {
    /// The command that the words ask for: the first bad word counts. A key, a value or a timestamp out of its limits is refused by its name, and
    /// all else that is no command line as `command`. Other words that begin with `-` are read as `clap` does it.
    pub fn command(&self, alloc: Global) -> Result<Command<'_>, Fault>
        ensures { is_covered self.now ≡ true → AnswersAs (asked_by self.now) result }
    {
        match self.told {
            Some(text) => Ok(Command::Told { text }),
            None => read_command(alloc, self.marks, self.plain.as_slice()),
        }
    }
}

// Of words that ask for no text. `clap` tells which is which.
fn read_command<'a>(alloc: Global, marks: Marks, words: &'a [&'a str]) -> Result<Command<'a>, Fault>
    ensures { are_plain (map (λ w. w.now) words.entry.now) ≡ true
        → AnswersAs (command_or_refusal marks (line_of (map (λ w. w.now) words.entry.now))) result }
{
    match shards(alloc)?.try_get_matches_from(words) {
        Ok(matches) => found_command(alloc, marks, &matches),
        Err(error) => match error.kind() {
            ErrorKind::OutOfMemory => Err(Fault::Memory),
            _ => Err(Fault::BadRequest(Reason::Command)),
        },
    }
}

// The command that the parser found.
fn found_command<'a>(
    alloc: Global,
    marks: Marks,
    matches: &ArgMatches<'a>,
) -> Result<Command<'a>, Fault>
    ensures { (line : CommandLine) → subcommand_rows_of matches.now ≡ Some (entry_of line)
        → AnswersAs (command_or_refusal marks (Some line)) result }
{
    match matches.subcommand() {
        Some((name, given)) => taken_command(alloc, marks, name, given),
        None => Err(Fault::BadRequest(Reason::Command)),
    }
}

// The command of this name, where it takes the options.
fn taken_command<'a>(
    alloc: Global,
    marks: Marks,
    name: &str,
    given: &ArgMatches<'a>,
) -> Result<Command<'a>, Fault>
    ensures { (line : CommandLine) → (entry_of line).0 ≡ name.now
        → rows_of (found_of given.now) ≡ (entry_of line).1
        → AnswersAs (command_or_refusal marks (Some line)) result }
{
    if takes(marks, name) {
        named_command(alloc, marks, name, given)
    } else {
        Err(Fault::BadRequest(Reason::Command))
    }
}

// The command takes these options.
fn takes(marks: Marks, name: &str) -> bool
    ensures { result ≡ takes marks name.now }
{
    choose_one(marks) && are_within(marks, marks_for(name))
}

// The options that a command takes.
fn marks_for(name: &str) -> Marks
    ensures { result ≡ marks_for name.now }
{
    match name {
        "get" => Marks {
            raw: true,
            bytes: false,
            json: true,
            table: false,
        },
        "put" => Marks {
            raw: true,
            bytes: true,
            json: false,
            table: false,
        },
        "history" => of_logs(),
        "dump" => of_logs(),
        "stats" => of_logs(),
        "drive" => Marks {
            raw: false,
            bytes: false,
            json: false,
            table: true,
        },
        _ => Marks {
            raw: false,
            bytes: false,
            json: false,
            table: false,
        },
    }
}

// The options of what tells of logs.
fn of_logs() -> Marks
    ensures { result ≡ log_marks }
{
    Marks {
        raw: false,
        bytes: false,
        json: true,
        table: false,
    }
}

// Each of some options is among others.
fn are_within(marks: Marks, others: Marks) -> bool
    ensures { result ≡ are_within marks others }
{
    (!marks.raw || others.raw)
        && (!marks.bytes || others.bytes)
        && (!marks.json || others.json)
        && (!marks.table || others.table)
}

// The options choose no two forms.
fn choose_one(marks: Marks) -> bool
    ensures { result ≡ choose_one marks }
{
    !(marks.raw && (marks.bytes || marks.json))
}

// The form that the options choose.
fn form_of(marks: Marks) -> Form
    ensures { result ≡ form_of marks }
{
    if marks.raw {
        Form::Raw
    } else if marks.json {
        Form::Json
    } else {
        Form::Line
    }
}

// The command of this name, by its words.
fn named_command<'a>(
    alloc: Global,
    marks: Marks,
    name: &str,
    given: &ArgMatches<'a>,
) -> Result<Command<'a>, Fault>
    ensures { (line : CommandLine) → (entry_of line).0 ≡ name.now
        → rows_of (found_of given.now) ≡ (entry_of line).1 → Answers marks line result }
{
    match name {
        "once" => read_once(alloc, given),
        "format" => Ok(Command::Format {
            file: word(given, "file"),
        }),
        "play" => Ok(Command::Play {
            file: word(given, "file"),
        }),
        "inspect" => read_inspect(alloc, given),
        "drive" => Ok(Command::Drive {
            file: word(given, "file"),
            table: marks.table,
        }),
        "dump" => Ok(Command::Dump {
            file: word(given, "file"),
            json: marks.json,
        }),
        "history" => read_history(alloc, marks, given),
        "get" => read_get(alloc, marks, given),
        "put" => read_put(alloc, marks, given),
        "stats" => read_stats(alloc, marks, given),
        "migrate" => {
            let old = word(given, "old");
            let new = word(given, "new");
            Ok(Command::Migrate { old, new })
        }
        "compact" => {
            let old = word(given, "old");
            let new = word(given, "new");
            Ok(Command::Compact { old, new })
        }
        _ => Err(Fault::BadRequest(Reason::Command)),
    }
}

// The words of `inspect`.
fn read_inspect<'a>(alloc: Global, given: &ArgMatches<'a>) -> Result<Command<'a>, Fault>
    ensures { (line : CommandLine) → (entry_of line).0 ≡ codes "inspect"
        → rows_of (found_of given.now) ≡ (entry_of line).1
        → (marks : Marks) → Answers marks line result }
{
    let lines = word(given, "lines");
    let logs = words_of(alloc, given, "logs")?;
    Ok(Command::Inspect { lines, logs })
}

// The words of `stats`.
fn read_stats<'a>(alloc: Global, marks: Marks, given: &ArgMatches<'a>) -> Result<Command<'a>, Fault>
    ensures { (line : CommandLine) → (entry_of line).0 ≡ codes "stats"
        → rows_of (found_of given.now) ≡ (entry_of line).1 → Answers marks line result }
{
    let logs = words_of(alloc, given, "logs")?;
    Ok(Command::Stats {
        logs,
        json: marks.json,
    })
}

// The word that the argument was given, and the empty word where it was given none.
fn word<'a>(matches: &ArgMatches<'a>, id: &str) -> &'a str
    ensures { (text : Word) → first_value (found_of matches.now) id.now ≡ Some text
        → result.now ≡ text }
{
    match matches.get_str(id) {
        Some(text) => text,
        None => "",
    }
}

// The words that the argument was given, none where it was given none.
fn words_of<'a>(
    alloc: Global,
    matches: &ArgMatches<'a>,
    id: &str,
) -> Result<Vec<&'a str>, AllocError>
    ensures { (texts : List Word) → all_of id.now (rows_of (found_of matches.now)) ≡ Some texts
        → IfOk result (λ words. map (λ w. w.now) words.items ≡ texts) }
{
    match matches.get_strs(id) {
        Some(texts) => texts.to_vec(alloc),
        None => Ok(Vec::new(alloc)),
    }
}

// The words of `once`, each reading as two words.
fn read_once<'a>(alloc: Global, given: &ArgMatches<'a>) -> Result<Command<'a>, Fault>
    ensures { (line : CommandLine) → (entry_of line).0 ≡ codes "once"
        → rows_of (found_of given.now) ≡ (entry_of line).1
        → (marks : Marks) → Answers marks line result }
{
    let key = word(given, "key");
    let value = word(given, "value");
    let (e1, l1) = (word(given, "e1"), word(given, "l1"));
    let (e2, l2) = (word(given, "e2"), word(given, "l2"));
    let key = read_key(key)?;
    let value = read_value(alloc, value)?;
    let first = reading(e1, l1)?;
    let second = reading(e2, l2)?;
    Ok(Command::Once {
        key,
        value,
        first,
        second,
    })
}

// The words of `history`.
fn read_history<'a>(
    alloc: Global,
    marks: Marks,
    given: &ArgMatches<'a>,
) -> Result<Command<'a>, Fault>
    ensures { (line : CommandLine) → (entry_of line).0 ≡ codes "history"
        → rows_of (found_of given.now) ≡ (entry_of line).1 → Answers marks line result }
{
    let dir = word(given, "dir");
    let key = read_spelled_key(alloc, word(given, "key"))?;
    Ok(Command::History {
        dir,
        key,
        json: marks.json,
    })
}

// The words of `get`.
fn read_get<'a>(alloc: Global, marks: Marks, given: &ArgMatches<'a>) -> Result<Command<'a>, Fault>
    ensures { (line : CommandLine) → (entry_of line).0 ≡ codes "get"
        → rows_of (found_of given.now) ≡ (entry_of line).1 → Answers marks line result }
{
    let dir = word(given, "dir");
    let key = word(given, "key");
    let at = given.get_str("at");
    let key = read_spelled_key(alloc, key)?;
    let at = read_at(at)?;
    Ok(Command::Get {
        dir,
        key,
        at,
        form: form_of(marks),
    })
}

// The words of `put`.
fn read_put<'a>(alloc: Global, marks: Marks, given: &ArgMatches<'a>) -> Result<Command<'a>, Fault>
    ensures { (line : CommandLine) → (entry_of line).0 ≡ codes "put"
        → rows_of (found_of given.now) ≡ (entry_of line).1 → Answers marks line result }
{
    let dir = word(given, "dir");
    let key = word(given, "key");
    let value = word(given, "value");
    let key = read_spelled_key(alloc, key)?;
    let value = read_source(alloc, marks.raw, value)?;
    Ok(Command::Put { dir, key, value })
}

// Where the word of a value has it come from.
fn read_source(alloc: Global, raw: bool, word: &str) -> Result<Source, Fault>
    ensures { MatchResult result (λ s. given_of raw word.now ≡ Ok (given_by s))
        (λ f. (f ≡ Memory) ⊎ (given_of raw word.now ≡ Err f)) }
{
    if word == "-" {
        return Ok(Source::Input);
    }
    let bytes = read_bytes(alloc, raw, word)?;
    let value = Value::new(alloc, &bytes)?;
    Ok(Source::Word(value))
}

// The bytes that the word of a value tells: its own, or those that it spells.
fn read_bytes(alloc: Global, raw: bool, word: &str) -> Result<Vec<u8>, Fault>
    ensures { MatchResult result (λ bytes. told_bytes raw word.now ≡ Ok bytes.items)
        (λ f. (f ≡ Memory) ⊎ (told_bytes raw word.now ≡ Err f)) }
{
    if raw {
        Ok(word.as_bytes().to_vec(alloc)?)
    } else {
        unspelled(alloc, word)
    }
}

// A timestamp, where there is a word for it.
fn read_at(word: Option<&str>) -> Result<Option<Stamp>, Fault>
    ensures { MatchResult result
        (λ at. at_of (option_map (λ w. w.now) word.entry) ≡ Ok at)
        (λ f. at_of (option_map (λ w. w.now) word.entry) ≡ Err f) }
{
    match word {
        Some(word) => Ok(Some(stamp(word)?)),
        None => Ok(None),
    }
}

// The key that a word spells.
fn read_spelled_key(alloc: Global, word: &str) -> Result<Key, Fault>
    ensures { MatchResult result (λ k. spelled_key_of word.now ≡ Ok k)
        (λ f. (f ≡ Memory) ⊎ (spelled_key_of word.now ≡ Err f)) }
{
    let bytes = unspelled(alloc, word)?;
    Key::new(&bytes)
}

fn read_key(word: &str) -> Result<Key, Fault>
    ensures { MatchResult result (λ k. key_of word.now ≡ Ok k) (λ f. key_of word.now ≡ Err f) }
{
    Key::new(word.as_bytes())
}

fn read_value(alloc: Global, word: &str) -> Result<Value, Fault>
    ensures { MatchResult result (λ v. value_of word.now ≡ Ok v)
        (λ f. (f ≡ Memory) ⊎ (value_of word.now ≡ Err f)) }
{
    Value::new(alloc, word.as_bytes())
}
