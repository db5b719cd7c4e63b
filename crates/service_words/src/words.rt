//! What the words of the commands over an open store ask for.
ghost use Rattle.std.specs.Prelude.{◌≡◌, ◌≤◌, IfOk};

use crate::choices::Choices;
use crate::move_words::{backup, export, import, renew, with_moving};
use crate::options::{
    CLIENTS, EPSILON, IDLE, KEEP, Numbered, OPTIONS, PATIENCE, RENEW, RETIRE, SHRINK, STRIDE,
};
use clap::error::ErrorKind;
use clap::{Arg, ArgMatches, Command};
use requests::unspelled;
use std::alloc::{AllocError, Global};
use texts::number;
use units::{Fault, Key, Reason, Splits, Stamp, Stride};

const NO_COMMAND: Fault = Fault::BadRequest(Reason::Command);

const BEYOND: Fault = Fault::BadRequest(Reason::Settings);

/// What some words ask for.
#[derive(Drop)]
pub enum Asked<'a> {
    /// An empty store is made in a folder, whose keys part at these.
    Make {
        dir: &'a str,
        splits: Splits,
    },
    /// The store in a folder is served.
    Serve {
        dir: &'a str,
        choices: Choices,
    },
    /// The keys and values of the store in a folder are written as lines or as comma-separated values, as they are now or were at a timestamp.
    Export {
        dir: &'a str,
        at: Option<Stamp>,
        csv: bool,
    },
    /// Keys and values are put into the store in a folder, from lines or from comma-separated values.
    Import {
        dir: &'a str,
        csv: bool,
    },
    /// The store in a folder is copied into another folder.
    Backup {
        dir: &'a str,
        to: &'a str,
    },
    /// The logs of the closed store in a folder are renewed, with so many microseconds of the past, or all of it.
    Renew {
        dir: &'a str,
        keep: Option<u64>,
    },
}

// By so many bytes a log grows before it is renewed, and so far into its file it begins before it goes on in a new one: 64 MiB.
const LONG_LOG: u64 = 67_108_864;

// The parts in which a client's patience is counted, in milliseconds.
const SILENCE: u64 = 20;

/// Reads the words of a command line that begins with `make`, `serve`, `export`, `import`, `backup` or `renew`. An option out of its limits is refused
/// as `settings`, and all else that is no such line as `command`.
pub fn service_asked<'a>(alloc: Global, words: &'a [&'a str]) -> Result<Asked<'a>, Fault> {
    match parser(alloc)?.try_get_matches_from(words) {
        Ok(matches) => match matches.subcommand() {
            Some(("make", given)) => make(alloc, given),
            Some(("serve", given)) => serve(given),
            Some(("export", given)) => export(given),
            Some(("import", given)) => import(given),
            Some(("backup", given)) => backup(given),
            Some(("renew", given)) => renew(given),
            _ => Err(NO_COMMAND),
        },
        Err(error) => match error.kind() {
            ErrorKind::OutOfMemory => Err(Fault::Memory),
            _ => Err(NO_COMMAND),
        },
    }
}

fn parser<'a>(alloc: Global) -> Result<Command<'a>, AllocError> {
    let parser = Command::new(alloc, "shards")
        .no_binary_name(true)
        .disable_help_subcommand(true)
        .subcommand_required(true)
        .subcommand(making(alloc)?)?
        .subcommand(serving(alloc)?)?;
    with_moving(alloc, parser)
}

fn making<'a>(alloc: Global) -> Result<Command<'a>, AllocError> {
    Command::new(alloc, "make")
        .arg(Arg::new(alloc, "dir").required(true))?
        .arg(Arg::new(alloc, "splits").num_args(1..=15))
}

fn serving<'a>(alloc: Global) -> Result<Command<'a>, AllocError> {
    let mut command = Command::new(alloc, "serve").arg(Arg::new(alloc, "dir").required(true))?;
    for option in &OPTIONS {
        command = with_option(alloc, command, option.name)?;
    }
    Ok(command)
}

/// Adds an option of this name, which has a value.
pub fn with_option<'a>(
    alloc: Global,
    command: Command<'a>,
    name: &'a str,
) -> Result<Command<'a>, AllocError> {
    command.arg(Arg::new(alloc, name).long(name))
}

fn make<'a>(alloc: Global, given: &ArgMatches<'a>) -> Result<Asked<'a>, Fault> {
    let Some(dir) = given.get_str("dir") else {
        return Err(NO_COMMAND);
    };
    let splits = splits_of(alloc, given)?;
    Ok(Asked::Make { dir, splits })
}

fn splits_of(alloc: Global, given: &ArgMatches<'_>) -> Result<Splits, Fault> {
    let mut keys = Vec::new(alloc);
    if let Some(words) = given.get_strs("splits") {
        for word in words {
            let bytes = unspelled(alloc, word)?;
            keys.push(Key::new(&bytes)?)?;
        }
    }
    Splits::new(alloc, &keys)
}

fn serve<'a>(given: &ArgMatches<'a>) -> Result<Asked<'a>, Fault> {
    let Some(dir) = given.get_str("dir") else {
        return Err(NO_COMMAND);
    };
    let choices = Choices {
        clients: within(given, &CLIENTS, 64)?,
        epsilon: within(given, &EPSILON, 1_000)?,
        stride: stride(given)?,
        keep: chosen(given, &KEEP)?,
        renew: Some(within(given, &RENEW, LONG_LOG)?),
        shrink: Some(within(given, &SHRINK, LONG_LOG)?),
        retire: Some(within(given, &RETIRE, 10_000)?),
        patience: patience(given)?,
        idle: within(given, &IDLE, 10_000)?,
    };
    Ok(Asked::Serve { dir, choices })
}

fn stride(given: &ArgMatches<'_>) -> Result<Stride, Fault> {
    let micros = within(given, &STRIDE, 500_000)?;
    Stride::new(micros).ok_or(BEYOND)
}

// How often a client waits in silence: so often that it is as patient as asked, in milliseconds.
fn patience(given: &ArgMatches<'_>) -> Result<u32, Fault> {
    let millis = within(given, &PATIENCE, 100)?;
    Ok(((millis + SILENCE - 1) / SILENCE) as u32)
}

// The number of an option, which is within its limits; or what it is if it is not chosen.
fn within(given: &ArgMatches<'_>, option: &Numbered, else_is: u64) -> Result<u64, Fault>
    ensures { IfOk result (λ number. (option.now.least ≤ number) × (number ≤ option.now.most)) }
{
    let number = chosen(given, option)?.unwrap_or(else_is);
    if number < option.least || number > option.most {
        return Err(BEYOND);
    }
    Ok(number)
}

/// The number of an option, if it is chosen.
pub fn chosen(given: &ArgMatches<'_>, option: &Numbered) -> Result<Option<u64>, Fault> {
    match given.get_str(option.name) {
        Some(word) => Ok(Some(number(word)?)),
        None => Ok(None),
    }
}
