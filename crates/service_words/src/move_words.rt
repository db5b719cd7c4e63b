//! What the words of `export`, `import`, `backup` and `renew` ask for.
use crate::options::KEEP;
use crate::words::{Asked, chosen, with_option};
use clap::{Arg, ArgAction, ArgMatches, Command};
use command_line::paragraph;
use std::alloc::{AllocError, Global};
use texts::stamp;
use units::{Fault, Reason, Stamp};

const NO_COMMAND: Fault = Fault::BadRequest(Reason::Command);

// The option for comma-separated values.
const CSV: &str = "--csv";

/// Adds the four commands to those that a parser knows.
pub fn with_moving<'a>(alloc: Global, parser: Command<'a>) -> Result<Command<'a>, AllocError> {
    parser
        .subcommand(
            Command::new(alloc, "export")
                .arg(Arg::new(alloc, "dir").required(true))?
                .arg(Arg::new(alloc, "at"))?
                .arg(csv(alloc))?,
        )?
        .subcommand(
            Command::new(alloc, "import")
                .arg(Arg::new(alloc, "dir").required(true))?
                .arg(csv(alloc))?,
        )?
        .subcommand(
            Command::new(alloc, "backup")
                .arg(Arg::new(alloc, "dir").required(true))?
                .arg(Arg::new(alloc, "to").required(true))?,
        )?
        .subcommand(renewing(alloc)?)
}

fn renewing<'a>(alloc: Global) -> Result<Command<'a>, AllocError> {
    let command = Command::new(alloc, "renew").arg(Arg::new(alloc, "dir").required(true))?;
    with_option(alloc, command, KEEP.name)
}

fn csv<'a>(alloc: Global) -> Arg<'a> {
    Arg::new(alloc, "csv")
        .long("csv")
        .action(ArgAction::SetTrue)
}

/// What words of `export` ask for.
pub fn export<'a>(given: &ArgMatches<'a>) -> Result<Asked<'a>, Fault> {
    let dir = word(given, "dir")?;
    let at = at_of(given)?;
    let csv = given.get_flag("csv");
    Ok(Asked::Export { dir, at, csv })
}

fn at_of(given: &ArgMatches<'_>) -> Result<Option<Stamp>, Fault> {
    match given.get_str("at") {
        Some(word) => Ok(Some(stamp(word)?)),
        None => Ok(None),
    }
}

/// What words of `import` ask for.
pub fn import<'a>(given: &ArgMatches<'a>) -> Result<Asked<'a>, Fault> {
    let dir = word(given, "dir")?;
    let csv = given.get_flag("csv");
    Ok(Asked::Import { dir, csv })
}

/// What words of `backup` ask for.
pub fn backup<'a>(given: &ArgMatches<'a>) -> Result<Asked<'a>, Fault> {
    let dir = word(given, "dir")?;
    let to = word(given, "to")?;
    Ok(Asked::Backup { dir, to })
}

/// What words of `renew` ask for.
pub fn renew<'a>(given: &ArgMatches<'a>) -> Result<Asked<'a>, Fault> {
    let dir = word(given, "dir")?;
    let keep = chosen(given, &KEEP)?;
    Ok(Asked::Renew { dir, keep })
}

fn word<'a>(given: &ArgMatches<'a>, id: &str) -> Result<&'a str, Fault> {
    given.get_str(id).ok_or(NO_COMMAND)
}

/// Why words of `export` or `import` were refused for this fault, and how the command is called.
pub fn explanation_of_text(
    alloc: Global,
    words: &[&str],
    fault: Fault,
) -> Result<String, AllocError> {
    let mut plain = Vec::new(alloc);
    let mut ended = false;
    let mut times = 0_u32;
    for word in words {
        ended = ended || *word == "--";
        if !ended && *word == CSV {
            times = times.saturating_add(1);
        } else {
            plain.push(*word)?;
        }
    }
    let text = match words {
        [name, ..] if times > 1 => {
            let synopsis = paragraph(*name).lines().next().unwrap_or(*name);
            format!(in alloc; "--> '{CSV}' stands twice\nusage: shards {synopsis}")
        }
        _ => command_line::explanation(alloc, plain.as_slice(), fault),
    };
    drop(plain);
    text
}
