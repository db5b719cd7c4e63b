//! The place in which the fault of a command lies, for whoever looks.
use crate::stats_command::logs_in;
use crate::store_folder::splits_of;
use command_line::{Command, Words, explanation};
use script::schedule;
use settings::{Settings, Unread};
use showing::{dump_file, inspect_files, stats_files};
use std::alloc::Global;
use system::{Files, read_text};
use units::{Fault, Key, Reason, Splits};

// What is said of a name under which there is nothing.
const NO_FILE: &str = "no such file";

/// Tells where the fault of a command over files lies: `--> FILE`, or `--> FILE:LINE` if it is one of a line or an event. Of settings it is also what
/// is wrong with them. Of words it is what is wrong with these, and how their command is called. There is none of want of memory, or if nobody can
/// say. The files are looked at once more, so what has changed meanwhile is told as it is then.
pub fn place_of<F: Files>(
    alloc: Global,
    files: &F,
    words: &[&str],
    fault: Fault,
) -> Option<String> {
    if fault == Fault::Memory {
        return None;
    }
    let read = Words::new(alloc, words).ok()?;
    let place = match read.command(alloc) {
        Ok(asked) => {
            let place = place_for(alloc, files, &asked, fault);
            drop(asked);
            place
        }
        Err(_) => explanation(alloc, words, fault).ok(),
    };
    drop(read);
    place
}

fn place_for<F: Files>(
    alloc: Global,
    files: &F,
    asked: &Command<'_>,
    fault: Fault,
) -> Option<String> {
    match asked {
        Command::Told { .. } | Command::Once { .. } => None,
        Command::Format { file } => at_new(alloc, files, file),
        Command::Dump { file, .. } => at(alloc, files, file),
        Command::Play { file } => in_schedule(alloc, files, file, fault),
        Command::Inspect { lines, logs } => in_inspected(alloc, files, lines, logs, fault),
        Command::Drive { file, .. } => in_settings(alloc, files, file, fault),
        Command::History { dir, key, .. } | Command::Get { dir, key, .. } => {
            in_log_of(alloc, files, dir, key)
        }
        Command::Put { dir, .. } => in_write(alloc, files, dir, fault),
        Command::Stats { logs, .. } => in_counted(alloc, files, logs, fault),
        Command::Migrate { old, new } | Command::Compact { old, new } => {
            in_copied(alloc, files, old, new, fault)
        }
    }
}

// At a file, and what is wrong with it, if that is known.
fn at<F: Files>(alloc: Global, files: &F, file: &str) -> Option<String> {
    with_why(alloc, file, files.why(alloc, file))
}

// At a file that was to be made.
fn at_new<F: Files>(alloc: Global, files: &F, file: &str) -> Option<String> {
    with_why(alloc, file, files.why_unmade(alloc))
}

fn with_why(alloc: Global, file: &str, why: Option<String>) -> Option<String> {
    match why {
        Some(why) => format!(in alloc; "--> {file}: {why}").ok(),
        None => format!(in alloc; "--> {file}").ok(),
    }
}

/// In the store in a folder: why it was refused, or what of it has failed; else why it is refused now. `None` if nobody can say.
pub fn in_refused<F: Files>(
    alloc: Global,
    files: &F,
    dir: &str,
    splits: &Splits,
) -> Option<String> {
    let told = files.why_unopened(alloc, dir, splits)?;
    format!(in alloc; "--> {told}").ok()
}

fn at_line(alloc: Global, file: &str, line: u64) -> Option<String> {
    format!(in alloc; "--> {file}:{line}").ok()
}

// In the value of a write, or in its store.
fn in_write<F: Files>(alloc: Global, files: &F, dir: &str, fault: Fault) -> Option<String> {
    match fault {
        Fault::BadRequest(Reason::Value) => {
            format!(in alloc; "--> VALUE has at most 4096 bytes").ok()
        }
        _ => in_store(alloc, files, dir),
    }
}

// In a schedule an event is a line, behind those of the shards, the splits and the stride.
fn in_schedule<F: Files>(alloc: Global, files: &F, file: &str, fault: Fault) -> Option<String> {
    match fault {
        Fault::BadRequest(Reason::Syntax(line)) => at_line(alloc, file, line),
        Fault::BadRequest(Reason::Unlawful(event)) => {
            let first = first_event(alloc, files, file)?;
            at_line(alloc, file, first.saturating_add(event))
        }
        _ => at(alloc, files, file),
    }
}

// The line of the first event.
fn first_event<F: Files>(alloc: Global, files: &F, file: &str) -> Option<u64> {
    let text = read_text(alloc, files, file, Reason::Syntax(1)).ok()?;
    let (config, events) = schedule(alloc, &text).ok()?;
    drop(events);
    Some((config.splits.as_slice().len() as u64).saturating_add(3))
}

// In the lines, or in the first log with which the first ones are refused like that.
fn in_inspected<F: Files>(
    alloc: Global,
    files: &F,
    lines: &str,
    logs: &[&str],
    fault: Fault,
) -> Option<String> {
    if let Fault::BadRequest(Reason::Syntax(line)) = fault {
        return at_line(alloc, lines, line);
    }
    if read_text(alloc, files, lines, Reason::Syntax(1)).is_err() {
        return at(alloc, files, lines);
    }
    for last in 0..logs.len() {
        if inspect_files(alloc, files, lines, &logs[..last + 1]).err() == Some(fault) {
            return at(alloc, files, logs[last]);
        }
    }
    None
}

// In the first of some logs that is refused like that, or of those in a folder.
fn in_counted<F: Files>(alloc: Global, files: &F, logs: &[&str], fault: Fault) -> Option<String> {
    let [folder] = logs else {
        return in_logs(alloc, files, logs, fault);
    };
    match logs_in(alloc, folder, files) {
        Ok(Some(names)) => in_named(alloc, files, &names, fault),
        Ok(None) if has_manifest(alloc, files, folder) => in_manifest(alloc, files, folder),
        Ok(None) => in_logs(alloc, files, logs, fault),
        Err(_) => in_manifest(alloc, files, folder),
    }
}

// Whether a folder has a manifest that cannot be read.
fn has_manifest<F: Files>(alloc: Global, files: &F, folder: &str) -> bool {
    let Ok(manifest) = format!(in alloc; "{folder}/store.toml") else {
        return false;
    };
    let why = files.why(alloc, &manifest);
    drop(manifest);
    match why {
        Some(why) => why.as_str() != NO_FILE,
        None => false,
    }
}

fn in_named<F: Files>(alloc: Global, files: &F, names: &[String], fault: Fault) -> Option<String> {
    let mut logs = Vec::new(alloc);
    for name in names {
        logs.push(name.as_str()).ok()?;
    }
    in_logs(alloc, files, &logs, fault)
}

// In the first log that is refused like that.
fn in_logs<F: Files>(alloc: Global, files: &F, logs: &[&str], fault: Fault) -> Option<String> {
    for log in logs {
        if stats_files(alloc, files, &[*log]).err() == Some(fault) {
            return at(alloc, files, log);
        }
    }
    None
}

// In the old file, unless the system refuses something and the old file can be read.
fn in_copied<F: Files>(
    alloc: Global,
    files: &F,
    old: &str,
    new: &str,
    fault: Fault,
) -> Option<String> {
    if fault == Fault::Device && files.open(alloc, old).is_ok() {
        at_new(alloc, files, new)
    } else {
        at(alloc, files, old)
    }
}

// In the settings, or in the folder that they name.
fn in_settings<F: Files>(alloc: Global, files: &F, file: &str, fault: Fault) -> Option<String> {
    let Ok(text) = read_text(alloc, files, file, Reason::Settings) else {
        return at(alloc, files, file);
    };
    match Settings::read_or_tell(alloc, &text) {
        Ok(settings) => {
            let place = match &settings.dir {
                Some(dir) => in_folder(alloc, files, dir, &settings.splits, fault),
                None => None,
            };
            drop(settings);
            place
        }
        Err(Unread::Wrong(wrong)) => {
            let told = wrong.told(alloc, &text).ok()?;
            format!(in alloc; "--> {file}:{told}").ok()
        }
        Err(Unread::Memory) => None,
    }
}

// In the manifest, if the settings tell of another store; in the first log that is refused like that; or somewhere in the folder.
fn in_folder<F: Files>(
    alloc: Global,
    files: &F,
    dir: &str,
    splits: &Splits,
    fault: Fault,
) -> Option<String> {
    if let Some(place) = in_refused(alloc, files, dir, splits) {
        return Some(place);
    }
    match fault {
        Fault::BadRequest(_) => return in_manifest(alloc, files, dir),
        Fault::Device => return plain_at(alloc, dir),
        _ => {}
    }
    for shard in 0..splits.as_slice().len() + 1 {
        let log = format!(in alloc; "{dir}/shard-{shard}.log").ok()?;
        if dump_file(alloc, files, &log).err() == Some(fault) {
            return at(alloc, files, &log);
        }
    }
    plain_at(alloc, dir)
}

fn plain_at(alloc: Global, file: &str) -> Option<String> {
    with_why(alloc, file, None)
}

fn in_manifest<F: Files>(alloc: Global, files: &F, dir: &str) -> Option<String> {
    let manifest = format!(in alloc; "{dir}/store.toml").ok()?;
    at(alloc, files, &manifest)
}

// In the manifest of a store, or in the log of the shard of a key.
fn in_log_of<F: Files>(alloc: Global, files: &F, dir: &str, key: &Key) -> Option<String> {
    match splits_of(alloc, files, dir) {
        Ok(splits) => {
            let shard = splits.shard_of(key);
            drop(splits);
            let log = format!(in alloc; "{dir}/shard-{shard}.log").ok()?;
            at(alloc, files, &log)
        }
        Err(_) => in_manifest(alloc, files, dir),
    }
}

// In the manifest of a store, or somewhere in its folder.
fn in_store<F: Files>(alloc: Global, files: &F, dir: &str) -> Option<String> {
    match splits_of(alloc, files, dir) {
        Ok(splits) => {
            let place = in_refused(alloc, files, dir, &splits);
            drop(splits);
            match place {
                Some(place) => Some(place),
                None => plain_at(alloc, dir),
            }
        }
        Err(_) => in_manifest(alloc, files, dir),
    }
}
