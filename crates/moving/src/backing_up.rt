//! A store is backed up: its logs are copied into another folder, beside whoever writes to them.
ghost use Rattle.std.specs.Prelude.{◌≡◌, ◌≤◌, IfErr, IfOk, length};

use crate::copied::{Uncopied, Whole};
use crate::moved::{NotBackedUp, Side};
use disk::Disk;
use filedisk::{Cause, FileDisk, cause_of};
use host_files::{
    Causes, Copying, HostFiles, LogFile, Name, Refused, at_one_moment, check_agreement, known_on,
    manifest_text,
};
use std::alloc::Global;
use std::fs::{self, File};
use std::io::{self, ErrorKind};
use std::path::Path;
use std::rt::Files;
use system::{Files as Texts, read_text};
use units::{Fault, Reason, ShardNo, Splits};

/// Copies the store in a folder, whose keys part at these, into another folder, which is made if it is not there. Clients may work in the store
/// meanwhile, in this process or in another one: nothing waits for the copy. It opens to the state at one moment of this call. Each transaction is whole
/// in it, and all that was acknowledged before the call is in it. What was renewed is left out, so its files are short.
///
/// The other folder may hold no file of a store. One that a copy was cut off in may be used again unless a log has its name there already; without a
/// manifest it holds no store.
///
/// It is refused as `Device` if the system refuses a file, or for a folder with a store; as `Damaged`, `NotALog` or `Stranger` if the logs are
/// not those of one store at one moment; as `settings` for another store's splits, or a manifest that is none; and for memory. Then the other folder holds
/// no store, but if the system refused its last sync, all of it.
pub fn backup<R: Files<File = File> + Eprint>(
    rt: &R,
    alloc: Global,
    from: &str,
    splits: &Splits,
    to: &str,
) -> Result<(), NotBackedUp> {
    match manifest_of(rt, alloc, from, splits) {
        Ok(manifest) => back_up(rt, alloc, from, to, splits, &manifest),
        Err(refused) => Err(NotBackedUp::from_store(refused)),
    }
}

// The same, of a store with these splits and this manifest. Nothing is made before the logs are accepted.
fn back_up<R: Files<File = File>>(
    rt: &R,
    alloc: Global,
    from: &str,
    to: &str,
    splits: &Splits,
    manifest: &str,
) -> Result<(), NotBackedUp> {
    let shards = splits.as_slice().len() + 1;
    let logs = match whole_logs(rt, alloc, from, splits, shards) {
        Ok(logs) => logs,
        Err(refused) => return Err(NotBackedUp::from_store(refused)),
    };
    let begun = match make_dir(rt, to) {
        Ok(()) => Copying::begin(rt, alloc, to, shards),
        Err(cause) => Err(Refused::from(cause)),
    };
    let (copying, files) = match begun {
        Ok(begun) => begun,
        Err(refused) => {
            drop(logs);
            return Err(NotBackedUp::to_folder(refused));
        }
    };
    let ended = match copy_all(alloc, logs, files, splits) {
        Ok(()) => copying.end(manifest),
        Err(refused) => {
            drop(copying);
            return Err(refused);
        }
    };
    match ended {
        Ok(()) => Ok(()),
        Err(refused) => Err(NotBackedUp::to_folder(refused)),
    }
}

// The logs of a store as they stand at one moment of this call. They agree, and each transaction is whole over them.
fn whole_logs<R: Files<File = File>>(
    rt: &R,
    alloc: Global,
    from: &str,
    splits: &Splits,
    shards: usize,
) -> Result<Whole<LogFile>, Refused>
    requires { shards ≤ 16 }
    ensures { IfOk result (λ whole. length whole.logs.items ≤ 16) }
{
    check(alloc, logs_of(rt, alloc, from, shards)?, splits)?;
    Ok(Whole::of(alloc, logs_of(rt, alloc, from, shards)?)?)
}

// The manifest of a store with these splits, which never changes.
fn manifest_of<R: Files<File = File> + Eprint>(
    rt: &R,
    alloc: Global,
    from: &str,
    splits: &Splits,
) -> Result<String, Refused> {
    let path = format!(in alloc; "{from}/{}", Name::Manifest)?;
    match manifest_in(alloc, &HostFiles::new(rt, false), &path, splits) {
        Ok(manifest) => Ok(manifest),
        Err(Fault::Memory) => Err(Refused::from(Fault::Memory)),
        Err(fault) => Err(Refused::from(fault).of(Name::Manifest)),
    }
}

fn manifest_in<F: Texts>(
    alloc: Global,
    files: &F,
    path: &str,
    splits: &Splits,
) -> Result<String, Fault> {
    let text = read_text(alloc, files, path, Reason::Settings)?;
    match is_of(alloc, &text, splits) {
        Ok(true) => Ok(text),
        Ok(false) => {
            drop(text);
            Err(Fault::BadRequest(Reason::Settings))
        }
        Err(fault) => {
            drop(text);
            Err(fault)
        }
    }
}

// A text is the manifest of a store with these splits, whatever its name is. The name is 16 digits, before a quote and the end of the last line.
fn is_of(alloc: Global, text: &str, splits: &Splits) -> Result<bool, Fault> {
    let other = manifest_text(alloc, splits, 0)?;
    let front = other.len().saturating_sub(18);
    let same = text.len() == other.len()
        && text.as_bytes().get(..front) == other.as_bytes().get(..front);
    drop(other);
    Ok(same)
}

// The logs of a store as they stand at one moment of this call, by shard.
fn logs_of<R: Files<File = File>>(
    rt: &R,
    alloc: Global,
    from: &str,
    shards: usize,
) -> Result<Vec<LogFile>, Refused>
    ensures { IfOk result (λ logs. length logs.items ≡ shards) }
{
    let mut logs = Vec::new(alloc);
    for shard in 0..shards {
        let name = Name::Log(shard);
        let path = format!(in alloc; "{from}/{name}")?;
        match LogFile::open(rt, alloc, &path) {
            Ok(log) => logs.push(log)?,
            Err(refused) => return Err(refused.of(name)),
        }
    }
    at_one_moment(rt, alloc, &mut logs)?;
    Ok(logs)
}

// Copies logs into new files, and reads the copies.
fn copy_all(
    alloc: Global,
    logs: Whole<LogFile>,
    files: Vec<FileDisk>,
    splits: &Splits,
) -> Result<(), NotBackedUp>
    requires { length logs.logs.items ≤ 16 }
{
    let mut files = files;
    let causes = match Causes::of(alloc, &mut files) {
        Ok(causes) => causes,
        Err(error) => {
            drop(logs);
            drop(files);
            return Err(NotBackedUp::to_folder(Refused::from(error)));
        }
    };
    let done = match logs.copy_onto(alloc, files) {
        Ok(copies) => match check(alloc, copies, splits) {
            Ok(()) => Ok(()),
            Err(refused) => Err(NotBackedUp::to_folder(refused)),
        },
        Err(uncopied) => Err(refused_as(&causes, uncopied)),
    };
    drop(causes);
    done
}

// What is told of a log that is not copied.
fn refused_as(causes: &Causes, uncopied: Uncopied) -> NotBackedUp {
    let Uncopied { fault, shard, side } = uncopied;
    match side {
        Side::From => NotBackedUp::from_store(Refused::from(fault).of(Name::Log(shard))),
        Side::To => {
            let number = u8::try_from(shard).ok().and_then(ShardNo::new);
            NotBackedUp::to_folder(Refused {
                file: Some(Name::LogCopy(shard)),
                ..causes.refuse(fault, number)
            })
        }
    }
}

// The logs of shards 0, 1 and so on are those of one store at one moment.
fn check<D: Disk + Drop>(alloc: Global, logs: Vec<D>, splits: &Splits) -> Result<(), Refused>
    requires { length logs.items ≤ 16 }
{
    let mut all = Vec::new(alloc);
    for log in logs {
        let shard = all.len();
        match known_on(alloc, log, splits, shard) {
            Ok(known) => all.push(known)?,
            Err(fault) => return Err(Refused::from(fault).of(Name::Log(shard))),
        }
    }
    check_agreement(alloc, &all)
}

// Makes a folder, if it is not there. Its name is on the device then.
fn make_dir<R: Files<File = File>>(rt: &R, dir: &str) -> Result<(), Cause> {
    match fs::create_dir(rt, dir) {
        Ok(()) => sync_folder(rt, dir),
        Err(error) if error.kind() == ErrorKind::AlreadyExists => Ok(()),
        Err(error) => Err(cause_of(&error)),
    }
}

// Waits until the names in the folder that a path stands in are on the device.
fn sync_folder<R: Files<File = File>>(rt: &R, path: &str) -> Result<(), Cause> {
    let folder = match Path::new(path).parent() {
        Some(folder) if !folder.as_os_str().is_empty() => folder,
        _ => Path::new("."),
    };
    or_cause(or_cause(File::open(rt, folder))?.sync_all())
}

fn or_cause<T: Drop>(answer: io::Result<T>) -> Result<T, Cause> {
    match answer {
        Ok(value) => Ok(value),
        Err(error) => Err(cause_of(&error)),
    }
}
