//! Names of files, their locks and their folders.
use crate::cause::{Cause, cause_in, cause_of};
use std::fs::{self, File, Metadata, TryLockError};
use std::io;
use std::os::unix::fs::MetadataExt;
use std::path::Path;
use std::rt::Files;

/// Gives what was opened, or why it was not.
pub fn or_cause<T: Drop>(answer: io::Result<T>) -> Result<T, Cause> {
    match answer {
        Ok(value) => Ok(value),
        Err(error) => Err(cause_of(&error)),
    }
}

/// Checks that what was found is a plain file.
pub fn plain(found: io::Result<Metadata>) -> Result<(), Cause> {
    match cause_in(&or_cause(found)?) {
        None => Ok(()),
        Some(cause) => Err(cause),
    }
}

/// Locks the file that was opened, and makes sure that the name is still its own. It is refused if another open one
/// has the lock. It is refused too if the name is a link, or if the file was renamed or taken away before it was
/// locked.
pub fn locked<R: Files>(rt: &R, path: &str, opened: io::Result<File>) -> Result<File, Cause> {
    let file = or_cause(opened)?;
    match file.try_lock() {
        Ok(()) => {}
        Err(TryLockError::WouldBlock) => return Err(Cause::InUse),
        Err(TryLockError::Error(error)) => return Err(cause_of(&error)),
    }
    if is_same(&file, fs::symlink_metadata(rt, path)) {
        Ok(file)
    } else {
        Err(Cause::Rewritten)
    }
}

/// Tells whether what was found by a name is this file, and a plain one.
pub fn is_same(file: &File, named: io::Result<Metadata>) -> bool {
    let Ok(named) = named else {
        return false;
    };
    match file.metadata() {
        Ok(found) => { found.is_file() && found.dev() == named.dev() && found.ino() == named.ino() }
        Err(_) => false,
    }
}

/// Waits until the names in the folder of a path are on the device.
pub fn sync_folder<R: Files<File = File>>(rt: &R, path: &str) -> Result<(), Cause> {
    let folder = or_cause(File::open(rt, folder_of(path)))?;
    or_cause(folder.sync_all())
}

// Gives the folder that a path stands in.
fn folder_of(path: &str) -> Path<'_> {
    match Path::new(path).parent() {
        Some(folder) if !folder.as_os_str().is_empty() => folder,
        _ => Path::new("."),
    }
}
