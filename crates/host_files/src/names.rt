//! The files of a store's folder, by their names in it.
ghost use Rattle.std.specs.Prelude.{◌≡◌, IfOk, IfErr, OnOk, IsTrue, false};
ghost use Rattle.filedisk.specs.State.{file_is_changed, file_is_torn};
ghost use Rattle.host_files.specs.Folders.{IsSystemRefusal, names_are_synced};
ghost use Rattle.units.specs.declared.fault.Fault.TheVariants.{Device};

use crate::log_file::LogFile;
use crate::refused::Refused;
use filedisk::{Cause, FileDisk, cause_in, cause_of};
use std::alloc::{AllocError, Global};
use std::fs::{File, TryLockError};
use std::io::{ErrorKind, Read};
use std::os::unix::fs::{FileTypeExt, MetadataExt};
use std::rt::Files;
use std::{fmt, fs, io};
use units::Fault;

// The number of the null device: the third one of the first kind.
const NULL_DEVICE: u64 = 0x103;

/// The name of a file in a store's folder. What is not whole yet has that of a draft.
#[derive(Clone, Copy)]
pub enum Name {
    /// The manifest, `store.toml`.
    Manifest,
    /// The draft of the manifest.
    ManifestDraft,
    /// The log of a shard.
    Log(usize),
    /// The draft of the log of a shard.
    LogDraft(usize),
    /// The log of a shard while it is copied from another folder, `shard-0.log.copy`.
    LogCopy(usize),
}

impl fmt::Display for Name {
    fn fmt<W: fmt::Write>(&self, f: &mut fmt::Formatter<W>) -> fmt::Result {
        match self {
            Name::Manifest => f.write_str("store.toml"),
            Name::ManifestDraft => f.write_str("store.toml.new"),
            Name::Log(shard) => write!(f, "shard-{shard}.log"),
            Name::LogDraft(shard) => write!(f, "shard-{shard}.log.new"),
            Name::LogCopy(shard) => write!(f, "shard-{shard}.log.copy"),
        }
    }
}

/// What stands under a name.
#[derive(Clone, Copy)]
pub enum Kind {
    /// There is nothing.
    Nothing,
    /// A plain file.
    Plain,
    /// A link, a folder or a device.
    Other,
}

/// A folder in which nobody else makes a store meanwhile: it is locked (`flock`) until this is dropped. No link is followed when a name is
/// looked at or opened. What the system refuses is `Device`, with the file and the reason.
#[derive(Drop)]
pub struct StoreFolder<'a, R> {
    rt: &'a R,
    alloc: Global,
    path: &'a str,
    folder: File,
    /// Every name that was made, changed or taken away is on the device.
    pub(crate) synced: bool,
}

impl<'a, R: Files<File = File>> StoreFolder<'a, R> {
    /// Locks a folder that is there. It checks that it is a folder before it opens it. `Device` if it is no folder, or if it is locked
    /// already. Whether its names are on the device is not known yet.
    pub fn lock(rt: &'a R, alloc: Global, path: &'a str) -> Result<StoreFolder<'a, R>, Refused>
        ensures { IfErr result IsSystemRefusal }
    {
        if !or_refused(fs::metadata(rt, path))?.is_dir() {
            return Err(Refused::from(Cause::NoFolder));
        }
        let folder = or_refused(File::open(rt, path))?;
        match folder.try_lock() {
            Ok(()) => Ok(StoreFolder {
                rt,
                alloc,
                path,
                folder,
                synced: false,
            }),
            Err(TryLockError::WouldBlock) => Err(Refused::from(Cause::InUse)),
            Err(TryLockError::Error(error)) => Err(Refused::from(cause_of(&error))),
        }
    }

    fn path_of(&self, name: Name) -> Result<String, AllocError> {
        let path = self.path;
        format!(in self.alloc; "{path}/{name}")
    }

    /// Tells what stands under a name. A link is not followed.
    pub fn kind(&self, name: Name) -> Result<Kind, Refused>
        ensures { IfErr result IsSystemRefusal }
    {
        let path = self.path_of(name)?;
        match kind_of(fs::symlink_metadata(self.rt, &path)) {
            Ok(kind) => Ok(kind),
            Err(cause) => Err(Refused::from(cause).of(name)),
        }
    }

    /// Reads the first bytes of a plain file, `most` at most.
    pub fn read(&self, name: Name, most: u64) -> Result<Vec<u8>, Refused>
        ensures { IfErr result IsSystemRefusal }
    {
        let Kind::Plain = self.kind(name)? else {
            return Err(Refused::from(Cause::NoPlainFile).of(name));
        };
        let path = self.path_of(name)?;
        match read_front(self.rt, self.alloc, &path, most) {
            Ok(bytes) => Ok(bytes),
            Err(refused) => Err(refused.of(name)),
        }
    }

    /// Makes a new, empty file, whose name is on the device. It is refused if there is anything of that name.
    pub fn create(&self, name: Name) -> Result<FileDisk, Refused>
        ensures { IfErr result IsSystemRefusal }
    {
        let path = self.path_of(name)?;
        match FileDisk::create(self.rt, &path) {
            Ok(disk) => Ok(disk),
            Err(cause) => Err(Refused::from(cause).of(name)),
        }
    }

    /// Opens a plain file that is there.
    pub fn open(&self, name: Name) -> Result<FileDisk, Refused>
        ensures unchanged { IfOk result (λ disk. file_is_changed disk ≡ false) }
        ensures refused { IfErr result IsSystemRefusal }
    {
        let path = self.path_of(name)?;
        match FileDisk::open(self.rt, &path) {
            Ok(disk) => Ok(disk),
            Err(cause) => Err(Refused::from(cause).of(name)),
        }
    }

    /// Opens the plain file that is there in the place of a former one, which had the name or has it. All names are on the device before, so the
    /// name stays with the file. If it is refused, the former one comes back (`FileDisk::open_anew`).
    pub fn open_anew(&mut self, name: Name, former: FileDisk) -> Result<FileDisk, FileDisk>
        ensures whole { IfOk result (λ disk. file_is_torn disk ≡ false) }
        ensures synced { OnOk result (IsTrue (names_are_synced self.new)) }
        ensures torn { IfErr result
            (λ back. IsTrue (file_is_torn former) → IsTrue (file_is_torn back)) }
    {
        if let Err(_) = self.sync() {
            return Err(former);
        }
        let Ok(path) = self.path_of(name) else {
            return Err(former);
        };
        match former.open_anew(self.rt, &path) {
            Ok(disk) => Ok(disk),
            Err((_, former)) => Err(former),
        }
    }

    /// Opens the file of a log to be read alone.
    pub fn read_log(&self, name: Name) -> Result<LogFile, Refused>
        ensures { IfErr result IsSystemRefusal }
    {
        let path = self.path_of(name)?;
        match LogFile::open(self.rt, self.alloc, &path) {
            Ok(log) => Ok(log),
            Err(refused) => Err(refused.of(name)),
        }
    }

    /// Takes a name away, under which something of this kind stands. Of a link, what it leads to stays.
    pub fn clear(&mut self, name: Name, kind: Kind) -> Result<(), Refused>
        ensures { IfErr result IsSystemRefusal }
    {
        if let Kind::Nothing = kind {
            return Ok(());
        }
        self.synced = false;
        let path = self.path_of(name)?;
        match fs::remove_file(self.rt, &path) {
            Ok(()) => Ok(()),
            Err(error) => Err(Refused::from(cause_of(&error)).of(name)),
        }
    }

    /// Gives a draft its final name, which nothing may have yet. All earlier names are on the device, so no crash leaves this one without
    /// them.
    pub fn name(&mut self, draft: Name, name: Name) -> Result<(), Refused>
        requires { IsTrue (names_are_synced self.old) }
        ensures { IfErr result IsSystemRefusal }
    {
        self.synced = false;
        let Kind::Nothing = self.kind(name)? else {
            return Err(Refused::from(Cause::Exists).of(name));
        };
        self.rename(draft, name)
    }

    /// Gives a draft the name of a plain file, which loses it at once. All earlier names are on the device, so a crash leaves the name to one of the
    /// two.
    pub fn replace(&mut self, draft: Name, name: Name) -> Result<(), Refused>
        requires { IsTrue (names_are_synced self.old) }
        ensures { IfErr result IsSystemRefusal }
    {
        self.synced = false;
        let Kind::Plain = self.kind(name)? else {
            return Err(Refused::from(Cause::NoPlainFile).of(name));
        };
        self.rename(draft, name)
    }

    fn rename(&self, from: Name, to: Name) -> Result<(), Refused>
        ensures { IfErr result IsSystemRefusal }
    {
        let from = self.path_of(from)?;
        let path = self.path_of(to)?;
        match fs::rename(self.rt, &from, &path) {
            Ok(()) => Ok(()),
            Err(error) => Err(Refused::from(cause_of(&error)).of(to)),
        }
    }

    /// Waits until all names are on the device (`fsync` of the folder).
    pub fn sync(&mut self) -> Result<(), Refused>
        ensures synced { OnOk result (IsTrue (names_are_synced self.new)) }
        ensures refused { IfErr result IsSystemRefusal }
    {
        or_refused(self.folder.sync_all())?;
        self.synced = true;
        Ok(())
    }
}

// What stands under a name, by what the system says of it.
fn kind_of(found: io::Result<fs::Metadata>) -> Result<Kind, Cause> {
    match found {
        Ok(metadata) if metadata.is_file() => Ok(Kind::Plain),
        Ok(_) => Ok(Kind::Other),
        Err(error) if error.kind() == ErrorKind::NotFound => Ok(Kind::Nothing),
        Err(error) => Err(cause_of(&error)),
    }
}

/// Reads the first bytes of a plain file, `most` at most; the null device has none. It checks the kind of the file before it opens it, so it
/// never waits for a pipe.
pub fn read_front<R: Files<File = File>>(
    rt: &R,
    alloc: Global,
    path: &str,
    most: u64,
) -> Result<Vec<u8>, Refused>
    ensures { IfErr result IsSystemRefusal }
{
    let found = or_refused(fs::metadata(rt, path))?;
    match cause_in(&found) {
        Some(cause) if !is_null_device(&found) => return Err(Refused::from(cause)),
        _ => {}
    }
    let file = or_refused(File::open(rt, path))?;
    let mut bytes = Vec::new(alloc);
    match file.take(most).read_to_end(&mut bytes) {
        Ok(_) => Ok(bytes),
        Err(error) if error.kind() == ErrorKind::OutOfMemory => Err(Refused::from(Fault::Memory)),
        Err(error) => Err(Refused::from(cause_of(&error))),
    }
}

// The device that holds nothing, `/dev/null`.
fn is_null_device(found: &fs::Metadata) -> bool {
    found.file_type().is_char_device() && found.rdev() == NULL_DEVICE
}

fn or_refused<T: Drop>(answer: io::Result<T>) -> Result<T, Refused>
    ensures { IfErr result (λ refused. refused.fault ≡ Device) }
{
    match answer {
        Ok(value) => Ok(value),
        Err(error) => Err(Refused::from(cause_of(&error))),
    }
}
