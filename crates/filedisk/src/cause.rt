//! Why the system refuses a file.
use std::fmt;
use std::fs::Metadata;
use std::io::{Error, ErrorKind};
use units::Fault;

/// Why the system refuses a file. Each cause becomes `Fault::Device`.
#[derive(Clone, Copy, PartialEq, Eq)]
pub enum Cause {
    /// There is nothing of that name.
    NoFile,
    /// There is a folder of that name.
    Folder,
    /// There is something of that name, but it is no folder.
    NoFolder,
    /// There is a pipe, a socket or a device of that name.
    NoPlainFile,
    /// There is a link of that name, which is not followed.
    Link,
    /// The program lacks the rights that it needs, or the file system may not be written to.
    NoRights,
    /// Another program has it open.
    InUse,
    /// There is something of that name already.
    Exists,
    /// The store had a file of that name, and it is gone.
    Lost,
    /// The device is full, or the file may not grow so far.
    NoRoom,
    /// At each look another file had got its name meanwhile, or another part of it was in force.
    Rewritten,
    /// The device fails, or the system refuses it for a reason of its own.
    Failed,
}

impl Cause {
    /// All causes.
    pub const ALL: [Cause; 12] = [
        Cause::NoFile,
        Cause::Folder,
        Cause::NoFolder,
        Cause::NoPlainFile,
        Cause::Link,
        Cause::NoRights,
        Cause::InUse,
        Cause::Exists,
        Cause::Lost,
        Cause::NoRoom,
        Cause::Rewritten,
        Cause::Failed,
    ];
}

impl fmt::Display for Cause {
    fn fmt<W: fmt::Write>(&self, f: &mut fmt::Formatter<W>) -> fmt::Result {
        f.write_str(match self {
            Cause::NoFile => "no such file",
            Cause::Folder => "is a folder",
            Cause::NoFolder => "is no folder",
            Cause::NoPlainFile => "is no plain file",
            Cause::Link => "is a link",
            Cause::NoRights => "no rights to it",
            Cause::InUse => "another program has it open",
            Cause::Exists => "is there already",
            Cause::Lost => "is missing from its store",
            Cause::NoRoom => "no room left",
            Cause::Rewritten => "is being rewritten",
            Cause::Failed => "the device fails",
        })
    }
}

impl From<Cause> for Fault {
    ghost use Rattle.std.specs.Prelude.{◌≡◌};
    ghost use Rattle.units.specs.declared.fault.Fault.TheVariants.{Device};

    ghost from_gives = { λ cause fault. fault ≡ Device };

    fn from(_cause: Cause) -> Fault {
        Fault::Device
    }
}

/// Finds the cause in an error of the system.
pub fn cause_of(error: &Error) -> Cause {
    match error.kind() {
        ErrorKind::NotFound => Cause::NoFile,
        ErrorKind::IsADirectory => Cause::Folder,
        ErrorKind::NotADirectory => Cause::NoFile,
        ErrorKind::FilesystemLoop => Cause::Link,
        ErrorKind::PermissionDenied | ErrorKind::ReadOnlyFilesystem => Cause::NoRights,
        ErrorKind::AlreadyExists => Cause::Exists,
        ErrorKind::StorageFull | ErrorKind::QuotaExceeded | ErrorKind::FileTooLarge => {
            Cause::NoRoom
        }
        _ => Cause::Failed,
    }
}

/// Finds why something is no plain file. `None` means that it is one.
pub fn cause_in(found: &Metadata) -> Option<Cause> {
    if found.is_file() {
        None
    } else if found.is_symlink() {
        Some(Cause::Link)
    } else if found.is_dir() {
        Some(Cause::Folder)
    } else {
        Some(Cause::NoPlainFile)
    }
}
