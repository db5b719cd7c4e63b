//! Why the files of a store are refused.
ghost use Rattle.std.specs.Prelude.{◌≡◌, IfNone, Some};

use crate::names::Name;
use filedisk::{Cause, FileDisk};
use std::alloc::{AllocError, AllocFailed};
use std::fmt;
use units::{Fault, ShardNo};

/// Why the files of a store's folder are refused: the fault, and the file and what is wrong with it, if these are known.
#[derive(Clone, Copy)]
pub struct Refused {
    /// The fault itself, by its number.
    pub fault: Fault,
    /// The file that is refused, if it is one of the folder.
    pub file: Option<Name>,
    /// What is wrong with it, besides the fault.
    pub why: Option<Why>,
}

/// What is wrong with a file, besides the fault.
#[derive(Clone, Copy)]
pub enum Why {
    /// The system refuses it, or it is missing.
    System(Cause),
    /// It lacks what the log of this shard says of it. It is of another moment or another store, or it is new: put back all logs of one
    /// backup.
    Older(ShardNo),
    /// The folder has no manifest, so it holds no store.
    NoStore,
    /// Its greatest timestamp lies this many microseconds ahead of the clock: set the clock right, or wait.
    Ahead(u64),
}

impl Refused {
    /// Names the file that is refused, unless one is named already.
    pub fn of(self, file: Name) -> Refused
        ensures { result.fault ≡ self.fault }
    {
        let Refused {
            fault,
            file: known,
            why,
        } = self;
        Refused {
            fault,
            file: Some(known.unwrap_or(file)),
            why,
        }
    }

    /// Refuses a file as the fault of its last call: as `Device` it tells why the system refused that.
    pub fn of_file(fault: Fault, file: &FileDisk, name: Name) -> Refused
        ensures { result.fault ≡ fault }
    {
        let why = match fault {
            Fault::Device => file.cause().map(Why::System),
            _ => None,
        };
        Refused {
            fault,
            file: Some(name),
            why,
        }
    }

    /// Tells whether the file or the reason is known.
    pub fn is_explained(&self) -> bool {
        self.file.is_some() || self.why.is_some()
    }

    /// Tells whose log the file is, if it is a log or the draft of one.
    pub fn shard(&self) -> Option<ShardNo> {
        match self.file {
            Some(Name::Log(shard) | Name::LogDraft(shard) | Name::LogCopy(shard)) => {
                u8::try_from(shard).ok().and_then(ShardNo::new)
            }
            _ => None,
        }
    }

    /// Refuses a store of which this file is missing.
    pub fn lost(file: Name) -> Refused
        ensures { result.fault ≡ Fault.Device }
    {
        Refused::from(Cause::Lost).of(file)
    }

    /// Refuses a folder without a manifest in which a store is expected.
    pub fn no_store() -> Refused
        ensures { result.fault ≡ Fault.Device }
    {
        Refused {
            why: Some(Why::NoStore),
            ..Refused::from(Fault::Device).of(Name::Manifest)
        }
    }

    /// Refuses the log of a shard, whose records end at this offset: it lacks what the log of another one says of it.
    pub fn older(shard: usize, offset: u64, than: ShardNo) -> Refused
        ensures { result.fault ≡ Fault.Damaged offset }
    {
        Refused {
            fault: Fault::Damaged { offset },
            file: Some(Name::Log(shard)),
            why: Some(Why::Older(than)),
        }
    }
}

impl Refused {
    /// Refuses the log of a shard whose greatest timestamp lies this many microseconds ahead of the clock.
    pub fn ahead(shard: ShardNo, micros: u64) -> Refused
        ensures fault { result.fault ≡ Fault.Future }
        ensures why { result.why ≡ Some (Why.Ahead micros) }
        ensures named { IfNone result.file ⊥ }
    {
        Refused {
            fault: Fault::Future,
            file: Some(Name::Log(usize::from(shard.number()))),
            why: Some(Why::Ahead(micros)),
        }
    }
}

impl From<Fault> for Refused {
    ghost use Rattle.std.specs.Prelude.{◌≡◌};

    ghost from_gives = { λ fault refused. refused.fault ≡ fault };

    fn from(fault: Fault) -> Refused {
        Refused {
            fault,
            file: None,
            why: None,
        }
    }
}

impl From<Cause> for Refused {
    ghost use Rattle.std.specs.Prelude.{◌≡◌};
    ghost use Rattle.units.specs.declared.fault.Fault.TheVariants.{Device};

    ghost from_gives = { λ cause refused. refused.fault ≡ Device };

    fn from(cause: Cause) -> Refused {
        Refused {
            fault: Fault::Device,
            file: None,
            why: Some(Why::System(cause)),
        }
    }
}

impl From<AllocError> for Refused {
    ghost use Rattle.std.specs.Prelude.{◌≡◌};
    ghost use Rattle.units.specs.declared.fault.Fault.TheVariants.{Memory};

    ghost from_gives = { λ error refused. refused.fault ≡ Memory };

    fn from(_error: AllocError) -> Refused {
        Refused::from(Fault::Memory)
    }
}

impl<T: Drop> From<AllocFailed<T>> for Refused {
    ghost use Rattle.std.specs.Prelude.{◌≡◌};
    ghost use Rattle.units.specs.declared.fault.Fault.TheVariants.{Memory};

    ghost from_gives = { λ error refused. refused.fault ≡ Memory };

    fn from(_error: AllocFailed<T>) -> Refused {
        Refused::from(Fault::Memory)
    }
}

/// A store that is refused, to be printed in its folder: the file that is refused, or the folder, and what is wrong with it, if that is known.
#[derive(Clone, Copy)]
pub struct RefusedIn<'a> {
    /// The folder of the store.
    pub folder: &'a str,
    /// Why it is refused.
    pub refused: Refused,
}

impl fmt::Display for RefusedIn<'_> {
    fn fmt<W: fmt::Write>(&self, f: &mut fmt::Formatter<W>) -> fmt::Result {
        let RefusedIn { folder, refused } = *self;
        match refused.file {
            Some(file) => write!(f, "{folder}/{file}")?,
            None => f.write_str(folder)?,
        }
        match refused.why {
            Some(why) => write!(f, ": {why}"),
            None => Ok(()),
        }
    }
}

impl fmt::Display for Why {
    fn fmt<W: fmt::Write>(&self, f: &mut fmt::Formatter<W>) -> fmt::Result {
        match self {
            Why::System(cause) => write!(f, "{cause}"),
            Why::Older(shard) => write!(f, "is older than shard {shard} says"),
            Why::NoStore => f.write_str("no store is there"),
            Why::Ahead(micros) => write!(f, "is {micros} microseconds ahead of the clock"),
        }
    }
}
