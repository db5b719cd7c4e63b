//! Why the logs of a store fail, once others have them.
ghost use Rattle.std.specs.Prelude.{◌≡◌, None, IfNone, IfSome, length};
ghost use Rattle.units.specs.declared.fault.Fault.TheVariants.{Device};

use crate::names::Name;
use crate::refused::{Refused, Why};
use filedisk::{Cause, FileDisk, LastCause};
use std::alloc::{AllocError, Global};
use std::cell::Cell;
use units::{Fault, ShardNo};

/// Why the last call of each log of a store that failed did so, by shard. It tells that also once the logs are given away or dropped.
#[derive(Drop)]
pub struct Causes {
    of: Vec<LastCause>,
}

impl Causes {
    /// Asks each log to tell of its failures.
    pub fn of(alloc: Global, logs: &mut Vec<FileDisk>) -> Result<Causes, AllocError>
        ensures { length logs.new.items ≡ length logs.old.items }
    {
        let mut of = Vec::new(alloc);
        for log in logs.iter_mut() {
            of.push(log.share_cause(alloc)?)?;
        }
        Ok(Causes { of })
    }

    /// Refuses a store as this fault, and names the log of this shard, with the reason of its last failure if it has failed. If no shard is
    /// known, the first log that has failed is named.
    pub fn refuse(&self, fault: Fault, shard: Option<ShardNo>) -> Refused
        ensures fault { result.fault ≡ fault }
        ensures named { IfNone result.file (shard ≡ None) }
    {
        match shard {
            Some(shard) => self.refuse_log(fault, usize::from(shard.number())),
            None => match self.first() {
                Some(log) => self.refuse_log(fault, log),
                None => Refused::from(fault),
            },
        }
    }

    /// Refuses a store as this fault, and names the log of this number.
    pub(crate) fn refuse_log(&self, fault: Fault, log: usize) -> Refused
        ensures fault { result.fault ≡ fault }
        ensures named { IfNone result.file ⊥ }
    {
        Refused {
            fault,
            file: Some(Name::Log(log)),
            why: self.cause_of(log).map(Why::System),
        }
    }

    fn cause_of(&self, log: usize) -> Option<Cause> {
        self.of.get(log)?.get()
    }

    // The first log that has failed.
    fn first(&self) -> Option<usize> {
        self.of.iter().position(|cause| cause.get().is_some())
    }
}

/// Refuses the first of the logs of a store whose device has failed, with the reason of its last failure. `None` means that none has failed.
pub fn failed_log(logs: &[FileDisk]) -> Option<Refused>
    ensures fault { IfSome result (λ refused. refused.fault ≡ Device) }
    ensures named { IfSome result (λ refused. IfNone refused.file ⊥) }
{
    for (shard, log) in logs.iter().enumerate() {
        if let Some(cause) = log.cause() {
            return Some(Refused {
                fault: Fault::Device,
                file: Some(Name::Log(shard)),
                why: Some(Why::System(cause)),
            });
        }
    }
    None
}

/// Why a store was refused last, noted for whoever tells of it.
#[derive(Drop)]
pub struct Noted {
    refused: Cell<Option<Refused>>,
}

impl Noted {
    /// Begins with nothing noted.
    pub fn none() -> Noted {
        Noted {
            refused: Cell::new(None),
        }
    }

    /// Notes a refusal.
    pub fn note(&self, refused: Refused) {
        self.refused.set(Some(refused));
    }

    /// Gives the last refusal, if one was noted.
    pub fn last(&self) -> Option<Refused> {
        self.refused.get()
    }
}
