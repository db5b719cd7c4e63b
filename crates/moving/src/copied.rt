//! Logs over which each transaction is whole that none of them retired, and their copies on new disks.
ghost use Rattle.std.specs.Prelude.{◌≡◌, ◌∷◌, ◌++◌, [], IfOk, OnOk, length, map};
ghost use Rattle.disk.specs.File.{surface};
ghost use Rattle.compaction.specs.Compacted.{Holds, records_in};
ghost use Rattle.moving.specs.Copies.{AreCopies, AreWhole};

use crate::moved::Side;
use compaction::{Gathered, compact};
use disk::Disk;
use inspection::judge;
use record::a_yes_is_sound;
use std::alloc::Global;
use units::{Fault, Reason, Verdict};

/// The logs of shards 0, 1 and so on, over which each transaction that no log retired is whole: it is on all its shards at one timestamp, or on
/// none. Of a retired one a log that was renewed may have kept nothing, so that no log can tell whether it was whole.
#[derive(Drop)]
pub struct Whole<D: Disk> {
    logs: Vec<D>,
    ghost whole: { D.keeps_model → AreWhole (λ log. (surface (D.file log)).seen) logs.items },
}

/// Why the log of a shard is not copied.
#[derive(Clone, Copy, PartialEq, Eq)]
pub struct Uncopied {
    /// The fault.
    pub fault: Fault,
    /// The shard.
    pub shard: usize,
    /// Whether it is for the log or for the copy.
    pub side: Side,
}

impl<D: Disk + Drop> Whole<D> {
    /// Judges some logs. They are refused as `Damaged` at 0 if a transaction that no log retired is not whole over them. They are also refused for
    /// memory, if a device fails, or if one of the disks holds no log.
    pub fn of(alloc: Global, logs: Vec<D>) -> Result<Whole<D>, Fault>
        // They read as they did.
        ensures same { IfOk result (λ whole. D.keeps_model
            → map (λ log. (surface (D.file log)).seen) whole.logs.items
            ≡ map (λ log. (surface (D.file log)).seen) logs.items) }
        ensures count { IfOk result (λ whole. length whole.logs.items ≡ length logs.items) }
    {
        a_yes_is_sound();
        let (verdict, logs) = judge(alloc, logs, &[])?;
        match verdict {
            Verdict::Yes => Ok(Whole { logs }),
            _ => {
                drop(logs);
                Err(Fault::Damaged { offset: 0 })
            }
        }
    }

    /// Copies each log onto a new disk, without what was renewed. The logs have to stay as they are meanwhile. It is refused for memory, if a device
    /// fails, and as `many` if there are fewer new disks than logs.
    pub fn copy_onto<E: Disk + Drop>(self, alloc: Global, files: Vec<E>) -> Result<Vec<E>, Uncopied>
        // Each copy holds the records of its log, whatever crash comes.
        ensures copies { IfOk result (λ copies. D.keeps_model → E.keeps_model → AreCopies E.file
            (map (λ log. (surface (D.file log)).seen) self.logs.items) copies.items) }
        // And each transaction that no log retired is whole over these logs.
        ensures whole { D.keeps_model
            → AreWhole (λ log. (surface (D.file log)).seen) self.logs.items }
        ensures count { IfOk result (λ copies. length copies.items ≡ length self.logs.items) }
    {
        let Whole { logs } = self;
        let mut copies = Vec::new(alloc);
        let mut files = files.into_iter();
        for log in logs {
            let Some(file) = files.next() else {
                drop(log);
                return Err(too_few(copies.len()));
            };
            copy_next(alloc, log, file, &mut copies)?;
        }
        drop(files);
        Ok(copies)
    }
}

fn too_few(shard: usize) -> Uncopied {
    Uncopied {
        fault: Fault::BadRequest(Reason::Many),
        shard,
        side: Side::To,
    }
}

// Copies one more log, and adds the disk of its copy.
fn copy_next<D: Disk + Drop, E: Disk + Drop>(
    alloc: Global,
    log: D,
    file: E,
    copies: &mut Vec<E>,
) -> Result<(), Uncopied>
    ensures { OnOk result ((copy : E) × (copies.new.items ≡ copies.old.items ++ copy ∷ [])
        × (D.keeps_model → E.keeps_model
        → Holds (records_in (surface (D.file log)).seen) (E.file copy))) }
{
    let shard = copies.len();
    match copy_log(alloc, log, file) {
        Ok(copy) => match copies.push(copy) {
            Ok(()) => Ok(()),
            Err(failed) => {
                drop(failed);
                Err(Uncopied {
                    fault: Fault::Memory,
                    shard,
                    side: Side::To,
                })
            }
        },
        Err((fault, side)) => Err(Uncopied { fault, shard, side }),
    }
}

// Copies one log.
fn copy_log<D: Disk + Drop, E: Disk + Drop>(
    alloc: Global,
    log: D,
    file: E,
) -> Result<E, (Fault, Side)>
    ensures { IfOk result (λ copy. D.keeps_model → E.keeps_model
        → Holds (records_in (surface (D.file log)).seen) (E.file copy)) }
{
    let gathered = match Gathered::of(alloc, log) {
        Ok(gathered) => gathered,
        Err((fault, log)) => {
            drop(log);
            drop(file);
            return Err((fault, Side::From));
        }
    };
    match compact(gathered, file) {
        Ok((log, made)) => {
            drop(log);
            Ok(made.into_disk())
        }
        Err((fault, log, made)) => {
            drop(log);
            drop(made);
            Err((fault, Side::To))
        }
    }
}
