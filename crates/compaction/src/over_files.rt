//! A log is compacted from a file into a new one.
ghost use Rattle.std.specs.Prelude.{IfErr, OnOk};
ghost use Rattle.compaction.specs.Compacted.{IsNotCompacted, WasCompacted};

use crate::compacting::compact;
use crate::gathered::Gathered;
use std::alloc::Global;
use system::Files;
use units::Fault;

/// Copies the records of a log into a new file, and leaves the old file as it is. What is wrong with the old file is told first, and
/// then no file is made. `Device` also says that a file has the new name already: choose another one.
pub fn compact_file<F: Files>(alloc: Global, files: &F, old: &str, new: &str) -> Result<(), Fault>
    // The new file has the records of the old one.
    ensures compacted { OnOk result (WasCompacted F.Log.keeps_model F.Log.file F.Log.clock
        F.Log.since (F.is_named files.now) old.now new.now) }
    ensures refused { IfErr result IsNotCompacted }
{
    let from = match Gathered::of(alloc, files.open(alloc, old)?) {
        Ok(from) => from,
        Err((fault, _)) => return Err(fault),
    };
    let to = match files.create(alloc, new) {
        Ok(to) => to,
        Err(fault) => {
            drop(from);
            return Err(fault);
        }
    };
    match compact(from, to) {
        Ok(_) => Ok(()),
        Err((fault, _, made)) => {
            files.give_back(match made {
                Ok(log) => log.into_disk(),
                Err(disk) => disk,
            });
            Err(fault)
        }
    }
}
