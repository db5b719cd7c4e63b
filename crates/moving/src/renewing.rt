//! The logs of a closed store are renewed into new files.
ghost use Rattle.std.specs.Prelude.{◌≡◌, ◌+◌, ◌∷◌, ◌++◌, [], Some, IfSome, OnOk, OnErr, length, map, take};
ghost use Rattle.disk.specs.File.{surface};
ghost use Rattle.moving.specs.Renewals.{AreRenewals};
ghost use Rattle.node.specs.Renewed.{IsRenewed};

use crate::places::Places;
use disk::Disk;
use host_files::{FoundLogs, Refused, Replacing};
use node::{Past, renew_disk};
use std::alloc::Global;
use std::fs::File;
use std::random::RandomSource;
use std::rt::Files;
use truetime::Reading;
use units::{Fault, Splits, Stamp};

/// How long the file of a log was and is, in bytes.
#[derive(Clone, Copy, PartialEq, Eq)]
pub struct Sizes {
    /// Before it was renewed.
    pub before: u64,
    /// After that.
    pub after: u64,
}

/// Renews each log of the store in a folder, whose keys part at these, into a new file that gets the log's name. Nobody may have the store open.
/// A new file has what its log holds once it is opened: no version that no view asks for any more, no space that was renewed, no slot that was used.
/// If `keep` is chosen, views older than so many microseconds before the greatest timestamp of all logs are refused from then on.
///
/// A log has its former file or its new one, whatever crash comes; both hold all. The sizes of the logs that were renewed are put in `sizes`.
/// It is refused as an opening of the store is; as `Device` if the system refuses a file, for memory, and as `TimeSpent` if a file would grow
/// beyond 2^40 bytes. What was renewed before that stays so.
pub fn renew<R: Files<File = File> + RandomSource>(
    rt: &R,
    alloc: Global,
    folder: &str,
    splits: &Splits,
    keep: Option<u64>,
    sizes: &mut Vec<Sizes>,
) -> Result<(), Refused>
    // None is left out.
    ensures { OnOk result (length sizes.new.items ≡ length splits.now + 1) }
{
    sizes.clear();
    let (mut places, found) = Replacing::begin(rt, alloc, folder, splits)?;
    let FoundLogs { disks, newest } = found;
    let past = past_of(newest.at, keep);
    let renewed = renew_logs(alloc, &mut places, disks, splits, &past, sizes);
    drop(places);
    renewed
}

// So many microseconds before the greatest timestamp.
fn past_of(newest: Stamp, keep: Option<u64>) -> Option<Past>
    ensures { IfSome result (λ past. (past.now.earliest ≡ newest) × (keep ≡ Some past.micros)) }
{
    let micros = keep?;
    match Reading::new(newest, newest) {
        Ok(now) => Some(Past { now, micros }),
        Err(_) => None,
    }
}

/// Renews the logs of shards 0, 1 and so on, and gives each new file the name of its log, before the next one is made.
pub fn renew_logs<P: Places>(
    alloc: Global,
    places: &mut P,
    logs: Vec<P::Log>,
    splits: &Splits,
    past: &Option<Past>,
    sizes: &mut Vec<Sizes>,
) -> Result<(), Refused>
    requires fresh { P.placed places.old ≡ [] }
    requires empty { sizes.old.items ≡ [] }
    // Each new file has the renewal of its log.
    ensures renewed { P.Log.keeps_model → AreRenewals past.now P.Log.file
        (map (λ log. (surface (P.Log.file log)).seen) (take (length sizes.new.items) logs.items))
        (P.placed places.new) }
    ensures all { OnOk result (length sizes.new.items ≡ length logs.items) }
{
    for log in logs {
        renew_next(alloc, places, log, splits, past, sizes)?;
    }
    Ok(())
}

// Renews the log of one more shard.
fn renew_next<P: Places>(
    alloc: Global,
    places: &mut P,
    log: P::Log,
    splits: &Splits,
    past: &Option<Past>,
    sizes: &mut Vec<Sizes>,
) -> Result<(), Refused>
    requires { length (P.placed places.old) ≡ length sizes.old.items }
    ensures done { OnOk result ((file : P.Log)
        × (P.placed places.new ≡ P.placed places.old ++ file ∷ [])
        × (length sizes.new.items ≡ length sizes.old.items + 1)
        × (P.Log.keeps_model
        → IsRenewed past.now (surface (P.Log.file log)).seen (surface (P.Log.file file)))) }
    ensures refused { OnErr result ((P.placed places.new ≡ P.placed places.old)
        × (sizes.new.items ≡ sizes.old.items)) }
{
    let shard = sizes.len();
    let before = log.len();
    let draft = places.make(alloc, shard)?;
    let file = match renew_disk(alloc, log, splits, shard, *past, draft) {
        Ok((former, file)) => {
            drop(former);
            file
        }
        Err(fault) => return Err(places.refuse(fault, shard)),
    };
    let after = file.len();
    if sizes.push(Sizes { before, after }).is_err() {
        drop(file);
        return Err(places.refuse(Fault::Memory, shard));
    }
    match places.place(shard, file) {
        Ok(()) => Ok(()),
        Err(refused) => {
            let _ = sizes.pop();
            Err(refused)
        }
    }
}
