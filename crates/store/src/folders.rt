//! A store in a folder: it is made there, or opened. What the fields of a store are is not seen here.
ghost use Rattle.std.specs.Prelude.{◌≡◌, ◌⊎◌, ◌<◌, ◌+◌, length, IfErr, IfNone, IfOk};
ghost use Rattle.node.specs.Unopened.{IsUnmade};
ghost use Rattle.host_files.specs.Folders.{IsFolderFault};

use crate::timed::{check_time, expected_by};
use crate::{FolderStore, LogFiles, Options, Store};
use filedisk::FileDisk;
use host_files::{Causes, Expected, FoundLogs, Refused, found_in};
use std::alloc::Global;
use std::fs::File;
use std::random::RandomSource;
use std::rt::Files;
use std::sync::Wait;
use std::thread::Threads;
use std::time;
use units::Fault;

impl<'r, R: Files<File = File> + RandomSource + Threads + Wait + time::Clock + Sync> FolderStore<
    'r,
    R,
> {
    /// Makes a store in a folder, which has to be there and to hold none, and opens it. If one is there it is refused as `Device`, and left as
    /// it is; a store that was cut off while it was made is made whole. Else it is refused as `open_folder` says.
    pub fn make_folder(
        rt: &'r R,
        alloc: Global,
        folder: &str,
        options: Options,
    ) -> Result<FolderStore<'r, R>, Refused>
        ensures splits { IfOk result (λ store. store.splits ≡ options.splits) }
        ensures shards { IfOk result (λ store. store.shards ≡ length options.splits + 1) }
        ensures clients { IfOk result (λ store. store.clients ≡ options.clients) }
        ensures epsilon { IfOk result (λ store. store.epsilon ≡ options.epsilon) }
        ensures limits { (1000000 < options.epsilon)
            ⊎ ((options.clients ≡ 0) ⊎ (64 < options.clients))
            → IfOk result (λ _. ⊥) }
        ensures refused { IfErr result (λ refused. IsFolderFault refused.fault
            ⊎ (IsUnmade refused.fault ⊎ (refused.fault ≡ Fault.Future))) }
        ensures whole { IfErr result
            (λ refused. IfNone refused.file (IsFolderFault refused.fault)) }
    {
        match found_in(rt, alloc, folder, &options.splits, Expected::NoStore) {
            Ok(found) => open_found(rt, alloc, found, folder, options),
            Err(refused) => {
                drop(options);
                Err(refused)
            }
        }
    }

    /// Opens the store in a folder. If none is there it is refused as `Device`, and nothing is made; but with `Options::make` one is made. Other
    /// options than those of the folder's manifest are refused as `settings`, and a log that is missing as `Device`. Then the first shard that
    /// is refused is told, whose log is the file `shard-N.log`. A log that lacks what the log of another shard says of it is `Damaged`: it is
    /// of another moment or of another store, or new. No log takes a record before all were read.
    ///
    /// Logs whose greatest timestamp lies farther ahead of the machine's clock than `Options::ahead` and the stride are refused as `Future`, before
    /// any of them takes a record. That heals once the clock is right, or has passed more of them.
    ///
    /// `Device` may heal: another program may have the folder open, or the device may fail. The refusal names the file, and says why the system
    /// refused it.
    pub fn open_folder(
        rt: &'r R,
        alloc: Global,
        folder: &str,
        options: Options,
    ) -> Result<FolderStore<'r, R>, Refused>
        ensures splits { IfOk result (λ store. store.splits ≡ options.splits) }
        ensures shards { IfOk result (λ store. store.shards ≡ length options.splits + 1) }
        ensures clients { IfOk result (λ store. store.clients ≡ options.clients) }
        ensures epsilon { IfOk result (λ store. store.epsilon ≡ options.epsilon) }
        ensures limits { (1000000 < options.epsilon)
            ⊎ ((options.clients ≡ 0) ⊎ (64 < options.clients))
            → IfOk result (λ _. ⊥) }
        ensures refused { IfErr result (λ refused. IsFolderFault refused.fault
            ⊎ (IsUnmade refused.fault ⊎ (refused.fault ≡ Fault.Future))) }
        ensures whole { IfErr result
            (λ refused. IfNone refused.file (IsFolderFault refused.fault)) }
    {
        match found_in(rt, alloc, folder, &options.splits, expected_by(&options)) {
            Ok(found) => open_found(rt, alloc, found, folder, options),
            Err(refused) => {
                drop(options);
                Err(refused)
            }
        }
    }
}

// Opens a store over the logs of a folder, unless they are too far ahead of the clock.
fn open_found<'r, R: Threads + Wait + time::Clock + Sync>(
    rt: &'r R,
    alloc: Global,
    found: FoundLogs,
    folder: &str,
    options: Options,
) -> Result<FolderStore<'r, R>, Refused>
    ensures splits { IfOk result (λ store. store.splits ≡ options.splits) }
    ensures shards { IfOk result (λ store. store.shards ≡ length found.disks.items) }
    ensures clients { IfOk result (λ store. store.clients ≡ options.clients) }
    ensures epsilon { IfOk result (λ store. store.epsilon ≡ options.epsilon) }
    ensures limits { (1000000 < options.epsilon)
        ⊎ ((options.clients ≡ 0) ⊎ (64 < options.clients))
        → IfOk result (λ _. ⊥) }
    ensures refused { IfErr result (λ refused. IsUnmade refused.fault
        ⊎ (refused.fault ≡ Fault.Future)) }
    ensures whole { IfErr result
        (λ refused. IfNone refused.file (IsFolderFault refused.fault)) }
{
    let FoundLogs { disks, newest } = found;
    match check_time(rt, &options, newest) {
        Ok(()) => open_told(rt, alloc, disks, folder, options),
        Err(refused) => {
            drop(disks);
            drop(options);
            Err(refused)
        }
    }
}

// Opens a store over logs, and tells of the log that is refused why its device refused it.
fn open_told<'r, R: Threads + Wait + Sync>(
    rt: &'r R,
    alloc: Global,
    disks: Vec<FileDisk>,
    folder: &str,
    options: Options,
) -> Result<FolderStore<'r, R>, Refused>
    ensures splits { IfOk result (λ store. store.splits ≡ options.splits) }
    ensures shards { IfOk result (λ store. store.shards ≡ length disks.items) }
    ensures clients { IfOk result (λ store. store.clients ≡ options.clients) }
    ensures epsilon { IfOk result (λ store. store.epsilon ≡ options.epsilon) }
    ensures limits { (1000000 < options.epsilon)
        ⊎ ((options.clients ≡ 0) ⊎ (64 < options.clients))
        → IfOk result (λ _. ⊥) }
    ensures refused { IfErr result (λ refused. IsUnmade refused.fault) }
    ensures whole { IfErr result
        (λ refused. IfNone refused.file (IsFolderFault refused.fault)) }
{
    let mut disks = disks;
    let Ok(path) = format!(in alloc; "{folder}") else {
        drop(disks);
        drop(options);
        return Err(Refused::from(Fault::Memory));
    };
    let Ok(causes) = Causes::of(alloc, &mut disks) else {
        drop(path);
        drop(disks);
        drop(options);
        return Err(Refused::from(Fault::Memory));
    };
    let told = match Store::open(rt, alloc, disks, options) {
        Ok(store) => Ok(store.stands_in(LogFiles { rt, alloc, path })),
        Err(unopened) => Err(causes.refuse(unopened.fault, unopened.shard)),
    };
    drop(causes);
    told
}
