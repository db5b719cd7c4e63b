//! The logs of a store get new files, one after the other.
ghost use Rattle.std.specs.Prelude.{◌≡◌, ◌∷◌, ◌+◌, [], IfErr, IfOk, OnOk, OnErr, IsTrue, false, length};
ghost use Rattle.filedisk.specs.State.{file_is_torn};
ghost use Rattle.host_files.specs.Folders.{IsFolderRefusal, IsSystemRefusal, placed_last};

use crate::causes::Causes;
use crate::copying::new_file;
use crate::folder::{Expected, FoundLogs, logs_of};
use crate::names::{Kind, Name, StoreFolder};
use crate::refused::{Refused, Why};
use counts::Past;
use filedisk::{FileDisk, LastCause};
use std::alloc::Global;
use std::fs::File;
use std::random::RandomSource;
use std::rt::Files;
use units::{Fault, Splits};

/// The folder of a store whose logs get new files. It is locked until this is dropped, so nobody opens the store meanwhile. If this is cut off, each
/// log is its former file or its new one. A new file that no log's name leads to is left under the name of a copy (`shard-0.log.copy`), and is made
/// anew the next time.
#[derive(Drop)]
pub struct Replacing<'a, R> {
    folder: StoreFolder<'a, R>,
    // Why calls of the former files fail, and of the last new one.
    causes: Causes,
    drafted: Option<LastCause>,
    // The new files that surely have the name of a log.
    placed: Past<FileDisk>,
}

impl<'a, R: Files<File = File> + RandomSource> Replacing<'a, R> {
    /// Opens and locks the logs of the store in a folder, as an opening does (`found_in`), and keeps the folder locked.
    pub fn begin(
        rt: &'a R,
        alloc: Global,
        path: &'a str,
        splits: &Splits,
    ) -> Result<(Replacing<'a, R>, FoundLogs), Refused>
        ensures all { IfOk result
            (λ begun. length begun.1.disks.items ≡ length splits.now + 1) }
        ensures fresh { IfOk result (λ begun. placed_last begun.0 ≡ []) }
        ensures refused { IfErr result IsFolderRefusal }
    {
        let mut folder = StoreFolder::lock(rt, alloc, path)?;
        match logs_of(&mut folder, rt, alloc, splits, Expected::Store) {
            Ok(found) => Replacing::of(alloc, folder, found),
            Err(refused) => {
                drop(folder);
                Err(refused)
            }
        }
    }

    // The same, once the logs are found.
    fn of(
        alloc: Global,
        folder: StoreFolder<'a, R>,
        found: FoundLogs,
    ) -> Result<(Replacing<'a, R>, FoundLogs), Refused>
        ensures all { IfOk result
            (λ begun. length begun.1.disks.items ≡ length found.disks.items) }
        ensures fresh { IfOk result (λ begun. placed_last begun.0 ≡ []) }
        ensures refused { IfErr result IsSystemRefusal }
    {
        let FoundLogs { mut disks, newest } = found;
        match Causes::of(alloc, &mut disks) {
            Ok(causes) => {
                let replacing = Replacing {
                    folder,
                    causes,
                    drafted: None,
                    placed: Past::none(),
                };
                Ok((replacing, FoundLogs { disks, newest }))
            }
            Err(error) => {
                drop(disks);
                drop(folder);
                Err(Refused::from(error))
            }
        }
    }

    /// Makes a new, empty file for the log of a shard, beside that log. What an earlier call left there is taken away.
    pub fn draft(&mut self, alloc: Global, shard: usize) -> Result<FileDisk, Refused>
        ensures same { placed_last self.new ≡ placed_last self.old }
        ensures refused { IfErr result IsSystemRefusal }
    {
        self.drafted = None;
        let mut file = new_file(&mut self.folder, Name::LogCopy(shard))?;
        match file.share_cause(alloc) {
            Ok(cause) => {
                self.drafted = Some(cause);
                Ok(file)
            }
            Err(error) => {
                drop(file);
                Err(Refused::from(error))
            }
        }
    }

    /// Gives the new file of a shard the name of its log, which the former file loses. What it holds has to be on the device. After `Ok` the name is
    /// there too. After a refusal the name leads to one of the two.
    pub fn replace(&mut self, shard: usize, file: FileDisk) -> Result<(), Refused>
        ensures added { OnOk result
            (placed_last self.new ≡ file ∷ placed_last self.old) }
        ensures kept { OnErr result (placed_last self.new ≡ placed_last self.old) }
        ensures refused { IfErr result IsSystemRefusal }
    {
        match name_copy(&mut self.folder, shard) {
            Ok(()) => {
                self.placed.add(&file);
                drop(file);
                Ok(())
            }
            Err(refused) => {
                drop(file);
                Err(refused)
            }
        }
    }

    /// Refuses the log of a shard as a fault: names its file, or its new one if a call of that has failed, and tells why. The new file is taken away.
    pub fn refused(&mut self, fault: Fault, shard: usize) -> Refused
        ensures fault { result.fault ≡ fault }
        ensures same { placed_last self.new ≡ placed_last self.old }
    {
        let drafted = match &self.drafted {
            Some(cause) => cause.get(),
            None => None,
        };
        let refused = match drafted {
            Some(cause) => Refused {
                fault,
                file: Some(Name::LogCopy(shard)),
                why: Some(Why::System(cause)),
            },
            None => self.causes.refuse_log(fault, shard),
        };
        let _ = self.folder.clear(Name::LogCopy(shard), Kind::Plain);
        refused
    }
}

// The name of a shard's new file is on the device before it is that of the log, and so is the log's after it.
fn name_copy<R: Files<File = File>>(
    folder: &mut StoreFolder<'_, R>,
    shard: usize,
) -> Result<(), Refused>
    ensures { IfErr result IsSystemRefusal }
{
    folder.sync()?;
    folder.replace(Name::LogCopy(shard), Name::Log(shard))?;
    folder.sync()
}

/// Makes a new, empty file for the log of a shard of an open store, beside that log. What an earlier call left there is taken away. The folder is
/// locked until this returns.
pub fn draft_beside<R: Files<File = File>>(
    rt: &R,
    alloc: Global,
    path: &str,
    shard: usize,
) -> Result<FileDisk, Refused>
    ensures { IfErr result IsSystemRefusal }
{
    let mut folder = StoreFolder::lock(rt, alloc, path)?;
    let file = new_file(&mut folder, Name::LogCopy(shard));
    drop(folder);
    file
}

/// Gives the file that `draft_beside` made the name of the shard's log. What it holds has to be on the device. Returns whether it has the name: then
/// the name is on the device too. If not, the former file has it still, and the new one is taken away. After a refusal a crash leaves the name to one
/// of the two.
pub fn put_in_place<R: Files<File = File>>(
    rt: &R,
    alloc: Global,
    path: &str,
    shard: usize,
) -> Result<bool, Refused>
    ensures { IfErr result IsSystemRefusal }
{
    let Ok(mut folder) = StoreFolder::lock(rt, alloc, path) else {
        return Ok(false);
    };
    let placed = placed_in(&mut folder, shard);
    drop(folder);
    placed
}

// The same in a folder that is locked.
fn placed_in<R: Files<File = File>>(
    folder: &mut StoreFolder<'_, R>,
    shard: usize,
) -> Result<bool, Refused>
    ensures { IfErr result IsSystemRefusal }
{
    match name_copy(folder, shard) {
        Ok(()) => Ok(true),
        Err(refused) => match folder.kind(Name::LogCopy(shard)) {
            Ok(Kind::Plain) => {
                let _ = folder.clear(Name::LogCopy(shard), Kind::Plain);
                Ok(false)
            }
            _ => Err(refused),
        },
    }
}

/// Opens the log of a shard of an open store anew, by its name, in the place of the file that the store has, which has failed. So it is the file that is
/// found after a crash, and no sync of it has failed. If that is refused, the former file comes back. The folder is locked until this returns.
pub fn open_anew<R: Files<File = File>>(
    rt: &R,
    alloc: Global,
    path: &str,
    shard: usize,
    former: FileDisk,
) -> Result<FileDisk, FileDisk>
    ensures whole { IfOk result (λ disk. file_is_torn disk ≡ false) }
    ensures torn { IfErr result
        (λ back. IsTrue (file_is_torn former) → IsTrue (file_is_torn back)) }
{
    let Ok(mut folder) = StoreFolder::lock(rt, alloc, path) else {
        return Err(former);
    };
    let opened = folder.open_anew(Name::Log(shard), former);
    drop(folder);
    opened
}
