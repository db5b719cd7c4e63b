//! A folder gets a copy of a store.
ghost use Rattle.std.specs.Prelude.{◌≡◌, ◌≤◌, IfErr, IfOk, length};
ghost use Rattle.host_files.specs.Folders.{IsFolderRefusal, IsSystemRefusal};

use crate::beginning::tell;
use crate::names::{Kind, Name, StoreFolder};
use crate::refused::Refused;
use filedisk::{Cause, FileDisk};
use std::alloc::Global;
use std::fs::File;
use std::rt::Files;

/// A folder that gets a copy of a store. It is locked until the copy has ended or this is dropped. A copy that is cut off leaves no manifest, so the
/// folder holds no store then. Another copy may be made in it unless a log has its name already.
#[derive(Drop)]
pub struct Copying<'a, R> {
    folder: StoreFolder<'a, R>,
    shards: usize,
    ghost few: { shards ≤ 16 },
}

impl<'a, R: Files<File = File>> Copying<'a, R> {
    /// Begins a copy of a store of so many shards in a folder, which has to be there. It is refused as `Device` if it has a manifest, a log, or the
    /// draft of a log. Gives a new, empty file for each log, in their order.
    pub fn begin(
        rt: &'a R,
        alloc: Global,
        path: &'a str,
        shards: usize,
    ) -> Result<(Copying<'a, R>, Vec<FileDisk>), Refused>
        requires { shards ≤ 16 }
        ensures all { IfOk result (λ begun. length begun.1.items ≡ shards) }
        ensures refused { IfErr result IsFolderRefusal }
    {
        let mut folder = StoreFolder::lock(rt, alloc, path)?;
        let files = match files_in(&mut folder, alloc, shards) {
            Ok(files) => files,
            Err(refused) => {
                drop(folder);
                return Err(refused);
            }
        };
        Ok((Copying { folder, shards }, files))
    }

    /// Ends a copy: gives each log its name, and then the folder its manifest, which has this text. After `Ok` all of it is on the device.
    pub fn end(self, manifest: &str) -> Result<(), Refused>
        ensures { IfErr result IsFolderRefusal }
    {
        let Copying { mut folder, shards } = self;
        let named = name_logs(&mut folder, shards);
        let ended = match named {
            Ok(()) => tell(&mut folder, manifest),
            Err(refused) => Err(refused),
        };
        drop(folder);
        ended
    }
}

// New files for so many logs in a folder that holds no store.
fn files_in<R: Files<File = File>>(
    folder: &mut StoreFolder<'_, R>,
    alloc: Global,
    shards: usize,
) -> Result<Vec<FileDisk>, Refused>
    requires { shards ≤ 16 }
    ensures all { IfOk result (λ files. length files.items ≡ shards) }
    ensures refused { IfErr result IsFolderRefusal }
{
    check_free(folder, Name::Manifest)?;
    for shard in 0..16 {
        check_free(folder, Name::Log(shard))?;
        check_free(folder, Name::LogDraft(shard))?;
    }
    let mut files = Vec::new(alloc);
    for shard in 0..shards {
        files.push(new_file(folder, Name::LogCopy(shard))?)?;
    }
    Ok(files)
}

// Nothing has this name.
fn check_free<R: Files<File = File>>(folder: &StoreFolder<'_, R>, name: Name) -> Result<(), Refused>
    ensures { IfErr result IsSystemRefusal }
{
    match folder.kind(name)? {
        Kind::Nothing => Ok(()),
        _ => Err(Refused::from(Cause::Exists).of(name)),
    }
}

/// A new file in the place of what was left under a name.
pub fn new_file<R: Files<File = File>>(
    folder: &mut StoreFolder<'_, R>,
    name: Name,
) -> Result<FileDisk, Refused>
    ensures { IfErr result IsSystemRefusal }
{
    let kind = folder.kind(name)?;
    folder.clear(name, kind)?;
    folder.create(name)
}

// Gives the copies of so many logs their names, one after the other.
fn name_logs<R: Files<File = File>>(
    folder: &mut StoreFolder<'_, R>,
    shards: usize,
) -> Result<(), Refused>
    ensures { IfErr result IsSystemRefusal }
{
    for shard in 0..shards {
        folder.sync()?;
        folder.name(Name::LogCopy(shard), Name::Log(shard))?;
    }
    Ok(())
}
