//! A folder that has no manifest yet.
ghost use Rattle.std.specs.Prelude.{◌≡◌, ◌≤◌, IfErr, OnOk, IsTrue};
ghost use Rattle.host_files.specs.Folders.{IsFolderRefusal, IsSystemRefusal, names_are_synced};

use crate::manifest::manifest_text;
use crate::names::{Kind, Name, StoreFolder};
use crate::owners::all_fit;
use crate::refused::Refused;
use crate::shards::numbered;
use disk::Disk;
use filedisk::FileDisk;
use gatelog::GateLog;
use std::alloc::Global;
use std::fs::File;
use std::rt::Files;
use units::{Fault, Reason, Splits};

/// Begins a store in a folder without a manifest. The logs that are there belong to it, each other log gets a draft, and then the manifest is
/// written. A draft without a record is made anew; one with a record is the log, before it got its name. A draft of version 1 is refused. If
/// a log holds a record and another one is missing, that one is lost: it is refused as `Device`, and nothing is made.
pub fn begin<R: Files<File = File>>(
    folder: &mut StoreFolder<'_, R>,
    alloc: Global,
    splits: &Splits,
    name: u64,
) -> Result<(), Refused>
    ensures synced { OnOk result (IsTrue (names_are_synced folder.new)) }
    ensures refused { IfErr result IsFolderRefusal }
{
    may_begin(folder, alloc, splits)?;
    for shard in 0..splits.as_slice().len() + 1 {
        if let Kind::Nothing = folder.kind(Name::Log(shard))? {
            draft(folder, alloc, splits, shard)?;
        }
    }
    tell(folder, &manifest_text(alloc, splits, name)?)
}

/// Checks whether a store may begin in a folder without a manifest; nothing is made. A log with a number beyond the shards is refused as
/// `settings`. A log that is missing while another one holds a record is refused as `Device`. A log that is not its shard's is refused too.
pub fn may_begin<R: Files<File = File>>(
    folder: &StoreFolder<'_, R>,
    alloc: Global,
    splits: &Splits,
) -> Result<(), Refused>
    ensures { IfErr result IsFolderRefusal }
{
    for beyond in splits.as_slice().len() + 1..16 {
        let Kind::Nothing = folder.kind(Name::Log(beyond))? else {
            return Err(Refused::from(Fault::BadRequest(Reason::Settings)).of(Name::Log(beyond)));
        };
    }
    match lost_log(folder, alloc, splits)? {
        Some(shard) => Err(Refused::lost(Name::Log(shard))),
        None => Ok(()),
    }
}

// The last log that is missing, if another one holds a record: no crash of a new store leaves a record before all its logs have their
// names. Each log that is there belongs to its shard.
fn lost_log<R: Files<File = File>>(
    folder: &StoreFolder<'_, R>,
    alloc: Global,
    splits: &Splits,
) -> Result<Option<usize>, Refused>
    ensures { IfErr result IsFolderRefusal }
{
    let mut missing = None;
    let mut is_held = false;
    for shard in 0..splits.as_slice().len() + 1 {
        match found(folder, alloc, splits, shard)? {
            Some(held) => is_held = is_held || held,
            None => missing = Some(shard),
        }
    }
    Ok(if is_held { missing } else { None })
}

// Whether the log of a shard holds a record, if it is there. A draft that holds one is the log.
fn found<R: Files<File = File>>(
    folder: &StoreFolder<'_, R>,
    alloc: Global,
    splits: &Splits,
    shard: usize,
) -> Result<Option<bool>, Refused>
    requires { shard ≤ 15 }
    ensures { IfErr result IsFolderRefusal }
{
    if let Kind::Nothing = folder.kind(Name::Log(shard))? {
        let Kind::Plain = folder.kind(Name::LogDraft(shard))? else {
            return Ok(None);
        };
        let is_kept = is_kept(folder, alloc, splits, shard)?;
        return Ok(if is_kept { Some(true) } else { None });
    }
    Ok(Some(holds(folder, alloc, Name::Log(shard), splits, shard)?))
}

// A draft stands for a log.
fn draft<R: Files<File = File>>(
    folder: &mut StoreFolder<'_, R>,
    alloc: Global,
    splits: &Splits,
    shard: usize,
) -> Result<(), Refused>
    requires { shard ≤ 15 }
    ensures { IfErr result IsFolderRefusal }
{
    let draft = Name::LogDraft(shard);
    let kind = folder.kind(draft)?;
    if let Kind::Plain = kind {
        if is_kept(folder, alloc, splits, shard)? {
            return Ok(());
        }
    }
    folder.clear(draft, kind)?;
    match GateLog::format(folder.create(draft)?) {
        Ok(log) => {
            drop(log.into_disk());
            Ok(())
        }
        Err((fault, file)) => {
            let refused = Refused::of_file(fault, &file, draft);
            drop(file);
            Err(refused)
        }
    }
}

// Whether a draft holds a record, so that it is the log. One that is no log is made anew, but for one of version 1.
fn is_kept<R: Files<File = File>>(
    folder: &StoreFolder<'_, R>,
    alloc: Global,
    splits: &Splits,
    shard: usize,
) -> Result<bool, Refused>
    requires { shard ≤ 15 }
    ensures { IfErr result IsFolderRefusal }
{
    let draft = Name::LogDraft(shard);
    match holds(folder, alloc, draft, splits, shard) {
        Err(refused) if refused.fault == Fault::NotALog => {
            if is_old(folder, draft)? {
                Err(refused)
            } else {
                Ok(false)
            }
        }
        held => held,
    }
}

// Whether a draft begins as a log of version 1 does. It may hold records, so it is not made anew.
fn is_old<R: Files<File = File>>(folder: &StoreFolder<'_, R>, draft: Name) -> Result<bool, Refused>
    ensures { IfErr result IsSystemRefusal }
{
    let front = folder.read(draft, 8)?;
    Ok(front.as_slice() == b"SPNLOG01".as_slice())
}

// Whether the log of a shard, in a file, holds a record. All that it holds belong to the shard.
fn holds<R: Files<File = File>>(
    folder: &StoreFolder<'_, R>,
    alloc: Global,
    file: Name,
    splits: &Splits,
    shard: usize,
) -> Result<bool, Refused>
    requires { shard ≤ 15 }
    ensures { IfErr result IsFolderRefusal }
{
    match GateLog::open(alloc, folder.open(file)?) {
        Ok((log, entries)) => {
            drop(log.into_disk());
            let fits = all_fit(splits, numbered(shard), &entries);
            let held = !entries.is_empty();
            drop(entries);
            match fits {
                Ok(()) => Ok(held),
                Err(fault) => Err(Refused::from(fault).of(file)),
            }
        }
        Err((fault, disk)) => {
            drop(disk);
            Err(Refused::from(fault).of(file))
        }
    }
}

/// Gives the folder its manifest, which is whole before it has its name.
pub fn tell<R: Files<File = File>>(
    folder: &mut StoreFolder<'_, R>,
    text: &str,
) -> Result<(), Refused>
    ensures synced { OnOk result (IsTrue (names_are_synced folder.new)) }
    ensures refused { IfErr result IsFolderRefusal }
{
    draft_manifest(folder, text)?;
    folder.sync()?;
    folder.name(Name::ManifestDraft, Name::Manifest)?;
    folder.sync()
}

// A draft of the manifest stands whole.
fn draft_manifest<R: Files<File = File>>(
    folder: &mut StoreFolder<'_, R>,
    text: &str,
) -> Result<(), Refused>
    ensures { IfErr result IsFolderRefusal }
{
    let kind = folder.kind(Name::ManifestDraft)?;
    folder.clear(Name::ManifestDraft, kind)?;
    let mut file = folder.create(Name::ManifestDraft)?;
    let written = write(&mut file, text);
    drop(file);
    written
}

fn write(file: &mut FileDisk, text: &str) -> Result<(), Refused>
    ensures { IfErr result IsFolderRefusal }
{
    match written(file, text) {
        Ok(()) => Ok(()),
        Err(fault) => Err(Refused::of_file(fault, file, Name::ManifestDraft)),
    }
}

fn written(file: &mut FileDisk, text: &str) -> Result<(), Fault>
    ensures { IfErr result (λ fault. fault ≡ Fault.Device) }
{
    file.write_at(0, text.as_bytes())?;
    file.sync()
}
