//! The logs of the shards of a drive.
ghost use Rattle.std.specs.Prelude.{◌≡◌, ◌+◌, ◌<◌, ◌≤◌, [], IfOk, IfErr, OnOk, Ok, All, length, IsFalse, IsOk, IsTrue, false};
ghost use Rattle.disk.specs.File.{surface};
ghost use Rattle.disk.specs.declared.plan.FailurePlan.TheVariants.{Never};
ghost use Rattle.filedisk.specs.State.{file_is_changed};
ghost use Rattle.gatelog.specs.Crash.{Stands};
ghost use Rattle.gatelog.specs.Log.{log};
ghost use Rattle.host_files.specs.Folders.{IsFolderRefusal, IsSystemRefusal, names_are_synced};
ghost use Rattle.simdisk.specs.State.{disk_file, disk_plan};
ghost use Rattle.units.specs.declared.fault.Fault.TheVariants.{Memory};

use crate::agreeing::agree;
use crate::beginning::{begin, may_begin};
use crate::manifest::{MOST_MANIFEST, is_manifest_of};
use crate::names::{Kind, Name, StoreFolder};
use crate::newest::{Limit, Newest};
use crate::owners::first_fits;
use crate::refused::Refused;
use crate::shards::numbered;
use filedisk::{Cause, FileDisk, cause_of};
use gatelog::GateLog;
use simdisk::SimDisk;
use std::alloc::Global;
use std::fs::File;
use std::random::RandomSource;
use std::rt::Files;
use units::{Fault, Reason, Splits};

/// What is expected in a folder. Its manifest (`store.toml`) tells what it is.
#[derive(Clone, Copy, PartialEq, Eq)]
pub enum Expected {
    /// A store, which is opened. If there is none, the folder is refused as `Device`.
    Store,
    /// No store, and one is made. If one is there, the folder is refused as `Device`.
    NoStore,
    /// A store, or none. One is made if there is none.
    Either,
}

impl Expected {
    // Refuses what is not expected, by whether there is a store.
    fn check(self, is_there: bool) -> Result<(), Refused>
        ensures store { IsOk result → self ≡ Expected.Store → IsTrue is_there }
        ensures none { IsOk result → self ≡ Expected.NoStore → IsFalse is_there }
        ensures either { self ≡ Expected.Either → IsOk result }
        ensures refused { IfErr result IsSystemRefusal }
    {
        match (self, is_there) {
            (Expected::Store, false) => Err(Refused::no_store()),
            (Expected::NoStore, true) => Err(Refused::from(Cause::Exists).of(Name::Manifest)),
            _ => Ok(()),
        }
    }
}

/// The logs of a store in a folder, by shard, and the greatest timestamp in them.
#[derive(Drop)]
pub struct FoundLogs {
    /// The logs, one more than there are splits.
    pub disks: Vec<FileDisk>,
    /// Their greatest timestamp.
    pub newest: Newest,
}

/// Opens and locks the logs of a store in a folder: `shard-0.log` and so on, one more than there are splits. The folder has to be there. It
/// is locked until this returns. What is expected there is checked first.
///
/// A folder with a manifest (`store.toml`) has one log a shard. These are refused, in this order:
///
/// - a manifest of other splits, or a file that is no manifest: `settings`;
/// - a log that is missing and has no draft: `Device`;
/// - a log of another shard, as its opening would refuse it.
///
/// A folder without a manifest gets one, and the logs that are missing (`begin`). Each log that is there has to belong to its shard. One with
/// a number beyond the shards is refused as `settings`. A log that is missing while another one holds a record is lost: it is refused as
/// `Device`, and nothing is made. Until the manifest has its name on the device, no log gets one, and nothing is written to a log that holds
/// a record. After `Ok` all names are on the device.
///
/// What is made here is a draft until it is whole: `shard-0.log.new`, `store.toml.new`. If there is a manifest, the draft of a missing log
/// gets that log's name, whatever it holds. If there is none, the draft of a missing log is the log if it holds a record, and gets its name
/// too. One of version 1, a damaged one and one of another shard are refused. Any other is taken away and made anew, also a link. A file that
/// has the name of a log and is none is never made anew, not even an empty one: it is refused.
///
/// Then all logs are read, before any takes a record (`agree`). A log is refused if its opening would refuse its records, one after another.
/// It is refused as `Damaged` at the end of its records if it lacks what another log says of it. Then it is new, of another moment, or of
/// another store.
pub fn logs_in<R: Files<File = File> + RandomSource>(
    rt: &R,
    alloc: Global,
    folder: &str,
    splits: &Splits,
    expected: Expected,
) -> Result<Vec<FileDisk>, Refused>
    ensures all { IfOk result (λ logs. length logs.items ≡ length splits.now + 1) }
    // Each is what stands under its name: it was opened, and read alone.
    ensures unchanged { IfOk result
        (λ logs. All (λ log. file_is_changed log ≡ false) logs.items) }
    ensures refused { IfErr result IsFolderRefusal }
{
    let FoundLogs { disks, .. } = found_in(rt, alloc, folder, splits, expected)?;
    Ok(disks)
}

/// The same, with the greatest timestamp of the logs, so that a caller can compare it with a clock before anything is written to them.
pub fn found_in<R: Files<File = File> + RandomSource>(
    rt: &R,
    alloc: Global,
    folder: &str,
    splits: &Splits,
    expected: Expected,
) -> Result<FoundLogs, Refused>
    ensures all { IfOk result (λ found. length found.disks.items ≡ length splits.now + 1) }
    ensures unchanged { IfOk result
        (λ found. All (λ log. file_is_changed log ≡ false) found.disks.items) }
    ensures refused { IfErr result IsFolderRefusal }
{
    let mut folder = StoreFolder::lock(rt, alloc, folder)?;
    let found = logs_of(&mut folder, rt, alloc, splits, expected);
    drop(folder);
    found
}

/// The same in a folder that is locked.
pub fn logs_of<R: Files<File = File> + RandomSource>(
    folder: &mut StoreFolder<'_, R>,
    rt: &R,
    alloc: Global,
    splits: &Splits,
    expected: Expected,
) -> Result<FoundLogs, Refused>
    ensures all { IfOk result (λ found. length found.disks.items ≡ length splits.now + 1) }
    ensures unchanged { IfOk result
        (λ found. All (λ log. file_is_changed log ≡ false) found.disks.items) }
    ensures synced { OnOk result (IsTrue (names_are_synced folder.new)) }
    ensures refused { IfErr result IsFolderRefusal }
{
    if !is_known(folder, alloc, splits, expected)? {
        begin(folder, alloc, splits, drawn(rt)?)?;
    }
    name_all(folder, splits)?;
    let disks = open_all(folder, alloc, splits)?;
    match agree(folder, alloc, splits) {
        Ok(newest) => Ok(FoundLogs { disks, newest }),
        Err(refused) => {
            drop(disks);
            Err(refused)
        }
    }
}

// Whether there is a manifest, as expected. It is then that of a store with these splits.
fn is_known<R: Files<File = File>>(
    folder: &StoreFolder<'_, R>,
    alloc: Global,
    splits: &Splits,
    expected: Expected,
) -> Result<bool, Refused>
    ensures store { IfOk result
        (λ known. (expected ≡ Expected.Store → IsTrue known)
        × (expected ≡ Expected.NoStore → IsFalse known)) }
    ensures refused { IfErr result IsFolderRefusal }
{
    let is_there = !matches!(folder.kind(Name::Manifest)?, Kind::Nothing);
    expected.check(is_there)?;
    if !is_there {
        return Ok(false);
    }
    let text = folder.read(Name::Manifest, MOST_MANIFEST)?;
    let is_known = is_manifest_of(alloc, &text, splits);
    drop(text);
    match is_known {
        Ok(true) => Ok(true),
        Ok(false) => { Err(Refused::from(Fault::BadRequest(Reason::Settings)).of(Name::Manifest)) }
        Err(fault) => Err(Refused::from(fault)),
    }
}

// Some number for the name of a new store.
fn drawn<R: RandomSource>(rt: &R) -> Result<u64, Refused>
    ensures { IfErr result IsSystemRefusal }
{
    let mut bytes = [0; 8];
    match rt.fill_bytes(&mut bytes) {
        Ok(()) => Ok(u64::from_be_bytes(bytes)),
        Err(error) => Err(Refused::from(cause_of(&error))),
    }
}

// Gives each draft whose log is missing the name of the log. Before any is named, each log is there or its draft is. After `Ok` all names are
// on the device.
fn name_all<R: Files<File = File>>(
    folder: &mut StoreFolder<'_, R>,
    splits: &Splits,
) -> Result<(), Refused>
    ensures synced { OnOk result (IsTrue (names_are_synced folder.new)) }
    ensures refused { IfErr result IsFolderRefusal }
{
    let missing = missing_logs(folder, splits)?;
    for shard in 0..16 {
        if missing[shard] {
            folder.sync()?;
            folder.name(Name::LogDraft(shard), Name::Log(shard))?;
        }
    }
    folder.sync()
}

// Which of the shards' logs are missing. Each that is has a draft.
fn missing_logs<R: Files<File = File>>(
    folder: &StoreFolder<'_, R>,
    splits: &Splits,
) -> Result<[bool; 16], Refused>
    ensures { IfErr result IsFolderRefusal }
{
    let mut missing = [false; 16];
    for shard in 0..splits.as_slice().len() + 1 {
        if let Kind::Nothing = folder.kind(Name::Log(shard))? {
            let Kind::Plain = folder.kind(Name::LogDraft(shard))? else {
                return Err(Refused::lost(Name::Log(shard)));
            };
            missing[shard] = true;
        }
    }
    Ok(missing)
}

// Opens each log, which is that of its shard.
fn open_all<R: Files<File = File>>(
    folder: &StoreFolder<'_, R>,
    alloc: Global,
    splits: &Splits,
) -> Result<Vec<FileDisk>, Refused>
    ensures all { IfOk result (λ logs. length logs.items ≡ length splits.now + 1) }
    ensures unchanged { IfOk result
        (λ logs. All (λ log. file_is_changed log ≡ false) logs.items) }
    ensures refused { IfErr result IsFolderRefusal }
{
    let shards = splits.as_slice().len() + 1;
    let mut logs = Vec::new(alloc);
    for shard in 0..shards {
        logs.push(opened(folder, alloc, splits, shard)?)?;
    }
    Ok(logs)
}

// Opens the log of a shard.
fn opened<R: Files<File = File>>(
    folder: &StoreFolder<'_, R>,
    alloc: Global,
    splits: &Splits,
    shard: usize,
) -> Result<FileDisk, Refused>
    requires { shard ≤ 15 }
    ensures unchanged { IfOk result (λ log. file_is_changed log ≡ false) }
    ensures refused { IfErr result IsFolderRefusal }
{
    let mut log = folder.open(Name::Log(shard))?;
    match first_fits(alloc, &mut log, splits, numbered(shard)) {
        Ok(()) => Ok(log),
        Err(fault) => {
            drop(log);
            Err(Refused::from(fault).of(Name::Log(shard)))
        }
    }
}

/// Tells why the logs of the store in a folder are refused now, by what is expected there; `None` if they are not. Nothing is made or named.
/// If the folder itself is refused, or it is locked already, the refusal names no file.
pub fn refusal_in<R: Files<File = File>>(
    rt: &R,
    alloc: Global,
    folder: &str,
    splits: &Splits,
    expected: Expected,
) -> Option<Refused> {
    refusal_at(rt, alloc, folder, splits, expected, None)
}

/// The same. If there is a limit, logs that are farther ahead of its present are refused too.
pub fn refusal_at<R: Files<File = File>>(
    rt: &R,
    alloc: Global,
    folder: &str,
    splits: &Splits,
    expected: Expected,
    limit: Option<Limit>,
) -> Option<Refused> {
    match StoreFolder::lock(rt, alloc, folder) {
        Ok(folder) => {
            let looked = look(&folder, alloc, splits, expected);
            drop(folder);
            match (looked, limit) {
                (Err(refused), _) => Some(refused),
                (Ok(Some(newest)), Some(limit)) => limit.check(newest).err(),
                _ => None,
            }
        }
        Err(refused) => Some(refused),
    }
}

// Looks at the logs of a store, if it has a manifest, for their greatest timestamp; else at what is there without one.
fn look<R: Files<File = File>>(
    folder: &StoreFolder<'_, R>,
    alloc: Global,
    splits: &Splits,
    expected: Expected,
) -> Result<Option<Newest>, Refused>
    ensures { IfErr result IsFolderRefusal }
{
    if !is_known(folder, alloc, splits, expected)? {
        may_begin(folder, alloc, splits)?;
        return Ok(None);
    }
    missing_logs(folder, splits)?;
    drop(open_all(folder, alloc, splits)?);
    Ok(Some(agree(folder, alloc, splits)?))
}

/// Makes new logs on disks in memory, one for each shard.
pub fn logs_in_memory(alloc: Global, shards: usize) -> Result<Vec<SimDisk>, Fault>
    ensures all { IfOk result (λ logs. length logs.items ≡ shards) }
    ensures memory { IfErr result (λ fault. fault ≡ Memory) }
    // From then on every crash leaves the empty log, and a read gives it.
    ensures empty { IfOk result
        (λ logs. All (λ disk. Stands (surface (disk_file disk)) (Ok [])) logs.items) }
    ensures read { IfOk result
        (λ logs. All (λ disk. log (surface (disk_file disk)).seen ≡ Ok []) logs.items) }
    // No call is armed to fail.
    ensures planned { IfOk result (λ logs. All (λ disk. disk_plan disk ≡ Never) logs.items) }
{
    let mut logs = Vec::new(alloc);
    for _ in 0..shards {
        match GateLog::format(SimDisk::new(alloc)) {
            Ok(log) => logs.push(log.into_disk())?,
            Err((fault, disk)) => {
                drop(disk);
                return Err(fault);
            }
        }
    }
    Ok(logs)
}
