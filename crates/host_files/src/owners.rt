//! Whose log a file is.
ghost use Rattle.std.specs.Prelude.{◌≡◌, ◌⊎◌, ◌≤◌, ◌+◌, IfOk, IfErr, IfSome, OnOk, length};
ghost use Rattle.filedisk.specs.State.{file_is_changed};
ghost use Rattle.host_files.specs.Folders.{IsFolderFault};
ghost use Rattle.units.specs.declared.fault.Fault.TheVariants.{Device, Memory};

use byteorder::{BigEndian, ByteOrder};
use disk::Disk;
use filedisk::FileDisk;
use gatelog::{Entry, FIRST_GATE, HEADER, area_named};
use record::Record;
use spelling::decode;
use std::alloc::Global;
use units::{Fault, Keys, Parts, Reason, ShardNo, Splits, Writes};

// How many bytes of a log are read for its first record that tells whose it is.
const MOST_FRONT: u64 = 1 << 16;

/// Tells why a record does not belong to the log of a shard, if it does not:
///
/// - `Stranger`: it names a key of another shard;
/// - `settings`: it names a shard that the store does not have;
/// - `Damaged` at its offset: only another shard could have logged it.
///
/// Openings, ceilings, horizons, aborts, outcomes, ids that retire and the base of a renewed log fit every shard.
pub fn misfit(splits: &Splits, shard: ShardNo, item: &Record, offset: u64) -> Option<Fault>
    ensures { IfSome result IsFolderFault }
{
    match item {
        Record::Prepare(prepared) => {
            if prepared.coordinator.number() >= shard.number() {
                return Some(Fault::Damaged { offset });
            }
            stranger(splits, shard, &prepared.reads, &prepared.writes)
        }
        Record::Commit(committed) => {
            if let Some(fault) = misplaced(splits, shard, committed.parts, offset) {
                return Some(fault);
            }
            stranger(splits, shard, &committed.reads, &committed.writes)
        }
        Record::Settled { parts, .. } => misplaced(splits, shard, *parts, offset),
        Record::Closed { coordinator, .. } => {
            if coordinator.number() >= shard.number() {
                return Some(Fault::Damaged { offset });
            }
            None
        }
        Record::Version(version) => {
            if splits.shard_of(&version.key) == shard {
                None
            } else {
                Some(Fault::Stranger)
            }
        }
        Record::Opened { .. }
        | Record::Ceiling { .. }
        | Record::Horizon { .. }
        | Record::Base { .. }
        | Record::Retired { .. } => None,
        Record::Abort { .. } | Record::Outcome { .. } => None,
    }
}

// Why a decision of these parts does not belong to the log of a shard.
fn misplaced(splits: &Splits, shard: ShardNo, parts: Parts, offset: u64) -> Option<Fault>
    ensures { IfSome result IsFolderFault }
{
    if parts.least() != shard {
        return Some(Fault::Damaged { offset });
    }
    if u32::from(parts.mask()) >> (splits.as_slice().len() + 1) != 0 {
        return Some(Fault::BadRequest(Reason::Settings));
    }
    None
}

// A key of another shard.
fn stranger(splits: &Splits, shard: ShardNo, reads: &Keys, writes: &Writes) -> Option<Fault>
    ensures { IfSome result (λ fault. fault ≡ Fault.Stranger) }
{
    for key in reads.as_slice() {
        if splits.shard_of(key) != shard {
            return Some(Fault::Stranger);
        }
    }
    for write in writes.as_slice() {
        if splits.shard_of(&write.key) != shard {
            return Some(Fault::Stranger);
        }
    }
    None
}

/// Checks that all entries belong to the log of a shard. The fault is that of the first one that does not.
pub fn all_fit(splits: &Splits, shard: ShardNo, entries: &[Entry]) -> Result<(), Fault>
    ensures { IfErr result IsFolderFault }
{
    for entry in entries {
        if let Some(fault) = misfit(splits, shard, entry.item(), entry.offset()) {
            return Err(fault);
        }
    }
    Ok(())
}

/// Checks whether a log is that of its shard, by its first record that tells this, among its first 64 KiB. If none tells it, or the file
/// holds no log, this is `Ok`: the opening decides.
pub fn first_fits(
    alloc: Global,
    disk: &mut FileDisk,
    splits: &Splits,
    shard: ShardNo,
) -> Result<(), Fault>
    ensures refused { IfErr result IsFolderFault }
    ensures kept { OnOk result (file_is_changed disk.new ≡ file_is_changed disk.old) }
{
    let len = disk.len();
    let front = part_of(alloc, disk, 0, len.min(FIRST_GATE))?;
    let area = area_of(&front, len);
    drop(front);
    let Some(area) = area else {
        return Ok(());
    };
    let part = part_of(alloc, disk, area, len.saturating_sub(area).min(MOST_FRONT))?;
    let fits = frames_fit(alloc, &part, area, splits, shard);
    drop(part);
    fits
}

/// Reads `size` bytes of a file, from an offset on.
pub fn part_of(alloc: Global, disk: &mut FileDisk, at: u64, size: u64) -> Result<Vec<u8>, Fault>
    ensures size { IfOk result (λ part. length part.items ≡ size) }
    ensures refused { IfErr result (λ fault. (fault ≡ Memory) ⊎ (fault ≡ Device)) }
    ensures kept { file_is_changed disk.new ≡ file_is_changed disk.old }
{
    let mut part = Vec::new(alloc);
    part.resize(size as usize, 0)?;
    disk.read_at(at, &mut part)?;
    Ok(part)
}

/// Finds the offset at which the log begins in a file of this length, by as much of its header and slots as it has. `None` if these are no
/// log's.
pub fn area_of(front: &[u8], len: u64) -> Option<u64>
    requires { (length front.now ≡ len) ⊎ ((length front.now ≡ 9224) × (9224 ≤ len)) }
{
    let Some(slots) = front.strip_prefix(HEADER.as_slice()) else {
        return None;
    };
    area_named(slots, len).ok()
}

// The first record among the frames of a log that tells whose it is counts.
fn frames_fit(
    alloc: Global,
    bytes: &[u8],
    area: u64,
    splits: &Splits,
    shard: ShardNo,
) -> Result<(), Fault>
    ensures { IfErr result IsFolderFault }
{
    let mut at = 0;
    while at < bytes.len() && bytes[at] == 0xa5 {
        let Some(body) = body_of(&bytes[at + 1..]) else {
            return Ok(());
        };
        if !is_silent(alloc, body, area.saturating_add(at as u64), splits, shard)? {
            return Ok(());
        }
        at += 5 + body.len();
    }
    Ok(())
}

// The body of a frame: what follows its length.
fn body_of(bytes: &[u8]) -> Option<&[u8]>
    ensures { IfSome result (λ body. 4 + length body.now ≤ length bytes.now) }
{
    if bytes.len() < 4 {
        return None;
    }
    let (front, rest) = bytes.split_at(4);
    rest.get(..BigEndian::read_u32(front) as usize)
}

// Whether the bytes of a record are one that does not tell whose log it is in. One that tells another shard's is refused.
fn is_silent(
    alloc: Global,
    body: &[u8],
    offset: u64,
    splits: &Splits,
    shard: ShardNo,
) -> Result<bool, Fault>
    ensures { IfErr result IsFolderFault }
{
    let Some(item) = decode(alloc, body)? else {
        return Ok(false);
    };
    let misfit = misfit(splits, shard, &item, offset);
    let tells = tells_its_shard(&item);
    drop(item);
    match misfit {
        Some(fault) => Err(fault),
        None => Ok(!tells),
    }
}

// Whether a record tells whose log it is in: a promise, a decision, how one ended, or a version.
fn tells_its_shard(item: &Record) -> bool {
    match item {
        Record::Prepare(_)
        | Record::Commit(_)
        | Record::Version(_)
        | Record::Settled { .. }
        | Record::Closed { .. } => true,
        Record::Opened { .. }
        | Record::Ceiling { .. }
        | Record::Horizon { .. }
        | Record::Base { .. }
        | Record::Abort { .. }
        | Record::Outcome { .. }
        | Record::Retired { .. } => false,
    }
}
