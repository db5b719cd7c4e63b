//! The verdict on the logs that some disks hold.
ghost use Rattle.std.specs.Prelude.{◌≡◌, ◌⊎◌, ◌<◌, ◌∷◌, [], ℕ, List, Some, None, Ok, Err, IfOk, IfErr, OnOk, MatchResult, IsTrue, map, if◌then◌else◌, nat_lt};
ghost use Rattle.disk.specs.File.{surface};
ghost use Rattle.gatelog.specs.Log.{is_no_log};
ghost use Rattle.inspection.specs.Files.{HasFailed, is_refusal, logs_behind, shard_log, verdict_on};

use crate::following::records_of;
use disk::Disk;
use gatelog::GateLog;
use inspector::inspect;
use record::Record;
use std::alloc::Global;
use units::{Fault, Line, Reason, ShardNo, Verdict};

/// Judges the logs on the disks of shards 0, 1 and so on, 16 at most, with the lines of a report. More disks are refused as `many`. A record
/// that does not follow those before it is `Damaged` at its gate. It does not ask which keys belong to a shard, and writes nothing.
pub fn inspect_disks<D: Disk + Drop>(
    alloc: Global,
    disks: Vec<D>,
    lines: &[Line],
) -> Result<Verdict, Fault>
    ensures verdict { D.keeps_model → IfOk result (λ found.
        verdict_on (map (λ d. (surface (D.file d)).seen) disks.items) lines.now ≡ Ok found) }
    ensures refused { IfErr result (λ fault. (fault ≡ Fault.Memory)
        ⊎ (((fault ≡ Fault.Device) × HasFailed D.failures disks.items)
        ⊎ (IsTrue (is_refusal fault) × (D.keeps_model →
        verdict_on (map (λ d. (surface (D.file d)).seen) disks.items) lines.now ≡ Err fault)))) }
{
    let logs = read_logs(alloc, disks)?;
    inspect(alloc, &logs, lines)
}

// The logs of shards 0, 1 and so on.
fn read_logs<D: Disk + Drop>(alloc: Global, disks: Vec<D>) -> Result<Vec<Vec<Record>>, Fault>
    ensures logs { D.keeps_model → IfOk result (λ logs.
        logs_behind [] (map (λ d. (surface (D.file d)).seen) disks.items)
        ≡ Ok (map (λ log. log.items) logs.items)) }
    ensures refused { IfErr result (λ fault. (fault ≡ Fault.Memory)
        ⊎ (((fault ≡ Fault.Device) × HasFailed D.failures disks.items)
        ⊎ (IsTrue (is_refusal fault) × (D.keeps_model →
        logs_behind [] (map (λ d. (surface (D.file d)).seen) disks.items) ≡ Err fault)))) }
{
    let mut logs = Vec::new(alloc);
    for disk in disks {
        read_next(&mut logs, alloc, disk)?;
    }
    Ok(logs)
}

// Reads the log of the next shard.
fn read_next<D: Disk + Drop>(
    logs: &mut Vec<Vec<Record>>,
    alloc: Global,
    disk: D,
) -> Result<(), Fault>
    ensures read { D.keeps_model → OnOk result ((rest : List (List ℕ)) →
        logs_behind (map (λ log. log.items) logs.old.items) ((surface (D.file disk)).seen ∷ rest)
        ≡ logs_behind (map (λ log. log.items) logs.new.items) rest) }
    ensures refused { IfErr result (λ fault. (fault ≡ Fault.Memory)
        ⊎ (((fault ≡ Fault.Device) × ((back : D) × (D.failures disk < D.failures back)))
        ⊎ (IsTrue (is_refusal fault) × (D.keeps_model → (rest : List (List ℕ)) →
        logs_behind (map (λ log. log.items) logs.old.items) ((surface (D.file disk)).seen ∷ rest)
        ≡ Err fault)))) }
{
    let Some(shard) = shard_of_count(logs.len()) else {
        return Err(Fault::BadRequest(Reason::Many));
    };
    match read_log(alloc, disk, shard) {
        Ok((records, _)) => Ok(logs.push(records)?),
        Err((fault, _)) => Err(fault),
    }
}

// The shard that so many others come before.
fn shard_of_count(count: usize) -> Option<ShardNo>
    ensures { result ≡ (if nat_lt count 16 then Some count else None) }
{
    if count < 16 {
        ShardNo::new(count as u8)
    } else {
        None
    }
}

/// Reads the records of the log of a shard, and gives its disk back, which reads as it did.
pub fn read_log<D: Disk>(
    alloc: Global,
    disk: D,
    shard: ShardNo,
) -> Result<(Vec<Record>, D), (Fault, D)>
    ensures records { D.keeps_model → IfOk result (λ read.
        shard_log shard (surface (D.file disk)).seen ≡ Ok read.0.items) }
    ensures refused { IfErr result (λ refused. (refused.0 ≡ Fault.Memory)
        ⊎ (((refused.0 ≡ Fault.Device) × (D.failures disk < D.failures refused.1))
        ⊎ (IsTrue (is_no_log refused.0) × (D.keeps_model →
        shard_log shard (surface (D.file disk)).seen ≡ Err refused.0)))) }
    ensures unchanged { D.keeps_model → MatchResult result
        (λ read. (surface (D.file read.1)).seen ≡ (surface (D.file disk)).seen)
        (λ refused. (refused.0 ≡ Fault.Device)
        ⊎ ((surface (D.file refused.1)).seen ≡ (surface (D.file disk)).seen)) }
{
    let (log, entries) = GateLog::open(alloc, disk)?;
    let disk = log.into_disk();
    let records = records_of(alloc, &entries, shard);
    drop(entries);
    match records {
        Ok(records) => Ok((records, disk)),
        Err(fault) => Err((fault, disk)),
    }
}
