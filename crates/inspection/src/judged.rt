//! The verdict on disks that are handed back.
ghost use Rattle.std.specs.Prelude.{◌≡◌, ◌⊎◌, ◌<◌, IfOk, IfErr, IsTrue, Ok, Err, List, map, length};
ghost use Rattle.disk.specs.File.{surface};
ghost use Rattle.record.specs.declared.record.Record.{Record};
ghost use Rattle.record.specs.Verdict.{verdict};
ghost use Rattle.gatelog.specs.Log.{is_no_log};
ghost use Rattle.inspection.specs.Files.{HasFailed};
ghost use Rattle.inspection.specs.Judged.{HaveLogs, IsJudged, OneIsRefused, records_held};

use disk::Disk;
use gatelog::{Entry, GateLog};
use inspector::inspect;
use record::Record;
use std::alloc::Global;
use units::{Fault, Line, Verdict};

/// Judges the logs on the disks of shards 0, 1 and so on, with the lines of a report. It hands the disks back with the verdict.
pub fn judge<D: Disk + Drop>(
    alloc: Global,
    disks: Vec<D>,
    lines: &[Line],
) -> Result<(Verdict, Vec<D>), Fault>
    ensures verdict { IfOk result (λ judged. D.keeps_model
        → IsJudged (λ disk. (surface (D.file disk)).seen) judged.1.items lines.now judged.0) }
    ensures disks { IfOk result (λ judged. length judged.1.items ≡ length disks.items) }
    ensures same { IfOk result (λ judged. D.keeps_model
        → map (λ disk. (surface (D.file disk)).seen) judged.1.items
        ≡ map (λ disk. (surface (D.file disk)).seen) disks.items) }
    ensures refused { IfErr result (λ fault. (fault ≡ Fault.Memory)
        ⊎ (((fault ≡ Fault.Device) × HasFailed D.failures disks.items)
        ⊎ (IsTrue (is_no_log fault) × (D.keeps_model
        → OneIsRefused (λ disk. (surface (D.file disk)).seen) disks.items fault)))) }
{
    let (logs, disks) = logs_of(alloc, disks)?;
    let found = inspect(alloc, &logs, lines);
    drop(logs);
    match found {
        Ok(found) => Ok((found, disks)),
        Err(fault) => {
            drop(disks);
            Err(fault)
        }
    }
}

// The logs that the disks hold, and the disks.
fn logs_of<D: Disk + Drop>(
    alloc: Global,
    disks: Vec<D>,
) -> Result<(Vec<Vec<Record>>, Vec<D>), Fault>
    ensures logs { IfOk result (λ read. D.keeps_model
        → HaveLogs (λ disk. (surface (D.file disk)).seen) read.1.items
        (map (λ log. log.items) read.0.items)) }
    ensures disks { IfOk result (λ read. length read.1.items ≡ length disks.items) }
    ensures same { IfOk result (λ read. D.keeps_model
        → map (λ disk. (surface (D.file disk)).seen) read.1.items
        ≡ map (λ disk. (surface (D.file disk)).seen) disks.items) }
    ensures refused { IfErr result (λ fault. (fault ≡ Fault.Memory)
        ⊎ (((fault ≡ Fault.Device) × HasFailed D.failures disks.items)
        ⊎ (IsTrue (is_no_log fault) × (D.keeps_model
        → OneIsRefused (λ disk. (surface (D.file disk)).seen) disks.items fault)))) }
{
    let mut logs = Vec::new(alloc);
    let mut read = Vec::new(alloc);
    for disk in disks {
        let (log, disk) = log_of(alloc, disk)?;
        logs.push(log)?;
        read.push(disk)?;
    }
    Ok((logs, read))
}

// The records of the log that a disk holds, and the disk.
fn log_of<D: Disk + Drop>(alloc: Global, disk: D) -> Result<(Vec<Record>, D), Fault>
    ensures log { IfOk result (λ read. D.keeps_model
        → records_held (surface (D.file read.1)).seen ≡ Ok read.0.items) }
    ensures same { IfOk result (λ read. D.keeps_model
        → (surface (D.file read.1)).seen ≡ (surface (D.file disk)).seen) }
    ensures refused { IfErr result (λ fault. (fault ≡ Fault.Memory)
        ⊎ (((fault ≡ Fault.Device) × ((back : D) × (D.failures disk < D.failures back)))
        ⊎ (IsTrue (is_no_log fault) × (D.keeps_model
        → records_held (surface (D.file disk)).seen ≡ Err fault)))) }
{
    match GateLog::open(alloc, disk) {
        Ok((gate_log, entries)) => {
            let disk = gate_log.into_disk();
            let records = items_of(alloc, &entries);
            drop(entries);
            match records {
                Ok(records) => Ok((records, disk)),
                Err(fault) => {
                    drop(disk);
                    Err(fault)
                }
            }
        }
        Err((fault, disk)) => {
            drop(disk);
            Err(fault)
        }
    }
}

// The records of some entries, with memory of their own.
fn items_of(alloc: Global, entries: &[Entry]) -> Result<Vec<Record>, Fault>
    ensures same { IfOk result (λ records. records.items ≡ map (λ e. e.item) entries.now) }
    ensures memory { IfErr result (λ fault. fault ≡ Fault.Memory) }
{
    let mut records = Vec::new(alloc);
    for entry in entries {
        records.push(entry.item().copy(alloc)?)?;
    }
    Ok(records)
}
