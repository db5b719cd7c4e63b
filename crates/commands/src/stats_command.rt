//! The commands `stats` and `dump`: what logs hold.
ghost use Rattle.std.specs.Prelude.{◌≡◌, IfErr, IfOk, IfSome, map, string_bytes};
ghost use Rattle.commands.specs.Faults.{IsNotCounted, IsUnreadStore};
ghost use Rattle.commands.specs.OnDisks.{AreStatsAsOf, AreStatsInOf, IsDumpAsOf};
ghost use Rattle.commands.specs.Replies.{AreLogsOf, AreStatsAs, AreStatsIn, IsDumpAs, log_name, log_names};
ghost use Rattle.showing.specs.Dumps.{IsNotShown};

use crate::store_folder::splits_of;
use showing::{dump_file, dump_file_json, stats_files, stats_files_json};
use std::alloc::Global;
use system::Files;
use units::Fault;

/// What the log in a file holds, as text or as JSON.
pub fn dump<F: Files>(alloc: Global, file: &str, json: bool, files: &F) -> Result<String, Fault>
    ensures text { IfOk result (λ text. IsDumpAs json (string_bytes text)) }
    // It is that of the file of this name.
    ensures named { IfOk result (λ text. IsDumpAsOf F.Log.keeps_model F.Log.file
        (F.is_named files.now) json file.now (string_bytes text)) }
    ensures refused { IfErr result IsNotShown }
{
    if json {
        dump_file_json(alloc, files, file)
    } else {
        dump_file(alloc, files, file)
    }
}

/// What some logs hold, as numbers, or if one word names the folder of a store what its logs hold: as text or as JSON.
pub fn stats<F: Files>(alloc: Global, logs: &[&str], json: bool, files: &F) -> Result<String, Fault>
    ensures text { IfOk result (λ text.
        AreStatsAs json (map (λ log. log.now) logs.now) (string_bytes text)) }
    // They are those of the files of these names.
    ensures named { IfOk result (λ text. AreStatsAsOf F.Log.keeps_model F.Log.file
        (F.is_named files.now) json (map (λ log. log.now) logs.now) (string_bytes text)) }
    ensures refused { IfErr result IsNotCounted }
{
    if let [folder] = logs {
        if let Some(names) = logs_in(alloc, folder, files)? {
            return stats_of_store(alloc, &names, json, files);
        }
    }
    stats_of(alloc, logs, json, files)
}

/// The logs of the store in a folder, if there is a manifest that can be read.
pub fn logs_in<F: Files>(
    alloc: Global,
    folder: &str,
    files: &F,
) -> Result<Option<Vec<String>>, Fault>
    ensures names { IfOk result (λ found. IfSome found (λ names.
        AreLogsOf folder.now (map (λ name. string_bytes name) names.items))) }
    ensures refused { IfErr result IsUnreadStore }
{
    match splits_of(alloc, files, folder) {
        Ok(splits) => {
            let shards = splits.as_slice().len() + 1;
            drop(splits);
            Ok(Some(names_of(alloc, folder, shards)?))
        }
        Err(Fault::Device) => Ok(None),
        Err(fault) => Err(fault),
    }
}

// The names of so many logs in a folder.
fn names_of(alloc: Global, folder: &str, shards: usize) -> Result<Vec<String>, Fault>
    ensures names { IfOk result (λ names.
        map (λ name. string_bytes name) names.items ≡ log_names folder.now shards) }
    ensures memory { IfErr result (λ fault. fault ≡ Fault.Memory) }
{
    let mut names = Vec::new(alloc);
    for shard in 0..shards {
        let name = name_of(alloc, folder, shard)?;
        names.push(name)?;
    }
    Ok(names)
}

fn name_of(alloc: Global, folder: &str, shard: usize) -> Result<String, Fault>
    ensures name { IfOk result (λ name. string_bytes name ≡ log_name folder.now shard) }
    ensures memory { IfErr result (λ fault. fault ≡ Fault.Memory) }
{
    Ok(format!(in alloc; "{folder}/shard-{shard}.log")?)
}

// What the logs of a store hold, by their names.
fn stats_of_store<F: Files>(
    alloc: Global,
    names: &[String],
    json: bool,
    files: &F,
) -> Result<String, Fault>
    ensures text { IfOk result (λ text.
        AreStatsIn json (map (λ name. string_bytes name) names.now) (string_bytes text)) }
    ensures named { IfOk result (λ text. AreStatsInOf F.Log.keeps_model F.Log.file
        (F.is_named files.now) json (map (λ name. string_bytes name) names.now)
        (string_bytes text)) }
    ensures refused { IfErr result IsNotCounted }
{
    let mut logs = Vec::new(alloc);
    for name in names {
        logs.push(name.as_str())?;
    }
    stats_of(alloc, &logs, json, files)
}

fn stats_of<F: Files>(alloc: Global, logs: &[&str], json: bool, files: &F) -> Result<String, Fault>
    ensures text { IfOk result (λ text.
        AreStatsIn json (map (λ log. log.now) logs.now) (string_bytes text)) }
    ensures named { IfOk result (λ text. AreStatsInOf F.Log.keeps_model F.Log.file
        (F.is_named files.now) json (map (λ log. log.now) logs.now) (string_bytes text)) }
    ensures refused { IfErr result IsNotCounted }
{
    if json {
        Ok(stats_files_json(alloc, files, logs)?)
    } else {
        Ok(stats_files(alloc, files, logs)?)
    }
}
