//! Texts of logs.
ghost use Rattle.std.specs.Prelude.{◌≡◌, ◌++◌, ◌∷◌, [], Ok, IfOk, IfErr, List, OnOk, map, string_bytes};
ghost use Rattle.disk.specs.File.{surface};
ghost use Rattle.frames.specs.Placed.{Placed};
ghost use Rattle.showing.specs.Dumps.{IsADump, IsDumpOf, IsNotShown, dump_of};
ghost use Rattle.showing.specs.HistoryTexts.{IsAHistory, IsAValue, IsHistoryIn, IsNotTold, IsValueIn};
ghost use Rattle.showing.specs.Json.{IsAJsonHistory, IsAJsonValue, IsJsonHistoryIn, IsJsonValueIn};
ghost use Rattle.showing.specs.JsonTexts.{AreJsonStats, AreJsonStatsOf, IsAJsonDump, IsJsonDumpOf, LogJson};
ghost use Rattle.showing.specs.Stats.{stats_in};
ghost use Rattle.showing.specs.StatsTexts.{AreStats, AreStatsOf, ToldLog, log_text};

use crate::history_json::{found_json, history_json};
use crate::history_lines::{found_line, history_text};
use crate::lines::dump_text;
use crate::reading::{Dump, read_dump};
use crate::record_json::dump_json;
use crate::shard_log::{read_history, read_value};
use crate::stats::{Numbers, Stats, read_stats};
use crate::stats_json::{push_log_json, push_several_json};
use crate::stats_lines::{push_log, push_several};
use disk::Disk;
use std::alloc::Global;
use system::Files;
use units::{Fault, Key, Setup, Stamp};

/// What the log in a file holds, as text. The file is opened to be read alone.
pub fn dump_file<F: Files>(alloc: Global, files: &F, path: &str) -> Result<String, Fault>
    ensures text { IfOk result (λ text. IsADump (string_bytes text)) }
    ensures named { IfOk result (λ text. IsDumpOf F.Log.keeps_model F.Log.file
        (F.is_named files.now) path.now (string_bytes text)) }
    ensures refused { IfErr result IsNotShown }
{
    let dump = dump_in(alloc, files, path)?;
    dump_text(alloc, &dump.entries, dump.end)
}

// What the log in a file holds.
fn dump_in<F: Files>(alloc: Global, files: &F, path: &str) -> Result<Dump, Fault>
    ensures named { IfOk result (λ dump. (disk : F.Log) × F.is_named files.now path.now disk
        × (F.Log.keeps_model → dump_of (surface (F.Log.file disk)).seen
        ≡ Ok (dump.entries.items, dump.end))) }
    ensures refused { IfErr result IsNotShown }
{
    read_dump(alloc, files.open(alloc, path)?)
}

// What it holds, as numbers.
fn stats_in<F: Files>(alloc: Global, files: &F, log: &str) -> Result<Stats, Fault>
    ensures named { IfOk result (λ stats. (disk : F.Log) × F.is_named files.now log.now disk
        × (F.Log.keeps_model → stats_in (surface (F.Log.file disk)).seen
        ≡ Ok (stats.numbers, stats.in_doubt.items))) }
    ensures refused { IfErr result IsNotShown }
{
    read_stats(alloc, files.open(alloc, log)?)
}

/// Tells what the log in a file holds, as JSON: an object a line. The file is opened to be read alone.
pub fn dump_file_json<F: Files>(alloc: Global, files: &F, path: &str) -> Result<String, Fault>
    ensures text { IfOk result (λ text. IsAJsonDump (string_bytes text)) }
    ensures named { IfOk result (λ text. IsJsonDumpOf F.Log.keeps_model F.Log.file
        (F.is_named files.now) path.now (string_bytes text)) }
    ensures refused { IfErr result IsNotShown }
{
    let dump = dump_in(alloc, files, path)?;
    dump_json(alloc, &dump.entries, dump.end)
}

/// Tells what the logs in some files hold, as one JSON object: the numbers of each, and their sums if there are several. They are opened as
/// `stats_files` opens them.
pub fn stats_files_json<F: Files>(alloc: Global, files: &F, logs: &[&str]) -> Result<String, Fault>
    ensures text { IfOk result (λ text.
        AreJsonStats (map (λ log. log.now) logs.now) (string_bytes text)) }
    ensures named { IfOk result (λ text. AreJsonStatsOf F.Log.keeps_model F.Log.file
        (F.is_named files.now) (map (λ log. log.now) logs.now) (string_bytes text)) }
    ensures refused { IfErr result IsNotShown }
{
    let mut text = String::from_str(alloc, "{\"logs\":[")?;
    let mut told = Vec::new(alloc);
    let mut mark = "";
    for log in logs {
        text.push_str(mark)?;
        tell_log_json(&mut text, &mut told, alloc, files, log)?;
        mark = ",";
    }
    text.push_str("]")?;
    push_several_json(&mut text, &told)?;
    text.push_str("}\n")?;
    Ok(text)
}

// What the log in one file holds stands after the text, and its numbers after those of the others.
fn tell_log_json<F: Files>(
    text: &mut String,
    told: &mut Vec<Numbers>,
    alloc: Global,
    files: &F,
    log: &str,
) -> Result<(), Fault>
    ensures told { OnOk result ((one : LogJson) × (one.told.name ≡ log.now)
        × (told.new.items ≡ told.old.items ++ one.told.numbers ∷ [])
        × (string_bytes text.new ≡ string_bytes text.old ++ one.text)
        × ((disk : F.Log) × F.is_named files.now log.now disk
        × (F.Log.keeps_model → stats_in (surface (F.Log.file disk)).seen
        ≡ Ok (one.told.numbers, one.told.in_doubt)))) }
    ensures refused { IfErr result IsNotShown }
{
    let stats = stats_in(alloc, files, log)?;
    push_log_json(text, alloc, log, &stats)?;
    told.push(stats.numbers)?;
    Ok(())
}

/// What the logs in some files hold, as numbers, and their sums if there are several. Each is opened to be read alone, and closed before
/// the next one.
pub fn stats_files<F: Files>(alloc: Global, files: &F, logs: &[&str]) -> Result<String, Fault>
    ensures text { IfOk result (λ text.
        AreStats (map (λ log. log.now) logs.now) (string_bytes text)) }
    ensures named { IfOk result (λ text. AreStatsOf F.Log.keeps_model F.Log.file
        (F.is_named files.now) (map (λ log. log.now) logs.now) (string_bytes text)) }
    ensures refused { IfErr result IsNotShown }
{
    let mut text = String::new(alloc);
    let mut told = Vec::new(alloc);
    for log in logs {
        tell_log(&mut text, &mut told, alloc, files, log)?;
    }
    push_several(&mut text, &told)?;
    Ok(text)
}

// What the log in one file holds stands behind the text, and its numbers behind those of the others.
fn tell_log<F: Files>(
    text: &mut String,
    told: &mut Vec<Numbers>,
    alloc: Global,
    files: &F,
    log: &str,
) -> Result<(), Fault>
    ensures told { OnOk result ((one : ToldLog) × (one.name ≡ log.now)
        × (told.new.items ≡ told.old.items ++ one.numbers ∷ [])
        × (string_bytes text.new ≡ string_bytes text.old ++ log_text one)
        × ((disk : F.Log) × F.is_named files.now log.now disk
        × (F.Log.keeps_model → stats_in (surface (F.Log.file disk)).seen
        ≡ Ok (one.numbers, one.in_doubt)))) }
    ensures refused { IfErr result IsNotShown }
{
    let stats = stats_in(alloc, files, log)?;
    push_log(text, log, &stats)?;
    told.push(stats.numbers)?;
    Ok(())
}

/// What the log of a shard says of a key, as text.
pub fn history_told<D: Disk + Drop>(
    alloc: Global,
    disk: D,
    setup: &Setup,
    key: &Key,
) -> Result<String, Fault>
    ensures text { IfOk result (λ text. IsAHistory (string_bytes text)) }
    ensures told { D.keeps_model → IfOk result (λ text. IsHistoryIn setup.now key.now
        (surface (D.file disk)).seen (string_bytes text)) }
    ensures refused { IfErr result IsNotTold }
{
    let (from, told) = read_history(alloc, disk, setup, key)?;
    history_text(alloc, from, &told)
}

/// The value of a key by the log of a shard, as a line.
pub fn value_told<D: Disk + Drop>(
    alloc: Global,
    disk: D,
    setup: &Setup,
    key: &Key,
    at: Option<Stamp>,
) -> Result<String, Fault>
    ensures text { IfOk result (λ text. IsAValue (string_bytes text)) }
    ensures told { D.keeps_model → IfOk result (λ text. IsValueIn setup.now key.now at
        (surface (D.file disk)).seen (string_bytes text)) }
    ensures refused { IfErr result IsNotTold }
{
    let found = read_value(alloc, disk, setup, key, at)?;
    found_line(alloc, &found)
}

/// Tells what the log of a shard says of a key, as JSON: an object a line.
pub fn history_told_json<D: Disk + Drop>(
    alloc: Global,
    disk: D,
    setup: &Setup,
    key: &Key,
) -> Result<String, Fault>
    ensures text { IfOk result (λ text. IsAJsonHistory (string_bytes text)) }
    ensures told { D.keeps_model → IfOk result (λ text. IsJsonHistoryIn setup.now key.now
        (surface (D.file disk)).seen (string_bytes text)) }
    ensures refused { IfErr result IsNotTold }
{
    let (from, told) = read_history(alloc, disk, setup, key)?;
    history_json(alloc, from, &told)
}

/// Tells the value of a key by the log of a shard, as one JSON object.
pub fn value_told_json<D: Disk + Drop>(
    alloc: Global,
    disk: D,
    setup: &Setup,
    key: &Key,
    at: Option<Stamp>,
) -> Result<String, Fault>
    ensures text { IfOk result (λ text. IsAJsonValue (string_bytes text)) }
    ensures told { D.keeps_model → IfOk result (λ text. IsJsonValueIn setup.now key.now at
        (surface (D.file disk)).seen (string_bytes text)) }
    ensures refused { IfErr result IsNotTold }
{
    let found = read_value(alloc, disk, setup, key, at)?;
    found_json(alloc, &at, &found)
}
