//! Shards on the machine's threads.
ghost use Rattle.std.specs.Prelude.{◌≡◌, ◌+◌, ◌*◌, IfErr, IfOk, IfSome, IsOk, None, Some, length, string_bytes};
ghost use Rattle.disk.specs.File.{surface};
ghost use Rattle.simdisk.specs.State.{disk_file};
ghost use Rattle.units.specs.declared.line.Verdict.{Verdict};
ghost use Rattle.workers.specs.Course.{IsDrivable};
ghost use Rattle.workers.specs.Summaries.{counts_text, summary_text};
ghost use Rattle.workers.specs.declared.summary.Counts.{Counts};
ghost use Rattle.drive.specs.Told.{AreCounts, HasNoVerdict, IsTold, IsToldOf, IsUndriven, IsUnjudged};

use crate::engine::{self, clock_of, drive_wide};
use disk::Disk;
use filedisk::FileDisk;
use host_files::{Causes, Expected, Noted, logs_in, logs_in_memory};
use letters::Gate;
use progress::{NoWatch, Terminal, Watch};
use settings::Settings;
use std::alloc::Global;
use std::fs::File;
use std::io::Write;
use std::random::RandomSource;
use std::sync::Wait;
use std::thread::Threads;
use std::{rt, time};
use system::{Driven, NoVerdict};
use units::{Fault, ShardNo};
use workers::Summary;

/// Runs shards and workers by some settings. The logs lie in the folder of the settings, if they name one, and else on disks in memory. If
/// there is a terminal, it shows how far the drive is, and each shard whose device fails. After such a failure the drive ends soon, and is
/// refused as `Device`, with its counts. A refusal of a folder is noted, with the first log that is refused or has failed, and the reason.
pub fn drive_shards<
    R: rt::Files<File = File> + RandomSource + Threads + Wait + time::Clock + Sync,
    W: Write + Drop + Send,
>(
    rt: &R,
    alloc: Global,
    settings: &Settings,
    writer: Option<W>,
    is_running: bool,
    noted: &Noted,
) -> Result<Driven, NoVerdict>
    ensures told { IfOk result (λ driven. IsTold
        (settings.now.workers * settings.now.transactions)
        (string_bytes driven.text) driven.verdict) }
    // On disks in memory the verdict is that on the logs of some disks, one a shard, and on lines of which the counts are.
    ensures judged { settings.now.dir ≡ None → IfOk result (λ driven.
        IsToldOf (Unit {0}) (λ disk. (surface (disk_file disk)).seen)
        (length settings.now.splits + 1) (settings.now.workers * settings.now.transactions)
        (string_bytes driven.text) driven.verdict) }
    ensures counted { IfErr result (λ none. IfSome none.text (λ text.
        AreCounts (settings.now.workers * settings.now.transactions) (string_bytes text))) }
    ensures unjudged { IfErr result (λ none. IfSome none.text (λ text.
        IsUnjudged none.fault)) }
    ensures refused { IfErr result (λ none. HasNoVerdict none.fault) }
    ensures limits { IsOk result
        → IsDrivable settings.now.workers settings.now.transactions settings.now.keys }
{
    let turns = settings.workers.saturating_mul(settings.transactions);
    let watch = match writer {
        Some(writer) => Some(terminal(rt, alloc, writer, turns, is_running)),
        None => None,
    };
    let driven = drive_watched(rt, alloc, settings, &Open, &watch, noted);
    if let Some(terminal) = watch {
        terminal.finish();
    }
    driven
}

// Makes what a drive of so many turns is shown on.
fn terminal<'r, R: Wait + time::Clock, W: Write + Drop>(
    rt: &'r R,
    alloc: Global,
    writer: W,
    turns: u64,
    is_running: bool,
) -> Terminal<'r, R, W> {
    if is_running {
        Terminal::new(rt, alloc, writer, turns)
    } else {
        Terminal::quiet(rt, alloc, writer, turns)
    }
}

/// Runs shards and workers by some settings, as the command `drive` does, with a gate that the letters of the nodes go through. Returns the
/// text that the command prints.
pub fn run<
    R: rt::Files<File = File> + RandomSource + Threads + Wait + time::Clock + Sync,
    G: Gate + Sync,
>(rt: &R, alloc: Global, settings: &Settings, gate: &G) -> Result<String, Fault>
    ensures told { IfOk result (λ text. (verdict : Verdict) × IsTold
        (settings.now.workers * settings.now.transactions) (string_bytes text) verdict) }
    // On disks in memory the verdict is that on the logs of some disks, one a shard, and on lines of which the counts are.
    ensures judged { settings.now.dir ≡ None → IfOk result (λ text. (verdict : Verdict)
        × IsToldOf (Unit {0}) (λ disk. (surface (disk_file disk)).seen)
        (length settings.now.splits + 1) (settings.now.workers * settings.now.transactions)
        (string_bytes text) verdict) }
    ensures refused { IfErr result HasNoVerdict }
    ensures limits { IsOk result
        → IsDrivable settings.now.workers settings.now.transactions settings.now.keys }
{
    match drive_watched(rt, alloc, settings, gate, &NoWatch, &Noted::none()) {
        Ok(driven) => Ok(driven.text),
        Err(none) => Err(none.fault),
    }
}

fn drive_watched<
    R: rt::Files<File = File> + RandomSource + Threads + Wait + time::Clock + Sync,
    G: Gate + Sync,
    W: Watch + Sync,
>(
    rt: &R,
    alloc: Global,
    settings: &Settings,
    gate: &G,
    watch: &W,
    noted: &Noted,
) -> Result<Driven, NoVerdict>
    ensures told { IfOk result (λ driven. IsTold
        (settings.now.workers * settings.now.transactions)
        (string_bytes driven.text) driven.verdict) }
    // On disks in memory the verdict is that on the logs of some disks, one a shard, and on lines of which the counts are.
    ensures judged { settings.now.dir ≡ None → IfOk result (λ driven.
        IsToldOf (Unit {0}) (λ disk. (surface (disk_file disk)).seen)
        (length settings.now.splits + 1) (settings.now.workers * settings.now.transactions)
        (string_bytes driven.text) driven.verdict) }
    ensures counted { IfErr result (λ none. IfSome none.text (λ text.
        AreCounts (settings.now.workers * settings.now.transactions) (string_bytes text))) }
    ensures unjudged { IfErr result (λ none. IfSome none.text (λ text.
        IsUnjudged none.fault)) }
    ensures refused { IfErr result (λ none. HasNoVerdict none.fault) }
    ensures limits { IsOk result
        → IsDrivable settings.now.workers settings.now.transactions settings.now.keys }
{
    match &settings.dir {
        Some(folder) => {
            match logs_in(rt, alloc, folder, &settings.splits, Expected::Either) {
                Ok(logs) => drive_files(rt, alloc, settings, logs, gate, watch, noted),
                Err(refused) => {
                    let fault = refused.fault;
                    noted.note(refused);
                    Err(NoVerdict::from(fault))
                }
            }
        }
        None => {
            let logs = logs_in_memory(alloc, settings.splits.as_slice().len() + 1)?;
            drive_over(rt, alloc, settings, logs, gate, watch)
        }
    }
}

// Drives over the logs of a folder. If that is refused, the first log that has failed is noted, and why.
fn drive_files<R: Threads + Wait + time::Clock + Sync, G: Gate + Sync, W: Watch + Sync>(
    rt: &R,
    alloc: Global,
    settings: &Settings,
    logs: Vec<FileDisk>,
    gate: &G,
    watch: &W,
    noted: &Noted,
) -> Result<Driven, NoVerdict>
    ensures told { IfOk result (λ driven. IsTold
        (settings.now.workers * settings.now.transactions)
        (string_bytes driven.text) driven.verdict) }
    ensures counted { IfErr result (λ none. IfSome none.text (λ text.
        AreCounts (settings.now.workers * settings.now.transactions) (string_bytes text))) }
    ensures unjudged { IfErr result (λ none. IfSome none.text (λ text.
        IsUnjudged none.fault)) }
    ensures undriven { IfErr result (λ none. IsUndriven none.fault) }
    ensures limits { IsOk result
        → IsDrivable settings.now.workers settings.now.transactions settings.now.keys }
{
    let mut logs = logs;
    let Ok(causes) = Causes::of(alloc, &mut logs) else {
        drop(logs);
        return Err(NoVerdict::from(Fault::Memory));
    };
    let driven = drive_over(rt, alloc, settings, logs, gate, watch);
    if let Err(none) = &driven {
        noted.note(causes.refuse(none.fault, None));
    }
    drop(causes);
    driven
}

fn drive_over<
    R: Threads + Wait + time::Clock + Sync,
    D: Disk + Drop + Send,
    G: Gate + Sync,
    W: Watch + Sync,
>(
    rt: &R,
    alloc: Global,
    settings: &Settings,
    logs: Vec<D>,
    gate: &G,
    watch: &W,
) -> Result<Driven, NoVerdict>
    ensures told { IfOk result (λ driven. IsTold
        (settings.now.workers * settings.now.transactions)
        (string_bytes driven.text) driven.verdict) }
    ensures judged { IfOk result (λ driven.
        IsToldOf D.keeps_model (λ disk. (surface (D.file disk)).seen) (length logs.items)
        (settings.now.workers * settings.now.transactions)
        (string_bytes driven.text) driven.verdict) }
    ensures counted { IfErr result (λ none. IfSome none.text (λ text.
        AreCounts (settings.now.workers * settings.now.transactions) (string_bytes text))) }
    ensures unjudged { IfErr result (λ none. IfSome none.text (λ text.
        IsUnjudged none.fault)) }
    ensures undriven { IfErr result (λ none. IsUndriven none.fault) }
    ensures limits { IsOk result
        → IsDrivable settings.now.workers settings.now.transactions settings.now.keys }
{
    let clock = clock_of(rt, settings);
    match drive_wide(rt, alloc, settings, logs, clock, gate, watch) {
        Ok(driven) => {
            let engine::Driven {
                summary,
                lines,
                disks,
            } = driven;
            drop(lines);
            drop(disks);
            Ok(Driven {
                text: text_of(alloc, summary)?,
                verdict: summary.verdict,
            })
        }
        Err(none) => Err(told_without(alloc, none)),
    }
}

// What is printed of a drive.
fn text_of(alloc: Global, summary: Summary) -> Result<String, Fault>
    ensures text { IfOk result
        (λ text. string_bytes text ≡ summary_text summary.counts summary.verdict) }
    ensures memory { IfErr result (λ fault. fault ≡ Fault.Memory) }
{
    Ok(format!(in alloc; "{summary}")?)
}

// What is printed if there is no verdict: nothing if there is no memory for it.
fn told_without(alloc: Global, none: engine::NoVerdict) -> NoVerdict
    ensures fault { result.fault ≡ none.fault }
    ensures text { IfSome result.text (λ text. (counts : Counts) × (none.counts ≡ Some counts)
        × (string_bytes text ≡ counts_text counts)) }
{
    let engine::NoVerdict { fault, counts } = none;
    let text = match counts {
        Some(counts) => format!(in alloc; "{counts}").ok(),
        None => None,
    };
    NoVerdict { fault, text }
}

// Lets all letters through.
#[derive(Clone, Copy)]
struct Open;

impl Gate for Open {
    fn before(&self, _shard: ShardNo, _n: u64) {}

    fn after(&self, _shard: ShardNo, _n: u64) {}
}
