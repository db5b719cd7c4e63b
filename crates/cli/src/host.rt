//! The program: what it answers to words.
ghost use Rattle.std.specs.Prelude.{◌≡◌, ◌<◌, ◌*◌, Ok, Err, IfOk, IfErr, map, string_bytes};
ghost use Rattle.std.specs.Io.KnownBytes.{Appends};
ghost use Rattle.units.specs.declared.fault.Fault.{Fault};
ghost use Rattle.output.specs.Streams.{failures_of, writer_of};
ghost use Rattle.client.specs.declared.ended.Ended.{Ended};
ghost use Rattle.system.specs.declared.asked.Driven.{Driven};
ghost use Rattle.system.specs.declared.asked.NoVerdict.{NoVerdict};
ghost use Rattle.commands.specs.declared.engine.Put.{Put};
ghost use Rattle.drive.specs.Told.{HasNoVerdict, IsTold};
ghost use Rattle.cli.specs.Answered.{Answered};
ghost use Rattle.cli.specs.Ends.{IsDriven};
ghost use Rattle.cli.specs.Written.{IsUnwritten, IsWritten};

use crate::host_put::put_in_store;
use commands::{Drive, Driven, Ended, Engine, Hints, NoVerdict, Put, Stream, System, answer};
use drive::drive_shards;
use host_files::{HostFiles, Noted};
use simdisk::SimDisk;
use std::alloc::Global;
use std::fs::File;
use std::io::{Input, Stderr, Write};
use std::random::RandomSource;
use std::sync::Wait;
use std::thread::Threads;
use std::{rt, time};
use units::Fault;

/// Standard error, to which a drive is shown.
#[derive(Clone, Copy)]
pub struct Shown {
    /// Standard error itself.
    pub writer: Stderr,
    /// Says whether turns are shown while the drive runs, as on a terminal. Else only its table is, if its words ask for that.
    pub is_running: bool,
}

/// Carries out a command line, with the files and threads of the machine, over standard output and standard error. Returns the exit status:
/// 0, 1 for a verdict of no or for early, 2 for a fault.
///
/// A fault is printed as a line on standard error, except that after a failed write nothing more is printed. A second line tells the file in
/// which the fault lies, or what is wrong with the words, if that is known. If `shown` says so, a drive shows how far it
/// is. Its table is shown also without that, if the words ask for it.
pub fn program<
    R: rt::Files<File = File, Dir = <HostRuntime as rt::Files>::Dir>
        + Eprint
        + Input
        + RandomSource
        + Threads
        + Wait
        + time::Clock
        + Sync,
    O: Write,
    E: Write,
>(
    rt: &R,
    alloc: Global,
    shown: Option<Shown>,
    words: &[&str],
    out: &mut Stream<O>,
    err: &mut Stream<E>,
) -> u8
    ensures { Answered (map (λ w. w.now) words.entry.now) result
        (Appends (O.contents (writer_of out.old)) (O.contents (writer_of out.new)))
        (Appends (E.contents (writer_of err.old)) (E.contents (writer_of err.new)))
        (failures_of out.old < failures_of out.new) (failures_of err.old < failures_of err.new)
        (out.new ≡ out.old) (err.new ≡ err.old) }
{
    let noted = Noted::none();
    let drive = |alloc: Global, drive: Drive<'_>| -> Result<Driven, NoVerdict>
        ensures told { IfOk result (λ driven. IsTold
            (drive.entry.settings.now.workers * drive.entry.settings.now.transactions)
            (string_bytes driven.text) driven.verdict) }
        ensures refused { IfErr result (λ none. HasNoVerdict none.fault) }
    {
        let writer = writer_of(&shown, drive.table);
        let is_shown = is_running(&shown);
        drive_shards(rt, alloc, drive.settings, writer, is_shown, &noted)
    };
    let put = |alloc: Global, write: Put<'_>| -> Result<Ended, Fault>
        ensures written { IfOk result (IsWritten write.entry.folder.now write.entry.key.now
            write.entry.value.now) }
        ensures refused { IfErr result IsUnwritten }
    { put_in_store(rt, alloc, write, &noted) };
    let engine = Engine { run: drive, put };
    let files = files_of(rt, &noted, is_running(&shown));
    answer_by(alloc, files, engine, words, out, err)
}

// The machine's files, which know why a store was refused once that is noted.
fn files_of<'r, R>(rt: &'r R, noted: &'r Noted, is_watched: bool) -> HostFiles<'r, R> {
    let mut files = HostFiles::new(rt, is_watched);
    files.noted = Some(noted);
    files
}

// Whom a drive is shown to: while it runs, or its table alone, if that is asked for.
fn writer_of(shown: &Option<Shown>, table: bool) -> Option<Stderr> {
    match shown {
        Some(shown) if table || shown.is_running => Some(shown.writer),
        _ => None,
    }
}

// Turns are shown while a drive runs.
fn is_running(shown: &Option<Shown>) -> bool {
    match shown {
        Some(shown) => shown.is_running,
        None => false,
    }
}

// The same, with these files, and with what drives shards.
fn answer_by<
    F: Hints + Drop,
    D: Fn(Global, Drive<'_>) -> Result<Driven, NoVerdict>,
    P: Fn(Global, Put<'_>) -> Result<Ended, Fault>,
    O: Write,
    E: Write,
>(
    alloc: Global,
    files: F,
    engine: Engine<D, P>,
    words: &[&str],
    out: &mut Stream<O>,
    err: &mut Stream<E>,
) -> u8
    requires drives { D.IsAlwaysCallable engine.run }
    requires puts { P.IsAlwaysCallable engine.put }
    requires driven { (settings : _) (driven : Driven) → D.post engine.run alloc settings (Ok driven)
        → IsDriven (string_bytes driven.text) driven.verdict }
    requires refuses { (settings : _) (none : NoVerdict) → D.post engine.run alloc settings (Err none)
        → HasNoVerdict none.fault }
    requires written { (write : Put) (ended : Ended) → P.post engine.put alloc write (Ok ended)
        → IsWritten write.folder.now write.key.now write.value.now ended }
    requires unwritten { (write : Put) (fault : Fault) → P.post engine.put alloc write (Err fault)
        → IsUnwritten fault }
    ensures { Answered (map (λ w. w.now) words.entry.now) result
        (Appends (O.contents (writer_of out.old)) (O.contents (writer_of out.new)))
        (Appends (E.contents (writer_of err.old)) (E.contents (writer_of err.new)))
        (failures_of out.old < failures_of out.new) (failures_of err.old < failures_of err.new)
        (out.new ≡ out.old) (err.new ≡ err.old) }
{
    let system = System {
        files,
        drive: engine,
    };
    let (status, _) = answer(alloc, words, &system, SimDisk::new(alloc), out, err);
    status
}
