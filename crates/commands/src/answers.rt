//! What the program answers to a command line.
ghost use Rattle.std.specs.Prelude.{◌≡◌, ◌≢◌, ◌⊎◌, ◌<◌, Some, Ok, Err, IfOk, IfErr, map, true, List, ℕ};
ghost use Rattle.std.specs.Io.KnownBytes.{Appends};
ghost use Rattle.units.specs.declared.fault.Fault.{Fault};
ghost use Rattle.units.specs.declared.fault.Fault.TheVariants.{Memory};
ghost use Rattle.disk.specs.declared.plan.FailurePlan.TheVariants.{Never};
ghost use Rattle.simdisk.specs.State.{disk_plan};
ghost use Rattle.command_line.specs.Commands.{are_covered, command_of};
ghost use Rattle.command_line.specs.Views.{asked_by, asked_for, is_covered};
ghost use Rattle.output.specs.Failures.{FailsFor};
ghost use Rattle.output.specs.declared.failure.Failure.TheVariants.{Refused, Unwritten};
ghost use Rattle.output.specs.Replies.{Is};
ghost use Rattle.commands.specs.Disks.{LogsCommand, LogsTo};
ghost use Rattle.commands.specs.Drives.{IsDrivenBy};
ghost use Rattle.commands.specs.Faults.{FailsAs, IsRefusedBy, IsUnputBy, MayRefuse, MayRefuseTo};
ghost use Rattle.commands.specs.OnDisks.{IsOfItsFiles, IsOfNamedFiles};
ghost use Rattle.commands.specs.Puts.{IsPutBy};
ghost use Rattle.commands.specs.Replies.{Tells, TellsTo, reply_of, reply_or_refusal, reply_to};
ghost use Rattle.output.specs.Streams.{failures_of, fault_line, writer_of};

use crate::drive_command::run_drive;
use crate::engine::{Drive, Engine, Put};
use crate::help::tell;
use crate::hints::{Hints, tell_place};
use crate::inspect::inspect;
use crate::key_commands::{history, run_get};
use crate::play_command::play;
use crate::printing::{done, print, print_text};
use crate::put_command::put;
use crate::stats_command::{dump, stats};
use client::Ended;
use command_line::{Command, Words};
use compaction::compact_file;
use once::once;
use output::{Failure, Stream};
use simdisk::SimDisk;
use std::alloc::Global;
use std::io::Write;
use system::{Driven, NoVerdict, System, format_file, migrate_file};
use units::Fault;

/// Carries a command line out, with what it asks of the system, on an empty disk and over standard output and standard error.
/// Gives the status, 0, 1 for a verdict of no or for early, 2 for a fault, and the disk, which holds what was printed of a
/// commit. A fault is printed on standard error, except that after a failed write nothing more is printed. Who is told hints is then told the
/// place in which it lies.
pub fn answer<
    'a,
    F: Hints,
    D: Fn(Global, Drive<'_>) -> Result<Driven, NoVerdict>,
    P: Fn(Global, Put<'_>) -> Result<Ended, Fault>,
    O: Write,
    E: Write,
>(
    alloc: Global,
    words: &'a [&'a str],
    system: &System<F, Engine<D, P>>,
    disk: SimDisk,
    out: &mut Stream<O>,
    err: &mut Stream<E>,
) -> (u8, SimDisk)
    requires disk { disk_plan disk ≡ Never }
    requires drives { D.IsAlwaysCallable system.now.drive.run }
    requires puts { P.IsAlwaysCallable system.now.drive.put }
    ensures status { (result.0 ≡ 0) ⊎ (result.0 ≡ 1) ⊎ (result.0 ≡ 2) }
    ensures printed { are_covered (map (λ w. w.now) words.entry.now) ≡ true → result.0 ≢ 2
        → (text : List ℕ) × Is (reply_to (map (λ w. w.now) words.entry.now)) (Ok (text, result.0))
        × Appends (O.contents (writer_of out.old)) (O.contents (writer_of out.new)) text }
    ensures logged { are_covered (map (λ w. w.now) words.entry.now) ≡ true → result.0 ≢ 2
        → LogsTo (command_of (map (λ w. w.now) words.entry.now)) result.0 result.1 }
    ensures refused { are_covered (map (λ w. w.now) words.entry.now) ≡ true → (fault : Fault)
        → reply_to (map (λ w. w.now) words.entry.now) ≡ Some (Err fault) → (result.0 ≡ 2)
        × (out.new ≡ out.old) }
    // What files tell: a format, a migration and a compaction print nothing, an inspection a verdict, which its status goes with, and a dump lines of records.
    ensures tells { are_covered (map (λ w. w.now) words.entry.now) ≡ true → result.0 ≢ 2
        → (text : List ℕ) × TellsTo (IsDrivenBy (D.post system.now.drive.run alloc))
        (IsPutBy (P.post system.now.drive.put alloc))
        (command_of (map (λ w. w.now) words.entry.now)) result.0 text
        × Appends (O.contents (writer_of out.old)) (O.contents (writer_of out.new)) text }
    // What is told of files is of those that were opened, or made, under the names in the words.
    ensures named { are_covered (map (λ w. w.now) words.entry.now) ≡ true → result.0 ≢ 2
        → (text : List ℕ) × IsOfNamedFiles F.Log.keeps_model F.Log.file
        (F.is_named system.now.files) F.Log.clock F.Log.since
        (command_of (map (λ w. w.now) words.entry.now)) result.0 text
        × Appends (O.contents (writer_of out.old)) (O.contents (writer_of out.new)) text }
    ensures quiet { result.0 ≢ 2 → err.new ≡ err.old }
    // A status of 2 has a reason: a write to standard output that failed, or a fault, whose line is on standard error.
    ensures told { are_covered (map (λ w. w.now) words.entry.now) ≡ true → result.0 ≡ 2
        → (failures_of out.old < failures_of out.new)
        ⊎ ((fault : Fault) × ((fault ≡ Memory)
        ⊎ Is (reply_to (map (λ w. w.now) words.entry.now)) (Err fault))
        × ((failures_of err.old < failures_of err.new)
        ⊎ Appends (E.contents (writer_of err.old)) (E.contents (writer_of err.new))
        (fault_line fault))) }
    // The fault of a command over files is one of its own; that of a drive is one of its settings, or one for which what drives refuses.
    ensures numbered { are_covered (map (λ w. w.now) words.entry.now) ≡ true → result.0 ≡ 2
        → (failures_of out.old < failures_of out.new)
        ⊎ ((fault : Fault) × MayRefuseTo (IsRefusedBy (D.post system.now.drive.run alloc))
        (IsUnputBy (P.post system.now.drive.put alloc))
        (command_of (map (λ w. w.now) words.entry.now)) fault
        × ((failures_of err.old < failures_of err.new)
        ⊎ Appends (E.contents (writer_of err.old)) (E.contents (writer_of err.new))
        (fault_line fault))) }
    // So it is for any words.
    ensures explained { result.0 ≡ 2 → (failures_of out.old < failures_of out.new)
        ⊎ ((fault : Fault) × ((failures_of err.old < failures_of err.new)
        ⊎ Appends (E.contents (writer_of err.old)) (E.contents (writer_of err.new))
        (fault_line fault))) }
    ensures silent { failures_of out.old < failures_of out.new → err.new ≡ err.old }
{
    let (done, disk) = carry_out(alloc, words, system, disk, out);
    match done {
        Ok(status) => (status, disk),
        Err(Failure::Refused(fault)) => {
            let _ = err.print_fault(fault);
            tell_place(alloc, &system.files, words, fault);
            (2, disk)
        }
        Err(Failure::Unwritten) => (2, disk),
    }
}

fn carry_out<
    'a,
    F: Hints,
    D: Fn(Global, Drive<'_>) -> Result<Driven, NoVerdict>,
    P: Fn(Global, Put<'_>) -> Result<Ended, Fault>,
    O: Write,
>(
    alloc: Global,
    words: &'a [&'a str],
    system: &System<F, Engine<D, P>>,
    disk: SimDisk,
    out: &mut Stream<O>,
) -> (Result<u8, Failure>, SimDisk)
    requires disk { disk_plan disk ≡ Never }
    requires drives { D.IsAlwaysCallable system.now.drive.run }
    requires puts { P.IsAlwaysCallable system.now.drive.put }
    ensures status { IfOk result.0 (λ status. (status ≡ 0) ⊎ (status ≡ 1)) }
    ensures printed { are_covered (map (λ w. w.now) words.entry.now) ≡ true
        → IfOk result.0 (λ status. (text : List ℕ)
        × Is (reply_to (map (λ w. w.now) words.entry.now)) (Ok (text, status))
        × Appends (O.contents (writer_of out.old)) (O.contents (writer_of out.new)) text) }
    ensures tells { are_covered (map (λ w. w.now) words.entry.now) ≡ true
        → IfOk result.0 (λ status. (text : List ℕ)
        × TellsTo (IsDrivenBy (D.post system.now.drive.run alloc))
        (IsPutBy (P.post system.now.drive.put alloc))
        (command_of (map (λ w. w.now) words.entry.now)) status text
        × Appends (O.contents (writer_of out.old)) (O.contents (writer_of out.new)) text) }
    ensures named { are_covered (map (λ w. w.now) words.entry.now) ≡ true
        → IfOk result.0 (λ status. (text : List ℕ)
        × IsOfNamedFiles F.Log.keeps_model F.Log.file
        (F.is_named system.now.files) F.Log.clock F.Log.since
        (command_of (map (λ w. w.now) words.entry.now)) status text
        × Appends (O.contents (writer_of out.old)) (O.contents (writer_of out.new)) text) }
    ensures logged { are_covered (map (λ w. w.now) words.entry.now) ≡ true → IfOk result.0 (λ status.
        LogsTo (command_of (map (λ w. w.now) words.entry.now)) status result.1) }
    ensures refused { are_covered (map (λ w. w.now) words.entry.now) ≡ true → (fault : Fault)
        → reply_to (map (λ w. w.now) words.entry.now) ≡ Some (Err fault) → out.new ≡ out.old }
    ensures failures { are_covered (map (λ w. w.now) words.entry.now) ≡ true
        → IfErr result.0 (λ failure.
        FailsFor (failures_of out.old < failures_of out.new) failure
        (reply_to (map (λ w. w.now) words.entry.now))) }
    ensures numbered { are_covered (map (λ w. w.now) words.entry.now) ≡ true → IfErr result.0
        (FailsAs (MayRefuseTo (IsRefusedBy (D.post system.now.drive.run alloc))
        (IsUnputBy (P.post system.now.drive.put alloc))
        (command_of (map (λ w. w.now) words.entry.now)))) }
    ensures unwritten { result.0 ≡ Err Unwritten → failures_of out.old < failures_of out.new }
    ensures counted { (fault : Fault) → result.0 ≡ Err (Refused fault)
        → failures_of out.new ≡ failures_of out.old }
{
    match Words::new(alloc, words) {
        Ok(read) => carry_read(alloc, read, system, disk, out),
        Err(_) => (Err(Failure::Refused(Fault::Memory)), disk),
    }
}

// The same, of words that were read.
fn carry_read<
    F: Hints,
    D: Fn(Global, Drive<'_>) -> Result<Driven, NoVerdict>,
    P: Fn(Global, Put<'_>) -> Result<Ended, Fault>,
    O: Write,
>(
    alloc: Global,
    read: Words<'_>,
    system: &System<F, Engine<D, P>>,
    disk: SimDisk,
    out: &mut Stream<O>,
) -> (Result<u8, Failure>, SimDisk)
    requires disk { disk_plan disk ≡ Never }
    requires drives { D.IsAlwaysCallable system.now.drive.run }
    requires puts { P.IsAlwaysCallable system.now.drive.put }
    ensures status { IfOk result.0 (λ status. (status ≡ 0) ⊎ (status ≡ 1)) }
    ensures printed { is_covered read.entry ≡ true
        → IfOk result.0 (λ status. (text : List ℕ)
        × Is (reply_or_refusal (asked_by read.entry)) (Ok (text, status))
        × Appends (O.contents (writer_of out.old)) (O.contents (writer_of out.new)) text) }
    ensures tells { is_covered read.entry ≡ true
        → IfOk result.0 (λ status. (text : List ℕ)
        × TellsTo (IsDrivenBy (D.post system.now.drive.run alloc))
        (IsPutBy (P.post system.now.drive.put alloc))
        (asked_by read.entry) status text
        × Appends (O.contents (writer_of out.old)) (O.contents (writer_of out.new)) text) }
    ensures named { is_covered read.entry ≡ true
        → IfOk result.0 (λ status. (text : List ℕ)
        × IsOfNamedFiles F.Log.keeps_model F.Log.file
        (F.is_named system.now.files) F.Log.clock F.Log.since
        (asked_by read.entry) status text
        × Appends (O.contents (writer_of out.old)) (O.contents (writer_of out.new)) text) }
    ensures logged { is_covered read.entry ≡ true → IfOk result.0 (λ status.
        LogsTo (asked_by read.entry) status result.1) }
    ensures refused { is_covered read.entry ≡ true → (fault : Fault)
        → reply_or_refusal (asked_by read.entry) ≡ Some (Err fault) → out.new ≡ out.old }
    ensures failures { is_covered read.entry ≡ true
        → IfErr result.0 (λ failure.
        FailsFor (failures_of out.old < failures_of out.new) failure
        (reply_or_refusal (asked_by read.entry))) }
    ensures numbered { is_covered read.entry ≡ true → IfErr result.0
        (FailsAs (MayRefuseTo (IsRefusedBy (D.post system.now.drive.run alloc))
        (IsUnputBy (P.post system.now.drive.put alloc))
        (asked_by read.entry))) }
    ensures unwritten { result.0 ≡ Err Unwritten → failures_of out.old < failures_of out.new }
    ensures counted { (fault : Fault) → result.0 ≡ Err (Refused fault)
        → failures_of out.new ≡ failures_of out.old }
{
    match read.command(alloc) {
        Ok(asked) => run(alloc, asked, system, disk, out),
        Err(fault) => (Err(Failure::Refused(fault)), disk),
    }
}

// Carries one command out.
fn run<
    F: Hints,
    D: Fn(Global, Drive<'_>) -> Result<Driven, NoVerdict>,
    P: Fn(Global, Put<'_>) -> Result<Ended, Fault>,
    O: Write,
>(
    alloc: Global,
    asked: Command<'_>,
    system: &System<F, Engine<D, P>>,
    disk: SimDisk,
    out: &mut Stream<O>,
) -> (Result<u8, Failure>, SimDisk)
    requires disk { disk_plan disk ≡ Never }
    requires drives { D.IsAlwaysCallable system.now.drive.run }
    requires puts { P.IsAlwaysCallable system.now.drive.put }
    ensures status { IfOk result.0 (λ status. (status ≡ 0) ⊎ (status ≡ 1)) }
    ensures printed { IfOk result.0
        (λ status. (text : List ℕ) × Is (reply_of (asked_for asked.entry)) (Ok (text, status))
        × Appends (O.contents (writer_of out.old)) (O.contents (writer_of out.new)) text) }
    ensures tells { IfOk result.0
        (λ status. (text : List ℕ) × Tells (IsDrivenBy (D.post system.now.drive.run alloc))
        (IsPutBy (P.post system.now.drive.put alloc))
        (asked_for asked.entry) status text
        × Appends (O.contents (writer_of out.old)) (O.contents (writer_of out.new)) text) }
    ensures named { IfOk result.0 (λ status. (text : List ℕ)
        × IsOfItsFiles F.Log.keeps_model F.Log.file
        (F.is_named system.now.files) F.Log.clock F.Log.since
        (asked_for asked.entry) status text
        × Appends (O.contents (writer_of out.old)) (O.contents (writer_of out.new)) text) }
    ensures logged { IfOk result.0 (λ status. LogsCommand (asked_for asked.entry) status result.1) }
    ensures refused { (fault : Fault) → reply_of (asked_for asked.entry) ≡ Some (Err fault)
        → out.new ≡ out.old }
    ensures failures { IfErr result.0 (λ failure.
        FailsFor (failures_of out.old < failures_of out.new) failure
        (reply_of (asked_for asked.entry))) }
    ensures numbered { IfErr result.0 (FailsAs
        (MayRefuse (IsRefusedBy (D.post system.now.drive.run alloc))
        (IsUnputBy (P.post system.now.drive.put alloc)) (asked_for asked.entry))) }
    ensures unwritten { result.0 ≡ Err Unwritten → failures_of out.old < failures_of out.new }
    ensures counted { (fault : Fault) → result.0 ≡ Err (Refused fault)
        → failures_of out.new ≡ failures_of out.old }
{
    let files = &system.files;
    match asked {
        Command::Told { text } => (tell(text, out), disk),
        Command::Once {
            key,
            value,
            first,
            second,
        } => once(alloc, key, value, &first, &second, disk, out),
        Command::Format { file } => (done(format_file(alloc, files, file)), disk),
        Command::Play { file } => (print(play(alloc, file, files), out), disk),
        Command::Inspect { lines, logs } => {
            (print(inspect(alloc, lines, &logs, files), out), disk)
        }
        Command::Drive { file, table } => (run_drive(alloc, file, table, system, out), disk),
        Command::Dump { file, json } => (print_text(dump(alloc, file, json, files), out), disk),
        Command::History { dir, key, json } => {
            (
                print_text(history(alloc, dir, &key, json, files), out),
                disk,
            )
        }
        Command::Get { dir, key, at, form } => {
            (run_get(alloc, dir, &key, at, form, files, out), disk)
        }
        Command::Put { dir, key, value } => {
            (print(put(alloc, dir, &key, value, system), out), disk)
        }
        Command::Stats { logs, json } => {
            (print_text(stats(alloc, &logs, json, files), out), disk)
        }
        Command::Migrate { old, new } => (done(migrate_file(alloc, files, old, new)), disk),
        Command::Compact { old, new } => (done(compact_file(alloc, files, old, new)), disk),
    }
}
