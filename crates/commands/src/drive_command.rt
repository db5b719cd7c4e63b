//! The command `drive`: shards and workers in threads.
ghost use Rattle.std.specs.Prelude.{◌≡◌, ◌⊎◌, ◌<◌, List, ℕ, None, Ok, Err, IfOk, IfErr};
ghost use Rattle.std.specs.Io.KnownBytes.{Appends};
ghost use Rattle.units.specs.declared.fault.Fault.{Fault};
ghost use Rattle.units.specs.declared.line.Verdict.{Verdict};
ghost use Rattle.commands.specs.Drives.{IsDrivenBy};
ghost use Rattle.commands.specs.Faults.{FailsAs, IsNotDriven, IsRefusedBy};
ghost use Rattle.output.specs.Failures.{FailsFor};
ghost use Rattle.output.specs.declared.failure.Failure.TheVariants.{Refused, Unwritten};
ghost use Rattle.output.specs.Streams.{failures_of, writer_of};
ghost use Rattle.output.specs.Verdicts.{exit_status};

use crate::engine::{Drive, Engine};
use output::{Failure, Stream, status_of};
use settings::Settings;
use std::alloc::Global;
use std::io::Write;
use system::{Driven, Files, NoVerdict, System, read_text};
use units::Reason;

/// Drives shards and workers by the settings of a file, and prints what came of it. Gives 0, or 1 if the verdict is a no. If there is no
/// verdict, the counts are printed, if there are any, and then that is refused.
pub fn run_drive<F: Files, D: Fn(Global, Drive<'_>) -> Result<Driven, NoVerdict>, P, O: Write>(
    alloc: Global,
    file: &str,
    table: bool,
    system: &System<F, Engine<D, P>>,
    out: &mut Stream<O>,
) -> Result<u8, Failure>
    requires { D.IsAlwaysCallable system.now.drive.run }
    ensures status { IfOk result (λ status. (status ≡ 0) ⊎ (status ≡ 1)) }
    ensures printed { IfOk result
        (λ status. (text : List ℕ) × (verdict : Verdict)
        × IsDrivenBy (D.post system.now.drive.run alloc) text verdict
        × (status ≡ exit_status verdict)
        × Appends (O.contents (writer_of out.old)) (O.contents (writer_of out.new)) text) }
    ensures failures { IfErr result
        (λ failure. FailsFor (failures_of out.old < failures_of out.new) failure None) }
    ensures numbered { IfErr result
        (FailsAs (IsNotDriven (IsRefusedBy (D.post system.now.drive.run alloc)))) }
    ensures refused { (fault : Fault) → result ≡ Err (Refused fault) → (out.new ≡ out.old)
        ⊎ ((text : List ℕ)
        × Appends (O.contents (writer_of out.old)) (O.contents (writer_of out.new)) text) }
    ensures counted { (fault : Fault) → result ≡ Err (Refused fault)
        → failures_of out.new ≡ failures_of out.old }
{
    match driven_by(alloc, file, table, system) {
        Ok(driven) => {
            out.print(&driven.text)?;
            Ok(status_of(driven.verdict))
        }
        Err(none) => refuse(none, out),
    }
}

// Prints the counts, if there are any, and says why there is no verdict.
fn refuse<O: Write>(none: NoVerdict, out: &mut Stream<O>) -> Result<u8, Failure>
    ensures refusal { IfErr result
        (λ failure. FailsFor (failures_of out.old < failures_of out.new) failure None) }
    ensures refused { (fault : Fault) → result ≡ Err (Refused fault) → (out.new ≡ out.old)
        ⊎ ((text : List ℕ)
        × Appends (O.contents (writer_of out.old)) (O.contents (writer_of out.new)) text) }
    ensures counted { (fault : Fault) → result ≡ Err (Refused fault)
        → failures_of out.new ≡ failures_of out.old }
    ensures never { IfOk result (λ status. ⊥) }
    ensures told { IfErr result
        (λ failure. (failure ≡ Unwritten) ⊎ (failure ≡ Refused none.fault)) }
{
    let NoVerdict { fault, text } = none;
    if let Some(text) = text {
        out.print(&text)?;
    }
    Err(Failure::Refused(fault))
}

// What came of a drive by the settings of a file.
fn driven_by<F: Files, D: Fn(Global, Drive<'_>) -> Result<Driven, NoVerdict>, P>(
    alloc: Global,
    file: &str,
    table: bool,
    system: &System<F, Engine<D, P>>,
) -> Result<Driven, NoVerdict>
    requires { D.IsAlwaysCallable system.now.drive.run }
    ensures driven { IfOk result (λ driven. (settings : _)
        × D.post system.now.drive.run alloc settings (Ok driven)) }
    ensures refused { IfErr result
        (λ none. IsNotDriven (IsRefusedBy (D.post system.now.drive.run alloc)) none.fault) }
{
    let text = read_text(alloc, &system.files, file, Reason::Settings)?;
    let settings = Settings::read(alloc, &text);
    drop(text);
    let settings = settings?;
    let drive = Drive {
        settings: &settings,
        table,
    };
    (system.drive.run)(alloc, drive)
}
