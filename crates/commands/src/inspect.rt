//! The command `inspect`: the verdict on logs in files.
ghost use Rattle.std.specs.Prelude.{◌≡◌, ◌++◌, IfOk, IfErr, codes, map, string_bytes};
ghost use Rattle.units.specs.declared.line.Verdict.{Verdict};
ghost use Rattle.commands.specs.OnDisks.{IsVerdictOf};
ghost use Rattle.showing.specs.Files.{IsNotJudged};
ghost use Rattle.output.specs.Verdicts.{exit_status, text_of};

use output::{VerdictText, status_of};
use showing::{inspect_files, note_refusals};
use std::alloc::Global;
use system::Files;
use units::Fault;

/// Judges the logs in some files and the lines in another one. Gives the verdict as a line, with 0, or 1 if it is a no. Of each log that an
/// opening would refuse though it is judged, who wants that told is told.
pub fn inspect<F: Files>(
    alloc: Global,
    lines: &str,
    logs: &[&str],
    files: &F,
) -> Result<(String, u8), Fault>
    ensures line { IfOk result (λ told. (verdict : Verdict) × (told.1 ≡ exit_status verdict)
        × (string_bytes told.0 ≡ text_of verdict ++ codes "\n")) }
    // The verdict is that on the logs that were opened under these names.
    ensures named { IfOk result (λ told. IsVerdictOf F.Log.keeps_model F.Log.file
        (F.is_named files.now) (map (λ log. log.now) logs.now) told.1 (string_bytes told.0)) }
    ensures refused { IfErr result IsNotJudged }
{
    let verdict = inspect_files(alloc, files, lines, logs)?;
    note_refusals(alloc, files, logs);
    let text = VerdictText(verdict);
    Ok((format!(in alloc; "{text}\n")?, status_of(verdict)))
}
