//! The verdict on files.
ghost use Rattle.std.specs.Prelude.{IfErr, IfOk, map};
ghost use Rattle.inspection.specs.Files.{IsNotJudged, IsVerdictOn};

use crate::judging::inspect_disks;
use std::alloc::Global;
use system::{Files, open_all, read_text};
use texts::lines;
use units::{Fault, Reason, Verdict};

/// Judges the logs in the files of shards 0, 1 and so on, 16 at most, with the lines of a report in another file. The report is read first,
/// and all logs are opened before the first is read. A report that is no text is a fault of line 1. Logs are opened to be read alone.
pub fn inspect_files<F: Files>(
    alloc: Global,
    files: &F,
    lines_file: &str,
    logs: &[&str],
) -> Result<Verdict, Fault>
    // It is the verdict on disks that were opened under these names.
    ensures verdict { IfOk result (IsVerdictOn F.Log.keeps_model F.Log.file
        (F.is_named files.now) (map (λ log. log.now) logs.now)) }
    ensures refused { IfErr result IsNotJudged }
{
    let text = read_text(alloc, files, lines_file, Reason::Syntax(1))?;
    let told = lines(alloc, &text);
    drop(text);
    let told = told?;
    let disks = open_all(alloc, files, logs)?;
    let verdict = inspect_disks(alloc, disks, &told);
    drop(told);
    verdict
}
