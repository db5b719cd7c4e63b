//! The command `play`: the schedule of a file, played and reported.
ghost use Rattle.std.specs.Prelude.{◌≡◌, IfErr, IfOk};
ghost use Rattle.commands.specs.Faults.{IsNotPlayed};

use output::status_of;
use script::{judged, report, schedule};
use std::alloc::Global;
use system::{Files, read_text};
use units::{Fault, Reason};

/// Plays the schedule of a file. Gives the report, and 0, since the verdict on a played run is yes. Bytes that are no text are
/// refused as a fault of line 1.
pub fn play<F: Files>(alloc: Global, file: &str, files: &F) -> Result<(String, u8), Fault>
    ensures status { IfOk result (λ printed. printed.1 ≡ 0) }
    ensures refused { IfErr result IsNotPlayed }
{
    let text = read_text(alloc, files, file, Reason::Syntax(1))?;
    let told = schedule(alloc, &text);
    drop(text);
    let (config, events) = told?;
    let played = judged(alloc, &config, &events);
    drop(config);
    drop(events);
    let played = played?;
    let status = status_of(played.verdict);
    let text = report(alloc, &played);
    drop(played);
    Ok((text?, status))
}
