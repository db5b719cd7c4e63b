//! Schedules are played, and the reports are judged.
ghost use Rattle.std.specs.Prelude.{◌≡◌, map, IfOk, IfErr};
ghost use Rattle.record.specs.Verdict.{verdict};
ghost use Rattle.playing.specs.Reports.{IsNoReport, IsReport};

use inspector::inspect;
use playing::{Config, Event, Report, play, reports};
use std::alloc::Global;
use units::{Fault, Verdict};

/// A run that was played and judged.
#[derive(Drop)]
pub struct Played {
    /// What the run came to.
    pub report: Report,
    /// The verdict on its report.
    pub verdict: Verdict,
}

/// Plays a schedule and judges its report. The verdict is yes, by the law of the store. Events that are not lawful are refused with the
/// number of the first.
pub fn judged(alloc: Global, config: &Config, events: &[Event]) -> Result<Played, Fault>
    ensures report { IfOk result (λ played. IsReport config.now events.now played.report) }
    ensures verdict { IfOk result
        (λ played. played.verdict ≡ verdict
        (map (λ log. log.items) played.report.logs.items) played.report.lines.items) }
    ensures yes { IfOk result (λ played. played.verdict ≡ Verdict.Yes) }
    ensures refused { IfErr result (λ fault. IsNoReport config.now events.now fault) }
{
    reports();
    let report = play(alloc, config, events)?;
    let verdict = inspect(alloc, &report.logs, &report.lines)?;
    Ok(Played { report, verdict })
}
