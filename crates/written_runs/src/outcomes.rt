//! What comes of a schedule.
use script::{Played, judged, lawful, report, schedule};
use std::alloc::Global;
use units::Fault;

/// Plays a schedule, and gives the text of its report, or the line of the fault for which it is refused. It gives nothing if there is no memory for
/// that, or if `lawful` says otherwise.
pub fn outcome(alloc: Global, text: &str) -> String {
    let told = match report_of(alloc, text) {
        Ok(report) => Ok(report),
        Err(fault) => format!(in alloc; "fault: {fault}\n"),
    };
    match told {
        Ok(told) => told,
        Err(_) => String::new(alloc),
    }
}

// Events have to be lawful if and only if they are played.
fn report_of(alloc: Global, text: &str) -> Result<String, Fault> {
    let (config, events) = schedule(alloc, text)?;
    let is_lawful = lawful(alloc, &config, &events);
    let played = judged(alloc, &config, &events);
    drop(config);
    drop(events);
    if is_lawful == Ok(played.is_ok()) {
        text_of(alloc, played)
    } else {
        drop(played);
        Ok(String::new(alloc))
    }
}

fn text_of(alloc: Global, played: Result<Played, Fault>) -> Result<String, Fault> {
    match played {
        Ok(played) => {
            let text = report(alloc, &played);
            drop(played);
            text
        }
        Err(fault) => Err(fault),
    }
}
