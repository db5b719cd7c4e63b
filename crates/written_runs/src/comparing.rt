//! What comes of a schedule is compared with what a row says.

// What stands for a line that is missing.
const NO_LINE: &str = "no line";

/// Compares what comes of a schedule with what a row says after its schedule. Gives the first line that differs, as it is wanted and as it came;
/// or two that are the same.
pub fn difference<'r>(wanted: &'r str, came: &'r str) -> (&'r str, &'r str) {
    match wanted.strip_prefix("report\n") {
        Some(report) => first_difference(report, came),
        None if wanted != "played" => ("-- report", wanted),
        None if came.ends_with("verdict yes\n") => ("", ""),
        None => ("verdict yes", came),
    }
}

// A report is wanted in this order: first the events that were not only done, and then all else.
fn first_difference<'r>(wanted: &'r str, report: &'r str) -> (&'r str, &'r str) {
    let mut left = wanted.lines();
    for events in [true, false] {
        for came in report.lines() {
            if came.starts_with("event ") == events && !came.ends_with(" ok") {
                let next = left.next().unwrap_or(NO_LINE);
                if next != came {
                    return (next, came);
                }
            }
        }
    }
    (left.next().unwrap_or(NO_LINE), NO_LINE)
}
