//! Schedules are played by the program, and what their reports say is compared.
use crate::given::{AMPLE, File, PLAY, print};
use std::alloc::Global;

// A report says what is wanted: first of the events that were not only done, and then of all else.
fn is_wanted(report: &str, wanted: &str) -> bool {
    let mut left = wanted.split_inclusive('\n');
    for events in [true, false] {
        for line in report.split_inclusive('\n') {
            if line.starts_with("event ") == events && !line.ends_with(" ok\n") {
                match left.next() {
                    Some(next) if next == line => {}
                    _ => return false,
                }
            }
        }
    }
    left.next().is_none()
}

/// Tells whether the schedule comes to what is wanted.
pub fn reports(alloc: Global, schedule: &str, wanted: &str) -> bool {
    let file = File {
        path: "a.schedule",
        bytes: schedule.as_bytes(),
    };
    let printed = print(alloc, &[&[file]], PLAY, AMPLE);
    let right = match str::from_utf8(&printed.out) {
        Ok(report) => is_wanted(report, wanted),
        Err(_) => false,
    };
    let right = right && printed.err.is_empty() && printed.status == 0;
    drop(printed);
    right
}
