//! The expected records of a log.
use gatelog::GateLog;
use made::WrongRows;
use record::Record;
use simdisk::SimDisk;
use std::alloc::Global;

/// A record: an opening with its epoch, a ceiling, a horizon, an abort, a retired id, or a promise, a decision or a commit of 1.number with
/// its timestamp. Only a renewed log has a base, a version of a letter with a value of one, and what is settled or closed at a timestamp.
#[derive(Clone, Copy)]
pub enum Line {
    Opened(u64),
    Ceiling(u64),
    Horizon(u64),
    Promised(u64, u64),
    Decided(u64, u64),
    Committed(u64, u64),
    Aborted(u64),
    Retired(u64),
    Base(u64, u64, u64),
    Version(u64, u8, u8),
    Settled(u64, u64),
    Closed(u64, u64),
}

// Whether a key or a value is this letter.
fn is_letter(bytes: &[u8], letter: u8) -> bool {
    bytes.len() == 1 && bytes.first() == Some(&letter)
}

// Whether it is this record of a renewed log.
fn is_renewed(record: &Record, line: Line) -> bool {
    match (record, line) {
        (
            Record::Base {
                epoch,
                floor,
                horizon,
            },
            Line::Base(number, least, oldest),
        ) => epoch.number() == number && floor.micros() == least && horizon.micros() == oldest,
        (Record::Version(install), Line::Version(at, letter, value)) => {
            let same = match &install.value {
                Some(found) => is_letter(found.as_bytes(), value),
                None => false,
            };
            same && install.at.micros() == at && is_letter(install.key.as_bytes(), letter)
        }
        (Record::Settled { txn, at, parts }, Line::Settled(number, micros)) => {
            txn.number() == number && at.micros() == micros && parts.mask() == 1
        }
        (
            Record::Closed {
                txn,
                coordinator,
                outcome: Some(at),
            },
            Line::Closed(number, micros),
        ) => txn.number() == number && at.micros() == micros && coordinator.number() == 0,
        _ => false,
    }
}

fn is_line(record: &Record, line: Line) -> bool {
    match (record, line) {
        (Record::Opened { epoch }, Line::Opened(number)) => epoch.number() == number,
        (Record::Ceiling { at }, Line::Ceiling(micros)) => at.micros() == micros,
        (Record::Horizon { at }, Line::Horizon(micros)) => at.micros() == micros,
        (Record::Prepare(part), Line::Promised(number, micros)) => {
            part.txn.number() == number && part.at.micros() == micros
        }
        (Record::Commit(commit), Line::Decided(number, micros)) => {
            commit.txn.number() == number && commit.at.micros() == micros
        }
        (
            Record::Outcome {
                txn,
                outcome: Some(at),
            },
            Line::Committed(number, micros),
        ) => txn.number() == number && at.micros() == micros,
        (Record::Abort { txn }, Line::Aborted(number)) => txn.number() == number,
        (Record::Retired { below }, Line::Retired(number)) => below.number() == number,
        _ => is_renewed(record, line),
    }
}

// The line at a place in two lists, one after the other.
fn line_at(lines: &[Line], behind: &[Line], place: usize) -> Option<Line> {
    match lines.get(place) {
        Some(line) => Some(*line),
        None => match behind.get(place.saturating_sub(lines.len())) {
            Some(line) => Some(*line),
            None => None,
        },
    }
}

/// Checks that the log of the disk has these records, and after them those of `behind`, and returns the disk.
pub fn with_log(
    wrong: &mut WrongRows,
    alloc: Global,
    disk: SimDisk,
    name: &str,
    lines: &[Line],
    behind: &[Line],
) -> SimDisk {
    let (log, entries) = match GateLog::open(alloc, disk) {
        Ok(opened) => opened,
        Err((_, disk)) => {
            wrong.unless(false, name);
            return disk;
        }
    };
    let count = lines.len().saturating_add(behind.len());
    let mut held = entries.len() == count;
    for (place, entry) in entries.iter().enumerate() {
        held = held
            && match line_at(lines, behind, place) {
                Some(line) => is_line(entry.item(), line),
                None => false,
            };
    }
    drop(entries);
    wrong.unless_at(held, name, count as u64);
    log.into_disk()
}
