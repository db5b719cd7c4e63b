//! Logs of cores and desks that are turned over: with each device call failing in turn, and with no slot left.
use crate::answers::Told;
use crate::cores::formatted;
use crate::forgetting::forgotten;
use crate::given::Given;
use crate::logs::Line;
use crate::renewing::{raised, renewed};
use crate::retiring::turned_over;
use crate::turned_rows::{
    A, COMMIT, DONE, LEFT, NEW, OLD, SAID, SETTLE, left_row, looked, settled, standing,
};
use crate::turning::{Ask, Asked, Kind, Row, go_on};
use crate::verdict::end;
use disk::{Disk, Fate};
use gatelog::HEADER;
use made::{FIRST_GATE, WrongRows};
use simdisk::SimDisk;
use std::alloc::Global;
use std::process::Abort;
use std::sync::Wait;
use units::Fault;

// What follows if a call of a turnover fails. `fate` is that of the change that is not synced, if there is a crash then. From this call on,
// counted from 0, an opening finds the new log. Call 5 comes after those of the turnover.
struct Failing {
    fate: Option<Fate>,
    new_from: u64,
}

static FAILING: [Failing; 5] = [
    Failing {
        fate: Some(Fate::Old),
        new_from: 5,
    },
    Failing {
        fate: Some(Fate::Filled(0x37)),
        new_from: 5,
    },
    // The byte of an open slot.
    Failing {
        fate: Some(Fate::Filled(0xa5)),
        new_from: 3,
    },
    Failing {
        fate: Some(Fate::New),
        new_from: 3,
    },
    Failing {
        fate: None,
        new_from: 4,
    },
];

// The commit and its outcome make four calls each.
const BEFORE: u64 = 8;

const REFUSED: &[Asked] = &[
    COMMIT,
    SETTLE,
    (112, 121, Ask::Turn(Err(Fault::Device))),
    (112, 121, Ask::Turn(Err(Fault::Stopped))),
    (
        112,
        121,
        Ask::Given(Given::Resume, Told::Refused(Fault::Stopped)),
    ),
    (112, 121, Ask::Look(b'a', 111, Ok(b'1'))),
];

const TAKEN: &[Asked] = &[COMMIT, SETTLE, (112, 121, Ask::Turn(Ok(())))];

// The same commit again is done, whichever log is found.
const AGAIN: &[Asked] = &[(112, 121, Ask::Given(A, DONE))];

// A turnover of which this call fails.
fn turnover_of(row: &Failing, call: u64) -> Row {
    Row {
        name: "a call of a turnover fails",
        fails: Some(call.saturating_add(BEFORE)),
        asks: if call < 5 { REFUSED } else { TAKEN },
        fate: row.fate,
        log: if call < row.new_from { OLD } else { NEW },
        again: AGAIN,
        ..left_row()
    }
}

// A disk with a file whose slots are all open, each of which names an area without a record. The last area begins at 10,248.
fn spent(rt: &impl Abort, alloc: Global) -> SimDisk {
    let mut disk = SimDisk::new(alloc);
    let mut bytes = [0; 9];
    bytes[0] = 0xa5;
    let mut whole = disk.write_at(0, &HEADER).is_ok();
    for slot in 0..1_024 {
        bytes[7] = ((9_225 + slot) >> 8) as u8;
        bytes[8] = ((9_225 + slot) & 0xff) as u8;
        let at = 8 + 9 * slot;
        whole = whole && at <= disk.len() && disk.write_at(at, &bytes).is_ok();
    }
    whole = whole && FIRST_GATE <= disk.len() && disk.write_at(FIRST_GATE, &[0; 1_040]).is_ok();
    assert!(rt; whole, "a file without a slot");
    disk
}

// If no slot is left, a turnover is refused, and all else goes on.
const SPENT: &[Asked] = &[
    COMMIT,
    SETTLE,
    (112, 121, Ask::Turn(Err(Fault::TimeSpent))),
    (112, 121, Ask::Gate(10_335)),
    (112, 121, Ask::Look(b'a', 111, Ok(b'1'))),
    (112, 121, Ask::Given(Given::Commit(2, 0, b"b", b"1"), SAID)),
    (112, 121, Ask::Turn(Err(Fault::TimeSpent))),
];

// A desk asks for a turnover again once the log has grown.
const SPENT_DESK: &[Asked] = &[
    COMMIT,
    SETTLE,
    (112, 121, Ask::Renew(1_000_000, 73, Err(Fault::TimeSpent))),
    (112, 121, Ask::Renew(1_000_000, 0, Ok(()))),
    (112, 121, Ask::Given(Given::Commit(2, 0, b"b", b"1"), SAID)),
    (112, 121, Ask::Renew(1_000_000, 43, Ok(()))),
    (112, 121, Ask::Renew(1_000_000, 42, Err(Fault::TimeSpent))),
    (112, 121, Ask::Gate(10_377)),
];

// The log has grown by 143 bytes since its first opening began.
const SPENT_AGAIN: &[Asked] = &[
    (112, 121, Ask::Gate(10_391)),
    (112, 121, Ask::Renew(1_000_000, 144, Ok(()))),
    (112, 121, Ask::Renew(1_000_000, 143, Err(Fault::TimeSpent))),
    (112, 121, Ask::Renew(1_000_000, 0, Ok(()))),
];

const SPENT_LOG: &[Line] = &[
    Line::Opened(1),
    Line::Decided(1, 111),
    Line::Committed(1, 111),
    Line::Decided(2, 122),
];

static SPENT_ROWS: [Row; 2] = [
    Row {
        name: "no slot is left",
        asks: SPENT,
        is_spent: true,
        size: Some(10_378),
        fate: None,
        log: SPENT_LOG,
        again: &[],
        ..LEFT
    },
    Row {
        name: "no slot is left to a desk, nor once it is opened again",
        asks: SPENT_DESK,
        is_spent: true,
        size: Some(10_378),
        fate: None,
        log: SPENT_LOG,
        again: SPENT_AGAIN,
        ..LEFT
    },
];

fn tell<R: Wait + Abort>(wrong: &mut WrongRows, rt: &R, alloc: Global, kind: Kind, rows: &[Row]) {
    for row in rows {
        let disk = if row.is_spent {
            spent(rt, alloc)
        } else {
            formatted(rt, alloc)
        };
        go_on(wrong, rt, alloc, kind, disk, row);
    }
}

// Checks each row with cores and with desks.
fn tell_both<R: Wait + Abort>(wrong: &mut WrongRows, rt: &R, alloc: Global, rows: &[Row]) {
    tell(wrong, rt, alloc, Kind::Core, rows);
    tell(wrong, rt, alloc, Kind::Desk, rows);
}

fn tell_failing<R: Wait + Abort>(wrong: &mut WrongRows, rt: &R, alloc: Global) {
    for row in &FAILING {
        for call in 0..6 {
            tell_both(wrong, rt, alloc, &[turnover_of(row, call)]);
        }
    }
}

fn tell_spent<R: Wait + Abort>(wrong: &mut WrongRows, rt: &R, alloc: Global) {
    tell(wrong, rt, alloc, Kind::Core, &SPENT_ROWS[..1]);
    tell(wrong, rt, alloc, Kind::Desk, &SPENT_ROWS);
}

/// Shows that what the log held is still there after a turnover: what was settled, what looks see, what stands, and which ids are
/// retired.
#[test]
fn logs_are_turned_over(rt: HostRuntime) {
    let mut wrong = WrongRows::none(rt.alloc());
    tell_both(&mut wrong, &rt, rt.alloc(), settled());
    tell_both(&mut wrong, &rt, rt.alloc(), looked());
    tell_both(&mut wrong, &rt, rt.alloc(), standing());
    tell_both(&mut wrong, &rt, rt.alloc(), turned_over());
    end(&rt, wrong);
}

/// Shows what a failing call leaves of a turnover, and that a turnover without a slot is refused.
#[test]
fn turnovers_that_fail(rt: HostRuntime) {
    let mut wrong = WrongRows::none(rt.alloc());
    tell_failing(&mut wrong, &rt, rt.alloc());
    tell_spent(&mut wrong, &rt, rt.alloc());
    end(&rt, wrong);
}

/// Shows that desks renew their logs, raise the horizon before that, and keep their boards. What is below a horizon is `TooOld`.
#[test]
fn desks_renew_their_logs(rt: HostRuntime) {
    let mut wrong = WrongRows::none(rt.alloc());
    for rows in [renewed(), raised(), forgotten()] {
        tell(&mut wrong, &rt, rt.alloc(), Kind::Desk, rows);
    }
    end(&rt, wrong);
}
