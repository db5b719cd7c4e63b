//! Logs that are turned over.
use crate::checks::go_over_all;
use crate::files::{Case, Does, Place, open, put_lines};
use crate::spellings::{COMMIT, OPENED, OUTCOME};
use crate::text_logs::record_of;
use disk::{Disk, Fate};
use gatelog::{Area, GateLog, HEADER};
use made::{FIRST_GATE, WrongRows};
use simdisk::SimDisk;
use std::alloc::Global;
use units::Fault;

// A log of one commit has its closed gate at 9,311.
const LINES: &str = "opened 1\ncommit 1.1 111 0 - a=1\noutcome 1.1 committed 111";

const OLD: &[Place] = &[
    (FIRST_GATE, OPENED),
    (FIRST_GATE + 14, COMMIT),
    (FIRST_GATE + 56, OUTCOME),
];

// The area after it, and then another one after that.
const AREA: &str = "opened 2\nceiling 300";

const SECOND: &[u8] = &[1, 0, 0, 0, 0, 0, 0, 0, 2];

const HIGHER: &[u8] = &[2, 0, 0, 0, 0, 0, 0, 1, 0x2c];

const NEW: &[Place] = &[(9312, SECOND), (9326, HIGHER)];

const NEW_WITH_ONE: &[Place] = &[(9312, SECOND), (9326, HIGHER), (9340, HIGHER)];

const NEXT: &[Place] = &[(9341, SECOND), (9355, HIGHER)];

// A log of one commit that is turned over.
const WHOLE: Case = Case {
    what: "one turnover",
    lines: LINES,
    does: &[(Does::TurnsOver(AREA), None, Ok(()))],
    behind: "",
    is_stopped: false,
    fate: None,
    bytes: None,
    slots: None,
    places: NEW,
    ends: Some((9340, 1)),
    more: "",
    places_with_more: NEW,
};

const FAILED: Case = Case {
    what: "a turnover that fails",
    is_stopped: true,
    places: OLD,
    ends: Some((9311, 0)),
    places_with_more: OLD,
    ..WHOLE
};

// Turnovers that go well, and what comes after them.
static TURNED: [Case; 5] = [
    Case {
        what: "one turnover, byte for byte",
        slots: Some((
            &[
                0xa5, 0, 0, 0, 0, 0, 0, 0x24, 0x60, 0, 0, 0, 0, 0, 0, 0, 0, 0,
            ],
            9341,
        )),
        ..WHOLE
    },
    Case {
        what: "a crash behind it",
        fate: Some(Fate::Old),
        ..WHOLE
    },
    Case {
        what: "an area of no record",
        does: &[(Does::TurnsOver(""), None, Ok(()))],
        places: &[],
        places_with_more: &[],
        ends: Some((9312, 1)),
        ..WHOLE
    },
    Case {
        what: "an append behind it",
        behind: "ceiling 300",
        places: NEW_WITH_ONE,
        places_with_more: NEW_WITH_ONE,
        ends: Some((9354, 1)),
        ..WHOLE
    },
    Case {
        what: "two turnovers",
        does: &[
            (Does::TurnsOver(AREA), None, Ok(())),
            (Does::TurnsOver(AREA), None, Ok(())),
        ],
        places: NEXT,
        places_with_more: NEXT,
        slots: Some((
            &[
                0xa5, 0, 0, 0, 0, 0, 0, 0x24, 0x60, 0xa5, 0, 0, 0, 0, 0, 0, 0x24, 0x7d,
            ],
            9370,
        )),
        ends: Some((9369, 2)),
        ..WHOLE
    },
];

// One of the first four calls fails.
static EARLY: [Case; 7] = [
    Case {
        what: "the first call fails",
        does: &[(Does::TurnsOver(AREA), Some(0), Err(Fault::Device))],
        fate: Some(Fate::New),
        ..FAILED
    },
    Case {
        what: "the second call fails",
        does: &[(Does::TurnsOver(AREA), Some(1), Err(Fault::Device))],
        fate: Some(Fate::Filled(0xa5)),
        ..FAILED
    },
    Case {
        what: "the third call fails",
        does: &[(Does::TurnsOver(AREA), Some(2), Err(Fault::Device))],
        fate: Some(Fate::New),
        ..FAILED
    },
    Case {
        what: "the fourth call fails, with its change lost",
        does: &[(Does::TurnsOver(AREA), Some(3), Err(Fault::Device))],
        fate: Some(Fate::Old),
        ..FAILED
    },
    Case {
        what: "the fourth call fails, with its change filled",
        does: &[(Does::TurnsOver(AREA), Some(3), Err(Fault::Device))],
        fate: Some(Fate::Filled(0x37)),
        ..FAILED
    },
    Case {
        what: "the fourth call fails, with its change kept",
        does: &[(Does::TurnsOver(AREA), Some(3), Err(Fault::Device))],
        fate: Some(Fate::New),
        is_stopped: true,
        ..WHOLE
    },
    Case {
        what: "the fourth call fails, and there is no crash",
        does: &[(Does::TurnsOver(AREA), Some(3), Err(Fault::Device))],
        ..FAILED
    },
];

// A later call fails.
static LATE: [Case; 4] = [
    Case {
        what: "the fifth call fails, with its change lost",
        does: &[(Does::TurnsOver(AREA), Some(4), Err(Fault::Device))],
        fate: Some(Fate::Old),
        ..FAILED
    },
    Case {
        what: "the fifth call fails, with its change kept",
        does: &[(Does::TurnsOver(AREA), Some(4), Err(Fault::Device))],
        fate: Some(Fate::New),
        is_stopped: true,
        ..WHOLE
    },
    Case {
        what: "the fifth call fails, and there is no crash",
        does: &[(Does::TurnsOver(AREA), Some(4), Err(Fault::Device))],
        is_stopped: true,
        ..WHOLE
    },
    Case {
        what: "the sixth call fails, which is none of its own",
        does: &[(Does::TurnsOver(AREA), Some(5), Ok(()))],
        fate: Some(Fate::Old),
        ..WHOLE
    },
];

// Makes a new area of these records.
fn area_of(alloc: Global, lines: &str) -> Option<Area> {
    let mut area = Area::new(alloc);
    for line in lines.lines() {
        let Some(item) = record_of(alloc, line) else {
            drop(area);
            return None;
        };
        let pushed = area.push(&item).is_ok();
        drop(item);
        if !pushed {
            drop(area);
            return None;
        }
    }
    Some(area)
}

/// Turns a log over to an area of these records, while that call is to fail, if one is.
pub fn turn(
    alloc: Global,
    log: &mut GateLog<SimDisk>,
    lines: &str,
    call: Option<u64>,
) -> Result<(), Fault> {
    let Some(area) = area_of(alloc, lines) else {
        return Err(Fault::Memory);
    };
    let staged = log.stage_area(area)?;
    log.arm(call);
    log.turn_over(staged)
}

/// Tells whether the first slots of the file hold this, and it has so many bytes.
pub fn has_slots(disk: &mut SimDisk, slots: &[u8; 18], len: u64) -> bool {
    let size = disk.len();
    if size < 26 {
        return false;
    }
    let mut found = [0; 18];
    disk.read_at(8, &mut found).is_ok() && found == *slots && size == len
}

/// Tells whether a turnover is refused after the last slot, and stops nothing. All slots of the file are open, and
/// each of them names an area of no record.
pub fn ends(rt: &HostRuntime) -> bool {
    let alloc = rt.alloc();
    let mut disk = SimDisk::new(alloc);
    let mut bytes = [0; 9];
    bytes[0] = 0xa5;
    let mut whole = disk.write_at(0, &HEADER).is_ok();
    for slot in 0..1024 {
        bytes[7] = ((9225 + slot) >> 8) as u8;
        bytes[8] = ((9225 + slot) & 0xff) as u8;
        let at = 8 + 9 * slot;
        whole = whole && at <= disk.len() && disk.write_at(at, &bytes).is_ok();
    }
    whole = whole && FIRST_GATE <= disk.len() && disk.write_at(FIRST_GATE, &[0; 1040]).is_ok();
    let Ok(mut log) = open(alloc, disk, &[]) else {
        return false;
    };
    let last = log.slot() == 1024;
    let spent = turn(alloc, &mut log, AREA, None) == Err(Fault::TimeSpent);
    let goes_on = !log.is_stopped() & put_lines(alloc, &mut log, "opened 1");
    drop(log);
    whole & last & spent & goes_on
}

// A body that names a table costs much to prove, so a function hands each on.
fn turned() -> &'static [Case] {
    &TURNED
}

fn early() -> &'static [Case] {
    &EARLY
}

fn late() -> &'static [Case] {
    &LATE
}

/// Checks logs that are turned over.
pub fn tell_turned(wrong: &mut WrongRows, rt: &HostRuntime) {
    go_over_all(
        wrong,
        rt,
        "logs that are turned over",
        &[turned(), early(), late()],
    );
}
