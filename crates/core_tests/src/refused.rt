//! Files that are refused: which of two faults the opening returns, and that a body which is too long is no record.
use crate::cores::disk_with;
use crate::damaged::opening;
use crate::verdict::end;
use made::{FIRST_GATE, WrongRows, with_slots};
use simdisk::SimDisk;
use std::alloc::Global;
use std::process::Abort;
use units::Fault;

// A file: the header, the slots and the first opening, these frames, and after them this many zeros.
struct Row {
    name: &'static str,
    frames: &'static [&'static [u8]],
    zeros: usize,
    fault: Fault,
}

const FRONT: &[u8] = &[
    0x53, 0x50, 0x4e, 0x4c, 0x4f, 0x47, 0x30, 0x32, 0xa5, 0, 0, 0, 9, 1, 0, 0, 0, 0, 0, 0, 0, 1,
];

// Commit 1.1 at 111, of shard 0, with z=1: a key of shard 1.
const STRANGE: &[u8] = &[
    0xa5, 0, 0, 0, 37, 4, 0, 0, 0, 0, 0, 0, 0, 1, 0, 0, 0, 0, 0, 0, 0, 1, 0, 0, 0, 0, 0, 0, 0,
    0x6f, 0, 1, 0, 0, 0, 1, 1, 0x7a, 1, 0, 1, 0x31,
];

// An opening that is not the next one.
const OPENED_3: &[u8] = &[0xa5, 0, 0, 0, 9, 1, 0, 0, 0, 0, 0, 0, 0, 3];

// No frame: its body would be empty.
const BROKEN: &[u8] = &[0xa5, 0, 0, 0, 0];

// The gate and the length of a body of 2^20 bytes, and of one byte more.
const LONGEST: &[u8] = &[0xa5, 0, 0x10, 0, 0];

const TOO_LONG: &[u8] = &[0xa5, 0, 0x10, 0, 1];

static ROWS: [Row; 9] = [
    Row {
        name: "a strange key",
        frames: &[STRANGE],
        zeros: 1,
        fault: Fault::Stranger,
    },
    Row {
        name: "a record out of turn",
        frames: &[OPENED_3],
        zeros: 1,
        fault: Fault::Damaged {
            offset: FIRST_GATE + 14,
        },
    },
    Row {
        name: "damage behind a strange key",
        frames: &[STRANGE, BROKEN],
        zeros: 0,
        fault: Fault::Damaged {
            offset: FIRST_GATE + 56,
        },
    },
    Row {
        name: "damage behind a record out of turn",
        frames: &[OPENED_3, BROKEN],
        zeros: 0,
        fault: Fault::Damaged {
            offset: FIRST_GATE + 28,
        },
    },
    Row {
        name: "no gate behind a strange key",
        frames: &[STRANGE],
        zeros: 0,
        fault: Fault::Damaged {
            offset: FIRST_GATE + 56,
        },
    },
    Row {
        name: "a strange key behind a record out of turn",
        frames: &[OPENED_3, STRANGE],
        zeros: 1,
        fault: Fault::Damaged {
            offset: FIRST_GATE + 14,
        },
    },
    Row {
        name: "a record out of turn behind a strange key",
        frames: &[STRANGE, OPENED_3],
        zeros: 1,
        fault: Fault::Stranger,
    },
    Row {
        name: "a body of 2^20 bytes that is no record",
        frames: &[LONGEST],
        zeros: 1_048_577,
        fault: Fault::Damaged {
            offset: FIRST_GATE + 14,
        },
    },
    Row {
        name: "a longer body",
        frames: &[TOO_LONG],
        zeros: 1_048_578,
        fault: Fault::Damaged {
            offset: FIRST_GATE + 14,
        },
    },
];

// The disk with the file of the row.
fn written(rt: &impl Abort, alloc: Global, row: &Row) -> SimDisk {
    let mut bytes = with_slots(alloc, FRONT).ok().expect(rt, "memory");
    for frame in row.frames {
        bytes.extend_from_slice(*frame).ok().expect(rt, "memory");
    }
    let zeros = Vec::from_elem(alloc, 0, row.zeros)
        .ok()
        .expect(rt, "memory");
    bytes.extend_from_slice(&zeros).ok().expect(rt, "memory");
    let disk = disk_with(rt, alloc, &bytes);
    drop(bytes);
    disk
}

fn tell_refused(wrong: &mut WrongRows, rt: &impl Abort, alloc: Global) {
    for row in &ROWS {
        let said = opening(rt, alloc, written(rt, alloc, row));
        wrong.unless(said == Err(row.fault), row.name);
    }
}

/// Shows that an opening returns the first fault of a file.
#[test]
fn the_first_fault_counts(rt: HostRuntime) {
    let mut wrong = WrongRows::none(rt.alloc());
    tell_refused(&mut wrong, &rt, rt.alloc());
    end(&rt, wrong);
}
