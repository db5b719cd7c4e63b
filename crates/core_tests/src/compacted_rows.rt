//! The tables of compacted logs: what the new file holds, and files that cannot be compacted.
use crate::logs::Line;
use crate::turned_rows::{A, COMMIT, DONE, NEW, OLD, SECOND, SETTLE, SETTLE_SECOND, TURN};
use crate::turning::{Ask, Asked, Bytes};
use disk::Fate;
use units::Fault;

/// A log by what a new core is asked, and the lengths of its file and of the new one.
pub struct Compacted {
    pub name: &'static str,
    pub asks: &'static [Asked],
    pub old_size: u64,
    pub new_size: u64,
    // The bytes of the new file, if they are given.
    pub bytes: Option<&'static Bytes>,
    // Its records, and what is asked after it was opened.
    pub log: &'static [Line],
    pub again: &'static [Asked],
}

// The file of the renewed log of one settled commit. The first area has no record, and its closed gate is byte 9,224. After it come
// Base 1 111 0, Version 111 a=1 and Settled 1.1 111 parts 0, of 30, 20 and 32 bytes, and a closed gate. Slot 0 is open and names 9,225.
const SHORT: &Bytes = &Bytes {
    told: &[
        0x53, 0x50, 0x4e, 0x4c, 0x4f, 0x47, 0x30, 0x32, 0, 0xa5, 0, 0, 0, 25, 8, 0, 0, 0, 0, 0, 0,
        0, 1, 0, 0, 0, 0, 0, 0, 0, 0x6f, 0, 0, 0, 0, 0, 0, 0, 0, 0xa5, 0, 0, 0, 15, 9, 1, 0x61, 0,
        0, 0, 0, 0, 0, 0, 0x6f, 1, 0, 1, 0x31, 0xa5, 0, 0, 0, 27, 10, 0, 0, 0, 0, 0, 0, 0, 1, 0, 0,
        0, 0, 0, 0, 0, 1, 0, 0, 0, 0, 0, 0, 0, 0x6f, 0, 1, 0,
    ],
    slots: [
        0xa5, 0, 0, 0, 0, 0, 0, 0x24, 0x09, 0, 0, 0, 0, 0, 0, 0, 0, 0,
    ],
};

const SETTLED: Compacted = Compacted {
    name: "a settled commit that was turned over",
    asks: &[COMMIT, SETTLE, TURN],
    old_size: 9_395,
    new_size: 9_308,
    bytes: Some(SHORT),
    log: NEW,
    again: &[(230, 240, Ask::Given(A, DONE))],
};

static COMPACTED: [Compacted; 4] = [
    SETTLED,
    Compacted {
        name: "the same, turned over twice",
        asks: &[COMMIT, SETTLE, TURN, TURN],
        old_size: 9_478,
        ..SETTLED
    },
    Compacted {
        name: "a log that was never turned over",
        asks: &[COMMIT, SETTLE],
        old_size: 9_312,
        new_size: 9_313,
        bytes: None,
        log: OLD,
        ..SETTLED
    },
    Compacted {
        name: "commits behind a turnover",
        asks: &[COMMIT, SETTLE, TURN, SECOND, SETTLE_SECOND],
        old_size: 9_395 + 73,
        new_size: 9_308 + 73,
        bytes: None,
        log: &[
            Line::Base(1, 111, 0),
            Line::Version(111, b'a', b'1'),
            Line::Settled(1, 111),
            Line::Decided(2, 211),
            Line::Committed(2, 211),
        ],
        again: &[
            (230, 240, Ask::Given(A, DONE)),
            (230, 240, Ask::Look(b'a', 211, Ok(b'2'))),
        ],
    },
];

/// What follows if a call of the new file fails. `fate` is that of the oldest change that is not synced, if there is a crash then. From the
/// two calls on, counted from 0, the file holds the empty log, and all three records. Calls 0 to 4 lay it out, and 5 to 9 turn it over.
/// Call 10 comes after them.
pub struct Failing {
    pub fate: Option<Fate>,
    pub empty_from: u64,
    pub all_from: u64,
}

/// Each fate of a crash after a failing call of the new file.
pub static FAILING: [Failing; 5] = [
    Failing {
        fate: None,
        empty_from: 4,
        all_from: 9,
    },
    Failing {
        fate: Some(Fate::Old),
        empty_from: 5,
        all_from: 10,
    },
    Failing {
        fate: Some(Fate::New),
        empty_from: 3,
        all_from: 8,
    },
    // The byte of an open gate.
    Failing {
        fate: Some(Fate::Filled(0xa5)),
        empty_from: 5,
        all_from: 8,
    },
    Failing {
        fate: Some(Fate::Filled(0x37)),
        empty_from: 5,
        all_from: 10,
    },
];

/// A file without its slots, the gate of its first slot if it has slots, a call of it that fails, and why it is refused.
pub struct Refused {
    pub name: &'static str,
    pub told: &'static [u8],
    pub slot: u8,
    pub fails: Option<u64>,
    pub fault: Fault,
}

const NO_BYTE: Refused = Refused {
    name: "no byte",
    told: b"",
    slot: 0,
    fails: None,
    fault: Fault::NotALog,
};

/// Files that are refused, and why.
pub static REFUSED: [Refused; 9] = [
    NO_BYTE,
    Refused {
        name: "a part of the header",
        told: b"SPNLOG0",
        ..NO_BYTE
    },
    Refused {
        name: "version 1",
        told: b"SPNLOG01\0",
        ..NO_BYTE
    },
    Refused {
        name: "no gate",
        told: b"SPNLOG02",
        fault: Fault::Damaged { offset: 9_224 },
        ..NO_BYTE
    },
    Refused {
        name: "past the end",
        told: b"SPNLOG02\xa5\0\0\0\x09",
        fault: Fault::Damaged { offset: 9_224 },
        ..NO_BYTE
    },
    Refused {
        name: "no gate behind a record",
        told: b"SPNLOG02\xa5\0\0\0\x09\x01\0\0\0\0\0\0\0\x01",
        fault: Fault::Damaged { offset: 9_238 },
        ..NO_BYTE
    },
    Refused {
        name: "an open slot of no area",
        told: b"SPNLOG02\0",
        slot: 0xa5,
        fault: Fault::Damaged { offset: 8 },
        ..NO_BYTE
    },
    Refused {
        name: "its sync fails",
        told: b"SPNLOG02\0",
        fails: Some(0),
        fault: Fault::Device,
        ..NO_BYTE
    },
    Refused {
        name: "its first read fails",
        told: b"SPNLOG02\0",
        fails: Some(1),
        fault: Fault::Device,
        ..NO_BYTE
    },
];

/// Returns the logs to compact. A body that names a table costs much to prove, so this hands it on.
pub fn compacted_logs() -> &'static [Compacted] {
    &COMPACTED
}
