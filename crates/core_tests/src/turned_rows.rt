//! Logs of one settled commit, and others, that are turned over.
use crate::answers::Told;
use crate::given::Given;
use crate::logs::Line;
use crate::turning::{Ask, Asked, Bytes, Row};
use disk::Fate;
use units::Fault;

/// 1.1 writes a=1.
pub const A: Given = Given::Commit(1, 0, b"a", b"1");

/// The session of 1.1 is told that it committed at 111.
pub const DONE: Told = Told::Says(&[(b'd', 9, 1, 111)]);

/// Nothing is put out.
pub const SAID: Told = Told::Says(&[]);

/// 1.1 writes a=1 at 111.
pub const COMMIT: Asked = (100, 110, Ask::Given(A, SAID));

/// 1.1 is settled.
pub const SETTLE: Asked = (112, 121, Ask::Given(Given::Settle(1), DONE));

/// 1.2 writes a=2 at 211.
pub const SECOND: Asked = (200, 210, Ask::Given(Given::Commit(2, 0, b"a", b"2"), SAID));

/// 1.2 is settled.
pub const SETTLE_SECOND: Asked = (
    212,
    221,
    Ask::Given(Given::Settle(2), Told::Says(&[(b'd', 9, 2, 211)])),
);

/// The log is turned over.
pub const TURN: Asked = (230, 240, Ask::Turn(Ok(())));

// The same commit again.
const AGAIN: Asked = (230, 240, Ask::Given(A, DONE));

// What the next opening adds.
const REOPENED: &[Line] = &[Line::Opened(2)];

/// The log of the commit.
pub const OLD: &[Line] = &[
    Line::Opened(1),
    Line::Decided(1, 111),
    Line::Committed(1, 111),
];

/// The log of its turnover.
pub const NEW: &[Line] = &[
    Line::Base(1, 111, 0),
    Line::Version(111, b'a', b'1'),
    Line::Settled(1, 111),
];

// The file of the commit without its slots. After its closed gate, which is byte 9,311 of the file, come Base 1 111 0, Version 111 a=1,
// Settled 1.1 111 parts 0, and a closed gate. Slot 0 is open and names 9,312.
const TURNED: &Bytes = &Bytes {
    told: &[
        0x53, 0x50, 0x4e, 0x4c, 0x4f, 0x47, 0x30, 0x32, 0xa5, 0, 0, 0, 9, 1, 0, 0, 0, 0, 0, 0, 0,
        1, 0xa5, 0, 0, 0, 37, 4, 0, 0, 0, 0, 0, 0, 0, 1, 0, 0, 0, 0, 0, 0, 0, 1, 0, 0, 0, 0, 0, 0,
        0, 0x6f, 0, 1, 0, 0, 0, 1, 1, 0x61, 1, 0, 1, 0x31, 0xa5, 0, 0, 0, 26, 6, 0, 0, 0, 0, 0, 0,
        0, 1, 0, 0, 0, 0, 0, 0, 0, 1, 1, 0, 0, 0, 0, 0, 0, 0, 0x6f, 0, 0xa5, 0, 0, 0, 25, 8, 0, 0,
        0, 0, 0, 0, 0, 1, 0, 0, 0, 0, 0, 0, 0, 0x6f, 0, 0, 0, 0, 0, 0, 0, 0, 0xa5, 0, 0, 0, 15, 9,
        1, 0x61, 0, 0, 0, 0, 0, 0, 0, 0x6f, 1, 0, 1, 0x31, 0xa5, 0, 0, 0, 27, 10, 0, 0, 0, 0, 0, 0,
        0, 1, 0, 0, 0, 0, 0, 0, 0, 1, 0, 0, 0, 0, 0, 0, 0, 0x6f, 0, 1, 0,
    ],
    slots: [
        0xa5, 0, 0, 0, 0, 0, 0, 0x24, 0x60, 0, 0, 0, 0, 0, 0, 0, 0, 0,
    ],
};

// The same with a second area of the same records. Slot 1 names 9,395.
const TWICE: &Bytes = &Bytes {
    told: &[
        0x53, 0x50, 0x4e, 0x4c, 0x4f, 0x47, 0x30, 0x32, 0xa5, 0, 0, 0, 9, 1, 0, 0, 0, 0, 0, 0, 0,
        1, 0xa5, 0, 0, 0, 37, 4, 0, 0, 0, 0, 0, 0, 0, 1, 0, 0, 0, 0, 0, 0, 0, 1, 0, 0, 0, 0, 0, 0,
        0, 0x6f, 0, 1, 0, 0, 0, 1, 1, 0x61, 1, 0, 1, 0x31, 0xa5, 0, 0, 0, 26, 6, 0, 0, 0, 0, 0, 0,
        0, 1, 0, 0, 0, 0, 0, 0, 0, 1, 1, 0, 0, 0, 0, 0, 0, 0, 0x6f, 0, 0xa5, 0, 0, 0, 25, 8, 0, 0,
        0, 0, 0, 0, 0, 1, 0, 0, 0, 0, 0, 0, 0, 0x6f, 0, 0, 0, 0, 0, 0, 0, 0, 0xa5, 0, 0, 0, 15, 9,
        1, 0x61, 0, 0, 0, 0, 0, 0, 0, 0x6f, 1, 0, 1, 0x31, 0xa5, 0, 0, 0, 27, 10, 0, 0, 0, 0, 0, 0,
        0, 1, 0, 0, 0, 0, 0, 0, 0, 1, 0, 0, 0, 0, 0, 0, 0, 0x6f, 0, 1, 0, 0xa5, 0, 0, 0, 25, 8, 0,
        0, 0, 0, 0, 0, 0, 1, 0, 0, 0, 0, 0, 0, 0, 0x6f, 0, 0, 0, 0, 0, 0, 0, 0, 0xa5, 0, 0, 0, 15,
        9, 1, 0x61, 0, 0, 0, 0, 0, 0, 0, 0x6f, 1, 0, 1, 0x31, 0xa5, 0, 0, 0, 27, 10, 0, 0, 0, 0, 0,
        0, 0, 1, 0, 0, 0, 0, 0, 0, 0, 1, 0, 0, 0, 0, 0, 0, 0, 0x6f, 0, 1, 0,
    ],
    slots: [
        0xa5, 0, 0, 0, 0, 0, 0, 0x24, 0x60, 0xa5, 0, 0, 0, 0, 0, 0, 0x24, 0xb3,
    ],
};

const WHOLE: Row = Row {
    name: "one settled commit, byte for byte",
    shard: 0,
    is_spent: false,
    fails: None,
    before: &[],
    asks: &[COMMIT, SETTLE, TURN],
    bytes: Some(TURNED),
    size: Some(9_395),
    fate: None,
    log: NEW,
    again: &[AGAIN],
    then: REOPENED,
};

static SETTLED: [Row; 6] = [
    WHOLE,
    Row {
        name: "the same with a crash",
        fate: Some(Fate::Old),
        ..WHOLE
    },
    Row {
        name: "the same commit changes nothing behind it",
        asks: &[COMMIT, SETTLE, TURN, AGAIN, (230, 240, Ask::Gate(9_394))],
        ..WHOLE
    },
    Row {
        name: "two turnovers give the same records",
        asks: &[COMMIT, SETTLE, TURN, TURN],
        bytes: Some(TWICE),
        size: Some(9_478),
        ..WHOLE
    },
    Row {
        name: "commits go on behind it",
        asks: &[COMMIT, SETTLE, TURN, SECOND, SETTLE_SECOND],
        bytes: None,
        size: Some(9_395 + 73),
        log: &[
            Line::Base(1, 111, 0),
            Line::Version(111, b'a', b'1'),
            Line::Settled(1, 111),
            Line::Decided(2, 211),
            Line::Committed(2, 211),
        ],
        again: &[(230, 240, Ask::Look(b'a', 211, Ok(b'2')))],
        ..WHOLE
    },
    Row {
        name: "a stopped core",
        fails: Some(0),
        asks: &[
            (100, 110, Ask::Given(A, Told::Refused(Fault::Device))),
            (230, 240, Ask::Turn(Err(Fault::Stopped))),
        ],
        bytes: None,
        size: None,
        fate: Some(Fate::Old),
        log: &[Line::Opened(1)],
        again: &[],
        ..WHOLE
    },
];

const TOO_OLD: Asked = (230, 240, Ask::Look(b'a', 149, Err(Fault::TooOld)));

const OLDER: Asked = (230, 240, Ask::Look(b'a', 150, Ok(b'1')));

const TOO_OLD_FOR_THE_SECOND: Asked = (230, 240, Ask::Look(b'a', 210, Err(Fault::TooOld)));

const NEWER: Asked = (230, 240, Ask::Look(b'a', 211, Ok(b'2')));

const NOT_YET: Asked = (230, 240, Ask::Look(b'a', 212, Err(Fault::NotYet)));

/// A log that is turned over, and whose disk then crashes and keeps the oldest change as it was before.
pub const LEFT: Row = Row {
    bytes: None,
    size: None,
    fate: Some(Fate::Old),
    ..WHOLE
};

static LOOKED: [Row; 2] = [
    Row {
        name: "what is seen stays, and so does the horizon",
        asks: &[
            COMMIT,
            SETTLE,
            SECOND,
            SETTLE_SECOND,
            (222, 230, Ask::Given(Given::Forget(150), SAID)),
            TOO_OLD,
            OLDER,
            NEWER,
            NOT_YET,
            TURN,
            TOO_OLD,
            OLDER,
            NEWER,
            NOT_YET,
        ],
        log: &[
            Line::Base(1, 211, 150),
            Line::Version(111, b'a', b'1'),
            Line::Version(211, b'a', b'2'),
            Line::Settled(1, 111),
            Line::Settled(2, 211),
        ],
        again: &[TOO_OLD, OLDER, NEWER, NOT_YET],
        ..LEFT
    },
    Row {
        name: "the version at the horizon stays, and the one before is gone",
        asks: &[
            COMMIT,
            SETTLE,
            SECOND,
            SETTLE_SECOND,
            (222, 230, Ask::Given(Given::Forget(211), SAID)),
            TURN,
            TOO_OLD_FOR_THE_SECOND,
            NEWER,
        ],
        log: &[
            Line::Base(1, 211, 211),
            Line::Version(211, b'a', b'2'),
            Line::Settled(1, 111),
            Line::Settled(2, 211),
        ],
        again: &[TOO_OLD_FOR_THE_SECOND, NEWER],
        ..LEFT
    },
];

static STANDING: [Row; 4] = [
    Row {
        name: "an abort stays",
        asks: &[
            (
                100,
                110,
                Ask::Given(Given::Ask(9), Told::Says(&[(b'o', 1, 9, 0)])),
            ),
            TURN,
        ],
        log: &[Line::Base(1, 0, 0), Line::Aborted(9)],
        again: &[(
            100,
            110,
            Ask::Given(
                Given::CommitOfBoth(9, b"a", b"1"),
                Told::Says(&[(b'd', 9, 9, 0)]),
            ),
        )],
        ..LEFT
    },
    Row {
        name: "a decision stays, and is settled then",
        asks: &[COMMIT, TURN],
        log: &[Line::Base(1, 111, 0), Line::Decided(1, 111)],
        again: &[SETTLE, (230, 240, Ask::Look(b'a', 111, Ok(b'1')))],
        then: &[Line::Opened(2), Line::Committed(1, 111)],
        ..LEFT
    },
    Row {
        name: "a promise stays, and is closed then",
        shard: 1,
        asks: &[
            (
                200,
                210,
                Ask::Given(
                    Given::Prepare(2, b"z", b"7"),
                    Told::Says(&[(b'v', 0, 2, 200)]),
                ),
            ),
            TURN,
        ],
        log: &[Line::Base(1, 200, 0), Line::Promised(2, 200)],
        again: &[
            (230, 240, Ask::Given(Given::Outcome(2, 200), SAID)),
            (230, 240, Ask::Look(b'z', 200, Ok(b'7'))),
        ],
        then: &[Line::Opened(2), Line::Committed(2, 200)],
        ..LEFT
    },
    Row {
        name: "what a part has closed stays closed",
        shard: 1,
        asks: &[
            (
                200,
                210,
                Ask::Given(
                    Given::Prepare(2, b"z", b"7"),
                    Told::Says(&[(b'v', 0, 2, 200)]),
                ),
            ),
            (201, 230, Ask::Given(Given::Outcome(2, 200), SAID)),
            TURN,
        ],
        log: &[
            Line::Base(1, 200, 0),
            Line::Version(200, b'z', b'7'),
            Line::Closed(2, 200),
        ],
        again: &[(230, 240, Ask::Look(b'z', 200, Ok(b'7')))],
        ..LEFT
    },
];

// A body that names a table or a long row costs much to prove, so functions hand each on.

/// Returns the row of a log that is turned over and left to a crash.
pub fn left_row() -> Row {
    LEFT
}

/// Returns the rows of the settled commit.
pub fn settled() -> &'static [Row] {
    &SETTLED
}

/// Returns the rows of what is seen, and of horizons.
pub fn looked() -> &'static [Row] {
    &LOOKED
}

/// Returns the rows of what has not ended.
pub fn standing() -> &'static [Row] {
    &STANDING
}
