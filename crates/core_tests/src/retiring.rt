//! Shards that retire ids: what is refused from then on, when it is too early, and what logs and openings hold of it.
use crate::answers::Told;
use crate::given::Given;
use crate::logs::Line;
use crate::stories::{Exchange, Moment, Origin, Shows, Story};
use crate::turned_rows::{A, COMMIT, LEFT, SAID, SECOND, SETTLE, SETTLE_SECOND, TURN};
use crate::turning::{Ask, Row};
use made::FIRST_GATE;
use units::{Fault, Seen};

const STRANGER: Told = Told::Refused(Fault::Stranger);

const NOT_YET: Told = Told::Refused(Fault::NotYet);

// Nothing is put out.
const NOTHING: Told = Told::Says(&[]);

// An opening takes 14 bytes of the log, a decision of one letter 42, a promise of one letter 41, an outcome committed 31, and an abort and a
// retired id 22 each. The closed gate takes 1.

// Shards that decide.
static DECIDED: [Story; 4] = [
    // Neither of 1.1, which is settled, nor of 1.2 to 1.4, of which nothing was known, anything is answered or logged.
    Story {
        name: "all that is said of a retired id is refused, and what it wrote stays",
        shard: 0,
        stride: 0,
        origin: Origin::New,
        exchanges: &[
            (100, 110, Given::Commit(1, 0, b"a", b"1"), NOTHING),
            (112, 121, Given::Settle(1), Told::Says(&[(b'd', 9, 1, 111)])),
            (120, 130, Given::Retire(5), NOTHING),
            (120, 130, Given::Commit(1, 0, b"a", b"1"), STRANGER),
            (120, 130, Given::Commit(2, 0, b"a", b"2"), STRANGER),
            (120, 130, Given::CommitOfBoth(3, b"a", b"3"), STRANGER),
            (120, 130, Given::Read(1, b"a"), STRANGER),
            (120, 130, Given::Read(4, b"a"), STRANGER),
            (120, 130, Given::Vote(1, 200), STRANGER),
            (120, 130, Given::Vote(4, 200), STRANGER),
            (120, 130, Given::GiveUp(1), STRANGER),
            (120, 130, Given::GiveUp(4), STRANGER),
            (120, 130, Given::Ask(1), STRANGER),
            (120, 130, Given::Ask(4), STRANGER),
            (120, 130, Given::Settle(1), STRANGER),
            (120, 130, Given::Nudge(4), STRANGER),
            (120, 130, Given::Resume, NOTHING),
            (200, 210, Given::Commit(5, 0, b"a", b"5"), NOTHING),
            (212, 221, Given::Settle(5), Told::Says(&[(b'd', 9, 5, 211)])),
        ],
        moments: &[
            Moment {
                after: 17,
                shows: &[
                    Shows::Size(FIRST_GATE + 110),
                    Shows::Decided(0, 0),
                    Shows::Last(111),
                    Shows::Safe(111),
                    Shows::Installs(1),
                    Shows::Look(b"a", 111, 1, Ok(Seen::Value(1)), [0x31, 9, 9, 9]),
                ],
            },
            Moment {
                after: 19,
                shows: &[
                    Shows::Size(FIRST_GATE + 183),
                    Shows::Look(b"a", 111, 1, Ok(Seen::Value(1)), [0x31, 9, 9, 9]),
                    Shows::Look(b"a", 211, 1, Ok(Seen::Value(1)), [0x35, 9, 9, 9]),
                ],
            },
        ],
    },
    // The decided transaction is not below its own id.
    Story {
        name: "no id is retired while a lower one is decided",
        shard: 0,
        stride: 0,
        origin: Origin::New,
        exchanges: &[
            (100, 110, Given::Commit(1, 0, b"a", b"1"), NOTHING),
            (100, 110, Given::Retire(2), NOT_YET),
            (100, 110, Given::Retire(1), NOTHING),
            (112, 121, Given::Settle(1), Told::Says(&[(b'd', 9, 1, 111)])),
            (112, 121, Given::Ask(1), STRANGER),
            (
                112,
                121,
                Given::Commit(1, 0, b"a", b"1"),
                Told::Says(&[(b'd', 9, 1, 111)]),
            ),
            (112, 121, Given::Retire(2), NOTHING),
            (112, 121, Given::Commit(1, 0, b"a", b"1"), STRANGER),
        ],
        moments: &[
            Moment {
                after: 2,
                shows: &[Shows::Size(FIRST_GATE + 57), Shows::Decided(1, 111)],
            },
            Moment {
                after: 3,
                shows: &[Shows::Size(FIRST_GATE + 79), Shows::Decided(1, 111)],
            },
            Moment {
                after: 8,
                shows: &[Shows::Size(FIRST_GATE + 132), Shows::Decided(0, 0)],
            },
        ],
    },
    Story {
        name: "no id is retired while a lower one collects votes",
        shard: 0,
        stride: 0,
        origin: Origin::New,
        exchanges: &[
            (100, 110, Given::CommitOfBoth(2, b"a", b"1"), NOTHING),
            (100, 110, Given::Retire(3), NOT_YET),
            (100, 110, Given::Vote(2, 200), NOTHING),
            (100, 110, Given::Retire(3), NOT_YET),
            (
                201,
                230,
                Given::Settle(2),
                Told::Says(&[(b'd', 9, 2, 200), (b'o', 1, 2, 200)]),
            ),
            (201, 230, Given::Ask(2), Told::Says(&[(b'o', 1, 2, 200)])),
            (201, 230, Given::Retire(3), NOTHING),
            (201, 230, Given::Ask(2), STRANGER),
            (201, 230, Given::Vote(2, 200), STRANGER),
        ],
        moments: &[Moment {
            after: 9,
            shows: &[Shows::Decided(0, 0), Shows::Size(FIRST_GATE + 110)],
        }],
    },
    // A question is refused, and aborts nothing.
    Story {
        name: "retired ids stay retired, and each is logged once",
        shard: 0,
        stride: 0,
        origin: Origin::New,
        exchanges: &[
            (100, 110, Given::Ask(3), Told::Says(&[(b'o', 1, 3, 0)])),
            (100, 110, Given::Retire(5), NOTHING),
            (100, 110, Given::Retire(5), NOTHING),
            (100, 110, Given::Retire(4), NOTHING),
            (100, 110, Given::Ask(3), STRANGER),
            (100, 110, Given::Ask(4), STRANGER),
            (100, 110, Given::Retire(6), NOTHING),
            (100, 110, Given::Ask(5), STRANGER),
            (100, 110, Given::Ask(6), Told::Says(&[(b'o', 1, 6, 0)])),
        ],
        moments: &[
            Moment {
                after: 6,
                shows: &[Shows::Size(FIRST_GATE + 59)],
            },
            Moment {
                after: 9,
                shows: &[Shows::Size(FIRST_GATE + 103)],
            },
        ],
    },
];

// Shards that take part.
static PROMISED: [Story; 3] = [
    Story {
        name: "no id is retired while a lower one is promised, and then all that is said of it is refused",
        shard: 1,
        stride: 0,
        origin: Origin::New,
        exchanges: &[
            (
                200,
                210,
                Given::Prepare(2, b"z", b"7"),
                Told::Says(&[(b'v', 0, 2, 200)]),
            ),
            (200, 210, Given::Retire(3), NOT_YET),
            (201, 230, Given::Outcome(2, 200), NOTHING),
            (201, 230, Given::Outcome(2, 200), NOTHING),
            (201, 230, Given::Retire(3), NOTHING),
            (201, 230, Given::Outcome(2, 200), STRANGER),
            (201, 230, Given::Prepare(2, b"z", b"7"), STRANGER),
            (201, 230, Given::Prepare(1, b"z", b"1"), STRANGER),
            (201, 230, Given::PrepareOfReader(1, b"z", b"1"), STRANGER),
            (201, 230, Given::PrepareOfRead(1, b"z"), STRANGER),
            (201, 230, Given::Read(2, b"z"), STRANGER),
            (201, 230, Given::GiveUp(2), STRANGER),
            (201, 230, Given::Nudge(2), STRANGER),
            (
                240,
                250,
                Given::Prepare(3, b"z", b"8"),
                Told::Says(&[(b'v', 0, 3, 240)]),
            ),
        ],
        moments: &[
            Moment {
                after: 2,
                shows: &[Shows::Size(FIRST_GATE + 56), Shows::Prepared(2, 200)],
            },
            Moment {
                after: 13,
                shows: &[
                    Shows::Prepared(0, 0),
                    Shows::Installs(1),
                    Shows::Safe(200),
                    Shows::Size(FIRST_GATE + 109),
                    Shows::Look(b"z", 200, 1, Ok(Seen::Value(1)), [0x37, 9, 9, 9]),
                ],
            },
            Moment {
                after: 14,
                shows: &[Shows::Prepared(3, 240), Shows::Size(FIRST_GATE + 150)],
            },
        ],
    },
    // 1.1 holds `z` as it reads, and 1.2 waits for it.
    Story {
        name: "no id is retired while a lower one reads or waits",
        shard: 1,
        stride: 0,
        origin: Origin::New,
        exchanges: &[
            (
                200,
                210,
                Given::Read(1, b"z"),
                Told::Says(&[(b'r', 9, 1, 1)]),
            ),
            (200, 210, Given::Prepare(2, b"z", b"2"), NOTHING),
            (200, 210, Given::Retire(2), NOT_YET),
            (205, 215, Given::GiveUp(1), NOTHING),
            (205, 215, Given::Retire(3), NOT_YET),
            (205, 215, Given::Retire(2), NOTHING),
            (205, 215, Given::GiveUp(1), STRANGER),
            (205, 215, Given::Read(1, b"z"), STRANGER),
            (220, 230, Given::Resume, Told::Says(&[(b'v', 0, 2, 220)])),
        ],
        // The opening, the retired id, the promise and a closed gate.
        moments: &[
            Moment {
                after: 5,
                shows: &[Shows::Ready(2), Shows::Size(FIRST_GATE + 15)],
            },
            Moment {
                after: 9,
                shows: &[Shows::Prepared(2, 220), Shows::Size(FIRST_GATE + 78)],
            },
        ],
    },
    // 1.1 was given up, and a prepare of it is refused with a vote. Once it is retired it is answered no more.
    Story {
        name: "who was ended is retired too",
        shard: 1,
        stride: 0,
        origin: Origin::New,
        exchanges: &[
            (
                200,
                210,
                Given::Read(1, b"z"),
                Told::Says(&[(b'r', 9, 1, 1)]),
            ),
            (200, 210, Given::GiveUp(1), NOTHING),
            (
                200,
                210,
                Given::Prepare(1, b"z", b"1"),
                Told::Says(&[(b'v', 0, 1, 0)]),
            ),
            (200, 210, Given::Retire(2), NOTHING),
            (200, 210, Given::Prepare(1, b"z", b"1"), STRANGER),
        ],
        moments: &[Moment {
            after: 5,
            shows: &[Shows::Prepared(0, 0), Shows::Size(FIRST_GATE + 37)],
        }],
    },
];

// 1.1 writes `a` at 111, and all ids below 1.4 are retired.
const RETIRED: &[Exchange] = &[
    (100, 110, Given::Commit(1, 0, b"a", b"1"), NOTHING),
    (112, 121, Given::Settle(1), Told::Says(&[(b'd', 9, 1, 111)])),
    (120, 130, Given::Retire(4), NOTHING),
];

// Shards that are opened again.
static REOPENED: [Story; 1] = [Story {
    name: "ids are retired behind an opening too",
    shard: 0,
    stride: 0,
    origin: Origin::Crashed(RETIRED),
    exchanges: &[
        (130, 140, Given::Commit(1, 0, b"a", b"1"), STRANGER),
        (130, 140, Given::Commit(3, 0, b"a", b"3"), STRANGER),
        (130, 140, Given::Ask(1), STRANGER),
        (130, 140, Given::Retire(4), NOTHING),
        (130, 140, Given::Ask(4), Told::Says(&[(b'o', 1, 4, 0)])),
        (130, 140, Given::Retire(5), NOTHING),
        (130, 140, Given::Ask(4), STRANGER),
    ],
    moments: &[
        Moment {
            after: 4,
            shows: &[
                Shows::Epoch(2),
                Shows::Size(FIRST_GATE + 124),
                Shows::Look(b"a", 111, 1, Ok(Seen::Value(1)), [0x31, 9, 9, 9]),
            ],
        },
        Moment {
            after: 7,
            shows: &[Shows::Size(FIRST_GATE + 168)],
        },
    ],
}];

// Logs that are turned over.
static TURNED_OVER: [Row; 3] = [
    Row {
        name: "a renewed log has nothing of those who ended and are retired",
        asks: &[
            COMMIT,
            SETTLE,
            SECOND,
            SETTLE_SECOND,
            (222, 230, Ask::Given(Given::Retire(2), SAID)),
            TURN,
            (230, 240, Ask::Given(A, STRANGER)),
            (230, 240, Ask::Look(b'a', 111, Ok(b'1'))),
        ],
        log: &[
            Line::Base(1, 211, 0),
            Line::Version(111, b'a', b'1'),
            Line::Version(211, b'a', b'2'),
            Line::Retired(2),
            Line::Settled(2, 211),
        ],
        again: &[
            (230, 240, Ask::Given(A, STRANGER)),
            (
                230,
                240,
                Ask::Given(
                    Given::Commit(2, 0, b"a", b"2"),
                    Told::Says(&[(b'd', 9, 2, 211)]),
                ),
            ),
            (230, 240, Ask::Look(b'a', 111, Ok(b'1'))),
            (230, 240, Ask::Given(Given::Retire(2), SAID)),
            (230, 240, Ask::Given(Given::Retire(3), SAID)),
            (
                230,
                240,
                Ask::Given(Given::Commit(2, 0, b"a", b"2"), STRANGER),
            ),
        ],
        then: &[Line::Opened(2), Line::Retired(3)],
        ..LEFT
    },
    // Nothing of what stands is retired.
    Row {
        name: "a promise that stands above the retired ids stays",
        shard: 1,
        asks: &[
            (
                200,
                210,
                Ask::Given(
                    Given::Prepare(2, b"z", b"7"),
                    Told::Says(&[(b'v', 0, 2, 200)]),
                ),
            ),
            (200, 210, Ask::Given(Given::Retire(2), SAID)),
            (200, 210, Ask::Given(Given::Retire(3), NOT_YET)),
            TURN,
        ],
        log: &[
            Line::Base(1, 200, 0),
            Line::Retired(2),
            Line::Promised(2, 200),
        ],
        again: &[
            (230, 240, Ask::Given(Given::Retire(3), NOT_YET)),
            (230, 240, Ask::Given(Given::Outcome(2, 200), SAID)),
            (230, 240, Ask::Given(Given::Retire(3), SAID)),
            (230, 240, Ask::Given(Given::Outcome(2, 200), STRANGER)),
            (230, 240, Ask::Look(b'z', 200, Ok(b'7'))),
        ],
        then: &[Line::Opened(2), Line::Committed(2, 200), Line::Retired(3)],
        ..LEFT
    },
    Row {
        name: "a log is turned over twice, and more is retired between",
        asks: &[
            COMMIT,
            SETTLE,
            TURN,
            SECOND,
            SETTLE_SECOND,
            (222, 230, Ask::Given(Given::Retire(2), SAID)),
            (222, 230, Ask::Given(Given::Retire(3), SAID)),
            TURN,
        ],
        log: &[
            Line::Base(1, 211, 0),
            Line::Version(111, b'a', b'1'),
            Line::Version(211, b'a', b'2'),
            Line::Retired(3),
        ],
        again: &[(
            230,
            240,
            Ask::Given(Given::Commit(2, 0, b"a", b"2"), STRANGER),
        )],
        ..LEFT
    },
];

// A body that names a table costs much to prove, so functions hand each on.

/// Returns the stories of shards that decide.
pub fn decided() -> &'static [Story] {
    &DECIDED
}

/// Returns the stories of shards that take part.
pub fn promised() -> &'static [Story] {
    &PROMISED
}

/// Returns the stories of shards that are opened again.
pub fn reopened() -> &'static [Story] {
    &REOPENED
}

/// Returns the rows of logs that are turned over.
pub fn turned_over() -> &'static [Row] {
    &TURNED_OVER
}
