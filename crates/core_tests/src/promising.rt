//! Shards that take part in transactions which another shard decides.
use crate::answers::Told;
use crate::given::Given;
use crate::stories::{Moment, Origin, Shows, Story};
use made::FIRST_GATE;
use units::{Fault, Seen};

// Promises of transactions that have read nothing.
static PROMISES: [Story; 2] = [
    Story {
        name: "a promise holds the served time",
        shard: 1,
        stride: 0,
        origin: Origin::New,
        exchanges: &[(
            200,
            210,
            Given::Prepare(2, b"z", b"7"),
            Told::Says(&[(b'v', 0, 2, 200)]),
        )],
        moments: &[Moment {
            after: 1,
            shows: &[
                Shows::Prepared(2, 200),
                Shows::Last(200),
                Shows::Safe(199),
                Shows::Look(b"z", 199, 1, Ok(Seen::Absent), [9; 4]),
                Shows::Look(b"z", 200, 1, Err(Fault::NotYet), [9; 4]),
            ],
        }],
    },
    // The coordinator may be asked until the outcome comes.
    Story {
        name: "an outcome is logged once",
        shard: 1,
        stride: 0,
        origin: Origin::New,
        exchanges: &[
            (
                200,
                210,
                Given::Prepare(2, b"z", b"7"),
                Told::Says(&[(b'v', 0, 2, 200)]),
            ),
            (201, 230, Given::Nudge(2), Told::Says(&[(b'a', 0, 2, 0)])),
            (201, 230, Given::Outcome(2, 200), Told::Says(&[])),
            (201, 230, Given::Outcome(2, 200), Told::Says(&[])),
        ],
        // The opening, the promise, one outcome and a closed gate.
        moments: &[Moment {
            after: 4,
            shows: &[
                Shows::Prepared(0, 0),
                Shows::Installs(1),
                Shows::Safe(200),
                Shows::Size(FIRST_GATE + 87),
                Shows::Look(b"z", 200, 1, Ok(Seen::Value(1)), [0x37, 9, 9, 9]),
            ],
        }],
    },
];

// Promises beside readers.
static READERS: [Story; 3] = [
    Story {
        name: "an older prepare ends a younger reader",
        shard: 1,
        stride: 0,
        origin: Origin::New,
        exchanges: &[
            (
                200,
                210,
                Given::Read(2, b"z"),
                Told::Says(&[(b'r', 9, 2, 1)]),
            ),
            (
                200,
                210,
                Given::Prepare(1, b"z", b"1"),
                Told::Says(&[(b'v', 0, 1, 200)]),
            ),
            (
                200,
                210,
                Given::PrepareOfReader(2, b"z", b"2"),
                Told::Says(&[(b'v', 0, 2, 0)]),
            ),
        ],
        // The opening, one promise and a closed gate.
        moments: &[Moment {
            after: 3,
            shows: &[Shows::Prepared(1, 200), Shows::Size(FIRST_GATE + 56)],
        }],
    },
    Story {
        name: "a younger prepare waits for an older reader",
        shard: 1,
        stride: 0,
        origin: Origin::New,
        exchanges: &[
            (
                200,
                210,
                Given::Read(1, b"z"),
                Told::Says(&[(b'r', 9, 1, 1)]),
            ),
            (200, 210, Given::Prepare(2, b"z", b"2"), Told::Says(&[])),
            (202, 212, Given::Resume, Told::Says(&[])),
            (205, 215, Given::GiveUp(1), Told::Says(&[])),
            (220, 230, Given::Resume, Told::Says(&[(b'v', 0, 2, 220)])),
        ],
        moments: &[
            Moment {
                after: 4,
                shows: &[Shows::Ready(2), Shows::Prepared(0, 0)],
            },
            Moment {
                after: 5,
                shows: &[Shows::Ready(0), Shows::Prepared(2, 220)],
            },
        ],
    },
    // It reads at one shard and writes at another: this is the shard at which it read.
    Story {
        name: "a promise of what was read closes without a version",
        shard: 1,
        stride: 0,
        origin: Origin::New,
        exchanges: &[
            (90, 95, Given::Read(3, b"z"), Told::Says(&[(b'r', 9, 3, 1)])),
            (
                90,
                95,
                Given::PrepareOfRead(3, b"z"),
                Told::Says(&[(b'v', 0, 3, 90)]),
            ),
            (112, 121, Given::Outcome(3, 111), Told::Says(&[])),
        ],
        moments: &[Moment {
            after: 3,
            shows: &[Shows::Installs(0), Shows::Last(111), Shows::Safe(111)],
        }],
    },
];

/// Returns the stories of promises. A body that names a table costs much to prove, so this hands it on.
pub fn promises() -> &'static [Story] {
    &PROMISES
}

/// Returns the stories of promises beside readers.
pub fn readers() -> &'static [Story] {
    &READERS
}
