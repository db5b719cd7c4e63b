//! Served time and looks.
use crate::answers::Told;
use crate::given::{Given, LAST};
use crate::stories::{Exchange, Moment, Origin, Shows, Story};
use made::FIRST_GATE;
use units::{Fault, Seen};

const COMMITTED: &[Exchange] = &[
    (100, 110, Given::Commit(1, 0, b"a", b"1"), Told::Says(&[])),
    (112, 121, Given::Settle(1), Told::Says(&[(b'd', 9, 1, 111)])),
];

// Advances, and their ceilings.
static ADVANCES: [Story; 3] = [
    // A ceiling in the log of a fresh shard is a frame of nine bytes after the opening, and its gate.
    Story {
        name: "advances",
        shard: 0,
        stride: 0,
        origin: Origin::New,
        exchanges: &[
            (100, 110, Given::Advance(111), Told::Refused(Fault::Future)),
            (100, 110, Given::Advance(110), Told::Says(&[])),
            // The same again logs nothing.
            (100, 110, Given::Advance(110), Told::Says(&[])),
        ],
        moments: &[
            Moment {
                after: 1,
                shows: &[Shows::Safe(0), Shows::Size(FIRST_GATE + 15)],
            },
            Moment {
                after: 3,
                shows: &[
                    Shows::Safe(110),
                    Shows::Last(110),
                    Shows::Installs(0),
                    Shows::Epoch(1),
                    Shows::Log(FIRST_GATE + 19, &[2, 0, 0, 0, 0, 0, 0, 0, 110]),
                    Shows::Size(FIRST_GATE + 29),
                ],
            },
        ],
    },
    Story {
        name: "a ceiling stands a stride ahead",
        shard: 0,
        stride: 50,
        origin: Origin::New,
        exchanges: &[
            (150, 160, Given::Advance(150), Told::Says(&[])),
            (150, 160, Given::Advance(160), Told::Says(&[])),
        ],
        moments: &[Moment {
            after: 2,
            shows: &[
                Shows::Last(160),
                Shows::Log(FIRST_GATE + 19, &[2, 0, 0, 0, 0, 0, 0, 0, 200]),
                Shows::Size(FIRST_GATE + 29),
            ],
        }],
    },
    Story {
        name: "a ceiling near the greatest timestamp",
        shard: 0,
        stride: 50,
        origin: Origin::New,
        exchanges: &[(
            0,
            LAST,
            Given::Advance(4_611_686_018_427_387_900),
            Told::Says(&[]),
        )],
        moments: &[Moment {
            after: 1,
            shows: &[Shows::Log(
                FIRST_GATE + 19,
                &[2, 0x3f, 255, 255, 255, 255, 255, 255, 255],
            )],
        }],
    },
];

static LOOKS: [Story; 3] = [
    Story {
        name: "looks before and after settling",
        shard: 0,
        stride: 0,
        origin: Origin::New,
        exchanges: COMMITTED,
        moments: &[
            Moment {
                after: 1,
                shows: &[
                    Shows::Look(b"a", 110, 2, Ok(Seen::Absent), [9; 4]),
                    Shows::Look(b"a", 111, 2, Err(Fault::NotYet), [9; 4]),
                ],
            },
            Moment {
                after: 2,
                shows: &[
                    Shows::Look(b"a", 110, 2, Ok(Seen::Absent), [9; 4]),
                    Shows::Look(b"a", 111, 2, Ok(Seen::Value(1)), [0x31, 9, 9, 9]),
                    Shows::Look(b"a", 112, 2, Err(Fault::NotYet), [9; 4]),
                ],
            },
        ],
    },
    Story {
        name: "looks with little room and elsewhere",
        shard: 0,
        stride: 0,
        origin: Origin::New,
        exchanges: &[
            (100, 110, Given::Commit(1, 0, b"a", b"abc"), Told::Says(&[])),
            (112, 121, Given::Settle(1), Told::Says(&[(b'd', 9, 1, 111)])),
        ],
        moments: &[Moment {
            after: 2,
            shows: &[
                Shows::Look(b"a", 111, 2, Err(Fault::Room), [9; 4]),
                Shows::Look(b"a", 111, 3, Ok(Seen::Value(3)), [0x61, 0x62, 0x63, 9]),
                Shows::Look(b"z", 111, 3, Err(Fault::Stranger), [9; 4]),
            ],
        }],
    },
    // A core that its device stopped takes no input, and still answers looks.
    Story {
        name: "a stopped core is looked at",
        shard: 0,
        stride: 0,
        origin: Origin::Failing(0),
        exchanges: &[
            (100, 110, Given::Advance(110), Told::Refused(Fault::Device)),
            (100, 110, Given::Advance(110), Told::Refused(Fault::Stopped)),
        ],
        moments: &[Moment {
            after: 2,
            shows: &[
                Shows::Look(b"a", 0, 0, Ok(Seen::Absent), [9; 4]),
                Shows::Look(b"a", 1, 0, Err(Fault::NotYet), [9; 4]),
            ],
        }],
    },
];

/// Returns the stories of advances. A body that names a table costs much to prove, so this hands it on.
pub fn advances() -> &'static [Story] {
    &ADVANCES
}

/// Returns the stories of looks.
pub fn looks() -> &'static [Story] {
    &LOOKS
}
