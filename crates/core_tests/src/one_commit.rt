//! Commits with one part.
use crate::answers::Told;
use crate::given::{Given, LAST};
use crate::stories::{Moment, Origin, Shows, Story};
use made::{FIRST_GATE, ONE_COMMIT};
use units::Fault;

const A: Given = Given::Commit(1, 0, b"a", b"1");

const DONE: Told = Told::Says(&[(b'd', 9, 1, 111)]);

// One commit, and commits that are refused.
static COMMITS: [Story; 2] = [
    Story {
        name: "one commit and its log",
        shard: 0,
        stride: 0,
        origin: Origin::New,
        exchanges: &[
            (112, 121, Given::Settle(1), Told::Refused(Fault::Stranger)),
            (100, 110, A, Told::Says(&[])),
            (105, 112, Given::Settle(1), Told::Refused(Fault::Early)),
            (111, 120, Given::Settle(1), Told::Refused(Fault::Early)),
            // The same commit again changes nothing.
            (111, 120, A, Told::Says(&[])),
            (112, 121, Given::Settle(1), DONE),
            (112, 121, Given::Settle(1), Told::Refused(Fault::Stranger)),
            // Once it is settled, the session is told again, and nothing is logged.
            (112, 121, A, DONE),
        ],
        moments: &[
            Moment {
                after: 2,
                shows: &[
                    Shows::Decided(1, 111),
                    Shows::Second(0, 0),
                    Shows::Earliest(1, 111),
                ],
            },
            // The header, the slots, Opened 1, the commit, its outcome and a closed gate.
            Moment {
                after: 8,
                shows: &[
                    Shows::Decided(0, 0),
                    Shows::Size(9_312),
                    Shows::File(&ONE_COMMIT),
                ],
            },
        ],
    },
    Story {
        name: "commits that are refused",
        shard: 0,
        stride: 0,
        origin: Origin::New,
        exchanges: &[
            (
                100,
                110,
                Given::Commit(2, 0, b"z", b"1"),
                Told::Refused(Fault::Stranger),
            ),
            (
                100,
                110,
                Given::Commit(2, 1, b"a", b"1"),
                Told::Refused(Fault::Stranger),
            ),
            // A reading whose latest end is the last timestamp leaves no time, and changes nothing.
            (100, LAST, A, Told::Refused(Fault::TimeSpent)),
            (100, 110, A, Told::Says(&[])),
        ],
        // The header, the slots, Opened 1, the commit and a closed gate.
        moments: &[Moment {
            after: 4,
            shows: &[Shows::Size(FIRST_GATE + 57)],
        }],
    },
];

// Commits beside others, and a long one.
static BESIDE: [Story; 3] = [
    // The younger one is decided first.
    Story {
        name: "the earliest decided is not the oldest",
        shard: 0,
        stride: 0,
        origin: Origin::New,
        exchanges: &[
            (100, 110, Given::Commit(2, 0, b"b", b"1"), Told::Says(&[])),
            (100, 110, A, Told::Says(&[])),
        ],
        moments: &[
            Moment {
                after: 0,
                shows: &[Shows::Earliest(0, 0)],
            },
            Moment {
                after: 2,
                shows: &[
                    Shows::Decided(1, 112),
                    Shows::Second(2, 111),
                    Shows::Earliest(2, 111),
                ],
            },
        ],
    },
    // A commit of the same key waits until the first is settled, and is decided above all that was decided before.
    Story {
        name: "a commit of another key is decided beside the first",
        shard: 0,
        stride: 0,
        origin: Origin::New,
        exchanges: &[
            (100, 110, A, Told::Says(&[])),
            (100, 110, Given::Commit(2, 0, b"b", b"1"), Told::Says(&[])),
            (100, 110, Given::Commit(3, 0, b"a", b"2"), Told::Says(&[])),
            (112, 121, Given::Settle(1), DONE),
            (112, 121, Given::Resume, Told::Says(&[])),
        ],
        moments: &[
            Moment {
                after: 3,
                shows: &[
                    Shows::Decided(1, 111),
                    Shows::Second(2, 112),
                    Shows::Ready(0),
                ],
            },
            Moment {
                after: 4,
                shows: &[Shows::Decided(2, 112), Shows::Ready(3)],
            },
            // The header, the slots, Opened 1, two commits, the outcome, the third commit and a closed gate.
            Moment {
                after: 5,
                shows: &[
                    Shows::Decided(2, 112),
                    Shows::Second(3, 113),
                    Shows::Ready(0),
                    Shows::Size(FIRST_GATE + 172),
                ],
            },
        ],
    },
    Story {
        name: "a key of 64 bytes and a value of 4,096 are committed",
        shard: 0,
        stride: 0,
        origin: Origin::New,
        exchanges: &[
            (
                100,
                110,
                Given::Commit(1, 0, &[7; 64], &[9; 4096]),
                Told::Says(&[]),
            ),
            (112, 121, Given::Settle(1), DONE),
        ],
        moments: &[Moment {
            after: 2,
            shows: &[Shows::Installs(1)],
        }],
    },
];

// Formatting makes three calls and the opening four. Each of the commit's four calls fails in turn.
const FAILS: Story = Story {
    name: "a failing device stops the core",
    shard: 0,
    stride: 0,
    origin: Origin::Failing(0),
    exchanges: &[
        (100, 110, A, Told::Refused(Fault::Device)),
        (100, 110, A, Told::Refused(Fault::Stopped)),
        (112, 121, Given::Settle(1), Told::Refused(Fault::Stopped)),
    ],
    moments: &[Moment {
        after: 3,
        shows: &[Shows::Decided(0, 0)],
    }],
};

static FAILING: [Story; 4] = [
    FAILS,
    Story {
        origin: Origin::Failing(1),
        ..FAILS
    },
    Story {
        origin: Origin::Failing(2),
        ..FAILS
    },
    Story {
        origin: Origin::Failing(3),
        ..FAILS
    },
];

/// Returns the stories of one commit, and of commits that are refused. A body that names a table costs much to prove, so this hands it on.
pub fn commits() -> &'static [Story] {
    &COMMITS
}

/// Returns the stories of commits beside others.
pub fn beside() -> &'static [Story] {
    &BESIDE
}

/// Returns the stories of commits whose device call fails.
pub fn failing() -> &'static [Story] {
    &FAILING
}
