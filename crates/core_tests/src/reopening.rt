//! Shards whose disks crash and are opened again.
use crate::answers::Told;
use crate::given::Given;
use crate::stories::{Exchange, Moment, Origin, Shows, Story};
use made::FIRST_GATE;
use units::{Fault, Seen};

const SERVED: &[Exchange] = &[(150, 160, Given::Advance(150), Told::Says(&[]))];

const HAS_READ: &[Exchange] = &[(
    100,
    110,
    Given::Read(1, b"z"),
    Told::Says(&[(b'r', 9, 1, 1)]),
)];

const DECIDED: &[Exchange] = &[(100, 110, Given::Commit(1, 0, b"a", b"1"), Told::Says(&[]))];

const PROMISED: &[Exchange] = &[(
    200,
    210,
    Given::Prepare(2, b"z", b"7"),
    Told::Says(&[(b'v', 0, 2, 200)]),
)];

const FAILS: &[Exchange] = &[
    (
        100,
        110,
        Given::Commit(1, 0, b"a", b"1"),
        Told::Refused(Fault::Device),
    ),
    (
        100,
        110,
        Given::Commit(1, 0, b"a", b"1"),
        Told::Refused(Fault::Stopped),
    ),
];

// What was served and read.
static REOPENED: [Story; 2] = [
    // The greatest timestamp is the log's, and promises go on above it.
    Story {
        name: "a ceiling outlives a crash",
        shard: 1,
        stride: 50,
        origin: Origin::Crashed(SERVED),
        exchanges: &[(
            160,
            170,
            Given::Prepare(2, b"z", b"7"),
            Told::Says(&[(b'v', 0, 2, 201)]),
        )],
        moments: &[
            Moment {
                after: 0,
                shows: &[Shows::Last(200), Shows::Safe(200), Shows::Epoch(2)],
            },
            Moment {
                after: 1,
                shows: &[Shows::Prepared(2, 201), Shows::Last(201), Shows::Safe(200)],
            },
        ],
    },
    // What was read in an epoch does not stand in the next.
    Story {
        name: "a read does not outlive a crash",
        shard: 1,
        stride: 0,
        origin: Origin::Crashed(HAS_READ),
        exchanges: &[(
            200,
            210,
            Given::PrepareOfReader(1, b"z", b"2"),
            Told::Says(&[(b'v', 0, 1, 0)]),
        )],
        // Two openings and a closed gate.
        moments: &[Moment {
            after: 1,
            shows: &[
                Shows::Prepared(0, 0),
                Shows::Epoch(2),
                Shows::Size(FIRST_GATE + 29),
            ],
        }],
    },
];

// What had not ended.
static UNENDED: [Story; 3] = [
    Story {
        name: "a decision that is logged and not settled is settled after the opening",
        shard: 0,
        stride: 0,
        origin: Origin::Crashed(DECIDED),
        exchanges: &[
            (105, 112, Given::Settle(1), Told::Refused(Fault::Early)),
            (112, 121, Given::Settle(1), Told::Says(&[(b'd', 9, 1, 111)])),
        ],
        moments: &[
            Moment {
                after: 0,
                shows: &[
                    Shows::Epoch(2),
                    Shows::Decided(1, 111),
                    Shows::Last(111),
                    Shows::Safe(110),
                    Shows::Installs(0),
                    Shows::Look(b"a", 111, 1, Err(Fault::NotYet), [9; 4]),
                    Shows::Look(b"a", 110, 1, Ok(Seen::Absent), [9; 4]),
                ],
            },
            Moment {
                after: 2,
                shows: &[Shows::Decided(0, 0), Shows::Installs(1), Shows::Safe(111)],
            },
        ],
    },
    // A promise whose outcome was lost asks for it after the opening, and holds its lock until it comes.
    Story {
        name: "a promise outlives a crash",
        shard: 1,
        stride: 0,
        origin: Origin::Crashed(PROMISED),
        exchanges: &[
            (210, 220, Given::Read(3, b"z"), Told::Says(&[])),
            (210, 220, Given::Nudge(2), Told::Says(&[(b'a', 0, 2, 0)])),
        ],
        moments: &[Moment {
            after: 2,
            shows: &[Shows::Prepared(2, 200), Shows::Safe(199), Shows::Ready(0)],
        }],
    },
    Story {
        name: "a promise is closed after the opening",
        shard: 1,
        stride: 0,
        origin: Origin::Crashed(PROMISED),
        exchanges: &[(210, 220, Given::Outcome(2, 200), Told::Says(&[]))],
        moments: &[Moment {
            after: 1,
            shows: &[Shows::Prepared(0, 0), Shows::Installs(1), Shows::Safe(200)],
        }],
    },
];

// A commit whose append has a failing device call: before the last call the record is hidden, and after it the record is there.
const HIDDEN: Story = Story {
    name: "a failing call stops the core",
    shard: 0,
    stride: 0,
    origin: Origin::Armed(0, FAILS),
    exchanges: &[],
    moments: &[Moment {
        after: 0,
        shows: &[Shows::Decided(0, 0), Shows::Epoch(2), Shows::Last(0)],
    }],
};

static ARMED: [Story; 4] = [
    HIDDEN,
    Story {
        origin: Origin::Armed(1, FAILS),
        ..HIDDEN
    },
    Story {
        origin: Origin::Armed(2, FAILS),
        ..HIDDEN
    },
    Story {
        origin: Origin::Armed(3, FAILS),
        // Two openings, a commit of 42 bytes between them, and a closed gate.
        moments: &[Moment {
            after: 0,
            shows: &[
                Shows::Decided(1, 111),
                Shows::Epoch(2),
                Shows::Size(FIRST_GATE + 71),
            ],
        }],
        ..HIDDEN
    },
];

// Disks that are opened as those of another shard, or that have no log.
static REFUSED: [Story; 3] = [
    Story {
        name: "a disk without a log",
        shard: 0,
        stride: 0,
        origin: Origin::Blank,
        exchanges: &[],
        moments: &[Moment {
            after: 0,
            shows: &[Shows::Refused(Fault::NotALog)],
        }],
    },
    Story {
        name: "the log of another shard's promise",
        shard: 0,
        stride: 0,
        origin: Origin::Of(1, PROMISED),
        exchanges: &[],
        moments: &[Moment {
            after: 0,
            shows: &[Shows::Refused(Fault::Stranger)],
        }],
    },
    // It names no shard.
    Story {
        name: "the log of another shard's opening",
        shard: 1,
        stride: 0,
        origin: Origin::Of(0, &[]),
        exchanges: &[],
        moments: &[Moment {
            after: 0,
            shows: &[],
        }],
    },
];

/// Returns the stories of what was served and read. A body that names a table costs much to prove, so this hands it on.
pub fn reopened() -> &'static [Story] {
    &REOPENED
}

/// Returns the stories of transactions that had not ended.
pub fn unended() -> &'static [Story] {
    &UNENDED
}

/// Returns the stories of commits whose device call fails before the disk is opened again.
pub fn armed() -> &'static [Story] {
    &ARMED
}

/// Returns the stories of disks that are not opened.
pub fn refused() -> &'static [Story] {
    &REFUSED
}
