//! Renewed logs that are opened again: what they leave, and which are refused.
use crate::checks::go_over_all;
use crate::left::{NOTHING, Reopened, Shown};
use made::{FIRST_GATE, WrongRows};
use units::Fault;

// A frame has 5 bytes and its record. An opening takes 14, a base 30, a version of one letter 20, what is settled 32,
// what is closed by an abort 24. An abort and a retired id take 22, a decision of one letter 42, and a promise of one letter 41.

// Renewed logs that leave something.
static LEFT: [Reopened; 11] = [
    Reopened {
        what: "one settled commit",
        shard: 0,
        lines: "base 1 111 0\nversion 111 a=1\nsettled 1.1 111 0",
        promises: 0,
        left: Ok(Some(Shown {
            last: 111,
            safe: 111,
            installs: 1,
            ..NOTHING
        })),
    },
    Reopened {
        what: "a renewed log that is opened",
        shard: 0,
        lines: "base 1 111 0\nversion 111 a=1\nsettled 1.1 111 0\nopened 2",
        promises: 0,
        left: Ok(Some(Shown {
            last: 111,
            safe: 111,
            epoch: 2,
            installs: 1,
            ..NOTHING
        })),
    },
    Reopened {
        what: "a base alone",
        shard: 0,
        lines: "base 3 111 0",
        promises: 0,
        left: Ok(Some(Shown {
            last: 111,
            safe: 111,
            epoch: 3,
            ..NOTHING
        })),
    },
    Reopened {
        what: "the next epoch behind a base",
        shard: 0,
        lines: "base 3 111 0\nopened 4",
        promises: 0,
        left: Ok(Some(Shown {
            last: 111,
            safe: 111,
            epoch: 4,
            ..NOTHING
        })),
    },
    Reopened {
        what: "a horizon at the greatest timestamp",
        shard: 0,
        lines: "base 1 111 111",
        promises: 0,
        left: Ok(Some(Shown {
            last: 111,
            safe: 111,
            horizon: 111,
            ..NOTHING
        })),
    },
    Reopened {
        what: "versions by key and by timestamp",
        shard: 0,
        lines: "base 1 111 0\nversion 90 a=1\nversion 100 a!\nversion 50 b=1",
        promises: 0,
        left: Ok(Some(Shown {
            last: 111,
            safe: 111,
            installs: 3,
            ..NOTHING
        })),
    },
    Reopened {
        what: "a version above the greatest timestamp of its base",
        shard: 0,
        lines: "base 1 111 0\nversion 200 a=1",
        promises: 0,
        left: Ok(Some(Shown {
            last: 200,
            safe: 200,
            installs: 1,
            ..NOTHING
        })),
    },
    Reopened {
        what: "promises that are closed, one that stands",
        shard: 1,
        lines: "base 2 200 50\nversion 111 z=1\nabort 1.9\nclosed 1.1 0 committed 111\n\
            closed 1.3 0 aborted\nprepare 1.2 0 200 - y=1",
        promises: 0,
        left: Ok(Some(Shown {
            prepared: (2, 200),
            last: 200,
            safe: 199,
            horizon: 50,
            epoch: 2,
            installs: 1,
            ..NOTHING
        })),
    },
    Reopened {
        what: "a decision that stands behind one that is settled",
        shard: 0,
        lines: "base 1 111 0\nversion 111 a=1\nsettled 1.1 111 0\ncommit 1.2 112 0 - a=1\n\
            opened 2\noutcome 1.2 committed 112",
        promises: 0,
        left: Ok(Some(Shown {
            last: 112,
            safe: 112,
            epoch: 2,
            installs: 2,
            ..NOTHING
        })),
    },
    Reopened {
        what: "what stands may come before what has ended",
        shard: 0,
        lines: "base 1 111 0\ncommit 1.2 112 0 - b=1\nsettled 1.1 111 0",
        promises: 0,
        left: Ok(Some(Shown {
            decided: (2, 112),
            last: 112,
            safe: 111,
            ..NOTHING
        })),
    },
    Reopened {
        what: "a horizon behind a base",
        shard: 0,
        lines: "base 1 300 50\nopened 2\nhorizon 51",
        promises: 0,
        left: Ok(Some(Shown {
            last: 300,
            safe: 300,
            horizon: 51,
            epoch: 2,
            ..NOTHING
        })),
    },
];

// Bases and versions that are out of place.
static HEADS: [Reopened; 14] = [
    Reopened {
        what: "a base behind an opening",
        shard: 0,
        lines: "opened 1\nbase 1 111 0",
        promises: 0,
        left: Err(Fault::Damaged {
            offset: FIRST_GATE + 14,
        }),
    },
    Reopened {
        what: "a second base",
        shard: 0,
        lines: "base 1 111 0\nbase 1 111 0",
        promises: 0,
        left: Err(Fault::Damaged {
            offset: FIRST_GATE + 30,
        }),
    },
    Reopened {
        what: "a horizon above the greatest timestamp of its base",
        shard: 0,
        lines: "base 1 111 112",
        promises: 0,
        left: Err(Fault::Damaged { offset: FIRST_GATE }),
    },
    Reopened {
        what: "an opening of the base's epoch",
        shard: 0,
        lines: "base 1 111 0\nopened 1",
        promises: 0,
        left: Err(Fault::Damaged {
            offset: FIRST_GATE + 30,
        }),
    },
    Reopened {
        what: "another epoch behind a base",
        shard: 0,
        lines: "base 1 111 0\nopened 3",
        promises: 0,
        left: Err(Fault::Damaged {
            offset: FIRST_GATE + 30,
        }),
    },
    Reopened {
        what: "a version without a base",
        shard: 0,
        lines: "version 111 a=1",
        promises: 0,
        left: Err(Fault::Damaged { offset: FIRST_GATE }),
    },
    Reopened {
        what: "a version behind an opening",
        shard: 0,
        lines: "opened 1\nversion 111 a=1",
        promises: 0,
        left: Err(Fault::Damaged {
            offset: FIRST_GATE + 14,
        }),
    },
    Reopened {
        what: "a version behind the opening of a renewed log",
        shard: 0,
        lines: "base 1 111 0\nopened 2\nversion 111 a=1",
        promises: 0,
        left: Err(Fault::Damaged {
            offset: FIRST_GATE + 44,
        }),
    },
    Reopened {
        what: "a version behind a settled decision",
        shard: 0,
        lines: "base 1 111 0\nsettled 1.1 111 0\nversion 111 a=1",
        promises: 0,
        left: Err(Fault::Damaged {
            offset: FIRST_GATE + 62,
        }),
    },
    Reopened {
        what: "a version of an earlier key",
        shard: 0,
        lines: "base 1 111 0\nversion 50 b=1\nversion 60 a=1",
        promises: 0,
        left: Err(Fault::Damaged {
            offset: FIRST_GATE + 50,
        }),
    },
    Reopened {
        what: "a version of an earlier timestamp",
        shard: 0,
        lines: "base 1 111 0\nversion 50 b=1\nversion 49 b=1",
        promises: 0,
        left: Err(Fault::Damaged {
            offset: FIRST_GATE + 50,
        }),
    },
    Reopened {
        what: "the same version again",
        shard: 0,
        lines: "base 1 111 0\nversion 50 b=1\nversion 50 b!",
        promises: 0,
        left: Err(Fault::Damaged {
            offset: FIRST_GATE + 50,
        }),
    },
    Reopened {
        what: "a version of another shard's key",
        shard: 0,
        lines: "base 1 111 0\nversion 111 z=1",
        promises: 0,
        left: Err(Fault::Stranger),
    },
    Reopened {
        what: "a version of another shard's key before damage",
        shard: 0,
        lines: "version 111 z=1",
        promises: 0,
        left: Err(Fault::Stranger),
    },
];

// What ended, and what may not stand beside it.
static ENDED: [Reopened; 13] = [
    Reopened {
        what: "settled twice",
        shard: 0,
        lines: "base 1 111 0\nsettled 1.1 111 0\nsettled 1.1 111 0",
        promises: 0,
        left: Err(Fault::Damaged {
            offset: FIRST_GATE + 62,
        }),
    },
    Reopened {
        what: "settled and aborted",
        shard: 0,
        lines: "base 1 111 0\nabort 1.1\nsettled 1.1 111 0",
        promises: 0,
        left: Err(Fault::Damaged {
            offset: FIRST_GATE + 52,
        }),
    },
    Reopened {
        what: "settled and decided",
        shard: 0,
        lines: "base 1 111 0\ncommit 1.1 111 0 - a=1\nsettled 1.1 111 0",
        promises: 0,
        left: Err(Fault::Damaged {
            offset: FIRST_GATE + 72,
        }),
    },
    Reopened {
        what: "closed twice",
        shard: 1,
        lines: "base 1 111 0\nclosed 1.1 0 aborted\nclosed 1.1 0 committed 111",
        promises: 0,
        left: Err(Fault::Damaged {
            offset: FIRST_GATE + 54,
        }),
    },
    Reopened {
        what: "closed and promised",
        shard: 1,
        lines: "base 1 111 0\nprepare 1.1 0 111 - z=1\nclosed 1.1 0 committed 111",
        promises: 0,
        left: Err(Fault::Damaged {
            offset: FIRST_GATE + 71,
        }),
    },
    Reopened {
        what: "decided behind what is settled",
        shard: 0,
        lines: "base 1 111 0\nsettled 1.1 111 0\ncommit 1.1 111 0 - a=1",
        promises: 0,
        left: Err(Fault::Damaged {
            offset: FIRST_GATE + 62,
        }),
    },
    Reopened {
        what: "promised behind what is closed",
        shard: 1,
        lines: "base 1 111 0\nclosed 1.1 0 aborted\nprepare 1.1 0 112 - z=1",
        promises: 0,
        left: Err(Fault::Damaged {
            offset: FIRST_GATE + 54,
        }),
    },
    Reopened {
        what: "aborted behind what is settled",
        shard: 0,
        lines: "base 1 111 0\nsettled 1.1 111 0\nabort 1.1",
        promises: 0,
        left: Err(Fault::Damaged {
            offset: FIRST_GATE + 62,
        }),
    },
    Reopened {
        what: "ended behind what is settled",
        shard: 0,
        lines: "base 1 111 0\nsettled 1.1 111 0\noutcome 1.1 committed 111",
        promises: 0,
        left: Err(Fault::Damaged {
            offset: FIRST_GATE + 62,
        }),
    },
    Reopened {
        what: "ended behind what is closed",
        shard: 1,
        lines: "base 1 111 0\nclosed 1.1 0 aborted\noutcome 1.1 aborted",
        promises: 0,
        left: Err(Fault::Damaged {
            offset: FIRST_GATE + 54,
        }),
    },
    Reopened {
        what: "a least part that is another shard",
        shard: 1,
        lines: "base 1 111 0\nsettled 1.1 111 0",
        promises: 0,
        left: Err(Fault::Damaged {
            offset: FIRST_GATE + 30,
        }),
    },
    Reopened {
        what: "a coordinator that is this shard",
        shard: 1,
        lines: "base 1 111 0\nclosed 1.1 1 committed 111",
        promises: 0,
        left: Err(Fault::Damaged {
            offset: FIRST_GATE + 30,
        }),
    },
    Reopened {
        what: "a coordinator above the first shard",
        shard: 0,
        lines: "base 1 111 0\nclosed 1.1 0 aborted",
        promises: 0,
        left: Err(Fault::Damaged {
            offset: FIRST_GATE + 30,
        }),
    },
];

// Ends that are out of place, and promises that are too low.
static MISPLACED: [Reopened; 10] = [
    Reopened {
        what: "settled at 0",
        shard: 0,
        lines: "base 1 111 0\nsettled 1.1 0 0",
        promises: 0,
        left: Err(Fault::Damaged {
            offset: FIRST_GATE + 30,
        }),
    },
    Reopened {
        what: "closed at 0",
        shard: 1,
        lines: "base 1 111 0\nclosed 1.1 0 committed 0",
        promises: 0,
        left: Err(Fault::Damaged {
            offset: FIRST_GATE + 30,
        }),
    },
    Reopened {
        what: "settled without a base",
        shard: 0,
        lines: "settled 1.1 111 0",
        promises: 0,
        left: Err(Fault::Damaged { offset: FIRST_GATE }),
    },
    Reopened {
        what: "settled behind an opening",
        shard: 0,
        lines: "opened 1\nsettled 1.1 111 0",
        promises: 0,
        left: Err(Fault::Damaged {
            offset: FIRST_GATE + 14,
        }),
    },
    Reopened {
        what: "settled behind the opening of a renewed log",
        shard: 0,
        lines: "base 1 111 0\nopened 2\nsettled 1.1 111 0",
        promises: 0,
        left: Err(Fault::Damaged {
            offset: FIRST_GATE + 44,
        }),
    },
    Reopened {
        what: "closed without a base",
        shard: 1,
        lines: "closed 1.1 0 aborted",
        promises: 0,
        left: Err(Fault::Damaged { offset: FIRST_GATE }),
    },
    Reopened {
        what: "closed behind an opening",
        shard: 1,
        lines: "opened 1\nclosed 1.1 0 aborted",
        promises: 0,
        left: Err(Fault::Damaged {
            offset: FIRST_GATE + 14,
        }),
    },
    Reopened {
        what: "closed behind the opening of a renewed log",
        shard: 1,
        lines: "base 1 111 0\nopened 2\nclosed 1.1 0 committed 111",
        promises: 0,
        left: Err(Fault::Damaged {
            offset: FIRST_GATE + 44,
        }),
    },
    Reopened {
        what: "a promise that is not above the horizon of its base",
        shard: 1,
        lines: "base 1 200 100\nprepare 1.2 0 100 - z=1",
        promises: 0,
        left: Err(Fault::Damaged {
            offset: FIRST_GATE + 30,
        }),
    },
    Reopened {
        what: "a promise that is not above a version",
        shard: 1,
        lines: "base 1 111 0\nversion 111 z=1\nprepare 1.2 0 111 - z=1",
        promises: 0,
        left: Err(Fault::Damaged {
            offset: FIRST_GATE + 50,
        }),
    },
];

// Retired ids of a renewed log.
static RETIRED: [Reopened; 9] = [
    Reopened {
        what: "who ended above the retired ids",
        shard: 0,
        lines: "base 1 111 0\nversion 111 a=1\nretired 1.5\nsettled 1.7 111 0\nabort 1.9\nopened 2",
        promises: 0,
        left: Ok(Some(Shown {
            last: 111,
            safe: 111,
            epoch: 2,
            installs: 1,
            ..NOTHING
        })),
    },
    Reopened {
        what: "who stands above the retired ids, and more that are retired",
        shard: 1,
        lines: "base 2 200 50\nretired 1.5\nclosed 1.7 0 aborted\nprepare 1.9 0 150 - z=1\n\
            opened 3\nretired 1.8\nretired 1.9",
        promises: 0,
        left: Ok(Some(Shown {
            prepared: (9, 150),
            last: 200,
            safe: 149,
            horizon: 50,
            epoch: 3,
            ..NOTHING
        })),
    },
    Reopened {
        what: "a retired id without a base",
        shard: 0,
        lines: "retired 1.5\nbase 1 111 0",
        promises: 0,
        left: Err(Fault::Damaged { offset: FIRST_GATE }),
    },
    Reopened {
        what: "a base behind a retired id",
        shard: 0,
        lines: "base 1 111 0\nretired 1.5\nbase 1 111 0",
        promises: 0,
        left: Err(Fault::Damaged {
            offset: FIRST_GATE + 52,
        }),
    },
    Reopened {
        what: "a version behind a retired id",
        shard: 0,
        lines: "base 1 111 0\nretired 1.5\nversion 111 a=1",
        promises: 0,
        left: Err(Fault::Damaged {
            offset: FIRST_GATE + 52,
        }),
    },
    Reopened {
        what: "settled below the retired ids",
        shard: 0,
        lines: "base 1 111 0\nretired 1.5\nsettled 1.4 111 0",
        promises: 0,
        left: Err(Fault::Damaged {
            offset: FIRST_GATE + 52,
        }),
    },
    Reopened {
        what: "closed below the retired ids",
        shard: 1,
        lines: "base 1 111 0\nretired 1.5\nclosed 1.4 0 aborted",
        promises: 0,
        left: Err(Fault::Damaged {
            offset: FIRST_GATE + 52,
        }),
    },
    Reopened {
        what: "promised below the retired ids",
        shard: 1,
        lines: "base 1 111 0\nretired 1.5\nprepare 1.4 0 112 - z=1",
        promises: 0,
        left: Err(Fault::Damaged {
            offset: FIRST_GATE + 52,
        }),
    },
    Reopened {
        what: "a promise that stands below the retired ids",
        shard: 1,
        lines: "base 1 111 0\nprepare 1.4 0 112 - z=1\nretired 1.5",
        promises: 0,
        left: Err(Fault::Damaged {
            offset: FIRST_GATE + 71,
        }),
    },
];

// A body that names a table costs much to prove, so a function hands each on.
fn left() -> &'static [Reopened] {
    &LEFT
}

fn heads() -> &'static [Reopened] {
    &HEADS
}

fn ended() -> &'static [Reopened] {
    &ENDED
}

fn misplaced() -> &'static [Reopened] {
    &MISPLACED
}

fn retired() -> &'static [Reopened] {
    &RETIRED
}

/// Checks renewed logs that are opened again.
pub fn tell_renewed(wrong: &mut WrongRows, rt: &HostRuntime) {
    go_over_all(
        wrong,
        rt,
        "renewed logs",
        &[left(), heads(), ended(), misplaced(), retired()],
    );
}
