//! Shards that decide transactions with several parts.
use crate::answers::Told;
use crate::given::Given;
use crate::stories::{Moment, Origin, Shows, Story};
use made::FIRST_GATE;

static COORDINATING: [Story; 4] = [
    Story {
        name: "a vote that comes before its commit changes nothing; the same vote again decides",
        shard: 0,
        stride: 0,
        origin: Origin::New,
        exchanges: &[
            (100, 110, Given::Vote(2, 200), Told::Says(&[])),
            (
                100,
                110,
                Given::CommitOfBoth(2, b"a", b"1"),
                Told::Says(&[]),
            ),
            (100, 110, Given::Vote(2, 200), Told::Says(&[])),
            (
                201,
                230,
                Given::Settle(2),
                Told::Says(&[(b'd', 9, 2, 200), (b'o', 1, 2, 200)]),
            ),
        ],
        moments: &[
            Moment {
                after: 2,
                shows: &[Shows::Decided(0, 0), Shows::Last(0)],
            },
            Moment {
                after: 3,
                shows: &[Shows::Decided(2, 200), Shows::Safe(199)],
            },
            Moment {
                after: 4,
                shows: &[Shows::Decided(0, 0), Shows::Safe(200), Shows::Installs(1)],
            },
        ],
    },
    Story {
        name: "a transaction that is given up before it is known is aborted when it comes",
        shard: 0,
        stride: 0,
        origin: Origin::New,
        exchanges: &[
            (100, 110, Given::GiveUp(4), Told::Says(&[])),
            (
                100,
                110,
                Given::Commit(4, 0, b"a", b"1"),
                Told::Says(&[(b'd', 9, 4, 0)]),
            ),
        ],
        // The opening, the abort and a closed gate.
        moments: &[Moment {
            after: 2,
            shows: &[Shows::Size(FIRST_GATE + 37)],
        }],
    },
    Story {
        name: "a question about a transaction that is not known aborts it, once",
        shard: 0,
        stride: 0,
        origin: Origin::New,
        exchanges: &[
            (100, 110, Given::Ask(9), Told::Says(&[(b'o', 1, 9, 0)])),
            (
                100,
                110,
                Given::CommitOfBoth(9, b"a", b"1"),
                Told::Says(&[(b'd', 9, 9, 0)]),
            ),
        ],
        moments: &[Moment {
            after: 2,
            shows: &[Shows::Size(FIRST_GATE + 37)],
        }],
    },
    // What is read at one shard and written at another.
    Story {
        name: "here it is written, and decided above the clock",
        shard: 0,
        stride: 0,
        origin: Origin::New,
        exchanges: &[
            (
                100,
                110,
                Given::CommitOfBoth(3, b"a", b"1"),
                Told::Says(&[]),
            ),
            (100, 110, Given::Vote(3, 90), Told::Says(&[])),
            (
                112,
                121,
                Given::Settle(3),
                Told::Says(&[(b'd', 9, 3, 111), (b'o', 1, 3, 111)]),
            ),
        ],
        moments: &[Moment {
            after: 3,
            shows: &[Shows::Last(111), Shows::Safe(111)],
        }],
    },
];

/// Returns these stories.
pub fn coordinating() -> &'static [Story] {
    &COORDINATING
}
