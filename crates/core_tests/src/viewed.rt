//! What a viewer sees beside a node.
use crate::answers::Told;
use crate::given::Given;
use crate::logs::Line;
use crate::nodes::{Ask, Moment, Story};
use units::{Fault, Seen};

// A promise at 200, and two advances to 250 with the outcome between them.
static VIEWED: [Story; 1] = [Story {
    fails: None,
    room: 0,
    asks: &[
        (0, 0, Ask::Look((0, Ok(Seen::Absent)))),
        (0, 0, Ask::Look((1, Err(Fault::NotYet)))),
        (
            200,
            210,
            Ask::Deliver(
                Given::Prepare(2, b"z", b"2"),
                Told::Says(&[(b'v', 0, 2, 200)]),
            ),
        ),
        (200, 210, Ask::Look((0, Ok(Seen::Absent)))),
        (200, 210, Ask::Look((1, Err(Fault::NotYet)))),
        (250, 260, Ask::Advance(250, Ok(199))),
        (250, 260, Ask::Look((199, Ok(Seen::Absent)))),
        (250, 260, Ask::Look((200, Err(Fault::NotYet)))),
        (
            260,
            270,
            Ask::Deliver(Given::Outcome(2, 200), Told::Says(&[])),
        ),
        (260, 270, Ask::Look((199, Ok(Seen::Absent)))),
        (260, 270, Ask::Look((200, Err(Fault::NotYet)))),
        (270, 280, Ask::Advance(250, Ok(250))),
        (270, 280, Ask::Look((199, Ok(Seen::Absent)))),
        (270, 280, Ask::Look((200, Ok(Seen::Value(1))))),
        (270, 280, Ask::Look((250, Ok(Seen::Value(1))))),
        (270, 280, Ask::Look((251, Err(Fault::NotYet)))),
    ],
    moments: &[
        Moment {
            name: "a fresh shard",
            after: 2,
            log: &[Line::Opened(1)],
        },
        Moment {
            name: "a promise is not shown",
            after: 5,
            log: &[Line::Opened(1), Line::Promised(2, 200)],
        },
        Moment {
            name: "an advance shows what is below the promise",
            after: 8,
            log: &[Line::Opened(1), Line::Promised(2, 200), Line::Ceiling(250)],
        },
        Moment {
            name: "an outcome is not shown",
            after: 11,
            log: &[
                Line::Opened(1),
                Line::Promised(2, 200),
                Line::Ceiling(250),
                Line::Committed(2, 200),
            ],
        },
        // Nothing was logged.
        Moment {
            name: "the next advance shows it",
            after: 16,
            log: &[
                Line::Opened(1),
                Line::Promised(2, 200),
                Line::Ceiling(250),
                Line::Committed(2, 200),
            ],
        },
    ],
}];

/// Returns the story of a viewer beside a node.
pub fn viewed() -> &'static [Story] {
    &VIEWED
}
