//! Nodes that take inputs together, and groups that fail.
use crate::answers::Told;
use crate::given::Given;
use crate::logs::Line;
use crate::nodes::{Ask, Asked, Moment, Story};
use units::{Fault, Seen};

// `z` is 2 from 200 on, and is served up to 210: the promise, its outcome and the ceiling are appended in twelve device calls.
const PROMISE: Asked = (
    200,
    210,
    Ask::Together(
        &[(
            Given::Prepare(2, b"z", b"2"),
            Told::Says(&[(b'v', 0, 2, 200)]),
        )],
        0,
    ),
);

const CLOSE: Asked = (
    200,
    210,
    Ask::Together(&[(Given::Outcome(2, 200), Told::Says(&[]))], 0),
);

const SERVE: Asked = (200, 210, Ask::Advance(210, Ok(210)));

const SEES: Asked = (200, 210, Ask::Look((210, Ok(Seen::Value(1)))));

// Two promises and the outcome of the first. What lies ahead of the reading is refused between them.
const GROUP: Asked = (
    250,
    260,
    Ask::Together(
        &[
            (
                Given::Prepare(3, b"z", b"3"),
                Told::Says(&[(b'v', 0, 3, 250)]),
            ),
            (Given::Advance(261), Told::Refused(Fault::Future)),
            (
                Given::Prepare(4, b"y", b"4"),
                Told::Says(&[(b'v', 0, 4, 251)]),
            ),
            (Given::Outcome(3, 250), Told::Says(&[])),
        ],
        0,
    ),
);

const GROUPED: &[Given] = &[
    Given::Prepare(3, b"z", b"3"),
    Given::Advance(261),
    Given::Prepare(4, b"y", b"4"),
    Given::Outcome(3, 250),
];

const FAILS: Asked = (250, 260, Ask::Failing(GROUPED, Some(Fault::Device)));

const STOPPED: Asked = (250, 260, Ask::Failing(GROUPED, None));

const REFUSED: Asked = (
    250,
    260,
    Ask::Deliver(Given::Resume, Told::Refused(Fault::Stopped)),
);

const OPENS: Asked = (300, 310, Ask::Restart(1, Ok(1)));

const BEFORE: [Line; 4] = [
    Line::Opened(1),
    Line::Promised(2, 200),
    Line::Committed(2, 200),
    Line::Ceiling(210),
];

// The device fails in a call of the group. Viewers go on, and each letter is refused until the shard is opened again.
const ASKS: &[Asked] = &[
    PROMISE, CLOSE, SERVE, SEES, FAILS, SEES, STOPPED, REFUSED, SEES, OPENS, SEES,
];

const LOST: Story = Story {
    fails: Some(12),
    room: 0,
    asks: ASKS,
    moments: &[
        Moment {
            name: "a group fails in a node, and viewers go on",
            after: 9,
            log: &BEFORE,
        },
        Moment {
            name: "and the shard is opened again without the group",
            after: 11,
            log: &[
                Line::Opened(1),
                Line::Promised(2, 200),
                Line::Committed(2, 200),
                Line::Ceiling(210),
                Line::Opened(2),
            ],
        },
    ],
};

const WHOLE: [Line; 7] = [
    Line::Opened(1),
    Line::Promised(2, 200),
    Line::Committed(2, 200),
    Line::Ceiling(210),
    Line::Promised(3, 250),
    Line::Promised(4, 251),
    Line::Committed(3, 250),
];

static TOGETHER: [Story; 6] = [
    Story {
        fails: None,
        room: 0,
        asks: &[
            PROMISE,
            CLOSE,
            SERVE,
            SEES,
            GROUP,
            SEES,
            (250, 260, Ask::Together(&[], 0)),
        ],
        moments: &[Moment {
            name: "a node takes inputs together",
            after: 7,
            log: &WHOLE,
        }],
    },
    LOST,
    Story {
        fails: Some(13),
        ..LOST
    },
    Story {
        fails: Some(14),
        ..LOST
    },
    Story {
        fails: Some(15),
        moments: &[
            Moment {
                name: "the last call of a group fails, and viewers go on",
                after: 9,
                log: &WHOLE,
            },
            Moment {
                name: "and the shard is opened again with the group",
                after: 10,
                log: &[
                    Line::Opened(1),
                    Line::Promised(2, 200),
                    Line::Committed(2, 200),
                    Line::Ceiling(210),
                    Line::Promised(3, 250),
                    Line::Promised(4, 251),
                    Line::Committed(3, 250),
                    Line::Opened(2),
                ],
            },
        ],
        ..LOST
    },
    // A core with a book takes inputs one by one.
    Story {
        fails: None,
        room: 8,
        asks: &[STOPPED],
        moments: &[Moment {
            name: "a node with a book takes no inputs together",
            after: 1,
            log: &[Line::Opened(1)],
        }],
    },
];

/// Returns the stories of nodes that take inputs together.
pub fn together() -> &'static [Story] {
    &TOGETHER
}
