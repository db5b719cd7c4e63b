//! Nodes whose logs are turned over, and turnovers that fail.
use crate::answers::Told;
use crate::given::Given;
use crate::logs::Line;
use crate::nodes::{Ask, Asked, Moment, Story};
use units::{Fault, Seen};

const PROMISE: Asked = (
    200,
    210,
    Ask::Deliver(
        Given::Prepare(2, b"z", b"2"),
        Told::Says(&[(b'v', 0, 2, 200)]),
    ),
);

const CLOSE: Asked = (
    200,
    210,
    Ask::Deliver(Given::Outcome(2, 200), Told::Says(&[])),
);

const SERVE: Asked = (200, 210, Ask::Advance(210, Ok(210)));

const SEES: Asked = (200, 210, Ask::Look((210, Ok(Seen::Value(1)))));

const OPENS: Asked = (250, 260, Ask::Restart(1, Ok(1)));

const STOPPED: Asked = (250, 260, Ask::Turn(Err(Fault::Stopped)));

const FAILS: &[Asked] = &[
    (250, 260, Ask::Turn(Err(Fault::Device))),
    STOPPED,
    (250, 260, Ask::Renew(0, 0, Ok(()))),
    (
        250,
        260,
        Ask::Deliver(Given::Resume, Told::Refused(Fault::Stopped)),
    ),
    (250, 260, Ask::Look((0, Ok(Seen::Absent)))),
    OPENS,
    (250, 260, Ask::Look((0, Ok(Seen::Absent)))),
    (250, 260, Ask::Turn(Ok(()))),
];

// A turnover of a node whose log has only its opening.
const FAILING: Story = Story {
    fails: Some(3),
    room: 0,
    asks: FAILS,
    moments: &[
        Moment {
            name: "the fourth call of a turnover fails, and the node stops",
            after: 5,
            log: &[Line::Opened(1)],
        },
        Moment {
            name: "and is opened again by the former log",
            after: 7,
            log: &[Line::Opened(1), Line::Opened(2)],
        },
        Moment {
            name: "and turns that over",
            after: 8,
            log: &[Line::Base(2, 0, 0)],
        },
    ],
};

static TURNING: [Story; 5] = [
    Story {
        fails: None,
        room: 0,
        asks: &[
            PROMISE,
            CLOSE,
            SERVE,
            (250, 260, Ask::Turn(Ok(()))),
            SEES,
            (
                250,
                260,
                Ask::Deliver(
                    Given::Prepare(3, b"z", b"2"),
                    Told::Says(&[(b'v', 0, 3, 250)]),
                ),
            ),
            (
                250,
                260,
                Ask::Deliver(Given::Outcome(3, 250), Told::Says(&[])),
            ),
            (250, 260, Ask::Advance(255, Ok(255))),
            (250, 260, Ask::Look((255, Ok(Seen::Value(1))))),
        ],
        moments: &[
            Moment {
                name: "a node turns its log over",
                after: 5,
                log: &[
                    Line::Base(1, 210, 0),
                    Line::Version(200, b'z', b'2'),
                    Line::Closed(2, 200),
                ],
            },
            Moment {
                name: "and its viewer sees what comes then",
                after: 9,
                log: &[
                    Line::Base(1, 210, 0),
                    Line::Version(200, b'z', b'2'),
                    Line::Closed(2, 200),
                    Line::Promised(3, 250),
                    Line::Committed(3, 250),
                    Line::Ceiling(255),
                ],
            },
        ],
    },
    FAILING,
    Story {
        fails: Some(4),
        moments: &[
            Moment {
                name: "the fifth call of a turnover fails, and the node stops",
                after: 5,
                log: &[Line::Base(1, 0, 0)],
            },
            Moment {
                name: "and is opened again by the new log",
                after: 7,
                log: &[Line::Base(1, 0, 0), Line::Opened(2)],
            },
            Moment {
                name: "and turns that over",
                after: 8,
                log: &[Line::Base(2, 0, 0)],
            },
        ],
        ..FAILING
    },
    // The horizon is the beginning of the reading less the distance.
    Story {
        fails: None,
        room: 0,
        asks: &[PROMISE, CLOSE, SERVE, (210, 220, Ask::Keep(20, Ok(())))],
        moments: &[Moment {
            name: "a node keeps what it is asked to",
            after: 4,
            log: &[
                Line::Opened(1),
                Line::Promised(2, 200),
                Line::Committed(2, 200),
                Line::Ceiling(210),
                Line::Horizon(190),
            ],
        }],
    },
    // It has grown by 114 bytes: 14 of the opening, 41 of the promise, 31 of its outcome, 14 of the ceiling, and 14 of the horizon.
    Story {
        fails: None,
        room: 0,
        asks: &[
            PROMISE,
            CLOSE,
            SERVE,
            (210, 220, Ask::Renew(10, 115, Ok(()))),
            (210, 220, Ask::Renew(10, 114, Ok(()))),
            SEES,
        ],
        moments: &[
            Moment {
                name: "a node keeps its horizon",
                after: 4,
                log: &[
                    Line::Opened(1),
                    Line::Promised(2, 200),
                    Line::Committed(2, 200),
                    Line::Ceiling(210),
                    Line::Horizon(200),
                ],
            },
            Moment {
                name: "and renews its log once it has grown",
                after: 6,
                log: &[
                    Line::Base(1, 210, 200),
                    Line::Version(200, b'z', b'2'),
                    Line::Closed(2, 200),
                ],
            },
        ],
    },
];

/// Returns the stories of nodes that turn their logs over.
pub fn turning() -> &'static [Story] {
    &TURNING
}
