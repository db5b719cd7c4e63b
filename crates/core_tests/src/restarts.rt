//! Nodes whose device fails, and that are opened again. Also what a viewer on another thread sees beside a node.
use crate::answers::Told;
use crate::given::Given;
use crate::logs::Line;
use crate::nodes::{Ask, Asked, Moment, Story};
use units::{Fault, Reason, Seen};

const FAILS: Asked = (250, 260, Ask::Advance(250, Err(Fault::Device)));

const STOPPED: Asked = (250, 260, Ask::Advance(250, Err(Fault::Stopped)));

const OPENS: Asked = (250, 260, Ask::Restart(1, Ok(1)));

const SERVES: Asked = (
    250,
    260,
    Ask::Restart(1, Err(Fault::BadRequest(Reason::Again))),
);

static NODES: [Story; 6] = [
    Story {
        fails: None,
        room: 0,
        asks: &[
            SERVES,
            (250, 260, Ask::Advance(250, Ok(250))),
            (250, 260, Ask::Look((250, Ok(Seen::Absent)))),
        ],
        moments: &[Moment {
            name: "a node that serves is not opened again",
            after: 3,
            log: &[Line::Opened(1), Line::Ceiling(250)],
        }],
    },
    Story {
        fails: Some(3),
        room: 0,
        asks: &[
            FAILS,
            STOPPED,
            (250, 260, Ask::Look((0, Ok(Seen::Absent)))),
            (250, 260, Ask::Look((1, Err(Fault::NotYet)))),
        ],
        moments: &[Moment {
            name: "the viewer of a stopped node goes on",
            after: 4,
            log: &[Line::Opened(1), Line::Ceiling(250)],
        }],
    },
    Story {
        fails: Some(3),
        room: 0,
        asks: &[
            FAILS,
            OPENS,
            (250, 260, Ask::Look((250, Ok(Seen::Absent)))),
            (250, 260, Ask::Look((251, Err(Fault::NotYet)))),
            SERVES,
        ],
        moments: &[Moment {
            name: "a stopped node is opened again",
            after: 5,
            log: &[Line::Opened(1), Line::Ceiling(250), Line::Opened(2)],
        }],
    },
    Story {
        fails: Some(3),
        room: 0,
        asks: &[
            FAILS,
            OPENS,
            (250, 260, Ask::Advance(260, Ok(260))),
            (250, 260, Ask::Look((260, Ok(Seen::Absent)))),
        ],
        moments: &[Moment {
            name: "it serves on",
            after: 4,
            log: &[
                Line::Opened(1),
                Line::Ceiling(250),
                Line::Opened(2),
                Line::Ceiling(260),
            ],
        }],
    },
    Story {
        fails: Some(3),
        room: 0,
        asks: &[
            FAILS,
            (
                250,
                260,
                Ask::Restart(0, Err(Fault::BadRequest(Reason::Many))),
            ),
            (
                250,
                260,
                Ask::Restart(65, Err(Fault::BadRequest(Reason::Many))),
            ),
            STOPPED,
            OPENS,
            (250, 260, Ask::Look((250, Ok(Seen::Absent)))),
        ],
        // A number of viewers that no board has is refused before anything is opened.
        moments: &[Moment {
            name: "a node with its disk alone",
            after: 6,
            log: &[Line::Opened(1), Line::Ceiling(250), Line::Opened(2)],
        }],
    },
    // What 1.2 wrote at 200, after the node has advanced to 210.
    Story {
        fails: None,
        room: 0,
        asks: &[
            (
                200,
                210,
                Ask::Deliver(
                    Given::Prepare(2, b"z", b"2"),
                    Told::Says(&[(b'v', 0, 2, 200)]),
                ),
            ),
            (
                200,
                210,
                Ask::Deliver(Given::Outcome(2, 200), Told::Says(&[])),
            ),
            (200, 210, Ask::Advance(210, Ok(210))),
            (200, 210, Ask::LookThere((210, Ok(Seen::Value(1))))),
        ],
        moments: &[Moment {
            name: "a look on another thread",
            after: 4,
            log: &[
                Line::Opened(1),
                Line::Promised(2, 200),
                Line::Committed(2, 200),
                Line::Ceiling(210),
            ],
        }],
    },
];

// A book of four inputs, and what fills it; the last call before it is full is no advance. So a node fails here if one of its calls
// makes two calls of its core, whichever of them it answers by.
static ONCE: [Story; 1] = [Story {
    fails: None,
    room: 4,
    asks: &[
        (
            100,
            110,
            Ask::Deliver(Given::Commit(2, 1, b"z", b"2"), Told::Says(&[])),
        ),
        (
            112,
            122,
            Ask::Deliver(Given::Settle(2), Told::Says(&[(b'd', 9, 2, 111)])),
        ),
        (112, 122, Ask::Advance(120, Ok(120))),
        (112, 122, Ask::Deliver(Given::Resume, Told::Says(&[]))),
        (
            112,
            122,
            Ask::Deliver(Given::Resume, Told::Refused(Fault::BookFull)),
        ),
        (112, 122, Ask::Look((120, Ok(Seen::Value(1))))),
    ],
    moments: &[Moment {
        name: "each call is one input",
        after: 6,
        log: &[
            Line::Opened(1),
            Line::Decided(2, 111),
            Line::Committed(2, 111),
            Line::Ceiling(120),
        ],
    }],
}];

/// Returns the stories of nodes that are opened again.
pub fn nodes() -> &'static [Story] {
    &NODES
}

/// Returns the story of a node whose book is filled.
pub fn once() -> &'static [Story] {
    &ONCE
}
