//! Desks that renew their logs, and what their viewers see.
use crate::answers::Told;
use crate::given::Given;
use crate::logs::Line;
use crate::turned_rows::{COMMIT, LEFT, NEW, OLD, SAID, SECOND, SETTLE, SETTLE_SECOND, TURN};
use crate::turning::{Ask, Row};
use units::Fault;

const KEPT: Row = Row {
    name: "what a viewer sees stays, and it sees what comes then",
    asks: &[
        COMMIT,
        SETTLE,
        (130, 140, Ask::Advance(130)),
        (130, 140, Ask::View(b'a', 111, Ok(b'1'))),
        TURN,
        (130, 140, Ask::View(b'a', 111, Ok(b'1'))),
        SECOND,
        SETTLE_SECOND,
        (230, 240, Ask::View(b'a', 211, Err(Fault::NotYet))),
        (230, 240, Ask::Advance(220)),
        (230, 240, Ask::View(b'a', 210, Ok(b'1'))),
        (230, 240, Ask::View(b'a', 211, Ok(b'2'))),
    ],
    log: &[
        Line::Base(1, 130, 0),
        Line::Version(111, b'a', b'1'),
        Line::Settled(1, 111),
        Line::Decided(2, 211),
        Line::Committed(2, 211),
        Line::Ceiling(220),
    ],
    again: &[],
    ..LEFT
};

// A log of one opening ends at 9,238. A commit takes 42 bytes, its outcome 31, a ceiling 14. In a renewed log a base takes 30, a version
// of one letter 20, and what is settled 32. It begins after the old gate. A log that was not renewed has grown since its opening began.
const GROWN: &[Line] = &[
    Line::Base(1, 300, 0),
    Line::Version(111, b'a', b'1'),
    Line::Version(211, b'b', b'1'),
    Line::Settled(1, 111),
    Line::Settled(2, 211),
];

const FORGOTTEN: &[Line] = &[
    Line::Base(1, 211, 211),
    Line::Version(211, b'a', b'2'),
    Line::Settled(1, 111),
    Line::Settled(2, 211),
];

const NOT_TURNED: &[Line] = &[
    Line::Opened(1),
    Line::Decided(1, 111),
    Line::Committed(1, 111),
    Line::Decided(2, 211),
    Line::Committed(2, 211),
    Line::Horizon(211),
];

// When a log is turned over, and what its viewer sees.
static RENEWED: [Row; 3] = [
    KEPT,
    // A renewed log has 82 bytes, from 9,312 to 9,394, and the opening 14.
    Row {
        name: "what was held when a log was renewed has not grown since, also for an opening",
        asks: &[COMMIT, SETTLE, TURN],
        size: Some(9_395),
        log: NEW,
        again: &[
            (230, 240, Ask::Gate(9_408)),
            (230, 240, Ask::Renew(1_000_000, 0, Ok(()))),
            (230, 240, Ask::Gate(9_408)),
        ],
        ..KEPT
    },
    Row {
        name: "a log is turned over once it has grown by so much, and is twice as long",
        asks: &[
            (112, 121, Ask::Gate(9_238)),
            (112, 121, Ask::Renew(1_000_000, 15, Ok(()))),
            (112, 121, Ask::Gate(9_238)),
            COMMIT,
            SETTLE,
            (112, 121, Ask::Gate(9_311)),
            (112, 121, Ask::Renew(1_000_000, 88, Ok(()))),
            (112, 121, Ask::Gate(9_311)),
            (112, 121, Ask::Renew(1_000_000, 87, Ok(()))),
            (112, 121, Ask::Gate(9_394)),
            (112, 121, Ask::Renew(1_000_000, 0, Ok(()))),
            (112, 121, Ask::Gate(9_394)),
            (200, 210, Ask::Given(Given::Commit(2, 0, b"b", b"1"), SAID)),
            SETTLE_SECOND,
            (112, 121, Ask::Renew(1_000_000, 0, Ok(()))),
            (112, 121, Ask::Gate(9_467)),
            (300, 310, Ask::Advance(300)),
            (112, 121, Ask::Gate(9_481)),
            (112, 121, Ask::Renew(1_000_000, 88, Ok(()))),
            (112, 121, Ask::Gate(9_481)),
            (112, 121, Ask::Renew(1_000_000, 87, Ok(()))),
            (112, 121, Ask::Gate(9_616)),
        ],
        size: Some(9_617),
        log: GROWN,
        ..KEPT
    },
];

// The horizon is raised before that.
static RAISED: [Row; 3] = [
    // The horizon is 400 less this distance, so it is 211, the time of the second commit.
    Row {
        name: "the horizon comes first",
        asks: &[
            COMMIT,
            SETTLE,
            SECOND,
            SETTLE_SECOND,
            (400, 410, Ask::Renew(189, 0, Ok(()))),
            (400, 410, Ask::Look(b'a', 210, Err(Fault::TooOld))),
            (400, 410, Ask::Look(b'a', 211, Ok(b'2'))),
        ],
        log: FORGOTTEN,
        ..KEPT
    },
    Row {
        name: "where it has not grown the horizon is all",
        asks: &[
            COMMIT,
            SETTLE,
            SECOND,
            SETTLE_SECOND,
            (400, 410, Ask::Renew(189, 1_000, Ok(()))),
            (400, 410, Ask::Look(b'a', 210, Err(Fault::TooOld))),
        ],
        log: NOT_TURNED,
        ..KEPT
    },
    // The device fails while the horizon is logged. A look is still answered.
    Row {
        name: "a refused horizon is all",
        fails: Some(8),
        asks: &[
            COMMIT,
            SETTLE,
            (112, 121, Ask::Renew(0, 0, Err(Fault::Device))),
            (112, 121, Ask::Renew(0, 0, Err(Fault::Stopped))),
            (112, 121, Ask::Turn(Err(Fault::Stopped))),
            (112, 121, Ask::Look(b'a', 111, Ok(b'1'))),
        ],
        log: OLD,
        again: &[(
            112,
            121,
            Ask::Given(
                Given::Commit(1, 0, b"a", b"1"),
                Told::Says(&[(b'd', 9, 1, 111)]),
            ),
        )],
        ..KEPT
    },
];

/// Returns the rows of desks whose logs grow. A body that names a table costs much to prove, so this hands it on.
pub fn renewed() -> &'static [Row] {
    &RENEWED
}

/// Returns the rows of desks that raise the horizon first.
pub fn raised() -> &'static [Row] {
    &RAISED
}
