//! Desks that forget, each with a viewer: what the core and the viewer see at a time, and the horizons in the log.
use crate::answers::Told;
use crate::given::Given;
use crate::logs::Line;
use crate::turned_rows::{LEFT, SAID};
use crate::turning::{Ask, Row};
use units::Fault;

// `z` is 1 at 200 and 2 at 300, and the shard serves up to 400.
const WRITTEN: Row = Row {
    name: "",
    shard: 1,
    before: &[
        (
            200,
            210,
            Ask::Given(
                Given::Prepare(1, b"z", b"1"),
                Told::Says(&[(b'v', 0, 1, 200)]),
            ),
        ),
        (201, 230, Ask::Given(Given::Outcome(1, 200), SAID)),
        (
            300,
            310,
            Ask::Given(
                Given::Prepare(2, b"z", b"2"),
                Told::Says(&[(b'v', 0, 2, 300)]),
            ),
        ),
        (301, 330, Ask::Given(Given::Outcome(2, 300), SAID)),
        (400, 410, Ask::Advance(400)),
    ],
    fate: None,
    ..LEFT
};

const NOT_YET: Told = Told::Refused(Fault::NotYet);

static FORGOTTEN: [Row; 8] = [
    Row {
        name: "nothing is forgotten",
        asks: &[
            (400, 410, Ask::Horizon(0)),
            (400, 410, Ask::Look(b'z', 299, Ok(b'1'))),
            (400, 410, Ask::Look(b'z', 199, Ok(0))),
            (400, 410, Ask::View(b'z', 299, Ok(b'1'))),
            (400, 410, Ask::View(b'z', 300, Ok(b'2'))),
            (400, 410, Ask::View(b'z', 401, Err(Fault::NotYet))),
        ],
        again: &[(420, 430, Ask::Horizon(0))],
        log: &[
            Line::Opened(1),
            Line::Promised(1, 200),
            Line::Committed(1, 200),
            Line::Promised(2, 300),
            Line::Committed(2, 300),
            Line::Ceiling(400),
        ],
        ..WRITTEN
    },
    Row {
        name: "nothing above what is served",
        asks: &[
            (400, 410, Ask::Given(Given::Forget(401), NOT_YET)),
            (400, 410, Ask::Horizon(0)),
            (400, 410, Ask::Look(b'z', 299, Ok(b'1'))),
        ],
        again: &[(420, 430, Ask::Horizon(0))],
        log: &[
            Line::Opened(1),
            Line::Promised(1, 200),
            Line::Committed(1, 200),
            Line::Promised(2, 300),
            Line::Committed(2, 300),
            Line::Ceiling(400),
        ],
        ..WRITTEN
    },
    Row {
        name: "what is below the horizon is too old",
        asks: &[
            (400, 410, Ask::Given(Given::Forget(300), SAID)),
            (400, 410, Ask::Horizon(300)),
            (400, 410, Ask::Look(b'z', 299, Err(Fault::TooOld))),
            (400, 410, Ask::Look(b'z', 300, Ok(b'2'))),
            // The next advance tells the viewer.
            (400, 410, Ask::View(b'z', 299, Ok(b'1'))),
            (400, 410, Ask::Advance(400)),
            (400, 410, Ask::View(b'z', 299, Err(Fault::TooOld))),
            (400, 410, Ask::View(b'z', 300, Ok(b'2'))),
            (400, 410, Ask::View(b'z', 400, Ok(b'2'))),
            (400, 410, Ask::View(b'z', 401, Err(Fault::NotYet))),
            // Nothing is logged.
            (400, 410, Ask::Given(Given::Forget(300), SAID)),
            (400, 410, Ask::Given(Given::Forget(299), SAID)),
            (400, 410, Ask::Horizon(300)),
        ],
        again: &[(420, 430, Ask::Look(b'z', 299, Err(Fault::TooOld)))],
        log: &[
            Line::Opened(1),
            Line::Promised(1, 200),
            Line::Committed(1, 200),
            Line::Promised(2, 300),
            Line::Committed(2, 300),
            Line::Ceiling(400),
            Line::Horizon(300),
        ],
        ..WRITTEN
    },
    // The newest version that is not above the horizon stays.
    Row {
        name: "an older version answers at the horizon",
        asks: &[
            (400, 410, Ask::Given(Given::Forget(250), SAID)),
            (400, 410, Ask::Advance(400)),
            (400, 410, Ask::Look(b'z', 249, Err(Fault::TooOld))),
            (400, 410, Ask::Look(b'z', 250, Ok(b'1'))),
            (400, 410, Ask::View(b'z', 249, Err(Fault::TooOld))),
            (400, 410, Ask::View(b'z', 250, Ok(b'1'))),
            (400, 410, Ask::View(b'z', 300, Ok(b'2'))),
        ],
        again: &[(420, 430, Ask::Look(b'z', 250, Ok(b'1')))],
        log: &[
            Line::Opened(1),
            Line::Promised(1, 200),
            Line::Committed(1, 200),
            Line::Promised(2, 300),
            Line::Committed(2, 300),
            Line::Ceiling(400),
            Line::Horizon(250),
        ],
        ..WRITTEN
    },
    Row {
        name: "a horizon stays below a promise, and is there again behind an opening",
        asks: &[
            (400, 410, Ask::Given(Given::Forget(300), SAID)),
            (
                410,
                420,
                Ask::Given(
                    Given::Prepare(3, b"y", b"3"),
                    Told::Says(&[(b'v', 0, 3, 410)]),
                ),
            ),
            (410, 420, Ask::Given(Given::Forget(410), NOT_YET)),
            (410, 420, Ask::Given(Given::Forget(409), SAID)),
            (410, 420, Ask::Horizon(409)),
        ],
        again: &[
            (420, 430, Ask::Horizon(409)),
            (420, 430, Ask::Look(b'z', 408, Err(Fault::TooOld))),
            (420, 430, Ask::Look(b'z', 409, Ok(b'2'))),
            (420, 430, Ask::View(b'z', 408, Err(Fault::TooOld))),
            (420, 430, Ask::View(b'z', 409, Ok(b'2'))),
        ],
        log: &[
            Line::Opened(1),
            Line::Promised(1, 200),
            Line::Committed(1, 200),
            Line::Promised(2, 300),
            Line::Committed(2, 300),
            Line::Ceiling(400),
            Line::Horizon(300),
            Line::Promised(3, 410),
            Line::Horizon(409),
        ],
        ..WRITTEN
    },
    // The board shows what it showed until the next advance, and has to have all versions first.
    Row {
        name: "versions go that the horizon passed",
        asks: &[
            (400, 410, Ask::Given(Given::Forget(300), SAID)),
            (400, 410, Ask::Versions(2)),
            (400, 410, Ask::LetGo(true)),
            (400, 410, Ask::Versions(1)),
            (400, 410, Ask::Look(b'z', 299, Err(Fault::TooOld))),
            (400, 410, Ask::Look(b'z', 300, Ok(b'2'))),
            (400, 410, Ask::View(b'z', 299, Ok(b'1'))),
            (
                410,
                420,
                Ask::Given(
                    Given::Prepare(3, b"z", b"3"),
                    Told::Says(&[(b'v', 0, 3, 410)]),
                ),
            ),
            (411, 430, Ask::Given(Given::Outcome(3, 410), SAID)),
            (411, 430, Ask::LetGo(false)),
            (411, 430, Ask::Versions(2)),
            (420, 430, Ask::Advance(420)),
            (420, 430, Ask::View(b'z', 299, Err(Fault::TooOld))),
            (420, 430, Ask::View(b'z', 409, Ok(b'2'))),
            (420, 430, Ask::View(b'z', 410, Ok(b'3'))),
            (420, 430, Ask::LetGo(true)),
            (420, 430, Ask::Versions(2)),
            (420, 430, Ask::Given(Given::Forget(410), SAID)),
            (420, 430, Ask::LetGo(true)),
            (420, 430, Ask::Versions(1)),
            (420, 430, Ask::Advance(420)),
            (420, 430, Ask::View(b'z', 409, Err(Fault::TooOld))),
            (420, 430, Ask::View(b'z', 410, Ok(b'3'))),
        ],
        again: &[
            (430, 440, Ask::Versions(3)),
            (430, 440, Ask::Look(b'z', 409, Err(Fault::TooOld))),
            (430, 440, Ask::Look(b'z', 410, Ok(b'3'))),
        ],
        log: &[
            Line::Opened(1),
            Line::Promised(1, 200),
            Line::Committed(1, 200),
            Line::Promised(2, 300),
            Line::Committed(2, 300),
            Line::Ceiling(400),
            Line::Horizon(300),
            Line::Promised(3, 410),
            Line::Committed(3, 410),
            Line::Ceiling(420),
            Line::Horizon(410),
        ],
        ..WRITTEN
    },
    Row {
        name: "the newest version at the horizon stays",
        asks: &[
            (400, 410, Ask::LetGo(true)),
            (400, 410, Ask::Versions(2)),
            (400, 410, Ask::Look(b'z', 199, Ok(0))),
            (400, 410, Ask::Given(Given::Forget(299), SAID)),
            (400, 410, Ask::LetGo(true)),
            (400, 410, Ask::Versions(2)),
            (400, 410, Ask::Look(b'z', 299, Ok(b'1'))),
            (400, 410, Ask::View(b'z', 299, Ok(b'1'))),
            (400, 410, Ask::Look(b'z', 300, Ok(b'2'))),
        ],
        again: &[(420, 430, Ask::Look(b'z', 299, Ok(b'1')))],
        log: &[
            Line::Opened(1),
            Line::Promised(1, 200),
            Line::Committed(1, 200),
            Line::Promised(2, 300),
            Line::Committed(2, 300),
            Line::Ceiling(400),
            Line::Horizon(299),
        ],
        ..WRITTEN
    },
    // The horizon that is asked for is this far below the reading's earliest, and not above 400.
    Row {
        name: "the past is kept for a while",
        asks: &[
            (400, 410, Ask::KeepFor(1_000, Ok(()))),
            (400, 410, Ask::Horizon(0)),
            (400, 410, Ask::KeepFor(100, Ok(()))),
            (400, 410, Ask::Horizon(300)),
            (399, 410, Ask::KeepFor(100, Ok(()))),
            (400, 410, Ask::KeepFor(101, Ok(()))),
            (400, 410, Ask::KeepFor(u64::MAX, Ok(()))),
            (400, 410, Ask::Horizon(300)),
            (400, 410, Ask::Look(b'z', 299, Err(Fault::TooOld))),
            (400, 410, Ask::Look(b'z', 300, Ok(b'2'))),
            (500, 510, Ask::KeepFor(0, Ok(()))),
            (500, 510, Ask::Horizon(400)),
            (500, 510, Ask::Look(b'z', 399, Err(Fault::TooOld))),
            (500, 510, Ask::Look(b'z', 400, Ok(b'2'))),
        ],
        again: &[(520, 530, Ask::Horizon(400))],
        log: &[
            Line::Opened(1),
            Line::Promised(1, 200),
            Line::Committed(1, 200),
            Line::Promised(2, 300),
            Line::Committed(2, 300),
            Line::Ceiling(400),
            Line::Horizon(300),
            Line::Horizon(400),
        ],
        ..WRITTEN
    },
];

/// Returns these rows. A body that names a table costs much to prove, so this hands it on.
pub fn forgotten() -> &'static [Row] {
    &FORGOTTEN
}
