//! Cores that keep a book.
use crate::answers::{Shape, Told, are_shaped, is_told};
use crate::cores::{Setting, opened, plain};
use crate::given::Given;
use crate::stories::{Exchange, Origin, Part, Shows, disk_of, play};
use book::Page;
use made::WrongRows;
use node::Core;
use simdisk::SimDisk;
use std::alloc::Global;
use std::process::Abort;
use units::Fault;

// The two ends of a reading, and the messages that were put out at it.
type Kept = (u64, u64, &'static [Shape]);

// The inputs of a core of shard 0 with a book. Afterwards: how many records its opening found, its pages, and what it shows.
struct Row {
    name: &'static str,
    capacity: u32,
    origin: Origin,
    exchanges: &'static [Exchange],
    found: usize,
    pages: &'static [Kept],
    shows: &'static [Shows],
}

const A: Given = Given::Commit(1, 0, b"a", b"1");

const SETTLES: Shape = (b'd', 9, 1, 111);

const DONE: Told = Told::Says(&[SETTLES]);

const FULL: Told = Told::Refused(Fault::BookFull);

const DECIDED: Exchange = (100, 110, A, Told::Says(&[]));

const WAITS: &[Shows] = &[Shows::Last(111), Shows::Decided(1, 111), Shows::Installs(0)];

const SETTLED: &[Shows] = &[Shows::Last(111), Shows::Decided(0, 0), Shows::Installs(1)];

static ROWS: [Row; 5] = [
    Row {
        name: "a second input that would else be accepted",
        capacity: 1,
        origin: Origin::New,
        exchanges: &[DECIDED, (112, 121, Given::Settle(1), FULL)],
        found: 0,
        pages: &[(100, 110, &[])],
        shows: WAITS,
    },
    // The step's own refusals come before that of the book.
    Row {
        name: "refusals of a full book",
        capacity: 1,
        origin: Origin::New,
        exchanges: &[
            DECIDED,
            (112, 121, Given::Settle(2), Told::Refused(Fault::Stranger)),
            (105, 112, Given::Settle(1), Told::Refused(Fault::Early)),
            (105, 112, Given::Advance(113), Told::Refused(Fault::Future)),
            (105, 112, Given::Advance(112), FULL),
            (111, 120, A, FULL),
        ],
        found: 0,
        pages: &[(100, 110, &[])],
        shows: WAITS,
    },
    // A refused input is no page.
    Row {
        name: "three inputs",
        capacity: 3,
        origin: Origin::New,
        exchanges: &[
            DECIDED,
            (105, 112, Given::Settle(1), Told::Refused(Fault::Early)),
            (111, 120, A, Told::Says(&[])),
            (112, 121, Given::Settle(1), DONE),
            (112, 121, A, FULL),
        ],
        found: 0,
        pages: &[(100, 110, &[]), (111, 120, &[]), (112, 121, &[SETTLES])],
        shows: SETTLED,
    },
    // Its opening found Opened 1 and the decision.
    Row {
        name: "a book behind a crash",
        capacity: 2,
        origin: Origin::Crashed(&[DECIDED]),
        exchanges: &[(112, 121, Given::Settle(1), DONE), (112, 121, A, DONE)],
        found: 2,
        pages: &[(112, 121, &[SETTLES]), (112, 121, &[SETTLES])],
        shows: SETTLED,
    },
    Row {
        name: "the largest book",
        capacity: 65_536,
        origin: Origin::New,
        exchanges: &[DECIDED],
        found: 0,
        pages: &[(100, 110, &[])],
        shows: WAITS,
    },
];

fn is_page(page: &Page, kept: &Kept) -> bool {
    let (earliest, latest, shapes) = *kept;
    let now = page.reading();
    now.earliest().micros() == earliest
        && now.latest().micros() == latest
        && are_shaped(page.outbox(), shapes)
}

// Whether the book has these pages, and a core with the same origin and no book puts out the same for the same inputs.
fn is_replayed(alloc: Global, pages: &[Page], again: &mut Core<SimDisk>, kept: &[Kept]) -> bool {
    let mut held = pages.len() == kept.len();
    for (page, kept) in pages.iter().zip(kept) {
        let answer = again.on(alloc, &page.reading(), page.input());
        held = is_told(answer, Told::Says(kept.2)) & is_page(page, kept) & held;
    }
    held & again.book().is_none()
}

fn keep(wrong: &mut WrongRows, rt: &impl Abort, alloc: Global, row: &Row) {
    let unbooked = plain(0, 0);
    let setting = Setting {
        capacity: row.capacity,
        ..unbooked
    };
    let disk = disk_of(wrong, rt, alloc, row.name, setting, row.origin);
    let Some(mut core) = opened(rt, alloc, disk, setting).ok() else {
        return wrong.unless(false, row.name);
    };
    let mut part = Part {
        name: row.name,
        exchanges: row.exchanges,
        shows: row.shows,
    };
    play(wrong, rt, alloc, &mut core, &part);
    let disk = disk_of(wrong, rt, alloc, row.name, unbooked, row.origin);
    match opened(rt, alloc, disk, unbooked).ok() {
        Some(mut again) => {
            let held = match core.book() {
                Some(book) => is_replayed(alloc, book.pages(), &mut again, row.pages)
                    && book.found().len() == row.found,
                None => false,
            };
            wrong.unless_at(held, row.name, 0);
            part.exchanges = &[];
            play(wrong, rt, alloc, &mut again, &part);
            drop(again.stop());
        }
        None => wrong.unless(false, row.name),
    }
    drop(core.stop());
}

/// Shows that a book has a page for each accepted input, and replays.
pub fn keep_books(wrong: &mut WrongRows, rt: &impl Abort, alloc: Global) {
    for row in &ROWS {
        keep(wrong, rt, alloc, row);
    }
}
