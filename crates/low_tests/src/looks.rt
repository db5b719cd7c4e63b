//! What viewers are answered, while a publisher publishes.
ghost use Rattle.std.specs.Prelude.{◌≡◌, [], ◌∷◌, IfOk};
ghost use Rattle.board.specs.declared.entry.BoardEntry.TheVariants.{Horizon, Safe};

use board::{Publisher, Snapshot, Viewer, start};
use made::{WrongRows, key, stamp};
use std::alloc::Global;
use std::sync::Wait;
use std::thread;
use std::thread::Threads;
use truetime::Reading;
use units::{Fault, Install, Reason, Seen, Splits, Value};
use versions::Places;

// A look for a key of one byte, with a buffer of so many bytes.
struct Look {
    key: u8,
    at: u32,
    room: usize,
    answer: Result<Seen, Fault>,
}

// The board of shard 0 of two, split at `m`, with no version: served up to 5.
static AT_FIRST: [Look; 4] = [
    Look {
        key: b'a',
        at: 0,
        room: 3,
        answer: Ok(Seen::Absent),
    },
    Look {
        key: b'a',
        at: 5,
        room: 3,
        answer: Ok(Seen::Absent),
    },
    Look {
        key: b'a',
        at: 6,
        room: 3,
        answer: Err(Fault::NotYet),
    },
    Look {
        key: b'm',
        at: 0,
        room: 3,
        answer: Err(Fault::Stranger),
    },
];

// The same with a value of three bytes from 7 on, served up to 9.
static AFTER_ONE: [Look; 5] = [
    Look {
        key: b'a',
        at: 6,
        room: 3,
        answer: Ok(Seen::Absent),
    },
    Look {
        key: b'a',
        at: 7,
        room: 3,
        answer: Ok(Seen::Value(3)),
    },
    Look {
        key: b'a',
        at: 9,
        room: 2,
        answer: Err(Fault::Room),
    },
    Look {
        key: b'a',
        at: 10,
        room: 3,
        answer: Err(Fault::NotYet),
    },
    Look {
        key: b'b',
        at: 9,
        room: 0,
        answer: Ok(Seen::Absent),
    },
];

// Tells whether the answer, and what the buffer holds then, are those of the row: a value is `xyz`.
fn is_answer(seen: Result<Seen, Fault>, buffer: [u8; 3], answer: Result<Seen, Fault>) -> bool {
    let bytes = if matches!(seen, Ok(Seen::Value(3))) {
        *b"xyz"
    } else {
        [0; 3]
    };
    seen == answer && buffer == bytes
}

fn is_seen(viewer: &mut Viewer, look: &Look) -> bool {
    let mut buffer = [0; 3];
    let room = &mut buffer[..look.room.min(3)];
    let seen = viewer.look(&key(look.key), stamp(look.at), room);
    is_answer(seen, buffer, look.answer)
}

// Tells whether the viewer of a number sees these.
fn sees(viewers: &mut [Viewer], number: usize, looks: &[Look]) -> bool {
    let Some(viewer) = viewers.get_mut(number) else {
        return false;
    };
    for look in looks {
        if !is_seen(viewer, look) {
            return false;
        }
    }
    true
}

#[tactic(auto, unfolding(board::specs::Board::may_follow))]
fn new_board<R: Wait + Drop>(
    rt: R,
    alloc: Global,
    viewers: usize,
) -> Result<(Publisher<R>, Vec<Viewer>), Fault>
    ensures { IfOk result (λ made. (made.0.published ≡ Safe 5 ∷ []) × (made.0.pending ≡ [])) }
{
    match Splits::new(alloc, &[key(b'm')]) {
        Ok(splits) => {
            let shard = splits.shard_of(&key(b'a'));
            let none = Places::none(alloc);
            start(
                rt,
                alloc,
                &[],
                &none,
                stamp(5),
                stamp(0),
                splits,
                shard,
                viewers,
            )
        }
        Err(fault) => Err(fault),
    }
}

// Accepts the value `xyz` of `a` from 7 on, and then that 9 is served.
#[tactic(auto, unfolding(board::specs::Board::may_follow))]
fn accepts<R: Wait + Drop>(publisher: &mut Publisher<R>, alloc: Global) -> bool
    requires first { publisher.old.published ≡ Safe 5 ∷ [] }
    requires none { publisher.old.pending ≡ [] }
{
    let Ok(value) = Value::new(alloc, b"xyz") else {
        return false;
    };
    let install = Install {
        key: key(b'a'),
        at: stamp(7),
        value: Some(value),
    };
    publisher.install(install).is_ok() && publisher.safe(stamp(9)).is_ok()
}

// Publishes, and tells whether what is shown is served up to 9.
fn publishes<R: Wait + Drop>(publisher: &mut Publisher<R>) -> bool {
    match publisher.publish() {
        Ok(told) => {
            let safe = told.safe().micros();
            drop(told);
            safe == 9
        }
        Err(_) => false,
    }
}

// Tells whether the look of viewer 1 for `a` at the snapshot has this answer.
fn shows(snapshot: &Snapshot, viewers: &mut [Viewer], answer: Result<Seen, Fault>) -> bool {
    let Some(viewer) = viewers.get_mut(1) else {
        return false;
    };
    let mut buffer = [0; 3];
    let seen = snapshot.look(viewer, &key(b'a'), &mut buffer);
    is_answer(seen, buffer, answer)
}

// What `a` is after the publication.
static AT_8: [Look; 1] = [Look {
    key: b'a',
    at: 8,
    room: 3,
    answer: Ok(Seen::Value(3)),
}];

fn looks_again(viewers: &mut [Viewer], times: u32) -> bool {
    for _turn in 0..times {
        if !sees(viewers, 2, &AT_8) {
            return false;
        }
    }
    true
}

fn publishes_again<R: Wait + Drop>(publisher: &mut Publisher<R>, times: u32) -> bool {
    for _turn in 0..times {
        if !publishes(publisher) {
            return false;
        }
    }
    true
}

// Makes so many looks on another thread while this one publishes so many times. They see what was published here
// before that thread began.
fn goes_on<R: Threads + Sync, W: Wait + Drop>(
    rt: &R,
    publisher: &mut Publisher<W>,
    viewers: &mut [Viewer],
    looks: u32,
    publications: u32,
) -> bool {
    let (sees, publishes) = thread::join(
        rt,
        || looks_again(viewers, looks),
        || publishes_again(publisher, publications),
    );
    sees && publishes
}

// Tells whether looks change with the publication, and not before; a snapshot is answered once its timestamp is
// served. Each of three viewers looks for the first time after it, and one of them on another thread, also while
// publications go on.
fn follow<R: Threads + Sync, W: Wait + Drop>(
    rt: &R,
    publisher: &mut Publisher<W>,
    viewers: &mut [Viewer],
    alloc: Global,
) -> bool
    requires first { publisher.old.published ≡ Safe 5 ∷ [] }
    requires none { publisher.old.pending ≡ [] }
{
    let Ok(now) = Reading::new(stamp(6), stamp(9)) else {
        return false;
    };
    let snapshot = Snapshot::start(&now);
    sees(viewers, 0, &AT_FIRST)
        && shows(&snapshot, viewers, Err(Fault::NotYet))
        && accepts(publisher, alloc)
        && sees(viewers, 0, &AT_FIRST)
        && publishes(publisher)
        && sees(viewers, 0, &AFTER_ONE)
        && shows(&snapshot, viewers, Ok(Seen::Value(3)))
        && goes_on(rt, publisher, viewers, 1, 0)
        && goes_on(rt, publisher, viewers, 1_000, 1_000)
}

// The board of shard 0 of two whose publisher has ended.
static AT_THE_END: [Look; 1] = [Look {
    key: b'a',
    at: 0,
    room: 3,
    answer: Err(Fault::Stopped),
}];

// A board that begins with a horizon at 3, served up to 5.
static FROM_3: [Look; 4] = [
    Look {
        key: b'a',
        at: 2,
        room: 3,
        answer: Err(Fault::TooOld),
    },
    Look {
        key: b'a',
        at: 3,
        room: 3,
        answer: Ok(Seen::Absent),
    },
    Look {
        key: b'a',
        at: 6,
        room: 3,
        answer: Err(Fault::NotYet),
    },
    Look {
        key: b'm',
        at: 2,
        room: 3,
        answer: Err(Fault::Stranger),
    },
];

// The same with the value from 7 on, served up to 9, and a horizon at 8.
static FROM_8: [Look; 5] = [
    Look {
        key: b'a',
        at: 7,
        room: 3,
        answer: Err(Fault::TooOld),
    },
    Look {
        key: b'a',
        at: 7,
        room: 2,
        answer: Err(Fault::TooOld),
    },
    Look {
        key: b'a',
        at: 8,
        room: 3,
        answer: Ok(Seen::Value(3)),
    },
    Look {
        key: b'a',
        at: 8,
        room: 2,
        answer: Err(Fault::Room),
    },
    Look {
        key: b'a',
        at: 10,
        room: 3,
        answer: Err(Fault::NotYet),
    },
];

#[tactic(auto, unfolding(board::specs::Board::may_follow))]
fn board_from_3<R: Wait + Drop>(rt: R, alloc: Global) -> Result<(Publisher<R>, Vec<Viewer>), Fault>
    ensures { IfOk result
        (λ made. (made.0.published ≡ Horizon 3 ∷ Safe 5 ∷ []) × (made.0.pending ≡ [])) }
{
    match Splits::new(alloc, &[key(b'm')]) {
        Ok(splits) => {
            let shard = splits.shard_of(&key(b'a'));
            let none = Places::none(alloc);
            start(rt, alloc, &[], &none, stamp(5), stamp(3), splits, shard, 2)
        }
        Err(fault) => Err(fault),
    }
}

// Accepts the value `xyz` of `a` from 7 on, that 9 is served, and a horizon at 8.
#[tactic(auto, unfolding(board::specs::Board::may_follow))]
fn accepts_from_8<R: Wait + Drop>(publisher: &mut Publisher<R>, alloc: Global) -> bool
    requires first { publisher.old.published ≡ Horizon 3 ∷ Safe 5 ∷ [] }
    requires none { publisher.old.pending ≡ [] }
{
    let Ok(value) = Value::new(alloc, b"xyz") else {
        return false;
    };
    let install = Install {
        key: key(b'a'),
        at: stamp(7),
        value: Some(value),
    };
    publisher.install(install).is_ok()
        && publisher.safe(stamp(9)).is_ok()
        && publisher.horizon(stamp(8)).is_ok()
}

// Tells whether looks are too old below the horizon that the board began with, and below a greater one once it is
// published.
fn forgets<R: Wait + Drop>(rt: R, alloc: Global) -> bool {
    match board_from_3(rt, alloc) {
        Ok((mut publisher, mut viewers)) => {
            let forgets = sees(&mut viewers, 0, &FROM_3)
                && accepts_from_8(&mut publisher, alloc)
                && sees(&mut viewers, 0, &FROM_3)
                && publishes(&mut publisher)
                && sees(&mut viewers, 0, &FROM_8)
                && sees(&mut viewers, 1, &FROM_8);
            drop(publisher);
            drop(viewers);
            forgets
        }
        Err(_) => false,
    }
}

// How many viewers a board has that is asked for so many.
struct Board {
    name: &'static str,
    viewers: usize,
    made: Result<usize, Fault>,
}

// A board has 1 to 64 viewers. Those of the board of three look while it goes on.
static BOARDS: [Board; 6] = [
    Board {
        name: "no viewer",
        viewers: 0,
        made: Err(Fault::BadRequest(Reason::Many)),
    },
    Board {
        name: "1 viewer",
        viewers: 1,
        made: Ok(1),
    },
    Board {
        name: "65 viewers",
        viewers: 65,
        made: Err(Fault::BadRequest(Reason::Many)),
    },
    Board {
        name: "64 viewers",
        viewers: 64,
        made: Ok(64),
    },
    Board {
        name: "2 viewers",
        viewers: 2,
        made: Ok(2),
    },
    Board {
        name: "3 viewers",
        viewers: 3,
        made: Ok(3),
    },
];

// Tells whether a viewer of each board that is made sees it at first, and is stopped once the publisher has ended.
fn is_so<R: Threads + Wait + Sync>(rt: &R, alloc: Global, row: &Board) -> bool {
    match new_board(rt, alloc, row.viewers) {
        Ok((mut publisher, mut viewers)) => {
            let counted = row.made == Ok(viewers.len());
            let before = sees(&mut viewers, 0, &AT_FIRST);
            let during = viewers.len() != 3 || follow(rt, &mut publisher, &mut viewers, alloc);
            drop(publisher);
            let after = sees(&mut viewers, 0, &AT_THE_END);
            drop(viewers);
            counted && before && during && after
        }
        Err(fault) => row.made == Err(fault),
    }
}

/// Checks all rows.
pub fn go_over<R: Threads + Wait + Sync>(wrong: &mut WrongRows, rt: &R, alloc: Global) {
    for row in &BOARDS {
        wrong.unless(is_so(rt, alloc, row), row.name);
    }
    wrong.unless(forgets(rt, alloc), "a horizon");
}
