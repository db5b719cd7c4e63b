//! Transactions at their clients. Shard 0 has the keys below `m`, and shard 1 all others.
ghost use Rattle.std.specs.Prelude.{◌≡◌};

use crate::checks::{Printed, are_printed, is_printed};
use made::{WrongRows, id, key, shard, stamp};
use message::{Answer, Done, Outbox, ReadAnswer};
use session::{Closed, Closing, Finished, Heard, Ongoing, Open, Tx};
use std::alloc::Global;
use texts::Text;
use tickets::{Drawer, Tickets};
use units::{Epoch, Fault, Key, Run, Splits, Value};

// What transaction 1.2 does while it is open, with keys of one letter.
enum Does {
    Read(u8),
    Write(u8, &'static [u8]),
    Erase(u8),
    // It hears the answer of shard 1 for a key, in an epoch.
    Hears(u8, u64, &'static [u8]),
}

// What it does after its closing. It is given up; or it hears its end. Or it is given up and asks once more, and then
// hears its end, at a timestamp or aborted.
enum Then {
    GivesUp,
    Hears,
    Quits(Option<u32>),
}

struct Story {
    name: &'static str,
    // What comes of each step: a message, a value, a word, or a fault.
    does: &'static [(Does, &'static str)],
    // What it says when it is closed, and once more, or else how that is refused. A line is a message.
    closing: &'static str,
    refused: &'static str,
    // What it says when it is given up then, unless it hears its end.
    farewells: &'static str,
    then: Then,
}

static STORIES: [Story; 7] = [
    Story {
        name: "nothing is not closed, and is given up",
        does: &[],
        closing: "",
        refused: "7 BadRequest(nothing)",
        farewells: "",
        then: Then::GivesUp,
    },
    Story {
        name: "two shards are written",
        does: &[
            (Does::Write(b'z', b"2"), "done"),
            (Does::Erase(b'a'), "done"),
            (Does::Write(b'a', b"1"), "done"),
        ],
        closing: "shard 0 commit 1.2 0,1 0 - a=1\nshard 1 prepare 1.2 0 0 - z=2",
        refused: "",
        farewells: "shard 0 giveup 1.2\nshard 1 giveup 1.2",
        then: Then::GivesUp,
    },
    Story {
        name: "a read is answered once",
        does: &[
            (Does::Read(b'z'), "shard 1 read 1.2 z"),
            (Does::Read(b'z'), "7 BadRequest(awaited)"),
            (Does::Hears(b'z', 1, b"2"), "=2"),
            (Does::Hears(b'z', 1, b"2"), "again"),
            (Does::Read(b'z'), "7 BadRequest(again)"),
        ],
        closing: "shard 1 commit 1.2 1 1 z -",
        refused: "",
        farewells: "shard 1 giveup 1.2",
        then: Then::GivesUp,
    },
    Story {
        name: "a second epoch dooms",
        does: &[
            (Does::Read(b'z'), "shard 1 read 1.2 z"),
            (Does::Read(b'n'), "shard 1 read 1.2 n"),
            (Does::Hears(b'z', 1, b"2"), "=2"),
            (Does::Hears(b'n', 2, b"3"), "doomed"),
            (Does::Erase(b'z'), "7 BadRequest(doomed)"),
        ],
        closing: "",
        refused: "7 BadRequest(doomed)",
        farewells: "shard 1 giveup 1.2",
        then: Then::GivesUp,
    },
    Story {
        name: "it takes its own end, and no other",
        does: &[(Does::Erase(b'a'), "done")],
        closing: "shard 0 commit 1.2 0 0 - a!",
        refused: "",
        farewells: "",
        then: Then::Hears,
    },
    Story {
        name: "given up, it asks once more, and was committed",
        does: &[
            (Does::Write(b'z', b"2"), "done"),
            (Does::Write(b'a', b"1"), "done"),
        ],
        closing: "shard 0 commit 1.2 0,1 0 - a=1\nshard 1 prepare 1.2 0 0 - z=2",
        refused: "",
        farewells: "shard 0 giveup 1.2\n\
            shard 1 giveup 1.2\nshard 0 commit 1.2 0,1 0 - a=1\n\
            shard 1 prepare 1.2 0 0 - z=2",
        then: Then::Quits(Some(200)),
    },
    Story {
        name: "given up, it asks once more, and is aborted",
        does: &[
            (Does::Read(b'z'), "shard 1 read 1.2 z"),
            (Does::Hears(b'z', 1, b"2"), "=2"),
        ],
        closing: "shard 1 commit 1.2 1 1 z -",
        refused: "",
        farewells: "shard 1 giveup 1.2\nshard 1 commit 1.2 1 1 z -",
        then: Then::Quits(None),
    },
];

// Tells whether the messages are printed so.
fn says(alloc: Global, out: Outbox, lines: &str) -> bool {
    let said = are_printed(alloc, out.as_slice(), lines);
    drop(out);
    said
}

fn reads(tx: &mut Tx<'_, Open>, alloc: Global, key: Key, gets: &str) -> bool {
    match tx.read(key) {
        Ok(envelope) => {
            let printed = envelope.is_line(alloc, gets);
            drop(envelope);
            printed
        }
        Err(fault) => is_printed(alloc, &fault, gets),
    }
}

fn buffers(
    tx: &mut Tx<'_, Open>,
    alloc: Global,
    key: Key,
    value: Option<Value>,
    gets: &str,
) -> bool {
    match tx.buffer(key, value) {
        Ok(()) => gets == "done",
        Err(fault) => is_printed(alloc, &fault, gets),
    }
}

fn hears(tx: &mut Tx<'_, Open>, alloc: Global, answer: ReadAnswer, gets: &str) -> bool {
    let heard = tx.answered(&answer);
    drop(answer);
    match heard {
        Ok(Heard::Value(value)) => {
            let printed = is_printed(alloc, &Text(&value), gets);
            drop(value);
            printed
        }
        Ok(Heard::Again) => gets == "again",
        Ok(Heard::Doomed) => gets == "doomed",
        Err(fault) => is_printed(alloc, &fault, gets),
    }
}

// Makes an answer of shard 1. A value is left out if there is no memory for it.
fn answer(alloc: Global, key: Key, epoch: u64, bytes: &[u8]) -> ReadAnswer {
    ReadAnswer {
        from: shard(1),
        txn: id(2),
        key,
        epoch: Epoch::new(epoch).unwrap_or(Epoch::first()),
        answer: Answer::Holds(Value::new(alloc, bytes).ok()),
    }
}

fn goes_on(tx: &mut Tx<'_, Open>, alloc: Global, does: &[(Does, &str)]) -> bool {
    let mut went = true;
    for (does, gets) in does {
        let goes = match does {
            Does::Read(letter) => reads(tx, alloc, key(*letter), *gets),
            Does::Erase(letter) => buffers(tx, alloc, key(*letter), None, *gets),
            Does::Write(letter, bytes) => {
                let value = Value::new(alloc, *bytes).ok();
                buffers(tx, alloc, key(*letter), value, *gets)
            }
            Does::Hears(letter, epoch, bytes) => {
                let answer = answer(alloc, key(*letter), *epoch, *bytes);
                hears(tx, alloc, answer, *gets)
            }
        };
        went = went && goes;
    }
    went
}

fn gives_up<S: Ongoing>(tx: Tx<'_, S>, alloc: Global, lines: &str) -> bool {
    match tx.give_up(alloc) {
        Ok(out) => says(alloc, out, lines),
        Err((_, tx)) => {
            tx.spend();
            false
        }
    }
}

// Tells whether it says so as it quits and as it asks once more, and takes its end then.
fn quits(tx: Tx<'_, Closing>, alloc: Global, story: &Story, at: u32) -> bool {
    match tx.quit(alloc) {
        Ok((tx, out)) => {
            let said = says(alloc, out, story.farewells) && says_again(&tx, alloc, story.closing);
            takes_no_other(tx, at) && said
        }
        Err((_, tx)) => {
            tx.spend();
            false
        }
    }
}

// Makes the end of a transaction of this number, at a timestamp, or aborted if that is 0.
fn end_of(number: u16, at: u32) -> Done {
    if at == 0 {
        Done::aborted(id(number))
    } else {
        Done::said(id(number), Some(stamp(at)))
    }
}

fn finished_at(at: u32) -> Finished {
    if at == 0 {
        Finished::Aborted
    } else {
        Finished::Committed(stamp(at))
    }
}

fn takes_its_end<S: Closed>(tx: Tx<'_, S>, at: u32) -> bool {
    let done = end_of(2, at);
    match tx.take(&done) {
        Ok(finished) => finished == finished_at(at),
        Err((_, tx)) => {
            tx.spend();
            false
        }
    }
}

fn takes_no_other<S: Closed>(tx: Tx<'_, S>, at: u32) -> bool {
    let done = end_of(3, at);
    match tx.take(&done) {
        Ok(_) => false,
        Err((fault, tx)) => takes_its_end(tx, at) && fault == Fault::Stranger,
    }
}

fn says_again<S: Closed>(tx: &Tx<'_, S>, alloc: Global, lines: &str) -> bool {
    match tx.again(alloc) {
        Ok(out) => says(alloc, out, lines),
        Err(_) => false,
    }
}

fn closes(tx: Tx<'_, Open>, alloc: Global, story: &Story) -> bool {
    match tx.close(alloc) {
        Ok((tx, out)) => {
            let said = says(alloc, out, story.closing) && says_again(&tx, alloc, story.closing);
            let ended = match story.then {
                Then::GivesUp => gives_up(tx, alloc, story.farewells),
                Then::Hears => takes_no_other(tx, 200),
                Then::Quits(None) => quits(tx, alloc, story, 0),
                Then::Quits(Some(at)) => quits(tx, alloc, story, at),
            };
            ended && said
        }
        Err((fault, tx)) => {
            gives_up(tx, alloc, story.farewells) && is_printed(alloc, &fault, story.refused)
        }
    }
}

// Tells whether a new transaction of run 7 asks for `a` by this line.
fn asks(alloc: Global, splits: &Splits, tickets: &Tickets, drawer: &mut Drawer, line: &str) -> bool
    requires { drawer.old.source ≡ tickets.now }
    ensures { drawer.new.source ≡ drawer.old.source }
{
    let Some(run) = Run::new(7) else {
        return false;
    };
    match Tx::begin_drawn(alloc, run, splits, tickets, drawer) {
        Ok(mut tx) => {
            let asks = reads(&mut tx, alloc, key(b'a'), line);
            tx.spend();
            asks
        }
        Err(_) => false,
    }
}

// Tells whether the first transactions of a source are 7.0 and 7.1.
fn are_drawn(alloc: Global, splits: &Splits) -> bool {
    let Ok((tickets, mut drawers)) = Tickets::new(alloc, 1) else {
        return false;
    };
    let drawn = match drawers.pop() {
        Some(mut drawer) => {
            let first = asks(alloc, splits, &tickets, &mut drawer, "shard 0 read 7.0 a");
            let second = asks(alloc, splits, &tickets, &mut drawer, "shard 0 read 7.1 a");
            drop(drawer);
            first & second
        }
        None => false,
    };
    drop(drawers);
    drop(tickets);
    drawn
}

/// Checks all rows.
pub fn go_over(wrong: &mut WrongRows, alloc: Global) {
    let Ok(splits) = Splits::new(alloc, &[key(b'm')]) else {
        return wrong.unless(false, "no splits");
    };
    for story in &STORIES {
        let mut tx = Tx::begin(alloc, id(2), &splits);
        let went = goes_on(&mut tx, alloc, story.does);
        wrong.unless(closes(tx, alloc, story) && went, story.name);
    }
    wrong.unless(are_drawn(alloc, &splits), "7.0 and 7.1");
    drop(splits);
}
