//! Schedules that are read, and lines that are refused.
use commands::schedule;
use made::WrongRows;
use std::alloc::Global;
use units::{Fault, Reason};
use world::{Act, Event};

const EACH_KIND: &str = "shards 2
split m
stride 7
1 begin 1.1
1 read 1.1 a
1 write 1.1 a 1
1 erase 1.1 z
1 close 1.1
1 quit 1.1
1 deliver 0 1 9
1 resume 0 1 9
1 settle 1 1.1 1 9
1 advance 0 5 1 9
1 nudge 1 1.1 1 9
1 forget 0 5 1 9
1 turn 0
1 look 0 a 5
1 view 0 3 a 5
2 crash 0
3 open 0
4 crash 0 2 fF deliver 0 1 9
4 crash 0 2 old resume 0 1 9
4 crash 1 2 new settle 1 1.1 1 9
4 fail 0 3 open 0
4 fail 0 3 advance 0 5 1 9
4 crash 0 2 new forget 0 5 1 9
4 fail 0 3 forget 0 5 1 9
4 crash 1 3 37 turn 1
4 fail 0 4 turn 0
";

// What a schedule is read as: why it is refused, or how many events it has. If the first is a stop in another event, it also has the shard,
// the call, and the shard that the other event names.
enum Read {
    Refused(Reason),
    As(usize, Option<(u8, u64, u8)>),
}

struct Row {
    text: &'static str,
    read: Read,
}

// Texts that are read, most of them of one event.
static STOPS: [Row; 11] = [
    Row {
        text: EACH_KIND,
        read: Read::As(26, None),
    },
    Row {
        text: "shards 2\nsplit m\nstride 0\n2 crash 0 1 old open 0\n",
        read: Read::As(1, Some((0, 1, 0))),
    },
    Row {
        text: "shards 2\nsplit m\nstride 0\n2 crash 0 1 old open 1\n",
        read: Read::As(1, Some((0, 1, 1))),
    },
    Row {
        text: "shards 2\nsplit m\nstride 0\n2 crash 1 3 a5 advance 0 5 1 9\n",
        read: Read::As(1, Some((1, 3, 0))),
    },
    Row {
        text: "shards 2\nsplit m\nstride 0\n2 crash 1 0 new deliver 0 1 9\n",
        read: Read::As(1, Some((1, 0, 1))),
    },
    Row {
        text: "shards 2\nsplit m\nstride 0\n2 fail 1 2 settle 0 1.1 1 9\n",
        read: Read::As(1, Some((1, 2, 0))),
    },
    Row {
        text: "shards 2\nsplit m\nstride 0\n2 fail 0 3 nudge 0 1.1 1 9\n",
        read: Read::As(1, Some((0, 3, 0))),
    },
    Row {
        text: "shards 2\nsplit m\nstride 0\n2 crash 0 1 old forget 1 5 1 9\n",
        read: Read::As(1, Some((0, 1, 1))),
    },
    Row {
        text: "shards 2\nsplit m\nstride 0\n2 fail 1 3 forget 1 5 1 9\n",
        read: Read::As(1, Some((1, 3, 1))),
    },
    Row {
        text: "shards 2\nsplit m\nstride 0\n2 turn 1\n",
        read: Read::As(1, None),
    },
    Row {
        text: "shards 2\nsplit m\nstride 0\n2 crash 0 3 new turn 1\n",
        read: Read::As(1, Some((0, 3, 1))),
    },
];

// Texts of which the head, a number or a reading is not as it should be, and one that is read.
static HEADS: [Row; 10] = [
    Row {
        text: "shards 2\nsplit m\nstride 0\n2 fail 1 4 turn 1\n",
        read: Read::As(1, Some((1, 4, 1))),
    },
    Row {
        text: "",
        read: Read::Refused(Reason::Syntax(1)),
    },
    Row {
        text: "shards 0\nstride 0\n",
        read: Read::Refused(Reason::Syntax(1)),
    },
    Row {
        text: "shards 17\n",
        read: Read::Refused(Reason::Syntax(1)),
    },
    Row {
        text: "shards 2\nsplit m\n",
        read: Read::Refused(Reason::Syntax(3)),
    },
    Row {
        text: "shards 3\nsplit m\nsplit m\nstride 0\n",
        read: Read::Refused(Reason::Splits),
    },
    Row {
        text: "shards 2\nsplit m\nstride 0\n0100 begin 1.1\n",
        read: Read::Refused(Reason::Syntax(4)),
    },
    Row {
        text: "shards 2\nsplit m\nstride 0\n100 begin 1.1",
        read: Read::Refused(Reason::Syntax(4)),
    },
    Row {
        text: "shards 1\nstride 0\n100  begin 1.1\n",
        read: Read::Refused(Reason::Syntax(3)),
    },
    Row {
        text: "shards 1\nstride 0\n100 deliver 0 111 110\n",
        read: Read::Refused(Reason::Syntax(3)),
    },
];

// Texts of which a line is not as it should be.
static LINES: [Row; 9] = [
    Row {
        text: "shards 1\nstride 0\n100 forget 0 5 111 110\n",
        read: Read::Refused(Reason::Syntax(3)),
    },
    Row {
        text: "shards 1\nstride 0\n100 forget 0 5 111\n",
        read: Read::Refused(Reason::Syntax(3)),
    },
    Row {
        text: "shards 1\nstride 0\n100 forget 0 4611686018427387904 100 110\n",
        read: Read::Refused(Reason::Syntax(3)),
    },
    Row {
        text: "shards 1\nstride 0\n100 turn\n",
        read: Read::Refused(Reason::Syntax(3)),
    },
    Row {
        text: "shards 1\nstride 0\n100 turn 0 100 110\n",
        read: Read::Refused(Reason::Syntax(3)),
    },
    Row {
        text: "shards 1\nstride 0\n100 turn 16\n",
        read: Read::Refused(Reason::Syntax(3)),
    },
    Row {
        text: "shards 1\nstride 0\n100 crash 0 2 0g open 0\n",
        read: Read::Refused(Reason::Syntax(3)),
    },
    Row {
        text: "shards 1\nstride 0\n1 open 0\n2 crash 0 1 old begin 1.1\n",
        read: Read::Refused(Reason::Syntax(4)),
    },
    Row {
        text: "shards 1\nstride 0\n1 open 16\n",
        read: Read::Refused(Reason::Syntax(3)),
    },
];

// The act is this stop in another event, or none.
fn is_stop(act: &Act, stop: &Option<(u8, u64, u8)>) -> bool {
    match (act, stop) {
        (Act::CrashIn(at, call, _, named, _) | Act::FailIn(at, call, named, _), Some(wanted)) => {
            at.number() == wanted.0 && *call == wanted.1 && named.number() == wanted.2
        }
        (Act::CrashIn(_, _, _, _, _) | Act::FailIn(_, _, _, _), None) => false,
        _ => stop.is_none(),
    }
}

// Whether these many events were read, the first of which is that stop.
fn are_read(events: &[Event], count: usize, stop: &Option<(u8, u64, u8)>) -> bool {
    match events.first() {
        Some(event) => events.len() == count && is_stop(&event.act, stop),
        None => false,
    }
}

fn is_read(alloc: Global, row: &Row) -> bool {
    match schedule(alloc, row.text) {
        Ok((config, events)) => {
            drop(config);
            let read = match &row.read {
                Read::As(count, stop) => are_read(&events, *count, stop),
                Read::Refused(_) => false,
            };
            drop(events);
            read
        }
        Err(fault) => match row.read {
            Read::Refused(reason) => fault == Fault::BadRequest(reason),
            Read::As(_, _) => false,
        },
    }
}

// A body that names a table costs much to prove, so each is handed on.
fn stops() -> &'static [Row] {
    &STOPS
}

fn heads() -> &'static [Row] {
    &HEADS
}

fn lines() -> &'static [Row] {
    &LINES
}

/// Goes over all rows.
pub fn go_over(wrong: &mut WrongRows, alloc: Global) {
    for rows in [stops(), heads(), lines()] {
        for row in rows {
            wrong.unless(is_read(alloc, row), row.text);
        }
    }
}
