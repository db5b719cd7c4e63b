//! Nodes whose logs are long, and that go on in a new disk or stay in theirs.
use crate::cores::plain;
use crate::given::{Given, input_of, reading};
use crate::logs::{Line, with_log};
use crate::nodes::{fresh_node, is_seen};
use board::Viewer;
use disk::Disk;
use letters::Serves;
use made::{WrongRows, stamp};
use node::{LogFolder, Node};
use simdisk::SimDisk;
use std::alloc::Global;
use std::process::Abort;
use std::sync::Wait;
use std::sync::atomic::{AtomicU64, Ordering};
use units::{Fault, Seen, ShardNo};

/// A folder with a new disk, of which this device call fails, or with none. It says this when it is to put the disk in place, and counts how often.
#[derive(Drop)]
struct Folder {
    alloc: Global,
    fails: Option<Option<u64>>,
    placed: Result<bool, Fault>,
    puts: AtomicU64,
}

impl LogFolder<SimDisk> for Folder {
    ghost use Rattle.std.specs.Prelude.{◌≡◌};

    ghost may_find = { λ former disk. disk ≡ former };

    fn draft(&self, _shard: ShardNo) -> Option<SimDisk> {
        let fails = self.fails?;
        let mut disk = SimDisk::new(self.alloc);
        disk.arm(fails);
        Some(disk)
    }

    fn put_in_place(&self, _shard: ShardNo) -> Result<bool, Fault> {
        self.puts.fetch_add(1, Ordering::SeqCst);
        self.placed
    }

    fn find(&self, _shard: ShardNo, former: SimDisk) -> Result<SimDisk, SimDisk> {
        Ok(former)
    }
}

/// By how many bytes the log has to have grown, and how far into its file it has to begin; what the folder does, and what the
/// node says. Then how often the new disk was to be put in place, whether the node takes a commit more, how often its file was turned over, and what its
/// log holds.
struct Row {
    name: &'static str,
    least: u64,
    beyond: u64,
    fails: Option<Option<u64>>,
    placed: Result<bool, Fault>,
    gives: Result<bool, Fault>,
    puts: u64,
    serves: bool,
    turnovers: u64,
    log: &'static [Line],
}

// The log of a node that stays, without the last commit and with it.
const FORMER: &[Line] = &[
    Line::Opened(1),
    Line::Promised(2, 200),
    Line::Committed(2, 200),
    Line::Ceiling(205),
];

const STAYS: &[Line] = &[
    Line::Opened(1),
    Line::Promised(2, 200),
    Line::Committed(2, 200),
    Line::Ceiling(205),
    Line::Promised(3, 250),
    Line::Committed(3, 250),
    Line::Ceiling(255),
];

// It has grown by 100 bytes: 14 of the opening, 41 of the promise, 31 of its outcome, and 14 of the ceiling. It begins at 9,224.
const MOVES: Row = Row {
    name: "it goes on in the new disk",
    least: 100,
    beyond: 9_223,
    fails: Some(None),
    placed: Ok(true),
    gives: Ok(true),
    puts: 1,
    serves: true,
    turnovers: 1,
    log: &[
        Line::Base(1, 205, 0),
        Line::Version(200, b'z', b'2'),
        Line::Closed(2, 200),
        Line::Promised(3, 250),
        Line::Committed(3, 250),
        Line::Ceiling(255),
    ],
};

const STILL: Row = Row {
    name: "a log that has grown by less stays",
    least: 101,
    gives: Ok(false),
    puts: 0,
    turnovers: 0,
    log: STAYS,
    ..MOVES
};

const CALL: Row = Row {
    name: "the first call of the new disk fails",
    least: 100,
    fails: Some(Some(0)),
    gives: Err(Fault::Device),
    ..STILL
};

static ROWS: [Row; 14] = [
    MOVES,
    STILL,
    Row {
        name: "one that lies no farther stays",
        least: 100,
        beyond: 9_224,
        ..STILL
    },
    Row {
        name: "one that has no new disk stays",
        least: 100,
        fails: None,
        ..STILL
    },
    Row {
        name: "one stays whose new disk did not get the place",
        least: 100,
        placed: Ok(false),
        puts: 1,
        ..STILL
    },
    Row {
        name: "nobody knows which disk has the place, and the node stops",
        least: 100,
        placed: Err(Fault::Device),
        gives: Err(Fault::Device),
        puts: 1,
        serves: false,
        log: FORMER,
        ..STILL
    },
    CALL,
    Row {
        name: "the second call fails",
        fails: Some(Some(1)),
        ..CALL
    },
    Row {
        name: "the third call fails",
        fails: Some(Some(2)),
        ..CALL
    },
    Row {
        name: "the fourth call fails",
        fails: Some(Some(3)),
        ..CALL
    },
    Row {
        name: "the fifth call fails",
        fails: Some(Some(4)),
        ..CALL
    },
    Row {
        name: "the sixth call fails",
        fails: Some(Some(5)),
        ..CALL
    },
    Row {
        name: "the seventh call fails",
        fails: Some(Some(6)),
        ..CALL
    },
    Row {
        name: "the eighth call fails",
        fails: Some(Some(7)),
        ..CALL
    },
];

// Commits a transaction of this number at the beginning of a reading of ten microseconds, and serves up to half of it.
fn commits<R: Wait + Drop>(
    rt: &(impl Wait + Abort),
    alloc: Global,
    node: &Node<SimDisk, R>,
    number: u16,
    at: u32,
) -> bool {
    let micros = u64::from(at);
    let now = reading(rt, micros, micros + 10);
    let promise = input_of(rt, alloc, Given::Prepare(number, b"z", b"2"));
    let promised = node.deliver(rt, &now, &promise);
    drop(promise);
    let outcome = input_of(rt, alloc, Given::Outcome(number, at));
    let ended = node.deliver(rt, &now, &outcome);
    drop(outcome);
    let served = node.advance(rt, &now, stamp(at.saturating_add(5)));
    let took = promised.is_ok() && ended.is_ok() && served.is_ok();
    drop(promised);
    drop(ended);
    took
}

// Whether the node says what the row says, asked once and then again: no log is tried twice before it has grown.
fn is_moved<R: Wait + Drop>(
    rt: &(impl Wait + Abort),
    alloc: Global,
    node: &Node<SimDisk, R>,
    row: &Row,
) -> bool {
    let folder = Folder {
        alloc,
        fails: row.fails,
        placed: row.placed,
        puts: AtomicU64::new(0),
    };
    let first = node.move_on(rt, &folder, row.least, row.beyond);
    let again = match row.gives {
        Ok(true) | Err(_) => node.move_on(rt, &folder, row.least, row.beyond),
        Ok(false) => Ok(false),
    };
    let puts = folder.puts.load(Ordering::SeqCst);
    drop(folder);
    first == row.gives && again == Ok(false) && puts == row.puts
}

// Whether all is as the row says, up to what the log of the disk holds.
fn is_right<R: Wait + Abort>(
    wrong: &mut WrongRows,
    rt: &R,
    alloc: Global,
    made: (Node<SimDisk, &R>, Vec<Viewer>),
    row: &Row,
) {
    let (node, mut viewers) = made;
    let began = commits(rt, alloc, &node, 2, 200);
    let moved = is_moved(rt, alloc, &node, row);
    let stays = is_seen(&mut viewers, (205, Ok(Seen::Value(1))));
    let went_on = commits(rt, alloc, &node, 3, 250) == row.serves;
    let sees = if row.serves {
        Ok(Seen::Value(1))
    } else {
        Err(Fault::NotYet)
    };
    let seen = is_seen(&mut viewers, (255, sees));
    let turnovers = node.gauges(rt).turnovers;
    wrong.unless(began && moved && stays && went_on && seen, row.name);
    wrong.unless_at(turnovers == row.turnovers, row.name, turnovers);
    drop(with_log(wrong, alloc, node.close(), row.name, row.log, &[]));
    drop(viewers);
}

/// Checks all rows.
pub fn check<R: Wait + Abort>(wrong: &mut WrongRows, rt: &R, alloc: Global) {
    for row in &ROWS {
        let made = fresh_node(rt, rt, alloc, plain(1, 0));
        is_right(wrong, rt, alloc, made, row);
    }
}
