//! Logs that are read in pieces, on a disk that fails every longer read.
use crate::cores::{Setting, core_of, formatted, setup};
use crate::given::{Given, commit, input_of, reading};
use crate::strained::Strained;
use crate::verdict::end;
use disk::Disk;
use made::{WrongRows, shard};
use message::Input;
use node::Core;
use simdisk::SimDisk;
use std::alloc::Global;
use std::process::Abort;
use std::sync::atomic::AtomicBool;
use std::time;
use units::{Key, Parts, Value, Write, Writes};

// The longest read that succeeds, in bytes.
const LONGEST: usize = 65_536;

// Commits of one value each: the n-th is of 1.n, and writes the n-th letter.
struct Row {
    name: &'static str,
    // How long the values are: this many of 4,096 bytes, and then these.
    full: u8,
    lengths: &'static [usize],
    // The length of the file, in bytes.
    size: u64,
    // How many reads read it.
    reads: u64,
}

static ROWS: [Row; 7] = [
    Row {
        name: "the last gate is the last byte of a piece",
        full: 13,
        lengths: &[2_475, 1],
        size: 65_578,
        reads: 2,
    },
    Row {
        name: "the last gate is the first byte of a piece",
        full: 13,
        lengths: &[2_476, 1],
        size: 65_579,
        reads: 2,
    },
    Row {
        name: "a length stands in two pieces",
        full: 13,
        lengths: &[2_473, 1],
        size: 65_576,
        reads: 2,
    },
    Row {
        name: "a body is the first of a piece",
        full: 13,
        lengths: &[2_471, 1],
        size: 65_574,
        reads: 2,
    },
    Row {
        name: "a body stands in two pieces",
        full: 14,
        lengths: &[1],
        size: 67_199,
        reads: 2,
    },
    Row {
        name: "the closed gate is the last byte of a piece",
        full: 13,
        lengths: &[2_475],
        size: 65_536,
        reads: 1,
    },
    Row {
        name: "the closed gate is the first byte of a piece",
        full: 13,
        lengths: &[2_476],
        size: 65_537,
        reads: 2,
    },
];

// A shard with all keys.
const ALONE: Setting = Setting {
    shard: 0,
    stride: 0,
    alone: true,
    capacity: 0,
    fails: None,
};

// The letters of the keys, and the bytes of the longest value.
static LETTERS: [u8; 26] = *b"abcdefghijklmnopqrstuvwxyz";

static SEVENS: [u8; 4_096] = [7; 4_096];

fn give(rt: &impl Abort, alloc: Global, core: &mut Core<SimDisk>, input: &Input) {
    let out = core.on(alloc, &reading(rt, 100, 110), input);
    drop(out.expect(rt, "a commit"));
}

// How many transactions are decided, up to 100.
fn decided<D: Disk>(core: &Core<D>) -> usize {
    for number in 0..100 {
        if core.decided(number).is_none() {
            return number;
        }
    }
    100
}

// Opens the log of the row, which was written on another disk, and counts.
fn open_in_pieces<R: time::Clock + Abort>(
    wrong: &mut WrongRows,
    rt: &R,
    alloc: Global,
    disk: SimDisk,
    row: &Row,
) {
    wrong.unless_at(disk.len() == row.size, row.name, disk.len());
    let synced = AtomicBool::new(false);
    let narrow = Strained {
        disk,
        rt,
        longest: LONGEST,
        reads: 0,
        own: &synced,
        other: &synced,
    };
    let core = match Core::open(alloc, narrow, setup(rt, alloc, ALONE)) {
        Ok(core) => core,
        Err((_, narrow)) => {
            drop(narrow);
            return wrong.unless_at(false, row.name, 0);
        }
    };
    let found = decided(&core);
    let narrow = core.stop();
    wrong.unless_at(
        found == usize::from(row.full) + row.lengths.len(),
        row.name,
        found as u64,
    );
    wrong.unless_at(narrow.reads == row.reads, row.name, narrow.reads);
}

// The disk with the log of the row.
fn written(rt: &impl Abort, alloc: Global, row: &Row) -> SimDisk {
    let mut core = core_of(rt, alloc, formatted(rt, alloc), ALONE);
    let full = usize::from(row.full);
    let mut number = 0u16;
    for place in 0..full + row.lengths.len() {
        let length = match row.lengths.get(place.saturating_sub(full)) {
            Some(length) if place >= full => *length,
            _ => 4_096,
        };
        number = number.saturating_add(1);
        let key = LETTERS.get(place..place + 1).expect(rt, row.name);
        let value = SEVENS.get(..length).expect(rt, row.name);
        let commit = Given::Commit(number, 0, key, value);
        give(rt, alloc, &mut core, &input_of(rt, alloc, commit));
    }
    core.stop()
}

/// Shows that an opening reads a log in pieces of at most 65,536 bytes, whatever part of a frame a piece ends with.
#[test]
fn read_in_pieces(rt: HostRuntime) {
    let mut wrong = WrongRows::none(rt.alloc());
    let alloc = rt.alloc();
    for row in &ROWS {
        let disk = written(&rt, alloc, row);
        open_in_pieces(&mut wrong, &rt, alloc, disk, row);
    }
    end(&rt, wrong);
}

static LONG: Row = Row {
    name: "a long body",
    full: 0,
    lengths: &[4_096],
    size: 534_203,
    reads: 9,
};

/// Shows that a frame of 524,964 bytes, of a commit of 128 values of 4,096 bytes each, is gathered from nine reads.
#[test]
fn a_long_body_is_gathered(rt: HostRuntime) {
    let mut wrong = WrongRows::none(rt.alloc());
    let alloc = rt.alloc();
    let mut writes = Vec::new(alloc);
    for number in 0..128u8 {
        let write = Write {
            key: Key::new(&[number]).expect(&rt, "a key"),
            value: Some(Value::new(alloc, &SEVENS).expect(&rt, "a value")),
        };
        writes.push(write).ok().expect(&rt, "memory");
    }
    let writes = Writes::from_vec(writes).ok().expect(&rt, "writes");
    let input = Input::Deliver(commit(alloc, 1, Parts::only(shard(0)), writes));
    let mut core = core_of(&rt, alloc, formatted(&rt, alloc), ALONE);
    give(&rt, alloc, &mut core, &input);
    drop(input);
    open_in_pieces(&mut wrong, &rt, alloc, core.stop(), &LONG);
    end(&rt, wrong);
}
