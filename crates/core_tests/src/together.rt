//! Shards that are opened at the same time.
use crate::cores::{core_of, disk_with, formatted, plain, setup};
use crate::strained::Strained;
use crate::verdict::end;
use disk::Disk;
use made::{FIRST_GATE, WrongRows};
use node::{Core, open_all};
use simdisk::SimDisk;
use std::alloc::Global;
use std::process::Abort;
use std::sync::atomic::AtomicBool;
use std::thread::Threads;
use std::time;
use units::{Fault, Setup};

// The disk of one of two shards.
struct Given {
    shard: u8,
    // How often it was opened before, or `None` if it holds the bytes `log`, which are no log.
    before: Option<u64>,
    // Whether its first sync waits for that of the other one.
    waits: bool,
    // The epoch of its opening, or why it is refused.
    gives: Result<u64, Fault>,
    // The length of the file after that.
    size: u64,
}

struct Row {
    name: &'static str,
    disks: &'static [Given],
}

// An empty log ends with its first gate, and each opening takes 14 bytes: a gate, a length of four bytes, a kind, and a number of eight.
static ROWS: [Row; 4] = [
    Row {
        name: "no disk",
        disks: &[],
    },
    Row {
        name: "two disks wait for each other",
        disks: &[
            Given {
                shard: 0,
                before: Some(0),
                waits: true,
                gives: Ok(1),
                size: FIRST_GATE + 15,
            },
            Given {
                shard: 1,
                before: Some(0),
                waits: true,
                gives: Ok(1),
                size: FIRST_GATE + 15,
            },
        ],
    },
    Row {
        name: "the results stand in the order of the disks",
        disks: &[
            Given {
                shard: 1,
                before: Some(2),
                waits: false,
                gives: Ok(3),
                size: FIRST_GATE + 43,
            },
            Given {
                shard: 0,
                before: Some(0),
                waits: false,
                gives: Ok(1),
                size: FIRST_GATE + 15,
            },
            Given {
                shard: 1,
                before: Some(1),
                waits: false,
                gives: Ok(2),
                size: FIRST_GATE + 29,
            },
        ],
    },
    Row {
        name: "one that is refused has its disk back",
        disks: &[
            Given {
                shard: 0,
                before: Some(1),
                waits: false,
                gives: Ok(2),
                size: FIRST_GATE + 29,
            },
            Given {
                shard: 1,
                before: None,
                waits: false,
                gives: Err(Fault::NotALog),
                size: 3,
            },
            Given {
                shard: 1,
                before: Some(0),
                waits: false,
                gives: Ok(1),
                size: FIRST_GATE + 15,
            },
        ],
    },
];

fn disk_of(rt: &impl Abort, alloc: Global, given: &Given) -> SimDisk {
    let Some(before) = given.before else {
        return disk_with(rt, alloc, b"log");
    };
    let mut disk = formatted(rt, alloc);
    for _ in 0..before {
        disk = core_of(rt, alloc, disk, plain(given.shard, 0)).stop();
    }
    disk
}

// Opens the disks of the row, and compares what that gives.
fn open<R: Threads + time::Clock + Sync + Abort>(
    wrong: &mut WrongRows,
    rt: &R,
    alloc: Global,
    row: &Row,
) {
    let first = AtomicBool::new(false);
    let second = AtomicBool::new(false);
    let mut disks = Vec::new(alloc);
    for given in row.disks {
        let is_first = disks.is_empty();
        let own = if is_first { &first } else { &second };
        let other = if is_first { &second } else { &first };
        let disk = Strained {
            disk: disk_of(rt, alloc, given),
            rt,
            longest: usize::MAX,
            reads: 0,
            own,
            other: if given.waits { other } else { own },
        };
        let told = (disk, setup(rt, alloc, plain(given.shard, 0)));
        disks.push(told).ok().expect(rt, "memory");
    }
    compare(wrong, rt, alloc, row, disks);
}

fn compare<'a, R: Threads + time::Clock + Sync + Abort>(
    wrong: &mut WrongRows,
    rt: &'a R,
    alloc: Global,
    row: &Row,
    disks: Vec<(Strained<'a, R>, Setup)>,
) {
    let mut opened = match open_all(rt, alloc, disks) {
        Ok(opened) => opened,
        Err(refused) => {
            drop(refused);
            rt.panic("memory")
        }
    };
    wrong.unless_at(opened.len() == row.disks.len(), row.name, 0);
    for _ in 0..opened.len() {
        match opened.pop() {
            Some(result) => {
                let given = row.disks.get(opened.len()).expect(rt, row.name);
                wrong.unless_at(is_given(result, given), row.name, opened.len() as u64);
            }
            None => {}
        }
    }
    opened.destroy_empty();
}

// Whether it is a core of this shard in this epoch, or this refusal, and its disk has this length.
fn is_given<R: time::Clock>(
    opening: Result<Core<Strained<R>>, (Fault, Strained<R>)>,
    given: &Given,
) -> bool {
    match opening {
        Ok(core) => {
            let shard = core.setup().shard.number();
            let epoch = core.epoch().number();
            let disk = core.stop();
            let size = disk.len();
            drop(disk);
            given.gives == Ok(epoch) && shard == given.shard && size == given.size
        }
        Err((fault, disk)) => {
            let size = disk.len();
            drop(disk);
            given.gives == Err(fault) && size == given.size
        }
    }
}

/// Opens the shards of each row at the same time, and ends the test if one gives something else.
pub fn open_rows<R: Threads + time::Clock + Sync + Abort>(rt: &R, alloc: Global) {
    let mut wrong = WrongRows::none(alloc);
    for row in &ROWS {
        open(&mut wrong, rt, alloc, row);
    }
    end(rt, wrong);
}
