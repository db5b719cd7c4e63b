//! Drives over disks in memory, one of which fails.
use crate::clients::failing_disks;
use crate::disks::settings_of;
use crate::drives::Ends;
use crate::gates::Meeting;
use crate::verdict::end;
use drive::{clock_of, drive_by};
use made::WrongRows;
use progress::{Turn, Watch};
use settings::Settings;
use std::alloc::Global;
use std::process::Abort;
use std::sync::atomic::{AtomicU64, Ordering};
use std::time::{Duration, Instant};
use units::{Fault, Key, Splits};
use workers::Counts;

// How many shards there are, two or three; whose disk fails, and at which of its calls from the opening on. `begins` says whether the drive
// has begun by then.
#[derive(Clone, Copy)]
struct Row {
    name: &'static str,
    shards: u8,
    shard: u8,
    call: u64,
    begins: bool,
}

static ROWS: [Row; 9] = [
    Row {
        name: "the first call of shard 0",
        shards: 2,
        shard: 0,
        call: 0,
        begins: false,
    },
    Row {
        name: "the first call of shard 1",
        shards: 2,
        shard: 1,
        call: 0,
        begins: false,
    },
    Row {
        name: "call 20 of shard 0",
        shards: 2,
        shard: 0,
        call: 20,
        begins: true,
    },
    Row {
        name: "call 21 of shard 0",
        shards: 2,
        shard: 0,
        call: 21,
        begins: true,
    },
    Row {
        name: "call 22 of shard 1",
        shards: 2,
        shard: 1,
        call: 22,
        begins: true,
    },
    Row {
        name: "call 23 of shard 1",
        shards: 2,
        shard: 1,
        call: 23,
        begins: true,
    },
    Row {
        name: "call 100 of shard 0",
        shards: 2,
        shard: 0,
        call: 100,
        begins: true,
    },
    Row {
        name: "call 101 of shard 1",
        shards: 2,
        shard: 1,
        call: 101,
        begins: true,
    },
    Row {
        name: "call 24 of shard 2, the last of three",
        shards: 3,
        shard: 2,
        call: 24,
        begins: true,
    },
];

const WORKERS: u64 = 4;

const TRANSACTIONS: u64 = 1_000;

// Counts what it is told: turns, by how they ended, and stops of each shard.
#[derive(Drop)]
struct Told {
    ends: Ends,
    stops: [AtomicU64; 3],
}

impl Told {
    // One stop was told, of this shard, if there is one.
    fn has_stop(&self, stopped: Option<usize>) -> bool {
        for (shard, stops) in self.stops.iter().enumerate() {
            let wanted = if stopped == Some(shard) { 1 } else { 0 };
            if stops.load(Ordering::SeqCst) != wanted {
                return false;
            }
        }
        true
    }

    // It was told of each turn that the drive counts, and of the stop. If the drive has not begun, it has no counts, and nothing was told.
    // The turns after the stop, which are most of them, are aborted, and none of these has a look.
    fn is_right(&self, row: &Row, counts: Option<Counts>) -> bool {
        match counts {
            Some(counts) => {
                let few = counts.looks < counts.aborted;
                row.begins
                    && few
                    && self.ends.are(counts)
                    && self.has_stop(Some(usize::from(row.shard)))
            }
            None => !row.begins && self.ends.are(Counts::none()) && self.has_stop(None),
        }
    }
}

impl Watch for Told {
    fn turned(&self, turn: Turn) {
        self.ends.turned(turn);
    }

    fn stopped(&self, shard: usize) {
        if let Some(stops) = self.stops.get(shard) {
            stops.fetch_add(1, Ordering::SeqCst);
        }
    }
}

// The settings of a drive over so many shards: two, or three, which part at `k0003` and `k0006`.
fn settings_for(rt: &impl Abort, alloc: Global, shards: u8) -> Settings {
    let mut settings = settings_of(rt, alloc, WORKERS, TRANSACTIONS, 10);
    if shards == 3 {
        let first = Key::new(b"k0003").expect(rt, "a key");
        let second = Key::new(b"k0006").expect(rt, "a key");
        settings.splits = Splits::new(alloc, &[first, second]).expect(rt, "splits");
    }
    settings
}

// Fails if a drive goes on for long after a device has failed, or tells it wrong. It has to be refused as `Device` within ten seconds, though each
// turn that waits for a shard in vain takes two.
#[test]
fn stops(rt: HostRuntime) {
    let alloc = rt.alloc();
    let mut wrong = WrongRows::none(alloc);
    for row in &ROWS {
        let settings = settings_for(&rt, alloc, row.shards);
        let told = Told {
            ends: Ends::none(),
            stops: [AtomicU64::new(0), AtomicU64::new(0), AtomicU64::new(0)],
        };
        let start = Instant::now(&rt).ok().expect(&rt, "a clock");
        let disks = failing_disks(&rt, alloc, usize::from(row.shards), row.shard, row.call);
        let gate = Meeting::new(&rt, false);
        let clock = clock_of(&rt, &settings);
        let driven = drive_by(&rt, alloc, &settings, disks, clock, &gate, &told);
        drop(settings);
        drop(gate);
        let took = start.elapsed(&rt).ok().expect(&rt, "a clock");
        let is_refused = match driven {
            Ok(driven) => {
                drop(driven);
                false
            }
            Err(none) => none.fault == Fault::Device && told.is_right(row, none.counts),
        };
        drop(told);
        wrong.unless(is_refused && took < Duration::from_secs(10), row.name);
    }
    end(&rt, wrong);
}
