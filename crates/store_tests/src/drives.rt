//! Drives of two shards, which part at `k0005`, with a stride of 1,000 and a clock that is within 100.
use crate::disks::{disks_of, settings_of};
use crate::gates::Meeting;
use crate::kept::Kept;
use crate::verdict::end;
use drive::{Driven, clock_of, drive_by, run};
use made::WrongRows;
use progress::{Ended, Turn, Watch};
use simdisk::SimDisk;
use std::alloc::Global;
use std::process::Abort;
use std::sync::Wait;
use std::sync::atomic::{AtomicU64, Ordering};
use std::thread::Threads;
use std::time;
use truetime::{Clock, Reading};
use units::{Fault, Line, Reason, Stamp, Stride, Verdict};
use workers::{Counts, Summary};

// Why a drive is refused; or how many transactions are tried, and how many commits and answered looks there are at least. The run is that of
// all ids. That each transaction is counted once is proved of drives; that the verdict is yes is not. If no look need be answered, that is by
// chance.
#[derive(Clone, Copy)]
enum Comes {
    Refused(Fault),
    Driven {
        tried: u64,
        committed: u64,
        looks: u64,
        run: u64,
    },
}

// A drive over so many disks with an empty log, and one without, of so many workers and transactions of each.
#[derive(Clone, Copy)]
struct Row {
    name: &'static str,
    workers: u64,
    transactions: u64,
    keys: u64,
    logs: u8,
    blank: bool,
    comes: Comes,
}

const SETTINGS: Comes = Comes::Refused(Fault::BadRequest(Reason::Settings));

// A drive of one worker over two logs, and one that is refused.
const ONE_WORKER: Row = Row {
    name: "one worker",
    workers: 1,
    transactions: 50,
    keys: 10,
    logs: 2,
    blank: false,
    comes: Comes::Driven {
        tried: 50,
        committed: 1,
        looks: 1,
        run: 1,
    },
};

const REFUSED: Row = Row {
    transactions: 1,
    keys: 1,
    comes: SETTINGS,
    ..ONE_WORKER
};

static ROWS: [Row; 10] = [
    Row {
        name: "four workers",
        workers: 4,
        comes: Comes::Driven {
            tried: 200,
            committed: 1,
            looks: 0,
            run: 1,
        },
        ..ONE_WORKER
    },
    // For the verdict alone: how many of these commit, and see anything, is by chance.
    Row {
        name: "many workers",
        workers: 16,
        transactions: 5,
        comes: Comes::Driven {
            tried: 80,
            committed: 0,
            looks: 0,
            run: 1,
        },
        ..ONE_WORKER
    },
    Row {
        name: "no worker",
        workers: 0,
        ..REFUSED
    },
    Row {
        name: "65 workers",
        workers: 65,
        ..REFUSED
    },
    Row {
        name: "no transaction",
        transactions: 0,
        ..REFUSED
    },
    Row {
        name: "no key",
        keys: 0,
        ..REFUSED
    },
    Row {
        name: "10,001 keys",
        keys: 10_001,
        ..REFUSED
    },
    Row {
        name: "one disk for two shards",
        logs: 1,
        ..REFUSED
    },
    Row {
        name: "three disks for two shards",
        logs: 3,
        ..REFUSED
    },
    Row {
        name: "a disk without a log",
        keys: 10,
        logs: 1,
        blank: true,
        comes: Comes::Refused(Fault::NotALog),
        ..REFUSED
    },
];

// Two drives, one after the other over the same disks.
const FIRST: Row = Row {
    name: "a drive",
    transactions: 5,
    comes: Comes::Driven {
        tried: 5,
        committed: 1,
        looks: 0,
        run: 1,
    },
    ..ONE_WORKER
};

const SECOND: Row = Row {
    name: "a second one over the same disks",
    comes: Comes::Driven {
        tried: 5,
        committed: 1,
        looks: 0,
        run: 2,
    },
    ..FIRST
};

static AGAIN: [Row; 2] = [FIRST, SECOND];

// Whether each transaction was counted, and the verdict is yes.
fn is_sound(summary: &Summary, tried: u64) -> bool {
    let counts = summary.counts;
    let sum = counts
        .committed
        .saturating_add(counts.aborted)
        .saturating_add(counts.unknown);
    sum == tried && matches!(summary.verdict, Verdict::Yes)
}

// What lines tell: how many there are of each kind, the greatest timestamp of a look, and whether each transaction that began is of the run.
#[derive(Clone, Copy)]
struct Summed {
    begins: u64,
    acks: u64,
    reads: u64,
    looks: u64,
    last: u64,
    of_run: bool,
}

fn sum_of(lines: &[Line], run: u64) -> Summed {
    let mut sum = Summed {
        begins: 0,
        acks: 0,
        reads: 0,
        looks: 0,
        last: 0,
        of_run: true,
    };
    for line in lines {
        match line {
            Line::Begin(txn, _) => {
                sum.begins = sum.begins.saturating_add(1);
                sum.of_run = sum.of_run & (txn.run() == run);
            }
            Line::Ack(_, _, _) => sum.acks = sum.acks.saturating_add(1),
            Line::Read(_, _, _) => sum.reads = sum.reads.saturating_add(1),
            Line::Look(_, at, _) => {
                sum.looks = sum.looks.saturating_add(1);
                sum.last = at.micros().max(sum.last);
            }
        }
    }
    sum
}

// Whether each transaction has a line of its begin, each that committed one of its acknowledgement, and each answered look its own.
fn are_told(summary: &Summary, tried: u64, sum: Summed) -> bool {
    sum.begins == tried && sum.acks == summary.counts.committed && sum.looks == summary.counts.looks
}

// Whether one worker's lines are in order. Their moments are 0, 1, 2 and so on, each drawn once, when what it tells of is done. Each
// acknowledgement and each look is at a later timestamp than those before, since a commit waits and the clock does not go back.
fn are_in_turn(lines: &[Line]) -> bool {
    let mut next: u64 = 0;
    let mut last: u64 = 0;
    let mut right = true;
    for line in lines {
        match line {
            Line::Begin(_, moment) => {
                right = right & (*moment == next);
                next = next.saturating_add(1);
            }
            Line::Ack(_, at, moment) => {
                right = right & (*moment == next) & (at.micros() > last);
                next = next.saturating_add(1);
                last = at.micros();
            }
            Line::Read(_, _, _) => {}
            Line::Look(_, at, _) => {
                right = right & (at.micros() > last);
                last = at.micros();
            }
        }
    }
    right
}

fn is_driven(summary: &Summary, lines: &[Line], comes: Comes) -> bool {
    match comes {
        Comes::Refused(_) => false,
        Comes::Driven {
            tried,
            committed,
            looks,
            run,
        } => {
            let sum = sum_of(lines, run);
            is_sound(summary, tried)
                && are_told(summary, tried, sum)
                && summary.counts.committed >= committed
                && summary.counts.looks >= looks
                && sum.of_run
        }
    }
}

/// Counts the turns that it is told, by how they ended.
#[derive(Drop)]
pub struct Ends {
    committed: AtomicU64,
    aborted: AtomicU64,
    unknown: AtomicU64,
}

impl Ends {
    /// Begins to count: it was told nothing so far.
    pub fn none() -> Ends {
        Ends {
            committed: AtomicU64::new(0),
            aborted: AtomicU64::new(0),
            unknown: AtomicU64::new(0),
        }
    }

    /// Tells whether it was told as many of each end as a drive counts.
    pub fn are(&self, counts: Counts) -> bool {
        self.committed.load(Ordering::SeqCst) == counts.committed
            && self.aborted.load(Ordering::SeqCst) == counts.aborted
            && self.unknown.load(Ordering::SeqCst) == counts.unknown
    }
}

impl Watch for Ends {
    fn turned(&self, turn: Turn) {
        let told = match turn.ended {
            Ended::Committed => &self.committed,
            Ended::Aborted => &self.aborted,
            Ended::Unknown => &self.unknown,
        };
        told.fetch_add(1, Ordering::SeqCst);
    }
}

// Drives the disks as the row says, and compares what that comes to, and what a watch is told of its turns. Returns the disks after it, if it
// is not refused.
fn go<R: Threads + Wait + time::Clock + Sync + Abort>(
    wrong: &mut WrongRows,
    rt: &R,
    alloc: Global,
    row: &Row,
    disks: Vec<SimDisk>,
    gate: &Meeting<R>,
) -> Vec<SimDisk> {
    let settings = settings_of(rt, alloc, row.workers, row.transactions, row.keys);
    let clock = clock_of(rt, &settings);
    let ends = Ends::none();
    let driven = drive_by(rt, alloc, &settings, disks, clock, gate, &ends);
    drop(settings);
    let (held, disks) = match driven {
        Ok(
            Driven {
                summary,
                lines,
                disks,
            },
        ) => {
            let held = is_driven(&summary, lines.as_slice(), row.comes)
                && ends.are(summary.counts)
                && (row.workers != 1 || are_in_turn(lines.as_slice()));
            drop(lines);
            (held, disks)
        }
        Err(none) => {
            let held = match row.comes {
                Comes::Refused(fault) => none.fault == fault,
                _ => false,
            };
            (held, Vec::new(alloc))
        }
    };
    wrong.unless(held, row.name);
    disks
}

// Fails if a drive comes to anything but its row, also over the disks that the one before it has left.
#[test]
fn drives(rt: HostRuntime) {
    let gate = Meeting::new(&rt, false);
    let mut wrong = WrongRows::none(rt.alloc());
    for row in &ROWS {
        let disks = disks_of(&rt, rt.alloc(), row.logs, row.blank);
        drop(go(&mut wrong, &rt, rt.alloc(), row, disks, &gate));
    }
    let mut left = disks_of(&rt, rt.alloc(), 2, false);
    for row in &AGAIN {
        left = go(&mut wrong, &rt, rt.alloc(), row, left, &gate);
    }
    drop(left);
    end(&rt, wrong);
}

// A drive over keys of shard 0 alone.
static LOW_KEYS: Row = Row {
    name: "a drive of four keys",
    keys: 4,
    ..FIRST
};

static LOW_KEYS_AGAIN: Row = Row {
    name: "a second one, beside a new log of shard 1",
    keys: 4,
    ..SECOND
};

// Fails if the run of all ids is not the greatest epoch of the shards, but that of the last one.
#[test]
fn greatest_epoch(rt: HostRuntime) {
    let gate = Meeting::new(&rt, false);
    let mut wrong = WrongRows::none(rt.alloc());
    let fresh = disks_of(&rt, rt.alloc(), 2, false);
    let mut left = go(&mut wrong, &rt, rt.alloc(), &LOW_KEYS, fresh, &gate);
    drop(left.pop());
    let mut others = disks_of(&rt, rt.alloc(), 2, false);
    left.push(others.pop().expect(&rt, "a disk"))
        .ok()
        .expect(&rt, "memory");
    drop(others);
    drop(go(&mut wrong, &rt, rt.alloc(), &LOW_KEYS_AGAIN, left, &gate));
    end(&rt, wrong);
}

// Is told how long the shortest transaction took that committed, and how many looks were answered.
#[derive(Drop)]
struct Shortest {
    micros: AtomicU64,
    looks: AtomicU64,
}

impl Watch for Shortest {
    fn turned(&self, turn: Turn) {
        if let Ended::Committed = turn.ended {
            if turn.micros < self.micros.load(Ordering::SeqCst) {
                self.micros.store(turn.micros, Ordering::SeqCst);
            }
        }
    }

    fn looked(&self, _micros: u64) {
        self.looks.fetch_add(1, Ordering::SeqCst);
    }
}

// A drive of one worker, with a stride of ten seconds and a clock that is within a tenth of one. Commit wait takes as long as a reading is
// wide, but for how far two clocks of the machine go apart meanwhile. Ceilings are logged a stride ahead: one at each shard that is looked
// at, since all is over within five seconds. And what was written after a number is the next one, at each key that was read.
#[test]
fn as_settings_say(rt: HostRuntime) {
    let mut settings = settings_of(&rt, rt.alloc(), 1, 6, 3);
    settings.stride = Stride::new(10_000_000).expect(&rt, "a stride");
    settings.epsilon = 100_000;
    let gate = Meeting::new(&rt, false);
    let watch = Shortest {
        micros: AtomicU64::new(u64::MAX),
        looks: AtomicU64::new(0),
    };
    let disks = disks_of(&rt, rt.alloc(), 2, false);
    let clock = clock_of(&rt, &settings);
    let driven = drive_by(&rt, rt.alloc(), &settings, disks, clock, &gate, &watch);
    drop(settings);
    let Driven {
        summary,
        lines,
        disks,
    } = driven.ok().expect(&rt, "a drive");
    let sum = sum_of(&lines, 1);
    drop(lines);
    let told = is_sound(&summary, 6) && are_told(&summary, 6, sum);
    let kept = Kept::of(&rt, rt.alloc(), disks);
    let shortest = watch.micros.load(Ordering::SeqCst);
    let waited = summary.counts.committed > 0 && shortest >= 199_000 && shortest < u64::MAX;
    let looks_told = watch.looks.load(Ordering::SeqCst) == summary.counts.looks;
    let ahead = kept.ceilings >= 1
        && kept.ceilings <= 2
        && sum.last > 0
        && kept.least_ceiling > sum.last.saturating_add(5_000_000);
    // Each number that was written is the next of its key, and each key was written that a commit has read.
    let counted = kept.writes > 0
        && kept.sum() == kept.writes
        && (summary.counts.unknown > 0 || kept.writes == sum.reads);
    drop(kept);
    let mut wrong = WrongRows::none(rt.alloc());
    wrong.unless(told, "what is told of transactions");
    wrong.unless(waited, "commit wait");
    wrong.unless(looks_told, "looks");
    wrong.unless(ahead, "ceilings");
    wrong.unless(counted, "numbers");
    end(&rt, wrong);
}

// Fails if nodes are served one after the other, or one letter at a time over both.
#[test]
fn nodes_in_turn(rt: HostRuntime) {
    let gate = Meeting::new(&rt, true);
    let settings = settings_of(&rt, rt.alloc(), 6, 50, 10);
    let told = run(&rt, rt.alloc(), &settings, &gate);
    drop(settings);
    let text = told.expect(&rt, "six workers");
    let sound = text.starts_with("committed ") && text.ends_with("\nverdict yes\n");
    drop(text);
    assert!(rt; sound && gate.have_met());
}

// A clock by which nobody is told that a transaction has committed. Either it has no reading, so that each letter is lost. Or its readings
// all begin at 0, so that no wait is over, and each ends later than the one before.
#[derive(Clone, Copy)]
struct Stuck<'a> {
    reached: Option<&'a AtomicU64>,
}

impl Clock for Stuck<'_> {
    fn now(&mut self) -> Option<Reading> {
        let micros = self.reached?.fetch_add(10, Ordering::SeqCst);
        let latest = Stamp::new(micros).ok()?;
        Reading::new(Stamp::zero(), latest).ok()
    }
}

// Whether a drive of one worker and one transaction by such a clock counts the right end, as the watch is told. That is an abort, or else an
// end that nobody knows. No look is answered: letters are lost, or what is decided of the key is before the look and not settled.
fn is_untold<R: Threads + Wait + time::Clock + Sync + Abort>(
    rt: &R,
    alloc: Global,
    clock: Stuck<'_>,
    aborted: u64,
) -> bool {
    let settings = settings_of(rt, alloc, 1, 1, 10);
    let gate = Meeting::new(rt, false);
    let disks = disks_of(rt, alloc, 2, false);
    let ends = Ends::none();
    let driven = drive_by(rt, alloc, &settings, disks, clock, &gate, &ends);
    drop(settings);
    let driven = driven.ok().expect(rt, "one transaction");
    let counts = driven.summary.counts;
    let untold = is_sound(&driven.summary, 1)
        && ends.are(counts)
        && counts.committed == 0
        && counts.aborted == aborted
        && counts.looks == 0;
    drop(driven);
    untold
}

// Fails if nodes lose every letter, as they do with a clock that has no reading. It also fails if an abort is counted as an end that nobody
// knows, or such an end as an abort. So it does if the watch is told of another end than is counted, or if a look that nobody answered is
// told and counted.
#[test]
fn lose_every_letter(rt: HostRuntime) {
    let gate = Meeting::new(&rt, false);
    let mut wrong = WrongRows::none(rt.alloc());
    drop(go(
        &mut wrong,
        &rt,
        rt.alloc(),
        &ONE_WORKER,
        disks_of(&rt, rt.alloc(), 2, false),
        &gate,
    ));
    let lost = Stuck { reached: None };
    wrong.unless(is_untold(&rt, rt.alloc(), lost, 1), "letters are lost");
    let reached = AtomicU64::new(10_000_000);
    let waits = Stuck {
        reached: Some(&reached),
    };
    wrong.unless(is_untold(&rt, rt.alloc(), waits, 0), "no wait is over");
    end(&rt, wrong);
}
