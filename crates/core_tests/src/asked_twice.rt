//! Shards of stories in which one call, of all, may be refused with `Memory`. It is named, has to leave all that can be read as it was,
//! and is called again. The shards are split at `m`.
use crate::nodes::is_seen;
use board::Viewer;
use disk::Disk;
use gatelog::GateLog;
use made::{key, stamp};
use message::{Envelope, Input};
use node::{Core, Desk};
use simdisk::SimDisk;
use std::alloc::Global;
use std::fmt::Display;
use std::process::Abort;
use std::sync::Wait;
use texts::Text;
use truetime::Reading;
use units::{Book, Capacity, Fault, Setup, ShardNo, Splits, Stamp, Stride, TxnId};

/// Prints a line of the stories: a word, and what follows it.
pub fn say(rt: &impl Print, word: &str, told: &impl Display) {
    let _ = println!(rt; "{word}{told}");
}

/// Names a call that was refused, and ends the test unless all is as it was before.
pub fn refused(rt: &(impl Print + Abort), name: &str, as_before: bool) {
    let word = if as_before {
        "refused: "
    } else {
        "refused, not all as before: "
    };
    say(rt, word, &name);
    assert!(rt; as_before, "{name}");
}

/// Makes the splits, with memory of their own.
pub fn splits(rt: &(impl Print + Abort), alloc: Global) -> Splits {
    for _ in 0..2 {
        match Splits::new(alloc, &[key(b'm')]) {
            Ok(splits) => return splits,
            Err(fault) => refused(rt, "splits", fault == Fault::Memory),
        }
    }
    rt.panic("splits")
}

fn setup(rt: &(impl Print + Abort), alloc: Global, number: u8) -> Setup {
    let shard = ShardNo::new(number).expect(rt, "a shard");
    let stride = Stride::new(0).expect(rt, "a stride");
    let book = Book::On(Capacity::new(16).expect(rt, "a book"));
    Setup {
        shard,
        splits: splits(rt, alloc),
        stride,
        book,
    }
}

// A new disk with an empty log.
fn formatted(rt: &(impl Print + Abort), alloc: Global) -> SimDisk {
    let mut disk = SimDisk::new(alloc);
    for _ in 0..2 {
        match GateLog::format(disk) {
            Ok(log) => return log.into_disk(),
            Err((fault, left)) => {
                refused(rt, "format", fault == Fault::Memory);
                disk = left;
            }
        }
    }
    drop(disk);
    rt.panic("no log")
}

// The core of a new shard.
fn opened(rt: &(impl Print + Abort), alloc: Global, number: u8) -> Core<SimDisk> {
    let mut disk = formatted(rt, alloc);
    let size = disk.len();
    for _ in 0..2 {
        match Core::open(alloc, disk, setup(rt, alloc, number)) {
            Ok(core) => return core,
            Err((fault, left)) => {
                let as_before = fault == Fault::Memory && left.len() == size;
                refused(rt, "open", as_before);
                disk = left;
            }
        }
    }
    drop(disk);
    rt.panic("no core")
}

/// Opens a new shard, with its viewer.
pub fn open<'r, R: Print + Wait + Abort>(
    rt: &'r R,
    alloc: Global,
    number: u8,
) -> (Desk<SimDisk, &'r R>, Vec<Viewer>) {
    let mut core = opened(rt, alloc, number);
    for _ in 0..2 {
        match Desk::new(rt, alloc, core, 1) {
            Ok(made) => return made,
            Err((fault, left)) => {
                refused(rt, "desk", fault == Fault::Memory && is_new(&left));
                core = left;
            }
        }
    }
    drop(core.stop());
    rt.panic("no desk")
}

// What can be read of a core: its epoch, its greatest timestamp and safe time, and the transactions that stand in it. Also the counts
// of its versions and of its book's pages, and the end of its log.
#[derive(Clone, Copy, PartialEq, Eq)]
struct Shown {
    epoch: u64,
    last: u64,
    safe: u64,
    prepared: u64,
    decided: u64,
    ready: bool,
    installs: usize,
    pages: usize,
    gate: u64,
}

// The timestamp of a transaction that stands, or if there is none a number that no reading has.
fn at(found: Option<(TxnId, Stamp)>) -> u64 {
    match found {
        Some((_, at)) => at.micros(),
        None => u64::MAX,
    }
}

fn seen_of(core: &Core<SimDisk>) -> Shown {
    Shown {
        epoch: core.epoch().number(),
        last: core.last().micros(),
        safe: core.safe().micros(),
        prepared: at(core.prepared(0)),
        decided: at(core.decided(0)),
        ready: core.ready().is_some(),
        installs: core.installs().len(),
        pages: match core.book() {
            Some(book) => book.pages().len(),
            None => 0,
        },
        gate: core.gate(),
    }
}

// Whether it got no input yet.
fn is_new(core: &Core<SimDisk>) -> bool {
    let shown = seen_of(core);
    shown.epoch == 1 && shown.last == 0 && shown.pages == 0 && shown.installs == 0
}

/// A shard with its board, as the stories know it.
pub trait Shard {
    /// Gives it an input, and returns what it puts out.
    fn give<R: Print + Abort>(
        &mut self,
        rt: &R,
        name: &str,
        now: &Reading,
        input: &Input,
    ) -> Vec<Envelope>;

    /// Advances it to 200. If that is refused, its viewer sees no more than before.
    fn serve<R: Print + Abort>(&mut self, rt: &R, viewers: &mut [Viewer], now: &Reading);

    /// Turns its log over, which changes nothing else.
    fn turn<R: Print + Abort>(&mut self, rt: &R);

    /// Ends it, and prints what its log holds.
    fn end<R: Print + Abort>(self, rt: &R, alloc: Global, number: u8);
}

impl<W: Wait> Shard for Desk<SimDisk, &W> {
    fn give<R: Print + Abort>(
        &mut self,
        rt: &R,
        name: &str,
        now: &Reading,
        input: &Input,
    ) -> Vec<Envelope> {
        let before = seen_of(self.core());
        for _ in 0..2 {
            match self.deliver(now, input) {
                Ok(out) => return out.into_vec(),
                Err(fault) => {
                    let as_before = fault == Fault::Memory && seen_of(self.core()) == before;
                    refused(rt, name, as_before);
                }
            }
        }
        rt.panic(name)
    }

    fn serve<R: Print + Abort>(&mut self, rt: &R, viewers: &mut [Viewer], now: &Reading) {
        for _ in 0..2 {
            match self.advance(now, stamp(200)) {
                Ok(told) => {
                    assert!(rt; told.safe() == stamp(200), "what is served");
                    return;
                }
                Err(fault) => {
                    let sees_less = is_seen(viewers, (200, Err(Fault::NotYet)));
                    refused(rt, "advance", fault == Fault::Memory && sees_less);
                }
            }
        }
        rt.panic("advance")
    }

    fn turn<R: Print + Abort>(&mut self, rt: &R) {
        let before = seen_of(self.core());
        for _ in 0..2 {
            match self.turn_over() {
                Ok(()) => {
                    let gate = self.core().gate();
                    let turned = Shown { gate, ..before };
                    assert!(rt; seen_of(self.core()) == turned, "a turnover");
                    return;
                }
                Err(fault) => {
                    let as_before = fault == Fault::Memory && seen_of(self.core()) == before;
                    refused(rt, "turnover", as_before);
                }
            }
        }
        rt.panic("turnover")
    }

    fn end<R: Print + Abort>(self, rt: &R, alloc: Global, number: u8) {
        say(rt, "log ", &number);
        let mut disk = self.close();
        for _ in 0..2 {
            match GateLog::open(alloc, disk) {
                Ok((log, entries)) => {
                    drop(log);
                    for entry in &entries {
                        say(rt, "", &Text(entry.item()));
                    }
                    return drop(entries);
                }
                Err((fault, left)) => {
                    refused(rt, "read", fault == Fault::Memory);
                    disk = left;
                }
            }
        }
        drop(disk);
        rt.panic("read")
    }
}
