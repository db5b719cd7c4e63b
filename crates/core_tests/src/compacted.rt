//! Logs that are compacted: the bytes of the new file, each failing call of it, and the old file, which stays as it is.
use crate::compacted_rows::{Compacted, FAILING, Failing, REFUSED, Refused, compacted_logs};
use crate::cores::{bytes_on, disk_with, formatted, plain};
use crate::logs::with_log;
use crate::turned_rows::{COMMIT, SETTLE, TURN, left_row};
use crate::turning::{Asked, Kind, Row, crashed, found, left};
use crate::verdict::end;
use compaction::{Gathered, compact};
use disk::Disk;
use gatelog::GateLog;
use made::{WrongRows, with_slots};
use simdisk::SimDisk;
use std::alloc::Global;
use std::process::Abort;
use std::sync::Wait;
use units::Fault;

// Compares the file with these bytes.
fn compare_old(
    wrong: &mut WrongRows,
    rt: &impl Abort,
    alloc: Global,
    disk: SimDisk,
    name: &str,
    before: Vec<u8>,
) {
    let mut disk = disk;
    let after = bytes_on(rt, alloc, &mut disk);
    drop(disk);
    let same = before.as_slice() == after.as_slice();
    let len = before.len() as u64;
    drop(before);
    drop(after);
    wrong.unless_at(same, name, len);
}

// The records that are gathered from a file.
fn gathered(rt: &impl Abort, alloc: Global, old: SimDisk) -> Gathered<SimDisk> {
    match Gathered::of(alloc, old) {
        Ok(gathered) => gathered,
        Err(refused) => {
            drop(refused);
            rt.panic("a file is refused")
        }
    }
}

// The disk of the new file. The old one has to stay as it is.
fn compacted(
    wrong: &mut WrongRows,
    rt: &impl Abort,
    alloc: Global,
    old: SimDisk,
    name: &str,
) -> SimDisk {
    let mut old = old;
    let before = bytes_on(rt, alloc, &mut old);
    let (old, new, right) = ended(gathered(rt, alloc, old), SimDisk::new(alloc), 10);
    wrong.unless_at(right, name, 10);
    compare_old(wrong, rt, alloc, old, name, before);
    new
}

// The disk of a new core that was asked this.
fn begun<R: Wait + Abort>(
    wrong: &mut WrongRows,
    rt: &R,
    alloc: Global,
    name: &str,
    asks: &[Asked],
) -> SimDisk {
    let new = formatted(rt, alloc);
    left(
        wrong,
        rt,
        alloc,
        Kind::Core,
        new,
        plain(0, 0),
        name,
        &[],
        asks,
    )
}

fn go<R: Wait + Abort>(wrong: &mut WrongRows, rt: &R, alloc: Global, row: &Compacted) {
    let old = begun(wrong, rt, alloc, row.name, row.asks);
    wrong.unless_at(old.len() == row.old_size, row.name, old.len());
    let disk = compacted(wrong, rt, alloc, old, row.name);
    let new = Row {
        name: row.name,
        bytes: row.bytes,
        size: Some(row.new_size),
        log: row.log,
        again: row.again,
        ..left_row()
    };
    found(wrong, rt, alloc, Kind::Core, disk, &new);
}

// Compacts a log without records.
fn go_empty(wrong: &mut WrongRows, rt: &impl Abort, alloc: Global) {
    let name = "a log without records";
    let disk = compacted(wrong, rt, alloc, formatted(rt, alloc), name);
    wrong.unless_at(disk.len() == 9_226, name, disk.len());
    let disk = with_log(wrong, alloc, disk, name, &[], &[]);
    let disk = compacted(wrong, rt, alloc, disk, name);
    wrong.unless_at(disk.len() == 9_226, name, disk.len());
    drop(with_log(wrong, alloc, disk, name, &[], &[]));
}

// Whether the file holds as many records as the row says of a call that failed, or is no log.
fn is_held(alloc: Global, disk: SimDisk, row: &Failing, call: u64) -> bool {
    match GateLog::open(alloc, disk) {
        Ok((log, entries)) => {
            let count = entries.len();
            drop(log);
            drop(entries);
            let wanted = if call < row.all_from { 0 } else { 3 };
            call >= row.empty_from && count == wanted
        }
        Err((fault, disk)) => {
            drop(disk);
            call < row.empty_from && fault == Fault::NotALog
        }
    }
}

// Compacts to a file of which a call may fail. Returns both disks, and whether that call is the refusal: before call 5 the file is not
// laid out.
fn ended(from: Gathered<SimDisk>, to: SimDisk, call: u64) -> (SimDisk, SimDisk, bool) {
    match compact(from, to) {
        Ok((old, log)) => (old, log.into_disk(), call == 10),
        Err((fault, old, laid)) => match laid {
            Ok(log) => {
                let right = fault == Fault::Device && call >= 5 && call < 10;
                (old, log.into_disk(), right)
            }
            Err(disk) => (old, disk, fault == Fault::Device && call < 5),
        },
    }
}

// Compacts to a file of which a call fails.
fn fail<R: Wait + Abort>(wrong: &mut WrongRows, rt: &R, alloc: Global, row: &Failing, call: u64) {
    let name = "a call of the new file fails";
    let mut old = begun(wrong, rt, alloc, name, &[COMMIT, SETTLE, TURN]);
    let before = bytes_on(rt, alloc, &mut old);
    let mut to = SimDisk::new(alloc);
    to.fail_next(call);
    let (old, disk, right) = ended(gathered(rt, alloc, old), to, call);
    wrong.unless_at(right, name, call);
    compare_old(wrong, rt, alloc, old, name, before);
    let disk = crashed(rt, alloc, disk, row.fate);
    wrong.unless_at(is_held(alloc, disk, row, call), name, call);
}

// Compacts a file that is refused, and stays as it is.
fn refuse(wrong: &mut WrongRows, rt: &impl Abort, alloc: Global, row: &Refused) {
    let mut bytes = with_slots(alloc, row.told).ok().expect(rt, "memory");
    if let Some(place) = bytes.get_mut(8) {
        *place = row.slot;
    }
    let mut old = disk_with(rt, alloc, &bytes);
    if let Some(call) = row.fails {
        old.fail_next(call);
    }
    match Gathered::of(alloc, old) {
        Ok(gathered) => {
            drop(gathered);
            drop(bytes);
            wrong.unless_at(false, row.name, 0);
        }
        Err((fault, old)) => {
            wrong.unless_at(fault == row.fault, row.name, 1);
            compare_old(wrong, rt, alloc, old, row.name, bytes);
        }
    }
}

fn tell_compacted<R: Wait + Abort>(wrong: &mut WrongRows, rt: &R, alloc: Global) {
    for row in compacted_logs() {
        go(wrong, rt, alloc, row);
    }
}

fn tell_failing<R: Wait + Abort>(wrong: &mut WrongRows, rt: &R, alloc: Global) {
    for row in &FAILING {
        for call in 0..11 {
            fail(wrong, rt, alloc, row, call);
        }
    }
}

fn tell_refused(wrong: &mut WrongRows, rt: &impl Abort, alloc: Global) {
    for row in &REFUSED {
        refuse(wrong, rt, alloc, row);
    }
}

/// Shows that a compacted log holds all records, in a file of the expected length.
#[test]
fn logs_are_compacted(rt: HostRuntime) {
    let mut wrong = WrongRows::none(rt.alloc());
    tell_compacted(&mut wrong, &rt, rt.alloc());
    go_empty(&mut wrong, &rt, rt.alloc());
    end(&rt, wrong);
}

/// Shows what a failing call leaves of both files, and which files are refused.
#[test]
fn compactions_that_fail(rt: HostRuntime) {
    let mut wrong = WrongRows::none(rt.alloc());
    tell_failing(&mut wrong, &rt, rt.alloc());
    tell_refused(&mut wrong, &rt, rt.alloc());
    end(&rt, wrong);
}
