//! Logs that are read while another thread writes to them.
use filedisk::FileDisk;
use gatelog::{Area, Entry, GateLog};
use host_files::{LogFile, at_one_moment};
use made::{Folder, stamp, with_slots};
use record::Record;
use std::alloc::Global;
use std::thread::Threads;
use std::{fs, thread};
use units::Fault;

// How many ceilings a log holds at first: more than are read at once.
const FIRST: u32 = 7_000;

// The last ceiling that is written.
const LAST: u32 = 7_240;

// The logs are renewed each time that so many ceilings were written, if they are renewed at all.
const TURN: u32 = 40;

// The most reads, which is more than a test has time for, since a device may be slow.
const MOST_READS: u32 = 2_000_000;

// Makes the record of a ceiling, in a frame whose gate is open.
fn frame_of(number: u32) -> [u8; 14] {
    let [first, second, third, fourth] = number.to_be_bytes();
    [
        0xa5, 0, 0, 0, 9, 2, 0, 0, 0, 0, first, second, third, fourth,
    ]
}

// Makes the bytes of a log that holds the first ceilings.
fn first_bytes(alloc: Global) -> Result<Vec<u8>, Fault> {
    let mut told = Vec::new(alloc);
    told.extend_from_slice(b"SPNLOG02")?;
    for number in 1..FIRST + 1 {
        told.extend_from_slice(&frame_of(number))?;
    }
    told.push(0)?;
    Ok(with_slots(alloc, &told)?)
}

// Opens a log that may be written to.
fn opened(rt: &HostRuntime, path: &str) -> Result<GateLog<FileDisk>, Fault> {
    match GateLog::open(rt.alloc(), FileDisk::open(rt, path)?) {
        Ok((log, entries)) => {
            drop(entries);
            Ok(log)
        }
        Err((fault, disk)) => {
            drop(disk);
            Err(fault)
        }
    }
}

// What becomes of the logs each time that `TURN` ceilings were written: they grow on, are renewed in their files, or go on in new files.
#[derive(Clone, Copy)]
enum Way {
    Grow,
    Renew,
    Move,
}

// The area of a renewed log: it holds this ceiling alone.
fn area_of(alloc: Global, number: u32) -> Result<Area, Fault> {
    let mut area = Area::new(alloc);
    area.push(&Record::Ceiling { at: stamp(number) })?;
    Ok(area)
}

// Makes a new file with a renewed log, which gets the name of the former one.
fn moved(rt: &HostRuntime, path: &str, number: u32) -> Result<GateLog<FileDisk>, Fault> {
    let alloc = rt.alloc();
    let copy = format!(in alloc; "{path}.copy")?;
    let mut log = match GateLog::format(FileDisk::create(rt, &copy)?) {
        Ok(log) => log,
        Err((fault, disk)) => {
            drop(disk);
            return Err(fault);
        }
    };
    let staged = log.stage_area(area_of(alloc, number)?)?;
    log.turn_over(staged)?;
    match fs::rename(rt, &copy, path) {
        Ok(()) => Ok(log),
        Err(_) => Err(Fault::Device),
    }
}

// Logs a ceiling, and renews the log if it is to be: then it holds that ceiling alone.
fn put(
    rt: &HostRuntime,
    path: &str,
    log: &mut GateLog<FileDisk>,
    number: u32,
    way: Way,
) -> Result<(), Fault> {
    let alloc = rt.alloc();
    let item = Record::Ceiling { at: stamp(number) };
    let staged = log.stage(alloc, item)?;
    drop(log.append(staged)?.spend());
    match way {
        Way::Renew if number % TURN == 0 => {
            let staged = log.stage_area(area_of(alloc, number)?)?;
            log.turn_over(staged)
        }
        Way::Move if number % TURN == 0 => {
            *log = moved(rt, path, number)?;
            Ok(())
        }
        _ => Ok(()),
    }
}

// Logs the other ceilings in both logs, each of them in the second log first.
fn write(rt: &HostRuntime, paths: [&str; 2], way: Way) -> Result<(), Fault> {
    let mut low = opened(rt, paths[0])?;
    let mut high = opened(rt, paths[1])?;
    for number in FIRST + 1..LAST + 1 {
        put(rt, paths[1], &mut high, number, way)?;
        put(rt, paths[0], &mut low, number, way)?;
    }
    drop(low);
    drop(high);
    Ok(())
}

// Gives the last ceiling of some entries.
fn last_of(entries: &[Entry]) -> Option<u64> {
    match entries.last()?.item() {
        Record::Ceiling { at } => Some(at.micros()),
        _ => None,
    }
}

// Gives the last ceiling of a log that is open for reads alone.
fn last_in(alloc: Global, log: LogFile) -> Result<Option<u64>, Fault> {
    match GateLog::open(alloc, log) {
        Ok((log, entries)) => {
            drop(log.into_disk());
            let last = last_of(&entries);
            drop(entries);
            Ok(last)
        }
        Err((fault, disk)) => {
            drop(disk);
            Err(fault)
        }
    }
}

// Opens the log in a file, for reads alone.
fn opened_to_read(rt: &HostRuntime, path: &str) -> Result<LogFile, Fault> {
    match LogFile::open(rt, rt.alloc(), path) {
        Ok(log) => Ok(log),
        Err(refused) => Err(refused.fault),
    }
}

// Gives the last ceilings of both logs, as they stand at one moment.
fn read(rt: &HostRuntime, paths: [&str; 2]) -> Result<Option<(u64, u64)>, Fault> {
    let alloc = rt.alloc();
    let mut logs = [opened_to_read(rt, paths[0])?, opened_to_read(rt, paths[1])?];
    at_one_moment(rt, alloc, &mut logs)?;
    let [low, high] = logs;
    let low = last_in(alloc, low);
    let high = last_in(alloc, high)?;
    Ok(match (low?, high) {
        (Some(low), Some(high)) => Some((low, high)),
        _ => None,
    })
}

// Reads until all is there, and tells whether each read is of one moment. The second log is then as far as the first
// one, or one ceiling ahead. The first log is never less far than before.
fn read_all(rt: &HostRuntime, paths: [&str; 2]) -> bool {
    let mut former = 0;
    for _ in 0..MOST_READS {
        let Ok(Some((low, high))) = read(rt, paths) else {
            return false;
        };
        if low < former || high < low || high - low > 1 {
            return false;
        }
        if low == u64::from(LAST) {
            return true;
        }
        former = low;
    }
    false
}

// Tells whether two logs of a folder, which one thread writes to, are each read as they stood at one moment.
fn are_read<R: Threads + Sync>(
    rt: &HostRuntime,
    threads: &R,
    folder: &Folder,
    way: Way,
) -> Result<bool, Fault> {
    let alloc = rt.alloc();
    let bytes = first_bytes(alloc)?;
    let put = folder.put(rt, "low", &bytes).is_ok() && folder.put(rt, "high", &bytes).is_ok();
    drop(bytes);
    let low = folder.path(alloc, "low")?;
    let high = folder.path(alloc, "high")?;
    let paths = [low.as_str(), high.as_str()];
    let (written, read) = thread::join(threads, || write(rt, paths, way), || read_all(rt, paths));
    drop(low);
    drop(high);
    written?;
    Ok(put && read)
}

/// Tells whether logs are read beside a thread that appends to them.
pub fn are_read_beside_appends<R: Threads + Sync>(
    rt: &HostRuntime,
    threads: &R,
    folder: &Folder,
) -> bool {
    are_read(rt, threads, folder, Way::Grow) == Ok(true)
}

/// Tells whether logs are read beside a thread that renews them too.
pub fn are_read_beside_turnovers<R: Threads + Sync>(
    rt: &HostRuntime,
    threads: &R,
    folder: &Folder,
) -> bool {
    are_read(rt, threads, folder, Way::Renew) == Ok(true)
}

/// Tells whether logs are read beside a thread that puts renewed logs in their places.
pub fn are_read_beside_moves<R: Threads + Sync>(
    rt: &HostRuntime,
    threads: &R,
    folder: &Folder,
) -> bool {
    are_read(rt, threads, folder, Way::Move) == Ok(true)
}
