//! Disks in memory, logs in folders, and settings of drives over them.
use crate::clients;
use gatelog::{Entry, GateLog};
use made::Folder;
use record::Record;
use settings::Settings;
use simdisk::SimDisk;
use std::alloc::Global;
use std::process::Abort;
use units::{Key, Splits, Stride};

/// Makes so many disks with an empty log, and one more without a log if `blank` is set.
pub fn disks_of(rt: &impl Abort, alloc: Global, logs: u8, blank: bool) -> Vec<SimDisk> {
    let mut disks = clients::disks_of(rt, alloc, usize::from(logs));
    if blank {
        disks.push(SimDisk::new(alloc)).ok().expect(rt, "memory");
    }
    disks
}

/// Makes the settings of two shards, which part at `k0005`, with a stride of 1,000 and a clock that is within 100 microseconds.
pub fn settings_of(
    rt: &impl Abort,
    alloc: Global,
    workers: u64,
    transactions: u64,
    keys: u64,
) -> Settings {
    let split = Key::new(b"k0005").expect(rt, "a key");
    Settings {
        splits: Splits::new(alloc, &[split]).expect(rt, "splits"),
        stride: Stride::new(1_000).expect(rt, "a stride"),
        epsilon: 100,
        workers,
        transactions,
        keys,
        dir: None,
    }
}

/// Makes the settings of a drive of one worker over a folder, in which each key is one of two. `shards` is the lines of its shards and its splits.
pub fn settings_in(
    rt: &HostRuntime,
    test: &impl Abort,
    folder: &Folder,
    shards: &str,
    transactions: u64,
) -> Settings {
    let dir = folder.path(rt.alloc(), ".").ok().expect(test, "memory");
    let text = format!(in rt.alloc();
        "{shards}\nstride = 1000\nepsilon = 100\nworkers = 1\ntransactions = {transactions}\nkeys = 2\ndir = \"{dir}\"\n"
    );
    drop(dir);
    let text = text.ok().expect(test, "settings");
    let settings = Settings::read(rt.alloc(), &text).expect(test, "settings");
    drop(text);
    settings
}

/// Reads the logs of two shards in a folder.
pub fn logs_of(rt: &HostRuntime, folder: &Folder) -> Option<[Vec<u8>; 2]> {
    let first = folder.read(rt, "shard-0.log").ok()?;
    match folder.read(rt, "shard-1.log") {
        Ok(second) => Some([first, second]),
        Err(_) => {
            drop(first);
            None
        }
    }
}

/// What logs hold: how many begin with a base, in how many ids are retired, and how many ceilings one has at least and at most.
#[derive(Clone, Copy)]
pub struct Held {
    /// How many begin with a base.
    pub bases: usize,
    /// In how many ids are retired.
    pub retired: usize,
    /// How many ceilings there are in the log that has the fewest.
    pub fewest: usize,
    /// How many there are in the one that has the most.
    pub most: usize,
}

// How many ceilings a log has, and whether ids are retired in it.
fn count(entries: &[Entry]) -> (usize, bool) {
    let mut ceilings = 0_usize;
    let mut retires = false;
    for entry in entries {
        match entry.item() {
            Record::Ceiling { .. } => ceilings = ceilings.saturating_add(1),
            Record::Retired { .. } => retires = true,
            _ => {}
        }
    }
    (ceilings, retires)
}

/// Tells what the logs on some disks hold, and gives the disks back.
pub fn held_by(rt: &impl Abort, alloc: Global, disks: Vec<SimDisk>) -> (Held, Vec<SimDisk>) {
    let mut held = Held {
        bases: 0,
        retired: 0,
        fewest: usize::MAX,
        most: 0,
    };
    let mut left = Vec::new(alloc);
    for disk in disks {
        let (log, entries) = GateLog::open(alloc, disk).ok().expect(rt, "a log");
        if let Some(entry) = entries.first() {
            if matches!(entry.item(), Record::Base { .. }) {
                held.bases = held.bases.saturating_add(1);
            }
        }
        let (ceilings, retires) = count(&entries);
        drop(entries);
        if retires {
            held.retired = held.retired.saturating_add(1);
        }
        held.fewest = held.fewest.min(ceilings);
        held.most = held.most.max(ceilings);
        left.push(log.into_disk()).ok().expect(rt, "memory");
    }
    (held, left)
}
