//! Files of version 1, and what they are migrated to.
use crate::checks::{Row, go_over};
use crate::devices::crash;
use crate::files::is_file;
use crate::steps::read_back;
use disk::{Disk, Fate};
use gatelog::{GateLog, migrate};
use made::{ONE_COMMIT, WrongRows, in_version_1};
use simdisk::SimDisk;
use std::alloc::Global;
use units::Fault;

/// A file, what the second disk holds before, and the file that it holds then, given without its slots; or why the
/// first is refused.
pub struct Migrated {
    what: &'static str,
    old: &'static [u8],
    before: &'static [u8],
    new: Result<&'static [u8], Fault>,
}

// A log without records.
const EMPTY: Migrated = Migrated {
    what: "a log without records",
    old: b"SPNLOG01\0",
    before: b"",
    new: Ok(b"SPNLOG02\0"),
};

// Opened 1, and a closed gate.
const OPENED: Result<&[u8], Fault> = Ok(b"SPNLOG02\xa5\0\0\0\x09\x01\0\0\0\0\0\0\0\x01\0");

const DAMAGED: Result<&[u8], Fault> = Err(Fault::Damaged { offset: 8 });

static MIGRATED: [Migrated; 13] = [
    Migrated {
        what: "no record",
        ..EMPTY
    },
    Migrated {
        what: "one record",
        old: b"SPNLOG01\xa5\0\0\0\x09\x01\0\0\0\0\0\0\0\x01\0",
        new: OPENED,
        ..EMPTY
    },
    Migrated {
        what: "what is left of a record that was not finished is left out",
        old: b"SPNLOG01\xa5\0\0\0\x09\x01\0\0\0\0\0\0\0\x01\0\0\0\0\x09\x01\0\0",
        new: OPENED,
        ..EMPTY
    },
    Migrated {
        what: "a filled gate is closed",
        old: b"SPNLOG01\xa5\0\0\0\x09\x01\0\0\0\0\0\0\0\x01\x37",
        new: OPENED,
        ..EMPTY
    },
    Migrated {
        what: "another file is cut",
        before: &[0xa5; 10_000],
        ..EMPTY
    },
    // It is not checked whether its records follow one another: an opening checks it.
    Migrated {
        what: "a record out of turn",
        old: b"SPNLOG01\xa5\0\0\0\x09\x01\0\0\0\0\0\0\0\x07\0",
        new: Ok(b"SPNLOG02\xa5\0\0\0\x09\x01\0\0\0\0\0\0\0\x07\0"),
        ..EMPTY
    },
    Migrated {
        what: "no byte",
        old: b"",
        before: b"before",
        new: Err(Fault::NotALog),
    },
    Migrated {
        what: "a part of the header",
        old: b"SPNLOG0",
        before: b"before",
        new: Err(Fault::NotALog),
    },
    Migrated {
        what: "version 2",
        old: b"SPNLOG02\0",
        before: b"before",
        new: Err(Fault::NotALog),
    },
    Migrated {
        what: "no gate",
        old: b"SPNLOG01",
        before: b"before",
        new: DAMAGED,
    },
    Migrated {
        what: "past the end",
        old: b"SPNLOG01\xa5\0\0\0\x09",
        before: b"before",
        new: DAMAGED,
    },
    Migrated {
        what: "no record behind an open gate",
        old: b"SPNLOG01\xa5\0\0\0\x01\x09\0",
        before: b"before",
        new: DAMAGED,
    },
    Migrated {
        what: "no gate behind a record",
        old: b"SPNLOG01\xa5\0\0\0\x09\x01\0\0\0\0\0\0\0\x01",
        before: b"before",
        new: Err(Fault::Damaged { offset: 22 }),
    },
];

// Makes a disk with these bytes.
fn disk_of(alloc: Global, bytes: &[u8]) -> Option<SimDisk> {
    let mut disk = SimDisk::new(alloc);
    if disk.write_at(0, bytes).is_ok() {
        Some(disk)
    } else {
        drop(disk);
        None
    }
}

// Tells whether the file on the disk is this one, and a crash leaves it.
fn is_left(alloc: Global, disk: SimDisk, told: &[u8]) -> bool {
    let mut disk = disk;
    let read = is_file(alloc, &mut disk, told);
    crash(alloc, &mut disk, &[]);
    let kept = is_file(alloc, &mut disk, told);
    drop(disk);
    read && kept
}

// Tells whether the second disk is as the row says.
fn is_right(
    alloc: Global,
    answer: Result<GateLog<SimDisk>, (Fault, SimDisk)>,
    row: &Migrated,
) -> bool {
    match answer {
        Ok(log) => {
            let disk = log.into_disk();
            match row.new {
                Ok(told) => is_left(alloc, disk, told),
                Err(_) => {
                    drop(disk);
                    false
                }
            }
        }
        Err((fault, disk)) => {
            let mut disk = disk;
            let same = read_back(alloc, &mut disk, row.before).is_ok();
            drop(disk);
            same && row.new == Err(fault)
        }
    }
}

impl Row for Migrated {
    fn tell(&self, wrong: &mut WrongRows, rt: &HostRuntime) {
        let alloc = rt.alloc();
        let Some(mut old) = disk_of(alloc, self.old) else {
            return wrong.unless(false, self.what);
        };
        let right = match disk_of(alloc, self.before) {
            Some(second) => is_right(alloc, migrate(alloc, &mut old, second), self),
            None => false,
        };
        let same = read_back(alloc, &mut old, self.old).is_ok();
        drop(old);
        wrong.unless(right && same, self.what);
    }
}

/// The disk of which a call fails, and the fate of its oldest change that is not synced, in a crash after it.
pub struct Failing {
    what: &'static str,
    is_old: bool,
    fate: Fate,
}

static FAILING: [Failing; 4] = [
    Failing {
        what: "a call of the first disk fails",
        is_old: true,
        fate: Fate::Old,
    },
    Failing {
        what: "a call of the second disk fails, and its change is lost",
        is_old: false,
        fate: Fate::Old,
    },
    Failing {
        what: "a call of the second disk fails, and its change is kept",
        is_old: false,
        fate: Fate::New,
    },
    Failing {
        what: "a call of the second disk fails, and its change is filled",
        is_old: false,
        fate: Fate::Filled(0x37),
    },
];

// Tells whether a disk has no log or the whole one after a crash.
fn is_none_or_whole(alloc: Global, disk: SimDisk, fate: Fate) -> bool {
    let mut disk = disk;
    crash(alloc, &mut disk, &[fate]);
    let whole = is_file(alloc, &mut disk, &ONE_COMMIT);
    match GateLog::open(alloc, disk) {
        Ok((log, entries)) => {
            drop(log);
            drop(entries);
            whole
        }
        Err((fault, disk)) => {
            drop(disk);
            fault == Fault::NotALog
        }
    }
}

// Tells whether both disks are right after that call fails. `None` means that no call failed.
fn goes(alloc: Global, row: &Failing, call: u64) -> Option<bool> {
    let Some(mut old) = disk_of(alloc, &in_version_1(ONE_COMMIT)) else {
        return Some(false);
    };
    let mut second = SimDisk::new(alloc);
    if row.is_old {
        old.fail_next(call);
    } else {
        second.fail_next(call);
    }
    let answer = migrate(alloc, &mut old, second);
    let same = read_back(alloc, &mut old, &in_version_1(ONE_COMMIT)).is_ok();
    drop(old);
    match answer {
        Ok(log) => {
            drop(log);
            None
        }
        Err((fault, disk)) => {
            let left = is_none_or_whole(alloc, disk, row.fate);
            Some(left && same && fault == Fault::Device)
        }
    }
}

impl Row for Failing {
    // A later call fails each time, until none does.
    fn tell(&self, wrong: &mut WrongRows, rt: &HostRuntime) {
        for call in 0..20 {
            match goes(rt.alloc(), self, call) {
                Some(true) => {}
                Some(false) => break,
                None => return wrong.unless(call > 0, self.what),
            }
        }
        wrong.unless(false, self.what);
    }
}

/// Checks what files of version 1 are copied to.
pub fn tell_migrated(wrong: &mut WrongRows, rt: &HostRuntime) {
    go_over(wrong, rt, "files of version 1", &MIGRATED);
}

/// Checks what is left if a call of one of the disks fails.
pub fn tell_failing(wrong: &mut WrongRows, rt: &HostRuntime) {
    go_over(wrong, rt, "migrations that fail", &FAILING);
}
