//! The log in its file.
use crate::checks::{Row, go_over, go_over_all, is_spelled};
use crate::devices::crash;
use crate::spellings::{CEILING, COMMIT, OPENED, OUTCOME};
use crate::steps::read_back;
use crate::text_logs::record_of;
use crate::turned::{has_slots, turn};
use disk::{Disk, Fate};
use gatelog::{Entry, GateLog};
use made::{FIRST_GATE, ONE_COMMIT, WrongRows, stamp, with_slots};
use record::Record;
use simdisk::SimDisk;
use std::alloc::Global;
use units::Fault;

/// The offset of an entry, and the bytes of its record.
pub type Place = (u64, &'static [u8]);

fn are_entries(alloc: Global, entries: &[Entry], places: &[Place]) -> bool {
    for (number, entry) in entries.iter().enumerate() {
        match places.get(number) {
            Some((offset, bytes))
                if entry.offset() == *offset && is_spelled(alloc, entry.item(), bytes) => {}
            _ => return false,
        }
    }
    entries.len() == places.len()
}

/// Opens the log on a disk. `Room` means that its entries are not these.
pub fn open<D: Disk + Drop>(alloc: Global, disk: D, places: &[Place]) -> Result<GateLog<D>, Fault> {
    match GateLog::open(alloc, disk) {
        Ok((log, entries)) => {
            let same = are_entries(alloc, &entries, places);
            drop(entries);
            if same {
                return Ok(log);
            }
            drop(log);
            Err(Fault::Room)
        }
        Err((fault, disk)) => {
            drop(disk);
            Err(fault)
        }
    }
}

/// Logs a record, while that call of the append is to fail, if one is.
pub fn put<D: Disk>(
    alloc: Global,
    log: &mut GateLog<D>,
    item: Record,
    call: Option<u64>,
) -> Result<(), Fault> {
    let staged = log.stage(alloc, item)?;
    log.arm(call);
    let logged = log.append(staged)?;
    drop(logged.spend());
    Ok(())
}

/// Tells whether all of these records were logged.
pub fn put_lines<D: Disk>(alloc: Global, log: &mut GateLog<D>, lines: &str) -> bool {
    for line in lines.lines() {
        let Some(item) = record_of(alloc, line) else {
            return false;
        };
        if put(alloc, log, item, None).is_err() {
            return false;
        }
    }
    true
}

/// What a log does.
#[derive(Clone, Copy)]
pub enum Does {
    /// It takes ceiling 200.
    Appends,
    /// It is turned over to an area of these records.
    TurnsOver(&'static str),
}

/// Records that are logged, what is done then, and what the log is when it is opened again.
#[derive(Clone, Copy)]
pub struct Case {
    pub what: &'static str,
    pub lines: &'static str,
    /// What it does then, the call of it that is to fail, if one is, and how this is answered.
    pub does: &'static [(Does, Option<u64>, Result<(), Fault>)],
    /// Records that are logged after that.
    pub behind: &'static str,
    pub is_stopped: bool,
    /// The fate of what is not synced, if there is a crash then.
    pub fate: Option<Fate>,
    /// All bytes of the file without its slots.
    pub bytes: Option<&'static [u8]>,
    /// All that its first two slots hold, and how many bytes the file has.
    pub slots: Option<(&'static [u8; 18], u64)>,
    pub places: &'static [Place],
    /// The offset of its closed gate, and how many slots are open.
    pub ends: Option<(u64, u64)>,
    /// More records that are logged then.
    pub more: &'static str,
    pub places_with_more: &'static [Place],
}

const AT_FIRST: &[Place] = &[(FIRST_GATE, OPENED)];

// The offset of the closed gate of a log that was opened once.
const BEHIND_ONE: u64 = FIRST_GATE + 14;

const WITH_CEILING: &[Place] = &[(FIRST_GATE, OPENED), (BEHIND_ONE, CEILING)];

// Ceiling 300, at the offset of the closed gate.
const WITH_HIGHER: &[Place] = &[
    (FIRST_GATE, OPENED),
    (BEHIND_ONE, &[2, 0, 0, 0, 0, 0, 0, 1, 0x2c]),
];

const COMMITTED: &[Place] = &[
    (FIRST_GATE, OPENED),
    (BEHIND_ONE, COMMIT),
    (FIRST_GATE + 56, OUTCOME),
];

// A log that was opened once.
const OPENED_ONCE: Case = Case {
    what: "a log that was opened once",
    lines: "opened 1",
    does: &[],
    behind: "",
    is_stopped: false,
    fate: None,
    bytes: None,
    slots: None,
    places: AT_FIRST,
    ends: None,
    more: "",
    places_with_more: AT_FIRST,
};

// Logs without a failure.
static WHOLE: [Case; 2] = [
    Case {
        what: "an empty log",
        lines: "",
        bytes: Some(b"SPNLOG02\0"),
        places: &[],
        places_with_more: &[],
        ..OPENED_ONCE
    },
    Case {
        what: "one commit",
        lines: "opened 1\ncommit 1.1 111 0 - a=1\noutcome 1.1 committed 111",
        bytes: Some(&ONE_COMMIT),
        places: COMMITTED,
        places_with_more: COMMITTED,
        ..OPENED_ONCE
    },
];

// A call of an append that fails.
static FAILING: [Case; 7] = [
    Case {
        what: "the first call fails",
        does: &[(Does::Appends, Some(0), Err(Fault::Device))],
        is_stopped: true,
        fate: Some(Fate::New),
        ..OPENED_ONCE
    },
    Case {
        what: "the second call fails",
        does: &[(Does::Appends, Some(1), Err(Fault::Device))],
        is_stopped: true,
        fate: Some(Fate::Filled(0xa5)),
        ..OPENED_ONCE
    },
    Case {
        what: "the third call fails, with its change lost",
        does: &[(Does::Appends, Some(2), Err(Fault::Device))],
        is_stopped: true,
        fate: Some(Fate::Old),
        ..OPENED_ONCE
    },
    Case {
        what: "the third call fails, with its change kept",
        does: &[(Does::Appends, Some(2), Err(Fault::Device))],
        is_stopped: true,
        fate: Some(Fate::New),
        places: WITH_CEILING,
        places_with_more: WITH_CEILING,
        ..OPENED_ONCE
    },
    Case {
        what: "the third call fails, with its change filled",
        does: &[(Does::Appends, Some(2), Err(Fault::Device))],
        is_stopped: true,
        fate: Some(Fate::Filled(0xa5)),
        places: WITH_CEILING,
        places_with_more: WITH_CEILING,
        ..OPENED_ONCE
    },
    Case {
        what: "the fourth call fails",
        does: &[(Does::Appends, Some(3), Err(Fault::Device))],
        is_stopped: true,
        fate: Some(Fate::Filled(0x37)),
        ..OPENED_ONCE
    },
    Case {
        what: "the fifth call fails",
        does: &[(Does::Appends, Some(4), Ok(()))],
        fate: Some(Fate::Old),
        places: WITH_CEILING,
        places_with_more: WITH_CEILING,
        ..OPENED_ONCE
    },
];

// What comes after a failure.
static BEHIND: [Case; 2] = [
    Case {
        what: "a closed gate is used again",
        does: &[(Does::Appends, Some(2), Err(Fault::Device))],
        is_stopped: true,
        fate: Some(Fate::Filled(0x37)),
        more: "ceiling 300",
        places_with_more: WITH_HIGHER,
        ..OPENED_ONCE
    },
    // The file has both entries, as it is read.
    Case {
        what: "a failure stops it",
        does: &[
            (Does::Appends, Some(3), Err(Fault::Device)),
            (Does::Appends, Some(3), Err(Fault::Stopped)),
        ],
        is_stopped: true,
        places: WITH_CEILING,
        places_with_more: WITH_CEILING,
        ..OPENED_ONCE
    },
];

// Logs the row's records, and tells whether what it does then is answered so.
fn is_filled(alloc: Global, log: &mut GateLog<SimDisk>, row: &Case) -> bool {
    if !put_lines(alloc, log, row.lines) {
        return false;
    }
    for (does, call, wanted) in row.does {
        let answer = match does {
            Does::Appends => put(alloc, log, Record::Ceiling { at: stamp(200) }, *call),
            Does::TurnsOver(lines) => turn(alloc, log, *lines, *call),
        };
        if answer != *wanted {
            return false;
        }
    }
    put_lines(alloc, log, row.behind) && log.is_stopped() == row.is_stopped
}

/// Tells whether the file on the disk is this one, which is given without its slots.
pub fn is_file<D: Disk>(alloc: Global, disk: &mut D, told: &[u8]) -> bool {
    match with_slots(alloc, told) {
        Ok(bytes) => {
            let same = read_back(alloc, disk, &bytes).is_ok();
            drop(bytes);
            same
        }
        Err(_) => false,
    }
}

// Tells whether the file is left so, after a crash if there is one.
fn is_left(alloc: Global, disk: &mut SimDisk, row: &Case) -> bool {
    if let Some(fate) = row.fate {
        crash(alloc, disk, &[fate]);
    }
    let slots = match row.slots {
        Some((slots, len)) => has_slots(disk, slots, len),
        None => true,
    };
    let bytes = match row.bytes {
        Some(told) => is_file(alloc, disk, told),
        None => true,
    };
    slots && bytes
}

// The log is filled, and opened again; then it takes more.
impl Row for Case {
    fn tell(&self, wrong: &mut WrongRows, rt: &HostRuntime) {
        let alloc = rt.alloc();
        let Ok(mut log) = GateLog::format(SimDisk::new(alloc)) else {
            return wrong.unless(false, self.what);
        };
        let filled = is_filled(alloc, &mut log, self);
        let mut disk = log.into_disk();
        let left = is_left(alloc, &mut disk, self);
        let Ok(mut again) = open(alloc, disk, self.places) else {
            return wrong.unless(false, self.what);
        };
        let ends = match self.ends {
            Some((gate, slot)) => again.gate() == gate && again.slot() == slot,
            None => true,
        };
        let logged = put_lines(alloc, &mut again, self.more) && ends;
        let kept = open(alloc, again.into_disk(), self.places_with_more).is_ok();
        wrong.unless(filled & left & logged & kept, self.what);
    }
}

/// A file, given without its slots, and what these begin with. `len` is how many of its bytes are left, if not all
/// are. Then its log has these entries, or is refused.
pub struct File {
    what: &'static str,
    told: &'static [u8],
    slots: &'static [u8],
    len: Option<u64>,
    places: &'static [Place],
    fault: Option<Fault>,
}

// A file of no record.
const EMPTY: File = File {
    what: "a file of no record",
    told: b"SPNLOG02\0",
    slots: &[],
    len: None,
    places: &[],
    fault: None,
};

const DAMAGED: Option<Fault> = Some(Fault::Damaged { offset: FIRST_GATE });

static FILES: [File; 17] = [
    File {
        what: "past the end",
        told: b"SPNLOG02\xa5\0\0\0\x09",
        fault: DAMAGED,
        ..EMPTY
    },
    File {
        what: "no gate",
        told: b"SPNLOG02",
        fault: DAMAGED,
        ..EMPTY
    },
    File {
        what: "length 0",
        told: b"SPNLOG02\xa5\0\0\0\0",
        fault: DAMAGED,
        ..EMPTY
    },
    File {
        what: "no record",
        told: b"SPNLOG02\xa5\0\0\0\x01\x09",
        fault: DAMAGED,
        ..EMPTY
    },
    File {
        what: "no slot",
        len: Some(8),
        fault: Some(Fault::Damaged { offset: 8 }),
        ..EMPTY
    },
    File {
        what: "the first slot is not whole",
        len: Some(16),
        fault: Some(Fault::Damaged { offset: 8 }),
        ..EMPTY
    },
    File {
        what: "the last slot is not whole",
        len: Some(FIRST_GATE - 1),
        fault: Some(Fault::Damaged {
            offset: FIRST_GATE - 9,
        }),
        ..EMPTY
    },
    File {
        what: "a part of the header",
        len: Some(7),
        fault: Some(Fault::NotALog),
        ..EMPTY
    },
    File {
        what: "version 1",
        told: b"SPNLOG01\0",
        fault: Some(Fault::NotALog),
        ..EMPTY
    },
    File {
        what: "version 3",
        told: b"SPNLOG03\0",
        fault: Some(Fault::NotALog),
        ..EMPTY
    },
    File {
        what: "no byte",
        told: b"",
        fault: Some(Fault::NotALog),
        ..EMPTY
    },
    File {
        what: "an empty log",
        ..EMPTY
    },
    // Files of one commit. In hexadecimal digits the commit's gate is at 2416, its outcome's at 2440, the closed one at 245f.
    File {
        what: "no slot is open",
        told: &ONE_COMMIT,
        places: COMMITTED,
        ..EMPTY
    },
    File {
        what: "an area that begins at the commit",
        told: &ONE_COMMIT,
        slots: &[0xa5, 0, 0, 0, 0, 0, 0, 0x24, 0x16],
        places: &[(BEHIND_ONE, COMMIT), (FIRST_GATE + 56, OUTCOME)],
        ..EMPTY
    },
    File {
        what: "the last open slot counts",
        told: &ONE_COMMIT,
        slots: &[
            0xa5, 0, 0, 0, 0, 0, 0, 0x24, 0x16, 0xa5, 0, 0, 0, 0, 0, 0, 0x24, 0x40,
        ],
        places: &[(FIRST_GATE + 56, OUTCOME)],
        ..EMPTY
    },
    File {
        what: "a filled gate is closed",
        told: &ONE_COMMIT,
        slots: &[
            0xa5, 0, 0, 0, 0, 0, 0, 0x24, 0x40, 0x37, 0, 0, 0, 0, 0, 0, 0x24, 0x16,
        ],
        places: &[(FIRST_GATE + 56, OUTCOME)],
        ..EMPTY
    },
    File {
        what: "an area of no record",
        told: &ONE_COMMIT,
        slots: &[0xa5, 0, 0, 0, 0, 0, 0, 0x24, 0x5f],
        places: &[],
        ..EMPTY
    },
];

/// Makes a disk with a file that is given without its slots. If a length is given, the file is cut to so many bytes.
/// `None` means that there is no memory.
pub fn disk_of(alloc: Global, told: &[u8], len: Option<u64>) -> Option<SimDisk> {
    let Ok(bytes) = with_slots(alloc, told) else {
        return None;
    };
    let mut disk = SimDisk::new(alloc);
    let written = disk.write_at(0, &bytes).is_ok();
    drop(bytes);
    let cut = match len {
        Some(len) => len <= disk.len() && disk.cut(len).is_ok(),
        None => true,
    };
    if written && cut {
        Some(disk)
    } else {
        drop(disk);
        None
    }
}

impl Row for File {
    fn tell(&self, wrong: &mut WrongRows, rt: &HostRuntime) {
        let alloc = rt.alloc();
        let Some(mut disk) = disk_of(alloc, self.told, self.len) else {
            return wrong.unless(false, self.what);
        };
        let written = self.slots.is_empty()
            || (disk.len() >= 8 && disk.write_at(8, self.slots).is_ok());
        let same = open(alloc, disk, self.places).err() == self.fault;
        wrong.unless(written & same, self.what);
    }
}

// A body that names a table costs much to prove, so a function hands each on.
fn whole() -> &'static [Case] {
    &WHOLE
}

fn failing() -> &'static [Case] {
    &FAILING
}

fn behind() -> &'static [Case] {
    &BEHIND
}

/// Checks logs that are written in a file and opened again, with and without failures.
pub fn tell_cases(wrong: &mut WrongRows, rt: &HostRuntime) {
    go_over_all(
        wrong,
        rt,
        "the log in its file",
        &[whole(), failing(), behind()],
    );
}

/// Checks which files are opened as logs, and which are refused.
pub fn tell_files(wrong: &mut WrongRows, rt: &HostRuntime) {
    go_over(wrong, rt, "files that are logs, or none", &FILES);
}
