//! Groups of records that join a log: what is read of a group while one of its device calls fails, and what a crash
//! leaves of it.
use crate::checks::{Row, go_over};
use crate::devices::crash;
use crate::files::{Place, is_file, open, put_lines};
use crate::spellings::{CEILING, COMMIT, OPENED, OUTCOME};
use crate::text_logs::record_of;
use disk::Fate;
use gatelog::GateLog;
use made::{FIRST_GATE, ONE_COMMIT, WrongRows};
use simdisk::SimDisk;
use std::alloc::Global;
use units::Fault;

/// Records that join a log which was opened once, its entries with them, and all bytes of the file then without its
/// slots, if these are known.
pub struct Group {
    what: &'static str,
    lines: &'static str,
    places: &'static [Place],
    bytes: Option<&'static [u8]>,
}

const AT_FIRST: &[Place] = &[(FIRST_GATE, OPENED)];

const HIGHER: &[u8] = &[2, 0, 0, 0, 0, 0, 0, 1, 0x2c];

static GROUPS: [Group; 5] = [
    Group {
        what: "a group of one record",
        lines: "commit 1.1 111 0 - a=1",
        places: &[(FIRST_GATE, OPENED), (FIRST_GATE + 14, COMMIT)],
        bytes: None,
    },
    Group {
        what: "a group of two records",
        lines: "commit 1.1 111 0 - a=1\noutcome 1.1 committed 111",
        places: &[
            (FIRST_GATE, OPENED),
            (FIRST_GATE + 14, COMMIT),
            (FIRST_GATE + 56, OUTCOME),
        ],
        bytes: Some(&ONE_COMMIT),
    },
    Group {
        what: "a group of three records",
        lines: "commit 1.1 111 0 - a=1\noutcome 1.1 committed 111\nceiling 200",
        places: &[
            (FIRST_GATE, OPENED),
            (FIRST_GATE + 14, COMMIT),
            (FIRST_GATE + 56, OUTCOME),
            (FIRST_GATE + 87, CEILING),
        ],
        bytes: None,
    },
    Group {
        what: "a group of four records",
        lines: "commit 1.1 111 0 - a=1\noutcome 1.1 committed 111\nceiling 200\nceiling 300",
        places: &[
            (FIRST_GATE, OPENED),
            (FIRST_GATE + 14, COMMIT),
            (FIRST_GATE + 56, OUTCOME),
            (FIRST_GATE + 87, CEILING),
            (FIRST_GATE + 101, HIGHER),
        ],
        bytes: None,
    },
    Group {
        what: "a group of five records",
        lines: "ceiling 200\nceiling 300\ncommit 1.1 111 0 - a=1\noutcome 1.1 committed 111\nceiling 300",
        places: &[
            (FIRST_GATE, OPENED),
            (FIRST_GATE + 14, CEILING),
            (FIRST_GATE + 28, HIGHER),
            (FIRST_GATE + 42, COMMIT),
            (FIRST_GATE + 84, OUTCOME),
            (FIRST_GATE + 115, HIGHER),
        ],
        bytes: None,
    },
];

// A call that fails, counted from the group's first write. The row has how the group is answered, and whether all of
// it is read then. It has also whether a crash leaves all of it, by the fate of the change that is not synced. A
// group that is not whole leaves no record.
struct Stop {
    what: &'static str,
    call: u64,
    answer: Result<(), Fault>,
    is_read: bool,
    is_left: &'static [(Fate, bool)],
}

// After a closed gate nothing counts.
const NEVER: &[(Fate, bool)] = &[
    (Fate::Old, false),
    (Fate::New, false),
    (Fate::Filled(0x37), false),
    (Fate::Filled(0xa5), false),
    (Fate::Filled(0), false),
];

// The one byte that is not synced is the first gate.
const BY_GATE: &[(Fate, bool)] = &[
    (Fate::Old, false),
    (Fate::New, true),
    (Fate::Filled(0x37), false),
    (Fate::Filled(0xa5), true),
    (Fate::Filled(0), false),
];

const ALWAYS: &[(Fate, bool)] = &[
    (Fate::Old, true),
    (Fate::New, true),
    (Fate::Filled(0x37), true),
    (Fate::Filled(0xa5), true),
    (Fate::Filled(0), true),
];

static STOPS: [Stop; 5] = [
    Stop {
        what: "the frames are not written",
        call: 0,
        answer: Err(Fault::Device),
        is_read: false,
        is_left: NEVER,
    },
    Stop {
        what: "the frames are not synced",
        call: 1,
        answer: Err(Fault::Device),
        is_read: false,
        is_left: NEVER,
    },
    Stop {
        what: "the first gate is not opened",
        call: 2,
        answer: Err(Fault::Device),
        is_read: false,
        is_left: BY_GATE,
    },
    Stop {
        what: "the first gate is not synced",
        call: 3,
        answer: Err(Fault::Device),
        is_read: true,
        is_left: BY_GATE,
    },
    Stop {
        what: "no call of the group fails",
        call: 4,
        answer: Ok(()),
        is_read: true,
        is_left: ALWAYS,
    },
];

// Appends these records to a log in one group, while that call of it is to fail.
fn join(alloc: Global, log: &mut GateLog<SimDisk>, lines: &str, call: u64) -> Result<(), Fault> {
    let mut group = log.group(alloc);
    let mut is_whole = true;
    for line in lines.lines() {
        match record_of(alloc, line) {
            Some(item) => match log.gather(alloc, &mut group, item) {
                Ok(joined) => drop(joined.spend()),
                Err(_) => is_whole = false,
            },
            None => is_whole = false,
        }
    }
    log.arm(Some(call));
    let answer = log.append_all(group);
    if is_whole { answer } else { Err(Fault::Memory) }
}

impl Group {
    // Tells whether the group is there, whole or not at all as wanted. First one of its calls fails, and then the
    // disk crashes, if a fate is given.
    fn ends_so(&self, alloc: Global, stop: &Stop, fate: Option<Fate>, is_whole: bool) -> bool {
        let Ok(mut log) = GateLog::format(SimDisk::new(alloc)) else {
            return false;
        };
        let opened = put_lines(alloc, &mut log, "opened 1");
        let answered = join(alloc, &mut log, self.lines, stop.call) == stop.answer;
        log.arm(None);
        let stopped = log.is_stopped() == stop.answer.is_err();
        let mut disk = log.into_disk();
        if let Some(fate) = fate {
            crash(alloc, &mut disk, &[fate]);
        }
        let same = match self.bytes {
            Some(told) if is_whole => is_file(alloc, &mut disk, told),
            _ => true,
        };
        let places = if is_whole { self.places } else { AT_FIRST };
        let left = open(alloc, disk, places).is_ok();
        opened & answered & stopped & same & left
    }

    fn is_torn_so(&self, alloc: Global, stop: &Stop) -> bool {
        for (fate, is_whole) in stop.is_left {
            if !self.ends_so(alloc, stop, Some(*fate), *is_whole) {
                return false;
            }
        }
        self.ends_so(alloc, stop, None, stop.is_read)
    }
}

// A body that names a table costs much to prove, so a function hands it on.
fn stops() -> &'static [Stop] {
    &STOPS
}

impl Row for Group {
    fn tell(&self, wrong: &mut WrongRows, rt: &HostRuntime) {
        let wrong = wrong.of(self.what);
        for stop in stops() {
            wrong.unless(self.is_torn_so(rt.alloc(), stop), stop.what);
        }
    }
}

/// Checks groups of which each call fails in turn.
pub fn tell_groups(wrong: &mut WrongRows, rt: &HostRuntime) {
    go_over(wrong, rt, "groups that join a log", &GROUPS);
}
