//! Files of one commit that are cut, or have another byte or damaged slots: what the opening of each answers. The same for the migration
//! of such a file of version 1.
use crate::cores::{disk_with, opened, plain};
use crate::logs::{Line, with_log};
use gatelog::migrate;
use made::{FIRST_GATE, OLD_FIRST_GATE, ONE_COMMIT, SLOTS, WrongRows, in_version_1, with_slots};
use simdisk::SimDisk;
use std::alloc::Global;
use std::process::Abort;
use units::Fault;

// How many bytes after the first gate the gates of the commit, of its outcome, and of the end are.
const COMMIT: u64 = 14;

const OUTCOME: u64 = 56;

const CLOSED: u64 = 87;

// The gate of the damage in a file whose frames have fewer bytes than this, and not fewer than in the row before.
struct Cut {
    below: u64,
    gate: u64,
}

static CUTS: [Cut; 4] = [
    Cut {
        below: COMMIT,
        gate: 0,
    },
    Cut {
        below: OUTCOME,
        gate: COMMIT,
    },
    Cut {
        below: CLOSED,
        gate: OUTCOME,
    },
    Cut {
        below: CLOSED + 1,
        gate: CLOSED,
    },
];

// The answer to a file. Damage is told by the bytes from the first gate.
#[derive(Clone, Copy)]
enum Gives {
    Taken,
    DamagedAt(u64),
    Stranger,
}

// A byte by its distance from the first gate, its new value, and the answers of a migration and of an opening.
struct Altered {
    name: &'static str,
    byte: u64,
    value: u8,
    migrated: Gives,
    opened: Gives,
}

static ALTERED: [Altered; 6] = [
    // This is the file before the commit was logged, and an honest disk does not go back.
    Altered {
        name: "the gate of the commit is closed",
        byte: COMMIT,
        value: 0,
        migrated: Gives::Taken,
        opened: Gives::Taken,
    },
    Altered {
        name: "a record of no kind",
        byte: COMMIT + 5,
        value: 7,
        migrated: Gives::DamagedAt(COMMIT),
        opened: Gives::DamagedAt(COMMIT),
    },
    Altered {
        name: "the commit has another timestamp than its outcome",
        byte: COMMIT + 29,
        value: 0x70,
        migrated: Gives::Taken,
        opened: Gives::DamagedAt(OUTCOME),
    },
    Altered {
        name: "a commit of no shard",
        byte: COMMIT + 31,
        value: 0,
        migrated: Gives::DamagedAt(COMMIT),
        opened: Gives::DamagedAt(COMMIT),
    },
    Altered {
        name: "a commit of another shard",
        byte: COMMIT + 31,
        value: 2,
        migrated: Gives::Taken,
        opened: Gives::DamagedAt(COMMIT),
    },
    Altered {
        name: "a write to another shard's key",
        byte: COMMIT + 37,
        value: b'z',
        migrated: Gives::Taken,
        opened: Gives::Stranger,
    },
];

// Some slots of a file, as bytes from an offset on, and the damaged slot, if one is damaged.
struct Slots {
    name: &'static str,
    at: u64,
    bytes: &'static [u8],
    damaged: Option<u64>,
}

// The file has 9,312 bytes, in hexadecimal 2460; the first gate is at 2408, and the commit's at 2416.
static SLOTTED: [Slots; 9] = [
    Slots {
        name: "an offset behind a closed slot's gate",
        at: 8,
        bytes: &[0, 0, 0, 0, 0, 0, 0, 0x24, 0x16],
        damaged: None,
    },
    Slots {
        name: "a filled gate is closed",
        at: 8,
        bytes: &[0x37, 0, 0, 0, 0, 0, 0, 0x24, 0x16],
        damaged: None,
    },
    Slots {
        name: "an open slot of no area",
        at: 8,
        bytes: &[0xa5],
        damaged: Some(8),
    },
    Slots {
        name: "an open slot of the first area",
        at: 8,
        bytes: &[0xa5, 0, 0, 0, 0, 0, 0, 0x24, 0x08],
        damaged: Some(8),
    },
    Slots {
        name: "an open slot of the end of the file",
        at: 8,
        bytes: &[0xa5, 0, 0, 0, 0, 0, 0, 0x24, 0x60],
        damaged: Some(8),
    },
    Slots {
        name: "an open slot beyond the end of the file",
        at: 8,
        bytes: &[0xa5, 0x80, 0, 0, 0, 0, 0, 0x24, 0x16],
        damaged: Some(8),
    },
    Slots {
        name: "an open slot behind a closed one",
        at: 17,
        bytes: &[0xa5, 0, 0, 0, 0, 0, 0, 0x24, 0x16],
        damaged: Some(17),
    },
    Slots {
        name: "the last slot is open behind closed ones",
        at: FIRST_GATE - 9,
        bytes: &[0xa5, 0, 0, 0, 0, 0, 0, 0x24, 0x16],
        damaged: Some(FIRST_GATE - 9),
    },
    Slots {
        name: "the second open slot does not ascend",
        at: 8,
        bytes: &[
            0xa5, 0, 0, 0, 0, 0, 0, 0x24, 0x16, 0xa5, 0, 0, 0, 0, 0, 0, 0x24, 0x16,
        ],
        damaged: Some(17),
    },
];

/// Opens a disk as that of shard 0, and returns the answer.
pub fn opening(rt: &impl Abort, alloc: Global, disk: SimDisk) -> Result<(), Fault> {
    match opened(rt, alloc, disk, plain(0, 0)) {
        Ok(core) => {
            drop(core.stop());
            Ok(())
        }
        Err((fault, disk)) => {
            drop(disk);
            Err(fault)
        }
    }
}

fn answer(rt: &impl Abort, alloc: Global, bytes: &[u8]) -> Result<(), Fault> {
    opening(rt, alloc, disk_with(rt, alloc, bytes))
}

// Migrates a file, and opens what that gives.
fn answers(rt: &impl Abort, alloc: Global, bytes: &[u8]) -> (Result<(), Fault>, Result<(), Fault>) {
    let mut old = disk_with(rt, alloc, bytes);
    let answer = migrate(alloc, &mut old, SimDisk::new(alloc));
    drop(old);
    match answer {
        Ok(log) => (Ok(()), opening(rt, alloc, log.into_disk())),
        Err((fault, disk)) => {
            drop(disk);
            (Err(fault), Ok(()))
        }
    }
}

// The answer, by the first gate.
fn of_gate(answer: Gives, first: u64) -> Result<(), Fault> {
    match answer {
        Gives::Taken => Ok(()),
        Gives::DamagedAt(gate) => Err(Fault::Damaged {
            offset: first.saturating_add(gate),
        }),
        Gives::Stranger => Err(Fault::Stranger),
    }
}

// The file of one commit.
fn whole(rt: &impl Abort, alloc: Global) -> Vec<u8> {
    with_slots(alloc, &ONE_COMMIT).ok().expect(rt, "memory")
}

fn set(bytes: &mut [u8], byte: u64, value: u8) {
    if let Some(place) = bytes.get_mut(byte as usize) {
        *place = value;
    }
}

// The file with another byte.
fn with_byte(rt: &impl Abort, alloc: Global, byte: u64, value: u8) -> Vec<u8> {
    let mut bytes = whole(rt, alloc);
    set(&mut bytes, byte, value);
    bytes
}

// The same file in version 1.
fn old_with_byte(byte: u64, value: u8) -> [u8; 96] {
    let mut bytes = in_version_1(ONE_COMMIT);
    set(&mut bytes, byte, value);
    bytes
}

// Why a file with this first gate is refused, if this many bytes of it are left. The whole file is not refused.
fn fault_of(len: u64, first: u64) -> Option<Fault> {
    if len < OLD_FIRST_GATE {
        return Some(Fault::NotALog);
    }
    if len < first {
        let slots = (len - OLD_FIRST_GATE) / 9;
        return Some(Fault::Damaged {
            offset: OLD_FIRST_GATE + 9 * slots,
        });
    }
    for Cut { below, gate } in &CUTS {
        if len - first < *below {
            return of_gate(Gives::DamagedAt(*gate), first).err();
        }
    }
    None
}

// The first and the last slots are cut at each byte, those between at some bytes, and the frames at each byte.
fn is_tried(len: usize) -> bool {
    len < 40 || len % 97 == 0 || len > FIRST_GATE as usize - 20
}

/// Shows how a file is opened that is cut to each length, except in most of its slots. A file of version 1 is cut to each length.
pub fn cut_to_each_length(wrong: &mut WrongRows, rt: &impl Abort, alloc: Global) {
    let whole = whole(rt, alloc);
    for len in 0..whole.len() + 1 {
        if is_tried(len) {
            let said = answer(rt, alloc, &whole[..len]);
            let right = said.err() == fault_of(len as u64, FIRST_GATE);
            wrong.unless_at(right, "a file that is cut", len as u64);
        }
    }
    drop(whole);
    let old = in_version_1(ONE_COMMIT);
    for len in 0..97 {
        let (said, _) = answers(rt, alloc, &old[..len]);
        let right = said.err() == fault_of(len as u64, OLD_FIRST_GATE);
        wrong.unless_at(right, "an old file that is cut", len as u64);
    }
}

// Alters one byte: opens such a file, migrates the same in version 1, and opens what that gives.
fn compare(wrong: &mut WrongRows, rt: &impl Abort, alloc: Global, row: &Altered) {
    let bytes = with_byte(rt, alloc, FIRST_GATE.saturating_add(row.byte), row.value);
    let said = answer(rt, alloc, &bytes);
    drop(bytes);
    wrong.unless_at(said == of_gate(row.opened, FIRST_GATE), row.name, row.byte);
    let old = old_with_byte(OLD_FIRST_GATE.saturating_add(row.byte), row.value);
    let (moved, then) = answers(rt, alloc, &old);
    let right = moved == of_gate(row.migrated, OLD_FIRST_GATE)
        && (moved.is_err() || then == of_gate(row.opened, FIRST_GATE));
    wrong.unless_at(right, row.name, row.byte);
}

/// Shows how a file with one altered byte is opened, if the answer is known.
pub fn with_one_byte_altered(wrong: &mut WrongRows, rt: &impl Abort, alloc: Global) {
    for row in &ALTERED {
        compare(wrong, rt, alloc, row);
    }
    let old = answer(rt, alloc, &in_version_1(ONE_COMMIT));
    wrong.unless_at(old == Err(Fault::NotALog), "a log of version 1", 7);
    let whole = whole(rt, alloc);
    let (new, _) = answers(rt, alloc, &whole);
    drop(whole);
    wrong.unless_at(new == Err(Fault::NotALog), "a log that is migrated", 7);
    let bytes = with_byte(rt, alloc, FIRST_GATE + COMMIT, 0);
    let closed = disk_with(rt, alloc, &bytes);
    drop(bytes);
    let name = "the records before a closed gate";
    drop(with_log(wrong, alloc, closed, name, &[Line::Opened(1)], &[]));
}

/// Shows how a file with some altered slots is opened.
pub fn with_slots_altered(wrong: &mut WrongRows, rt: &impl Abort, alloc: Global) {
    for row in &SLOTTED {
        let mut bytes = whole(rt, alloc);
        let mut place = row.at;
        for byte in row.bytes {
            set(&mut bytes, place, *byte);
            place = place.saturating_add(1);
        }
        let said = answer(rt, alloc, &bytes);
        drop(bytes);
        let fault = match row.damaged {
            Some(offset) => Some(Fault::Damaged { offset }),
            None => None,
        };
        wrong.unless_at(said.err() == fault, row.name, row.at);
    }
}

// Whether the answer is an opening, or a refusal by name. Damage is at a gate of the file, or at a slot.
fn is_named(said: Result<(), Fault>, first: u64) -> bool {
    match said {
        Ok(()) | Err(Fault::NotALog | Fault::Stranger) => true,
        Err(Fault::Damaged { offset }) => {
            let gate = offset.saturating_sub(first);
            offset >= first && (gate == 0 || gate == COMMIT || gate == OUTCOME || gate == CLOSED)
        }
        Err(_) => false,
    }
}

/// Shows that 10,000 files of version 1 with another byte are migrated and then opened, or are refused by name.
pub fn ten_thousand(wrong: &mut WrongRows, rt: &impl Abort, alloc: Global) {
    for number in 0..10_000 {
        let (byte, value) = (number % 96, (number / 96 % 256) as u8);
        let (moved, then) = answers(rt, alloc, &old_with_byte(byte, value));
        let right = is_named(moved, OLD_FIRST_GATE) && is_named(then, FIRST_GATE);
        wrong.unless_at(right, "another byte of an old file", number);
    }
}

/// Shows that 2,000 files of version 2 with another byte are opened, or are refused by name.
pub fn another_byte(wrong: &mut WrongRows, rt: &impl Abort, alloc: Global) {
    for number in 0..2_000 {
        let (byte, value) = (number % 96, (number / 96 * 13 % 256) as u8);
        let place = if byte < OLD_FIRST_GATE {
            byte
        } else {
            SLOTS.saturating_add(byte)
        };
        let bytes = with_byte(rt, alloc, place, value);
        let said = answer(rt, alloc, &bytes);
        drop(bytes);
        wrong.unless_at(is_named(said, FIRST_GATE), "another byte", number);
    }
}
