//! Logs in files.
use crate::disks::keeps;
use crate::files::{Place, open, put_lines};
use crate::spellings::OPENED;
use filedisk::FileDisk;
use gatelog::GateLog;
use made::{FIRST_GATE, with_slots};
use units::Fault;

// The header; Opened 1; Opened 2; a closed gate. The slots are left out.
const TWO_OPENINGS: &[u8] = &[
    0x53, 0x50, 0x4e, 0x4c, 0x4f, 0x47, 0x30, 0x32, 0xa5, 0, 0, 0, 9, 1, 0, 0, 0, 0, 0, 0, 0, 1,
    0xa5, 0, 0, 0, 9, 1, 0, 0, 0, 0, 0, 0, 0, 2, 0,
];

// The entries of this file.
const OPENINGS: &[Place] = &[
    (FIRST_GATE, OPENED),
    (FIRST_GATE + 14, &[1, 0, 0, 0, 0, 0, 0, 0, 2]),
];

// Tells whether a log is made in the file and takes its first record, and the file cannot be opened meanwhile.
fn begins(rt: &HostRuntime, path: &str) -> bool {
    let Ok(disk) = FileDisk::open(rt, path) else {
        return false;
    };
    let Ok(mut log) = GateLog::format(disk) else {
        return false;
    };
    let begun = put_lines(rt.alloc(), &mut log, "opened 1") && FileDisk::open(rt, path).is_err();
    drop(log);
    begun
}

// Tells whether it is opened with these entries, and takes more.
fn goes_on(rt: &HostRuntime, path: &str, places: &[Place], more: &str) -> bool {
    let Ok(disk) = FileDisk::open(rt, path) else {
        return false;
    };
    let Ok(mut log) = open(rt.alloc(), disk, places) else {
        return false;
    };
    let went = put_lines(rt.alloc(), &mut log, more);
    drop(log);
    went
}

/// Tells whether the file is refused, as one that is no log.
pub fn is_no_log(rt: &HostRuntime, path: &str) -> bool {
    match FileDisk::open(rt, path) {
        Ok(disk) => open(rt.alloc(), disk, &[]).err() == Some(Fault::NotALog),
        Err(_) => false,
    }
}

// Tells whether the file has the bytes of both openings.
fn is_kept(rt: &HostRuntime, path: &str) -> bool {
    match with_slots(rt.alloc(), TWO_OPENINGS) {
        Ok(bytes) => {
            let kept = keeps(rt, path, &bytes);
            drop(bytes);
            kept
        }
        Err(_) => false,
    }
}

/// Tells whether the file, once it was formatted, is opened as a log, and opened again with the record that was
/// added.
pub fn is_opened_again(rt: &HostRuntime, path: &str) -> bool {
    begins(rt, path)
        && goes_on(rt, path, &[(FIRST_GATE, OPENED)], "opened 2")
        && goes_on(rt, path, OPENINGS, "")
        && is_kept(rt, path)
}
