//! Why a disk over a file failed, as others are told.
use crate::checks::{Row, go_over};
use crate::devices::sent;
use crate::steps::{Step, go_well};
use disk::Disk;
use filedisk::{Cause, FileDisk};
use made::{Folder, WrongRows};
use std::alloc::Global;

// A plain file of Linux that takes these bytes, its default, and refuses each sync.
const UNSYNCED: &str = "/proc/self/coredump_filter";

const ITS_BYTES: &[u8] = b"51";

// A write beyond the length that ext4 and other file systems allow.
const TOO_FAR: Step = Step::WriteAnywhere(1 << 60, b"x");

/// A disk over a file, what is done with it, and why the last of its calls that failed did so.
pub struct Told {
    what: &'static str,
    // The file; `None` is a new one.
    path: Option<&'static str>,
    // What is done before anybody asks for causes, and after that.
    before: &'static [Step],
    after: &'static [Step],
    wanted: Option<Cause>,
}

// A new file, of which no call fails.
const WHOLE: Told = Told {
    what: "no call fails",
    path: None,
    before: &[],
    after: &[Step::Write(0, b"log"), Step::Sync, Step::Holds(b"log")],
    wanted: None,
};

static ROWS: [Told; 4] = [
    WHOLE,
    Told {
        what: "a read past the end",
        after: &[
            Step::Write(0, b"log"),
            Step::Fails(&Step::ReadAnywhere(2, 4)),
        ],
        wanted: Some(Cause::Failed),
        ..WHOLE
    },
    Told {
        what: "a sync that fails",
        path: Some(UNSYNCED),
        after: &[Step::Write(0, ITS_BYTES), Step::Fails(&Step::Sync)],
        wanted: Some(Cause::Failed),
        ..WHOLE
    },
    Told {
        what: "a write that succeeds after a sync that failed, and the next sync",
        path: Some(UNSYNCED),
        before: &[Step::Fails(&Step::Sync)],
        after: &[Step::Write(0, ITS_BYTES), Step::Fails(&Step::Sync)],
        wanted: Some(Cause::Failed),
    },
];

// These files are on a file system that limits their length.
static FULL: [Told; 4] = [
    Told {
        what: "a write without room",
        after: &[Step::Write(0, b"log"), Step::Fails(&TOO_FAR)],
        wanted: Some(Cause::NoRoom),
        ..WHOLE
    },
    Told {
        what: "calls that succeed after that",
        after: &[
            Step::Fails(&TOO_FAR),
            Step::Write(0, b"log"),
            Step::Sync,
            Step::Holds(b"log"),
        ],
        wanted: Some(Cause::NoRoom),
        ..WHOLE
    },
    Told {
        what: "a write without room before anybody asks",
        before: &[Step::Fails(&TOO_FAR)],
        wanted: Some(Cause::NoRoom),
        ..WHOLE
    },
    Told {
        what: "a read past the end after a write without room",
        before: &[Step::Fails(&TOO_FAR)],
        after: &[Step::Fails(&Step::ReadAnywhere(0, 1))],
        wanted: Some(Cause::Failed),
        ..WHOLE
    },
];

// Tells whether each step goes so, and that cause is told: by the disk, and once it is dropped to whoever asked last. Who asked before
// that hears of nothing more.
fn is_told(alloc: Global, disk: FileDisk, row: &Told) -> bool {
    let mut disk = sent(disk);
    let began = go_well(alloc, &mut disk, row.before);
    let asked = disk.cause();
    let (Ok(first), Ok(last)) = (disk.share_cause(alloc), disk.share_cause(alloc)) else {
        drop(disk);
        return false;
    };
    let went = began && go_well(alloc, &mut disk, row.after);
    let known = disk.cause() == row.wanted;
    drop(disk);
    let told = last.get() == row.wanted && first.get() == asked;
    drop(first);
    drop(last);
    went & known & told
}

fn is_so(rt: &HostRuntime, folder: &Folder, row: &Told) -> bool {
    let taken = match row.path {
        Some(path) => FileDisk::open(rt, path).ok(),
        None => new_in(rt, folder),
    };
    match taken {
        Some(disk) => is_told(rt.alloc(), disk, row),
        None => false,
    }
}

// A new file in the folder.
fn new_in(rt: &HostRuntime, folder: &Folder) -> Option<FileDisk> {
    let path = folder.path(rt.alloc(), "log").ok()?;
    let made = FileDisk::create(rt, &path).ok();
    drop(path);
    made
}

impl Row for Told {
    fn tell(&self, wrong: &mut WrongRows, rt: &HostRuntime) {
        let Ok(folder) = Folder::new(rt) else {
            return wrong.unless(false, self.what);
        };
        let so = is_so(rt, &folder, self);
        wrong.unless(folder.remove(rt) & so, self.what);
    }
}

// Whether the file system limits the length of a file so that a write may be too far.
fn is_limited(rt: &HostRuntime) -> bool {
    let Ok(folder) = Folder::new(rt) else {
        return true;
    };
    let limited = match new_in(rt, &folder) {
        Some(disk) => {
            let mut disk = disk;
            let far = disk.write_at(1 << 60, b"x").is_err();
            drop(disk);
            far
        }
        None => true,
    };
    folder.remove(rt) & limited
}

/// Checks why disks over files are told to have failed. What a full file system says is checked on one that limits the length of files.
pub fn tell_causes(wrong: &mut WrongRows, rt: &HostRuntime) {
    go_over(wrong, rt, "why a file failed", &ROWS);
    if is_limited(rt) {
        go_over(wrong, rt, "why a full file failed", &FULL);
    }
}
