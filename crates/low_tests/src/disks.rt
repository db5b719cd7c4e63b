//! Disks over files.
use crate::checks::{Row, go_over};
use crate::devices::sent;
use crate::file_logs::{is_no_log, is_opened_again};
use crate::steps::{Step, Stepped, call_any, go_well, read_back};
use disk::Disk;
use filedisk::{Cause, FileDisk};
use made::{Folder, WrongRows};
use std::alloc::Global;
use std::{env, fs};
use units::Fault;

// What has a name already.
enum There {
    Nothing,
    File,
    // A file that another disk has open.
    Held,
    Folder,
}

enum Call {
    Create,
    Open,
    // For reads alone.
    Read,
}

// What the file is, when it is opened again.
enum Left {
    Anything,
    Bytes(&'static [u8]),
    NoLog,
    // A log, once it was formatted.
    Log,
    // 1 MiB and 16 bytes, once they were put there by one write.
    Long,
}

// The last 16 bytes of a long file. No two of them are alike.
const MARKS: &[u8] = b"0123456789abcdef";

/// A call that takes a file, in a folder of its own with the folder `logs` in it, and what is done with the disk.
pub struct Asked {
    what: &'static str,
    // A path in that folder; `None` is the path of a log there.
    path: Option<&'static str>,
    there: There,
    call: Call,
    // The length of the file that is taken, or why it is refused.
    wanted: Result<u64, Cause>,
    steps: &'static [Step],
    left: Left,
}

static ROWS: [Asked; 27] = [
    Asked {
        what: "a new file",
        path: None,
        there: There::Nothing,
        call: Call::Create,
        wanted: Ok(0),
        steps: &[],
        left: Left::Anything,
    },
    Asked {
        what: "a file is made anew",
        path: None,
        there: There::File,
        call: Call::Create,
        wanted: Err(Cause::Exists),
        steps: &[],
        left: Left::Anything,
    },
    Asked {
        what: "a file that is held is made anew",
        path: None,
        there: There::Held,
        call: Call::Create,
        wanted: Err(Cause::Exists),
        steps: &[],
        left: Left::Anything,
    },
    Asked {
        what: "a file is made in place of a folder",
        path: None,
        there: There::Folder,
        call: Call::Create,
        wanted: Err(Cause::Exists),
        steps: &[],
        left: Left::Anything,
    },
    Asked {
        what: "a file that is missing",
        path: None,
        there: There::Nothing,
        call: Call::Open,
        wanted: Err(Cause::NoFile),
        steps: &[],
        left: Left::Anything,
    },
    Asked {
        what: "a file",
        path: None,
        there: There::File,
        call: Call::Open,
        wanted: Ok(5),
        steps: &[],
        left: Left::Anything,
    },
    Asked {
        what: "a file that is held",
        path: None,
        there: There::Held,
        call: Call::Open,
        wanted: Err(Cause::InUse),
        steps: &[],
        left: Left::Anything,
    },
    Asked {
        what: "a folder is opened",
        path: None,
        there: There::Folder,
        call: Call::Open,
        wanted: Err(Cause::Folder),
        steps: &[],
        left: Left::Anything,
    },
    Asked {
        what: "a device is opened",
        path: Some("/dev/null"),
        there: There::Nothing,
        call: Call::Open,
        wanted: Err(Cause::NoPlainFile),
        steps: &[],
        left: Left::Anything,
    },
    Asked {
        what: "a file that is missing is read",
        path: None,
        there: There::Nothing,
        call: Call::Read,
        wanted: Err(Cause::NoFile),
        steps: &[],
        left: Left::Anything,
    },
    Asked {
        what: "a folder is read",
        path: None,
        there: There::Folder,
        call: Call::Read,
        wanted: Err(Cause::Folder),
        steps: &[],
        left: Left::Anything,
    },
    Asked {
        what: "a device is read",
        path: Some("/dev/zero"),
        there: There::Nothing,
        call: Call::Read,
        wanted: Err(Cause::NoPlainFile),
        steps: &[],
        left: Left::Anything,
    },
    Asked {
        what: "a file below a file is read",
        path: Some("/dev/null/log"),
        there: There::Nothing,
        call: Call::Read,
        wanted: Err(Cause::NoFile),
        steps: &[],
        left: Left::Anything,
    },
    Asked {
        what: "a file that is held is read, and not written to",
        path: None,
        there: There::Held,
        call: Call::Read,
        wanted: Ok(5),
        steps: &[
            Step::Holds(b"bytes"),
            Step::Fails(&Step::WriteAnywhere(5, b".")),
            Step::Fails(&Step::CutAnywhere(0)),
            Step::Sync,
            Step::Holds(b"bytes"),
        ],
        left: Left::Anything,
    },
    Asked {
        what: "log",
        path: Some("log"),
        there: There::Nothing,
        call: Call::Create,
        wanted: Ok(0),
        steps: &[],
        left: Left::Anything,
    },
    Asked {
        what: "./log",
        path: Some("./log"),
        there: There::Nothing,
        call: Call::Create,
        wanted: Ok(0),
        steps: &[],
        left: Left::Anything,
    },
    Asked {
        what: "logs/shard-0.log",
        path: Some("logs/shard-0.log"),
        there: There::Nothing,
        call: Call::Create,
        wanted: Ok(0),
        steps: &[],
        left: Left::Anything,
    },
    Asked {
        what: "missing/log",
        path: Some("missing/log"),
        there: There::Nothing,
        call: Call::Create,
        wanted: Err(Cause::NoFile),
        steps: &[],
        left: Left::Anything,
    },
    Asked {
        what: "logs/",
        path: Some("logs/"),
        there: There::Nothing,
        call: Call::Create,
        wanted: Err(Cause::Folder),
        steps: &[],
        left: Left::Anything,
    },
    Asked {
        what: "no path",
        path: Some(""),
        there: There::Nothing,
        call: Call::Create,
        wanted: Err(Cause::NoFile),
        steps: &[],
        left: Left::Anything,
    },
    Asked {
        what: "an empty file",
        path: None,
        there: There::Nothing,
        call: Call::Create,
        wanted: Ok(0),
        steps: &[Step::Holds(b""), Step::Sync],
        left: Left::Bytes(b""),
    },
    Asked {
        what: "writes behind and over each other",
        path: None,
        there: There::Nothing,
        call: Call::Create,
        wanted: Ok(0),
        steps: &[
            Step::Reserve(20),
            Step::Write(0, b"SPNLOG02"),
            Step::Write(8, b"\0frame"),
            Step::Write(8, b"\xa5"),
            Step::Write(14, b""),
            Step::Holds(b"SPNLOG02\xa5frame"),
            Step::Sync,
        ],
        left: Left::Bytes(b"SPNLOG02\xa5frame"),
    },
    Asked {
        what: "cuts",
        path: None,
        there: There::Nothing,
        call: Call::Create,
        wanted: Ok(0),
        steps: &[
            Step::Write(0, b"SPNLOG02"),
            Step::Cut(8),
            Step::Cut(3),
            Step::Holds(b"SPN"),
            Step::Write(3, b"!"),
            Step::Sync,
            Step::Holds(b"SPN!"),
        ],
        left: Left::Bytes(b"SPN!"),
    },
    Asked {
        what: "calls that the system refuses change nothing, and what is armed does nothing",
        path: None,
        there: There::Nothing,
        call: Call::Create,
        wanted: Ok(0),
        steps: &[
            Step::Write(0, b"bytes"),
            Step::Arm(Some(0)),
            Step::Fails(&Step::ReadAnywhere(2, 4)),
            Step::Fails(&Step::ReadAnywhere(u64::MAX, 1)),
            Step::Fails(&Step::WriteAnywhere(u64::MAX, b"xy")),
            Step::Fails(&Step::WriteAnywhere(1 << 63, b"x")),
            Step::Fails(&Step::CutAnywhere(u64::MAX)),
            Step::Write(5, b"."),
            Step::Sync,
            Step::Holds(b"bytes."),
        ],
        left: Left::Bytes(b"bytes."),
    },
    Asked {
        what: "a log is opened again",
        path: None,
        there: There::Nothing,
        call: Call::Create,
        wanted: Ok(0),
        steps: &[],
        left: Left::Log,
    },
    Asked {
        what: "a new file is no log",
        path: None,
        there: There::Nothing,
        call: Call::Create,
        wanted: Ok(0),
        steps: &[],
        left: Left::NoLog,
    },
    Asked {
        what: "one write of 1 MiB and 16 bytes",
        path: None,
        there: There::Nothing,
        call: Call::Create,
        wanted: Ok(0),
        steps: &[],
        left: Left::Long,
    },
];

fn is_put(rt: &HostRuntime, path: &str, there: &There) -> bool {
    match there {
        There::Nothing => true,
        There::Folder => fs::create_dir(rt, path).is_ok(),
        There::File | There::Held => fs::write(rt, path, "bytes").is_ok(),
    }
}

impl Stepped for FileDisk {
    fn called(&mut self, alloc: Global, step: &Step) -> Result<(), Fault> {
        match step {
            Step::ReadAnywhere(at, count) => { self.read_at(*at, &mut [0u8; 4][..(*count).min(4)]) }
            Step::WriteAnywhere(at, bytes) => self.write_at(*at, bytes),
            Step::CutAnywhere(len) => self.cut(*len),
            _ => call_any(alloc, self, step),
        }
    }
}

// Tells whether the file is taken with that length, and each step on it goes well.
fn goes_on(alloc: Global, taken: FileDisk, row: &Asked) -> bool {
    let mut disk = sent(taken);
    let went = row.wanted == Ok(disk.len()) && go_well(alloc, &mut disk, row.steps);
    drop(disk);
    went
}

// Tells whether the call is answered so at a path that nothing has yet.
fn is_answered_so(rt: &HostRuntime, path: &str, row: &Asked) -> bool {
    if !is_put(rt, path, &row.there) {
        return false;
    }
    let held = match row.there {
        There::Held => FileDisk::open(rt, path).ok(),
        _ => None,
    };
    let taken = match row.call {
        Call::Create => FileDisk::create(rt, path),
        Call::Open => FileDisk::open(rt, path),
        Call::Read => FileDisk::open_to_read(rt, path),
    };
    let answered = match taken {
        Ok(disk) => goes_on(rt.alloc(), disk, row),
        Err(cause) => row.wanted == Err(cause),
    };
    drop(held);
    answered
}

/// Tells whether the file has these bytes when it is opened.
pub fn keeps(rt: &HostRuntime, path: &str, bytes: &[u8]) -> bool {
    let Ok(mut disk) = FileDisk::open(rt, path) else {
        return false;
    };
    let kept = read_back(rt.alloc(), &mut disk, bytes).is_ok();
    drop(disk);
    kept
}

// Writes the bytes to the file by one write, and tells whether they are read back from the disk.
fn takes(rt: &HostRuntime, path: &str, bytes: &[u8]) -> bool {
    let Ok(mut disk) = FileDisk::open(rt, path) else {
        return false;
    };
    let taken = disk.write_at(0, bytes).is_ok()
        && disk.len() == 1_048_592
        && read_back(rt.alloc(), &mut disk, bytes).is_ok();
    drop(disk);
    taken
}

// Tells whether the file is as long as those bytes, and ends with the marks.
fn ends_so(rt: &HostRuntime, path: &str) -> bool {
    match fs::read(rt, path) {
        Ok(found) => {
            let so = found.len() == 1_048_592 && found.ends_with(MARKS);
            drop(found);
            so
        }
        Err(_) => false,
    }
}

// Writes 1 MiB of one byte and the marks after them, and tells whether the file keeps them.
fn is_long(rt: &HostRuntime, path: &str) -> bool {
    let Ok(mut bytes) = Vec::from_elem(rt.alloc(), 0x5au8, 1_048_576) else {
        return false;
    };
    let long = bytes.extend_from_slice(MARKS).is_ok()
        && takes(rt, path, &bytes)
        && ends_so(rt, path)
        && keeps(rt, path, &bytes);
    drop(bytes);
    long
}

fn is_left(rt: &HostRuntime, path: &str, left: &Left) -> bool {
    match left {
        Left::Anything => true,
        Left::Bytes(bytes) => keeps(rt, path, bytes),
        Left::NoLog => is_no_log(rt, path),
        Left::Log => is_opened_again(rt, path),
        Left::Long => is_long(rt, path),
    }
}

// Tells whether in that folder the call is answered so, and the file is left so.
fn is_so(rt: &HostRuntime, folder: &Folder, row: &Asked) -> bool {
    let (Ok(dir), Ok(log)) = (
        folder.path(rt.alloc(), "."),
        folder.path(rt.alloc(), "shard-0.log"),
    ) else {
        return false;
    };
    let path = row.path.unwrap_or(log.as_str());
    let so = env::set_current_dir(rt, dir.as_str()).is_ok()
        && fs::create_dir(rt, "logs").is_ok()
        && is_answered_so(rt, path, row)
        && is_left(rt, path, &row.left);
    drop(dir);
    drop(log);
    so
}

impl Row for Asked {
    fn tell(&self, wrong: &mut WrongRows, rt: &HostRuntime) {
        let Ok(folder) = Folder::new(rt) else {
            return wrong.unless(false, self.what);
        };
        let so = is_so(rt, &folder, self);
        wrong.unless(folder.remove(rt) & so, self.what);
    }
}

/// Checks how files are made and opened, and what the disks over them do.
pub fn tell_files(wrong: &mut WrongRows, rt: &HostRuntime) {
    go_over(wrong, rt, "disks over files", &ROWS);
}
