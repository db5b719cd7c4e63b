//! Commands, one after the other in one folder.
use crate::verdict::end;
use cli::{Stream, program};
use made::{Folder, ONE_COMMIT, WrongRows, in_version_1, with_slots};
use std::alloc::Global;
use std::fs::File;
use std::io::Input;
use std::process::Abort;
use std::random::RandomSource;
use std::rt::Files;
use std::sync::Wait;
use std::thread::Threads;
use std::time;

/// What is printed.
#[derive(Clone, Copy)]
pub enum Output {
    /// Nothing.
    Nothing,
    /// The verdict yes.
    Yes,
    /// The counts of a drive, whose first three are of so many transactions together, and the verdict yes.
    Driven(u64),
    /// That a write is committed.
    Committed,
    /// That a write is committed, so many microseconds after a whole hundredth of a second.
    CommittedBehind(u64),
    /// A dump with outcomes of commits, each so many microseconds after a whole hundredth of a second or before one, and less than a thousand more.
    OutcomesFrom(u64),
    /// This text.
    Is(&'static str),
    /// A text that begins so.
    Begins(&'static str),
    /// A text that ends so.
    Ends(&'static str),
    /// So many lines.
    Lines(usize),
    /// More than so many lines.
    Over(usize),
}

/// Command lines, one after another, that come to the same.
#[derive(Clone, Copy)]
pub struct Step {
    /// The lines. Single spaces part the words, and a word that begins with `./` names something in the folder.
    pub lines: &'static [&'static str],
    /// What is printed to standard output.
    pub output: Output,
    /// What is printed to standard error.
    pub fault: &'static str,
    /// The exit status.
    pub status: u8,
}

/// A step that prints nothing, with status 0.
pub const DONE: Step = Step {
    lines: &[],
    output: Output::Nothing,
    fault: "",
    status: 0,
};

/// A step that is refused as `Device`.
pub const NO_DEVICE: Step = Step {
    fault: "fault: 2 Device\n",
    status: 2,
    ..DONE
};

/// A step that is refused as `NotALog`.
pub const NO_LOG: Step = Step {
    fault: "fault: 12 NotALog\n",
    status: 2,
    ..DONE
};

static STEPS: [Step; 14] = [
    Step {
        lines: &["format ./a.log"],
        ..DONE
    },
    Step {
        lines: &["format ./a.log"],
        ..NO_DEVICE
    },
    Step {
        lines: &[
            "inspect ./no.lines ./a.log",
            "inspect ./no.lines ./a.log ./a.log",
        ],
        output: Output::Yes,
        ..DONE
    },
    Step {
        lines: &["inspect ./no.lines ./no.lines"],
        ..NO_LOG
    },
    Step {
        lines: &[
            "inspect ./no.lines ./missing.log",
            "inspect ./no.lines ./folder",
            "inspect ./folder ./a.log",
            "drive ./folder",
            "drive ./missing.settings",
        ],
        ..NO_DEVICE
    },
    Step {
        lines: &[
            "drive ./memory.settings",
            "drive ./files.settings",
            "drive ./files.settings",
        ],
        output: Output::Driven(200),
        ..DONE
    },
    Step {
        lines: &["inspect ./no.lines ./shard-0.log ./shard-1.log"],
        output: Output::Yes,
        ..DONE
    },
    Step {
        lines: &["put ./. k0001 once"],
        output: Output::Committed,
        ..DONE
    },
    Step {
        lines: &["get ./. k0001"],
        output: Output::Is("=once\n"),
        ..DONE
    },
    Step {
        lines: &["put ./. k0007 far", "put ./. k0001 twice"],
        output: Output::Committed,
        ..DONE
    },
    Step {
        lines: &["get ./. k0001"],
        output: Output::Is("=twice\n"),
        ..DONE
    },
    Step {
        lines: &["history ./. k0007"],
        output: Output::Ends(" =far\n"),
        ..DONE
    },
    Step {
        lines: &["inspect ./no.lines ./shard-0.log ./shard-1.log"],
        output: Output::Yes,
        ..DONE
    },
    Step {
        lines: &["put ./folder k0001 none", "dump ./folder/store.toml"],
        ..NO_DEVICE
    },
];

// Commands that ask for a file without rights.
static CLOSED: [Step; 1] = [Step {
    lines: &[
        "format ./closed",
        "play ./closed",
        "inspect ./closed ./no.lines",
        "inspect ./no.lines ./closed",
        "drive ./closed",
    ],
    ..NO_DEVICE
}];

// What is printed of the log of one commit.
const DUMPED: &str =
    "9224 opened 1\n9238 commit 1.1 111 0 - a=1\n9280 outcome 1.1 committed 111\nclosed at 9311\n";

// Logs of version 1, one of which is cut. What is refused makes nothing.
static MIGRATIONS: [Step; 9] = [
    Step {
        lines: &["migrate ./old.log ./new.log"],
        ..DONE
    },
    Step {
        lines: &["dump ./new.log"],
        output: Output::Is(DUMPED),
        ..DONE
    },
    Step {
        lines: &["migrate ./old.log ./new.log"],
        ..NO_DEVICE
    },
    Step {
        lines: &["dump ./new.log"],
        output: Output::Is(DUMPED),
        ..DONE
    },
    Step {
        lines: &["inspect ./no.lines ./new.log"],
        output: Output::Yes,
        ..DONE
    },
    Step {
        lines: &["migrate ./old.log ./old.log"],
        ..NO_DEVICE
    },
    Step {
        lines: &[
            "dump ./old.log",
            "migrate ./new.log ./other.log",
            "migrate ./no.lines ./other.log",
        ],
        ..NO_LOG
    },
    Step {
        lines: &[
            "migrate ./cut.log ./other.log",
            "migrate ./cut.log ./new.log",
        ],
        fault: "fault: 11 Damaged at 95\n",
        ..NO_LOG
    },
    Step {
        lines: &[
            "migrate ./missing.log ./other.log",
            "migrate ./folder ./other.log",
            "migrate ./old.log ./missing/new.log",
            "dump ./other.log",
        ],
        ..NO_DEVICE
    },
];

/// The manifest of a store of two shards.
pub const MANIFEST: &[u8] =
    b"version = 1\nshards = 2\nsplits = [\"k0005\"]\nname = \"0123456789abcdef\"\n";

// Opened 1; Commit 1.1 at 111, parts 0 and 1, no reads, a=1; a closed gate. It is told without its slots.
const OF_TWO_PARTS: &[u8] =
    b"SPNLOG02\xa5\0\0\0\x09\x01\0\0\0\0\0\0\0\x01\xa5\0\0\0\x25\x04\0\0\0\0\0\0\0\x01\0\0\0\0\0\0\0\x01\
\0\0\0\0\0\0\0\x6f\0\x03\0\0\0\x01\x01\x61\x01\0\x01\x31\0";

/// An empty log, without its slots.
pub const EMPTY: &[u8] = b"SPNLOG02\0";

// A store of which one shard has lost its part of a commit: the verdict says so, and no drive goes on over it.
static TORN: [Step; 2] = [
    Step {
        lines: &["inspect ./no.lines ./shard-0.log ./shard-1.log"],
        output: Output::Is("no torn 1.1\n"),
        fault: "",
        status: 1,
    },
    Step {
        lines: &["drive ./files.settings"],
        fault: "fault: 11 Damaged at 9224\n",
        ..NO_DEVICE
    },
];

// Settings of disks in memory.
const IN_MEMORY: &str =
    "shards = 2\nsplits = [\"k0005\"]\nstride = 1000\nepsilon = 100\nworkers = 4\ntransactions = 50\nkeys = 10\n";

/// Puts a file into a folder; ends the test if it cannot.
pub fn put(rt: &HostRuntime, test: &impl Abort, folder: &Folder, name: &str, bytes: &[u8]) {
    folder.put(rt, name, bytes).ok().expect(test, name);
}

/// Makes a folder with the files that the commands name.
pub fn furnished(rt: &HostRuntime, test: &impl Abort) -> Folder {
    let folder = Folder::new(rt).ok().expect(test, "a folder");
    let dir = folder.path(rt.alloc(), ".").ok().expect(test, "memory");
    let text = format!(in rt.alloc(); "{IN_MEMORY}dir = \"{dir}\"\n");
    drop(dir);
    let text = text.ok().expect(test, "settings");
    put(rt, test, &folder, "no.lines", b"");
    put(rt, test, &folder, "memory.settings", IN_MEMORY.as_bytes());
    put(rt, test, &folder, "files.settings", text.as_bytes());
    drop(text);
    folder.put_folder(rt, "folder").ok().expect(test, "folder");
    folder
}

// Whether this is printed of a drive of so many transactions.
fn is_driven(text: &str, tried: u64) -> bool {
    let mut counted: u64 = 0;
    for count in ["committed ", "aborted ", "unknown "] {
        let found = text.lines().find_map(|line| line.strip_prefix(count));
        let Some(Ok(number)) = found.map(|number| number.parse::<u64>()) else {
            return false;
        };
        counted = counted.saturating_add(number);
    }
    counted == tried && text.lines().count() == 5 && text.ends_with("\nverdict yes\n")
}

// The timestamp that is told of a write.
fn committed(text: &str) -> Option<u64> {
    let at = text.strip_prefix("committed ")?;
    let at = at.strip_suffix("\n")?;
    at.parse::<u64>().ok()
}

// Whether one is told that is so many microseconds after a whole hundredth of a second.
fn is_behind(text: &str, micros: u64) -> bool {
    match committed(text) {
        Some(at) => at % 10_000 == micros,
        None => false,
    }
}

// Whether a dump has outcomes of commits, each at the end of a reading or at its beginning: in the thousand microseconds that begin so many after a
// whole hundredth of a second, or so many before one.
fn are_from(text: &str, micros: u64) -> bool {
    let mut count: u64 = 0;
    for line in text.lines() {
        if let Some((_, at)) = line.split_once(" committed ") {
            let Ok(at) = at.parse::<u64>() else {
                return false;
            };
            let behind = at % 10_000;
            if !begins_at(behind, micros) && !begins_at(behind, 10_000_u64.saturating_sub(micros)) {
                return false;
            }
            count = count.saturating_add(1);
        }
    }
    count > 0
}

fn begins_at(behind: u64, first: u64) -> bool {
    behind >= first && behind - first < 1_000
}

fn is_printed(text: &str, output: Output) -> bool {
    match output {
        Output::Nothing => text.is_empty(),
        Output::Yes => text == "yes\n",
        Output::Driven(tried) => is_driven(text, tried),
        Output::Committed => committed(text).is_some(),
        Output::CommittedBehind(micros) => is_behind(text, micros),
        Output::OutcomesFrom(micros) => are_from(text, micros),
        Output::Is(right) => text == right,
        Output::Begins(first) => text.starts_with(first),
        Output::Ends(last) => text.ends_with(last),
        Output::Lines(count) => text.lines().count() == count,
        Output::Over(count) => text.lines().count() > count,
    }
}

/// Splits a line into words, with the paths of what they name in the folder.
pub fn words_of(rt: &HostRuntime, test: &impl Abort, folder: &Folder, line: &str) -> Vec<String> {
    let mut words = Vec::new(rt.alloc());
    for word in line.split(' ') {
        let whole = match word.strip_prefix("./") {
            Some(name) => folder.path(rt.alloc(), name),
            None => format!(in rt.alloc(); "{word}"),
        };
        let whole = whole.ok().expect(test, "memory");
        words.push(whole).ok().expect(test, "memory");
    }
    words
}

/// Lends these words.
pub fn lent<'w>(test: &impl Abort, alloc: Global, words: &'w [String]) -> Vec<&'w str> {
    let mut lent = Vec::new(alloc);
    for word in words {
        lent.push(word.as_str()).ok().expect(test, "memory");
    }
    lent
}

// Whether this is printed to both outputs.
fn is_right(out: &[u8], err: &[u8], step: &Step) -> bool {
    let Ok(text) = str::from_utf8(out) else {
        return false;
    };
    is_printed(text, step.output) && err == step.fault.as_bytes()
}

/// Tells whether the program prints what the step says, and gives its status.
pub fn prints<
    'w,
    R: Files<File = File, Dir = <HostRuntime as Files>::Dir>
        + Eprint
        + Input
        + RandomSource
        + Threads
        + Wait
        + time::Clock
        + Sync,
>(rt: &R, alloc: Global, words: &'w [&'w str], step: &Step) -> bool {
    let mut out = Stream::new(Vec::new(alloc));
    let mut err = Stream::new(Vec::new(alloc));
    let status = program(rt, alloc, None, words, &mut out, &mut err);
    let (out, err) = (out.into_writer(), err.into_writer());
    let right = is_right(&out, &err, step) && status == step.status;
    drop(out);
    drop(err);
    right
}

/// Carries out some commands, one after another, as the program does. Each is named by its line and its place among them.
pub fn go_over<
    T: Files<File = File, Dir = <HostRuntime as Files>::Dir>
        + Eprint
        + Input
        + RandomSource
        + Threads
        + Wait
        + time::Clock
        + Sync
        + Abort,
>(wrong: &mut WrongRows, rt: &HostRuntime, test: &T, folder: &Folder, steps: &[Step]) {
    let mut place = 0u64;
    for step in steps {
        for line in step.lines {
            let whole = words_of(rt, test, folder, line);
            let words = lent(test, rt.alloc(), whole.as_slice());
            let right = prints(test, rt.alloc(), words.as_slice(), step);
            drop(words);
            drop(whole);
            wrong.unless_at(right, line, place);
            place = place.saturating_add(1);
        }
    }
}

// Fails if a command over files of the machine prints anything but its row, or gives another status.
#[test]
fn commands_over_files(rt: HostRuntime) {
    let folder = furnished(&rt, &rt);
    let mut wrong = WrongRows::none(rt.alloc());
    go_over(&mut wrong, &rt, &rt, &folder, &STEPS);
    put(&rt, &rt, &folder, "closed", b"");
    if folder.close(&rt, "closed") {
        go_over(wrong.of("closed"), &rt, &rt, &folder, &CLOSED);
    }
    wrong.unless(folder.remove(&rt), "the folder");
    end(&rt, wrong);
}

/// Puts a log into a folder, with its slots.
pub fn put_log(rt: &HostRuntime, test: &impl Abort, folder: &Folder, name: &str, bytes: &[u8]) {
    let whole = with_slots(rt.alloc(), bytes).ok().expect(test, "memory");
    put(rt, test, folder, name, &whole);
    drop(whole);
}

// It fails if a verdict of no has status 0, or a drive goes on over a log that is older than another shard says.
#[test]
fn a_drive_over_a_torn_commit(rt: HostRuntime) {
    let folder = furnished(&rt, &rt);
    put(&rt, &rt, &folder, "store.toml", MANIFEST);
    put_log(&rt, &rt, &folder, "shard-0.log", OF_TWO_PARTS);
    put_log(&rt, &rt, &folder, "shard-1.log", EMPTY);
    let mut wrong = WrongRows::none(rt.alloc());
    go_over(&mut wrong, &rt, &rt, &folder, &TORN);
    wrong.unless(folder.remove(&rt), "the folder");
    end(&rt, wrong);
}

// A file of version 1 without its closed gate.
fn without_its_end(bytes: &[u8]) -> &[u8] {
    &bytes[..bytes.len().min(95)]
}

// Fails if a migration writes over a file that is there, or changes the old one.
#[test]
fn migrated_logs(rt: HostRuntime) {
    let folder = furnished(&rt, &rt);
    let old = in_version_1(ONE_COMMIT);
    put(&rt, &rt, &folder, "old.log", &old);
    put(&rt, &rt, &folder, "cut.log", without_its_end(&old));
    let mut wrong = WrongRows::none(rt.alloc());
    go_over(&mut wrong, &rt, &rt, &folder, &MIGRATIONS);
    let stays = folder.has(&rt, "old.log", &old);
    let whole = with_slots(rt.alloc(), &ONE_COMMIT)
        .ok()
        .expect(&rt, "memory");
    let made = folder.has(&rt, "new.log", &whole);
    drop(whole);
    wrong.unless(stays && made, "the files");
    wrong.unless(folder.remove(&rt), "the folder");
    end(&rt, wrong);
}
