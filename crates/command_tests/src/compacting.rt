//! Logs that are compacted, and take the names of the old ones.
use crate::command_lines::{DONE, NO_DEVICE, NO_LOG, Output, Step, furnished, go_over, put};
use crate::verdict::end;
use made::{Folder, ONE_COMMIT, WrongRows, in_version_1, with_slots};
use std::alloc::Global;
use std::process::Abort;

const DRIVE: Step = Step {
    lines: &["drive ./files.settings"],
    output: Output::Driven(200),
    ..DONE
};

const INSPECT: Step = Step {
    lines: &["inspect ./no.lines ./shard-0.log ./shard-1.log"],
    output: Output::Yes,
    ..DONE
};

// A store, and new files of its logs. What is refused makes nothing.
static STEPS: [Step; 9] = [
    DRIVE,
    Step {
        lines: &["put ./. k0001 once"],
        output: Output::Committed,
        ..DONE
    },
    Step {
        lines: &[
            "compact ./shard-0.log ./shard-0.new",
            "compact ./shard-1.log ./shard-1.new",
        ],
        ..DONE
    },
    Step {
        lines: &["inspect ./no.lines ./shard-0.new ./shard-1.new"],
        output: Output::Yes,
        ..DONE
    },
    Step {
        lines: &[
            "compact ./shard-0.log ./shard-0.new",
            "compact ./shard-0.log ./shard-0.log",
            "compact ./missing.log ./other.log",
            "compact ./shard-0.log ./missing/new.log",
        ],
        ..NO_DEVICE
    },
    Step {
        lines: &[
            "compact ./no.lines ./other.log",
            "compact ./old.log ./other.log",
        ],
        ..NO_LOG
    },
    Step {
        lines: &["compact ./cut.log ./other.log"],
        fault: "fault: 11 Damaged at 9224\n",
        ..NO_LOG
    },
    Step {
        lines: &["dump ./other.log"],
        ..NO_DEVICE
    },
    Step {
        lines: &["compact ./turned.log ./short.log"],
        ..DONE
    },
];

// Once the new files have the names of the old ones.
static SWAPPED: [Step; 6] = [
    INSPECT,
    Step {
        lines: &["get ./. k0001"],
        output: Output::Is("=once\n"),
        ..DONE
    },
    Step {
        lines: &["put ./. k0001 twice"],
        output: Output::Committed,
        ..DONE
    },
    Step {
        lines: &["get ./. k0001"],
        output: Output::Is("=twice\n"),
        ..DONE
    },
    DRIVE,
    INSPECT,
];

// The records of a renewed log: Base 1 111 0, Version 111 a=1, Settled 1.1 111 parts 0, and a closed gate.
const RENEWED: [u8; 83] = [
    0xa5, 0, 0, 0, 25, 8, 0, 0, 0, 0, 0, 0, 0, 1, 0, 0, 0, 0, 0, 0, 0, 0x6f, 0, 0, 0, 0, 0, 0, 0,
    0, 0xa5, 0, 0, 0, 15, 9, 1, 0x61, 0, 0, 0, 0, 0, 0, 0, 0x6f, 1, 0, 1, 0x31, 0xa5, 0, 0, 0, 27,
    10, 0, 0, 0, 0, 0, 0, 0, 1, 0, 0, 0, 0, 0, 0, 0, 1, 0, 0, 0, 0, 0, 0, 0, 0x6f, 0, 1, 0,
];

// A file with these frames in its first area, and after them the renewed log, at this offset.
fn turned_over(test: &impl Abort, alloc: Global, first: &[u8], offset: [u8; 2]) -> Vec<u8> {
    let mut bytes = with_slots(alloc, first).ok().expect(test, "memory");
    let added = bytes.extend_from_slice(&RENEWED);
    added.ok().expect(test, "memory");
    let slot = [0xa5, 0, 0, 0, 0, 0, 0, offset[0], offset[1]];
    for (place, byte) in bytes.iter_mut().skip(8).zip(slot) {
        *place = byte;
    }
    bytes
}

// Makes the files that the commands name.
fn put_files(rt: &HostRuntime, test: &impl Abort, folder: &Folder) {
    let alloc = rt.alloc();
    let turned = turned_over(test, alloc, &ONE_COMMIT, [0x24, 0x60]);
    put(rt, test, folder, "turned.log", &turned);
    drop(turned);
    let cut = with_slots(alloc, b"SPNLOG02").ok().expect(test, "memory");
    put(rt, test, folder, "cut.log", &cut);
    drop(cut);
    put(rt, test, folder, "old.log", &in_version_1(ONE_COMMIT));
}

// The compaction of the log that was turned over: its records alone, from byte 9,225 on.
fn is_short(rt: &HostRuntime, test: &impl Abort, folder: &Folder) -> bool {
    let alloc = rt.alloc();
    let short = turned_over(test, alloc, b"SPNLOG02\0", [0x24, 0x09]);
    let made = short.len() == 9_308 && folder.has(rt, "short.log", &short);
    drop(short);
    let turned = turned_over(test, alloc, &ONE_COMMIT, [0x24, 0x60]);
    let stays = turned.len() == 9_395 && folder.has(rt, "turned.log", &turned);
    drop(turned);
    made && stays
}

// Fails if a compaction writes over a file that is there, changes the old one, makes an empty log, or exchanges both.
#[test]
fn compacted_logs(rt: HostRuntime) {
    let folder = furnished(&rt, &rt);
    put_files(&rt, &rt, &folder);
    let mut wrong = WrongRows::none(rt.alloc());
    go_over(&mut wrong, &rt, &rt, &folder, &STEPS);
    wrong.unless(is_short(&rt, &rt, &folder), "the files");
    if wrong.is_none() {
        for (new, old) in [
            ("shard-0.new", "shard-0.log"),
            ("shard-1.new", "shard-1.log"),
        ] {
            folder.rename(&rt, new, old).ok().expect(&rt, new);
        }
        go_over(wrong.of("swapped"), &rt, &rt, &folder, &SWAPPED);
    }
    wrong.unless(folder.remove(&rt), "the folder");
    end(&rt, wrong);
}
