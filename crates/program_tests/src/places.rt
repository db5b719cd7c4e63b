//! In which file the faults of commands lie.
use crate::files::all_files;
use crate::given::{Memory, words_of};
use commands::place_of;
use made::{FIRST_GATE, WrongRows};
use std::alloc::Global;
use units::{Fault, Reason};

// A command line, the fault for which it was refused, and the place of that: an empty text if nobody can say.
struct Row {
    line: &'static str,
    fault: Fault,
    place: &'static str,
}

// Faults of files.
static OF_FILES: [Row; 14] = [
    Row {
        line: "play missing",
        fault: Fault::Device,
        place: "--> missing",
    },
    Row {
        line: "format empty",
        fault: Fault::Device,
        place: "--> empty",
    },
    Row {
        line: "dump cut.log",
        fault: Fault::Damaged { offset: FIRST_GATE },
        place: "--> cut.log",
    },
    Row {
        line: "inspect wrong.lines opened.log",
        fault: Fault::BadRequest(Reason::Syntax(2)),
        place: "--> wrong.lines:2",
    },
    Row {
        line: "inspect missing opened.log",
        fault: Fault::Device,
        place: "--> missing",
    },
    Row {
        line: "inspect right.lines done.log missing",
        fault: Fault::Device,
        place: "--> missing",
    },
    Row {
        line: "inspect empty done.log old_version.log",
        fault: Fault::NotALog,
        place: "--> old_version.log",
    },
    Row {
        line: "stats done.log old_version.log",
        fault: Fault::NotALog,
        place: "--> old_version.log",
    },
    Row {
        line: "migrate old_cut.log new.log",
        fault: Fault::Damaged { offset: 8 },
        place: "--> old_cut.log",
    },
    Row {
        line: "migrate missing opened.log",
        fault: Fault::Device,
        place: "--> missing",
    },
    Row {
        line: "migrate old_version.log opened.log",
        fault: Fault::Device,
        place: "--> opened.log",
    },
    Row {
        line: "compact cut.log new.log",
        fault: Fault::Damaged { offset: FIRST_GATE },
        place: "--> cut.log",
    },
    Row {
        line: "compact missing opened.log",
        fault: Fault::Device,
        place: "--> missing",
    },
    Row {
        line: "compact done.log opened.log",
        fault: Fault::Device,
        place: "--> opened.log",
    },
];

// Faults of nobody, and of stores.
static OF_STORES: [Row; 10] = [
    Row {
        line: "dump opened.log",
        fault: Fault::Memory,
        place: "",
    },
    Row {
        line: "once a 1 100 110 112 121",
        fault: Fault::TimeSpent,
        place: "",
    },
    Row {
        line: "put --bytes one a \\x7",
        fault: Fault::BadRequest(Reason::Command),
        place: "--> VALUE has a backslash that spells no byte: write '\\x5c' for a backslash\n\
            usage: shards put [--raw] [--bytes] DIR KEY VALUE",
    },
    Row {
        line: "get missing a",
        fault: Fault::Device,
        place: "--> missing/store.toml",
    },
    Row {
        line: "get none a",
        fault: Fault::Device,
        place: "--> none/shard-0.log",
    },
    Row {
        line: "get swapped a",
        fault: Fault::Stranger,
        place: "--> swapped/shard-0.log",
    },
    Row {
        line: "history two z",
        fault: Fault::Device,
        place: "--> two/shard-1.log",
    },
    Row {
        line: "history unnamed a",
        fault: Fault::BadRequest(Reason::Settings),
        place: "--> unnamed/store.toml",
    },
    Row {
        line: "put missing a 1",
        fault: Fault::Device,
        place: "--> missing/store.toml",
    },
    Row {
        line: "put one a 1",
        fault: Fault::Device,
        place: "--> one",
    },
];

// Faults of schedules and of settings.
static OF_RUNS: [Row; 9] = [
    Row {
        line: "play a.schedule",
        fault: Fault::BadRequest(Reason::Syntax(6)),
        place: "--> a.schedule:6",
    },
    Row {
        line: "play a.schedule",
        fault: Fault::BadRequest(Reason::Unlawful(0)),
        place: "--> a.schedule:5",
    },
    Row {
        line: "play a.schedule",
        fault: Fault::BadRequest(Reason::Unlawful(1)),
        place: "--> a.schedule:6",
    },
    Row {
        line: "drive wrong.settings",
        fault: Fault::BadRequest(Reason::Settings),
        place: "--> wrong.settings:1: 'shards' has to be a whole number from 1 to 16",
    },
    Row {
        line: "drive missing",
        fault: Fault::Device,
        place: "--> missing",
    },
    Row {
        line: "drive memory.settings",
        fault: Fault::Device,
        place: "",
    },
    Row {
        line: "drive files.settings",
        fault: Fault::BadRequest(Reason::Settings),
        place: "--> kept/store.toml",
    },
    Row {
        line: "drive files.settings",
        fault: Fault::Device,
        place: "--> kept",
    },
    Row {
        line: "drive files.settings",
        fault: Fault::Damaged { offset: FIRST_GATE },
        place: "--> kept/shard-1.log",
    },
];

// A body that names a table costs much to prove, so each is handed on.
fn of_files() -> &'static [Row] {
    &OF_FILES
}

fn of_stores() -> &'static [Row] {
    &OF_STORES
}

fn of_runs() -> &'static [Row] {
    &OF_RUNS
}

// Whether the fault lies in the place that the row names.
fn lies(alloc: Global, row: &Row) -> bool {
    let Ok(words) = words_of(alloc, row.line) else {
        return false;
    };
    let place = place_of(
        alloc,
        &Memory {
            files: &all_files(),
        },
        &words,
        row.fault,
    );
    drop(words);
    match place {
        Some(place) => place.as_str() == row.place,
        None => row.place.is_empty(),
    }
}

/// Goes over all rows, each named by its line and its number.
pub fn go_over(wrong: &mut WrongRows, alloc: Global) {
    let mut number: u64 = 0;
    for rows in [of_files(), of_stores(), of_runs()] {
        for row in rows {
            wrong.unless_at(lies(alloc, row), row.line, number);
            number = number.saturating_add(1);
        }
    }
}
