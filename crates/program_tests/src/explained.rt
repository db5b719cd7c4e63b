//! Words that are refused, with what is told of them: what is missing, wrong or too much, and how the command is called.
use crate::files::all_files;
use crate::given::{AMPLE, Memory, print, words_of};
use commands::place_of;
use made::WrongRows;
use std::alloc::Global;
use units::{Fault, Reason};

// How a command is called, and lines that are refused: each with its reason, and with what is told of it.
struct Usage {
    usage: &'static str,
    rows: &'static [(&'static str, Reason, &'static str)],
}

static GET: Usage = Usage {
    usage: "get [--raw] [--json] DIR KEY [AT]",
    rows: &[
        ("get", Reason::Command, "DIR is missing"),
        ("get one", Reason::Command, "KEY is missing"),
        ("get --raw one", Reason::Command, "KEY is missing"),
        ("get -- one", Reason::Command, "KEY is missing"),
        ("get one a 5 6", Reason::Command, "'6' is one word too many"),
        (
            "get one a 5 6 7",
            Reason::Command,
            "'6' is one word too many",
        ),
        (
            "get --row one a",
            Reason::Command,
            "'--row' is no option of this command",
        ),
        (
            "get one a --bytes",
            Reason::Command,
            "'--bytes' is no option of this command",
        ),
        (
            "get one a -5",
            Reason::Command,
            "'-5' is no option of this command",
        ),
        (
            "get one a x",
            Reason::Command,
            "AT is a whole number of microseconds, and not 'x'",
        ),
        (
            "get one a 05",
            Reason::Command,
            "AT is a whole number of microseconds, and not '05'",
        ),
        (
            "get one a 1.5",
            Reason::Command,
            "AT is a whole number of microseconds, and not '1.5'",
        ),
        (
            "get one a 4611686018427387904",
            Reason::Stamp,
            "AT is a number of microseconds below 2^62, and not 4611686018427387904",
        ),
        (
            "get one a 99999999999999999999",
            Reason::Stamp,
            "AT is a number of microseconds below 2^62, and not 99999999999999999999",
        ),
        (
            "get --json --raw one a",
            Reason::Command,
            "'--raw' and '--json' exclude each other",
        ),
        ("get one ", Reason::Key, "KEY has 1 to 64 bytes, and not 0"),
        (
            "get one kkkkkkkkkkkkkkkkkkkkkkkkkkkkkkkkkkkkkkkkkkkkkkkkkkkkkkkkkkkkkkkkk",
            Reason::Key,
            "KEY has 1 to 64 bytes, and not 65",
        ),
    ],
};

static PUT: Usage = Usage {
    usage: "put [--raw] [--bytes] DIR KEY VALUE",
    rows: &[
        ("put", Reason::Command, "DIR is missing"),
        ("put one", Reason::Command, "KEY is missing"),
        ("put one a", Reason::Command, "VALUE is missing"),
        ("put --bytes one a", Reason::Command, "VALUE is missing"),
        ("put one a 1 2", Reason::Command, "'2' is one word too many"),
        (
            "put one a -5",
            Reason::Command,
            "'-5' is no option of this command",
        ),
        (
            "put --json one a 1",
            Reason::Command,
            "'--json' is no option of this command",
        ),
        (
            "put --raw one a 1 --bytes",
            Reason::Command,
            "'--raw' and '--bytes' exclude each other",
        ),
        (
            "put one a\\x6 1",
            Reason::Command,
            "KEY has a backslash that spells no byte: write '\\x5c' for a backslash",
        ),
        (
            "put one a c:\\temp",
            Reason::Command,
            "VALUE has a backslash that spells no byte: write '\\x5c' for a backslash",
        ),
        (
            "put --raw one \\ c:\\temp",
            Reason::Command,
            "KEY has a backslash that spells no byte: write '\\x5c' for a backslash",
        ),
        (
            "put one  1",
            Reason::Key,
            "KEY has 1 to 64 bytes, and not 0",
        ),
        (
            "put one kkkkkkkkkkkkkkkkkkkkkkkkkkkkkkkkkkkkkkkkkkkkkkkkkkkkkkkkkkkkkkkkk 1",
            Reason::Key,
            "KEY has 1 to 64 bytes, and not 65",
        ),
    ],
};

static HISTORY: Usage = Usage {
    usage: "history [--json] DIR KEY",
    rows: &[
        ("history", Reason::Command, "DIR is missing"),
        ("history one", Reason::Command, "KEY is missing"),
        (
            "history one a 5",
            Reason::Command,
            "'5' is one word too many",
        ),
        (
            "history --raw one a",
            Reason::Command,
            "'--raw' is no option of this command",
        ),
        (
            "history one a\\ab",
            Reason::Command,
            "KEY has a backslash that spells no byte: write '\\x5c' for a backslash",
        ),
        (
            "history one ",
            Reason::Key,
            "KEY has 1 to 64 bytes, and not 0",
        ),
    ],
};

static STATS: Usage = Usage {
    usage: "stats [--json] LOG..",
    rows: &[
        ("stats", Reason::Command, "LOG is missing"),
        (
            "stats done.log done.log done.log done.log done.log done.log done.log done.log done.log done.log done.log done.log done.log done.log done.log done.log done.log",
            Reason::Command,
            "there are more than 16 of LOG",
        ),
        (
            "stats --raw done.log",
            Reason::Command,
            "'--raw' is no option of this command",
        ),
    ],
};

static DUMP: Usage = Usage {
    usage: "dump [--json] LOG",
    rows: &[
        ("dump", Reason::Command, "LOG is missing"),
        (
            "dump opened.log done.log",
            Reason::Command,
            "'done.log' is one word too many",
        ),
        (
            "dump --all opened.log",
            Reason::Command,
            "'--all' is no option of this command",
        ),
    ],
};

static INSPECT: Usage = Usage {
    usage: "inspect LINES LOG..",
    rows: &[
        ("inspect", Reason::Command, "LINES is missing"),
        ("inspect empty", Reason::Command, "LOG is missing"),
        (
            "inspect empty done.log done.log done.log done.log done.log done.log done.log done.log done.log done.log done.log done.log done.log done.log done.log done.log done.log",
            Reason::Command,
            "there are more than 16 of LOG",
        ),
        (
            "inspect -q empty done.log",
            Reason::Command,
            "'-q' is no option of this command",
        ),
    ],
};

static DRIVE: Usage = Usage {
    usage: "drive [--table] FILE",
    rows: &[
        ("drive", Reason::Command, "FILE is missing"),
        ("drive a b", Reason::Command, "'b' is one word too many"),
        (
            "drive --force a",
            Reason::Command,
            "'--force' is no option of this command",
        ),
    ],
};

static FORMAT: Usage = Usage {
    usage: "format FILE",
    rows: &[
        ("format", Reason::Command, "FILE is missing"),
        ("format a b", Reason::Command, "'b' is one word too many"),
        (
            "format --force a",
            Reason::Command,
            "'--force' is no option of this command",
        ),
    ],
};

static MIGRATE: Usage = Usage {
    usage: "migrate OLD NEW",
    rows: &[
        ("migrate", Reason::Command, "OLD is missing"),
        ("migrate done.log", Reason::Command, "NEW is missing"),
        (
            "migrate done.log new.log more",
            Reason::Command,
            "'more' is one word too many",
        ),
        (
            "migrate --force done.log new.log",
            Reason::Command,
            "'--force' is no option of this command",
        ),
    ],
};

static COMPACT: Usage = Usage {
    usage: "compact OLD NEW",
    rows: &[
        ("compact", Reason::Command, "OLD is missing"),
        ("compact done.log", Reason::Command, "NEW is missing"),
        (
            "compact done.log new.log more",
            Reason::Command,
            "'more' is one word too many",
        ),
        (
            "compact --force done.log new.log",
            Reason::Command,
            "'--force' is no option of this command",
        ),
    ],
};

static PLAY: Usage = Usage {
    usage: "play FILE",
    rows: &[
        ("play", Reason::Command, "FILE is missing"),
        ("play a b", Reason::Command, "'b' is one word too many"),
        (
            "play --force a",
            Reason::Command,
            "'--force' is no option of this command",
        ),
    ],
};

static ONCE: Usage = Usage {
    usage: "once KEY VALUE E1 L1 E2 L2",
    rows: &[
        ("once", Reason::Command, "KEY is missing"),
        ("once a", Reason::Command, "VALUE is missing"),
        ("once a 1", Reason::Command, "E1 is missing"),
        ("once a 1 100", Reason::Command, "L1 is missing"),
        ("once a 1 100 110", Reason::Command, "E2 is missing"),
        ("once a 1 100 110 112", Reason::Command, "L2 is missing"),
        (
            "once a 1 100 110 112 121 x",
            Reason::Command,
            "'x' is one word too many",
        ),
        (
            "once a 1 +100 110 112 121",
            Reason::Command,
            "E1 is a whole number of microseconds, and not '+100'",
        ),
        (
            "once a 1 100 110 112 0x79",
            Reason::Command,
            "L2 is a whole number of microseconds, and not '0x79'",
        ),
        (
            "once -a 1 100 110 112 121",
            Reason::Command,
            "'-a' is no option of this command",
        ),
        (
            "once a 1 110 100 112 121",
            Reason::Stamp,
            "the first time of a reading is above its second",
        ),
        (
            "once a 1 100 110 121 112",
            Reason::Stamp,
            "the first time of a reading is above its second",
        ),
        (
            "once  1 100 110 112 121",
            Reason::Key,
            "KEY has 1 to 64 bytes, and not 0",
        ),
    ],
};

static NO_COMMAND: Usage = Usage {
    usage: "COMMAND WORD..; 'shards --help' lists the commands",
    rows: &[
        ("", Reason::Command, "a command is missing"),
        ("gett one a", Reason::Command, "'gett' is no command"),
        (
            "one a 1 100 110 112 121",
            Reason::Command,
            "'one' is no command",
        ),
        ("GET one a", Reason::Command, "'GET' is no command"),
        ("page", Reason::Command, "'page' is no command"),
        (
            "shards get one a",
            Reason::Command,
            "'shards' is no command",
        ),
        ("--raw", Reason::Command, "a command is missing"),
    ],
};

// A body that names a table costs much to prove, so each is handed on.
fn of_get() -> &'static Usage {
    &GET
}

fn of_put() -> &'static Usage {
    &PUT
}

fn of_history() -> &'static Usage {
    &HISTORY
}

fn of_stats() -> &'static Usage {
    &STATS
}

fn of_dump() -> &'static Usage {
    &DUMP
}

fn of_inspect() -> &'static Usage {
    &INSPECT
}

fn of_drive() -> &'static Usage {
    &DRIVE
}

fn of_format() -> &'static Usage {
    &FORMAT
}

fn of_migrate() -> &'static Usage {
    &MIGRATE
}

fn of_compact() -> &'static Usage {
    &COMPACT
}

fn of_play() -> &'static Usage {
    &PLAY
}

fn of_once() -> &'static Usage {
    &ONCE
}

fn of_no_command() -> &'static Usage {
    &NO_COMMAND
}

// Whether the line is refused for this reason, with nothing printed, and this is told of it.
fn is_refused(alloc: Global, line: &str, reason: Reason, told: &str) -> bool {
    let fault = Fault::BadRequest(reason);
    let Ok(words) = words_of(alloc, line) else {
        return false;
    };
    let memory = Memory {
        files: &all_files(),
    };
    let place = place_of(alloc, &memory, &words, fault);
    drop(words);
    let right = match place {
        Some(place) => place.as_str() == told,
        None => false,
    };
    right && is_answered(alloc, line, fault)
}

// Whether nothing is printed but the line of this fault, with status 2.
fn is_answered(alloc: Global, line: &str, fault: Fault) -> bool {
    let Ok(wanted) = format!(in alloc; "fault: {fault}\n") else {
        return false;
    };
    let printed = print(alloc, &all_files(), line, AMPLE);
    let right = printed.err.as_slice() == wanted.as_bytes() && printed.out.is_empty();
    drop(wanted);
    let status = printed.status;
    drop(printed);
    right && status == 2
}

// Goes over the lines of one command.
fn go_over_lines(wrong: &mut WrongRows, alloc: Global, usage: &Usage) {
    for (line, reason, what) in usage.rows {
        let what = *what;
        let told = format!(in alloc; "--> {what}\nusage: shards {}", usage.usage);
        let right = match &told {
            Ok(told) => is_refused(alloc, *line, *reason, told),
            Err(_) => false,
        };
        drop(told);
        wrong.unless(right, *line);
    }
}

/// Goes over all rows, each named by its line.
pub fn go_over(wrong: &mut WrongRows, alloc: Global) {
    for usage in [
        of_get(),
        of_put(),
        of_history(),
        of_stats(),
        of_dump(),
        of_inspect(),
        of_drive(),
        of_format(),
        of_migrate(),
        of_compact(),
        of_play(),
        of_once(),
        of_no_command(),
    ] {
        go_over_lines(wrong, alloc, usage);
    }
}
