//! Lines that are a command, or none.
use crate::given::words_of;
use commands::{Command, Words};
use made::WrongRows;
use std::alloc::Global;
use units::{Fault, Reason};

// The first line is the command `once`, and the others are no command.
static LINES: [&str; 12] = [
    "once a 1 100 110 112 121",
    "",
    "once",
    "once a 1 100 110 112",
    "once a 1 100 110 112 121 x",
    "one a 1 100 110 112 121",
    "once a 1  110 112 121",
    "once a 1 +100 110 112 121",
    "once --raw a 1 100 110 112 121",
    "once --helpful",
    "play",
    "play a b",
];

// Whether it is what the words say.
fn is_once(command: &Command) -> bool {
    match command {
        Command::Once {
            key,
            value,
            first,
            second,
        } => key.as_bytes() == b"a".as_slice()
            && value.as_bytes() == b"1".as_slice()
            && first.earliest().micros() == 100
            && first.latest().micros() == 110
            && second.earliest().micros() == 112
            && second.latest().micros() == 121,
        _ => false,
    }
}

// If there is memory, want of it is not the answer.
fn is_taken(alloc: Global, line: &str, wanted: bool) -> bool {
    let Ok(words) = words_of(alloc, line) else {
        return false;
    };
    let Ok(read) = Words::new(alloc, &words) else {
        return false;
    };
    let right = match read.command(alloc) {
        Ok(command) => {
            let once = is_once(&command);
            drop(command);
            once && wanted
        }
        Err(fault) => !wanted && fault == Fault::BadRequest(Reason::Command),
    };
    drop(read);
    drop(words);
    right
}

/// Goes over all lines.
pub fn go_over(wrong: &mut WrongRows, alloc: Global) {
    for (place, line) in LINES.iter().enumerate() {
        wrong.unless_at(is_taken(alloc, line, place == 0), line, place as u64);
    }
}
