//! Written runs: files of rows, each a schedule with the report that has to come of it. It plays all of them, and names each row that is wrong.
#![tactic(auto)]

mod checking;
mod comparing;
mod outcomes;

use checking::{tell, wrong_in_file};
use std::env;
use std::process::ExitCode;

fn main(rt: HostRuntime) -> ExitCode {
    let wrong = wrong_in_files(&rt);
    let printed = println!(rt; "wrong {wrong}");
    if printed.is_ok() && wrong == 0 {
        ExitCode::from(0)
    } else {
        ExitCode::from(1)
    }
}

// `written_runs FILE..`: goes over the files, and counts what is wrong.
fn wrong_in_files(rt: &HostRuntime) -> u64 {
    let Ok(mut words) = env::args(rt) else {
        return tell(rt, "the words", "FILE..", "text", "none");
    };
    drop(words.next());
    let mut wrong = 0_u64;
    let mut is_named = false;
    for file in words {
        is_named = true;
        wrong = wrong.saturating_add(wrong_in_file(rt, file.as_str()));
        drop(file);
    }
    if is_named {
        wrong
    } else {
        tell(rt, "the words", "FILE..", "names of files", "none")
    }
}
