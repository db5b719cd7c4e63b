//! A verdict on more lines than 64 KiB hold.
use crate::command_lines::{DONE, EMPTY, Output, Step, furnished, go_over, put, put_log};
use crate::verdict::end;
use made::WrongRows;
use std::alloc::Global;

// A look at an empty log, at a key of 64 bytes, shows nothing; and nothing has committed that was acknowledged.
const RIGHT: &str =
    "look k_is_0123456789_0123456789_0123456789_0123456789_0123456789_long 111 none\n";

const LOST: &str = "ack 1.1 111 5\n";

static STEPS: [Step; 1] = [Step {
    lines: &["inspect ./many.lines ./empty.log"],
    output: Output::Is("no lost 1.1\n"),
    status: 1,
    ..DONE
}];

// Some 100 KB of right lines, 1,300 of them, and after them a wrong one.
fn many_lines(alloc: Global) -> Option<String> {
    let mut text = RIGHT.repeat(alloc, 1_300).ok()?;
    match text.push_str(LOST) {
        Ok(()) => Some(text),
        Err(_) => {
            drop(text);
            None
        }
    }
}

// Fails if a verdict is on the first thousand lines, or if a text ends at 64 KiB.
#[test]
fn a_verdict_on_many_lines(rt: HostRuntime) {
    let folder = furnished(&rt, &rt);
    let text = many_lines(rt.alloc()).expect(&rt, "memory");
    put(&rt, &rt, &folder, "many.lines", text.as_bytes());
    drop(text);
    put_log(&rt, &rt, &folder, "empty.log", EMPTY);
    let mut wrong = WrongRows::none(rt.alloc());
    go_over(&mut wrong, &rt, &rt, &folder, &STEPS);
    wrong.unless(folder.remove(&rt), "the folder");
    end(&rt, wrong);
}
