//! Terminals that threads tell of turns and looks.
use made::WrongRows;
use progress::{Ended, NoWatch, Terminal, Turn, Watch};
use std::alloc::Global;
use std::sync::Wait;
use std::thread::Threads;
use std::{thread, time};

// Runs two threads of ten turns each, with a look after each turn.
fn work<R: Threads, W: Watch + Sync>(rt: &R, watch: &W) {
    thread::join(rt, || tell(watch), || tell(watch));
}

fn tell<W: Watch>(watch: &W) {
    for micros in 0..10 {
        watch.turned(Turn {
            ended: Ended::Committed,
            micros,
        });
        watch.looked(micros);
    }
}

const TABLE: &str = " commits a second\n\
    \x20    us   count    half     90%     99%    most\n\
    commits      20       4       8       9       9\n\
    \x20aborts       0       -       -       -       -\n\
    \x20 looks      20       4       8       9       9\n";

fn is_last(text: &str) -> bool {
    text.contains("\r20 of 20 done, ") && text.ends_with(TABLE)
}

// Tells whether this is all that is shown if no turn is shown before the end.
fn is_table(text: &str) -> bool {
    text.starts_with("20 of 20 done, ") && !text.contains("\r") && text.ends_with(TABLE)
}

// Tells whether the last lines of a drive of twenty turns are right, on a terminal that may be absent.
fn counts<R: Threads + Wait + time::Clock + Sync>(rt: &R, alloc: Global, is_quiet: bool) -> bool {
    let terminal = Some(if is_quiet {
        Terminal::quiet(rt, alloc, Vec::new(alloc), 20)
    } else {
        Terminal::new(rt, alloc, Vec::new(alloc), 20)
    });
    work(rt, &terminal);
    let Some(terminal) = terminal else {
        return false;
    };
    let written: Vec<u8> = terminal.finish();
    let counts = match str::from_utf8(&written) {
        Ok(text) if is_quiet => is_table(text),
        Ok(text) => is_last(text),
        Err(_) => false,
    };
    drop(written);
    counts
}

/// Checks the one story. A watch may be absent.
pub fn go_over<R: Threads + Wait + time::Clock + Sync>(
    wrong: &mut WrongRows,
    rt: &R,
    alloc: Global,
) {
    let none: Option<NoWatch> = None;
    work(rt, &none);
    work(rt, &Some(NoWatch));
    wrong.unless(counts(rt, alloc, false), "twenty turns");
    wrong.unless(counts(rt, alloc, true), "twenty turns, shown at the end");
}
