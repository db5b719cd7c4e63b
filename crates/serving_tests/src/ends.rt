//! Transactions that are idle, lines that are long, and how lines end.
use crate::streams::{Paper, Parts, answers, are_answers, of_two_shards, served};
use host_files::logs_in_memory;
use serving::{Desk, Served};
use std::time::{Duration, Instant};

const NEVER: u64 = 60_000;

// An idle transaction lets its keys go, and its next line is answered `aborted`.
#[test]
fn idle_transactions_are_given_up(rt: HostRuntime) {
    let parts: [(u64, &[u8]); 3] = [
        (0, b"put a 1\nbegin\nget a\n"),
        (600, b"1 put a 2\n1 get a\n"),
        (600, b"put a 3\nget a\n"),
    ];
    let (served, told) = answers(&rt, rt.alloc(), &parts, 200, false);
    assert!(rt; served == Served::All);
    assert!(rt;
        are_answers(
            &told,
            b'0',
            &[b"committed *", b"begun *", b"=1", b"aborted", b"=2"]
        )
    );
    assert!(rt; are_answers(&told, b'1', &[b"committed *", b"=2"]));
}

// A write outside of a transaction is tried for two seconds beside one that holds its key.
#[test]
fn writes_are_tried_for_two_seconds(rt: HostRuntime) {
    let alloc = rt.alloc();
    let parts: [(u64, &[u8]); 3] = [
        (0, b"1 begin\n1 get a\n"),
        (400, b"put a 1\nget a\n"),
        (4_000, b"1 abort\nput a 2\nget a\n"),
    ];
    let (served, told) = answers(&rt, alloc, &parts, NEVER, false);
    assert!(rt; served == Served::All);
    assert!(rt; are_answers(&told, b'0', &[b"aborted", b"none", b"committed *", b"=2"]));
    assert!(rt; are_answers(&told, b'1', &[b"begun *", b"none", b"aborted"]));
}

// A line of 65,536 bytes is read, and one of a byte more is refused in its place, by its client.
#[test]
fn long_lines_are_refused(rt: HostRuntime) {
    let mut line = Vec::new(rt.alloc());
    line.resize(65_528, b'x').ok().expect(&rt, "memory");
    let parts: [(u64, &[u8]); 6] = [
        (0, b"1 put a 1\n1 put a "),
        (0, &line),
        (0, b"\n1 put a x"),
        (0, &line),
        (0, b"\n1 get a\n"),
        (0, b"1 get b"),
    ];
    let (served, told) = answers(&rt, rt.alloc(), &parts, NEVER, false);
    assert!(rt; served == Served::All);
    let wanted: [&[u8]; 5] = [
        b"committed *",
        b"fault: 7 BadRequest(value)",
        b"fault: 7 BadRequest(command)",
        b"=1",
        b"none",
    ];
    assert!(rt; are_answers(&told, b'1', &wanted));
}

// What was asked before `quit` is answered, and what is asked then is not.
#[test]
fn quit_ends_the_lines(rt: HostRuntime) {
    let parts: [(u64, &[u8]); 1] = [(0, b"put a 1\nget a\n2 quit\nget a\n")];
    let (served, told) = answers(&rt, rt.alloc(), &parts, NEVER, false);
    assert!(rt; served == Served::Quit(2));
    assert!(rt; are_answers(&told, b'0', &[b"committed *", b"=1"]));
}

// If nobody reads the answers, no more lines are taken.
#[test]
fn lines_end_with_their_reader(rt: HostRuntime) {
    let parts: [(u64, &[u8]); 2] = [(0, b"put a 1\n"), (300, b"get a\n")];
    let (served, told) = answers(&rt, rt.alloc(), &parts, NEVER, true);
    assert!(rt; served == Served::Gone);
    assert!(rt; told.is_empty());
}

// A client that there is not is refused by its number.
#[test]
fn clients_are_below_their_number(rt: HostRuntime) {
    let (served, told) = answers(&rt, rt.alloc(), &[(0, b"4 get a\n9 get a\n")], NEVER, false);
    assert!(rt; served == Served::All);
    assert!(rt; are_answers(&told, b'4', &[b"fault: 7 BadRequest(command)"]));
    assert!(rt; are_answers(&told, b'9', &[b"fault: 7 BadRequest(command)"]));
}

// Once the device of shard 0 has failed, a transaction that reads there is told so at once, though a client would wait for an answer for 30
// seconds. The other shard goes on.
#[test]
fn stopped_shards_are_told(rt: HostRuntime) {
    let alloc = rt.alloc();
    let mut disks = logs_in_memory(alloc, 2).ok().expect(&rt, "logs");
    if let Some(disk) = disks.get_mut(0) {
        disk.fail_next(20);
    }
    let parts: [(u64, &[u8]); 2] = [
        (0, b"put a 1\nput a 2\nput a 3\nput a 4\nput a 5\nput a 6\n"),
        (400, b"1 begin\n1 get a\n1 get z\n1 put z 1\n"),
    ];
    let paper = Paper {
        bytes: Vec::new(alloc),
        is_gone: false,
    };
    let desk = Desk::new(alloc, paper, false);
    let input = Parts {
        rt: &rt,
        parts: &parts,
        at: 0,
    };
    let start = Instant::now(&rt).ok().expect(&rt, "a clock");
    let ended = served(
        &rt,
        alloc,
        disks,
        of_two_shards(&rt, alloc),
        NEVER,
        input,
        &desk,
    );
    let took = start.elapsed(&rt).ok().expect(&rt, "a clock");
    let Paper { bytes, .. } = desk.close();
    assert!(rt; ended == Served::All);
    assert!(rt; took < Duration::from_secs(15));
    let wanted: [&[u8]; 4] = [
        b"begun *",
        b"ended: fault: 3 Stopped",
        b"none",
        b"committed *",
    ];
    assert!(rt; are_answers(&bytes, b'1', &wanted));
}
