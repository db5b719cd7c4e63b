//! What clients are answered.
use crate::streams::{Paper, Parts, answers, are_answers, of_two_shards, served};
use host_files::logs_in_memory;
use serving::{Desk, Served};
use std::str;

/// A name, the lines, and what clients 0 and 1 are answered.
type Row = (
    &'static str,
    &'static [u8],
    &'static [&'static [u8]],
    &'static [&'static [u8]],
);

// Longer than any part takes.
const NEVER: u64 = 60_000;

static ROWS: [Row; 13] = [
    (
        "each client hears its own answers",
        b"0 put a 1\n1 put b 2\n0 get a\n1 get b\n0 get c a\n1 foo\n",
        &[b"committed *", b"=1", b"none =1"],
        &[b"committed *", b"=2", b"fault: 7 BadRequest(command)"],
    ),
    (
        "a transaction reads what it wrote, and others do not before it commits",
        b"put a 1\nbegin\nput a 2\nget a\ncommit\nget a\n",
        &[
            b"committed *",
            b"begun *",
            b"ok",
            b"=2",
            b"committed *",
            b"=2",
        ],
        &[],
    ),
    (
        "a transaction writes what its own lines say",
        b"begin\nput a 1\nput z 2\nput a 3\nerase z\nget a z\ncommit\nget a z\n",
        &[
            b"begun *",
            b"ok",
            b"ok",
            b"ok",
            b"ok",
            b"=3 none",
            b"committed *",
            b"=3 none",
        ],
        &[],
    ),
    (
        "what is given up stands nowhere",
        b"begin\nput a 1\nabort\nget a\n",
        &[b"begun *", b"ok", b"aborted", b"none"],
        &[],
    ),
    (
        "a view shows what stood, and takes no writes",
        b"put a 1\nview\nget a b\nput a 2\nbegin\nend\nget a\n",
        &[
            b"committed *",
            b"at *",
            b"=1 none",
            b"fault: 7 BadRequest(state)",
            b"fault: 7 BadRequest(state)",
            b"ended",
            b"=1",
        ],
        &[],
    ),
    (
        "a view of another time shows what stood then, or what is served",
        b"put a 1\nview 0\nget a\nbegin\nview\nend\nview 4611686018427387903\nget a\nend\nview x\nget a\n",
        &[
            b"committed *",
            b"at 0",
            b"none",
            b"fault: 7 BadRequest(state)",
            b"fault: 7 BadRequest(state)",
            b"ended",
            b"at 4611686018427387903",
            b"fault: 9 NotYet",
            b"ended",
            b"fault: 7 BadRequest(command)",
            b"=1",
        ],
        &[],
    ),
    (
        "verbs out of their place",
        b"commit\nabort\nend\nbegin\nbegin\nview\nend\nabort\nbegin\ncommit\n",
        &[
            b"fault: 7 BadRequest(state)",
            b"aborted",
            b"ended",
            b"begun *",
            b"fault: 7 BadRequest(state)",
            b"fault: 7 BadRequest(state)",
            b"fault: 7 BadRequest(state)",
            b"aborted",
            b"begun *",
            b"ended: fault: 7 BadRequest(nothing)",
        ],
        &[],
    ),
    (
        "keys and values of any bytes, and the empty value",
        b"put \\x20\\x5C\\xff a\\x0ab\nget \\x20\\x5c\\xFF\nput e \nget e\nput \\q 1\n",
        &[
            b"committed *",
            b"=a\\x0ab",
            b"committed *",
            b"=",
            b"fault: 7 BadRequest(command)",
        ],
        &[],
    ),
    (
        "a last line without its end is answered, and what is open is given up",
        b"0 put a 1\n1 begin\n1 put b 1\n1 get a\n0 get a",
        &[b"committed *", b"=1"],
        &[b"begun *", b"ok", b"*"],
    ),
    (
        "lines that ask for nothing",
        b"\n0\n1 \nget\nput a\nview 5 6\nhelp\n",
        &[
            b"fault: 7 BadRequest(command)",
            b"fault: 7 BadRequest(command)",
            b"fault: 7 BadRequest(command)",
            b"fault: 7 BadRequest(command)",
            b"fault: 7 BadRequest(command)",
            b"help: *",
        ],
        &[b"fault: 7 BadRequest(command)"],
    ),
    (
        "keys come by pages, over both shards, in their order",
        b"put z 1\nput b 1\nput m 1\nput a 1\nput c 1\nerase b\nview\nkeys \\x00  1000\nkeys m  1000\nkeys a  1\nkeys b  1\nkeys c  1\nkeys b z 9\nkeys m z 9\nkeys n  9\n1 view 0\n1 keys a  9\n",
        &[
            b"committed *",
            b"committed *",
            b"committed *",
            b"committed *",
            b"committed *",
            b"committed *",
            b"at *",
            b"page =m =a =c",
            b"page none =m =z",
            b"page =b =a",
            b"page =c",
            b"page =m =c",
            b"page =m =c",
            b"page none =m",
            b"page none =z",
        ],
        &[b"at 0", b"page =m"],
    ),
    (
        "pages that are refused",
        b"keys a  9\nview\nkeys a  0\nkeys a  1001\nkeys a  1000\nkeys a  x\nkeys   9\nkeys a\nkeys a b\nkeys a b 1 2\nkeys a \\q 1\noutcome 1.1\nstats\nget a\nend\nbegin\nkeys a  9\nstats\noutcome 1.1\nabort\nview 4611686018427387903\nkeys a  9\n",
        &[
            b"fault: 7 BadRequest(state)",
            b"at *",
            b"fault: 7 BadRequest(many)",
            b"fault: 7 BadRequest(many)",
            b"page =m",
            b"fault: 7 BadRequest(command)",
            b"fault: 7 BadRequest(key)",
            b"fault: 7 BadRequest(command)",
            b"fault: 7 BadRequest(command)",
            b"fault: 7 BadRequest(command)",
            b"fault: 7 BadRequest(command)",
            b"fault: 7 BadRequest(state)",
            b"fault: 7 BadRequest(state)",
            b"none",
            b"ended",
            b"begun *",
            b"fault: 7 BadRequest(state)",
            b"fault: 7 BadRequest(state)",
            b"fault: 7 BadRequest(state)",
            b"aborted",
            b"at 4611686018427387903",
            b"fault: 9 NotYet",
        ],
        &[],
    ),
    (
        "how a transaction ended is asked of unknown ends alone",
        b"outcome 1.1\nput a 1\noutcome 1.1\noutcome 7.9\noutcome\noutcome 1\noutcome 1.x\noutcome 1.1 2\nget a\n",
        &[
            b"outcome unknown",
            b"committed *",
            b"outcome unknown",
            b"outcome unknown",
            b"fault: 7 BadRequest(command)",
            b"fault: 7 BadRequest(command)",
            b"fault: 7 BadRequest(command)",
            b"fault: 7 BadRequest(command)",
            b"=1",
        ],
        &[],
    ),
];

// Fails if a client is answered anything but its row, or the lines do not go on to their end.
#[test]
fn clients_are_answered(rt: HostRuntime) {
    for (_name, lines, zero, one) in &ROWS {
        let (served, told) = answers(&rt, rt.alloc(), &[(0, *lines)], NEVER, false);
        assert!(rt; served == Served::All);
        assert!(rt; are_answers(&told, b'0', *zero));
        assert!(rt; are_answers(&told, b'1', *one));
    }
}

// Fails if a client's keys are those of another client's view.
#[test]
fn keys_are_of_the_own_view(rt: HostRuntime) {
    let parts: [(u64, &[u8]); 3] = [
        (0, b"put a 1\nput b 1\nview\nkeys a  9\n"),
        (600, b"1 put c 1\n1 erase a\n1 view\n1 keys a  9\n"),
        (600, b"keys a  9\n1 keys a  9\nend\nview\nkeys a  9\n"),
    ];
    let (served, told) = answers(&rt, rt.alloc(), &parts, NEVER, false);
    assert!(rt; served == Served::All);
    let zero: [&[u8]; 8] = [
        b"committed *",
        b"committed *",
        b"at *",
        b"page =m =a =b",
        b"page =m =a =b",
        b"ended",
        b"at *",
        b"page =m =b =c",
    ];
    let one: [&[u8]; 5] = [
        b"committed *",
        b"committed *",
        b"at *",
        b"page =m =b =c",
        b"page =m =b =c",
    ];
    assert!(rt; are_answers(&told, b'0', &zero));
    assert!(rt; are_answers(&told, b'1', &one));
}

// An epsilon of so many microseconds: a commit waits for twice that, and its client gives up before.
const EPSILON: u64 = 400_000;

// So many milliseconds a client waits for a shard that says nothing new.
const GIVE_UP: u64 = 50;

// Fails if a transaction whose end nobody told is told otherwise later: it is open as long as its commit waits, and then it stands. Another client
// does not know it.
#[test]
fn unknown_ends_are_told_later(rt: HostRuntime) {
    let alloc = rt.alloc();
    let mut options = of_two_shards(&rt, alloc);
    options.epsilon = EPSILON;
    options.give_up = GIVE_UP;
    let parts: [(u64, &[u8]); 2] = [
        (
            0,
            b"put z 1\noutcome 1.1\nbegin\nput a 1\ncommit\noutcome 1.2\n",
        ),
        (
            5 * EPSILON / 1_000,
            b"1 outcome 1.1\noutcome 1.1\noutcome 1.2\noutcome 1.3\n",
        ),
    ];
    let paper = Paper {
        bytes: Vec::new(alloc),
        is_gone: false,
    };
    let desk = Desk::new(alloc, paper, false);
    let disks = logs_in_memory(alloc, 2).ok().expect(&rt, "logs");
    let input = Parts {
        rt: &rt,
        parts: &parts,
        at: 0,
    };
    let ended = served(&rt, alloc, disks, options, NEVER, input, &desk);
    let Paper { bytes, .. } = desk.close();
    assert!(rt; ended == Served::All);
    let zero: [&[u8]; 9] = [
        b"unknown 1.1",
        b"outcome open",
        b"begun 1.2",
        b"ok",
        b"unknown 1.2",
        b"outcome open",
        b"outcome committed *",
        b"outcome committed *",
        b"outcome unknown",
    ];
    assert!(rt; are_answers(&bytes, b'0', &zero));
    assert!(rt; are_answers(&bytes, b'1', &[b"outcome unknown"]));
}

// What `stats` tells of a number of a shard, behind its name, or nothing.
fn told_of<'t>(told: &'t [u8], name: &str, shard: &str) -> Option<&'t str> {
    let text = str::from_utf8(told).ok()?;
    let (_, behind) = text.split_once(name)?;
    let (_, behind) = behind.split_once(shard)?;
    let (number, _) = behind.split_once("\\x0a")?;
    Some(number)
}

// Fails if the numbers of a shard are told of another one, or are not of this store: two commits of shard 0, and one of shard 1.
#[test]
fn stats_tell_each_shard(rt: HostRuntime) {
    let lines = b"put a 1\nput b 1\nput z 1\nstats\n";
    let (served, told) = answers(&rt, rt.alloc(), &[(0, lines.as_slice())], NEVER, false);
    assert!(rt; served == Served::All);
    let commits = "spanner_shards_commits{shard=";
    assert!(rt; told_of(&told, commits, "\"0\"}\\x20") == Some("2"));
    assert!(rt; told_of(&told, commits, "\"1\"}\\x20") == Some("1"));
}
