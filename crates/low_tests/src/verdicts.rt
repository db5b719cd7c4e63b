//! Verdicts on logs and lines.
use crate::checks::is_printed;
use crate::text_logs::reads;
use inspector::inspect;
use made::WrongRows;
use output::VerdictText;
use record::Record;
use std::alloc::Global;
use texts::lines;

struct Case {
    name: &'static str,
    logs: &'static [&'static str],
    lines: &'static str,
    verdict: &'static str,
}

// A commit at shard 0, and a shard without records.
const ONE_SHARD: &[&str] = &[
    "opened 1\ncommit 1.1 111 0 - a=1\noutcome 1.1 committed 111\n",
    "opened 1\n",
];

// The same with horizons, on which no verdict depends.
const FORGOTTEN: &[&str] = &[
    "opened 1\ncommit 1.1 111 0 - a=1\noutcome 1.1 committed 111\nhorizon 111\n",
    "opened 1\nceiling 200\nhorizon 150\n",
];

// A commit of two shards.
const TWO_SHARDS: &[&str] = &[
    "opened 1\ncommit 1.2 200 0,1 - a=1\noutcome 1.2 committed 200\n",
    "opened 1\nprepare 1.2 0 200 - z=2\noutcome 1.2 committed 200\n",
];

// Two commits, the later of which has the smaller timestamp.
const TURNED: &[&str] = &[
    "opened 1\ncommit 1.1 111 0 - a=1\n",
    "opened 1\ncommit 1.2 105 1 - z=2\n",
];

// Three versions of a key, one of which is an erasure, out of order.
const VERSIONS: &[&str] = &[
    "opened 1\ncommit 1.3 30 0 - a=3\ncommit 1.1 10 0 - a=1,b=1\ncommit 1.2 20 0 - a!\n",
];

// Renewed logs: of a settled commit, of a commit of two shards, and of one beside a shard whose log was not renewed.
const RENEWED: &[&str] = &["base 1 111 0\nversion 111 a=1\nsettled 1.1 111 0\n"];

const TWO_RENEWED: &[&str] = &[
    "base 1 200 0\nversion 200 a=1\nsettled 1.2 200 0,1\n",
    "base 1 200 0\nversion 200 z=2\nclosed 1.2 0 committed 200\n",
];

const ONE_RENEWED: &[&str] = &[
    "opened 1\ncommit 1.2 200 0,1 - a=1\noutcome 1.2 committed 200\n",
    "base 1 200 0\nversion 200 z=2\nclosed 1.2 0 committed 200\nopened 2\n",
];

// A commit at one shard, without horizons and with them.
static SINGLE: [Case; 10] = [
    Case {
        name: "a whole report",
        logs: ONE_SHARD,
        lines: "begin 1.1 0\nack 1.1 111 5\n",
        verdict: "yes",
    },
    Case {
        name: "a look sees none",
        logs: ONE_SHARD,
        lines: "look a 111 none\n",
        verdict: "no read 0",
    },
    Case {
        name: "a look before",
        logs: ONE_SHARD,
        lines: "look a 110 none\nlook a 111 =1\n",
        verdict: "yes",
    },
    Case {
        name: "a look below a horizon",
        logs: FORGOTTEN,
        lines: "look a 110 none\nlook a 111 =1\n",
        verdict: "yes",
    },
    Case {
        name: "a look below a horizon sees what came later",
        logs: FORGOTTEN,
        lines: "look a 111 =1\nlook a 110 =1\n",
        verdict: "no read 1",
    },
    Case {
        name: "a horizon in a whole report",
        logs: FORGOTTEN,
        lines: "begin 1.1 0\nack 1.1 111 5\n",
        verdict: "yes",
    },
    Case {
        name: "another timestamp",
        logs: ONE_SHARD,
        lines: "ack 1.1 110 5\n",
        verdict: "no lost 1.1",
    },
    Case {
        name: "the least lost",
        logs: ONE_SHARD,
        lines: "ack 1.3 5 5\nack 1.2 5 6\n",
        verdict: "no lost 1.2",
    },
    Case {
        name: "a read of its own id",
        logs: ONE_SHARD,
        lines: "read 1.1 a none\n",
        verdict: "yes",
    },
    Case {
        name: "a read without commit",
        logs: ONE_SHARD,
        lines: "look a 111 =1\nread 1.2 a none\n",
        verdict: "no read 1",
    },
];

// Two commits in their order, and a commit of two shards.
static ORDERED: [Case; 5] = [
    Case {
        name: "two shards",
        logs: TWO_SHARDS,
        lines: "begin 1.2 0\nack 1.2 200 7\nlook z 199 none\nlook z 200 =2\n",
        verdict: "yes",
    },
    Case {
        name: "turned",
        logs: TURNED,
        lines: "ack 1.1 111 5\nbegin 1.2 9\n",
        verdict: "no order 1 0",
    },
    Case {
        name: "at one moment",
        logs: TURNED,
        lines: "ack 1.1 111 9\nbegin 1.2 9\n",
        verdict: "yes",
    },
    Case {
        name: "in order",
        logs: TURNED,
        lines: "ack 1.2 105 5\nbegin 1.1 9\n",
        verdict: "yes",
    },
    Case {
        name: "begun again",
        logs: TURNED,
        lines: "begin 1.2 4\nack 1.2 105 5\nack 1.1 111 6\nbegin 1.9 9\nbegin 1.2 9\n",
        verdict: "no order 4 1",
    },
];

// Logs that are torn, and one that is not.
static TORN: [Case; 8] = [
    Case {
        name: "no promise",
        logs: &["opened 1\ncommit 1.2 200 0,1 - a=1\n", "opened 1\n"],
        lines: "ack 1.9 5 5\n",
        verdict: "no torn 1.2",
    },
    Case {
        name: "two decisions",
        logs: &["opened 1\ncommit 1.2 200 0 - a=1\ncommit 1.2 200 0 - a=1\n"],
        lines: "",
        verdict: "no torn 1.2",
    },
    Case {
        name: "not the least part",
        logs: &[
            "opened 1\nprepare 1.2 0 200 - -\n",
            "opened 1\ncommit 1.2 200 0,1 - a=1\n",
        ],
        lines: "",
        verdict: "no torn 1.2",
    },
    Case {
        name: "an outcome without commit",
        logs: &["opened 1\noutcome 1.7 committed 5\noutcome 1.6 committed 5\n"],
        lines: "",
        verdict: "no torn 1.6",
    },
    Case {
        name: "aborted and committed",
        logs: &[
            "opened 1\ncommit 1.2 200 0,1 - a=1\n",
            "opened 1\nprepare 1.2 0 200 - z=2\noutcome 1.2 aborted\n",
        ],
        lines: "",
        verdict: "no torn 1.2",
    },
    Case {
        name: "promised above",
        logs: &[
            "opened 1\ncommit 1.2 200 0,1 - a=1\n",
            "opened 1\nprepare 1.2 0 201 - z=2\n",
        ],
        lines: "",
        verdict: "no torn 1.2",
    },
    Case {
        name: "a part without log",
        logs: &["opened 1\ncommit 1.2 200 0,1 - a=1\n"],
        lines: "",
        verdict: "no torn 1.2",
    },
    Case {
        name: "an abort alone",
        logs: &[
            "opened 1\nabort 1.2\n",
            "opened 1\nprepare 1.2 0 200 - z=2\n",
        ],
        lines: "",
        verdict: "yes",
    },
];

// Versions of a key.
static LOOKED: [Case; 4] = [
    Case {
        name: "versions in turn",
        logs: VERSIONS,
        lines: "look a 9 none\nlook a 19 =1\nlook a 29 none\nlook a 30 =3\nlook b 99 =1\n",
        verdict: "yes",
    },
    Case {
        name: "an old value",
        logs: VERSIONS,
        lines: "look a 25 =1\n",
        verdict: "no read 0",
    },
    Case {
        name: "reads before",
        logs: VERSIONS,
        lines: "read 1.1 a none\nread 1.2 a =1\nread 1.3 a none\n",
        verdict: "yes",
    },
    Case {
        name: "an old value is read",
        logs: VERSIONS,
        lines: "read 1.2 a =1\nread 1.3 a =1\n",
        verdict: "no read 1",
    },
];

// Over renewed logs the values that lines read are not checked. The places of lines are those of all lines.
static RENEWED_LOGS: [Case; 10] = [
    Case {
        name: "a renewed log",
        logs: RENEWED,
        lines: "begin 1.1 0\nack 1.1 111 5\nlook a 111 =1\n",
        verdict: "yes",
    },
    Case {
        name: "a renewed log without lines",
        logs: RENEWED,
        lines: "",
        verdict: "yes",
    },
    Case {
        name: "a look at a renewed log",
        logs: RENEWED,
        lines: "look a 111 none\nlook b 5 =1\n",
        verdict: "yes",
    },
    Case {
        name: "a read of a renewed log",
        logs: RENEWED,
        lines: "read 1.1 a =7\nread 1.9 a none\n",
        verdict: "yes",
    },
    Case {
        name: "lost in a renewed log",
        logs: RENEWED,
        lines: "look a 111 none\nack 1.2 111 5\n",
        verdict: "no lost 1.2",
    },
    Case {
        name: "another timestamp in a renewed log",
        logs: RENEWED,
        lines: "ack 1.1 110 5\n",
        verdict: "no lost 1.1",
    },
    Case {
        name: "out of order in renewed logs",
        logs: &["base 1 111 0\nsettled 1.1 111 0\nsettled 1.2 105 0\n"],
        lines: "look a 5 =1\nack 1.1 111 5\nread 1.1 a none\nbegin 1.2 9\n",
        verdict: "no order 3 1",
    },
    Case {
        name: "two renewed logs",
        logs: TWO_RENEWED,
        lines: "begin 1.2 0\nack 1.2 200 7\nlook z 199 =2\n",
        verdict: "yes",
    },
    Case {
        name: "one renewed log of two",
        logs: ONE_RENEWED,
        lines: "begin 1.2 0\nack 1.2 200 7\nlook z 200 none\nread 1.2 a =9\n",
        verdict: "yes",
    },
    Case {
        name: "a renewed log beside a promise",
        logs: &[
            "base 1 200 0\nsettled 1.2 200 0,1\n",
            "opened 1\nprepare 1.2 0 200 - z=2\n",
        ],
        lines: "ack 1.2 200 7\n",
        verdict: "yes",
    },
];

// What was settled or closed in renewed logs.
static ENDED: [Case; 7] = [
    Case {
        name: "closed without its decision",
        logs: &[
            "base 1 200 0\n",
            "base 1 200 0\nclosed 1.2 0 committed 200\n",
        ],
        lines: "",
        verdict: "no torn 1.2",
    },
    Case {
        name: "closed by an abort alone",
        logs: &[
            "base 1 200 0\nabort 1.2\n",
            "base 1 200 0\nclosed 1.2 0 aborted\n",
        ],
        lines: "",
        verdict: "yes",
    },
    Case {
        name: "settled and closed by an abort",
        logs: &[
            "base 1 200 0\nsettled 1.2 200 0,1\n",
            "base 1 200 0\nclosed 1.2 0 aborted\n",
        ],
        lines: "",
        verdict: "no torn 1.2",
    },
    Case {
        name: "closed at another timestamp",
        logs: &[
            "base 1 200 0\nsettled 1.2 200 0,1\n",
            "base 1 200 0\nclosed 1.2 0 committed 199\n",
        ],
        lines: "",
        verdict: "no torn 1.2",
    },
    Case {
        name: "closed by another coordinator",
        logs: &[
            "base 1 200 0\nsettled 1.2 200 0,2\n",
            "base 1 200 0\n",
            "base 1 200 0\nclosed 1.2 1 committed 200\n",
        ],
        lines: "",
        verdict: "no torn 1.2",
    },
    Case {
        name: "settled without its part",
        logs: &["base 1 200 0\nsettled 1.2 200 0,1\n", "base 1 200 0\n"],
        lines: "",
        verdict: "no torn 1.2",
    },
    Case {
        name: "settled in the log of another part",
        logs: &["base 1 200 0\n", "base 1 200 0\nsettled 1.2 200 0\n"],
        lines: "",
        verdict: "no torn 1.2",
    },
];

// Ids that are retired in a log are no more looked for in any, and all others are.
static RETIRED: [Case; 12] = [
    Case {
        name: "a retired commit, of which a version is left",
        logs: &["base 1 111 0\nversion 111 a=1\nretired 1.2\n"],
        lines: "begin 1.1 0\nack 1.1 111 5\nlook a 111 =1\n",
        verdict: "yes",
    },
    Case {
        name: "a commit that is not retired, and is lost",
        logs: &["base 1 111 0\nversion 111 a=1\nretired 1.1\n"],
        lines: "ack 1.1 111 5\n",
        verdict: "no lost 1.1",
    },
    Case {
        name: "the least lost that is not retired",
        logs: &["opened 1\nretired 1.3\n"],
        lines: "ack 1.4 5 5\nack 1.3 5 6\nack 1.2 5 7\n",
        verdict: "no lost 1.3",
    },
    Case {
        name: "a retired commit at another timestamp than was acknowledged",
        logs: &["opened 1\ncommit 1.1 111 0 - a=1\noutcome 1.1 committed 111\nretired 1.2\n"],
        lines: "ack 1.1 110 5\n",
        verdict: "yes",
    },
    Case {
        name: "retired at one shard, and kept at another",
        logs: &[
            "base 1 200 0\nversion 200 a=1\nretired 1.3\n",
            "base 1 200 0\nversion 200 z=2\nclosed 1.2 0 committed 200\n",
        ],
        lines: "ack 1.2 200 7\n",
        verdict: "yes",
    },
    Case {
        name: "kept where it was decided, and retired at the other shard",
        logs: &[
            "base 1 200 0\nversion 200 a=1\nsettled 1.2 200 0,1\n",
            "base 1 200 0\nversion 200 z=2\nretired 1.3\n",
        ],
        lines: "ack 1.2 200 7\n",
        verdict: "yes",
    },
    Case {
        name: "torn above the retired ids",
        logs: &[
            "base 1 200 0\nretired 1.2\n",
            "base 1 200 0\nclosed 1.1 0 committed 100\nclosed 1.2 0 committed 200\n",
        ],
        lines: "",
        verdict: "no torn 1.2",
    },
    // The greatest retired id of all logs counts, whichever log has it.
    Case {
        name: "retired further in the second log",
        logs: &[
            "base 1 200 0\nretired 1.1\n",
            "base 1 200 0\nretired 1.2\nretired 1.3\nclosed 1.4 0 aborted\n",
            "base 1 200 0\nretired 1.2\nclosed 1.2 0 committed 200\n",
        ],
        lines: "ack 1.2 200 7\n",
        verdict: "yes",
    },
    Case {
        name: "retired by its run",
        logs: &[
            "base 1 200 0\nretired 2.0\n",
            "base 1 200 0\nclosed 1.9 0 committed 200\nclosed 2.0 0 aborted\n",
        ],
        lines: "ack 1.9 200 7\n",
        verdict: "yes",
    },
    Case {
        name: "lost in a run that is not retired",
        logs: &["base 1 200 0\nretired 2.0\n"],
        lines: "ack 1.9 200 7\nack 2.0 201 8\n",
        verdict: "no lost 2.0",
    },
    // What a log shows is what was committed, retired or not, as long as no log was renewed.
    Case {
        name: "a value of a retired commit",
        logs: &["opened 1\ncommit 1.1 111 0 - a=1\noutcome 1.1 committed 111\nretired 1.2\n"],
        lines: "look a 111 =1\nlook a 111 none\n",
        verdict: "no read 1",
    },
    Case {
        name: "retired commits out of order",
        logs: &[
            "opened 1\ncommit 1.1 111 0 - a=1\noutcome 1.1 committed 111\nretired 1.3\n",
            "opened 1\ncommit 1.2 105 1 - z=2\noutcome 1.2 committed 105\n",
        ],
        lines: "ack 1.1 111 5\nbegin 1.2 9\n",
        verdict: "no order 1 0",
    },
];

// Reads the logs of all shards.
fn read_logs(alloc: Global, texts: &[&str], logs: &mut Vec<Vec<Record>>) -> bool {
    let mut read = true;
    for text in texts {
        let mut log = Vec::new(alloc);
        read = reads(alloc, *text, &mut log) && read;
        read = logs.push(log).is_ok() && read;
    }
    read
}

fn has_its_verdict(alloc: Global, case: &Case) -> bool {
    let mut logs = Vec::new(alloc);
    let read = read_logs(alloc, case.logs, &mut logs);
    let given = match lines(alloc, case.lines) {
        Ok(lines) => {
            let verdict = inspect(alloc, logs.as_slice(), lines.as_slice());
            drop(lines);
            match verdict {
                Ok(verdict) => is_printed(alloc, &VerdictText(verdict), case.verdict),
                Err(_) => false,
            }
        }
        Err(_) => false,
    };
    drop(logs);
    read && given
}

// A body that names a table costs much to prove, so a function hands each on.
fn single() -> &'static [Case] {
    &SINGLE
}

fn ordered() -> &'static [Case] {
    &ORDERED
}

fn torn() -> &'static [Case] {
    &TORN
}

fn looked() -> &'static [Case] {
    &LOOKED
}

fn renewed_logs() -> &'static [Case] {
    &RENEWED_LOGS
}

fn ended() -> &'static [Case] {
    &ENDED
}

fn retired() -> &'static [Case] {
    &RETIRED
}

/// Checks all rows.
pub fn go_over(wrong: &mut WrongRows, alloc: Global) {
    let tables = [
        single(),
        ordered(),
        torn(),
        looked(),
        renewed_logs(),
        ended(),
        retired(),
    ];
    for cases in &tables {
        for case in *cases {
            wrong.unless(has_its_verdict(alloc, case), case.name);
        }
    }
}
