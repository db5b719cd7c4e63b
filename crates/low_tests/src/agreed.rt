//! Whether the logs of two shards are of one moment, by what they say of one transaction.
use crate::checks::end;
use crate::text_logs::record_of;
use facts::Facts;
use host_files::{Known, check_agreement};
use made::{WrongRows, shard};
use std::alloc::Global;
use units::ShardNo;

// What the logs of shards 0 and 1 say, and whether they agree.
struct Row {
    name: &'static str,
    first: &'static str,
    second: &'static str,
    agree: bool,
}

static ROWS: [Row; 6] = [
    Row {
        name: "both tell of the commit",
        first: "opened 1\ncommit 1.1 111 0,1 - a=1\noutcome 1.1 committed 111",
        second: "opened 1\nprepare 1.1 0 110 - x=1\noutcome 1.1 committed 111",
        agree: true,
    },
    Row {
        name: "a part lacks its promise",
        first: "opened 1\ncommit 1.1 111 0,1 - a=1\noutcome 1.1 committed 111",
        second: "opened 1",
        agree: false,
    },
    Row {
        name: "a part has retired the id",
        first: "opened 1\ncommit 1.1 111 0,1 - a=1\noutcome 1.1 committed 111",
        second: "opened 1\nprepare 1.1 0 110 - x=1\noutcome 1.1 committed 111\nretired 1.2",
        agree: true,
    },
    Row {
        name: "a part has retired a lower id",
        first: "opened 1\ncommit 1.1 111 0,1 - a=1\noutcome 1.1 committed 111",
        second: "opened 1\nretired 1.1",
        agree: false,
    },
    Row {
        name: "the coordinator lacks its decision",
        first: "opened 1",
        second: "opened 1\nprepare 1.1 0 110 - x=1\noutcome 1.1 committed 111",
        agree: false,
    },
    Row {
        name: "the coordinator has retired the id",
        first: "opened 1\ncommit 1.1 111 0,1 - a=1\noutcome 1.1 committed 111\nretired 1.2",
        second: "opened 1\nprepare 1.1 0 110 - x=1\noutcome 1.1 committed 111",
        agree: true,
    },
];

// What the log of a shard says.
fn known(alloc: Global, shard: ShardNo, lines: &str) -> Option<Known> {
    let mut facts = Facts::new(alloc, shard);
    for line in lines.lines() {
        facts.reserve().ok()?;
        if facts.learn(64, record_of(alloc, line)?).is_err() {
            return None;
        }
    }
    Some(Known { facts, end: 64 })
}

// Whether the logs agree, if their records may stand in them.
fn agree(alloc: Global, row: &Row) -> Option<bool> {
    let logs = [
        known(alloc, shard(0), row.first)?,
        known(alloc, shard(1), row.second)?,
    ];
    Some(check_agreement(alloc, &logs).is_ok())
}

/// Shows that logs of two moments are told from those of one, and that a log is asked nothing of an id that it has retired.
#[test]
fn logs_of_one_moment_agree(rt: HostRuntime) {
    let mut wrong = WrongRows::none(rt.alloc());
    for row in &ROWS {
        wrong.unless(agree(rt.alloc(), row) == Some(row.agree), row.name);
    }
    end(&rt, wrong);
}
