//! The records of renewed logs, as a ledger hands them on.
ghost use Rattle.std.specs.Prelude.{IsTrue};
ghost use Rattle.ledger.specs.Ledger.{CanInstall};

use crate::checks::{Row, are_printed, go_over};
use crate::text_logs::record_of;
use ledger::{Ledger, Recorder};
use made::{WrongRows, shard};
use record::Record;
use std::alloc::Global;
use units::Fault;

// The records that were handed on.
struct Handed {
    records: Vec<Record>,
}

impl Recorder for Handed {
    ghost records = { λ handed. handed.records.items };

    fn record(&mut self, alloc: Global, item: &Record) -> Result<(), Fault> {
        self.records.push(item.copy(alloc)?)?;
        Ok(())
    }
}

/// A log, and the records of the renewed one.
pub struct Renewal {
    what: &'static str,
    shard: u8,
    lines: &'static str,
    handed: &'static str,
}

static HANDED: [Renewal; 12] = [
    Renewal {
        what: "a commit that settled",
        shard: 0,
        lines: "opened 1\ncommit 1.1 111 0 - a=1\noutcome 1.1 committed 111",
        handed: "base 1 111 0\nversion 111 a=1\nsettled 1.1 111 0",
    },
    Renewal {
        what: "an abort, and a ceiling",
        shard: 0,
        lines: "opened 1\nceiling 50\nabort 1.9",
        handed: "base 1 50 0\nabort 1.9",
    },
    Renewal {
        what: "a promise that stands",
        shard: 1,
        lines: "opened 1\nprepare 1.3 0 60 - b=1\nopened 2",
        handed: "base 2 60 0\nprepare 1.3 0 60 - b=1",
    },
    Renewal {
        what: "promises that were closed",
        shard: 1,
        lines: "opened 1\nprepare 1.4 0 70 - c=1\noutcome 1.4 committed 80\n\
            prepare 1.5 0 90 - d=1\noutcome 1.5 aborted",
        handed: "base 1 90 0\nversion 80 c=1\nclosed 1.4 0 committed 80\nclosed 1.5 0 aborted",
    },
    Renewal {
        what: "versions below, at and above a horizon",
        shard: 0,
        lines: "opened 1\ncommit 1.1 200 0 - a=1\noutcome 1.1 committed 200\n\
            commit 1.2 250 0 - b=1\noutcome 1.2 committed 250\ncommit 1.3 300 0 - a=1\n\
            outcome 1.3 committed 300\ncommit 1.4 400 0 - a=1\noutcome 1.4 committed 400\n\
            horizon 300",
        handed: "base 1 400 300\nversion 300 a=1\nversion 400 a=1\nversion 250 b=1\n\
            settled 1.1 200 0\nsettled 1.2 250 0\nsettled 1.3 300 0\nsettled 1.4 400 0",
    },
    Renewal {
        what: "a horizon between two versions",
        shard: 0,
        lines: "opened 1\ncommit 1.1 100 0 - a=1\noutcome 1.1 committed 100\n\
            commit 1.2 200 0 - a=1\noutcome 1.2 committed 200\ncommit 1.3 300 0 - a=1\n\
            outcome 1.3 committed 300\nhorizon 299",
        handed: "base 1 300 299\nversion 200 a=1\nversion 300 a=1\nsettled 1.1 100 0\n\
            settled 1.2 200 0\nsettled 1.3 300 0",
    },
    Renewal {
        what: "ids and keys that do not come in order",
        shard: 0,
        lines: "opened 1\nabort 1.9\ncommit 1.5 30 0 - c=1\nabort 1.2\ncommit 1.7 20 0,1 - b=1\n\
            outcome 1.5 committed 30\ncommit 1.8 35 0 - a=1\noutcome 1.8 committed 35\n\
            commit 1.3 10 0 - d=1\nabort 1.4",
        handed: "base 1 35 0\nversion 35 a=1\nversion 30 c=1\nabort 1.2\nabort 1.4\n\
            settled 1.5 30 0\nsettled 1.8 35 0\nabort 1.9\ncommit 1.3 10 0 - d=1\n\
            commit 1.7 20 0,1 - b=1",
    },
    Renewal {
        what: "a renewed log, with an erasure and with a promise behind",
        shard: 1,
        lines: "base 2 111 20\nversion 10 a=1\nversion 30 a!\nversion 5 b=1\n\
            closed 1.7 0 committed 100\nabort 1.1\nopened 3\nprepare 1.6 0 120 - b=1",
        handed: "base 3 120 20\nversion 10 a=1\nversion 30 a!\nversion 5 b=1\nabort 1.1\n\
            closed 1.7 0 committed 100\nprepare 1.6 0 120 - b=1",
    },
    // Versions stay, whoever wrote them.
    Renewal {
        what: "those who ended below a retired id, and those who did not",
        shard: 0,
        lines: "opened 1\ncommit 1.1 111 0 - a=1\noutcome 1.1 committed 111\nabort 1.2\n\
            commit 1.6 120 0 - c=1\noutcome 1.6 committed 120\nabort 1.9\nretired 1.5\n\
            commit 1.7 130 0 - b=1",
        handed: "base 1 130 0\nversion 111 a=1\nversion 120 c=1\nretired 1.5\nsettled 1.6 120 0\n\
            abort 1.9\ncommit 1.7 130 0 - b=1",
    },
    Renewal {
        what: "promises that were closed below a retired id",
        shard: 1,
        lines: "opened 1\nprepare 1.4 0 70 - c=1\noutcome 1.4 committed 80\n\
            prepare 1.5 0 90 - d=1\noutcome 1.5 aborted\nretired 1.5\nhorizon 80",
        handed: "base 1 90 80\nversion 80 c=1\nretired 1.5\nclosed 1.5 0 aborted",
    },
    Renewal {
        what: "ids of which none has ended",
        shard: 0,
        lines: "opened 1\nretired 3.0",
        handed: "base 1 0 0\nretired 3.0",
    },
    // The last retired id alone is kept.
    Renewal {
        what: "a renewed log of which more is retired",
        shard: 1,
        lines: "base 2 200 50\nversion 111 z=1\nretired 1.5\nclosed 1.7 0 committed 100\n\
            closed 1.9 0 aborted\nopened 3\nretired 1.8",
        handed: "base 3 200 50\nversion 111 z=1\nretired 1.8\nclosed 1.9 0 aborted",
    },
];

// Tells whether an outcome is above the versions of the keys that it writes.
fn can_install(ledger: &Ledger, item: &Record) -> bool
    ensures { IsTrue result → CanInstall ledger.now.facts item.now }
{
    match item {
        Record::Outcome {
            txn,
            outcome: Some(at),
        } => ledger.takes_standing(*txn, *at),
        Record::Outcome {
            txn: _,
            outcome: None,
        } => true,
        Record::Opened { .. } | Record::Ceiling { .. } | Record::Horizon { .. } => true,
        Record::Prepare(_) | Record::Commit(_) | Record::Abort { .. } => true,
        Record::Base { .. } | Record::Version(_) => true,
        Record::Settled { .. } | Record::Closed { .. } | Record::Retired { .. } => true,
    }
}

/// Tells whether the ledger learns all of these records: each may come next.
pub fn all_come(alloc: Global, ledger: &mut Ledger, lines: &str) -> bool {
    for line in lines.lines() {
        let Ok(()) = ledger.reserve() else {
            return false;
        };
        let Some(item) = record_of(alloc, line) else {
            return false;
        };
        if ledger.may_come(&item) && can_install(ledger, &item) {
            ledger.learn(item);
        } else {
            drop(item);
            return false;
        }
    }
    true
}

// Tells whether the ledger hands on these records, and no others.
fn hands_on(alloc: Global, ledger: &Ledger, lines: &str) -> bool {
    if ledger.epoch() == 0 {
        return false;
    }
    let mut handed = Handed {
        records: Vec::new(alloc),
    };
    let done = ledger.renew(alloc, &mut handed).is_ok();
    let Handed { records } = handed;
    let same = done && are_printed(alloc, records.as_slice(), lines);
    drop(records);
    same
}

// The records come one after another, and the renewed log is made of those that it should.
impl Row for Renewal {
    fn tell(&self, wrong: &mut WrongRows, rt: &HostRuntime) {
        let alloc = rt.alloc();
        let mut ledger = Ledger::new(alloc, shard(self.shard % 16));
        let holds = all_come(alloc, &mut ledger, self.lines)
            && hands_on(alloc, &ledger, self.handed);
        drop(ledger);
        wrong.unless(holds, self.what);
    }
}

/// Checks which records renewed logs are made of.
pub fn tell_handed(wrong: &mut WrongRows, rt: &HostRuntime) {
    go_over(wrong, rt, "records that are handed on", &HANDED);
}
