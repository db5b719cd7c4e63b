//! What a log determines, and which records may come next.
use crate::checks::{Row, go_over_all};
use crate::text_logs::{record_of, txn_of};
use facts::{Facts, Status};
use made::{WrongRows, id, key, shard};
use record::{Committed, Prepared};
use std::alloc::Global;
use units::{Fault, Install, Stamp, TxnId};

// Learns a record if it may come next, and tells whether this is as wanted. If it may not come, it is refused as
// damage, handed back, and does not follow.
fn comes(alloc: Global, facts: &mut Facts, line: &str, learnt: bool) -> bool {
    let Ok(()) = facts.reserve() else {
        return false;
    };
    let Some(item) = record_of(alloc, line) else {
        return false;
    };
    match facts.learn(64, item) {
        Ok(()) => learnt,
        Err((fault, back)) => {
            let follows = facts.may_come(&back);
            drop(back);
            !learnt && !follows && fault == Fault::Damaged { offset: 64 }
        }
    }
}

// Tells whether each is learnt, or each refused.
fn all_come(alloc: Global, facts: &mut Facts, lines: &str, learnt: bool) -> bool {
    for line in lines.lines() {
        if !comes(alloc, facts, line, learnt) {
            return false;
        }
    }
    true
}

// The timestamps of a transaction's promise and of its decision, and its outcome.
type Standing = (Option<u64>, Option<u64>, Option<Option<u64>>);

// How a transaction stands. It has the timestamps of its promise and of its decision, whether it was aborted, its
// outcome, and whether it was settled by the shard that decided it.
#[derive(Clone, Copy)]
struct Known {
    number: u16,
    prepared: Option<u64>,
    decided: Option<u64>,
    aborted: bool,
    outcome: Option<Option<u64>>,
    settled: bool,
}

const UNKNOWN: Known = Known {
    number: 0,
    prepared: None,
    decided: None,
    aborted: false,
    outcome: None,
    settled: false,
};

// What a log determines, whatever the order of the ids in it. All ids below that of `retired` are retired, if there is one. An install is
// its timestamp and the letter of its key.
struct Determined {
    epoch: u64,
    floor: u64,
    horizon: u64,
    retired: Option<&'static str>,
    installs: &'static [(u64, u8)],
    known: &'static [Known],
}

/// The log of a shard, records of which none may come next, and what the log determines, if that is checked.
pub struct Case {
    what: &'static str,
    shard: u8,
    lines: &'static str,
    refused: &'static str,
    determined: Option<Determined>,
}

// What is determined of transactions.
static TRANSACTIONS: [Case; 5] = [
    Case {
        what: "a decision",
        shard: 0,
        lines: "opened 1\ncommit 1.1 111 0 - a=1",
        refused: "",
        determined: Some(Determined {
            epoch: 1,
            floor: 111,
            horizon: 0,
            retired: None,
            installs: &[],
            known: &[Known {
                number: 1,
                decided: Some(111),
                ..UNKNOWN
            }],
        }),
    },
    Case {
        what: "a decision that was settled",
        shard: 0,
        lines: "opened 1\ncommit 1.1 111 0 - a=1\noutcome 1.1 committed 111",
        refused: "",
        determined: Some(Determined {
            epoch: 1,
            floor: 111,
            horizon: 0,
            retired: None,
            installs: &[(111, b'a')],
            known: &[Known {
                number: 1,
                outcome: Some(Some(111)),
                settled: true,
                ..UNKNOWN
            }],
        }),
    },
    // An outcome aborted follows a promise, and is no abort decision.
    Case {
        what: "two promises that ended",
        shard: 1,
        lines: "opened 1\nprepare 1.3 0 200 - a=1\nprepare 1.2 0 300 - a=1\n\
            outcome 1.3 committed 250\nceiling 280\noutcome 1.2 aborted\nopened 2",
        refused: "",
        determined: Some(Determined {
            epoch: 2,
            floor: 300,
            horizon: 0,
            retired: None,
            installs: &[(250, b'a')],
            known: &[
                Known {
                    number: 2,
                    outcome: Some(None),
                    ..UNKNOWN
                },
                Known {
                    number: 3,
                    outcome: Some(Some(250)),
                    ..UNKNOWN
                },
            ],
        }),
    },
    Case {
        what: "aborts beside promises",
        shard: 1,
        lines: "opened 1\nabort 1.5\nprepare 1.3 0 200 - a=1\nabort 1.9\n\
            prepare 1.1 0 300 - a=1\noutcome 1.3 aborted\nabort 1.7",
        refused: "",
        determined: Some(Determined {
            epoch: 1,
            floor: 300,
            horizon: 0,
            retired: None,
            installs: &[],
            known: &[
                Known {
                    number: 3,
                    outcome: Some(None),
                    ..UNKNOWN
                },
                Known {
                    number: 1,
                    prepared: Some(300),
                    ..UNKNOWN
                },
                Known {
                    number: 4,
                    ..UNKNOWN
                },
                Known {
                    number: 5,
                    aborted: true,
                    ..UNKNOWN
                },
                Known {
                    number: 7,
                    aborted: true,
                    ..UNKNOWN
                },
                Known {
                    number: 9,
                    aborted: true,
                    ..UNKNOWN
                },
            ],
        }),
    },
    Case {
        what: "a promise that stands",
        shard: 1,
        lines: "opened 1\nprepare 1.2 0 200 - a=1\nabort 1.9",
        refused: "",
        determined: Some(Determined {
            epoch: 1,
            floor: 200,
            horizon: 0,
            retired: None,
            installs: &[],
            known: &[
                Known {
                    number: 2,
                    prepared: Some(200),
                    ..UNKNOWN
                },
                Known {
                    number: 9,
                    aborted: true,
                    ..UNKNOWN
                },
            ],
        }),
    },
];

// Openings and horizons.
static HORIZONS: [Case; 7] = [
    Case {
        what: "behind nothing",
        shard: 0,
        lines: "",
        refused: "opened 2\nabort 1.1\nceiling 5\nhorizon 0\nversion 5 a=1\nsettled 1.1 5 0\n\
            retired 1.5",
        determined: None,
    },
    Case {
        what: "behind an opening",
        shard: 0,
        lines: "opened 1",
        refused: "opened 1",
        determined: None,
    },
    Case {
        what: "behind two openings",
        shard: 0,
        lines: "opened 1\nopened 2",
        refused: "opened 4",
        determined: None,
    },
    // A horizon is above 0, and nothing was assigned.
    Case {
        what: "a horizon behind an opening",
        shard: 0,
        lines: "opened 1",
        refused: "horizon 0\nhorizon 1",
        determined: None,
    },
    // A horizon rises, and is not above the greatest timestamp, which it does not raise.
    Case {
        what: "behind a horizon",
        shard: 0,
        lines: "opened 1\nceiling 300\nhorizon 200",
        refused: "horizon 0\nhorizon 199\nhorizon 200\nhorizon 301",
        determined: Some(Determined {
            epoch: 1,
            floor: 300,
            horizon: 200,
            retired: None,
            installs: &[],
            known: &[],
        }),
    },
    Case {
        what: "behind a horizon at the greatest timestamp",
        shard: 0,
        lines: "opened 1\nceiling 300\nhorizon 1\nhorizon 300\nopened 2",
        refused: "horizon 300\nhorizon 301",
        determined: Some(Determined {
            epoch: 2,
            floor: 300,
            horizon: 300,
            retired: None,
            installs: &[],
            known: &[],
        }),
    },
    // The versions of a log are all those that it installs, whatever its horizon.
    Case {
        what: "versions behind a horizon",
        shard: 0,
        lines: "opened 1\ncommit 1.1 5 0 - a=1\noutcome 1.1 committed 5\ncommit 1.2 9 0 - a=1\n\
            outcome 1.2 committed 9\nhorizon 9",
        refused: "",
        determined: Some(Determined {
            epoch: 1,
            floor: 9,
            horizon: 9,
            retired: None,
            installs: &[(5, b'a'), (9, b'a')],
            known: &[Known {
                number: 1,
                outcome: Some(Some(5)),
                settled: true,
                ..UNKNOWN
            }],
        }),
    },
];

// What may not follow promises, decisions and ends.
static ENDS: [Case; 6] = [
    // A timestamp 0, a coordinator that is not below the shard, a least part that is another shard, an end of
    // nothing.
    Case {
        what: "behind an opening of shard 1",
        shard: 1,
        lines: "opened 1",
        refused: "prepare 1.1 0 0 - a=1\nprepare 1.1 1 5 - a=1\ncommit 1.1 0 1 - a=1\n\
            commit 1.1 5 0,1 - a=1\ncommit 1.1 5 2 - a=1\noutcome 1.1 committed 5\n\
            outcome 1.1 aborted",
        determined: None,
    },
    // A second promise, decision or abort, and an end that is not the one that was begun.
    Case {
        what: "behind a promise",
        shard: 1,
        lines: "opened 1\nprepare 1.1 0 5 - a=1",
        refused: "prepare 1.1 0 5 - a=1\ncommit 1.1 5 1 - a=1\nabort 1.1\noutcome 1.1 committed 4",
        determined: None,
    },
    Case {
        what: "behind a decision",
        shard: 1,
        lines: "opened 1\ncommit 1.1 5 1 - a=1",
        refused: "prepare 1.1 0 5 - a=1\ncommit 1.1 5 1 - a=1\nabort 1.1\n\
            outcome 1.1 committed 6\noutcome 1.1 aborted",
        determined: None,
    },
    Case {
        what: "behind an abort",
        shard: 1,
        lines: "opened 1\nabort 1.1",
        refused: "prepare 1.1 0 5 - a=1\ncommit 1.1 5 1 - a=1\nabort 1.1\noutcome 1.1 aborted",
        determined: None,
    },
    // A second end.
    Case {
        what: "behind a decision that was settled",
        shard: 1,
        lines: "opened 1\ncommit 1.1 5 1 - a=1\noutcome 1.1 committed 5",
        refused: "outcome 1.1 committed 5",
        determined: None,
    },
    Case {
        what: "behind a promise that was aborted",
        shard: 1,
        lines: "opened 1\nprepare 1.1 0 5 - a=1\noutcome 1.1 aborted",
        refused: "outcome 1.1 committed 6",
        determined: None,
    },
];

// What renewed logs determine.
static RENEWED: [Case; 3] = [
    Case {
        what: "behind a base",
        shard: 0,
        lines: "base 3 111 50",
        refused: "base 3 111 50\nopened 3\nopened 5\nhorizon 50\nhorizon 112\nsettled 1.1 0 0\n\
            settled 1.1 5 1\nclosed 1.1 0 aborted",
        determined: Some(Determined {
            epoch: 3,
            floor: 111,
            horizon: 50,
            retired: None,
            installs: &[],
            known: &[UNKNOWN],
        }),
    },
    Case {
        what: "one settled commit",
        shard: 0,
        lines: "base 1 111 0\nversion 111 a=1\nsettled 1.1 111 0",
        refused: "version 112 a=1\nsettled 1.1 111 0\ncommit 1.1 111 0 - a=1\nabort 1.1\n\
            outcome 1.1 committed 111\nopened 1",
        determined: Some(Determined {
            epoch: 1,
            floor: 111,
            horizon: 0,
            retired: None,
            installs: &[(111, b'a')],
            known: &[Known {
                number: 1,
                outcome: Some(Some(111)),
                settled: true,
                ..UNKNOWN
            }],
        }),
    },
    Case {
        what: "two closed promises",
        shard: 1,
        lines: "base 2 200 50\nversion 100 y=1\nversion 90 z!\nclosed 1.1 0 committed 211\n\
            closed 1.2 0 aborted\nopened 3",
        refused: "closed 1.3 0 committed 211\nclosed 1.3 0 aborted\nsettled 1.3 211 1\n\
            version 300 z=1\noutcome 1.2 aborted\nprepare 1.2 0 300 - a=1",
        determined: Some(Determined {
            epoch: 3,
            floor: 211,
            horizon: 50,
            retired: None,
            installs: &[(100, b'y'), (90, b'z')],
            known: &[
                Known {
                    number: 1,
                    outcome: Some(Some(211)),
                    ..UNKNOWN
                },
                Known {
                    number: 2,
                    outcome: Some(None),
                    ..UNKNOWN
                },
            ],
        }),
    },
];

// What logs determine of ids that are retired.
static RETIRED: [Case; 7] = [
    // Nothing is known of 1.1 and 1.2, whose version stays. They end no more, and nothing new is said of them.
    Case {
        what: "ids that are retired",
        shard: 0,
        lines: "opened 1\ncommit 1.1 5 0 - a=1\noutcome 1.1 committed 5\nabort 1.2\nabort 1.9\n\
            retired 1.5",
        refused: "commit 1.1 5 0 - a=1\noutcome 1.1 committed 5\nabort 1.1\nabort 1.2\n\
            abort 1.4\ncommit 1.4 6 0 - a=1\noutcome 1.4 aborted\nabort 1.9",
        determined: Some(Determined {
            epoch: 1,
            floor: 5,
            horizon: 0,
            retired: Some("1.5"),
            installs: &[(5, b'a')],
            known: &[
                Known {
                    number: 1,
                    ..UNKNOWN
                },
                Known {
                    number: 2,
                    ..UNKNOWN
                },
                Known {
                    number: 9,
                    aborted: true,
                    ..UNKNOWN
                },
            ],
        }),
    },
    Case {
        what: "what may not follow retired ids at another shard",
        shard: 1,
        lines: "opened 1\nprepare 1.2 0 200 - a=1\noutcome 1.2 committed 250\n\
            prepare 1.7 0 300 - b=1\nretired 1.5",
        refused: "prepare 1.2 0 260 - a=1\nprepare 1.4 0 310 - c=1\noutcome 1.2 committed 250\n\
            outcome 1.2 aborted\nprepare 1.7 0 310 - b=1",
        determined: Some(Determined {
            epoch: 1,
            floor: 300,
            horizon: 0,
            retired: Some("1.5"),
            installs: &[(250, b'a')],
            known: &[
                Known {
                    number: 2,
                    ..UNKNOWN
                },
                Known {
                    number: 7,
                    prepared: Some(300),
                    ..UNKNOWN
                },
            ],
        }),
    },
    // It is not below itself.
    Case {
        what: "the id to which ids are retired",
        shard: 0,
        lines: "opened 1\nretired 1.5\ncommit 1.5 7 0 - a=1",
        refused: "retired 1.5\nretired 1.4\ncommit 1.4 8 0 - b=1\nabort 1.5",
        determined: Some(Determined {
            epoch: 1,
            floor: 7,
            horizon: 0,
            retired: Some("1.5"),
            installs: &[],
            known: &[Known {
                number: 5,
                decided: Some(7),
                ..UNKNOWN
            }],
        }),
    },
    Case {
        what: "retired ids that rise",
        shard: 0,
        lines: "opened 1\nabort 1.3\nretired 1.3\nabort 1.5\nretired 1.6\nopened 2",
        refused: "retired 1.3\nretired 1.5\nretired 1.6\nabort 1.3\nabort 1.5",
        determined: Some(Determined {
            epoch: 2,
            floor: 0,
            horizon: 0,
            retired: Some("1.6"),
            installs: &[],
            known: &[
                Known {
                    number: 3,
                    ..UNKNOWN
                },
                Known {
                    number: 5,
                    ..UNKNOWN
                },
            ],
        }),
    },
    // A run comes before the number in it.
    Case {
        what: "ids of an earlier run",
        shard: 0,
        lines: "opened 1\nabort 1.9\nabort 2.3\nretired 2.1\nabort 2.1\nabort 3.0",
        refused: "abort 1.9\nabort 1.4611686018427387903\nabort 2.0\nabort 2.3\nretired 1.10\n\
            retired 2.0\nretired 2.1",
        determined: Some(Determined {
            epoch: 1,
            floor: 0,
            horizon: 0,
            retired: Some("2.1"),
            installs: &[],
            known: &[Known {
                number: 9,
                ..UNKNOWN
            }],
        }),
    },
    Case {
        what: "a renewed log with retired ids",
        shard: 1,
        lines: "base 2 200 50\nversion 100 y=1\nretired 1.5\nabort 1.6\n\
            closed 1.7 0 committed 100",
        refused: "version 110 y=1\nversion 90 z!\nclosed 1.4 0 aborted\nabort 1.4\n\
            settled 1.4 100 1\nclosed 1.6 0 aborted\nretired 1.4\nretired 1.5\nbase 2 200 50",
        determined: Some(Determined {
            epoch: 2,
            floor: 200,
            horizon: 50,
            retired: Some("1.5"),
            installs: &[(100, b'y')],
            known: &[
                Known {
                    number: 6,
                    aborted: true,
                    ..UNKNOWN
                },
                Known {
                    number: 7,
                    outcome: Some(Some(100)),
                    ..UNKNOWN
                },
            ],
        }),
    },
    Case {
        what: "a renewed log of which more is retired",
        shard: 1,
        lines: "base 2 200 50\nretired 1.5\nclosed 1.7 0 committed 100\nopened 3\nretired 1.8",
        refused: "closed 1.9 0 aborted\nabort 1.7\noutcome 1.7 committed 100\nretired 1.8",
        determined: Some(Determined {
            epoch: 3,
            floor: 200,
            horizon: 50,
            retired: Some("1.8"),
            installs: &[],
            known: &[Known {
                number: 7,
                ..UNKNOWN
            }],
        }),
    },
];

// Tells how a transaction stands by what readers find.
fn stands_as(
    prepared: Option<&Prepared>,
    decided: Option<&Committed>,
    outcome: Option<Option<Stamp>>,
) -> Standing {
    let prepared = match prepared {
        Some(promise) => Some(promise.at.micros()),
        None => None,
    };
    let decided = match decided {
        Some(decision) => Some(decision.at.micros()),
        None => None,
    };
    let outcome = match outcome {
        Some(Some(at)) => Some(Some(at.micros())),
        Some(None) => Some(None),
        None => None,
    };
    (prepared, decided, outcome)
}

// Tells whether it stands so by the readers of the facts, and by those of its status.
fn is_known(facts: &Facts, row: &Known) -> bool {
    let txn = id(row.number);
    let status = facts.status(txn);
    let by_status = match status {
        Some(status) => stands_as(status.prepared(), status.committed(), status.outcome()),
        None => (None, None, None),
    };
    let by_facts = stands_as(
        facts.prepared(txn),
        facts.committed(txn),
        facts.outcome(txn),
    );
    let aborted = matches!(status, Some(Status::Aborted));
    let settled = matches!(status, Some(Status::Settled { .. }));
    let wanted = (row.prepared, row.decided, row.outcome);
    (by_status == wanted)
        & (by_facts == wanted)
        & (aborted == row.aborted)
        & (settled == row.settled)
        & (facts.aborted(txn) == row.aborted)
}

fn are_installs(installs: &[Install], rows: &[(u64, u8)]) -> bool {
    for (number, install) in installs.iter().enumerate() {
        match rows.get(number) {
            Some((at, letter)) if install.at.micros() == *at && install.key == key(*letter) => {}
            _ => return false,
        }
    }
    installs.len() == rows.len()
}

// Tells whether these are retired, and the last of them, which is one less in its run.
fn is_retired(facts: &Facts, row: Option<&str>) -> bool {
    match row {
        Some(word) => {
            let below = txn_of(word);
            let last = TxnId::new(below.run(), below.number().saturating_sub(1));
            facts.retired() == Some(below)
                && !facts.is_retired(below)
                && match last {
                    Some(last) => facts.is_retired(last) && !facts.rises(last),
                    None => false,
                }
        }
        None => facts.retired().is_none() && !facts.is_retired(id(0)),
    }
}

fn is_determined(facts: &Facts, row: &Determined) -> bool {
    for known in row.known {
        if !is_known(facts, known) {
            return false;
        }
    }
    let (floor, horizon) = (facts.floor().micros(), facts.horizon().micros());
    (facts.epoch(), floor, horizon) == (row.epoch, row.floor, row.horizon)
        && is_retired(facts, row.retired)
        && are_installs(facts.installs(), row.installs)
}

// The records come one after another, none of the refused ones may come next, and the log determines what it should.
impl Row for Case {
    fn tell(&self, wrong: &mut WrongRows, rt: &HostRuntime) {
        let alloc = rt.alloc();
        let shard = shard(self.shard % 16);
        let mut facts = Facts::new(alloc, shard);
        let come = all_come(alloc, &mut facts, self.lines, true)
            && all_come(alloc, &mut facts, self.refused, false);
        let determined = match &self.determined {
            Some(determined) => is_determined(&facts, determined),
            None => true,
        };
        let same = facts.shard() == shard;
        drop(facts);
        wrong.unless(come & determined & same, self.what);
    }
}

// A body that names a table costs much to prove, so a function hands each on.
fn transactions() -> &'static [Case] {
    &TRANSACTIONS
}

fn horizons() -> &'static [Case] {
    &HORIZONS
}

fn ends() -> &'static [Case] {
    &ENDS
}

fn renewed() -> &'static [Case] {
    &RENEWED
}

fn retired() -> &'static [Case] {
    &RETIRED
}

/// Checks what logs determine, and which records may come next.
pub fn tell_cases(wrong: &mut WrongRows, rt: &HostRuntime) {
    go_over_all(
        wrong,
        rt,
        "what logs determine",
        &[transactions(), horizons(), ends(), renewed(), retired()],
    );
}
