//! Logs that are opened again: what they leave, and which are refused.
use crate::checks::{Row, go_over_all};
use crate::files::put_lines;
use gatelog::{Entry, GateLog};
use made::{FIRST_GATE, WrongRows, key};
use memory::State;
use recovery::rebuild;
use simdisk::SimDisk;
use std::alloc::Global;
use units::{Book, Fault, Setup, ShardNo, Splits, Stamp, Stride, TxnId};

/// What a log leaves. It has the first transaction that is prepared and the first that is decided, each by its number
/// and timestamp, or 0 if there is none. It has the greatest timestamp, the safe time, the horizon, the epoch, and
/// how many versions there are.
#[derive(Clone, Copy, PartialEq, Eq)]
pub struct Shown {
    pub prepared: (u64, u64),
    pub decided: (u64, u64),
    pub last: u64,
    pub safe: u64,
    pub horizon: u64,
    pub epoch: u64,
    pub installs: usize,
}

/// Nothing stands, in the first epoch.
pub const NOTHING: Shown = Shown {
    prepared: (0, 0),
    decided: (0, 0),
    last: 0,
    safe: 0,
    horizon: 0,
    epoch: 1,
    installs: 0,
};

fn standing(found: Option<(TxnId, Stamp)>) -> (u64, u64) {
    match found {
        Some((txn, at)) => (txn.number(), at.micros()),
        None => (0, 0),
    }
}

fn seen(state: &State) -> Shown {
    Shown {
        prepared: standing(state.nth_prepared(0)),
        decided: standing(state.nth_decided(0)),
        last: state.last().micros(),
        safe: state.safe().micros(),
        horizon: state.horizon().micros(),
        epoch: state.epoch().number(),
        installs: state.installs().len(),
    }
}

type Rebuilt = Result<Option<Shown>, Fault>;

/// The log of a shard with so many promises at its end, and what it leaves.
pub struct Reopened {
    pub what: &'static str,
    pub shard: u8,
    pub lines: &'static str,
    pub promises: u16,
    pub left: Rebuilt,
}

static REOPENED: [Reopened; 23] = [
    Reopened {
        what: "a promise stands",
        shard: 1,
        lines: "opened 1\nprepare 1.2 0 200 - z=1\nopened 2",
        promises: 0,
        left: Ok(Some(Shown {
            prepared: (2, 200),
            last: 200,
            safe: 199,
            epoch: 2,
            ..NOTHING
        })),
    },
    Reopened {
        what: "a decision stands until its outcome",
        shard: 0,
        lines: "opened 1\ncommit 1.1 111 0 - a=1",
        promises: 0,
        left: Ok(Some(Shown {
            decided: (1, 111),
            last: 111,
            safe: 110,
            ..NOTHING
        })),
    },
    Reopened {
        what: "a decision has its outcome",
        shard: 0,
        lines: "opened 1\ncommit 1.1 111 0 - a=1\noutcome 1.1 committed 111",
        promises: 0,
        left: Ok(Some(Shown {
            last: 111,
            safe: 111,
            installs: 1,
            ..NOTHING
        })),
    },
    Reopened {
        what: "a ceiling is the last timestamp",
        shard: 1,
        lines: "opened 1\nceiling 200",
        promises: 0,
        left: Ok(Some(Shown {
            last: 200,
            safe: 200,
            ..NOTHING
        })),
    },
    Reopened {
        what: "no record",
        shard: 1,
        lines: "",
        promises: 0,
        left: Ok(None),
    },
    Reopened {
        what: "another epoch than the first",
        shard: 1,
        lines: "opened 2",
        promises: 0,
        left: Err(Fault::Damaged { offset: FIRST_GATE }),
    },
    Reopened {
        what: "a promise before any opening",
        shard: 1,
        lines: "prepare 1.2 0 200 - z=1",
        promises: 0,
        left: Err(Fault::Damaged { offset: FIRST_GATE }),
    },
    Reopened {
        what: "a strange key before any opening",
        shard: 1,
        lines: "prepare 1.2 0 200 - a=1",
        promises: 0,
        left: Err(Fault::Stranger),
    },
    Reopened {
        what: "a strange key before damage",
        shard: 1,
        lines: "opened 1\nprepare 1.2 0 200 - a=1\nopened 9",
        promises: 0,
        left: Err(Fault::Stranger),
    },
    Reopened {
        what: "another holds the key",
        shard: 1,
        lines: "opened 1\nprepare 1.2 0 200 - z=1\nprepare 1.3 0 300 - z=1",
        promises: 0,
        left: Err(Fault::Damaged {
            offset: FIRST_GATE + 55,
        }),
    },
    Reopened {
        what: "a version of the key is not below it",
        shard: 0,
        lines: "opened 1\ncommit 1.1 111 0 - a=1\noutcome 1.1 committed 111\ncommit 1.2 111 0 - a=1",
        promises: 0,
        left: Err(Fault::Damaged {
            offset: FIRST_GATE + 87,
        }),
    },
    // The greatest horizon counts.
    Reopened {
        what: "two horizons",
        shard: 1,
        lines: "opened 1\nceiling 200\nhorizon 100\nhorizon 150\nopened 2",
        promises: 0,
        left: Ok(Some(Shown {
            last: 200,
            safe: 200,
            horizon: 150,
            epoch: 2,
            ..NOTHING
        })),
    },
    Reopened {
        what: "a horizon is not above the former",
        shard: 1,
        lines: "opened 1\nceiling 200\nhorizon 150\nhorizon 150",
        promises: 0,
        left: Err(Fault::Damaged {
            offset: FIRST_GATE + 42,
        }),
    },
    Reopened {
        what: "a horizon is above the greatest timestamp",
        shard: 1,
        lines: "opened 1\nceiling 200\nhorizon 201",
        promises: 0,
        left: Err(Fault::Damaged {
            offset: FIRST_GATE + 28,
        }),
    },
    Reopened {
        what: "a horizon below what stands",
        shard: 1,
        lines: "opened 1\nprepare 1.2 0 200 - z=1\nhorizon 199",
        promises: 0,
        left: Ok(Some(Shown {
            prepared: (2, 200),
            last: 200,
            safe: 199,
            horizon: 199,
            ..NOTHING
        })),
    },
    Reopened {
        what: "a horizon is not below a promise that stands",
        shard: 1,
        lines: "opened 1\nprepare 1.2 0 200 - z=1\nhorizon 200",
        promises: 0,
        left: Err(Fault::Damaged {
            offset: FIRST_GATE + 55,
        }),
    },
    Reopened {
        what: "a horizon is not below a decision that stands",
        shard: 0,
        lines: "opened 1\ncommit 1.1 111 0 - a=1\nhorizon 111",
        promises: 0,
        left: Err(Fault::Damaged {
            offset: FIRST_GATE + 56,
        }),
    },
    // What is settled does not stand, and its version stays in the log.
    Reopened {
        what: "a horizon at what was settled",
        shard: 0,
        lines: "opened 1\ncommit 1.1 111 0 - a=1\noutcome 1.1 committed 111\n\
            commit 1.2 222 0 - a=1\noutcome 1.2 committed 222\nhorizon 222",
        promises: 0,
        left: Ok(Some(Shown {
            last: 222,
            safe: 222,
            horizon: 222,
            installs: 2,
            ..NOTHING
        })),
    },
    Reopened {
        what: "a promise above an earlier horizon",
        shard: 1,
        lines: "opened 1\nceiling 200\nhorizon 150\nprepare 1.2 0 151 - z=1",
        promises: 0,
        left: Ok(Some(Shown {
            prepared: (2, 151),
            last: 200,
            safe: 150,
            horizon: 150,
            ..NOTHING
        })),
    },
    Reopened {
        what: "a promise is not above an earlier horizon",
        shard: 1,
        lines: "opened 1\nceiling 200\nhorizon 150\nprepare 1.2 0 150 - z=1",
        promises: 0,
        left: Err(Fault::Damaged {
            offset: FIRST_GATE + 42,
        }),
    },
    Reopened {
        what: "a decision is not above an earlier horizon",
        shard: 0,
        lines: "opened 1\nceiling 200\nhorizon 150\ncommit 1.1 150 0 - a=1",
        promises: 0,
        left: Err(Fault::Damaged {
            offset: FIRST_GATE + 42,
        }),
    },
    // 1,024 rows may stand, and no more.
    Reopened {
        what: "a full table",
        shard: 1,
        lines: "opened 1",
        promises: 1024,
        left: Ok(Some(Shown {
            prepared: (0, 200),
            last: 200,
            safe: 199,
            ..NOTHING
        })),
    },
    // Each frame has 45 bytes; the first follows that of the opening, of 14.
    Reopened {
        what: "too many rows",
        shard: 1,
        lines: "opened 1",
        promises: 1025,
        left: Err(Fault::Damaged {
            offset: FIRST_GATE + 46_094,
        }),
    },
];

// Logs with retired ids. The frame of one has 22 bytes, that of an opening 14, of a promise 41, of a decision 42, of an outcome
// committed 31.
static RETIRED: [Reopened; 12] = [
    Reopened {
        what: "those who ended are retired",
        shard: 1,
        lines: "opened 1\nprepare 1.2 0 200 - z=1\noutcome 1.2 committed 201\nretired 1.5\n\
            opened 2",
        promises: 0,
        left: Ok(Some(Shown {
            last: 201,
            safe: 201,
            epoch: 2,
            installs: 1,
            ..NOTHING
        })),
    },
    Reopened {
        what: "a promise stands above the retired ids",
        shard: 1,
        lines: "opened 1\nprepare 1.7 0 200 - z=1\nretired 1.5",
        promises: 0,
        left: Ok(Some(Shown {
            prepared: (7, 200),
            last: 200,
            safe: 199,
            ..NOTHING
        })),
    },
    Reopened {
        what: "the id to which ids are retired stands",
        shard: 1,
        lines: "opened 1\nprepare 1.5 0 200 - z=1\nretired 1.5",
        promises: 0,
        left: Ok(Some(Shown {
            prepared: (5, 200),
            last: 200,
            safe: 199,
            ..NOTHING
        })),
    },
    Reopened {
        what: "a retired id is above a promise that stands",
        shard: 1,
        lines: "opened 1\nprepare 1.2 0 200 - z=1\nretired 1.3",
        promises: 0,
        left: Err(Fault::Damaged {
            offset: FIRST_GATE + 55,
        }),
    },
    Reopened {
        what: "a retired id is above a decision that stands",
        shard: 0,
        lines: "opened 1\ncommit 1.1 111 0 - a=1\nretired 2.0",
        promises: 0,
        left: Err(Fault::Damaged {
            offset: FIRST_GATE + 56,
        }),
    },
    Reopened {
        what: "a retired id that does not rise",
        shard: 1,
        lines: "opened 1\nretired 1.3\nretired 1.3",
        promises: 0,
        left: Err(Fault::Damaged {
            offset: FIRST_GATE + 36,
        }),
    },
    Reopened {
        what: "a retired id that falls",
        shard: 1,
        lines: "opened 1\nretired 2.0\nretired 1.3",
        promises: 0,
        left: Err(Fault::Damaged {
            offset: FIRST_GATE + 36,
        }),
    },
    Reopened {
        what: "a retired id behind nothing",
        shard: 1,
        lines: "retired 1.3",
        promises: 0,
        left: Err(Fault::Damaged { offset: FIRST_GATE }),
    },
    Reopened {
        what: "a promise of a retired id",
        shard: 1,
        lines: "opened 1\nretired 1.3\nprepare 1.2 0 200 - z=1",
        promises: 0,
        left: Err(Fault::Damaged {
            offset: FIRST_GATE + 36,
        }),
    },
    Reopened {
        what: "a decision of a retired id",
        shard: 0,
        lines: "opened 1\nretired 1.3\ncommit 1.2 111 0 - a=1",
        promises: 0,
        left: Err(Fault::Damaged {
            offset: FIRST_GATE + 36,
        }),
    },
    Reopened {
        what: "an abort of a retired id",
        shard: 0,
        lines: "opened 1\nretired 1.3\nabort 1.2",
        promises: 0,
        left: Err(Fault::Damaged {
            offset: FIRST_GATE + 36,
        }),
    },
    Reopened {
        what: "an outcome of a retired id",
        shard: 0,
        lines: "opened 1\ncommit 1.1 111 0 - a=1\noutcome 1.1 committed 111\nretired 1.3\n\
            outcome 1.1 committed 111",
        promises: 0,
        left: Err(Fault::Damaged {
            offset: FIRST_GATE + 109,
        }),
    },
];

// Logs promises at 200, each of a transaction 1.number that writes a key of its own of five bytes.
fn put_promises(alloc: Global, log: &mut GateLog<SimDisk>, count: u16) -> bool {
    for number in 0..count {
        let key = u32::from(number) + 1_000;
        let Ok(line) = format!(in alloc; "prepare 1.{number} 0 200 - z{key}=1") else {
            return false;
        };
        let promised = put_lines(alloc, log, line.as_str());
        drop(line);
        if !promised {
            return false;
        }
    }
    true
}

// Gives what the entries of its log leave of a shard, or why they are refused. It is one of two, which are split at
// `m`.
fn rebuilt(alloc: Global, number: u8, entries: &[Entry]) -> Rebuilt {
    let (Some(shard), Some(stride)) = (ShardNo::new(number), Stride::new(0)) else {
        return Err(Fault::Memory);
    };
    let setup = Setup {
        shard,
        splits: Splits::new(alloc, &[key(b'm')])?,
        stride,
        book: Book::Off,
    };
    let state = rebuild(alloc, entries, &setup);
    drop(setup);
    match state {
        Ok(Some(state)) => {
            let left = seen(&state);
            state.stop();
            Ok(Some(left))
        }
        Ok(None) => Ok(None),
        Err(fault) => Err(fault),
    }
}

impl Row for Reopened {
    fn tell(&self, wrong: &mut WrongRows, rt: &HostRuntime) {
        let alloc = rt.alloc();
        let Ok(mut log) = GateLog::format(SimDisk::new(alloc)) else {
            return wrong.unless(false, self.what);
        };
        let put = put_lines(alloc, &mut log, self.lines)
            && put_promises(alloc, &mut log, self.promises);
        let same = match GateLog::open(alloc, log.into_disk()) {
            Ok((log, entries)) => {
                drop(log);
                let same = rebuilt(alloc, self.shard, &entries) == self.left;
                drop(entries);
                same
            }
            Err((_, disk)) => {
                drop(disk);
                false
            }
        };
        wrong.unless(put && same, self.what);
    }
}

// A body that names a table costs much to prove, so a function hands each on.
fn opened_again() -> &'static [Reopened] {
    &REOPENED
}

fn retired() -> &'static [Reopened] {
    &RETIRED
}

/// Checks what logs leave that are opened again, and which are refused.
pub fn tell_reopened(wrong: &mut WrongRows, rt: &HostRuntime) {
    go_over_all(
        wrong,
        rt,
        "logs that are opened again",
        &[opened_again(), retired()],
    );
}
