//! Disks in memory: which calls fail, what is read, and what a crash leaves.
use crate::checks::{Row, go_over, go_over_all};
use crate::steps::{Step, Stepped, call_any, go_well};
use disk::{FailurePlan, Fate};
use made::WrongRows;
use simdisk::{Choice, SimDisk};
use std::alloc::Global;
use std::mem;
use units::Fault;

// A call that a plan is asked about.
enum Call {
    Write,
    Other,
}

/// A plan, and calls with whether each fails. After them no call is to fail any more.
pub struct Failing {
    what: &'static str,
    plan: FailurePlan,
    // The call for which `armed` makes that plan, if it makes it.
    armed_by: Option<Option<u64>>,
    calls: &'static [(Call, bool)],
}

static FAILING: [Failing; 3] = [
    Failing {
        what: "the third call fails",
        plan: FailurePlan::After(2),
        armed_by: None,
        calls: &[
            (Call::Other, false),
            (Call::Write, false),
            (Call::Other, true),
        ],
    },
    Failing {
        what: "what is armed waits for a write",
        plan: FailurePlan::AfterWrite(1),
        armed_by: Some(Some(1)),
        calls: &[
            (Call::Other, false),
            (Call::Other, false),
            (Call::Write, false),
            (Call::Other, true),
        ],
    },
    Failing {
        what: "no call fails",
        plan: FailurePlan::Never,
        armed_by: Some(None),
        calls: &[(Call::Write, false)],
    },
];

impl Row for Failing {
    fn tell(&self, wrong: &mut WrongRows, _rt: &HostRuntime) {
        let armed = match self.armed_by {
            Some(call) => FailurePlan::armed(call) == self.plan,
            None => true,
        };
        let mut plan = self.plan;
        let mut fails = true;
        for (call, wanted) in self.calls {
            let failed = match call {
                Call::Write => plan.write(),
                Call::Other => plan.call(),
            };
            fails &= failed == *wanted;
        }
        let ended = matches!(plan, FailurePlan::Never) & !plan.write();
        wrong.unless(armed & fails & ended, self.what);
    }
}

/// Passes a value on, and shows by its type that it may go to another thread.
pub fn sent<T: Send>(value: T) -> T {
    value
}

/// Leaves what a crash leaves by these fates. Without memory every change is lost.
pub fn crash(alloc: Global, disk: &mut SimDisk, fates: &[Fate]) {
    let choice = match fates.to_vec(alloc) {
        Ok(fates) => Choice::from_vec(fates),
        Err(_) => Choice::none(alloc),
    };
    let torn = mem::replace(disk, SimDisk::new(alloc));
    drop(mem::replace(disk, torn.crash(&choice)));
    drop(choice);
}

impl Stepped for SimDisk {
    fn called(&mut self, alloc: Global, step: &Step) -> Result<(), Fault> {
        match step {
            Step::FailNext(calls) => self.fail_next(*calls),
            Step::Crash(fates) => crash(alloc, self, fates),
            _ => return call_any(alloc, self, step),
        }
        Ok(())
    }
}

/// A file of six letters, `abcdef`, that is synced, and changes of it. Each end has a name and the steps that follow
/// the changes.
pub struct Life {
    changes: &'static [Step],
    ends: &'static [(&'static str, &'static [Step])],
}

// `XY` over the second and third letter, `gh` and `ij` at the end.
static WRITTEN: [Life; 1] = [Life {
    changes: &[
        Step::Write(0, b"abcdef"),
        Step::Sync,
        Step::Write(1, b"XY"),
        Step::Write(6, b"gh"),
        Step::Write(8, b"ij"),
    ],
    ends: &[
        ("no write", &[Step::Crash(&[]), Step::Holds(b"abcdef")]),
        (
            "the first write",
            &[Step::Crash(&[Fate::New]), Step::Holds(b"aXYdef")],
        ),
        (
            "the second write",
            &[
                Step::Crash(&[Fate::Old, Fate::New]),
                Step::Holds(b"abcdefgh"),
            ],
        ),
        (
            "a filled write",
            &[Step::Crash(&[Fate::Filled(0x2a)]), Step::Holds(b"a**def")],
        ),
        (
            "a filled write between two",
            &[
                Step::Crash(&[Fate::New, Fate::Filled(0x2a), Fate::New]),
                Step::Holds(b"aXYdef**ij"),
            ],
        ),
        (
            "the third write",
            &[
                Step::Crash(&[Fate::Old, Fate::Old, Fate::New]),
                Step::Holds(b"abcdef\0\0ij"),
            ],
        ),
    ],
}];

// A cut after two letters, and `Z` at the end.
static CUT: [Life; 1] = [Life {
    changes: &[
        Step::Write(0, b"abcdef"),
        Step::Sync,
        Step::Cut(2),
        Step::Write(2, b"Z"),
    ],
    ends: &[
        (
            "no cut, no write",
            &[Step::Crash(&[Fate::Old, Fate::Old]), Step::Holds(b"abcdef")],
        ),
        (
            "a cut alone",
            &[Step::Crash(&[Fate::New, Fate::Old]), Step::Holds(b"ab")],
        ),
        (
            "a write alone",
            &[Step::Crash(&[Fate::Old, Fate::New]), Step::Holds(b"abZdef")],
        ),
        (
            "a filled cut and a write",
            &[
                Step::Crash(&[Fate::Filled(1), Fate::New]),
                Step::Holds(b"abZ"),
            ],
        ),
    ],
}];

// No change.
static SYNCED: [Life; 1] = [Life {
    changes: &[Step::Write(0, b"abcdef"), Step::Sync],
    ends: &[
        (
            "what is synced stays",
            &[
                Step::Write(4, b"EFG"),
                Step::Sync,
                Step::Crash(&[]),
                Step::Holds(b"abcdEFG"),
                Step::Write(7, b"h"),
                Step::Crash(&[]),
                Step::Holds(b"abcdEFG"),
            ],
        ),
        (
            "a failed write may come out of a crash",
            &[
                Step::FailNext(0),
                Step::Fails(&Step::Write(1, b"XY")),
                Step::Holds(b"abcdef"),
                Step::Crash(&[Fate::New]),
                Step::Holds(b"aXYdef"),
            ],
        ),
        (
            "the next call but one fails, once",
            &[
                Step::FailNext(1),
                Step::Write(6, b"g"),
                Step::Fails(&Step::Cut(3)),
                Step::Holds(b"abcdefg"),
                Step::Cut(3),
                Step::Sync,
                Step::Holds(b"abc"),
            ],
        ),
        (
            "an armed call is counted from the next write",
            &[
                Step::Arm(Some(1)),
                Step::Sync,
                Step::Sync,
                Step::Write(0, b"A"),
                Step::Fails(&Step::Sync),
                Step::Sync,
                Step::Arm(Some(0)),
                Step::Sync,
                Step::Fails(&Step::Write(0, b"B")),
                Step::Arm(Some(0)),
                Step::Arm(None),
                Step::Write(1, b"C"),
                Step::FailNext(0),
                Step::Arm(None),
                Step::Holds(b"ACcdef"),
            ],
        ),
        (
            "eight calls on what was reserved",
            &[
                Step::Reserve(8),
                Step::Write(6, b"gh"),
                Step::Sync,
                Step::Cut(7),
                Step::Write(7, b"HI"),
                Step::Sync,
                Step::Write(9, b"jk"),
                Step::Write(0, b"AB"),
                Step::Sync,
                Step::Holds(b"ABcdefgHIjk"),
            ],
        ),
    ],
}];

impl Row for Life {
    fn tell(&self, wrong: &mut WrongRows, rt: &HostRuntime) {
        let alloc = rt.alloc();
        for (what, then) in self.ends {
            let mut disk = sent(SimDisk::new(alloc));
            let changed = go_well(alloc, &mut disk, self.changes);
            let lived = go_well(alloc, &mut disk, *then);
            drop(disk);
            wrong.unless(changed & lived, *what);
        }
    }
}

/// Checks which calls a plan lets fail.
pub fn tell_failing(wrong: &mut WrongRows, rt: &HostRuntime) {
    go_over(wrong, rt, "failing calls", &FAILING);
}

// A body that names a table costs much to prove, so a function hands each on.
fn written() -> &'static [Life] {
    &WRITTEN
}

fn cut() -> &'static [Life] {
    &CUT
}

fn synced() -> &'static [Life] {
    &SYNCED
}

/// Checks what is read of a disk in memory, and what a crash leaves of it.
pub fn tell_lives(wrong: &mut WrongRows, rt: &HostRuntime) {
    go_over_all(wrong, rt, "disks in memory", &[written(), cut(), synced()]);
}
