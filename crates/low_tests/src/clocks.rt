//! Readings of the clock, commit wait, the safe time, and ceilings.
use crate::checks::{Row, go_over};
use made::{WrongRows, stamp};
use record::Record;
use safetime::{SafeTime, needed};
use std::alloc::Global;
use truetime::{Reading, pass};
use units::{Fault, Reason, Stamp, Stride};

/// A reading, and whether a timestamp is after or before it. Commit wait for the timestamp passes once all of the
/// reading is after it.
pub struct Beside {
    name: &'static str,
    earliest: u32,
    latest: u32,
    read: bool,
    at: u32,
    after: bool,
    before: bool,
    passed: bool,
}

static BESIDE: [Beside; 10] = [
    Beside {
        name: "99",
        earliest: 100,
        latest: 110,
        read: true,
        at: 99,
        after: true,
        before: false,
        passed: true,
    },
    Beside {
        name: "100",
        earliest: 100,
        latest: 110,
        read: true,
        at: 100,
        after: false,
        before: false,
        passed: false,
    },
    Beside {
        name: "110",
        earliest: 100,
        latest: 110,
        read: true,
        at: 110,
        after: false,
        before: false,
        passed: false,
    },
    Beside {
        name: "111",
        earliest: 100,
        latest: 110,
        read: true,
        at: 111,
        after: false,
        before: true,
        passed: false,
    },
    Beside {
        name: "100 to 110",
        earliest: 100,
        latest: 110,
        read: true,
        at: 105,
        after: false,
        before: false,
        passed: false,
    },
    Beside {
        name: "100 to 100",
        earliest: 100,
        latest: 100,
        read: true,
        at: 100,
        after: false,
        before: false,
        passed: false,
    },
    Beside {
        name: "110 to 100",
        earliest: 110,
        latest: 100,
        read: false,
        at: 105,
        after: false,
        before: false,
        passed: false,
    },
    Beside {
        name: "105 to 112",
        earliest: 105,
        latest: 112,
        read: true,
        at: 111,
        after: false,
        before: false,
        passed: false,
    },
    Beside {
        name: "111 to 120",
        earliest: 111,
        latest: 120,
        read: true,
        at: 111,
        after: false,
        before: false,
        passed: false,
    },
    Beside {
        name: "112 to 121",
        earliest: 112,
        latest: 121,
        read: true,
        at: 111,
        after: true,
        before: false,
        passed: true,
    },
];

// Tells whether a timestamp has passed, or else is early.
fn has_passed(at: Stamp, now: &Reading) -> Option<bool> {
    match pass(at, now) {
        Ok(waited) => {
            let told = waited.at();
            Some(waited.spend() == at && told == at)
        }
        Err(Fault::Early) => Some(false),
        Err(_) => None,
    }
}

impl Row for Beside {
    fn tell(&self, wrong: &mut WrongRows, _rt: &HostRuntime) {
        let (earliest, latest, at) = (stamp(self.earliest), stamp(self.latest), stamp(self.at));
        let right = match Reading::new(earliest, latest) {
            Ok(now) => {
                let kept = (now.earliest() == earliest) & (now.latest() == latest);
                let beside = (now.after(at) == self.after) & (now.before(at) == self.before);
                kept & beside & self.read & (has_passed(at, &now) == Some(self.passed))
            }
            Err(fault) => !self.read & (fault == Fault::BadRequest(Reason::Stamp)),
        };
        wrong.unless(right, self.name);
    }
}

/// The ceiling that a timestamp needs, if it needs one: a stride above it, by a floor.
pub struct Ahead {
    name: &'static str,
    floor: u32,
    to: u64,
    stride: u64,
    ceiling: Option<u64>,
}

// A ceiling is needed above the floor alone, and is not above the greatest timestamp.
static AHEAD: [Ahead; 5] = [
    Ahead {
        name: "0 to 110",
        floor: 0,
        to: 110,
        stride: 0,
        ceiling: Some(110),
    },
    Ahead {
        name: "110 to 110",
        floor: 110,
        to: 110,
        stride: 0,
        ceiling: None,
    },
    Ahead {
        name: "200 to 150",
        floor: 200,
        to: 150,
        stride: 50,
        ceiling: None,
    },
    Ahead {
        name: "0 to 150",
        floor: 0,
        to: 150,
        stride: 50,
        ceiling: Some(200),
    },
    Ahead {
        name: "0 to the greatest but three",
        floor: 0,
        to: 4_611_686_018_427_387_900,
        stride: 50,
        ceiling: Some(4_611_686_018_427_387_903),
    },
];

impl Row for Ahead {
    fn tell(&self, wrong: &mut WrongRows, _rt: &HostRuntime) {
        let (Some(stride), Ok(to)) = (Stride::new(self.stride), Stamp::new(self.to)) else {
            return wrong.unless(false, self.name);
        };
        let needed = needed(stamp(self.floor), to, stride);
        let right = match &needed {
            Some(Record::Ceiling { at }) => self.ceiling == Some(at.micros()),
            Some(_) => false,
            None => self.ceiling.is_none(),
        };
        drop(needed);
        wrong.unless(right, self.name);
    }
}

fn stands(times: &SafeTime, last: u64, safe: u64) -> bool {
    (times.last().micros() == last) & (times.safe().micros() == safe)
}

/// Shows that the safe time stays below a promise until that is settled.
pub fn is_held_below(alloc: Global) -> bool {
    let Ok(mut times) = SafeTime::new(alloc, Stamp::zero()) else {
        return false;
    };
    let at = stamp(200);
    times.assign(at);
    times.hold(at);
    let held = stands(&times, 200, 199);
    times.raise(stamp(250));
    let raised = stands(&times, 250, 199);
    times.lift(at);
    let lifted = stands(&times, 250, 250);
    drop(times);
    held & raised & lifted
}

/// Shows that each lift takes one hold of two, and a third takes none.
pub fn are_lifted(alloc: Global) -> bool {
    let at = stamp(111);
    let Ok(mut times) = SafeTime::new(alloc, at) else {
        return false;
    };
    times.hold(at);
    times.hold(at);
    let two = stands(&times, 111, 110);
    times.lift(at);
    let one = stands(&times, 111, 110);
    times.lift(at);
    let none = stands(&times, 111, 111);
    times.lift(at);
    times.raise(stamp(110));
    let still = stands(&times, 111, 111);
    drop(times);
    two & one & none & still
}

/// Checks readings, and commit wait, beside timestamps.
pub fn tell_readings(wrong: &mut WrongRows, rt: &HostRuntime) {
    go_over(wrong, rt, "clocks", &BESIDE);
}

/// Checks the ceilings that timestamps need.
pub fn tell_ceilings(wrong: &mut WrongRows, rt: &HostRuntime) {
    go_over(wrong, rt, "ceilings", &AHEAD);
}
