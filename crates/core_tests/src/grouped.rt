//! Cores that take their inputs in groups. What stories tell of inputs one by one is told of them in groups, and a group whose device call
//! fails is seen by looks and by the next opening.
use crate::answers::{Told, is_told};
use crate::cores::{core_of, formatted, plain};
use crate::given::{Given, input_of, reading};
use crate::stories::{Exchange, Story, tell_by};
use made::{WrongRows, key, stamp};
use node::Core;
use simdisk::SimDisk;
use std::alloc::Global;
use std::process::Abort;
use units::{Fault, Seen};

const TOGETHER: [usize; 4] = [1, 2, 3, 64];

/// The stories go as they are told, with so many inputs in a group.
pub fn tell(wrong: &mut WrongRows, rt: &impl Abort, alloc: Global, stories: &[Story]) {
    for together in TOGETHER {
        tell_by(wrong, rt, alloc, stories, Some(together));
    }
}

/// Gives the core some inputs as one group, and compares what it answers.
pub fn take_group(
    wrong: &mut WrongRows,
    rt: &impl Abort,
    alloc: Global,
    core: Core<SimDisk>,
    name: &'static str,
    exchanges: &[Exchange],
) -> Core<SimDisk> {
    let mut ahead = match core.gather(alloc) {
        Ok(ahead) => ahead,
        Err(core) => {
            drop(core.stop());
            rt.panic("no group")
        }
    };
    for (earliest, latest, given, wanted) in exchanges {
        let now = reading(rt, *earliest, *latest);
        let input = input_of(rt, alloc, *given);
        let right = match (ahead.take(alloc, &now, &input), *wanted) {
            (Ok(()), Told::Says(_)) => true,
            (Err(fault), Told::Refused(wanted)) => fault == wanted,
            _ => false,
        };
        drop(input);
        wrong.unless_at(right, name, *earliest);
    }
    let (core, outboxes) = match ahead.commit() {
        Ok(done) => done,
        Err(halted) => {
            drop(halted.stop());
            rt.panic("halted")
        }
    };
    let mut outboxes = outboxes.into_iter();
    for (earliest, _, _, wanted) in exchanges {
        if let Told::Says(_) = wanted {
            let right = match outboxes.next() {
                Some(out) => is_told(Ok(out), *wanted),
                None => false,
            };
            wrong.unless_at(right, name, *earliest);
        }
    }
    wrong.unless(outboxes.next().is_none(), name);
    core
}

// `a` is 1 at 111 and is served up to 120. A group then makes it 2 at 131, and serves it up to 140.
const BEFORE: &[Exchange] = &[
    (100, 110, Given::Commit(1, 0, b"a", b"1"), Told::Says(&[])),
    (112, 121, Given::Settle(1), Told::Says(&[(b'd', 9, 1, 111)])),
    (120, 129, Given::Advance(120), Told::Says(&[])),
];

const GROUP: &[Exchange] = &[
    (121, 130, Given::Commit(2, 0, b"a", b"2"), Told::Says(&[])),
    (132, 139, Given::Settle(2), Told::Says(&[])),
    (140, 149, Given::Advance(140), Told::Says(&[])),
];

// A group whose device call of this number fails: what a look at 140 sees once the disk was opened again as it was.
struct Halt {
    what: &'static str,
    call: u64,
    again: u8,
}

static HALTS: [Halt; 4] = [
    Halt {
        what: "a group whose frames are not written",
        call: 0,
        again: b'1',
    },
    Halt {
        what: "a group whose frames are not synced",
        call: 1,
        again: b'1',
    },
    Halt {
        what: "a group whose first gate is not opened",
        call: 2,
        again: b'1',
    },
    Halt {
        what: "a group whose first gate is not synced",
        call: 3,
        again: b'2',
    },
];

/// Groups fail in each of their calls.
pub fn fail(wrong: &mut WrongRows, rt: &impl Abort, alloc: Global) {
    for halt in &HALTS {
        let core = core_of(rt, alloc, formatted(rt, alloc), plain(0, 0));
        let mut core = take_group(wrong, rt, alloc, core, halt.what, BEFORE);
        let versions = core.installs().len();
        core.arm(Some(halt.call));
        let disk = halted(wrong, rt, alloc, core, halt, versions);
        let mut core = core_of(rt, alloc, disk, plain(0, 0));
        let now = reading(rt, 150, 160);
        let input = input_of(rt, alloc, Given::Advance(150));
        let advanced = core.on(alloc, &now, &input);
        drop(input);
        wrong.unless(advanced.is_ok(), halt.what);
        drop(advanced);
        let mut buffer = [9; 1];
        let look = core.look(&key(b'a'), stamp(140), &mut buffer);
        wrong.unless(
            look == Ok(Seen::Value(1)) && buffer == [halt.again],
            halt.what,
        );
        drop(core.stop());
    }
}

// The disk of a core that a group has halted: it is seen as before the group.
fn halted(
    wrong: &mut WrongRows,
    rt: &impl Abort,
    alloc: Global,
    core: Core<SimDisk>,
    halt: &Halt,
    versions: usize,
) -> SimDisk {
    let mut ahead = match core.gather(alloc) {
        Ok(ahead) => ahead,
        Err(core) => {
            drop(core.stop());
            rt.panic("no group")
        }
    };
    for (earliest, latest, given, _) in GROUP {
        let now = reading(rt, *earliest, *latest);
        let input = input_of(rt, alloc, *given);
        let taken = ahead.take(alloc, &now, &input);
        drop(input);
        wrong.unless_at(taken == Ok(()), halt.what, *earliest);
    }
    let halted = match ahead.commit() {
        Ok((core, outboxes)) => {
            drop(outboxes);
            drop(core.stop());
            rt.panic("no failure")
        }
        Err(halted) => halted,
    };
    let mut buffer = [9; 1];
    let look = halted.look(&key(b'a'), stamp(120), &mut buffer);
    wrong.unless(look == Ok(Seen::Value(1)) && buffer == [b'1'], halt.what);
    let late = halted.look(&key(b'a'), stamp(121), &mut buffer);
    wrong.unless(late == Err(Fault::NotYet), halt.what);
    wrong.unless(halted.safe() == stamp(120), halt.what);
    wrong.unless(halted.installs().len() == versions, halt.what);
    halted.stop()
}
