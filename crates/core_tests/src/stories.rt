//! Stories of one core: the origin of its disk, its inputs with the expected answers, and what it shows then.
use crate::answers::{Told, is_told};
use crate::cores::{Setting, bytes_on, formatted, opened, plain};
use crate::given::{Given, input_of, reading};
use crate::grouped::take_group;
use made::{WrongRows, stamp, with_slots};
use node::Core;
use simdisk::{Choice, SimDisk};
use std::alloc::Global;
use std::process::Abort;
use units::{Fault, Key, Seen, Stamp, TxnId};

/// The two ends of a reading, the input at it, and the expected answer.
pub type Exchange = (u64, u64, Given, Told);

/// How the core came to be.
#[derive(Clone, Copy)]
pub enum Origin {
    // It is new.
    New,
    // It is new, and a device call of its next append will fail, by its number from 0.
    Failing(u64),
    // It took these inputs, the disk crashed and lost every change that was not synced, and was opened again.
    Crashed(&'static [Exchange]),
    // It took these inputs while a device call of the next append was to fail, nothing was seen at `a`, and the disk was opened again as
    // it was.
    Armed(u64, &'static [Exchange]),
    // A core of this shard took these inputs, and the disk was opened again as it was.
    Of(u8, &'static [Exchange]),
    // The disk has no log.
    Blank,
}

/// What it shows. If there is no transaction, its number and timestamp are 0.
pub enum Shows {
    // It is not opened. Then nothing else is shown.
    Refused(Fault),
    Ready(u64),
    // The first that is prepared, the first two that are decided, and the decided one with the least timestamp.
    Prepared(u64, u64),
    Decided(u64, u64),
    Second(u64, u64),
    Earliest(u64, u64),
    Last(u64),
    Safe(u64),
    Epoch(u64),
    Installs(usize),
    // What a look at a key, at a timestamp, into this many bytes sees, and what is then in those and the next bytes, four in all. They were 9
    // before.
    Look(&'static [u8], u32, usize, Result<Seen, Fault>, [u8; 4]),
    // The length of its log's file, bytes of it from an offset on, and all of them without the slots.
    Size(u64),
    Log(u64, &'static [u8]),
    File(&'static [u8]),
}

/// What the core shows after this many of the exchanges.
pub struct Moment {
    pub after: usize,
    pub shows: &'static [Shows],
}

/// A core by its origin, its exchanges, and what it shows at some moments.
pub struct Story {
    pub name: &'static str,
    pub shard: u8,
    pub stride: u64,
    pub origin: Origin,
    pub exchanges: &'static [Exchange],
    pub moments: &'static [Moment],
}

/// The inputs of a core, one after the other, and what it shows then.
#[derive(Clone, Copy)]
pub struct Part {
    pub name: &'static str,
    pub exchanges: &'static [Exchange],
    pub shows: &'static [Shows],
}

// What is seen if nothing was written.
const NOTHING: &[Shows] = &[Shows::Look(b"a", 0, 1, Ok(Seen::Absent), [9; 4])];

fn stands(found: Option<(TxnId, Stamp)>, number: u64, at: u64) -> bool {
    match found {
        Some((txn, stamp)) => txn.number() == number && stamp.micros() == at,
        None => number == 0 && at == 0,
    }
}

fn is_shown(rt: &impl Abort, core: &Core<SimDisk>, fact: &Shows) -> bool {
    match *fact {
        Shows::Refused(_) => false,
        Shows::Ready(number) => match core.ready() {
            Some(txn) => txn.number() == number,
            None => number == 0,
        },
        Shows::Prepared(number, at) => stands(core.prepared(0), number, at),
        Shows::Decided(number, at) => stands(core.decided(0), number, at),
        Shows::Second(number, at) => stands(core.decided(1), number, at),
        Shows::Earliest(number, at) => stands(core.earliest_decided(), number, at),
        Shows::Last(at) => core.last().micros() == at,
        Shows::Safe(at) => core.safe().micros() == at,
        Shows::Epoch(epoch) => core.epoch().number() == epoch,
        Shows::Installs(installs) => core.installs().len() == installs,
        Shows::Look(key, at, room, seen, bytes) => {
            let key = Key::new(key).expect(rt, "a key");
            let mut buffer = [9; 4];
            let look = core.look(&key, stamp(at), &mut buffer[..room.min(4)]);
            look == seen && buffer == bytes
        }
        Shows::Size(_) | Shows::Log(_, _) | Shows::File(_) => true,
    }
}

/// Gives the inputs of the part to the core, and compares its answers and what it shows.
pub fn play(
    wrong: &mut WrongRows,
    rt: &impl Abort,
    alloc: Global,
    core: &mut Core<SimDisk>,
    part: &Part,
) {
    for exchange in part.exchanges {
        let (earliest, latest, given, wanted) = *exchange;
        let now = reading(rt, earliest, latest);
        let input = input_of(rt, alloc, given);
        let answer = core.on(alloc, &now, &input);
        drop(input);
        wrong.unless_at(is_told(answer, wanted), part.name, earliest);
    }
    compare(wrong, rt, core, part);
}

// Compares what the core shows with the part.
fn compare(wrong: &mut WrongRows, rt: &impl Abort, core: &Core<SimDisk>, part: &Part) {
    for fact in part.shows {
        wrong.unless_at(
            is_shown(rt, core, fact),
            part.name,
            part.exchanges.len() as u64,
        );
    }
}

// The core once it has taken what the part says, one by one or so many in a group.
fn played(
    wrong: &mut WrongRows,
    rt: &impl Abort,
    alloc: Global,
    core: Core<SimDisk>,
    part: &Part,
    together: Option<usize>,
) -> Core<SimDisk> {
    let mut core = core;
    match together {
        None => play(wrong, rt, alloc, &mut core, part),
        Some(count) => {
            for exchanges in part.exchanges.chunks(count.max(1)) {
                core = take_group(wrong, rt, alloc, core, part.name, exchanges);
            }
            compare(wrong, rt, &core, part);
        }
    }
    core
}

fn is_in(alloc: Global, bytes: &[u8], fact: &Shows) -> bool {
    match *fact {
        Shows::Size(size) => bytes.len() as u64 == size,
        Shows::Log(offset, wanted) => match bytes.get(offset as usize..) {
            Some(rest) => rest.starts_with(wanted),
            None => false,
        },
        Shows::File(told) => match with_slots(alloc, told) {
            Ok(whole) => {
                let same = whole.as_slice() == bytes;
                drop(whole);
                same
            }
            Err(_) => false,
        },
        _ => true,
    }
}

// The disk that is left by a core which begins on this one and plays the part, or is refused as the part says.
fn left(
    wrong: &mut WrongRows,
    rt: &impl Abort,
    alloc: Global,
    disk: SimDisk,
    setting: Setting,
    part: &Part,
    together: Option<usize>,
) -> SimDisk {
    match opened(rt, alloc, disk, setting) {
        Ok(core) => {
            let mut disk = played(wrong, rt, alloc, core, part, together).stop();
            let bytes = bytes_on(rt, alloc, &mut disk);
            for fact in part.shows {
                let held = is_in(alloc, bytes.as_slice(), fact);
                wrong.unless_at(held, part.name, part.exchanges.len() as u64);
            }
            drop(bytes);
            disk
        }
        Err((fault, disk)) => {
            let refused = match part.shows.first() {
                Some(Shows::Refused(wanted)) => *wanted == fault,
                _ => false,
            };
            wrong.unless_at(refused, part.name, 0);
            disk
        }
    }
}

/// Makes the disk on which a core of this origin begins.
pub fn disk_of(
    wrong: &mut WrongRows,
    rt: &impl Abort,
    alloc: Global,
    name: &'static str,
    setting: Setting,
    origin: Origin,
) -> SimDisk {
    let mut before = plain(setting.shard, setting.stride);
    let mut part = Part {
        name,
        exchanges: &[],
        shows: &[],
    };
    match origin {
        Origin::Blank => return SimDisk::new(alloc),
        Origin::New | Origin::Failing(_) => return formatted(rt, alloc),
        Origin::Crashed(exchanges) => part.exchanges = exchanges,
        Origin::Armed(call, exchanges) => {
            before.fails = Some(call);
            part.exchanges = exchanges;
            part.shows = NOTHING;
        }
        Origin::Of(shard, exchanges) => {
            before.shard = shard;
            part.exchanges = exchanges;
        }
    }
    let disk = left(wrong, rt, alloc, formatted(rt, alloc), before, &part, None);
    match origin {
        Origin::Crashed(_) => disk.crash(&Choice::none(alloc)),
        _ => disk,
    }
}

/// Plays the stories, each up to each of its moments.
pub fn tell(wrong: &mut WrongRows, rt: &impl Abort, alloc: Global, stories: &[Story]) {
    tell_by(wrong, rt, alloc, stories, None);
}

/// The same, with the inputs one by one or so many in a group.
pub fn tell_by(
    wrong: &mut WrongRows,
    rt: &impl Abort,
    alloc: Global,
    stories: &[Story],
    together: Option<usize>,
) {
    for story in stories {
        let mut setting = plain(story.shard, story.stride);
        if let Origin::Failing(call) = story.origin {
            // A group whose device fails hands nothing out.
            if together.is_some() {
                continue;
            }
            setting.fails = Some(call);
        }
        for moment in story.moments {
            let part = Part {
                name: story.name,
                exchanges: story.exchanges.get(..moment.after).expect(rt, story.name),
                shows: moment.shows,
            };
            let disk = disk_of(wrong, rt, alloc, story.name, setting, story.origin);
            drop(left(wrong, rt, alloc, disk, setting, &part, together));
        }
    }
}
