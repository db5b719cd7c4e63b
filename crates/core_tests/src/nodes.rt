//! Stories of a node of fresh shard 1 with one viewer: what is asked of both, and what the log then holds.
use crate::answers::{Told, is_told};
use crate::cores::{Setting, core_of, formatted, plain};
use crate::given::{Given, Standing, input_of, reading};
use crate::logs::{Line, with_log};
use board::Viewer;
use letters::{Serves, Taken};
use made::{WrongRows, key, stamp};
use node::{LogFolder, Node, Restarted};
use simdisk::SimDisk;
use std::alloc::Global;
use std::process::Abort;
use std::sync::Wait;
use std::thread;
use std::thread::Threads;
use truetime::Reading;
use units::{Fault, Seen, ShardNo};

/// A look at `z` at a timestamp, and what it sees.
pub type Look = (u32, Result<Seen, Fault>);

/// A question to the node, or to the viewer of its last opening, with the answer. It is the served time of an advance, the number of
/// viewers, or what a look sees, on this thread or another.
#[derive(Clone, Copy)]
pub enum Ask {
    Deliver(Given, Told),
    // Some inputs together, what each comes to, and how many steps were due after them.
    Together(&'static [(Given, Told)], usize),
    // Some inputs together, which are all refused for this; or, without a fault, are to be delivered one by one.
    Failing(&'static [Given], Option<Fault>),
    Advance(u32, Result<u64, Fault>),
    Turn(Result<(), Fault>),
    // Keeps versions for this many microseconds.
    Keep(u64, Result<(), Fault>),
    // Keeps versions for this many microseconds, and turns the log over once it has grown by this many bytes.
    Renew(u64, u64, Result<(), Fault>),
    Restart(usize, Result<usize, Fault>),
    Look(Look),
    LookThere(Look),
}

/// The two ends of a reading, and the question at it.
pub type Asked = (u64, u64, Ask);

/// The node is closed after this many questions, and its log then holds these lines.
pub struct Moment {
    pub name: &'static str,
    pub after: usize,
    pub log: &'static [Line],
}

/// The device call of the next append that fails, if one does, the room of the book in inputs (0 without a book), and the questions.
pub struct Story {
    pub fails: Option<u64>,
    pub room: u32,
    pub asks: &'static [Asked],
    pub moments: &'static [Moment],
}

/// A folder with no disk beside that of a node.
#[derive(Clone, Copy)]
pub struct Alone;

impl<D> LogFolder<D> for Alone {
    ghost use Rattle.std.specs.Prelude.{◌≡◌};

    ghost may_find = { λ former disk. disk ≡ former };

    fn draft(&self, _shard: ShardNo) -> Option<D> {
        None
    }

    fn put_in_place(&self, _shard: ShardNo) -> Result<bool, Fault> {
        Ok(false)
    }

    fn find(&self, _shard: ShardNo, former: D) -> Result<D, D> {
        Ok(former)
    }
}

/// Opens the node of a new shard on a new disk.
pub fn fresh_node<R: Wait + Drop>(
    own: R,
    rt: &impl Abort,
    alloc: Global,
    setting: Setting,
) -> (Node<SimDisk, R>, Vec<Viewer>) {
    let core = core_of(rt, alloc, formatted(rt, alloc), setting);
    match Node::new(own, alloc, core, 1) {
        Ok(made) => made,
        Err((_, core)) => {
            drop(core.stop());
            rt.panic("no node")
        }
    }
}

/// Tells whether a look of the viewer sees this, in a buffer of four bytes which were 9 before: the value is 2.
pub fn is_seen(viewers: &mut [Viewer], look: Look) -> bool {
    let Some(viewer) = viewers.first_mut() else {
        return false;
    };
    let (at, sees) = look;
    let mut buffer = [9u8; 4];
    let seen = viewer.look(&key(b'z'), stamp(at), &mut buffer);
    let first = match sees {
        Ok(Seen::Value(_)) => b'2',
        _ => 9,
    };
    seen == sees && buffer == [first, 9, 9, 9]
}

// Asks the node or its viewer, and says whether the answer is the expected one. The viewer of an earlier opening is refused.
fn is_answered<'a, R: Threads + Wait + Sync + Abort>(
    rt: &'a R,
    alloc: Global,
    node: &Node<SimDisk, &'a R>,
    viewers: &mut Vec<Viewer>,
    asked: &Asked,
) -> bool {
    let now = reading(rt, asked.0, asked.1);
    match asked.2 {
        Ask::Deliver(given, wanted) => {
            let input = input_of(rt, alloc, given);
            let answer = node.deliver(rt, &now, &input);
            drop(input);
            is_told(answer, wanted)
        }
        Ask::Together(given, due) => take(rt, alloc, node, now, given, due),
        Ask::Failing(given, fault) => fail(rt, alloc, node, now, given, fault),
        Ask::Advance(to, tells) => match node.advance(rt, &now, stamp(to)) {
            Ok(told) => tells == Ok(told.safe().micros()),
            Err(fault) => tells == Err(fault),
        },
        Ask::Turn(gives) => node.turn_over(rt) == gives,
        Ask::Keep(micros, gives) => node.keep_by(rt, &mut Standing { now }, micros) == gives,
        Ask::Renew(micros, least, gives) => node.renew(rt, &now, micros, least) == gives,
        Ask::Restart(count, gives) => match node.restart(rt, rt, alloc, &Alone, count) {
            Ok((home, opened)) => {
                drop(home);
                let Restarted {
                    viewers: new,
                    former,
                } = opened;
                let goes_on = !is_seen(viewers, (0, Err(Fault::Stopped)));
                drop(former);
                let ended = is_seen(viewers, (0, Err(Fault::Stopped)));
                *viewers = new;
                goes_on && ended && gives == Ok(viewers.len())
            }
            Err(fault) => gives == Err(fault),
        },
        Ask::Look(look) => is_seen(viewers, look),
        Ask::LookThere(look) => thread::join(rt, || is_seen(viewers, look), || ()).0,
    }
}

// Gives the node some inputs together, which are all refused for this, or are to be delivered one by one.
fn fail<R: Wait + Drop>(
    rt: &(impl Wait + Abort),
    alloc: Global,
    node: &Node<SimDisk, R>,
    now: Reading,
    given: &[Given],
    fault: Option<Fault>,
) -> bool {
    let mut inputs = Vec::new(alloc);
    for given in given {
        let pushed = inputs.push(input_of(rt, alloc, *given));
        assert!(rt; pushed.is_ok(), "memory");
    }
    match node.take_all(rt, &mut Standing { now }, &inputs) {
        Ok(taken) => taken.is_none() && fault.is_none(),
        Err(why) => Some(why) == fault,
    }
}

// Gives the node some inputs together, and says whether each comes to what is expected, and so many steps were due after them.
fn take<R: Wait + Drop>(
    rt: &(impl Wait + Abort),
    alloc: Global,
    node: &Node<SimDisk, R>,
    now: Reading,
    given: &[(Given, Told)],
    due: usize,
) -> bool {
    let mut inputs = Vec::new(alloc);
    for (given, _) in given {
        let pushed = inputs.push(input_of(rt, alloc, *given));
        assert!(rt; pushed.is_ok(), "memory");
    }
    let taken = match node.take_all(rt, &mut Standing { now }, &inputs) {
        Ok(Some(taken)) => taken,
        _ => return false,
    };
    let Taken { refusals, outboxes } = taken;
    let mut outboxes = outboxes.into_iter();
    let mut right = refusals.len() == given.len();
    for ((_, wanted), refused) in given.iter().zip(refusals.as_slice()) {
        let answer = match *refused {
            Some(fault) => Err(fault),
            None => outboxes.next().ok_or(Fault::Room),
        };
        right &= is_told(answer, *wanted);
    }
    for _due in 0..due {
        right &= outboxes.next().is_some();
    }
    right && outboxes.next().is_none()
}

/// Plays the stories up to each moment. The viewer is refused once the node is closed.
pub fn tell<R: Threads + Wait + Sync + Abort>(
    wrong: &mut WrongRows,
    rt: &R,
    alloc: Global,
    stories: &[Story],
) {
    for story in stories {
        let setting = Setting {
            fails: story.fails,
            capacity: story.room,
            ..plain(1, 0)
        };
        for moment in story.moments {
            let (node, mut viewers) = fresh_node(rt, rt, alloc, setting);
            for asked in story.asks.get(..moment.after).expect(rt, moment.name) {
                let answered = is_answered(rt, alloc, &node, &mut viewers, asked);
                wrong.unless_at(answered, moment.name, asked.0);
            }
            drop(with_log(wrong, alloc, node.close(), moment.name, moment.log, &[]));
            let stopped = is_seen(&mut viewers, (0, Err(Fault::Stopped)));
            drop(viewers);
            wrong.unless_at(stopped, moment.name, 0);
        }
    }
}
