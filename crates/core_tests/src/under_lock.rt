//! Readings of a node's clock, which are taken under the node's lock.
use crate::cores::plain;
use crate::given::{Given, input_of, reading};
use crate::nodes::fresh_node;
use crate::verdict::end;
use letters::Serves;
use made::WrongRows;
use node::Node;
use simdisk::SimDisk;
use std::alloc::Global;
use std::process::Abort;
use std::sync::Wait;
use std::sync::atomic::{AtomicBool, Ordering};
use std::thread::Threads;
use std::time::Duration;
use std::{slice, thread, time};
use truetime::{Clock, Reading};

// For so many milliseconds the clock waits for an answer of the node to another thread.
const WAITS: u64 = 200;

// A clock that notes whether its node answers another thread while it is asked.
#[derive(Drop)]
struct Asked<'a, R> {
    rt: &'a R,
    now: Reading,
    begun: &'a AtomicBool,
    answered: &'a AtomicBool,
    early: bool,
}

impl<R: time::Clock> Clock for Asked<'_, R> {
    fn now(&mut self) -> Option<Reading> {
        self.begun.store(true, Ordering::SeqCst);
        for _milli in 0..WAITS {
            if self.answered.load(Ordering::SeqCst) {
                self.early = true;
                break;
            }
            thread::sleep(self.rt, Duration::from_millis(1));
        }
        Some(self.now)
    }
}

// What a node does at a reading.
#[derive(Clone, Copy)]
enum Does {
    Takes,
    TakesTogether,
    KeepsUp,
    Publishes,
    Keeps,
    Renews,
}

static ROWS: [(&'static str, Does); 6] = [
    ("an input", Does::Takes),
    ("inputs that are taken together", Does::TakesTogether),
    ("an advance", Does::KeepsUp),
    ("a publication", Does::Publishes),
    ("a horizon", Does::Keeps),
    ("a renewal", Does::Renews),
];

// Whether the node does that.
fn goes<R: Wait + time::Clock + Abort, N: Wait + Drop>(
    rt: &R,
    alloc: Global,
    node: &Node<SimDisk, N>,
    clock: &mut Asked<'_, R>,
    does: Does,
) -> bool {
    let input = input_of(rt, alloc, Given::Prepare(2, b"z", b"2"));
    let goes = match does {
        Does::Takes => node.take(rt, clock, &input).is_ok(),
        Does::TakesTogether => node.take_all(rt, clock, slice::from_ref(&input)).is_ok(),
        Does::KeepsUp => node.keep_up(rt, clock).is_some(),
        Does::Publishes => node.publish(rt, clock).is_some(),
        Does::Keeps => node.keep_by(rt, clock, 10).is_ok(),
        Does::Renews => node.renew_by(rt, clock, 10, 0).is_ok(),
    };
    drop(input);
    goes
}

// Asks the node once its clock is asked, and notes the answer.
fn ask<R: Wait + time::Clock, N: Wait + Drop>(
    rt: &R,
    node: &Node<SimDisk, N>,
    begun: &AtomicBool,
    answered: &AtomicBool,
) {
    for _milli in 0..10_000 {
        if begun.load(Ordering::SeqCst) {
            break;
        }
        thread::sleep(rt, Duration::from_millis(1));
    }
    let _ = node.versions(rt);
    answered.store(true, Ordering::SeqCst);
}

// Whether a node does that, and answers nobody while it asks its clock.
fn is_under_lock<R: Threads + Wait + time::Clock + Sync + Abort>(
    rt: &R,
    alloc: Global,
    does: Does,
) -> bool {
    let (node, viewers) = fresh_node(rt, rt, alloc, plain(1, 0));
    let begun = AtomicBool::new(false);
    let answered = AtomicBool::new(false);
    let mut clock = Asked {
        rt,
        now: reading(rt, 100, 110),
        begun: &begun,
        answered: &answered,
        early: false,
    };
    let (goes, ()) = thread::join(
        rt,
        || goes(rt, alloc, &node, &mut clock, does),
        || ask(rt, &node, &begun, &answered),
    );
    let early = clock.early;
    drop(clock);
    drop(viewers);
    drop(node);
    goes && !early
}

/// Shows that a node takes each reading under its lock. It fails if a reading is taken before the lock: an input of another thread could then
/// be taken first, at a later reading.
#[test]
fn readings_under_the_lock(rt: HostRuntime) {
    let mut wrong = WrongRows::none(rt.alloc());
    for (name, does) in &ROWS {
        wrong.unless(is_under_lock(&rt, rt.alloc(), *does), name);
    }
    end(&rt, wrong);
}
