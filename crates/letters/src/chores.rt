//! What a node does besides its letters.
use crate::acts::{act, note_lack, post_all};
use crate::bell::left;
use crate::letter::Post;
use crate::serves::{Due, Serves, Taken};
use message::Input;
use std::sync::Wait;
use std::time::{Duration, Instant};
use std::{slice, time};
use truetime::{Clock, Reading};
use units::{Fault, MOST_ROWS, Stamp};

// A millisecond: a node goes without chores no longer than that. It also waits that long after its last letter before it advances, and
// between two advances if nothing else happens.
fn moment() -> Duration {
    Duration::from_millis(1)
}

// A second: so long a few versions that nobody has looked for are not shown.
fn long() -> Duration {
    Duration::from_secs(1)
}

// So many versions are shown soon, whoever looks: to show more at once would keep a node from its letters.
const MANY_VERSIONS: usize = 256;

// An advance for who looks may log, and wait for a device. While letters go on, the next one comes only after so many times as long as it took.
// One of many logs: so the shorter of the last two counts.
const SHARE_OF_ADVANCES: u32 = 4;

// A thread that sleeps wakes some 50 microseconds late, or a little more.
const LATE_WAKE: u64 = 70;

// How many milliseconds it waits for the outcome of what is prepared before it asks, and at most before it asks again.
const FIRST_ASK: u64 = 20;

const LAST_ASK: u64 = 640;

/// When a node last did its chores, and what it needs for the next ones:
///
/// - when it last took a letter or settled;
/// - when it last advanced, how long that took and the advance before it, and how many versions it showed then;
/// - whether it took a group when it last did its chores, and whether somebody has looked since it last settled;
/// - when it last tidied, and how long that took;
/// - when it last asked for what is prepared, and how many milliseconds it waits before it asks again.
#[derive(Clone, Copy)]
pub struct Chores {
    done: Option<Instant>,
    busy: Option<Instant>,
    advanced: Option<Instant>,
    took: Duration,
    before: Duration,
    grouped: bool,
    looked: bool,
    shown: usize,
    tidied: Option<Instant>,
    tidying: Duration,
    asked: Option<Instant>,
    patience: u64,
}

impl Chores {
    /// Begins with no chores done yet, and with all that the node has shown.
    pub fn new<N: Serves, W: Wait>(node: &N, rt: &W) -> Chores {
        Chores {
            done: None,
            busy: None,
            advanced: None,
            took: Duration::ZERO,
            before: Duration::ZERO,
            grouped: false,
            looked: false,
            shown: node.versions(rt),
            tidied: None,
            tidying: Duration::ZERO,
            asked: None,
            patience: FIRST_ASK,
        }
    }

    /// Tells whether no chores were done for a millisecond.
    pub fn are_late<W: time::Clock>(&self, rt: &W) -> bool {
        left(rt, self.done, moment()) == Duration::ZERO
    }

    /// Notes that a letter was taken.
    pub fn took_letter<W: time::Clock>(&mut self, rt: &W) {
        self.busy = Instant::now(rt).ok();
    }

    /// Does what is due, and returns for how long nothing more is due if no letter comes. Waits and settlings are held for `hold`. If
    /// groups are slow and somebody has looked, the node advances with the settlings too.
    ///
    /// - waits that can be granted go on;
    /// - what is decided is settled once its timestamp has passed;
    /// - what was prepared long ago is asked for;
    /// - the node advances if somebody looks, and shows new versions without an advance if nobody does. Before that it tidies, piece by piece.
    pub fn tend<N: Serves, W: Wait + time::Clock, P: Post, C: Clock>(
        &mut self,
        node: &N,
        rt: &W,
        post: &mut P,
        clock: &mut C,
        slow: bool,
        hold: Duration,
    ) -> Duration {
        self.done = Instant::now(rt).ok();
        let (settled, next) = if hold > Duration::ZERO {
            (false, Some(hold))
        } else {
            go_on(node, rt, post, clock, slow && self.looked)
        };
        self.grouped = settled;
        if settled {
            self.busy = Instant::now(rt).ok();
            self.looked = false;
        }
        self.ask_in_turn(node, rt, post, clock);
        let ask = left(rt, self.asked, Duration::from_millis(self.patience));
        let pause = sooner(next, ask);
        match self.until_advance(node, rt, post) {
            None => pause,
            Some(wait) if wait > Duration::ZERO => sooner(Some(wait), pause),
            Some(_) => {
                if !self.tidy(node, rt, clock) {
                    self.advance(node, rt, post, clock);
                }
                // Letters are taken before the next chores, and what it waits for may have come meanwhile.
                self.done = Instant::now(rt).ok();
                Duration::ZERO
            }
        }
    }

    /// Tells whether a group was taken when it last did what is due.
    pub fn took_group(&self) -> bool {
        self.grouped
    }

    // How long it is until the node advances: if somebody got `NotYet`, or if it has versions that it did not show. After it tidied it does
    // not for as long as that took.
    fn until_advance<N: Serves, W: Wait + time::Clock, P: Post>(
        &self,
        node: &N,
        rt: &W,
        post: &P,
    ) -> Option<Duration> {
        let share = self.took.min(self.before).saturating_mul(SHARE_OF_ADVANCES);
        let versions = node.versions(rt);
        let rest = if versions >= self.shown.saturating_add(MANY_VERSIONS) {
            moment()
        } else if post.is_looked_for(node.shard()) {
            share
        } else if versions != self.shown {
            return Some(left(rt, self.advanced, later(share, long())));
        } else {
            return None;
        };
        let quiet = later(
            left(rt, self.busy, moment()),
            left(rt, self.advanced, moment()),
        );
        let wait = sooner(Some(quiet), left(rt, self.advanced, rest));
        Some(later(wait, left(rt, self.tidied, self.tidying)))
    }

    // Does a piece of what the node has to tidy. Returns whether there was any.
    fn tidy<N: Serves, W: Wait + time::Clock, C: Clock>(
        &mut self,
        node: &N,
        rt: &W,
        clock: &mut C,
    ) -> bool {
        let start = Instant::now(rt).ok();
        if !node.tidy(rt, clock) {
            return false;
        }
        self.tidied = Instant::now(rt).ok();
        self.tidying = between(start, self.tidied);
        true
    }

    // Serves up to the latest of a reading if somebody looks, which may log a ceiling, and tells who looks. Else what there is is shown, and
    // nothing is logged.
    fn advance<N: Serves, W: Wait + time::Clock, P: Post, C: Clock>(
        &mut self,
        node: &N,
        rt: &W,
        post: &mut P,
        clock: &mut C,
    ) {
        let start = Instant::now(rt).ok();
        let served = if post.is_looked_for(node.shard()) {
            post.silence(node.shard());
            self.looked = true;
            node.keep_up(rt, clock)
        } else {
            node.publish(rt, clock)
        };
        if let Some(served) = served {
            // All that it has is shown now. Some of what it had may be let go already.
            self.shown = node.versions(rt);
            post.tell(node.shard(), served);
        }
        self.advanced = Instant::now(rt).ok();
        self.before = self.took;
        self.took = between(start, self.advanced);
    }

    // Asks for what was prepared long ago. Each time that it finds any, it waits twice as long before it asks again.
    fn ask_in_turn<N: Serves, W: Wait + time::Clock, P: Post, C: Clock>(
        &mut self,
        node: &N,
        rt: &W,
        post: &mut P,
        clock: &mut C,
    ) {
        if left(rt, self.asked, Duration::from_millis(self.patience)) > Duration::ZERO {
            return;
        }
        self.asked = Instant::now(rt).ok();
        self.patience = if ask(node, rt, post, clock) {
            self.patience.saturating_mul(2).min(LAST_ASK)
        } else {
            FIRST_ASK
        };
    }
}

// How long it is from one moment to another; nothing if the clock could not be read.
fn between(start: Option<Instant>, end: Option<Instant>) -> Duration {
    match (start, end) {
        (Some(start), Some(end)) => end.duration_since(start),
        _ => Duration::ZERO,
    }
}

// The shorter one.
fn sooner(one: Option<Duration>, other: Duration) -> Duration {
    match one {
        Some(one) if one < other => one,
        _ => other,
    }
}

// The longer one.
fn later(one: Duration, other: Duration) -> Duration {
    if one < other { other } else { one }
}

// Waits that can be granted go on, and what has passed is settled, until there is no more of either. It says whether there was any, and when
// the next of what is decided will have passed.
fn go_on<N: Serves, W: Wait, P: Post, C: Clock>(
    node: &N,
    rt: &W,
    post: &mut P,
    clock: &mut C,
    advances: bool,
) -> (bool, Option<Duration>) {
    let mut any = false;
    for _round in 0..MOST_ROWS {
        let (has_passed, next) = until_settled(node, rt, clock);
        if !has_passed && !node.is_ready(rt) {
            return (any, next);
        }
        let went = match take_due(node, rt, clock, advances && !any) {
            Ok(Some(taken)) => hand_out(post, taken),
            Ok(None) => go_on_singly(node, rt, post, clock),
            Err(fault) => {
                note_lack(post, fault);
                return (any, Some(moment()));
            }
        };
        if !went {
            return (any, Some(sooner(next, moment())));
        }
        any = true;
    }
    (any, Some(Duration::ZERO))
}

// Whether the next of what is decided has passed, and else in how long the node looks again: a moment if the clock has no reading.
fn until_settled<N: Serves, W: Wait, C: Clock>(
    node: &N,
    rt: &W,
    clock: &mut C,
) -> (bool, Option<Duration>) {
    let Some((_, at)) = node.earliest_decided(rt) else {
        return (false, None);
    };
    match clock.now() {
        None => (false, Some(moment())),
        Some(now) if now.after(at) => (true, Some(Duration::ZERO)),
        Some(now) => (false, Some(until_after(&now, at))),
    }
}

// Takes what is due. If the node advances, it does that first: a ceiling is then logged with the other records, and looks need none soon after.
fn take_due<N: Serves, W: Wait, C: Clock>(
    node: &N,
    rt: &W,
    clock: &mut C,
    advances: bool,
) -> Result<Option<Taken>, Fault> {
    if !advances {
        return node.take_all(rt, clock, &[]);
    }
    let Some(now) = clock.now() else {
        return Err(Fault::TimeSpent);
    };
    let input = Input::Advance(now.latest());
    let taken = node.take_all(rt, clock, slice::from_ref(&input));
    drop(input);
    taken
}

// Posts what the steps that were due have put out. It says whether there was any such step.
fn hand_out<P: Post>(post: &mut P, taken: Taken) -> bool {
    let Taken { refusals, outboxes } = taken;
    let mut inputs = 0_usize;
    for refusal in &refusals {
        if refusal.is_none() {
            inputs = inputs.saturating_add(1);
        }
    }
    drop(refusals);
    let any = outboxes.len() > inputs;
    for outbox in outboxes {
        post_all(post, outbox);
    }
    any
}

// The same for a node that takes inputs one by one. It says whether anything was settled.
fn go_on_singly<N: Serves, W: Wait, P: Post, C: Clock>(
    node: &N,
    rt: &W,
    post: &mut P,
    clock: &mut C,
) -> bool {
    resume(node, rt, post, clock);
    settle(node, rt, post, clock)
}

// Each wait goes on that can be granted.
fn resume<N: Serves, W: Wait, P: Post, C: Clock>(node: &N, rt: &W, post: &mut P, clock: &mut C) {
    for _row in 0..MOST_ROWS {
        if !node.is_ready(rt) || !act(node, rt, post, clock, Input::Resume) {
            return;
        }
    }
}

// Settles what is decided and has passed, the earliest first. It says whether there was any.
fn settle<N: Serves, W: Wait, P: Post, C: Clock>(
    node: &N,
    rt: &W,
    post: &mut P,
    clock: &mut C,
) -> bool {
    let mut settled = false;
    for _row in 0..MOST_ROWS {
        let Some((txn, at)) = node.earliest_decided(rt) else {
            return settled;
        };
        match clock.now() {
            Some(now) if now.after(at) => {}
            _ => return settled,
        }
        if !act(node, rt, post, clock, Input::Settle(txn)) {
            return settled;
        }
        settled = true;
    }
    settled
}

// How long it takes until a timestamp has surely passed, less what a sleep may take longer than it should. For the last of it the
// node stays awake.
fn until_after(now: &Reading, at: Stamp) -> Duration {
    Duration::from_micros(
        at.micros()
            .saturating_sub(now.earliest().micros())
            .saturating_sub(LATE_WAKE),
    )
}

// Asks for what was prepared long ago. It says whether there was any.
fn ask<N: Serves, W: Wait, P: Post, C: Clock>(
    node: &N,
    rt: &W,
    post: &mut P,
    clock: &mut C,
) -> bool {
    let Some(now) = clock.now() else {
        return false;
    };
    let mut asked = false;
    for row in 0..MOST_ROWS {
        let Some((txn, at)) = node.due(rt, Due::Prepared, row) else {
            break;
        };
        let age = now.earliest().micros().saturating_sub(at.micros());
        if age >= FIRST_ASK * 1_000 {
            act(node, rt, post, clock, Input::Nudge(txn));
            asked = true;
        }
    }
    asked
}
