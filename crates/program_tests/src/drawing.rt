//! Lawful lists of events are drawn from a seed, one event after the other. Each is drawn from what was put out so far and from which shards
//! are up, and then it happens.
ghost use Rattle.std.specs.Prelude.{◌<◌, ◌-◌, ◌^◌};

use crate::sight::{OTHER, Seen, Sent, Sight, push_sent, seen_of};
use crate::steps::{Does, FIRST, Step, Stop, event};
use disk::Fate;
use lives::Run;
use std::alloc::Global;
use world::Config;

// Three keys for each of the shards that the splits `m` and `s` make.
static KEYS: [u8; 9] = [b'a', b'c', b'f', b'n', b'p', b'r', b't', b'w', b'y'];

static DIGITS: [u8; 10] = [b'0', b'1', b'2', b'3', b'4', b'5', b'6', b'7', b'8', b'9'];

// What a crash may leave of each byte of a write: that of an open gate, that of a closed one, and others.
static BYTES: [u8; 4] = [0xa5, 0x00, 0x37, 0xff];

/// How many events a list has.
pub const LENGTH: usize = 300;

// A list so far: its last step, the sessions 1 to `begun` have begun, and the messages below `next` were delivered in their
// turn. So many steps of a kind come at once: reads, or writes and a close, of the step's transaction, or looks at its shard. Logs are turned
// over, or not.
#[derive(Clone, Copy)]
struct Drawn {
    random: u64,
    turns: bool,
    shards: u64,
    begun: u64,
    next: u64,
    coming: Does,
    left: u64,
    step: Step,
}

impl Drawn {
    // A number below a limit, or 0 if the limit is 0. It is drawn by the upper 31 bits of a linear congruential generator modulo 2^64, with
    // the multiplier 6364136223846793005 and the increment 1442695040888963407.
    fn below(&mut self, limit: u64) -> u64 {
        self.random = self
            .random
            .wrapping_mul(6_364_136_223_846_793_005)
            .wrapping_add(1_442_695_040_888_963_407);
        if limit == 0 {
            0
        } else {
            self.random / 8_589_934_592 % limit
        }
    }

    // One of some bytes, or 0 if there is none.
    fn one_of(&mut self, bytes: &[u8]) -> u8 {
        let number = self.below(bytes.len() as u64) as usize;
        match bytes.get(number) {
            Some(byte) => *byte,
            None => 0,
        }
    }

    // How far an end of a reading is from the true time: mostly little.
    fn width(&mut self) -> u64 {
        let widest = if self.below(4) == 0 { 40 } else { 8 };
        self.below(widest)
    }

    // A shard does something now.
    fn now(&mut self, shard: u8, does: Does) {
        let before = self.width();
        let behind = self.width();
        self.step.shard = shard;
        self.step.does = does;
        self.step.earliest = self.step.time.saturating_sub(before);
        self.step.latest = self.step.time.saturating_add(behind);
    }

    fn shard(&mut self) -> u8 {
        (self.below(self.shards) % 16) as u8
    }

    // One of three keys of the step's shard, at times of any.
    fn draw_key(&mut self) {
        let at = match self.below(8) {
            0 => self.below(9),
            _ => self.below(3).saturating_add(3 * self.step.shard as u64),
        };
        self.step.key = KEYS[at as usize % 9];
    }

    // The number of one of the last messages that were put out, or of all.
    fn message(&mut self, known: u64) -> u64 {
        let reach = if self.below(4) == 0 {
            known
        } else {
            known.min(16)
        };
        known.saturating_sub(self.below(reach)).saturating_sub(1)
    }

    // One of these messages.
    fn sent(&mut self, sight: &Sight<'_>) -> Sent {
        let number = self.message(sight.sent.len() as u64);
        match sight.sent.get(number as usize) {
            Some(sent) => *sent,
            None => OTHER,
        }
    }

    fn write(&mut self) {
        self.step.key = self.one_of(&KEYS);
        if self.below(8) == 0 {
            self.step.does = Does::Erase;
        } else {
            self.step.does = Does::Write;
            self.step.value = self.one_of(&DIGITS);
        }
    }

    // What a step before it left to come at once, if anything.
    fn goes_on(&mut self) -> bool {
        match self.coming {
            Does::Write if self.left == 0 => {
                self.coming = Does::Close;
                self.step.does = Does::Close;
                return true;
            }
            _ if self.left == 0 => return false,
            Does::Write => self.write(),
            Does::Read => {
                self.step.does = Does::Read;
                self.step.key = self.one_of(&KEYS);
            }
            _ => {
                self.step.does = Does::Look;
                self.draw_key();
            }
        }
        self.left = self.left.saturating_sub(1);
        true
    }

    // A new transaction reads, or writes and closes.
    fn begin(&mut self, coming: Does, most: u64) {
        self.begun = self.begun.saturating_add(1);
        self.coming = coming;
        self.left = self.below(most).saturating_add(1);
        self.step.does = Does::Begin;
        self.step.txn = self.begun;
    }

    // Mostly the next message that was not delivered, at times any.
    fn deliver(&mut self, known: u64) {
        self.now(0, Does::Deliver);
        if known == 0 {
            self.begin(Does::Write, 4);
        } else if self.next < known && self.below(5) != 0 {
            self.step.number = self.next;
            self.next = self.next.saturating_add(1);
        } else {
            self.step.number = self.message(known);
        }
    }

    // A shard does something for a transaction, or it goes on if there is none.
    fn serve(&mut self, shard: u8, txn: u64, does: Does) {
        self.step.txn = txn;
        if txn == 0 {
            let shard = self.shard();
            self.now(shard, Does::Resume);
        } else {
            self.now(shard, does);
        }
    }

    // Mostly a decided transaction is settled, at times that of any message.
    fn settle(&mut self, sight: &Sight<'_>) {
        let (shard, txn) = if self.below(4) == 0 {
            let sent = self.sent(sight);
            (sent.shard, sent.coordinator)
        } else {
            sight.unsettled()
        };
        self.serve(shard, txn, Does::Settle);
    }

    // The coordinator of a prepare's transaction is asked.
    fn nudge(&mut self, sight: &Sight<'_>) {
        let sent = self.sent(sight);
        self.serve(sent.shard, sent.part, Does::Nudge);
    }

    // A session that was answered by one of the last messages writes, and closes.
    fn close(&mut self, sight: &Sight<'_>) {
        for _ in 0..6 {
            self.step.txn = self.sent(sight).reader;
            if self.step.txn > 0 {
                self.coming = Does::Write;
                self.left = 0;
                return self.write();
            }
        }
        self.deliver(sight.sent.len() as u64)
    }

    // A shard serves up to a time near the end of a wide reading. At once some of its keys are looked at then.
    fn advance(&mut self) {
        self.step.does = Does::Advance;
        self.step.shard = self.shard();
        self.step.earliest = self.step.time.saturating_sub(self.width());
        let ahead = self.below(40).saturating_add(5);
        let latest = self.step.time.saturating_add(ahead);
        self.step.latest = latest;
        self.step.at = latest.saturating_add(2).saturating_sub(self.below(12));
        self.coming = Does::Look;
        self.left = self.below(4);
    }

    // A time around what is served: mostly one that was served for a while.
    fn forget_upto(&mut self, safe: u64) {
        self.step.does = Does::Forget;
        self.step.at = if self.below(3) == 0 {
            safe.saturating_add(4).saturating_sub(self.below(8))
        } else {
            safe.saturating_sub(self.below(200))
        };
    }

    // A shard forgets what is below such a time. At once some of its keys are looked at then.
    fn forget(&mut self, sight: &Sight<'_>) {
        let shard = self.shard();
        self.now(shard, Does::Forget);
        self.forget_upto(sight.shards[shard as usize % 3].safe);
        self.coming = Does::Look;
        self.left = self.below(3);
    }

    // A shard's log is turned over, at times with a crash in a call of that.
    fn turn(&mut self, sight: &Sight<'_>) {
        let shard = self.shard();
        self.now(shard, Does::Turn);
        if !sight.shards[shard as usize % 3].is_down && self.below(3) == 0 {
            self.stop(true);
        }
    }

    // A look at a shard, or at one of its views.
    fn look(&mut self, views: Option<&Sight<'_>>) {
        let shard = self.shard();
        self.step.shard = shard;
        self.step.does = Does::Look;
        let mut back = 200;
        let mut at = self.step.time.saturating_add(20);
        if let Some(sight) = views {
            self.step.does = Does::View;
            self.step.number = self.below(sight.shards[shard as usize % 3].views);
            back = 300;
            at = self.step.time;
        }
        self.step.at = at.saturating_sub(self.below(back));
        self.draw_key();
    }

    // One of the last sessions that have begun.
    fn quit(&mut self) {
        let back = self.below(6);
        if self.begun == 0 {
            self.begin(Does::Read, 2);
        } else {
            self.step.does = Does::Quit;
            self.step.txn = self.begun.saturating_sub(back).max(1);
        }
    }

    // A crash or a failing call in what a shard does.
    fn stop(&mut self, crashes: bool) {
        let call = self.below(5);
        self.step.stop = if !crashes {
            Stop::FailIn(call)
        } else {
            match self.below(4) {
                0 => Stop::CrashIn(call, Fate::Old),
                1 => Stop::CrashIn(call, Fate::New),
                _ => Stop::CrashIn(call, Fate::Filled(self.one_of(&BYTES))),
            }
        };
    }

    // What a shard does in which a call of it fails, or it crashes.
    fn act(&mut self, sight: &Sight<'_>, shard: u8, seen: Seen) {
        self.now(shard, Does::Resume);
        match self.below(5) {
            0 => {
                self.step.does = Does::Advance;
                self.step.at = self.step.latest;
            }
            1 => {
                if seen.decided > 0 {
                    self.step.does = Does::Settle;
                    self.step.txn = seen.decided;
                }
            }
            2 => self.forget_upto(seen.safe),
            _ => {
                if let Some(number) = sight.next_for(shard, self.next) {
                    self.step.does = Does::Take;
                    self.step.number = number;
                }
            }
        }
    }

    // A shard that is up or stopped crashes, between events or in a call, or a call of it fails.
    fn break_off(&mut self, sight: &Sight<'_>) {
        let shard = self.shard();
        let seen = sight.shards[shard as usize % 3];
        if seen.is_down {
            return self.open(shard);
        }
        self.act(sight, shard, seen);
        match self.below(5) {
            0 => self.step.does = Does::Crash,
            1 | 2 => self.stop(false),
            _ => self.stop(true),
        }
    }

    // A shard that is not up is opened, mostly with success.
    fn open(&mut self, shard: u8) {
        self.now(shard, Does::Open);
        match self.below(10) {
            0 => self.stop(false),
            1 => self.stop(true),
            _ => {}
        }
    }

    fn draw_any(&mut self, sight: &Sight<'_>) {
        match self.below(100) {
            0..=8 => self.begin(Does::Write, 4),
            9..=13 => self.begin(Does::Read, 2),
            14..=47 => self.deliver(sight.sent.len() as u64),
            48..=61 => self.settle(sight),
            62..=68 => self.close(sight),
            69..=79 => self.look(None),
            80..=83 => self.look(Some(sight)),
            84..=88 => self.advance(),
            89..=91 => self.nudge(sight),
            92..=95 => self.serve(0, 0, Does::Resume),
            96..=98 => self.forget(sight),
            _ => self.quit(),
        }
    }

    // Something happens, a little later.
    fn draw(&mut self, sight: &Sight<'_>) {
        self.step.time = self.step.time.saturating_add(self.below(6));
        self.step.stop = Stop::Never;
        if self.goes_on() {
            return;
        }
        if self.below(3) == 0 {
            if let Some(shard) = sight.resting() {
                return self.open(shard);
            }
        }
        if self.below(36) == 0 {
            return self.break_off(sight);
        }
        if self.turns && self.below(16) == 0 {
            return self.turn(sight);
        }
        let known = sight.sent.len() as u64;
        if known.saturating_sub(self.next) > 6 && self.below(3) != 0 {
            return self.deliver(known);
        }
        self.draw_any(sight)
    }
}

// The step of a number happens in a run, if it may.
fn happens(run: &mut Run<'_>, alloc: Global, number: usize, step: &Step) -> bool
    requires { number < 2 ^ 64 - 1 }
{
    let Ok(event) = event(alloc, step) else {
        return false;
    };
    let reply = run.take(alloc, number as u64, &event);
    drop(event);
    let happened = reply.is_ok();
    drop(reply);
    happened
}

// As many steps as a list has are drawn, and happen.
fn fill(
    steps: &mut Vec<Step>,
    sent: &mut Vec<Sent>,
    alloc: Global,
    run: &mut Run<'_>,
    drawn: &mut Drawn,
) -> bool {
    for number in 0..LENGTH {
        if !push_sent(sent, run.output.bag.as_slice()) {
            return false;
        }
        drawn.draw(&Sight {
            sent: sent.as_slice(),
            shards: seen_of(&run.shards.shards),
        });
        let step = drawn.step;
        if !happens(run, alloc, number, &step) || steps.push(step).is_err() {
            return false;
        }
    }
    true
}

/// Draws a list of events over so many shards, from a seed, with turnovers of logs or without. Returns `false` if one does not happen.
pub fn is_drawn(
    steps: &mut Vec<Step>,
    alloc: Global,
    config: &Config,
    seed: u64,
    shards: u64,
    turns: bool,
) -> bool {
    let Ok(mut run) = Run::start(alloc, config) else {
        return false;
    };
    let mut drawn = Drawn {
        random: seed,
        turns,
        shards,
        begun: 0,
        next: 0,
        coming: Does::Begin,
        left: 0,
        step: FIRST,
    };
    let mut sent = Vec::new(alloc);
    let filled = fill(steps, &mut sent, alloc, &mut run, &mut drawn);
    drop(sent);
    run.spend();
    filled
}
