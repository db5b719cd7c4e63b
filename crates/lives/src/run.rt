//! A run of events.
ghost use Rattle.std.specs.Prelude.{◌≡◌, ◌<◌, ◌-◌, ◌^◌, ℕ, true, map, slice_get, IfOk, IfErr};
ghost use Rattle.world.specs.World.{World, acts, areas_of, deliver_to, start};
ghost use Rattle.world.specs.Lawful.{may_act};
ghost use Rattle.lives.specs.Fleet.{AreOn};
ghost use Rattle.lives.specs.Runs.{ComesAfter, IsRun, KeepsLaws, TakesEvent, act_at};

use crate::fleet::{Shards, fill, spend_all, take_logs};
use crate::lawfulness::{may_be_done, may_come, shard_of};
use disk::Fate;
use message::{Address, Bag};
use record::Record;
use simdisk::SimDisk;
use std::alloc::Global;
use truetime::Reading;
use units::{Fault, Line, Reason, ShardNo};
use world::{Act, Config, Doing, Event, Reply, RunOutput, Sessions};

/// What a run ends with: its messages, the disk of each shard with the log that a read of it gives, and its lines.
#[derive(Drop)]
pub struct Finished {
    pub bag: Bag,
    pub disks: Vec<SimDisk>,
    pub logs: Vec<Vec<Record>>,
    pub lines: Vec<Line>,
}

/// A run so far: its sessions, its shards, what was put out, and the true time in microseconds. It has to be spent, by `finish` or
/// `spend`.
pub struct Run<'s> {
    pub sessions: Sessions<'s>,
    pub shards: Shards<'s>,
    pub output: RunOutput,
    pub time: u64,
}

impl<'s> Run<'s> {
    /// Begins a run before its first event. `Memory` if memory runs out.
    pub fn start(alloc: Global, config: &'s Config) -> Result<Run<'s>, Fault>
        ensures started { IfOk result (λ run. IsRun run (start config.now)) }
        ensures memory { IfErr result (λ fault. fault ≡ Fault.Memory) }
    {
        let mut shards = Vec::new(alloc);
        match fill(&mut shards, alloc, config) {
            Ok(()) => Ok(Run {
                sessions: Sessions::none(alloc, &config.splits),
                shards: Shards {
                    splits: &config.splits,
                    shards,
                },
                output: RunOutput::new(alloc),
                time: 0,
            }),
            Err(fault) => {
                spend_all(shards);
                Err(fault)
            }
        }
    }

    // Whether the act may happen at a true time.
    fn may_act(&self, time: u64, act: &Act) -> bool
        ensures { (w : World) → IsRun self.now w → result ≡ may_act w time act.now }
    {
        match shard_of(act) {
            Some(shard) => may_be_done(self.shards.known(shard), &self.output.bag, time, act),
            None => may_come(&self.sessions, &self.output.bag, time, act),
        }
    }

    /// Lets the event of a number, from 0, happen if it is lawful, and returns its reply.
    pub fn take(&mut self, alloc: Global, number: u64, event: &Event) -> Result<Reply, Fault>
        requires { number < 2 ^ 64 - 1 }
        ensures { (w : World) → w.event ≡ number → IsRun self.old w → KeepsLaws w
            → TakesEvent w event.now self.new result }
    {
        if event.time < self.time || !self.may_act(event.time, &event.act) {
            return Err(Fault::BadRequest(Reason::Unlawful(number)));
        }
        match self.act(alloc, &event.act) {
            Ok(reply) => {
                self.output.event = number + 1;
                self.time = event.time;
                Ok(reply)
            }
            Err(fault) => Err(fault),
        }
    }

    // Carries out the act.
    fn act(&mut self, alloc: Global, act: &Act) -> Result<Reply, Fault>
        ensures { (time : ℕ) (w : World) → IsRun self.old w → KeepsLaws w
            → may_act w time act.now ≡ true → ComesAfter (acts w act.now) self.new result }
    {
        match act {
            Act::Deliver(number, now) => self.deliver(alloc, *number, *now),
            Act::At(shard, doing) => self.act_at(alloc, *shard, None, doing),
            Act::Look(shard, key, at) => {
                self.shards
                    .look(alloc, &mut self.output, *shard, None, key, *at)
            }
            Act::View(shard, number, key, at) => {
                self.shards
                    .look(alloc, &mut self.output, *shard, Some(*number), key, *at)
            }
            Act::Crash(shard) => {
                let bag = self.output.bag.as_slice();
                self.shards.crash(alloc, bag, *shard, None, Fate::Old)
            }
            Act::CrashIn(shard, call, fate, _, doing) => {
                let bag = self.output.bag.as_slice();
                self.shards
                    .crash(alloc, bag, *shard, Some((*call, *doing)), *fate)
            }
            Act::FailIn(shard, call, _, doing) => self.act_at(alloc, *shard, Some(*call), doing),
            _ => self.sessions.act(alloc, &mut self.output, act),
        }
    }

    // Delivers a message to the shard or the session to which it was sent.
    fn deliver(&mut self, alloc: Global, number: u64, now: Reading) -> Result<Reply, Fault>
        ensures { (w : World) → IsRun self.old w → KeepsLaws w
            → ComesAfter (deliver_to w number now (slice_get w.bag number)) self.new result }
    {
        let Some(envelope) = self.output.bag.nth(number) else {
            return Ok(Reply::Refused(Fault::Stranger));
        };
        match envelope.to {
            Address::Shard(shard) => { self.act_at(alloc, shard, None, &Doing::Take(number, now)) }
            Address::Session(_) => {
                let heard = self.sessions.take_message(alloc, &envelope.message);
                self.output.reply_line(heard)
            }
        }
    }

    // Carries out what a shard does, with a device call of it armed to fail if one is given.
    fn act_at(
        &mut self,
        alloc: Global,
        shard: ShardNo,
        call: Option<u64>,
        doing: &Doing,
    ) -> Result<Reply, Fault>
        ensures { (w : World) → IsRun self.old w → KeepsLaws w
            → ComesAfter (act_at w shard call doing.now) self.new result }
    {
        let at = shard.number() as usize;
        if at >= self.shards.shards.len() {
            return Ok(Reply::Refused(Fault::Stranger));
        }
        let bag = self.output.bag.as_slice();
        let done = self.shards.shards[at].act(alloc, bag, call, doing);
        self.output.reply(done)
    }

    /// Ends the run, and returns its messages, its disks, the logs that these hold whatever a crash leaves, and all lines.
    pub fn finish(self, alloc: Global) -> Result<Finished, Fault>
        ensures disks { IfOk result
            (λ r. AreOn r.disks.items (map (λ log. log.items) r.logs.items)) }
        ensures done { (w : World) → IsRun self.entry w
            → IfOk result (λ r. (r.bag ≡ w.bag) × (map (λ log. log.items) r.logs.items ≡ areas_of w)
            × (r.lines.items ≡ w.lines)) }
        ensures memory { (w : World) → IsRun self.entry w
            → IfErr result (λ fault. fault ≡ Fault.Memory) }
    {
        let Run {
            sessions,
            shards,
            output,
            time: _,
        } = self;
        let Shards {
            splits: _,
            mut shards,
        } = shards;
        sessions.spend();
        let mut disks = Vec::new(alloc);
        let mut logs = Vec::new(alloc);
        let taken = take_logs(&mut shards, alloc, &mut disks, &mut logs);
        spend_all(shards);
        match taken {
            Ok(()) => {
                let RunOutput {
                    bag,
                    told,
                    lines,
                    event: _,
                } = output;
                drop(told);
                Ok(Finished {
                    bag,
                    disks,
                    logs,
                    lines,
                })
            }
            Err(fault) => {
                drop(output);
                drop(disks);
                drop(logs);
                Err(fault)
            }
        }
    }

    /// Ends the run, and drops what there is of it.
    pub fn spend(self) {
        let Run {
            sessions,
            shards,
            output,
            time: _,
        } = self;
        let Shards { splits: _, shards } = shards;
        sessions.spend();
        spend_all(shards);
        drop(output);
    }
}
