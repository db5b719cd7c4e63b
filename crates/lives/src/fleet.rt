//! The shards of a run.
ghost use Rattle.std.specs.Prelude.{◌≡◌, [], ℕ, Some, List, IfOk, IfErr, OnOk, map};
ghost use Rattle.world.specs.World.{ShardNow};
ghost use Rattle.world.specs.declared.event.Config.{Config};
ghost use Rattle.lives.specs.Fleet.{AreOn, AreStanding, are_fresh};
ghost use Rattle.lives.specs.Lives.{disk_log};

use crate::run_shard::{RunShard, read_back};
use disk::Fate;
use message::Envelope;
use record::Record;
use simdisk::SimDisk;
use std::alloc::Global;
use units::{Fault, Key, ShardNo, Splits, Stamp};
use world::{Config, Doing, Reply, RunOutput};

/// The shards of a run, by their numbers. They have to be spent, by `spend_all`.
pub struct Shards<'s> {
    pub splits: &'s Splits,
    pub shards: Vec<RunShard>,
}

/// What is known of a shard of a number: whether it exists, does not run, is not down, and how many views it has made.
#[derive(Clone, Copy)]
pub struct Known {
    pub exists: bool,
    pub rests: bool,
    pub stands: bool,
    pub views: u64,
}

impl Shards<'_> {
    ghost use Rattle.world.specs.World.{World};
    ghost use Rattle.world.specs.Comes.{Notes};
    ghost use Rattle.world.specs.Passed.{IsOutput};
    ghost use Rattle.world.specs.declared.event.Doing.{Doing};
    ghost use Rattle.lives.specs.Fleet.{AreShards, CrashesAt, IsOrderlyAt, crash_within, known_of, looked};

    /// Returns what is known of the shard of this number.
    pub fn known(&self, shard: ShardNo) -> Known
        ensures { (config : Config) (ss : List ShardNow) → AreShards config self.now ss
            → result ≡ known_of ss shard }
    {
        match self.shards.get(shard.number() as usize) {
            Some(one) => Known {
                exists: true,
                rests: !one.is_up(),
                stands: !one.is_down(),
                views: one.views(),
            },
            None => Known {
                exists: false,
                rests: false,
                stands: false,
                views: 0,
            },
        }
    }

    /// Crashes a shard, in a device call of what it does, by the call's number from 0, or between events with `None`. Its oldest change
    /// that is not synced has this fate.
    pub fn crash(
        &mut self,
        alloc: Global,
        bag: &[Envelope],
        shard: ShardNo,
        within: Option<(u64, Doing)>,
        fate: Fate,
    ) -> Result<Reply, Fault>
        ensures { (config : Config) (ss : List ShardNow) → AreShards config self.old ss
            → ((call : ℕ) (doing : Doing) → within ≡ Some (call, doing)
            → IsOrderlyAt config bag.now ss shard doing)
            → CrashesAt config (crash_within config bag.now shard within fate) ss shard
            self.new result }
    {
        let at = shard.number() as usize;
        if at >= self.shards.len() {
            return Ok(Reply::Refused(Fault::Stranger));
        }
        self.shards[at].crash(alloc, bag, within, fate)
    }

    /// Looks at a view of a shard, by its number from 0, or at what the shard shows now. A look that is answered becomes a line.
    pub fn look(
        &self,
        alloc: Global,
        output: &mut RunOutput,
        shard: ShardNo,
        view: Option<u64>,
        key: &Key,
        at: Stamp,
    ) -> Result<Reply, Fault>
        ensures { (w : World) → AreShards w.config self.now w.shards → IsOutput output.old w
            → Notes w key.now at (looked w.config w.shards shard view key.now at) output.new
            result }
    {
        let is_here = self.splits.shard_of(key).number() == shard.number();
        match self.shards.get(shard.number() as usize) {
            Some(one) => match one.look(alloc, view, is_here, key, at) {
                Ok(reply) => output.note_look(*key, at, reply),
                Err(fault) => Err(fault),
            },
            None => Ok(Reply::Refused(Fault::Stranger)),
        }
    }
}

/// Makes the shards of a run one after another, each on a new disk, formatted and opened.
pub fn fill(shards: &mut Vec<RunShard>, alloc: Global, config: &Config) -> Result<(), Fault>
    requires { shards.old.items ≡ [] }
    ensures filled { OnOk result
        (AreStanding config.now 0 shards.new.items (are_fresh config.now)) }
    ensures memory { IfErr result (λ fault. fault ≡ Fault.Memory) }
{
    for number in 0..config.splits.as_slice().len() + 1 {
        shards.reserve(1)?;
        match RunShard::fresh(alloc, config, number) {
            Ok(shard) => shards.push_reserved(shard),
            Err(fault) => return Err(fault),
        }
    }
    Ok(())
}

/// Takes the shards, in order, and returns their disks and the log that a read of each gives.
pub fn take_logs(
    shards: &mut Vec<RunShard>,
    alloc: Global,
    disks: &mut Vec<SimDisk>,
    logs: &mut Vec<Vec<Record>>,
) -> Result<(), Fault>
    requires { (disks.old.items ≡ []) × (logs.old.items ≡ []) }
    ensures disks { OnOk result
        (AreOn disks.new.items (map (λ log. log.items) logs.new.items)) }
    ensures logs { (config : Config) (n : ℕ) (ss : List ShardNow)
        → AreStanding config n shards.old.items ss
        → OnOk result (map (λ log. log.items) logs.new.items ≡ map disk_log ss) }
    ensures memory { (config : Config) (n : ℕ) (ss : List ShardNow)
        → AreStanding config n shards.old.items ss → IfErr result (λ fault. fault ≡ Fault.Memory) }
{
    while !shards.is_empty() {
        disks.reserve(1)?;
        logs.reserve(1)?;
        let (disk, log) = read_back(alloc, shards.remove(0).into_disk())?;
        disks.push_reserved(disk);
        logs.push_reserved(log);
    }
    Ok(())
}

/// Ends each shard.
pub fn spend_all(shards: Vec<RunShard>) {
    let mut shards = shards;
    for _ in 0..shards.len() {
        match shards.pop() {
            Some(one) => drop(one.into_disk()),
            None => {}
        }
    }
    shards.destroy_empty();
}
