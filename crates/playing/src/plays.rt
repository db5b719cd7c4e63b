//! Whole runs.
ghost use Rattle.std.specs.Prelude.{◌≡◌, [], true, IfOk, IfErr};
ghost use Rattle.world.specs.World.{World, start};
ghost use Rattle.world.specs.Lawful.{lawful};
ghost use Rattle.lives.specs.Runs.{IsRun};
ghost use Rattle.playing.specs.Reports.{IsNoReport, IsReport, Plays, Reports};
ghost use Rattle.world.specs.declared.event.Config.{Config};

use lives::{Finished, Run};
use message::Bag;
use record::Record;
use simdisk::SimDisk;
use std::alloc::Global;
use units::{Fault, Line, Reason};
use world::{Config, Event, Reply, counted};

/// What a run comes to.
#[derive(Drop)]
pub struct Report {
    /// The reply to each event.
    pub replies: Vec<Reply>,
    /// How many messages had been put out after each event.
    pub counts: Vec<u64>,
    /// Every message that was put out.
    pub bag: Bag,
    /// The disk that each shard ends with.
    pub disks: Vec<SimDisk>,
    /// The log that a read of each disk gives.
    pub logs: Vec<Vec<Record>>,
    /// The lines that count; that of a read counts if its transaction committed.
    pub lines: Vec<Line>,
}

/// Plays the events over shards on disks in memory. Each step of a shard is a call of its core, and each step of a session one of its
/// transaction. Crashes and failing calls are those of its disk. Events that are not lawful are refused with the number of the first that
/// may not happen.
pub fn play(alloc: Global, config: &Config, events: &[Event]) -> Result<Report, Fault>
    ensures report { IfOk result (λ report. IsReport config.now events.now report) }
    ensures refused { IfErr result (λ fault. IsNoReport config.now events.now fault) }
{
    let mut run = Run::start(alloc, config)?;
    let mut replies = Vec::new(alloc);
    let mut counts = Vec::new(alloc);
    match play_all(&mut run, alloc, events, &mut replies, &mut counts) {
        Ok(()) => report_of(run, alloc, replies, counts),
        Err(fault) => {
            run.spend();
            drop(replies);
            drop(counts);
            Err(fault)
        }
    }
}

/// Tells whether each event may happen after those before it. True times do not fall, and readings hold them. Messages were put out before
/// they come. Sessions, shards and views exist.
pub fn lawful(alloc: Global, config: &Config, events: &[Event]) -> Result<bool, Fault>
    ensures answer { IfOk result (λ fair. fair ≡ lawful config.now events.now) }
    ensures memory { IfErr result (λ fault. fault ≡ Fault.Memory) }
{
    match play(alloc, config, events) {
        Ok(report) => {
            drop(report);
            Ok(true)
        }
        Err(Fault::BadRequest(Reason::Unlawful(_))) => Ok(false),
        Err(fault) => Err(fault),
    }
}

// Each event happens, if it may.
fn play_all(
    run: &mut Run<'_>,
    alloc: Global,
    events: &[Event],
    replies: &mut Vec<Reply>,
    counts: &mut Vec<u64>,
) -> Result<(), Fault>
    requires none { (replies.old.items ≡ []) × (counts.old.items ≡ []) }
    ensures { (config : Config) → IsRun run.old (start config)
        → Plays config events.now run.new replies.new.items counts.new.items result }
{
    for (number, event) in events.iter().enumerate() {
        replies.reserve(1)?;
        counts.reserve(1)?;
        let reply = run.take(alloc, number as u64, event)?;
        replies.push_reserved(reply);
        counts.push_reserved(run.output.bag.as_slice().len() as u64);
    }
    Ok(())
}

// The report of a run that is over.
fn report_of(
    run: Run<'_>,
    alloc: Global,
    replies: Vec<Reply>,
    counts: Vec<u64>,
) -> Result<Report, Fault>
    ensures report { (w : World) → IsRun run.entry w
        → IfOk result (λ report. Reports w replies.items counts.items report) }
    ensures memory { (w : World) → IsRun run.entry w
        → IfErr result (λ fault. fault ≡ Fault.Memory) }
{
    let Finished {
        bag,
        disks,
        logs,
        lines,
    } = match run.finish(alloc) {
        Ok(finished) => finished,
        Err(fault) => {
            drop(replies);
            drop(counts);
            return Err(fault);
        }
    };
    match counted(alloc, &logs, lines) {
        Ok(lines) => Ok(Report {
            replies,
            counts,
            bag,
            disks,
            logs,
            lines,
        }),
        Err(fault) => {
            drop(replies);
            drop(counts);
            drop(bag);
            drop(disks);
            drop(logs);
            Err(fault)
        }
    }
}
