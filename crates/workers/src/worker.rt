//! A worker: turns of a transaction and a look, one after the other.
ghost use Rattle.std.specs.Prelude.{◌≡◌, ◌<◌, ◌≤◌, ◌+◌, ◌*◌, ◌^◌, ◌++◌, List, length, IfErr, IfOk, MatchResult, OnOk};
ghost use Rattle.units.specs.declared.line.Line.{Line};
ghost use Rattle.workers.specs.Refusals.{IsCutShort};
ghost use Rattle.workers.specs.Reports.{AreCounted, IsCounted};
ghost use Rattle.workers.specs.Summaries.{tried};
ghost use Rattle.workers.specs.Turns.{AreTurns, IsLooked, IsTurn};

use crate::course::Course;
use crate::shared::Shared;
use crate::summary::Counts;
use board::{Snapshot, Viewer};
use client::Wire;
use progress::{Ended, Stopwatch, Turn, Watch};
use std::alloc::Global;
use std::sync::Wait;
use std::time;
use std::time::Duration;
use tickets::Drawer;
use truetime::Clock;
use units::{Fault, Key, Line, Seen, Stamp, Value};

/// A worker of a drive, which runs its turns one after the other.
#[derive(Drop)]
pub struct Worker<'r, 's, R, C, W> {
    /// The runtime, by whose clock the watch is told.
    pub rt: &'r R,
    /// What its transactions send and hear with.
    pub wire: Wire<'r, 's, R>,
    /// What all workers share.
    pub shared: &'s Shared,
    /// Its number, from 0.
    pub number: usize,
    /// What it draws the ids of its transactions with.
    pub ids: Drawer,
    /// What it draws the moments of its lines with.
    pub moments: Drawer,
    /// A viewer of each shard, by the shard's number.
    pub viewers: Vec<Viewer>,
    /// The clock at whose readings it looks.
    pub clock: C,
    /// What is told of each turn.
    pub watch: &'r W,
    ghost few: { number < 64 },
    ghost ids_drawn: { ids.source ≡ shared.now.ids },
    ghost moments_drawn: { moments.source ≡ shared.now.moments },
}

/// What a worker did.
#[derive(Drop)]
pub struct Report {
    /// How its transactions and looks ended.
    pub counts: Counts,
    /// The lines of its part of the report.
    pub lines: Vec<Line>,
}

impl<R: Wait + time::Clock, C: Clock + Drop, W: Watch> Worker<'_, '_, R, C, W> {
    /// Does its turns of a course, each over the keys of that turn.
    pub fn work(&mut self, course: Course) -> Result<Report, Fault>
        ensures counted { IsCounted course.transactions result }
        ensures turns { IfOk result (λ report.
            AreTurns course.keys self.old.number course.transactions report.lines.items) }
    {
        let worker = self.number as u64;
        let mut counts = Counts::none();
        let mut lines = Vec::new(self.shared.alloc);
        for turn in 0..course.transactions {
            let keys = course.turn_keys(self.shared.alloc, worker, turn)?;
            let turned = self.turn(&keys, &mut lines);
            drop(keys);
            let (ended, looked) = turned?;
            counts.add(ended, looked);
        }
        Ok(Report { counts, lines })
    }

    // Runs a transaction, and tells the watch how it ended; then looks at its first key, and tells the watch if that was answered. Returns
    // both.
    fn turn(&mut self, keys: &[Key], lines: &mut Vec<Line>) -> Result<(Ended, bool), Fault>
        ensures { MatchResult result (λ turned. (told : List Line)
            × IsTurn keys.now turned.0 turned.1 told
            × (lines.new.items ≡ lines.old.items ++ told)) IsCutShort }
    {
        let stopwatch = Stopwatch::start(self.rt);
        let ended = self.transact(keys, lines)?;
        if self.shared.network.has_lacked_memory() {
            // Letters are lost then, or a node puts off what is due: the drive would wait for them.
            return Err(Fault::Memory);
        }
        self.watch.turned(Turn {
            ended,
            micros: stopwatch.micros(self.rt),
        });
        let stopwatch = Stopwatch::start(self.rt);
        let looked = self.look_at_first(keys, lines)?;
        if looked {
            self.watch.looked(stopwatch.micros(self.rt));
        }
        Ok((ended, looked))
    }

    // Looks at the first of some keys at the latest of a reading. Returns whether it was answered.
    fn look_at_first(&mut self, keys: &[Key], lines: &mut Vec<Line>) -> Result<bool, Fault>
        ensures { MatchResult result (λ looked. (told : List Line) × IsLooked looked keys.now told
            × (lines.new.items ≡ lines.old.items ++ told)) (λ fault. fault ≡ Fault.Memory) }
    {
        let Some((key, _others)) = keys.split_first() else {
            return Ok(false);
        };
        let Some(now) = self.clock.now() else {
            return Ok(false);
        };
        let snapshot = Snapshot::start(&now);
        let mut buffer = [0; 4096];
        let Some(seen) = self.look_for(&snapshot, now.latest(), key, &mut buffer) else {
            return Ok(false);
        };
        let value = value_seen(self.shared.alloc, seen, &buffer)?;
        lines.push(Line::Look(*key, now.latest(), value))?;
        Ok(true)
    }

    // Looks at a key at the snapshot, which is at this timestamp, until its shard serves that: a hundred times at most, and not after the
    // word to stop. The tries are a millisecond apart, or less if the shard has told that it serves the timestamp.
    fn look_for(
        &mut self,
        snapshot: &Snapshot,
        at: Stamp,
        key: &Key,
        buffer: &mut [u8],
    ) -> Option<Seen> {
        let shard = self.shared.splits.shard_of(key);
        for _try in 0..100 {
            if self.shared.stop.is_told() {
                return None;
            }
            if let Some(viewer) = self.viewers.get_mut(usize::from(shard.number())) {
                if let Ok(seen) = snapshot.look(viewer, key, buffer) {
                    return Some(seen);
                }
            }
            let longest = Duration::from_millis(1);
            self.shared
                .network
                .await_served(self.rt, shard, at, longest);
        }
        None
    }
}

// The value that a look put at the front of the buffer.
fn value_seen(alloc: Global, seen: Seen, buffer: &[u8]) -> Result<Option<Value>, Fault>
    requires { length buffer.now ≤ 4096 }
    ensures { IfErr result (λ fault. fault ≡ Fault.Memory) }
{
    match seen {
        Seen::Absent => Ok(None),
        Seen::Value(length) => match buffer.get(..length) {
            Some(bytes) => Ok(Some(Value::new(alloc, bytes)?)),
            None => Ok(None),
        },
    }
}

impl Report {
    // Adds what another worker did.
    fn merge(&mut self, other: Report) -> Result<(), Fault>
        requires { (tried self.old.counts + tried other.counts < 2 ^ 64)
            × (self.old.counts.looks + other.counts.looks < 2 ^ 64) }
        ensures tried { tried self.new.counts ≡ tried self.old.counts + tried other.counts }
        ensures committed { self.new.counts.committed ≡
            self.old.counts.committed + other.counts.committed }
        ensures looks { self.new.counts.looks ≡ self.old.counts.looks + other.counts.looks }
        ensures lines { OnOk result
            (self.new.lines.items ≡ self.old.lines.items ++ other.lines.items) }
        ensures memory { IfErr result (λ fault. fault ≡ Fault.Memory) }
    {
        let Report { counts, mut lines } = other;
        self.counts.merge(counts);
        self.lines.append(&mut lines)?;
        Ok(())
    }
}

/// Adds up what the workers of a course did.
pub fn merged(
    alloc: Global,
    course: Course,
    reports: Vec<Result<Report, Fault>>,
) -> Result<Report, Fault>
    requires all { length reports.items ≡ course.workers }
    requires counted { AreCounted course.transactions reports.items }
    ensures { IsCounted (course.workers * course.transactions) result }
{
    let _course = course;
    let mut all = Report {
        counts: Counts::none(),
        lines: Vec::new(alloc),
    };
    for report in reports {
        all.merge(report?)?;
    }
    Ok(all)
}
