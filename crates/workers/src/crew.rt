//! The workers of a drive, and what they do together.
ghost use Rattle.std.specs.Prelude.{◌≡◌, ◌<◌, ◌≤◌, ◌+◌, ◌*◌, IfErr, IfOk, OnOk, length};
ghost use Rattle.std.specs.Thread.{IsSync, IsSend};
ghost use Rattle.workers.specs.Reports.{IsCounted};
ghost use Rattle.workers.specs.Staffs.{IsStaffOf};

use crate::course::Course;
use crate::shared::{Drawers, Shared};
use crate::worker::{Report, Worker, merged};
use board::Viewers;
use client::Wire;
use crossbeam_channel::Receiver;
use letters::Reply;
use progress::Watch;
use std::alloc::Global;
use std::sync::Wait;
use std::thread::Threads;
use std::{thread, time};
use truetime::Clock;
use units::Fault;

// So many rounds of 20 milliseconds a worker waits, the first silence counted as one, while all shards that it asked say that the transaction
// waits for others. Then it gives the transaction up.
const PATIENCE: u32 = 5;

// Workers that wait for one another are not to give up at the same time: so their patience differs, by their numbers.
const APART: usize = 4;

// For so many milliseconds a worker waits for a shard that says nothing.
const GIVE_UP: u64 = 2_000;

/// What the workers are made of, one of each for each worker.
#[derive(Drop)]
pub struct Staff {
    /// The inboxes, by the workers' numbers.
    pub inboxes: Vec<Receiver<Reply>>,
    /// What each worker draws its numbers with.
    pub drawers: Drawers,
    /// A viewer of each shard, for each worker.
    pub viewers: Viewers,
}

impl Staff {
    // The worker of the last number that has none yet.
    fn next<'r, 's, R, C: Drop, W>(
        &mut self,
        rt: &'r R,
        shared: &'s Shared,
        clock: C,
        watch: &'r W,
    ) -> Worker<'r, 's, R, C, W>
        requires some { 0 < length self.old.inboxes.items }
        requires few { length self.old.inboxes.items ≤ 64 }
        requires staff { IsStaffOf shared.now self.old }
        ensures staff { IsStaffOf shared.now self.new }
        ensures fewer { length self.new.inboxes.items + 1 ≡ length self.old.inboxes.items }
    {
        let inbox = self.inboxes.pop().unwrap();
        let number = self.inboxes.len();
        let wire = Wire::new(
            rt,
            shared.alloc,
            &shared.network,
            &shared.stop,
            inbox,
            number,
            PATIENCE.saturating_add((number % APART) as u32),
        )
        .by_progress(GIVE_UP);
        Worker {
            rt,
            wire,
            shared,
            number,
            ids: self.drawers.ids.pop().unwrap(),
            moments: self.drawers.moments.pop().unwrap(),
            viewers: self.viewers.by_worker.pop().unwrap(),
            clock,
            watch,
        }
    }
}

// The workers, as many as there are inboxes.
fn workers<'r, 's, R, C: Copy, W>(
    rt: &'r R,
    shared: &'s Shared,
    staff: &mut Staff,
    clock: C,
    watch: &'r W,
) -> Result<Vec<Worker<'r, 's, R, C, W>>, Fault>
    requires few { length staff.old.inboxes.items ≤ 64 }
    requires staff { IsStaffOf shared.now staff.old }
    ensures all { IfOk result (λ workers. length workers.items ≡ length staff.old.inboxes.items) }
    ensures memory { IfErr result (λ fault. fault ≡ Fault.Memory) }
{
    let mut workers = Vec::new(shared.alloc);
    for _worker in 0..staff.inboxes.len() {
        workers.push(staff.next(rt, shared, clock, watch))?;
    }
    Ok(workers)
}

/// Runs the workers of a course until each has done its turns, and then sends the nodes the end. Each worker gets a thread of its own, if one
/// can be made. Returns what all of them report.
pub fn work_and_close<
    R: Threads + Wait + time::Clock + Sync,
    C: Clock + Copy + Send,
    W: Watch + Sync,
>(
    rt: &R,
    shared: &Shared,
    course: Course,
    staff: Staff,
    clock: C,
    watch: &W,
) -> Result<Report, Fault>
    requires workers { length staff.inboxes.items ≡ course.workers }
    requires staff { IsStaffOf shared.now staff }
    ensures { IsCounted (course.workers * course.transactions) result }
{
    let mut staff = staff;
    let workers = workers(rt, shared, &mut staff, clock, watch);
    drop(staff);
    let report = work_all(rt, shared.alloc, course, workers);
    shared.network.close(rt);
    report
}

// What the workers report, once each has done its turns.
fn work_all<R: Threads + Wait + time::Clock + Sync, C: Clock + Send + Drop, W: Watch + Sync>(
    rt: &R,
    alloc: Global,
    course: Course,
    workers: Result<Vec<Worker<R, C, W>>, Fault>,
) -> Result<Report, Fault>
    requires all { IfOk workers (λ workers. length workers.items ≡ course.workers) }
    requires memory { IfErr workers (λ fault. fault ≡ Fault.Memory) }
    ensures { IsCounted (course.workers * course.transactions) result }
{
    let reports = thread::map_vec(
        rt,
        workers?,
        &|worker: Worker<R, C, W>| -> Result<Report, Fault>
            requires { IsSync R.row × IsSend C.row × IsSync W.row }
            ensures { IsCounted course.transactions result }
        {
            let mut worker = worker;
            let report = worker.work(course);
            if report.is_err() {
                // The drive has no counts then, so the others end soon too.
                worker.shared.stop.tell();
            }
            drop(worker);
            report
        },
    )?;
    merged(alloc, course, reports)
}
