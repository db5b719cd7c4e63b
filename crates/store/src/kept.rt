//! Nodes whose shards keep the past for a while, their logs short, and of few transactions how they ended.
ghost use Rattle.std.specs.Prelude.{◌≡◌, IfErr};

use crate::Options;
use crate::healing::Healing;
use crate::numbers::{Numbers, ShardCounts};
use crate::offers::Offers;
use board::Publisher;
use disk::Disk;
use letters::{Due, Gauges, Serves, Taken};
use message::{Input, Outbox};
use node::{LogFolder, Node, Restarted};
use std::alloc::Global;
use std::sync::atomic::{AtomicBool, AtomicU64, Ordering};
use std::sync::{Arc, Mutex, Wait};
use truetime::Clock;
use units::{Fault, Run, ShardNo, Stamp, TxnId};

/// A node that is served as it is. Before it advances it forgets what is older than so many microseconds, and renews its log once that has
/// grown by so many bytes. It does so in its file, or into a new one of its folder once the log begins so many bytes into its file. It
/// also retires ids, once there are so many. After it has shown something it lets versions go that its horizon has passed.
///
/// For that it keeps when it may forget again, whether its log is looked at next, and how many versions were left. It also keeps whether it has
/// put off to let some go, what it knows of ids, and the numbers that count its requests.
///
/// If the node stops, its disk is opened again. The viewers of the new board are offered to the clients. The old board is shown until each of them has
/// taken one.
#[derive(Drop)]
pub struct Kept<'n, D: Disk + Drop, H: Wait + Drop, L> {
    node: &'n Node<D, H>,
    folder: &'n L,
    keep: Option<u64>,
    renew: Option<u64>,
    shrink: Option<u64>,
    retire: Option<u64>,
    run: Run,
    again: AtomicU64,
    renews: AtomicBool,
    left: AtomicU64,
    put_off: AtomicBool,
    // Whether the log was to be renewed, and versions went first.
    waited: AtomicBool,
    ids: Ids,
    numbers: Arc<Numbers, Global>,
    place: usize,
    // The handle of its boards, and how many viewers each has.
    own: H,
    clients: usize,
    healing: Healing,
    offers: Arc<Offers, Global>,
    // The old boards, as long as some client may look at them, and whether there are any.
    formers: Mutex<Vec<Publisher<H>>>,
    has_formers: AtomicBool,
}

// What a node knows of ids: when it looks again, whether no letter waited for it since it looked last, and of which number no client spoke any
// more when it did. Besides, the number below which it has retired all.
#[derive(Drop)]
struct Ids {
    again: AtomicU64,
    quiet: AtomicBool,
    before: AtomicU64,
    retired: AtomicU64,
}

impl Ids {
    fn new() -> Ids {
        Ids {
            again: AtomicU64::new(0),
            quiet: AtomicBool::new(false),
            before: AtomicU64::new(0),
            retired: AtomicU64::new(0),
        }
    }
}

// To forget costs a record of the log, and now and then a look at each version. So it is done no more than ten times a second, and once an
// eighth of what is kept has become too old.
const SHORTEST_PAUSE: u64 = 100_000;

const SHARE_OF_PAUSE: u64 = 8;

// Fewer versions than these are all kept.
const FEW_VERSIONS: u64 = 1_024;

// By how many eighths of those that were left the versions have to be more before some go: by half of them, and by less before a log is renewed.
const HALF_MORE: u64 = 4;

const AN_EIGHTH_MORE: u64 = 1;

// To show something took long if it took so many microseconds: a board has let versions go.
const LONG_SHOWING: u64 = 5_000;

// For so many microseconds it does not look again which ids can be retired.
const IDS_PAUSE: u64 = 1_000_000;

// It takes no more than so small a share of the time, also on a slow device.
const SHARE_OF_TIME: u64 = 16;

impl<D: Disk + Drop, H: Wait + Drop + Copy, L: LogFolder<D>> Kept<'_, D, H, L> {
    fn counts(&self) -> Option<&ShardCounts> {
        self.numbers.counts(self.place)
    }

    // How long it is asked no more, after this took so many microseconds. Where nothing is forgotten, it is asked as often as may be.
    fn pause(&self, took: u64) -> u64 {
        let pause = match self.keep {
            Some(keep) => (keep / SHARE_OF_PAUSE).max(SHORTEST_PAUSE),
            None => SHORTEST_PAUSE,
        };
        pause.max(took.saturating_mul(SHARE_OF_TIME))
    }

    // Asks the node to forget if enough time has passed since it was asked last. If that is refused it is asked again after the next pause.
    // Its log is looked at after that, as a piece of its own. Returns whether it was asked.
    fn forget<W: Wait, C: Clock>(&self, rt: &W, clock: &mut C, start: u64) -> bool {
        if start < self.again.load(Ordering::SeqCst) {
            return false;
        }
        if let Some(keep) = self.keep {
            let asked = self.node.keep_by(rt, clock, keep);
            if let Some(counts) = self.counts() {
                counts.count_forget(&asked);
            }
        }
        let end = micros_of(clock).unwrap_or(start);
        let pause = self.pause(end.saturating_sub(start));
        self.again
            .store(end.saturating_add(pause), Ordering::SeqCst);
        self.renews.store(self.renew.is_some(), Ordering::SeqCst);
        true
    }

    // Lets versions go that the horizon has passed, if there are so many eighths more than were left the last time. So those that came since then
    // pay for it. Returns whether it did: not if the board lacks some of them.
    fn let_go<W: Wait>(&self, rt: &W, eighths: u64) -> bool {
        let left = self.left.load(Ordering::SeqCst);
        let more = (left / 8).saturating_mul(eighths);
        let many = left.saturating_add(more).saturating_add(FEW_VERSIONS);
        if self.keep.is_none() || (self.node.versions(rt) as u64) < many {
            return false;
        }
        let went = self.node.let_go(rt).unwrap_or(false);
        if went {
            let left = self.node.versions(rt) as u64;
            self.left.store(left, Ordering::SeqCst);
        }
        went
    }

    // Lets versions go (`let_go`) after it has shown something, which began at this time. If that took long clients wait already, so this is put
    // off until it has shown something again, but not twice.
    fn let_go_after<W: Wait, C: Clock>(&self, rt: &W, clock: &mut C, start: Option<u64>) {
        let (Some(start), Some(end)) = (start, micros_of(clock)) else {
            return;
        };
        let is_long = end.saturating_sub(start) >= LONG_SHOWING;
        let puts_off = is_long && !self.put_off.load(Ordering::SeqCst);
        self.put_off.store(puts_off, Ordering::SeqCst);
        if !puts_off {
            self.let_go(rt, HALF_MORE);
        }
    }

    // Retires the ids of which nobody speaks any more, if there are so many, and if it did not look a second ago. Before so many were drawn it does not
    // ask who speaks of which: so a client may ask how its last transactions ended. If that is refused, it asks
    // again when it looks again. Returns whether it was asked.
    fn retire<W: Wait, C: Clock>(&self, rt: &W, clock: &mut C, start: u64) -> bool {
        let Some(many) = self.retire else {
            return false;
        };
        if start < self.ids.again.load(Ordering::SeqCst) {
            return false;
        }
        let again = start.saturating_add(IDS_PAUSE);
        self.ids.again.store(again, Ordering::SeqCst);
        let retired = self.ids.retired.load(Ordering::SeqCst);
        let enough = retired.saturating_add(many);
        let retiring = self.numbers.retiring();
        if !retiring.has_drawn(enough) {
            return false;
        }
        self.tell_left(rt);
        let below = retiring.left_by_shards();
        if below < enough {
            return false;
        }
        let Some(id) = TxnId::new(self.run.number(), below) else {
            return false;
        };
        let input = Input::Retire(id);
        let taken = self.node.take(rt, clock, &input);
        drop(input);
        if taken.is_ok() {
            self.ids.retired.store(below, Ordering::SeqCst);
        }
        drop(taken);
        true
    }

    // Tells of which transactions this shard speaks no more. One that has stopped may have more in its log than it says, and tells nothing. A letter
    // that came before it looked last was taken meanwhile, if no letter waited once. So what clients spoke of no more at that time is not prepared any
    // more, unless it is now.
    fn tell_left<W: Wait>(&self, rt: &W) {
        if self.node.is_stopped(rt) {
            return;
        }
        let retiring = self.numbers.retiring();
        if self.ids.quiet.swap(false, Ordering::SeqCst) {
            let before = self.ids.before.load(Ordering::SeqCst);
            retiring.leaves(self.place, before.min(self.least_prepared(rt)));
            let left = retiring.left_by_clients();
            self.ids.before.store(left, Ordering::SeqCst);
        }
    }

    // The least number of what is prepared here: 0 for an id of an earlier run, and the greatest of all if nothing is prepared.
    fn least_prepared<W: Wait>(&self, rt: &W) -> u64 {
        match self.node.due(rt, Due::Prepared, 0) {
            None => u64::MAX,
            Some((txn, _)) if txn.run() == self.run.number() => txn.number(),
            Some(_) => 0,
        }
    }

    // Renews the log if it has grown, into a new file or else in its own. The fewer versions there are, the sooner that is done: so those go first
    // that the horizon has passed, as a piece by itself, and the log is renewed in the next one.
    fn renew<W: Wait, C: Clock>(&self, rt: &W, clock: &mut C) {
        let Some(least) = self.renew else {
            return;
        };
        let gauges = self.node.gauges(rt);
        let is_long = gauges.log_ends.saturating_sub(gauges.area_begins) >= least;
        let waits = is_long
            && !self.waited.load(Ordering::SeqCst)
            && self.let_go(rt, AN_EIGHTH_MORE);
        self.waited.store(waits, Ordering::SeqCst);
        if waits {
            self.renews.store(true, Ordering::SeqCst);
            return;
        }
        let asked = match self.move_on(rt, least) {
            Ok(true) => Ok(()),
            Ok(false) => self.node.renew_by(rt, clock, u64::MAX, least),
            Err(fault) => Err(fault),
        };
        if let Some(counts) = self.counts() {
            counts.count_turnover(&asked);
        }
    }

    // Goes on in a new file if the log begins far into its own. Returns whether it did. What is kept for good goes back to the
    // beginning, so no horizon is asked for.
    fn move_on<W: Wait>(&self, rt: &W, least: u64) -> Result<bool, Fault> {
        match self.shrink {
            Some(beyond) => self.node.move_on(rt, self.folder, least, beyond),
            None => Ok(false),
        }
    }

    // Opens the disk of the stopped node again, and offers the viewers of its new board.
    fn restart<W: Wait>(&self, rt: &W) {
        let alloc = self.node.alloc();
        let restarted = self
            .node
            .restart(rt, self.own, alloc, self.folder, self.clients);
        let Ok((home, restarted)) = restarted else {
            return;
        };
        let Restarted { viewers, former } = restarted;
        self.offers.offer(rt, self.place, home, viewers);
        self.healing.has_healed();
        if let Some(former) = former {
            let _ = self.formers.lock(rt).push(former);
            self.has_formers.store(true, Ordering::SeqCst);
        }
        if let Some(counts) = self.counts() {
            counts.count_restart();
        }
    }

    // Ends the old boards once each client has a viewer of the new one.
    fn end_formers<W: Wait>(&self, rt: &W) {
        let has_formers = self.has_formers.load(Ordering::SeqCst);
        if has_formers && self.offers.are_taken(rt, self.place) {
            *self.formers.lock(rt) = Vec::new(self.node.alloc());
            self.has_formers.store(false, Ordering::SeqCst);
        }
    }
}

// The last microsecond of a reading.
fn micros_of<C: Clock>(clock: &mut C) -> Option<u64> {
    let now = clock.now()?;
    Some(now.latest().micros())
}

impl<D: Disk + Drop, H: Wait + Drop + Copy, L: LogFolder<D>> Serves for Kept<'_, D, H, L> {
    fn shard(&self) -> ShardNo {
        self.node.shard()
    }

    fn take<W: Wait, C: Clock>(
        &self,
        rt: &W,
        clock: &mut C,
        input: &Input,
    ) -> Result<Outbox, Fault> {
        self.node.take(rt, clock, input)
    }

    fn take_all<W: Wait, C: Clock>(
        &self,
        rt: &W,
        clock: &mut C,
        inputs: &[Input],
    ) -> Result<Option<Taken>, Fault> {
        self.node.take_all(rt, clock, inputs)
    }

    fn is_ready<W: Wait>(&self, rt: &W) -> bool {
        self.node.is_ready(rt)
    }

    fn earliest_decided<W: Wait>(&self, rt: &W) -> Option<(TxnId, Stamp)> {
        self.node.earliest_decided(rt)
    }

    fn due<W: Wait>(&self, rt: &W, due: Due, n: usize) -> Option<(TxnId, Stamp)> {
        self.node.due(rt, due, n)
    }

    fn is_stopped<W: Wait>(&self, rt: &W) -> bool {
        self.node.is_stopped(rt)
    }

    fn versions<W: Wait>(&self, rt: &W) -> usize {
        self.node.versions(rt)
    }

    fn gauges<W: Wait>(&self, rt: &W) -> Gauges {
        self.node.gauges(rt)
    }

    fn hear_waiting(&self, letters: usize) {
        if letters == 0 {
            self.ids.quiet.store(true, Ordering::SeqCst);
        }
    }

    fn keep_up<W: Wait, C: Clock>(&self, rt: &W, clock: &mut C) -> Option<Stamp> {
        let start = micros_of(clock);
        let served = self.node.keep_up(rt, clock);
        self.let_go_after(rt, clock, start);
        served
    }

    fn publish<W: Wait, C: Clock>(&self, rt: &W, clock: &mut C) -> Option<Stamp> {
        let start = micros_of(clock);
        let served = self.node.publish(rt, clock);
        self.let_go_after(rt, clock, start);
        served
    }

    fn tidy<W: Wait, C: Clock>(&self, rt: &W, clock: &mut C) -> bool {
        self.end_formers(rt);
        if self.keep.is_none() && self.renew.is_none() && self.retire.is_none() {
            return false;
        }
        if self.renews.swap(false, Ordering::SeqCst) {
            self.renew(rt, clock);
            return true;
        }
        let Some(start) = micros_of(clock) else {
            return false;
        };
        self.retire(rt, clock, start) || self.forget(rt, clock, start)
    }

    fn heal<W: Wait, C: Clock>(&self, rt: &W, clock: &mut C) {
        if let Some(now) = micros_of(clock) {
            if self.healing.is_due(now) {
                self.restart(rt);
            }
        }
    }

    fn alloc(&self) -> Global {
        self.node.alloc()
    }
}

/// The nodes, each of which keeps the past, renews its log in this folder and retires ids of this run as the options say. What they ask for is counted
/// in these numbers. Boards that are opened again have this handle, and a viewer for each of so many clients, which is offered to it.
pub fn kept_nodes<'n, D: Disk + Drop, H: Wait + Drop + Copy, L: LogFolder<D>>(
    alloc: Global,
    nodes: &'n [Node<D, H>],
    own: H,
    clients: usize,
    folder: &'n L,
    run: Run,
    options: &Options,
    numbers: &Arc<Numbers, Global>,
    offers: &Arc<Offers, Global>,
) -> Result<Vec<Kept<'n, D, H, L>>, Fault>
    ensures { IfErr result (λ fault. fault ≡ Fault.Memory) }
{
    let mut kept = Vec::new(alloc);
    for (place, node) in nodes.iter().enumerate() {
        kept.push(Kept {
            node,
            folder,
            keep: options.keep,
            renew: options.renew,
            shrink: options.shrink,
            retire: options.retire,
            run,
            again: AtomicU64::new(0),
            renews: AtomicBool::new(false),
            left: AtomicU64::new(0),
            put_off: AtomicBool::new(false),
            waited: AtomicBool::new(false),
            ids: Ids::new(),
            numbers: Arc::try_clone(numbers)?,
            place,
            own,
            clients,
            healing: Healing::none(),
            offers: Arc::try_clone(offers)?,
            formers: Mutex::new(Vec::new(alloc)),
            has_formers: AtomicBool::new(false),
        })?;
    }
    Ok(kept)
}
