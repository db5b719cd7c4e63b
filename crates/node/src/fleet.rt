//! Nodes over the disks of all shards.
ghost use Rattle.std.specs.Prelude.{◌≡◌, ◌≢◌, ◌⊎◌, ◌≤◌, ◌+◌, ◌<◌, ◌++◌, ◌∷◌, [], List, length, map, max, Err, Some, IfErr, IfOk, IsOk, OnOk};
ghost use Rattle.std.specs.List.{AllZip};
ghost use Rattle.board.specs.Dealing.{AreDealt, lists_of};
ghost use Rattle.board.specs.Views.{Viewing};
ghost use Rattle.node.specs.Dealt.{AreDealtOver, HasViewers};
ghost use Rattle.node.specs.Openings.{IsMade};
ghost use Rattle.node.specs.Together.{AreSetups, IsCauseOf, IsEarly, IsFirstOf, IsOpenedOver, epoch_in, last_in};
ghost use Rattle.node.specs.Setups.{IsSetupOf};
ghost use Rattle.node.specs.Unopened.{IsFirst, IsLastIn, IsRunOver, IsUnmade, unopened_for};

use crate::node::Node;
use crate::side_by_side::side_by_side;
use crate::unopened::Unopened;
use board::{Viewer, Viewers};
use disk::Disk;
use shard::Core;
use std::alloc::Global;
use std::sync::Wait;
use std::thread::Threads;
use units::{Book, Epoch, Fault, Reason, Run, Setup, ShardNo, Splits, Stamp, Stride};

/// What a node does besides being served: it gives its disk back.
pub trait Closes<D>: Sized {
    /// Ends the node, and gives its disk back.
    fn close(self) -> D;
}

impl<D: Disk + Drop, H: Wait + Drop> Closes<D> for Node<D, H> {
    fn close(self) -> D {
        Node::close(self)
    }
}

/// The nodes of a store over its opened disks.
#[derive(Drop)]
pub struct Opened<N> {
    /// The nodes, by shard.
    pub nodes: Vec<N>,
    /// The viewers of each worker, by shard.
    pub viewers: Viewers,
    /// The greatest epoch of the openings, which is the run of all ids.
    pub epoch: Epoch,
    /// The greatest timestamp of the logs.
    pub last: Stamp,
}

// The node of a shard that was opened, with the viewers of its board.
#[derive(Drop)]
struct Made<N> {
    node: N,
    viewers: Vec<Viewer>,
    // The epoch of its opening.
    epoch: Epoch,
    // The greatest timestamp of its log.
    last: Stamp,
}

impl<N: Drop> Opened<N> {
    // One node more, if it was made. Its viewers are dealt out.
    fn add(&mut self, made: Result<Made<N>, Fault>) -> Result<(), Fault>
        ensures viewers { length self.new.viewers.by_worker.items
            ≡ length self.old.viewers.by_worker.items }
        ensures dealt { OnOk result ((all : List Viewing) (one : Viewing)
            → AreDealt all (lists_of self.old.viewers)
            → HasViewers (length self.old.viewers.by_worker.items) made one
            → AreDealt (all ++ one ∷ []) (lists_of self.new.viewers)) }
        ensures nodes { OnOk result
            (length self.new.nodes.items ≡ length self.old.nodes.items + 1) }
        ensures made { IsOk result → IsOk made }
        ensures epoch { IsOk result → self.new.epoch ≡ max self.old.epoch (epoch_in made) }
        ensures last { IsOk result → self.new.last ≡ max self.old.last (last_in made) }
        ensures refused { IfErr result (IsCauseOf made) }
    {
        let Made {
            node,
            viewers,
            epoch,
            last,
        } = made?;
        self.epoch = later(self.epoch, epoch);
        self.last = self.last.later(last);
        self.nodes.push(node)?;
        self.viewers.deal(viewers)?;
        Ok(())
    }
}

/// Opens the disks of shards 0, 1 and so on side by side. Each worker gets a viewer of each shard's board, by shard. More or fewer disks than shards
/// are refused as `settings`. Otherwise the fault is that of the first shard that is refused.
pub fn open_shards<'r, R: Threads + Wait + Sync, D: Disk + Drop + Send>(
    rt: &'r R,
    alloc: Global,
    splits: &Splits,
    stride: Stride,
    disks: Vec<D>,
    workers: usize,
) -> Result<Opened<Node<D, &'r R>>, Unopened>
    ensures viewers { IfOk result (λ opened.
        length opened.viewers.by_worker.items ≡ workers) }
    ensures dealt { IfOk result (λ opened.
        AreDealtOver D.keeps_model D.obeys D.file D.clock D.since D.failures D.plan
        splits.now stride disks.items (lists_of opened.viewers)) }
    ensures nodes { IfOk result (λ opened. length opened.nodes.items ≡ length disks.items) }
    ensures run { IfOk result (λ opened.
        IsRunOver D.keeps_model D.file disks.items opened.epoch) }
    ensures last { IfOk result (λ opened.
        IsLastIn D.keeps_model D.file disks.items opened.last) }
    ensures shards { IsOk result → length disks.items ≡ length splits.now + 1 }
    ensures refused { length disks.items ≢ length splits.now + 1
        → result ≡ Err (unopened_for (Fault.BadRequest Reason.Settings)) }
    ensures unmade { 0 < workers → workers ≤ 64
        → IfErr result (λ unopened. IsUnmade unopened.fault) }
    ensures first { 0 < workers → workers ≤ 64 → IfErr result
        (IsFirst D.keeps_model D.file splits.now stride disks.items) }
{
    if disks.len() != splits.as_slice().len() + 1 {
        drop(disks);
        return Err(Unopened::from(Fault::BadRequest(Reason::Settings)));
    }
    open_counted(rt, alloc, splits, stride, disks, workers)
}

// The same, of as many disks as shards.
fn open_counted<'r, R: Threads + Wait + Sync, D: Disk + Drop + Send>(
    rt: &'r R,
    alloc: Global,
    splits: &Splits,
    stride: Stride,
    disks: Vec<D>,
    workers: usize,
) -> Result<Opened<Node<D, &'r R>>, Unopened>
    requires { length disks.items ≡ length splits.now + 1 }
    ensures viewers { IfOk result (λ opened.
        length opened.viewers.by_worker.items ≡ workers) }
    ensures dealt { IfOk result (λ opened.
        AreDealtOver D.keeps_model D.obeys D.file D.clock D.since D.failures D.plan
        splits.now stride disks.items (lists_of opened.viewers)) }
    ensures nodes { IfOk result (λ opened. length opened.nodes.items ≡ length disks.items) }
    ensures run { IfOk result (λ opened.
        IsRunOver D.keeps_model D.file disks.items opened.epoch) }
    ensures last { IfOk result (λ opened.
        IsLastIn D.keeps_model D.file disks.items opened.last) }
    ensures unmade { 0 < workers → workers ≤ 64
        → IfErr result (λ unopened. IsUnmade unopened.fault) }
    ensures first { 0 < workers → workers ≤ 64 → IfErr result
        (IsFirst D.keeps_model D.file splits.now stride disks.items) }
{
    let told = told(alloc, splits, stride, disks)?;
    let viewers = match Viewers::none(alloc, workers) {
        Ok(viewers) => viewers,
        Err(fault) => {
            drop(told);
            return Err(Unopened::from(fault));
        }
    };
    match open_nodes(rt, alloc, told, workers) {
        Ok(made) => all_opened(alloc, made, viewers),
        Err(disks) => {
            drop(disks);
            drop(viewers);
            Err(Unopened::from(Fault::Memory))
        }
    }
}

// Each disk, with what its shard is told.
fn told<D: Drop>(
    alloc: Global,
    splits: &Splits,
    stride: Stride,
    disks: Vec<D>,
) -> Result<Vec<(D, Setup)>, Fault>
    ensures disks { IfOk result (λ told. map (λ one. one.0) told.items ≡ disks.items) }
    ensures setups { IfOk result
        (λ told. AreSetups splits.now stride 0 told.items) }
    ensures few { IfOk result (λ told. length told.items ≤ 16) }
    ensures unmade { IfErr result IsEarly }
{
    let mut told = Vec::new(alloc);
    for disk in disks {
        let setup = setup_of(alloc, splits, stride, told.len())?;
        told.push((disk, setup))?;
    }
    Ok(told)
}

// Opens each disk, and makes its node with a viewer for each worker, all at once.
fn open_nodes<'r, R: Threads + Wait + Sync, D: Disk + Drop + Send>(
    rt: &'r R,
    alloc: Global,
    told: Vec<(D, Setup)>,
    workers: usize,
) -> Result<Vec<Result<Made<Node<D, &'r R>>, Fault>>, Vec<(D, Setup)>>
    ensures { IfOk result (λ made. AllZip
        (IsMade D.keeps_model D.obeys D.file D.clock D.since D.failures D.plan workers)
        told.items made.items) }
{
    let open = |given: (D, Setup)|
        ensures { IsMade D.keeps_model D.obeys D.file D.clock D.since D.failures D.plan
            workers given result }
    { open_node(rt, alloc, given, workers) };
    side_by_side(rt, alloc, told, &open)
}

// Opens the log of a disk, and makes the node of its shard with so many viewers. If that is refused, the disk is let go.
#[tactic(auto, using(crate::proofs::Refusals::no_desk))]
fn open_node<D: Disk + Drop, H: Wait + Copy>(
    rt: H,
    alloc: Global,
    given: (D, Setup),
    n: usize,
) -> Result<Made<Node<D, H>>, Fault>
    ensures { IsMade D.keeps_model D.obeys D.file D.clock D.since D.failures D.plan
        n given result }
{
    let (disk, setup) = given;
    let core = match Core::open(alloc, disk, setup) {
        Ok(core) => core,
        Err((fault, disk)) => {
            drop(disk);
            return Err(fault);
        }
    };
    let epoch = core.epoch();
    let last = core.last();
    match Node::new(rt, alloc, core, n) {
        Ok((node, viewers)) => Ok(Made {
            node,
            viewers,
            epoch,
            last,
        }),
        Err((fault, core)) => {
            drop(core.stop());
            Err(fault)
        }
    }
}

// All nodes, in their order, if each was made. The first that is refused counts.
fn all_opened<N: Drop>(
    alloc: Global,
    made: Vec<Result<Made<N>, Fault>>,
    viewers: Viewers,
) -> Result<Opened<N>, Unopened>
    requires { length made.items ≤ 16 }
    ensures viewers { IfOk result (λ opened.
        length opened.viewers.by_worker.items ≡ length viewers.by_worker.items) }
    ensures dealt { IfOk result (λ opened. (all : List Viewing)
        → AllZip (HasViewers (length viewers.by_worker.items)) made.items all
        → AreDealt [] (lists_of viewers) → AreDealt all (lists_of opened.viewers)) }
    ensures opened { IfOk result (λ opened.
        IsOpenedOver made.items (length opened.nodes.items) opened.epoch opened.last) }
    ensures first { IfErr result (IsFirstOf made.items) }
{
    let mut opened = Opened {
        nodes: Vec::new(alloc),
        viewers,
        epoch: Epoch::first(),
        last: Stamp::zero(),
    };
    for one in made {
        let shard = shard_at(opened.nodes.len());
        if let Err(fault) = opened.add(one) {
            drop(opened);
            return Err(Unopened { shard, fault });
        }
    }
    Ok(opened)
}

// The shard of a number, if there may be one.
fn shard_at(number: usize) -> Option<ShardNo>
    ensures { number < 16 → result ≡ Some number }
{
    if number < 16 {
        ShardNo::new(number as u8)
    } else {
        None
    }
}

// What the shard of this number is told.
pub(crate) fn setup_of(
    alloc: Global,
    splits: &Splits,
    stride: Stride,
    number: usize,
) -> Result<Setup, Fault>
    ensures setup { IfOk result (IsSetupOf splits.now stride number) }
    ensures few { IsOk result → number < 16 }
    ensures refused { IfErr result (λ fault. (fault ≡ Fault.Memory)
        ⊎ ((fault ≡ Fault.BadRequest Reason.Settings) × (16 ≤ number))) }
{
    if number >= 16 {
        return Err(Fault::BadRequest(Reason::Settings));
    }
    let Some(shard) = ShardNo::new(number as u8) else {
        unreachable!()
    };
    Ok(Setup {
        shard,
        splits: splits.copy(alloc)?,
        stride,
        book: Book::Off,
    })
}

// The later of two epochs.
fn later(epoch: Epoch, other: Epoch) -> Epoch
    ensures first { epoch ≤ result }
    ensures second { other ≤ result }
    ensures one { (result ≡ epoch) ⊎ (result ≡ other) }
    ensures greatest { result ≡ max epoch other }
{
    if epoch.number() < other.number() {
        other
    } else {
        epoch
    }
}

/// Gives the run of all ids of an opening: its greatest epoch.
pub fn run_of(epoch: Epoch) -> Run
    ensures { result ≡ epoch }
{
    match Run::new(epoch.number()) {
        Some(run) => run,
        None => unreachable!(),
    }
}
