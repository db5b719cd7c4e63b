//! A store is served while its clients work.
ghost use Rattle.std.specs.Prelude.{◌≡◌, ◌<◌, ◌≤◌, All, length, IfErr, IfOk};
ghost use Rattle.board.specs.Dealing.{lists_of};
ghost use Rattle.store.specs.Attempts.{IsFresh};
ghost use Rattle.std.specs.Thread.{IsSync, IsSend};

use crate::Options;
use crate::clients::Client;
use crate::counted::counted_nodes;
use crate::crew::{Crew, clients_of};
use crate::door::Door;
use crate::kept::kept_nodes;
use crate::numbers::Numbers;
use crate::offers::Offers;
use crate::shared::Shared;
use crate::steady::StoreClock;
use board::Viewers;
use client::Stop;
use crossbeam_channel::Receiver;
use disk::Disk;
use letters::{Inboxes, Letter, Network, Post, Served, Serves, start_in, to_serve};
use node::{LogFolder, Node, run_of};
use std::alloc::Global;
use std::sync::atomic::AtomicU64;
use std::sync::{Arc, Wait};
use std::thread::Threads;
use std::{thread, time};
use tickets::Tickets;
use truetime::Clock;
use units::{Epoch, Fault, Stamp};

/// Serves nodes, each on a thread, while `work` goes on with its clients. They keep the past for as long as the options say, and
/// renew their logs as these say, into new files if their folder has some. A node that stops is opened again, with this handle for its board.
pub fn serve_kept<
    R: Threads + Wait + time::Clock + Sync,
    D: Disk + Drop + Send,
    H: Wait + Drop + Copy + Send + Sync,
    L: LogFolder<D> + Sync,
    T,
    F: for<'s> FnOnce(Vec<Client<'s, R>>) -> T,
>(
    rt: &R,
    alloc: Global,
    options: &Options,
    epoch: Epoch,
    last: Stamp,
    nodes: &[Node<D, H>],
    own: H,
    folder: &L,
    viewers: Viewers,
    numbers: Arc<Numbers, Global>,
    work: F,
) -> Result<T, Fault>
    requires { F.IsAlwaysCallable work }
    ensures clients { IfOk result (λ answer. (clients : _) × F.post work clients answer
        × All (IsFresh epoch options.now.splits options.now.epsilon last (lists_of viewers))
        clients.items) }
    ensures refused { 0 < length viewers.by_worker.items
        → length viewers.by_worker.items ≤ 256
        → IfErr result (λ fault. fault ≡ Fault.Memory) }
{
    let offers = Arc::new(alloc, Offers::none(alloc, nodes.len())?)?;
    let run = run_of(epoch);
    let clients = viewers.by_worker.len();
    let kept = kept_nodes(
        alloc, nodes, own, clients, folder, run, options, &numbers, &offers,
    )?;
    let counted = counted_nodes(alloc, &kept, &numbers)?;
    serve_nodes(
        rt, alloc, options, epoch, last, &counted, numbers, offers, viewers, work,
    )
}

// Serves nodes of any kind, each on a thread, while `work` goes on with its clients.
fn serve_nodes<
    N: Serves + Sync,
    R: Threads + Wait + time::Clock + Sync,
    T,
    F: for<'s> FnOnce(Vec<Client<'s, R>>) -> T,
>(
    rt: &R,
    alloc: Global,
    options: &Options,
    epoch: Epoch,
    last: Stamp,
    nodes: &[N],
    numbers: Arc<Numbers, Global>,
    offers: Arc<Offers, Global>,
    viewers: Viewers,
    work: F,
) -> Result<T, Fault>
    requires { F.IsAlwaysCallable work }
    ensures clients { IfOk result (λ answer. (clients : _) × F.post work clients answer
        × All (IsFresh epoch options.now.splits options.now.epsilon last (lists_of viewers))
        clients.items) }
    ensures refused { 0 < length viewers.by_worker.items
        → length viewers.by_worker.items ≤ 256
        → IfErr result (λ fault. fault ≡ Fault.Memory) }
{
    let made = shared_of(alloc, options, epoch, nodes.len(), numbers, offers, viewers);
    let (shared, to_nodes, crew) = made?;
    let reached = AtomicU64::new(last.micros());
    let clock = StoreClock::new(rt, options, last, &reached);
    match to_serve(rt, alloc, &shared.network, nodes, to_nodes, clock) {
        Ok(served) => work_beside(rt, &shared, served, crew, clock, options.patience, work),
        Err(fault) => {
            drop(crew);
            Err(fault)
        }
    }
}

// What clients share, the inboxes of the nodes, and what the clients are made of.
fn shared_of(
    alloc: Global,
    options: &Options,
    epoch: Epoch,
    nodes: usize,
    numbers: Arc<Numbers, Global>,
    offers: Arc<Offers, Global>,
    viewers: Viewers,
) -> Result<(Shared, Vec<Receiver<Letter>>, Crew), Fault>
    ensures drawers { IfOk result
        (λ made. All (λ drawer. drawer.source ≡ made.0.ids) made.2.drawers.items) }
    ensures run { IfOk result (λ made. made.0.run ≡ epoch) }
    ensures splits { IfOk result (λ made. made.0.splits ≡ options.now.splits) }
    ensures viewers { IfOk result
        (λ made. made.2.viewers.by_worker.items ≡ viewers.by_worker.items) }
    ensures refused { 0 < length viewers.by_worker.items
        → length viewers.by_worker.items ≤ 256
        → IfErr result (λ fault. fault ≡ Fault.Memory) }
{
    let clients = viewers.by_worker.len();
    let splits = options.splits.copy(alloc)?;
    let (ids, drawers) = Tickets::new(alloc, clients)?;
    let (network, inboxes) = Network::new(alloc, nodes, clients)?;
    let Inboxes {
        nodes: to_nodes,
        workers: to_clients,
    } = inboxes;
    let shared = Shared {
        alloc,
        run: run_of(epoch),
        splits,
        network,
        ids,
        stop: Stop::new(),
        give_up: options.give_up,
        door: Door::new(options.give_up, options.epsilon),
        numbers,
        offers,
    };
    let crew = Crew {
        inboxes: to_clients,
        drawers,
        viewers,
    };
    Ok((shared, to_nodes, crew))
}

// The nodes on a thread each, beside the work of the clients. Where one has none, no client begins.
fn work_beside<
    'a,
    N: Serves + Sync,
    R: Threads + Wait + time::Clock + Sync,
    P: Post + Send + Drop,
    T,
    F: for<'s> FnOnce(Vec<Client<'s, R>>) -> T,
>(
    rt: &'a R,
    shared: &'a Shared,
    served: Vec<Served<'a, N, P, StoreClock<'a, R>>>,
    crew: Crew,
    clock: StoreClock<'a, R>,
    patience: u32,
    work: F,
) -> Result<T, Fault>
    requires work { F.IsAlwaysCallable work }
    requires drawers { All (λ drawer. drawer.source ≡ shared.now.ids) crew.drawers.items }
    ensures clients { IfOk result (λ answer. (clients : _) × F.post work clients answer
        × All (IsFresh shared.now.run shared.now.splits
        clock.entry.machine.epsilon clock.entry.from (lists_of crew.viewers))
        clients.items) }
    ensures refused { IfErr result (λ fault. fault ≡ Fault.Memory) }
{
    thread::scope(
        thread::scope_env(),
        rt,
        |scope| -> Result<T, Fault>
            requires threads { IsSync R.row × IsSync N.row × IsSend P.row }
            requires work { F.IsAlwaysCallable work }
            requires drawers { All (λ drawer. drawer.source ≡ shared.now.ids) crew.drawers.items }
            ensures clients { IfOk result (λ answer. (clients : _) × F.post work clients answer
                × All (IsFresh shared.entry.now.run shared.entry.now.splits
                clock.entry.machine.epsilon clock.entry.from (lists_of crew.viewers))
                clients.items) }
            ensures refused { IfErr result (λ fault. fault ≡ Fault.Memory) }
        {
            let answer = if start_in(scope, rt, served, &shared.network) {
                work_with(rt, shared, crew, clock, patience, work)
            } else {
                drop(crew);
                drop(work);
                Err(Fault::Memory)
            };
            shared.network.close(rt);
            answer
        },
    )
}

// The work of the clients.
fn work_with<
    'a,
    R: Threads + Wait + time::Clock + Sync,
    T,
    F: for<'s> FnOnce(Vec<Client<'s, R>>) -> T,
>(
    rt: &'a R,
    shared: &'a Shared,
    crew: Crew,
    clock: StoreClock<'a, R>,
    patience: u32,
    work: F,
) -> Result<T, Fault>
    requires work { F.IsAlwaysCallable work }
    requires drawers { All (λ drawer. drawer.source ≡ shared.now.ids) crew.drawers.items }
    ensures clients { IfOk result (λ answer. (clients : _) × F.post work clients answer
        × All (IsFresh shared.now.run shared.now.splits
        clock.entry.machine.epsilon clock.entry.from (lists_of crew.viewers))
        clients.items) }
    ensures refused { IfErr result (λ fault. fault ≡ Fault.Memory) }
{
    let clients = clients_of(rt, shared, crew, clock, patience)?;
    Ok(work(clients))
}
