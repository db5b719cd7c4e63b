//! An open store.
ghost use Rattle.std.specs.Prelude.{◌≡◌, ◌⊎◌, ◌<◌, ◌≤◌, ◌+◌, ◌-◌, ℕ, [], All, length, Err, IfErr, IfOk, IfSome, IsOk, vec_capacity};
ghost use Rattle.node.specs.Dealt.{AreDealtOver};
ghost use Rattle.node.specs.Unopened.{IsFirst, IsLastIn, IsRunOver, IsUnmade, unopened_for};
ghost use Rattle.store.specs.Attempts.{IsFresh};

use crate::Options;
use crate::clients::Client;
use crate::log_files::{LogFiles, NoFolder};
use crate::numbers::{Numbers, numbers_of};
use crate::serving::serve_kept;
use crate::timed::lead_by;
use disk::Disk;
use filedisk::FileDisk;
use node::{LogFolder, Node, Opened, Unopened, open_shards};
use std::alloc::Global;
use std::marker::Model;
use std::sync::{Arc, Wait};
use std::thread::Threads;
use std::time;
use units::{Fault, Reason};

/// A store whose shards are open, each over a disk of its own. Contracts see the run of its ids, its splits, and how many shards and clients it
/// has. Of its clock they see the epsilon and the timestamp from which it goes on. They also see the viewers that its clients get.
///
/// Its logs stand in a folder of the kind `L`, or stay in their disks.
#[derive(Drop)]
pub struct Store<'r, R: Wait, D: Disk + Drop, L = NoFolder> {
    rt: &'r R,
    alloc: Global,
    options: Options,
    opened: Opened<Node<D, &'r R>>,
    numbers: Arc<Numbers, Global>,
    folder: L,
}

/// A store whose logs are files in a folder.
pub type FolderStore<'r, R> = Store<'r, R, FileDisk, LogFiles<'r, R>>;

impl<'r, R: Wait, D: Disk + Drop, L> Model for Store<'r, R, D, L> {
    ghost use Rattle.std.specs.Prelude.{◌<◌, ◌≤◌, length};
    ghost use Rattle.board.specs.Dealing.{lists_of};
    ghost use Rattle.store.specs.Standing.{Standing};

    ghost Value = { Standing };

    ghost view = { λ s. record {
      run = s.opened.epoch;
      splits = s.options.splits;
      shards = length s.opened.nodes.items;
      clients = length s.opened.viewers.by_worker.items;
      epsilon = s.options.epsilon;
      last = s.opened.last;
      dealt = lists_of s.opened.viewers;
    } };

    ghost invariant = { λ s. (0 < length s.opened.viewers.by_worker.items)
        × (length s.opened.viewers.by_worker.items ≤ 64) };
}

impl<'r, R: Threads + Wait + Sync, D: Disk + Drop + Send> Store<'r, R, D> {
    /// Opens the logs of shards 0, 1 and so on, side by side: one disk a shard, with a formatted log. Options beyond their limits, and
    /// more or fewer disks than shards, are refused as `settings`; else the first shard that is refused counts, and is told.
    ///
    /// The run of all ids is the greatest epoch of these openings, each of which is one more than that of its log. So no id is of an earlier
    /// opening. The clock goes on from the greatest timestamp of the logs.
    pub fn open(
        rt: &'r R,
        alloc: Global,
        disks: Vec<D>,
        options: Options,
    ) -> Result<Store<'r, R, D>, Unopened>
        ensures run { IfOk result
            (λ store. IsRunOver D.keeps_model D.file disks.items store.run) }
        ensures last { IfOk result
            (λ store. IsLastIn D.keeps_model D.file disks.items store.last) }
        ensures splits { IfOk result (λ store. store.splits ≡ options.splits) }
        ensures shards { IfOk result (λ store. store.shards ≡ length disks.items) }
        ensures clients { IfOk result (λ store. store.clients ≡ options.clients) }
        ensures epsilon { IfOk result (λ store. store.epsilon ≡ options.epsilon) }
        ensures dealt { IfOk result (λ store.
            AreDealtOver D.keeps_model D.obeys D.file D.clock D.since D.failures D.plan
            options.splits options.stride disks.items store.dealt) }
        ensures each { IsOk result → length disks.items ≡ length options.splits + 1 }
        ensures limits { (1000000 < options.epsilon)
            ⊎ ((options.clients ≡ 0) ⊎ (64 < options.clients))
            → result ≡ Err (unopened_for (Fault.BadRequest Reason.Settings)) }
        ensures unmade { IfErr result (λ unopened. IsUnmade unopened.fault) }
        ensures first { IfErr result
            (IsFirst D.keeps_model D.file options.splits options.stride disks.items) }
    {
        let clients = match options.checked_clients() {
            Ok(clients) => clients,
            Err(fault) => {
                drop(disks);
                return Err(Unopened::from(fault));
            }
        };
        let numbers = match numbers_of(alloc, disks.len(), clients) {
            Ok(numbers) => numbers,
            Err(fault) => {
                drop(disks);
                return Err(Unopened::from(fault));
            }
        };
        let opened = open_shards(rt, alloc, &options.splits, options.stride, disks, clients)?;
        Ok(Store {
            rt,
            alloc,
            options,
            opened,
            numbers,
            folder: NoFolder,
        })
    }

    // The same store, whose logs stand in a folder.
    pub(crate) fn stands_in<L>(self, folder: L) -> Store<'r, R, D, L>
        ensures { result ≡ self.entry }
    {
        let Store {
            rt,
            alloc,
            options,
            opened,
            numbers,
            folder: _,
        } = self;
        Store {
            rt,
            alloc,
            options,
            opened,
            numbers,
            folder,
        }
    }
}

impl<
    'r,
    R: Threads + Wait + time::Clock + Sync,
    D: Disk + Drop + Send,
    L: LogFolder<D> + Drop + Sync,
> Store<'r, R, D, L> {
    /// Tells by how many microseconds the greatest timestamp of the logs lies ahead of the machine's clock now: 0 if the clock has passed it. `None`
    /// if the clock gives no reading. Commits have later timestamps, so they wait until the clock has passed it. After a restart it may be as much
    /// as the stride; if it is more, a clock is or was wrong.
    pub fn ahead(&self) -> Option<u64>
        ensures { IfSome result (λ lead. (micros : ℕ)
            × (lead ≡ self.now.last - (micros + self.now.epsilon))) }
    {
        lead_by(self.rt, &self.options, self.opened.last)
    }

    /// Gives the numbers of the store, which any thread may read without a lock: before it is served, meanwhile and after that. `Memory` if there
    /// is none for the handle; the same call may succeed later.
    pub fn numbers(&self) -> Result<Arc<Numbers, Global>, Fault>
        ensures { IfErr result (λ fault. fault ≡ Fault.Memory) }
    {
        Ok(Arc::try_clone(&self.numbers)?)
    }

    /// Serves the store on threads of its own while `work` goes on with its clients, and closes it after that. What `work` gave comes
    /// with the disks, by shard. It is refused as `Memory` if there is no thread or no memory for it, and then `work` has not begun. So what
    /// `work` gave is never lost: its type need not be one that may be dropped.
    ///
    /// A shard whose device fails stops. Its disk is opened again after a second, and then every ten seconds until that succeeds. Commits go on there
    /// then, and each client sees it in the next view that it opens. What was acknowledged is there.
    pub fn serve<T, F: for<'s> FnOnce(Vec<Client<'s, R>>) -> T>(
        self,
        work: F,
    ) -> Result<(T, Vec<D>), Fault>
        requires { F.IsAlwaysCallable work }
        ensures disks { IfOk result (λ done. length done.1.items ≡ self.entry.shards) }
        ensures clients { IfOk result (λ done. (clients : _) × F.post work clients done.0
            × All (IsFresh self.entry.run self.entry.splits self.entry.epsilon self.entry.last
            self.entry.dealt) clients.items) }
        ensures refused { IfErr result (λ fault. fault ≡ Fault.Memory) }
    {
        let Store {
            rt,
            alloc,
            options,
            opened,
            numbers,
            folder,
        } = self;
        let Opened {
            nodes,
            viewers,
            epoch,
            last,
        } = opened;
        let Ok(disks) = Vec::with_capacity(alloc, nodes.len()) else {
            drop(options);
            drop(nodes);
            drop(viewers);
            drop(numbers);
            drop(folder);
            drop(work);
            return Err(Fault::Memory);
        };
        let answer = serve_kept(
            rt, alloc, &options, epoch, last, &nodes, rt, &folder, viewers, numbers, work,
        );
        drop(options);
        drop(folder);
        match answer {
            Ok(answer) => Ok((answer, closed(nodes, disks))),
            Err(fault) => {
                disks.destroy_empty();
                drop(nodes);
                Err(fault)
            }
        }
    }
}

// Closes the nodes, and adds their disks to the list, which has the room.
fn closed<D: Disk + Drop, H: Wait + Drop>(nodes: Vec<Node<D, H>>, disks: Vec<D>) -> Vec<D>
    requires empty { disks.items ≡ [] }
    requires room { length nodes.items ≤ vec_capacity disks }
    ensures { length result.items ≡ length nodes.items }
{
    let mut disks = disks;
    for node in nodes {
        disks.push_reserved(node.close());
    }
    disks
}
