//! A desk under a lock.
ghost use Rattle.std.specs.Prelude.{◌≡◌, length, IfOk, IfErr, IsTrue, OnOk};
ghost use Rattle.board.specs.Board.{first_entries};
ghost use Rattle.node.specs.DeskFaults.{refuses_input, refuses_advance, refuses_horizon, refuses_turnover};
ghost use Rattle.node.specs.InStep.{IsCount, IsNoDesk};
ghost use Rattle.node.specs.Faults.{RefusesRestart};
ghost use Rattle.node.specs.Restart.{AreOnNewBoard, AreOpenedAgain};
ghost use Rattle.shard.specs.Core.{seen, book_of};
ghost use Rattle.shard.specs.Look.{safe_at};

use crate::folder::LogFolder;
use crate::held::Held;
use crate::rest::Restarted;
use board::{Home, Told, Viewer, check_viewers};
use disk::Disk;
use message::{Input, Outbox};
use shard::Core;
use std::alloc::Global;
use std::sync::{Mutex, Wait};
use truetime::Reading;
use units::{Fault, ShardNo, Stamp};

/// A node: a desk under a lock. Whenever the lock is free, the desk keeps its invariants, or the disk is there alone.
pub struct Node<D: Disk + Drop, R: Wait + Drop> {
    /// The allocator of its letters.
    pub(crate) alloc: Global,
    /// The number of its shard.
    pub(crate) shard: ShardNo,
    /// The desk under its lock.
    pub(crate) held: Mutex<Held<D, R>>,
}

impl<D: Disk + Drop, R: Wait + Drop> Drop for Node<D, R> {
    fn drop(self) {
        let Node {
            alloc: _,
            shard: _,
            held,
        } = self;
        drop(held);
    }
}

impl<D: Disk + Drop, R: Wait + Drop> Node<D, R> {
    /// Makes a node for a core, and so many viewers of its board. If that is refused, the core comes back.
    pub fn new(
        rt: R,
        alloc: Global,
        core: Core<D>,
        n: usize,
    ) -> Result<(Node<D, R>, Vec<Viewer>), (Fault, Core<D>)>
        ensures count { OnOk result (IsCount n) }
        ensures viewers { IfOk result (λ made. length made.1.items ≡ n) }
        ensures board { IfOk result (λ made. AreOnNewBoard n (seen core).setup
            (first_entries (seen core).facts.installs (safe_at (seen core))
            (seen core).facts.horizon) made.1.items) }
        ensures refused { IfErr result
            (λ refused. IsNoDesk n refused.0 × (seen refused.1 ≡ seen core)
            × (book_of refused.1 ≡ book_of core)) }
    {
        let shard = core.setup().shard;
        match Held::new(rt, alloc, core, n) {
            Ok((held, viewers)) => {
                let held = Mutex::new(held);
                Ok((Node { alloc, shard, held }, viewers))
            }
            Err(refused) => Err(refused),
        }
    }

    /// Gives the number of its shard.
    pub fn shard(&self) -> ShardNo {
        self.shard
    }

    /// Takes a step of the core, under the lock.
    pub fn deliver<W: Wait>(&self, rt: &W, now: &Reading, input: &Input) -> Result<Outbox, Fault>
        ensures { IfErr result (λ fault. IsTrue (refuses_input fault)) }
    {
        self.held.lock(rt).deliver(now, input)
    }

    /// Advances the core and publishes its board, under the lock.
    pub fn advance<W: Wait>(&self, rt: &W, now: &Reading, to: Stamp) -> Result<Told, Fault>
        ensures { IfErr result (λ fault. IsTrue (refuses_advance fault)) }
    {
        self.held.lock(rt).advance(now, to)
    }

    /// Turns the log of the core over, under the lock.
    pub fn turn_over<W: Wait>(&self, rt: &W) -> Result<(), Fault>
        ensures { IfErr result (λ fault. IsTrue (refuses_turnover fault)) }
    {
        self.held.lock(rt).turn_over()
    }

    /// Lets the core's versions go that no look from its horizon up needs, if the board has all of the core, under the lock. Returns whether it had.
    pub fn let_go<W: Wait>(&self, rt: &W) -> Result<bool, Fault>
        ensures { IfErr result (λ fault. fault ≡ Fault.Memory) }
    {
        self.held.lock(rt).let_go()
    }

    /// Raises the core's horizon, but keeps so many microseconds before a reading. Then turns the log over if it has grown by `least` bytes or
    /// more, and by more than it held (`Desk::renew`). Both are done under the lock.
    pub fn renew<W: Wait>(
        &self,
        rt: &W,
        now: &Reading,
        micros: u64,
        least: u64,
    ) -> Result<(), Fault>
        ensures { IfErr result (λ fault. IsTrue (refuses_horizon fault)) }
    {
        self.held.lock(rt).renew(now, micros, least)
    }

    /// Puts a renewed log in a new disk in the place of the log, and goes on there, under the lock. The log has to have grown by `least` bytes or more,
    /// and to begin more than `beyond` bytes into its file (`Desk::move_on`). Returns whether it did.
    ///
    /// `Device` after which the node is stopped says that nobody knows which disk a crash leaves. Then `restart` is not to be called before the
    /// device is sure of it.
    pub fn move_on<W: Wait, F: LogFolder<D>>(
        &self,
        rt: &W,
        folder: &F,
        least: u64,
        beyond: u64,
    ) -> Result<bool, Fault>
        ensures { IfErr result (λ fault. IsTrue (refuses_turnover fault)) }
    {
        self.held.lock(rt).move_on(folder, least, beyond)
    }

    /// Opens the disk of a stopped node again that its folder finds, with a new board and so many viewers. They come with the keys that it shows, and with
    /// the publisher of the old board: viewers of that go on until it is dropped. A node that is not stopped is refused as `again`, and goes on.
    ///
    /// If the opening or the board is refused, the node keeps the disk alone beside the old board: call `restart` again. Until then it refuses
    /// letters as a stopped core does. If the folder finds no disk, that is `Device`.
    pub fn restart<W: Wait, F: LogFolder<D>>(
        &self,
        rt: &W,
        own: R,
        alloc: Global,
        folder: &F,
        n: usize,
    ) -> Result<(Home, Restarted<R>), Fault>
        ensures count { OnOk result (IsCount n) }
        ensures viewers { IfOk result (λ made. length made.1.viewers.items ≡ n) }
        ensures board { IfOk result (λ made. AreOpenedAgain D n made.0 made.1.viewers.items) }
        ensures faults { IfErr result (λ fault. RefusesRestart n fault) }
    {
        check_viewers(n)?;
        let mut held = self.held.lock(rt);
        let home = held.home(alloc)?;
        match held.restart(own, alloc, folder, n) {
            Ok(made) => Ok((home, made)),
            Err(fault) => {
                drop(home);
                Err(fault)
            }
        }
    }

    /// Ends the node, and gives its disk back.
    pub fn close(self) -> D {
        let Node {
            alloc: _,
            shard: _,
            held,
        } = self;
        held.into_inner().close()
    }
}
