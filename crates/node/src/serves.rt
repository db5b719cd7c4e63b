//! A node as threads serve it.
ghost use Rattle.std.specs.Prelude.{IfErr, IsTrue};
ghost use Rattle.node.specs.DeskFaults.{refuses_horizon};

use crate::node::Node;
use crossbeam_channel::Receiver;
use disk::Disk;
use letters::{Due, Gate, Gauges, Letter, Post, Serves, Taken, serve};
use message::{Input, Outbox};
use std::alloc::Global;
use std::sync::Wait;
use std::time;
use truetime::Clock;
use units::{Fault, ShardNo, Stamp, TxnId};

impl<D: Disk + Drop, R: Wait + Drop> Serves for Node<D, R> {
    fn shard(&self) -> ShardNo {
        self.shard
    }

    fn take<W: Wait, C: Clock>(
        &self,
        rt: &W,
        clock: &mut C,
        input: &Input,
    ) -> Result<Outbox, Fault> {
        let mut held = self.held.lock(rt);
        match clock.now() {
            Some(now) => held.deliver(&now, input),
            None => Err(Fault::TimeSpent),
        }
    }

    fn take_all<W: Wait, C: Clock>(
        &self,
        rt: &W,
        clock: &mut C,
        inputs: &[Input],
    ) -> Result<Option<Taken>, Fault> {
        let mut held = self.held.lock(rt);
        match clock.now() {
            Some(now) => held.take_all(&now, inputs),
            None => Err(Fault::TimeSpent),
        }
    }

    fn is_ready<W: Wait>(&self, rt: &W) -> bool {
        self.held.lock(rt).is_ready()
    }

    fn earliest_decided<W: Wait>(&self, rt: &W) -> Option<(TxnId, Stamp)> {
        self.held.lock(rt).earliest_decided()
    }

    fn due<W: Wait>(&self, rt: &W, due: Due, n: usize) -> Option<(TxnId, Stamp)> {
        self.held.lock(rt).due(due, n)
    }

    fn is_stopped<W: Wait>(&self, rt: &W) -> bool {
        self.held.lock(rt).is_stopped()
    }

    fn versions<W: Wait>(&self, rt: &W) -> usize {
        self.held.lock(rt).versions()
    }

    fn gauges<W: Wait>(&self, rt: &W) -> Gauges {
        self.held.lock(rt).gauges()
    }

    fn keep_up<W: Wait, C: Clock>(&self, rt: &W, clock: &mut C) -> Option<Stamp> {
        let mut held = self.held.lock(rt);
        let now = clock.now()?;
        held.keep_up(&now)
    }

    fn publish<W: Wait, C: Clock>(&self, rt: &W, clock: &mut C) -> Option<Stamp> {
        let mut held = self.held.lock(rt);
        let now = clock.now()?;
        held.publish(&now)
    }

    fn alloc(&self) -> Global {
        self.alloc
    }
}

impl<D: Disk + Drop, R: Wait + Drop> Node<D, R> {
    /// Raises the core's horizon, but keeps so many microseconds before a reading, which is taken under the lock. The next advance tells the
    /// board. If the clock has no reading, it is refused as `TimeSpent`. An idle node does not do this by itself: a service that keeps the
    /// past for a while calls it now and then.
    pub fn keep_by<W: Wait, C: Clock>(
        &self,
        rt: &W,
        clock: &mut C,
        micros: u64,
    ) -> Result<(), Fault>
        ensures { IfErr result (λ fault. IsTrue (refuses_horizon fault)) }
    {
        let mut held = self.held.lock(rt);
        match clock.now() {
            Some(now) => held.keep_for(&now, micros),
            None => Err(Fault::TimeSpent),
        }
    }

    /// Calls `renew` at a reading that is taken under the lock. If the clock has none, it is refused as `TimeSpent`.
    pub fn renew_by<W: Wait, C: Clock>(
        &self,
        rt: &W,
        clock: &mut C,
        micros: u64,
        least: u64,
    ) -> Result<(), Fault>
        ensures { IfErr result (λ fault. IsTrue (refuses_horizon fault)) }
    {
        let mut held = self.held.lock(rt);
        match clock.now() {
            Some(now) => held.renew(&now, micros, least),
            None => Err(Fault::TimeSpent),
        }
    }

    /// Serves the letters of the inbox until one says to close, or the inbox is closed. The node does its chores whenever no letter is there.
    /// While letters come, it does them after each millisecond or 64 letters.
    pub fn serve<W: Wait + time::Clock, P: Post, C: Clock, G: Gate>(
        &self,
        rt: &W,
        inbox: &Receiver<Letter>,
        post: &mut P,
        clock: &mut C,
        gate: &G,
    ) {
        serve(self, rt, inbox, post, clock, gate);
    }
}
