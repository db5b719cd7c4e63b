//! Nodes whose work is counted.
ghost use Rattle.std.specs.Prelude.{◌≡◌, IfErr};

use crate::numbers::{Numbers, ShardCounts};
use letters::{Due, Gauges, Serves, Taken};
use message::{Input, Outbox};
use std::alloc::Global;
use std::sync::atomic::{AtomicU64, Ordering};
use std::sync::{Arc, Wait};
use truetime::Clock;
use units::{Fault, ShardNo, Stamp, TxnId};

/// A node that is served as it is, and whose work is counted. It keeps up to which timestamp its transactions in doubt are not counted again,
/// and what it served last. While one is in doubt what is served stands still, so they are counted each time that it does.
#[derive(Drop)]
pub struct Counted<'k, N> {
    node: &'k N,
    numbers: Arc<Numbers, Global>,
    place: usize,
    again: AtomicU64,
    served: AtomicU64,
}

// So many transactions in doubt are counted at most: more than a store has clients only if sessions were left.
const MOST_IN_DOUBT: usize = 64;

// For so many microseconds of what is served they are not counted again.
const COUNT_PAUSE: u64 = 100_000;

impl<N> Counted<'_, N> {
    fn counts(&self) -> Option<&ShardCounts> {
        self.numbers.counts(self.place)
    }
}

impl<N: Serves> Counted<'_, N> {
    // Counts what the node shows now, or was refused.
    fn count_shown<W: Wait>(&self, rt: &W, served: &Option<Stamp>) {
        let micros = micros_of(served);
        let gauges = self.node.gauges(rt);
        if let Some(counts) = self.counts() {
            counts.count_shown(micros, &gauges);
            self.count_doubts(rt, counts, micros.unwrap_or(0));
        }
    }

    // Counts what is in doubt, unless it was counted a short time ago and what is served has gone on.
    fn count_doubts<W: Wait>(&self, rt: &W, counts: &ShardCounts, served: u64) {
        let went_on = self.served.swap(served, Ordering::SeqCst) < served;
        if went_on && served < self.again.load(Ordering::SeqCst) {
            return;
        }
        self.again
            .store(served.saturating_add(COUNT_PAUSE), Ordering::SeqCst);
        let mut count = 0_u64;
        let mut since = u64::MAX;
        for n in 0..MOST_IN_DOUBT {
            let Some((_, at)) = self.node.due(rt, Due::Prepared, n) else {
                break;
            };
            since = since.min(at.micros());
            count = count.saturating_add(1);
        }
        counts.set_in_doubt(count, if count == 0 { 0 } else { since });
    }
}

impl<N: Serves> Serves for Counted<'_, N> {
    fn shard(&self) -> ShardNo {
        self.node.shard()
    }

    fn take<W: Wait, C: Clock>(
        &self,
        rt: &W,
        clock: &mut C,
        input: &Input,
    ) -> Result<Outbox, Fault> {
        let taken = self.node.take(rt, clock, input);
        if let Some(counts) = self.counts() {
            match &taken {
                Ok(out) => counts.count_taken(input, out.as_slice()),
                Err(_) => counts.count_refused(1),
            }
        }
        taken
    }

    fn take_all<W: Wait, C: Clock>(
        &self,
        rt: &W,
        clock: &mut C,
        inputs: &[Input],
    ) -> Result<Option<Taken>, Fault> {
        let taken = self.node.take_all(rt, clock, inputs);
        if let Some(counts) = self.counts() {
            match &taken {
                Ok(Some(taken)) => counts.count_all(inputs, taken),
                Ok(None) => {}
                Err(_) => counts.count_refused(inputs.len() as u64),
            }
        }
        taken
    }

    fn is_ready<W: Wait>(&self, rt: &W) -> bool {
        self.node.is_ready(rt)
    }

    fn earliest_decided<W: Wait>(&self, rt: &W) -> Option<(TxnId, Stamp)> {
        self.node.earliest_decided(rt)
    }

    fn due<W: Wait>(&self, rt: &W, due: Due, n: usize) -> Option<(TxnId, Stamp)> {
        self.node.due(rt, due, n)
    }

    fn is_stopped<W: Wait>(&self, rt: &W) -> bool {
        self.node.is_stopped(rt)
    }

    fn versions<W: Wait>(&self, rt: &W) -> usize {
        self.node.versions(rt)
    }

    fn gauges<W: Wait>(&self, rt: &W) -> Gauges {
        self.node.gauges(rt)
    }

    fn hear_waiting(&self, letters: usize) {
        self.node.hear_waiting(letters);
        if let Some(counts) = self.counts() {
            counts.set_waiting(letters as u64);
        }
    }

    fn keep_up<W: Wait, C: Clock>(&self, rt: &W, clock: &mut C) -> Option<Stamp> {
        let served = self.node.keep_up(rt, clock);
        self.count_shown(rt, &served);
        served
    }

    fn publish<W: Wait, C: Clock>(&self, rt: &W, clock: &mut C) -> Option<Stamp> {
        let served = self.node.publish(rt, clock);
        self.count_shown(rt, &served);
        served
    }

    fn tidy<W: Wait, C: Clock>(&self, rt: &W, clock: &mut C) -> bool {
        self.node.tidy(rt, clock)
    }

    fn heal<W: Wait, C: Clock>(&self, rt: &W, clock: &mut C) {
        self.node.heal(rt, clock);
    }

    fn alloc(&self) -> Global {
        self.node.alloc()
    }
}

fn micros_of(served: &Option<Stamp>) -> Option<u64> {
    match served {
        Some(served) => Some(served.micros()),
        None => None,
    }
}

/// The nodes, whose work is counted in these numbers.
pub fn counted_nodes<'k, N>(
    alloc: Global,
    nodes: &'k [N],
    numbers: &Arc<Numbers, Global>,
) -> Result<Vec<Counted<'k, N>>, Fault>
    ensures { IfErr result (λ fault. fault ≡ Fault.Memory) }
{
    let mut counted = Vec::new(alloc);
    for (place, node) in nodes.iter().enumerate() {
        counted.push(Counted {
            node,
            numbers: Arc::try_clone(numbers)?,
            place,
            again: AtomicU64::new(0),
            served: AtomicU64::new(0),
        })?;
    }
    Ok(counted)
}
