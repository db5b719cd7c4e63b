//! The gate of drives.
use letters::Gate;
use std::sync::atomic::{AtomicU64, Ordering};
use std::time::Duration;
use std::{thread, time};
use units::ShardNo;

/// Holds the first letters of shards 0 and 1, each until the other's has come, for 10,000 turns at most; or holds nothing.
#[derive(Drop)]
pub struct Meeting<'a, R> {
    rt: &'a R,
    holds: bool,
    first: AtomicU64,
    second: AtomicU64,
    missed: AtomicU64,
}

impl<'a, R> Meeting<'a, R> {
    /// Creates a gate that holds the first letters, or none, and that no letter has reached.
    pub fn new(rt: &'a R, holds: bool) -> Meeting<'a, R> {
        Meeting {
            rt,
            holds,
            first: AtomicU64::new(0),
            second: AtomicU64::new(0),
            missed: AtomicU64::new(0),
        }
    }

    /// Tells whether both letters have come, and none was held in vain.
    pub fn have_met(&self) -> bool {
        self.first.load(Ordering::SeqCst) == 1
            && self.second.load(Ordering::SeqCst) == 1
            && self.missed.load(Ordering::SeqCst) == 0
    }
}

impl<R: time::Clock> Meeting<'_, R> {
    // Whether the letter comes in time.
    fn has_come(&self, letter: &AtomicU64) -> bool {
        for _turn in 0..10_000 {
            if letter.load(Ordering::SeqCst) > 0 {
                return true;
            }
            thread::sleep(self.rt, Duration::from_millis(1));
        }
        false
    }
}

impl<R: time::Clock> Gate for Meeting<'_, R> {
    fn before(&self, shard: ShardNo, n: u64) {
        if n > 0 || !self.holds {
            return;
        }
        let (own, other) = if shard.number() == 0 {
            (&self.first, &self.second)
        } else {
            (&self.second, &self.first)
        };
        own.fetch_add(1, Ordering::SeqCst);
        if !self.has_come(other) {
            self.missed.fetch_add(1, Ordering::SeqCst);
        }
    }

    fn after(&self, _shard: ShardNo, _n: u64) {}
}
