//! What passes between who looks at a shard and the node that shows it.
use std::sync::Wait;
use std::sync::atomic::{AtomicBool, AtomicU64, Ordering};
use std::time;
use std::time::{Duration, Instant};
use units::Stamp;

// `park_timeout` compares a number below this, the low 32 bits.
const LOW: u64 = 0x1_0000_0000;

/// The wake-up flag of a shard, with the time that it serves (its bell). A reader that got `NotYet` sets the flag, and waits. The node tells
/// up to when it serves, which wakes those who wait. It takes no memory.
pub struct Bell {
    rung: AtomicBool,
    served: AtomicU64,
}

impl Drop for Bell {
    fn drop(self) {
        let Bell { rung: _, served: _ } = self;
    }
}

impl Bell {
    /// Creates a bell whose flag is not set, and which was told nothing.
    pub fn new() -> Bell {
        Bell {
            rung: AtomicBool::new(false),
            served: AtomicU64::new(0),
        }
    }

    /// Sets the wake-up flag. Returns whether this was the first time since it was cleared.
    pub fn ring(&self) -> bool {
        !self.rung.swap(true, Ordering::SeqCst)
    }

    /// Tells whether the wake-up flag is set.
    pub fn is_rung(&self) -> bool {
        self.rung.load(Ordering::SeqCst)
    }

    /// Clears the wake-up flag; called before an advance.
    pub fn silence(&self) {
        self.rung.store(false, Ordering::SeqCst);
    }

    /// Notes up to which timestamp the node serves, and wakes those who wait.
    pub fn tell(&self, served: Stamp) {
        self.served.store(served.micros(), Ordering::SeqCst);
        self.served.wake_all();
    }

    /// Waits until the node has told that it serves a timestamp, or until `longest` has passed.
    pub fn wait<R: Wait + time::Clock>(&self, rt: &R, at: Stamp, longest: Duration) {
        let start = Instant::now(rt).ok();
        for _wake in rt.forever() {
            let served = self.served.load(Ordering::SeqCst);
            let left = left(rt, start, longest);
            if served >= at.micros() || left == Duration::ZERO {
                return;
            }
            self.served.park_timeout(rt, (served % LOW) as u32, left);
        }
        unreachable!()
    }
}

/// Tells how much of a pause is left after a moment: nothing if there is no moment, or the clock cannot be read.
pub fn left<W: time::Clock>(rt: &W, since: Option<Instant>, pause: Duration) -> Duration {
    let Some(since) = since else {
        return Duration::ZERO;
    };
    match since.elapsed(rt) {
        Ok(elapsed) => pause.saturating_sub(elapsed),
        Err(_) => Duration::ZERO,
    }
}
