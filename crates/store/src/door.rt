//! How many transactions of a store are open at a time.
use letters::left;
use std::sync::Wait;
use std::sync::atomic::{AtomicU64, Ordering};
use std::time;
use std::time::{Duration, Instant};

// So many clients a store has at most, and so many transactions may be open at first.
const MOST: u64 = 64;

const FIRST: u64 = 16;

// A closing is slow if it takes longer than this share of what a client waits for a shard that says nothing.
const SHARE: u64 = 4;

// For so many milliseconds at least a client waits at the door while no transaction ends.
const LEAST_WAIT: u64 = 100;

// `park_timeout` compares a number below this, the low 32 bits.
const LOW: u64 = 0x1_0000_0000;

/// The door of a store: a client passes it when it begins a transaction, and waits there while too many are open.
///
/// How many may be open follows from how long closings take. At first it is 16. It grows by one with each closing that is soon over, up to 64,
/// and falls by one, to 1 at least, with each that is slow. So the queue of a shard stays so short that nobody waits in it for as long as a
/// client waits for a silent shard.
#[derive(Drop)]
pub struct Door {
    open: AtomicU64,
    most: AtomicU64,
    ended: AtomicU64,
    waiting: AtomicU64,
    slow: Duration,
}

impl Door {
    /// Makes the door of a store whose clients wait for `give_up` milliseconds for a silent shard, and whose epsilon is in microseconds. A
    /// commit waits twice as long as that, which is not slow.
    pub fn new(give_up: u64, epsilon: u64) -> Door {
        let wait = Duration::from_micros(epsilon.saturating_mul(2));
        Door {
            open: AtomicU64::new(0),
            most: AtomicU64::new(FIRST),
            ended: AtomicU64::new(0),
            waiting: AtomicU64::new(0),
            slow: Duration::from_millis(give_up / SHARE).saturating_add(wait),
        }
    }

    /// Passes the door once fewer transactions are open than may be. If none ends for 100 milliseconds, it is passed all the same. Once closings
    /// were slow, that takes as long as a closing may take without being slow.
    pub fn enter<R: Wait + time::Clock>(&self, rt: &R) {
        self.await_room(rt);
        self.open.fetch_add(1, Ordering::SeqCst);
    }

    // Waits until there is room. The wait begins anew whenever a transaction has ended.
    fn await_room<R: Wait + time::Clock>(&self, rt: &R) {
        let mut seen = None;
        let mut start = None;
        for _wake in rt.forever() {
            let ended = self.ended.load(Ordering::SeqCst);
            let most = self.most.load(Ordering::SeqCst);
            if self.open.load(Ordering::SeqCst) < most {
                return;
            }
            if seen != Some(ended) {
                seen = Some(ended);
                start = Instant::now(rt).ok();
            }
            let left = left(rt, start, self.longest(most));
            if left == Duration::ZERO {
                return;
            }
            self.waiting.fetch_add(1, Ordering::SeqCst);
            self.ended.park_timeout(rt, (ended % LOW) as u32, left);
            self.waiting.fetch_sub(1, Ordering::SeqCst);
        }
        unreachable!()
    }

    // How long a client waits while none ends, if so many may be open.
    fn longest(&self, most: u64) -> Duration {
        let least = Duration::from_millis(LEAST_WAIT);
        if most < FIRST && least < self.slow {
            self.slow
        } else {
            least
        }
    }

    /// Leaves at the end of a transaction, which took so long to close, if it was closed.
    pub fn leave(&self, closing: Option<Duration>) {
        if let Some(took) = closing {
            self.learn(took);
        }
        self.open.fetch_sub(1, Ordering::SeqCst);
        self.ended.fetch_add(1, Ordering::SeqCst);
        if self.waiting.load(Ordering::SeqCst) > 0 {
            self.ended.wake_all();
        }
    }

    // Takes in how long a closing took.
    fn learn(&self, took: Duration) {
        let most = self.most.load(Ordering::SeqCst);
        if took > self.slow {
            let fewer = most.saturating_sub(1).max(1);
            self.most.store(fewer, Ordering::SeqCst);
        } else if most < MOST {
            self.most.store(most + 1, Ordering::SeqCst);
        }
    }
}
