//! When the disk of a stopped shard is opened again.
use std::sync::atomic::{AtomicU64, Ordering};

// A stopped shard is opened again after so many microseconds, and then whenever so many more have passed.
const FIRST: u64 = 1_000_000;

const NEXT: u64 = 10_000_000;

/// When the disk of a node that stops is opened again: a second after it was first asked, and then every ten seconds until it was opened. If the node
/// stops once more soon after that, ten seconds pass from the last try to the next.
#[derive(Drop)]
pub struct Healing {
    // The microsecond at which it is opened again; 0 while it serves.
    due: AtomicU64,
    // When that was tried last.
    tried: AtomicU64,
}

impl Healing {
    /// The node serves, and was never opened again.
    pub fn none() -> Healing {
        Healing {
            due: AtomicU64::new(0),
            tried: AtomicU64::new(0),
        }
    }

    /// Tells whether the disk of the stopped node is to be opened now. If so, the next time is ten seconds later.
    pub fn is_due(&self, now: u64) -> bool {
        let due = self.due.load(Ordering::SeqCst);
        if due == 0 {
            let first = now.saturating_add(FIRST);
            let next = self.tried.load(Ordering::SeqCst).saturating_add(NEXT);
            self.due.store(first.max(next), Ordering::SeqCst);
            return false;
        }
        if now < due {
            return false;
        }
        self.tried.store(now, Ordering::SeqCst);
        self.due.store(now.saturating_add(NEXT), Ordering::SeqCst);
        true
    }

    /// Notes that the node serves again.
    pub fn has_healed(&self) {
        self.due.store(0, Ordering::SeqCst);
    }
}
