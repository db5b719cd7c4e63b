//! The word that clients are to end.
use std::sync::atomic::{AtomicBool, Ordering};

/// The word that clients are to end: each waits for nothing any more, and sends nothing that begins or asks.
#[derive(Drop)]
pub struct Stop {
    told: AtomicBool,
}

impl Stop {
    /// Creates the word, which was not told yet.
    pub fn new() -> Stop {
        Stop {
            told: AtomicBool::new(false),
        }
    }

    /// Tells it: from now on each client waits for nothing any more, and gives each transaction up as it begins.
    pub fn tell(&self) {
        self.told.store(true, Ordering::SeqCst);
    }

    /// Tells whether the word was told.
    pub fn is_told(&self) -> bool {
        self.told.load(Ordering::SeqCst)
    }
}
