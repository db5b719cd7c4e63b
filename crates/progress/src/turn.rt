//! Turns that ended, and what takes note of them.

/// How a transaction ended, as its worker knows. It is `Unknown` if the worker gave up while closing.
#[derive(Clone, Copy)]
pub enum Ended {
    Committed,
    Aborted,
    Unknown,
}

/// How a turn's transaction ended, and how many microseconds it took, from before its begin until its worker heard the end.
#[derive(Clone, Copy)]
pub struct Turn {
    pub ended: Ended,
    pub micros: u64,
}

/// What is told of each turn that ended and each look that was answered, by the thread that ran it. Threads call it at the same time.
pub trait Watch {
    /// Takes note of a turn that ended.
    fn turned(&self, turn: Turn);

    /// Takes note that the look after a turn was answered after so many microseconds.
    fn looked(&self, _micros: u64) {}

    /// Takes note that this shard has stopped, since its device failed.
    fn stopped(&self, _shard: usize) {}
}

/// Takes note of nothing.
#[derive(Clone, Copy)]
pub struct NoWatch;

impl Watch for NoWatch {
    fn turned(&self, _turn: Turn) {}
}

impl<W: Watch> Watch for Option<W> {
    fn turned(&self, turn: Turn) {
        if let Some(watch) = self {
            watch.turned(turn);
        }
    }

    fn looked(&self, micros: u64) {
        if let Some(watch) = self {
            watch.looked(micros);
        }
    }

    fn stopped(&self, shard: usize) {
        if let Some(watch) = self {
            watch.stopped(shard);
        }
    }
}
