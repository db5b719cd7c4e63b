//! How often a line is shown.
ghost use Rattle.std.specs.Prelude.{◌≡◌, ◌+◌, ◌≤◌, ◌↔◌, IsTrue};
ghost use Rattle.std.specs.Bool.{OnTrue, OnFalse};

use std::marker::Model;

/// The time of the last line, in microseconds since the start. Lines are shown at most five times a second.
#[derive(Drop)]
pub struct Pace {
    last: u64,
}

impl Model for Pace {
    ghost use Rattle.std.specs.Prelude.{ℕ};

    ghost Value = { ℕ };

    ghost view = { λ p. p.last };
}

impl Pace {
    /// Begins at the start, before any line.
    pub fn new() -> Pace
        ensures { result ≡ 0 }
    {
        Pace { last: 0 }
    }

    /// Tells whether a line is due at a time in microseconds since the start. If it is, that time counts as the last line's.
    pub fn is_due(&mut self, micros: u64) -> bool
        ensures due { IsTrue result ↔ (self.old + 200000 ≤ micros) }
        ensures shown { OnTrue result (self.new ≡ micros) }
        ensures passed { OnFalse result (self.new ≡ self.old) }
    {
        let is_due = micros >= self.last && micros - self.last >= 200_000;
        if is_due {
            self.last = micros;
        }
        is_due
    }
}
