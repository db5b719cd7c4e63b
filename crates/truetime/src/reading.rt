ghost use Rattle.std.specs.Prelude.{◌≡◌, ◌<◌, ◌≤◌, ◌^◌, MatchResult, nat_lt};
ghost use Rattle.truetime.specs.Reading.{surely_after, surely_before};

use std::marker::Model;
use units::{Fault, Reason, Stamp};

/// What a clock answers (TrueTime's `TT.now()`): an interval from `earliest` to `latest`. It is honest if it holds
/// the true time at which the clock was asked.
#[derive(Clone, Copy)]
pub struct Reading {
    earliest: Stamp,
    latest: Stamp,
}

impl Model for Reading {
    ghost use Rattle.std.specs.Prelude.{◌≤◌};
    ghost use Rattle.truetime.specs.Interval.{Interval};

    ghost Value = { Interval };

    ghost view = { λ r. record { earliest = r.earliest; latest = r.latest } };

    ghost invariant = { λ r. r.earliest ≤ r.latest };

    ghost inverse = { λ r. record { earliest = r.earliest; latest = r.latest } };
}

impl Reading {
    /// Makes the interval between two timestamps. `BadRequest(Stamp)` comes if `earliest` is above `latest`.
    pub fn new(earliest: Stamp, latest: Stamp) -> Result<Reading, Fault>
        ensures { MatchResult result (λ now. (now.earliest ≡ earliest) × (now.latest ≡ latest)
            × (earliest ≤ latest))
            (λ fault. (fault ≡ Fault.BadRequest Reason.Stamp) × (latest < earliest)) }
    {
        if earliest.micros() <= latest.micros() {
            Ok(Reading { earliest, latest })
        } else {
            Err(Fault::BadRequest(Reason::Stamp))
        }
    }

    /// Gives the earliest end: an honest reading says that the true time is not before it.
    pub fn earliest(self) -> Stamp
        ensures value { result ≡ self.earliest }
        ensures ordered { self.earliest ≤ self.latest }
    {
        self.earliest
    }

    /// Gives the latest end: an honest reading says that the true time is not after it.
    pub fn latest(self) -> Stamp
        ensures value { result ≡ self.latest }
        ensures ordered { self.earliest ≤ self.latest }
    {
        self.latest
    }

    /// Tells whether a timestamp has surely passed by this reading (`TT.after`).
    pub fn after(self, at: Stamp) -> bool
        ensures { result ≡ surely_after self at }
    {
        self.earliest.micros() > at.micros()
    }

    /// Tells whether a timestamp has surely not come yet by this reading (`TT.before`).
    pub fn before(self, at: Stamp) -> bool
        ensures { result ≡ surely_before self at }
    {
        self.latest.micros() < at.micros()
    }
}

/// A source of readings.
pub trait Clock {
    /// Asks the clock. `None` means that it has no reading now.
    fn now(&mut self) -> Option<Reading>;
}
