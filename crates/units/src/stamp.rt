//! Timestamps and epochs.
ghost use Rattle.std.specs.Prelude.{◌≡◌, ◌+◌, ◌<◌, ◌≤◌, ◌^◌, ◌↔◌, Some, Ok, Err, IsSome, IfSome, MatchResult, if◌then◌else◌, nat_lt, max};
ghost use Rattle.std.specs.Fmt.{decimal};
ghost use Rattle.units.specs.declared.fault.Fault.TheVariants.{BadRequest, TimeSpent};
ghost use Rattle.units.specs.declared.fault.Reason.TheVariants.{Stamp as stamp_reason};

use crate::{Fault, Reason};
use std::fmt;
use std::marker::Model;

/// A timestamp: whole microseconds from 0 to 2^62 - 1.
#[derive(Clone, Copy, PartialEq, Eq, PartialOrd, Ord)]
pub struct Stamp {
    micros: u64,
}

impl Model for Stamp {
    ghost use Rattle.std.specs.Prelude.{ℕ, ◌<◌, ◌^◌};

    ghost Value = { ℕ };

    ghost view = { λ s. s.micros };

    ghost invariant = { λ s. s.micros < 2 ^ 62 };

    ghost inverse = { λ n. record { micros = n } };
}

impl Stamp {
    /// The greatest timestamp, in microseconds.
    pub const MAX: u64 = 4_611_686_018_427_387_903;

    /// Makes the timestamp of this many microseconds. `BadRequest(Stamp)` comes above `Stamp::MAX`.
    pub fn new(micros: u64) -> Result<Stamp, Fault>
        ensures { result ≡
            (if nat_lt micros (2 ^ 62) then Ok micros else Err (BadRequest stamp_reason)) }
    {
        if micros <= Stamp::MAX {
            Ok(Stamp { micros })
        } else {
            Err(Fault::BadRequest(Reason::Stamp))
        }
    }

    /// Gives the timestamp 0.
    pub fn zero() -> Stamp
        ensures { result ≡ 0 }
    {
        Stamp { micros: 0 }
    }

    /// Gives the next timestamp, a microsecond later. `TimeSpent` comes after the greatest one.
    pub fn above(stamp: Stamp) -> Result<Stamp, Fault>
        ensures { MatchResult result (λ next. (next ≡ stamp + 1) × (stamp + 1 < 2 ^ 62))
            (λ fault. (fault ≡ TimeSpent) × (2 ^ 62 ≤ stamp + 1)) }
    {
        if stamp.micros < Stamp::MAX {
            Ok(Stamp {
                micros: stamp.micros + 1,
            })
        } else {
            Err(Fault::TimeSpent)
        }
    }

    /// Gives the later of two timestamps.
    pub fn later(self, other: Stamp) -> Stamp
        ensures { result ≡ max self other }
    {
        if self.micros < other.micros {
            other
        } else {
            self
        }
    }

    /// Gives its microseconds.
    pub fn micros(self) -> u64
        ensures same { result ≡ self }
        ensures limit { result < 2 ^ 62 }
    {
        self.micros
    }
}

impl fmt::Display for Stamp {
    ghost output = { λ s. Some (decimal s) };

    fn fmt<W: fmt::Write>(&self, f: &mut fmt::Formatter<W>) -> fmt::Result {
        let micros = self.micros;
        write!(f, "{micros}")
    }
}

/// The epoch of a shard: how often its log was opened, counted from 1 on, up to 2^62 - 1.
#[derive(Clone, Copy, PartialEq, Eq, PartialOrd, Ord)]
pub struct Epoch {
    number: u64,
}

impl Model for Epoch {
    ghost use Rattle.std.specs.Prelude.{ℕ, ◌<◌, ◌≤◌, ◌^◌};

    ghost Value = { ℕ };

    ghost view = { λ e. e.number };

    ghost invariant = { λ e. (1 ≤ e.number) × (e.number < 2 ^ 62) };

    ghost inverse = { λ n. record { number = n } };
}

impl Epoch {
    /// Makes the epoch of this number. `None` comes if it is not within the limits.
    pub fn new(number: u64) -> Option<Epoch>
        ensures value { IfSome result (λ epoch. epoch ≡ number) }
        ensures limits { IsSome result ↔ ((1 ≤ number) × (number < 2 ^ 62)) }
    {
        if number >= 1 && number < 1 << 62 {
            Some(Epoch { number })
        } else {
            None
        }
    }

    /// Gives the epoch of a shard's first opening.
    pub fn first() -> Epoch
        ensures { result ≡ 1 }
    {
        Epoch { number: 1 }
    }

    /// Gives the epoch of the next opening. `TimeSpent` comes after the greatest one.
    pub fn next(self) -> Result<Epoch, Fault>
        ensures { MatchResult result (λ next. (next ≡ self + 1) × (self + 1 < 2 ^ 62))
            (λ fault. (fault ≡ TimeSpent) × (2 ^ 62 ≤ self + 1)) }
    {
        if self.number < Stamp::MAX {
            Ok(Epoch {
                number: self.number + 1,
            })
        } else {
            Err(Fault::TimeSpent)
        }
    }

    /// Gives its number.
    pub fn number(self) -> u64
        ensures same { result ≡ self }
        ensures least { 1 ≤ result }
        ensures limit { result < 2 ^ 62 }
    {
        self.number
    }
}

impl fmt::Display for Epoch {
    ghost output = { λ e. Some (decimal e) };

    fn fmt<W: fmt::Write>(&self, f: &mut fmt::Formatter<W>) -> fmt::Result {
        let number = self.number;
        write!(f, "{number}")
    }
}
