//! Ids of transactions.
ghost use Rattle.std.specs.Prelude.{◌≡◌, ◌<◌, ◌≤◌, ◌^◌, ◌⊎◌, Some, IsSome, IfSome, ◌↔◌};
ghost use Rattle.units.specs.Texts.{txn_text};

use std::fmt;
use std::marker::Model;

/// The number of a run, from 1 to 2^62 - 1. It tells the ids of one opening of a store from those of all others.
#[derive(Clone, Copy, PartialEq, Eq)]
pub struct Run {
    number: u64,
}

impl Model for Run {
    ghost use Rattle.std.specs.Prelude.{ℕ, ◌<◌, ◌≤◌, ◌^◌};

    ghost Value = { ℕ };

    ghost view = { λ r. r.number };

    ghost invariant = { λ r. (1 ≤ r.number) × (r.number < 2 ^ 62) };

    ghost inverse = { λ n. record { number = n } };
}

impl Run {
    /// Makes the run of this number. `None` comes if it is not within the limits.
    pub fn new(number: u64) -> Option<Run>
        ensures value { IfSome result (λ run. run ≡ number) }
        ensures limits { IsSome result ↔ ((1 ≤ number) × (number < 2 ^ 62)) }
    {
        if number >= 1 && number < 1 << 62 {
            Some(Run { number })
        } else {
            None
        }
    }

    /// Gives its number.
    pub fn number(self) -> u64
        ensures same { result ≡ self }
        ensures least { 1 ≤ result }
        ensures limit { result < 2 ^ 62 }
    {
        self.number
    }
}

/// The id of a transaction: its run, from 1 on, and its number in that run, both below 2^62. Its text is
/// `run.number`. Ids are ordered by run, then by number; a smaller id is an older transaction.
#[derive(Clone, Copy, PartialEq, Eq, PartialOrd, Ord, Hash)]
pub struct TxnId {
    run: u64,
    number: u64,
}

impl Model for TxnId {
    ghost use Rattle.std.specs.Prelude.{◌<◌, ◌≤◌, ◌^◌};
    ghost use Rattle.units.specs.Ids.{Id};

    ghost Value = { Id };

    ghost view = { λ t. record { run = t.run; number = t.number } };

    ghost invariant = { λ t. (1 ≤ t.run) × (t.run < 2 ^ 62) × (t.number < 2 ^ 62) };

    ghost inverse = { λ t. record { run = t.run; number = t.number } };
}

impl TxnId {
    /// Makes an id. `None` comes if a number is not within its limits.
    pub fn new(run: u64, number: u64) -> Option<TxnId>
        ensures value { IfSome result (λ t. (t.run ≡ run) × (t.number ≡ number)) }
        ensures limits { IsSome result ↔ ((1 ≤ run) × (run < 2 ^ 62) × (number < 2 ^ 62)) }
    {
        if run >= 1 && run < 1 << 62 && number < 1 << 62 {
            Some(TxnId { run, number })
        } else {
            None
        }
    }

    /// Gives the run that made it.
    pub fn run(self) -> u64
        ensures value { result ≡ self.run }
        ensures least { 1 ≤ result }
        ensures limit { result < 2 ^ 62 }
    {
        self.run
    }

    /// Gives its number in that run.
    pub fn number(self) -> u64
        ensures value { result ≡ self.number }
        ensures limit { result < 2 ^ 62 }
    {
        self.number
    }
}

impl fmt::Display for TxnId {
    ghost output = { λ t. Some (txn_text t) };

    fn fmt<W: fmt::Write>(&self, f: &mut fmt::Formatter<W>) -> fmt::Result {
        let run = self.run;
        let number = self.number;
        write!(f, "{run}.{number}")
    }
}
