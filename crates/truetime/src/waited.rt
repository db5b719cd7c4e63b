ghost use Rattle.std.specs.Prelude.{◌≡◌, ◌<◌, ◌≤◌, MatchResult};

use crate::Reading;
use std::marker::Model;
use units::{Fault, Stamp};

/// A token that a timestamp has surely passed (Spanner's commit wait: nobody sees the data before `TT.after` of the
/// timestamp). Only `pass` makes it, and it has to be spent. Whoever holds one may tell of a commit at that
/// timestamp.
pub struct Waited {
    at: Stamp,
}

impl Model for Waited {
    ghost use Rattle.std.specs.Prelude.{ℕ};

    ghost Value = { ℕ };

    ghost view = { λ w. w.at };
}

impl Waited {
    /// Gives the timestamp that has passed.
    pub fn at(&self) -> Stamp
        ensures { result ≡ self.now }
    {
        self.at
    }

    /// Spends the token, and gives the timestamp.
    pub fn spend(self) -> Stamp
        ensures { result ≡ self }
    {
        let Waited { at } = self;
        at
    }
}

/// Makes the token that a timestamp has passed, if the earliest end of this reading is above it. `Early` means that
/// it has not surely passed: ask again with a later reading.
pub fn pass(at: Stamp, now: &Reading) -> Result<Waited, Fault>
    ensures { MatchResult result (λ waited. (waited ≡ at) × (at < now.now.earliest))
        (λ fault. (fault ≡ Fault.Early) × (now.now.earliest ≤ at)) }
{
    if now.after(at) {
        Ok(Waited { at })
    } else {
        Err(Fault::Early)
    }
}
