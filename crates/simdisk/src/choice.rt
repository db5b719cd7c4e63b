//! What a crash makes of each change.
ghost use Rattle.std.specs.Prelude.{◌≡◌, List, []};
ghost use Rattle.disk.specs.declared.plan.Fate.{Fate};

use disk::Fate;
use std::alloc::Global;
use std::marker::Model;

/// The fate of each change that is not synced, the oldest first. A change without one is old.
#[derive(Drop)]
pub struct Choice {
    fates: Vec<Fate>,
}

impl Model for Choice {
    ghost Value = { List Fate };

    ghost view = { λ c. c.fates.items };
}

impl Choice {
    /// Makes the choice by which every change is old.
    pub fn none(alloc: Global) -> Choice
        ensures { result ≡ [] }
    {
        Choice {
            fates: Vec::new(alloc),
        }
    }

    /// Makes the choice of these fates, the oldest change first.
    pub fn from_vec(fates: Vec<Fate>) -> Choice
        ensures { result ≡ fates.items }
    {
        Choice { fates }
    }

    /// Gives the fates, the oldest change first.
    pub fn fates(&self) -> &[Fate]
        ensures { result.now ≡ self.now }
    {
        &self.fates
    }
}
