//! How long turns or looks of one kind take.
ghost use Rattle.std.specs.Prelude.{◌≡◌, ◌+◌, ◌<◌, ◌^◌, ◌++◌, ◌∷◌, [], IfOk, OnOk, OnErr};
ghost use Rattle.std.specs.List.Sorted.{IsNonDecreasing};
ghost use Rattle.progress.specs.Tally.{AreFiguresOf};

use crate::figures::percentile;
use std::alloc::{AllocError, Global};
use std::marker::Model;

/// How many there were, and how many microseconds each took. A duration for which there was no memory is not kept.
#[derive(Drop)]
pub struct Series {
    count: u64,
    micros: Vec<u64>,
}

impl Model for Series {
    ghost use Rattle.progress.specs.Tally.{Taken};

    ghost Value = { Taken };

    ghost view = { λ s. record { count = s.count; micros = s.micros.items } };
}

/// How many microseconds 50, 90 and 99 of 100 took at most, and the longest.
#[derive(Clone, Copy)]
pub struct Figures {
    pub half: u64,
    pub ninety: u64,
    pub ninety_nine: u64,
    pub most: u64,
}

impl Series {
    /// Makes an empty series.
    pub fn new(alloc: Global) -> Series
        ensures { result ≡ record { count = 0; micros = [] } }
    {
        Series {
            count: 0,
            micros: Vec::new(alloc),
        }
    }

    /// Returns how many were counted.
    pub fn count(&self) -> u64
        ensures { result ≡ self.now.count }
    {
        self.count
    }

    /// Counts one that took so many microseconds. If there is no memory to keep that, it still counts.
    pub fn add(&mut self, micros: u64) -> Result<(), AllocError>
        requires { self.old.count + 1 < 2 ^ 64 }
        ensures count { self.new.count ≡ self.old.count + 1 }
        ensures kept { OnOk result (self.new.micros ≡ self.old.micros ++ micros ∷ []) }
        ensures refused { OnErr result (self.new.micros ≡ self.old.micros) }
    {
        self.count += 1;
        self.micros.push(micros)?;
        Ok(())
    }

    /// Returns the figures of the durations that were kept, or `None` if there are none.
    pub fn figures(self) -> Result<Option<Figures>, AllocError>
        ensures { IfOk result (AreFiguresOf self.micros) }
    {
        let Series { count: _, micros } = self;
        let mut sorted = micros;
        sorted.sort()?;
        Ok(figures_of(&sorted))
    }
}

// The figures of sorted numbers.
fn figures_of(sorted: &[u64]) -> Option<Figures>
    requires { IsNonDecreasing sorted.now }
    ensures { AreFiguresOf sorted.now result }
{
    Some(Figures {
        half: percentile(sorted, 50)?,
        ninety: percentile(sorted, 90)?,
        ninety_nine: percentile(sorted, 99)?,
        most: percentile(sorted, 100)?,
    })
}
