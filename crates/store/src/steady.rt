//! The clock of a store.
ghost use Rattle.std.specs.Prelude.{◌≡◌, ◌+◌, ◌-◌, ◌≤◌, ⊤, ℕ, ◌∷◌, IfSome};

use crate::Options;
use counts::Past;
use node::{MachineClock, steady_over};
use std::alloc::AllocError;
use std::marker::Model;
use std::sync::atomic::AtomicU64;
use std::time;
use truetime::{Clock, Reading};
use units::Stamp;

/// The machine's clock, but one that does not go back (`SteadyClock`). Its copies share the latest microsecond that was reached. Its readings end
/// at a microsecond from which it goes on, or later.
pub struct StoreClock<'a, R> {
    pub(crate) machine: MachineClock<'a, R>,
    pub(crate) from: u64,
    reached: &'a AtomicU64,
}

impl<'a, R> StoreClock<'a, R> {
    /// The clock of a store that is served by these options, after logs whose greatest timestamp is `last`.
    pub fn new(
        rt: &'a R,
        options: &Options,
        last: Stamp,
        reached: &'a AtomicU64,
    ) -> StoreClock<'a, R>
        ensures epsilon { result.machine.epsilon ≡ options.now.epsilon }
        ensures from { result.from ≡ last }
    {
        StoreClock {
            machine: MachineClock {
                rt,
                epsilon: options.epsilon,
            },
            from: last.micros(),
            reached,
        }
    }
}

/// The clock of a client, and all that it has told, the newest first, which only proofs see.
#[derive(Drop)]
pub struct ClientClock<'a, R> {
    clock: StoreClock<'a, R>,
    readings: Past<Reading>,
}

impl<'a, R> Model for ClientClock<'a, R> {
    ghost use Rattle.store.specs.Standing.{Ticking};

    ghost Value = { Ticking };

    ghost view = { λ c. record {
      epsilon = c.clock.machine.epsilon;
      from = c.clock.from;
      readings = c.readings.entries;
    } };
}

impl<'a, R> ClientClock<'a, R> {
    /// A clock that has told nothing.
    pub fn new(clock: StoreClock<'a, R>) -> ClientClock<'a, R>
        ensures epsilon { result.epsilon ≡ clock.entry.machine.epsilon }
        ensures from { result.from ≡ clock.entry.from }
    {
        ClientClock {
            clock,
            readings: Past::none(),
        }
    }

    /// All that it has told.
    pub fn readings(&self) -> &Past<Reading>
        ensures { result.now.entries ≡ self.now.readings }
    {
        &self.readings
    }
}

impl<R: time::Clock> ClientClock<'_, R> {
    /// The next reading. There is none if the machine's clock gives none.
    pub fn now(&mut self) -> Option<Reading>
        ensures told { IfSome result (λ now. self.new.readings ≡ now ∷ self.old.readings) }
        ensures from { IfSome result (λ now. self.old.from ≤ now.latest) }
        ensures wide { IfSome result (λ now. (micros : ℕ)
            × (now.earliest ≡ micros - self.old.epsilon)
            × (micros + self.old.epsilon ≤ now.latest)) }
        ensures same { self.new ≡ record self.old { readings = self.new.readings } }
    {
        let mut clock = self.clock;
        let now = clock.now()?;
        self.readings.add(&now);
        Some(now)
    }
}

impl<R> Clone for StoreClock<'_, R> {
    ghost is_clone = { λ s r. r ≡ s };

    ghost is_infallible = { λ _. ⊤ };

    fn clone(&self) -> Result<Self, AllocError> {
        Ok(*self)
    }
}

impl<R> Copy for StoreClock<'_, R> {}

impl<R: time::Clock> Clock for StoreClock<'_, R> {
    fn now(&mut self) -> Option<Reading>
        ensures from { IfSome result (λ now. self.old.from ≤ now.latest) }
        ensures wide { IfSome result (λ now. (micros : ℕ)
            × (now.earliest ≡ micros - self.old.machine.epsilon)
            × (micros + self.old.machine.epsilon ≤ now.latest)) }
    {
        let from = Stamp::new(self.from).ok()?;
        let mut machine = self.machine;
        let now = machine.now()?;
        steady_over(now, from, self.reached)
    }
}
