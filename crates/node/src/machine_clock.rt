//! The machine's clock as intervals.
ghost use Rattle.std.specs.Prelude.{◌≡◌, ◌+◌, ◌-◌, ◌≤◌, ◌^◌, ⊤, ℕ, IfSome, MatchOption};

use std::alloc::AllocError;
use std::time;
use truetime::{Clock, Reading};
use units::Stamp;

/// The machine's clock, in microseconds since 1970. A reading is from `epsilon` before it to `epsilon` after it. It is honest if the
/// clock is within epsilon of the true time. There is no reading if the clock cannot be read, or if the reading would end beyond the
/// last timestamp.
pub struct MachineClock<'a, R> {
    /// The runtime whose clock is read.
    pub rt: &'a R,
    /// How far the clock may be from the true time, in microseconds.
    pub epsilon: u64,
}

impl<R> Clone for MachineClock<'_, R> {
    ghost is_clone = { λ s r. r ≡ s };

    ghost is_infallible = { λ _. ⊤ };

    fn clone(&self) -> Result<Self, AllocError> {
        Ok(*self)
    }
}

impl<R> Copy for MachineClock<'_, R> {}

impl<R: time::Clock> Clock for MachineClock<'_, R> {
    fn now(&mut self) -> Option<Reading>
        ensures wide { IfSome result (λ now. (micros : ℕ)
            × (now.earliest ≡ micros - self.old.epsilon)
            × (now.latest ≡ micros + self.old.epsilon)) }
    {
        let since = self.rt.since_1970().ok()?;
        let micros = u64::try_from(since.as_micros()).ok()?;
        around(micros, self.epsilon)
    }
}

// The interval around a time. There is none if it ends after the last timestamp.
fn around(micros: u64, epsilon: u64) -> Option<Reading>
    ensures { MatchOption result (2 ^ 62 ≤ micros + epsilon)
        (λ now. (now.earliest ≡ micros - epsilon) × (now.latest ≡ micros + epsilon)) }
{
    let latest = Stamp::new(micros.checked_add(epsilon)?).ok()?;
    let earliest = Stamp::new(micros.saturating_sub(epsilon)).ok()?;
    Reading::new(earliest, latest).ok()
}
