//! A clock that does not go back.
ghost use Rattle.std.specs.Prelude.{◌≡◌, ◌≤◌, ⊤, max, IfSome};

use std::alloc::AllocError;
use std::sync::atomic::{AtomicU64, Ordering};
use truetime::{Clock, Reading};
use units::Stamp;

/// A clock over another one that does not go back. Its copies share the latest microsecond that a reading of one of them reached. A reading
/// that would end before that, or before `from`, ends there instead. It begins at the same time as the reading below, so it holds whatever
/// that one holds.
pub struct SteadyClock<'a, C> {
    /// The clock below.
    pub clock: C,
    /// The timestamp before which no reading ends.
    pub from: Stamp,
    /// The latest microsecond that a reading has reached.
    pub reached: &'a AtomicU64,
}

impl<C: Copy> Clone for SteadyClock<'_, C> {
    ghost is_clone = { λ s r. r ≡ s };

    ghost is_infallible = { λ _. ⊤ };

    fn clone(&self) -> Result<Self, AllocError> {
        Ok(SteadyClock {
            clock: self.clock,
            from: self.from,
            reached: self.reached,
        })
    }
}

impl<C: Copy> Copy for SteadyClock<'_, C> {}

impl<C: Clock> Clock for SteadyClock<'_, C> {
    fn now(&mut self) -> Option<Reading>
        ensures from { IfSome result (λ now. self.old.from ≤ now.latest) }
    {
        let now = self.clock.now()?;
        steady_over(now, self.from, self.reached)
    }
}

/// Makes a reading end no earlier than a timestamp, nor than the latest microsecond that another reading has reached. `None` if that is no
/// timestamp.
pub fn steady_over(now: Reading, from: Stamp, reached: &AtomicU64) -> Option<Reading>
    ensures earliest { IfSome result (λ told. told.earliest ≡ now.earliest) }
    ensures latest { IfSome result (λ told. now.latest ≤ told.latest) }
    ensures from { IfSome result (λ told. from ≤ told.latest) }
{
    let latest = now.latest().later(from);
    let reached = reached.fetch_max(latest.micros(), Ordering::SeqCst);
    let reached = Stamp::new(reached).ok()?;
    Some(steady(now, from, reached))
}

// The reading that begins as one does, and ends there too, or at a timestamp from which it goes on or one that was reached, if that is later.
fn steady(now: Reading, from: Stamp, reached: Stamp) -> Reading
    ensures earliest { result.earliest ≡ now.earliest }
    ensures latest { result.latest ≡ max (max now.latest from) reached }
{
    let latest = now.latest().later(from).later(reached);
    match Reading::new(now.earliest(), latest) {
        Ok(told) => told,
        Err(_) => unreachable!(),
    }
}
