//! The logs of a folder beside the machine's clock.
ghost use Rattle.std.specs.Prelude.{◌≡◌, ◌+◌, ◌-◌, ◌≤◌, ℕ, IfErr, IfNone, IfSome};

use crate::Options;
use crate::options::{AHEAD, EPSILON, STRIDE};
use host_files::{Expected, Limit, Newest, Refused, refusal_at};
use node::MachineClock;
use std::alloc::Global;
use std::fs::File;
use std::rt::Files;
use std::time;
use truetime::{Clock, Reading};
use units::{Fault, Stamp};

// A reading of the machine's clock, if it gives one.
fn reading<R: time::Clock>(rt: &R, options: &Options) -> Option<Reading>
    ensures { IfSome result (λ now. (micros : ℕ) × (now.latest ≡ micros + options.now.epsilon)) }
{
    let mut clock = MachineClock {
        rt,
        epsilon: options.epsilon,
    };
    clock.now()
}

/// Tells how far the logs of a folder may be ahead of the machine's clock by these options. `None` if the clock gives no reading.
pub fn limit_by<R: time::Clock>(rt: &R, options: &Options) -> Option<Limit>
    ensures { IfSome result (λ limit. limit.ahead ≤ options.now.stride + options.now.ahead) }
{
    let now = reading(rt, options)?;
    Some(options.limit(now.latest()))
}

/// Tells the same by the options that `Options::new` gives.
pub fn default_limit<R: time::Clock>(rt: &R) -> Option<Limit> {
    let mut clock = MachineClock {
        rt,
        epsilon: EPSILON,
    };
    let now = clock.now()?;
    Some(Limit {
        present: now.latest(),
        ahead: STRIDE + AHEAD,
    })
}

/// Refuses logs that are too far ahead of the machine's clock, as `Future`, and says by how far. If the clock gives no reading, none is refused.
pub fn check_time<R: time::Clock>(rt: &R, options: &Options, newest: Newest) -> Result<(), Refused>
    ensures future { IfErr result (λ refused. refused.fault ≡ Fault.Future) }
    ensures named { IfErr result (λ refused. IfNone refused.file ⊥) }
{
    match limit_by(rt, options) {
        Some(limit) => limit.check(newest),
        None => Ok(()),
    }
}

/// Tells by how many microseconds a timestamp lies ahead of the machine's clock, by its latest time: 0 if that is past it. `None` if the clock
/// gives no reading.
pub fn lead_by<R: time::Clock>(rt: &R, options: &Options, at: Stamp) -> Option<u64>
    ensures { IfSome result (λ lead. (micros : ℕ)
        × (lead ≡ at - (micros + options.now.epsilon))) }
{
    let now = reading(rt, options)?;
    Some(at.micros().saturating_sub(now.latest().micros()))
}

/// What `open_folder` expects in a folder.
pub fn expected_by(options: &Options) -> Expected {
    if options.make {
        Expected::Either
    } else {
        Expected::Store
    }
}

/// Tells why `Store::open_folder` would refuse a folder by these options now: the fault, the file, and what is wrong with it. Of logs that are ahead
/// of the clock it is the number of microseconds. `None` if it would not be refused. Nothing is made, and no log takes a record.
pub fn refusal_of<R: Files<File = File> + time::Clock>(
    rt: &R,
    alloc: Global,
    folder: &str,
    options: &Options,
) -> Option<Refused> {
    let limit = limit_by(rt, options);
    refusal_at(
        rt,
        alloc,
        folder,
        &options.splits,
        expected_by(options),
        limit,
    )
}
