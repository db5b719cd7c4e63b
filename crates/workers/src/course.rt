//! What a drive is asked to do.
ghost use Rattle.std.specs.Prelude.{◌≡◌, ◌≤◌, ◌↔◌, IfOk, IfErr, IsOk, IsTrue};
ghost use Rattle.workers.specs.Course.{IsDrivable};

use settings::Settings;
use units::{Fault, Reason};

/// How much the workers of a drive do.
#[derive(Clone, Copy)]
pub struct Course {
    /// How many workers there are, from 1 to 64.
    pub workers: u64,
    /// How many transactions each of them runs, from 1 to 100,000.
    pub transactions: u64,
    /// How many keys they read and write, from 1 to 10,000.
    pub keys: u64,
    ghost drivable: { IsDrivable workers transactions keys },
}

impl Course {
    /// Takes the course out of the settings. A number beyond its limits is refused as `settings`.
    pub fn of(settings: &Settings) -> Result<Course, Fault>
        ensures same { IfOk result (λ course. (course.workers ≡ settings.now.workers)
            × (course.transactions ≡ settings.now.transactions)
            × (course.keys ≡ settings.now.keys)) }
        ensures limits { IsOk result
            ↔ IsDrivable settings.now.workers settings.now.transactions settings.now.keys }
        ensures refused { IfErr result (λ fault. fault ≡ Fault.BadRequest Reason.Settings) }
    {
        let workers = settings.workers;
        let transactions = settings.transactions;
        let keys = settings.keys;
        if !is_within(workers, 64)
            || !is_within(transactions, 100_000)
            || !is_within(keys, 10_000)
        {
            return Err(Fault::BadRequest(Reason::Settings));
        }
        Ok(Course {
            workers,
            transactions,
            keys,
        })
    }
}

fn is_within(count: u64, most: u64) -> bool
    ensures { IsTrue result ↔ ((1 ≤ count) × (count ≤ most)) }
{
    1 <= count && count <= most
}
