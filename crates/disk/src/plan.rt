// For tests: which call of a disk is to fail, and what a crash makes of its changes.
ghost use Rattle.std.specs.Prelude.{◌≡◌};
ghost use Rattle.disk.specs.Planned.{fails, next, at_write, armed};

/// Which of the calls `read_at`, `write_at`, `cut` and `sync` is to fail.
#[derive(Clone, Copy, PartialEq, Eq)]
pub enum FailurePlan {
    /// No call.
    Never,
    /// It is the call that comes so many calls from now: 0 is the next.
    After(u64),
    /// It is the call that comes so many calls after the next write, which is 0.
    AfterWrite(u64),
}

impl FailurePlan {
    /// Counts a call that is no write, and tells whether it fails.
    pub fn call(&mut self) -> bool
        ensures fails { result ≡ fails self.old }
        ensures next { self.new ≡ next self.old }
    {
        match *self {
            FailurePlan::Never | FailurePlan::AfterWrite(_) => false,
            FailurePlan::After(0) => {
                *self = FailurePlan::Never;
                true
            }
            FailurePlan::After(calls) => {
                *self = FailurePlan::After(calls - 1);
                false
            }
        }
    }

    /// Counts a write, and tells whether it fails.
    pub fn write(&mut self) -> bool
        ensures fails { result ≡ fails (at_write self.old) }
        ensures next { self.new ≡ next (at_write self.old) }
    {
        if let FailurePlan::AfterWrite(calls) = *self {
            *self = FailurePlan::After(calls);
        }
        self.call()
    }

    /// Makes the plan that `Disk::arm` sets.
    pub fn armed(call: Option<u64>) -> FailurePlan
        ensures { result ≡ armed call }
    {
        match call {
            None => FailurePlan::Never,
            Some(calls) => FailurePlan::AfterWrite(calls),
        }
    }
}

/// What a crash makes of a change that is not synced, for tests.
#[derive(Clone, Copy)]
pub enum Fate {
    /// It is as if the change had not been made.
    Old,
    /// The change is made whole, and so is a write that failed.
    New,
    /// Each byte of a write's range is this one. A cut is made.
    Filled(u8),
}
