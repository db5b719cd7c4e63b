//! What a drive comes to, and how that is printed.
ghost use Rattle.std.specs.Prelude.{◌≡◌, ◌+◌, ◌<◌, ◌≤◌, ◌^◌, Some};
ghost use Rattle.workers.specs.Summaries.{one_if, one_if_aborted, one_if_committed, one_if_unknown, tried};

use output::VerdictText;
use progress::Ended;
use std::fmt;
use units::Verdict;

/// What the workers did.
#[derive(Clone, Copy)]
pub struct Counts {
    /// How many transactions were committed.
    pub committed: u64,
    /// How many were aborted.
    pub aborted: u64,
    /// How many were given up while their end was not known.
    pub unknown: u64,
    /// How many looks were answered.
    pub looks: u64,
}

impl Counts {
    /// Begins to count: nothing was done yet.
    pub fn none() -> Counts
        ensures { (tried result ≡ 0) × (result.committed ≡ 0) × (result.looks ≡ 0) }
    {
        Counts {
            committed: 0,
            aborted: 0,
            unknown: 0,
            looks: 0,
        }
    }

    /// Counts a transaction, and the look after it if that was answered.
    pub fn add(&mut self, ended: Ended, looked: bool)
        requires { (tried self.old + 1 < 2 ^ 64) × (self.old.looks ≤ tried self.old) }
        ensures tried { tried self.new ≡ tried self.old + 1 }
        ensures committed { self.new.committed ≡ self.old.committed + one_if_committed ended }
        ensures aborted { self.new.aborted ≡ self.old.aborted + one_if_aborted ended }
        ensures unknown { self.new.unknown ≡ self.old.unknown + one_if_unknown ended }
        ensures looks { self.new.looks ≡ self.old.looks + one_if looked }
    {
        match ended {
            Ended::Committed => self.committed += 1,
            Ended::Aborted => self.aborted += 1,
            Ended::Unknown => self.unknown += 1,
        }
        if looked {
            self.looks += 1;
        }
    }
}

impl Counts {
    /// Adds what other workers did.
    pub fn merge(&mut self, other: Counts)
        requires { (tried self.old + tried other < 2 ^ 64)
            × (self.old.looks + other.looks < 2 ^ 64) }
        ensures tried { tried self.new ≡ tried self.old + tried other }
        ensures committed { self.new.committed ≡ self.old.committed + other.committed }
        ensures aborted { self.new.aborted ≡ self.old.aborted + other.aborted }
        ensures unknown { self.new.unknown ≡ self.old.unknown + other.unknown }
        ensures looks { self.new.looks ≡ self.old.looks + other.looks }
    {
        self.committed += other.committed;
        self.aborted += other.aborted;
        self.unknown += other.unknown;
        self.looks += other.looks;
    }
}

impl fmt::Display for Counts {
    ghost use Rattle.workers.specs.Summaries.{counts_text};

    ghost output = { λ c. Some (counts_text c) };

    fn fmt<W: fmt::Write>(&self, f: &mut fmt::Formatter<W>) -> fmt::Result {
        let Counts {
            committed,
            aborted,
            unknown,
            looks,
        } = *self;
        write!(
            f,
            "committed {committed}\naborted {aborted}\nunknown {unknown}\nlooks {looks}\n"
        )
    }
}

/// The counts and the verdict, to be printed: five lines.
#[derive(Clone, Copy)]
pub struct Summary {
    /// What the workers did.
    pub counts: Counts,
    /// The verdict on the logs and on the workers' lines.
    pub verdict: Verdict,
}

impl fmt::Display for Summary {
    ghost use Rattle.workers.specs.Summaries.{summary_text};

    ghost output = { λ s. Some (summary_text s.counts s.verdict) };

    fn fmt<W: fmt::Write>(&self, f: &mut fmt::Formatter<W>) -> fmt::Result {
        let counts = self.counts;
        let verdict = VerdictText(self.verdict);
        write!(f, "{counts}verdict {verdict}\n")
    }
}
