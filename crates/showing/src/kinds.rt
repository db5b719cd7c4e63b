//! How many records of each kind a log has.
ghost use Rattle.std.specs.Prelude.{◌≡◌, ◌<◌, ◌^◌};
ghost use Rattle.recovery.specs.Recovered.{items};
ghost use Rattle.showing.specs.Counting.{all_kinds, kinds_of, with_kind};

use gatelog::Entry;
use record::Record;

/// How many records there are of each kind.
#[derive(Clone, Copy)]
pub struct Kinds {
    pub opened: u64,
    pub ceilings: u64,
    pub prepares: u64,
    pub commits: u64,
    pub aborts: u64,
    pub outcomes: u64,
    pub horizons: u64,
    pub bases: u64,
    pub versions: u64,
    pub settled: u64,
    pub closed: u64,
    pub retired: u64,
}

impl Kinds {
    // Counts one record more.
    fn count(&mut self, item: &Record)
        requires { all_kinds self.old < 2 ^ 63 }
        ensures { self.new ≡ with_kind self.old item.now }
    {
        match item {
            Record::Opened { epoch: _ } => self.opened += 1,
            Record::Ceiling { at: _ } => self.ceilings += 1,
            Record::Prepare(_) => self.prepares += 1,
            Record::Commit(_) => self.commits += 1,
            Record::Abort { txn: _ } => self.aborts += 1,
            Record::Outcome { txn: _, outcome: _ } => self.outcomes += 1,
            Record::Horizon { at: _ } => self.horizons += 1,
            Record::Base { .. } => self.bases += 1,
            Record::Version(_) => self.versions += 1,
            Record::Settled { .. } => self.settled += 1,
            Record::Closed { .. } => self.closed += 1,
            Record::Retired { .. } => self.retired += 1,
        }
    }
}

/// Counts the records of a log.
pub fn kinds_of(entries: &[Entry]) -> Kinds
    ensures { result ≡ kinds_of (items entries.now) }
{
    let mut kinds = Kinds {
        opened: 0,
        ceilings: 0,
        prepares: 0,
        commits: 0,
        aborts: 0,
        outcomes: 0,
        horizons: 0,
        bases: 0,
        versions: 0,
        settled: 0,
        closed: 0,
        retired: 0,
    };
    for entry in entries {
        kinds.count(entry.item());
    }
    kinds
}
