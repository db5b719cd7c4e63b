//! Where a log begins, as an opening finds it.
ghost use Rattle.std.specs.Prelude.{◌≡◌};
ghost use Rattle.std.specs.Option.{unwrap_or};
ghost use Rattle.shard.specs.Beginnings.{and_found, begun_anew, growth_at};

use gatelog::{Entry, FIRST_GATE};
use record::Record;

/// Where the area of a log begins, and from where on it has grown. Both are offsets in the file, in bytes. What stands between them in a
/// renewed log was held when it was renewed.
#[derive(Clone, Copy)]
pub struct Begun {
    /// The offset of the first record, or of the log's end if it had none.
    pub at: u64,
    /// The offset of the first record that no renewal writes of what has ended, or of the log's end if it had none.
    pub grown: u64,
}

impl Begun {
    // Where a renewed log begins that has a file for itself, and from where on it grows: it ends at this gate.
    pub(crate) fn anew(gate: u64) -> Begun
        ensures { result ≡ begun_anew gate }
    {
        Begun {
            at: FIRST_GATE + 1,
            grown: gate,
        }
    }
}

// What was found so far of where a log begins.
#[derive(Clone, Copy)]
pub(crate) struct Found {
    first: Option<u64>,
    growth: Option<u64>,
}

impl Found {
    ghost use Rattle.shard.specs.Beginnings.{none_found};

    // Nothing yet.
    pub(crate) fn nothing() -> Found
        ensures { result ≡ none_found }
    {
        Found {
            first: None,
            growth: None,
        }
    }

    // With the next entry of the log.
    pub(crate) fn and(self, entry: &Entry) -> Found
        ensures { result ≡ and_found self entry.now }
    {
        let first = match self.first {
            Some(at) => Some(at),
            None => Some(entry.offset()),
        };
        let growth = match self.growth {
            Some(at) => Some(at),
            None => growth_at(entry),
        };
        Found { first, growth }
    }

    // Where a log begins that ends here.
    pub(crate) fn up_to(self, end: u64) -> Begun
        ensures { result ≡ record { at = unwrap_or self.first end; grown = unwrap_or self.growth end } }
    {
        Begun {
            at: self.first.unwrap_or(end),
            grown: self.growth.unwrap_or(end),
        }
    }
}

// The offset of a record with which a log grows.
fn growth_at(entry: &Entry) -> Option<u64>
    ensures { result ≡ growth_at entry.now }
{
    match entry.item() {
        Record::Base { .. }
        | Record::Version(_)
        | Record::Settled { .. }
        | Record::Closed { .. }
        | Record::Abort { .. } => None,
        _ => Some(entry.offset()),
    }
}
