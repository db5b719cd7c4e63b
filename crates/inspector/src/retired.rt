//! The ids that the logs retired.
ghost use Rattle.std.specs.Prelude.{◌≡◌, map};
ghost use Rattle.record.specs.Records.{is_below, retired_of};
ghost use Rattle.record.specs.Verdict.{later_id, retired_in};

use record::Record;
use units::TxnId;

/// Gives the greatest id below which one of the logs retired all.
pub fn retired_in(logs: &[Vec<Record>]) -> Option<TxnId>
    ensures { result ≡ retired_in (map (λ log. log.items) logs.now) }
{
    let mut found = None;
    for log in logs {
        found = later_id(found, retired_of(log));
    }
    found
}

// Gives the id below which one log retired all: its last.
fn retired_of(log: &[Record]) -> Option<TxnId>
    ensures { result ≡ retired_of log.now }
{
    let mut found = None;
    for item in log {
        if let Record::Retired { below } = item {
            found = Some(*below);
        }
    }
    found
}

// Gives the later of two ids, as far as they are there.
fn later_id(one: Option<TxnId>, other: Option<TxnId>) -> Option<TxnId>
    ensures { result ≡ later_id one other }
{
    match one {
        None => other,
        Some(first) => match other {
            Some(second) if first < second => Some(second),
            _ => Some(first),
        },
    }
}

/// Tells whether an id is below that one, if there is one.
pub fn is_below(retired: &Option<TxnId>, txn: TxnId) -> bool
    ensures { result ≡ is_below retired.now txn }
{
    match retired {
        Some(below) => txn < *below,
        None => false,
    }
}
