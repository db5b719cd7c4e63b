//! The values of the serial run.
ghost use Rattle.std.specs.Prelude.{◌≡◌, None, nat_le};
ghost use Rattle.std.specs.Option.{option_copied};
ghost use Rattle.units.specs.Lists.{same_numbers};
ghost use Rattle.record.specs.History.{serial_before};
ghost use Rattle.record.specs.Verdict.{same_value};
ghost use Rattle.units.specs.Keys.{Bytes};
ghost use Rattle.inspector.specs.Ascending.{AscendsBy};
ghost use Rattle.inspector.specs.Versions.{shown};
ghost use Rattle.inspector.specs.Versions.{AscendsByKey, placed_for, placed_from};

use crate::history::Transaction;
use crate::versions::{Version, value_before_place};
use units::{Key, Stamp, Value};

/// Finds a key's value after the transactions before this one, in the serial order.
pub fn value_before<'t>(
    ordered: &[Transaction],
    versions: &[Version<'t>],
    reader: &Transaction,
    key: &Key,
) -> Option<&'t Value>
    requires serial { AscendsBy serial_before ordered.now }
    requires order { AscendsByKey versions.now }
    requires same { (k : Bytes) →
        placed_for k versions.now ≡ placed_for k (placed_from 0 ordered.now) }
    ensures { option_copied result ≡ shown
        (λ t. serial_before t reader.now) ordered.now key.now None }
{
    let place = ordered.partition_point(|transaction| transaction.comes_before(reader));
    value_before_place(versions, key, place)
}

/// Finds a key's value after the transactions up to a timestamp, in the serial order.
pub fn value_up_to<'t>(
    ordered: &[Transaction],
    versions: &[Version<'t>],
    at: Stamp,
    key: &Key,
) -> Option<&'t Value>
    requires serial { AscendsBy serial_before ordered.now }
    requires order { AscendsByKey versions.now }
    requires same { (k : Bytes) →
        placed_for k versions.now ≡ placed_for k (placed_from 0 ordered.now) }
    ensures { option_copied result ≡ shown (λ t. nat_le t.at at) ordered.now key.now None }
{
    let place = ordered.partition_point(|transaction| transaction.at.micros() <= at.micros());
    value_before_place(versions, key, place)
}

/// Tells whether the two values are equal, or neither is there.
pub fn is_same(value: Option<&Value>, other: Option<&Value>) -> bool
    ensures { result ≡ same_value (option_copied value.entry) (option_copied other.entry) }
{
    match (value, other) {
        (None, None) => true,
        (Some(value), Some(other)) => are_equal(value.as_bytes(), other.as_bytes()),
        (None, Some(_)) | (Some(_), None) => false,
    }
}

fn are_equal(bytes: &[u8], other: &[u8]) -> bool
    ensures { result ≡ same_numbers bytes.now other.now }
{
    bytes == other
}
