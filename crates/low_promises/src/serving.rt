//! Served time.
ghost use Rattle.std.specs.Prelude.{◌≡◌, ◌+◌, min, nat_lt, if◌then◌else◌, Some, None};
ghost use Rattle.record.specs.declared.record.Record.{Record};
ghost use Rattle.units.specs.declared.stamp.Stamp.{Stamp};

use record::Record;
use units::{Stamp, Stride};

/// Makes the record that has to be logged before a time is served that is above the log's greatest timestamp.
pub fn needed(floor: Stamp, to: Stamp, stride: Stride) -> Option<Record>
    ensures { result ≡
        (if nat_lt floor to then Some (Record.Ceiling (min (to + stride) Stamp.MAX)) else None) }
{
    safetime::needed(floor, to, stride)
}
