ghost use Rattle.std.specs.Prelude.{◌≡◌, ◌+◌, min, nat_lt, if◌then◌else◌};

use record::Record;
use units::{Stamp, Stride};

/// Makes the ceiling that has to be logged before `to` is served, if the log's greatest timestamp is `floor`. `None`
/// means that none is needed. It stands a stride above `to`, so that the next advances need none, but not above the
/// greatest timestamp.
pub fn needed(floor: Stamp, to: Stamp, stride: Stride) -> Option<Record>
    ensures { result ≡
        (if nat_lt floor to then Some (Record.Ceiling (min (to + stride) Stamp.MAX)) else None) }
{
    if to <= floor {
        return None;
    }
    let ahead = (to.micros() + stride.micros()).min(Stamp::MAX);
    match Stamp::new(ahead) {
        Ok(at) => Some(Record::Ceiling { at }),
        Err(_) => unreachable!(),
    }
}
