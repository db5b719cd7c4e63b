//! How a look at a key and a timestamp is answered: whether it may be, and what it puts into the buffer of its
//! caller.
ghost use Rattle.std.specs.Prelude.{◌≡◌, ◌⊎◌, ◌≤◌, ◌<◌, IsTrue, IsFalse, OnOk, IfErr, Some, length};
ghost use Rattle.std.specs.Option.{option_copied};
ghost use Rattle.units.specs.Looks.{IsRefusedLook, value_seen, buffer_filled};

use crate::{Fault, Seen, Stamp, Value};

/// Tells whether a look may be answered. `Stranger`: its key belongs to another shard. `TooOld`: its timestamp is
/// below the horizon, so take a later one. `NotYet`: its timestamp is above the last one that is served, so try again
/// later. If several hold, the first of them comes.
pub fn may_look(is_here: bool, horizon: Stamp, safe: Stamp, at: Stamp) -> Result<(), Fault>
    ensures served { OnOk result (IsTrue is_here × (horizon ≤ at) × (at ≤ safe)) }
    ensures refused { IfErr result (IsRefusedLook is_here horizon safe at) }
{
    if !is_here {
        return Err(Fault::Stranger);
    }
    if at < horizon {
        return Err(Fault::TooOld);
    }
    if safe < at {
        return Err(Fault::NotYet);
    }
    Ok(())
}

/// Puts the bytes of a value, if there is one, at the front of a buffer. `Room` comes if the buffer is too short, and
/// leaves it as it was: try again with a longer one.
pub fn show(value: Option<&Value>, buffer: &mut [u8]) -> Result<Seen, Fault>
    ensures answer { result ≡ value_seen (option_copied value.entry) (length buffer.old) }
    ensures buffer { buffer.new ≡ buffer_filled (option_copied value.entry) buffer.old }
{
    match value {
        None => Ok(Seen::Absent),
        Some(value) => put_in_front(value.as_bytes(), buffer),
    }
}

// Puts the bytes at the front of a buffer, if they have room.
fn put_in_front(bytes: &[u8], buffer: &mut [u8]) -> Result<Seen, Fault>
    ensures answer { result ≡ value_seen (Some bytes.now) (length buffer.old) }
    ensures buffer { buffer.new ≡ buffer_filled (Some bytes.now) buffer.old }
{
    let size = bytes.len();
    if buffer.len() < size {
        return Err(Fault::Room);
    }
    buffer[..size].copy_from_slice(bytes);
    Ok(Seen::Value(size))
}
