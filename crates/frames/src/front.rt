//! The front of what was read of a file.
ghost use Rattle.std.specs.Prelude.{◌≡◌, ◌+◌, ◌<◌, ◌^◌, length, IfOk, IfErr};
ghost use Rattle.frames.specs.Front.{IsAtFront};

use crate::gate::OPEN_GATE;
use byteorder::{BigEndian, ByteOrder};
use spelling::{Record, decode};
use std::alloc::Global;
use units::Fault;

/// What stands at the place of a gate. `Closed`: a closed gate. `Whole`: a frame of a record, of so many bytes with
/// its gate. `Part`: too few bytes were read to tell. `Broken`: no frame.
#[derive(Drop)]
pub enum Front {
    Closed,
    Whole(Record, usize),
    Part,
    Broken,
}

/// Finds what stands at the front of some bytes, after which so many bytes of the file are left to be read. It is
/// refused for want of memory alone.
pub fn front_of(alloc: Global, bytes: &[u8], left: u64) -> Result<Front, Fault>
    requires { length bytes.now + left < 2 ^ 64 }
    ensures front { IfOk result (IsAtFront bytes.now left) }
    ensures memory { IfErr result (λ fault. fault ≡ Fault.Memory) }
{
    let Some((gate, rest)) = bytes.split_first() else {
        return Ok(if left == 0 {
            Front::Broken
        } else {
            Front::Part
        });
    };
    if *gate != OPEN_GATE {
        return Ok(Front::Closed);
    }
    if rest.len() < 4 {
        let is_short = rest.len() as u64 + left < 4;
        return Ok(if is_short { Front::Broken } else { Front::Part });
    }
    let (front, behind) = rest.split_at(4);
    let count = BigEndian::read_u32(front) as usize;
    if count < 1 || count > 1 << 20 || behind.len() as u64 + left < count as u64 {
        return Ok(Front::Broken);
    }
    if behind.len() < count {
        return Ok(Front::Part);
    }
    let (body, _) = behind.split_at(count);
    match decode(alloc, body) {
        Ok(Some(item)) => Ok(Front::Whole(item, 5 + count)),
        Ok(None) => Ok(Front::Broken),
        Err(fault) => Err(fault),
    }
}
