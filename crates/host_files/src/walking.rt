//! At which offset the records of a log end, by the gates and lengths of their frames alone.
ghost use Rattle.std.specs.Prelude.{◌≡◌, ◌⊎◌, ◌≤◌, ◌<◌, ℕ, IfErr, length};
ghost use Rattle.host_files.specs.Folders.{IsSystemFault};
ghost use Rattle.host_files.specs.declared.walking.Way.TheVariants.{Closed, Unfinished, On};

use crate::owners::part_of;
use byteorder::{BigEndian, ByteOrder};
use filedisk::FileDisk;
use std::alloc::Global;
use units::Fault;

// How many bytes are read at once.
const PIECE: u64 = 1 << 16;

const OPEN_GATE: u8 = 0xa5;

/// The closed gate at which the records of a log end.
#[derive(Clone, Copy)]
pub struct End {
    /// Its offset in the file.
    pub gate: u64,
    /// The byte that stands there.
    pub byte: u8,
}

// To what the frames at the front of some bytes lead: a closed gate, or a frame that does not end in the file. Or they lead past these bytes,
// or to a frame of which they show too little. Or they are no frames.
#[derive(Clone, Copy)]
enum Way {
    Closed(u64, u8),
    Unfinished(u64),
    On(u64),
    Broken,
}

/// Finds the closed gate of the log whose frames begin at an offset; `None` if the file is damaged. A frame may end beyond the file's length
/// at the start of this call. If the file has grown since, that frame is still being written: its gate counts as closed.
pub fn end_behind(alloc: Global, disk: &mut FileDisk, from: u64) -> Result<Option<End>, Fault>
    ensures { IfErr result IsSystemFault }
{
    let len = disk.measure()?;
    let mut at = from;
    while at < len {
        let left = len - at;
        let part = part_of(alloc, disk, at, left.min(PIECE))?;
        let way = way_in(&part, left);
        drop(part);
        match way {
            Way::Closed(passed, byte) => {
                return Ok(Some(End {
                    gate: at + passed,
                    byte,
                }));
            }
            Way::Unfinished(passed) => return unfinished(disk, at + passed, len),
            Way::On(passed) => at += passed,
            Way::Broken => return Ok(None),
        }
    }
    Ok(None)
}

// A frame at this gate does not end in a file of that length: it is not there yet, if the file is longer by now.
fn unfinished(disk: &mut FileDisk, gate: u64, len: u64) -> Result<Option<End>, Fault>
    ensures { IfErr result IsSystemFault }
{
    if disk.measure()? > len {
        Ok(Some(End { gate, byte: 0 }))
    } else {
        Ok(None)
    }
}

// To what the frames lead at the front of the bytes that are read next, of so many that are left in the file.
fn way_in(bytes: &[u8], left: u64) -> Way
    requires some { 1 ≤ left }
    requires piece { (length bytes.now ≡ left) ⊎ ((length bytes.now ≡ 65536) × (65536 ≤ left)) }
    ensures closed { (passed byte : ℕ) → result ≡ Closed passed byte → passed < left }
    ensures unfinished { (passed : ℕ) → result ≡ Unfinished passed → passed < left }
    ensures on { (passed : ℕ) → result ≡ On passed → (1 ≤ passed) × (passed ≤ left) }
{
    let mut at = 0;
    while at < bytes.len() {
        let gate = at as u64;
        if bytes[at] != OPEN_GATE {
            return Way::Closed(gate, bytes[at]);
        }
        if left - gate < 6 {
            return Way::Unfinished(gate);
        }
        let Some(count) = bytes.get(at + 1..at + 5) else {
            return Way::On(gate);
        };
        let count = BigEndian::read_u32(count);
        if count < 1 || count > 1 << 20 {
            return Way::Broken;
        }
        let size = 5 + u64::from(count);
        if left - gate <= size {
            return Way::Unfinished(gate);
        }
        at += size as usize;
    }
    Way::On(at as u64)
}
