//! The slots of a log's file.
ghost use Rattle.std.specs.Prelude.{◌≡◌, ◌≢◌, ◌⊎◌, ◌≤◌, ◌<◌, ◌+◌, ◌*◌, ◌++◌, List, ℕ, length, get_or, true, false, IfOk, IfErr, IfSome, IfNone, IsTrue};
ghost use Rattle.frames.specs.Gate.{open_gate};
ghost use Rattle.gatelog.specs.Gates.{first_gate};
ghost use Rattle.gatelog.specs.Log.{is_no_log};
ghost use Rattle.gatelog.specs.Slots.{slot_count, named, offset_in};

use crate::frame::{FIRST_GATE, SLOTS};
use byteorder::{BigEndian, ByteOrder};
use frames::OPEN_GATE;
use units::Fault;

// Reads the offset in a slot, if the slot is open. The slot begins at this offset of a file of that length. The slots
// before it name an area, and `shut` says whether one of them is closed.
fn slot_of(slot: &[u8], at: u64, area: u64, shut: bool, len: u64) -> Result<Option<u64>, Fault>
    requires { length slot.now ≡ 9 }
    ensures opened { IfOk result (λ found. IfSome found (λ offset.
        (get_or slot.now 0 0 ≡ open_gate) × (shut ≡ false)
        × (area < offset) × (offset < len) × (offset_in slot.now ≡ offset))) }
    ensures closed { IfOk result (λ found. IfNone found (get_or slot.now 0 0 ≢ open_gate)) }
    ensures damaged { IfErr result (λ fault. (fault ≡ Fault.Damaged at)
        × (get_or slot.now 0 0 ≡ open_gate) × ((shut ≡ true)
        ⊎ ((offset_in slot.now ≤ area) ⊎ (len ≤ offset_in slot.now)))) }
{
    let (gate, behind) = slot.split_at(1);
    if gate[0] != OPEN_GATE {
        return Ok(None);
    }
    let offset = BigEndian::read_u64(behind);
    if shut || offset <= area || len <= offset {
        return Err(Fault::Damaged { offset: at });
    }
    Ok(Some(offset))
}

/// Finds the area that the slots name, in a file of this length. These bytes follow the header: all of them, or at
/// least the slots. `Damaged` gives the offset of the first bad slot.
pub fn area_named(bytes: &[u8], len: u64) -> Result<u64, Fault>
    requires enough { (9216 ≤ length bytes.now) ⊎ (8 + length bytes.now ≡ len) }
    requires inside { 8 + length bytes.now ≤ len }
    ensures named { (beyond : List ℕ) → 8 + length bytes.now + length beyond ≡ len →
        named slot_count 8 first_gate false len (bytes.now ++ beyond) ≡ result }
    ensures above { IfOk result (λ area. (first_gate ≤ area) × (area ≤ len)) }
    ensures damaged { IfErr result (λ fault. IsTrue (is_no_log fault)) }
{
    let mut rest = bytes;
    let mut left = SLOTS;
    let mut area = FIRST_GATE;
    let mut shut = false;
    while left > 0 {
        let at = FIRST_GATE - 9 * left;
        if rest.len() < 9 {
            return Err(Fault::Damaged { offset: at });
        }
        let (slot, behind) = rest.split_at(9);
        let said = slot_of(slot, at, area, shut, len)?;
        area = said.unwrap_or(area);
        shut = said.is_none();
        rest = behind;
        left -= 1;
    }
    Ok(area)
}

/// Counts the slots before the first that is closed. These bytes follow the header.
pub fn open_slots(bytes: &[u8]) -> u64
    requires { 9216 ≤ length bytes.now }
    ensures within { result ≤ slot_count }
    ensures former { (i : ℕ) → i < result → get_or bytes.now (9 * i) 0 ≡ open_gate }
    ensures shut { result < slot_count → get_or bytes.now (9 * result) 0 ≢ open_gate }
{
    let mut slot = 0;
    while slot < SLOTS && bytes[9 * slot as usize] == OPEN_GATE {
        slot += 1;
    }
    slot
}
