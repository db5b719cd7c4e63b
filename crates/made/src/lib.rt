//! Values for tests, made of plain numbers, and folders for them.
#![tactic(auto)]

ghost use Rattle.std.specs.Prelude.{◌≡◌, ◌<◌, ◌^◌};

mod folder;
mod rows;
mod wrong_rows;

pub use folder::Folder;
pub use rows::{Row, go_over, go_over_all, is_text};
use std::alloc::{AllocError, Global};
use units::{Key, ShardNo, Stamp, TxnId};
pub use wrong_rows::WrongRows;

/// How many bytes the slots take in the file of a log.
pub const SLOTS: u64 = 9_216;

/// The offset of the first gate in the file of a log, in bytes: it comes after the header and the slots.
pub const FIRST_GATE: u64 = OLD_FIRST_GATE + SLOTS;

/// The offset of the first gate in a file of version 1, which has no slots.
pub const OLD_FIRST_GATE: u64 = 8;

/// The file of one settled commit, without its slots: the header; Opened 1; Commit 1.1 at 111, parts 0, no reads, a=1; Outcome 1.1
/// committed 111; a closed gate. The gates after the first are 14, 56 and 87 bytes after it.
pub const ONE_COMMIT: [u8; 96] = [
    0x53, 0x50, 0x4e, 0x4c, 0x4f, 0x47, 0x30, 0x32, 0xa5, 0, 0, 0, 9, 1, 0, 0, 0, 0, 0, 0, 0, 1,
    0xa5, 0, 0, 0, 37, 4, 0, 0, 0, 0, 0, 0, 0, 1, 0, 0, 0, 0, 0, 0, 0, 1, 0, 0, 0, 0, 0, 0, 0,
    0x6f, 0, 1, 0, 0, 0, 1, 1, 0x61, 1, 0, 1, 0x31, 0xa5, 0, 0, 0, 26, 6, 0, 0, 0, 0, 0, 0, 0, 1,
    0, 0, 0, 0, 0, 0, 0, 1, 1, 0, 0, 0, 0, 0, 0, 0, 0x6f, 0,
];

/// Adds the slots, all closed, after the header of a file of version 2 that is given without them. Other bytes stay as they are.
pub fn with_slots(alloc: Global, told: &[u8]) -> Result<Vec<u8>, AllocError> {
    let Some(frames) = told.strip_prefix(b"SPNLOG02".as_slice()) else {
        return told.to_vec(alloc);
    };
    let mut bytes = b"SPNLOG02".as_slice().to_vec(alloc)?;
    bytes.resize(FIRST_GATE as usize, 0)?;
    bytes.extend_from_slice(frames)?;
    Ok(bytes)
}

/// Makes the same file in version 1.
pub fn in_version_1(told: [u8; 96]) -> [u8; 96] {
    let mut bytes = told;
    bytes[7] = b'1';
    bytes
}

/// Makes a key of one letter.
pub fn key(letter: u8) -> Key {
    match Key::new(&[letter]) {
        Ok(key) => key,
        Err(_) => unreachable!(),
    }
}

/// Makes the id of run 1 and this number.
pub fn id(number: u16) -> TxnId {
    match TxnId::new(1, u64::from(number)) {
        Some(id) => id,
        None => unreachable!(),
    }
}

/// Makes a timestamp of this many microseconds.
pub fn stamp(micros: u32) -> Stamp
    ensures { result ≡ micros }
{
    match Stamp::new(u64::from(micros)) {
        Ok(at) => at,
        Err(_) => unreachable!(),
    }
}

/// Makes the shard of this number.
pub fn shard(number: u8) -> ShardNo
    requires { number < 16 }
{
    match ShardNo::new(number) {
        Some(shard) => shard,
        None => unreachable!(),
    }
}
