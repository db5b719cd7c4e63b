//! The fixed bytes of a log's file.

/// The text SPNLOG02, with which a file begins.
pub const HEADER: [u8; 8] = [0x53, 0x50, 0x4e, 0x4c, 0x4f, 0x47, 0x30, 0x32];

/// The text SPNLOG01, with which a file of version 1 begins.
pub const FIRST_HEADER: [u8; 8] = [0x53, 0x50, 0x4e, 0x4c, 0x4f, 0x47, 0x30, 0x31];

/// How many slots follow the header. Each has a gate and an offset of eight bytes.
pub const SLOTS: u64 = 1024;

/// The offset of the first gate, after the header and the slots.
pub const FIRST_GATE: u64 = 9224;
