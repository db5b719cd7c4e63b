//! The gate before a frame.

/// The byte of an open gate. Every other byte is a closed gate.
pub const OPEN_GATE: u8 = 0xa5;
