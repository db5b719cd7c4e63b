//! What the copies of a board take in.
use crate::entry::BoardEntry;

/// What a copy of a board takes in.
#[derive(Drop)]
pub enum BoardChange {
    /// An entry is prepared, which takes memory.
    Prepare(BoardEntry),
    /// All that is prepared is shown, which takes no memory.
    Commit,
}
