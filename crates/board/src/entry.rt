//! What is put on a board.
use units::{Install, Stamp};

/// An entry of a board.
#[derive(Drop)]
pub enum BoardEntry {
    /// A version.
    Installed(Install),
    /// A timestamp up to which looks are answered from then on.
    Safe(Stamp),
    /// A timestamp below which no look is answered any more.
    Horizon(Stamp),
}
