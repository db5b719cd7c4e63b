//! The frames of a log's file. They are read from pieces of it. They are written after a closed gate, which is opened
//! last.
#![tactic(auto)]

mod change;
mod front;
mod gate;
mod pieces;

pub use change::{open_behind, write_and_sync};
pub use front::{Front, front_of};
pub use gate::OPEN_GATE;
pub use pieces::{PIECE, Pieces};
