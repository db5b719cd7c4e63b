//! The rows of a shard: its transactions, each in a typed state that holds its token of the lock table.
#![tactic(auto)]

mod deciding;
mod list;
mod locking;
mod row;
mod rows;
mod states;
mod votes;
mod wait;

pub use gatelog::Noted;
pub use locks::{exclusive, shared_and_exclusive};
pub use row::Row;
pub use rows::Rows;
pub use states::{RowCollecting, RowDecided, RowPrepared, RowReading};
pub use votes::{Gathering, Voted, Votes};
pub use wait::{CommitRequest, PrepareRequest, Wait};
