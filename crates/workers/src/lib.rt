//! The workers of a drive: each runs transactions and looks at keys, turn by turn, beside the nodes that serve it.
#![tactic(auto)]

mod counting;
mod course;
mod crew;
mod keys;
mod reads;
mod shared;
mod summary;
mod transactions;
mod worker;

pub use board::Viewers;
pub use course::Course;
pub use crew::{Staff, work_and_close};
pub use shared::{Drawers, Shared};
pub use summary::{Counts, Summary};
pub use worker::Report;
