//! The engine of a drive, and drives over the machine's files. An engine runs nodes and workers on threads over the disks of some shards, and
//! judges what they leave.
#![tactic(auto)]

mod engine;
mod shards;
mod watched;

pub use engine::{Driven, clock_of, drive_by};
pub use node::MachineClock;
pub use shards::{drive_shards, run};
pub use system::NoVerdict;
