//! Whole runs, played over real cores on disks in memory, and what the law of the store says of a report.
#![tactic(auto)]

mod laws;
mod plays;

pub use laws::reports;
pub use plays::{Report, lawful, play};
pub use world::{Act, Config, Doing, Event, Reply};
