//! The verdict on the logs of all shards and the lines of a report.
#![tactic(auto)]

mod acks;
mod decisions;
mod entries;
mod history;
mod lines;
mod retired;
mod torn;
mod values;
mod verdict;
mod versions;
mod whole;

pub use verdict::inspect;
