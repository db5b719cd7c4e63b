//! From bytes to history: what the law of the store says of the disks of cores, whatever a crash leaves of them.
#![tactic(auto)]

mod laws;

pub use laws::{answers_are_the_runs, areas_are_logs, images_have_logs};
