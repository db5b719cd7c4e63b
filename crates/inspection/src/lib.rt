//! The verdict on the files of logs.
#![tactic(auto)]

mod following;
mod inspecting;
mod judged;
mod judging;

pub use inspecting::inspect_files;
pub use judged::judge;
pub use judging::{inspect_disks, read_log};
