//! A disk in memory. It keeps what the last sync left and every change since apart, so a crash may tear each change.
#![tactic(auto)]

mod buffers;
mod change;
mod choice;
mod simdisk;
mod tear;

pub use choice::Choice;
pub use simdisk::SimDisk;
