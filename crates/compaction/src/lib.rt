//! The records of a log are copied into a file of their own.
#![tactic(auto)]

mod compacting;
mod gathered;
mod over_files;

pub use compacting::compact;
pub use gathered::Gathered;
pub use over_files::compact_file;
