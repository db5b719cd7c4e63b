//! The command `once`: one write of a new shard, from its words to its log.
#![tactic(auto)]

mod once_command;
mod one_shard;

pub use once_command::once;
