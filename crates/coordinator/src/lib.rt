//! What a shard does for a transaction as its coordinator: it takes the commit, counts the votes, waits until the timestamp has
//! passed, and tells the outcome. Each function plans the step of one message, and changes nothing.
#![tactic(auto)]

mod commits;
mod endings;
mod parts;
mod votes;

pub use commits::{on_commit, resume_commit};
pub use endings::{on_ask, settle};
pub use votes::on_vote;
