//! The facts of a shard's log, learnt record by record: the epoch, the greatest timestamp, how each transaction
//! stands, and the versions.
#![tactic(auto)]

mod blocks;
mod entry;
mod facts;
mod laws;
mod stage;
mod table;

pub use entry::Status;
pub use facts::Facts;
pub use laws::{follows_as_known, learnt_as_followed, says_of_records, stage_agrees};
pub use stage::Stage;
