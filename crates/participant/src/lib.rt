//! What a shard does for a transaction as a participant: it answers reads, promises, takes the outcome, and ends one that is given
//! up. Each function plans the step of one message, and changes nothing.
#![tactic(auto)]

mod giving_up;
mod outcomes;
mod prepares;
mod reads;

pub use giving_up::on_give_up;
pub use outcomes::{on_nudge, on_outcome};
pub use prepares::{on_prepare, resume_prepare};
pub use reads::{on_read, resume_read};
