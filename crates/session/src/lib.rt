//! A client's side of a transaction (session): it reads, buffers writes, closes with one set of messages, and hears its end.
#![tactic(auto)]

mod answered;
mod closing;
mod lists;
mod request;
mod taking;
mod tx;

pub use answered::{Answered, Finished, Heard};
pub use tx::{Closed, Closing, Ongoing, Open, Phase, Quitting, Tx};
