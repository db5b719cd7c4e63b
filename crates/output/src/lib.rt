//! What commands print to, how a verdict is printed, and why a command fails.
#![tactic(auto)]

mod failure;
mod stream;
mod verdict_text;

pub use failure::Failure;
pub use stream::Stream;
pub use verdict_text::{VerdictText, status_of};
