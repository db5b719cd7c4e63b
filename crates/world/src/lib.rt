//! Whole runs of the store: sessions, shards, crashes, and a network that loses, repeats and reorders. Here are the events, the
//! definitions, and code for parts of a run. The crates above have the laws of whole runs, and the code that plays them.
#![tactic(auto)]

mod begun;
mod counting;
mod event;
mod hosting;
mod output;

pub use counting::counted;
pub use event::{Act, Config, Doing, Event, Reply};
pub use hosting::Sessions;
pub use output::RunOutput;
