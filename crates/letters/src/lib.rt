//! Letters to nodes and messages to workers, what carries them, and threads that serve nodes by the letters of an inbox.
#![tactic(auto)]

mod acts;
mod bell;
mod chores;
mod gate;
mod gauges;
mod kept;
mod letter;
mod network;
mod pace;
mod put_off;
mod serves;
mod sessions;
mod threads;
mod together;
mod turns;

pub use bell::left;
pub use gate::Gate;
pub use gauges::Gauges;
pub use letter::{Letter, Post, Refused, Reply, UnderWay};
pub use network::{Inboxes, Mail, Network};
pub use serves::{Due, Serves, Taken, serve};
pub use threads::{Served, start, start_in, to_serve};
