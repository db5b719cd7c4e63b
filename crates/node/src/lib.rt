//! Nodes. A node is a desk under a lock: the core of a shard and the publisher of its board. Threads serve it by the letters of an inbox.
//! Shards are opened together, with a node over the disk of each, and with the clock that they share. A log that nobody serves is renewed.
#![tactic(auto)]

mod desk;
mod fleet;
mod folder;
mod group;
mod held;
mod machine_clock;
mod measure;
mod node;
mod opening;
mod place;
mod renewing;
mod rest;
mod serves;
mod side_by_side;
mod steady;
mod unopened;

pub use desk::Desk;
pub use fleet::{Closes, Opened, open_shards, run_of};
pub use folder::LogFolder;
pub use letters::{Gate, Letter, Post, Served, start};
pub use machine_clock::MachineClock;
pub use node::Node;
pub use opening::open_all;
pub use renewing::{Past, renew_disk};
pub use rest::Restarted;
pub use shard::Core;
pub use steady::{SteadyClock, steady_over};
pub use unopened::Unopened;
