//! The log of a shard: records in a file, each whole or absent after a crash.
#![tactic(auto)]

mod appending;
mod area;
mod frame;
mod gatelog;
mod group;
mod joining;
mod laying;
mod migrating;
mod opening;
mod scanning;
mod slots;
mod token;
mod turning;

pub use area::{Area, StagedArea};
pub use frame::{FIRST_GATE, HEADER};
pub use gatelog::GateLog;
pub use group::{Gathered, Joined};
pub use migrating::{is_old, migrate};
pub use scanning::Sink;
pub use slots::area_named;
pub use token::{Entry, Logged, Noted, Staged};
