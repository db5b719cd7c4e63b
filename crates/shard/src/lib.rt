//! A shard by itself: its core takes inputs, logs what they decide, and puts out messages.
#![tactic(auto)]

mod addressing;
mod ahead;
mod begun;
mod booking;
mod halted;
mod inputs;
mod lead;
mod letting_go;
mod logging;
mod machine;
mod moving;
mod opening;
mod planning;
mod shard_core;
mod staging;
mod turning;

pub use ahead::Ahead;
pub use begun::Begun;
pub use halted::Halted;
pub use message::Input;
pub use shard_core::Core;
pub use units::Setup;
