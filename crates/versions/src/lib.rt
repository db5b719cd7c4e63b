//! The versions of a shard's keys, in order by key and timestamp.
#![tactic(auto)]

mod chunk;
mod copying;
mod forgetting;
mod head;
mod held;
mod laws;
mod order;
mod placed;
mod search;
mod sequence;
mod store;

pub use copying::copy_install;
pub use held::copy_held;
pub use laws::{forgotten_is_not_missed, place_does_not_matter};
pub use order::left;
pub use placed::Places;
pub use store::Versions;
