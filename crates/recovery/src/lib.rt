//! The state of a shard, rebuilt from its log when it is opened again.
#![tactic(auto)]

mod belonging;
mod rebuilding;
mod replaying;
mod whole;

pub use belonging::owns_all;
pub use memory::State;
pub use rebuilding::Rebuild;
pub use whole::rebuild;
