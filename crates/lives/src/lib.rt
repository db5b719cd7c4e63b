//! The shards of whole runs, over real cores: what there is of each while it is up, stopped by its device, or down.
#![tactic(auto)]

mod fleet;
mod lawfulness;
mod life;
mod looking;
mod run;
mod run_shard;
mod spots;
mod view;

pub use fleet::Shards;
pub use life::Life;
pub use run::{Finished, Run};
pub use run_shard::RunShard;
