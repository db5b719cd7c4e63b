//! What a shard keeps in memory beside its rows: the facts of its log with the versions by key, and the ids of transactions that
//! were ended. It also makes the records of a renewed log. The laws are contracts of functions that do nothing.
#![tactic(auto)]

mod ended;
mod laws;
mod ledger;
mod renewing;

pub use ended::Ended;
pub use laws::{
    alike_keeps, alike_stands, alike_stays, alike_steps, alike_takes, alike_turned, held_in_order,
    lasting_follows, lasting_stays, log_is_of_shard, log_lasts, of_shard_stays, taken_lasts,
    turned_again, turned_belongs, turned_fits, turned_keeps, turned_lasts, turned_log_keeps,
    turned_may_come, turned_says,
};
pub use ledger::Ledger;
pub use renewing::Recorder;
pub use versions::Places;
