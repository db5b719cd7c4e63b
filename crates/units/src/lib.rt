//! The small types of the store: timestamps, ids of transactions, keys, values, shards, writes, locks, report lines
//! and the faults of every call. Each type keeps its limits.
#![tactic(auto)]

mod fault;
mod key;
mod keys;
mod line;
mod lock;
mod look;
mod newest;
mod parts;
mod setup;
mod shard;
mod splits;
mod stamp;
mod txn;
mod value;
mod writes;

pub use fault::{Fault, Reason};
pub use key::Key;
pub use keys::Keys;
pub use line::{Line, Seen, Verdict};
pub use lock::{Asked, Ids, Lock, MOST_ROWS, Mode};
pub use look::{may_look, show};
pub use newest::value_at;
pub use parts::Parts;
pub use setup::{Book, Capacity, Setup, Stride};
pub use shard::ShardNo;
pub use splits::Splits;
pub use stamp::{Epoch, Stamp};
pub use txn::{Run, TxnId};
pub use value::{Value, copy_value};
pub use writes::{Install, Write, Writes};
