//! A store for a service of one process: its shards are served by threads over a disk each, and clients run transactions and look at views.
#![tactic(auto)]

mod client_numbers;
mod clients;
mod counted;
mod crew;
mod door;
mod ended;
mod folders;
mod healing;
mod histories;
mod kept;
mod log_files;
mod numbers;
mod offers;
mod options;
mod ranges;
mod retiring;
mod serving;
mod shared;
mod steady;
mod store;
mod timed;
mod transaction;
mod typed;
mod view;

pub use board::{History, KeyPage};
pub use client::{Halt as Halted, Outcome};
pub use client_numbers::{CLOSING_BOUNDS, ClientNumbers};
pub use clients::Client;
pub use ended::{Ended, Halt};
pub use filedisk::Cause;
pub use host_files::{Expected, Limit, Name, Refused, RefusedIn, Why, refusal_in};
pub use log_files::{LogFiles, NoFolder};
pub use node::Unopened;
pub use numbers::{Numbers, ShardNumbers};
pub use options::Options;
pub use store::{FolderStore, Store};
pub use timed::{default_limit, limit_by, refusal_of};
pub use transaction::{Transaction, own_writes_are_seen};
pub use typed::Typed;
pub use units::{Fault, Install, Key, Reason, Splits, Stamp, TxnId, Value};
pub use view::View;
