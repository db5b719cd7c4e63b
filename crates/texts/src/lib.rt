//! The texts of schedules and reports: it reads their words and lines, and prints each thing of them.
#![tactic(auto)]

mod forms;
mod line_reader;
mod numbers;
mod printed;
mod printing;
mod words;

pub use forms::{Form, Kind, Values};
pub use line_reader::{LineReader, lines};
pub use numbers::{number, reading, stamp};
pub use printing::Text;
pub use words::{NO_WORD, fate, key, shard, txn, unspelled, value};
