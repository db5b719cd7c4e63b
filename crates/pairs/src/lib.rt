//! Keys and values as text: lines, and comma-separated values.
#![tactic(auto)]

mod commas;
mod lines;
mod pair;
mod source;

pub use commas::{Commas, fields_are_read, header, rows_of};
pub use lines::{Lines, lines_are_read, lines_of, pair_in};
pub use pair::Pair;
pub use source::Pairs;
