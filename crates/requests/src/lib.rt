//! Lines that ask something of an open store, and what is answered to them.
#![tactic(auto)]

mod answered;
mod asked;
mod reading;
mod spelled;
mod words;

pub use answered::{Answer, Found, VERBS, answer_line, committed};
pub use asked::Request;
pub use reading::request;
pub use spelled::{push_spelled, spelled_is_read, unspelled};
pub use words::{of_client, words_of};
