//! The book of a shard: the records that its opening found, and each input that it accepted since, with its reading and
//! what it put out.
#![tactic(auto)]

mod book;
mod copies;
mod laws;
mod page;

pub use book::Book;
pub use laws::a_page_is_a_step;
pub use page::Page;
