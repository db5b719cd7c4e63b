//! A store in a folder, held open: lines ask something of it, and each is answered by a line.
#![tactic(auto)]

mod acts;
mod answers;
mod asks;
mod conversation;
mod desk;
mod lines;
mod prompt;
mod serving;
mod talk;

pub use acts::{End, act, answer_of_end};
pub use asks::{Asks, Heard};
pub use conversation::{Last, attend};
pub use desk::Desk;
pub use serving::{Served, serve};
