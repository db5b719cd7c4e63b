//! A source of numbers that threads draw, so that none is drawn twice.
#![tactic(auto)]

mod rule;
mod source;

pub use source::{Drawer, Tickets, each_once, ids_stay_apart};
