//! Lists that only grow, and beginnings of them that were seen. They exist in proofs alone and take no bytes.
#![tactic(auto)]

mod list;

pub use list::{Beginning, Growing};
