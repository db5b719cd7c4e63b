//! Promises of the low crates, each stated once more over the public call that keeps it. Wrong bodies of such a call
//! are tried here, since a body is small: the contract of the call refuses them.
#![tactic(auto)]

mod boards;
mod forgetting;
mod locking;
mod logs;
mod reading;
mod serving;
mod verdicts;
