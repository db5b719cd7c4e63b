//! Promises of a shard's plans. Each is stated again over the public call that keeps it. Wrong bodies of such a call are tried here if
//! the body is small: the contract of that call refuses them.
#![tactic(auto)]

mod deciding;
mod renewing;
mod taking_part;
