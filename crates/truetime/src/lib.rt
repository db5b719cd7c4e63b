//! Readings of a clock with a known uncertainty, as from TrueTime, and commit wait, which refuses a timestamp that
//! has not surely passed.
#![tactic(auto)]

mod reading;
mod waited;

pub use reading::{Clock, Reading};
pub use waited::{Waited, pass};
