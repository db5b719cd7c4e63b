//! The step of a shard, as a function of its state, a reading of the clock and an input. Here are its definitions (rows, plans,
//! cells) and their laws, and no running code.
#![tactic(auto)]

mod laws;
mod serving;

pub use laws::{
    fresh_is_sound, installs_above, logged_belongs, logged_fits_beside, logged_follows,
    opening_keeps_sound, own_refusals, stays_within, step_keeps_own, step_keeps_sound,
};
pub use serving::{
    fresh_is_showable, record_ascends, step_keeps_showable, taken_is_showable, writes_ascend,
};
