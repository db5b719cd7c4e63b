//! The records of a shard's log, and what logs mean.
#![tactic(auto)]

mod laws;
mod record;

pub use laws::{
    a_yes_is_sound, accepted_follows, each_no_is_right, learn_agrees, learnt_agrees, sound_is_yes,
};
pub use record::{Committed, Prepared, Record};
