//! The law of the store, for every lawful run and whatever crash strikes it. Each law is the contract of a function that does
//! nothing. Its definitions are in `specs/`, and build on those of whole runs.
#![tactic(auto)]

mod laws;

pub use laws::{
    all_are_whole, areas_keep, before_is_in_front, held_reads_are_latest, ids_stand_once, moments,
    outcomes_have_passed, served_is_below, shards_are_of_their_logs, what_was_put_out_is_logged,
};
