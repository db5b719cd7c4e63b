//! Turnovers of a log's file: what each of their calls leaves.
#![tactic(auto)]

mod laws;

pub use laws::{failing_calls, fresh_has_next, next_goes_on, next_stays, turnover_keeps};
