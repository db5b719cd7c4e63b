//! What a shard keeps in memory: the facts of its log with the versions by key, and its rows with their locks. It also has the ids
//! of transactions that were ended, and the served time. Plans are made from it, and carried out in it.
#![tactic(auto)]

mod carry;
mod envelopes;
mod laws;
mod making;
pub mod plan;
mod planning;
pub mod standing;
pub mod state;

pub use carry::{Ready, ready_plans_can_be_carried};
pub use envelopes::{answer_to, ask_to, done_to, outcome_to, vote_to};
pub use laws::holds_follow_rows;
pub use plan::{Change, Plan, Request, Step};
pub use planning::reads_stand;
pub use rows::{
    CommitRequest, Gathering, PrepareRequest, Row, RowCollecting, RowPrepared, Voted, Wait,
    shared_and_exclusive,
};
pub use standing::{PastCommit, Standing};
pub use state::State;
