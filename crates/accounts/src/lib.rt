//! What a service gains from the law of the store: laws about its own accounts.
//!
//! A service's author reads `specs/Transfers` first. It says what a transfer between two accounts is. If the sessions are such
//! transfers, each audit finds what there was at the start, whatever crashed meanwhile. The author shows that the sessions follow that
//! function, and proves nothing else. `specs/Sessions` says the same for any test of the whole map that the sessions keep, and for a
//! least amount. `specs/Bank` and `specs/Keeping` say it of the transactions in the logs. `proofs/Sample` works out two transfers
//! between two shards, with two crashes and three audits.
#![tactic(auto)]

mod laws;

pub use laws::{
    audits_agree, kept_between, kept_from_the_start, never_below, services_keep, sessions_conserve,
    sessions_keep, sessions_leave_enough, total_stays, transfers_conserve, transfers_keep,
};
