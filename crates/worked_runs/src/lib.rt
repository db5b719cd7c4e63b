//! Whole runs that the checker works out: each is an equation of `proofs/`, which is computed. They show what the definitions of
//! whole runs say about messages, logs, lines and verdicts. There are crashes, failing calls, and long runs of drawn events.
#![tactic(auto)]
