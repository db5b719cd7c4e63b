//! What a shard does as a coordinator.
ghost use Rattle.std.specs.Prelude.{IfOk};
ghost use Rattle.coordinator.specs.ByMessage.{PlansAsk, PlansCommit, PlansSettle, PlansVote};
ghost use Rattle.memory.specs.Carry.{IsFit};
ghost use Rattle.memory.specs.Standings.{standing_in};

use memory::{State, Step};
use message::{Ask, Commit, Vote};
use std::alloc::Global;
use truetime::Reading;
use units::{Fault, TxnId};

/// Decides a commit, collects votes for it, waits, or aborts it. A commit that came before is not carried out again.
pub fn commit(state: &State, alloc: Global, now: &Reading, commit: &Commit) -> Result<Step, Fault>
    ensures planned { PlansCommit state.now now.now.latest commit.now
        (standing_in state.now commit.now.txn) result }
    ensures fit { IfOk result (IsFit state.now) }
{
    coordinator::on_commit(state, alloc, now, commit)
}

/// Counts a yes; the last one decides, at a timestamp above the reading at which the commit came.
pub fn vote(state: &State, alloc: Global, vote: &Vote) -> Result<Step, Fault>
    ensures planned { PlansVote state.now vote.now (standing_in state.now vote.now.txn) result }
    ensures fit { IfOk result (IsFit state.now) }
{
    coordinator::on_vote(state, alloc, vote)
}

/// Tells an abort to a shard that asks how a transaction ended, only once the abort is logged.
pub fn ask(state: &State, alloc: Global, ask: &Ask) -> Result<Step, Fault>
    ensures planned { PlansAsk state.now ask.now (standing_in state.now ask.now.txn) result }
    ensures fit { IfOk result (IsFit state.now) }
{
    coordinator::on_ask(state, alloc, ask)
}

/// Tells a commit only once its timestamp has surely passed.
pub fn settle(state: &State, alloc: Global, now: &Reading, txn: TxnId) -> Result<Step, Fault>
    ensures planned { PlansSettle state.now now.now.earliest txn (standing_in state.now txn)
        result }
    ensures fit { IfOk result (IsFit state.now) }
{
    coordinator::settle(state, alloc, now, txn)
}
