//! What a shard does as a participant.
ghost use Rattle.std.specs.Prelude.{IfOk};
ghost use Rattle.memory.specs.Carry.{IsFit};
ghost use Rattle.memory.specs.Standings.{standing_in};
ghost use Rattle.participant.specs.ByMessage.{PlansOutcome, PlansPrepare, PlansRead};

use memory::{State, Step};
use message::{Outcome, Prepare, Read};
use std::alloc::Global;
use truetime::Reading;
use units::Fault;

/// Answers a read under its lock, and ends no transaction that has promised for it.
pub fn read(state: &State, alloc: Global, read: &Read) -> Result<Step, Fault>
    ensures planned { PlansRead state.now read.now (standing_in state.now read.now.txn) result }
    ensures fit { IfOk result (IsFit state.now) }
{
    participant::on_read(state, alloc, read)
}

/// Promises only if the reads still stand, in this epoch and under their locks, and keeps these locks.
pub fn prepare(
    state: &State,
    alloc: Global,
    now: &Reading,
    prepare: &Prepare,
) -> Result<Step, Fault>
    ensures planned { PlansPrepare state.now now.now.earliest prepare.now
        (standing_in state.now prepare.now.txn) result }
    ensures fit { IfOk result (IsFit state.now) }
{
    participant::on_prepare(state, alloc, now, prepare)
}

/// Closes a promise by its outcome, once.
pub fn outcome(state: &State, alloc: Global, told: &Outcome) -> Result<Step, Fault>
    ensures planned { PlansOutcome state.now told.now (standing_in state.now told.now.txn) result }
    ensures fit { IfOk result (IsFit state.now) }
{
    participant::on_outcome(state, alloc, told)
}
