//! What a participant does with an outcome, and how it asks for one.
ghost use Rattle.std.specs.Prelude.{◌≡◌, [], true, IfOk};
ghost use Rattle.protocol.specs.Plan.{drops};
ghost use Rattle.protocol.specs.Cells.{is_outcome_for, raised};
ghost use Rattle.memory.specs.CodeRows.{may_close};
ghost use Rattle.memory.specs.RowTable.{has_phase};
ghost use Rattle.memory.specs.Carry.{IsFit};
ghost use Rattle.memory.specs.Plans.{plan_of};
ghost use Rattle.memory.specs.Standings.{standing_in};
ghost use Rattle.participant.specs.ByMessage.{PlansOutcome, PlansNudge};

use crate::prepares::refuse;
use memory::{RowPrepared, Standing, State, Step, ask_to};
use message::Outcome;
use record::Record;
use std::alloc::Global;
use units::{Fault, TxnId};

/// Plans what follows from an outcome: it closes the promise. A transaction without a promise here is ended by an abort. `Stranger`
/// if it is not from the promise's coordinator, lies below the promise, commits what was not promised, or this shard decides.
pub fn on_outcome(state: &State, alloc: Global, told: &Outcome) -> Result<Step, Fault>
    ensures planned { PlansOutcome state.now told.now (standing_in state.now told.now.txn) result }
    ensures fit { IfOk result (IsFit state.now) }
{
    match state.standing(told.txn) {
        Standing::Prepared(prepared) => {
            if !is_outcome_for(prepared, told) {
                return Err(Fault::Stranger);
            }
            Ok(close(state, alloc, told))
        }
        Standing::Unknown | Standing::Idle | Standing::WaitsRead(_) => match told.outcome {
            None => Ok(state.ends(alloc, told.txn, Vec::new(alloc))),
            Some(_) => Err(Fault::Stranger),
        },
        Standing::WaitsPrepare(request) => match told.outcome {
            None => refuse(state, alloc, told.txn, request.coordinator),
            Some(_) => Err(Fault::Stranger),
        },
        Standing::Ended | Standing::Closed { .. } => Ok(state.idles(alloc)),
        Standing::Retired
        | Standing::WaitsCommit(_)
        | Standing::Collecting(_)
        | Standing::Decided(_)
        | Standing::Aborted
        | Standing::Settled(_) => Err(Fault::Stranger),
    }
}

// Whether the outcome comes from the promise's coordinator, and is not below its timestamp.
fn is_outcome_for(prepared: &RowPrepared, told: &Outcome) -> bool
    ensures { result ≡
        is_outcome_for told.now.from prepared.now.coordinator prepared.now.at told.now.outcome }
{
    if told.from != prepared.coordinator() {
        return false;
    }
    match told.outcome {
        Some(at) => prepared.at() <= at,
        None => true,
    }
}

// Closes the promise.
fn close(state: &State, alloc: Global, told: &Outcome) -> Step
    requires { has_phase may_close state.now.memory.rows told.now.txn ≡ true }
    ensures plan { plan_of state.now.memory.rows result ≡
        drops told.now.txn (Record.Outcome told.now.txn told.now.outcome)
        (raised state.now.memory.last told.now.outcome) [] }
    ensures fit { IsFit state.now result }
{
    let last = match told.outcome {
        Some(at) => state.last().later(at),
        None => state.last(),
    };
    let outcome = Record::Outcome {
        txn: told.txn,
        outcome: told.outcome,
    };
    state.drops(alloc, told.txn, outcome, last, Vec::new(alloc))
}

/// Plans the question to the coordinator of a prepared transaction: how did it end? `Stranger` if it is not prepared here.
pub fn on_nudge(state: &State, alloc: Global, txn: TxnId) -> Result<Step, Fault>
    ensures planned { PlansNudge state.now txn (standing_in state.now txn) result }
    ensures fit { IfOk result (IsFit state.now) }
{
    match state.standing(txn) {
        Standing::Prepared(prepared) => {
            let ask = ask_to(state.setup().shard, prepared.coordinator(), txn);
            state.reply(alloc, ask)
        }
        Standing::Retired
        | Standing::Unknown
        | Standing::Ended
        | Standing::Idle
        | Standing::WaitsRead(_)
        | Standing::WaitsPrepare(_)
        | Standing::WaitsCommit(_)
        | Standing::Collecting(_)
        | Standing::Decided(_)
        | Standing::Aborted
        | Standing::Settled(_)
        | Standing::Closed { .. } => Err(Fault::Stranger),
    }
}
