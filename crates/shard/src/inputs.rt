//! The plan of each input.
ghost use Rattle.std.specs.Prelude.{◌≡◌, [], true, IfOk};
ghost use Rattle.units.specs.Locks.{ready};
ghost use Rattle.protocol.specs.Rows.{claims};
ghost use Rattle.protocol.specs.Cells.{plan_cell, plan_advance, plan_forget, plan_retire};
ghost use Rattle.protocol.specs.Table.{go_on_cell, resume_cell};
ghost use Rattle.protocol.specs.Step.{is_for, plan_input, message_cell};
ghost use Rattle.memory.specs.RowTable.{needs_in};
ghost use Rattle.memory.specs.Carry.{Asks, IsFit};
ghost use Rattle.memory.specs.Kept.{start_of, IsPlanned};
ghost use Rattle.memory.specs.Standings.{standing_in};

use crate::addressing::is_for;
use coordinator::{on_ask, on_commit, on_vote, resume_commit, settle};
use memory::{Standing, State, Step};
use message::{Input, Message};
use participant::{
    on_give_up, on_nudge, on_outcome, on_prepare, on_read, resume_prepare, resume_read,
};
use record::Record;
use safetime::needed;
use std::alloc::Global;
use truetime::Reading;
use units::{Fault, Stamp, TxnId};

/// Plans the step of an input, and changes nothing. `Stranger` if a message is not for this shard.
#[tactic(auto, unfolding(protocol::specs::Step::plan_input))]
pub(crate) fn plan_input(
    state: &State,
    alloc: Global,
    now: &Reading,
    input: &Input,
) -> Result<Step, Fault>
    ensures planned { IsPlanned state.now
        (plan_input state.now.setup (start_of state.now) now.now input.now) result }
    ensures fit { IfOk result (IsFit state.now) }
{
    match input {
        Input::Deliver(message) => {
            if !is_for(state.setup(), message) {
                return Err(Fault::Stranger);
            }
            plan_message(state, alloc, now, message)
        }
        Input::Resume => plan_resume(state, alloc, now),
        Input::Settle(txn) => settle(state, alloc, now, *txn),
        Input::Advance(to) => plan_advance(state, alloc, now, *to),
        Input::Nudge(txn) => on_nudge(state, alloc, *txn),
        Input::Forget(at) => plan_forget(state, alloc, *at),
        Input::Retire(below) => plan_retire(state, alloc, *below),
    }
}

// Plans the step of a message that is for this shard.
fn plan_message(
    state: &State,
    alloc: Global,
    now: &Reading,
    message: &Message,
) -> Result<Step, Fault>
    ensures planned { IsPlanned state.now
        (plan_cell (start_of state.now) (message_cell (start_of state.now) now.now message.now))
        result }
    ensures fit { IfOk result (IsFit state.now) }
{
    match message {
        Message::Read(read) => on_read(state, alloc, read),
        Message::Prepare(prepare) => on_prepare(state, alloc, now, prepare),
        Message::Commit(commit) => on_commit(state, alloc, now, commit),
        Message::GiveUp(given) => on_give_up(state, alloc, given),
        Message::Vote(vote) => on_vote(state, alloc, vote),
        Message::Outcome(told) => on_outcome(state, alloc, told),
        Message::Ask(ask) => on_ask(state, alloc, ask),
        Message::ReadAnswer(_) | Message::Done(_) => Err(Fault::Stranger),
    }
}

// Goes on with the oldest wait that would be granted now.
fn plan_resume(state: &State, alloc: Global, now: &Reading) -> Result<Step, Fault>
    ensures planned { IsPlanned state.now
        (plan_cell (start_of state.now) (resume_cell (start_of state.now) now.now.earliest
        (ready (claims state.now.memory.rows)))) result }
    ensures fit { IfOk result (IsFit state.now) }
{
    match state.ready() {
        Some(txn) => resume_of(state, alloc, now, txn),
        None => Ok(state.idles(alloc)),
    }
}

// Goes on with the request with which a transaction waits: a prepare takes this reading, a commit the one at its arrival.
#[tactic(auto, unfolding(protocol::specs::Cells::plan_granted))]
fn resume_of(state: &State, alloc: Global, now: &Reading, txn: TxnId) -> Result<Step, Fault>
    requires { Asks state.now.memory.rows txn [] (needs_in state.now.memory.rows txn) true }
    ensures planned { IsPlanned state.now
        (plan_cell (start_of state.now) (go_on_cell now.now.earliest txn (standing_in state.now txn)))
        result }
    ensures fit { IfOk result (IsFit state.now) }
{
    match state.standing(txn) {
        Standing::WaitsRead(key) => resume_read(state, alloc, txn, key),
        Standing::WaitsPrepare(request) => resume_prepare(state, alloc, now, txn, request),
        Standing::WaitsCommit(request) => resume_commit(state, alloc, txn, request),
        Standing::Retired
        | Standing::Unknown
        | Standing::Ended
        | Standing::Idle
        | Standing::Collecting(_)
        | Standing::Prepared(_)
        | Standing::Decided(_)
        | Standing::Aborted
        | Standing::Settled(_)
        | Standing::Closed { .. } => Ok(state.idles(alloc)),
    }
}

// Serves reads up to a time that has come, else `Future`. A ceiling is logged first, if the log's greatest timestamp is below the time.
#[tactic(auto, unfolding(protocol::specs::Cells::plan_advance))]
fn plan_advance(state: &State, alloc: Global, now: &Reading, to: Stamp) -> Result<Step, Fault>
    ensures planned { IsPlanned state.now
        (plan_advance (start_of state.now) now.now.latest state.now.setup.stride to) result }
    ensures fit { IfOk result (IsFit state.now) }
{
    if now.before(to) {
        return Err(Fault::Future);
    }
    let ceiling = needed(state.floor(), to, state.setup().stride);
    Ok(state.serves(alloc, ceiling, state.last().later(to)))
}

// Raises the horizon to a time that is served, else `NotYet`. A horizon never falls.
#[tactic(auto, unfolding(protocol::specs::Cells::plan_forget))]
fn plan_forget(state: &State, alloc: Global, at: Stamp) -> Result<Step, Fault>
    ensures planned { IsPlanned state.now (plan_forget (start_of state.now) at) result }
    ensures fit { IfOk result (IsFit state.now) }
{
    if state.safe() < at {
        return Err(Fault::NotYet);
    }
    if at <= state.horizon() {
        return Ok(state.idles(alloc));
    }
    Ok(state.serves(alloc, Some(Record::Horizon { at }), state.last()))
}

// Retires all ids below one, unless that is done already. `NotYet` while one of them has a row.
#[tactic(auto, unfolding(protocol::specs::Cells::plan_retire))]
fn plan_retire(state: &State, alloc: Global, below: TxnId) -> Result<Step, Fault>
    ensures planned { IsPlanned state.now (plan_retire (start_of state.now) below) result }
    ensures fit { IfOk result (IsFit state.now) }
{
    if state.has_row_below(below) {
        return Err(Fault::NotYet);
    }
    if !state.rises(below) {
        return Ok(state.idles(alloc));
    }
    Ok(state.retires(alloc, below))
}
