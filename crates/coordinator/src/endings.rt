//! How a coordinator ends a transaction: a participant asks for its outcome, or it is settled.
ghost use Rattle.std.specs.Prelude.{◌≡◌, true, IfOk, IfErr};
ghost use Rattle.protocol.specs.Outputs.{outcome_to};
ghost use Rattle.memory.specs.CodeRows.{may_close};
ghost use Rattle.memory.specs.RowTable.{has_phase};
ghost use Rattle.memory.specs.Carry.{IsFit, may_drop};
ghost use Rattle.memory.specs.Standings.{standing_in, MakesReply};
ghost use Rattle.coordinator.specs.ByMessage.{PlansAsk, PlansSettle, MakesAbortFor, MakesSettled};

use crate::parts::is_of_part;
use memory::{Standing, State, Step, done_to, outcome_to};
use message::{Ask, Done, Envelope, Outcome};
use record::Record;
use std::alloc::Global;
use truetime::{Reading, Waited, pass};
use units::{Fault, Parts, Stamp, TxnId};

/// Plans the answer to a participant that asks how a transaction ended. One that is unknown, ended or only reads is aborted first;
/// for one that still commits there is no answer yet. `Stranger` if this shard does not decide it, or the asker took no part in it.
pub fn on_ask(state: &State, alloc: Global, ask: &Ask) -> Result<Step, Fault>
    ensures planned { PlansAsk state.now ask.now (standing_in state.now ask.now.txn) result }
    ensures fit { IfOk result (IsFit state.now) }
{
    match state.standing(ask.txn) {
        Standing::Unknown | Standing::Ended | Standing::Idle | Standing::WaitsRead(_) => {
            abort_for(state, alloc, ask)
        }
        Standing::Aborted => answer(state, alloc, ask, None),
        Standing::Settled(settled) => {
            if !is_of_part(state, settled.parts(), ask.from) {
                return Err(Fault::Stranger);
            }
            answer(state, alloc, ask, Some(settled.at()))
        }
        Standing::WaitsCommit(_) | Standing::Collecting(_) | Standing::Decided(_) => {
            Ok(state.idles(alloc))
        }
        Standing::Retired
        | Standing::WaitsPrepare(_)
        | Standing::Prepared(_)
        | Standing::Closed { .. } => Err(Fault::Stranger),
    }
}

// The outcome, to the shard that asked.
fn told(state: &State, ask: &Ask, outcome: Option<Stamp>) -> Envelope
    ensures { result ≡ outcome_to state.now.setup.shard ask.now.txn outcome ask.now.from }
{
    let told = Outcome {
        from: state.setup().shard,
        txn: ask.txn,
        outcome,
    };
    outcome_to(&told, ask.from)
}

// Tells the outcome to the shard that asked.
fn answer(state: &State, alloc: Global, ask: &Ask, outcome: Option<Stamp>) -> Result<Step, Fault>
    ensures plan { MakesReply state.now
        (outcome_to state.now.setup.shard ask.now.txn outcome ask.now.from) result }
    ensures fit { IfOk result (IsFit state.now) }
    ensures memory { IfErr result (λ fault. fault ≡ Fault.Memory) }
{
    state.reply(alloc, told(state, ask, outcome))
}

// Aborts the transaction, and tells the shard that asked.
fn abort_for(state: &State, alloc: Global, ask: &Ask) -> Result<Step, Fault>
    requires { may_drop state.now.memory.rows ask.now.txn ≡ true }
    ensures plan { MakesAbortFor state.now ask.now result }
    ensures fit { IfOk result (IsFit state.now) }
    ensures memory { IfErr result (λ fault. fault ≡ Fault.Memory) }
{
    let Ok(mut out) = Vec::with_capacity(alloc, 1) else {
        return Err(Fault::Memory);
    };
    out.push_reserved(told(state, ask, None));
    let abort = Record::Abort { txn: ask.txn };
    Ok(state.drops(alloc, ask.txn, abort, state.last(), out))
}

/// Plans the end of a decided transaction, after commit wait: it logs the outcome, and tells the session and the other parts.
/// `Early` while its timestamp may not have passed: try again later. `Stranger` if it is not decided here, or settled already.
pub fn settle(state: &State, alloc: Global, now: &Reading, txn: TxnId) -> Result<Step, Fault>
    ensures planned { PlansSettle state.now now.now.earliest txn (standing_in state.now txn)
        result }
    ensures fit { IfOk result (IsFit state.now) }
{
    match state.standing(txn) {
        Standing::Decided(decided) => {
            let Ok(waited) = pass(decided.at(), now) else {
                return Err(Fault::Early);
            };
            settle_at(state, alloc, txn, waited, decided.parts())
        }
        Standing::Retired
        | Standing::Unknown
        | Standing::Ended
        | Standing::Idle
        | Standing::WaitsRead(_)
        | Standing::WaitsPrepare(_)
        | Standing::WaitsCommit(_)
        | Standing::Collecting(_)
        | Standing::Prepared(_)
        | Standing::Aborted
        | Standing::Settled(_)
        | Standing::Closed { .. } => Err(Fault::Stranger),
    }
}

// Ends the row, and tells the session and the other parts of the commit.
fn settle_at(
    state: &State,
    alloc: Global,
    txn: TxnId,
    waited: Waited,
    parts: Parts,
) -> Result<Step, Fault>
    requires { has_phase may_close state.now.memory.rows txn ≡ true }
    ensures plan { MakesSettled state.now txn waited parts result }
    ensures fit { IfOk result (IsFit state.now) }
    ensures memory { IfErr result (λ fault. fault ≡ Fault.Memory) }
{
    let at = waited.at();
    let end = done_to(Done::committed(txn, waited));
    let Ok(out) = state.ending(alloc, end, txn, Some(at), parts) else {
        return Err(Fault::Memory);
    };
    let outcome = Record::Outcome {
        txn,
        outcome: Some(at),
    };
    Ok(state.drops(alloc, txn, outcome, state.last(), out))
}
