//! What a shard does when a client gives a transaction up.
ghost use Rattle.std.specs.Prelude.{IfOk};
ghost use Rattle.memory.specs.Carry.{IsFit};
ghost use Rattle.memory.specs.Standings.{standing_in, PlansGiveUp};

use crate::prepares::refuse;
use memory::{Standing, State, Step};
use message::GiveUp;
use std::alloc::Global;
use units::Fault;

/// Plans what follows when a client gives a transaction up. One that reads, waits or is unknown is ended, and a prepare with which it
/// waits gets a no vote. One that collects votes here is aborted, and each part is told. Any other goes on. `Stranger` if it is retired.
pub fn on_give_up(state: &State, alloc: Global, given: &GiveUp) -> Result<Step, Fault>
    ensures planned { PlansGiveUp state.now given.now.txn (standing_in state.now given.now.txn)
        result }
    ensures fit { IfOk result (IsFit state.now) }
{
    match state.standing(given.txn) {
        Standing::Unknown | Standing::Idle | Standing::WaitsRead(_) | Standing::WaitsCommit(_) =>
            Ok(state.ends(alloc, given.txn, Vec::new(alloc))),
        Standing::WaitsPrepare(request) => refuse(state, alloc, given.txn, request.coordinator),
        Standing::Collecting(collecting) => {
            state.aborts(alloc, given.txn, collecting.request().parts)
        }
        Standing::Prepared(_)
        | Standing::Decided(_)
        | Standing::Ended
        | Standing::Aborted
        | Standing::Settled(_)
        | Standing::Closed { .. } => Ok(state.idles(alloc)),
        Standing::Retired => Err(Fault::Stranger),
    }
}
