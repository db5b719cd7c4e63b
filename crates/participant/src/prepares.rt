//! What a participant does with a prepare.
ghost use Rattle.std.specs.Prelude.{◌≡◌, ℕ, true, false, ◌+◌, ◌<◌, ◌≤◌, ◌^◌, max, IfOk, IfErr, MatchResult, [], ◌∷◌, Some, None, Ok, Err};
ghost use Rattle.units.specs.Locks.{exclusive};
ghost use Rattle.protocol.specs.Rows.{held_in, WaitsPrepare};
ghost use Rattle.protocol.specs.Outputs.{vote_to};
ghost use Rattle.protocol.specs.Plan.{in_way, ends, puts};
ghost use Rattle.protocol.specs.Cells.{plan_prepare_fresh, refuses};
ghost use Rattle.memory.specs.Carry.{Asks, IsFit, may_ask, may_end};
ghost use Rattle.memory.specs.Kept.{start_of, IsPlanned};
ghost use Rattle.memory.specs.Standings.{standing_in, opens_writes, EndsNobody, MakesPlan, MakesReply};
ghost use Rattle.participant.specs.ByMessage.{PlansPrepare, PlansPrepareNow, PlansPromise, MakesPromise};

use memory::{Change, PrepareRequest, Request, Standing, State, Step, Wait, reads_stand, vote_to};
use message::Prepare;
use record::{Prepared, Record};
use std::alloc::Global;
use truetime::Reading;
use units::{Fault, ShardNo, Stamp, TxnId};

/// Plans what follows from a prepare. If the reads still stand and the locks for the writes are granted, it logs a promise and votes
/// yes. The timestamp is above all that was served. If the reads do not stand it votes no, and if a lock is not granted it waits.
/// `RowsFull` if there is no room for the row, `TimeSpent` if no timestamp is left, and `Stranger` if this shard decides it.
pub fn on_prepare(
    state: &State,
    alloc: Global,
    now: &Reading,
    prepare: &Prepare,
) -> Result<Step, Fault>
    ensures planned { PlansPrepare state.now now.now.earliest prepare.now
        (standing_in state.now prepare.now.txn) result }
    ensures fit { IfOk result (IsFit state.now) }
{
    match state.standing(prepare.txn) {
        Standing::Unknown | Standing::Idle | Standing::WaitsRead(_) => {
            prepare_fresh(state, alloc, now, prepare)
        }
        Standing::WaitsPrepare(_) => Ok(state.idles(alloc)),
        Standing::Ended => vote(state, alloc, prepare, None),
        Standing::Prepared(prepared) => vote(state, alloc, prepare, Some(prepared.at())),
        Standing::Closed { outcome: None } => vote(state, alloc, prepare, None),
        Standing::Closed { outcome: Some(_) } => Ok(state.idles(alloc)),
        Standing::Retired
        | Standing::WaitsCommit(_)
        | Standing::Collecting(_)
        | Standing::Decided(_)
        | Standing::Aborted
        | Standing::Settled(_) => Err(Fault::Stranger),
    }
}

// Votes, to the coordinator that the prepare names.
fn vote(state: &State, alloc: Global, prepare: &Prepare, vote: Option<Stamp>) -> Result<Step, Fault>
    ensures plan { MakesReply state.now
        (vote_to state.now.setup.shard prepare.now.coordinator prepare.now.txn vote) result }
    ensures fit { IfOk result (IsFit state.now) }
    ensures memory { IfErr result (λ fault. fault ≡ Fault.Memory) }
{
    let envelope = vote_to(state.setup().shard, prepare.coordinator, prepare.txn, vote);
    state.reply(alloc, envelope)
}

// Ends the transaction and votes no if its reads do not stand any more. Else it promises if the exclusive locks for the writes are
// granted, or waits for them.
fn prepare_fresh(
    state: &State,
    alloc: Global,
    now: &Reading,
    prepare: &Prepare,
) -> Result<Step, Fault>
    requires { may_end state.now.memory.rows prepare.now.txn ≡ true }
    ensures planned { IsPlanned state.now
        (plan_prepare_fresh (start_of state.now) now.now.earliest prepare.now
        (held_in state.now.memory.rows prepare.now.txn)) result }
    ensures fit { IfOk result (IsFit state.now) }
{
    if !reads_stand(state, prepare.txn, &prepare.reads) {
        return refuse(state, alloc, prepare.txn, prepare.coordinator);
    }
    let undisputed = state.is_undisputed(prepare.txn, &prepare.writes);
    if undisputed || state.opens_writes(prepare.txn, &prepare.writes) {
        promise_now(state, alloc, now, prepare, undisputed)
    } else {
        wait(state, alloc, prepare)
    }
}

// Ends the transaction and votes no.
pub(crate) fn refuse(
    state: &State,
    alloc: Global,
    txn: TxnId,
    coordinator: ShardNo,
) -> Result<Step, Fault>
    requires { may_end state.now.memory.rows txn ≡ true }
    ensures plan { MakesPlan state.now
        (ends (start_of state.now) txn (refuses (start_of state.now) txn coordinator ∷ [])) result }
    ensures fit { IfOk result (IsFit state.now) }
    ensures memory { IfErr result (λ fault. fault ≡ Fault.Memory) }
{
    let vote = vote_to(state.setup().shard, coordinator, txn, None);
    let Ok(mut out) = Vec::with_capacity(alloc, 1) else {
        return Err(Fault::Memory);
    };
    out.push_reserved(vote);
    Ok(state.ends(alloc, txn, out))
}

// Takes the locks and promises, if there is a timestamp and room for the row.
fn promise_now(
    state: &State,
    alloc: Global,
    now: &Reading,
    prepare: &Prepare,
    undisputed: bool,
) -> Result<Step, Fault>
    requires nobody { undisputed ≡ true → EndsNobody state.now prepare.now.txn prepare.now.writes }
    requires opens { opens_writes state.now prepare.now.txn prepare.now.writes ≡ true }
    requires ends { may_end state.now.memory.rows prepare.now.txn ≡ true }
    ensures planned { PlansPrepareNow state.now now.now.earliest prepare.now result }
    ensures fit { IfOk result (IsFit state.now) }
{
    let at = match promise_time(state, now) {
        Ok(at) => at,
        Err(_) => return Err(Fault::TimeSpent),
    };
    if state.is_crowded(prepare.txn) {
        return Err(Fault::RowsFull);
    }
    let Ok(request) = requested(alloc, prepare) else {
        return Err(Fault::Memory);
    };
    promise(state, alloc, prepare.txn, at, request, undisputed)
}

// Makes the transaction wait with its prepare, if there is room for the row. It ends those that the request wounds.
fn wait(state: &State, alloc: Global, prepare: &Prepare) -> Result<Step, Fault>
    requires opens { opens_writes state.now prepare.now.txn prepare.now.writes ≡ false }
    requires ends { may_end state.now.memory.rows prepare.now.txn ≡ true }
    ensures planned { (earliest : ℕ) → PlansPrepareNow state.now earliest prepare.now result }
    ensures fit { IfOk result (IsFit state.now) }
{
    if state.is_crowded(prepare.txn) {
        return Err(Fault::RowsFull);
    }
    let Ok(request) = requested(alloc, prepare) else {
        return Err(Fault::Memory);
    };
    wait_with(state, alloc, prepare.txn, request)
}

// The request of a prepare, in memory of its own.
fn requested(alloc: Global, prepare: &Prepare) -> Result<PrepareRequest, Fault>
    ensures request { IfOk result (λ request. request ≡ record {
      coordinator = prepare.now.coordinator;
      reads = prepare.now.reads.keys;
      writes = prepare.now.writes;
    }) }
    ensures memory { IfErr result (λ fault. fault ≡ Fault.Memory) }
{
    let (reads, writes) = (prepare.reads.keys(), &prepare.writes);
    PrepareRequest::copied(alloc, prepare.coordinator, reads, writes)
}

/// Plans the promise of a prepare that waited, now that its locks are granted. `TimeSpent` if no timestamp is left.
pub fn resume_prepare(
    state: &State,
    alloc: Global,
    now: &Reading,
    txn: TxnId,
    request: &PrepareRequest,
) -> Result<Step, Fault>
    requires { Asks state.now.memory.rows txn [] (exclusive request.now.writes) true }
    ensures planned { PlansPromise state.now now.now.earliest txn request.now result }
    ensures fit { IfOk result (IsFit state.now) }
{
    let at = match promise_time(state, now) {
        Ok(at) => at,
        Err(_) => return Err(Fault::TimeSpent),
    };
    let (reads, writes) = (&request.reads, &request.writes);
    let Ok(copy) = PrepareRequest::copied(alloc, request.coordinator, reads, writes) else {
        return Err(Fault::Memory);
    };
    promise(state, alloc, txn, at, copy, true)
}

// The timestamp of a promise: above all that was served, and not below the reading's earliest.
fn promise_time(state: &State, now: &Reading) -> Result<Stamp, Fault>
    ensures { MatchResult result
        (λ at. (at ≡ max (state.now.memory.last + 1) now.now.earliest) × (at < 2 ^ 62))
        (λ fault. (fault ≡ Fault.TimeSpent)
        × (2 ^ 62 ≤ max (state.now.memory.last + 1) now.now.earliest)) }
{
    let Ok(above) = Stamp::above(state.last()) else {
        return Err(Fault::TimeSpent);
    };
    Ok(above.later(now.earliest()))
}

// Takes the locks, at once or after a wait: it ends those that the request wounds, logs the promise, and votes yes.
fn promise(
    state: &State,
    alloc: Global,
    txn: TxnId,
    at: Stamp,
    request: PrepareRequest,
    undisputed: bool,
) -> Result<Step, Fault>
    requires nobody { undisputed ≡ true → EndsNobody state.now txn request.writes }
    requires asks { Asks state.now.memory.rows txn
        (in_way (start_of state.now) txn (exclusive request.writes)) (exclusive request.writes) true }
    ensures plan { MakesPromise state.now
        (in_way (start_of state.now) txn (exclusive request.writes)) txn at request result }
    ensures fit { IfOk result (IsFit state.now) }
    ensures memory { IfErr result (λ fault. fault ≡ Fault.Memory) }
{
    let Ok((wounded, needs)) = state.asks(alloc, txn, &request.writes, undisputed) else {
        drop(request);
        return Err(Fault::Memory);
    };
    let yes = vote_to(state.setup().shard, request.coordinator, txn, Some(at));
    let promise = Record::Prepare(Prepared {
        txn,
        coordinator: request.coordinator,
        at,
        reads: request.reads,
        writes: request.writes,
    });
    let stands = Request {
        wounded,
        needs,
        change: Change::Stands(txn),
    };
    let last = state.last().later(at);
    state.puts(alloc, stands, Some(promise), last, Some(yes))
}

// Waits for the locks: it ends those that the request wounds.
fn wait_with(
    state: &State,
    alloc: Global,
    txn: TxnId,
    request: PrepareRequest,
) -> Result<Step, Fault>
    requires opens { opens_writes state.now txn request.writes ≡ false }
    requires asks { may_ask state.now.memory.rows txn ≡ true }
    ensures plan { MakesPlan state.now
        (puts (start_of state.now) (in_way (start_of state.now) txn (exclusive request.writes)) txn []
        (WaitsPrepare request.coordinator request.reads request.writes) None state.now.memory.last [])
        result }
    ensures fit { IfOk result (IsFit state.now) }
    ensures memory { IfErr result (λ fault. fault ≡ Fault.Memory) }
{
    let Ok((wounded, needs)) = state.asks(alloc, txn, &request.writes, false) else {
        drop(request);
        return Err(Fault::Memory);
    };
    let waits = Request {
        wounded,
        needs,
        change: Change::Waits(txn, Wait::Prepare(request)),
    };
    state.puts(alloc, waits, None, state.last(), None)
}
