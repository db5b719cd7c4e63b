//! What a coordinator does with a commit.
ghost use Rattle.std.specs.Prelude.{◌≡◌, true, false, ◌<◌, ◌≤◌, ◌^◌, IfOk, IfErr, MatchResult, [], Some, None, Ok, Err};
ghost use Rattle.units.specs.Locks.{exclusive};
ghost use Rattle.protocol.specs.Rows.{held_in};
ghost use Rattle.protocol.specs.Outputs.{decision};
ghost use Rattle.protocol.specs.Plan.{in_way};
ghost use Rattle.protocol.specs.Cells.{commit_stamp, plan_commit_fresh};
ghost use Rattle.memory.specs.Carry.{Asks, IsFit, may_ask, may_drop, may_end};
ghost use Rattle.memory.specs.Kept.{start_of, IsPlanned};
ghost use Rattle.memory.specs.Standings.{standing_in, opens_writes, EndsNobody, MakesPlan};
ghost use Rattle.coordinator.specs.Granted.{request_of, waits_commit, IsDecidedAt, IsTooLate};
ghost use Rattle.coordinator.specs.ByMessage.{PlansCommit, PlansCommitNow, PlansGranted, MakesCollecting, MakesDecision, MakesGranted};

use memory::{
    Change, CommitRequest, Gathering, Request, Standing, State, Step, Wait, done_to, reads_stand,
};
use message::{Commit, Done};
use record::{Committed, Record};
use std::alloc::Global;
use truetime::Reading;
use units::{Fault, Ids, Lock, Parts, Stamp, TxnId};

/// Plans what follows from a commit. If the reads still stand and the locks for the writes are granted, it is decided at once, or it
/// collects votes if other shards take part. If the reads do not stand it is aborted; if a lock is not granted it waits.
/// `RowsFull` if there is no room for the row, `TimeSpent` if no timestamp is left, and `Stranger` if another shard decides it.
pub fn on_commit(
    state: &State,
    alloc: Global,
    now: &Reading,
    commit: &Commit,
) -> Result<Step, Fault>
    ensures planned { PlansCommit state.now now.now.latest commit.now
        (standing_in state.now commit.now.txn) result }
    ensures fit { IfOk result (IsFit state.now) }
{
    match state.standing(commit.txn) {
        Standing::Unknown | Standing::Idle | Standing::WaitsRead(_) => {
            commit_fresh(state, alloc, now, commit)
        }
        Standing::WaitsCommit(_) | Standing::Collecting(_) | Standing::Decided(_) => {
            Ok(state.idles(alloc))
        }
        Standing::Ended => state.aborts(alloc, commit.txn, commit.parts),
        Standing::Aborted => state.reply(alloc, done_to(Done::aborted(commit.txn))),
        Standing::Settled(settled) => state.reply(alloc, done_to(settled.done(commit.txn))),
        Standing::Retired
        | Standing::WaitsPrepare(_)
        | Standing::Prepared(_)
        | Standing::Closed { .. } => Err(Fault::Stranger),
    }
}

// Aborts the transaction if its reads do not stand any more. Else it takes the exclusive locks for the writes, or waits for them, as
// long as there is a timestamp above the reading.
fn commit_fresh(state: &State, alloc: Global, now: &Reading, commit: &Commit) -> Result<Step, Fault>
    requires ends { may_end state.now.memory.rows commit.now.txn ≡ true }
    requires drops { may_drop state.now.memory.rows commit.now.txn ≡ true }
    ensures planned { IsPlanned state.now
        (plan_commit_fresh (start_of state.now) now.now.latest commit.now
        (held_in state.now.memory.rows commit.now.txn)) result }
    ensures fit { IfOk result (IsFit state.now) }
{
    if !reads_stand(state, commit.txn, &commit.reads) {
        return state.aborts(alloc, commit.txn, commit.parts);
    }
    let Ok(_) = Stamp::above(now.latest()) else {
        return Err(Fault::TimeSpent);
    };
    let undisputed = state.is_undisputed(commit.txn, &commit.writes);
    if undisputed || state.opens_writes(commit.txn, &commit.writes) {
        grant_now(state, alloc, now, commit, undisputed)
    } else {
        wait(state, alloc, now, commit)
    }
}

// Takes the locks, if there is a timestamp and room for the row.
fn grant_now(
    state: &State,
    alloc: Global,
    now: &Reading,
    commit: &Commit,
    undisputed: bool,
) -> Result<Step, Fault>
    requires nobody { undisputed ≡ true → EndsNobody state.now commit.now.txn commit.now.writes }
    requires opens { opens_writes state.now commit.now.txn commit.now.writes ≡ true }
    requires ends { may_end state.now.memory.rows commit.now.txn ≡ true }
    ensures planned { PlansCommitNow state.now now.now.latest commit.now result }
    ensures fit { IfOk result (IsFit state.now) }
{
    let Ok(at) = decided_at(state, now.latest(), commit.parts) else {
        return Err(Fault::TimeSpent);
    };
    if state.is_crowded(commit.txn) {
        return Err(Fault::RowsFull);
    }
    let Ok(request) = requested(alloc, now, commit) else {
        return Err(Fault::Memory);
    };
    granted(state, alloc, commit.txn, at, request, undisputed)
}

// Makes the transaction wait with its commit, if there is room for the row. It ends those that the request wounds.
fn wait(state: &State, alloc: Global, now: &Reading, commit: &Commit) -> Result<Step, Fault>
    requires shut { opens_writes state.now commit.now.txn commit.now.writes ≡ false }
    requires ends { may_end state.now.memory.rows commit.now.txn ≡ true }
    ensures planned { PlansCommitNow state.now now.now.latest commit.now result }
    ensures fit { IfOk result (IsFit state.now) }
{
    if state.is_crowded(commit.txn) {
        return Err(Fault::RowsFull);
    }
    let Ok(request) = requested(alloc, now, commit) else {
        return Err(Fault::Memory);
    };
    wait_with(state, alloc, commit.txn, request)
}

// The request of a commit, in memory of its own.
fn requested(alloc: Global, now: &Reading, commit: &Commit) -> Result<CommitRequest, Fault>
    ensures request { IfOk result (λ request. request ≡ request_of now.now.latest commit.now) }
    ensures memory { IfErr result (λ fault. fault ≡ Fault.Memory) }
{
    let (reads, writes) = (commit.reads.keys(), &commit.writes);
    CommitRequest::copied(alloc, now.latest(), commit.parts, reads, writes)
}

/// Plans what follows from a commit that waited, now that its locks are granted. `TimeSpent` if no timestamp is left.
pub fn resume_commit(
    state: &State,
    alloc: Global,
    txn: TxnId,
    request: &CommitRequest,
) -> Result<Step, Fault>
    requires { Asks state.now.memory.rows txn [] (exclusive request.now.writes) true }
    ensures planned { PlansGranted state.now txn request.now result }
    ensures fit { IfOk result (IsFit state.now) }
{
    let (latest, parts) = (request.latest, request.parts);
    let Ok(at) = decided_at(state, latest, parts) else {
        return Err(Fault::TimeSpent);
    };
    let (reads, writes) = (&request.reads, &request.writes);
    let Ok(copy) = CommitRequest::copied(alloc, latest, parts, reads, writes) else {
        return Err(Fault::Memory);
    };
    granted(state, alloc, txn, at, copy, true)
}

// The timestamp of a commit whose locks are granted, or `None` if other shards have to vote first.
fn decided_at(state: &State, latest: Stamp, parts: Parts) -> Result<Option<Stamp>, Fault>
    ensures { MatchResult result (IsDecidedAt (start_of state.now) latest parts)
        (λ fault. (fault ≡ Fault.TimeSpent) × IsTooLate (start_of state.now) latest parts) }
{
    if parts.has_others(state.setup().shard) {
        return Ok(None);
    }
    match commit_time(state, latest) {
        Ok(at) => Ok(Some(at)),
        Err(_) => Err(Fault::TimeSpent),
    }
}

// Takes the locks, at once or after a wait: it ends those that the request wounds. Then it decides, or collects votes.
fn granted(
    state: &State,
    alloc: Global,
    txn: TxnId,
    at: Option<Stamp>,
    request: CommitRequest,
    undisputed: bool,
) -> Result<Step, Fault>
    requires nobody { undisputed ≡ true → EndsNobody state.now txn request.writes }
    requires asks { Asks state.now.memory.rows txn
        (in_way (start_of state.now) txn (exclusive request.writes)) (exclusive request.writes) true }
    ensures plan { MakesGranted state.now
        (in_way (start_of state.now) txn (exclusive request.writes)) txn at request result }
    ensures fit { IfOk result (IsFit state.now) }
    ensures memory { IfErr result (λ fault. fault ≡ Fault.Memory) }
{
    let Ok((wounded, needs)) = state.asks(alloc, txn, &request.writes, undisputed) else {
        drop(request);
        return Err(Fault::Memory);
    };
    match at {
        Some(at) => decide(state, alloc, wounded, needs, txn, at, request),
        None => collect(state, alloc, wounded, needs, txn, request),
    }
}

// The timestamp of a decision without votes: above the latest end of the reading at the commit's arrival, and all that was served.
pub(crate) fn commit_time(state: &State, latest: Stamp) -> Result<Stamp, Fault>
    ensures { MatchResult result
        (λ at. (at ≡ commit_stamp state.now.memory.last latest []) × (at < 2 ^ 62))
        (λ fault. (fault ≡ Fault.TimeSpent)
        × (2 ^ 62 ≤ commit_stamp state.now.memory.last latest [])) }
{
    Stamp::above(latest.later(state.last()))
}

// Takes the locks and logs the decision.
fn decide(
    state: &State,
    alloc: Global,
    wounded: Ids,
    needs: Vec<Lock>,
    txn: TxnId,
    at: Stamp,
    request: CommitRequest,
) -> Result<Step, Fault>
    requires { Asks state.now.memory.rows txn wounded needs.items true }
    ensures plan { MakesDecision state.now wounded txn needs.items at request result }
    ensures fit { IfOk result (IsFit state.now) }
    ensures memory { IfErr result (λ fault. fault ≡ Fault.Memory) }
{
    let asked = Request {
        wounded,
        needs,
        change: Change::Stands(txn),
    };
    let last = state.last().later(at);
    let decision = decision_of(txn, at, request);
    state.puts(alloc, asked, Some(decision), last, None)
}

// The record of a decision.
pub(crate) fn decision_of(txn: TxnId, at: Stamp, request: CommitRequest) -> Record
    ensures { result ≡ decision txn at request.parts request.reads request.writes }
{
    Record::Commit(Committed {
        txn,
        at,
        parts: request.parts,
        reads: request.reads,
        writes: request.writes,
    })
}

// Takes the locks and collects votes.
fn collect(
    state: &State,
    alloc: Global,
    wounded: Ids,
    needs: Vec<Lock>,
    txn: TxnId,
    request: CommitRequest,
) -> Result<Step, Fault>
    requires locks { needs.items ≡ exclusive request.writes }
    requires asks { Asks state.now.memory.rows txn wounded needs.items true }
    ensures plan { MakesCollecting state.now wounded txn request result }
    ensures fit { IfOk result (IsFit state.now) }
    ensures memory { IfErr result (λ fault. fault ≡ Fault.Memory) }
{
    let Ok(gathering) = Gathering::new(alloc, request) else {
        return Err(Fault::Memory);
    };
    let asked = Request {
        wounded,
        needs,
        change: Change::Collects(txn, gathering),
    };
    state.puts(alloc, asked, None, state.last(), None)
}

// Waits for the locks: it ends those that the request wounds.
fn wait_with(
    state: &State,
    alloc: Global,
    txn: TxnId,
    request: CommitRequest,
) -> Result<Step, Fault>
    requires shut { opens_writes state.now txn request.writes ≡ false }
    requires asks { may_ask state.now.memory.rows txn ≡ true }
    ensures plan { MakesPlan state.now (waits_commit (start_of state.now) txn request) result }
    ensures fit { IfOk result (IsFit state.now) }
    ensures memory { IfErr result (λ fault. fault ≡ Fault.Memory) }
{
    let Ok((wounded, needs)) = state.asks(alloc, txn, &request.writes, false) else {
        drop(request);
        return Err(Fault::Memory);
    };
    let waits = Request {
        wounded,
        needs,
        change: Change::Waits(txn, Wait::Commit(request)),
    };
    state.puts(alloc, waits, None, state.last(), None)
}
