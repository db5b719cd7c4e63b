//! What a participant does with a read.
ghost use Rattle.std.specs.Prelude.{◌≡◌, ℕ, true, IfOk, IfErr, [], ◌∷◌, None};
ghost use Rattle.message.specs.declared.message.Answer.TheVariants.{Refused};
ghost use Rattle.protocol.specs.Rows.{WaitsRead, held_in};
ghost use Rattle.protocol.specs.Outputs.{answer_to};
ghost use Rattle.protocol.specs.Cells.{plan_read_row, plan_asks, plan_granted, answers, to_read};
ghost use Rattle.memory.specs.Carry.{Asks, IsFit, may_end};
ghost use Rattle.memory.specs.Kept.{start_of, IsPlanned};
ghost use Rattle.memory.specs.Standings.{standing_in, MakesReply};
ghost use Rattle.participant.specs.ByMessage.{PlansRead, MakesGrantedRead};

use memory::{Change, Request, Standing, State, Step, Wait, answer_to};
use message::{Answer, Read};
use std::alloc::Global;
use units::{Fault, Ids, Key, Lock, Mode, TxnId};

/// Plans what follows from a read. It is answered once the transaction holds a shared lock of the key, at once or after a wait. A
/// transaction that has ended here is refused. `RowsFull` if there is no room for its row.
#[tactic(auto, unfolding(protocol::specs::Cells::plan_read_row))]
pub fn on_read(state: &State, alloc: Global, read: &Read) -> Result<Step, Fault>
    ensures planned { PlansRead state.now read.now (standing_in state.now read.now.txn) result }
    ensures fit { IfOk result (IsFit state.now) }
{
    match state.standing(read.txn) {
        Standing::Unknown => read_now(state, alloc, read.txn, &read.key),
        Standing::Idle => read_row(state, alloc, read.txn, &read.key, false),
        Standing::WaitsRead(_) | Standing::WaitsPrepare(_) | Standing::WaitsCommit(_) => {
            read_row(state, alloc, read.txn, &read.key, true)
        }
        Standing::Collecting(_) | Standing::Prepared(_) | Standing::Decided(_) => {
            Ok(state.idles(alloc))
        }
        Standing::Ended | Standing::Aborted | Standing::Settled(_) | Standing::Closed { .. } => {
            refuse(state, alloc, read.txn, &read.key)
        }
        Standing::Retired => Err(Fault::Stranger),
    }
}

// Answers a key that is held; a row that waits stays as it is.
fn read_row(state: &State, alloc: Global, txn: TxnId, key: &Key, waits: bool) -> Result<Step, Fault>
    requires { may_end state.now.memory.rows txn ≡ true }
    ensures planned { IsPlanned state.now
        (plan_read_row (start_of state.now) txn key.now (held_in state.now.memory.rows txn) waits)
        result }
    ensures fit { IfOk result (IsFit state.now) }
{
    if state.holds(txn, key) {
        return answer_held(state, alloc, txn, key);
    }
    if waits {
        return Ok(state.idles(alloc));
    }
    read_now(state, alloc, txn, key)
}

// Answers a key that is held.
fn answer_held(state: &State, alloc: Global, txn: TxnId, key: &Key) -> Result<Step, Fault>
    ensures plan { MakesReply state.now (answers (start_of state.now) txn key.now) result }
    ensures fit { IfOk result (IsFit state.now) }
    ensures memory { IfErr result (λ fault. fault ≡ Fault.Memory) }
{
    let Ok(answer) = state.answer(txn, key) else {
        return Err(Fault::Memory);
    };
    state.reply(alloc, answer)
}

// Takes a shared lock and answers, or waits for the lock, if there is room for the row.
fn read_now(state: &State, alloc: Global, txn: TxnId, key: &Key) -> Result<Step, Fault>
    requires { may_end state.now.memory.rows txn ≡ true }
    ensures planned { IsPlanned state.now (plan_asks (start_of state.now) 0 txn (WaitsRead key.now))
        result }
    ensures fit { IfOk result (IsFit state.now) }
{
    if state.is_crowded(txn) {
        return Err(Fault::RowsFull);
    }
    let Ok(needs) = shared(alloc, key) else {
        return Err(Fault::Memory);
    };
    let Ok(wounded) = state.in_way(alloc, txn, &needs) else {
        return Err(Fault::Memory);
    };
    if state.opens(txn, &needs) {
        return grant(state, alloc, wounded, needs, txn, key);
    }
    let request = Request {
        wounded,
        needs,
        change: Change::Waits(txn, Wait::Read(*key)),
    };
    state.puts(alloc, request, None, state.last(), None)
}

/// Plans the answer to a read that waited, now that its lock is granted. `Memory` if memory runs out.
pub fn resume_read(state: &State, alloc: Global, txn: TxnId, key: &Key) -> Result<Step, Fault>
    requires { Asks state.now.memory.rows txn [] (to_read key.now) true }
    ensures planned { (earliest : ℕ)
        → IsPlanned state.now
        (plan_granted (start_of state.now) [] earliest txn (WaitsRead key.now)) result }
    ensures fit { IfOk result (IsFit state.now) }
{
    let Ok(needs) = shared(alloc, key) else {
        return Err(Fault::Memory);
    };
    let nobody = Ids::from_vec(Vec::new(alloc));
    grant(state, alloc, nobody, needs, txn, key)
}

// Takes the lock and answers the read.
fn grant(
    state: &State,
    alloc: Global,
    wounded: Ids,
    needs: Vec<Lock>,
    txn: TxnId,
    key: &Key,
) -> Result<Step, Fault>
    requires needs { needs.items ≡ to_read key.now }
    requires asks { Asks state.now.memory.rows txn wounded (to_read key.now) true }
    ensures plan { MakesGrantedRead state.now wounded txn key.now result }
    ensures fit { IfOk result (IsFit state.now) }
    ensures memory { IfErr result (λ fault. fault ≡ Fault.Memory) }
{
    let Ok(answer) = state.answer(txn, key) else {
        return Err(Fault::Memory);
    };
    let request = Request {
        wounded,
        needs,
        change: Change::Reads(txn),
    };
    state.puts(alloc, request, None, state.last(), Some(answer))
}

// Refuses the read.
fn refuse(state: &State, alloc: Global, txn: TxnId, key: &Key) -> Result<Step, Fault>
    ensures plan { MakesReply state.now
        (answer_to state.now.setup.shard txn key.now state.now.facts.epoch Refused) result }
    ensures fit { IfOk result (IsFit state.now) }
    ensures memory { IfErr result (λ fault. fault ≡ Fault.Memory) }
{
    let answer = answer_to(
        state.setup().shard,
        txn,
        *key,
        state.epoch(),
        Answer::Refused,
    );
    state.reply(alloc, answer)
}

// A list of one shared lock of a key.
fn shared(alloc: Global, key: &Key) -> Result<Vec<Lock>, Fault>
    ensures lock { IfOk result (λ locks. locks.items ≡ to_read key.now) }
    ensures memory { IfErr result (λ fault. fault ≡ Fault.Memory) }
{
    let Ok(mut locks) = Vec::with_capacity(alloc, 1) else {
        return Err(Fault::Memory);
    };
    locks.push_reserved(Lock {
        key: *key,
        mode: Mode::Shared,
    });
    Ok(locks)
}
