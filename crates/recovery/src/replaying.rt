//! One record of a log, carried out again.
ghost use Rattle.std.specs.Prelude.{◌≡◌, true, Some, None, OnOk, IfOk, IfErr};
ghost use Rattle.record.specs.Facts.{learn, or_floor};
ghost use Rattle.facts.specs.Rules.{follows_facts};
ghost use Rattle.facts.specs.Stages.{follows_head, follows_next, stage_after};
ghost use Rattle.protocol.specs.Rows.{rebuilt, find_row};
ghost use Rattle.protocol.specs.Plan.{carried};
ghost use Rattle.memory.specs.Carry.{IsFit};
ghost use Rattle.memory.specs.Plans.{plan_of};
ghost use Rattle.protocol.specs.Beside.{fits_facts, stands_in};
ghost use Rattle.recovery.specs.Recovered.{IsRecovered};

use gatelog::Noted;
use memory::{Change, Plan, State, ready_plans_can_be_carried, shared_and_exclusive};
use record::Record;
use std::alloc::Global;
use units::{Fault, Keys, Stamp, TxnId, Writes};

/// Tells whether the record fits beside what stands. Its row has room, nobody conflicts with its locks, and its timestamp is above the
/// horizon and its keys' versions. A horizon must not lie above the safe time, and no retired id has a row. `Memory` if memory runs out.
pub fn fits_beside(state: &State, alloc: Global, item: &Record) -> Result<bool, Fault>
    requires recovered { IsRecovered state.now }
    requires follows { follows_next
        state.now.setup.shard state.now.stage state.now.facts item.now ≡ true }
    ensures fits { IfOk result (λ fits. fits ≡ fits_facts state.now.facts item.now) }
    ensures memory { IfErr result (λ fault. fault ≡ Fault.Memory) }
{
    match item {
        Record::Prepare(p) => stands_beside(state, alloc, p.txn, p.at, &p.reads, &p.writes),
        Record::Commit(c) => stands_beside(state, alloc, c.txn, c.at, &c.reads, &c.writes),
        Record::Outcome {
            txn,
            outcome: Some(at),
        } => Ok(state.takes_standing(*txn, *at)),
        Record::Horizon { at } => Ok(*at <= state.safe()),
        Record::Retired { below } => Ok(!state.has_row_below(*below)),
        _ => Ok(true),
    }
}

/// Changes the state as the record did when it was logged. `Memory` is its only refusal.
pub fn replay(state: &mut State, alloc: Global, logged: Noted) -> Result<(), Fault>
    requires recovered { IsRecovered state.old }
    requires follows { follows_facts state.old.setup.shard state.old.facts logged ≡ true }
    requires fits { fits_facts state.old.facts logged ≡ true }
    ensures setup { state.new.setup ≡ state.old.setup }
    ensures ok { OnOk result ((state.new.facts ≡ learn state.old.facts logged)
        × (state.new.stage ≡ stage_after state.old.stage logged) × IsRecovered state.new) }
    ensures memory { IfErr result (λ fault. fault ≡ Fault.Memory) }
{
    ready_plans_can_be_carried();
    state.laws();
    let plan = match plan_again(state, alloc, logged.item()) {
        Ok(plan) => plan,
        Err(fault) => {
            drop(logged.spend());
            return Err(fault);
        }
    };
    match state.make_ready(alloc, &plan) {
        Ok(_) => {
            state.carry(plan, Some(logged));
            Ok(())
        }
        Err(fault) => {
            drop(plan);
            drop(logged.spend());
            Err(fault)
        }
    }
}

/// Changes the state by a record of a renewed log's head. `Memory` is its only refusal.
pub fn keep(state: &mut State, logged: Noted) -> Result<(), Fault>
    requires recovered { IsRecovered state.old }
    requires follows { follows_head
        state.old.setup.shard state.old.stage state.old.facts logged ≡ true }
    ensures setup { state.new.setup ≡ state.old.setup }
    ensures ok { OnOk result ((state.new.facts ≡ learn state.old.facts logged)
        × (state.new.stage ≡ stage_after state.old.stage logged) × IsRecovered state.new) }
    ensures memory { IfErr result (λ fault. fault ≡ Fault.Memory) }
{
    state.keep(logged)
}

// The plan of the step that logged the record.
#[tactic(auto, unfolding(facts::specs::Rules::follows_facts))]
fn plan_again(state: &State, alloc: Global, item: &Record) -> Result<Plan, Fault>
    requires recovered { IsRecovered state.now }
    requires follows { follows_facts state.now.setup.shard state.now.facts item.now ≡ true }
    requires fits { fits_facts state.now.facts item.now ≡ true }
    ensures fit { IfOk result
        (λ plan. IsFit state.now (record { plan = plan; logged = Some item.now })) }
    ensures memory_after { IfOk result
        (λ plan. carried
        (plan_of state.now.memory.rows (record { plan = plan; logged = Some item.now }))
        state.now.memory ≡ rebuilt (learn state.now.facts item.now)) }
    ensures memory { IfErr result (λ fault. fault ≡ Fault.Memory) }
{
    let last = state.last();
    match item {
        Record::Opened { .. } => Ok(Plan::quiet(alloc, Vec::new(alloc), Change::Keeps, last)),
        Record::Ceiling { at } => {
            let last = last.later(*at);
            Ok(Plan::quiet(alloc, Vec::new(alloc), Change::Keeps, last))
        }
        Record::Abort { txn } => {
            Ok(Plan::quiet(alloc, Vec::new(alloc), Change::Drops(*txn), last))
        }
        Record::Outcome { txn, outcome } => {
            let last = raised_by(last, *outcome);
            Ok(Plan::quiet(alloc, Vec::new(alloc), Change::Drops(*txn), last))
        }
        Record::Prepare(p) => {
            let needs = shared_and_exclusive(alloc, &p.reads, &p.writes)?;
            Ok(Plan::quiet(alloc, needs, Change::Stands(p.txn), last.later(p.at)))
        }
        Record::Commit(c) => {
            let needs = shared_and_exclusive(alloc, &c.reads, &c.writes)?;
            Ok(Plan::quiet(alloc, needs, Change::Stands(c.txn), last.later(c.at)))
        }
        Record::Horizon { .. } => Ok(Plan::quiet(alloc, Vec::new(alloc), Change::Keeps, last)),
        Record::Retired { below } => {
            Ok(Plan::quiet(alloc, Vec::new(alloc), Change::Retires(*below), last))
        }
        Record::Base { .. } | Record::Version(_) => unreachable!(),
        Record::Settled { .. } | Record::Closed { .. } => unreachable!(),
    }
}

// The later of a timestamp and that of an outcome.
fn raised_by(last: Stamp, outcome: Option<Stamp>) -> Stamp
    ensures { result ≡ or_floor last outcome }
{
    match outcome {
        Some(at) => last.later(at),
        None => last,
    }
}

// Whether a promise or a decision of a transaction without a row fits beside the rows.
fn stands_beside(
    state: &State,
    alloc: Global,
    txn: TxnId,
    at: Stamp,
    reads: &Keys,
    writes: &Writes,
) -> Result<bool, Fault>
    requires recovered { IsRecovered state.now }
    requires absent { find_row state.now.memory.rows txn ≡ None }
    ensures stands { IfOk result
        (λ stands. stands ≡ stands_in state.now.facts at reads.now writes.now) }
    ensures memory { IfErr result (λ fault. fault ≡ Fault.Memory) }
{
    let needs = shared_and_exclusive(alloc, reads, writes)?;
    let is_crowded = state.is_crowded(txn);
    let is_free = state.opens(txn, &needs);
    let is_late = state.horizon() < at;
    let is_above = state.takes(writes, at);
    Ok(!is_crowded && is_free && is_late && is_above)
}
