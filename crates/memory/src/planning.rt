//! The plans that steps are made of. Each method makes a step and changes nothing.
ghost use Rattle.std.specs.Prelude.{◌≡◌, ◌≤◌, ◌++◌, ◌∷◌, [], true, Some, None, Ok, IfOk, IfErr, OnOk, map, option_to_list};
ghost use Rattle.protocol.specs.Rows.{find_row, held_in};
ghost use Rattle.protocol.specs.Outputs.{outcome_to, refused_vote};
ghost use Rattle.protocol.specs.Plan.{Keeps, replies, ends, drops, retires, votes_of};
ghost use Rattle.protocol.specs.Cells.{other_parts, answers, tells, plan_abort, still_stand};
ghost use Rattle.memory.specs.Carry.{FitsRows, IsFit, IsServing, MayDrop, may_drop, may_end};
ghost use Rattle.memory.specs.Kept.{start_of};
ghost use Rattle.memory.specs.Plans.{change_of, plan_of, refusal};
ghost use Rattle.memory.specs.Standings.{MakesPlan, MakesReply};

use crate::envelopes::{answer_to, done_to, outcome_to, vote_to};
use crate::plan::{Change, Plan, Request, Step};
use crate::state::State;
use message::{Answer, Done, Envelope, Outbox, Outcome, Reads};
use record::Record;
use rows::{Row, Wait};
use std::alloc::Global;
use units::{Fault, Ids, Key, Parts, ShardNo, Stamp, TxnId};

/// Tells whether the reads of a transaction still stand: there are none, or their epoch is the present one and all keys are held.
pub fn reads_stand(state: &State, txn: TxnId, reads: &Reads) -> bool
    ensures { result ≡
        still_stand (start_of state.now) reads.now.epoch reads.now.keys
        (held_in state.now.memory.rows txn) }
{
    if reads.keys().as_slice().is_empty() {
        return true;
    }
    reads.epoch() == state.epoch().number() && state.holds_all(txn, reads.keys())
}

impl State {
    /// Makes a step that only puts out messages.
    pub fn replies(&self, alloc: Global, out: Vec<Envelope>) -> Step
        ensures plan { plan_of self.now.memory.rows result ≡ replies (start_of self.now) out.items }
        ensures fit { IsFit self.now result }
    {
        Step {
            plan: Plan {
                wounded: Ids::from_vec(Vec::new(alloc)),
                needs: Vec::new(alloc),
                change: Change::Keeps,
                last: self.last(),
                outbox: Outbox::from_vec(out),
            },
            logged: None,
        }
    }

    /// Makes a step that does nothing.
    pub fn idles(&self, alloc: Global) -> Step
        ensures plan { plan_of self.now.memory.rows result ≡ replies (start_of self.now) [] }
        ensures fit { IsFit self.now result }
    {
        self.replies(alloc, Vec::new(alloc))
    }

    /// Makes a step that only puts out this message. `Memory` if memory runs out.
    pub fn reply(&self, alloc: Global, envelope: Envelope) -> Result<Step, Fault>
        ensures plan { MakesReply self.now envelope result }
        ensures fit { IfOk result (IsFit self.now) }
        ensures memory { IfErr result (λ fault. fault ≡ Fault.Memory) }
    {
        let Ok(out) = one(alloc, envelope) else {
            return Err(Fault::Memory);
        };
        Ok(self.replies(alloc, out))
    }

    /// Makes a step that ends the transaction.
    pub fn ends(&self, alloc: Global, txn: TxnId, out: Vec<Envelope>) -> Step
        requires { may_end self.now.memory.rows txn ≡ true }
        ensures plan { plan_of self.now.memory.rows result ≡
            ends (start_of self.now) txn out.items }
        ensures fit { IsFit self.now result }
    {
        Step {
            plan: Plan {
                wounded: Ids::from_vec(Vec::new(alloc)),
                needs: Vec::new(alloc),
                change: Change::Ends(txn),
                last: self.last(),
                outbox: Outbox::from_vec(out),
            },
            logged: None,
        }
    }

    /// Makes a step that ends the row by a record.
    pub fn drops(
        &self,
        alloc: Global,
        txn: TxnId,
        item: Record,
        last: Stamp,
        out: Vec<Envelope>,
    ) -> Step
        requires drops { MayDrop self.now.memory.rows txn (Some item) }
        requires last { self.now.memory.last ≤ last }
        ensures plan { plan_of self.now.memory.rows result ≡ drops txn item last out.items }
        ensures fit { IsFit self.now result }
    {
        Step {
            plan: Plan {
                wounded: Ids::from_vec(Vec::new(alloc)),
                needs: Vec::new(alloc),
                change: Change::Drops(txn),
                last,
                outbox: Outbox::from_vec(out),
            },
            logged: Some(item),
        }
    }

    /// Makes a step that raises the served time, or keeps it. A ceiling or a horizon is logged, if one is given.
    pub fn serves(&self, alloc: Global, ceiling: Option<Record>, last: Stamp) -> Step
        requires ceiling { IsServing ceiling }
        requires last { self.now.memory.last ≤ last }
        ensures plan { plan_of self.now.memory.rows result ≡
            record { wounded = []; change = Keeps; logged = ceiling; last = last; outbox = [] } }
        ensures fit { IsFit self.now result }
    {
        Step {
            plan: Plan::quiet(alloc, Vec::new(alloc), Change::Keeps, last),
            logged: ceiling,
        }
    }

    /// Makes a step that retires all ids below one, by a record of that.
    pub fn retires(&self, alloc: Global, below: TxnId) -> Step
        ensures plan { plan_of self.now.memory.rows result ≡ retires below self.now.memory.last }
        ensures fit { IsFit self.now result }
    {
        Step {
            plan: Plan::quiet(alloc, Vec::new(alloc), Change::Retires(below), self.last()),
            logged: Some(Record::Retired { below }),
        }
    }

    /// Makes a step that logs an abort, and tells it to the session and to the other parts. `Memory` if memory runs out.
    #[tactic(auto, unfolding(protocol::specs::Cells::plan_abort))]
    pub fn aborts(&self, alloc: Global, txn: TxnId, parts: Parts) -> Result<Step, Fault>
        requires { may_drop self.now.memory.rows txn ≡ true }
        ensures plan { MakesPlan self.now (plan_abort (start_of self.now) txn parts) result }
        ensures fit { IfOk result (IsFit self.now) }
        ensures memory { IfErr result (λ fault. fault ≡ Fault.Memory) }
    {
        let Ok(out) = self.ending(alloc, done_to(Done::aborted(txn)), txn, None, parts) else {
            return Err(Fault::Memory);
        };
        Ok(self.drops(alloc, txn, Record::Abort { txn }, self.last(), out))
    }

    /// Makes a list of a first message and of the outcome to each other part. `Memory` if memory runs out.
    pub fn ending(
        &self,
        alloc: Global,
        first: Envelope,
        txn: TxnId,
        outcome: Option<Stamp>,
        parts: Parts,
    ) -> Result<Vec<Envelope>, Fault>
        ensures out { IfOk result
            (λ out. out.items ≡ first ∷ tells (start_of self.now) txn outcome
            (other_parts self.now.setup.shard parts)) }
        ensures memory { IfErr result (λ fault. fault ≡ Fault.Memory) }
    {
        let from = self.setup().shard;
        let Ok(mut out) = one(alloc, first) else {
            return Err(Fault::Memory);
        };
        match tell_others(&mut out, alloc, &Outcome { from, txn, outcome }, parts) {
            Ok(()) => Ok(out),
            Err(fault) => {
                drop(out);
                Err(fault)
            }
        }
    }

    /// Makes a step that ends the wounded transactions and changes the row. Those that wait with a prepare vote no. `Memory` if memory
    /// runs out.
    pub fn puts(
        &self,
        alloc: Global,
        request: Request,
        logged: Option<Record>,
        last: Stamp,
        reply: Option<Envelope>,
    ) -> Result<Step, Fault>
        requires fits { FitsRows self.now.memory.rows request.wounded
            request.needs.items logged request.change }
        requires last { self.now.memory.last ≤ last }
        ensures plan { MakesPlan self.now (record {
          wounded = request.wounded;
          change = change_of self.now.memory.rows request.needs.items logged request.change;
          logged = logged;
          last = last;
          outbox = votes_of self.now.setup.shard self.now.memory.rows request.wounded
              ++ option_to_list reply;
        }) result }
        ensures fit { IfOk result (IsFit self.now) }
        ensures memory { IfErr result (λ fault. fault ≡ Fault.Memory) }
    {
        match self.votes_and(alloc, &request.wounded, reply) {
            Ok(outbox) => {
                let Request {
                    wounded,
                    needs,
                    change,
                } = request;
                let plan = Plan {
                    wounded,
                    needs,
                    change,
                    last,
                    outbox,
                };
                Ok(Step { plan, logged })
            }
            Err(fault) => {
                drop(request);
                drop(logged);
                Err(fault)
            }
        }
    }

    // The no votes of those that are ended while they wait with a prepare, and then the reply.
    fn votes_and(
        &self,
        alloc: Global,
        wounded: &Ids,
        reply: Option<Envelope>,
    ) -> Result<Outbox, Fault>
        ensures votes { IfOk result (λ out. out ≡ votes_of self.now.setup.shard
            self.now.memory.rows wounded.now ++ option_to_list reply) }
        ensures memory { IfErr result (λ fault. fault ≡ Fault.Memory) }
    {
        let mut out = match self.votes_of(alloc, wounded) {
            Ok(out) => out,
            Err(fault) => {
                drop(reply);
                return Err(fault);
            }
        };
        if let Some(reply) = reply {
            out.push(reply)?;
        }
        Ok(Outbox::from_vec(out))
    }

    // The no votes of those that are ended while they wait with a prepare.
    fn votes_of(&self, alloc: Global, wounded: &Ids) -> Result<Vec<Envelope>, Fault>
        ensures votes { IfOk result
            (λ out. out.items ≡ votes_of self.now.setup.shard self.now.memory.rows wounded.now) }
        ensures memory { IfErr result (λ fault. fault ≡ Fault.Memory) }
    {
        let mut out = Vec::new(alloc);
        for txn in wounded.as_slice() {
            if let Some(coordinator) = self.awaits_vote(*txn) {
                out.push(vote_to(self.setup().shard, coordinator, *txn, None))?;
            }
        }
        Ok(out)
    }

    // The coordinator of the prepare with which a transaction waits.
    fn awaits_vote(&self, txn: TxnId) -> Option<ShardNo>
        ensures { refused_vote self.now.setup.shard (find_row self.now.memory.rows txn) ≡
            refusal self.now.setup.shard txn result }
    {
        match self.row(txn) {
            Some(Row::Reading(reading)) => match reading.wait() {
                Some(Wait::Prepare(request)) => Some(request.coordinator),
                Some(Wait::Read(_) | Wait::Commit(_)) | None => None,
            },
            Some(Row::Collecting(_) | Row::Prepared(_) | Row::Decided(_)) | None => None,
        }
    }

    /// Makes the answer to a read: the newest value, with the epoch. `Memory` if memory runs out.
    pub fn answer(&self, txn: TxnId, key: &Key) -> Result<Envelope, Fault>
        ensures answer { IfOk result
            (λ envelope. envelope ≡ answers (start_of self.now) txn key.now) }
        ensures memory { IfErr result (λ fault. fault ≡ Fault.Memory) }
    {
        let value = match self.latest(key) {
            Some(value) => Some(value.copy()?),
            None => None,
        };
        Ok(answer_to(
            self.setup().shard,
            txn,
            *key,
            self.epoch(),
            Answer::Holds(value),
        ))
    }
}

// A list of this message alone.
fn one(alloc: Global, envelope: Envelope) -> Result<Vec<Envelope>, Fault>
    ensures one { IfOk result (λ out. out.items ≡ envelope ∷ []) }
    ensures memory { IfErr result (λ fault. fault ≡ Fault.Memory) }
{
    match Vec::with_capacity(alloc, 1) {
        Ok(mut out) => {
            out.push_reserved(envelope);
            Ok(out)
        }
        Err(_) => {
            drop(envelope);
            Err(Fault::Memory)
        }
    }
}

// Adds the outcome to each part but the one that tells it.
fn tell_others(
    out: &mut Vec<Envelope>,
    alloc: Global,
    told: &Outcome,
    parts: Parts,
) -> Result<(), Fault>
    ensures told { OnOk result (out.new.items ≡ out.old.items
        ++ map (outcome_to told.now.from told.now.txn told.now.outcome)
        (other_parts told.now.from parts)) }
    ensures memory { IfErr result (λ fault. fault ≡ Fault.Memory) }
{
    if !parts.has_others(told.from) {
        return Ok(());
    }
    let shards = parts.shards(alloc)?;
    for shard in shards.as_slice() {
        if *shard != told.from {
            out.push(outcome_to(told, *shard))?;
        }
    }
    Ok(())
}
