//! What a coordinator does with a vote.
ghost use Rattle.std.specs.List.{list_any};
ghost use Rattle.std.specs.Prelude.{◌≡◌, ◌+◌, ◌<◌, ◌≤◌, ◌^◌, nat_eq, map, true, false, [], ◌∷◌, Some, None, Ok, IfOk, IfErr, MatchResult};
ghost use Rattle.units.specs.Lists.{greatest};
ghost use Rattle.units.specs.Masks.{shards_from};
ghost use Rattle.protocol.specs.Rows.{with_vote};
ghost use Rattle.protocol.specs.Cells.{all_voted, other_parts};
ghost use Rattle.memory.specs.CodeRows.{is_collecting, phase_of};
ghost use Rattle.memory.specs.RowTable.{has_phase};
ghost use Rattle.memory.specs.row.Row.{Row};
ghost use Rattle.memory.specs.Carry.{IsFit, may_drop};
ghost use Rattle.memory.specs.Kept.{start_of, IsPlanned};
ghost use Rattle.coordinator.specs.Granted.{more_votes};
ghost use Rattle.memory.specs.Standings.{standing_in, HasRowIn};
ghost use Rattle.coordinator.specs.ByMessage.{MakesVoteKept, stamp_with_vote, PlansVote, PlansTell, vote_counted, PlansPartVote, MakesDecision};

use crate::commits::{commit_time, decision_of};
use crate::parts::is_of_part;
use memory::{
    Change, CommitRequest, Request, RowCollecting, Standing, State, Step, Voted, outcome_to,
};
use message::{Outcome, Vote};
use std::alloc::Global;
use units::{Fault, Ids, ShardNo, Stamp, TxnId};

/// Plans what follows from a vote. A yes is counted, and the last one decides; a no aborts. A yes for a transaction that has ended
/// is answered with its outcome. `TimeSpent` if no timestamp is left, `Stranger` if the voter takes no part or another shard decides.
pub fn on_vote(state: &State, alloc: Global, vote: &Vote) -> Result<Step, Fault>
    ensures planned { PlansVote state.now vote.now (standing_in state.now vote.now.txn) result }
    ensures fit { IfOk result (IsFit state.now) }
{
    match state.standing(vote.txn) {
        Standing::Collecting(collecting) => vote_collected(state, alloc, vote, collecting),
        Standing::Aborted => tell(state, alloc, vote, None),
        Standing::Settled(settled) => {
            if !is_of_part(state, settled.parts(), vote.from) {
                return Err(Fault::Stranger);
            }
            tell(state, alloc, vote, Some(settled.at()))
        }
        Standing::Unknown
        | Standing::Ended
        | Standing::Decided(_)
        | Standing::Idle
        | Standing::WaitsRead(_)
        | Standing::WaitsCommit(_) => Ok(state.idles(alloc)),
        Standing::Retired
        | Standing::WaitsPrepare(_)
        | Standing::Prepared(_)
        | Standing::Closed { .. } => Err(Fault::Stranger),
    }
}

// Tells the outcome to a shard that voted yes.
fn tell(state: &State, alloc: Global, vote: &Vote, outcome: Option<Stamp>) -> Result<Step, Fault>
    ensures planned { PlansTell state.now vote.now outcome result }
    ensures fit { IfOk result (IsFit state.now) }
{
    match vote.vote {
        Some(_) => {
            let told = Outcome {
                from: state.setup().shard,
                txn: vote.txn,
                outcome,
            };
            state.reply(alloc, outcome_to(&told, vote.from))
        }
        None => Ok(state.idles(alloc)),
    }
}

// Takes a vote for a transaction that collects votes.
#[tactic(auto, unfolding(protocol::specs::Cells::plan_count))]
fn vote_collected(
    state: &State,
    alloc: Global,
    vote: &Vote,
    collecting: &RowCollecting,
) -> Result<Step, Fault>
    requires row { HasRowIn state.now vote.now.txn (phase_of (Row.Collecting collecting.now)) }
    requires collects { has_phase is_collecting state.now.memory.rows vote.now.txn ≡ true }
    requires drops { may_drop state.now.memory.rows vote.now.txn ≡ true }
    ensures planned { PlansPartVote state.now vote.now collecting.now result }
    ensures fit { IfOk result (IsFit state.now) }
{
    let parts = collecting.request().parts;
    if !is_of_part(state, parts, vote.from) {
        return Err(Fault::Stranger);
    }
    match vote.vote {
        Some(at) => {
            let last = Voted {
                shard: vote.from,
                at,
            };
            count(state, alloc, collecting, vote.txn, &last)
        }
        None => state.aborts(alloc, vote.txn, parts),
    }
}

// Counts a yes; the last one decides.
fn count(
    state: &State,
    alloc: Global,
    collecting: &RowCollecting,
    txn: TxnId,
    last: &Voted,
) -> Result<Step, Fault>
    requires row { HasRowIn state.now txn (phase_of (Row.Collecting collecting.now)) }
    requires collects { has_phase is_collecting state.now.memory.rows txn ≡ true }
    ensures planned { IsPlanned state.now
        (vote_counted (start_of state.now) last.now.shard txn (Some last.now.at) collecting.now)
        result }
    ensures fit { IfOk result (IsFit state.now) }
{
    if !have_all_voted(state, collecting, last) {
        return keep_vote(state, alloc, txn, last);
    }
    let Ok(at) = decision_time(state, collecting, last) else {
        return Err(Fault::TimeSpent);
    };
    decide_counted(state, alloc, txn, at, collecting)
}

// Counts a yes that is not the last.
fn keep_vote(state: &State, alloc: Global, txn: TxnId, last: &Voted) -> Result<Step, Fault>
    requires { has_phase is_collecting state.now.memory.rows txn ≡ true }
    ensures plan { MakesVoteKept state.now txn last.now result }
    ensures fit { IfOk result (IsFit state.now) }
    ensures memory { IfErr result (λ fault. fault ≡ Fault.Memory) }
{
    let asked = Request {
        wounded: Ids::from_vec(Vec::new(alloc)),
        needs: Vec::new(alloc),
        change: Change::Counts(txn, last.shard, last.at),
    };
    state.puts(alloc, asked, None, state.last(), None)
}

// Logs the decision of a transaction that holds its locks.
fn decide_counted(
    state: &State,
    alloc: Global,
    txn: TxnId,
    at: Stamp,
    collecting: &RowCollecting,
) -> Result<Step, Fault>
    requires { has_phase is_collecting state.now.memory.rows txn ≡ true }
    ensures plan { MakesDecision state.now [] txn [] at collecting.now.request result }
    ensures fit { IfOk result (IsFit state.now) }
    ensures memory { IfErr result (λ fault. fault ≡ Fault.Memory) }
{
    let held = collecting.request();
    let (reads, writes) = (&held.reads, &held.writes);
    let Ok(request) = CommitRequest::copied(alloc, held.latest, held.parts, reads, writes) else {
        return Err(Fault::Memory);
    };
    let asked = Request {
        wounded: Ids::from_vec(Vec::new(alloc)),
        needs: Vec::new(alloc),
        change: Change::Decides(txn),
    };
    let last = state.last().later(at);
    let decision = decision_of(txn, at, request);
    state.puts(alloc, asked, Some(decision), last, None)
}

// Whether each other part has voted, with this vote counted.
#[tactic(auto, unfolding(crate::specs::Granted::more_votes))]
fn have_all_voted(state: &State, collecting: &RowCollecting, last: &Voted) -> bool
    ensures { result ≡ all_voted (other_parts state.now.setup.shard collecting.now.request.parts)
        (with_vote last.now.shard last.now.at collecting.now.votes) }
{
    let mask = collecting.request().parts.mask();
    let votes = collecting.votes().as_slice();
    have_marked_voted(mask, 16, 0, state.setup().shard, votes, last)
}

// Whether each shard of a mask has voted from number n on, with this vote counted, except one shard.
#[tactic(auto, using(crate::proofs::Counting::marked_each))]
fn have_marked_voted(
    mask: u16,
    bits: u32,
    n: u8,
    except: ShardNo,
    votes: &[Voted],
    last: &Voted,
) -> bool
    requires { bits + n ≡ 16 }
    ensures { result ≡ all_voted (other_parts except (shards_from bits n mask))
        (more_votes last.now.shard last.now.at votes.now) }
{
    if bits == 0 {
        return true;
    }
    let is_here = mask % 2 == 1 && n != except.number();
    let voted = !is_here || has_voted_with(votes, n, last);
    voted && have_marked_voted(mask / 2, bits - 1, n + 1, except, votes, last)
}

// Whether the shard of a number has voted.
fn has_voted(votes: &[Voted], number: u8) -> bool
    ensures { result ≡ list_any (λ v. nat_eq v.shard number) votes.now }
{
    for vote in votes {
        if vote.shard.number() == number {
            return true;
        }
    }
    false
}

// Whether the shard of a number has voted, with this vote counted.
fn has_voted_with(votes: &[Voted], number: u8, last: &Voted) -> bool
    ensures { result ≡ list_any (λ v. nat_eq v.shard number)
        (more_votes last.now.shard last.now.at votes.now) }
{
    has_voted(votes, number) || last.shard.number() == number
}

// The greatest timestamp of some votes, 0 if there is none.
fn greatest_vote(votes: &[Voted]) -> Stamp
    ensures { result ≡ greatest (map (λ v. v.at) votes.now) }
{
    match votes {
        [first, ..] => first.at.later(greatest_vote(&votes[1..])),
        [] => Stamp::zero(),
    }
}

// The timestamp of the decision, with this vote counted.
#[tactic(auto, using(crate::proofs::Counting::stamp_late, crate::proofs::Counting::stamp_again, crate::proofs::Counting::stamp_with))]
fn decision_time(state: &State, collecting: &RowCollecting, last: &Voted) -> Result<Stamp, Fault>
    ensures { MatchResult result
        (λ at. (at ≡ stamp_with_vote state.now collecting.now last.now) × (at < 2 ^ 62))
        (λ fault. (fault ≡ Fault.TimeSpent)
        × (2 ^ 62 ≤ stamp_with_vote state.now collecting.now last.now)) }
{
    let Ok(least) = commit_time(state, collecting.request().latest) else {
        return Err(Fault::TimeSpent);
    };
    let votes = collecting.votes().as_slice();
    let voted = least.later(greatest_vote(votes));
    if has_voted(votes, last.shard.number()) {
        Ok(voted)
    } else {
        Ok(voted.later(last.at))
    }
}
