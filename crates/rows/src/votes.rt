//! The votes that a coordinator collects for a commit.
ghost use Rattle.std.specs.Prelude.{◌≡◌, [], IfOk, IfErr, map};
ghost use Rattle.protocol.specs.Rows.{with_vote};
ghost use Rattle.rows.specs.States.{has_voted, voted_of};

use crate::wait::CommitRequest;
use std::alloc::Global;
use std::marker::Model;
use units::{Fault, ShardNo, Stamp};

/// A yes that came: the shard that voted, and its prepare timestamp.
#[derive(Clone, Copy)]
pub struct Voted {
    pub shard: ShardNo,
    pub at: Stamp,
}

/// The votes that came, in order. Only the first of each shard counts, and the memory for one of each is taken at the start.
#[derive(Drop)]
pub struct Votes {
    votes: Vec<Voted>,
}

impl Model for Votes {
    ghost use Rattle.std.specs.Prelude.{List, ◌≤◌, map, vec_capacity};
    ghost use Rattle.protocol.specs.Rows.{Voted};
    ghost use Rattle.rows.specs.States.{voted_of, most_votes, AreVotes};

    ghost Value = { List Voted };

    ghost view = { λ v. map voted_of v.votes.items };

    ghost invariant = { λ v. AreVotes v.votes.items × (most_votes ≤ vec_capacity v.votes) };
}

impl Votes {
    /// The most votes that can come: one from each of 16 shards.
    pub const MOST: usize = 16;

    /// Makes an empty list with the memory for 16 votes. `Memory` if memory runs out.
    pub fn none(alloc: Global) -> Result<Votes, Fault>
        ensures none { IfOk result (λ votes. votes ≡ []) }
        ensures memory { IfErr result (λ fault. fault ≡ Fault.Memory) }
    {
        let votes = Vec::with_capacity(alloc, Votes::MOST)?;
        Ok(Votes { votes })
    }

    /// Adds a shard's yes, unless the shard has voted before. It takes no memory.
    pub fn add(&mut self, shard: ShardNo, at: Stamp)
        ensures { self.new ≡ with_vote shard at self.old }
    {
        let _number = shard.number();
        if has_voted(&self.votes, shard) {
            return;
        }
        self.votes.push_reserved(Voted { shard, at });
    }

    /// Returns the votes in order.
    pub fn as_slice(&self) -> &[Voted]
        ensures { map voted_of result.now ≡ self.now }
    {
        self.votes.as_slice()
    }
}

// Whether the shard has voted.
fn has_voted(votes: &[Voted], shard: ShardNo) -> bool
    ensures { result ≡ has_voted shard votes.now }
{
    for voted in votes {
        if voted.shard == shard {
            return true;
        }
    }
    false
}

/// A commit whose votes are to be collected, with the memory for them.
#[derive(Drop)]
pub struct Gathering {
    pub(crate) request: CommitRequest,
    pub(crate) votes: Votes,
}

impl Model for Gathering {
    ghost use Rattle.std.specs.Prelude.{◌≡◌, []};
    ghost use Rattle.rows.specs.declared.wait.CommitRequest.{CommitRequest};

    ghost Value = { CommitRequest };

    ghost view = { λ g. g.request };

    ghost invariant = { λ g. g.votes ≡ [] };
}

impl Gathering {
    /// Takes the memory for the votes of a commit. `Memory` if memory runs out.
    pub fn new(alloc: Global, request: CommitRequest) -> Result<Gathering, Fault>
        ensures same { IfOk result (λ gathering. gathering ≡ request) }
        ensures memory { IfErr result (λ fault. fault ≡ Fault.Memory) }
    {
        let votes = Votes::none(alloc)?;
        Ok(Gathering { request, votes })
    }
}
