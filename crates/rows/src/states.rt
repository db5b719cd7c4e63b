//! The states of a transaction at a shard. Each holds the transaction's token of the lock table, so it cannot be dropped. A step
//! from one state to the next spends the one before.
ghost use Rattle.std.specs.Prelude.{◌≡◌, ◌≤◌, ◌+◌, [], Some, None, true, false, length, OnOk, IfErr};
ghost use Rattle.std.specs.Option.{option_copied};
ghost use Rattle.units.specs.Locks.{is_free, wounded};
ghost use Rattle.rows.specs.States.{reading_state, collecting_of, collecting_with_yes, is_prepare_of, is_commit_of};
ghost use Rattle.rows.specs.States.{prepared_by, decided_by};
ghost use Rattle.locks.specs.Table.{has_claim, without_claim, change_claim, granted, waiting, made_firm, held_in_table, most_held};

use crate::votes::{Gathering, Votes};
use crate::wait::{CommitRequest, Wait};
use gatelog::Noted;
use locks::{Held, Table};
use record::Record;
use std::marker::Model;
use units::{Fault, Lock, Parts, ShardNo, Stamp, TxnId};

/// A transaction that reads: it is idle, or waits with a read, a prepare or a commit.
pub struct RowReading {
    held: Held,
    wait: Option<Wait>,
}

impl Model for RowReading {
    ghost use Rattle.rows.specs.States.{ReadingState};

    ghost Value = { ReadingState };

    ghost view = { λ s. record { token = s.held; wait = s.wait } };
}

/// A transaction at its coordinator while that collects votes.
pub struct RowCollecting {
    held: Held,
    request: CommitRequest,
    votes: Votes,
}

impl Model for RowCollecting {
    ghost use Rattle.rows.specs.States.{CollectingState};

    ghost Value = { CollectingState };

    ghost view = { λ s. record { token = s.held; request = s.request; votes = s.votes } };
}

/// A transaction at a part that has logged its promise.
pub struct RowPrepared {
    held: Held,
    coordinator: ShardNo,
    at: Stamp,
}

impl Model for RowPrepared {
    ghost use Rattle.rows.specs.States.{PreparedState};

    ghost Value = { PreparedState };

    ghost view = { λ s. record { token = s.held; coordinator = s.coordinator; at = s.at } };
}

/// A transaction at its coordinator, once the decision is logged.
pub struct RowDecided {
    held: Held,
    at: Stamp,
    parts: Parts,
}

impl Model for RowDecided {
    ghost use Rattle.rows.specs.States.{DecidedState};

    ghost Value = { DecidedState };

    ghost view = { λ s. record { token = s.held; at = s.at; parts = s.parts } };
}

impl RowReading {
    /// Makes the state of a new transaction.
    pub(crate) fn new(held: Held) -> RowReading
        ensures { result ≡ reading_state held None }
    {
        RowReading { held, wait: None }
    }

    /// Returns the transaction.
    pub fn txn(&self) -> TxnId
        ensures { result ≡ self.now.token.txn }
    {
        self.held.txn()
    }

    /// Returns what it waits with, if it waits.
    pub fn wait(&self) -> Option<&Wait>
        ensures { option_copied result ≡ self.now.wait }
    {
        self.wait.as_ref()
    }

    // Takes the memory for this many more locks.
    pub(crate) fn make_room(&mut self, more: usize, table: &Table) -> Result<(), Fault>
        requires { has_claim table.now self.old.token.txn ≡ true }
        ensures txn { self.new.token.txn ≡ self.old.token.txn }
        ensures wait { self.new.wait ≡ self.old.wait }
        ensures room { OnOk result
            (length (held_in_table table.now self.old.token.txn) + more ≤ self.new.token.room) }
        ensures memory { IfErr result (λ fault. fault ≡ Fault.Memory) }
    {
        table.make_room(&mut self.held, more)
    }

    // Grants a request with which nobody conflicts. The transaction waits no longer.
    pub(crate) fn grant(self, needs: &[Lock], table: &mut Table) -> RowReading
        requires claim { has_claim table.old self.token.txn ≡ true }
        requires free { is_free table.old self.token.txn needs.now ≡ true }
        requires room { most_held table.old self.token.txn needs.now ≤ self.token.room }
        ensures txn { result.token.txn ≡ self.token.txn }
        ensures wait { result.wait ≡ None }
        ensures table { table.new ≡ change_claim table.old self.token.txn (granted needs.now) }
    {
        let RowReading { mut held, wait: _ } = self;
        table.grant(&mut held, needs);
        RowReading { held, wait: None }
    }

    // Makes it wait with something that needs these locks.
    pub(crate) fn block(self, needs: &[Lock], wait: Wait, table: &mut Table) -> RowReading
        requires claim { has_claim table.old self.token.txn ≡ true }
        requires quiet { wounded table.old self.token.txn needs.now ≡ [] }
        requires blocked { is_free table.old self.token.txn needs.now ≡ false }
        requires room { most_held table.old self.token.txn needs.now ≤ self.token.room }
        ensures txn { result.token.txn ≡ self.token.txn }
        ensures wait { result.wait ≡ Some wait }
        ensures table { table.new ≡ change_claim table.old self.token.txn (waiting needs.now) }
    {
        let RowReading { mut held, wait: _ } = self;
        table.wait(&mut held, needs);
        RowReading {
            held,
            wait: Some(wait),
        }
    }

    // Makes it collect votes.
    pub(crate) fn collect(self, gathering: Gathering, table: &mut Table) -> RowCollecting
        requires { has_claim table.old self.token.txn ≡ true }
        ensures state { result ≡ collecting_of self.token gathering }
        ensures table { table.new ≡ change_claim table.old self.token.txn made_firm }
    {
        let RowReading { held, wait: _ } = self;
        table.firm(&held);
        let Gathering { request, votes } = gathering;
        RowCollecting {
            held,
            request,
            votes,
        }
    }

    // Spends its logged promise, and makes it prepared.
    pub(crate) fn prepare(self, logged: Noted, table: &mut Table) -> (RowPrepared, Record)
        requires mine { is_prepare_of self.token.txn logged ≡ true }
        requires claim { has_claim table.old self.token.txn ≡ true }
        ensures state { result.0 ≡ prepared_by self.token logged }
        ensures record { result.1 ≡ logged }
        ensures table { table.new ≡ change_claim table.old self.token.txn made_firm }
    {
        let RowReading { held, wait: _ } = self;
        table.firm(&held);
        let record = logged.spend();
        match &record {
            Record::Prepare(prepared) => {
                let state = RowPrepared {
                    held,
                    coordinator: prepared.coordinator,
                    at: prepared.at,
                };
                (state, record)
            }
            _ => unreachable!(),
        }
    }

    // Spends its logged decision, and makes it decided.
    pub(crate) fn decide(self, logged: Noted, table: &mut Table) -> (RowDecided, Record)
        requires mine { is_commit_of self.token.txn logged ≡ true }
        requires claim { has_claim table.old self.token.txn ≡ true }
        ensures state { result.0 ≡ decided_by self.token logged }
        ensures record { result.1 ≡ logged }
        ensures table { table.new ≡ change_claim table.old self.token.txn made_firm }
    {
        let RowReading { held, wait: _ } = self;
        table.firm(&held);
        decide(held, logged)
    }

    // Ends it without a record.
    pub(crate) fn end(self, table: &mut Table)
        ensures { table.new ≡ without_claim table.old self.token.txn }
    {
        let RowReading { held, wait: _ } = self;
        table.release(held);
    }
}

impl RowCollecting {
    // Counts a part's yes. Only the first of each part counts.
    pub(crate) fn vote(self, from: ShardNo, at: Stamp) -> RowCollecting
        ensures { result ≡ collecting_with_yes from at self }
    {
        let RowCollecting {
            held,
            request,
            mut votes,
        } = self;
        votes.add(from, at);
        RowCollecting {
            held,
            request,
            votes,
        }
    }

    /// Returns the transaction.
    pub fn txn(&self) -> TxnId
        ensures { result ≡ self.now.token.txn }
    {
        self.held.txn()
    }

    /// Returns the commit whose votes it collects.
    pub fn request(&self) -> &CommitRequest
        ensures { result.now ≡ self.now.request }
    {
        &self.request
    }

    /// Returns the votes that have come.
    pub fn votes(&self) -> &Votes
        ensures { result.now ≡ self.now.votes }
    {
        &self.votes
    }

    // Spends its logged decision, and makes it decided.
    pub(crate) fn decide(self, logged: Noted) -> (RowDecided, Record)
        requires { is_commit_of self.token.txn logged ≡ true }
        ensures state { result.0 ≡ decided_by self.token logged }
        ensures record { result.1 ≡ logged }
    {
        let RowCollecting {
            held,
            request: _,
            votes: _,
        } = self;
        decide(held, logged)
    }

    // Spends its token, and its claim leaves the table.
    pub(crate) fn release(self, table: &mut Table)
        ensures { table.new ≡ without_claim table.old self.token.txn }
    {
        let RowCollecting {
            held,
            request: _,
            votes: _,
        } = self;
        table.release(held);
    }
}

impl RowPrepared {
    /// Returns the transaction.
    pub fn txn(&self) -> TxnId
        ensures { result ≡ self.now.token.txn }
    {
        self.held.txn()
    }

    /// Returns the shard that decides it.
    pub fn coordinator(&self) -> ShardNo
        ensures { result ≡ self.now.coordinator }
    {
        self.coordinator
    }

    /// Returns its prepare timestamp.
    pub fn at(&self) -> Stamp
        ensures { result ≡ self.now.at }
    {
        self.at
    }

    // Spends its token, and its claim leaves the table.
    pub(crate) fn release(self, table: &mut Table)
        ensures { table.new ≡ without_claim table.old self.token.txn }
    {
        let RowPrepared {
            held,
            coordinator: _,
            at: _,
        } = self;
        table.release(held);
    }
}

impl RowDecided {
    /// Returns the transaction.
    pub fn txn(&self) -> TxnId
        ensures { result ≡ self.now.token.txn }
    {
        self.held.txn()
    }

    /// Returns its commit timestamp.
    pub fn at(&self) -> Stamp
        ensures { result ≡ self.now.at }
    {
        self.at
    }

    /// Returns the shards that take part.
    pub fn parts(&self) -> Parts
        ensures { result ≡ self.now.parts }
    {
        self.parts
    }

    // Spends its token, and its claim leaves the table.
    pub(crate) fn release(self, table: &mut Table)
        ensures { table.new ≡ without_claim table.old self.token.txn }
    {
        let RowDecided {
            held,
            at: _,
            parts: _,
        } = self;
        table.release(held);
    }
}

// The state after a logged decision.
fn decide(held: Held, logged: Noted) -> (RowDecided, Record)
    requires { is_commit_of held.txn logged ≡ true }
    ensures state { result.0 ≡ decided_by held logged }
    ensures record { result.1 ≡ logged }
{
    let record = logged.spend();
    match &record {
        Record::Commit(committed) => {
            let state = RowDecided {
                held,
                at: committed.at,
                parts: committed.parts,
            };
            (state, record)
        }
        _ => unreachable!(),
    }
}
