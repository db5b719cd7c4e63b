//! How a transaction stands at a shard.
ghost use Rattle.std.specs.Option.{option_copied};
ghost use Rattle.std.specs.Prelude.{◌≡◌, List, Some, None};
ghost use Rattle.units.specs.declared.lock.Lock.{Lock};
ghost use Rattle.facts.specs.Shown.{meant};
ghost use Rattle.protocol.specs.Rows.{HasRow, standing_by};
ghost use Rattle.rows.specs.CodeRows.{phase_of, phase_of_wait};
ghost use Rattle.memory.specs.Standings.{standing_of};

use facts::Status;
use message::Done;
use rows::{CommitRequest, PrepareRequest, Row, RowCollecting, RowDecided, RowPrepared, Wait};
use std::marker::Model;
use units::{Key, Parts, Stamp, TxnId};

/// How a transaction stands at a shard: by its row, else by its records, else by whether it was ended. A row that reads also tells
/// what it waits with.
#[derive(Clone, Copy)]
pub enum Standing<'a> {
    /// Its id is retired: all that is said of it is refused.
    Retired,
    /// It has no row and no record of its end, and was not ended since the opening.
    Unknown,
    /// It was ended since the opening, and has no record of its end.
    Ended,
    /// It reads, and waits with nothing.
    Idle,
    /// It waits with a read of this key.
    WaitsRead(&'a Key),
    /// It waits with this prepare.
    WaitsPrepare(&'a PrepareRequest),
    /// It waits with this commit.
    WaitsCommit(&'a CommitRequest),
    /// This shard decides it, and collects votes.
    Collecting(&'a RowCollecting),
    /// It has promised here.
    Prepared(&'a RowPrepared),
    /// This shard has decided that it commits, and has not settled it.
    Decided(&'a RowDecided),
    /// This shard logged that it aborted.
    Aborted,
    /// This shard settled it.
    Settled(PastCommit),
    /// Its promise here was closed by this outcome: a commit's timestamp, or `None` for aborted.
    Closed { outcome: Option<Stamp> },
}

/// A commit that the log tells of: its transaction is settled. Only `State::standing` makes it, so its holder may tell the session
/// of that commit again.
#[derive(Clone, Copy)]
pub struct PastCommit {
    at: Stamp,
    parts: Parts,
}

impl Model for PastCommit {
    ghost use Rattle.memory.specs.Settled.{SettledCommit};

    ghost Value = { SettledCommit };

    ghost view = { λ c. record { at = c.at; parts = c.parts } };

    ghost inverse = { λ c. record { at = c.at; parts = c.parts } };
}

impl PastCommit {
    /// Returns its commit timestamp.
    pub fn at(&self) -> Stamp
        ensures { result ≡ self.now.at }
    {
        self.at
    }

    /// Returns the shards that took part.
    pub fn parts(&self) -> Parts
        ensures { result ≡ self.now.parts }
    {
        self.parts
    }

    /// Makes the end of the transaction, which its session may be told again.
    pub fn done(&self, txn: TxnId) -> Done
        ensures { result ≡ record { txn = txn; outcome = Some self.now.at } }
    {
        Done::said(txn, Some(self.at))
    }
}

// How a transaction with a row stands. One that reads is told by what it waits with.
pub(crate) fn by_row(row: &Row) -> Standing<'_>
    ensures { (held : List Lock) → standing_of held result ≡ HasRow held (phase_of row.now) }
{
    match row {
        Row::Reading(reading) => match reading.wait() {
            None => Standing::Idle,
            Some(Wait::Read(key)) => Standing::WaitsRead(key),
            Some(Wait::Prepare(request)) => Standing::WaitsPrepare(request),
            Some(Wait::Commit(request)) => Standing::WaitsCommit(request),
        },
        Row::Collecting(collecting) => Standing::Collecting(collecting),
        Row::Prepared(prepared) => Standing::Prepared(prepared),
        Row::Decided(decided) => Standing::Decided(decided),
    }
}

// How a transaction without a row stands, by its recorded status, or else by whether it was ended.
pub(crate) fn by_records(status: Option<&Status>, ended: bool) -> Standing<'_>
    ensures { (held : List Lock) → standing_of held result ≡
        standing_by None (meant (option_copied status.entry)) ended }
{
    match status {
        Some(Status::Aborted) => Standing::Aborted,
        Some(Status::Settled { at, parts }) => Standing::Settled(PastCommit {
            at: *at,
            parts: *parts,
        }),
        Some(
            Status::Closed {
                coordinator: _,
                outcome,
            },
        ) => Standing::Closed { outcome: *outcome },
        Some(Status::Prepared(_)) | Some(Status::Decided(_)) | None => {
            if ended {
                Standing::Ended
            } else {
                Standing::Unknown
            }
        }
    }
}
