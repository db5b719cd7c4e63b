//! The kinds of record. Their types keep the limits of the grammar.
ghost use Rattle.std.specs.Prelude.{◌≡◌, IfOk, IfErr};

use std::alloc::Global;
use units::{Epoch, Fault, Install, Keys, Parts, ShardNo, Stamp, TxnId, Writes};

/// A promise: a shard's part of a transaction, which it can commit at this timestamp or later. It names the shard
/// that decides.
pub struct Prepared {
    pub txn: TxnId,
    pub coordinator: ShardNo,
    pub at: Stamp,
    pub reads: Keys,
    pub writes: Writes,
}

impl Drop for Prepared {
    fn drop(self) {
        let Prepared {
            txn: _,
            coordinator: _,
            at: _,
            reads: _,
            writes: _,
        } = self;
    }
}

impl Prepared {
    /// Gives its writes.
    pub fn into_writes(self) -> Writes
        ensures { result ≡ self.writes }
    {
        let Prepared {
            txn: _,
            coordinator: _,
            at: _,
            reads: _,
            writes,
        } = self;
        writes
    }
}

/// The decision to commit a transaction at a timestamp, with the shards that take part and what was read and written
/// at this shard. It stands in the log of the least of its parts.
pub struct Committed {
    pub txn: TxnId,
    pub at: Stamp,
    pub parts: Parts,
    pub reads: Keys,
    pub writes: Writes,
}

impl Drop for Committed {
    fn drop(self) {
        let Committed {
            txn: _,
            at: _,
            parts: _,
            reads: _,
            writes: _,
        } = self;
    }
}

impl Committed {
    /// Gives its writes.
    pub fn into_writes(self) -> Writes
        ensures { result ≡ self.writes }
    {
        let Committed {
            txn: _,
            at: _,
            parts: _,
            reads: _,
            writes,
        } = self;
        writes
    }
}

/// A record of a shard's log. The four kinds before the last come in the head of a renewed log, which keeps
/// neither the reads nor the writes of a transaction that has ended.
#[derive(Drop)]
pub enum Record {
    /// The shard was opened, for this epoch.
    Opened {
        epoch: Epoch,
    },
    /// The shard may serve times up to this one.
    Ceiling {
        at: Stamp,
    },
    /// The shard promised a transaction.
    Prepare(Prepared),
    /// The shard decided that a transaction commits.
    Commit(Committed),
    /// The shard decided that a transaction aborts.
    Abort {
        txn: TxnId,
    },
    /// A transaction ended at this shard: at a timestamp, or aborted if `None`.
    Outcome {
        txn: TxnId,
        outcome: Option<Stamp>,
    },
    /// Looks below this timestamp are answered no more.
    Horizon {
        at: Stamp,
    },
    /// A renewed log begins, with the epoch, the greatest timestamp and the horizon that it keeps.
    Base {
        epoch: Epoch,
        floor: Stamp,
        horizon: Stamp,
    },
    /// A version was installed.
    Version(Install),
    /// The shard decided a commit, and the transaction has ended here.
    Settled {
        txn: TxnId,
        at: Stamp,
        parts: Parts,
    },
    /// The shard promised a transaction, and it has ended here: at a timestamp, or aborted if `None`.
    Closed {
        txn: TxnId,
        coordinator: ShardNo,
        outcome: Option<Stamp>,
    },
    /// Every id below this one, by run and then by number, is retired: the shard refuses all that is said of it.
    Retired {
        below: TxnId,
    },
}

impl Record {
    /// Copies the record into memory of its own.
    pub fn copy(&self, alloc: Global) -> Result<Record, Fault>
        ensures same { IfOk result (λ copied. copied ≡ self.now) }
        ensures memory { IfErr result (λ fault. fault ≡ Fault.Memory) }
    {
        match self {
            Record::Opened { epoch } => Ok(Record::Opened { epoch: *epoch }),
            Record::Ceiling { at } => Ok(Record::Ceiling { at: *at }),
            Record::Prepare(prepared) => Ok(Record::Prepare(Prepared {
                txn: prepared.txn,
                coordinator: prepared.coordinator,
                at: prepared.at,
                reads: prepared.reads.copy(alloc)?,
                writes: prepared.writes.copy(alloc)?,
            })),
            Record::Commit(committed) => Ok(Record::Commit(Committed {
                txn: committed.txn,
                at: committed.at,
                parts: committed.parts,
                reads: committed.reads.copy(alloc)?,
                writes: committed.writes.copy(alloc)?,
            })),
            Record::Abort { txn } => Ok(Record::Abort { txn: *txn }),
            Record::Outcome { txn, outcome } => Ok(Record::Outcome {
                txn: *txn,
                outcome: *outcome,
            }),
            Record::Horizon { at } => Ok(Record::Horizon { at: *at }),
            Record::Base {
                epoch,
                floor,
                horizon,
            } => Ok(Record::Base {
                epoch: *epoch,
                floor: *floor,
                horizon: *horizon,
            }),
            Record::Version(install) => Ok(Record::Version(install.copy()?)),
            Record::Settled { txn, at, parts } => Ok(Record::Settled {
                txn: *txn,
                at: *at,
                parts: *parts,
            }),
            Record::Closed {
                txn,
                coordinator,
                outcome,
            } => Ok(Record::Closed {
                txn: *txn,
                coordinator: *coordinator,
                outcome: *outcome,
            }),
            Record::Retired { below } => Ok(Record::Retired { below: *below }),
        }
    }
}
