//! The commit decisions that records tell of.
ghost use Rattle.std.specs.Prelude.{◌≡◌};
ghost use Rattle.record.specs.Records.{as_committed};

use record::Record;
use std::marker::Model;
use units::{Keys, Parts, Stamp, TxnId, Writes};

/// A commit decision. If its record tells only that the transaction has ended, its reads and writes are `None`.
#[derive(Drop)]
pub struct Decision<'l> {
    pub txn: TxnId,
    pub at: Stamp,
    pub parts: Parts,
    pub reads: Option<&'l Keys>,
    pub writes: Option<&'l Writes>,
}

impl<'l> Model for Decision<'l> {
    ghost use Rattle.std.specs.Option.{option_copied};
    ghost use Rattle.record.specs.declared.record.Committed.{Committed};
    ghost use Rattle.inspector.specs.Decided.{or_none};

    ghost Value = { Committed };

    ghost view = { λ d. record {
      txn = d.txn;
      at = d.at;
      parts = d.parts;
      reads = or_none (option_copied d.reads);
      writes = or_none (option_copied d.writes);
    } };
}

/// Gives the decision that a record tells of.
pub fn decision_of(item: &Record) -> Option<Decision<'_>>
    ensures { result ≡ as_committed item.now }
{
    match item {
        Record::Commit(committed) => Some(Decision {
            txn: committed.txn,
            at: committed.at,
            parts: committed.parts,
            reads: Some(&committed.reads),
            writes: Some(&committed.writes),
        }),
        Record::Settled { txn, at, parts } => Some(Decision {
            txn: *txn,
            at: *at,
            parts: *parts,
            reads: None,
            writes: None,
        }),
        _ => None,
    }
}
