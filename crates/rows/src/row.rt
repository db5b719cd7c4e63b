//! A row: a transaction in one of its states.
ghost use Rattle.std.specs.Prelude.{◌≡◌};
ghost use Rattle.units.specs.Ids.{same_id};
ghost use Rattle.rows.specs.CodeRows.{txn_of, phase_of, is_reading, stamp_if_prepared, stamp_if_decided};
ghost use Rattle.locks.specs.Table.{without_claim};

use crate::states::{RowCollecting, RowDecided, RowPrepared, RowReading};
use locks::Table;
use units::{Stamp, TxnId};

/// A transaction of a shard, in its state.
pub enum Row {
    Reading(RowReading),
    Collecting(RowCollecting),
    Prepared(RowPrepared),
    Decided(RowDecided),
}

impl Row {
    /// Returns the transaction.
    pub fn txn(&self) -> TxnId
        ensures { result ≡ txn_of self.now }
    {
        match self {
            Row::Reading(state) => state.txn(),
            Row::Collecting(state) => state.txn(),
            Row::Prepared(state) => state.txn(),
            Row::Decided(state) => state.txn(),
        }
    }

    /// Tells whether the row is this transaction's.
    pub fn is_of(&self, txn: TxnId) -> bool
        ensures { result ≡ same_id (txn_of self.now) txn }
    {
        self.txn() == txn
    }

    /// Tells whether the row reads.
    #[tactic(auto, using(crate::proofs::Transitions::reading_is_open))]
    pub fn is_reading(&self) -> bool
        ensures { result ≡ is_reading (phase_of self.now) }
    {
        matches!(self, Row::Reading(_))
    }

    /// Returns the transaction and its prepare timestamp, if the row is prepared.
    pub fn prepared(&self) -> Option<(TxnId, Stamp)>
        ensures { result ≡ stamp_if_prepared self.now }
    {
        match self {
            Row::Prepared(state) => Some((state.txn(), state.at())),
            _ => None,
        }
    }

    /// Returns the transaction and its commit timestamp, if the row is decided.
    pub fn decided(&self) -> Option<(TxnId, Stamp)>
        ensures { result ≡ stamp_if_decided self.now }
    {
        match self {
            Row::Decided(state) => Some((state.txn(), state.at())),
            _ => None,
        }
    }

    // Spends the row's token, and its claim leaves the table.
    pub(crate) fn release(self, table: &mut Table)
        ensures { table.new ≡ without_claim table.old (txn_of self) }
    {
        match self {
            Row::Reading(state) => state.end(table),
            Row::Collecting(state) => state.release(table),
            Row::Prepared(state) => state.release(table),
            Row::Decided(state) => state.release(table),
        }
    }
}
