//! The rows of a shard, with its lock table.
ghost use Rattle.std.specs.List.{list_all, list_any};
ghost use Rattle.units.specs.Ids.{older};
ghost use Rattle.std.specs.Prelude.{◌≡◌, ◌<◌, ◌≤◌, [], true, Some, None, nat_le, length, MatchOption, IfOk, IfErr, OnOk, OnErr};
ghost use Rattle.units.specs.ById.{IsById};
ghost use Rattle.units.specs.LockLaws.{IsLawfulTable};
ghost use Rattle.units.specs.Locks.{exclusive, holds, is_free, ready, wounded};
ghost use Rattle.protocol.specs.Rows.{Idle, claims, find_row, without_row, held_in, without_rows};
ghost use Rattle.rows.specs.CodeRows.{phase_of, is_reading};
ghost use Rattle.rows.specs.RowTable.{has_phase, put_row, nth_prepared, nth_decided, decided_row, IsEarliest, without_token};
ghost use Rattle.units.specs.Lists.{gather};

use crate::list::RowList;
use crate::row::Row;
use crate::states::RowReading;
use locks::Table;
use std::alloc::Global;
use std::marker::Model;
use units::{Fault, Ids, Key, Keys, Lock, MOST_ROWS, Stamp, TxnId, Writes};

/// The transactions of a shard, at most 1,024. Each has a row, in a state that holds its token of the lock table.
///
/// The claims of the lock table are those of the rows, place by place. So each call of the table gets a token whose claim it
/// has, and callers of the rows need not speak of the table. Rows hold tokens, so they cannot be dropped: `stop` spends them.
pub struct Rows {
    pub(crate) rows: RowList,
    pub(crate) locks: Table,
}

impl Model for Rows {
    ghost use Rattle.std.specs.Prelude.{◌≡◌};
    ghost use Rattle.protocol.specs.Rows.{claims};
    ghost use Rattle.rows.specs.RowTable.{RowTable, table_of, paired};

    ghost Value = { RowTable };

    ghost view = { λ r. table_of r.rows r.locks };

    ghost invariant = { λ r. claims (paired r.rows r.locks) ≡ r.locks };
}

impl Rows {
    /// Makes rows with the memory for all 1,024. `Memory` if memory runs out.
    pub fn new(alloc: Global) -> Result<Rows, Fault>
        ensures none { IfOk result (λ rows. rows.rows ≡ []) }
        ensures memory { IfErr result (λ fault. fault ≡ Fault.Memory) }
    {
        let rows = RowList::new(alloc)?;
        let locks = Table::new(alloc);
        Ok(Rows { rows, locks })
    }

    /// Says what holds of the rows at any time. It does nothing.
    pub fn laws(&self)
        ensures locks { IsLawfulTable (claims self.now.rows) }
        ensures few { length self.now.rows ≤ MOST_ROWS }
        ensures order { IsById (λ r. r.txn) self.now.rows }
    {
        self.locks.laws();
        self.rows.laws();
    }

    /// Returns the number of rows.
    pub fn len(&self) -> usize
        ensures { result ≡ length self.now.rows }
    {
        self.rows.len()
    }

    /// Tells whether there are 1,024 rows. A new transaction is then refused as `RowsFull`, until another one ends.
    pub fn is_full(&self) -> bool
        ensures { result ≡ nat_le MOST_ROWS (length self.now.rows) }
    {
        self.rows.len() >= MOST_ROWS
    }

    /// Returns the row of a transaction, if it has one.
    pub fn find(&self, txn: TxnId) -> Option<&Row>
        ensures { MatchOption result (find_row self.now.rows txn ≡ None)
            (λ row. find_row self.now.rows txn ≡
            Some (record {
              txn = txn;
              held = held_in self.now.rows txn;
              phase = phase_of row.now;
            })) }
    {
        self.rows.find(txn)
    }

    /// Tells whether a transaction of a lower id has a row. It looks at each row.
    pub fn has_below(&self, below: TxnId) -> bool
        ensures { result ≡ list_any (λ r. older r.txn below) self.now.rows }
    {
        self.rows.has_below(below)
    }

    /// Tells whether a transaction has a row that reads, so that it may be ended, granted locks, or made to wait.
    pub fn is_reading(&self, txn: TxnId) -> bool
        ensures { result ≡ has_phase is_reading self.now.rows txn }
    {
        match self.rows.find(txn) {
            Some(row) => row.is_reading(),
            None => false,
        }
    }

    /// Tells whether a transaction holds a lock on a key. One without a row holds none.
    pub fn holds(&self, txn: TxnId, key: &Key) -> bool
        ensures { result ≡ holds (held_in self.now.rows txn) key.now }
    {
        self.locks.holds(txn, key)
    }

    /// Tells whether a transaction holds a lock on each of the keys.
    pub fn holds_all(&self, txn: TxnId, keys: &Keys) -> bool
        ensures { result ≡ list_all (holds (held_in self.now.rows txn)) keys.now }
    {
        for key in keys.as_slice() {
            if !self.holds(txn, key) {
                return false;
            }
        }
        true
    }

    /// Returns the transactions that a request wounds, the oldest first. `Memory` if memory runs out.
    pub fn wounded(&self, alloc: Global, txn: TxnId, needs: &[Lock]) -> Result<Ids, Fault>
        ensures ok { IfOk result (λ ids. ids ≡ wounded (claims self.now.rows) txn needs.now) }
        ensures memory { IfErr result (λ fault. fault ≡ Fault.Memory) }
    {
        self.locks.wounded(alloc, txn, needs)
    }

    /// Tells whether a request is granted once the transactions that it wounds are gone.
    pub fn opens(&self, txn: TxnId, needs: &[Lock]) -> bool
        ensures { result ≡
            is_free (claims (without_rows self.now.rows
            (wounded (claims self.now.rows) txn needs.now))) txn needs.now }
    {
        self.locks.opens(txn, needs)
    }

    /// Tells from the numbers of locks alone whether a request for these writes ends nobody and is granted. It may say no although
    /// that is so.
    pub fn is_undisputed(&self, txn: TxnId, writes: &Writes) -> bool
        ensures nobody { result ≡ true →
            wounded (claims self.now.rows) txn (exclusive writes.now) ≡ [] }
        ensures opens { result ≡ true →
            is_free (claims (without_rows self.now.rows
            (wounded (claims self.now.rows) txn (exclusive writes.now))))
            txn (exclusive writes.now) ≡ true }
    {
        self.locks.is_undisputed(txn, writes)
    }

    /// Returns the oldest transaction that waits and would be granted now.
    pub fn ready(&self) -> Option<TxnId>
        ensures { result ≡ ready (claims self.now.rows) }
    {
        self.locks.ready()
    }

    /// Returns the n-th prepared transaction, from 0 by ascending id, and its prepare timestamp.
    pub fn nth_prepared(&self, n: usize) -> Option<(TxnId, Stamp)>
        ensures { result ≡ nth_prepared self.now.rows n }
    {
        self.rows.nth_prepared(n)
    }

    /// Returns the n-th decided transaction, from 0 by ascending id, and its commit timestamp.
    pub fn nth_decided(&self, n: usize) -> Option<(TxnId, Stamp)>
        ensures { result ≡ nth_decided self.now.rows n }
    {
        self.rows.nth_decided(n)
    }

    /// Returns a decided transaction with the least commit timestamp, and that timestamp. `None` if none is decided.
    pub fn earliest_decided(&self) -> Option<(TxnId, Stamp)>
        ensures { IsEarliest (gather decided_row self.now.rows) result }
    {
        self.rows.earliest_decided()
    }

    /// Adds a new transaction, which reads and holds no lock. `Memory` leaves the rows as they were.
    pub fn admit(&mut self, alloc: Global, txn: TxnId) -> Result<(), Fault>
        requires absent { find_row self.old.rows txn ≡ None }
        requires room { length self.old.rows < MOST_ROWS }
        ensures ok { OnOk result (self.new.rows ≡ put_row self.old.rows txn [] Idle) }
        ensures err { OnErr result (self.new ≡ self.old) }
        ensures memory { IfErr result (λ fault. fault ≡ Fault.Memory) }
    {
        let held = self.locks.enter(alloc, txn)?;
        self.rows.put(Row::Reading(RowReading::new(held)));
        Ok(())
    }

    /// Ends a transaction that reads, without a record, and frees its locks. The others stay.
    pub fn end(&mut self, txn: TxnId)
        requires { has_phase is_reading self.old.rows txn ≡ true }
        ensures rows { self.new.rows ≡ without_row self.old.rows txn }
        ensures tokens { self.new.tokens ≡ without_token self.old.tokens txn }
    {
        let state = self.rows.take_reading(txn);
        state.end(&mut self.locks);
    }

    /// Spends every token, and the rows. It takes no memory.
    pub fn stop(self) {
        let Rows { rows, mut locks } = self;
        rows.release_all(&mut locks);
    }
}
