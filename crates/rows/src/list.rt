//! The rows by ascending id, in memory that is taken once for all of them.
ghost use Rattle.std.specs.Prelude.{◌≡◌, ◌+◌, ◌<◌, ◌≤◌, [], true, false, IfOk, IfErr, length, slice_get, vec_capacity};
ghost use Rattle.std.specs.List.{find, list_any, position_or_len};
ghost use Rattle.std.specs.Option.{option_copied};
ghost use Rattle.std.specs.List.Sorted.{IsPartitionPoint};
ghost use Rattle.units.specs.ById.{IsById};
ghost use Rattle.units.specs.Ids.{same_id, older};
ghost use Rattle.units.specs.Lists.{gather};
ghost use Rattle.rows.specs.CodeRows.{txn_of, has_txn, passes, is_reading, stamp_if_prepared, stamp_if_decided, put_in, IsRowList, IsOut};
ghost use Rattle.rows.specs.RowTable.{IsEarliest, earlier};

use crate::row::Row;
use crate::states::RowReading;
use locks::Table;
use std::alloc::Global;
use std::marker::Model;
use units::{Fault, MOST_ROWS, Stamp, TxnId};

/// The rows of a shard's transactions, by ascending id.
pub struct RowList {
    rows: Vec<Row>,
}

impl Model for RowList {
    ghost use Rattle.std.specs.Prelude.{List, ◌≤◌, vec_capacity};
    ghost use Rattle.rows.specs.declared.row.Row.{Row};
    ghost use Rattle.rows.specs.CodeRows.{IsRowList};
    ghost use Rattle.units.specs.Limits.{most_rows};

    ghost Value = { List Row };

    ghost view = { λ l. l.rows.items };

    ghost invariant = { λ l. IsRowList l.rows.items × (most_rows ≤ vec_capacity l.rows) };
}

impl RowList {
    /// Makes an empty list with the memory for 1,024 rows. `Memory` if memory runs out.
    pub fn new(alloc: Global) -> Result<RowList, Fault>
        ensures none { IfOk result (λ rows. rows ≡ []) }
        ensures memory { IfErr result (λ fault. fault ≡ Fault.Memory) }
    {
        let rows = Vec::with_capacity(alloc, MOST_ROWS)?;
        Ok(RowList { rows })
    }

    /// Says that the rows ascend by id and are not too many. It does nothing.
    pub fn laws(&self)
        ensures { IsRowList self.now }
    {
        let _ = &self.rows;
    }

    /// Returns the number of rows.
    pub fn len(&self) -> usize
        ensures { result ≡ length self.now }
    {
        self.rows.len()
    }

    /// Returns the row of a transaction, if it has one.
    pub fn find(&self, txn: TxnId) -> Option<&Row>
        ensures { option_copied result ≡ find (λ r. same_id (txn_of r) txn) self.now }
    {
        found(&self.rows, txn)
    }

    /// Tells whether a transaction of a lower id has a row.
    pub fn has_below(&self, below: TxnId) -> bool
        ensures { result ≡ list_any (λ r. older (txn_of r) below) self.now }
    {
        self.rows.iter().any(|row| row.txn() < below)
    }

    /// Returns the n-th prepared transaction, from 0, and its prepare timestamp.
    pub fn nth_prepared(&self, n: usize) -> Option<(TxnId, Stamp)>
        ensures { result ≡ slice_get (gather stamp_if_prepared self.now) n }
    {
        let mut left = n;
        for row in &self.rows {
            if let Some(found) = row.prepared() {
                if left == 0 {
                    return Some(found);
                }
                left -= 1;
            }
        }
        None
    }

    /// Returns the n-th decided transaction, from 0, and its commit timestamp.
    pub fn nth_decided(&self, n: usize) -> Option<(TxnId, Stamp)>
        ensures { result ≡ slice_get (gather stamp_if_decided self.now) n }
    {
        let mut left = n;
        for row in &self.rows {
            if let Some(found) = row.decided() {
                if left == 0 {
                    return Some(found);
                }
                left -= 1;
            }
        }
        None
    }

    /// Returns a decided transaction with the least commit timestamp, and that timestamp. `None` if none is decided.
    pub fn earliest_decided(&self) -> Option<(TxnId, Stamp)>
        ensures { IsEarliest (gather stamp_if_decided self.now) result }
    {
        let mut earliest = None;
        for row in &self.rows {
            earliest = earlier(earliest, row.decided());
        }
        earliest
    }

    /// Spends the token of each row, and the list.
    pub fn release_all(self, table: &mut Table) {
        let RowList { mut rows } = self;
        for _ in 0..rows.len() {
            match rows.pop() {
                Some(row) => row.release(table),
                None => {}
            }
        }
        rows.destroy_empty();
    }

    /// Takes out the row of a transaction that reads.
    pub fn take_reading(&mut self, txn: TxnId) -> RowReading
        requires { passes is_reading self.old txn ≡ true }
        ensures { IsOut self.old self.new txn (Row.Reading result) }
    {
        match self.take(txn) {
            Row::Reading(state) => state,
            _ => unreachable!(),
        }
    }

    /// Takes out the row of a transaction.
    pub fn take(&mut self, txn: TxnId) -> Row
        requires { has_txn self.old txn ≡ true }
        ensures { IsOut self.old self.new txn result }
    {
        let at = place(&self.rows, txn);
        self.rows.remove(at)
    }

    /// Puts in the row of a transaction that has none. It takes no memory.
    pub fn put(&mut self, row: Row)
        requires absent { has_txn self.old (txn_of row) ≡ false }
        requires room { length self.old < MOST_ROWS }
        ensures { self.new ≡ put_in self.old row }
    {
        let at = place_for(&self.rows, row.txn());
        match self.rows.insert(at, row) {
            Ok(()) => {}
            Err(_) => unreachable!(),
        }
    }
}

// The transaction's row, if it has one.
fn found(rows: &[Row], txn: TxnId) -> Option<&Row>
    requires { IsById txn_of rows.now }
    ensures { option_copied result ≡ find (λ r. same_id (txn_of r) txn) rows.now }
{
    let at = first_from(rows, txn);
    if at < rows.len() && rows[at].is_of(txn) {
        return Some(&rows[at]);
    }
    None
}

// The place of the first row that is not older than the transaction.
fn first_from(rows: &[Row], txn: TxnId) -> usize
    requires { IsById txn_of rows.now }
    ensures within { result ≤ length rows.now }
    ensures parted { IsPartitionPoint (λ r. older (txn_of r) txn ≡ true)
        (λ r. older (txn_of r) txn ≡ false) rows.now result }
{
    rows.partition_point(|row| row.txn() < txn)
}

// The one with the lower timestamp, if both are there.
fn earlier(one: Option<(TxnId, Stamp)>, other: Option<(TxnId, Stamp)>) -> Option<(TxnId, Stamp)>
    ensures { result ≡ earlier one other }
{
    match (one, other) {
        (Some(first), Some(second)) => {
            if first.1 <= second.1 {
                Some(first)
            } else {
                Some(second)
            }
        }
        (Some(first), None) => Some(first),
        (None, second) => second,
    }
}

// The place of the transaction's row.
fn place(rows: &[Row], txn: TxnId) -> usize
    requires order { IsById txn_of rows.now }
    requires row { has_txn rows.now txn ≡ true }
    ensures within { result < length rows.now }
    ensures place { result ≡ position_or_len (λ r. same_id (txn_of r) txn) rows.now }
{
    first_from(rows, txn)
}

// The place at which the transaction's row would be put in.
fn place_for(rows: &[Row], txn: TxnId) -> usize
    requires { IsById txn_of rows.now }
    ensures within { result ≤ length rows.now }
    ensures place { result ≡ position_or_len (λ r. older txn (txn_of r)) rows.now }
{
    rows.partition_point(|row| row.txn() <= txn)
}
