//! The transactions that have a record, in the order in which they came, and the versions.
ghost use Rattle.std.specs.Prelude.{◌≡◌, ◌+◌, ◌<◌, ◌≤◌, ◌++◌, IfErr, IfOk, IsOk, IsTrue, OnOk, Some, length, map, vec_len, vec_capacity};
ghost use Rattle.std.specs.List.{IsDistinct};
ghost use Rattle.indexmap.specs.IndexMap.{spare};
ghost use Rattle.units.specs.ById.{IsById};
ghost use Rattle.units.specs.Ids.{same_id};
ghost use Rattle.units.specs.Keys.{write_before};
ghost use Rattle.units.specs.Lists.{ascends};
ghost use Rattle.units.specs.Versions.{versions};
ghost use Rattle.units.specs.declared.fault.Fault.TheVariants.{Memory};
ghost use Rattle.record.specs.Facts.{after_outcome, kept_entries, with_status, installs_at};
ghost use Rattle.facts.specs.Readers.{writes_standing};
ghost use Rattle.facts.specs.Rules.{allows};
ghost use Rattle.facts.specs.Shown.{meaning, shown_entries, by_id, status_in};

use crate::Status;
use indexmap::IndexMap;
use std::alloc::Global;
use std::mem::replace;
use units::{Fault, Install, Stamp, TxnId, Write, Writes};

// The most versions that one record installs.
const MOST_INSTALLS: usize = 128;

/// Lists the ids of the transactions, ascending.
pub fn ids(alloc: Global, statuses: &IndexMap<TxnId, Status>) -> Result<Vec<TxnId>, Fault>
    ensures ids { IfOk result (λ ids. ids.items ≡
        map (λ e. e.txn) (shown_entries (by_id statuses.now.entries))) }
    ensures order { IfOk result (λ ids. IsById (λ id. id) ids.items) }
    ensures memory { IfErr result (λ fault. fault ≡ Memory) }
{
    let mut ids = ids_as_they_came(alloc, statuses)?;
    ids.sort()?;
    Ok(ids)
}

// Lists the ids in the order in which they came, each once.
fn ids_as_they_came(alloc: Global, statuses: &IndexMap<TxnId, Status>) -> Result<Vec<TxnId>, Fault>
    ensures ids { IfOk result (λ ids. ids.items ≡ map (λ e. e.0) statuses.now.entries) }
    ensures once { IfOk result (λ ids. IsDistinct same_id ids.items) }
    ensures memory { IfErr result (λ fault. fault ≡ Memory) }
{
    let mut ids = Vec::new(alloc);
    for txn in statuses.keys() {
        ids.push(*txn)?;
    }
    Ok(ids)
}

/// Sets how a transaction stands. It takes no memory.
pub fn set(statuses: &mut IndexMap<TxnId, Status>, txn: TxnId, status: Status)
    requires { 1 ≤ spare statuses.old }
    ensures { shown_entries (by_id statuses.new.entries) ≡
        with_status (shown_entries (by_id statuses.old.entries)) txn (meaning status) }
{
    match statuses.insert(txn, status) {
        Ok(_) => {}
        Err(_) => unreachable!(),
    }
}

/// Drops how those stand that are below an id. It takes no memory, and what goes leaves its room.
pub fn retire(statuses: &mut IndexMap<TxnId, Status>, below: TxnId)
    ensures entries { shown_entries (by_id statuses.new.entries) ≡
        kept_entries (Some below) (shown_entries (by_id statuses.old.entries)) }
    ensures room { spare statuses.old ≤ spare statuses.new }
{
    statuses.retain(|txn, _| *txn >= below);
}

/// Ends a transaction by an outcome that may come next, and hands back how it stood. It takes no memory.
pub fn close(statuses: &mut IndexMap<TxnId, Status>, txn: TxnId, outcome: Option<Stamp>) -> Status
    requires { IsTrue (allows (status_in (shown_entries (by_id statuses.old.entries)) txn)
        outcome) }
    ensures entries { shown_entries (by_id statuses.new.entries) ≡
        with_status (shown_entries (by_id statuses.old.entries)) txn
        (after_outcome (status_in (shown_entries (by_id statuses.old.entries)) txn) outcome) }
    ensures former { meaning result ≡ status_in (shown_entries (by_id statuses.old.entries)) txn }
{
    match statuses.get_mut(&txn) {
        Some(status) => {
            let ended = status.after(outcome);
            replace(status, ended)
        }
        None => unreachable!(),
    }
}

/// Makes room for the versions of one record. A long list gets an eighth more, so that little of it stands empty.
pub fn make_room(installs: &mut Vec<Install>) -> Result<(), Fault>
    ensures items { installs.new.items ≡ installs.old.items }
    ensures len { vec_len installs.new ≡ vec_len installs.old }
    ensures room { OnOk result (vec_len installs.new + 128 ≤ vec_capacity installs.new) }
    ensures keeps { vec_capacity installs.old ≤ vec_capacity installs.new }
    ensures succeeds { vec_len installs.old + 128 ≤ vec_capacity installs.old → IsOk result }
    ensures memory { IfErr result (λ fault. fault ≡ Memory) }
{
    let len = installs.len();
    if installs.capacity() - len < MOST_INSTALLS {
        installs.reserve_exact(MOST_INSTALLS + MOST_INSTALLS.max(len / 8))?;
    }
    Ok(())
}

/// Installs what was promised or decided, at a timestamp. It takes no memory.
pub fn install(installs: &mut Vec<Install>, former: Status, at: Stamp)
    requires { vec_len installs.old + 128 ≤ vec_capacity installs.old }
    ensures items { installs.new.items ≡
        installs.old.items ++ installs_at (meaning former) (Some at) }
    ensures up { IsTrue (ascends write_before (writes_standing (meaning former))) }
    ensures few { length (writes_standing (meaning former)) ≤ 128 }
{
    match former {
        Status::Prepared(prepared) => {
            install_writes(installs, Box::into_inner(prepared).into_writes(), at)
        }
        Status::Decided(committed) => {
            install_writes(installs, Box::into_inner(committed).into_writes(), at)
        }
        _ => {}
    }
}

// Installs some writes at a timestamp.
fn install_writes(installs: &mut Vec<Install>, writes: Writes, at: Stamp)
    requires { vec_len installs.old + 128 ≤ vec_capacity installs.old }
    ensures items { installs.new.items ≡ installs.old.items ++ versions writes at }
    ensures up { IsTrue (ascends write_before writes) }
    ensures few { length writes ≤ 128 }
{
    for write in writes.into_vec() {
        let Write { key, value } = write;
        installs.push_reserved(Install { key, at, value });
    }
}
