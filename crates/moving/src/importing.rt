//! Keys and values are read from a text, and put into a store.
ghost use Rattle.std.specs.Prelude.{◌≡◌, ◌++◌, ℕ, List, [], ◌∷◌, None, OnOk, IfOk, MatchResult, length, true};
ghost use Rattle.std.specs.List.{All};
ghost use Rattle.pairs.specs.declared.pair.Pair.{Pair};
ghost use Rattle.moving.specs.Imports.{HasPut, IsPut, is_committed, pairs_in};

use pairs::{Pair, Pairs};
use std::alloc::Global;
use std::sync::Wait;
use std::time;
use store::{Client, Ended, Halt, Transaction};
use units::{Fault, TxnId};

// So many writes a transaction of an import has at most.
const BATCH: usize = 128;

// How often a transaction of an import is tried.
const TRIES: u32 = 100;

/// What has been imported.
#[derive(Clone, Copy, PartialEq, Eq)]
pub struct Imported {
    /// So many pairs, from the first on, are committed.
    pub pairs: u64,
    /// Why no more are, if there are more.
    pub stop: Option<Stop>,
}

/// Why an import has stopped. What it has put stands. The same text may be imported again: it puts the same values.
#[derive(Clone, Copy, PartialEq, Eq)]
pub enum Stop {
    /// A line is no key and value, the text cannot be read, or a transaction was refused.
    Refused(Fault),
    /// A transaction was aborted each time.
    Aborted,
    /// Nobody said how the transaction with this id ended: its pairs stand whole, or not at all.
    Unknown(TxnId),
}

/// Puts the pairs that come from a text, up to 128 a transaction, in their order. It stops at the first line that is none, and at the first
/// transaction that is not surely committed. Lines that were read before, and were to be put with that one, are not put.
pub fn import<R: Wait + time::Clock, P: Pairs>(
    alloc: Global,
    client: &mut Client<'_, R>,
    source: &mut P,
) -> Imported
    // Transactions of the client's run put the first pairs that came, each its part, in order. So many are told.
    ensures { (batches : List (List Pair)) × All (IsPut client.old.run) batches
        × (result.pairs ≡ length (pairs_in batches))
        × ((left : List Pair) × (P.given source.new ≡ P.given source.old ++ pairs_in batches ++ left)
        × (result.stop ≡ None → left ≡ [])) }
{
    let mut imported = 0_u64;
    for _batch in 0..u64::MAX {
        let batch = match next_batch(alloc, source) {
            Ok(batch) => batch,
            Err(fault) => return stopped(imported, Stop::Refused(fault)),
        };
        if batch.is_empty() {
            return Imported {
                pairs: imported,
                stop: None,
            };
        }
        let Some(sum) = imported.checked_add(batch.len() as u64) else {
            return stopped(imported, Stop::Refused(Fault::TimeSpent));
        };
        match put_all(client, &batch) {
            Ok(()) => imported = sum,
            Err(stop) => return stopped(imported, stop),
        }
    }
    stopped(imported, Stop::Refused(Fault::TimeSpent))
}

fn stopped(pairs: u64, stop: Stop) -> Imported
    ensures pairs { result.pairs ≡ pairs }
    ensures stop { result.stop ≡ None → ⊥ }
{
    Imported {
        pairs,
        stop: Some(stop),
    }
}

// The next pairs, as many as a transaction takes; none if there are no more.
fn next_batch<P: Pairs>(alloc: Global, source: &mut P) -> Result<Vec<Pair>, Fault>
    ensures { MatchResult result
        (λ batch. P.given source.new ≡ P.given source.old ++ batch.items)
        (λ fault. (read : List Pair) × (P.given source.new ≡ P.given source.old ++ read)) }
{
    let mut batch = Vec::new(alloc);
    for _pair in 0..BATCH {
        let Some(pair) = source.next(alloc)? else {
            break;
        };
        if let Err(failed) = batch.push(pair) {
            drop(failed);
            return Err(Fault::Memory);
        }
    }
    Ok(batch)
}

// Puts some pairs in one transaction.
fn put_all<R: Wait + time::Clock>(client: &mut Client<'_, R>, pairs: &[Pair]) -> Result<(), Stop>
    ensures run { client.new.run ≡ client.old.run }
    ensures put { OnOk result (IsPut client.old.run pairs.now) }
{
    let ended = client.transact(
        TRIES,
        |tx: &mut Transaction<'_, R>| -> Result<(), Halt>
            ensures { OnOk result (HasPut pairs.entry.now tx.old.session.client
                tx.new.session.client) }
        { put_each(tx, pairs) },
    );
    match ended {
        Ok(ended) => stands(ended),
        Err(fault) => Err(Stop::Refused(fault)),
    }
}

// Why a transaction does not surely stand.
fn stands(ended: Ended) -> Result<(), Stop>
    ensures { OnOk result (is_committed ended ≡ true) }
{
    match ended {
        Ended::Committed { .. } => Ok(()),
        Ended::Abandoned(()) | Ended::Aborted { .. } => Err(Stop::Aborted),
        Ended::Unknown { id } => Err(Stop::Unknown(id)),
    }
}

// Puts some pairs, one after the other.
fn put_each<R: Wait + time::Clock>(tx: &mut Transaction<'_, R>, pairs: &[Pair]) -> Result<(), Halt>
    ensures { OnOk result (HasPut pairs.now tx.old.session.client tx.new.session.client) }
{
    for pair in pairs {
        let value = pair.value.copy()?;
        tx.put(&pair.key, value)?;
    }
    Ok(())
}
