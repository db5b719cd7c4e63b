//! How the transactions of a log ended.
ghost use Rattle.std.specs.Prelude.{◌≡◌, ◌∷◌, [], IfErr, IfOk, OnOk, option_map};
ghost use Rattle.std.specs.Option.{option_or};
ghost use Rattle.indexmap.specs.IndexMap.{get};
ghost use Rattle.units.specs.Ids.{Id, same_id};
ghost use Rattle.record.specs.Records.{as_ended};
ghost use Rattle.recovery.specs.Recovered.{items};
ghost use Rattle.showing.specs.Histories.{end_in};

use gatelog::Entry;
use indexmap::IndexMap;
use record::Record;
use std::alloc::Global;
use units::{Fault, Stamp, TxnId};

/// How transactions ended, by id: at a timestamp, or aborted.
pub type Ends = IndexMap<TxnId, Option<Stamp>>;

/// Gives how each transaction of a log ended, if it has, by the first record that tells this. The ids that the log retired are
/// among them.
pub fn ends_of(alloc: Global, entries: &[Entry]) -> Result<Ends, Fault>
    ensures ends { IfOk result
        (λ ends. (t : Id) → get same_id ends t ≡ end_in (items entries.now) t) }
    ensures memory { IfErr result (λ fault. fault ≡ Fault.Memory) }
{
    let mut ends = IndexMap::new(alloc);
    for entry in entries {
        note_end(&mut ends, entry.item())?;
    }
    Ok(ends)
}

// Notes the end that one record more tells of, unless the transaction has one.
fn note_end(ends: &mut Ends, item: &Record) -> Result<(), Fault>
    ensures noted { OnOk result ((t : Id) → get same_id ends.new t
        ≡ option_or (get same_id ends.old t) (end_in (item.now ∷ []) t)) }
    ensures memory { IfErr result (λ fault. fault ≡ Fault.Memory) }
{
    let Some((txn, outcome)) = ended(item) else {
        return Ok(());
    };
    if ends.get(&txn).is_none() {
        ends.insert(txn, outcome)?;
    }
    Ok(())
}

// Gives the transaction that a record ends, and how.
fn ended(item: &Record) -> Option<(TxnId, Option<Stamp>)>
    ensures { result ≡ option_map (λ e. (e.txn, e.outcome)) (as_ended item.now) }
{
    match item {
        Record::Outcome { txn, outcome } => Some((*txn, *outcome)),
        Record::Settled { txn, at, .. } => Some((*txn, Some(*at))),
        Record::Closed { txn, outcome, .. } => Some((*txn, *outcome)),
        _ => None,
    }
}

/// Gives how a transaction ended, if it has.
pub fn end_of(ends: &Ends, txn: TxnId) -> Option<Option<Stamp>>
    ensures { result ≡ get same_id ends.now txn }
{
    match ends.get(&txn) {
        Some(outcome) => Some(*outcome),
        None => None,
    }
}
