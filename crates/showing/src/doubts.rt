//! The transactions that a log promises or decides and does not end.
ghost use Rattle.std.specs.Prelude.{◌≡◌, ◌++◌, ◌∷◌, [], IfOk, IfErr, OnOk};
ghost use Rattle.indexmap.specs.IndexMap.{get};
ghost use Rattle.units.specs.Ids.{same_id};
ghost use Rattle.units.specs.Lists.{gather};
ghost use Rattle.recovery.specs.Recovered.{items};
ghost use Rattle.showing.specs.Stats.{as_begun, doubt_of, doubts_in};

use crate::endings::{Ends, end_of, ends_of};
use crate::stats::InDoubt;
use gatelog::Entry;
use record::Record;
use std::alloc::Global;
use units::Fault;

/// The transactions that a log promises or decides and does not end, in its order.
pub fn in_doubt(alloc: Global, entries: &[Entry]) -> Result<Vec<InDoubt>, Fault>
    ensures doubts { IfOk result (λ doubts. doubts.items ≡ doubts_in (items entries.now)) }
    ensures memory { IfErr result (λ fault. fault ≡ Fault.Memory) }
{
    let ends = ends_of(alloc, entries)?;
    doubts_by(alloc, &ends, entries)
}

// Notes what each record begins, by the ends of transactions.
fn doubts_by(alloc: Global, ends: &Ends, entries: &[Entry]) -> Result<Vec<InDoubt>, Fault>
    ensures doubts { IfOk result (λ doubts. doubts.items
        ≡ gather (λ r. doubt_of (get same_id ends.now) (as_begun r)) (items entries.now)) }
    ensures memory { IfErr result (λ fault. fault ≡ Fault.Memory) }
{
    let mut doubts = Vec::new(alloc);
    for entry in entries {
        note(&mut doubts, ends, entry.item())?;
    }
    Ok(doubts)
}

// Notes what one record begins, where it is not ended.
fn note(doubts: &mut Vec<InDoubt>, ends: &Ends, item: &Record) -> Result<(), Fault>
    ensures noted { OnOk result (doubts.new.items ≡ doubts.old.items
        ++ gather (λ r. doubt_of (get same_id ends.now) (as_begun r)) (item.now ∷ [])) }
    ensures memory { IfErr result (λ fault. fault ≡ Fault.Memory) }
{
    match begun(item) {
        Some(doubt) => match end_of(ends, doubt.txn) {
            Some(_) => Ok(()),
            None => {
                doubts.push(doubt)?;
                Ok(())
            }
        },
        None => Ok(()),
    }
}

// What a record promises or decides.
fn begun(item: &Record) -> Option<InDoubt>
    ensures { result ≡ as_begun item.now }
{
    match item {
        Record::Prepare(p) => Some(InDoubt {
            txn: p.txn,
            at: p.at,
            is_decided: false,
        }),
        Record::Commit(c) => Some(InDoubt {
            txn: c.txn,
            at: c.at,
            is_decided: true,
        }),
        _ => None,
    }
}
