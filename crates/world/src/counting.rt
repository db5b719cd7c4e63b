//! The lines of a report that count.
ghost use Rattle.std.specs.Prelude.{◌≡◌, ◌&&◌, ◌||◌, [], nat_eq, List, IfOk, IfErr, OnOk, filter, map};
ghost use Rattle.units.specs.Ids.{Id, same_id};
ghost use Rattle.units.specs.Lists.{head, when};
ghost use Rattle.record.specs.History.{history};
ghost use Rattle.record.specs.declared.record.Record.{Record as Logged};
ghost use Rattle.world.specs.World.{counted_lines, line_counts};
ghost use Rattle.world.specs.Among.{is_among};
ghost use Rattle.world.specs.Counts.{AreDecided, commits_at, commits_here};

use indexmap::IndexSet;
use record::Record;
use std::alloc::Global;
use units::{Fault, Line, Parts, TxnId};

/// Returns the lines that count, in order. An answered read counts if its transaction committed, as the logs have it. `Memory` if memory
/// runs out.
#[tactic(auto, unfolding(crate::specs::World::counted_lines))]
pub fn counted(alloc: Global, logs: &[Vec<Record>], lines: Vec<Line>) -> Result<Vec<Line>, Fault>
    ensures counted { IfOk result
        (λ counted. counted.items ≡ counted_lines (map (λ log. log.items) logs.now) lines.items) }
    ensures memory { IfErr result (λ fault. fault ≡ Fault.Memory) }
{
    let mut decided = IndexSet::new(alloc);
    match note_all(&mut decided, logs) {
        Ok(()) => Ok(counting_by(&decided, lines)),
        Err(fault) => {
            drop(lines);
            Err(fault)
        }
    }
}

// The lines that count, if these transactions committed.
fn counting_by(decided: &IndexSet<TxnId>, mut lines: Vec<Line>) -> Vec<Line>
    ensures { (logs : List (List Logged)) → AreDecided decided.now.keys logs
        → result.items ≡ filter (line_counts (history logs)) lines.items }
{
    lines.retain(|line| counts(decided, line));
    lines
}

// Whether the line counts, if these transactions committed.
fn counts(decided: &IndexSet<TxnId>, line: &Line) -> bool
    ensures { (logs : List (List Logged)) → AreDecided decided.now.keys logs
        → result ≡ line_counts (history logs) line.now }
{
    match line {
        Line::Read(txn, _, _) => decided.contains(txn),
        _ => true,
    }
}

// Adds the transactions whose decision stands in the log of their least part.
fn note_all(ids: &mut IndexSet<TxnId>, logs: &[Vec<Record>]) -> Result<(), Fault>
    requires { ids.old.keys ≡ [] }
    ensures decided { OnOk result (AreDecided ids.new.keys (map (λ log. log.items) logs.now)) }
    ensures memory { IfErr result (λ fault. fault ≡ Fault.Memory) }
{
    for (shard, log) in logs.iter().enumerate() {
        note_decided(ids, shard, log)?;
    }
    Ok(())
}

// Adds those whose decision stands in the log of one shard.
fn note_decided(ids: &mut IndexSet<TxnId>, shard: usize, log: &[Record]) -> Result<(), Fault>
    ensures decided { (t : Id) → OnOk result (is_among ids.new.keys t ≡
        (is_among ids.old.keys t || commits_here t shard log.now)) }
    ensures memory { IfErr result (λ fault. fault ≡ Fault.Memory) }
{
    for item in log {
        if let Some(txn) = decides(item, shard) {
            ids.insert(txn)?;
        }
    }
    Ok(())
}

// The transaction whose decision the record is, if the shard is its least part.
fn decides(item: &Record, shard: usize) -> Option<TxnId>
    ensures { (t : Id) → when (λ u. same_id u t) result ≡ commits_at t shard item.now }
{
    match item {
        Record::Commit(committed) => where_least(committed.txn, committed.parts, shard),
        Record::Settled { txn, parts, .. } => where_least(*txn, *parts, shard),
        _ => None,
    }
}

// The transaction, if the shard is the least of its parts.
fn where_least(txn: TxnId, parts: Parts, shard: usize) -> Option<TxnId>
    ensures { (t : Id) → when (λ u. same_id u t) result
        ≡ (same_id txn t && when (nat_eq shard) (head parts)) }
{
    if shard == parts.least().number() as usize {
        Some(txn)
    } else {
        None
    }
}
