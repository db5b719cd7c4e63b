//! The transactions of the logs.
ghost use Rattle.std.specs.List.{list_any};
ghost use Rattle.std.specs.Prelude.{flat_map, nat_eq};
ghost use Rattle.std.specs.Prelude.{◌≡◌, ◌≤◌, ◌++◌, length, IfOk, IfErr, OnOk, map};
ghost use Rattle.std.specs.Option.{option_copied};
ghost use Rattle.units.specs.Ids.{Id};
ghost use Rattle.units.specs.Fronts.{front};
ghost use Rattle.record.specs.History.{serial_before, find_txn, history, serial, whole_txn};
ghost use Rattle.inspector.specs.Decided.{decided_in, promised_in, whole_in};
ghost use Rattle.record.specs.Lines.{is_in_at};
ghost use Rattle.inspector.specs.Entries.{AscendsByTxn, entries, of_txn};
ghost use Rattle.inspector.specs.Known.{AscendsById, HaveSame, of_id};

use crate::decisions::{Decision, decision_of};
use crate::entries::{self, Entry};
use record::Record;
use std::alloc::Global;
use std::marker::Model;
use units::{Fault, Stamp, TxnId, Write};

/// A transaction: its id, its timestamp, and its writes in the order in which they are applied.
#[derive(Drop)]
pub struct Transaction {
    pub txn: TxnId,
    pub at: Stamp,
    pub writes: Vec<Write>,
}

impl Model for Transaction {
    ghost use Rattle.record.specs.History.{Txn};

    ghost Value = { Txn };

    ghost view = { λ t. record { txn = t.txn; at = t.at; writes = t.writes.items } };
}

impl Transaction {
    /// Tells whether it comes before another in the serial order.
    pub fn comes_before(&self, other: &Transaction) -> bool
        ensures { result ≡ serial_before self.now other.now }
    {
        self.at.micros() < other.at.micros()
            || (self.at.micros() == other.at.micros() && self.txn < other.txn)
    }
}

/// Lists the transactions of the logs, each with its writes of all shards.
pub fn history_of(
    alloc: Global,
    logs: &[Vec<Record>],
    about: &[Entry<'_>],
) -> Result<Vec<Transaction>, Fault>
    requires order { AscendsByTxn about.now }
    requires same { (t : Id) → of_txn t about.now ≡ of_txn t
        (entries (map (λ log. log.items) logs.now)) }
    ensures history { IfOk result
        (λ found. found.items ≡ history (map (λ log. log.items) logs.now)) }
    ensures memory { IfErr result (λ fault. fault ≡ Fault.Memory) }
{
    let mut found = Vec::new(alloc);
    for (shard, log) in logs.iter().enumerate() {
        add_decided(alloc, &mut found, about, shard, log)?;
    }
    Ok(found)
}

// Adds the transactions that one log decides as the log of the least part.
fn add_decided(
    alloc: Global,
    found: &mut Vec<Transaction>,
    about: &[Entry<'_>],
    shard: usize,
    log: &[Record],
) -> Result<(), Fault>
    requires order { AscendsByTxn about.now }
    ensures found { OnOk result
        (found.new.items ≡ found.old.items ++ decided_in about.now (shard, log.now)) }
    ensures memory { IfErr result (λ fault. fault ≡ Fault.Memory) }
{
    for item in log {
        if let Some(decision) = decision_of(item) {
            if shard == decision.parts.least().number() as usize {
                let run = entries::run_of(about, decision.txn);
                found.push(whole(alloc, run, shard, &decision)?)?;
            }
        }
    }
    Ok(())
}

// Makes the transaction of a decision, with the records about it.
fn whole(
    alloc: Global,
    run: &[Entry<'_>],
    shard: usize,
    commit: &Decision<'_>,
) -> Result<Transaction, Fault>
    ensures whole { IfOk result (λ t. t ≡ whole_in shard commit.now run.now) }
    ensures memory { IfErr result (λ fault. fault ≡ Fault.Memory) }
{
    let mut writes = Vec::new(alloc);
    if let Some(own) = commit.writes {
        add_copies(&mut writes, own.as_slice())?;
    }
    add_promised(&mut writes, run, shard)?;
    Ok(Transaction {
        txn: commit.txn,
        at: commit.at,
        writes,
    })
}

// Adds what others than a given shard promised to write.
fn add_promised(writes: &mut Vec<Write>, run: &[Entry<'_>], shard: usize) -> Result<(), Fault>
    ensures writes { OnOk result
        (writes.new.items ≡ writes.old.items ++ flat_map (λ p. p.writes)
        (promised_in shard run.now)) }
    ensures memory { IfErr result (λ fault. fault ≡ Fault.Memory) }
{
    for entry in run {
        if entry.shard != shard {
            if let Record::Prepare(prepared) = entry.item {
                add_copies(writes, prepared.writes.as_slice())?;
            }
        }
    }
    Ok(())
}

// Adds equal writes.
fn add_copies(writes: &mut Vec<Write>, more: &[Write]) -> Result<(), Fault>
    ensures writes { OnOk result (writes.new.items ≡ writes.old.items ++ more.now) }
    ensures memory { IfErr result (λ fault. fault ≡ Fault.Memory) }
{
    for write in more {
        writes.push(write.copy()?)?;
    }
    Ok(())
}

/// Puts transactions into the serial order.
pub fn put_in_order(found: &mut Vec<Transaction>) -> Result<(), Fault>
    ensures serial { OnOk result (found.new.items ≡ serial found.old.items) }
    ensures memory { IfErr result (λ fault. fault ≡ Fault.Memory) }
{
    found.sort_by_key(|transaction| (transaction.at, transaction.txn))?;
    Ok(())
}

/// Puts transactions into the order of their ids. Those of one id stay in their order.
pub fn put_by_id(found: &mut Vec<Transaction>) -> Result<(), Fault>
    ensures order { OnOk result (AscendsById found.new.items) }
    ensures same { OnOk result (HaveSame found.new.items found.old.items) }
    ensures memory { IfErr result (λ fault. fault ≡ Fault.Memory) }
{
    found.sort_by_key(|transaction| transaction.txn)?;
    Ok(())
}

// Gives those of one id, among some that ascend by id.
fn run_of(found: &[Transaction], txn: TxnId) -> &[Transaction]
    requires { AscendsById found.now }
    ensures { result.now ≡ of_id txn found.now }
{
    let first = found.partition_point(|transaction| transaction.txn < txn);
    let rest = &found[first..];
    let count = rest.partition_point(|transaction| transaction.txn <= txn);
    &rest[..count]
}

/// Finds the first transaction of an id, among some that ascend by id.
pub fn find(found: &[Transaction], txn: TxnId) -> Option<&Transaction>
    requires { AscendsById found.now }
    ensures { option_copied result ≡ find_txn found.now txn }
{
    match run_of(found, txn) {
        [] => None,
        [first, ..] => Some(first),
    }
}

/// Tells whether the id is there at this timestamp, among some that ascend by id.
#[tactic(auto, using(crate::proofs::FoundLaws::any_of_id))]
pub fn is_in_at(found: &[Transaction], txn: TxnId, at: Stamp) -> bool
    requires { AscendsById found.now }
    ensures { result ≡ is_in_at found.now txn at }
{
    is_at(run_of(found, txn), at)
}

// Tells whether one of them is at this timestamp.
fn is_at(run: &[Transaction], at: Stamp) -> bool
    ensures { result ≡ list_any (λ u. nat_eq u.at at) run.now }
{
    for transaction in run {
        if transaction.at.micros() == at.micros() {
            return true;
        }
    }
    false
}
