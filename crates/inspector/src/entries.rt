//! The records about transactions, ascending by transaction.
ghost use Rattle.std.specs.Prelude.{◌≡◌, ◌++◌, IfOk, IfErr, OnOk, map};
ghost use Rattle.units.specs.Ids.{Id};
ghost use Rattle.units.specs.Lists.{gather};
ghost use Rattle.record.specs.Records.{id_in};
ghost use Rattle.inspector.specs.Entries.{about_in, entries, of_txn, AscendsByTxn};

use record::Record;
use std::alloc::Global;
use std::marker::Model;
use units::{Fault, TxnId};

/// A record about a transaction, with the number of its log.
#[derive(Drop)]
pub struct Entry<'l> {
    pub txn: TxnId,
    pub shard: usize,
    pub item: &'l Record,
}

impl<'l> Model for Entry<'l> {
    ghost use Rattle.inspector.specs.Entries.{About};

    ghost Value = { About };

    ghost view = { λ e. record { txn = e.txn; shard = e.shard; item = e.item.now } };
}

/// Lists the records of all logs, ascending by transaction. Those of one transaction stand in the order of the logs.
pub fn entries_by_txn<'l>(alloc: Global, logs: &'l [Vec<Record>]) -> Result<Vec<Entry<'l>>, Fault>
    ensures order { IfOk result (λ found. AscendsByTxn found.items) }
    ensures same { IfOk result
        (λ found. (t : Id) → of_txn t found.items ≡ of_txn t
        (entries (map (λ log. log.items) logs.now))) }
    ensures memory { IfErr result (λ fault. fault ≡ Fault.Memory) }
{
    let mut found = entries_of(alloc, logs)?;
    found.sort_by_key(|entry| entry.txn)?;
    Ok(found)
}

fn entries_of<'l>(alloc: Global, logs: &'l [Vec<Record>]) -> Result<Vec<Entry<'l>>, Fault>
    ensures found { IfOk result (λ found. found.items ≡ entries (map (λ log. log.items) logs.now)) }
    ensures memory { IfErr result (λ fault. fault ≡ Fault.Memory) }
{
    let mut found = Vec::new(alloc);
    for (shard, log) in logs.iter().enumerate() {
        add_entries(&mut found, shard, log)?;
    }
    Ok(found)
}

// Adds those of one log.
fn add_entries<'l>(found: &mut Vec<Entry<'l>>, shard: usize, log: &'l [Record]) -> Result<(), Fault>
    ensures found { OnOk result
        (found.new.items ≡ found.old.items ++ gather (about_in shard) log.now) }
    ensures memory { IfErr result (λ fault. fault ≡ Fault.Memory) }
{
    for item in log {
        if let Some(txn) = id_of(item) {
            found.push(Entry { txn, shard, item })?;
        }
    }
    Ok(())
}

// Gives the id that a record is about.
fn id_of(item: &Record) -> Option<TxnId>
    ensures { result ≡ id_in item.now }
{
    match item {
        Record::Prepare(prepared) => Some(prepared.txn),
        Record::Commit(committed) => Some(committed.txn),
        Record::Abort { txn } => Some(*txn),
        Record::Outcome { txn, .. } => Some(*txn),
        Record::Settled { txn, .. } => Some(*txn),
        Record::Closed { txn, .. } => Some(*txn),
        _ => None,
    }
}

/// Gives those of one transaction, among some that ascend.
pub fn run_of<'e, 'l>(entries: &'e [Entry<'l>], txn: TxnId) -> &'e [Entry<'l>]
    requires { AscendsByTxn entries.now }
    ensures { result.now ≡ of_txn txn entries.now }
{
    let first = entries.partition_point(|entry| entry.txn < txn);
    let rest = &entries[first..];
    let count = rest.partition_point(|entry| entry.txn <= txn);
    &rest[..count]
}
