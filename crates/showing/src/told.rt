//! What the log of a shard says of a key.
ghost use Rattle.std.specs.Prelude.{◌≡◌, ◌++◌, ◌∷◌, [], Some, IfOk, IfErr, OnOk, flat_map};
ghost use Rattle.indexmap.specs.IndexMap.{get};
ghost use Rattle.units.specs.Ids.{same_id};
ghost use Rattle.recovery.specs.Recovered.{items};
ghost use Rattle.showing.specs.Histories.{history, standing_by, told_as, told_by, version_told};

use crate::endings::{Ends, end_of, ends_of};
use gatelog::Entry;
use record::Record;
use std::alloc::Global;
use units::{Fault, Install, Key, Stamp, TxnId, Value, Write, Writes, copy_value};

/// How a write of a transaction stands in a log.
#[derive(Clone, Copy)]
pub enum Standing {
    /// It is a version, from this timestamp on.
    Installed(Stamp),
    /// Its transaction commits at this timestamp, which is decided, and has no outcome yet.
    Decided(Stamp),
    /// It is promised from this timestamp on, and the log does not tell how its transaction ends.
    Promised(Stamp),
}

/// What a transaction makes of a key: a value, or `None` for an erasure. Of a version that a renewed log holds no transaction is known.
#[derive(Drop)]
pub struct Told {
    pub txn: Option<TxnId>,
    pub standing: Standing,
    pub value: Option<Value>,
}

/// Each write of a key that a log promises or decides, in its order, unless it was aborted, and each version that a renewed log holds.
pub fn history(alloc: Global, key: &Key, entries: &[Entry]) -> Result<Vec<Told>, Fault>
    ensures told { IfOk result (λ told. told.items ≡ history (items entries.now) key.now) }
    ensures memory { IfErr result (λ fault. fault ≡ Fault.Memory) }
{
    let ends = ends_of(alloc, entries)?;
    told_by(alloc, &ends, key, entries)
}

// Tells of each record, by the ends of transactions.
fn told_by(alloc: Global, ends: &Ends, key: &Key, entries: &[Entry]) -> Result<Vec<Told>, Fault>
    ensures told { IfOk result (λ told. told.items
        ≡ flat_map (told_by (get same_id ends.now) key.now) (items entries.now)) }
    ensures memory { IfErr result (λ fault. fault ≡ Fault.Memory) }
{
    let mut told = Vec::new(alloc);
    for entry in entries {
        tell(&mut told, ends, entry.item(), key)?;
    }
    Ok(told)
}

// Tells of one record.
fn tell(told: &mut Vec<Told>, ends: &Ends, item: &Record, key: &Key) -> Result<(), Fault>
    ensures told { OnOk result (told.new.items ≡ told.old.items
        ++ told_by (get same_id ends.now) key.now item.now) }
    ensures memory { IfErr result (λ fault. fault ≡ Fault.Memory) }
{
    match item {
        Record::Prepare(p) => {
            let standing = standing_by(Standing::Promised(p.at), end_of(ends, p.txn));
            tell_writes(told, p.txn, standing, &p.writes, key)
        }
        Record::Commit(c) => {
            let standing = standing_by(Standing::Decided(c.at), end_of(ends, c.txn));
            tell_writes(told, c.txn, standing, &c.writes, key)
        }
        Record::Version(version) => tell_version(told, version, key),
        _ => Ok(()),
    }
}

// How what was promised or decided stands behind an outcome, if it has one.
fn standing_by(before: Standing, outcome: Option<Option<Stamp>>) -> Option<Standing>
    ensures { result ≡ standing_by before outcome }
{
    match outcome {
        None => Some(before),
        Some(None) => None,
        Some(Some(at)) => Some(Standing::Installed(at)),
    }
}

// Tells of a version, where it is of the key.
fn tell_version(told: &mut Vec<Told>, version: &Install, key: &Key) -> Result<(), Fault>
    ensures told { OnOk result
        (told.new.items ≡ told.old.items ++ version_told key.now version.now) }
    ensures memory { IfErr result (λ fault. fault ≡ Fault.Memory) }
{
    if version.key != *key {
        return Ok(());
    }
    let value = copy_value(&version.value)?;
    told.push(Told {
        txn: None,
        standing: Standing::Installed(version.at),
        value,
    })?;
    Ok(())
}

// Tells of the writes of the key, where they stand anyhow.
fn tell_writes(
    told: &mut Vec<Told>,
    txn: TxnId,
    standing: Option<Standing>,
    writes: &Writes,
    key: &Key,
) -> Result<(), Fault>
    ensures told { OnOk result
        (told.new.items ≡ told.old.items ++ told_as key.now txn writes.now standing) }
    ensures memory { IfErr result (λ fault. fault ≡ Fault.Memory) }
{
    match standing {
        Some(standing) => tell_standing(told, txn, &standing, writes, key),
        None => Ok(()),
    }
}

fn tell_standing(
    told: &mut Vec<Told>,
    txn: TxnId,
    standing: &Standing,
    writes: &Writes,
    key: &Key,
) -> Result<(), Fault>
    ensures told { OnOk result
        (told.new.items ≡ told.old.items ++ told_as key.now txn writes.now (Some standing.now)) }
    ensures memory { IfErr result (λ fault. fault ≡ Fault.Memory) }
{
    for write in writes.as_slice() {
        tell_write(told, txn, standing, write, key)?;
    }
    Ok(())
}

// Tells of a write, where it is of the key.
fn tell_write(
    told: &mut Vec<Told>,
    txn: TxnId,
    standing: &Standing,
    write: &Write,
    key: &Key,
) -> Result<(), Fault>
    ensures told { OnOk result (told.new.items ≡ told.old.items
        ++ told_as key.now txn (write.now ∷ []) (Some standing.now)) }
    ensures memory { IfErr result (λ fault. fault ≡ Fault.Memory) }
{
    if write.key != *key {
        return Ok(());
    }
    let value = copy_value(&write.value)?;
    told.push(Told {
        txn: Some(txn),
        standing: *standing,
        value,
    })?;
    Ok(())
}
