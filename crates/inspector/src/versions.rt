//! The versions of the serial run, by key.
ghost use Rattle.std.specs.Prelude.{◌≡◌, ◌++◌, IfOk, IfErr, OnOk, None};
ghost use Rattle.std.specs.Option.{option_copied};
ghost use Rattle.units.specs.Keys.{Bytes};
ghost use Rattle.inspector.specs.Versions.{AscendsByKey, AscendsByPlace, before_place, last_value, placed_for, placed_at, placed_from};

use crate::history::Transaction;
use std::alloc::Global;
use std::marker::Model;
use units::{Fault, Key, Value, Write};

/// A write of the transaction at this place of the serial order.
#[derive(Drop)]
pub struct Version<'t> {
    pub place: usize,
    pub write: &'t Write,
}

impl<'t> Model for Version<'t> {
    ghost use Rattle.inspector.specs.Versions.{PlacedWrite};

    ghost Value = { PlacedWrite };

    ghost view = { λ v. record { place = v.place; write = v.write.now } };
}

/// Lists the writes of all transactions, ascending by key. Those of one key stand in the order of their transactions.
pub fn versions_by_key<'t>(
    alloc: Global,
    ordered: &'t [Transaction],
) -> Result<Vec<Version<'t>>, Fault>
    ensures order { IfOk result (λ found. AscendsByKey found.items) }
    ensures same { IfOk result
        (λ found. (k : Bytes) →
        placed_for k found.items ≡ placed_for k (placed_from 0 ordered.now)) }
    ensures memory { IfErr result (λ fault. fault ≡ Fault.Memory) }
{
    let mut found = versions_of(alloc, ordered)?;
    found.sort_by(|version, other| version.write.key.cmp(&other.write.key))?;
    Ok(found)
}

fn versions_of<'t>(alloc: Global, ordered: &'t [Transaction]) -> Result<Vec<Version<'t>>, Fault>
    ensures found { IfOk result (λ found. found.items ≡ placed_from 0 ordered.now) }
    ensures memory { IfErr result (λ fault. fault ≡ Fault.Memory) }
{
    let mut found = Vec::new(alloc);
    for (place, transaction) in ordered.iter().enumerate() {
        add_writes(&mut found, place, transaction.writes.as_slice())?;
    }
    Ok(found)
}

// Adds those of one transaction.
fn add_writes<'t>(
    found: &mut Vec<Version<'t>>,
    place: usize,
    writes: &'t [Write],
) -> Result<(), Fault>
    ensures found { OnOk result (found.new.items ≡ found.old.items ++ placed_at place writes.now) }
    ensures memory { IfErr result (λ fault. fault ≡ Fault.Memory) }
{
    for write in writes {
        found.push(Version { place, write })?;
    }
    Ok(())
}

// Gives those of one key, among some that ascend.
fn run_of<'v, 't>(versions: &'v [Version<'t>], key: &Key) -> &'v [Version<'t>]
    requires { AscendsByKey versions.now }
    ensures { result.now ≡ placed_for key.now versions.now }
{
    let first = versions.partition_point(|version| version.write.key < *key);
    let rest = &versions[first..];
    let count = rest.partition_point(|version| *key >= version.write.key);
    &rest[..count]
}

/// Finds the value of a key after the transactions before a place.
pub fn value_before_place<'t>(
    versions: &[Version<'t>],
    key: &Key,
    place: usize,
) -> Option<&'t Value>
    requires order { AscendsByKey versions.now }
    requires places { AscendsByPlace (placed_for key.now versions.now) }
    ensures { option_copied result ≡ last_value
        (before_place place (placed_for key.now versions.now)) None }
{
    let run = run_of(versions, key);
    let count = run.partition_point(|version| version.place < place);
    last_of(&run[..count])
}

// Gives the last value.
fn last_of<'t>(versions: &[Version<'t>]) -> Option<&'t Value>
    ensures { option_copied result ≡ last_value versions.now None }
{
    if versions.is_empty() {
        return None;
    }
    let last = &versions[versions.len() - 1];
    last.write.value.as_ref()
}
