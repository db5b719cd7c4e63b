//! The records of a renewed log, handed on one by one.
ghost use Rattle.std.specs.Prelude.{◌≡◌, ◌<◌, ◌++◌, ◌∷◌, [], List, drop, length, map, IfErr, IfOk, IsTrue, OnOk};
ghost use Rattle.std.specs.Option.{option_copied};
ghost use Rattle.units.specs.ById.{IsById};
ghost use Rattle.units.specs.Ids.{Id};
ghost use Rattle.units.specs.Lists.{gather};
ghost use Rattle.record.specs.declared.record.Record.{Record};
ghost use Rattle.facts.specs.Shown.{meant};
ghost use Rattle.versions.specs.Arranged.{arranged, AreWithin};
ghost use Rattle.versions.specs.Orders.{Orders};
ghost use Rattle.versions.specs.Pruned.{first_left};
ghost use Rattle.protocol.specs.Showable.{rises_by_key};
ghost use Rattle.ledger.specs.Handed.{standing_of};
ghost use Rattle.ledger.specs.Turned.{ended_item, retired_item, standing_item, turned, versions_held};

use facts::{Facts, Status};
use record::{Committed, Prepared, Record};
use std::alloc::Global;
use units::{Epoch, Fault, Install, TxnId};
use versions::{Places, left};

/// What takes the records of a renewed log, one by one, in order.
pub trait Recorder {
    /// The records that it took.
    ghost records: { Self → List Record };

    /// Takes the next record. `Memory` is its only refusal.
    fn record(&mut self, alloc: Global, item: &Record) -> Result<(), Fault>
        ensures added { OnOk result (records self.new ≡ records self.old ++ item.now ∷ []) }
        ensures memory { IfErr result (λ fault. fault ≡ Fault.Memory) };
}

/// Hands on the records of the renewed log of some facts, the versions in the order of their places. It makes and drops one
/// record at a time.
pub fn renew<R: Recorder>(
    alloc: Global,
    facts: &Facts,
    places: &Places,
    recorder: &mut R,
) -> Result<(), Fault>
    requires orders { Orders facts.now.facts.horizon facts.now.facts.installs
        (length facts.now.facts.installs) places.now }
    requires opened { 0 < facts.now.facts.epoch }
    requires rising { IsTrue (rises_by_key [] facts.now.facts.installs) }
    ensures all { OnOk result
        (R.records recorder.new ≡ R.records recorder.old ++ turned facts.now.facts) }
    ensures memory { IfErr result (λ fault. fault ≡ Fault.Memory) }
{
    let ids = facts.ids(alloc)?;
    hand_base(alloc, facts, recorder)?;
    hand_versions(alloc, facts, places, recorder)?;
    hand_retired(alloc, facts, recorder)?;
    let rest = hand_ended(alloc, facts, &ids, recorder)?;
    hand_standing(alloc, facts, &rest, recorder)
}

// Hands on the epoch, the greatest timestamp and the horizon.
fn hand_base<R: Recorder>(alloc: Global, facts: &Facts, recorder: &mut R) -> Result<(), Fault>
    requires { 0 < facts.now.facts.epoch }
    ensures added { OnOk result (R.records recorder.new ≡ R.records recorder.old
        ++ Record.Base facts.now.facts.epoch facts.now.facts.floor facts.now.facts.horizon ∷ []) }
    ensures memory { IfErr result (λ fault. fault ≡ Fault.Memory) }
{
    let epoch = match Epoch::new(facts.epoch()) {
        Some(epoch) => epoch,
        None => unreachable!(),
    };
    let base = Record::Base {
        epoch,
        floor: facts.floor(),
        horizon: facts.horizon(),
    };
    hand(alloc, base, recorder)
}

// Hands on one record, and drops it.
fn hand<R: Recorder>(alloc: Global, item: Record, recorder: &mut R) -> Result<(), Fault>
    ensures added { OnOk result
        (R.records recorder.new ≡ R.records recorder.old ++ item ∷ []) }
    ensures memory { IfErr result (λ fault. fault ≡ Fault.Memory) }
{
    recorder.record(alloc, &item)
}

// Hands on the versions that the horizon leaves, in order.
fn hand_versions<R: Recorder>(
    alloc: Global,
    facts: &Facts,
    places: &Places,
    recorder: &mut R,
) -> Result<(), Fault>
    requires orders { Orders facts.now.facts.horizon facts.now.facts.installs
        (length facts.now.facts.installs) places.now }
    requires rising { IsTrue (rises_by_key [] facts.now.facts.installs) }
    ensures added { OnOk result (R.records recorder.new ≡ R.records recorder.old
        ++ map Record.Version (versions_held facts.now.facts)) }
    ensures memory { IfErr result (λ fault. fault ≡ Fault.Memory) }
{
    let list = places.list(alloc)?;
    let order = list.as_slice();
    for at in 0..order.len() {
        if let Some(install) = held(facts, order, at) {
            hand(alloc, Record::Version(install.copy()?), recorder)?;
        }
    }
    Ok(())
}

// The version at a place in order, if the horizon leaves it.
fn held<'f>(facts: &'f Facts, order: &[usize], at: usize) -> Option<&'f Install>
    requires within { AreWithin order.now (length facts.now.facts.installs) }
    requires at { at < length order.now }
    ensures { option_copied result ≡ first_left facts.now.facts.horizon
        (drop at (arranged facts.now.facts.installs order.now)) }
{
    left(facts.installs(), order, at, facts.horizon())
}

// Hands on the id below which all are retired, if there is one.
fn hand_retired<R: Recorder>(alloc: Global, facts: &Facts, recorder: &mut R) -> Result<(), Fault>
    ensures added { OnOk result (R.records recorder.new ≡ R.records recorder.old
        ++ retired_item facts.now.facts.retired) }
    ensures memory { IfErr result (λ fault. fault ≡ Fault.Memory) }
{
    match facts.retired() {
        Some(below) => hand(alloc, Record::Retired { below }, recorder),
        None => Ok(()),
    }
}

// Hands on those of these ids that ended, and lists the others, which stand: they are few.
fn hand_ended<R: Recorder>(
    alloc: Global,
    facts: &Facts,
    ids: &[TxnId],
    recorder: &mut R,
) -> Result<Vec<TxnId>, Fault>
    requires ids { ids.now ≡ map (λ e. e.txn) facts.now.facts.entries }
    requires order { IsById (λ id. id) ids.now }
    ensures added { OnOk result (R.records recorder.new ≡ R.records recorder.old
        ++ gather ended_item facts.now.facts.entries) }
    ensures rest { IfOk result (λ rest. gather (standing_of facts.now.facts) rest.items ≡
        gather standing_item facts.now.facts.entries) }
    ensures memory { IfErr result (λ fault. fault ≡ Fault.Memory) }
{
    let mut rest = Vec::new(alloc);
    for txn in ids {
        match ended(*txn, facts.status(*txn)) {
            Some(item) => hand(alloc, item, recorder)?,
            None => rest.push(*txn)?,
        }
    }
    Ok(rest)
}

// Hands on the records of those of these ids that stand.
fn hand_standing<R: Recorder>(
    alloc: Global,
    facts: &Facts,
    ids: &[TxnId],
    recorder: &mut R,
) -> Result<(), Fault>
    requires { gather (standing_of facts.now.facts) ids.now ≡
        gather standing_item facts.now.facts.entries }
    ensures added { OnOk result (R.records recorder.new ≡ R.records recorder.old
        ++ gather standing_item facts.now.facts.entries) }
    ensures memory { IfErr result (λ fault. fault ≡ Fault.Memory) }
{
    for txn in ids {
        if let Some(item) = standing(alloc, facts.status(*txn))? {
            hand(alloc, item, recorder)?;
        }
    }
    Ok(())
}

// The record of a transaction that ended.
fn ended(txn: TxnId, status: Option<&Status>) -> Option<Record>
    ensures { result ≡
        ended_item (record { txn = txn; status = meant (option_copied status.entry) }) }
{
    match status? {
        Status::Prepared(_) | Status::Decided(_) => None,
        Status::Aborted => Some(Record::Abort { txn }),
        Status::Settled { at, parts } => Some(Record::Settled {
            txn,
            at: *at,
            parts: *parts,
        }),
        Status::Closed {
            coordinator,
            outcome,
        } => Some(Record::Closed {
            txn,
            coordinator: *coordinator,
            outcome: *outcome,
        }),
    }
}

// The record of one that stands, in memory of its own.
fn standing(alloc: Global, status: Option<&Status>) -> Result<Option<Record>, Fault>
    ensures item { IfOk result (λ item. (txn : Id) → item ≡
        standing_item (record { txn = txn; status = meant (option_copied status.entry) })) }
    ensures memory { IfErr result (λ fault. fault ≡ Fault.Memory) }
{
    match status {
        Some(Status::Prepared(prepared)) => Ok(Some(Record::Prepare(Prepared {
            txn: prepared.txn,
            coordinator: prepared.coordinator,
            at: prepared.at,
            reads: prepared.reads.copy(alloc)?,
            writes: prepared.writes.copy(alloc)?,
        }))),
        Some(Status::Decided(committed)) => Ok(Some(Record::Commit(Committed {
            txn: committed.txn,
            at: committed.at,
            parts: committed.parts,
            reads: committed.reads.copy(alloc)?,
            writes: committed.writes.copy(alloc)?,
        }))),
        Some(Status::Aborted | Status::Settled { .. } | Status::Closed { .. }) | None => Ok(None),
    }
}
