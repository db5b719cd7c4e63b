//! The log of a shard, as an opening takes it.
ghost use Rattle.std.specs.Prelude.{◌≡◌, ◌⊎◌, ◌<◌, Ok, Err, IfOk, IfErr, IsTrue};
ghost use Rattle.std.specs.List.{list_any};
ghost use Rattle.disk.specs.File.{surface};
ghost use Rattle.record.specs.Accepted.{Accepted, taken};
ghost use Rattle.recovery.specs.Recovered.{IsRebuilt, items};
ghost use Rattle.showing.specs.Histories.{history_in, is_below, is_no_shard_log, is_settled, is_settled_at, log_in, may_come_by, settled_by, unless_below, value_in, value_told, value_with, whole_from};

use crate::learning::learn_all;
use crate::told::{Standing, Told, history};
use disk::Disk;
use gatelog::{Entry, GateLog};
use record::Record;
use recovery::{State, rebuild};
use std::alloc::Global;
use units::{Fault, Key, Setup, Stamp, Value, value_at};

/// Reads what the log of a shard says of a key: from when on it is whole, if it was renewed, and each write that was promised or
/// decided. Aborted ones are left out. They come in its order, each with how it stands. A log that an opening of the shard refuses is
/// refused for the same. Nothing is written.
pub fn read_history<D: Disk + Drop>(
    alloc: Global,
    disk: D,
    setup: &Setup,
    key: &Key,
) -> Result<(Option<Stamp>, Vec<Told>), Fault>
    ensures told { D.keeps_model → IfOk result (λ told.
        history_in setup.now key.now (surface (D.file disk)).seen ≡ Ok (told.0, told.1.items)) }
    ensures refused { IfErr result (λ fault. (fault ≡ Fault.Memory)
        ⊎ (((fault ≡ Fault.Device) × ((back : D) × (D.failures disk < D.failures back)))
        ⊎ (IsTrue (is_no_shard_log fault) × (D.keeps_model →
        history_in setup.now key.now (surface (D.file disk)).seen ≡ Err fault)))) }
{
    let (entries, state) = read_log(alloc, disk, setup)?;
    stop(state);
    let told = history(alloc, key, &entries)?;
    Ok((whole_from(&entries), told))
}

/// What is found of a key at a timestamp, or by the latest version.
#[derive(Drop)]
pub struct Found {
    /// The value, unless there is none or it was erased.
    pub value: Option<Value>,
    /// No write can come any more at the timestamp or before it.
    pub is_settled: bool,
}

/// Finds the value of a key by the log of a shard, at a timestamp or by the latest version. What has no outcome in the log is no version, and a
/// horizon takes none away. A timestamp above all of the log's is not settled, nor is one at which a promise or a decision of the key without an
/// outcome may stand. A renewed log has only what holds from its horizon on, so a timestamp below that is `TooOld`; else it is refused as
/// `read_history` is. Nothing is written.
pub fn read_value<D: Disk + Drop>(
    alloc: Global,
    disk: D,
    setup: &Setup,
    key: &Key,
    at: Option<Stamp>,
) -> Result<Found, Fault>
    ensures value { D.keeps_model → IfOk result (λ found.
        value_in setup.now key.now at (surface (D.file disk)).seen ≡ Ok found) }
    ensures refused { IfErr result (λ fault. (fault ≡ Fault.Memory)
        ⊎ (((fault ≡ Fault.Device) × ((back : D) × (D.failures disk < D.failures back)))
        ⊎ ((IsTrue (is_no_shard_log fault) ⊎ (fault ≡ Fault.TooOld)) × (D.keeps_model →
        value_in setup.now key.now at (surface (D.file disk)).seen ≡ Err fault)))) }
{
    let (entries, state) = read_log(alloc, disk, setup)?;
    let value = value_of_log(&entries, state, setup, key, at)?;
    let is_settled = is_settled(alloc, setup, key, &at, &entries)?;
    Ok(Found { value, is_settled })
}

// The value of a key by the entries of a log and what an opening makes of them.
fn value_of_log(
    entries: &[Entry],
    state: Option<State>,
    setup: &Setup,
    key: &Key,
    at: Option<Stamp>,
) -> Result<Option<Value>, Fault>
    requires rebuilt { IsRebuilt setup.now (items entries.now) state }
    ensures value { IfOk result
        (λ value. value_told (items entries.now) key.now at ≡ Ok value) }
    ensures refused { IfErr result (λ fault. (fault ≡ Fault.Memory)
        ⊎ ((fault ≡ Fault.TooOld)
        × (value_told (items entries.now) key.now at ≡ Err fault))) }
{
    let from = whole_from(entries);
    let Some(state) = state else {
        return Ok(None);
    };
    let value = value_from(&state, key, at, from);
    state.stop();
    value
}

// No write of a key can come any more at a timestamp or before it: the log has a timestamp as great, and nothing as low stands without an outcome.
fn is_settled(
    alloc: Global,
    setup: &Setup,
    key: &Key,
    at: &Option<Stamp>,
    entries: &[Entry],
) -> Result<bool, Fault>
    requires { taken setup.now (items entries.now) ≡ Accepted }
    ensures settled { IfOk result (λ b. b ≡ is_settled (items entries.now) key.now at.now) }
    ensures memory { IfErr result (λ fault. fault ≡ Fault.Memory) }
{
    match at {
        Some(at) => is_settled_at(alloc, setup, key, *at, entries),
        None => Ok(true),
    }
}

fn is_settled_at(
    alloc: Global,
    setup: &Setup,
    key: &Key,
    at: Stamp,
    entries: &[Entry],
) -> Result<bool, Fault>
    requires { taken setup.now (items entries.now) ≡ Accepted }
    ensures settled { IfOk result (λ b. b ≡ is_settled_at (items entries.now) key.now at) }
    ensures memory { IfErr result (λ fault. fault ≡ Fault.Memory) }
{
    let facts = learn_all(alloc, setup, entries)?;
    let floor = facts.floor();
    drop(facts);
    let told = history(alloc, key, entries)?;
    Ok(settled_by(floor, &told, at))
}

// The same, by the greatest timestamp of the log and what it says of the key.
fn settled_by(floor: Stamp, told: &[Told], at: Stamp) -> bool
    ensures { result ≡ settled_by floor told.now at }
{
    !(floor < at) && !any_may_come(told, at)
}

// One of some writes may become a version at a timestamp or before it.
fn any_may_come(told: &[Told], at: Stamp) -> bool
    ensures { result ≡ list_any (λ t. may_come_by at t.standing) told.now }
{
    for write in told {
        if may_come_by(at, write.standing) {
            return true;
        }
    }
    false
}

fn may_come_by(at: Stamp, standing: Standing) -> bool
    ensures { result ≡ may_come_by at standing }
{
    match standing {
        Standing::Installed(_) => false,
        Standing::Decided(from) => !(at < from),
        Standing::Promised(from) => !(at < from),
    }
}

// From when on a log is whole, where it was renewed.
fn whole_from(entries: &[Entry]) -> Option<Stamp>
    ensures { result ≡ whole_from (items entries.now) }
{
    let [first, ..] = entries else {
        return None;
    };
    match first.item() {
        Record::Base { horizon, .. } => Some(*horizon),
        _ => None,
    }
}

// The value of a key in memory, of a log that is whole from a timestamp on.
fn value_from(
    state: &State,
    key: &Key,
    at: Option<Stamp>,
    from: Option<Stamp>,
) -> Result<Option<Value>, Fault>
    ensures value { IfOk result (λ value. unless_below (is_below at from)
        (value_with state.now.facts.installs key.now at) ≡ Ok value) }
    ensures refused { IfErr result (λ fault. (fault ≡ Fault.Memory) ⊎ ((fault ≡ Fault.TooOld)
        × (unless_below (is_below at from) (value_with state.now.facts.installs key.now at)
        ≡ Err fault))) }
{
    if is_below(&at, &from) {
        Err(Fault::TooOld)
    } else {
        value_of(state, key, at)
    }
}

fn is_below(at: &Option<Stamp>, from: &Option<Stamp>) -> bool
    ensures { result ≡ is_below at.now from.now }
{
    match (at, from) {
        (Some(at), Some(from)) => *at < *from,
        _ => false,
    }
}

// The value of a key in memory, with bytes of its own. All versions of the log are there, those below its horizon too.
fn value_of(state: &State, key: &Key, at: Option<Stamp>) -> Result<Option<Value>, Fault>
    ensures value { IfOk result
        (λ value. value ≡ value_with state.now.facts.installs key.now at) }
    ensures memory { IfErr result (λ fault. fault ≡ Fault.Memory) }
{
    let value = match at {
        Some(at) => value_at(state.installs(), key, at),
        None => state.latest(key),
    };
    match value {
        Some(value) => Ok(Some(value.copy()?)),
        None => Ok(None),
    }
}

// The entries of the log that a disk holds, and what an opening of the shard makes of them: nothing where there is none.
fn read_log<D: Disk + Drop>(
    alloc: Global,
    disk: D,
    setup: &Setup,
) -> Result<(Vec<Entry>, Option<State>), Fault>
    ensures taken { IfOk result (λ read. taken setup.now (items read.0.items) ≡ Accepted) }
    ensures rebuilt { IfOk result (λ read. IsRebuilt setup.now (items read.0.items) read.1) }
    ensures log { D.keeps_model → IfOk result (λ read.
        log_in setup.now (surface (D.file disk)).seen ≡ Ok (items read.0.items)) }
    ensures refused { IfErr result (λ fault. (fault ≡ Fault.Memory)
        ⊎ (((fault ≡ Fault.Device) × ((back : D) × (D.failures disk < D.failures back)))
        ⊎ (IsTrue (is_no_shard_log fault) × (D.keeps_model →
        log_in setup.now (surface (D.file disk)).seen ≡ Err fault)))) }
{
    match GateLog::open(alloc, disk) {
        Ok((gate_log, entries)) => {
            drop(gate_log.into_disk());
            let state = rebuild(alloc, &entries, setup)?;
            Ok((entries, state))
        }
        Err((fault, disk)) => {
            drop(disk);
            Err(fault)
        }
    }
}

fn stop(state: Option<State>) {
    if let Some(state) = state {
        state.stop();
    }
}
