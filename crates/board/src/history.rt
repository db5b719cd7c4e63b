//! What a key has had.
ghost use Rattle.std.specs.Prelude.{◌≡◌, cond, nat_le, None, Some, OnOk, IfOk, IfErr};
ghost use Rattle.board.specs.Histories.{Continues, IsHistory, IsNextTime};
ghost use Rattle.units.specs.Versions.{at_time};

use std::alloc::Global;
use units::{Fault, Install, Key, Stamp};
use versions::Versions;

/// The versions of a key, ascending, and where its history goes on.
pub struct History {
    /// The first says what the key had at the first time, at that time. Each later one says what it had from a later time on: no value means
    /// that it was erased.
    pub versions: Vec<Install>,
    /// The time of the next version: `None` if there are no more.
    pub next: Option<Stamp>,
}

impl Drop for History {
    fn drop(self) {
        let History {
            versions: _,
            next: _,
        } = self;
    }
}

// The first time of a range, if it has any.
fn first_time(from: Stamp, to: Stamp) -> Option<Stamp>
    ensures { result ≡ cond (nat_le from to) (Some from) None }
{
    if from <= to { Some(from) } else { None }
}

// The time of the next version of a key, if that is not after the last time.
fn next_time(versions: &Versions, key: &Key, at: Stamp, to: Stamp) -> Option<Stamp>
    ensures { IsNextTime (at_time versions.now.installs key.now) at to result }
{
    let Some(next) = versions.next_version(key, at) else {
        return None;
    };
    if next.at <= to { Some(next.at) } else { None }
}

// What a key has at a time, as a version. It shares the value.
fn version_at(versions: &Versions, key: &Key, at: Stamp) -> Result<Install, Fault>
    ensures version { IfOk result (λ version. version ≡ record {
      key = key.now;
      at = at;
      value = at_time versions.now.installs key.now at;
    }) }
    ensures memory { IfErr result (λ fault. fault ≡ Fault.Memory) }
{
    let value = match versions.at(key, at) {
        None => None,
        Some(value) => Some(value.copy()?),
    };
    Ok(Install {
        key: *key,
        at,
        value,
    })
}

// Lists the version at the next time, and goes on to the time after it.
fn note(versions: &Versions, key: &Key, to: Stamp, history: &mut History) -> Result<(), Fault>
    ensures history { OnOk result (Continues (at_time versions.now.installs key.now) key.now to
        history.old.versions.items history.old.next history.new.versions.items
        history.new.next) }
    ensures memory { IfErr result (λ fault. fault ≡ Fault.Memory) }
{
    let Some(at) = history.next else {
        return Ok(());
    };
    history.versions.push(version_at(versions, key, at)?)?;
    history.next = next_time(versions, key, at, to);
    Ok(())
}

// What a key has from a first time to a last, by these versions: so many at most, and at least one.
pub(crate) fn first_part(
    alloc: Global,
    versions: &Versions,
    key: &Key,
    from: Stamp,
    to: Stamp,
    limit: usize,
) -> Result<History, Fault>
    ensures history { IfOk result (λ history.
        IsHistory (at_time versions.now.installs key.now) key.now from to
        history.versions.items history.next) }
    ensures memory { IfErr result (λ fault. fault ≡ Fault.Memory) }
{
    let mut history = History {
        versions: Vec::new(alloc),
        next: first_time(from, to),
    };
    note(versions, key, to, &mut history)?;
    for _version in 1..limit {
        if history.next.is_none() {
            break;
        }
        note(versions, key, to, &mut history)?;
    }
    Ok(history)
}
