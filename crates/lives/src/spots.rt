//! The places of each key's versions among all that a shard showed.
ghost use Rattle.std.specs.Prelude.{◌≡◌, ◌+◌, ◌-◌, ◌<◌, ◌≤◌, ◌++◌, ◌∷◌, [], List, IfErr, OnOk, length, take, drop, slice_index_or};
ghost use Rattle.units.specs.Versions.{at_time};
ghost use Rattle.units.specs.declared.writes.Install.{Install};
ghost use Rattle.lives.specs.Spots.{AreIn, AreSpots, IsBefore, IsPast, no_spot, since_of};

use indexmap::IndexMap;
use std::alloc::Global;
use units::{Fault, Install, Key, Stamp};

/// The place of a version of a key, its timestamp, and the place from which the key's timestamps ascend to it.
#[derive(Clone, Copy)]
pub struct Spot {
    pub place: usize,
    pub at: Stamp,
    pub since: usize,
}

/// The places of each key's versions, in the order in which they came.
pub type Spots = IndexMap<Key, Vec<Spot>>;

/// Adds a version, which comes after all others.
pub fn add(spots: &mut Spots, alloc: Global, place: usize, install: &Install) -> Result<(), Fault>
    ensures added { OnOk result ((installs : List Install) → length installs ≡ place
        → AreSpots installs spots.old.entries
        → AreSpots (installs ++ install.now ∷ []) spots.new.entries) }
    ensures memory { IfErr result (λ fault. fault ≡ Fault.Memory) }
{
    let mut line = match spots.swap_remove(&install.key) {
        Some(line) => line,
        None => Vec::new(alloc),
    };
    let spot = Spot {
        place,
        at: install.at,
        since: since(&line, place, install.at),
    };
    line.push(spot)?;
    match spots.insert(install.key, line) {
        Ok(_) => Ok(()),
        Err(_) => Err(Fault::Memory),
    }
}

// The place from which timestamps ascend to one that comes after these, at a place.
fn since(line: &[Spot], place: usize, at: Stamp) -> usize
    ensures { result ≡ since_of line.now place at }
{
    match line.last() {
        Some(last) => { if last.at < at { last.since } else { place } }
        None => place,
    }
}

/// Narrows versions from a place on to fewer, among which the key has the same value at the time. If the key's timestamps ascend there,
/// a binary search leaves one or none.
pub fn narrowed(spots: &Spots, key: &Key, from: usize, count: usize, at: Stamp) -> (usize, usize)
    ensures { (installs : List Install) → AreSpots installs spots.now.entries
        → at_time (take result.1 (drop result.0 installs)) key.now at
        ≡ at_time (take count (drop from installs)) key.now at }
{
    let line = within(spots, key, from, count);
    if line.is_empty() {
        return (from, 0);
    }
    if line[0].since != line[line.len() - 1].since {
        return (from, count);
    }
    let found = passed(line, from, count, at.micros());
    if found == 0 {
        return (from, 0);
    }
    (line[found - 1].place, 1)
}

// The spots of the key among `count` versions from a place on.
fn within<'a>(spots: &'a Spots, key: &Key, from: usize, count: usize) -> &'a [Spot]
    ensures { (installs : List Install) → AreSpots installs spots.now.entries
        → AreIn installs key.now from (from + count) result.now }
{
    let Some(line) = spots.get(key) else {
        return &[];
    };
    let line = line.as_slice();
    let line = &line[passed(line, from, 0, Stamp::MAX)..];
    &line[..passed(line, from, count, Stamp::MAX)]
}

// How many of the spots a binary search passes. It passes one that is among so many versions from a place on, or before that place, and
// is of no later time.
fn passed(line: &[Spot], from: usize, count: usize, until: u64) -> usize
    ensures within { result ≤ length line.now }
    ensures before { 0 < result
        → IsBefore (from + count) until (slice_index_or line.now (result - 1) no_spot) }
    ensures past { result < length line.now
        → IsPast (from + count) until (slice_index_or line.now result no_spot) }
{
    let mut low = 0;
    let mut high = line.len();
    while low < high {
        let middle = low + (high - low) / 2;
        let spot = line[middle];
        if (spot.place < from || spot.place - from < count) && spot.at.micros() <= until {
            low = middle + 1;
        } else {
            high = middle;
        }
    }
    low
}
