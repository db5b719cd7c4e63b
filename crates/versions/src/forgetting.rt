//! Versions below a horizon are forgotten: their places go, and the versions that are kept come together.
ghost use Rattle.std.specs.Prelude.{◌≡◌, ◌+◌, ◌*◌, ◌<◌, ◌≤◌, ℕ, nat_le, length, drop, vec_len, vec_capacity, slice_index_or};
ghost use Rattle.versions.specs.Arranged.{arranged, no_install, AreWithin};
ghost use Rattle.versions.specs.Gathered.{AreSettled, IsRedirected};
ghost use Rattle.versions.specs.Heads.{AreHeads};
ghost use Rattle.versions.specs.Ordered.{is_by, AscendsByVersion};
ghost use Rattle.versions.specs.Pruned.{pruned, is_passed};

use crate::placed::Places;
use crate::search::find;
use counts::Count;
use units::{Install, Stamp};

// A pass over fewer versions does not pay.
const FEW: usize = 1_024;

/// Drops the places of versions below a horizon: of each key those of all below it, except the newest that is not above it. It takes one pass
/// and no memory.
pub fn forget(installs: &[Install], places: &mut Places, horizon: Stamp)
    requires within { AreWithin places.old.places (length installs.now) }
    requires order { AscendsByVersion (arranged installs.now places.old.places) }
    requires heads { AreHeads places.old.prefix (arranged installs.now places.old.places)
        places.old.heads }
    ensures items { arranged installs.now places.new.places ≡
        pruned horizon (arranged installs.now places.old.places) }
    ensures within { (known : ℕ) → AreWithin places.old.places known
        → AreWithin places.new.places known }
    ensures heads { AreHeads places.new.prefix (arranged installs.now places.new.places)
        places.new.heads }
    ensures prefix { places.new.prefix ≡ places.old.prefix }
    ensures fewer { length places.new.places ≤ length places.old.places }
    ensures freed { length places.new.places + places.new.room ≡
        length places.old.places + places.old.room }
{
    let mut kept = 0;
    for at in 0..places.len() {
        if is_passed(installs, places, at, horizon) {
            continue;
        }
        places.copy(at, kept);
        kept += 1;
    }
    places.shorten(kept);
}

/// Tells whether a pass over all versions is due, if so many were left by the last one.
pub fn is_due(left: usize, len: usize) -> bool
    ensures { result ≡ nat_le (3 * left + 2048) (2 * len) }
{
    len >= FEW && len - FEW >= left && len - FEW - left >= left - left / 2
}

/// Tells whether the next version is of the same key, and not above the horizon. Then no look from the horizon up reads the one at this
/// place.
pub fn is_passed(installs: &[Install], places: &Places, at: usize, horizon: Stamp) -> bool
    requires within { AreWithin places.now.places (length installs.now) }
    requires at { at < length places.now.places }
    ensures { result ≡ is_passed horizon
        (slice_index_or (arranged installs.now places.now.places) at no_install)
        (drop (at + 1) (arranged installs.now places.now.places)) }
{
    let len = places.len();
    if at + 1 >= len {
        return false;
    }
    passes(
        &installs[places.get(at)],
        &installs[places.get(at + 1)],
        horizon,
    )
}

/// Tells it (`is_passed`) by a list of the places.
pub fn is_passed_in(installs: &[Install], order: &[usize], at: usize, horizon: Stamp) -> bool
    requires within { AreWithin order.now (length installs.now) }
    requires at { at < length order.now }
    ensures { result ≡ is_passed horizon
        (slice_index_or (arranged installs.now order.now) at no_install)
        (drop (at + 1) (arranged installs.now order.now)) }
{
    if at + 1 >= order.len() {
        return false;
    }
    passes(&installs[order[at]], &installs[order[at + 1]], horizon)
}

// Whether the next version is of this one's key, and not above the horizon.
fn passes(install: &Install, next: &Install, horizon: Stamp) -> bool
    ensures { result ≡ is_by install.now.key horizon next.now }
{
    next.key == install.key && next.at <= horizon
}

/// Brings the versions that have a place to the front, in the order of the places, and drops the others.
pub fn gather(installs: &mut Vec<Install>, places: &mut Places)
    requires within { AreWithin places.old.places (length installs.old.items) }
    requires order { AscendsByVersion (arranged installs.old.items places.old.places) }
    requires heads { AreHeads places.old.prefix (arranged installs.old.items places.old.places)
        places.old.heads }
    requires few { length places.old.places ≤ vec_len installs.old }
    ensures items { arranged installs.new.items places.new.places ≡
        arranged installs.old.items places.old.places }
    ensures within { AreWithin places.new.places (length installs.new.items) }
    ensures heads { places.new.heads ≡ places.old.heads }
    ensures prefix { places.new.prefix ≡ places.old.prefix }
    ensures all { vec_len installs.new ≡ length places.new.places }
    ensures len { length places.new.places ≡ length places.old.places }
    ensures room { places.new.room ≡ places.old.room }
    ensures capacity { vec_capacity installs.new ≡ vec_capacity installs.old }
{
    let len = places.len();
    if len >= installs.len() {
        return;
    }
    for at in 0..len {
        settle(installs, places, at);
    }
    installs.truncate(len);
}

// Brings the version of a place to where it comes in order, and the one that stands there to where that stood.
fn settle(installs: &mut Vec<Install>, places: &mut Places, at: usize)
    requires within { AreWithin places.old.places (length installs.old.items) }
    requires order { AscendsByVersion (arranged installs.old.items places.old.places) }
    requires heads { AreHeads places.old.prefix (arranged installs.old.items places.old.places)
        places.old.heads }
    requires few { length places.old.places ≤ vec_len installs.old }
    requires at { at < length places.old.places }
    requires settled { AreSettled places.old.places at }
    ensures items { arranged installs.new.items places.new.places ≡
        arranged installs.old.items places.old.places }
    ensures within { AreWithin places.new.places (length installs.new.items) }
    ensures settled { AreSettled places.new.places (at + 1) }
    ensures heads { places.new.heads ≡ places.old.heads }
    ensures prefix { places.new.prefix ≡ places.old.prefix }
    ensures room { places.new.room ≡ places.old.room }
    ensures places { length places.new.places ≡ length places.old.places }
    ensures len { vec_len installs.new ≡ vec_len installs.old }
    ensures capacity { vec_capacity installs.new ≡ vec_capacity installs.old }
{
    let from = places.get(at);
    if from == at {
        return;
    }
    redirect(installs, places, at, from);
    places.set_place(at, at);
    installs.swap(at, from);
}

// The version that stands at one place stands at another from now on. Its own place, if it has one, is found by halves.
fn redirect(installs: &[Install], places: &mut Places, at: usize, from: usize)
    requires within { AreWithin places.old.places (length installs.now) }
    requires order { AscendsByVersion (arranged installs.now places.old.places) }
    requires heads { AreHeads places.old.prefix (arranged installs.now places.old.places)
        places.old.heads }
    requires at { at < length installs.now }
    ensures places { IsRedirected places.old.places places.new.places at from }
    ensures heads { places.new.heads ≡ places.old.heads }
    ensures prefix { places.new.prefix ≡ places.old.prefix }
    ensures room { places.new.room ≡ places.old.room }
{
    let install = &installs[at];
    let until = install.at.micros();
    let (count, _) = find(installs, places, &install.key, until, &mut Count::none());
    if count == 0 {
        return;
    }
    let last = count - 1;
    if places.get(last) != at {
        return;
    }
    places.set_place(last, from);
}
