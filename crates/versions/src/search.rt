//! Searches by halves among versions that are read in the order of their places.
ghost use Rattle.std.specs.Prelude.{◌≡◌, ◌+◌, ◌-◌, ◌<◌, ◌≤◌, ◌^◌, ℕ, length, vec_len, vec_capacity, filter, IfSome, slice_index_or};
ghost use Rattle.std.specs.Option.{option_copied};
ghost use Rattle.units.specs.Versions.{latest, at_time, newest, of_key};
ghost use Rattle.versions.specs.Arranged.{arranged, no_install, AreWithin};
ghost use Rattle.versions.specs.Halves.{AllUpTo, AllAfter};
ghost use Rattle.versions.specs.Heads.{AreBytes, AreHeads, head};
ghost use Rattle.versions.specs.Next.{IsNextKey, IsNextVersion};
ghost use Rattle.versions.specs.TakenIn.{TakesIn, IsPassedAt};
ghost use Rattle.versions.specs.Ordered.{is_by, is_not_after, count_not_after, installed, is_above, AscendsByVersion, IsInOrder};

use crate::forgetting::is_passed;
use crate::head::shared;
use crate::placed::Places;
use counts::Count;
use std::cmp::Ordering;
use units::{Install, Key, Stamp, Value};

// The version is of this key and the timestamp, in microseconds, or it comes before them. Each comparison is counted.
fn is_not_after(install: &Install, key: &Key, at: u64, compared: &mut Count) -> bool
    ensures value { result ≡ is_not_after key.now at install.now }
    ensures counted { compared.new.number ≡ compared.old.number + 1 }
{
    compared.rise();
    match install.key.cmp(key) {
        Ordering::Less => true,
        Ordering::Equal => install.at.micros() <= at,
        Ordering::Greater => false,
    }
}

// The version at a place in order is of this key, whose head is given, and the timestamp, or it comes before them. The version is read only
// if the heads are equal.
fn is_not_after_at(
    installs: &[Install],
    places: &Places,
    middle: usize,
    key: &Key,
    key_head: u64,
    at: u64,
    compared: &mut Count,
) -> bool
    requires within { AreWithin places.now.places (length installs.now) }
    requires heads { AreHeads places.now.prefix (arranged installs.now places.now.places)
        places.now.heads }
    requires middle { middle < length places.now.places }
    requires bytes { AreBytes key.now }
    requires head { key_head ≡ head places.now.prefix key.now }
    ensures value { result ≡ is_not_after key.now at
        (slice_index_or (arranged installs.now places.now.places) middle no_install) }
    ensures counted { compared.new.number ≡ compared.old.number + 1 }
{
    match places.head(middle).cmp(&key_head) {
        Ordering::Less => {
            compared.rise();
            true
        }
        Ordering::Equal => is_not_after(&installs[places.get(middle)], key, at, compared),
        Ordering::Greater => {
            compared.rise();
            false
        }
    }
}

/// Counts the versions that are not after the key and the timestamp, in microseconds. Returns this, and how many were compared to find it.
pub fn find(
    installs: &[Install],
    places: &Places,
    key: &Key,
    at: u64,
    compared: &mut Count,
) -> (usize, u32)
    requires within { AreWithin places.now.places (length installs.now) }
    requires order { AscendsByVersion (arranged installs.now places.now.places) }
    requires heads { AreHeads places.now.prefix (arranged installs.now places.now.places)
        places.now.heads }
    ensures count { result.0 ≡
        count_not_after key.now at (arranged installs.now places.now.places) }
    ensures before { AllUpTo key.now at (arranged installs.now places.now.places) result.0 }
    ensures after { AllAfter key.now at (arranged installs.now places.now.places) result.0 }
    ensures bound { result.0 ≤ length places.now.places }
    ensures probes { (digits : ℕ) → length places.now.places < 2 ^ digits → result.1 ≤ digits }
    ensures fewest { (digits : ℕ) → 2 ^ digits ≤ length places.now.places + 1 → digits ≤ result.1 }
    ensures counted { compared.new.number ≡ compared.old.number + result.1 }
{
    let key_head = places.head_of(key);
    let mut low = 0;
    let mut high = places.len();
    let mut probes: u32 = 0;
    while low < high {
        let middle = low + (high - low) / 2;
        probes += 1;
        if is_not_after_at(installs, places, middle, key, key_head, at, compared) {
            low = middle + 1;
        } else {
            high = middle;
        }
    }
    (low, probes)
}

// How many versions are not after the key and the timestamp, in microseconds. If all are, as when keys come in order, one comparison finds
// that.
fn count(installs: &[Install], places: &Places, key: &Key, at: u64) -> usize
    requires within { AreWithin places.now.places (length installs.now) }
    requires order { AscendsByVersion (arranged installs.now places.now.places) }
    requires heads { AreHeads places.now.prefix (arranged installs.now places.now.places)
        places.now.heads }
    ensures count { result ≡ count_not_after key.now at (arranged installs.now places.now.places) }
    ensures before { AllUpTo key.now at (arranged installs.now places.now.places) result }
    ensures after { AllAfter key.now at (arranged installs.now places.now.places) result }
    ensures bound { result ≤ length places.now.places }
{
    let mut compared = Count::none();
    let len = places.len();
    let key_head = places.head_of(key);
    if len > 0 && is_not_after_at(installs, places, len - 1, key, key_head, at, &mut compared) {
        return len;
    }
    among(installs, places, key, key_head, at)
}

// The same, if the last is after them. Mostly all versions of the key are not, as when one more is installed. So one search by heads finds
// where those end whose head is the key's, and only the last of them is read.
fn among(installs: &[Install], places: &Places, key: &Key, key_head: u64, at: u64) -> usize
    requires within { AreWithin places.now.places (length installs.now) }
    requires order { AscendsByVersion (arranged installs.now places.now.places) }
    requires heads { AreHeads places.now.prefix (arranged installs.now places.now.places)
        places.now.heads }
    requires bytes { AreBytes key.now }
    requires head { key_head ≡ head places.now.prefix key.now }
    ensures count { result ≡ count_not_after key.now at (arranged installs.now places.now.places) }
    ensures before { AllUpTo key.now at (arranged installs.now places.now.places) result }
    ensures after { AllAfter key.now at (arranged installs.now places.now.places) result }
    ensures bound { result ≤ length places.now.places }
{
    let end = places.first_above(key_head);
    if end > 0 && is_not_after(&installs[places.get(end - 1)], key, at, &mut Count::none()) {
        return end;
    }
    before(installs, places, key, key_head, at, end)
}

// The same, if they are before a place from which on all are after them. Of the versions before it those are read whose head is the key's, mostly
// one or none.
fn before(
    installs: &[Install],
    places: &Places,
    key: &Key,
    key_head: u64,
    at: u64,
    end: usize,
) -> usize
    requires within { AreWithin places.now.places (length installs.now) }
    requires order { AscendsByVersion (arranged installs.now places.now.places) }
    requires heads { AreHeads places.now.prefix (arranged installs.now places.now.places)
        places.now.heads }
    requires bytes { AreBytes key.now }
    requires head { key_head ≡ head places.now.prefix key.now }
    requires end { end ≤ length places.now.places }
    requires behind { AllAfter key.now at (arranged installs.now places.now.places) end }
    ensures count { result ≡ count_not_after key.now at (arranged installs.now places.now.places) }
    ensures before { AllUpTo key.now at (arranged installs.now places.now.places) result }
    ensures after { AllAfter key.now at (arranged installs.now places.now.places) result }
    ensures bound { result ≤ length places.now.places }
{
    let mut low = places.first_at(key_head);
    let mut high = end;
    while low < high {
        let middle = low + (high - low) / 2;
        if is_not_after(&installs[places.get(middle)], key, at, &mut Count::none()) {
            low = middle + 1;
        } else {
            high = middle;
        }
    }
    low
}

// The newest of so many versions from the front, if it is of the key.
fn newest_in<'a>(
    installs: &'a [Install],
    places: &Places,
    key: &Key,
    at: u64,
    count: usize,
) -> Option<&'a Install>
    requires within { AreWithin places.now.places (length installs.now) }
    requires order { AscendsByVersion (arranged installs.now places.now.places) }
    requires before { AllUpTo key.now at (arranged installs.now places.now.places) count }
    requires after { AllAfter key.now at (arranged installs.now places.now.places) count }
    requires bound { count ≤ length places.now.places }
    ensures { option_copied result ≡
        newest (filter (is_by key.now at) (arranged installs.now places.now.places)) }
{
    if count == 0 {
        return None;
    }
    let place = places.get(count - 1);
    let last = &installs[place];
    if last.key == *key { Some(last) } else { None }
}

// The newest version of the key.
#[tactic(auto, using(crate::proofs::Newest::newest_is))]
fn newest_of<'a>(installs: &'a [Install], places: &Places, key: &Key) -> Option<&'a Install>
    requires within { AreWithin places.now.places (length installs.now) }
    requires kept { IsInOrder Stamp.MAX (arranged installs.now places.now.places) }
    requires heads { AreHeads places.now.prefix (arranged installs.now places.now.places)
        places.now.heads }
    ensures { option_copied result ≡
        newest (of_key (arranged installs.now places.now.places) key.now) }
{
    let count = count(installs, places, key, Stamp::MAX);
    newest_in(installs, places, key, Stamp::MAX, count)
}

/// Tells whether the timestamp is above all versions of the key.
#[tactic(auto, using(crate::proofs::Newest::above_newest))]
pub fn is_above(installs: &[Install], places: &Places, key: &Key, at: Stamp) -> bool
    requires within { AreWithin places.now.places (length installs.now) }
    requires kept { IsInOrder Stamp.MAX (arranged installs.now places.now.places) }
    requires heads { AreHeads places.now.prefix (arranged installs.now places.now.places)
        places.now.heads }
    ensures { result ≡ is_above (arranged installs.now places.now.places) key.now at }
{
    match newest_of(installs, places, key) {
        Some(newest) => newest.at < at,
        None => true,
    }
}

/// Gives the most recent value of a key: `None` if there is none or it was erased.
#[tactic(auto, using(crate::proofs::Newest::latest_is))]
pub fn latest<'a>(installs: &'a [Install], places: &Places, key: &Key) -> Option<&'a Value>
    requires within { AreWithin places.now.places (length installs.now) }
    requires kept { IsInOrder Stamp.MAX (arranged installs.now places.now.places) }
    requires heads { AreHeads places.now.prefix (arranged installs.now places.now.places)
        places.now.heads }
    ensures { option_copied result ≡ latest (arranged installs.now places.now.places) key.now }
{
    newest_of(installs, places, key)?.value.as_ref()
}

/// Gives the value that a key has at a timestamp: `None` if there is none or it was erased.
#[tactic(auto, using(crate::proofs::Newest::at_time_is))]
pub fn value_at<'a>(
    installs: &'a [Install],
    places: &Places,
    key: &Key,
    at: Stamp,
) -> Option<&'a Value>
    requires within { AreWithin places.now.places (length installs.now) }
    requires kept { IsInOrder Stamp.MAX (arranged installs.now places.now.places) }
    requires heads { AreHeads places.now.prefix (arranged installs.now places.now.places)
        places.now.heads }
    ensures { option_copied result ≡
        at_time (arranged installs.now places.now.places) key.now at }
{
    let at = at.micros();
    let count = among(installs, places, key, places.head_of(key), at);
    newest_in(installs, places, key, at, count)?.value.as_ref()
}

/// Gives the next key that has versions.
pub fn next_key(installs: &[Install], places: &Places, key: &Key) -> Option<Key>
    requires within { AreWithin places.now.places (length installs.now) }
    requires kept { IsInOrder Stamp.MAX (arranged installs.now places.now.places) }
    requires heads { AreHeads places.now.prefix (arranged installs.now places.now.places)
        places.now.heads }
    ensures { IsNextKey (arranged installs.now places.now.places) key.now result }
{
    let count = count(installs, places, key, Stamp::MAX);
    if count >= places.len() {
        return None;
    }
    Some(installs[places.get(count)].key)
}

/// Gives the next version of a key after a time.
pub fn next_version<'a>(
    installs: &'a [Install],
    places: &Places,
    key: &Key,
    at: Stamp,
) -> Option<&'a Install>
    requires within { AreWithin places.now.places (length installs.now) }
    requires order { AscendsByVersion (arranged installs.now places.now.places) }
    requires heads { AreHeads places.now.prefix (arranged installs.now places.now.places)
        places.now.heads }
    ensures { IsNextVersion (arranged installs.now places.now.places) key.now at
        (option_copied result) }
{
    let count = count(installs, places, key, at.micros());
    if count >= places.len() {
        return None;
    }
    let next = &installs[places.get(count)];
    if next.key == *key { Some(next) } else { None }
}

// Adds a version, and puts in its place after so many. There is room.
fn push(installs: &mut Vec<Install>, places: &mut Places, new: Install, count: usize)
    requires within { AreWithin places.old.places (length installs.old.items) }
    requires order { AscendsByVersion (arranged installs.old.items places.old.places) }
    requires heads { AreHeads places.old.prefix (arranged installs.old.items places.old.places)
        places.old.heads }
    requires room { (vec_len installs.old < vec_capacity installs.old) × (0 < places.old.room) }
    requires before { AllUpTo new.key new.at (arranged installs.old.items places.old.places) count }
    requires after { AllAfter new.key new.at (arranged installs.old.items places.old.places) count }
    requires bound { count ≤ length places.old.places }
    ensures items { arranged installs.new.items places.new.places ≡
        installed (arranged installs.old.items places.old.places) new }
    ensures within { AreWithin places.new.places (length installs.new.items) }
    ensures heads { AreHeads places.new.prefix (arranged installs.new.items places.new.places)
        places.new.heads }
    ensures len { (vec_len installs.new ≡ vec_len installs.old + 1)
        × (length places.new.places ≡ length places.old.places + 1)
        × (places.new.room + 1 ≡ places.old.room) }
    ensures capacity { vec_capacity installs.new ≡ vec_capacity installs.old }
{
    let at = installs.len();
    installs.push_reserved(new);
    place(installs, places, at, count);
}

/// Adds a version, and puts in its place. There is room.
pub fn install(installs: &mut Vec<Install>, places: &mut Places, new: Install)
    requires within { AreWithin places.old.places (length installs.old.items) }
    requires order { AscendsByVersion (arranged installs.old.items places.old.places) }
    requires heads { AreHeads places.old.prefix (arranged installs.old.items places.old.places)
        places.old.heads }
    requires room { (vec_len installs.old < vec_capacity installs.old) × (0 < places.old.room) }
    ensures items { arranged installs.new.items places.new.places ≡
        installed (arranged installs.old.items places.old.places) new }
    ensures within { AreWithin places.new.places (length installs.new.items) }
    ensures heads { AreHeads places.new.prefix (arranged installs.new.items places.new.places)
        places.new.heads }
    ensures len { (vec_len installs.new ≡ vec_len installs.old + 1)
        × (length places.new.places ≡ length places.old.places + 1)
        × (places.new.room + 1 ≡ places.old.room) }
    ensures in_time { new.at < 2 ^ 62 }
    ensures capacity { vec_capacity installs.new ≡ vec_capacity installs.old }
{
    let count = count(installs, places, &new.key, new.at.micros());
    push(installs, places, new, count);
}

/// Adds a version as `install` does. If the horizon passed the first of its key, it stands there instead, and the other is dropped.
pub fn install_from(installs: &mut Vec<Install>, places: &mut Places, new: Install, horizon: Stamp)
    requires within { AreWithin places.old.places (length installs.old.items) }
    requires order { AscendsByVersion (arranged installs.old.items places.old.places) }
    requires heads { AreHeads places.old.prefix (arranged installs.old.items places.old.places)
        places.old.heads }
    requires room { (vec_len installs.old < vec_capacity installs.old) × (0 < places.old.room) }
    ensures items { TakesIn horizon (arranged installs.old.items places.old.places) new
        (arranged installs.new.items places.new.places) }
    ensures within { AreWithin places.new.places (length installs.new.items) }
    ensures heads { AreHeads places.new.prefix (arranged installs.new.items places.new.places)
        places.new.heads }
    ensures len { (vec_len installs.new ≤ vec_len installs.old + 1)
        × (length places.new.places + vec_len installs.old ≡
        length places.old.places + vec_len installs.new)
        × (places.old.room ≤ places.new.room + 1) }
    ensures in_time { new.at < 2 ^ 62 }
    ensures capacity { vec_capacity installs.new ≡ vec_capacity installs.old }
{
    let count = count(installs, places, &new.key, new.at.micros());
    let key_head = places.head_of(&new.key);
    let Some(first) = passed(installs, places, key_head, count, horizon) else {
        push(installs, places, new, count);
        return;
    };
    let freed = places.get(first);
    places.shift(first, count - 1, freed, key_head);
    installs[freed] = new;
}

// More places than these are not moved for one.
const MOST_MOVED: usize = 256;

// Finds the first version whose head is the key's, if the horizon passed it. It is one of so many from the front, and there are few after it.
fn passed(
    installs: &[Install],
    places: &Places,
    key_head: u64,
    count: usize,
    horizon: Stamp,
) -> Option<usize>
    requires within { AreWithin places.now.places (length installs.now) }
    requires bound { count ≤ length places.now.places }
    ensures { IfSome result (λ first. (first + 1 < count)
        × IsPassedAt horizon (arranged installs.now places.now.places) first) }
{
    if horizon == Stamp::zero() {
        return None;
    }
    let first = places.first_at(key_head);
    if first >= count || count - first > MOST_MOVED || count - first < 2 {
        return None;
    }
    if !is_passed(installs, places, first, horizon) {
        return None;
    }
    Some(first)
}

/// Puts in the place of the version that stands there, after those whose places are known. If the horizon passed the first of its key, that
/// one's place goes. Else there is room.
pub fn place_from(installs: &[Install], places: &mut Places, at: usize, horizon: Stamp)
    requires there { at < length installs.now }
    requires within { AreWithin places.old.places at }
    requires order { AscendsByVersion (arranged installs.now places.old.places) }
    requires heads { AreHeads places.old.prefix (arranged installs.now places.old.places)
        places.old.heads }
    requires room { 0 < places.old.room }
    ensures items { TakesIn horizon (arranged installs.now places.old.places)
        (slice_index_or installs.now at no_install)
        (arranged installs.now places.new.places) }
    ensures within { AreWithin places.new.places (at + 1) }
    ensures heads { AreHeads places.new.prefix (arranged installs.now places.new.places)
        places.new.heads }
    ensures len { length places.new.places ≤ length places.old.places + 1 }
    ensures room { places.old.room ≤ places.new.room + 1 }
    ensures in_time { (slice_index_or installs.now at no_install).at < 2 ^ 62 }
{
    let new = &installs[at];
    let count = count(installs, places, &new.key, new.at.micros());
    let key_head = places.head_of(&new.key);
    match passed(installs, places, key_head, count, horizon) {
        Some(first) => places.shift(first, count - 1, at, key_head),
        None => place(installs, places, at, count),
    }
}

// Puts in the place of the version that stands there, after so many of those whose places are known. There is room.
fn place(installs: &[Install], places: &mut Places, at: usize, count: usize)
    requires there { at < length installs.now }
    requires within { AreWithin places.old.places at }
    requires heads { AreHeads places.old.prefix (arranged installs.now places.old.places)
        places.old.heads }
    requires room { 0 < places.old.room }
    requires before { AllUpTo (slice_index_or installs.now at no_install).key
        (slice_index_or installs.now at no_install).at
        (arranged installs.now places.old.places) count }
    requires after { AllAfter (slice_index_or installs.now at no_install).key
        (slice_index_or installs.now at no_install).at
        (arranged installs.now places.old.places) count }
    requires bound { count ≤ length places.old.places }
    ensures items { arranged installs.now places.new.places ≡
        installed (arranged installs.now places.old.places)
        (slice_index_or installs.now at no_install) }
    ensures within { AreWithin places.new.places (at + 1) }
    ensures heads { AreHeads places.new.prefix (arranged installs.now places.new.places)
        places.new.heads }
    ensures len { length places.new.places ≡ length places.old.places + 1 }
    ensures room { places.new.room + 1 ≡ places.old.room }
{
    let new = &installs[at];
    let key_head = places.head_of(&new.key);
    places.insert(count, at, key_head);
    renew(installs, places);
}

// If the number of places is a power of two, the prefix is looked at again. If it has become another, all heads are written anew: an install
// pays for two of them at most, on average. The prefix is what all keys share but those of the first and the last sixteenth, which may begin
// as they like.
fn renew(installs: &[Install], places: &mut Places)
    requires within { AreWithin places.old.places (length installs.now) }
    requires heads { AreHeads places.old.prefix (arranged installs.now places.old.places)
        places.old.heads }
    ensures places { places.new.places ≡ places.old.places }
    ensures heads { AreHeads places.new.prefix (arranged installs.now places.new.places)
        places.new.heads }
    ensures room { places.new.room ≡ places.old.room }
{
    let len = places.len();
    if !len.is_power_of_two() {
        return;
    }
    let edge = len / 16;
    let first = &installs[places.get(edge)].key;
    let last = &installs[places.get(len - 1 - edge)].key;
    let prefix = shared(first, last);
    if places.are_behind(&prefix) {
        return;
    }
    places.set_prefix(prefix);
    for at in 0..len {
        let key_head = places.head_of(&installs[places.get(at)].key);
        places.set_head(at, key_head);
    }
}
