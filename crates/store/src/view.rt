//! A view of the whole store at one timestamp.
ghost use Rattle.std.specs.Prelude.{◌≡◌, ◌⊎◌, ◌<◌, ◌≤◌, ℕ, List, Option, None, length, slice_get, IfErr, IfOk, IsSome};
ghost use Rattle.units.specs.Keys.{shard_of};
ghost use Rattle.std.specs.Option.{option_copied};
ghost use Rattle.store.specs.Histories.{IsToldBy, IsUntoldBy, earlier};
ghost use Rattle.store.specs.Ranges.{IsListedBy, IsUnlistedBy};
ghost use Rattle.store.specs.Typed.{IsReadAs};
ghost use Rattle.store.specs.Views.{IsShown, IsUnseenBy, LookedAt, seen_in};

use crate::Typed;
use crate::histories::told_up_to;
use crate::ranges::page_of;
use crate::shared::Shared;
use crate::typed::read_as;
use board::{History, KeyPage, Viewer};
use counts::Past;
use std::alloc::Global;
use std::sync::Wait;
use std::time;
use std::time::Duration;
use truetime::Reading;
use units::{Fault, Key, Seen, Stamp, Value};

/// So many bytes a value has at most.
pub(crate) const MOST_BYTES: usize = 4_096;

// How often a view of the present looks again, where nobody has told that the timestamp is served, and for how many milliseconds it waits
// in between.
pub(crate) const TRIES: u32 = 3_000;

pub(crate) const PAUSE: u64 = 1;

/// What stands at a timestamp, and nothing in part. One that `Client::view` opens has all that was acknowledged before. It takes no locks.
#[derive(Drop)]
pub struct View<'c, 's, R> {
    pub(crate) rt: &'s R,
    pub(crate) shared: &'s Shared,
    pub(crate) viewers: &'c mut Vec<Viewer>,
    pub(crate) room: &'c mut [u8; MOST_BYTES],
    pub(crate) at: Stamp,
    // How often a shard is looked at before a `get` is refused as not served yet.
    pub(crate) tries: u32,
    // What the client's clock has told.
    pub(crate) readings: &'c Past<Reading>,
    pub ghost some: { 0 < tries },
}

impl<R: Wait + time::Clock> View<'_, '_, R> {
    /// Its timestamp, in microseconds.
    pub fn at(&self) -> Stamp
        ensures { result ≡ self.now.at }
    {
        self.at
    }

    /// The value of a key. It is right for good: nothing that is committed later stands at or below the timestamp there.
    ///
    /// A view of the present waits until the key's shard serves the timestamp, some seconds at most; one that `Client::view_at` opened does not
    /// wait. Then it is refused as `NotYet`, and the same call may be answered a few milliseconds later.
    ///
    /// If the shard has stopped and does not serve the timestamp, it is refused as `Stopped` at once. Once the disk of the shard was opened again, a view
    /// that is opened then sees what it has, and this one goes on with what it served before.
    ///
    /// If the shard has forgotten what its keys were then, it is refused as `TooOld`: then another view has to be opened.
    pub fn get(&mut self, key: &Key) -> Result<Option<Value>, Fault>
        ensures at { self.new.at ≡ self.old.at }
        ensures splits { self.new.shared.now.splits ≡ self.old.shared.now.splits }
        ensures shown { IfOk result (λ value. LookedAt self.old.viewers.now.items
            self.new.viewers.now.items (shard_of self.old.shared.now.splits key.now)
            (λ viewer after. IsShown viewer after key.now self.old.at value)) }
        ensures refused { IfErr result (λ fault. ((fault ≡ Fault.Stranger)
            × (slice_get self.old.viewers.now.items
            (shard_of self.old.shared.now.splits key.now) ≡ None))
            ⊎ LookedAt self.old.viewers.now.items
            self.new.viewers.now.items (shard_of self.old.shared.now.splits key.now)
            (λ viewer after. IsUnseenBy viewer after key.now self.old.at fault)) }
    {
        let shard = self.shared.splits.shard_of(key);
        match self.viewers.get_mut(usize::from(shard.number())) {
            Some(viewer) => {
                shown(
                    self.rt,
                    self.shared,
                    viewer,
                    self.at,
                    self.tries,
                    key,
                    self.room,
                )
            }
            None => Err(Fault::Stranger),
        }
    }

    /// Gives the value of a key as a type: none if the key has no value. One that spells no value of the type is refused as
    /// `BadRequest(Value)`. Else it is refused as `get` is.
    pub fn get_as<T: Typed>(&mut self, key: &Key) -> Result<Option<T>, Fault>
        ensures at { self.new.at ≡ self.old.at }
        ensures splits { self.new.shared.now.splits ≡ self.old.shared.now.splits }
        ensures shown { IfOk result (λ read. (value : Option (List ℕ))
            × LookedAt self.old.viewers.now.items
            self.new.viewers.now.items (shard_of self.old.shared.now.splits key.now)
            (λ viewer after. IsShown viewer after key.now self.old.at value)
            × IsReadAs T.spelled value read) }
    {
        let value = self.get(key)?;
        read_as(self.shared.alloc, value)
    }

    /// Lists the keys of a range that have a value, ascending: those from the first key on and before the end, if there is one. The least key
    /// is the byte 0. A page visits so many keys of one shard at most, and at least one. So it may have fewer than that, or none, if keys were
    /// erased or the shard has no more. `KeyPage::next` is where the next page begins: call again from there, until it is `None`. Each page
    /// is right for good, as a `get` is. A transaction has no such call, and locks no keys that have no value.
    ///
    /// It waits and is refused as a `get` of the first key would be, and as `Memory` if there is none for the page.
    pub fn keys(&mut self, from: &Key, to: Option<&Key>, limit: usize) -> Result<KeyPage, Fault>
        ensures at { self.new.at ≡ self.old.at }
        ensures splits { self.new.shared.now.splits ≡ self.old.shared.now.splits }
        ensures listed { IfOk result (λ page. LookedAt self.old.viewers.now.items
            self.new.viewers.now.items (shard_of self.old.shared.now.splits from.now)
            (λ viewer after. IsListedBy self.old.shared.now.splits viewer after from.now
            (option_copied to.entry) self.old.at page.keys.items page.next)) }
        ensures refused { IfErr result (λ fault. ((fault ≡ Fault.Stranger)
            × (slice_get self.old.viewers.now.items
            (shard_of self.old.shared.now.splits from.now) ≡ None))
            ⊎ LookedAt self.old.viewers.now.items
            self.new.viewers.now.items (shard_of self.old.shared.now.splits from.now)
            (λ viewer after. IsUnlistedBy viewer after from.now self.old.at fault)) }
    {
        let shard = self.shared.splits.shard_of(from);
        match self.viewers.get_mut(usize::from(shard.number())) {
            Some(viewer) => {
                page_of(
                    self.rt,
                    self.shared,
                    viewer,
                    from,
                    to,
                    self.at,
                    limit,
                    self.tries,
                )
            }
            None => Err(Fault::Stranger),
        }
    }

    /// Lists what a key has had from a first time to a last, ascending. The last time is that of the view if `to` is later. The first version
    /// says what the key had at the first time, at that time. Each later one says what it had from its own timestamp on: no value means that
    /// it was erased. There are `limit` of them at most, and at least one. `History::next` is the timestamp of the next one: call again from
    /// there, until it is `None`. If the last time comes before the first there is none.
    ///
    /// It waits and is refused as a `get` is, in a view at the first time or at the last. So all that it lists is at or above the shard's
    /// horizon, and right for good; below it is `TooOld`, for good. `Memory` if there is none for the list: the same call may be answered later.
    pub fn versions(
        &mut self,
        key: &Key,
        from: Stamp,
        to: Stamp,
        limit: usize,
    ) -> Result<History, Fault>
        ensures at { self.new.at ≡ self.old.at }
        ensures splits { self.new.shared.now.splits ≡ self.old.shared.now.splits }
        ensures told { IfOk result (λ history. LookedAt self.old.viewers.now.items
            self.new.viewers.now.items (shard_of self.old.shared.now.splits key.now)
            (λ viewer after. IsToldBy viewer after key.now from (earlier to self.old.at)
            history.versions.items history.next)) }
        ensures refused { IfErr result (λ fault. ((fault ≡ Fault.Stranger)
            × (slice_get self.old.viewers.now.items
            (shard_of self.old.shared.now.splits key.now) ≡ None))
            ⊎ LookedAt self.old.viewers.now.items
            self.new.viewers.now.items (shard_of self.old.shared.now.splits key.now)
            (λ viewer after. IsUntoldBy viewer after key.now from
            (earlier to self.old.at) fault)) }
    {
        let shard = self.shared.splits.shard_of(key);
        match self.viewers.get_mut(usize::from(shard.number())) {
            Some(viewer) => {
                told_up_to(
                    self.rt,
                    self.shared,
                    viewer,
                    shard,
                    key,
                    from,
                    to,
                    self.at,
                    limit,
                    self.tries,
                )
            }
            None => Err(Fault::Stranger),
        }
    }

    /// Sets for how long each further `get` waits until its shard serves the timestamp, in whole milliseconds; 0 does not wait. A view of the
    /// present waits 3 seconds, and one that `Client::view_at` opened does not wait.
    pub fn wait_at_most(&mut self, wait: Duration)
        ensures at { self.new.at ≡ self.old.at }
        ensures splits { self.new.shared.now.splits ≡ self.old.shared.now.splits }
        ensures viewers { self.new.viewers.now.items ≡ self.old.viewers.now.items }
    {
        let pauses = u32::try_from(wait.as_millis() / u128::from(PAUSE)).unwrap_or(u32::MAX);
        self.tries = pauses.saturating_add(1);
    }
}

// What a viewer tells of a key at a timestamp, once its shard serves that: it looks so often, and asks the shard to serve it. A shard that has
// stopped shows nothing new from then on: so it is asked whether it has before the look.
fn shown<R: Wait + time::Clock>(
    rt: &R,
    shared: &Shared,
    viewer: &mut Viewer,
    at: Stamp,
    tries: u32,
    key: &Key,
    room: &mut [u8; MOST_BYTES],
) -> Result<Option<Value>, Fault>
    requires { 0 < tries }
    ensures shown { IfOk result (IsShown viewer.old viewer.new key.now at) }
    ensures refused { IfErr result (IsUnseenBy viewer.old viewer.new key.now at) }
{
    let shard = shared.splits.shard_of(key);
    let longest = Duration::from_millis(if tries > 1 { PAUSE } else { 0 });
    for _try in 0..tries {
        let has_stopped = shared.network.has_stopped(shard);
        match viewer.look(key, at, room) {
            Ok(seen) => return value_seen(shared.alloc, seen, room),
            Err(Fault::NotYet) => {
                if has_stopped {
                    return Err(Fault::Stopped);
                }
                shared.network.await_served(rt, shard, at, longest);
            }
            Err(fault) => return Err(fault),
        }
    }
    Err(Fault::NotYet)
}

// The value that a look put at the front of the buffer.
fn value_seen(alloc: Global, seen: Seen, buffer: &[u8]) -> Result<Option<Value>, Fault>
    ensures value { IfOk result (λ value. value ≡ seen_in seen buffer.now) }
    ensures refused { length buffer.now ≤ 4096
        → IfErr result (λ fault. IsSome (seen_in seen buffer.now)
        × ((fault ≡ Fault.Memory) ⊎ (fault ≡ Fault.Room))) }
{
    match seen {
        Seen::Absent => Ok(None),
        Seen::Value(length) => match buffer.get(..length) {
            Some(bytes) => Ok(Some(Value::new(alloc, bytes)?)),
            None => Err(Fault::Room),
        },
    }
}
