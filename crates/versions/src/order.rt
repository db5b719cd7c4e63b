//! Versions that stand in a list of their own, read in the order of their places.
ghost use Rattle.std.specs.Prelude.{◌≡◌, ℕ, ◌+◌, ◌<◌, ◌≤◌, drop, length, max};
ghost use Rattle.std.specs.Option.{option_copied};
ghost use Rattle.units.specs.Versions.{latest, at_time};
ghost use Rattle.versions.specs.Arranged.{arranged, AreWithin};
ghost use Rattle.versions.specs.Orders.{Orders, AreBehind};
ghost use Rattle.versions.specs.Ordered.{is_above};
ghost use Rattle.versions.specs.Due.{ForgetsIfDue};
ghost use Rattle.versions.specs.Pruned.{first_left, pruned};

use crate::forgetting::{self, is_due, is_passed_in};
use crate::placed::Places;
use crate::search::{self, place_from};
use units::{Install, Key, Stamp, Value};

impl Places {
    /// Tells whether the timestamp is above all versions of the key, so that one may be installed there.
    pub fn takes(&self, installs: &[Install], key: &Key, at: Stamp) -> bool
        requires { (horizon : ℕ) × Orders horizon installs.now (length installs.now) self.now }
        ensures { result ≡ is_above installs.now key.now at }
    {
        search::is_above(installs, self, key, at)
    }

    /// Gives the most recent value of a key: `None` if there is none or it was erased.
    pub fn latest<'a>(&self, installs: &'a [Install], key: &Key) -> Option<&'a Value>
        requires { (horizon : ℕ) × Orders horizon installs.now (length installs.now) self.now }
        ensures { option_copied result ≡ latest installs.now key.now }
    {
        search::latest(installs, self, key)
    }

    /// Gives the value that a key has at a timestamp that is not below what was forgotten: `None` if there is none or it was erased.
    pub fn at<'a>(&self, installs: &'a [Install], key: &Key, at: Stamp) -> Option<&'a Value>
        requires { (horizon : ℕ) × (horizon ≤ at)
            × Orders horizon installs.now (length installs.now) self.now }
        ensures { option_copied result ≡ at_time installs.now key.now at }
    {
        search::value_at(installs, self, key, at)
    }

    /// Takes in the versions after the first so many, whose places are known. They are the writes of one transaction, above their keys'
    /// others. Places that the horizon passed may go for them. There is room, and it takes no memory.
    pub fn follow(&mut self, installs: &[Install], known: usize, horizon: Stamp)
        requires known { Orders horizon installs.now known self.old }
        requires behind { AreBehind installs.now known }
        requires longer { known ≤ length installs.now }
        requires room { length installs.now ≤ known + self.old.room }
        ensures all { Orders horizon installs.now (length installs.now) self.new }
        ensures room { known + self.old.room ≤ length installs.now + self.new.room }
    {
        for at in known..installs.len() {
            place_from(installs, self, at, horizon);
        }
    }

    /// Forgets the versions below a horizon: of each key the places of all below it go, except that of the newest that is not above it. The
    /// versions stay in their list, which is somebody else's. It takes no memory, and what goes leaves its room.
    pub fn forget(&mut self, installs: &[Install], horizon: Stamp)
        requires { (before : ℕ) × Orders before installs.now (length installs.now) self.old }
        ensures versions { arranged installs.now self.new.places ≡
            pruned horizon (arranged installs.now self.old.places) }
        ensures orders { (before : ℕ) → Orders before installs.now (length installs.now) self.old
            → Orders (max before horizon) installs.now (length installs.now) self.new }
        ensures prefix { self.new.prefix ≡ self.old.prefix }
        ensures room { self.old.room ≤ self.new.room }
        ensures freed { length self.new.places + self.new.room ≡
            length self.old.places + self.old.room }
    {
        forgetting::forget(installs, self, horizon);
    }

    /// Forgets the versions below a horizon (`forget`) if that is due: if there are half as many more places as were left the last time, and 1,024.
    /// `left` says how many that were. So a pass over all places is paid for by those that came since the last one.
    pub fn forget_if_due(&mut self, installs: &[Install], horizon: Stamp, left: &mut usize)
        requires { (before : ℕ) × Orders before installs.now (length installs.now) self.old }
        ensures forgotten { ForgetsIfDue horizon left.old left.new
            (arranged installs.now self.old.places) (arranged installs.now self.new.places) }
        ensures orders { (before : ℕ) → Orders before installs.now (length installs.now) self.old
            → Orders (max before horizon) installs.now (length installs.now) self.new }
        ensures room { self.old.room ≤ self.new.room }
    {
        if is_due(*left, self.len()) {
            self.forget(installs, horizon);
            *left = self.len();
        }
    }
}

/// Gives the version at a place of a list, if a horizon leaves it: if the next one does not make it unneeded (`is_passed`).
pub fn left<'a>(
    installs: &'a [Install],
    order: &[usize],
    at: usize,
    horizon: Stamp,
) -> Option<&'a Install>
    requires within { AreWithin order.now (length installs.now) }
    requires at { at < length order.now }
    ensures { option_copied result ≡ first_left horizon (drop at (arranged installs.now order.now)) }
{
    if is_passed_in(installs, order, at, horizon) {
        return None;
    }
    Some(&installs[order[at]])
}
