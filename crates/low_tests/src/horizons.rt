//! Many versions, of which those below horizons are forgotten.
use crate::checks::{Row, byte};
use crate::versioned::{Plain, agree_at, install, install_by};
use counts::Count;
use made::{WrongRows, key, stamp};
use std::alloc::Global;
use std::ops::Range;
use units::Key;
use versions::Versions;

/// So many versions, one at each timestamp from 1 on. They are of so many keys in turn, which begin alike. A horizon
/// leaves so many of them, and so many more come then.
pub struct Many {
    what: &'static str,
    versions: u32,
    keys: u32,
    horizon: u32,
    left: usize,
    behind: u32,
}

/// Versions of one to five keys.
pub static MANY: [Many; 4] = [
    // 4,500 and the 500 after it.
    Many {
        what: "of one key",
        versions: 5_000,
        keys: 1,
        horizon: 4_500,
        left: 501,
        behind: 5_000,
    },
    Many {
        what: "the last of one key",
        versions: 9_000,
        keys: 1,
        horizon: 9_000,
        left: 1,
        behind: 3,
    },
    // 8,997, 8,998 and 8,999, and the one after them.
    Many {
        what: "of three keys",
        versions: 9_000,
        keys: 3,
        horizon: 8_999,
        left: 4,
        behind: 9_000,
    },
    // 4,093 to 4,097, and the 4,903 after them.
    Many {
        what: "of five keys, in two pieces",
        versions: 9_000,
        keys: 5,
        horizon: 4_097,
        left: 4_908,
        behind: 100,
    },
];

// Gives the value that is written at a turn.
fn value_in(turn: u32) -> Option<u8> {
    Some((turn % 251) as u8)
}

// Gives the key whose turn it is, and its value then.
fn in_turn(turn: u32, keys: u32) -> Plain {
    let last = (turn % keys.clamp(1, 200)) as u8;
    let bytes = [b'a', b'c', b'c', b'o', b'u', b'n', b't', b' ', last];
    match Key::new(&bytes) {
        Ok(key) => Plain {
            key,
            at: turn,
            value: value_in(turn),
        },
        Err(_) => unreachable!(),
    }
}

fn install_turns(alloc: Global, versions: &mut Versions, keys: u32, turns: Range<u32>) -> bool {
    for turn in turns {
        let Some(true) = install(alloc, versions, &in_turn(turn, keys)) else {
            return false;
        };
    }
    true
}

// Tells whether the keys have their values at each of these timestamps. The key whose turn it is has that of this
// turn, and the next key that of its last one.
fn show_turns(versions: &Versions, keys: u32, turns: Range<u32>) -> bool {
    for turn in turns {
        let at = stamp(turn);
        let next = turn.saturating_add(1);
        let own = versions.at(&in_turn(turn, keys).key, at);
        let other = versions.at(&in_turn(next, keys).key, at);
        if byte(own) != value_in(turn) || byte(other) != value_in(next.saturating_sub(keys)) {
            return false;
        }
    }
    true
}

// How many turns of the past are kept while versions come.
const KEPT: u32 = 100;

const TURNS: u32 = 1_000;

// Installs versions in turn, each with the horizon of its turn. Tells whether the keys have their values from the last horizon up, and whether
// no more versions stay than those read there, and one of each key.
fn stay_few(alloc: Global, keys: u32) -> bool {
    let mut versions = Versions::none(alloc);
    for turn in 1..TURNS {
        let horizon = turn.saturating_sub(KEPT);
        let new = in_turn(turn, keys);
        let Some(true) = install_by(alloc, &mut versions, &new, Some(horizon)) else {
            drop(versions);
            return false;
        };
    }
    let (left, _) = versions.find(&key(255), stamp(u32::MAX), &mut Count::none());
    let shown = show_turns(&versions, keys, TURNS - KEPT..TURNS);
    drop(versions);
    shown && left as u64 <= KEPT as u64 + 2 * keys.clamp(1, 200) as u64
}

impl Row for Many {
    fn tell(&self, wrong: &mut WrongRows, rt: &HostRuntime) {
        let alloc = rt.alloc();
        let mut versions = Versions::none(alloc);
        let end = self.versions.saturating_add(1);
        let later = end.saturating_add(self.behind);
        let installed = install_turns(alloc, &mut versions, self.keys, 1..end);
        let mut kept = 0;
        versions.forget_if_due(stamp(self.horizon), &mut kept);
        // It is not due again.
        versions.forget_if_due(stamp(self.versions), &mut kept);
        let before = stamp(self.horizon.saturating_sub(1));
        let (left, _) = versions.find(&key(255), stamp(u32::MAX), &mut Count::none());
        let old = versions.at(&in_turn(self.horizon, self.keys).key, before);
        let shown = installed
            && left == self.left
            && kept == self.left
            && old.is_none()
            && show_turns(&versions, self.keys, self.horizon..end)
            && install_turns(alloc, &mut versions, self.keys, end..later)
            && show_turns(&versions, self.keys, self.horizon..later)
            && stay_few(alloc, self.keys);
        drop(versions);
        wrong.unless(shown, self.what);
    }
}

// Tells whether a later version of the key is not above the horizon.
fn has_later(all: &[Plain], one: &Plain, horizon: u32) -> bool {
    for other in all {
        if other.key == one.key && one.at < other.at && other.at <= horizon {
            return true;
        }
    }
    false
}

// Makes the plain list without the versions that a horizon drops.
fn without(alloc: Global, all: &[Plain], horizon: u32) -> Option<Vec<Plain>> {
    let mut kept = Vec::new(alloc);
    for one in all {
        if !has_later(all, one, horizon) && kept.push(*one).is_err() {
            return None;
        }
    }
    Some(kept)
}

/// Forgets what is below the horizon, in versions and in the plain list. It tells whether both say the same of each
/// version that there was.
pub fn forget_both(
    alloc: Global,
    versions: &mut Versions,
    all: &mut Vec<Plain>,
    horizon: u32,
) -> bool {
    let Some(kept) = without(alloc, all, horizon) else {
        return false;
    };
    versions.forget(stamp(horizon));
    for sought in all.iter() {
        if !agree_at(versions, &kept, sought) {
            return false;
        }
    }
    *all = kept;
    true
}
