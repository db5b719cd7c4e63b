//! The versions of keys.
ghost use Rattle.std.specs.Prelude.{◌≡◌, ◌<◌, []};

use crate::checks::{Row, byte, go_over_all};
use crate::horizons::forget_both;
use counts::Count;
use made::{WrongRows, key, stamp};
use std::alloc::Global;
use std::cmp::Ordering;
use units::{Key, Stamp, Value, Write, Writes};
use versions::Versions;

/// A version: the letter of its key, its timestamp, and a value of one letter or an erasure.
type Version = (u8, u32, Option<u8>);

#[derive(Clone, Copy)]
/// A version in a plain list of all, ascending by key and timestamp.
pub struct Plain {
    pub key: Key,
    pub at: u32,
    pub value: Option<u8>,
}

/// Installs the version if its key takes it, and tells whether it does. `None` means that there is no memory.
pub fn install(alloc: Global, versions: &mut Versions, new: &Plain) -> Option<bool> {
    install_by(alloc, versions, new, None)
}

/// The same. If there is a horizon, one that it passed may go for the version.
pub fn install_by(
    alloc: Global,
    versions: &mut Versions,
    new: &Plain,
    horizon: Option<u32>,
) -> Option<bool> {
    let Ok(()) = versions.reserve(1) else {
        return None;
    };
    let value = match new.value {
        Some(byte) => match Value::new(alloc, &[byte]) {
            Ok(value) => Some(value),
            Err(_) => return None,
        },
        None => None,
    };
    let at = stamp(new.at);
    let takes = versions.takes(&new.key, at);
    match horizon {
        None if takes => versions.install(new.key, at, value),
        Some(horizon) if takes => versions.install_from(new.key, at, value, stamp(horizon)),
        _ => drop(value),
    }
    Some(takes)
}

// Installs each that its key takes.
fn install_rows(alloc: Global, versions: &mut Versions, rows: &[Version]) -> bool {
    for (letter, at, value) in rows {
        let new = Plain {
            key: key(*letter),
            at: *at,
            value: *value,
        };
        if install(alloc, versions, &new).is_none() {
            return false;
        }
    }
    true
}

// Installs, at 200, `1` of `a` and the erasure of `z`.
fn install_two(alloc: Global, versions: &mut Versions) -> bool
    requires none { versions.old.installs ≡ [] }
{
    let Ok(value) = Value::new(alloc, b"1") else {
        return false;
    };
    let written = Write {
        key: key(b'a'),
        value: Some(value),
    };
    let erased = Write {
        key: key(b'z'),
        value: None,
    };
    let Ok(list) = vec![in alloc; written, erased] else {
        return false;
    };
    let Ok(writes) = Writes::from_vec(list) else {
        return false;
    };
    let Ok(()) = versions.reserve(2) else {
        drop(writes);
        return false;
    };
    versions.install_all(writes, stamp(200));
    true
}

/// The letter of a key, a timestamp or `None` for the latest, and the value that is found. If the place is checked:
/// how many versions stand up to there, and how many are compared at most.
type Lookup = (u8, Option<u64>, Option<u8>, Option<(usize, u32)>);

/// Versions, the horizons below which they are forgotten one after another, versions that come then, and what is
/// found.
#[derive(Clone, Copy)]
pub struct Looked {
    pub what: &'static str,
    pub versions: &'static [Version],
    /// Instead of them, a value of `1` is written to `a` and `z` is erased, by writes at 200.
    pub written: bool,
    pub horizons: &'static [u64],
    pub behind: &'static [Version],
    pub lookups: &'static [Lookup],
}

/// No version.
const EMPTY: Looked = Looked {
    what: "",
    versions: &[],
    written: false,
    horizons: &[],
    behind: &[],
    lookups: &[],
};

// One key, written twice.
const TWO: &[Version] = &[(b'z', 200, Some(b'1')), (b'z', 300, Some(b'2'))];

// One key, erased between two writes.
const ERASED: &[Version] = &[
    (b'a', 111, Some(b'1')),
    (b'a', 200, None),
    (b'a', 300, Some(b'2')),
];

// Three keys, of which one is written late.
const SIX: &[Version] = &[
    (b'a', 10, Some(b'1')),
    (b'b', 5, Some(b'4')),
    (b'a', 20, Some(b'2')),
    (b'b', 25, Some(b'5')),
    (b'a', 30, Some(b'3')),
    (b'c', 40, Some(b'6')),
];

// What comes later.
const LATER: &[Version] = &[
    (b'a', 31, Some(b'7')),
    (b'b', 26, None),
    (b'd', 50, Some(b'8')),
];

// What is found at timestamps.
static FOUND: [Looked; 5] = [
    Looked {
        what: "a value from its timestamp on",
        versions: &[(b'a', 111, Some(b'1')), (b'z', 200, Some(b'2'))],
        lookups: &[
            (b'a', Some(110), None, None),
            (b'a', Some(111), Some(b'1'), None),
            (b'a', Some(Stamp::MAX), Some(b'1'), None),
            (b'z', Some(199), None, None),
            (b'z', Some(200), Some(b'2'), None),
            (b'k', Some(200), None, None),
            (b'z', None, Some(b'2'), None),
            (b'k', None, None, None),
        ],
        ..EMPTY
    },
    Looked {
        what: "an erasure hides older values",
        versions: &[(b'a', 111, Some(b'1')), (b'a', 200, None)],
        lookups: &[
            (b'a', Some(199), Some(b'1'), None),
            (b'a', Some(200), None, None),
            (b'a', None, None, None),
        ],
        ..EMPTY
    },
    // Keys and timestamps without an order, one of them twice. Four versions are below 2^3.
    Looked {
        what: "in order by key and timestamp",
        versions: &[
            (b'b', 30, None),
            (b'a', 10, None),
            (b'c', 5, None),
            (b'a', 20, None),
            (b'a', 20, None),
        ],
        lookups: &[
            (b'b', Some(30), None, Some((3, 3))),
            (b'a', Some(10), None, Some((1, 3))),
            (b'c', Some(5), None, Some((4, 3))),
            (b'a', Some(20), None, Some((2, 3))),
            (b'b', Some(29), None, Some((2, 3))),
        ],
        ..EMPTY
    },
    Looked {
        what: "no version",
        lookups: &[(b'b', Some(29), None, Some((0, 0)))],
        ..EMPTY
    },
    Looked {
        what: "writes at one timestamp",
        written: true,
        lookups: &[
            (b'a', Some(199), None, None),
            (b'a', Some(200), Some(b'1'), None),
            (b'z', None, None, None),
            (b'z', Some(200), None, Some((2, 2))),
        ],
        ..EMPTY
    },
];

// Versions below a horizon are forgotten.
static FORGOTTEN: [Looked; 7] = [
    Looked {
        what: "the older of two goes",
        versions: TWO,
        horizons: &[300],
        lookups: &[
            (b'z', Some(299), None, None),
            (b'z', Some(300), Some(b'2'), None),
            (b'z', None, Some(b'2'), Some((1, 1))),
        ],
        ..EMPTY
    },
    Looked {
        what: "the newest below a horizon stays",
        versions: TWO,
        horizons: &[250],
        lookups: &[
            (b'z', Some(199), None, None),
            (b'z', Some(200), Some(b'1'), None),
            (b'z', Some(250), Some(b'1'), None),
            (b'z', Some(299), Some(b'1'), None),
            (b'z', Some(300), Some(b'2'), None),
            (b'z', None, Some(b'2'), Some((2, 2))),
        ],
        ..EMPTY
    },
    Looked {
        what: "that at the horizon stays",
        versions: TWO,
        horizons: &[200],
        lookups: &[
            (b'z', Some(200), Some(b'1'), None),
            (b'z', Some(299), Some(b'1'), None),
            (b'z', None, Some(b'2'), Some((2, 2))),
        ],
        ..EMPTY
    },
    Looked {
        what: "a horizon below all",
        versions: TWO,
        horizons: &[199],
        lookups: &[
            (b'z', Some(199), None, None),
            (b'z', Some(200), Some(b'1'), None),
            (b'z', None, Some(b'2'), Some((2, 2))),
        ],
        ..EMPTY
    },
    Looked {
        what: "a horizon above all",
        versions: SIX,
        horizons: &[4611686018427387903],
        lookups: &[
            (b'a', Some(4611686018427387903), Some(b'3'), None),
            (b'b', None, Some(b'5'), None),
            (b'c', None, Some(b'6'), Some((3, 2))),
            (b'a', Some(29), None, None),
            (b'a', Some(30), Some(b'3'), None),
        ],
        ..EMPTY
    },
    Looked {
        what: "an erasure that is the newest stays",
        versions: ERASED,
        horizons: &[250],
        lookups: &[
            (b'a', Some(199), None, None),
            (b'a', Some(200), None, None),
            (b'a', Some(250), None, None),
            (b'a', Some(299), None, None),
            (b'a', Some(300), Some(b'2'), None),
            (b'a', None, Some(b'2'), Some((2, 2))),
        ],
        ..EMPTY
    },
    Looked {
        what: "an erasure before it goes",
        versions: ERASED,
        horizons: &[300],
        lookups: &[
            (b'a', Some(250), None, None),
            (b'a', Some(300), Some(b'2'), None),
            (b'a', None, Some(b'2'), Some((1, 1))),
        ],
        ..EMPTY
    },
];

// Horizons over several keys, over none, and one after another.
static HORIZONS: [Looked; 6] = [
    Looked {
        what: "each key by itself",
        versions: SIX,
        horizons: &[20],
        lookups: &[
            (b'a', Some(10), None, None),
            (b'a', Some(20), Some(b'2'), None),
            (b'a', Some(29), Some(b'2'), None),
            (b'a', Some(30), Some(b'3'), None),
            (b'b', Some(5), Some(b'4'), None),
            (b'b', Some(20), Some(b'4'), None),
            (b'b', Some(25), Some(b'5'), None),
            (b'c', Some(39), None, None),
            (b'c', Some(40), Some(b'6'), None),
            (b'c', None, Some(b'6'), Some((5, 3))),
        ],
        ..EMPTY
    },
    Looked {
        what: "twice",
        versions: SIX,
        horizons: &[20, 30],
        lookups: &[
            (b'a', Some(29), None, None),
            (b'a', Some(30), Some(b'3'), None),
            (b'b', Some(25), Some(b'5'), None),
            (b'b', Some(24), None, None),
            (b'c', Some(40), Some(b'6'), Some((3, 2))),
            (b'c', Some(39), None, Some((2, 2))),
        ],
        ..EMPTY
    },
    Looked {
        what: "a lower horizon later",
        versions: SIX,
        horizons: &[30, 10],
        lookups: &[
            (b'a', Some(30), Some(b'3'), None),
            (b'b', Some(30), Some(b'5'), None),
            (b'a', Some(20), None, None),
            (b'c', None, Some(b'6'), Some((3, 2))),
        ],
        ..EMPTY
    },
    Looked {
        what: "the beginning of time",
        versions: SIX,
        horizons: &[0],
        lookups: &[
            (b'a', Some(10), Some(b'1'), None),
            (b'a', Some(20), Some(b'2'), None),
            (b'b', Some(5), Some(b'4'), None),
            (b'c', None, Some(b'6'), Some((6, 3))),
        ],
        ..EMPTY
    },
    Looked {
        what: "no version",
        horizons: &[100],
        lookups: &[
            (b'a', Some(100), None, Some((0, 0))),
            (b'a', None, None, None),
        ],
        ..EMPTY
    },
    Looked {
        what: "installs behind it",
        versions: SIX,
        horizons: &[20],
        behind: LATER,
        lookups: &[
            (b'a', Some(20), Some(b'2'), None),
            (b'a', Some(30), Some(b'3'), None),
            (b'a', Some(31), Some(b'7'), None),
            (b'b', Some(20), Some(b'4'), None),
            (b'b', Some(25), Some(b'5'), None),
            (b'b', Some(26), None, None),
            (b'b', None, None, None),
            (b'c', Some(40), Some(b'6'), None),
            (b'd', Some(49), None, None),
            (b'd', Some(50), Some(b'8'), None),
            (b'd', None, Some(b'8'), Some((8, 4))),
        ],
        ..EMPTY
    },
];

/// Tells whether each look-up finds what it should, and compares no more versions than it may.
pub fn all_found(versions: &Versions, rows: &[Lookup]) -> bool {
    for (letter, at, value, place) in rows {
        let key = key(*letter);
        let Ok(by) = Stamp::new(at.unwrap_or(Stamp::MAX)) else {
            return false;
        };
        let found = match at {
            Some(_) => versions.at(&key, by),
            None => versions.latest(&key),
        };
        let (count, probes) = versions.find(&key, by, &mut Count::none());
        let placed = match place {
            Some((place, most)) => count == *place && probes <= *most,
            None => true,
        };
        if byte(found) != *value || !placed {
            return false;
        }
    }
    true
}

fn forget_all(versions: &mut Versions, horizons: &[u64]) -> bool {
    for horizon in horizons {
        let Ok(horizon) = Stamp::new(*horizon) else {
            return false;
        };
        versions.forget(horizon);
    }
    true
}

impl Row for Looked {
    fn tell(&self, wrong: &mut WrongRows, rt: &HostRuntime) {
        let alloc = rt.alloc();
        let mut versions = Versions::none(alloc);
        let installed = if self.written {
            install_two(alloc, &mut versions)
        } else {
            install_rows(alloc, &mut versions, self.versions)
        };
        let shown = installed
            && forget_all(&mut versions, self.horizons)
            && install_rows(alloc, &mut versions, self.behind)
            && all_found(&versions, self.lookups);
        drop(versions);
        wrong.unless(shown, self.what);
    }
}

// Draws a number below a limit.
fn draw(state: &mut u64, limit: u64) -> u64
    requires { 0 < limit }
    ensures { result < limit }
{
    *state = state
        .wrapping_mul(6364136223846793005)
        .wrapping_add(1442695040888963407);
    (*state >> 33) % limit
}

// A few byte values, the least and the greatest among them, so that keys begin alike and end in zeros.
static BYTES: [u8; 4] = [0, 1, b'c', 255];

// Draws a key of so many letters, mostly followed by up to three bytes, and at times by up to 64 bytes in all.
fn draw_key(state: &mut u64, letters: usize) -> Key {
    let mut bytes = *b"abcdefghijklmnopqrstuvwxyzabcdefghijklmnopqrstuvwxyzabcdefghijkl";
    let letters = letters.min(20);
    let behind = if draw(state, 4) == 0 {
        draw(state, 65 - letters as u64)
    } else {
        draw(state, 4)
    };
    let len = (letters + behind as usize).clamp(1, 64);
    for byte in &mut bytes[letters..len] {
        *byte = BYTES[draw(state, 4) as usize];
    }
    match Key::new(&bytes[..len]) {
        Ok(key) => key,
        Err(_) => unreachable!(),
    }
}

// Draws a version of a key that begins with so many letters, one of these numbers.
fn draw_version(state: &mut u64, letters: &[usize; 5], turn: u32) -> Plain {
    let chosen = draw(state, 5) as usize;
    let key = draw_key(state, letters[chosen]);
    let at = turn.saturating_add(draw(state, 60) as u32);
    let value = match draw(state, 5) {
        0 => None,
        drawn => Some(drawn as u8),
    };
    Plain { key, at, value }
}

// What a plain list says of a key at a timestamp. It has how many of all are not after it, the value by then, the
// latest value, and whether none of the key is as late.
#[derive(Clone, Copy)]
struct Listed {
    count: usize,
    value: Option<u8>,
    latest: Option<u8>,
    is_above: bool,
}

fn told(all: &[Plain], key: &Key, at: u32) -> Listed {
    let mut listed = Listed {
        count: 0,
        value: None,
        latest: None,
        is_above: true,
    };
    for one in all {
        match one.key.cmp(key) {
            Ordering::Less => listed.count = listed.count.saturating_add(1),
            Ordering::Greater => {}
            Ordering::Equal => {
                if one.at <= at {
                    listed.count = listed.count.saturating_add(1);
                    listed.value = one.value;
                }
                listed.latest = one.value;
                listed.is_above &= one.at < at;
            }
        }
    }
    listed
}

// Adds the new version to the versions and to the plain list, and tells whether both take it or neither does.
fn take(alloc: Global, versions: &mut Versions, all: &mut Vec<Plain>, new: &Plain) -> bool {
    let listed = told(all, &new.key, new.at);
    match install(alloc, versions, new) {
        Some(true) => listed.is_above && all.insert(listed.count.min(all.len()), *new).is_ok(),
        Some(false) => !listed.is_above,
        None => false,
    }
}

/// Tells whether the versions and the plain list say the same of a key at a timestamp, and the search compares no
/// more than it should.
pub fn agree_at(versions: &Versions, all: &[Plain], sought: &Plain) -> bool {
    let (key, at) = (&sought.key, stamp(sought.at));
    let listed = told(all, key, sought.at);
    let (found, probes) = versions.find(key, at, &mut Count::none());
    // The number's binary digits, or one less.
    let digits = usize::BITS - all.len().leading_zeros();
    (found == listed.count)
        & (byte(versions.at(key, at)) == listed.value)
        & (byte(versions.latest(key)) == listed.latest)
        & (digits.wrapping_sub(probes) <= 1)
}

/// So many drawn versions of keys that begin with so many letters, one of these numbers. At some turns the new
/// version is looked for, and another drawn one. Or those below a drawn horizon are forgotten, and each that there
/// was is looked for.
pub struct Drawn {
    what: &'static str,
    forgets: bool,
    letters: [usize; 5],
    turns: u32,
    apart: u32,
}

// Lengths of what keys begin with.
const PREFIXES: [usize; 5] = [0, 3, 8, 9, 20];

/// Drawn versions of keys that begin alike in few or many letters.
pub static DRAWN: [Drawn; 8] = [
    Drawn {
        what: "behind no letter",
        forgets: false,
        letters: [0; 5],
        turns: 600,
        apart: 4,
    },
    Drawn {
        what: "behind 3 letters",
        forgets: false,
        letters: [3; 5],
        turns: 600,
        apart: 4,
    },
    Drawn {
        what: "behind 8 letters",
        forgets: false,
        letters: [8; 5],
        turns: 600,
        apart: 4,
    },
    Drawn {
        what: "behind 9 letters",
        forgets: false,
        letters: [9; 5],
        turns: 600,
        apart: 4,
    },
    Drawn {
        what: "behind 20 letters",
        forgets: false,
        letters: [20; 5],
        turns: 600,
        apart: 4,
    },
    Drawn {
        what: "behind several prefixes",
        forgets: false,
        letters: PREFIXES,
        turns: 3_000,
        apart: 32,
    },
    Drawn {
        what: "behind 8 letters, with horizons",
        forgets: true,
        letters: [8; 5],
        turns: 600,
        apart: 40,
    },
    Drawn {
        what: "behind several prefixes, with horizons",
        forgets: true,
        letters: PREFIXES,
        turns: 2_000,
        apart: 150,
    },
];

fn agree(alloc: Global, versions: &mut Versions, all: &mut Vec<Plain>, row: &Drawn) -> bool {
    let mut state = u64::from(row.turns);
    for turn in 0..row.turns {
        let new = draw_version(&mut state, &row.letters, turn);
        let before = draw(&mut state, u64::from(turn) + 1) as u32;
        let sought = draw_version(&mut state, &PREFIXES, before);
        let taken = take(alloc, versions, all, &new);
        let agreed = if turn % row.apart.max(1) != 0 {
            true
        } else if row.forgets {
            let horizon = turn.saturating_add(draw(&mut state, 60) as u32);
            forget_both(alloc, versions, all, horizon)
        } else {
            agree_at(versions, all, &new) && agree_at(versions, all, &sought)
        };
        if !taken || !agreed {
            return false;
        }
    }
    true
}

// A copy of the versions agrees with the plain list at each version.
fn copy_agrees(alloc: Global, versions: &Versions, all: &[Plain]) -> bool {
    let Ok(copy) = versions.copy(alloc) else {
        return false;
    };
    let mut agreed = true;
    for one in all {
        agreed &= agree_at(&copy, all, one);
    }
    drop(copy);
    agreed
}

impl Row for Drawn {
    fn tell(&self, wrong: &mut WrongRows, rt: &HostRuntime) {
        let alloc = rt.alloc();
        let (mut versions, mut all) = (Versions::none(alloc), Vec::new(alloc));
        let agreed = agree(alloc, &mut versions, &mut all, self)
            && copy_agrees(alloc, &versions, &all);
        drop(versions);
        drop(all);
        wrong.unless(agreed, self.what);
    }
}

// A body that names a table costs much to prove, so a function hands each on.
fn found() -> &'static [Looked] {
    &FOUND
}

fn forgotten() -> &'static [Looked] {
    &FORGOTTEN
}

fn horizons() -> &'static [Looked] {
    &HORIZONS
}

/// Checks what is found of versions, at timestamps and after horizons.
pub fn tell_looked(wrong: &mut WrongRows, rt: &HostRuntime) {
    go_over_all(wrong, rt, "versions", &[found(), forgotten(), horizons()]);
}
