//! The newest version of a key up to a time, among versions in any order.
ghost use Rattle.std.specs.Prelude.{◌≡◌};
ghost use Rattle.std.specs.Option.{option_copied};
ghost use Rattle.units.specs.Versions.{at_time};
ghost use Rattle.units.specs.Newer.{newer, newest_upto};

use crate::{Install, Key, Stamp, Value};

/// Finds the value of a key at a timestamp. `None` comes if the key is erased then, or has no version yet.
#[tactic(auto, using(crate::proofs::Latest::value_of))]
pub fn value_at<'a>(installs: &'a [Install], key: &Key, at: Stamp) -> Option<&'a Value>
    ensures { option_copied result ≡ at_time installs.now key.now at }
{
    match newest_at(installs, key, at) {
        Some(install) => install.value.as_ref(),
        None => None,
    }
}

// Finds the newest version of the key up to the timestamp.
fn newest_at<'a>(installs: &'a [Install], key: &Key, at: Stamp) -> Option<&'a Install>
    ensures { option_copied result ≡ newest_upto installs.now key.now at }
{
    let mut best: Option<&Install> = None;
    let mut left = installs.len();
    while left > 0 {
        left -= 1;
        best = newer(&installs[left], best, key, at);
    }
    best
}

// Gives the version, if it is of the key and not above the timestamp, unless a later one is known.
fn newer<'a>(
    one: &'a Install,
    best: Option<&'a Install>,
    key: &Key,
    at: Stamp,
) -> Option<&'a Install>
    ensures { option_copied result ≡ newer one.now key.now at (option_copied best.entry) }
{
    if one.at.micros() > at.micros() || one.key != *key {
        return best;
    }
    match best {
        Some(other) if one.at.micros() < other.at.micros() => Some(other),
        _ => Some(one),
    }
}
