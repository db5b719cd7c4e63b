//! What is wrong with a text that gives no settings.
ghost use Rattle.std.specs.Prelude.{◌≡◌};
ghost use Rattle.settings.specs.Documents.{name_of};

use crate::members::is_known_key;
use std::alloc::{AllocError, AllocFailed, Global};
use std::fmt;
use units::{Fault, Reason};

/// The keys that settings may have.
const KEYS: &str = "shards, splits, stride, epsilon, workers, transactions, keys, dir";

/// A key of settings.
#[derive(Clone, Copy, PartialEq, Eq)]
pub enum Setting {
    Shards,
    Splits,
    Stride,
    Epsilon,
    Workers,
    Transactions,
    Keys,
    Dir,
}

impl Setting {
    /// Returns the key as a TOML document spells it.
    pub fn name(self) -> &'static str
        ensures { result.now ≡ name_of self }
    {
        match self {
            Setting::Shards => "shards",
            Setting::Splits => "splits",
            Setting::Stride => "stride",
            Setting::Epsilon => "epsilon",
            Setting::Workers => "workers",
            Setting::Transactions => "transactions",
            Setting::Keys => "keys",
            Setting::Dir => "dir",
        }
    }
}

/// Why a text gives no settings: the first thing that is wrong with it.
#[derive(Clone, Copy, PartialEq, Eq)]
pub enum Wrong {
    /// The text is no TOML. This line, from 1, is no TOML, repeats a key, or has a number beyond 64 bits.
    NotToml { line: u64 },
    /// It has a key that settings do not have.
    Unknown,
    /// It lacks this key.
    Missing(Setting),
    /// The value at this key is no integer from `least` to `most`.
    Number { key: Setting, least: u64, most: u64 },
    /// The splits are no array.
    NoList,
    /// A split is no string of 1 to 64 bytes.
    Split,
    /// The number of splits is not one less than that of shards.
    Count { splits: u64, shards: u64 },
    /// The splits do not ascend.
    Order,
    /// The folder is no string, or it is empty.
    Folder,
}

/// Why settings were not read: there was no memory, or something is wrong with their text.
#[derive(Clone, Copy)]
pub enum Unread {
    Memory,
    Wrong(Wrong),
}

impl<T: Drop> From<AllocFailed<T>> for Unread {
    ghost use Rattle.std.specs.Prelude.{◌≡◌};
    ghost use Rattle.settings.specs.declared.wrong.Unread.TheVariants.{Memory};

    ghost from_gives = { λ error unread. unread ≡ Memory };

    fn from(_error: AllocFailed<T>) -> Unread {
        Unread::Memory
    }
}

impl From<AllocError> for Unread {
    ghost use Rattle.std.specs.Prelude.{◌≡◌};
    ghost use Rattle.settings.specs.declared.wrong.Unread.TheVariants.{Memory};

    ghost from_gives = { λ error unread. unread ≡ Memory };

    fn from(_error: AllocError) -> Unread {
        Unread::Memory
    }
}

impl From<Wrong> for Unread {
    ghost use Rattle.std.specs.Prelude.{◌≡◌};
    ghost use Rattle.settings.specs.declared.wrong.Unread.TheVariants as unread;

    ghost from_gives = { λ wrong told. told ≡ unread.Wrong wrong };

    fn from(wrong: Wrong) -> Unread {
        Unread::Wrong(wrong)
    }
}

impl From<Unread> for Fault {
    ghost use Rattle.std.specs.Prelude.{◌≡◌};
    ghost use Rattle.settings.specs.Documents.{fault_of};

    ghost from_gives = { λ unread fault. fault ≡ fault_of unread };

    fn from(unread: Unread) -> Fault {
        match unread {
            Unread::Memory => Fault::Memory,
            Unread::Wrong(_) => Fault::BadRequest(Reason::Settings),
        }
    }
}

impl Wrong {
    /// Returns the key that is wrong, or "" if settings do not have it.
    fn key(self) -> &'static str {
        match self {
            Wrong::NotToml { .. } | Wrong::Unknown => "",
            Wrong::Missing(key) | Wrong::Number { key, .. } => key.name(),
            Wrong::NoList | Wrong::Split | Wrong::Count { .. } | Wrong::Order => "splits",
            Wrong::Folder => "dir",
        }
    }

    /// Returns the line of the text that is wrong, from 1, and its key, if they can be found.
    fn place(self, text: &str) -> Option<(u64, &str)> {
        let key = self.key();
        let mut line: u64 = 0;
        for words in text.lines() {
            line = line.saturating_add(1);
            if let Wrong::NotToml { line: wrong } = self {
                if line == wrong {
                    return Some((line, ""));
                }
            } else if let Some(found) = key_in(words) {
                if found == key || (key.is_empty() && !is_known_key(found)) {
                    return Some((line, found));
                }
            }
        }
        None
    }

    /// Says what is wrong, as a message has it after the name of the file: the line if it is known, the key, and what is allowed.
    pub fn told(self, alloc: Global, text: &str) -> Result<String, AllocError> {
        match (self, self.place(text)) {
            (Wrong::Unknown, Some((line, key))) => {
                format!(in alloc; "{line}: '{key}' is no key of settings; these are: {KEYS}")
            }
            (_, Some((line, _))) => format!(in alloc; "{line}: {self}"),
            (_, None) => format!(in alloc; " {self}"),
        }
    }
}

// The key to which a line gives a value, or the header of a table. Any other line has none.
fn key_in(line: &str) -> Option<&str> {
    let line = line.trim_ascii();
    if let Some(header) = line.strip_prefix('[') {
        return Some(header.strip_suffix(']').unwrap_or(header));
    }
    if line.starts_with('#') {
        return None;
    }
    let (key, _) = line.split_once('=')?;
    let key = key.trim_ascii();
    Some(
        key.strip_prefix('"')
            .and_then(|key| key.strip_suffix('"'))
            .unwrap_or(key),
    )
}

impl fmt::Display for Wrong {
    fn fmt<W: fmt::Write>(&self, f: &mut fmt::Formatter<W>) -> fmt::Result {
        match *self {
            Wrong::NotToml { .. } => f.write_str(
                "this line is no TOML, tells a key again, or a number beyond 64 bits",
            ),
            Wrong::Unknown => write!(f, "a key is unknown; settings have these: {KEYS}"),
            Wrong::Missing(key) => write!(f, "the key '{}' is missing", key.name()),
            Wrong::Number { key, least, most } => {
                let name = key.name();
                write!(
                    f,
                    "'{name}' has to be a whole number from {least} to {most}"
                )
            }
            Wrong::NoList => f.write_str("'splits' has to be a list of texts"),
            Wrong::Split => f.write_str("each of 'splits' has to be a text of 1 to 64 bytes"),
            Wrong::Count { splits, shards } => {
                let wanted = shards.saturating_sub(1);
                let word = if splits == 1 { "key" } else { "keys" };
                write!(
                    f,
                    "'splits' has {splits} {word}, and {shards} shards want {wanted}"
                )
            }
            Wrong::Order => f.write_str("the keys of 'splits' have to ascend"),
            Wrong::Folder => f.write_str("'dir' has to be a text that is not empty"),
        }
    }
}
