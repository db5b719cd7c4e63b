// The splits: keys that ascend, one less than the shards.
ghost use Rattle.std.specs.Prelude.{◌≡◌, ◌≤◌, Some, MatchResult};
ghost use Rattle.toml.specs.View.{array_view, table_view, view};
ghost use Rattle.settings.specs.Documents.{IsUnread, key_in, keys_in, parted, splits_in};

use crate::members::{array_at, has};
use crate::wrong::{Setting, Unread, Wrong};
use std::alloc::Global;
use toml::{Table, Value};
use units::{Fault, Key, Splits};

/// Reads the splits of that many shards.
pub(crate) fn splits(alloc: Global, table: &Table, shards: u64) -> Result<Splits, Unread>
    requires { shards ≤ 16 }
    ensures { MatchResult result (λ s. splits_in shards (table_view table.now) ≡ Some s)
        (λ unread. IsUnread unread (splits_in shards (table_view table.now))) }
{
    match array_at(table, "splits") {
        Some(items) => {
            let found = split_keys(alloc, items)?;
            part(alloc, found.as_slice(), shards)
        }
        None if has(table, "splits") => Err(Unread::Wrong(Wrong::NoList)),
        None => Err(Unread::Wrong(Wrong::Missing(Setting::Splits))),
    }
}

// The keys of a list, each item of which must be a key.
fn split_keys(alloc: Global, items: &Vec<Value>) -> Result<Vec<Key>, Unread>
    ensures { MatchResult result (λ found. keys_in (array_view items.now) ≡ Some found.items)
        (λ unread. IsUnread unread (keys_in (array_view items.now))) }
{
    let mut found = Vec::new(alloc);
    for item in items {
        match split_key(item) {
            Some(key) => found.push(key)?,
            None => return Err(Unread::Wrong(Wrong::Split)),
        }
    }
    Ok(found)
}

fn split_key(item: &Value) -> Option<Key>
    ensures { result ≡ key_in (view item.now) }
{
    Key::new(item.as_str()?.as_bytes()).ok()
}

// The keys as splits: they must be one less than the shards, and ascend.
fn part(alloc: Global, keys: &[Key], shards: u64) -> Result<Splits, Unread>
    requires { shards ≤ 16 }
    ensures { MatchResult result (λ s. parted shards keys.now ≡ Some s)
        (λ unread. IsUnread unread (parted shards keys.now)) }
{
    let splits = keys.len() as u64;
    if splits != shards.saturating_sub(1) {
        return Err(Unread::Wrong(Wrong::Count { splits, shards }));
    }
    match Splits::new(alloc, keys) {
        Ok(splits) => Ok(splits),
        Err(Fault::Memory) => Err(Unread::Memory),
        Err(_) => Err(Unread::Wrong(Wrong::Order)),
    }
}
