//! Helpers for lists of keys, answers and writes.
ghost use Rattle.std.specs.List.{list_any, list_all};
ghost use Rattle.std.specs.Prelude.{◌≡◌, ◌≤◌, ◌<◌, ◌+◌, ◌&&◌, not, length, vec_len, vec_capacity, filter, IfOk, IfErr};
ghost use Rattle.units.specs.Lists.{insert};
ghost use Rattle.units.specs.Keys.{same_key, has_key, key_before, write_before, writes_key};
ghost use Rattle.session.specs.Places.{place_among, write_place};
ghost use Rattle.session.specs.Sessions.{epochs_agree, without_key};

use crate::Answered;
use units::{Epoch, Fault, Key, ShardNo, Write};

/// Tells whether the key is in the list.
pub fn has_key(keys: &[Key], key: &Key) -> bool
    ensures { result ≡ has_key keys.now key.now }
{
    keys.contains(key)
}

/// Tells whether a value of the key was taken.
pub fn was_taken(taken: &[Answered], key: &Key) -> bool
    ensures { result ≡ list_any (λ a. same_key a.key key.now) taken.now }
{
    for answered in taken {
        if answered.key == *key {
            return true;
        }
    }
    false
}

/// Tells whether all answers of a shard are of this epoch.
pub fn epochs_agree(taken: &[Answered], shard: ShardNo, epoch: Epoch) -> bool
    ensures { result ≡ epochs_agree taken.now shard epoch }
{
    for answered in taken {
        if answered.shard == shard && answered.epoch != epoch {
            return false;
        }
    }
    true
}

/// Tells whether the key is written.
pub fn is_written(writes: &[Write], key: &Key) -> bool
    ensures { result ≡ writes_key writes.now key.now }
{
    for write in writes {
        if write.key == *key {
            return true;
        }
    }
    false
}

/// Removes a key from a list.
pub fn drop_key(keys: &mut Vec<Key>, key: &Key)
    ensures same { keys.new.items ≡ without_key keys.old.items key.now }
{
    keys.retain(|other| other != key);
}

/// Removes a key's write from a list.
pub fn drop_write(writes: &mut Vec<Write>, key: &Key)
    ensures same { writes.new.items ≡ filter (λ w. not (same_key w.key key.now)) writes.old.items }
    ensures shorter { vec_len writes.new ≤ vec_len writes.old }
    ensures capacity { vec_capacity writes.new ≡ vec_capacity writes.old }
{
    writes.retain(|write| write.key != *key);
}

/// Counts the keys at the front of a list that come before a key.
pub fn place_among(keys: &[Key], key: &Key) -> usize
    ensures place { result ≡ place_among keys.now key.now }
    ensures limit { result ≤ length keys.now }
{
    for (i, other) in keys.iter().enumerate() {
        if other >= key {
            return i;
        }
    }
    keys.len()
}

/// Counts the writes at the front of a list that come before a key.
pub fn write_place(writes: &[Write], key: &Key) -> usize
    ensures place { result ≡ write_place writes.now key.now }
    ensures limit { result ≤ length writes.now }
{
    for (i, write) in writes.iter().enumerate() {
        if write.key >= *key {
            return i;
        }
    }
    writes.len()
}

/// Puts a key at its place in the order of bytes. `Memory` if memory runs out.
pub fn insert_key(keys: &mut Vec<Key>, key: Key) -> Result<(), Fault>
    ensures same { IfOk result (λ _. keys.new.items ≡ insert key_before key keys.old.items) }
    ensures memory { IfErr result (λ fault. fault ≡ Fault.Memory) }
{
    let place = place_among(keys.as_slice(), &key);
    keys.insert(place, key)?;
    Ok(())
}

/// Puts a write at its place in the order of keys. The list has room, so it takes no memory.
pub fn insert_write(writes: &mut Vec<Write>, write: Write)
    requires { vec_len writes.old < vec_capacity writes.old }
    ensures { writes.new.items ≡ insert write_before write writes.old.items }
{
    let place = write_place(writes.as_slice(), &write.key);
    let _ = writes.insert(place, write);
}
