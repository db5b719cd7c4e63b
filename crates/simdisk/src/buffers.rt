// What a disk in memory holds. A crash takes no memory: each buffer has room for all that a crash may leave.
ghost use Rattle.std.specs.Prelude.{◌≡◌, ◌+◌, ◌<◌, ◌≤◌, ℕ, [], ◌∷◌, ◌++◌, length, vec_len, vec_capacity, OnOk, OnErr, IsOk};
ghost use Rattle.disk.specs.File.{wrote, tried, cut, with_change, synced, surface, crash_leaves};
ghost use Rattle.simdisk.specs.Replay.{kept, settled, bytes_in_all, furthest, file_of};

use crate::change::Change;
use crate::tear::{Fates, make_changes, put};
use disk::Fate;
use std::alloc::{AllocError, Global};

/// The contents of a disk in memory.
pub struct Buffers {
    /// What the last sync left.
    pub durable: Vec<u8>,
    /// The changes since, the oldest first.
    pub changes: Vec<Change>,
    /// The bytes of their writes, one after another.
    pub store: Vec<u8>,
    /// What a read gives.
    pub seen: Vec<u8>,
    ghost stored: { bytes_in_all changes.items ≡ length store.items },
    ghost replayed: { seen.items ≡
        (surface (file_of (kept durable.items changes.items store.items))).seen },
    ghost durable_fits: { furthest changes.items ≤ vec_capacity durable },
    ghost seen_fits: { furthest changes.items ≤ vec_capacity seen },
    ghost copy_fits: { vec_len durable ≤ vec_capacity seen },
}

impl Drop for Buffers {
    fn drop(self) {
        let Buffers {
            durable: _,
            changes: _,
            store: _,
            seen: _,
        } = self;
    }
}

impl Buffers {
    ghost use Rattle.simdisk.specs.Held.{held, held_file, HasRoomFor, IsReadyForWrite};

    /// Makes an empty file.
    pub fn new(alloc: Global) -> Buffers
        ensures { held_file result ≡ settled [] }
    {
        Buffers {
            durable: Vec::new(alloc),
            changes: Vec::new(alloc),
            store: Vec::new(alloc),
            seen: Vec::new(alloc),
        }
    }

    /// Takes memory ahead for at most 8 changes, of so many bytes in all.
    pub fn reserve(&mut self, bytes: usize) -> Result<(), AllocError>
        ensures same { held_file self.new ≡ held_file self.old }
        ensures room { OnOk result (HasRoomFor self.new 8 bytes) }
    {
        self.changes.reserve(8)?;
        self.store.reserve(bytes)?;
        self.seen.reserve(bytes)?;
        let capacity = self.seen.capacity();
        self.durable
            .reserve(capacity.saturating_sub(self.durable.len()))
    }

    /// Takes the memory that a write needs.
    fn make_ready(&mut self, at: usize, count: usize) -> Result<(), AllocError>
        requires { at ≤ length self.old.seen.items }
        ensures same { (held self.new ≡ held self.old)
            × (self.new.seen.items ≡ self.old.seen.items) }
        ensures ready { OnOk result (IsReadyForWrite self.new at count) }
        ensures room { (calls more : ℕ) → HasRoomFor self.old (calls + 1) (count + more)
            → IsOk result × HasRoomFor self.new (calls + 1) (count + more) }
    {
        let over = count.min(self.seen.len() - at);
        self.changes.reserve(1)?;
        self.store.reserve(count)?;
        self.seen.reserve(count - over)?;
        let end = at + count;
        self.durable.reserve(end.saturating_sub(self.durable.len()))
    }

    /// Makes a write that a read sees.
    pub fn write(&mut self, at: usize, bytes: &[u8]) -> Result<(), AllocError>
        requires { at ≤ length self.old.seen.items }
        ensures ok { OnOk result
            (held_file self.new ≡ with_change (wrote at bytes.now) (held_file self.old)) }
        ensures err { OnErr result (held_file self.new ≡ held_file self.old) }
        ensures room { (calls more : ℕ) → HasRoomFor self.old (calls + 1) (length bytes.now + more)
            → IsOk result × HasRoomFor self.new calls more }
    {
        self.make_ready(at, bytes.len())?;
        let change = Change::Write {
            at: at as u64,
            count: bytes.len() as u64,
        };
        put(&mut self.seen, at, bytes);
        keep(&mut self.changes, &mut self.store, change, bytes);
        Ok(())
    }

    /// Keeps a write that failed: a read does not see it, but a crash may leave it.
    pub fn try_write(&mut self, at: usize, bytes: &[u8]) -> Result<(), AllocError>
        requires { at ≤ length self.old.seen.items }
        ensures ok { OnOk result
            (held_file self.new ≡ with_change (tried at bytes.now) (held_file self.old)) }
        ensures err { OnErr result (held_file self.new ≡ held_file self.old) }
        ensures room { (calls more : ℕ) → HasRoomFor self.old (calls + 1) (length bytes.now + more)
            → IsOk result × HasRoomFor self.new calls more }
    {
        self.make_ready(at, bytes.len())?;
        let change = Change::Tried {
            at: at as u64,
            count: bytes.len() as u64,
        };
        keep(&mut self.changes, &mut self.store, change, bytes);
        Ok(())
    }

    /// Cuts the file to a length, in bytes.
    pub fn cut(&mut self, len: u64) -> Result<(), AllocError>
        ensures ok { OnOk result (held_file self.new ≡ with_change (cut len) (held_file self.old)) }
        ensures err { OnErr result (held_file self.new ≡ held_file self.old) }
        ensures room { (calls more : ℕ) → HasRoomFor self.old (calls + 1) more
            → IsOk result × HasRoomFor self.new calls more }
    {
        self.changes.reserve(1)?;
        keep(&mut self.changes, &mut self.store, Change::Cut { len }, &[]);
        self.seen.truncate(len as usize);
        Ok(())
    }

    /// Makes all changes durable. Its time goes by the changes since the last sync, and not by the file's length.
    pub fn sync(&mut self)
        ensures file { held_file self.new ≡ synced (held_file self.old) }
        ensures room { (calls more : ℕ) → HasRoomFor self.old (calls + 1) more
            → HasRoomFor self.new calls more }
    {
        make_changes(&mut self.durable, &self.changes, &self.store, Fates::AsSeen);
        forget(&mut self.changes, &mut self.store);
    }

    /// Crashes: each change comes out by its fate, the oldest first.
    pub fn crash(&mut self, fates: &[Fate])
        ensures { held_file self.new ≡ settled (crash_leaves fates.now (held_file self.old)) }
    {
        make_changes(
            &mut self.durable,
            &self.changes,
            &self.store,
            Fates::Given(fates),
        );
        self.seen.clear();
        self.seen.extend_from_slice(&self.durable).unwrap();
        forget(&mut self.changes, &mut self.store);
    }
}

// Keeps one change.
fn keep(changes: &mut Vec<Change>, store: &mut Vec<u8>, change: Change, bytes: &[u8])
    requires changes { vec_len changes.old + 1 ≤ vec_capacity changes.old }
    requires store { vec_len store.old + length bytes.now ≤ vec_capacity store.old }
    ensures changes { changes.new.items ≡ changes.old.items ++ change ∷ [] }
    ensures store { store.new.items ≡ store.old.items ++ bytes.now }
    ensures changes_len { vec_len changes.new ≡ vec_len changes.old + 1 }
    ensures store_len { vec_len store.new ≡ vec_len store.old + length bytes.now }
    ensures changes_capacity { vec_capacity changes.old ≤ vec_capacity changes.new }
    ensures store_capacity { vec_capacity store.old ≤ vec_capacity store.new }
{
    store.extend_from_slice(bytes).unwrap();
    changes.push(change).unwrap();
}

// Forgets all changes that were not synced.
fn forget(changes: &mut Vec<Change>, store: &mut Vec<u8>)
    ensures changes { (changes.new.items ≡ []) × (vec_len changes.new ≡ 0) }
    ensures store { (store.new.items ≡ []) × (vec_len store.new ≡ 0) }
    ensures changes_capacity { vec_capacity changes.old ≤ vec_capacity changes.new }
    ensures store_capacity { vec_capacity store.old ≤ vec_capacity store.new }
{
    changes.clear();
    store.clear();
}
