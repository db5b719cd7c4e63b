// What a sync or a crash makes of the changes that are not synced. It takes no memory.
ghost use Rattle.std.specs.Prelude.{◌≡◌, ◌+◌, ◌≤◌, max, length, replicate, vec_len, vec_capacity};
ghost use Rattle.disk.specs.Image.{with_bytes};
ghost use Rattle.disk.specs.File.{laid, by_fate, wrote, tried};
ghost use Rattle.simdisk.specs.Fates.{fate_at, made_by};
ghost use Rattle.simdisk.specs.Replay.{kept, file_of, bytes_in_all, furthest, size, change_end, made};

use crate::change::Change;
use disk::Fate;

/// The fate of each change that is not synced.
#[derive(Clone, Copy)]
pub enum Fates<'a> {
    /// In a sync, a change is new if a read sees it, and old if not.
    AsSeen,
    /// In a crash, these are the fates, the oldest first. A change without one is old.
    Given(&'a [Fate]),
}

/// Writes over a list of bytes, and past its end.
pub fn put(image: &mut Vec<u8>, at: usize, bytes: &[u8])
    requires within { at ≤ vec_len image.old }
    requires room { at + length bytes.now ≤ vec_capacity image.old }
    ensures items { image.new.items ≡ with_bytes at bytes.now image.old.items }
    ensures len { vec_len image.new ≡ max (vec_len image.old) (at + length bytes.now) }
    ensures capacity { vec_capacity image.old ≤ vec_capacity image.new }
{
    let over = bytes.len().min(image.len() - at);
    image[at..at + over].copy_from_slice(&bytes[..over]);
    image.extend_from_slice(&bytes[over..]).unwrap();
}

/// Writes bytes at an offset that may lie past the end, with zeros between.
fn lay(image: &mut Vec<u8>, at: usize, bytes: &[u8])
    requires { at + length bytes.now ≤ vec_capacity image.old }
    ensures items { image.new.items ≡ laid at bytes.now image.old.items }
    ensures len { vec_len image.new ≡ max (vec_len image.old) (at + length bytes.now) }
    ensures capacity { vec_capacity image.old ≤ vec_capacity image.new }
{
    if image.len() < at {
        image.resize(at, 0).unwrap();
    }
    put(image, at, bytes);
}

/// Makes each byte of a range the same.
fn fill(image: &mut Vec<u8>, at: usize, count: usize, byte: u8)
    requires { at + count ≤ vec_len image.old }
    ensures items { image.new.items ≡ with_bytes at (replicate count byte) image.old.items }
    ensures len { vec_len image.new ≡ vec_len image.old }
    ensures capacity { vec_capacity image.old ≤ vec_capacity image.new }
{
    image[at..at + count].fill(byte);
}

fn write_by_fate(image: &mut Vec<u8>, at: usize, bytes: &[u8], fate: Fate)
    requires { at + length bytes.now ≤ vec_capacity image.old }
    ensures wrote { image.new.items ≡ by_fate fate (wrote at bytes.now) image.old.items }
    ensures tried { image.new.items ≡ by_fate fate (tried at bytes.now) image.old.items }
    ensures len { vec_len image.new ≤ max (vec_len image.old) (at + length bytes.now) }
    ensures capacity { vec_capacity image.old ≤ vec_capacity image.new }
{
    match fate {
        Fate::Old => {}
        Fate::New => lay(image, at, bytes),
        Fate::Filled(byte) => {
            lay(image, at, bytes);
            fill(image, at, bytes.len(), byte);
        }
    }
}

fn change_by_fate(image: &mut Vec<u8>, change: Change, bytes: &[u8], fate: Fate)
    requires bytes { length bytes.now ≡ size change }
    requires room { change_end change ≤ vec_capacity image.old }
    ensures image { image.new.items ≡ by_fate fate (made change bytes.now) image.old.items }
    ensures len { vec_len image.new ≤ max (vec_len image.old) (change_end change) }
    ensures capacity { vec_capacity image.old ≤ vec_capacity image.new }
{
    match change {
        Change::Write { at, count: _ } | Change::Tried { at, count: _ } => {
            write_by_fate(image, at as usize, bytes, fate)
        }
        Change::Cut { len } => {
            if !matches!(fate, Fate::Old) {
                image.truncate(len as usize);
            }
        }
    }
}

fn fate_of(fates: Fates<'_>, place: usize, change: Change) -> Fate
    ensures { result ≡ fate_at fates.entry place change }
{
    match fates {
        Fates::AsSeen => change.fate_seen(),
        Fates::Given(given) => {
            if place < given.len() {
                given[place]
            } else {
                Fate::Old
            }
        }
    }
}

/// Makes each change, by its fate, of what the last sync left.
pub fn make_changes(image: &mut Vec<u8>, changes: &[Change], store: &[u8], fates: Fates<'_>)
    requires stored { bytes_in_all changes.now ≡ length store.now }
    requires room { furthest changes.now ≤ vec_capacity image.old }
    ensures image { image.new.items ≡
        made_by fates.entry (file_of (kept image.old.items changes.now store.now)) }
    ensures len { vec_len image.new ≤ max (vec_len image.old) (furthest changes.now) }
    ensures capacity { vec_capacity image.old ≤ vec_capacity image.new }
{
    let mut rest = store;
    for (made, change) in changes.iter().enumerate() {
        let (bytes, after) = rest.split_at(change.count());
        let fate = fate_of(fates, made, *change);
        change_by_fate(image, *change, bytes, fate);
        rest = after;
    }
}
