//! Heads of keys.
ghost use Rattle.std.specs.Prelude.{◌≡◌, ◌<◌, ◌≤◌, length, take, slice_index};
ghost use Rattle.versions.specs.Heads.{AreBytes, number, head, prefix_of, common_prefix};

use std::cmp::Ordering;
use units::Key;

/// Computes the head of a key: the eight bytes of the key after a prefix, as one number. The first byte is its greatest digit, and missing
/// bytes count as zero. A key that does not begin with the prefix gets the least number if it comes before those that do, and else the
/// greatest. So two keys are in the order of their heads, if these differ.
pub fn head(prefix: &Option<Key>, key: &Key) -> u64
    ensures head { result ≡ head (prefix_of prefix.now) key.now }
    ensures bytes { AreBytes key.now }
{
    head_behind(prefix_bytes(prefix), key.as_bytes())
}

/// Gives the bytes of a prefix that is kept as a key, or none if there is no key.
pub fn prefix_bytes(prefix: &Option<Key>) -> &[u8]
    ensures { result.now ≡ prefix_of prefix.now }
{
    match prefix {
        Some(key) => key.as_bytes(),
        None => &[],
    }
}

fn head_behind(prefix: &[u8], key: &[u8]) -> u64
    ensures head { result ≡ head prefix.now key.now }
    ensures bytes { AreBytes key.now }
{
    let shared = prefix.len().min(key.len());
    match key[..shared].cmp(prefix) {
        Ordering::Less => 0,
        Ordering::Equal => number(&key[shared..]),
        Ordering::Greater => u64::MAX,
    }
}

fn number(bytes: &[u8]) -> u64
    ensures number { result ≡ number 8 bytes.now }
    ensures bytes { AreBytes bytes.now }
{
    let mut number = 0;
    for i in 0..8 {
        number = number * 256 + digit(bytes, i);
    }
    number
}

// The byte that stands there, or zero.
fn digit(bytes: &[u8], at: usize) -> u64
    ensures digit { result ≡ slice_index bytes.now at }
    ensures small { result < 256 }
{
    match bytes.get(at) {
        Some(byte) => u64::from(*byte),
        None => 0,
    }
}

/// Gives the beginning that both keys share, if it is a key.
pub fn shared(first: &Key, last: &Key) -> Option<Key>
    ensures { prefix_of result ≡ common_prefix first.now last.now }
{
    let bytes = first.as_bytes();
    Key::new(&bytes[..shared_len(bytes, last.as_bytes())]).ok()
}

// How many bytes both begin with.
fn shared_len(first: &[u8], last: &[u8]) -> usize
    ensures most { result ≤ length first.now }
    ensures shared { take result first.now ≡ common_prefix first.now last.now }
{
    let [x, first @ ..] = first else {
        return 0;
    };
    let [y, last @ ..] = last else {
        return 0;
    };
    if x != y {
        return 0;
    }
    1 + shared_len(first, last)
}
