//! Which keys a turn reads and writes.
ghost use Rattle.std.specs.Prelude.{◌≡◌, ◌<◌, ◌%◌, ◌+◌, IfOk, IfErr};
ghost use Rattle.workers.specs.Keys.{digit, key_text, keys_once, turn_keys};

use crate::course::Course;
use std::alloc::Global;
use units::{Fault, Key};

impl Course {
    /// Gives the keys of a worker's turn, both counted from 0. It is one key if the two are the same.
    pub fn turn_keys(&self, alloc: Global, worker: u64, turn: u64) -> Result<Vec<Key>, Fault>
        requires worker { worker < 64 }
        requires turn { turn < 100000 }
        ensures keys { IfOk result (λ keys. keys.items ≡ turn_keys self.now.keys worker turn) }
        ensures memory { IfErr result (λ fault. fault ≡ Fault.Memory) }
    {
        let first = (worker + turn) % self.keys;
        let second = (7 * worker + 3 * turn) % self.keys;
        keys_once(alloc, first, second)
    }
}

// The keys of two numbers, once if they are equal.
fn keys_once(alloc: Global, first: u64, second: u64) -> Result<Vec<Key>, Fault>
    requires first { first < 10000 }
    requires second { second < 10000 }
    ensures keys { IfOk result (λ keys. keys.items ≡ keys_once first second) }
    ensures memory { IfErr result (λ fault. fault ≡ Fault.Memory) }
{
    let mut keys = Vec::new(alloc);
    keys.push(key_of(first))?;
    if first != second {
        keys.push(key_of(second))?;
    }
    Ok(keys)
}

// The key of a number.
fn key_of(number: u64) -> Key
    requires { number < 10000 }
    ensures { result ≡ key_text number }
{
    let bytes = [
        b'k',
        digit_of(number / 1000),
        digit_of(number / 100),
        digit_of(number / 10),
        digit_of(number),
    ];
    match Key::new(&bytes) {
        Ok(key) => key,
        Err(_) => unreachable!(),
    }
}

// The last decimal digit.
fn digit_of(number: u64) -> u8
    ensures { result ≡ digit number }
{
    b'0' + (number % 10) as u8
}
