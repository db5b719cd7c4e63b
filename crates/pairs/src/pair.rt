//! A key and its value.
use units::{Key, Value};

/// A key and its value.
#[derive(Drop)]
pub struct Pair {
    /// The key.
    pub key: Key,
    /// Its value.
    pub value: Value,
}
