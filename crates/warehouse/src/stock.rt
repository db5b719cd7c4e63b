//! What stands in the warehouse's store, under which keys, and how goods move.
ghost use Rattle.std.specs.Prelude.{◌≡◌, ◌⊎◌, ◌≤◌, ◌<◌, ◌+◌, ◌-◌, ◌^◌, IfNone, IfSome};

use std::alloc::Global;
use store::{Fault, Key, Splits};

/// How many items there are, and how many workers.
pub const ITEMS: u32 = 40;

pub const WORKERS: u32 = 8;

/// Gives the key of a number under a name. Of each item it is how many are in stock (`item`), are held for orders (`held`) and came in (`in`); of
/// each worker how many went out (`out`). Of each request that is done it is a 1 (`request`), and of an open order how many goods it has (`order`).
pub fn key_of(alloc: Global, name: &str, number: u32) -> Result<Key, Fault> {
    let text = format!(in alloc; "{name}-{number:010}")?;
    Key::new(text.as_str().as_bytes())
}

/// Parts the keys over four shards: what is held, what came in, what is in stock with the orders, and the rest.
pub fn splits(alloc: Global) -> Result<Splits, Fault> {
    let splits = [Key::new(b"in-")?, Key::new(b"item-")?, Key::new(b"out-")?];
    Splits::new(alloc, &splits)
}

/// Moves so many goods from one place to another: both have as much together as before. `None` if the first has too few, or the second would
/// have too many.
pub fn moved(from: u64, to: u64, quantity: u64) -> Option<(u64, u64)>
    ensures moved { IfSome result (λ left. (quantity ≤ from) × (left.0 ≡ from - quantity)
        × (left.1 ≡ to + quantity)) }
    ensures even { IfSome result (λ left. left.0 + left.1 ≡ from + to) }
    ensures none { IfNone result ((from < quantity) ⊎ (2 ^ 64 ≤ to + quantity)) }
{
    if quantity > from || quantity > u64::MAX - to {
        return None;
    }
    Some((from - quantity, to + quantity))
}
