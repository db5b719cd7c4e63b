//! The shards of a store, by their numbers.
ghost use Rattle.std.specs.Prelude.{◌≡◌, ◌≤◌};

use units::ShardNo;

/// Gives the shard with a number.
pub fn numbered(number: usize) -> ShardNo
    requires { number ≤ 15 }
    ensures { result ≡ number }
{
    match ShardNo::new(number as u8) {
        Some(shard) => shard,
        None => unreachable!(),
    }
}
