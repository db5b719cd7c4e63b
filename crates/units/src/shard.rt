//! Numbers of shards.
ghost use Rattle.std.specs.Prelude.{◌≡◌, ◌<◌, Some, None, if◌then◌else◌, nat_lt};
ghost use Rattle.std.specs.Fmt.{decimal};

use std::fmt;
use std::marker::Model;

/// A shard's number, from 0 to 15.
#[derive(Clone, Copy, PartialEq, Eq, PartialOrd, Ord)]
pub struct ShardNo {
    number: u8,
}

impl Model for ShardNo {
    ghost use Rattle.std.specs.Prelude.{ℕ, ◌<◌};

    ghost Value = { ℕ };

    ghost view = { λ s. s.number };

    ghost invariant = { λ s. s.number < 16 };

    ghost inverse = { λ n. record { number = n } };
}

impl ShardNo {
    /// Makes the number of a shard. `None` comes if it is not below 16.
    pub fn new(number: u8) -> Option<ShardNo>
        ensures { result ≡ (if nat_lt number 16 then Some number else None) }
    {
        if number < 16 {
            Some(ShardNo { number })
        } else {
            None
        }
    }

    /// Makes the number of a shard from a count that is below 16.
    pub(crate) fn of_count(count: usize) -> ShardNo
        requires { count < 16 }
        ensures { result ≡ count }
    {
        ShardNo {
            number: count as u8,
        }
    }

    /// Gives its number.
    pub fn number(self) -> u8
        ensures same { result ≡ self }
        ensures limit { result < 16 }
    {
        self.number
    }
}

impl fmt::Display for ShardNo {
    ghost output = { λ s. Some (decimal s) };

    fn fmt<W: fmt::Write>(&self, f: &mut fmt::Formatter<W>) -> fmt::Result {
        let number = self.number;
        write!(f, "{number}")
    }
}
