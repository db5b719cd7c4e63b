//! Why shards are not opened.
ghost use Rattle.std.specs.Prelude.{◌≡◌};

use std::fmt;
use units::{Fault, ShardNo};

/// Why the shards of a store are not opened.
#[derive(Clone, Copy, PartialEq, Eq)]
pub struct Unopened {
    /// The first shard that is refused. `None` if the settings are refused, or memory before any disk is opened.
    pub shard: Option<ShardNo>,
    /// The fault of that shard, or of all of them.
    pub fault: Fault,
}

impl From<Fault> for Unopened {
    ghost use Rattle.std.specs.Prelude.{◌≡◌};
    ghost use Rattle.node.specs.Unopened.{unopened_for};

    ghost from_gives = { λ fault unopened. unopened ≡ unopened_for fault };

    fn from(fault: Fault) -> Unopened {
        Unopened { shard: None, fault }
    }
}

impl fmt::Display for Unopened {
    ghost use Rattle.std.specs.Prelude.{Some};
    ghost use Rattle.node.specs.Unopened.{unopened_text};

    ghost output = { λ u. Some (unopened_text u) };

    fn fmt<W: fmt::Write>(&self, f: &mut fmt::Formatter<W>) -> fmt::Result {
        let fault = self.fault;
        match self.shard {
            Some(shard) => write!(f, "shard {shard}: {fault}"),
            None => write!(f, "{fault}"),
        }
    }
}
