//! The shards that take part in a transaction beside its coordinator.
ghost use Rattle.std.specs.Prelude.{◌≡◌};
ghost use Rattle.units.specs.Lists.{has};
ghost use Rattle.protocol.specs.Cells.{other_parts};

use memory::State;
use units::{Parts, ShardNo};

// Whether the shard takes part, and is not this one.
pub(crate) fn is_of_part(state: &State, parts: Parts, shard: ShardNo) -> bool
    ensures { result ≡ has (other_parts state.now.setup.shard parts) shard }
{
    shard != state.setup().shard && parts.has(shard)
}
