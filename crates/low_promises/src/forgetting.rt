//! What a horizon lets go.
ghost use Rattle.std.specs.Prelude.{◌≡◌};
ghost use Rattle.versions.specs.Pruned.{pruned};

use units::Stamp;
use versions::Versions;

/// Drops the versions of each key below a horizon, but for the newest that is not above it: a look from the horizon
/// up misses nothing.
pub fn forget(versions: &mut Versions, horizon: Stamp)
    ensures { versions.new.installs ≡ pruned horizon versions.old.installs }
{
    versions.forget(horizon)
}
