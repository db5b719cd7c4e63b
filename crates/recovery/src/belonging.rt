//! The shard to which the keys of a record belong.
ghost use Rattle.std.specs.List.{list_all};
ghost use Rattle.std.specs.Prelude.{◌≡◌, nat_eq};
ghost use Rattle.record.specs.Accepted.{belongs, keys_belong};
ghost use Rattle.units.specs.Keys.{shard_of};

use record::Record;
use units::{Keys, Setup, Writes};

/// Tells whether the record names only keys of this shard.
#[tactic(auto, unfolding(record::specs::Accepted::belongs))]
pub fn belongs(setup: &Setup, item: &Record) -> bool
    ensures { result ≡ belongs setup.now item.now }
{
    match item {
        Record::Prepare(prepared) => owns_all(setup, &prepared.reads, &prepared.writes),
        Record::Commit(committed) => owns_all(setup, &committed.reads, &committed.writes),
        Record::Version(install) => setup.owns(&install.key),
        _ => true,
    }
}

/// Tells whether each key that is read or written is this shard's.
pub fn owns_all(setup: &Setup, reads: &Keys, writes: &Writes) -> bool
    ensures { result ≡ keys_belong setup.now reads.now writes.now }
{
    owns_keys(setup, reads) && setup.owns_writes(writes)
}

// Whether each of the keys is this shard's.
fn owns_keys(setup: &Setup, keys: &Keys) -> bool
    ensures { result ≡
        list_all (λ k. nat_eq (shard_of setup.now.splits k) setup.now.shard) keys.now }
{
    for key in keys.as_slice() {
        if !setup.owns(key) {
            return false;
        }
    }
    true
}
