//! What a transaction read at one shard.
ghost use Rattle.std.specs.Prelude.{◌≡◌, ◌≢◌, [], MatchResult, IfOk, IfErr};
ghost use Rattle.message.specs.ReadSet.{ReadSet};

use std::alloc::Global;
use std::marker::Model;
use units::{Epoch, Fault, Keys};

/// The keys that a transaction read at a shard, and the epoch of the shard in which it read them. The epoch is 0 exactly if
/// there is no key.
pub struct Reads {
    epoch: u64,
    keys: Keys,
}

impl Drop for Reads {
    fn drop(self) {
        let Reads { epoch: _, keys: _ } = self;
    }
}

impl Model for Reads {
    ghost use Rattle.std.specs.Prelude.{◌≡◌, ◌<◌, ◌^◌, ◌↔◌, []};
    ghost use Rattle.message.specs.ReadSet.{ReadSet};

    ghost Value = { ReadSet };

    ghost view = { λ r. record { epoch = r.epoch; keys = r.keys } };

    ghost invariant = { λ r. (r.epoch < 2 ^ 62) × ((r.epoch ≡ 0) ↔ (r.keys ≡ [])) };
}

impl Reads {
    /// Makes a list without a key, with epoch 0.
    pub fn none(alloc: Global) -> Reads
        ensures { (result.epoch ≡ 0) × (result.keys ≡ []) }
    {
        Reads {
            epoch: 0,
            keys: Keys::none(alloc),
        }
    }

    /// Takes the keys that were read in this epoch. An empty list comes back as the error.
    pub fn new(epoch: Epoch, keys: Keys) -> Result<Reads, Keys>
        ensures { MatchResult result (λ reads. (reads.epoch ≡ epoch) × (reads.keys ≡ keys)
            × (keys ≢ []))
            (λ back. (back ≡ keys) × (keys ≡ [])) }
    {
        if keys.as_slice().is_empty() {
            return Err(keys);
        }
        Ok(Reads {
            epoch: epoch.number(),
            keys,
        })
    }

    /// Copies the keys into memory of their own. `Memory` if memory runs out.
    pub fn copy(&self, alloc: Global) -> Result<Reads, Fault>
        ensures same { IfOk result (λ reads. reads ≡ self.now) }
        ensures memory { IfErr result (λ fault. fault ≡ Fault.Memory) }
    {
        Ok(Reads {
            epoch: self.epoch,
            keys: self.keys.copy(alloc)?,
        })
    }

    /// Returns the epoch in which the keys were read, 0 if there is no key.
    pub fn epoch(&self) -> u64
        ensures { result ≡ self.now.epoch }
    {
        self.epoch
    }

    /// Returns the keys.
    pub fn keys(&self) -> &Keys
        ensures { result.now ≡ self.now.keys }
    {
        &self.keys
    }
}
