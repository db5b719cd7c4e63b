//! What a shard shows at one moment.
ghost use Rattle.std.specs.Prelude.{◌≡◌, true, IfOk, IfErr, length, take, drop};
ghost use Rattle.units.specs.Versions.{at_time};
ghost use Rattle.shard.specs.Core.{seen};
ghost use Rattle.lives.specs.Looks.{look_at};
ghost use Rattle.lives.specs.Shows.{view_now};
ghost use Rattle.lives.specs.Spots.{AreSpots};

use crate::spots::{Spots, narrowed};
use shard::Core;
use simdisk::SimDisk;
use units::{Fault, Install, Key, Stamp, Value, may_look};
use world::Reply;

/// What a shard shows at a moment: the place of its core's first version among all that the shard ever showed, their count, the served
/// time, and the horizon. No version is ever taken back, so a view outlives its core.
#[derive(Clone, Copy)]
pub struct View {
    pub from: usize,
    pub count: usize,
    pub safe: Stamp,
    pub horizon: Stamp,
}

impl View {
    /// Makes the view of what a core shows now. Its versions begin at this place.
    pub fn of(core: &Core<SimDisk>, from: usize) -> View
        ensures { result ≡ view_now from (seen core.now) }
    {
        View {
            from,
            count: core.installs().len(),
            safe: core.safe(),
            horizon: core.horizon(),
        }
    }

    /// Looks at the view, with all versions of the shard and the places of each key's. `is_here` says whether the key is this shard's.
    pub fn look(
        self,
        installs: &[Install],
        spots: &Spots,
        is_here: bool,
        key: &Key,
        at: Stamp,
    ) -> Result<Reply, Fault>
        ensures shown { AreSpots installs.now spots.now.entries
            → IfOk result (λ reply. reply ≡ look_at is_here
            (take self.count (drop self.from installs.now)) self.horizon self.safe key.now at) }
        ensures memory { IfErr result (λ fault. fault ≡ Fault.Memory) }
    {
        if let Err(fault) = may_look(is_here, self.horizon, self.safe, at) {
            return Ok(Reply::Refused(fault));
        }
        let (from, count) = narrowed(spots, key, self.from, self.count, at);
        let installs = behind(installs, from);
        let count = count.min(installs.len());
        match value_at(&installs[..count], key, at) {
            Ok(value) => Ok(Reply::Shows(value)),
            Err(fault) => Err(fault),
        }
    }
}

/// Returns the versions from a place on.
pub fn behind(installs: &[Install], place: usize) -> &[Install]
    ensures { result.now ≡ drop place installs.now }
{
    &installs[place.min(installs.len())..]
}

/// Tells whether the versions begin with these. It may say yes only if they do.
pub fn begin_with(installs: &[Install], known: &[Install]) -> bool
    ensures { result ≡ true → take (length known.now) installs.now ≡ known.now }
{
    if known.len() > installs.len() {
        return false;
    }
    for (place, one) in known.iter().enumerate() {
        if !is_same(one, &installs[place]) {
            return false;
        }
    }
    true
}

// Whether the two versions are equal. It may say yes only if they are.
fn is_same(one: &Install, other: &Install) -> bool
    ensures { result ≡ true → one.now ≡ other.now }
{
    if one.at.micros() != other.at.micros() || one.key != other.key {
        return false;
    }
    is_same_value(&one.value, &other.value)
}

// Whether the two values are equal, or both are erasures.
fn is_same_value(value: &Option<Value>, other: &Option<Value>) -> bool
    ensures { result ≡ true → value.now ≡ other.now }
{
    match (value, other) {
        (Some(value), Some(other)) => value.as_bytes() == other.as_bytes(),
        (None, None) => true,
        _ => false,
    }
}

/// Copies the value of a key at a time. `Memory` if memory runs out.
pub fn value_at(installs: &[Install], key: &Key, at: Stamp) -> Result<Option<Value>, Fault>
    ensures value { IfOk result (λ value. value ≡ at_time installs.now key.now at) }
    ensures memory { IfErr result (λ fault. fault ≡ Fault.Memory) }
{
    match units::value_at(installs, key, at) {
        Some(value) => Ok(Some(value.copy()?)),
        None => Ok(None),
    }
}
