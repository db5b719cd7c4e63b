//! How far the logs of a store are ahead of a clock.
ghost use Rattle.std.specs.Prelude.{◌≡◌, ◌-◌, ◌<◌, ◌≤◌, Some, IfErr, IfNone, OnOk};
ghost use Rattle.host_files.specs.declared.refused.Why.TheVariants as why;

use crate::refused::Refused;
use units::{Fault, ShardNo, Stamp};

/// The greatest timestamp in the logs of a store, and the shard whose log has it.
#[derive(Clone, Copy)]
pub struct Newest {
    /// The shard.
    pub shard: ShardNo,
    /// The timestamp, in microseconds.
    pub at: Stamp,
}

/// How far the logs of a store may be ahead of a clock.
#[derive(Clone, Copy)]
pub struct Limit {
    /// The present by the clock, in microseconds.
    pub present: Stamp,
    /// How many microseconds after it a timestamp of a log may lie.
    pub ahead: u64,
}

impl Limit {
    /// Refuses logs whose greatest timestamp lies farther ahead. They are refused as `Future`, with the number of microseconds by which it lies
    /// ahead of the present. The same call may succeed once the clock has passed more of them, or is right again.
    pub fn check(&self, newest: Newest) -> Result<(), Refused>
        ensures within { OnOk result (newest.at - self.now.present ≤ self.now.ahead) }
        ensures refused { IfErr result (λ refused. (refused.fault ≡ Fault.Future)
            × (self.now.ahead < newest.at - self.now.present)
            × (refused.why ≡ Some (why.Ahead (newest.at - self.now.present)))) }
        ensures named { IfErr result (λ refused. IfNone refused.file ⊥) }
    {
        let lead = newest.at.micros().saturating_sub(self.present.micros());
        if lead <= self.ahead {
            Ok(())
        } else {
            Err(Refused::ahead(newest.shard, lead))
        }
    }
}
