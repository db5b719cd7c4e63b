//! What a desk publishes.
ghost use Rattle.std.specs.Prelude.{IfOk, IfErr};
ghost use Rattle.node.specs.InStep.{HasAdvanced, HasNotAdvanced};
ghost use Rattle.node.specs.SeenDesk.{seen_desk};

use board::Told;
use disk::Disk;
use node::Desk;
use std::sync::Wait;
use truetime::Reading;
use units::{Fault, Stamp};

/// Advances the core of a desk, and then publishes its new versions and the served time. After a refusal the desk shows what it
/// showed before.
pub fn advance<D: Disk + Drop, R: Wait + Drop>(
    desk: &mut Desk<D, R>,
    now: &Reading,
    to: Stamp,
) -> Result<Told, Fault>
    ensures advanced { IfOk result
        (HasAdvanced D.keeps_model D.obeys D.file D.clock D.since D.failures D.plan
        (seen_desk desk.old) (seen_desk desk.new) now.now to) }
    ensures refused { IfErr result
        (HasNotAdvanced D.keeps_model D.obeys D.file D.clock D.since D.failures D.plan
        (seen_desk desk.old) (seen_desk desk.new) now.now to) }
{
    desk.advance(now, to)
}
