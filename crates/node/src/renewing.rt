//! The log of a shard that nobody serves is renewed into another file.
ghost use Rattle.std.specs.Prelude.{◌≡◌, IfOk, OnOk, IsFalse};
ghost use Rattle.disk.specs.File.{surface};
ghost use Rattle.disk.specs.Moments.{LeavesOnly};
ghost use Rattle.node.specs.Renewed.{GoesOnFrom, HasOpenedFacts, HasTriedOne, HoldsMore, IsRenewed, kept_of};
ghost use Rattle.protocol.specs.Rows.{rebuilt};
ghost use Rattle.shard.specs.Core.{seen};
ghost use Rattle.units.specs.declared.setup.Book.TheVariants.{Off};

use crate::desk::horizon_for;
use crate::fleet::setup_of;
use disk::Disk;
use message::Input;
use shard::Core;
use std::alloc::Global;
use truetime::Reading;
use units::{Fault, Splits, Stride};

/// How much of the past a renewed log keeps: so many microseconds before the earliest of a reading.
#[derive(Clone, Copy)]
pub struct Past {
    /// The reading.
    pub now: Reading,
    /// How many microseconds.
    pub micros: u64,
}

/// Opens the log of the shard of this number, which nobody serves, and writes what it holds into another file, as a renewed log. With a `past`
/// it first raises the horizon to that, but not above the time that was served. It gives back the log's disk and that of the other file.
///
/// The log gets an opening, and the new horizon. It is refused as its opening is; as `Stopped` or `Device` if a device fails, `Memory`, or
/// `TimeSpent` if a file would grow beyond 2^40 bytes. Then the log holds all that it held.
pub fn renew_disk<D: Disk + Drop>(
    alloc: Global,
    disk: D,
    splits: &Splits,
    shard: usize,
    past: Option<Past>,
    to: D,
) -> Result<(D, D), Fault>
    // From then on every crash leaves the renewal of the log in the other file.
    ensures renewed { IfOk result (λ disks. D.keeps_model
        → IsRenewed past (surface (D.file disk)).seen (surface (D.file disks.1))) }
    // A crash at any moment of the call leaves of its own file what one before might have left, or the log, and maybe more behind it.
    ensures former { IfOk result (λ disks. D.keeps_model
        → LeavesOnly D.clock D.since disk disks.0 (HoldsMore (surface (D.file disk)))) }
{
    let mut core = match opened(alloc, disk, splits, shard) {
        Ok(core) => core,
        Err(fault) => {
            drop(to);
            return Err(fault);
        }
    };
    match forget(&mut core, alloc, past) {
        Ok(()) => {}
        Err(fault) => {
            drop(core.stop());
            drop(to);
            return Err(fault);
        }
    }
    match core.renew_into(alloc, to) {
        Ok(renewed) => Ok((core.stop(), renewed.into_disk())),
        Err((fault, to)) => {
            drop(core.stop());
            drop(to);
            Err(fault)
        }
    }
}

// Opens the log of a shard.
fn opened<D: Disk + Drop>(
    alloc: Global,
    disk: D,
    splits: &Splits,
    shard: usize,
) -> Result<Core<D>, Fault>
    ensures facts { IfOk result (λ core. D.keeps_model
        → HasOpenedFacts (surface (D.file disk)).seen (seen core).facts) }
    ensures memory { IfOk result (λ core. (seen core).memory ≡ rebuilt (seen core).facts) }
    ensures book { IfOk result (λ core. (seen core).setup.book ≡ Off) }
    ensures running { IfOk result (λ core. IsFalse (seen core).stopped) }
    ensures moment { IfOk result (λ core. D.keeps_model → LeavesOnly D.clock D.since disk
        (seen core).disk (HoldsMore (surface (D.file disk)))) }
    ensures read { IfOk result (λ core. D.keeps_model → GoesOnFrom
        (surface (D.file disk)).seen (surface (D.file (seen core).disk)).seen) }
{
    let stride = match Stride::new(0) {
        Some(stride) => stride,
        None => unreachable!(),
    };
    let setup = setup_of(alloc, splits, stride, shard)?;
    match Core::open(alloc, disk, setup) {
        Ok(core) => Ok(core),
        Err((fault, disk)) => {
            drop(disk);
            Err(fault)
        }
    }
}

// Raises the horizon, if no more than some of the past is kept.
fn forget<D: Disk>(core: &mut Core<D>, alloc: Global, past: Option<Past>) -> Result<(), Fault>
    requires memory { (seen core.old).memory ≡ rebuilt (seen core.old).facts }
    requires book { (seen core.old).setup.book ≡ Off }
    requires running { IsFalse (seen core.old).stopped }
    ensures kept { OnOk result ((seen core.new).facts ≡ kept_of past (seen core.old).facts) }
    ensures moment { D.keeps_model
        → HasTriedOne D.file D.clock D.since (seen core.old) (seen core.new) }
{
    let Some(past) = past else {
        return Ok(());
    };
    let served = core.safe();
    let at = horizon_for(served, past.now.earliest(), past.micros);
    if at <= core.horizon() {
        return Ok(());
    }
    let input = Input::Forget(at);
    match core.on(alloc, &past.now, &input) {
        Ok(out) => {
            drop(out);
            drop(input);
            Ok(())
        }
        Err(fault) => {
            drop(input);
            Err(fault)
        }
    }
}
