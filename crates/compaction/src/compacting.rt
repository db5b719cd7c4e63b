//! A new log gets the records of another one.
ghost use Rattle.std.specs.Prelude.{◌≡◌, ◌⊎◌, ◌≤◌, ◌<◌, Ok, [], IsFalse, IfOk, IfErr, OnOk, MatchResult};
ghost use Rattle.disk.specs.File.{surface};
ghost use Rattle.disk.specs.Moments.{LeavesOnly};
ghost use Rattle.gatelog.specs.Crash.{Stands};
ghost use Rattle.gatelog.specs.Gates.{first_gate};
ghost use Rattle.gatelog.specs.Log.{log};
ghost use Rattle.gatelog.specs.Shown.{disk_of, gate_at, next_slot, is_stopped};
ghost use Rattle.compaction.specs.Compacted.{HasNoneOrThese, HasTooLong, Holds, IsTooLong, WasFilled, records_in};
ghost use Rattle.compaction.specs.Shown.{source_of};

use crate::gathered::Gathered;
use disk::Disk;
use gatelog::{Area, GateLog};
use units::Fault;

/// Makes another file a log with the records that were read, and drops what was in it. The file may be on a disk of another kind. It lays out an
/// empty log first, and turns that over to the records. A refusal returns the first disk, and the empty log if it was laid out, or else the
/// second disk. It is `Memory`, `Device`, or `TimeSpent` if the log would grow beyond 2^40 bytes.
pub fn compact<D: Disk, E: Disk>(
    from: Gathered<D>,
    to: E,
) -> Result<(D, GateLog<E>), (Fault, D, Result<GateLog<E>, E>)>
    // From then on every crash leaves the records of the first file, and a read gives them.
    ensures durable { IfOk result (λ made. D.keeps_model → E.keeps_model
        → Holds (records_in (surface (D.file (source_of from))).seen) (E.file (disk_of made.1))) }
    ensures read { IfOk result (λ made. D.keeps_model → E.keeps_model
        → records_in (surface (E.file (disk_of made.1))).seen
        ≡ records_in (surface (D.file (source_of from))).seen) }
    ensures running { IfOk result (λ made. IsFalse (is_stopped made.1)) }
    ensures slot { IfOk result (λ made. next_slot made.1 ≡ 1) }
    // A crash after the first sync leaves no log, the empty one, or these records.
    ensures any_moment { IfOk result (λ made. D.keeps_model → E.keeps_model
        → WasFilled E.file E.clock E.since (records_in (surface (D.file (source_of from))).seen)
        to (disk_of made.1)) }
    ensures failures_stay { IfOk result (λ made. E.failures to ≤ E.failures (disk_of made.1)) }
    ensures from_stays { MatchResult result
        (λ made. made.0 ≡ source_of from) (λ refused. refused.1 ≡ source_of from) }
    // Not laid out, for want of memory, the second file is as it was.
    ensures refused_bare { IfErr result (λ refused. IfErr refused.2 (λ disk.
        ((refused.0 ≡ Fault.Memory) × (E.file disk ≡ E.file to))
        ⊎ ((refused.0 ≡ Fault.Device) × (E.failures to < E.failures disk)))) }
    // Laid out, it is the empty log, but for `Device`.
    ensures refused_laid { IfErr result (λ refused. IfOk refused.2 (λ made.
        ((E.keeps_model → Stands (surface (E.file (disk_of made))) (Ok []))
        × ((refused.0 ≡ Fault.Memory) ⊎ ((refused.0 ≡ Fault.TimeSpent)
        × (D.keeps_model → HasTooLong (surface (D.file (source_of from))).seen))))
        ⊎ ((refused.0 ≡ Fault.Device) × (E.failures to < E.failures (disk_of made))))) }
    ensures refused_moment { IfErr result (λ refused. IfOk refused.2 (λ made. D.keeps_model
        → E.keeps_model
        → WasFilled E.file E.clock E.since (records_in (surface (D.file (source_of from))).seen)
        to (disk_of made))) }
{
    let (from, area) = from.into_parts();
    let mut made = match GateLog::format(to) {
        Ok(made) => made,
        Err((fault, to)) => {
            drop(area);
            return Err((fault, from, Err(to)));
        }
    };
    match fill(&mut made, area) {
        Ok(()) => Ok((from, made)),
        Err(fault) => Err((fault, from, Ok(made))),
    }
}

// Turns an empty log over to an area.
fn fill<D: Disk>(log: &mut GateLog<D>, area: Area) -> Result<(), Fault>
    requires running { IsFalse (is_stopped log.old) }
    requires empty { D.keeps_model → Stands (surface (D.file (disk_of log.old))) (Ok []) }
    requires gate { gate_at log.old ≡ first_gate }
    requires slot { next_slot log.old ≡ 0 }
    ensures any_moment { D.keeps_model
        → LeavesOnly D.clock D.since (disk_of log.old) (disk_of log.new)
        (HasNoneOrThese (Ok area)) }
    ensures durable { OnOk result (D.keeps_model → Holds (Ok area) (D.file (disk_of log.new))) }
    ensures read { OnOk result (D.keeps_model
        → records_in (surface (D.file (disk_of log.new))).seen ≡ Ok area) }
    ensures running { OnOk result (IsFalse (is_stopped log.new)) }
    ensures slot { OnOk result (next_slot log.new ≡ 1) }
    ensures failures_stay { D.failures (disk_of log.old) ≤ D.failures (disk_of log.new) }
    ensures cause { IfErr result (λ fault.
        ((D.file (disk_of log.new) ≡ D.file (disk_of log.old))
        × ((fault ≡ Fault.Memory) ⊎ ((fault ≡ Fault.TimeSpent) × IsTooLong area)))
        ⊎ ((fault ≡ Fault.Device)
        × (D.failures (disk_of log.old) < D.failures (disk_of log.new)))) }
{
    match log.stage_area(area) {
        Ok(staged) => log.turn_over(staged),
        Err(fault) => Err(fault),
    }
}
