//! The verdict.
ghost use Rattle.std.specs.Prelude.{◌≡◌, IfOk, IfErr, map};
ghost use Rattle.record.specs.Verdict.{verdict};

use record::Record;
use std::alloc::Global;
use units::{Fault, Line, Verdict};

/// Gives the verdict on the logs of shards 0, 1 and so on, and on the lines of a report.
pub fn inspect(alloc: Global, logs: &[Vec<Record>], lines: &[Line]) -> Result<Verdict, Fault>
    ensures verdict { IfOk result
        (λ found. found ≡ verdict (map (λ log. log.items) logs.now) lines.now) }
    ensures memory { IfErr result (λ fault. fault ≡ Fault.Memory) }
{
    inspector::inspect(alloc, logs, lines)
}
