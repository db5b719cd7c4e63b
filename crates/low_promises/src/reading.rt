//! The bytes of records.
ghost use Rattle.std.specs.Prelude.{◌≡◌, ◌↔◌, Some, IfOk, IfErr};
ghost use Rattle.record.specs.declared.record.Record.{Record};
ghost use Rattle.spelling.specs.Limits.{Spells};

use record::Record;
use std::alloc::Global;
use units::Fault;

/// Reads the record that some bytes spell: there is one exactly for its one spelling.
pub fn decode(alloc: Global, bytes: &[u8]) -> Result<Option<Record>, Fault>
    ensures spelled { IfOk result (λ found. (r : Record) → Spells bytes.now r ↔ (found ≡ Some r)) }
    ensures memory { IfErr result (λ fault. fault ≡ Fault.Memory) }
{
    spelling::decode(alloc, bytes)
}
