//! What a shard keeps of its log when it renews it.
ghost use Rattle.std.specs.Prelude.{◌≡◌, ◌<◌, IfErr, IfOk};
ghost use Rattle.ledger.specs.Turned.{turned};

use ledger::{Ledger, Recorder};
use record::Record;
use std::alloc::Global;
use units::Fault;

/// The records that were handed on.
#[derive(Drop)]
struct Handed {
    records: Vec<Record>,
}

impl Recorder for Handed {
    ghost records = { λ handed. handed.records.items };

    fn record(&mut self, alloc: Global, item: &Record) -> Result<(), Fault> {
        self.records.push(item.copy(alloc)?)?;
        Ok(())
    }
}

/// Keeps the versions that the horizon leaves, the transactions that ended, and the promises and decisions that stand.
pub fn renewed(ledger: &Ledger, alloc: Global) -> Result<Vec<Record>, Fault>
    requires { 0 < ledger.now.facts.epoch }
    ensures kept { IfOk result (λ kept. kept.items ≡ turned ledger.now.facts) }
    ensures memory { IfErr result (λ fault. fault ≡ Fault.Memory) }
{
    let mut handed = Handed {
        records: Vec::new(alloc),
    };
    ledger.renew(alloc, &mut handed)?;
    let Handed { records: kept } = handed;
    Ok(kept)
}
