//! The reads of a transaction, and their answers.
ghost use Rattle.std.specs.Prelude.{◌≡◌, ◌∷◌, ◌++◌, [], IfErr, MatchResult, OnOk};
ghost use Rattle.units.specs.declared.line.Line.TheVariants.{Ack};
ghost use Rattle.client.specs.Refusals.{IsStepFault};
ghost use Rattle.workers.specs.Turns.{AreNext, IsNextOf, asked_keys, read_lines};

use crate::counting::next_value;
use session::{Open, Tx};
use std::alloc::Global;
use units::{Fault, Key, Line, Stamp, TxnId, Value};

// A key that was read, and its value.
#[derive(Drop)]
struct Asked {
    key: Key,
    value: Option<Value>,
}

/// The reads of one transaction.
#[derive(Drop)]
pub struct Reads {
    txn: TxnId,
    asked: Vec<Asked>,
}

impl Reads {
    /// Begins the reads of a transaction; there is none yet.
    pub fn none(alloc: Global, txn: TxnId) -> Reads
        ensures { (result.txn ≡ txn) × (result.asked.items ≡ []) }
    {
        Reads {
            txn,
            asked: Vec::new(alloc),
        }
    }

    /// Notes that a key was read, and had this value.
    pub fn keep(&mut self, key: Key, value: Option<Value>) -> Result<(), Fault>
        ensures txn { self.new.txn ≡ self.old.txn }
        ensures keys { OnOk result (asked_keys self.new.asked.items ≡
            asked_keys self.old.asked.items ++ key ∷ []) }
        ensures memory { IfErr result (λ fault. fault ≡ Fault.Memory) }
    {
        self.asked.push(Asked { key, value })?;
        Ok(())
    }

    /// Buffers what follows each answer, as a write of its key.
    pub fn write_next(&self, alloc: Global, tx: &mut Tx<'_, Open>) -> Result<(), Fault>
        ensures next { OnOk result (AreNext self.now.asked.items tx.old.client.writes
            tx.new.client.writes) }
        ensures refused { IfErr result IsStepFault }
    {
        write_each(self.asked.as_slice(), alloc, tx)
    }

    /// Adds the lines of a commit, acknowledged at a moment: its acknowledgement, and what each answer showed.
    pub fn report(self, lines: &mut Vec<Line>, at: Stamp, moment: u64) -> Result<(), Fault>
        ensures { MatchResult result (λ _. lines.new.items ≡ lines.old.items
            ++ Ack self.txn at moment ∷ read_lines self.txn self.asked.items)
            (λ fault. fault ≡ Fault.Memory) }
    {
        let Reads { txn, asked } = self;
        lines.push(Line::Ack(txn, at, moment))?;
        for one in asked {
            let Asked { key, value } = one;
            lines.push(Line::Read(txn, key, value))?;
        }
        Ok(())
    }
}

// Buffers what follows each of some answers.
fn write_each(asked: &[Asked], alloc: Global, tx: &mut Tx<'_, Open>) -> Result<(), Fault>
    ensures next { OnOk result (AreNext asked.now tx.old.client.writes tx.new.client.writes) }
    ensures refused { IfErr result IsStepFault }
{
    match asked.split_first() {
        None => Ok(()),
        Some((one, rest)) => {
            write_one(one, alloc, tx)?;
            write_each(rest, alloc, tx)
        }
    }
}

// Buffers what follows an answer.
fn write_one(one: &Asked, alloc: Global, tx: &mut Tx<'_, Open>) -> Result<(), Fault>
    ensures next { OnOk result (IsNextOf one.now tx.old.client.writes tx.new.client.writes) }
    ensures refused { IfErr result IsStepFault }
{
    let next = next_value(alloc, &one.value)?;
    tx.buffer(one.key, Some(next))?;
    Ok(())
}
