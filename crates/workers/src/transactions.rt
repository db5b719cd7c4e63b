//! The transaction of a worker's turn: it reads, writes what follows, and hears its end.
ghost use Rattle.std.specs.Prelude.{◌≡◌, ◌++◌, [], List, IfErr, MatchResult, OnOk};
ghost use Rattle.units.specs.declared.line.Line.{Line};
ghost use Rattle.client.specs.Refusals.{IsReadHalt, IsStepHalt};
ghost use Rattle.workers.specs.Refusals.{IsCutShort};
ghost use Rattle.workers.specs.Turns.{AreNext, IsReported, IsTransaction, asked_keys};

use crate::reads::Reads;
use crate::worker::Worker;
use client::Halt;
use progress::{Ended, Watch};
use session::{Open, Tx};
use std::sync::Wait;
use std::time;
use truetime::Clock;
use units::{Fault, Key, Line};

impl<'s, R: Wait + time::Clock, C: Clock + Drop, W: Watch> Worker<'_, 's, R, C, W> {
    /// Runs a transaction that reads keys, and writes to each the number that follows. Its lines are put after those that are there.
    pub fn transact(&mut self, keys: &[Key], lines: &mut Vec<Line>) -> Result<Ended, Fault>
        ensures { MatchResult result (λ ended. (told : List Line)
            × IsTransaction keys.now ended told
            × (lines.new.items ≡ lines.old.items ++ told)) IsCutShort }
    {
        let moment = self.shared.moments.draw(&mut self.moments)?;
        lines.reserve(1)?;
        let mut tx = self.wire.begin(
            self.shared.run,
            &self.shared.splits,
            &self.shared.ids,
            &mut self.ids,
        )?;
        let txn = tx.txn();
        let mut reads = Reads::none(self.shared.alloc, txn);
        lines.push_reserved(Line::Begin(txn, moment));
        let ran = self.read(&mut tx, &mut reads, keys);
        match self.wire.finish(tx, ran) {
            Ok(ended) => self.report(reads, ended, lines),
            Err(fault) => {
                drop(reads);
                Err(fault)
            }
        }
    }

    // Reads the keys, and writes what follows. If a shard has refused a letter of the transaction, it is to be run again, as after any other
    // abort: the drive goes on.
    fn read(&mut self, tx: &mut Tx<'s, Open>, reads: &mut Reads, keys: &[Key]) -> Result<(), Halt>
        requires { reads.old.asked.items ≡ [] }
        ensures txn { reads.new.txn ≡ reads.old.txn }
        ensures keys { OnOk result (asked_keys reads.new.asked.items ≡ keys.now) }
        ensures writes { OnOk result (AreNext reads.new.asked.items tx.old.client.writes
            tx.new.client.writes) }
        ensures refused { IfErr result IsStepHalt }
    {
        match self.read_each(tx, reads, keys) {
            Ok(()) => Ok(()),
            Err(Halt::Refused(fault)) => Err(Halt::Refused(fault)),
            Err(_) => Err(Halt::Again),
        }
    }

    // The same, but that a shard's refusal is handed on.
    fn read_each(
        &mut self,
        tx: &mut Tx<'s, Open>,
        reads: &mut Reads,
        keys: &[Key],
    ) -> Result<(), Halt>
        requires { reads.old.asked.items ≡ [] }
        ensures txn { reads.new.txn ≡ reads.old.txn }
        ensures keys { OnOk result (asked_keys reads.new.asked.items ≡ keys.now) }
        ensures writes { OnOk result (AreNext reads.new.asked.items tx.old.client.writes
            tx.new.client.writes) }
        ensures refused { IfErr result IsReadHalt }
    {
        self.wire.fetch(tx, keys)?;
        for key in keys {
            let value = self.wire.get(tx, key)?;
            reads.keep(*key, value)?;
        }
        reads.write_next(self.shared.alloc, tx)?;
        Ok(())
    }

    // Says how a transaction ended, and adds the lines of a commit: its acknowledgement, and what it read.
    fn report(
        &mut self,
        reads: Reads,
        ended: client::Ended,
        lines: &mut Vec<Line>,
    ) -> Result<Ended, Fault>
        ensures { MatchResult result (λ how. (told : List Line)
            × IsReported ended reads.txn reads.asked.items how told
            × (lines.new.items ≡ lines.old.items ++ told)) IsCutShort }
    {
        match ended {
            client::Ended::Committed(at) => {
                let moment = self.shared.moments.draw(&mut self.moments)?;
                reads.report(lines, at, moment)?;
                Ok(Ended::Committed)
            }
            client::Ended::Aborted => {
                drop(reads);
                Ok(Ended::Aborted)
            }
            client::Ended::Unknown(_) => {
                drop(reads);
                Ok(Ended::Unknown)
            }
        }
    }
}
