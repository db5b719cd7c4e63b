//! Transitions of rows that promise, decide and end. Most of them spend a logged record.
ghost use Rattle.std.specs.Prelude.{◌≡◌, [], true};
ghost use Rattle.protocol.specs.Rows.{Collecting, without_row, held_in};
ghost use Rattle.rows.specs.States.{is_prepare_of, is_commit_of, is_abort_of, is_outcome_of};
ghost use Rattle.rows.specs.CodeRows.{is_idle, is_collecting, may_decide, may_abort, may_close};
ghost use Rattle.rows.specs.RowTable.{has_phase, put_row, phase_by, phase_in, with_yes};

use crate::row::Row;
use crate::rows::Rows;
use crate::votes::Gathering;
use gatelog::Noted;
use record::Record;
use units::{ShardNo, Stamp, TxnId};

impl Rows {
    /// Makes an idle row, with the locks that it holds, collect the votes of the other parts. It takes no memory.
    pub fn collect(&mut self, txn: TxnId, gathering: Gathering)
        requires { has_phase is_idle self.old.rows txn ≡ true }
        ensures { self.new.rows ≡ put_row self.old.rows txn (held_in self.old.rows txn)
            (Collecting gathering.latest gathering.parts gathering.reads gathering.writes []) }
    {
        let reading = self.rows.take_reading(txn);
        let collecting = reading.collect(gathering, &mut self.locks);
        self.rows.put(Row::Collecting(collecting));
    }

    /// Counts a part's yes, at its prepare timestamp. Only the first of each part counts. It takes no memory.
    pub fn vote(&mut self, txn: TxnId, from: ShardNo, at: Stamp)
        requires { has_phase is_collecting self.old.rows txn ≡ true }
        ensures { self.new.rows ≡ put_row self.old.rows txn (held_in self.old.rows txn)
            (with_yes from at (phase_in self.old.rows txn)) }
    {
        match self.rows.take(txn) {
            Row::Collecting(collecting) => {
                self.rows.put(Row::Collecting(collecting.vote(from, at)));
            }
            _ => unreachable!(),
        }
    }

    /// Makes an idle row prepared by its logged promise, and keeps its locks. It takes no memory.
    pub fn prepare(&mut self, txn: TxnId, logged: Noted) -> Record
        requires idle { has_phase is_idle self.old.rows txn ≡ true }
        requires mine { is_prepare_of txn logged ≡ true }
        ensures rows { self.new.rows ≡ put_row self.old.rows txn (held_in self.old.rows txn)
            (phase_by logged) }
        ensures record { result ≡ logged }
    {
        let reading = self.rows.take_reading(txn);
        let (prepared, record) = reading.prepare(logged, &mut self.locks);
        self.rows.put(Row::Prepared(prepared));
        record
    }

    /// Makes a row decided by its logged decision, and keeps its locks. It takes no memory.
    pub fn decide(&mut self, txn: TxnId, logged: Noted) -> Record
        requires may { has_phase may_decide self.old.rows txn ≡ true }
        requires mine { is_commit_of txn logged ≡ true }
        ensures rows { self.new.rows ≡ put_row self.old.rows txn (held_in self.old.rows txn)
            (phase_by logged) }
        ensures record { result ≡ logged }
    {
        match self.rows.take(txn) {
            Row::Reading(reading) => {
                let (decided, record) = reading.decide(logged, &mut self.locks);
                self.rows.put(Row::Decided(decided));
                record
            }
            Row::Collecting(collecting) => {
                let (decided, record) = collecting.decide(logged);
                self.rows.put(Row::Decided(decided));
                record
            }
            _ => unreachable!(),
        }
    }

    /// Ends a row by its logged abort, and frees its locks. It takes no memory.
    pub fn abort(&mut self, txn: TxnId, logged: Noted) -> Record
        requires may { has_phase may_abort self.old.rows txn ≡ true }
        requires mine { is_abort_of txn logged ≡ true }
        ensures rows { self.new.rows ≡ without_row self.old.rows txn }
        ensures record { result ≡ logged }
    {
        let row = self.rows.take(txn);
        row.release(&mut self.locks);
        logged.spend()
    }

    /// Ends a prepared or decided row by its logged outcome, and frees its locks. It takes no memory.
    pub fn close(&mut self, txn: TxnId, logged: Noted) -> Record
        requires may { has_phase may_close self.old.rows txn ≡ true }
        requires mine { is_outcome_of txn logged ≡ true }
        ensures rows { self.new.rows ≡ without_row self.old.rows txn }
        ensures record { result ≡ logged }
    {
        let row = self.rows.take(txn);
        row.release(&mut self.locks);
        logged.spend()
    }
}
