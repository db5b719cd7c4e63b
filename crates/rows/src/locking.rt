//! How the transactions of a shard take locks, and wait for them.
ghost use Rattle.std.specs.Prelude.{◌≡◌, ◌+◌, ◌≤◌, [], true, false, Some, length, OnOk, IfErr};
ghost use Rattle.units.specs.Locks.{is_free, with_locks, wounded};
ghost use Rattle.protocol.specs.Rows.{Idle, claims, needs_of, held_in, without_rows};
ghost use Rattle.rows.specs.CodeRows.{phase_of_wait, is_reading};
ghost use Rattle.rows.specs.RowTable.{room, has_phase, put_row, without_tokens, MayEnd};

use crate::row::Row;
use crate::rows::Rows;
use crate::wait::Wait;
use units::{Fault, Lock, TxnId};

impl Rows {
    /// Takes the memory for this many more locks of a transaction. `Memory` if memory runs out.
    pub fn make_room(&mut self, txn: TxnId, more: usize) -> Result<(), Fault>
        requires { has_phase is_reading self.old.rows txn ≡ true }
        ensures rows { self.new.rows ≡ self.old.rows }
        ensures room { OnOk result (length (held_in self.old.rows txn) + more ≤ room self.new txn) }
        ensures memory { IfErr result (λ fault. fault ≡ Fault.Memory) }
    {
        let mut reading = self.rows.take_reading(txn);
        let made = reading.make_room(more, &self.locks);
        self.rows.put(Row::Reading(reading));
        made
    }

    /// Ends the transactions that the request wounds, and grants it. `make_room` came before, so it takes no memory.
    pub fn grant(&mut self, txn: TxnId, ended: &[TxnId], needs: &[Lock])
        requires reading { has_phase is_reading self.old.rows txn ≡ true }
        requires ended { ended.now ≡ wounded (claims self.old.rows) txn needs.now }
        requires free { is_free (claims (without_rows self.old.rows ended.now))
            txn needs.now ≡ true }
        requires room { length (held_in self.old.rows txn) + length needs.now ≤ room self.old txn }
        ensures { self.new.rows ≡ put_row (without_rows self.old.rows ended.now) txn
            (with_locks (held_in self.old.rows txn) needs.now) Idle }
    {
        self.laws();
        self.end_each(ended);
        self.grant_free(txn, needs);
    }

    /// Ends the transactions that the request wounds, and makes the row wait for the others. It takes no memory.
    pub fn wait(&mut self, txn: TxnId, ended: &[TxnId], needs: &[Lock], wait: Wait)
        requires reading { has_phase is_reading self.old.rows txn ≡ true }
        requires ended { ended.now ≡ wounded (claims self.old.rows) txn needs.now }
        requires blocked { is_free (claims (without_rows self.old.rows ended.now))
            txn needs.now ≡ false }
        requires needs { needs.now ≡ needs_of (phase_of_wait (Some wait)) }
        requires room { length (held_in self.old.rows txn) + length needs.now ≤ room self.old txn }
        ensures { self.new.rows ≡ put_row (without_rows self.old.rows ended.now) txn
            (held_in self.old.rows txn) (phase_of_wait (Some wait)) }
    {
        self.laws();
        self.end_each(ended);
        self.block(txn, needs, wait);
    }

    // Ends several rows that read.
    fn end_each(&mut self, txns: &[TxnId])
        requires { MayEnd self.old.rows txns.now }
        ensures rows { self.new.rows ≡ without_rows self.old.rows txns.now }
        ensures tokens { self.new.tokens ≡ without_tokens self.old.tokens txns.now }
    {
        for txn in txns {
            self.end(*txn);
        }
    }

    // Grants a request with which nobody conflicts.
    fn grant_free(&mut self, txn: TxnId, needs: &[Lock])
        requires reading { has_phase is_reading self.old.rows txn ≡ true }
        requires free { is_free (claims self.old.rows) txn needs.now ≡ true }
        requires room { length (held_in self.old.rows txn) + length needs.now ≤ room self.old txn }
        ensures { self.new.rows ≡
            put_row self.old.rows txn (with_locks (held_in self.old.rows txn) needs.now) Idle }
    {
        let reading = self.rows.take_reading(txn);
        let reading = reading.grant(needs, &mut self.locks);
        self.rows.put(Row::Reading(reading));
    }

    // Makes a row wait with a request that ends nobody.
    fn block(&mut self, txn: TxnId, needs: &[Lock], wait: Wait)
        requires reading { has_phase is_reading self.old.rows txn ≡ true }
        requires quiet { wounded (claims self.old.rows) txn needs.now ≡ [] }
        requires blocked { is_free (claims self.old.rows) txn needs.now ≡ false }
        requires needs { needs.now ≡ needs_of (phase_of_wait (Some wait)) }
        requires room { length (held_in self.old.rows txn) + length needs.now ≤ room self.old txn }
        ensures { self.new.rows ≡ put_row self.old.rows txn (held_in self.old.rows txn)
            (phase_of_wait (Some wait)) }
    {
        let reading = self.rows.take_reading(txn);
        let reading = reading.block(needs, wait, &mut self.locks);
        self.rows.put(Row::Reading(reading));
    }
}
