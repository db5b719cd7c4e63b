//! A transaction, as the code of a service sees it.
ghost use Rattle.std.specs.Prelude.{◌≡◌, ℕ, [], ◌++◌, ◌+ℤ◌, List, Option, Some, None, map, pos, unsigned_abs, IfOk, MatchResult};
ghost use Rattle.std.specs.Int.{FitsUnsigned, to_be_bytes, w64};
ghost use Rattle.units.specs.declared.fault.Fault.{Fault};
ghost use Rattle.session.specs.Sessions.{Client, Goes, buffers};
ghost use Rattle.session.specs.Shown.{IsDenied};
ghost use Rattle.client.specs.Ends.{halt_for};
ghost use Rattle.client.specs.Readings.{HasRead, seen};
ghost use Rattle.store.specs.Typed.{IsCount, IsReadAs};
ghost use Rattle.store.specs.Writing.{WritesAreSeen};

use crate::Typed;
use crate::typed::read_as;
use client::{Halt as Halted, Wire};
use session::{Open, Tx};
use std::alloc::Global;
use std::marker::Model;
use std::sync::Wait;
use std::time;
use units::{Fault, Key, Reason, TxnId, Value};

/// A transaction that is open: it reads and buffers writes. Contracts see its session, and what was put out and heard of it.
pub struct Transaction<'s, R> {
    pub(crate) wire: Wire<'s, 's, R>,
    pub(crate) tx: Tx<'s, Open>,
    pub(crate) alloc: Global,
}

impl<'s, R> Model for Transaction<'s, R> {
    ghost use Rattle.store.specs.Attempts.{Doing, IsAtWork};

    ghost Value = { Doing };

    ghost view = { λ t. record { session = t.tx; traffic = t.wire } };

    ghost invariant = { λ t. IsAtWork (record { session = t.tx; traffic = t.wire }) };
}

impl<R: Wait + time::Clock> Transaction<'_, R> {
    /// Its id: a key of the service's own that is written with it tells later whether it stands.
    pub fn id(&self) -> TxnId
        ensures { result ≡ self.now.session.client.txn }
    {
        self.tx.txn()
    }

    /// The value of a key, under a shared lock: what this transaction has put there, or else what its shard holds, the same each time. More than
    /// 128 keys are refused as `many`. After any refusal the code should end: hand it on by `?`, and `transact` runs the code again or tells the
    /// fault.
    pub fn get(&mut self, key: &Key) -> Result<Option<Value>, Halted>
        ensures splits { self.new.session.splits ≡ self.old.session.splits }
        ensures txn { self.new.session.client.txn ≡ self.old.session.client.txn }
        ensures read { HasRead self.old.session.splits self.old.session.client
            self.new.session.client }
        ensures value { IfOk result (λ value. seen self.new.session.client key.now ≡ Some value) }
    {
        self.wire.get(&mut self.tx, key)
    }

    /// The values of some keys, which are asked for together. It is refused as `get` is.
    pub fn get_all(&mut self, keys: &[Key]) -> Result<Vec<Option<Value>>, Halted>
        ensures splits { self.new.session.splits ≡ self.old.session.splits }
        ensures txn { self.new.session.client.txn ≡ self.old.session.client.txn }
        ensures read { HasRead self.old.session.splits self.old.session.client
            self.new.session.client }
        ensures values { IfOk result
            (λ values. map Some values.items ≡ map (seen self.new.session.client) keys.now) }
    {
        self.wire.get_all(&mut self.tx, keys)
    }

    /// Writes a value to a key, once the transaction commits. A later one takes its place. More than 128 keys are refused as `many`.
    pub fn put(&mut self, key: &Key, value: Value) -> Result<(), Halted>
        ensures splits { self.new.session.splits ≡ self.old.session.splits }
        ensures step { MatchResult result
            (λ _. buffers (record { key = key.now; value = Some value }) self.old.session.client ≡
            Goes self.new.session.client [])
            (λ halt. (self.new ≡ self.old) × ((fault : Fault) × (halt ≡ halt_for fault)
            × IsDenied (buffers (record { key = key.now; value = Some value })
            self.old.session.client) fault)) }
    {
        self.tx.buffer(*key, Some(value))?;
        Ok(())
    }

    /// Erases a key, once the transaction commits. It is refused as `put` is.
    pub fn erase(&mut self, key: &Key) -> Result<(), Halted>
        ensures splits { self.new.session.splits ≡ self.old.session.splits }
        ensures step { MatchResult result
            (λ _. buffers (record { key = key.now; value = None }) self.old.session.client ≡
            Goes self.new.session.client [])
            (λ halt. (self.new ≡ self.old) × ((fault : Fault) × (halt ≡ halt_for fault)
            × IsDenied (buffers (record { key = key.now; value = None })
            self.old.session.client) fault)) }
    {
        self.tx.buffer(*key, None)?;
        Ok(())
    }

    /// Gives the value of a key as a type: none if the key has no value. One that spells no value of the type is refused as
    /// `BadRequest(Value)`, and then the code should not go on. Else it is refused as `get` is.
    pub fn get_as<T: Typed>(&mut self, key: &Key) -> Result<Option<T>, Halted>
        ensures splits { self.new.session.splits ≡ self.old.session.splits }
        ensures txn { self.new.session.client.txn ≡ self.old.session.client.txn }
        ensures read { HasRead self.old.session.splits self.old.session.client
            self.new.session.client }
        ensures value { IfOk result (λ read. (value : Option (List ℕ))
            × (seen self.new.session.client key.now ≡ Some value)
            × IsReadAs T.spelled value read) }
    {
        let value = self.get(key)?;
        Ok(read_as(self.alloc, value)?)
    }

    /// Writes a value of a type to a key, once the transaction commits. It is refused as `put` is, and as `BadRequest(Value)` if it takes more
    /// than 4,096 bytes.
    pub fn put_as<T: Typed>(&mut self, key: &Key, value: &T) -> Result<(), Halted>
        ensures splits { self.new.session.splits ≡ self.old.session.splits }
        ensures step { MatchResult result
            (λ _. buffers (record { key = key.now; value = Some (T.spelled value.now) })
            self.old.session.client ≡ Goes self.new.session.client [])
            (λ _. self.new ≡ self.old) }
    {
        let value = value.to_value(self.alloc)?;
        self.put(key, value)
    }

    /// Adds an amount, which may be below 0, to the number of a key, and gives the sum. A key without a value counts as 0. A sum below 0 or
    /// from 2^64 on is refused as `BadRequest(Value)`, and nothing is written; else it is refused as `get_as` and `put_as` are.
    pub fn add(&mut self, key: &Key, amount: i64) -> Result<u64, Halted>
        ensures splits { self.new.session.splits ≡ self.old.session.splits }
        ensures added { IfOk result (λ sum. (between : Client) × (value : Option (List ℕ))
            × (had : ℕ) × HasRead self.old.session.splits self.old.session.client between
            × (seen between key.now ≡ Some value) × IsCount value had
            × FitsUnsigned w64 (pos had +ℤ amount)
            × (sum ≡ unsigned_abs (pos had +ℤ amount))
            × (buffers (record { key = key.now; value = Some (to_be_bytes w64 sum) }) between
            ≡ Goes self.new.session.client [])) }
    {
        let had = self.get_as::<u64>(key)?.unwrap_or(0);
        let Some(sum) = had.checked_add_signed(amount) else {
            return Err(Halted::Refused(Fault::BadRequest(Reason::Value)));
        };
        self.put_as(key, &sum)?;
        Ok(sum)
    }
}

/// What a transaction has put is what it sees there from then on, and what it sees of other keys stays.
pub fn own_writes_are_seen()
    ensures { WritesAreSeen }
{}
