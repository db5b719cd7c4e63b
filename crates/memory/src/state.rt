//! The state that a shard keeps in memory.
ghost use Rattle.std.specs.List.{list_all, list_any};
ghost use Rattle.units.specs.Ids.{older};
ghost use Rattle.std.specs.Prelude.{◌≡◌, ◌≤◌, ◌^◌, ◌<◌, ◌++◌, [], true, false, Some, None, MatchOption, IfSome, IfOk, IfErr, OnOk};
ghost use Rattle.std.specs.Option.{option_copied};
ghost use Rattle.units.specs.LockLaws.{IsLawfulTable};
ghost use Rattle.units.specs.Locks.{exclusive, holds, ready};
ghost use Rattle.units.specs.Versions.{latest, at_time, above_versions};
ghost use Rattle.facts.specs.Rules.{follows_facts};
ghost use Rattle.facts.specs.Stages.{follows_next};
ghost use Rattle.record.specs.Accepted.{rises};
ghost use Rattle.record.specs.Facts.{recorded};
ghost use Rattle.protocol.specs.Rows.{safe, claims, find_row, held_in};
ghost use Rattle.protocol.specs.Plan.{in_way, opens, is_crowded};
ghost use Rattle.ledger.specs.Keeps.{IsRegular};
ghost use Rattle.ledger.specs.Ledger.{AreInOrder};
ghost use Rattle.ledger.specs.Turned.{held_facts, turned};
ghost use Rattle.rows.specs.CodeRows.{phase_of};
ghost use Rattle.rows.specs.RowTable.{needs_in};
ghost use Rattle.memory.specs.Carry.{Asks, may_ask, may_end};
ghost use Rattle.memory.specs.Kept.{start_of};
ghost use Rattle.protocol.specs.Sound.{writes_standing};
ghost use Rattle.memory.specs.Standings.{standing_in, standing_of, TellsRow, Allows, HasRowIn};

use crate::standing::{Standing, by_records, by_row};
use ledger::{Ended, Ledger, Places, Recorder};
use record::Record;
use rows::{Row, Rows, exclusive};
use safetime::SafeTime;
use std::alloc::Global;
use std::marker::Model;
use units::{
    Epoch, Fault, Ids, Install, Key, Keys, Lock, Mode, Parts, Setup, Stamp, TxnId, Value, Writes,
};

/// What a shard keeps in memory: its setup, the facts of its log with the versions by key, and its rows with their locks. It also
/// has the ids of transactions that were ended, and the served time.
pub struct State {
    pub(crate) setup: Setup,
    pub(crate) ledger: Ledger,
    pub(crate) rows: Rows,
    pub(crate) ended: Ended,
    pub(crate) times: SafeTime,
}

impl Model for State {
    ghost use Rattle.std.specs.Prelude.{◌≡◌, ◌<◌};
    ghost use Rattle.memory.specs.Kept.{Kept};
    ghost use Rattle.memory.specs.Served.{IsHolding};

    ghost Value = { Kept };

    ghost view = { λ s. record {
      setup = s.setup;
      facts = s.ledger.facts;
      stage = s.ledger.stage;
      memory = record { last = s.times.last; rows = s.rows.rows; ended = s.ended.ids };
      records = s.ledger.room;
      ends = s.ended.room;
      tokens = s.rows.tokens;
    } };

    ghost invariant = { λ s. (0 < s.ledger.facts.epoch) × (s.ledger.shard ≡ s.setup.shard)
        × IsHolding s.times.holds s.rows.rows };
}

impl State {
    /// Returns what the shard was told when it was opened.
    pub fn setup(&self) -> &Setup
        ensures { result.now ≡ self.now.setup }
    {
        &self.setup
    }

    /// Returns the epoch of the last opening.
    pub fn epoch(&self) -> Epoch
        ensures { result ≡ self.now.facts.epoch }
    {
        match Epoch::new(self.ledger.epoch()) {
            Some(epoch) => epoch,
            None => unreachable!(),
        }
    }

    /// Returns the greatest timestamp of the log.
    pub fn floor(&self) -> Stamp
        ensures { result ≡ self.now.facts.floor }
    {
        self.ledger.floor()
    }

    /// Returns the greatest timestamp that was assigned, applied or served.
    pub fn last(&self) -> Stamp
        ensures { result ≡ self.now.memory.last }
    {
        self.times.last()
    }

    /// Returns the safe time: the greatest timestamp at which versions may be read.
    #[tactic(auto, using(crate::proofs::Served::holding_safe))]
    pub fn safe(&self) -> Stamp
        ensures { result ≡ safe self.now.memory }
    {
        self.times.safe()
    }

    /// Returns the horizon, below which no value is read, 0 if there is none.
    pub fn horizon(&self) -> Stamp
        ensures { result ≡ self.now.facts.horizon }
    {
        self.ledger.horizon()
    }

    /// Returns the versions, in the log's order.
    pub fn installs(&self) -> &[Install]
        ensures { result.now ≡ self.now.facts.installs }
    {
        self.ledger.installs()
    }

    /// Returns the places of the versions in order, by key and timestamp.
    pub fn places(&self) -> &Places
        ensures { AreInOrder self.now.facts result.now }
    {
        self.ledger.places()
    }

    /// Returns the newest value of a key. `None` if it never had one, or was erased.
    pub fn latest(&self, key: &Key) -> Option<&Value>
        ensures { option_copied result ≡ latest self.now.facts.installs key.now }
    {
        self.ledger.latest(key)
    }

    /// Returns the value of a key at a timestamp from the horizon up. `None` if it had none then, or was erased.
    pub fn value_at(&self, key: &Key, at: Stamp) -> Option<&Value>
        requires { self.now.facts.horizon ≤ at }
        ensures { option_copied result ≡ at_time self.now.facts.installs key.now at }
    {
        self.ledger.at(key, at)
    }

    /// Hands on the records of the renewed log: its base, the versions that it holds, then the transactions that ended or stand.
    pub fn renew<R: Recorder>(&self, alloc: Global, recorder: &mut R) -> Result<(), Fault>
        requires regular { IsRegular self.now.facts }
        ensures all { OnOk result
            (R.records recorder.new ≡ R.records recorder.old ++ turned self.now.facts) }
        ensures memory { IfErr result (λ fault. fault ≡ Fault.Memory) }
    {
        self.ledger.renew(alloc, recorder)
    }

    /// Lets the versions go that no look from the horizon up needs (`Ledger::let_go`). All else stays.
    pub fn let_go(&mut self, alloc: Global) -> Result<(), Fault>
        ensures facts { OnOk result (self.new.facts ≡ held_facts self.old.facts) }
        ensures setup { self.new.setup ≡ self.old.setup }
        ensures memory { self.new.memory ≡ self.old.memory }
        ensures refused { IfErr result
            (λ fault. (fault ≡ Fault.Memory) × (self.new.facts ≡ self.old.facts)) }
    {
        self.ledger.let_go(alloc)
    }

    /// Tells whether the record may come next in the log.
    pub fn may_come(&self, item: &Record) -> bool
        ensures { result ≡
            follows_next self.now.setup.shard self.now.stage self.now.facts item.now }
    {
        self.ledger.may_come(item)
    }

    /// Tells whether steps log this kind of record, and it may come next by the rules of one transaction and of openings.
    pub fn follows(&self, item: &Record) -> bool
        ensures { result ≡ follows_facts self.now.setup.shard self.now.facts item.now }
    {
        self.ledger.follows(item)
    }

    /// Tells whether the timestamp is above all versions of the keys that are written.
    pub fn takes(&self, writes: &Writes, at: Stamp) -> bool
        ensures { result ≡ above_versions self.now.facts.installs at writes.now }
    {
        self.ledger.takes(writes, at)
    }

    /// Tells whether the timestamp is above all versions of the keys that the transaction's promise or decision writes. It says yes
    /// if neither stands.
    pub fn takes_standing(&self, txn: TxnId, at: Stamp) -> bool
        ensures { result ≡ above_versions self.now.facts.installs at
            (writes_standing (recorded self.now.facts txn)) }
    {
        self.ledger.takes_standing(txn, at)
    }

    /// Says that the rows are a lawful lock table at any time. It does nothing.
    pub fn laws(&self)
        ensures { IsLawfulTable (claims self.now.memory.rows) }
    {
        self.rows.laws();
    }

    /// Returns the row of a transaction, if it has one.
    pub fn row(&self, txn: TxnId) -> Option<&Row>
        ensures { MatchOption result (find_row self.now.memory.rows txn ≡ None)
            (λ row. HasRowIn self.now txn (phase_of row.now)) }
    {
        self.rows.find(txn)
    }

    /// Tells whether a transaction of a lower id has a row.
    pub fn has_row_below(&self, below: TxnId) -> bool
        ensures { result ≡ list_any (λ r. older r.txn below) self.now.memory.rows }
    {
        self.rows.has_below(below)
    }

    /// Tells whether an id is above that below which all are retired so far.
    pub fn rises(&self, below: TxnId) -> bool
        ensures { result ≡ rises self.now.facts.retired below }
    {
        self.ledger.rises(below)
    }

    /// Returns how a transaction stands.
    pub fn standing(&self, txn: TxnId) -> Standing<'_>
        ensures standing { standing_in self.now txn ≡
            standing_of (held_in self.now.memory.rows txn) result }
        ensures row { TellsRow self.now.memory.rows txn result }
        ensures allows { Allows self.now.memory.rows txn result }
    {
        if self.ledger.is_retired(txn) {
            return Standing::Retired;
        }
        match self.row(txn) {
            Some(row) => by_row(row),
            None => by_records(self.ledger.status(txn), self.ended.has(txn)),
        }
    }

    /// Tells whether the transaction holds a lock on the key.
    pub fn holds(&self, txn: TxnId, key: &Key) -> bool
        ensures { result ≡ holds (held_in self.now.memory.rows txn) key.now }
    {
        self.rows.holds(txn, key)
    }

    /// Tells whether the transaction holds a lock on each of the keys.
    pub fn holds_all(&self, txn: TxnId, keys: &Keys) -> bool
        ensures { result ≡ list_all (holds (held_in self.now.memory.rows txn)) keys.now }
    {
        self.rows.holds_all(txn, keys)
    }

    /// Returns the transactions that a request for these locks wounds. `Memory` if memory runs out.
    pub fn in_way(&self, alloc: Global, txn: TxnId, needs: &[Lock]) -> Result<Ids, Fault>
        ensures ids { IfOk result (λ ids. ids ≡ in_way (start_of self.now) txn needs.now) }
        ensures memory { IfErr result (λ fault. fault ≡ Fault.Memory) }
    {
        self.rows.wounded(alloc, txn, needs)
    }

    /// Makes the exclusive locks for these writes, and the list of transactions that the request wounds. If `is_undisputed` said yes,
    /// the list is empty and is not searched for. `Memory` if memory runs out.
    pub fn asks(
        &self,
        alloc: Global,
        txn: TxnId,
        writes: &Writes,
        undisputed: bool,
    ) -> Result<(Ids, Vec<Lock>), Fault>
        requires { undisputed ≡ true → in_way (start_of self.now) txn (exclusive writes.now) ≡ [] }
        ensures ids { IfOk result
            (λ asked. asked.0 ≡ in_way (start_of self.now) txn (exclusive writes.now)) }
        ensures locks { IfOk result (λ asked. asked.1.items ≡ exclusive writes.now) }
        ensures memory { IfErr result (λ fault. fault ≡ Fault.Memory) }
    {
        let Ok(needs) = exclusive(alloc, writes) else {
            return Err(Fault::Memory);
        };
        if undisputed {
            return Ok((Ids::from_vec(Vec::new(alloc)), needs));
        }
        match self.in_way(alloc, txn, &needs) {
            Ok(wounded) => Ok((wounded, needs)),
            Err(fault) => {
                drop(needs);
                Err(fault)
            }
        }
    }

    /// Tells whether the request is granted once the transactions that it wounds are gone.
    pub fn opens(&self, txn: TxnId, needs: &[Lock]) -> bool
        ensures { result ≡ opens (start_of self.now) txn needs.now }
    {
        self.rows.opens(txn, needs)
    }

    /// Tells the same of a request for the exclusive locks of these writes. It takes no memory.
    pub fn opens_writes(&self, txn: TxnId, writes: &Writes) -> bool
        ensures { result ≡ opens (start_of self.now) txn (exclusive writes.now) }
    {
        self.rows.laws();
        for write in writes.as_slice() {
            let lock = [Lock {
                key: write.key,
                mode: Mode::Exclusive,
            }];
            if !self.opens(txn, &lock) {
                return false;
            }
        }
        true
    }

    /// Tells from the numbers of locks alone that nobody conflicts with exclusive locks for these writes. It may say no although that
    /// is so.
    pub fn is_undisputed(&self, txn: TxnId, writes: &Writes) -> bool
        ensures nobody { result ≡ true → in_way (start_of self.now) txn (exclusive writes.now) ≡ [] }
        ensures opens { result ≡ true → opens (start_of self.now) txn (exclusive writes.now) ≡ true }
    {
        self.rows.is_undisputed(txn, writes)
    }

    /// Tells whether the transaction has no row, and there is no room for one.
    pub fn is_crowded(&self, txn: TxnId) -> bool
        ensures crowded { result ≡ is_crowded (start_of self.now) txn }
        ensures asks { result ≡ false → may_end self.now.memory.rows txn ≡ true
            → may_ask self.now.memory.rows txn ≡ true }
    {
        self.rows.is_full() && self.row(txn).is_none()
    }

    /// Returns the oldest transaction that waits and would be granted now.
    pub fn ready(&self) -> Option<TxnId>
        ensures oldest { result ≡ ready (claims self.now.memory.rows) }
        ensures asks { IfSome result
            (λ txn. Asks self.now.memory.rows txn [] (needs_in self.now.memory.rows txn) true) }
    {
        self.rows.laws();
        self.rows.ready()
    }
}
