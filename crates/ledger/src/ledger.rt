//! The facts of a log, with the versions by key.
ghost use Rattle.std.specs.Prelude.{◌≡◌, ℕ, ◌<◌, ◌≤◌, ◌^◌, ◌++◌, [], length, IsTrue, IsOk, IfErr, OnOk};
ghost use Rattle.std.specs.Option.{option_copied};
ghost use Rattle.units.specs.Versions.{latest, at_time, above_versions};
ghost use Rattle.record.specs.Accepted.{rises};
ghost use Rattle.record.specs.Facts.{facts_of, learn, recorded};
ghost use Rattle.record.specs.Records.{is_below};
ghost use Rattle.facts.specs.Rules.{follows_facts};
ghost use Rattle.facts.specs.Shown.{meant};
ghost use Rattle.facts.specs.Stages.{follows_head, follows_next, stage_after, stage_of};
ghost use Rattle.protocol.specs.Sound.{writes_standing};
ghost use Rattle.versions.specs.Orders.{Orders};
ghost use Rattle.ledger.specs.Turned.{held_facts, turned};
ghost use Rattle.ledger.specs.Ledger.{AreInOrder, CanInstall};

use crate::renewing::{Recorder, renew};
use facts::{Facts, Status};
use record::Record;
use std::alloc::Global;
use std::marker::Model;
use units::{Fault, Install, Key, ShardNo, Stamp, TxnId, Value, Write, Writes};
use versions::{Places, copy_held};

// The most versions that a record installs.
const MOST_INSTALLS: usize = 128;

/// The facts of a shard's log, and for look-ups the places of its versions by key. Each version stands once, in the log's order.
pub struct Ledger {
    facts: Facts,
    places: Places,
    // How many places were left when some were last dropped.
    left: usize,
}

impl Drop for Ledger {
    fn drop(self) {
        let Ledger {
            facts: _,
            places: _,
            left: _,
        } = self;
    }
}

impl Model for Ledger {
    ghost use Rattle.std.specs.Prelude.{IsTrue, [], length};
    ghost use Rattle.facts.specs.Known.{Known, room_for};
    ghost use Rattle.protocol.specs.Showable.{rises_by_key};
    ghost use Rattle.versions.specs.Orders.{Orders};
    ghost use Rattle.ledger.specs.Ledger.{head_ascends};

    ghost Value = { Known };

    ghost view = { λ l. record {
      shard = l.facts.shard;
      facts = l.facts.facts;
      stage = l.facts.stage;
      room = room_for l.facts.room l.places.room;
    } };

    ghost invariant = { λ l. Orders l.facts.facts.horizon l.facts.facts.installs
        (length l.facts.facts.installs) l.places
        × IsTrue (head_ascends l.facts.stage l.facts.facts.installs)
        × IsTrue (rises_by_key [] l.facts.facts.installs) };
}

impl Ledger {
    /// Makes the ledger of a log without a record.
    pub fn new(alloc: Global, shard: ShardNo) -> Ledger
        ensures shard { result.shard ≡ shard }
        ensures facts { result.facts ≡ facts_of [] }
        ensures stage { result.stage ≡ stage_of [] }
    {
        Ledger {
            facts: Facts::new(alloc, shard),
            places: Places::none(alloc),
            left: 0,
        }
    }

    /// Returns the shard whose log it is.
    pub fn shard(&self) -> ShardNo
        ensures { result ≡ self.now.shard }
    {
        self.facts.shard()
    }

    /// Returns the epoch of the last opening, 0 before the first.
    pub fn epoch(&self) -> u64
        ensures value { result ≡ self.now.facts.epoch }
        ensures limit { result < 2 ^ 62 }
    {
        self.facts.epoch()
    }

    /// Returns the greatest timestamp in the log, 0 if there is none.
    pub fn floor(&self) -> Stamp
        ensures { result ≡ self.now.facts.floor }
    {
        self.facts.floor()
    }

    /// Returns how a transaction stands by its records, if it has any.
    pub fn status(&self, txn: TxnId) -> Option<&Status>
        ensures { meant (option_copied result) ≡ recorded self.now.facts txn }
    {
        self.facts.status(txn)
    }

    /// Tells whether an id is retired.
    pub fn is_retired(&self, txn: TxnId) -> bool
        ensures { result ≡ is_below self.now.facts.retired txn }
    {
        self.facts.is_retired(txn)
    }

    /// Tells whether an id is above that below which all are retired so far.
    pub fn rises(&self, below: TxnId) -> bool
        ensures { result ≡ rises self.now.facts.retired below }
    {
        self.facts.rises(below)
    }

    /// Returns the versions, in the log's order.
    pub fn installs(&self) -> &[Install]
        ensures { result.now ≡ self.now.facts.installs }
    {
        self.facts.installs()
    }

    /// Returns the places of the versions in order, by key and timestamp.
    pub fn places(&self) -> &Places
        ensures { AreInOrder self.now.facts result.now }
    {
        &self.places
    }

    /// Returns the newest value of a key. `None` if it never had one, or was erased.
    pub fn latest(&self, key: &Key) -> Option<&Value>
        ensures { option_copied result ≡ latest self.now.facts.installs key.now }
    {
        self.places.latest(self.facts.installs(), key)
    }

    /// Returns the horizon, below which no value is read, 0 if there is none.
    pub fn horizon(&self) -> Stamp
        ensures { result ≡ self.now.facts.horizon }
    {
        self.facts.horizon()
    }

    /// Returns the value of a key at a timestamp from the horizon up. `None` if it had none then, or was erased.
    pub fn at(&self, key: &Key, at: Stamp) -> Option<&Value>
        requires { self.now.facts.horizon ≤ at }
        ensures { option_copied result ≡ at_time self.now.facts.installs key.now at }
    {
        self.places.at(self.facts.installs(), key, at)
    }

    /// Tells whether the record may come next in the log.
    pub fn may_come(&self, item: &Record) -> bool
        ensures { result ≡
            follows_next self.now.shard self.now.stage self.now.facts item.now }
    {
        self.facts.may_come(item)
    }

    /// Tells whether steps log this kind of record, and it may come next by the rules of one transaction and of openings.
    pub fn follows(&self, item: &Record) -> bool
        ensures { result ≡ follows_facts self.now.shard self.now.facts item.now }
    {
        self.facts.follows(item)
    }

    /// Tells whether the record is of a kind of a renewed log's head, and may come next in the log.
    pub fn follows_head(&self, item: &Record) -> bool
        ensures { result ≡
            follows_head self.now.shard self.now.stage self.now.facts item.now }
    {
        self.facts.follows_head(item)
    }

    /// Tells whether the timestamp is above all versions of the keys that are written.
    pub fn takes(&self, writes: &Writes, at: Stamp) -> bool
        ensures { result ≡ above_versions self.now.facts.installs at writes.now }
    {
        are_above(self.facts.installs(), &self.places, writes.as_slice(), at)
    }

    /// Tells whether the timestamp is above all versions of the keys that the transaction's promise or decision writes. It says yes
    /// if neither stands.
    pub fn takes_standing(&self, txn: TxnId, at: Stamp) -> bool
        ensures { result ≡ above_versions self.now.facts.installs at
            (writes_standing (recorded self.now.facts txn)) }
    {
        match self.status(txn) {
            Some(Status::Prepared(prepared)) => self.takes(&prepared.writes, at),
            Some(Status::Decided(committed)) => self.takes(&committed.writes, at),
            _ => true,
        }
    }

    /// Takes the memory to learn one more record. `Memory` leaves what is known as it was.
    pub fn reserve(&mut self) -> Result<(), Fault>
        ensures room { OnOk result (1 ≤ self.new.room) }
        ensures same { (self.new.facts ≡ self.old.facts) × (self.new.shard ≡ self.old.shard)
            × (self.new.stage ≡ self.old.stage) }
        ensures keeps { self.old.room ≤ self.new.room }
        ensures succeeds { 1 ≤ self.old.room → IsOk result }
        ensures memory { IfErr result (λ fault. fault ≡ Fault.Memory) }
    {
        let Ok(()) = self.facts.reserve() else {
            return Err(Fault::Memory);
        };
        let Ok(()) = self.places.reserve(MOST_INSTALLS) else {
            return Err(Fault::Memory);
        };
        Ok(())
    }

    /// Learns the record that comes next in the log. It takes no memory: an outcome moves the writes of its promise or decision to the
    /// versions. A horizon drops the places of versions below it if that is due (`Places::forget_if_due`), but not their room.
    pub fn learn(&mut self, item: Record)
        requires room { 1 ≤ self.old.room }
        requires follows { IsTrue
            (follows_next self.old.shard self.old.stage self.old.facts item) }
        requires installs { CanInstall self.old.facts item }
        ensures facts { self.new.facts ≡ learn self.old.facts item }
        ensures shard { self.new.shard ≡ self.old.shard }
        ensures stage { self.new.stage ≡ stage_after self.old.stage item }
    {
        if let Record::Horizon { at } = item {
            self.forget(at);
            return;
        }
        let known = self.facts.installs().len();
        self.facts.learn_next(item);
        let horizon = self.facts.horizon();
        self.places.follow(self.facts.installs(), known, horizon);
    }

    /// Hands on the records of the renewed log: its base, the versions that it holds, the id below which all are retired, then the
    /// transactions that ended or stand.
    pub fn renew<R: Recorder>(&self, alloc: Global, recorder: &mut R) -> Result<(), Fault>
        requires { 0 < self.now.facts.epoch }
        ensures all { OnOk result
            (R.records recorder.new ≡ R.records recorder.old ++ turned self.now.facts) }
        ensures memory { IfErr result (λ fault. fault ≡ Fault.Memory) }
    {
        renew(alloc, &self.facts, &self.places, recorder)
    }

    /// Lets the versions go that no look from the horizon up needs: of each key those below its newest that is not above the horizon. The others
    /// come together, in order by key and timestamp, as in a renewed log. `Memory` if there is none for the new list: then nothing goes.
    pub fn let_go(&mut self, alloc: Global) -> Result<(), Fault>
        ensures facts { OnOk result (self.new.facts ≡ held_facts self.old.facts) }
        ensures shard { self.new.shard ≡ self.old.shard }
        ensures stage { self.new.stage ≡ self.old.stage }
        ensures memory { IfErr result
            (λ fault. (fault ≡ Fault.Memory) × (self.new.facts ≡ self.old.facts)) }
    {
        let horizon = self.facts.horizon();
        let held = copy_held(alloc, self.facts.installs(), &self.places, horizon);
        let (installs, places) = held?;
        self.left = places.len();
        self.facts.replace_installs(installs);
        self.places = places;
        Ok(())
    }

    // Learns a horizon that comes next in the log.
    fn forget(&mut self, at: Stamp)
        requires room { 1 ≤ self.old.room }
        requires follows { IsTrue
            (follows_next self.old.shard self.old.stage self.old.facts (Record.Horizon at)) }
        ensures facts { self.new.facts ≡ learn self.old.facts (Record.Horizon at) }
        ensures shard { self.new.shard ≡ self.old.shard }
        ensures stage { self.new.stage ≡ stage_after self.old.stage (Record.Horizon at) }
    {
        self.facts.learn_next(Record::Horizon { at });
        self.places
            .forget_if_due(self.facts.installs(), at, &mut self.left);
    }
}

// The timestamp is above all versions of the keys that are written.
fn are_above(installs: &[Install], places: &Places, writes: &[Write], at: Stamp) -> bool
    requires { (horizon : ℕ) × Orders horizon installs.now (length installs.now) places.now }
    ensures { result ≡ above_versions installs.now at writes.now }
{
    for write in writes {
        if !places.takes(installs, &write.key, at) {
            return false;
        }
    }
    true
}
