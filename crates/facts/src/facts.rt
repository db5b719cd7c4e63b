//! The facts of a log, learnt record by record.
ghost use Rattle.std.specs.Prelude.{◌≡◌, ◌<◌, ◌≤◌, [], IsTrue, IsFalse, IsOk, IfErr, IfOk, OnOk, OnErr, Err, ◌^◌, ◌&&◌, length, map, not, nat_lt};
ghost use Rattle.std.specs.Option.{option_copied};
ghost use Rattle.units.specs.ById.{IsById};
ghost use Rattle.units.specs.Keys.{write_before};
ghost use Rattle.units.specs.Lists.{ascends};
ghost use Rattle.units.specs.declared.fault.Fault.TheVariants.{Memory, Damaged};
ghost use Rattle.record.specs.Accepted.{is_timed, rises};
ghost use Rattle.record.specs.Facts.{facts_of, learn, recorded};
ghost use Rattle.facts.specs.Given.{writes_given};
ghost use Rattle.facts.specs.Readers.{standing_promise, standing_decision, has_abort, outcome_in};
ghost use Rattle.facts.specs.Rules.{follows_facts, is_free, allows};
ghost use Rattle.record.specs.Records.{is_below};
ghost use Rattle.facts.specs.Shown.{meaning, meant};
ghost use Rattle.facts.specs.Stages.{comes_behind, follows_head, follows_next, is_open, stage_after, stage_of};

use crate::blocks::Blocks;
use crate::table::{close, ids, install, make_room, retire, set};
use crate::{Stage, Status};
use indexmap::IndexMap;
use record::{Committed, Prepared, Record};
use std::alloc::Global;
use std::marker::Model;
use units::{Fault, Install, ShardNo, Stamp, TxnId};

/// What a shard's log determines: the epoch, the greatest timestamp, how each transaction stands, the versions in the
/// log's order, and the horizon. It also keeps how far one is in the log. It learns the records one by one, in the
/// order of the log. A look-up goes by the hash of the id.
pub struct Facts {
    shard: ShardNo,
    epoch: u64,
    floor: Stamp,
    // In the order in which the transactions came.
    statuses: IndexMap<TxnId, Status>,
    // A promise or a decision that stands is in a box, so that the entry of one that ended is small.
    blocks: Blocks,
    installs: Vec<Install>,
    horizon: Stamp,
    // The id below which all are retired: they have no entry.
    retired: Option<TxnId>,
    stage: Stage,
}

impl Drop for Facts {
    fn drop(self) {
        let Facts {
            shard: _,
            epoch: _,
            floor: _,
            statuses: _,
            blocks: _,
            installs: _,
            horizon: _,
            retired: _,
            stage: _,
        } = self;
    }
}

impl Model for Facts {
    ghost use Rattle.std.specs.Prelude.{◌<◌, ◌^◌, ◌-◌, min, vec_len, vec_capacity};
    ghost use Rattle.indexmap.specs.IndexMap.{spare};
    ghost use Rattle.facts.specs.Known.{Known, room_for};
    ghost use Rattle.facts.specs.Shown.{shown_entries, by_id};
    ghost use Rattle.record.specs.Facts.{facts_with};

    ghost Value = { Known };

    ghost view = { λ f. record {
      shard = f.shard;
      facts = facts_with f.epoch f.floor
          (shown_entries (by_id f.statuses.entries)) f.installs.items f.horizon f.retired;
      stage = f.stage;
      room = min f.blocks
          (room_for (spare f.statuses) (vec_capacity f.installs - vec_len f.installs));
    } };

    ghost invariant = { λ f. f.epoch < 2 ^ 62 };
}

impl Facts {
    /// Makes the facts of an empty log.
    pub fn new(alloc: Global, shard: ShardNo) -> Facts
        ensures shard { result.shard ≡ shard }
        ensures facts { result.facts ≡ facts_of [] }
        ensures stage { result.stage ≡ stage_of [] }
    {
        Facts {
            shard,
            epoch: 0,
            floor: Stamp::zero(),
            statuses: IndexMap::new(alloc),
            blocks: Blocks::none(),
            installs: Vec::new(alloc),
            horizon: Stamp::zero(),
            retired: None,
            stage: Stage::Head,
        }
    }

    /// Takes the memory in which one more record is learnt.
    pub fn reserve(&mut self) -> Result<(), Fault>
        ensures room { OnOk result (1 ≤ self.new.room) }
        ensures same { (self.new.facts ≡ self.old.facts) × (self.new.shard ≡ self.old.shard)
            × (self.new.stage ≡ self.old.stage) }
        ensures keeps { self.old.room ≤ self.new.room }
        ensures succeeds { 1 ≤ self.old.room → IsOk result }
        ensures memory { IfErr result (λ fault. fault ≡ Memory) }
    {
        self.statuses.reserve(1)?;
        self.blocks.reserve(*self.installs.allocator(), self.shard)?;
        make_room(&mut self.installs)
    }

    /// Gives the shard whose log it is.
    pub fn shard(&self) -> ShardNo
        ensures { result ≡ self.now.shard }
    {
        self.shard
    }

    /// Gives the epoch of the last opening, 0 before the first.
    pub fn epoch(&self) -> u64
        ensures value { result ≡ self.now.facts.epoch }
        ensures limit { result < 2 ^ 62 }
    {
        self.epoch
    }

    /// Gives the greatest timestamp, 0 if there is none.
    pub fn floor(&self) -> Stamp
        ensures { result ≡ self.now.facts.floor }
    {
        self.floor
    }

    /// Gives the horizon, below which no value is read: 0 if there is none.
    pub fn horizon(&self) -> Stamp
        ensures { result ≡ self.now.facts.horizon }
    {
        self.horizon
    }

    /// Gives the id below which all are retired, if there is one.
    pub fn retired(&self) -> Option<TxnId>
        ensures { result ≡ self.now.facts.retired }
    {
        self.retired
    }

    /// Tells whether an id is retired.
    pub fn is_retired(&self, txn: TxnId) -> bool
        ensures { result ≡ is_below self.now.facts.retired txn }
    {
        match &self.retired {
            Some(below) => txn < *below,
            None => false,
        }
    }

    /// Tells whether an id is above that below which all are retired so far.
    pub fn rises(&self, below: TxnId) -> bool
        ensures { result ≡ rises self.now.facts.retired below }
    {
        match &self.retired {
            Some(former) => *former < below,
            None => true,
        }
    }

    /// Gives how a transaction stands, if it has a record and is not retired.
    pub fn status(&self, txn: TxnId) -> Option<&Status>
        ensures { meant (option_copied result) ≡ recorded self.now.facts txn }
    {
        self.statuses.get(&txn)
    }

    /// Lists the ids that have a record, ascending.
    pub fn ids(&self, alloc: Global) -> Result<Vec<TxnId>, Fault>
        ensures ids { IfOk result (λ ids. ids.items ≡
            map (λ e. e.txn) self.now.facts.entries) }
        ensures order { IfOk result (λ ids. IsById (λ id. id) ids.items) }
        ensures memory { IfErr result (λ fault. fault ≡ Memory) }
    {
        ids(alloc, &self.statuses)
    }

    /// Gives the transaction's promise, while it has no outcome.
    pub fn prepared(&self, txn: TxnId) -> Option<&Prepared>
        ensures { option_copied result ≡ standing_promise (recorded self.now.facts txn) }
    {
        self.status(txn)?.prepared()
    }

    /// Gives the transaction's commit decision, while it has no outcome.
    pub fn committed(&self, txn: TxnId) -> Option<&Committed>
        ensures { option_copied result ≡ standing_decision (recorded self.now.facts txn) }
    {
        self.status(txn)?.committed()
    }

    /// Tells whether there is an abort decision of the transaction.
    pub fn aborted(&self, txn: TxnId) -> bool
        ensures { result ≡ has_abort (recorded self.now.facts txn) }
    {
        matches!(self.status(txn), Some(Status::Aborted))
    }

    /// Gives the transaction's outcome, if there is one: a timestamp, or `None` for aborted.
    pub fn outcome(&self, txn: TxnId) -> Option<Option<Stamp>>
        ensures { result ≡ outcome_in (recorded self.now.facts txn) }
    {
        self.status(txn)?.outcome()
    }

    /// Gives the versions, in the log's order.
    pub fn installs(&self) -> &[Install]
        ensures { result.now ≡ self.now.facts.installs }
    {
        self.installs.as_slice()
    }

    /// Puts other versions in the place of those that it has. All else stays, save the room.
    pub fn replace_installs(&mut self, installs: Vec<Install>)
        ensures facts { self.new.facts ≡ record self.old.facts { installs = installs.items } }
        ensures shard { self.new.shard ≡ self.old.shard }
        ensures stage { self.new.stage ≡ self.old.stage }
    {
        self.installs = installs;
    }

    /// Gives how far one is in the log.
    pub fn stage(&self) -> Stage
        ensures { result ≡ self.now.stage }
    {
        self.stage
    }

    /// Tells whether the record may come next in the log.
    #[tactic(auto, unfolding(crate::specs::Stages::follows_next))]
    pub fn may_come(&self, item: &Record) -> bool
        ensures { result ≡
            follows_next self.now.shard self.now.stage self.now.facts item.now }
    {
        self.follows(item) || self.follows_head(item)
    }

    /// Tells whether the record is of a kind that steps log and may come next, by the rules of one transaction and of
    /// openings.
    #[tactic(auto, unfolding(crate::specs::Rules::follows_facts))]
    pub fn follows(&self, item: &Record) -> bool
        ensures { result ≡ follows_facts self.now.shard self.now.facts item.now }
    {
        match item {
            Record::Opened { epoch } => epoch.number() == self.epoch + 1,
            Record::Ceiling { at: _ } => self.epoch > 0,
            Record::Prepare(p) => {
                self.epoch > 0
                    && Stamp::zero() < p.at
                    && self.is_new(p.txn)
                    && p.coordinator < self.shard
            }
            Record::Commit(c) => {
                self.epoch > 0
                    && Stamp::zero() < c.at
                    && self.is_new(c.txn)
                    && c.parts.least() == self.shard
            }
            Record::Abort { txn } => self.epoch > 0 && self.is_new(*txn),
            Record::Outcome { txn, outcome } => { self.epoch > 0 && self.allows(*txn, *outcome) }
            Record::Horizon { at } => { self.epoch > 0 && self.horizon < *at && *at <= self.floor }
            Record::Retired { below } => self.epoch > 0 && self.rises(*below),
            _ => false,
        }
    }

    /// Tells whether the record is of a kind of a renewed log's head, and may come next in the log.
    #[tactic(auto, unfolding(crate::specs::Stages::follows_head))]
    pub fn follows_head(&self, item: &Record) -> bool
        ensures { result ≡
            follows_head self.now.shard self.now.stage self.now.facts item.now }
    {
        match item {
            Record::Base {
                epoch,
                floor,
                horizon,
            } => self.epoch == 0 && epoch.number() > 0 && *horizon <= *floor,
            Record::Version(install) => {
                self.epoch > 0 && self.stage.is_head() && self.comes_behind(install)
            }
            Record::Settled { txn, at, parts } => {
                self.is_early()
                    && Stamp::zero() < *at
                    && self.is_new(*txn)
                    && parts.least() == self.shard
            }
            Record::Closed {
                txn,
                coordinator,
                outcome,
            } => {
                self.is_early()
                    && is_timed(*outcome)
                    && self.is_new(*txn)
                    && *coordinator < self.shard
            }
            _ => false,
        }
    }

    // Tells whether a base came, and no opening yet.
    fn is_early(&self) -> bool
        ensures { result ≡ (nat_lt 0 self.now.facts.epoch && not (is_open self.now.stage)) }
    {
        self.epoch > 0 && !self.stage.is_open()
    }

    // Tells whether one more version comes after the last one, if there is one.
    fn comes_behind(&self, install: &Install) -> bool
        ensures { result ≡ comes_behind self.now.facts.installs install.now }
    {
        match self.installs.as_slice().last() {
            Some(last) => last.is_before(install),
            None => true,
        }
    }

    // Tells whether the outcome may come next, by what stands of the transaction.
    fn allows(&self, txn: TxnId, outcome: Option<Stamp>) -> bool
        ensures { result ≡ allows (recorded self.now.facts txn) outcome }
    {
        match self.status(txn) {
            Some(status) => status.allows(outcome),
            None => false,
        }
    }

    // Tells whether nothing is recorded of the transaction, and it is not retired.
    fn is_new(&self, txn: TxnId) -> bool
        ensures { result ≡ is_free self.now.facts txn }
    {
        self.status(txn).is_none() && !self.is_retired(txn)
    }

    /// Learns the record that comes next in the log. It takes no memory. A record that may not come next is handed
    /// back as `Damaged` at this offset, in bytes.
    pub fn learn(&mut self, offset: u64, item: Record) -> Result<(), (Fault, Record)>
        requires room { 1 ≤ self.old.room }
        ensures learnt { OnOk result (self.new.facts ≡ learn self.old.facts item) }
        ensures follows { OnOk result
            (IsTrue (follows_next self.old.shard self.old.stage self.old.facts item)) }
        ensures shard { self.new.shard ≡ self.old.shard }
        ensures stage { OnOk result (self.new.stage ≡ stage_after self.old.stage item) }
        ensures damaged { IfErr result (λ refused. refused ≡ (Damaged offset, item)) }
        ensures same { OnErr result (self.new ≡ self.old) }
        ensures strange { OnErr result
            (IsFalse (follows_next self.old.shard self.old.stage self.old.facts item)) }
    {
        if !self.may_come(&item) {
            return Err((Fault::Damaged { offset }, item));
        }
        self.learn_next(item);
        Ok(())
    }

    /// Learns a record that may come next in the log. It takes no memory. The writes that it installs ascend by key,
    /// and are at most 128.
    pub fn learn_next(&mut self, item: Record)
        requires room { 1 ≤ self.old.room }
        requires follows { IsTrue
            (follows_next self.old.shard self.old.stage self.old.facts item) }
        ensures facts { self.new.facts ≡ learn self.old.facts item }
        ensures shard { self.new.shard ≡ self.old.shard }
        ensures stage { self.new.stage ≡ stage_after self.old.stage item }
        ensures up { IsTrue (ascends write_before (writes_given self.old.facts item)) }
        ensures few { length (writes_given self.old.facts item) ≤ 128 }
    {
        let stage = stage_after(self.stage, &item);
        self.note(item);
        self.stage = stage;
    }

    // Notes what a record says. The stage stays.
    #[tactic(auto, unfolding(record::specs::Facts::learn, crate::specs::Rules::follows_facts))]
    fn note(&mut self, item: Record)
        requires room { 1 ≤ self.old.room }
        requires follows { IsTrue
            (follows_next self.old.shard self.old.stage self.old.facts item) }
        ensures facts { self.new.facts ≡ learn self.old.facts item }
        ensures shard { self.new.shard ≡ self.old.shard }
        ensures up { IsTrue (ascends write_before (writes_given self.old.facts item)) }
        ensures few { length (writes_given self.old.facts item) ≤ 128 }
    {
        match item {
            Record::Opened { epoch } => self.epoch = epoch.number(),
            Record::Ceiling { at } => self.floor = self.floor.later(at),
            Record::Prepare(prepared) => self.promise(prepared),
            Record::Commit(committed) => self.decide(committed),
            Record::Abort { txn } => set(&mut self.statuses, txn, Status::Aborted),
            Record::Outcome { txn, outcome } => self.end(txn, outcome),
            Record::Horizon { at } => self.horizon = self.horizon.later(at),
            Record::Base {
                epoch,
                floor,
                horizon,
            } => {
                self.epoch = epoch.number();
                self.floor = self.floor.later(floor);
                self.horizon = self.horizon.later(horizon);
            }
            Record::Version(install) => {
                self.floor = self.floor.later(install.at);
                self.installs.push_reserved(install);
            }
            Record::Settled { txn, at, parts } => {
                self.floor = self.floor.later(at);
                set(&mut self.statuses, txn, Status::Settled { at, parts });
            }
            Record::Closed {
                txn,
                coordinator,
                outcome,
            } => {
                if let Some(at) = &outcome {
                    self.floor = self.floor.later(*at);
                }
                let closed = Status::Closed {
                    coordinator,
                    outcome,
                };
                set(&mut self.statuses, txn, closed);
            }
            Record::Retired { below } => {
                retire(&mut self.statuses, below);
                self.retired = Some(below);
            }
        }
    }

    // Notes a promise.
    #[tactic(auto, unfolding(record::specs::Facts::learn))]
    fn promise(&mut self, prepared: Prepared)
        requires { 1 ≤ self.old.room }
        ensures facts { self.new.facts ≡ learn self.old.facts (Record.Prepare prepared) }
        ensures shard { self.new.shard ≡ self.old.shard }
    {
        self.floor = self.floor.later(prepared.at);
        let txn = prepared.txn;
        let promise = self.blocks.promise(prepared);
        set(&mut self.statuses, txn, Status::Prepared(promise));
    }

    // Notes a commit decision.
    #[tactic(auto, unfolding(record::specs::Facts::learn))]
    fn decide(&mut self, committed: Committed)
        requires { 1 ≤ self.old.room }
        ensures facts { self.new.facts ≡ learn self.old.facts (Record.Commit committed) }
        ensures shard { self.new.shard ≡ self.old.shard }
    {
        self.floor = self.floor.later(committed.at);
        let txn = committed.txn;
        let decision = self.blocks.decision(committed);
        set(&mut self.statuses, txn, Status::Decided(decision));
    }

    // Notes an outcome.
    #[tactic(auto, unfolding(record::specs::Facts::learn, crate::specs::Rules::follows_facts))]
    fn end(&mut self, txn: TxnId, outcome: Option<Stamp>)
        requires room { 1 ≤ self.old.room }
        requires follows { IsTrue
            (follows_facts self.old.shard self.old.facts (Record.Outcome txn outcome)) }
        ensures facts { self.new.facts ≡ learn self.old.facts (Record.Outcome txn outcome) }
        ensures shard { self.new.shard ≡ self.old.shard }
        ensures up { IsTrue (ascends write_before
            (writes_given self.old.facts (Record.Outcome txn outcome))) }
        ensures few { length (writes_given self.old.facts (Record.Outcome txn outcome)) ≤ 128 }
    {
        let former = close(&mut self.statuses, txn, outcome);
        if let Some(at) = &outcome {
            self.floor = self.floor.later(*at);
            install(&mut self.installs, former, *at);
        }
    }
}

// Tells whether an outcome at a timestamp is not at 0.
fn is_timed(outcome: Option<Stamp>) -> bool
    ensures { result ≡ is_timed outcome }
{
    match outcome {
        Some(at) => Stamp::zero() < at,
        None => true,
    }
}

// Gives how far one is after one more record.
fn stage_after(stage: Stage, item: &Record) -> Stage
    ensures { result ≡ stage_after stage item.now }
{
    match item {
        Record::Opened { .. } => Stage::Open,
        Record::Base { .. } | Record::Version(_) => stage,
        _ => stage.past_head(),
    }
}
