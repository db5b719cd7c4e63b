//! Carrying out a plan: first all memory is taken. Once its record is logged, nothing can fail.
ghost use Rattle.std.specs.Prelude.{◌≡◌, ◌≤◌, ◌<◌, ◌+◌, Some, None, true, false, OnOk, OnErr, IfOk, IfErr, IsSome, IsTrue, length, List, ℕ};
ghost use Rattle.protocol.specs.Rows.{Memory, without_row, held_in, without_rows};
ghost use Rattle.protocol.specs.Plan.{carried, after_change, ended_by, with_ids};
ghost use Rattle.protocol.specs.Step.{facts_after};
ghost use Rattle.record.specs.Facts.{learn, or_floor};
ghost use Rattle.record.specs.Records.{stamp_in};
ghost use Rattle.facts.specs.Stages.{follows_head, stage_after};
ghost use Rattle.rows.specs.RowTable.{put_row, phase_by, room};
ghost use Rattle.memory.specs.Carry.{AdmissionIsUnseen, FitStepsMayAsk, ReadyIsCarriable, MayAsk, HasMemoryFor, IsCarriable, IsDated, Admits, MayUndo};
ghost use Rattle.memory.specs.Carry.{MayDrop, MayFollow, MayInstall, CanStand, FitsRows, AskerHasRoom, asker, admitted, admitted_to};
ghost use Rattle.memory.specs.Carry.{may_ask, may_end, stage_behind};
ghost use Rattle.memory.specs.Plans.{plan_of, change_of};
ghost use Rattle.memory.specs.Served.{IsHolding, stamp_held};

use crate::plan::{Change, Plan};
use crate::state::State;
use ledger::{Ended, Ledger};
use message::Outbox;
use record::Record;
use rows::{Noted, Row, Rows};
use safetime::SafeTime;
use std::alloc::Global;
use units::{Fault, Lock, Stamp, TxnId};

/// What was made ready for a plan: whether its transaction got a new row.
#[derive(Clone, Copy)]
pub struct Ready {
    pub admitted: bool,
}

impl Change {
    /// Returns the transaction that asks for locks, if one does.
    pub fn asker(&self) -> Option<TxnId>
        ensures { result ≡ asker self.now }
    {
        match self {
            Change::Reads(txn) => Some(*txn),
            Change::Waits(txn, _) => Some(*txn),
            Change::Collects(txn, _) => Some(*txn),
            Change::Stands(txn) => Some(*txn),
            _ => None,
        }
    }
}

impl State {
    /// Takes all the memory that a plan needs. A transaction that asks for locks gets a row if it has none. `Memory` leaves all as it
    /// was.
    pub fn make_ready(&mut self, alloc: Global, plan: &Plan) -> Result<Ready, Fault>
        requires { MayAsk self.old.memory.rows (asker plan.now.change) }
        ensures ready { OnOk result (HasMemoryFor self.old self.new plan.now) }
        ensures admits { IfOk result
            (λ ready. Admits self.old.memory.rows (asker plan.now.change) ready.admitted) }
        ensures undo { IfOk result
            (λ ready. MayUndo self.new.memory.rows (asker plan.now.change) ready.admitted) }
        ensures kept { OnErr result
            ((self.new.setup ≡ self.old.setup) × (self.new.facts ≡ self.old.facts)
            × (self.new.memory ≡ self.old.memory)) }
        ensures memory { IfErr result (λ fault. fault ≡ Fault.Memory) }
    {
        self.ledger.reserve()?;
        self.ended.reserve(plan.wounded.as_slice().len() + 1)?;
        let admitted = admit_asker(&mut self.rows, alloc, plan.change.asker(), plan.needs.len())?;
        Ok(Ready { admitted })
    }

    /// Takes back what was made ready for a plan whose record was not logged: the new row of its transaction.
    pub fn undo(&mut self, plan: &Plan, ready: Ready)
        requires { MayUndo self.old.memory.rows (asker plan.now.change) ready.admitted }
        ensures setup { self.new.setup ≡ self.old.setup }
        ensures facts { self.new.facts ≡ self.old.facts }
        ensures memory { (m : Memory) → Admits m.rows (asker plan.now.change) ready.admitted
            → self.old.memory ≡ admitted_to m (asker plan.now.change) → self.new.memory ≡ m }
    {
        let Ready { admitted } = ready;
        self.rows.laws();
        match plan.change.asker() {
            Some(txn) if admitted => self.rows.end(txn),
            _ => {}
        }
    }

    /// Carries out a plan for which all was made ready. If the step has a record, `logged` is the token that it is in the log. It
    /// takes no memory.
    pub fn carry(&mut self, plan: Plan, logged: Option<Noted>) -> Outbox
        requires ready { IsCarriable self.old (record { plan = plan; logged = logged }) }
        ensures setup { self.new.setup ≡ self.old.setup }
        ensures facts { self.new.facts ≡ facts_after self.old.facts logged }
        ensures stage { self.new.stage ≡ stage_behind self.old.stage logged }
        ensures memory { self.new.memory ≡
            carried (plan_of self.old.memory.rows (record { plan = plan; logged = logged }))
            self.old.memory }
        ensures outbox { result ≡ plan.outbox }
    {
        let Plan {
            wounded,
            needs,
            change,
            last,
            outbox,
        } = plan;
        self.times.raise(last);
        let item = make_change(
            &mut self.rows,
            &mut self.ended,
            &mut self.times,
            change,
            wounded.as_slice(),
            &needs,
            logged,
        );
        drop(wounded);
        drop(needs);
        learn(&mut self.ledger, item);
        outbox
    }

    /// Learns a record of a renewed log's head: a version, or a transaction that ended. No row changes. `Memory` leaves all as it was.
    pub fn keep(&mut self, logged: Noted) -> Result<(), Fault>
        requires follows { IsTrue
            (follows_head self.old.setup.shard self.old.stage self.old.facts logged) }
        ensures setup { self.new.setup ≡ self.old.setup }
        ensures facts { OnOk result (self.new.facts ≡ learn self.old.facts logged) }
        ensures stage { OnOk result (self.new.stage ≡ stage_after self.old.stage logged) }
        ensures memory { OnOk result (self.new.memory ≡
            record self.old.memory { last = or_floor self.old.memory.last (stamp_in logged) }) }
        ensures refused { IfErr result (λ fault. fault ≡ Fault.Memory) }
    {
        match self.ledger.reserve() {
            Ok(()) => {}
            Err(fault) => {
                drop(logged.spend());
                return Err(fault);
            }
        }
        let item = logged.spend();
        let last = later_of(self.times.last(), stamp_in(&item));
        self.times.raise(last);
        self.ledger.learn(item);
        Ok(())
    }
}

/// Says that a step that fits may ask for its locks, and that a row taken in for it shows in nothing that its plan does. The plan
/// can be carried out once all is ready. It does nothing.
pub fn ready_plans_can_be_carried()
    ensures asks { FitStepsMayAsk }
    ensures unseen { AdmissionIsUnseen }
    ensures carriable { ReadyIsCarriable }
{}

// Takes the memory for the locks of the transaction that asks for them, if one does.
fn admit_asker(
    rows: &mut Rows,
    alloc: Global,
    asker: Option<TxnId>,
    more: usize,
) -> Result<bool, Fault>
    requires { MayAsk rows.old.rows asker }
    ensures rows { OnOk result (rows.new.rows ≡ admitted rows.old.rows asker) }
    ensures room { OnOk result (AskerHasRoom rows.new asker more) }
    ensures admits { IfOk result (λ taken. Admits rows.old.rows asker taken) }
    ensures undo { IfOk result (λ taken. MayUndo rows.new.rows asker taken) }
    ensures holding { (holds : List ℕ) → IsHolding holds rows.old.rows
        → IsHolding holds rows.new.rows }
    ensures kept { OnErr result (rows.new.rows ≡ rows.old.rows) }
    ensures memory { IfErr result (λ fault. fault ≡ Fault.Memory) }
{
    match asker {
        Some(txn) => admit(rows, alloc, txn, more),
        None => Ok(false),
    }
}

// Takes the memory for some locks of a transaction, which gets a row if it has none.
fn admit(rows: &mut Rows, alloc: Global, txn: TxnId, more: usize) -> Result<bool, Fault>
    requires { may_ask rows.old.rows txn ≡ true }
    ensures rows { OnOk result (rows.new.rows ≡ admitted rows.old.rows (Some txn)) }
    ensures room { OnOk result (length (held_in rows.new.rows txn) + more ≤ room rows.new txn) }
    ensures admits { IfOk result (λ taken. Admits rows.old.rows (Some txn) taken) }
    ensures undo { IfOk result (λ taken. MayUndo rows.new.rows (Some txn) taken) }
    ensures holding { (holds : List ℕ) → IsHolding holds rows.old.rows
        → IsHolding holds rows.new.rows }
    ensures kept { OnErr result (rows.new.rows ≡ rows.old.rows) }
    ensures memory { IfErr result (λ fault. fault ≡ Fault.Memory) }
{
    rows.laws();
    if rows.find(txn).is_some() {
        rows.make_room(txn, more)?;
        return Ok(false);
    }
    rows.admit(alloc, txn)?;
    match rows.make_room(txn, more) {
        Ok(()) => Ok(true),
        Err(fault) => {
            rows.end(txn);
            Err(fault)
        }
    }
}

// Changes the rows, and returns the record that was logged.
fn make_change(
    rows: &mut Rows,
    ended: &mut Ended,
    times: &mut SafeTime,
    change: Change,
    wounded: &[TxnId],
    needs: &[Lock],
    logged: Option<Noted>,
) -> Option<Record>
    requires holding { IsHolding times.old.holds rows.old.rows }
    requires fits { FitsRows rows.old.rows wounded.now needs.now logged change }
    requires there { admitted rows.old.rows (asker change) ≡ rows.old.rows }
    requires ends { length wounded.now < ended.old.room }
    requires locks { AskerHasRoom rows.old (asker change) (length needs.now) }
    requires dated { IsDated logged }
    ensures holding { IsHolding times.new.holds rows.new.rows }
    ensures last { times.new.last ≡ times.old.last }
    ensures rows { rows.new.rows ≡ after_change (change_of rows.old.rows needs.now logged change)
        (without_rows rows.old.rows wounded.now) }
    ensures ended { ended.new.ids ≡ ended_by (change_of rows.old.rows needs.now logged change)
        (with_ids ended.old.ids wounded.now) }
    ensures record { result ≡ logged }
{
    rows.laws();
    note_ended(ended, wounded);
    match change {
        Change::Keeps => spend(logged),
        Change::Ends(txn) => {
            end(rows, txn);
            ended.add(txn);
            spend(logged)
        }
        Change::Drops(txn) => Some(drop_row(rows, times, txn, there(logged))),
        Change::Reads(txn) => {
            rows.grant(txn, wounded, needs);
            spend(logged)
        }
        Change::Waits(txn, wait) => {
            rows.wait(txn, wounded, needs, wait);
            spend(logged)
        }
        Change::Collects(txn, gathering) => {
            rows.grant(txn, wounded, needs);
            rows.collect(txn, gathering);
            spend(logged)
        }
        Change::Counts(txn, from, at) => {
            rows.vote(txn, from, at);
            spend(logged)
        }
        Change::Stands(txn) => {
            rows.grant(txn, wounded, needs);
            Some(stand(rows, times, txn, there(logged)))
        }
        Change::Decides(txn) => Some(stand(rows, times, txn, there(logged))),
        Change::Retires(below) => {
            ended.retire(below);
            spend(logged)
        }
    }
}

// Ends a transaction that reads, or has no row.
fn end(rows: &mut Rows, txn: TxnId)
    requires { may_end rows.old.rows txn ≡ true }
    ensures { rows.new.rows ≡ without_row rows.old.rows txn }
{
    if rows.find(txn).is_some() {
        rows.end(txn);
    }
}

// Ends the row of a transaction by the record that was logged.
fn drop_row(rows: &mut Rows, times: &mut SafeTime, txn: TxnId, logged: Noted) -> Record
    requires holding { IsHolding times.old.holds rows.old.rows }
    requires may { MayDrop rows.old.rows txn (Some logged) }
    ensures holding { IsHolding times.new.holds rows.new.rows }
    ensures last { times.new.last ≡ times.old.last }
    ensures rows { rows.new.rows ≡ without_row rows.old.rows txn }
    ensures record { result ≡ logged }
{
    if rows.find(txn).is_none() {
        return logged.spend();
    }
    rows.laws();
    match held_at(rows, txn) {
        Some(at) => {
            times.lift(at);
            rows.close(txn, logged)
        }
        None => rows.abort(txn, logged),
    }
}

// The timestamp below which the row of a transaction holds the safe time.
fn held_at(rows: &Rows, txn: TxnId) -> Option<Stamp>
    ensures { result ≡ stamp_held rows.now.rows txn }
{
    match rows.find(txn) {
        Some(Row::Prepared(prepared)) => Some(prepared.at()),
        Some(Row::Decided(decided)) => Some(decided.at()),
        _ => None,
    }
}

// Makes a row stand by its logged promise or decision. It then holds the safe time below its timestamp.
fn stand(rows: &mut Rows, times: &mut SafeTime, txn: TxnId, logged: Noted) -> Record
    requires holding { IsHolding times.old.holds rows.old.rows }
    requires stands { CanStand rows.old.rows txn logged }
    ensures holding { IsHolding times.new.holds rows.new.rows }
    ensures last { times.new.last ≡ times.old.last }
    ensures rows { rows.new.rows ≡ put_row rows.old.rows txn (held_in rows.old.rows txn)
        (phase_by logged) }
    ensures record { result ≡ logged }
{
    rows.laws();
    match logged.item() {
        Record::Prepare(prepared) => {
            times.hold(prepared.at);
            rows.prepare(txn, logged)
        }
        Record::Commit(committed) => {
            times.hold(committed.at);
            rows.decide(txn, logged)
        }
        _ => unreachable!(),
    }
}

// Adds some transactions to those that were ended.
fn note_ended(ended: &mut Ended, txns: &[TxnId])
    requires { length txns.now < ended.old.room }
    ensures ids { ended.new.ids ≡ with_ids ended.old.ids txns.now }
    ensures room { 1 ≤ ended.new.room }
{
    for txn in txns {
        ended.add(*txn);
    }
}

// The later of a timestamp and another one, if there is one.
fn later_of(last: Stamp, at: Option<Stamp>) -> Stamp
    ensures { result ≡ or_floor last at }
{
    match at {
        Some(at) => last.later(at),
        None => last,
    }
}

// The timestamp of a record, if it has one.
fn stamp_in(item: &Record) -> Option<Stamp>
    ensures { result ≡ stamp_in item.now }
{
    match item {
        Record::Opened { .. }
        | Record::Abort { .. }
        | Record::Horizon { .. }
        | Record::Retired { .. } => None,
        Record::Ceiling { at } => Some(*at),
        Record::Prepare(prepared) => Some(prepared.at),
        Record::Commit(committed) => Some(committed.at),
        Record::Outcome { txn: _, outcome } => *outcome,
        Record::Base {
            epoch: _,
            floor,
            horizon: _,
        } => Some(*floor),
        Record::Version(install) => Some(install.at),
        Record::Settled {
            txn: _,
            at,
            parts: _,
        } => Some(*at),
        Record::Closed {
            txn: _,
            coordinator: _,
            outcome,
        } => *outcome,
    }
}

// Learns the record that was logged, if there is one.
fn learn(ledger: &mut Ledger, item: Option<Record>)
    requires room { 1 ≤ ledger.old.room }
    requires opened { 0 < ledger.old.facts.epoch }
    requires follows { MayFollow ledger.old.shard ledger.old.facts item }
    requires installs { MayInstall ledger.old.facts item }
    ensures facts { ledger.new.facts ≡ facts_after ledger.old.facts item }
    ensures shard { ledger.new.shard ≡ ledger.old.shard }
    ensures opened { 0 < ledger.new.facts.epoch }
    ensures stage { ledger.new.stage ≡ stage_behind ledger.old.stage item }
{
    if let Some(item) = item {
        ledger.learn(item);
    }
}

// The token of a logged record, which is there.
fn there(logged: Option<Noted>) -> Noted
    requires { IsSome logged }
    ensures { logged ≡ Some result }
{
    match logged {
        Some(logged) => logged,
        None => unreachable!(),
    }
}

// Spends the token of a logged record, if there is one.
fn spend(logged: Option<Noted>) -> Option<Record>
    ensures { result ≡ logged }
{
    match logged {
        Some(logged) => Some(logged.spend()),
        None => None,
    }
}
