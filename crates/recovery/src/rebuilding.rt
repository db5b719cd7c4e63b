//! A log is rebuilt record by record.
ghost use Rattle.std.specs.Prelude.{◌≡◌, ◌⊎◌, ◌++◌, [], ◌∷◌, map, reverse, true, Some, None, OnOk, IfOk, IfErr, IsSome};
ghost use Rattle.recovery.specs.Rebuilding.{Progresses, IsStateOf, known_of, stage_known};
ghost use Rattle.record.specs.Accepted.{Accepted, taken};
ghost use Rattle.record.specs.Facts.{facts_of, learn};
ghost use Rattle.facts.specs.Stages.{follows_next, stage_after, stage_of};
ghost use Rattle.protocol.specs.Beside.{fits_facts};
ghost use Rattle.recovery.specs.Recovered.{IsRebuilt, IsSoundlyRebuilt, IsRecovered, fault_next, fault_in, base_in, is_first, items};

use crate::belonging::belongs;
use crate::replaying::{fits_beside, keep, replay};
use counts::Past;
use gatelog::Entry;
use memory::State;
use record::Record;
use std::alloc::Global;
use units::{Epoch, Fault, Setup, Stamp};

/// The state that a log leaves, built record by record: the facts with the versions, and a row for each promise and decision that
/// stands, with its locks. After a record that is refused it takes the others as they come, and only the first refusal counts. It
/// has to be spent, by `finish` or `stop`.
pub struct Rebuild {
    setup: Setup,
    entries: Past<Entry>,
    state: Option<State>,
    refused: Option<Fault>,
    ghost progress: { ∥ Progresses setup (reverse entries.entries) state refused ∥₁ },
}

impl Rebuild {
    ghost use Rattle.recovery.specs.Taken.{taken_by, setup_of};

    /// Begins with no record. `Memory` if memory runs out.
    pub fn new(alloc: Global, setup: &Setup) -> Result<Rebuild, Fault>
        ensures setup { IfOk result (λ made. setup_of made ≡ setup.now) }
        ensures none { IfOk result (λ made. taken_by made ≡ []) }
        ensures memory { IfErr result (λ fault. fault ≡ Fault.Memory) }
    {
        Ok(Rebuild {
            setup: setup.copy(alloc)?,
            entries: Past::none(),
            state: None,
            refused: None,
        })
    }

    /// Takes a copy of the next record. `Memory` is its only refusal; `finish` tells what is wrong with the log.
    pub fn take(&mut self, alloc: Global, entry: &Entry) -> Result<(), Fault>
        ensures setup { setup_of self.new ≡ setup_of self.old }
        ensures taken { taken_by self.new ≡ taken_by self.old ++ entry.now ∷ [] }
        ensures memory { IfErr result (λ fault. fault ≡ Fault.Memory) }
    {
        if self.refused.is_some() {
            self.entries.add(entry);
            return Ok(());
        }
        match entry.copy(alloc) {
            Ok(entry) => self.take_over(alloc, entry),
            Err(fault) => {
                self.entries.add(entry);
                self.refused = Some(fault);
                Err(fault)
            }
        }
    }

    /// Moves the next record into the state. `Memory` is its only refusal; `finish` tells what is wrong with the log.
    pub fn take_over(&mut self, alloc: Global, entry: Entry) -> Result<(), Fault>
        ensures setup { setup_of self.new ≡ setup_of self.old }
        ensures taken { taken_by self.new ≡ taken_by self.old ++ entry ∷ [] }
        ensures memory { IfErr result (λ fault. fault ≡ Fault.Memory) }
    {
        self.entries.add(&entry);
        if self.refused.is_some() {
            drop(entry);
            return Ok(());
        }
        match go_on(&mut self.state, alloc, &self.setup, entry) {
            Ok(()) => Ok(()),
            Err(fault) => {
                self.refused = Some(fault);
                if fault == Fault::Memory {
                    Err(fault)
                } else {
                    Ok(())
                }
            }
        }
    }

    /// Returns the state that the records leave, or `None` if there was no record. A log that breaks the rules is `Damaged` at the record
    /// that does, and a record of another shard's keys is `Stranger`.
    pub fn finish(self) -> Result<Option<State>, Fault>
        ensures found { IfOk result (IsRebuilt (setup_of self) (items (taken_by self))) }
        ensures sound { IfOk result (IsSoundlyRebuilt (setup_of self)) }
        ensures accepted { OnOk result (taken (setup_of self) (items (taken_by self)) ≡ Accepted) }
        ensures refused { IfErr result (λ fault. (fault ≡ Fault.Memory)
            ⊎ (fault_in (taken (setup_of self) (items (taken_by self))) (taken_by self) ≡ Some fault)) }
    {
        let Rebuild {
            setup,
            entries,
            state,
            refused,
        } = self;
        drop(setup);
        drop(entries);
        match refused {
            None => {
                if let Some(state) = &state {
                    state.laws();
                }
                Ok(state)
            }
            Some(fault) => {
                if let Some(state) = state {
                    state.stop();
                }
                Err(fault)
            }
        }
    }

    /// Drops all that was built.
    pub fn stop(self) {
        let Rebuild {
            setup,
            entries,
            state,
            refused: _,
        } = self;
        drop(setup);
        drop(entries);
        if let Some(state) = state {
            state.stop();
        }
    }
}

// Adds one more record to the state, of which there is none before the first.
fn go_on(state: &mut Option<State>, alloc: Global, setup: &Setup, entry: Entry) -> Result<(), Fault>
    requires { IsStateOf setup.now state.old }
    ensures next { OnOk result
        (fault_next setup.now (stage_known state.old) (known_of state.old) entry ≡ None) }
    ensures there { OnOk result (IsSome state.new) }
    ensures state_of { OnOk result (IsStateOf setup.now state.new) }
    ensures known { OnOk result (known_of state.new ≡ learn (known_of state.old) entry.item) }
    ensures stage { OnOk result
        (stage_known state.new ≡ stage_after (stage_known state.old) entry.item) }
    ensures refused { IfErr result (λ fault. (fault ≡ Fault.Memory)
        ⊎ (fault_next setup.now (stage_known state.old) (known_of state.old) entry ≡ Some fault)) }
{
    match state {
        Some(state) => take(state, alloc, entry),
        None => match begin(alloc, &entry, setup) {
            Ok(first) => {
                drop(entry);
                match state.replace(first) {
                    None => {}
                    Some(former) => former.stop(),
                }
                Ok(())
            }
            Err(fault) => {
                drop(entry);
                Err(fault)
            }
        },
    }
}

// The state that the first record leaves: the first opening, or the base of a renewed log.
fn begin(alloc: Global, entry: &Entry, setup: &Setup) -> Result<State, Fault>
    ensures setup { IfOk result (λ state. state.setup ≡ setup.now) }
    ensures next { OnOk result
        (fault_next setup.now (stage_of []) (facts_of []) entry.now ≡ None) }
    ensures facts { IfOk result (λ state. state.facts ≡ learn (facts_of []) entry.now.item) }
    ensures stage { IfOk result
        (λ state. state.stage ≡ stage_after (stage_of []) entry.now.item) }
    ensures recovered { IfOk result IsRecovered }
    ensures refused { IfErr result
        (λ fault. (fault ≡ Fault.Memory)
        ⊎ (fault_next setup.now (stage_of []) (facts_of []) entry.now ≡ Some fault)) }
{
    if !belongs(setup, entry.item()) {
        return Err(Fault::Stranger);
    }
    if !is_first(entry.item()) {
        return Err(damage_at(entry));
    }
    first_state(alloc, entry.item(), setup)
}

// The state that a first record leaves.
fn first_state(alloc: Global, item: &Record, setup: &Setup) -> Result<State, Fault>
    requires first { is_first item.now ≡ true }
    ensures setup { IfOk result (λ state. state.setup ≡ setup.now) }
    ensures facts { IfOk result (λ state. state.facts ≡ learn (facts_of []) item.now) }
    ensures stage { IfOk result (λ state. state.stage ≡ stage_after (stage_of []) item.now) }
    ensures recovered { IfOk result IsRecovered }
    ensures memory { IfErr result (λ fault. fault ≡ Fault.Memory) }
{
    let setup = setup.copy(alloc)?;
    match base_in(item) {
        Some(found) => State::based(alloc, setup, found.0, found.1, found.2),
        None => State::fresh(alloc, setup),
    }
}

// The numbers of a base.
fn base_in(item: &Record) -> Option<(Epoch, Stamp, Stamp)>
    ensures { result ≡ base_in item.now }
{
    match item {
        Record::Base {
            epoch,
            floor,
            horizon,
        } => Some((*epoch, *floor, *horizon)),
        _ => None,
    }
}

// Whether the record is the first opening, or the base of a renewed log.
fn is_first(item: &Record) -> bool
    ensures { result ≡ is_first item.now }
{
    match item {
        Record::Opened { epoch } => epoch.number() == 1,
        Record::Base {
            epoch,
            floor,
            horizon,
        } => epoch.number() > 0 && *horizon <= *floor,
        _ => false,
    }
}

// Adds one more record to a state.
fn take(state: &mut State, alloc: Global, entry: Entry) -> Result<(), Fault>
    requires recovered { IsRecovered state.old }
    ensures setup { state.new.setup ≡ state.old.setup }
    ensures next { OnOk result
        (fault_next state.old.setup state.old.stage state.old.facts entry ≡ None) }
    ensures facts { OnOk result (state.new.facts ≡ learn state.old.facts entry.item) }
    ensures stage { OnOk result (state.new.stage ≡ stage_after state.old.stage entry.item) }
    ensures recovered { OnOk result (IsRecovered state.new) }
    ensures refused { IfErr result
        (λ fault. (fault ≡ Fault.Memory)
        ⊎ (fault_next state.old.setup state.old.stage state.old.facts entry ≡ Some fault)) }
{
    match comes_next(state, alloc, &entry) {
        Ok(()) => {
            if state.follows(entry.item()) {
                replay(state, alloc, entry.into_logged().note())
            } else {
                keep(state, entry.into_logged().note())
            }
        }
        Err(fault) => {
            drop(entry);
            Err(fault)
        }
    }
}

// Checks that the record may come next in the log of a state, and fits beside what stands.
fn comes_next(state: &State, alloc: Global, entry: &Entry) -> Result<(), Fault>
    requires recovered { IsRecovered state.now }
    ensures next { OnOk result
        (fault_next state.now.setup state.now.stage state.now.facts entry.now ≡ None) }
    ensures follows { OnOk result (follows_next
        state.now.setup.shard state.now.stage state.now.facts entry.now.item ≡ true) }
    ensures fits { OnOk result (fits_facts state.now.facts entry.now.item ≡ true) }
    ensures refused { IfErr result
        (λ fault. (fault ≡ Fault.Memory)
        ⊎ (fault_next state.now.setup state.now.stage state.now.facts entry.now ≡ Some fault)) }
{
    let item = entry.item();
    if !belongs(state.setup(), item) {
        return Err(Fault::Stranger);
    }
    if !state.may_come(item) {
        return Err(damage_at(entry));
    }
    if !fits_beside(state, alloc, item)? {
        return Err(damage_at(entry));
    }
    Ok(())
}

// Damage at the entry.
fn damage_at(entry: &Entry) -> Fault
    ensures { result ≡ Fault.Damaged entry.now.offset }
{
    Fault::Damaged {
        offset: entry.offset(),
    }
}
