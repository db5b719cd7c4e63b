//! Inputs are taken as a group: their records are appended together, and what they put out is handed out after that.
ghost use Rattle.std.specs.Prelude.{◌≡◌, ◌⊎◌, [], None, IsTrue, IsSome, IfOk, IfErr, OnErr, List, length};
ghost use Rattle.memory.specs.RowTable.{decided_row, IsEarliest};
ghost use Rattle.protocol.specs.Rows.{claims};
ghost use Rattle.units.specs.Lists.{gather};
ghost use Rattle.units.specs.Locks.{ready};
ghost use Rattle.units.specs.declared.setup.Book.TheVariants.{Off};
ghost use Rattle.gatelog.specs.Groups.{group_bytes};
ghost use Rattle.shard.specs.Groups.{Arrival, HasHalted, HasSteppedAll, IsAheadOf, IsLeftOut, IsSince, and_taken, batch_of};
ghost use Rattle.shard.specs.On.{CoreView, step_of};

use crate::begun::Begun;
use crate::halted::Halted;
use crate::lead::Lead;
use crate::planning::plan_due;
use crate::shard_core::Core;
use disk::Disk;
use message::{Input, Outbox};
use std::alloc::Global;
use truetime::Reading;
use units::{Fault, Stamp, TxnId};

/// A core that takes inputs as a group. Its state is ahead of its log, and nothing that they put out leaves it before the records of all
/// stand in the log. It has to be spent, by `commit`.
pub struct Ahead<D: Disk> {
    pub(crate) lead: Lead<D>,
    pub(crate) outboxes: Vec<Outbox>,
    pub(crate) served: Stamp,
    pub(crate) versions: usize,
    pub(crate) begun: Begun,
    ghost since: { ∥ IsSince served versions lead.state.facts lead.state.memory ∥₁ },
    ghost bookless: { ∥ lead.state.setup.book ≡ Off ∥₁ },
}

impl<D: Disk> Core<D> {
    ghost use Rattle.shard.specs.Core.{seen, book_of};
    ghost use Rattle.shard.specs.Gathered.{seen_ahead};

    /// Begins a group of no input. A core that is stopped, or that keeps a book, is handed back as it was: it takes inputs one by one.
    pub fn gather(self, alloc: Global) -> Result<Ahead<D>, Core<D>>
        ensures begun { IfOk result (λ ahead.
            IsAheadOf D.file D.clock D.since D.failures (seen self) (seen_ahead ahead) []) }
        ensures refused { IfErr result (λ core. (core ≡ self)
            × (IsTrue (seen self).stopped ⊎ IsSome (book_of self))) }
    {
        if self.machine.gate_log.is_stopped() {
            return Err(self);
        }
        if self.book.is_some() {
            return Err(self);
        }
        let Core {
            machine,
            book,
            begun,
        } = self;
        drop(book);
        let served = machine.state.safe();
        let versions = machine.state.installs().len();
        let lead = machine.lead(alloc);
        Ok(Ahead {
            lead,
            outboxes: Vec::new(alloc),
            served,
            versions,
            begun,
        })
    }
}

impl<D: Disk> Ahead<D> {
    ghost use Rattle.shard.specs.Core.{seen, book_of};
    ghost use Rattle.shard.specs.Gathered.{seen_ahead, seen_halted};

    /// Takes an input after those before it. All growth is made before anything changes. A refused input leaves the group as it was. It is
    /// refused by its own step, for want of memory, or as `TimeSpent` if the log has no room after the group's records.
    pub fn take(&mut self, alloc: Global, now: &Reading, input: &Input) -> Result<(), Fault>
        ensures ahead { (from : CoreView D) → (arrivals : List Arrival)
            → IsAheadOf D.file D.clock D.since D.failures from (seen_ahead self.old) arrivals
            → IsAheadOf D.file D.clock D.since D.failures from (seen_ahead self.new)
            (and_taken arrivals now.now input.now result) }
        ensures kept { OnErr result
            (batch_of (seen_ahead self.new) ≡ batch_of (seen_ahead self.old)) }
        ensures cause { IfErr result (IsLeftOut (seen_ahead self.old).core.gate
            (seen_ahead self.old).records
            (step_of (seen_ahead self.old).core now.now input.now)) }
    {
        let step = match plan_due(&self.lead.state, alloc, now, input) {
            Ok(step) => step,
            Err(fault) => return Err(fault),
        };
        let Ok(()) = self.outboxes.reserve(1) else {
            drop(step);
            return Err(Fault::Memory);
        };
        match self.lead.join(alloc, step) {
            Ok(outbox) => {
                self.outboxes.push_reserved(outbox);
                Ok(())
            }
            Err(fault) => Err(fault),
        }
    }

    /// The oldest transaction whose wait would be granted after the group.
    pub fn ready(&self) -> Option<TxnId>
        ensures { result ≡ ready (claims (seen_ahead self.now).core.memory.rows) }
    {
        self.lead.state.ready()
    }

    /// A transaction that is decided and not settled after the group, of the least timestamp, with it.
    pub fn earliest_decided(&self) -> Option<(TxnId, Stamp)>
        ensures { IsEarliest (gather decided_row (seen_ahead self.now).core.memory.rows) result }
    {
        self.lead.state.earliest_decided()
    }

    /// Gives how many bytes its append writes after the closed gate: none if none of its inputs has a record.
    pub fn len(&self) -> u64
        ensures { result ≡ length (group_bytes (seen_ahead self.now).records) }
    {
        self.lead.group.len()
    }

    /// Appends the records of all inputs by the four calls of one append, and hands out what they put out, in the order of the inputs. It
    /// takes no memory. If the device fails nothing is handed out, and the core is halted.
    pub fn commit(self) -> Result<(Core<D>, Vec<Outbox>), Halted<D>>
        ensures stepped { IfOk result (λ done. (from : CoreView D) → (arrivals : List Arrival)
            → IsAheadOf D.file D.clock D.since D.failures from (seen_ahead self) arrivals
            → HasSteppedAll D.keeps_model D.file D.clock D.since D.failures from
            (seen done.0) arrivals done.1.items) }
        ensures book { IfOk result (λ done. book_of done.0 ≡ None) }
        ensures halted { IfErr result (λ halted. (from : CoreView D) → (arrivals : List Arrival)
            → IsAheadOf D.file D.clock D.since D.failures from (seen_ahead self) arrivals
            → HasHalted D.keeps_model D.file D.clock D.since D.failures from
            (seen_halted halted) arrivals) }
    {
        let Ahead {
            lead,
            outboxes,
            served,
            versions,
            begun,
        } = self;
        match lead.land() {
            Ok(machine) => Ok((
                Core {
                    machine,
                    book: None,
                    begun,
                },
                outboxes,
            )),
            Err((gate_log, state)) => {
                drop(outboxes);
                Err(Halted {
                    gate_log,
                    state,
                    served,
                    versions,
                })
            }
        }
    }
}
