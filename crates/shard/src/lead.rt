//! A log, a group for it, and a state that is ahead of it: it has taken in the group's records.
ghost use Rattle.std.specs.Prelude.{◌≡◌, ◌⊎◌, ◌<◌, ◌++◌, [], IsFalse, IfOk, IfErr, OnErr, option_to_list};
ghost use Rattle.disk.specs.File.{surface};
ghost use Rattle.gatelog.specs.Frames.{end_from};
ghost use Rattle.gatelog.specs.Shown.{disk_of, gate_at, next_slot, is_stopped};
ghost use Rattle.ledger.specs.Keeps.{IsLasting};
ghost use Rattle.memory.specs.Plans.{plan_of};
ghost use Rattle.protocol.specs.Plan.{carried};
ghost use Rattle.protocol.specs.Showable.{IsShowable};
ghost use Rattle.protocol.specs.Sound.{IsSound};
ghost use Rattle.protocol.specs.Step.{facts_after};
ghost use Rattle.shard.specs.Groups.{HasGrown, HasWrittenAll, IsAheadOfLog, and_logged_all};
ghost use Rattle.shard.specs.Due.{IsDue};
ghost use Rattle.shard.specs.Logs.{records_in, KeepsRecords};
ghost use Rattle.shard.specs.On.{IsLogFull};

use crate::logging::append_group;
use crate::machine::Machine;
use disk::Disk;
use gatelog::{GateLog, Gathered};
use ledger::{alike_stays, lasting_follows};
use memory::{State, Step, ready_plans_can_be_carried};
use message::Outbox;
use std::alloc::Global;
use units::Fault;

// The log has none of the group's records yet, and its device has not failed. It has to be spent, by `land`.
pub(crate) struct Lead<D: Disk> {
    pub(crate) gate_log: GateLog<D>,
    pub(crate) state: State,
    pub(crate) group: Gathered,
    ghost running: { IsFalse (is_stopped gate_log) },
    ghost placed: { group.gate ≡ gate_at gate_log },
    ghost stands: { D.keeps_model → KeepsRecords (surface (D.file (disk_of gate_log))) (records_in (surface (D.file (disk_of gate_log))).seen) },
    ghost agrees: { D.keeps_model → ∥ IsAheadOfLog (surface (D.file (disk_of gate_log))) group.items state.facts ∥₁ },
    ghost sound: { ∥ IsSound state.setup.shard state.facts state.memory ∥₁ },
    ghost showable: { IsShowable state.facts state.memory },
    ghost lasting: { ∥ IsLasting state.facts ∥₁ },
}

impl<D: Disk> Machine<D> {
    ghost use Rattle.shard.specs.Core.{seen_machine};
    ghost use Rattle.shard.specs.Gathered.{seen_lead};

    // Begins a group of no record.
    pub(crate) fn lead(self, alloc: Global) -> Lead<D>
        requires running { IsFalse (seen_machine self).stopped }
        requires stands { D.keeps_model → KeepsRecords (surface (D.file (seen_machine self).disk))
            (records_in (surface (D.file (seen_machine self).disk)).seen) }
        ensures same { seen_lead result ≡ seen_machine self }
        ensures none { result.group.items ≡ [] }
    {
        let Machine { gate_log, state } = self;
        let group = gate_log.group(alloc);
        Lead {
            gate_log,
            state,
            group,
        }
    }
}

impl<D: Disk> Lead<D> {
    ghost use Rattle.shard.specs.Core.{seen_machine};
    ghost use Rattle.shard.specs.Gathered.{seen_lead};

    // Carries out a step whose record, if it has one, joins the group. All memory is taken before. Refused, all is as it was.
    pub(crate) fn join(&mut self, alloc: Global, step: Step) -> Result<Outbox, Fault>
        requires due { IsDue self.old.state step }
        ensures grown { HasGrown D.file D.clock D.since D.failures
            (seen_lead self.old) (seen_lead self.new) }
        ensures joined { IfOk result (λ out.
            (self.new.state.facts ≡ facts_after self.old.state.facts step.logged)
            × (self.new.state.memory ≡
            carried (plan_of self.old.state.memory.rows step) self.old.state.memory)
            × (self.new.group.items ≡ self.old.group.items ++ option_to_list step.logged)
            × (out ≡ step.plan.outbox)) }
        ensures kept { OnErr result ((self.new.state.facts ≡ self.old.state.facts)
            × (self.new.state.memory ≡ self.old.state.memory)
            × (self.new.group.items ≡ self.old.group.items)) }
        ensures cause { IfErr result (λ fault. (fault ≡ Fault.Memory)
            ⊎ ((fault ≡ Fault.TimeSpent) × IsLogFull
            (end_from (seen_lead self.old).gate self.old.group.items) step.logged)) }
    {
        ready_plans_can_be_carried();
        alike_stays();
        lasting_follows();
        let Step { plan, logged } = step;
        let ready = match self.state.make_ready(alloc, &plan) {
            Ok(ready) => ready,
            Err(fault) => {
                drop(plan);
                drop(logged);
                return Err(fault);
            }
        };
        let Some(item) = logged else {
            return Ok(self.state.carry(plan, None));
        };
        match self.gate_log.gather(alloc, &mut self.group, item) {
            Ok(joined) => Ok(self.state.carry(plan, Some(joined.note()))),
            Err(fault) => {
                self.state.undo(&plan, ready);
                drop(plan);
                Err(fault)
            }
        }
    }

    // Appends the group. If the device fails, the log is stopped, and may have the group or not.
    pub(crate) fn land(self) -> Result<Machine<D>, (GateLog<D>, State)>
        ensures written { IfOk result (λ machine.
            HasWrittenAll D.keeps_model D.file D.clock D.since D.failures
            (seen_lead self) self.group.items (seen_machine machine).disk) }
        ensures durable { IfOk result (λ machine. D.keeps_model →
            KeepsRecords (surface (D.file (seen_machine machine).disk)) (and_logged_all
            (records_in (surface (D.file (seen_lead self).disk)).seen) self.group.items)) }
        ensures read { IfOk result (λ machine. D.keeps_model →
            records_in (surface (D.file (seen_machine machine).disk)).seen ≡ and_logged_all
            (records_in (surface (D.file (seen_lead self).disk)).seen) self.group.items) }
        ensures state { IfOk result (λ machine. (machine.state ≡ self.state)
            × IsFalse (seen_machine machine).stopped
            × ((seen_machine machine).gate ≡ end_from (seen_lead self).gate self.group.items)
            × ((seen_machine machine).slot ≡ (seen_lead self).slot)) }
        ensures failed { IfErr result (λ left. (left.1 ≡ self.state)
            × HasWrittenAll D.keeps_model D.file D.clock D.since D.failures
            (seen_lead self) self.group.items (disk_of left.0)
            × (D.failures (seen_lead self).disk < D.failures (disk_of left.0))) }
    {
        let Lead {
            mut gate_log,
            state,
            group,
        } = self;
        match append_group(&mut gate_log, group) {
            Ok(()) => Ok(Machine { gate_log, state }),
            Err(_) => Err((gate_log, state)),
        }
    }
}
