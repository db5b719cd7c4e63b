//! The log of a shard, with the state in memory.
ghost use Rattle.std.specs.Prelude.{◌≡◌, ◌⊎◌, ◌<◌, ◌+◌, ◌^◌, [], ◌∷◌, Some, Ok, Err, IsTrue, IsFalse, IfOk, IfErr, OnOk, ◌≤◌};
ghost use Rattle.disk.specs.File.{surface};
ghost use Rattle.gatelog.specs.Frames.{IsFull};
ghost use Rattle.gatelog.specs.Shown.{disk_of, gate_at, next_slot, is_stopped};
ghost use Rattle.memory.specs.Kept.{start_of};
ghost use Rattle.memory.specs.Plans.{plan_of};
ghost use Rattle.protocol.specs.Rows.{rebuilt};
ghost use Rattle.protocol.specs.Plan.{carried};
ghost use Rattle.protocol.specs.Step.{Does, plan_input};
ghost use Rattle.protocol.specs.Sound.{IsSound};
ghost use Rattle.record.specs.Facts.{facts_of, learn};
ghost use Rattle.protocol.specs.Showable.{IsShowable};
ghost use Rattle.ledger.specs.Keeps.{IsLasting};
ghost use Rattle.shard.specs.Agrees.{AgreesWithLog};
ghost use Rattle.shard.specs.Armed.{HasPlace};
ghost use Rattle.shard.specs.Due.{IsDue};
ghost use Rattle.shard.specs.Logs.{records_in, facts_logged, KeepsRecords};
ghost use Rattle.shard.specs.On.{HasStepped, IsLogFull, step_of};
ghost use Rattle.shard.specs.Opened.{HasAppended, HasNotAppended};

use crate::logging::append_record;
use crate::planning::plan_due;
use disk::Disk;
use gatelog::GateLog;
use memory::{State, Step};
use message::{Input, Outbox};
use protocol::{fresh_is_showable, fresh_is_sound, opening_keeps_sound, own_refusals};
use record::Record;
use std::alloc::Global;
use truetime::Reading;
use units::{Epoch, Fault, Setup};

// The log of a shard, with the state in memory. It is stopped once a device call has failed in it. It has to be spent, by `stop`.
pub(crate) struct Machine<D: Disk> {
    pub(crate) gate_log: GateLog<D>,
    pub(crate) state: State,
    ghost agrees: { D.keeps_model → ∥ AgreesWithLog (is_stopped gate_log) (surface (D.file (disk_of gate_log))) state.facts ∥₁ },
    ghost sound: { ∥ IsSound state.setup.shard state.facts state.memory ∥₁ },
    ghost showable: { IsShowable state.facts state.memory },
    ghost lasting: { ∥ IsLasting state.facts ∥₁ },
}

impl<D: Disk> Machine<D> {
    ghost use Rattle.shard.specs.Core.{seen_machine};

    // Plans the step of an input, or returns why it is refused. It changes nothing.
    pub(crate) fn plan(&self, alloc: Global, now: &Reading, input: &Input) -> Result<Step, Fault>
        ensures running { OnOk result (IsFalse (seen_machine self.now).stopped) }
        ensures stands { OnOk result
            (D.keeps_model → KeepsRecords (surface (D.file (seen_machine self.now).disk))
            (records_in (surface (D.file (seen_machine self.now).disk)).seen)) }
        ensures planned { IfOk result
            (λ step. plan_input self.now.state.setup (start_of self.now.state) now.now input.now ≡
            Ok (plan_of self.now.state.memory.rows step)) }
        ensures due { IfOk result (IsDue self.now.state) }
        ensures refused { IfErr result
            (λ fault. HasStepped D.keeps_model D.obeys D.file D.clock D.since D.failures D.plan
            (seen_machine self.now) (seen_machine self.now)
            (step_of (seen_machine self.now) now.now input.now) (Err fault)) }
    {
        own_refusals();
        if self.gate_log.is_stopped() {
            return Err(Fault::Stopped);
        }
        plan_due(&self.state, alloc, now, input)
    }

    // Whether the log has room for the record of a step, if it has one.
    pub(crate) fn has_place(&self, step: &Step) -> bool
        ensures there { IsTrue result → HasPlace (seen_machine self.now).gate step.now.logged }
        ensures full { IsFalse result → IsLogFull (seen_machine self.now).gate step.now.logged }
    {
        match &step.logged {
            Some(item) => self.gate_log.has_place(item),
            None => true,
        }
    }

    // Stages a step and commits it: its record is logged, if it has one, and its plan carried out.
    pub(crate) fn carry_out(&mut self, alloc: Global, step: Step) -> Result<Outbox, Fault>
        requires running { IsFalse (seen_machine self.old).stopped }
        requires stands { D.keeps_model
            → KeepsRecords (surface (D.file (seen_machine self.old).disk))
            (records_in (surface (D.file (seen_machine self.old).disk)).seen) }
        requires due { IsDue self.old.state step }
        ensures stepped { HasStepped D.keeps_model D.obeys D.file D.clock D.since D.failures D.plan
            (seen_machine self.old) (seen_machine self.new)
            (Does step.logged
            (carried (plan_of self.old.state.memory.rows step) self.old.state.memory)
            step.plan.outbox) result }
        ensures order { IfErr result (λ fault. fault ≡ Fault.Memory
            → HasPlace (seen_machine self.old).gate step.logged) }
    {
        let staged = match self.stage(alloc, step) {
            Ok(staged) => staged,
            Err(fault) => return Err(fault),
        };
        self.commit(staged)
    }

    // Makes a machine of a log without records, and logs the first opening.
    pub(crate) fn begin(
        alloc: Global,
        mut gate_log: GateLog<D>,
        setup: Setup,
    ) -> Result<Machine<D>, (Fault, D)>
        requires running { IsFalse (is_stopped gate_log) }
        requires empty { D.keeps_model
            → records_in (surface (D.file (disk_of gate_log))).seen ≡ Ok [] }
        ensures setup { IfOk result (λ machine. (seen_machine machine).setup ≡ setup) }
        ensures facts { IfOk result
            (λ machine. (seen_machine machine).facts ≡ facts_of (Record.Opened 1 ∷ [])) }
        ensures memory { IfOk result
            (λ machine. (seen_machine machine).memory ≡
            record { last = 0; rows = []; ended = [] }) }
        ensures slot { IfOk result
            (λ machine. (seen_machine machine).slot ≡ next_slot gate_log) }
        ensures appended { IfOk result
            (λ machine. HasAppended D.keeps_model D.obeys D.file D.clock D.since D.failures D.plan
            (disk_of gate_log) (gate_at gate_log) (Record.Opened 1) (seen_machine machine)) }
        ensures refused { IfErr result
            (λ refused. HasNotAppended D.keeps_model D.obeys D.file D.clock D.since D.failures
            D.plan (disk_of gate_log) (gate_at gate_log)
            (Record.Opened 1) (IsFull (gate_at gate_log) (Record.Opened 1)) refused.0 refused.1) }
    {
        fresh_is_sound();
        fresh_is_showable();
        let state = match State::fresh(alloc, setup) {
            Ok(state) => state,
            Err(fault) => return Err((fault, gate_log.into_disk())),
        };
        let first = Record::Opened {
            epoch: Epoch::first(),
        };
        match append_record(&mut gate_log, alloc, first) {
            Ok(logged) => {
                drop(logged.spend());
                Ok(Machine { gate_log, state })
            }
            Err(fault) => {
                state.stop();
                Err((fault, gate_log.into_disk()))
            }
        }
    }

    // Makes a machine of a log and of the state that its records leave, and logs the next opening.
    pub(crate) fn take_up(
        alloc: Global,
        gate_log: GateLog<D>,
        state: State,
    ) -> Result<Machine<D>, (Fault, D)>
        requires running { IsFalse (is_stopped gate_log) }
        requires stands { D.keeps_model
            → KeepsRecords (surface (D.file (disk_of gate_log)))
            (records_in (surface (D.file (disk_of gate_log))).seen) }
        requires known { D.keeps_model
            → facts_logged (records_in (surface (D.file (disk_of gate_log))).seen) ≡
            Some state.facts }
        requires rebuilt { state.memory ≡ rebuilt state.facts }
        requires sound { ∥ IsSound state.setup.shard state.facts state.memory ∥₁ }
        requires showable { IsShowable state.facts state.memory }
        requires lasting { ∥ IsLasting state.facts ∥₁ }
        ensures setup { IfOk result (λ machine. (seen_machine machine).setup ≡ state.setup) }
        ensures facts { IfOk result
            (λ machine. (seen_machine machine).facts ≡ learn state.facts
            (Record.Opened (state.facts.epoch + 1))) }
        ensures memory { IfOk result
            (λ machine. (seen_machine machine).memory ≡ rebuilt
            (learn state.facts (Record.Opened (state.facts.epoch + 1)))) }
        ensures slot { IfOk result
            (λ machine. (seen_machine machine).slot ≡ next_slot gate_log) }
        ensures appended { IfOk result
            (λ machine. HasAppended D.keeps_model D.obeys D.file D.clock D.since D.failures D.plan
            (disk_of gate_log) (gate_at gate_log) (Record.Opened (state.facts.epoch + 1))
            (seen_machine machine)) }
        ensures refused { IfErr result
            (λ refused. HasNotAppended D.keeps_model D.obeys D.file D.clock D.since D.failures
            D.plan (disk_of gate_log) (gate_at gate_log)
            (Record.Opened (state.facts.epoch + 1))
            ((2 ^ 62 ≤ state.facts.epoch + 1)
            ⊎ IsFull (gate_at gate_log)
            (Record.Opened (state.facts.epoch + 1))) refused.0 refused.1) }
    {
        opening_keeps_sound();
        let epoch = match state.epoch().next() {
            Ok(epoch) => epoch,
            Err(fault) => {
                state.stop();
                return Err((fault, gate_log.into_disk()));
            }
        };
        let mut machine = Machine { gate_log, state };
        let last = machine.state.last();
        let step = machine
            .state
            .serves(alloc, Some(Record::Opened { epoch }), last);
        match machine.carry_out(alloc, step) {
            Ok(outbox) => drop(outbox),
            Err(fault) => return Err((fault, machine.stop())),
        }
        Ok(machine)
    }

    // Ends the machine, and returns its disk as it is.
    pub(crate) fn stop(self) -> D
        ensures { result ≡ (seen_machine self).disk }
    {
        let Machine { gate_log, state } = self;
        state.stop();
        gate_log.into_disk()
    }
}
