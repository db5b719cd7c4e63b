//! A step is staged, and then committed. Staging takes all memory and writes nothing.
ghost use Rattle.std.specs.Prelude.{◌≡◌, IsFalse, IfOk, IfErr, Err};
ghost use Rattle.disk.specs.File.{surface};
ghost use Rattle.shard.specs.Armed.{HasPlace};
ghost use Rattle.shard.specs.Due.{IsDue};
ghost use Rattle.shard.specs.Logs.{records_in, KeepsRecords};
ghost use Rattle.shard.specs.On.{HasStepped};

use crate::logging::{append_staged, stage_record};
use crate::machine::Machine;
use disk::Disk;
use gatelog::Staged;
use ledger::{alike_stays, lasting_follows};
use memory::{Plan, Ready, Step, ready_plans_can_be_carried};
use message::Outbox;
use std::alloc::Global;
use units::Fault;

// A step for which all memory is taken, with its record ready for the log, if it has one. It has to be spent, by `commit`.
pub(crate) struct StagedStep {
    plan: Plan,
    frame: Option<Staged>,
    ready: Ready,
}

impl<D: Disk> Machine<D> {
    ghost use Rattle.shard.specs.Core.{seen_machine};
    ghost use Rattle.shard.specs.Staged.{IsReady, IsStaged, does, seen_unstaged, step_staged};

    // Takes all the memory of a step, in the log and in the state. A transaction that asks for locks gets a row if it has none. Nothing is
    // written, and a refusal leaves all as it was.
    pub(crate) fn stage(&mut self, alloc: Global, step: Step) -> Result<StagedStep, Fault>
        requires running { IsFalse (seen_machine self.old).stopped }
        requires stands { D.keeps_model
            → KeepsRecords (surface (D.file (seen_machine self.old).disk))
            (records_in (surface (D.file (seen_machine self.old).disk)).seen) }
        requires due { IsDue self.old.state step }
        ensures staged { IfOk result
            (IsStaged D.keeps_model D.obeys D.file D.has_room D.clock D.since D.failures D.plan
            (seen_machine self.old) (seen_machine self.new) self.new.state step) }
        ensures refused { IfErr result
            (λ fault. HasStepped D.keeps_model D.obeys D.file D.clock D.since D.failures D.plan
            (seen_machine self.old) (seen_machine self.new)
            (does step (seen_machine self.old).memory) (Err fault)) }
        ensures order { IfErr result (λ fault. fault ≡ Fault.Memory
            → HasPlace (seen_machine self.old).gate step.logged) }
    {
        ready_plans_can_be_carried();
        let Step { plan, logged } = step;
        let frame = match stage_record(&mut self.gate_log, alloc, logged) {
            Ok(frame) => frame,
            Err(fault) => {
                drop(plan);
                return Err(fault);
            }
        };
        match self.state.make_ready(alloc, &plan) {
            Ok(ready) => Ok(StagedStep { plan, frame, ready }),
            Err(fault) => {
                drop(plan);
                drop(frame);
                Err(fault)
            }
        }
    }

    // Appends the record of a staged step, if it has one, and carries out its plan. It takes no memory. If the device fails, the staged row
    // is taken back, and the log is stopped.
    pub(crate) fn commit(&mut self, staged: StagedStep) -> Result<Outbox, Fault>
        requires { IsReady D.keeps_model D.obeys D.file D.has_room
            (seen_machine self.old) self.old.state staged }
        ensures stepped { HasStepped D.keeps_model D.obeys D.file D.clock D.since D.failures D.plan
            (seen_unstaged (seen_machine self.old) staged) (seen_machine self.new)
            (does (step_staged staged) (seen_unstaged (seen_machine self.old) staged).memory)
            result }
        ensures device { IfErr result (λ fault. fault ≡ Fault.Device) }
    {
        ready_plans_can_be_carried();
        alike_stays();
        lasting_follows();
        let StagedStep { plan, frame, ready } = staged;
        let Some(frame) = frame else {
            return Ok(self.state.carry(plan, None));
        };
        match append_staged(&mut self.gate_log, frame) {
            Ok(logged) => Ok(self.state.carry(plan, Some(logged.note()))),
            Err(fault) => {
                self.state.undo(&plan, ready);
                drop(plan);
                Err(fault)
            }
        }
    }
}
