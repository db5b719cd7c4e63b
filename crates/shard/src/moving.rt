//! A renewed log is written into another file, and its core goes on there.
ghost use Rattle.std.specs.Prelude.{◌≡◌, Ok, false, IsFalse, IfOk, IfErr, OnOk};
ghost use Rattle.disk.specs.File.{surface};
ghost use Rattle.gatelog.specs.Shown.{disk_of, gate_at, next_slot, is_stopped};
ghost use Rattle.shard.specs.Beginnings.{begun_anew};
ghost use Rattle.shard.specs.Logs.{KeepsRecords};
ghost use Rattle.shard.specs.Moved.{HoldsRenewal, IsUnmade, moved_to};

use crate::begun::Begun;
use crate::machine::Machine;
use crate::shard_core::Core;
use disk::Disk;
use gatelog::{Area, GateLog};
use ledger::turned_keeps;
use std::alloc::Global;
use units::Fault;

impl<D: Disk> Core<D> {
    ghost use Rattle.shard.specs.Core.{seen, book_of, begun_of};

    /// Writes a renewed log of the core's facts into another file, whatever was in that. The core and its own file stay as they are. A
    /// refusal returns the disk of the other file: `Stopped`, `Memory`, `Device` if its device failed, or `TimeSpent` if the log would grow
    /// beyond 2^40 bytes.
    pub fn renew_into(&self, alloc: Global, to: D) -> Result<GateLog<D>, (Fault, D)>
        // From then on every crash leaves the records of the renewed log there.
        ensures durable { IfOk result (λ made. D.keeps_model → HoldsRenewal
            (surface (D.file (disk_of made))) (seen self.now).facts) }
        ensures running { IfOk result
            (λ made. IsFalse (seen self.now).stopped × IsFalse (is_stopped made)) }
        ensures slot { IfOk result (λ made. next_slot made ≡ 1) }
        ensures cause { IfErr result
            (λ refused. IsUnmade (seen self.now).stopped refused.0) }
    {
        self.machine.renew_into(alloc, to)
    }

    /// Goes on in another log, which holds a renewed log of the core's facts (`renew_into`) and begins there. The former disk comes back as it is.
    /// All else of the core stays.
    pub fn move_to(self, log: GateLog<D>) -> (Core<D>, D)
        requires running { IsFalse (is_stopped log) }
        requires durable { D.keeps_model
            → HoldsRenewal (surface (D.file (disk_of log))) (seen self).facts }
        ensures moved { seen result.0 ≡ moved_to (seen self) (disk_of log) (gate_at log)
            (next_slot log) }
        ensures book { book_of result.0 ≡ book_of self }
        ensures begun { begun_of result.0 ≡ begun_anew (gate_at log) }
        ensures former { result.1 ≡ (seen self).disk }
    {
        let Core {
            machine,
            book,
            begun: _,
        } = self;
        let begun = Begun::anew(log.gate());
        let (machine, former) = machine.move_to(log);
        let core = Core {
            machine,
            book,
            begun,
        };
        (core, former)
    }
}

impl<D: Disk> Machine<D> {
    ghost use Rattle.shard.specs.Core.{seen_machine};

    // Writes a renewed log of the facts into another file.
    fn renew_into(&self, alloc: Global, to: D) -> Result<GateLog<D>, (Fault, D)>
        ensures durable { IfOk result (λ made. D.keeps_model → HoldsRenewal
            (surface (D.file (disk_of made))) (seen_machine self.now).facts) }
        ensures running { IfOk result
            (λ made. IsFalse (seen_machine self.now).stopped × IsFalse (is_stopped made)) }
        ensures slot { IfOk result (λ made. next_slot made ≡ 1) }
        ensures cause { IfErr result
            (λ refused. IsUnmade (seen_machine self.now).stopped refused.0) }
    {
        if self.gate_log.is_stopped() {
            return Err((Fault::Stopped, to));
        }
        let area = match self.new_area(alloc) {
            Ok(area) => area,
            Err(fault) => return Err((fault, to)),
        };
        let mut made = match GateLog::format(to) {
            Ok(made) => made,
            Err((fault, to)) => {
                drop(area);
                return Err((fault, to));
            }
        };
        match fill(&mut made, area) {
            Ok(()) => Ok(made),
            Err(fault) => Err((fault, made.into_disk())),
        }
    }

    // Goes on in another log, which holds a renewed log of the facts.
    fn move_to(self, log: GateLog<D>) -> (Machine<D>, D)
        requires running { IsFalse (is_stopped log) }
        requires durable { D.keeps_model
            → HoldsRenewal (surface (D.file (disk_of log))) (seen_machine self).facts }
        ensures moved { seen_machine result.0 ≡ moved_to (seen_machine self) (disk_of log)
            (gate_at log) (next_slot log) }
        ensures former { result.1 ≡ (seen_machine self).disk }
    {
        turned_keeps();
        let Machine { gate_log, state } = self;
        let machine = Machine {
            gate_log: log,
            state,
        };
        (machine, gate_log.into_disk())
    }
}

// Turns an empty log over to an area.
fn fill<D: Disk>(log: &mut GateLog<D>, area: Area) -> Result<(), Fault>
    requires running { IsFalse (is_stopped log.old) }
    requires slot { next_slot log.old ≡ 0 }
    ensures durable { OnOk result (D.keeps_model
        → KeepsRecords (surface (D.file (disk_of log.new))) (Ok area)) }
    ensures running { OnOk result (IsFalse (is_stopped log.new)) }
    ensures slot { OnOk result (next_slot log.new ≡ 1) }
    ensures cause { IfErr result (IsUnmade false) }
{
    match log.stage_area(area) {
        Ok(staged) => log.turn_over(staged),
        Err(fault) => Err(fault),
    }
}
