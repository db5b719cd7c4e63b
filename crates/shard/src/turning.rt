//! How a log is turned over: its records are made anew from the core's facts.
ghost use Rattle.std.specs.Prelude.{◌≡◌, ◌≤◌, Err, IsFalse, IfOk, IfErr};
ghost use Rattle.gatelog.specs.Slots.{slot_count};
ghost use Rattle.ledger.specs.Turned.{turned};
ghost use Rattle.shard.specs.Turned.{HasTurned};

use crate::machine::Machine;
use disk::Disk;
use gatelog::Area;
use ledger::{Recorder, turned_keeps};
use record::Record;
use std::alloc::Global;
use units::Fault;

// How many slots a file has, of which each turnover takes one.
const SLOTS: u64 = 1024;

// The area that gets the records of a renewed log.
#[derive(Drop)]
struct Renewing {
    area: Area,
}

impl Recorder for Renewing {
    ghost records = { λ renewing. renewing.area };

    fn record(&mut self, _alloc: Global, item: &Record) -> Result<(), Fault> {
        self.area.push(item)
    }
}

impl<D: Disk> Machine<D> {
    ghost use Rattle.shard.specs.Core.{seen_machine};

    // Makes the area of a renewed log from the facts.
    pub(crate) fn new_area(&self, alloc: Global) -> Result<Area, Fault>
        ensures records { IfOk result (λ area. area ≡ turned self.now.state.facts) }
        ensures memory { IfErr result (λ fault. fault ≡ Fault.Memory) }
    {
        let mut renewing = Renewing {
            area: Area::new(alloc),
        };
        match self.state.renew(alloc, &mut renewing) {
            Ok(()) => {
                let Renewing { area } = renewing;
                Ok(area)
            }
            Err(fault) => {
                drop(renewing);
                Err(fault)
            }
        }
    }

    // Puts a renewed log in place of the log. All memory is taken before. If no slot is left, no record is made.
    pub(crate) fn turn_over(&mut self, alloc: Global) -> Result<(), Fault>
        ensures turned { HasTurned D.keeps_model D.obeys D.file D.clock D.since D.failures D.plan
            (seen_machine self.old) (seen_machine self.new) result }
        ensures spent { IsFalse (seen_machine self.old).stopped
            → slot_count ≤ (seen_machine self.old).slot → result ≡ Err Fault.TimeSpent }
    {
        turned_keeps();
        if self.gate_log.is_stopped() {
            return Err(Fault::Stopped);
        }
        if self.gate_log.slot() >= SLOTS {
            return Err(Fault::TimeSpent);
        }
        let area = match self.new_area(alloc) {
            Ok(area) => area,
            Err(fault) => return Err(fault),
        };
        match self.gate_log.stage_area(area) {
            Ok(staged) => self.gate_log.turn_over(staged),
            Err(fault) => Err(fault),
        }
    }
}
