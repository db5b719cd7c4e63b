//! The records of a log, read and encoded.
ghost use Rattle.std.specs.Prelude.{◌≡◌, ◌⊎◌, ◌≤◌, ◌<◌, Ok, Err, map, reverse, IsTrue, IfOk, IfErr};
ghost use Rattle.disk.specs.File.{surface};
ghost use Rattle.disk.specs.Image.{MayLeave, after_sync};
ghost use Rattle.disk.specs.Moments.{LeavesOnly};
ghost use Rattle.gatelog.specs.Log.{log, is_no_log};
ghost use Rattle.compaction.specs.Compacted.{records_in};

use counts::Past;
use disk::Disk;
use gatelog::{Area, Entry, GateLog, Sink};
use std::alloc::Global;
use units::Fault;

// Encodes the records of a log, one by one.
#[derive(Drop)]
struct Gathering {
    area: Area,
    entries: Past<Entry>,
    ghost same: { area ≡ map (λ e. e.item) (reverse entries.entries) },
}

impl Sink for Gathering {
    ghost Told = { Unit {0} };

    ghost told = { λ gathering. tt };

    ghost taken = { λ gathering. reverse gathering.entries.entries };

    fn take(&mut self, _alloc: Global, entry: Entry) -> Result<(), Fault> {
        let pushed = self.area.push(entry.item());
        if pushed.is_ok() {
            self.entries.add(&entry);
        }
        drop(entry);
        pushed
    }
}

/// The records of a log, as their bytes, with the disk that holds it.
#[derive(Drop)]
pub struct Gathered<D: Disk> {
    disk: D,
    area: Area,
    ghost same: { D.keeps_model → records_in (surface (D.file disk)).seen ≡ Ok area },
}

impl<D: Disk> Gathered<D> {
    ghost use Rattle.compaction.specs.Shown.{source_of};

    /// Reads a log. It syncs the file before, and writes nothing to it. A refusal returns the disk: `Device` if it failed, `Memory`, or
    /// what is wrong with the log.
    pub fn of(alloc: Global, disk: D) -> Result<Gathered<D>, (Fault, D)>
        ensures log { IfOk result (λ gathered. D.keeps_model
            → log (surface (D.file (source_of gathered))).seen ≡ log (surface (D.file disk)).seen) }
        ensures synced { IfOk result (λ gathered. D.keeps_model
            → surface (D.file (source_of gathered)) ≡ after_sync (surface (D.file disk))) }
        // A crash at any moment of the call leaves no more than one before it.
        ensures any_moment { IfOk result (λ gathered. D.keeps_model
            → LeavesOnly D.clock D.since disk (source_of gathered)
            (MayLeave (surface (D.file disk)))) }
        ensures refused_moment { IfErr result (λ refused. D.keeps_model
            → LeavesOnly D.clock D.since disk refused.1 (MayLeave (surface (D.file disk)))) }
        ensures cause { IfErr result (λ refused. (refused.0 ≡ Fault.Memory)
            ⊎ (((refused.0 ≡ Fault.Device) × (D.failures disk < D.failures refused.1))
            ⊎ (IsTrue (is_no_log refused.0)
            × (D.keeps_model → log (surface (D.file disk)).seen ≡ Err refused.0)))) }
        // Refused, but for `Device`, the file reads as it did.
        ensures unchanged { IfErr result (λ refused. (refused.0 ≡ Fault.Device)
            ⊎ (D.keeps_model → (surface (D.file refused.1)).seen ≡ (surface (D.file disk)).seen)) }
        ensures failures_stay { IfOk result
            (λ gathered. D.failures disk ≤ D.failures (source_of gathered)) }
    {
        let mut gathering = Gathering {
            area: Area::new(alloc),
            entries: Past::none(),
        };
        match GateLog::scan(alloc, disk, &mut gathering) {
            Ok(log) => {
                let Gathering { area, entries: _ } = gathering;
                Ok(Gathered {
                    disk: log.into_disk(),
                    area,
                })
            }
            Err(refused) => {
                drop(gathering);
                Err(refused)
            }
        }
    }

    // The disk and the records.
    pub(crate) fn into_parts(self) -> (D, Area)
        ensures disk { result.0 ≡ source_of self }
        ensures records { D.keeps_model
            → records_in (surface (D.file (source_of self))).seen ≡ Ok result.1 }
    {
        let Gathered { disk, area } = self;
        (disk, area)
    }
}
