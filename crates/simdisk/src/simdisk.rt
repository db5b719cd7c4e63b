//! A disk in memory, for tests.
ghost use Rattle.std.specs.Prelude.{◌≡◌, ◌+◌, ℕ, [], ◌∷◌, length};

use crate::buffers::Buffers;
use crate::choice::Choice;
use counts::{Count, Past};
use disk::{Disk, FailurePlan};
use std::alloc::Global;
use units::Fault;

/// A file in memory. A change fails with `Device` if there is no memory for it, and each call fails if the plan says
/// so.
pub struct SimDisk {
    buffers: Buffers,
    past: Past<Buffers>,
    plan: FailurePlan,
    failures: Count,
}

impl Drop for SimDisk {
    fn drop(self) {
        let SimDisk {
            buffers: _,
            past: _,
            plan: _,
            failures: _,
        } = self;
    }
}

impl SimDisk {
    ghost use Rattle.disk.specs.declared.plan.FailurePlan.TheVariants.{Never, After};
    ghost use Rattle.disk.specs.Image.{MayLeave};
    ghost use Rattle.disk.specs.File.{File, surface, crash_leaves};
    ghost use Rattle.disk.specs.Moments.{Elapses};
    ghost use Rattle.simdisk.specs.Replay.{settled};
    ghost use Rattle.simdisk.specs.State.{disk_file, disk_past, disk_plan, disk_failures, DiskHasRoom, disk_clock, LeftSince};

    /// Makes an empty file.
    pub fn new(alloc: Global) -> SimDisk
        ensures empty { disk_file result ≡ settled [] }
        ensures plan { disk_plan result ≡ FailurePlan.Never }
        ensures failures { disk_failures result ≡ 0 }
    {
        SimDisk {
            buffers: Buffers::new(alloc),
            past: Past::none(),
            plan: FailurePlan::Never,
            failures: Count::none(),
        }
    }

    /// Crashes the disk now: each change that is not synced comes out by its fate in the choice. No call is to fail
    /// any more.
    pub fn crash(self, choice: &Choice) -> SimDisk
        ensures image { disk_file result ≡ settled (crash_leaves choice.now (disk_file self)) }
        ensures may { MayLeave (surface (disk_file self))
            (crash_leaves choice.now (disk_file self)) }
        ensures plan { disk_plan result ≡ FailurePlan.Never }
        ensures failures { disk_failures result ≡ disk_failures self }
        ensures time { Elapses disk_file disk_clock LeftSince disk_failures self result }
    {
        let SimDisk {
            mut buffers,
            mut past,
            plan: _,
            failures,
        } = self;
        past.add(&buffers);
        buffers.crash(choice.fates());
        SimDisk {
            buffers,
            past,
            plan: FailurePlan::Never,
            failures,
        }
    }

    /// Plans a failure, for tests. Of the calls `read_at`, `write_at`, `cut` and `sync`, the one that comes so many
    /// calls from now fails once; 0 is the next.
    pub fn fail_next(&mut self, calls: u64)
        ensures plan { disk_plan self.new ≡ FailurePlan.After calls }
        ensures same { disk_file self.new ≡ disk_file self.old }
        ensures failures { disk_failures self.new ≡ disk_failures self.old }
        ensures room { (more bytes : ℕ) → DiskHasRoom self.old more bytes
            → DiskHasRoom self.new more bytes }
        ensures time { Elapses disk_file disk_clock LeftSince disk_failures self.old self.new }
    {
        self.plan = FailurePlan::After(calls);
    }
}

impl Disk for SimDisk {
    ghost use Rattle.disk.proofs.Crashes.{seen_may};
    ghost use Rattle.simdisk.specs.Held.{room_less};
    ghost use Rattle.simdisk.specs.Moments.{left_now};
    ghost use Rattle.simdisk.specs.State.{disk_file, disk_past, disk_plan, disk_failures, DiskHasRoom, disk_clock, LeftSince};
    ghost use Rattle.std.proofs.Common.{inl};

    ghost keeps_model = { Unit {0} };

    ghost obeys = { Unit {0} };

    ghost file = { λ d. disk_file d };

    ghost clock = { λ d. disk_clock d };

    ghost since = { λ d moment image. LeftSince d moment image };

    ghost failures = { λ d. disk_failures d };

    ghost plan = { λ d. disk_plan d };

    ghost has_room = { λ d calls bytes. DiskHasRoom d calls bytes };

    ghost room_less = { λ d calls bytes fewer less few small room.
        room_less d.buffers calls bytes fewer less few small room };

    ghost counts_now = { λ d moment image le may. inl (le, may) };

    ghost reads_now = { λ d. seen_may (disk_file d) };

    ghost only_now = { λ d image left. left_now (disk_file d) (disk_past d) image left };

    fn len(&self) -> u64 {
        self.buffers.seen.len() as u64
    }

    fn reserve(&mut self, bytes: u64) -> Result<(), Fault> {
        self.buffers.reserve(bytes as usize)?;
        Ok(())
    }

    fn read_at(&mut self, at: u64, buffer: &mut [u8]) -> Result<(), Fault> {
        if self.plan.call() {
            self.failures.rise();
            return Err(Fault::Device);
        }
        let from = at as usize;
        buffer.copy_from_slice(&self.buffers.seen[from..from + buffer.len()]);
        Ok(())
    }

    fn write_at(&mut self, at: u64, bytes: &[u8]) -> Result<(), Fault> {
        self.past.add(&self.buffers);
        if self.plan.write() {
            let _ = self.buffers.try_write(at as usize, bytes);
            self.failures.rise();
            return Err(Fault::Device);
        }
        match self.buffers.write(at as usize, bytes) {
            Ok(()) => Ok(()),
            Err(_) => {
                self.failures.rise();
                Err(Fault::Device)
            }
        }
    }

    fn cut(&mut self, len: u64) -> Result<(), Fault> {
        self.past.add(&self.buffers);
        if self.plan.call() {
            self.failures.rise();
            return Err(Fault::Device);
        }
        match self.buffers.cut(len) {
            Ok(()) => Ok(()),
            Err(_) => {
                self.failures.rise();
                Err(Fault::Device)
            }
        }
    }

    fn sync(&mut self) -> Result<(), Fault> {
        self.past.add(&self.buffers);
        if self.plan.call() {
            self.failures.rise();
            return Err(Fault::Device);
        }
        self.buffers.sync();
        Ok(())
    }

    fn arm(&mut self, call: Option<u64>) {
        self.plan = FailurePlan::armed(call);
    }
}
