//! A disk in memory on a slow device.
use crate::clients::disks_of;
use disk::Disk;
use simdisk::SimDisk;
use std::alloc::Global;
use std::process::Abort;
use std::time::Duration;
use std::{thread, time};
use units::Fault;

/// A disk in memory whose syncs are slow.
#[derive(Drop)]
pub struct Slow<'a, R> {
    /// The disk in memory.
    pub disk: SimDisk,
    /// The runtime by which it waits.
    pub rt: &'a R,
    /// How many milliseconds each sync takes.
    pub millis: u64,
}

/// Makes so many slow disks with an empty log.
pub fn slow_disks<'r, R: Abort>(
    rt: &'r R,
    alloc: Global,
    logs: usize,
    millis: u64,
) -> Vec<Slow<'r, R>> {
    let mut slow = Vec::new(alloc);
    for disk in disks_of(rt, alloc, logs) {
        let pushed = slow.push(Slow { disk, rt, millis });
        pushed.ok().expect(rt, "memory");
    }
    slow
}

impl<R: time::Clock> Disk for Slow<'_, R> {
    ghost use Rattle.std.proofs.Common.{inl};
    ghost use Rattle.disk.proofs.Crashes.{seen_may};
    ghost use Rattle.disk.specs.declared.plan.FailurePlan.TheVariants.{Never};
    ghost use Rattle.simdisk.specs.Moments.{left_now};
    ghost use Rattle.simdisk.specs.State.{disk_file, disk_past, disk_failures, disk_clock, LeftSince};

    ghost keeps_model = { Unit {0} };

    // No plan says which calls fail.
    ghost obeys = { ⊥ };

    ghost file = { λ d. disk_file d.disk };

    ghost clock = { λ d. disk_clock d.disk };

    ghost since = { λ d moment image. LeftSince d.disk moment image };

    ghost failures = { λ d. disk_failures d.disk };

    ghost plan = { λ d. Never };

    ghost has_room = { λ d calls bytes. ⊥ };

    ghost room_less = { λ d calls bytes fewer less few small room. room };

    ghost counts_now = { λ d moment image le may. inl (le, may) };

    ghost reads_now = { λ d. seen_may (disk_file d.disk) };

    ghost only_now = { λ d image left. left_now (disk_file d.disk) (disk_past d.disk) image left };

    fn len(&self) -> u64 {
        self.disk.len()
    }

    fn reserve(&mut self, bytes: u64) -> Result<(), Fault> {
        self.disk.reserve(bytes)
    }

    fn read_at(&mut self, at: u64, buffer: &mut [u8]) -> Result<(), Fault> {
        self.disk.read_at(at, buffer)
    }

    fn write_at(&mut self, at: u64, bytes: &[u8]) -> Result<(), Fault> {
        self.disk.write_at(at, bytes)
    }

    fn cut(&mut self, len: u64) -> Result<(), Fault> {
        self.disk.cut(len)
    }

    fn sync(&mut self) -> Result<(), Fault> {
        thread::sleep(self.rt, Duration::from_millis(self.millis));
        self.disk.sync()
    }

    fn arm(&mut self, _call: Option<u64>) {}
}
