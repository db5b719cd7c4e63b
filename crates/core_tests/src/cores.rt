//! How tests open cores.
use disk::Disk;
use gatelog::GateLog;
use made::key;
use node::Core;
use simdisk::SimDisk;
use std::alloc::Global;
use std::process::Abort;
use units::{Book, Capacity, Fault, Setup, ShardNo, Splits, Stride};

/// The settings with which a core is opened.
#[derive(Clone, Copy)]
pub struct Setting {
    pub shard: u8,
    pub stride: u64,
    // Whether it has all keys.
    pub alone: bool,
    // The capacity of its book, or 0 if it keeps none.
    pub capacity: u32,
    // A device call of its next append that will fail, by its number from 0.
    pub fails: Option<u64>,
}

/// Makes the settings of a core without a book, on a disk that does not fail.
pub fn plain(shard: u8, stride: u64) -> Setting {
    Setting {
        shard,
        stride,
        alone: false,
        capacity: 0,
        fails: None,
    }
}

/// Makes the setup of a shard: one of two, which are split at `m`, or one alone.
pub fn setup(rt: &impl Abort, alloc: Global, setting: Setting) -> Setup {
    let shard = ShardNo::new(setting.shard).expect(rt, "a shard");
    let stride = Stride::new(setting.stride).expect(rt, "a stride");
    let book = match Capacity::new(setting.capacity) {
        Some(capacity) => Book::On(capacity),
        None => Book::Off,
    };
    let split = [key(b'm')];
    let parts: usize = if setting.alone { 0 } else { 1 };
    let splits = Splits::new(alloc, &split[..parts]).expect(rt, "splits");
    Setup {
        shard,
        splits,
        stride,
        book,
    }
}

/// Makes a new disk with an empty log.
pub fn formatted(rt: &impl Abort, alloc: Global) -> SimDisk {
    let log = GateLog::format(SimDisk::new(alloc)).ok();
    log.expect(rt, "a log").into_disk()
}

/// Makes a disk with these bytes.
pub fn disk_with(rt: &impl Abort, alloc: Global, bytes: &[u8]) -> SimDisk {
    let mut disk = SimDisk::new(alloc);
    disk.write_at(0, bytes).ok().expect(rt, "a write");
    disk
}

/// Returns the bytes of a disk.
pub fn bytes_on(rt: &impl Abort, alloc: Global, disk: &mut SimDisk) -> Vec<u8> {
    let mut bytes = vec![in alloc; 0u8; disk.len() as usize]
        .ok()
        .expect(rt, "memory");
    disk.read_at(0, &mut bytes).expect(rt, "a read");
    bytes
}

/// Opens the core of a shard on a disk, or returns why it is refused, and the disk.
pub fn opened(
    rt: &impl Abort,
    alloc: Global,
    disk: SimDisk,
    setting: Setting,
) -> Result<Core<SimDisk>, (Fault, SimDisk)> {
    match Core::open(alloc, disk, setup(rt, alloc, setting)) {
        Ok(mut core) => {
            core.arm(setting.fails);
            Ok(core)
        }
        Err(refused) => Err(refused),
    }
}

/// Opens the core of a shard on a disk, and ends the test if that is refused.
pub fn core_of(rt: &impl Abort, alloc: Global, disk: SimDisk, setting: Setting) -> Core<SimDisk> {
    match opened(rt, alloc, disk, setting) {
        Ok(core) => core,
        Err(refused) => {
            drop(refused);
            rt.panic("no core")
        }
    }
}
