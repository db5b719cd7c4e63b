//! Steps on a disk.
use disk::{Disk, Fate};
use std::alloc::Global;
use units::Fault;

/// What is done with a disk.
pub enum Step {
    Write(u64, &'static [u8]),
    Cut(u64),
    Sync,
    Reserve(u64),
    Arm(Option<u64>),
    /// These bytes are read, and they are all.
    Holds(&'static [u8]),
    /// It fails with `Device`: the device fails, or the system refuses.
    Fails(&'static Step),
    /// In memory alone: the call that comes so many calls later fails.
    FailNext(u64),
    /// In memory alone: a crash, by these fates of the changes that are not synced.
    Crash(&'static [Fate]),
    /// On a file alone: a read of at most 4 bytes, a write and a cut, wherever its end is.
    ReadAnywhere(u64, usize),
    WriteAnywhere(u64, &'static [u8]),
    CutAnywhere(u64),
}

/// A disk that does a step in its own way, or as any disk does.
pub trait Stepped: Disk {
    /// Does the step, and gives the answer of its call.
    fn called(&mut self, alloc: Global, step: &Step) -> Result<(), Fault>;
}

/// Checks that these are all the bytes that are read of a disk. `Room` means that they are not.
pub fn read_back<D: Disk>(alloc: Global, disk: &mut D, bytes: &[u8]) -> Result<(), Fault> {
    let Ok(mut found) = Vec::from_elem(alloc, 0u8, disk.len() as usize) else {
        return Err(Fault::Memory);
    };
    let read = disk.read_at(0, &mut found);
    let same = found.as_slice() == bytes;
    drop(found);
    if same { read } else { Err(Fault::Room) }
}

/// Does a step as any disk does, and gives the answer of its call. `Room` comes past the end of the file, and for a
/// step that is not for any disk.
pub fn call_any<D: Disk>(alloc: Global, disk: &mut D, step: &Step) -> Result<(), Fault> {
    match step {
        Step::Write(at, bytes) if *at <= disk.len() => disk.write_at(*at, bytes),
        Step::Cut(len) if *len <= disk.len() => disk.cut(*len),
        Step::Sync => disk.sync(),
        Step::Reserve(bytes) => disk.reserve(*bytes),
        Step::Arm(call) => {
            disk.arm(*call);
            Ok(())
        }
        Step::Holds(bytes) => read_back(alloc, disk, bytes),
        _ => Err(Fault::Room),
    }
}

/// Tells whether each step goes as it says.
pub fn go_well<D: Stepped>(alloc: Global, disk: &mut D, steps: &[Step]) -> bool {
    for step in steps {
        let went = match step {
            Step::Fails(step) => disk.called(alloc, step) == Err(Fault::Device),
            _ => disk.called(alloc, step).is_ok(),
        };
        if !went {
            return false;
        }
    }
    true
}
