//! The file of a log, which is read beside whoever writes to it.
ghost use Rattle.std.specs.Prelude.{IfErr, IfSome};
ghost use Rattle.host_files.specs.Folders.{IsSystemFault, IsSystemRefusal};

use crate::owners::{area_of, part_of};
use crate::refused::Refused;
use crate::walking::{End, end_behind};
use disk::Disk;
use filedisk::{Cause, FileDisk};
use gatelog::FIRST_GATE;
use std::alloc::Global;
use std::fs::File;
use std::rt::Files;
use units::Fault;

// How often a file is looked at, while others get its name.
const MOST_LOOKS: u32 = 3;

/// The file of a log. A log that was opened to be read stays as it stood at one moment, while somebody appends to it or renews it. `go_on`
/// moves that moment to the present, also if the log has gone on in another file of its name. A record whose append had not ended by then is not
/// there. A file that holds no log, or a damaged one, reads as it is.
#[derive(Drop)]
pub struct LogFile {
    disk: FileDisk,
    still: Option<Still>,
    // By what name it was opened to be read.
    path: Option<String>,
}

// What a log held at a moment, in what may change later: the bytes before its first gate, and its closed gate.
#[derive(Drop)]
struct Still {
    front: Vec<u8>,
    // The offset of the area that was in force.
    area: u64,
    end: End,
}

impl Still {
    // The area that these bytes at the front of a file name, and the offset at which its records end now.
    fn of(alloc: Global, disk: &mut FileDisk, front: Vec<u8>) -> Result<Option<Still>, Fault>
        ensures { IfErr result IsSystemFault }
    {
        match area_in(disk, &front)? {
            Some(area) => Still::behind(alloc, disk, front, area, area),
            None => Ok(None),
        }
    }

    // The same later, when these bytes are at the front of the file.
    fn later(
        self,
        alloc: Global,
        disk: &mut FileDisk,
        front: Vec<u8>,
    ) -> Result<Option<Still>, Fault>
        ensures { IfErr result IsSystemFault }
    {
        let Still {
            front: former,
            area: before,
            end,
        } = self;
        drop(former);
        match area_in(disk, &front)? {
            Some(area) => {
                let from = if area == before { end.gate } else { area };
                Still::behind(alloc, disk, front, area, from)
            }
            None => Ok(None),
        }
    }

    // With the records from an offset on, at which there is a gate.
    fn behind(
        alloc: Global,
        disk: &mut FileDisk,
        front: Vec<u8>,
        area: u64,
        from: u64,
    ) -> Result<Option<Still>, Fault>
        ensures { IfErr result IsSystemFault }
    {
        match end_behind(alloc, disk, from)? {
            Some(end) => Ok(Some(Still { front, area, end })),
            None => Ok(None),
        }
    }

    // Puts into what was read from an offset on what stood there.
    fn lay_over(&self, at: u64, buffer: &mut [u8]) {
        if let Some(front) = self.front.get(at as usize..) {
            let count = front.len().min(buffer.len());
            buffer[..count].copy_from_slice(&front[..count]);
        }
        if self.end.gate >= at {
            if let Some(gate) = buffer.get_mut((self.end.gate - at) as usize) {
                *gate = self.end.byte;
            }
        }
    }
}

impl LogFile {
    /// Creates a new file, which reads as what is written to it. It is refused if something has that name.
    pub fn create<R: Files<File = File>>(rt: &R, path: &str) -> Result<LogFile, Cause> {
        Ok(LogFile {
            disk: FileDisk::create(rt, path)?,
            still: None,
            path: None,
        })
    }

    /// Opens a file that is there to be read alone, as it stands at a moment of this call. If another file has got its name by then, that one
    /// is looked at instead. After three files it is refused as `Device`: it is being rewritten, so try again.
    pub fn open<R: Files<File = File>>(
        rt: &R,
        alloc: Global,
        path: &str,
    ) -> Result<LogFile, Refused>
        ensures { IfErr result IsSystemRefusal }
    {
        for _ in 0..MOST_LOOKS {
            let mut disk = FileDisk::open_to_read(rt, path)?;
            let still = still_in(alloc, &mut disk);
            if disk.has_name(rt, path) {
                return LogFile::at(alloc, disk, still?, path);
            }
            drop(still);
            drop(disk);
        }
        Err(Refused::from(Cause::Rewritten))
    }

    // A log that stands so, under this name.
    fn at(
        alloc: Global,
        disk: FileDisk,
        still: Option<Still>,
        path: &str,
    ) -> Result<LogFile, Refused>
        ensures { IfErr result IsSystemRefusal }
    {
        let path = format!(in alloc; "{path}")?;
        Ok(LogFile {
            disk,
            still,
            path: Some(path),
        })
    }

    /// Tells why the last call that failed did so.
    pub fn cause(&self) -> Option<Cause> {
        self.disk.cause()
    }

    /// Moves the moment at which the log is read to the present. Returns whether something had been written meanwhile, or the log has gone on in
    /// another file. If not, the log reads as it did, also if something is written during this call: only a later one tells of that.
    pub fn go_on<R: Files<File = File>>(&mut self, rt: &R, alloc: Global) -> Result<bool, Fault>
        ensures { IfErr result IsSystemFault }
    {
        if self.has_grown(alloc)? {
            return Ok(true);
        }
        match self.successor(rt, alloc) {
            Some(Ok(log)) => {
                *self = log;
                Ok(true)
            }
            Some(Err(refused)) => Err(refused.fault),
            None => Ok(false),
        }
    }

    // The file that has got the name of this one since it was opened, if there is another one. It is opened as this one was.
    fn successor<R: Files<File = File>>(
        &self,
        rt: &R,
        alloc: Global,
    ) -> Option<Result<LogFile, Refused>>
        ensures { IfSome result (λ opened. IfErr opened IsSystemRefusal) }
    {
        match &self.path {
            Some(path) if !self.disk.has_name(rt, path) => Some(LogFile::open(rt, alloc, path)),
            _ => None,
        }
    }

    // Moves the moment to the present, in this file.
    fn has_grown(&mut self, alloc: Global) -> Result<bool, Fault>
        ensures { IfErr result IsSystemFault }
    {
        let Some(still) = self.still.take() else {
            return Ok(false);
        };
        let front = part_of(alloc, &mut self.disk, 0, FIRST_GATE)?;
        let gate = part_of(alloc, &mut self.disk, still.end.gate, 1)?;
        let is_same = front == still.front && gate.as_slice() == [still.end.byte].as_slice();
        drop(gate);
        if is_same {
            drop(front);
            self.still = Some(still);
        } else {
            self.still = still.later(alloc, &mut self.disk, front)?;
        }
        Ok(!is_same)
    }
}

// How a log stands in a file.
fn still_in(alloc: Global, disk: &mut FileDisk) -> Result<Option<Still>, Fault>
    ensures { IfErr result IsSystemFault }
{
    let size = disk.len().min(FIRST_GATE);
    let front = part_of(alloc, disk, 0, size)?;
    Still::of(alloc, disk, front)
}

// The area that these bytes at the front of a file name, if it is a log's.
fn area_in(disk: &mut FileDisk, front: &[u8]) -> Result<Option<u64>, Fault>
    ensures { IfErr result IsSystemFault }
{
    let len = disk.measure()?;
    if front.len() as u64 == FIRST_GATE && FIRST_GATE <= len {
        Ok(area_of(front, len))
    } else {
        Ok(None)
    }
}

impl Disk for LogFile {
    ghost use Rattle.disk.proofs.Crashes.{seen_may};
    ghost use Rattle.disk.specs.File.{surface};
    ghost use Rattle.disk.specs.Image.{MayLeave};
    ghost use Rattle.disk.specs.declared.plan.FailurePlan.TheVariants.{Never};
    ghost use Rattle.filedisk.specs.State.{file_failures, unknown};

    // What a file holds, no contract knows.
    ghost keeps_model = { ⊥ };

    ghost obeys = { ⊥ };

    ghost file = { λ d. unknown };

    ghost clock = { λ d. 0 };

    ghost since = { λ d moment image. MayLeave (surface unknown) image };

    ghost failures = { λ d. file_failures d.disk };

    ghost plan = { λ d. Never };

    ghost has_room = { λ d calls bytes. ⊥ };

    ghost room_less = { λ d calls bytes fewer less few small room. room };

    ghost counts_now = { λ d moment image le may. may };

    ghost reads_now = { λ d. seen_may unknown };

    ghost only_now = { λ d image left. left };

    fn len(&self) -> u64 {
        self.disk.len()
    }

    fn reserve(&mut self, bytes: u64) -> Result<(), Fault> {
        self.disk.reserve(bytes)
    }

    fn read_at(&mut self, at: u64, buffer: &mut [u8]) -> Result<(), Fault> {
        self.disk.read_at(at, buffer)?;
        if let Some(still) = &self.still {
            still.lay_over(at, buffer);
        }
        Ok(())
    }

    fn write_at(&mut self, at: u64, bytes: &[u8]) -> Result<(), Fault> {
        self.disk.write_at(at, bytes)
    }

    fn cut(&mut self, len: u64) -> Result<(), Fault> {
        self.disk.cut(len)
    }

    fn sync(&mut self) -> Result<(), Fault> {
        self.disk.sync()
    }

    fn arm(&mut self, _call: Option<u64>) {}
}

// How often logs are gone over until none of them was written to meanwhile. A round is far shorter than what a record takes.
const MOST_ROUNDS: u32 = 100_000;

/// Makes logs read as all of them stand at one moment, although they were opened one after the other while somebody may write to them.
/// `Device` if they were written to in each of 100,000 rounds. In the last round each is as it was found in the round before. So all of them
/// stood so when the last round began.
pub fn at_one_moment<R: Files<File = File>>(
    rt: &R,
    alloc: Global,
    logs: &mut [LogFile],
) -> Result<(), Fault>
    ensures { IfErr result IsSystemFault }
{
    for _ in 0..MOST_ROUNDS {
        if !go_on(rt, alloc, logs)? {
            return Ok(());
        }
    }
    Err(Fault::from(Cause::Rewritten))
}

// Moves each log to the present. Says whether one of them had been written to.
fn go_on<R: Files<File = File>>(rt: &R, alloc: Global, logs: &mut [LogFile]) -> Result<bool, Fault>
    ensures { IfErr result IsSystemFault }
{
    let mut went = false;
    for log in logs.iter_mut() {
        went = log.go_on(rt, alloc)? || went;
    }
    Ok(went)
}
