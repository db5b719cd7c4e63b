//! A disk over a file of the system.
#![tactic(auto)]

ghost use Rattle.std.specs.Prelude.{◌≡◌, ◌+◌, IfOk, IfErr, OnOk, IsTrue, false, length, max};

mod cause;
mod last_cause;
mod names;

pub use cause::{Cause, cause_in, cause_of};
use counts::Count;
use disk::Disk;
pub use last_cause::LastCause;
use names::{is_same, locked, or_cause, plain, sync_folder};
use std::alloc::{AllocError, Global};
use std::fs::{self, File, OpenOptions};
use std::io;
use std::os::unix::fs::FileExt;
use std::rt::Files;
use units::Fault;

/// A file of the system, open for reads and writes at offsets, and locked (`flock`) until it is dropped. The lock
/// keeps out every other `FileDisk` that may write to it, also one of another program. A file that is open for reads
/// alone takes no lock. Calls that a signal interrupts go on, and so do those that move fewer bytes than they are
/// asked for. What the system refuses is a failure, after which the length is measured again.
#[derive(Drop)]
pub struct FileDisk {
    file: File,
    len: u64,
    // Whether it was opened for reads alone.
    read_only: bool,
    // Whether a sync has failed. What it was to write may be lost, though a read still shows it and the system would
    // take the next sync.
    torn: bool,
    // The least offset that it wrote or cut at since the last sync that did not fail.
    unsynced: u64,
    // Whether it was asked for a write or a cut.
    changed: bool,
    failures: Count,
    // Why the last call that failed did so.
    cause: Option<Cause>,
    // The same for others, if anybody asked for it.
    told: Option<LastCause>,
}

impl FileDisk {
    ghost use Rattle.filedisk.specs.State.{Counts, file_length, file_failures, file_is_torn, file_is_changed};

    /// Makes a new file, which is empty. Its name is on the device when this returns, since the folder that it stands
    /// in is synced (`fsync`). It is refused if something has that name already, also a link, or if the system
    /// refuses. A file that was made before the system refused is left.
    pub fn create<R: Files<File = File>>(rt: &R, path: &str) -> Result<FileDisk, Cause>
        ensures length { IfOk result (λ disk. file_length disk ≡ 0) }
        ensures failures { IfOk result (λ disk. file_failures disk ≡ 0) }
        ensures whole { IfOk result (λ disk. file_is_torn disk ≡ false) }
        ensures unchanged { IfOk result (λ disk. file_is_changed disk ≡ false) }
    {
        let file = locked(rt, path, File::create_new(rt, path))?;
        sync_folder(rt, path)?;
        Ok(FileDisk::over(file, 0, false))
    }

    /// Opens a file that is there, for reads and writes. It is refused if nothing has that name, or if a link, a
    /// folder or a device has it. It is refused too if another `FileDisk` has the file open for writes, or if the
    /// system refuses. Once it has the lock, it makes sure that the name is still that of this file.
    pub fn open<R: Files<File = File>>(rt: &R, path: &str) -> Result<FileDisk, Cause>
        ensures failures { IfOk result (λ disk. file_failures disk ≡ 0) }
        ensures whole { IfOk result (λ disk. file_is_torn disk ≡ false) }
        ensures unchanged { IfOk result (λ disk. file_is_changed disk ≡ false) }
    {
        plain(fs::symlink_metadata(rt, path))?;
        let opened = OpenOptions::new().read(true).write(true).open(rt, path);
        let file = locked(rt, path, opened)?;
        let len = plain_len(&file)?;
        Ok(FileDisk::over(file, len, false))
    }

    /// Opens a file that is there for reads alone. It needs no right to write, takes no lock, and does not ask who
    /// has it. If somebody writes meanwhile, a read may mix the bytes of several moments. A link is followed. It is
    /// refused if no plain file has that name, or if the system refuses. It looks at what has the name before it
    /// opens it, so it does not wait for a pipe. Each write and each cut is refused, and a sync does nothing.
    pub fn open_to_read<R: Files<File = File>>(rt: &R, path: &str) -> Result<FileDisk, Cause>
        ensures failures { IfOk result (λ disk. file_failures disk ≡ 0) }
        ensures whole { IfOk result (λ disk. file_is_torn disk ≡ false) }
        ensures unchanged { IfOk result (λ disk. file_is_changed disk ≡ false) }
    {
        plain(fs::metadata(rt, path))?;
        let file = or_cause(File::open(rt, path))?;
        let len = plain_len(&file)?;
        Ok(FileDisk::over(file, len, true))
    }

    /// Opens the file that has a name now in the place of this one, for reads and writes. The lock goes over to it. What was written since the last
    /// sync that did not fail is written once more, so that the next sync waits for it. It is refused as `open` refuses, and then this one comes back
    /// as it was.
    ///
    /// The folder of the file has to be locked, so that nobody takes the lock while it goes over. If somebody does all the same, this one comes back
    /// without it, and takes no write, no cut and no sync any more.
    pub fn open_anew<R: Files<File = File>>(
        self,
        rt: &R,
        path: &str,
    ) -> Result<FileDisk, (Cause, FileDisk)>
        ensures failures { IfOk result (λ disk. file_failures disk ≡ 0) }
        ensures whole { IfOk result (λ disk. file_is_torn disk ≡ false) }
        ensures unchanged { IfOk result (λ disk. file_is_changed disk ≡ false) }
        ensures length { IfErr result (λ refused. file_length refused.1 ≡ file_length self) }
        ensures counted { IfErr result
            (λ refused. file_failures refused.1 ≡ file_failures self) }
        // A sync that failed is not forgotten.
        ensures torn { IfErr result
            (λ refused. IsTrue (file_is_torn self) → IsTrue (file_is_torn refused.1)) }
        ensures changed { IfErr result
            (λ refused. file_is_changed refused.1 ≡ file_is_changed self) }
    {
        let opened = match plain(fs::symlink_metadata(rt, path)) {
            Ok(()) => OpenOptions::new().read(true).write(true).open(rt, path),
            Err(cause) => return Err((cause, self)),
        };
        let _unlocked = self.file.unlock();
        match self.follow(rt, path, opened) {
            Ok(disk) => Ok(disk.told_to(self)),
            Err(cause) => Err((cause, self.locked_again())),
        }
    }

    // Locks a file that was opened in the place of this one, and writes there once more what a sync may have lost of it.
    fn follow<R: Files<File = File>>(
        &self,
        rt: &R,
        path: &str,
        opened: io::Result<File>,
    ) -> Result<FileDisk, Cause>
        ensures failures { IfOk result (λ disk. file_failures disk ≡ 0) }
        ensures whole { IfOk result (λ disk. file_is_torn disk ≡ false) }
        ensures unchanged { IfOk result (λ disk. file_is_changed disk ≡ false) }
    {
        let file = locked(rt, path, opened)?;
        let len = plain_len(&file)?;
        if self.has_name(rt, path) {
            write_again(&file, self.unsynced, len)?;
        }
        let mut disk = FileDisk::over(file, len, false);
        disk.unsynced = self.unsynced;
        Ok(disk)
    }

    // Tells of failures to whom the former one told.
    fn told_to(self, former: FileDisk) -> FileDisk
        ensures failures { file_failures result ≡ file_failures self }
        ensures torn { file_is_torn result ≡ file_is_torn self }
        ensures changed { file_is_changed result ≡ file_is_changed self }
    {
        let mut disk = self;
        let mut former = former;
        disk.told = former.told.take();
        drop(former);
        disk
    }

    // Takes its lock again. If somebody else has it, it takes no write, no cut and no sync any more.
    fn locked_again(self) -> FileDisk
        ensures length { file_length result ≡ file_length self }
        ensures failures { file_failures result ≡ file_failures self }
        ensures torn { IsTrue (file_is_torn self) → IsTrue (file_is_torn result) }
        ensures changed { file_is_changed result ≡ file_is_changed self }
    {
        let mut disk = self;
        if let Err(_) = disk.file.try_lock() {
            disk.read_only = true;
            disk.torn = true;
        }
        disk
    }

    /// Takes the length anew, in bytes: somebody else may have written to a file that was opened for reads alone.
    /// `Device` means that the system refused.
    pub fn measure(&mut self) -> Result<u64, Fault>
        ensures length { IfOk result (λ len. file_length self.new ≡ len) }
        ensures cause { Counts (file_failures self.old) (file_failures self.new) result }
        ensures torn { file_is_torn self.new ≡ file_is_torn self.old }
        ensures changed { file_is_changed self.new ≡ file_is_changed self.old }
    {
        match self.file.metadata() {
            Ok(metadata) => {
                self.len = metadata.len();
                Ok(self.len)
            }
            Err(error) => Err(self.refused(cause_of(&error))),
        }
    }

    /// Gives why the last of its calls that failed did so. `None` means that none has failed.
    pub fn cause(&self) -> Option<Cause> {
        self.cause
    }

    /// Gives why the last of its calls that failed did so, in a form that outlives it: from now on each failure is told there too. Whoever
    /// asked before hears of no more.
    pub fn share_cause(&mut self, alloc: Global) -> Result<LastCause, AllocError>
        ensures length { file_length self.new ≡ file_length self.old }
        ensures failures { file_failures self.new ≡ file_failures self.old }
        ensures torn { file_is_torn self.new ≡ file_is_torn self.old }
        ensures changed { file_is_changed self.new ≡ file_is_changed self.old }
    {
        let told = LastCause::none(alloc)?;
        if let Some(cause) = self.cause {
            told.note(cause);
        }
        self.told = Some(told.share()?);
        Ok(told)
    }

    /// Tells whether a name, or the link of that name, leads to this file.
    pub fn has_name<R: Files>(&self, rt: &R, path: &str) -> bool {
        is_same(&self.file, fs::metadata(rt, path))
    }

    // Makes the disk of a file of which no call has failed yet.
    fn over(file: File, len: u64, read_only: bool) -> FileDisk
        ensures length { file_length result ≡ len }
        ensures failures { file_failures result ≡ 0 }
        ensures whole { file_is_torn result ≡ false }
        ensures unchanged { file_is_changed result ≡ false }
    {
        FileDisk {
            file,
            len,
            read_only,
            torn: false,
            unsynced: u64::MAX,
            changed: false,
            failures: Count::none(),
            cause: None,
            told: None,
        }
    }

    // Counts a call that was refused. The length is then what the system says of it now, or stays if the system says
    // nothing.
    fn refused(&mut self, cause: Cause) -> Fault
        ensures fault { result ≡ Fault.Device }
        ensures failures { file_failures self.new ≡ file_failures self.old + 1 }
        ensures torn { file_is_torn self.new ≡ file_is_torn self.old }
        ensures changed { file_is_changed self.new ≡ file_is_changed self.old }
    {
        self.failures.rise();
        self.cause = Some(cause);
        if let Some(told) = &self.told {
            told.note(cause);
        }
        if let Ok(metadata) = self.file.metadata() {
            self.len = metadata.len();
        }
        Fault::Device
    }
}

impl Disk for FileDisk {
    ghost use Rattle.disk.proofs.Crashes.{seen_may};
    ghost use Rattle.disk.specs.File.{surface};
    ghost use Rattle.disk.specs.Image.{MayLeave};
    ghost use Rattle.disk.specs.declared.plan.FailurePlan.TheVariants.{Never};
    ghost use Rattle.filedisk.specs.State.{Counts, file_length, file_failures, file_is_torn, file_is_changed, unknown};
    ghost use Rattle.units.specs.declared.fault.Fault.TheVariants.{Device};

    // No contract knows what a file holds. So nothing that rests on the disk model is said of it here.
    ghost keeps_model = { ⊥ };

    ghost obeys = { ⊥ };

    ghost file = { λ d. unknown };

    ghost clock = { λ d. 0 };

    ghost since = { λ d moment image. MayLeave (surface unknown) image };

    ghost failures = { λ d. file_failures d };

    ghost plan = { λ d. Never };

    ghost has_room = { λ d calls bytes. ⊥ };

    ghost room_less = { λ d calls bytes fewer less few small room. room };

    ghost counts_now = { λ d moment image le may. may };

    ghost reads_now = { λ d. seen_may unknown };

    ghost only_now = { λ d image left. left };

    fn len(&self) -> u64
        ensures { result ≡ file_length self.now }
    {
        self.len
    }

    fn reserve(&mut self, _bytes: u64) -> Result<(), Fault> {
        Ok(())
    }

    fn read_at(&mut self, at: u64, buffer: &mut [u8]) -> Result<(), Fault>
        ensures length { OnOk result (file_length self.new ≡ file_length self.old) }
        ensures cause { Counts (file_failures self.old) (file_failures self.new) result }
        ensures torn { file_is_torn self.new ≡ file_is_torn self.old }
        ensures changed { file_is_changed self.new ≡ file_is_changed self.old }
    {
        match self.file.read_exact_at(buffer, at) {
            Ok(()) => Ok(()),
            Err(error) => Err(self.refused(cause_of(&error))),
        }
    }

    fn write_at(&mut self, at: u64, bytes: &[u8]) -> Result<(), Fault>
        ensures length { OnOk result
            (file_length self.new ≡ max (file_length self.old) (at + length bytes.now)) }
        ensures cause { Counts (file_failures self.old) (file_failures self.new) result }
        ensures torn { file_is_torn self.new ≡ file_is_torn self.old }
        ensures changed { IsTrue (file_is_changed self.new) }
    {
        self.changed = true;
        self.unsynced = self.unsynced.min(at);
        let end = match at.checked_add(bytes.len() as u64) {
            Some(end) if !self.read_only => end,
            _ => return Err(self.refused(Cause::NoRights)),
        };
        match self.file.write_all_at(bytes, at) {
            Ok(()) => {
                self.len = self.len.max(end);
                Ok(())
            }
            Err(error) => Err(self.refused(cause_of(&error))),
        }
    }

    fn cut(&mut self, len: u64) -> Result<(), Fault>
        ensures length { OnOk result (file_length self.new ≡ len) }
        ensures cause { Counts (file_failures self.old) (file_failures self.new) result }
        ensures torn { file_is_torn self.new ≡ file_is_torn self.old }
        ensures changed { IsTrue (file_is_changed self.new) }
    {
        self.changed = true;
        self.unsynced = self.unsynced.min(len);
        if self.read_only {
            return Err(self.refused(Cause::NoRights));
        }
        match self.file.set_len(len) {
            Ok(()) => {
                self.len = len;
                Ok(())
            }
            Err(error) => Err(self.refused(cause_of(&error))),
        }
    }

    /// Syncs the file (`fsync`), but does nothing if it was opened for reads alone. Once it has failed, it fails
    /// until the file is opened again.
    fn sync(&mut self) -> Result<(), Fault>
        ensures length { OnOk result (file_length self.new ≡ file_length self.old) }
        ensures cause { Counts (file_failures self.old) (file_failures self.new) result }
        // A sync that failed is not forgotten: from then on each one fails.
        ensures torn { IfErr result (λ fault. IsTrue (file_is_torn self.new)) }
        ensures stays { IsTrue (file_is_torn self.old) → result ≡ Err Device }
        ensures whole { OnOk result (file_is_torn self.new ≡ file_is_torn self.old) }
        ensures changed { file_is_changed self.new ≡ file_is_changed self.old }
    {
        if self.torn {
            return Err(self.refused(Cause::Failed));
        }
        if self.read_only {
            return Ok(());
        }
        match self.file.sync_all() {
            Ok(()) => {
                self.unsynced = u64::MAX;
                Ok(())
            }
            Err(error) => {
                self.torn = true;
                Err(self.refused(cause_of(&error)))
            }
        }
    }

    fn arm(&mut self, _call: Option<u64>) {}
}

// Gives the length of a plain file.
fn plain_len(file: &File) -> Result<u64, Cause> {
    let found = or_cause(file.metadata())?;
    match cause_in(&found) {
        None => Ok(found.len()),
        Some(cause) => Err(cause),
    }
}

// So many bytes are written again at a time.
const PIECE: u64 = 4_096;

// Writes the bytes of a file from an offset on once more, up to its length, as they are read.
fn write_again(file: &File, from: u64, len: u64) -> Result<(), Cause> {
    let mut piece = [0; PIECE as usize];
    let mut at = from;
    for _piece in 0..len.saturating_sub(from).div_ceil(PIECE) {
        let count = len.saturating_sub(at).min(PIECE);
        let Some(bytes) = piece.get_mut(..count as usize) else {
            break;
        };
        or_cause(file.read_exact_at(bytes, at))?;
        or_cause(file.write_all_at(bytes, at))?;
        at = at.saturating_add(count);
    }
    Ok(())
}
