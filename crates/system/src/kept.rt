//! The files of a system, as far as commands ask for them.
ghost use Rattle.std.specs.Prelude.{◌≡◌, ◌⊎◌, ◌≤◌, ℕ, List, Some, IfOk, IfErr, length, slice_get};
ghost use Rattle.units.specs.declared.fault.Fault.TheVariants.{Device, Memory};

use crate::notes::Note;
use disk::Disk;
use std::alloc::Global;
use units::{Fault, Splits};

/// The files of a system. What the system refuses is `Device`.
pub trait Files {
    /// The file of a log.
    type Log: Disk + Drop;

    /// Says that a disk is that of a file which was opened, or made, under a name.
    ghost is_named: { Self → List ℕ → Self.Log → Type 0 } = { λ _ _ _. Unit {0} };

    /// Reads the first bytes of a file, `most` at most.
    fn read(&self, alloc: Global, path: &str, most: u64) -> Result<Vec<u8>, Fault>
        ensures { IfErr result (λ fault. (fault ≡ Memory) ⊎ (fault ≡ Device)) };

    /// Makes a new, empty file. It is refused if there is something of that name.
    fn create(&self, alloc: Global, path: &str) -> Result<Self::Log, Fault>
        ensures named { IfOk result (λ log. is_named self.now path.now log) }
        ensures refused { IfErr result (λ fault. (fault ≡ Memory) ⊎ (fault ≡ Device)) };

    /// Opens a file that is there to be read alone: it may not be written to. It can be read while others have it open.
    fn open(&self, alloc: Global, path: &str) -> Result<Self::Log, Fault>
        ensures named { IfOk result (λ log. is_named self.now path.now log) }
        ensures refused { IfErr result (λ fault. (fault ≡ Memory) ⊎ (fault ≡ Device)) };

    /// Makes logs read as all of them stand at one moment, although they were opened one after the other while somebody may write to them.
    fn at_one_moment(&self, _alloc: Global, _logs: &mut [Self::Log]) -> Result<(), Fault>
        ensures named { (i : ℕ) (name : List ℕ) (before after : Self.Log)
            → slice_get _logs.old i ≡ Some before → slice_get _logs.new i ≡ Some after
            → is_named self.now name before → is_named self.now name after }
        ensures refused { IfErr result (λ fault. (fault ≡ Memory) ⊎ (fault ≡ Device)) }
    {
        Ok(())
    }

    /// Tells in words what is wrong with a file that was refused, if that is known. It looks at the file once more.
    fn why(&self, _alloc: Global, _path: &str) -> Option<String> {
        None
    }

    /// Tells what is wrong with the store in a folder whose keys are parted like that, if it is refused. The answer is
    /// `FOLDER/FILE: WORDS`, `FOLDER/FILE`, or `FOLDER: WORDS`. It looks at the store once more, and makes nothing.
    fn why_unopened(&self, _alloc: Global, _folder: &str, _splits: &Splits) -> Option<String> {
        None
    }

    /// Tells in words why the last file that was to be made was not.
    fn why_unmade(&self, _alloc: Global) -> Option<String> {
        None
    }

    /// Takes back a file when a call of it has failed; `why_unmade` may then tell why.
    fn give_back(&self, log: Self::Log) {
        drop(log);
    }

    /// Tells whether somebody is there who reads notes.
    fn wants_notes(&self) -> bool {
        false
    }

    /// Tells a note, apart from what a command prints.
    fn tell(&self, _note: Note) {}
}
