//! Where logs get new files.
ghost use Rattle.std.specs.Prelude.{◌≡◌, ◌∷◌, ◌++◌, [], List, OnOk, OnErr, length};
ghost use Rattle.disk.specs.File.{surface};
ghost use Rattle.moving.specs.Renewals.{HoldsALog};

use disk::Disk;
use filedisk::FileDisk;
use host_files::{Refused, Replacing};
use std::alloc::Global;
use std::fs::File;
use std::random::RandomSource;
use std::rt::Files;
use units::Fault;

/// Where the logs of shards 0, 1 and so on get new files, one after the other.
pub trait Places {
    /// The file of a log.
    type Log: Disk + Drop;

    /// The new files that surely have the names of these logs, in their order.
    ghost placed: { Self → List Self.Log };

    /// Makes a new, empty file for the log of a shard.
    fn make(&mut self, alloc: Global, shard: usize) -> Result<Self::Log, Refused>
        ensures { placed self.new ≡ placed self.old };

    /// Gives the new file of the next shard the name of its log. Whatever crash comes, one log is there, whole. After a refusal the name leads to
    /// the former file or to the new one.
    fn place(&mut self, shard: usize, log: Self::Log) -> Result<(), Refused>
        requires next { shard ≡ length (placed self.old) }
        requires whole { Self.Log.keeps_model → HoldsALog (surface (Self.Log.file log)) }
        ensures added { OnOk result (placed self.new ≡ placed self.old ++ log ∷ []) }
        ensures kept { OnErr result (placed self.new ≡ placed self.old) };

    /// Refuses the log of a shard as a fault: takes its new file away, and tells which file failed and why, if that is known.
    fn refuse(&mut self, fault: Fault, shard: usize) -> Refused
        ensures fault { result.fault ≡ fault }
        ensures same { placed self.new ≡ placed self.old };
}

impl<R: Files<File = File> + RandomSource> Places for Replacing<'_, R> {
    ghost use Rattle.std.specs.Prelude.{reverse};
    ghost use Rattle.host_files.specs.Folders.{placed_last};

    type Log = FileDisk;

    ghost placed = { λ folder. reverse (placed_last folder) };

    fn make(&mut self, alloc: Global, shard: usize) -> Result<FileDisk, Refused> {
        self.draft(alloc, shard)
    }

    fn place(&mut self, shard: usize, log: FileDisk) -> Result<(), Refused> {
        self.replace(shard, log)
    }

    fn refuse(&mut self, fault: Fault, shard: usize) -> Refused {
        self.refused(fault, shard)
    }
}
