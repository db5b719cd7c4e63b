//! The log's file.
ghost use Rattle.std.specs.Prelude.{◌≡◌, ◌⊎◌, ◌≤◌, ◌<◌, ◌+◌, ◌^◌, [], ◌∷◌, length, OnOk, IfOk};
ghost use Rattle.disk.specs.File.{surface};
ghost use Rattle.disk.specs.Image.{MayLeave, after_sync, after_write, tried_write};
ghost use Rattle.disk.specs.Moments.{LeavesOnly};
ghost use Rattle.frames.specs.Ahead.{IsAhead};
ghost use Rattle.frames.specs.Front.{IsAtFront};
ghost use Rattle.frames.specs.Gate.{open_gate};

use disk::Disk;
use frames::{Front, Pieces};
use std::alloc::Global;
use units::Fault;

/// Writes bytes after a closed gate, and opens the gate once they are on the disk. A crash leaves the gate closed, or
/// open with all the bytes after it.
pub fn open_behind<D: Disk>(disk: &mut D, at: u64, bytes: &[u8]) -> Result<(), Fault>
    requires small { at + 1 < 2 ^ 64 }
    requires inside { D.keeps_model → at + 1 ≤ length (surface (D.file disk.old)).seen }
    ensures any_moment { D.keeps_model → LeavesOnly D.clock D.since disk.old disk.new
        (λ image. MayLeave (tried_write (at + 1) (length bytes.now) (surface (D.file disk.old))) image
        ⊎ MayLeave (tried_write at 1 (after_sync
        (after_write (at + 1) bytes.now (surface (D.file disk.old))))) image) }
    ensures done { OnOk result (D.keeps_model → surface (D.file disk.new) ≡ after_sync
        (after_write at (open_gate ∷ []) (after_sync
        (after_write (at + 1) bytes.now (surface (D.file disk.old)))))) }
{
    frames::open_behind(disk, at, bytes)
}

/// Reads on: what was read and not passed stays.
pub fn more<D: Disk>(pieces: &mut Pieces, alloc: Global, disk: &mut D) -> Result<(), Fault>
    requires left { 0 < pieces.old.left }
    requires there { D.keeps_model → IsAhead (surface (D.file disk.old)).seen pieces.old }
    ensures at { OnOk result (pieces.new.at ≡ pieces.old.at) }
    ensures total { OnOk result (length pieces.new.bytes + pieces.new.left
        ≡ length pieces.old.bytes + pieces.old.left) }
    ensures there { OnOk result
        (D.keeps_model → IsAhead (surface (D.file disk.old)).seen pieces.new) }
{
    pieces.more(alloc, disk)
}

/// Finds what stands at the front: a frame only after an open gate, and nothing after a closed one.
pub fn front_of(alloc: Global, bytes: &[u8], left: u64) -> Result<Front, Fault>
    requires { length bytes.now + left < 2 ^ 64 }
    ensures { IfOk result (IsAtFront bytes.now left) }
{
    frames::front_of(alloc, bytes, left)
}
