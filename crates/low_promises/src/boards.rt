//! Boards.
ghost use Rattle.std.specs.Prelude.{◌≡◌, ◌≢◌, ◌≤◌, Err};
ghost use Rattle.board.specs.Board.{safe_on};
ghost use Rattle.board.specs.State.{Takes};
ghost use Rattle.board.specs.Views.{LookedBy, MayAccept, accepting};
ghost use Rattle.board.specs.declared.entry.BoardEntry.{BoardEntry};

use board::{Publisher, Viewer};
use std::sync::Wait;
use units::{Fault, Install, Key, Seen, Stamp};

/// Lets a publisher accept a version, which viewers see once it is published.
pub fn install<R: Wait + Drop>(publisher: &mut Publisher<R>, install: Install) -> Result<(), Fault>
    requires { MayAccept publisher.old (BoardEntry.Installed install) }
    ensures { Takes publisher.old
        (accepting publisher.old (BoardEntry.Installed install)) result publisher.new }
{
    publisher.install(install)
}

/// Lets a viewer look at a key at a timestamp: by one list, which begins with all that it saw and was told.
pub fn look(viewer: &mut Viewer, key: &Key, at: Stamp, buffer: &mut [u8]) -> Result<Seen, Fault>
    ensures same { (viewer.new.board ≡ viewer.old.board) × (viewer.new.home ≡ viewer.old.home)
        × (viewer.new.told ≡ viewer.old.told) }
    ensures answer { result ≢ Err Fault.Stopped
        → LookedBy viewer.old key.now at buffer.old result viewer.new buffer.new }
    ensures told { at ≤ safe_on viewer.old.told → result ≢ Err Fault.NotYet }
{
    viewer.look(key, at, buffer)
}
