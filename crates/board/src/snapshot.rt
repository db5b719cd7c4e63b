//! Reads of a whole store at one timestamp, which is not before the true time at which they began.
ghost use Rattle.std.specs.Prelude.{◌≡◌, ◌≢◌, ◌≤◌, Err};
ghost use Rattle.board.specs.Board.{safe_on};
ghost use Rattle.board.specs.Views.{LookedBy};

use crate::Viewer;
use std::marker::Model;
use truetime::Reading;
use units::{Fault, Key, Seen, Stamp};

/// A timestamp at which keys are looked for, by the viewers of the shards that they belong to. If the reading is honest, all that was
/// acknowledged before `start` is at or below it. Contracts see the timestamp.
#[derive(Clone, Copy)]
pub struct Snapshot {
    at: Stamp,
}

impl Model for Snapshot {
    ghost use Rattle.std.specs.Prelude.{ℕ};

    ghost Value = { ℕ };

    ghost view = { λ s. s.at };

    ghost inverse = { λ at. record { at = at } };
}

impl Snapshot {
    /// Starts a snapshot at the latest of the reading.
    pub fn start(now: &Reading) -> Snapshot
        ensures { result ≡ now.now.latest }
    {
        Snapshot { at: now.latest() }
    }

    /// Looks at a key at the snapshot's timestamp, by the viewer of its shard. It is refused as `NotYet` until that shard serves the
    /// timestamp: look again.
    pub fn look(&self, viewer: &mut Viewer, key: &Key, buffer: &mut [u8]) -> Result<Seen, Fault>
        ensures same { (viewer.new.board ≡ viewer.old.board) × (viewer.new.home ≡ viewer.old.home)
            × (viewer.new.told ≡ viewer.old.told) }
        ensures answer { result ≢ Err Fault.Stopped
            → LookedBy viewer.old key.now self.now buffer.old result viewer.new buffer.new }
        ensures stopped { result ≡ Err Fault.Stopped → (viewer.new ≡ viewer.old)
            × (buffer.new ≡ buffer.old) }
        ensures told { self.now ≤ safe_on viewer.old.told → result ≢ Err Fault.NotYet }
    {
        viewer.look(key, self.at, buffer)
    }
}
