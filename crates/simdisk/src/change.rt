// A change that is not synced.
ghost use Rattle.std.specs.Prelude.{◌≡◌};

use disk::Fate;

/// A change that is not synced. The bytes of writes are kept elsewhere, one after another.
#[derive(Clone, Copy)]
pub enum Change {
    /// A write that succeeded.
    Write { at: u64, count: u64 },
    /// A write that failed. A read does not see it, but a crash may.
    Tried { at: u64, count: u64 },
    /// A cut to a length, in bytes.
    Cut { len: u64 },
}

impl Change {
    ghost use Rattle.simdisk.specs.Fates.{fate_seen};
    ghost use Rattle.simdisk.specs.Replay.{size};

    /// Gives how many bytes it has in the store.
    pub fn count(&self) -> usize
        ensures { result ≡ size self.now }
    {
        match *self {
            Change::Write { at: _, count } | Change::Tried { at: _, count } => count as usize,
            Change::Cut { len: _ } => 0,
        }
    }

    /// Gives the fate by which a read sees it.
    pub fn fate_seen(&self) -> Fate
        ensures { result ≡ fate_seen self.now }
    {
        match *self {
            Change::Write { at: _, count: _ } => Fate::New,
            Change::Tried { at: _, count: _ } => Fate::Old,
            Change::Cut { len: _ } => Fate::New,
        }
    }
}
