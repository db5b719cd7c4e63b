//! How a shard stands, in numbers.
ghost use Rattle.std.specs.Prelude.{◌≡◌};
ghost use Rattle.letters.specs.Standing.{no_gauges};

use units::Stamp;

/// How a shard stands at one moment, for who watches it. A shard that is not served has 0 everywhere, and counts as stopped.
#[derive(Clone, Copy)]
pub struct Gauges {
    /// Whether its device has failed.
    pub is_stopped: bool,
    /// Transactions that read, wait, have promised or are decided here: 1,024 at most.
    pub rows: usize,
    /// Versions that it holds.
    pub versions: usize,
    /// The greatest timestamp that it has assigned, applied or served.
    pub last: Stamp,
    /// The timestamp below which it answers no view; 0 if it never forgot.
    pub horizon: Stamp,
    /// The offset in its file, in bytes, at which its log ends, and the one at which the present area of the log begins.
    pub log_ends: u64,
    pub area_begins: u64,
    /// How often its file was turned over: 1,024 times at most.
    pub turnovers: u64,
}

impl Gauges {
    /// Those of a shard that is not served.
    pub fn none() -> Gauges
        ensures { result ≡ no_gauges }
    {
        Gauges {
            is_stopped: true,
            rows: 0,
            versions: 0,
            last: Stamp::zero(),
            horizon: Stamp::zero(),
            log_ends: 0,
            area_begins: 0,
            turnovers: 0,
        }
    }
}
