//! The numbers of a log, one by one.
ghost use Rattle.std.specs.Prelude.{◌≡◌, ◌<◌, ◌-◌, ◌^◌};
ghost use Rattle.showing.specs.StatsTexts.{number_of, sum_of, word_of};

use crate::stats::Numbers;

// How many turnovers a file takes.
const SLOTS: u64 = 1_024;

/// One of the numbers of a log.
#[derive(Clone, Copy)]
pub enum Figure {
    Bytes,
    DeadBytes,
    Turnovers,
    TurnoversLeft,
    Records,
    Opened,
    Ceilings,
    Prepares,
    Commits,
    Aborts,
    Outcomes,
    Horizons,
    Bases,
    VersionRecords,
    Settled,
    Closed,
    Retired,
    Keys,
    Versions,
    Epoch,
    Floor,
    InDoubt,
}

impl Figure {
    /// The word before it.
    pub fn word(self) -> &'static str
        ensures { result.now ≡ word_of self }
    {
        match self {
            Figure::Bytes => "bytes",
            Figure::DeadBytes => "dead bytes",
            Figure::Turnovers => "turnovers",
            Figure::TurnoversLeft => "turnovers left",
            Figure::Records => "records",
            Figure::Opened => "opened",
            Figure::Ceilings => "ceiling",
            Figure::Prepares => "prepare",
            Figure::Commits => "commit",
            Figure::Aborts => "abort",
            Figure::Outcomes => "outcome",
            Figure::Horizons => "horizon",
            Figure::Bases => "base",
            Figure::VersionRecords => "version",
            Figure::Settled => "settled",
            Figure::Closed => "closed",
            Figure::Retired => "retired",
            Figure::Keys => "keys",
            Figure::Versions => "versions",
            Figure::Epoch => "epoch",
            Figure::Floor => "floor",
            Figure::InDoubt => "in doubt",
        }
    }

    /// This number of a log.
    pub fn of(self, numbers: &Numbers) -> u64
        ensures { result ≡ number_of self numbers.now }
    {
        match self {
            Figure::Bytes => numbers.file.bytes,
            Figure::DeadBytes => numbers.file.dead,
            Figure::Turnovers => numbers.file.turnovers,
            Figure::TurnoversLeft => SLOTS.saturating_sub(numbers.file.turnovers),
            Figure::Records => numbers.records,
            Figure::Opened => numbers.kinds.opened,
            Figure::Ceilings => numbers.kinds.ceilings,
            Figure::Prepares => numbers.kinds.prepares,
            Figure::Commits => numbers.kinds.commits,
            Figure::Aborts => numbers.kinds.aborts,
            Figure::Outcomes => numbers.kinds.outcomes,
            Figure::Horizons => numbers.kinds.horizons,
            Figure::Bases => numbers.kinds.bases,
            Figure::VersionRecords => numbers.kinds.versions,
            Figure::Settled => numbers.kinds.settled,
            Figure::Closed => numbers.kinds.closed,
            Figure::Retired => numbers.kinds.retired,
            Figure::Keys => numbers.keys,
            Figure::Versions => numbers.versions,
            Figure::Epoch => numbers.epoch,
            Figure::Floor => numbers.floor.micros(),
            Figure::InDoubt => numbers.in_doubt,
        }
    }

    /// The sum of this number over some logs.
    pub fn sum(self, logs: &[Numbers]) -> u128
        ensures { result ≡ sum_of self logs.now }
    {
        let mut sum = 0u128;
        for numbers in logs {
            sum += u128::from(self.of(numbers));
        }
        sum
    }
}
