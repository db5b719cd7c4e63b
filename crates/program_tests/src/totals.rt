//! What drawn lists and their reports have, counted, so that they are not empty.
use crate::telling::{Kind, Told};
use made::WrongRows;

/// How much there is of each kind in drawn lists and their reports.
#[derive(Clone, Copy)]
pub struct Totals {
    /// Lines of acknowledgements.
    pub acknowledged: u64,
    /// Lines of reads.
    pub read: u64,
    /// Lines of looks.
    pub looked: u64,
    /// Rows among these with a value.
    pub valued: u64,
    /// Horizons in logs.
    pub forgotten: u64,
    /// Horizons that were refused as too early.
    pub early: u64,
    /// Looks that were too old.
    pub old: u64,
    /// Crashes of shards.
    pub crashed: u64,
    /// Calls that failed.
    pub failed: u64,
    /// Openings that were accepted.
    pub opened: u64,
}

impl Totals {
    /// Begins to count: there was nothing so far.
    pub fn none() -> Totals {
        Totals {
            acknowledged: 0,
            read: 0,
            looked: 0,
            valued: 0,
            forgotten: 0,
            early: 0,
            old: 0,
            crashed: 0,
            failed: 0,
            opened: 0,
        }
    }

    /// Counts the lines and the horizons among rows.
    pub fn count(&mut self, told: &[Told]) {
        for one in told {
            let count = match one.kind {
                Kind::Ack => &mut self.acknowledged,
                Kind::Read => &mut self.read,
                Kind::Look => &mut self.looked,
                Kind::Horizon => &mut self.forgotten,
                _ => continue,
            };
            *count = count.saturating_add(1);
            if one.value > 0 {
                self.valued = self.valued.saturating_add(1);
            }
        }
    }

    /// Checks that there is enough of each kind to judge by.
    pub fn go_over(&self, wrong: &mut WrongRows) {
        for (count, least, name) in [
            (self.acknowledged, 100, "acknowledgements"),
            (self.read, 10, "reads"),
            (self.looked, 300, "looks"),
            (self.valued, 100, "values"),
            (self.forgotten, 50, "horizons"),
            (self.early, 20, "horizons that come too early"),
            (self.old, 50, "looks that are too old"),
            (self.crashed, 100, "crashes"),
            (self.failed, 30, "failing calls"),
            (self.opened, 100, "openings"),
        ] {
            wrong.unless(count >= least, name);
        }
    }
}
