//! How much of a log there is, and when it has grown.
ghost use Rattle.std.specs.Prelude.{◌≡◌};
ghost use Rattle.node.specs.Renewed.{found_at, has_grown, lies_far, measured};

use shard::Begun;
use units::Fault;

/// How long a log was at its last turnover, to tell whether it has grown since.
#[derive(Clone, Copy)]
pub struct Measure {
    /// How many bytes the log had after its last turnover, or 0 if it was never turned over. If that was before the shard was opened: how many
    /// of them are of what was held and had ended.
    pub held: u64,
    /// The offset at which it ended when a turnover was last tried; or, before the first try, from where on it has grown.
    pub ended: u64,
    /// The offset at which the area begins that the log is in.
    pub begins: u64,
}

impl Measure {
    /// Measures a log by where it begins, and from where on it has grown.
    pub fn found(begun: Begun) -> Measure
        ensures { result ≡ found_at begun }
    {
        Measure {
            held: begun.grown.saturating_sub(begun.at),
            ended: begun.grown,
            begins: begun.at,
        }
    }

    /// Tells whether a log that ends at this gate has grown by more than it held, and by `least` bytes at least.
    pub fn has_grown(&self, gate: u64, least: u64) -> bool
        ensures { result ≡ has_grown self.now gate least }
    {
        let growth = gate.saturating_sub(self.ended);
        self.held < growth && least <= growth
    }

    /// Tells whether the log begins far into its file: more than so many bytes, and more than twice what it held.
    pub fn lies_far(&self, beyond: u64) -> bool
        ensures { result ≡ lies_far self.now beyond }
    {
        beyond < self.begins && self.held < self.begins.saturating_sub(self.held)
    }

    /// Measures the log after a turnover, which was done or refused. The new area begins right after the former gate.
    pub fn behind(&self, former: u64, gate: u64, turned: &Result<(), Fault>) -> Measure
        ensures { result ≡ measured self.now former gate turned.now }
    {
        match turned {
            Ok(()) => {
                let held = gate.saturating_sub(former).saturating_sub(1);
                Measure {
                    held,
                    ended: gate,
                    begins: gate.saturating_sub(held),
                }
            }
            Err(_) => Measure {
                held: self.held,
                ended: gate,
                begins: self.begins,
            },
        }
    }
}
