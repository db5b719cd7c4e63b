//! The ledger of a shard, of which one promise is settled.
use crate::checks::byte;
use crate::handed::all_come;
use ledger::Ledger;
use made::{key, shard, stamp};
use std::alloc::Global;

// Tells whether the key `a` holds the right values before, at and after the outcome, and the ledger has the facts of
// its records.
fn is_settled(ledger: &Ledger) -> bool {
    let (key, early, late) = (key(b'a'), stamp(119), stamp(120));
    if early < ledger.horizon() || late < ledger.horizon() {
        return false;
    }
    let before = byte(ledger.at(&key, early));
    let at = byte(ledger.at(&key, late));
    let (floor, shard) = (ledger.floor().micros(), ledger.shard().number());
    [before, at, byte(ledger.latest(&key))] == [None, Some(b'1'), Some(b'1')]
        && (ledger.installs().len(), floor, ledger.epoch(), shard) == (1, 120, 1, 1)
}

// Transaction 1 promises at 111 to write to `a`, and committed at 120.
const LINES: &str = "opened 1\nprepare 1.1 0 111 - a=1\noutcome 1.1 committed 120";

/// Tells whether shard 1 is opened once, and its one promise is settled.
pub fn is_installed(alloc: Global) -> bool {
    let mut ledger = Ledger::new(alloc, shard(1));
    let installed = all_come(alloc, &mut ledger, LINES) && is_settled(&ledger);
    drop(ledger);
    installed
}
