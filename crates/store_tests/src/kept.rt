//! What the logs hold after a drive.
use gatelog::{Entry, GateLog};
use record::Record;
use simdisk::SimDisk;
use std::alloc::Global;
use std::process::Abort;
use std::str;
use units::{Key, TxnId, Value, Write};

/// What some logs hold of commits, and the ceilings in them.
#[derive(Drop)]
pub struct Kept {
    committed: Vec<TxnId>,
    greatest: Vec<(Key, u64)>,
    /// How many keys were written by transactions that committed, once for each.
    pub writes: u64,
    /// How many ceilings there are.
    pub ceilings: u64,
    /// The least of them.
    pub least_ceiling: u64,
}

impl Kept {
    /// Reads what the logs of some disks hold.
    pub fn of(rt: &impl Abort, alloc: Global, disks: Vec<SimDisk>) -> Kept {
        let mut kept = Kept {
            committed: Vec::new(alloc),
            greatest: Vec::new(alloc),
            writes: 0,
            ceilings: 0,
            least_ceiling: u64::MAX,
        };
        for disk in disks {
            let opened = GateLog::open(alloc, disk).ok();
            let (log, entries) = opened.expect(rt, "a log");
            drop(log.into_disk());
            kept.add(rt, &entries);
            drop(entries);
        }
        kept
    }

    // Adds what a log holds.
    fn add(&mut self, rt: &impl Abort, entries: &[Entry]) {
        for entry in entries {
            match entry.item() {
                Record::Outcome {
                    txn,
                    outcome: Some(_),
                } => self.committed.push(*txn).ok().expect(rt, "memory"),
                Record::Ceiling { at } => {
                    self.ceilings = self.ceilings.saturating_add(1);
                    self.least_ceiling = self.least_ceiling.min(at.micros());
                }
                _ => {}
            }
        }
        for entry in entries {
            match entry.item() {
                Record::Commit(commit) => {
                    self.add_writes(rt, commit.txn, commit.writes.as_slice());
                }
                Record::Prepare(promise) => {
                    self.add_writes(rt, promise.txn, promise.writes.as_slice());
                }
                _ => {}
            }
        }
    }

    // Adds the writes of a transaction, if it has committed.
    fn add_writes(&mut self, rt: &impl Abort, txn: TxnId, writes: &[Write]) {
        if !self.committed.contains(&txn) {
            return;
        }
        for write in writes {
            if let Some(value) = &write.value {
                self.writes = self.writes.saturating_add(1);
                self.raise(rt, write.key, number_in(value));
            }
        }
    }

    // The key has had this number.
    fn raise(&mut self, rt: &impl Abort, key: Key, number: u64) {
        for (other, greatest) in self.greatest.iter_mut() {
            if *other == key {
                *greatest = (*greatest).max(number);
                return;
            }
        }
        self.greatest.push((key, number)).ok().expect(rt, "memory");
    }

    /// Adds up the greatest numbers of all keys.
    pub fn sum(&self) -> u64 {
        let mut sum: u64 = 0;
        for (_, greatest) in &self.greatest {
            sum = sum.saturating_add(*greatest);
        }
        sum
    }
}

// The number that a value spells, and 0 if it spells none.
fn number_in(value: &Value) -> u64 {
    match str::from_utf8(value.as_bytes()) {
        Ok(word) => word.parse::<u64>().unwrap_or(0),
        Err(_) => 0,
    }
}
