//! What a log holds, as numbers.
ghost use Rattle.std.specs.Prelude.{◌≡◌, ◌⊎◌, ◌<◌, Ok, Err, IfOk, IfErr, IsTrue, length};
ghost use Rattle.disk.specs.File.{surface};
ghost use Rattle.gatelog.specs.Log.{is_no_log};
ghost use Rattle.showing.specs.Stats.{area_at, file_of, keys_of, stats_by, stats_in};

use crate::doubts::in_doubt;
use crate::following::{learn_followed, shard_told};
use crate::kinds::{Kinds, kinds_of};
use disk::Disk;
use gatelog::{Entry, FIRST_GATE, GateLog};
use indexmap::IndexSet;
use std::alloc::Global;
use units::{Fault, Install, Stamp, TxnId};

/// A transaction that a log promises from a timestamp on, or decides at it, and does not end.
#[derive(Clone, Copy)]
pub struct InDoubt {
    pub txn: TxnId,
    pub at: Stamp,
    pub is_decided: bool,
}

/// The numbers of a log's file.
#[derive(Clone, Copy)]
pub struct FileNumbers {
    /// Its length.
    pub bytes: u64,
    /// How many bytes of older areas stand before that of the log.
    pub dead: u64,
    /// How often the log was turned over.
    pub turnovers: u64,
}

/// The numbers of a log.
#[derive(Clone, Copy)]
pub struct Numbers {
    pub file: FileNumbers,
    pub records: u64,
    pub kinds: Kinds,
    /// How many keys have a version. An erasure is one.
    pub keys: u64,
    pub versions: u64,
    /// How often it was opened.
    pub epoch: u64,
    /// Its greatest timestamp, 0 if there is none.
    pub floor: Stamp,
    /// How many transactions it promises or decides and does not end.
    pub in_doubt: u64,
}

/// What a log holds: its numbers, and the transactions in doubt, in its order.
#[derive(Drop)]
pub struct Stats {
    pub numbers: Numbers,
    pub in_doubt: Vec<InDoubt>,
}

/// Counts what the log in a file holds. It is refused as an opening refuses its bytes, and as damaged at the first record that does not
/// follow those before it. Its shard is that of its first decision; which keys belong to that is not asked. Nothing is written.
pub fn read_stats<D: Disk + Drop>(alloc: Global, disk: D) -> Result<Stats, Fault>
    ensures stats { D.keeps_model → IfOk result (λ stats.
        stats_in (surface (D.file disk)).seen ≡ Ok (stats.numbers, stats.in_doubt.items)) }
    ensures refused { IfErr result (λ fault. (fault ≡ Fault.Memory)
        ⊎ (((fault ≡ Fault.Device) × ((back : D) × (D.failures disk < D.failures back)))
        ⊎ (IsTrue (is_no_log fault)
        × (D.keeps_model → stats_in (surface (D.file disk)).seen ≡ Err fault)))) }
{
    match GateLog::open(alloc, disk) {
        Ok((gate_log, entries)) => {
            let (slot, gate) = (gate_log.slot(), gate_log.gate());
            let disk = gate_log.into_disk();
            let bytes = disk.len();
            drop(disk);
            count(alloc, file_of(bytes, slot, gate, &entries), &entries)
        }
        Err((fault, disk)) => {
            drop(disk);
            Err(fault)
        }
    }
}

// The numbers of a file of so many bytes, with so many open slots, a closed gate at this offset, and these entries before that.
fn file_of(bytes: u64, slots: u64, gate: u64, entries: &[Entry]) -> FileNumbers
    ensures { result ≡ file_of bytes slots gate entries.now }
{
    FileNumbers {
        bytes,
        dead: area_at(gate, entries).saturating_sub(FIRST_GATE),
        turnovers: slots,
    }
}

// Where the area of a log begins: at its first entry, or at the closed gate.
fn area_at(gate: u64, entries: &[Entry]) -> u64
    ensures { result ≡ area_at gate entries.now }
{
    match entries {
        [] => gate,
        [first, ..] => first.offset(),
    }
}

// What a log with these entries holds, in a file with these numbers.
fn count(alloc: Global, file: FileNumbers, entries: &[Entry]) -> Result<Stats, Fault>
    ensures stats { IfOk result (λ stats.
        stats_by file entries.now ≡ Ok (stats.numbers, stats.in_doubt.items)) }
    ensures refused { IfErr result (λ fault. (fault ≡ Fault.Memory)
        ⊎ (IsTrue (is_no_log fault) × (stats_by file entries.now ≡ Err fault))) }
{
    let facts = learn_followed(alloc, shard_told(entries), entries)?;
    let keys = count_keys(alloc, facts.installs())?;
    let in_doubt = in_doubt(alloc, entries)?;
    let numbers = Numbers {
        file,
        records: entries.len() as u64,
        kinds: kinds_of(entries),
        keys,
        versions: facts.installs().len() as u64,
        epoch: facts.epoch(),
        floor: facts.floor(),
        in_doubt: in_doubt.len() as u64,
    };
    drop(facts);
    Ok(Stats { numbers, in_doubt })
}

// How many keys have one of these versions.
fn count_keys(alloc: Global, installs: &[Install]) -> Result<u64, Fault>
    ensures keys { IfOk result (λ keys. keys ≡ length (keys_of installs.now)) }
    ensures memory { IfErr result (λ fault. fault ≡ Fault.Memory) }
{
    let mut keys = IndexSet::new(alloc);
    for install in installs {
        keys.insert(install.key)?;
    }
    Ok(keys.len() as u64)
}
