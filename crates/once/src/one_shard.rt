//! One shard of all keys, on a disk in memory, for one transaction.
ghost use Rattle.std.specs.Prelude.{◌≡◌, ◌⊎◌, ℕ, List, Ok, Err, IfErr, IfOk, MatchResult};
ghost use Rattle.truetime.specs.Reading.{surely_after};
ghost use Rattle.units.specs.declared.fault.Fault.TheVariants.{Memory};
ghost use Rattle.once.specs.Replies.{first_stamp, only_txn};
ghost use Rattle.once.specs.Shards.{HasLog, only_setup, only_write, only_commit, new_log, decided_log, log_after};
ghost use Rattle.disk.specs.declared.plan.FailurePlan.TheVariants.{Never};
ghost use Rattle.shard.specs.Core.{seen};
ghost use Rattle.simdisk.specs.State.{disk_plan};

use gatelog::GateLog;
use message::{Commit, Input, Message, Reads};
use shard::Core;
use simdisk::SimDisk;
use std::alloc::Global;
use truetime::Reading;
use units::{
    Book, Fault, Key, Parts, Setup, ShardNo, Splits, Stamp, Stride, TxnId, Value, Write, Writes,
};

/// Opens a shard with a new log, on a disk that does not fail.
pub fn open_new(alloc: Global, disk: SimDisk) -> Result<Core<SimDisk>, (Fault, SimDisk)>
    requires { disk_plan disk ≡ Never }
    ensures log { IfOk result (λ core. HasLog new_log (seen core)) }
    ensures memory { IfErr result (λ refused. refused.0 ≡ Memory) }
{
    let setup = match only_setup(alloc) {
        Ok(setup) => setup,
        Err(fault) => return Err((fault, disk)),
    };
    match GateLog::format(disk) {
        Ok(log) => Core::open(alloc, log.into_disk(), setup),
        Err(refused) => Err(refused),
    }
}

/// Commits the write at a reading, and returns its timestamp.
pub fn commit(
    alloc: Global,
    core: &mut Core<SimDisk>,
    key: Key,
    value: Value,
    at: &Reading,
) -> Result<Stamp, Fault>
    requires { HasLog new_log (seen core.old) }
    ensures { MatchResult result (λ stamp. (first_stamp at.now ≡ Ok stamp)
        × HasLog (decided_log key value stamp) (seen core.new))
        (λ fault. (fault ≡ Memory) ⊎ (first_stamp at.now ≡ Err fault)) }
{
    let asked = only_commit(alloc, key, value)?;
    let told = core.on(alloc, at, &asked);
    drop(asked);
    match told {
        Ok(outbox) => {
            drop(outbox);
            let (_, stamp) = core.decided(0).unwrap();
            Ok(stamp)
        }
        Err(fault) => Err(fault),
    }
}

/// Settles the transaction at a reading. `false` if its timestamp has not surely passed: settle it again at a later reading.
pub fn settle(alloc: Global, core: &mut Core<SimDisk>, at: &Reading) -> Result<bool, Fault>
    ensures { (key value : List ℕ) (stamp : ℕ)
        → HasLog (decided_log key value stamp) (seen core.old)
        → MatchResult result
        (λ done. (done ≡ surely_after at.now stamp)
        × HasLog (log_after done key value stamp) (seen core.new))
        (λ fault. fault ≡ Memory) }
{
    let asked = Input::Settle(only_txn());
    let told = core.on(alloc, at, &asked);
    drop(asked);
    match told {
        Ok(outbox) => {
            drop(outbox);
            Ok(true)
        }
        Err(fault) => match fault {
            Fault::Early => Ok(false),
            _ => Err(fault),
        },
    }
}

/// Names the transaction that commits the write.
pub fn only_txn() -> TxnId
    ensures { result ≡ only_txn }
{
    TxnId::new(1, 1).unwrap()
}

fn first_shard() -> ShardNo
    ensures { result ≡ 0 }
{
    ShardNo::new(0).unwrap()
}

fn only_setup(alloc: Global) -> Result<Setup, Fault>
    ensures setup { IfOk result (λ setup. setup ≡ only_setup) }
    ensures memory { IfErr result (λ fault. fault ≡ Memory) }
{
    Ok(Setup {
        shard: first_shard(),
        splits: Splits::new(alloc, &[])?,
        stride: Stride::new(0).unwrap(),
        book: Book::Off,
    })
}

// Nothing is read, and no other shard takes part.
fn only_commit(alloc: Global, key: Key, value: Value) -> Result<Input, Fault>
    ensures commit { IfOk result (λ input. input ≡ only_commit key value) }
    ensures memory { IfErr result (λ fault. fault ≡ Memory) }
{
    Ok(Input::Deliver(Message::Commit(Commit {
        txn: only_txn(),
        parts: Parts::only(first_shard()),
        reads: Reads::none(alloc),
        writes: only_write(alloc, key, value)?,
    })))
}

fn only_write(alloc: Global, key: Key, value: Value) -> Result<Writes, Fault>
    ensures write { IfOk result (λ writes. writes ≡ only_write key value) }
    ensures memory { IfErr result (λ fault. fault ≡ Memory) }
{
    let mut writes = Vec::new(alloc);
    writes.push(Write {
        key,
        value: Some(value),
    })?;
    match Writes::from_vec(writes) {
        Ok(writes) => Ok(writes),
        Err(_) => unreachable!(),
    }
}
