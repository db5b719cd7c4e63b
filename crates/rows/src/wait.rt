//! The requests with which a transaction waits.
ghost use Rattle.std.specs.Prelude.{◌≡◌, IfOk, IfErr};

use std::alloc::Global;
use units::{Fault, Key, Keys, Parts, ShardNo, Stamp, Writes};

/// A prepare that came: the shard that decides, and the reads and writes at this shard.
#[derive(Drop)]
pub struct PrepareRequest {
    pub coordinator: ShardNo,
    pub reads: Keys,
    pub writes: Writes,
}

/// A commit that came: the latest end of the reading at its arrival, the shards that take part, and the reads and writes at this
/// shard.
#[derive(Drop)]
pub struct CommitRequest {
    pub latest: Stamp,
    pub parts: Parts,
    pub reads: Keys,
    pub writes: Writes,
}

/// What a transaction waits with until it gets its locks: a read, a prepare or a commit.
#[derive(Drop)]
pub enum Wait {
    Read(Key),
    Prepare(PrepareRequest),
    Commit(CommitRequest),
}

impl PrepareRequest {
    /// Copies the reads and writes into a request. `Memory` if memory runs out.
    pub fn copied(
        alloc: Global,
        coordinator: ShardNo,
        reads: &Keys,
        writes: &Writes,
    ) -> Result<PrepareRequest, Fault>
        ensures coordinator { IfOk result (λ request. request.coordinator ≡ coordinator) }
        ensures reads { IfOk result (λ request. request.reads ≡ reads.now) }
        ensures writes { IfOk result (λ request. request.writes ≡ writes.now) }
        ensures memory { IfErr result (λ fault. fault ≡ Fault.Memory) }
    {
        Ok(PrepareRequest {
            coordinator,
            reads: reads.copy(alloc)?,
            writes: writes.copy(alloc)?,
        })
    }
}

impl CommitRequest {
    /// Copies the reads and writes into a request. `Memory` if memory runs out.
    pub fn copied(
        alloc: Global,
        latest: Stamp,
        parts: Parts,
        reads: &Keys,
        writes: &Writes,
    ) -> Result<CommitRequest, Fault>
        ensures told { IfOk result
            (λ request. (request.latest ≡ latest) × (request.parts ≡ parts)) }
        ensures reads { IfOk result (λ request. request.reads ≡ reads.now) }
        ensures writes { IfOk result (λ request. request.writes ≡ writes.now) }
        ensures memory { IfErr result (λ fault. fault ≡ Fault.Memory) }
    {
        Ok(CommitRequest {
            latest,
            parts,
            reads: reads.copy(alloc)?,
            writes: writes.copy(alloc)?,
        })
    }
}
