//! The messages that close a transaction.
ghost use Rattle.std.specs.Prelude.{◌≡◌, ◌≤◌, [], ◌∷◌, ◌++◌, length, map, IfOk, IfErr, OnOk, IfNone, IfSome, nat_eq, nat_lt, filter};
ghost use Rattle.units.specs.Keys.{key_before, shard_of};
ghost use Rattle.units.specs.Lists.{first, once, sorted};
ghost use Rattle.session.specs.Sessions.{closing_messages, epoch_or_none, messages_for, parts_of, reads_at, read_set, writes_at_shard};
ghost use Rattle.session.specs.Shown.{IsWithinLimits, closing_client, message_for};

use crate::Answered;
use crate::lists::insert_key;
use message::{Address, Commit, Envelope, Message, Outbox, Prepare, Reads};
use std::alloc::Global;
use units::{Fault, Key, Keys, Parts, ShardNo, Splits, TxnId, Write, Writes};

/// What a transaction asks its shards to commit: the answers that it took, and its writes.
#[derive(Clone, Copy)]
pub struct Request<'a> {
    pub splits: &'a Splits,
    pub txn: TxnId,
    pub taken: &'a [Answered],
    pub writes: &'a [Write],
    ghost kept: { IsWithinLimits taken.now [] writes.now },
}

impl Request<'_> {
    /// Makes the closing messages: Commit to the least part, then Prepare to each other part. `Memory` if memory runs out.
    #[tactic(auto, unfolding(crate::specs::Sessions::closing_messages))]
    pub fn messages(&self, alloc: Global) -> Result<Outbox, Fault>
        ensures same { IfOk result
            (λ out. out ≡ closing_messages self.now.splits.now
            (closing_client self.now.txn self.now.taken.now self.now.writes.now)) }
        ensures memory { IfErr result (λ fault. fault ≡ Fault.Memory) }
    {
        let parts = match self.parts(alloc) {
            Ok(Some(parts)) => parts,
            Ok(None) => return Ok(Outbox::none(alloc)),
            Err(fault) => return Err(fault),
        };
        let shards = match parts.shards(alloc) {
            Ok(shards) => shards,
            Err(fault) => return Err(fault),
        };
        let mut envelopes = Vec::new(alloc);
        match self.push_messages(alloc, parts, shards.as_slice(), &mut envelopes) {
            Ok(()) => Ok(Outbox::from_vec(envelopes)),
            Err(fault) => {
                drop(envelopes);
                Err(fault)
            }
        }
    }

    /// Returns the shards that were read or written, or `None` if there are none. `Memory` if memory runs out.
    pub fn parts(&self, alloc: Global) -> Result<Option<Parts>, Fault>
        ensures none { IfOk result
            (λ parts. IfNone parts
            (parts_of self.now.splits.now
            (closing_client self.now.txn self.now.taken.now self.now.writes.now) ≡ [])) }
        ensures some { IfOk result
            (λ parts. IfSome parts
            (λ ns. ns ≡ parts_of self.now.splits.now
            (closing_client self.now.txn self.now.taken.now self.now.writes.now))) }
        ensures memory { IfErr result (λ fault. fault ≡ Fault.Memory) }
    {
        let mut shards = Vec::new(alloc);
        push_taken(&mut shards, self.taken)?;
        push_written(&mut shards, self.splits, self.writes)?;
        Ok(Parts::of(shards.as_slice()))
    }

    // Adds the messages to these parts, which are listed, to an empty list.
    fn push_messages(
        &self,
        alloc: Global,
        parts: Parts,
        shards: &[ShardNo],
        envelopes: &mut Vec<Envelope>,
    ) -> Result<(), Fault>
        requires { (envelopes.old.items ≡ []) × (shards.now ≡ parts) }
        ensures same { OnOk result
            (envelopes.new.items ≡ messages_for self.now.splits.now
            (closing_client self.now.txn self.now.taken.now self.now.writes.now) parts) }
        ensures memory { IfErr result (λ fault. fault ≡ Fault.Memory) }
    {
        if let Some((coordinator, others)) = shards.split_first() {
            self.push_message(alloc, Some(parts), *coordinator, *coordinator, envelopes)?;
            for shard in others {
                self.push_message(alloc, None, *coordinator, *shard, envelopes)?;
            }
        }
        Ok(())
    }

    // Adds the message to a part: Commit with all parts to the coordinator, Prepare to any other part.
    fn push_message(
        &self,
        alloc: Global,
        parts: Option<Parts>,
        coordinator: ShardNo,
        shard: ShardNo,
        envelopes: &mut Vec<Envelope>,
    ) -> Result<(), Fault>
        ensures same { OnOk result
            (envelopes.new.items ≡ envelopes.old.items ++ message_for self.now.splits.now
            (closing_client self.now.txn self.now.taken.now self.now.writes.now) parts coordinator
            shard ∷ []) }
        ensures memory { IfErr result (λ fault. fault ≡ Fault.Memory) }
    {
        let txn = self.txn;
        let reads = self.reads_at(alloc, shard)?;
        let writes = match self.writes_at(alloc, shard) {
            Ok(writes) => writes,
            Err(fault) => {
                drop(reads);
                return Err(fault);
            }
        };
        let message = match parts {
            Some(parts) => Message::Commit(Commit {
                txn,
                parts,
                reads,
                writes,
            }),
            None => Message::Prepare(Prepare {
                txn,
                coordinator,
                reads,
                writes,
            }),
        };
        envelopes.push(Envelope {
            to: Address::Shard(shard),
            message,
        })?;
        Ok(())
    }

    // The reads at a shard.
    fn reads_at(&self, alloc: Global, shard: ShardNo) -> Result<Reads, Fault>
        ensures same { IfOk result
            (λ reads. reads ≡ read_set
            (closing_client self.now.txn self.now.taken.now self.now.writes.now) shard) }
        ensures memory { IfErr result (λ fault. fault ≡ Fault.Memory) }
    {
        let Some(answered) = first_read_at(self.taken, shard) else {
            return Ok(Reads::none(alloc));
        };
        let mut keys = Vec::new(alloc);
        push_keys_read_at(&mut keys, self.taken, shard)?;
        match Keys::from_vec(keys) {
            Ok(keys) => match Reads::new(answered.epoch, keys) {
                Ok(reads) => Ok(reads),
                Err(_) => unreachable!(),
            },
            Err(_) => unreachable!(),
        }
    }

    // The writes at a shard.
    fn writes_at(&self, alloc: Global, shard: ShardNo) -> Result<Writes, Fault>
        ensures same { IfOk result
            (λ writes. writes ≡ writes_at_shard self.now.splits.now
            (closing_client self.now.txn self.now.taken.now self.now.writes.now) shard) }
        ensures memory { IfErr result (λ fault. fault ≡ Fault.Memory) }
    {
        let mut part = Vec::new(alloc);
        match push_writes_of(&mut part, self.splits, self.writes, shard) {
            Ok(()) => match Writes::from_vec(part) {
                Ok(writes) => Ok(writes),
                Err(_) => unreachable!(),
            },
            Err(fault) => {
                drop(part);
                Err(fault)
            }
        }
    }
}

/// Adds the shards of some answers to a list. `Memory` if memory runs out.
pub fn push_taken(shards: &mut Vec<ShardNo>, taken: &[Answered]) -> Result<(), Fault>
    ensures same { IfOk result
        (λ _. shards.new.items ≡ shards.old.items ++ map (λ a. a.shard) taken.now) }
    ensures memory { IfErr result (λ fault. fault ≡ Fault.Memory) }
{
    for answered in taken {
        shards.push(answered.shard)?;
    }
    Ok(())
}

/// Adds the shards of some keys to a list. `Memory` if memory runs out.
pub fn push_asked(shards: &mut Vec<ShardNo>, splits: &Splits, keys: &[Key]) -> Result<(), Fault>
    ensures same { IfOk result
        (λ _. shards.new.items ≡ shards.old.items ++ map (shard_of splits.now) keys.now) }
    ensures memory { IfErr result (λ fault. fault ≡ Fault.Memory) }
{
    for key in keys {
        shards.push(splits.shard_of(key))?;
    }
    Ok(())
}

// Adds the shards of some writes to a list.
fn push_written(shards: &mut Vec<ShardNo>, splits: &Splits, writes: &[Write]) -> Result<(), Fault>
    ensures same { IfOk result
        (λ _. shards.new.items ≡ shards.old.items ++ map (λ w. shard_of splits.now w.key)
        writes.now) }
    ensures memory { IfErr result (λ fault. fault ≡ Fault.Memory) }
{
    for write in writes {
        shards.push(splits.shard_of(&write.key))?;
    }
    Ok(())
}

// The first answer of a shard.
fn first_read_at(taken: &[Answered], shard: ShardNo) -> Option<&Answered>
    ensures none { IfNone result (filter (λ a. nat_eq a.shard shard) taken.now ≡ []) }
    ensures some { IfSome result (λ a. first (λ b. nat_eq b.shard shard) taken.now ≡ Some a.now) }
{
    match taken.split_first() {
        None => None,
        Some((answered, rest)) => {
            if answered.shard == shard {
                Some(answered)
            } else {
                first_read_at(rest, shard)
            }
        }
    }
}

// Adds the keys that were read at a shard, in ascending order, to an empty list.
fn push_keys_read_at(keys: &mut Vec<Key>, taken: &[Answered], shard: ShardNo) -> Result<(), Fault>
    requires { keys.old.items ≡ [] }
    ensures same { OnOk result
        (keys.new.items ≡
        sorted key_before (map (λ a. a.key) (filter (λ a. nat_eq a.shard shard) taken.now))) }
    ensures memory { IfErr result (λ fault. fault ≡ Fault.Memory) }
{
    match taken.split_first() {
        None => Ok(()),
        Some((answered, rest)) => {
            push_keys_read_at(keys, rest, shard)?;
            if answered.shard == shard {
                insert_key(keys, answered.key)?;
            }
            Ok(())
        }
    }
}

// Adds copies of the writes at a shard to an empty list.
fn push_writes_of(
    part: &mut Vec<Write>,
    splits: &Splits,
    writes: &[Write],
    shard: ShardNo,
) -> Result<(), Fault>
    requires { part.old.items ≡ [] }
    ensures same { OnOk result
        (part.new.items ≡ filter (λ w. nat_eq (shard_of splits.now w.key) shard) writes.now) }
    ensures memory { IfErr result (λ fault. fault ≡ Fault.Memory) }
{
    for write in writes {
        if splits.shard_of(&write.key) == shard {
            part.push(write.copy()?)?;
        }
    }
    Ok(())
}
