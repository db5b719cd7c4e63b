// Reads a record from left to right.
ghost use Rattle.std.specs.Prelude.{◌≡◌, ◌≢◌, ◌≤◌, ◌↔◌, ◌==◌, [], ◌∷◌, length, IfOk, IfErr, MatchResult};
ghost use Rattle.std.specs.Int.{w16, w64};
ghost use Rattle.spelling.specs.Gives.{Gives, Finds};
ghost use Rattle.spelling.specs.Limits.{Spells};
ghost use Rattle.spelling.specs.Reading.{only_if, number_at, value_text_at, stamp_at, epoch_at, key_at, value_at, write_at, id_at, parts_at};
ghost use Rattle.spelling.specs.Reading.{shard_at, outcome_at, many_at, keys_at, writes_at, promise_at, decision_at, ended_at, record_at, read_record};
ghost use Rattle.spelling.specs.Reading.{base_at, version_at, listed_at, settled_at, closed_at};

use crate::unread::Unread;
use byteorder::{BigEndian, ByteOrder};
use record::{Committed, Prepared, Record};
use std::alloc::Global;
use units::{Epoch, Fault, Install, Key, Keys, Parts, ShardNo, Stamp, TxnId, Value, Write, Writes};

fn u16_of(bytes: &[u8]) -> Option<(u16, &[u8])>
    ensures { Finds (λ x. (x.0, x.1.now)) result (number_at w16 bytes.now) }
{
    if bytes.len() < 2 {
        return None;
    }
    let (front, rest) = bytes.split_at(2);
    Some((BigEndian::read_u16(front), rest))
}

fn u64_of(bytes: &[u8]) -> Option<(u64, &[u8])>
    ensures { Finds (λ x. (x.0, x.1.now)) result (number_at w64 bytes.now) }
{
    if bytes.len() < 8 {
        return None;
    }
    let (front, rest) = bytes.split_at(8);
    Some((BigEndian::read_u64(front), rest))
}

#[tactic(auto, unfolding(crate::specs::Reading::stamp_at))]
fn stamp_of(bytes: &[u8]) -> Option<(Stamp, &[u8])>
    ensures { Finds (λ x. (x.0, x.1.now)) result (stamp_at bytes.now) }
{
    let Some((number, rest)) = u64_of(bytes) else {
        return None;
    };
    match Stamp::new(number) {
        Ok(stamp) => Some((stamp, rest)),
        Err(_) => None,
    }
}

#[tactic(auto, unfolding(crate::specs::Reading::epoch_at))]
fn epoch_of(bytes: &[u8]) -> Option<(Epoch, &[u8])>
    ensures { Finds (λ x. (x.0, x.1.now)) result (epoch_at bytes.now) }
{
    let Some((stamp, rest)) = stamp_of(bytes) else {
        return None;
    };
    match Epoch::new(stamp.micros()) {
        Some(epoch) => Some((epoch, rest)),
        None => None,
    }
}

#[tactic(auto, unfolding(crate::specs::Reading::id_at))]
fn id_of(bytes: &[u8]) -> Option<(TxnId, &[u8])>
    ensures { Finds (λ x. (x.0, x.1.now)) result (id_at bytes.now) }
{
    let Some((run, rest)) = epoch_of(bytes) else {
        return None;
    };
    let Some((number, rest)) = stamp_of(rest) else {
        return None;
    };
    match TxnId::new(run.number(), number.micros()) {
        Some(txn) => Some((txn, rest)),
        None => None,
    }
}

#[tactic(auto, unfolding(crate::specs::Reading::parts_at))]
fn parts_of(bytes: &[u8]) -> Option<(Parts, &[u8])>
    ensures { Finds (λ x. (x.0, x.1.now)) result (parts_at bytes.now) }
{
    let Some((mask, rest)) = u16_of(bytes) else {
        return None;
    };
    match Parts::from_mask(mask) {
        Some(parts) => Some((parts, rest)),
        None => None,
    }
}

#[tactic(auto, unfolding(crate::specs::Reading::shard_at))]
fn shard_of(bytes: &[u8]) -> Option<(ShardNo, &[u8])>
    ensures { Finds (λ x. (x.0, x.1.now)) result (shard_at bytes.now) }
{
    let [number, rest @ ..] = bytes else {
        return None;
    };
    match ShardNo::new(*number) {
        Some(shard) => Some((shard, rest)),
        None => None,
    }
}

#[tactic(auto, unfolding(crate::specs::Reading::key_at))]
fn key_of(bytes: &[u8]) -> Option<(Key, &[u8])>
    ensures { Finds (λ x. (x.0, x.1.now)) result (key_at bytes.now) }
{
    let [count, rest @ ..] = bytes else {
        return None;
    };
    let count = *count as usize;
    if rest.len() < count {
        return None;
    }
    let (text, rest) = rest.split_at(count);
    match Key::new(text) {
        Ok(key) => Some((key, rest)),
        Err(_) => None,
    }
}

// Reads the bytes of a value, which follow their number.
fn text_of(bytes: &[u8]) -> Option<(&[u8], &[u8])>
    ensures { Finds (λ x. (x.0.now, x.1.now)) result (value_text_at bytes.now) }
{
    let Some((count, rest)) = u16_of(bytes) else {
        return None;
    };
    let count = count as usize;
    if count > 4096 || rest.len() < count {
        return None;
    }
    Some(rest.split_at(count))
}

#[tactic(auto, unfolding(crate::specs::Reading::value_at))]
fn value_of(alloc: Global, bytes: &[u8]) -> Result<(Option<Value>, &[u8]), Unread>
    ensures { Gives (λ x. (x.0, x.1.now)) result (value_at bytes.now) }
{
    match bytes {
        [0, rest @ ..] => Ok((None, rest)),
        [1, rest @ ..] => {
            let Some((text, rest)) = text_of(rest) else {
                return Err(Unread::Malformed);
            };
            match Value::new(alloc, text) {
                Ok(value) => Ok((Some(value), rest)),
                Err(_) => Err(Unread::Memory),
            }
        }
        _ => Err(Unread::Malformed),
    }
}

#[tactic(auto, unfolding(crate::specs::Reading::write_at))]
fn write_of(alloc: Global, bytes: &[u8]) -> Result<(Write, &[u8]), Unread>
    ensures { Gives (λ x. (x.0, x.1.now)) result (write_at bytes.now) }
{
    let Some((key, rest)) = key_of(bytes) else {
        return Err(Unread::Malformed);
    };
    match value_of(alloc, rest) {
        Ok((value, rest)) => Ok((Write { key, value }, rest)),
        Err(unread) => Err(unread),
    }
}

// Reads so many keys.
fn key_list<'a>(keys: &mut Vec<Key>, count: u16, bytes: &'a [u8]) -> Result<&'a [u8], Unread>
    requires { keys.old.items ≡ [] }
    ensures { Gives (λ rest. (keys.new.items, rest.now)) result
        (many_at key_at count bytes.now) }
{
    let mut rest = bytes;
    for _ in 0..count {
        let Some(found) = key_of(rest) else {
            return Err(Unread::Malformed);
        };
        let (key, after) = found;
        let Ok(()) = keys.push(key) else {
            return Err(Unread::Memory);
        };
        rest = after;
    }
    Ok(rest)
}

// Reads so many writes.
fn write_list<'a>(
    writes: &mut Vec<Write>,
    count: u16,
    bytes: &'a [u8],
    alloc: Global,
) -> Result<&'a [u8], Unread>
    requires { writes.old.items ≡ [] }
    ensures { Gives (λ rest. (writes.new.items, rest.now)) result
        (many_at write_at count bytes.now) }
{
    let mut rest = bytes;
    for _ in 0..count {
        match write_of(alloc, rest) {
            Ok((write, after)) => {
                let Ok(()) = writes.push(write) else {
                    return Err(Unread::Memory);
                };
                rest = after;
            }
            Err(unread) => return Err(unread),
        }
    }
    Ok(rest)
}

#[tactic(auto, unfolding(crate::specs::Reading::keys_at))]
fn keys_of(alloc: Global, bytes: &[u8]) -> Result<(Keys, &[u8]), Unread>
    ensures { Gives (λ x. (x.0, x.1.now)) result (keys_at bytes.now) }
{
    let Some((count, rest)) = u16_of(bytes) else {
        return Err(Unread::Malformed);
    };
    if count > 128 {
        return Err(Unread::Malformed);
    }
    let mut keys = Vec::new(alloc);
    match key_list(&mut keys, count, rest) {
        Ok(rest) => match Keys::from_vec(keys) {
            Ok(keys) => Ok((keys, rest)),
            Err(_) => Err(Unread::Malformed),
        },
        Err(unread) => {
            drop(keys);
            Err(unread)
        }
    }
}

#[tactic(auto, unfolding(crate::specs::Reading::writes_at))]
fn writes_of(alloc: Global, bytes: &[u8]) -> Result<(Writes, &[u8]), Unread>
    ensures { Gives (λ x. (x.0, x.1.now)) result (writes_at bytes.now) }
{
    let Some((count, rest)) = u16_of(bytes) else {
        return Err(Unread::Malformed);
    };
    if count > 128 {
        return Err(Unread::Malformed);
    }
    let mut writes = Vec::new(alloc);
    match write_list(&mut writes, count, rest, alloc) {
        Ok(rest) => match Writes::from_vec(writes) {
            Ok(writes) => Ok((writes, rest)),
            Err(_) => Err(Unread::Malformed),
        },
        Err(unread) => {
            drop(writes);
            Err(unread)
        }
    }
}

#[tactic(auto, unfolding(crate::specs::Reading::outcome_at))]
fn outcome_of(bytes: &[u8]) -> Option<(Option<Stamp>, &[u8])>
    ensures { Finds (λ x. (x.0, x.1.now)) result (outcome_at bytes.now) }
{
    match bytes {
        [0, rest @ ..] => Some((None, rest)),
        [1, rest @ ..] => match stamp_of(rest) {
            Some((at, rest)) => Some((Some(at), rest)),
            None => None,
        },
        _ => None,
    }
}

#[tactic(auto, unfolding(crate::specs::Reading::prepare_at))]
fn prepare_of(alloc: Global, bytes: &[u8]) -> Result<(Record, &[u8]), Unread>
    ensures { Gives (λ x. (x.0, x.1.now)) result (promise_at bytes.now) }
{
    let Some((txn, rest)) = id_of(bytes) else {
        return Err(Unread::Malformed);
    };
    let Some((coordinator, rest)) = shard_of(rest) else {
        return Err(Unread::Malformed);
    };
    let Some((at, rest)) = stamp_of(rest) else {
        return Err(Unread::Malformed);
    };
    let (reads, rest) = match keys_of(alloc, rest) {
        Ok(found) => found,
        Err(unread) => return Err(unread),
    };
    match writes_of(alloc, rest) {
        Ok((writes, rest)) => {
            let prepared = Prepared {
                txn,
                coordinator,
                at,
                reads,
                writes,
            };
            Ok((Record::Prepare(prepared), rest))
        }
        Err(unread) => {
            drop(reads);
            Err(unread)
        }
    }
}

#[tactic(auto, unfolding(crate::specs::Reading::commit_at))]
fn commit_of(alloc: Global, bytes: &[u8]) -> Result<(Record, &[u8]), Unread>
    ensures { Gives (λ x. (x.0, x.1.now)) result (decision_at bytes.now) }
{
    let Some((txn, rest)) = id_of(bytes) else {
        return Err(Unread::Malformed);
    };
    let Some((at, rest)) = stamp_of(rest) else {
        return Err(Unread::Malformed);
    };
    let Some((parts, rest)) = parts_of(rest) else {
        return Err(Unread::Malformed);
    };
    let (reads, rest) = match keys_of(alloc, rest) {
        Ok(found) => found,
        Err(unread) => return Err(unread),
    };
    match writes_of(alloc, rest) {
        Ok((writes, rest)) => {
            let committed = Committed {
                txn,
                at,
                parts,
                reads,
                writes,
            };
            Ok((Record::Commit(committed), rest))
        }
        Err(unread) => {
            drop(reads);
            Err(unread)
        }
    }
}

// Reads an id and how its transaction ended.
#[tactic(auto, unfolding(crate::specs::Reading::ended_at))]
fn ended_of(bytes: &[u8]) -> Option<((TxnId, Option<Stamp>), &[u8])>
    ensures { Finds (λ x. (x.0, x.1.now)) result (ended_at bytes.now) }
{
    let Some((txn, rest)) = id_of(bytes) else {
        return None;
    };
    match outcome_of(rest) {
        Some((outcome, rest)) => Some(((txn, outcome), rest)),
        None => None,
    }
}

#[tactic(auto, unfolding(crate::specs::Reading::base_at))]
fn base_of(bytes: &[u8]) -> Option<((Epoch, Stamp, Stamp), &[u8])>
    ensures { Finds (λ x. (x.0, x.1.now)) result (base_at bytes.now) }
{
    let Some((epoch, rest)) = epoch_of(bytes) else {
        return None;
    };
    let Some((floor, rest)) = stamp_of(rest) else {
        return None;
    };
    match stamp_of(rest) {
        Some((horizon, rest)) => Some(((epoch, floor, horizon), rest)),
        None => None,
    }
}

#[tactic(auto, unfolding(crate::specs::Reading::version_at))]
fn version_of(alloc: Global, bytes: &[u8]) -> Result<(Record, &[u8]), Unread>
    ensures { Gives (λ x. (x.0, x.1.now)) result (listed_at bytes.now) }
{
    let Some((key, rest)) = key_of(bytes) else {
        return Err(Unread::Malformed);
    };
    let Some((at, rest)) = stamp_of(rest) else {
        return Err(Unread::Malformed);
    };
    match value_of(alloc, rest) {
        Ok((value, rest)) => Ok((Record::Version(Install { key, at, value }), rest)),
        Err(unread) => Err(unread),
    }
}

#[tactic(auto, unfolding(crate::specs::Reading::settled_at))]
fn settled_of(bytes: &[u8]) -> Option<((TxnId, Stamp, Parts), &[u8])>
    ensures { Finds (λ x. (x.0, x.1.now)) result (settled_at bytes.now) }
{
    let Some((txn, rest)) = id_of(bytes) else {
        return None;
    };
    let Some((at, rest)) = stamp_of(rest) else {
        return None;
    };
    match parts_of(rest) {
        Some((parts, rest)) => Some(((txn, at, parts), rest)),
        None => None,
    }
}

#[tactic(auto, unfolding(crate::specs::Reading::closed_at))]
fn closed_of(bytes: &[u8]) -> Option<((TxnId, ShardNo, Option<Stamp>), &[u8])>
    ensures { Finds (λ x. (x.0, x.1.now)) result (closed_at bytes.now) }
{
    let Some((txn, rest)) = id_of(bytes) else {
        return None;
    };
    let Some((coordinator, rest)) = shard_of(rest) else {
        return None;
    };
    match outcome_of(rest) {
        Some((outcome, rest)) => Some(((txn, coordinator, outcome), rest)),
        None => None,
    }
}

// Reads a record that takes no memory: of a kind that steps log, or of one of a head.
#[tactic(auto, unfolding(crate::specs::Reading::record_at))]
fn short_of(kind: u8, bytes: &[u8]) -> Option<(Record, &[u8])>
    requires { (kind ≢ 3) × (kind ≢ 4) × (kind ≢ 9) }
    ensures { Finds (λ x. (x.0, x.1.now)) result (record_at (kind ∷ bytes.now)) }
{
    match kind {
        1 => match epoch_of(bytes) {
            Some((epoch, rest)) => Some((Record::Opened { epoch }, rest)),
            None => None,
        },
        2 => match stamp_of(bytes) {
            Some((at, rest)) => Some((Record::Ceiling { at }, rest)),
            None => None,
        },
        5 => match id_of(bytes) {
            Some((txn, rest)) => Some((Record::Abort { txn }, rest)),
            None => None,
        },
        6 => match ended_of(bytes) {
            Some(((txn, outcome), rest)) => Some((Record::Outcome { txn, outcome }, rest)),
            None => None,
        },
        7 => match stamp_of(bytes) {
            Some((at, rest)) => Some((Record::Horizon { at }, rest)),
            None => None,
        },
        0 => None,
        _ => head_of(kind, bytes),
    }
}

// Reads a record of a renewed log's head, of a kind that takes no memory, or of ids that are retired.
#[tactic(auto, unfolding(crate::specs::Reading::record_at))]
fn head_of(kind: u8, bytes: &[u8]) -> Option<(Record, &[u8])>
    requires { (8 ≤ kind) × (kind ≢ 9) }
    ensures { Finds (λ x. (x.0, x.1.now)) result (record_at (kind ∷ bytes.now)) }
{
    match kind {
        8 => match base_of(bytes) {
            Some(((epoch, floor, horizon), rest)) => {
                let base = Record::Base {
                    epoch,
                    floor,
                    horizon,
                };
                Some((base, rest))
            }
            None => None,
        },
        10 => match settled_of(bytes) {
            Some(((txn, at, parts), rest)) => Some((Record::Settled { txn, at, parts }, rest)),
            None => None,
        },
        11 => match closed_of(bytes) {
            Some(((txn, coordinator, outcome), rest)) => {
                let closed = Record::Closed {
                    txn,
                    coordinator,
                    outcome,
                };
                Some((closed, rest))
            }
            None => None,
        },
        12 => match id_of(bytes) {
            Some((below, rest)) => Some((Record::Retired { below }, rest)),
            None => None,
        },
        _ => None,
    }
}

#[tactic(auto, unfolding(crate::specs::Reading::record_at))]
fn record_of(alloc: Global, bytes: &[u8]) -> Result<(Record, &[u8]), Unread>
    ensures { Gives (λ x. (x.0, x.1.now)) result (record_at bytes.now) }
{
    let [kind, rest @ ..] = bytes else {
        return Err(Unread::Malformed);
    };
    match *kind {
        3 => prepare_of(alloc, rest),
        4 => commit_of(alloc, rest),
        9 => version_of(alloc, rest),
        kind => match short_of(kind, rest) {
            Some(found) => Ok(found),
            None => Err(Unread::Malformed),
        },
    }
}

// Gives the record if no byte follows it.
fn only(found: Record, rest: &[u8]) -> Option<Record>
    ensures { result ≡ only_if (length rest.now == 0) found }
{
    if !rest.is_empty() {
        drop(found);
        return None;
    }
    Some(found)
}

// Reads the record that all of the bytes are.
#[tactic(auto, unfolding(crate::specs::Reading::read_record))]
fn whole_record(alloc: Global, bytes: &[u8]) -> Result<Option<Record>, Fault>
    ensures { MatchResult result (λ found. read_record bytes.now ≡ found)
        (λ fault. fault ≡ Fault.Memory) }
{
    match record_of(alloc, bytes) {
        Ok((record, rest)) => Ok(only(record, rest)),
        Err(Unread::Malformed) => Ok(None),
        Err(Unread::Memory) => Err(Fault::Memory),
    }
}

/// Reads the record that the bytes spell. `None` means that they spell no record; `Memory` comes if there is none for
/// it.
pub fn decode(alloc: Global, bytes: &[u8]) -> Result<Option<Record>, Fault>
    ensures spelled { IfOk result (λ found. (r : Record) → Spells bytes.now r ↔ (found ≡ Some r)) }
    // The same by a definition that computes.
    ensures read { IfOk result (λ found. read_record bytes.now ≡ found) }
    ensures memory { IfErr result (λ fault. fault ≡ Fault.Memory) }
{
    whole_record(alloc, bytes)
}
