// The bytes of a record.
ghost use Rattle.std.specs.Prelude.{◌≡◌, [], ◌∷◌, ◌++◌, IsTrue, OnOk, IfOk, IfErr};
ghost use Rattle.std.specs.Int.{w16, w64, to_be_bytes};
ghost use Rattle.spelling.specs.Grammar.{spelling, prepare_spelling, commit_spelling, id_spelling, key_spelling, keys_spelling, write_spelling};
ghost use Rattle.spelling.specs.Grammar.{writes_spelling, outcome_spelling, parts_spelling};
ghost use Rattle.spelling.specs.Limits.{IsId, IsKey, IsKeys, IsParts, IsWrite, IsWrites, IsPrepare};
ghost use Rattle.spelling.specs.Grammar.{base_spelling, value_spelling, version_spelling};
ghost use Rattle.spelling.specs.Limits.{IsCommit, IsOutcome, IsRecord, NoneBeginsAnother};
ghost use Rattle.spelling.specs.Grammar.{settled_spelling, closed_spelling, kind, fields_spelling};
ghost use Rattle.spelling.specs.Limits.{IsBase, IsValue, IsVersion, IsSettled, IsClosed};

use byteorder::{BigEndian, ByteOrder};
use record::{Committed, Prepared, Record};
use std::alloc::Global;
use units::{Epoch, Fault, Install, Key, Keys, Parts, ShardNo, Stamp, TxnId, Value, Write, Writes};

// Each of these calls adds to a buffer, and tells whether there was the memory for it.

fn put_u8(out: &mut Vec<u8>, byte: u8) -> bool
    ensures { IsTrue result → out.new.items ≡ out.old.items ++ byte ∷ [] }
{
    out.push(byte).is_ok()
}

fn put_bytes(out: &mut Vec<u8>, bytes: &[u8]) -> bool
    ensures { IsTrue result → out.new.items ≡ out.old.items ++ bytes.now }
{
    out.extend_from_slice(bytes).is_ok()
}

fn put_u16(out: &mut Vec<u8>, number: u16) -> bool
    ensures { IsTrue result → out.new.items ≡ out.old.items ++ to_be_bytes w16 number }
{
    let mut bytes = [0; 2];
    BigEndian::write_u16(&mut bytes, number);
    put_bytes(out, &bytes)
}

fn put_u64(out: &mut Vec<u8>, number: u64) -> bool
    ensures { IsTrue result → out.new.items ≡ out.old.items ++ to_be_bytes w64 number }
{
    let mut bytes = [0; 8];
    BigEndian::write_u64(&mut bytes, number);
    put_bytes(out, &bytes)
}

fn put_key(out: &mut Vec<u8>, key: &Key) -> bool
    ensures ok { IsTrue result → out.new.items ≡ out.old.items ++ key_spelling key.now }
    ensures fits { IsTrue result → IsKey key.now }
{
    let bytes = key.as_bytes();
    put_u8(out, bytes.len() as u8) && put_bytes(out, bytes)
}

fn put_id(out: &mut Vec<u8>, txn: TxnId) -> bool
    ensures ok { IsTrue result → out.new.items ≡ out.old.items ++ id_spelling txn }
    ensures fits { IsTrue result → IsId txn }
{
    put_u64(out, txn.run()) && put_u64(out, txn.number())
}

#[tactic(auto, unfolding(crate::specs::Grammar::parts_spelling))]
fn put_parts(out: &mut Vec<u8>, parts: Parts) -> bool
    ensures ok { IsTrue result → out.new.items ≡ out.old.items ++ parts_spelling parts }
    ensures fits { IsTrue result → IsParts parts }
{
    put_u16(out, parts.mask())
}

fn put_write(out: &mut Vec<u8>, write: &Write) -> bool
    ensures ok { IsTrue result → out.new.items ≡ out.old.items ++ write_spelling write.now }
    ensures fits { IsTrue result → IsWrite write.now }
{
    if !put_key(out, &write.key) {
        return false;
    }
    put_value(out, &write.value)
}

fn put_keys(out: &mut Vec<u8>, keys: &Keys) -> bool
    ensures ok { IsTrue result → out.new.items ≡ out.old.items ++ keys_spelling keys.now }
    ensures fits { IsTrue result → IsKeys keys.now }
{
    let keys = keys.as_slice();
    if !put_u16(out, keys.len() as u16) {
        return false;
    }
    for key in keys {
        if !put_key(out, key) {
            return false;
        }
    }
    true
}

fn put_writes(out: &mut Vec<u8>, writes: &Writes) -> bool
    ensures ok { IsTrue result → out.new.items ≡ out.old.items ++ writes_spelling writes.now }
    ensures fits { IsTrue result → IsWrites writes.now }
{
    let writes = writes.as_slice();
    if !put_u16(out, writes.len() as u16) {
        return false;
    }
    for write in writes {
        if !put_write(out, write) {
            return false;
        }
    }
    true
}

fn put_outcome(out: &mut Vec<u8>, outcome: Option<Stamp>) -> bool
    ensures ok { IsTrue result → out.new.items ≡ out.old.items ++ outcome_spelling outcome }
    ensures fits { IsTrue result → IsOutcome outcome }
{
    match outcome {
        None => put_u8(out, 0),
        Some(at) => put_u8(out, 1) && put_u64(out, at.micros()),
    }
}

fn put_ended(out: &mut Vec<u8>, txn: TxnId, outcome: Option<Stamp>) -> bool
    ensures ok { IsTrue result →
        out.new.items ≡ out.old.items ++ (id_spelling txn ++ outcome_spelling outcome) }
    ensures fits { IsTrue result → IsId txn × IsOutcome outcome }
{
    put_id(out, txn) && put_outcome(out, outcome)
}

fn put_prepare(out: &mut Vec<u8>, p: &Prepared) -> bool
    ensures ok { IsTrue result → out.new.items ≡ out.old.items ++ prepare_spelling p.now }
    ensures fits { IsTrue result → IsPrepare p.now }
{
    if !put_id(out, p.txn) {
        return false;
    }
    if !put_u8(out, p.coordinator.number()) {
        return false;
    }
    if !put_u64(out, p.at.micros()) {
        return false;
    }
    if !put_keys(out, &p.reads) {
        return false;
    }
    put_writes(out, &p.writes)
}

fn put_commit(out: &mut Vec<u8>, c: &Committed) -> bool
    ensures ok { IsTrue result → out.new.items ≡ out.old.items ++ commit_spelling c.now }
    ensures fits { IsTrue result → IsCommit c.now }
{
    if !put_id(out, c.txn) {
        return false;
    }
    if !put_u64(out, c.at.micros()) {
        return false;
    }
    if !put_parts(out, c.parts) {
        return false;
    }
    if !put_keys(out, &c.reads) {
        return false;
    }
    put_writes(out, &c.writes)
}

fn put_base(out: &mut Vec<u8>, epoch: Epoch, floor: Stamp, horizon: Stamp) -> bool
    ensures ok { IsTrue result →
        out.new.items ≡ out.old.items ++ base_spelling epoch floor horizon }
    ensures fits { IsTrue result → IsBase epoch floor horizon }
{
    put_u64(out, epoch.number()) && put_u64(out, floor.micros()) && put_u64(out, horizon.micros())
}

fn put_value(out: &mut Vec<u8>, value: &Option<Value>) -> bool
    ensures ok { IsTrue result → out.new.items ≡ out.old.items ++ value_spelling value.now }
    ensures fits { IsTrue result → IsValue value.now }
{
    match value {
        None => put_u8(out, 0),
        Some(value) => {
            let bytes = value.as_bytes();
            put_u8(out, 1) && put_u16(out, bytes.len() as u16) && put_bytes(out, bytes)
        }
    }
}

fn put_version(out: &mut Vec<u8>, install: &Install) -> bool
    ensures ok { IsTrue result → out.new.items ≡ out.old.items ++ version_spelling install.now }
    ensures fits { IsTrue result → IsVersion install.now }
{
    if !put_key(out, &install.key) {
        return false;
    }
    if !put_u64(out, install.at.micros()) {
        return false;
    }
    put_value(out, &install.value)
}

fn put_settled(out: &mut Vec<u8>, txn: TxnId, at: Stamp, parts: Parts) -> bool
    ensures ok { IsTrue result →
        out.new.items ≡ out.old.items ++ settled_spelling txn at parts }
    ensures fits { IsTrue result → IsSettled txn at parts }
{
    if !put_id(out, txn) {
        return false;
    }
    if !put_u64(out, at.micros()) {
        return false;
    }
    put_parts(out, parts)
}

fn put_closed(out: &mut Vec<u8>, txn: TxnId, coordinator: ShardNo, outcome: Option<Stamp>) -> bool
    ensures ok { IsTrue result →
        out.new.items ≡ out.old.items ++ closed_spelling txn coordinator outcome }
    ensures fits { IsTrue result → IsClosed txn coordinator outcome }
{
    if !put_id(out, txn) {
        return false;
    }
    if !put_u8(out, coordinator.number()) {
        return false;
    }
    put_outcome(out, outcome)
}

// Gives the byte for its kind.
fn kind_of(record: &Record) -> u8
    ensures { result ≡ kind «record».now }
{
    match record {
        Record::Opened { epoch: _ } => 1,
        Record::Ceiling { at: _ } => 2,
        Record::Prepare(_) => 3,
        Record::Commit(_) => 4,
        Record::Abort { txn: _ } => 5,
        Record::Outcome { txn: _, outcome: _ } => 6,
        Record::Horizon { at: _ } => 7,
        Record::Base {
            epoch: _,
            floor: _,
            horizon: _,
        } => 8,
        Record::Version(_) => 9,
        Record::Settled {
            txn: _,
            at: _,
            parts: _,
        } => 10,
        Record::Closed {
            txn: _,
            coordinator: _,
            outcome: _,
        } => 11,
        Record::Retired { below: _ } => 12,
    }
}

fn put_fields(out: &mut Vec<u8>, record: &Record) -> bool
    ensures ok { IsTrue result → out.new.items ≡ out.old.items ++ fields_spelling «record».now }
    ensures fits { IsTrue result → IsRecord «record».now }
{
    match record {
        Record::Opened { epoch } => put_u64(out, epoch.number()),
        Record::Ceiling { at } => put_u64(out, at.micros()),
        Record::Prepare(p) => put_prepare(out, p),
        Record::Commit(c) => put_commit(out, c),
        Record::Abort { txn } => put_id(out, *txn),
        Record::Outcome { txn, outcome } => put_ended(out, *txn, *outcome),
        Record::Horizon { at } => put_u64(out, at.micros()),
        Record::Base {
            epoch,
            floor,
            horizon,
        } => put_base(out, *epoch, *floor, *horizon),
        Record::Version(install) => put_version(out, install),
        Record::Settled { txn, at, parts } => put_settled(out, *txn, *at, *parts),
        Record::Closed {
            txn,
            coordinator,
            outcome,
        } => put_closed(out, *txn, *coordinator, *outcome),
        Record::Retired { below } => put_id(out, *below),
    }
}

fn put_record(out: &mut Vec<u8>, record: &Record) -> bool
    ensures ok { IsTrue result → out.new.items ≡ out.old.items ++ spelling «record».now }
    ensures fits { IsTrue result → IsRecord «record».now }
{
    put_u8(out, kind_of(record)) && put_fields(out, record)
}

/// Writes the one spelling of a record into a new buffer. It is refused for want of memory alone.
pub fn encode(alloc: Global, record: &Record) -> Result<Vec<u8>, Fault>
    ensures spelling { IfOk result (λ bytes. bytes.items ≡ spelling «record».now) }
    // The types of its parts keep the limits.
    ensures fits { OnOk result (IsRecord «record».now) }
    ensures memory { IfErr result (λ fault. fault ≡ Fault.Memory) }
{
    let mut out = Vec::new(alloc);
    if !put_record(&mut out, record) {
        drop(out);
        return Err(Fault::Memory);
    }
    Ok(out)
}

/// Writes the one spelling of a record at the end of a buffer. It is refused for want of memory alone, and then nothing
/// is said of the buffer.
pub fn encode_into(out: &mut Vec<u8>, record: &Record) -> Result<(), Fault>
    ensures spelling { OnOk result (out.new.items ≡ out.old.items ++ spelling «record».now) }
    ensures fits { OnOk result (IsRecord «record».now) }
    ensures memory { IfErr result (λ fault. fault ≡ Fault.Memory) }
{
    if put_record(out, record) {
        Ok(())
    } else {
        Err(Fault::Memory)
    }
}

/// States that if one spelling begins another, both are of one record. It does nothing.
pub fn none_begins_another()
    ensures { NoneBeginsAnother }
{}
