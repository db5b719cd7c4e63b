//! A dump as JSON.
ghost use Rattle.std.specs.Prelude.{◌≡◌, ◌++◌, IfErr, IfOk, List, OnOk, string_bytes, ℕ};
ghost use Rattle.showing.specs.JsonTexts.{AreEntries, IsDumpJson, end_json, entry_json};

use crate::json::{dated, spelled_json, value_json};
use crate::reading::End;
use gatelog::Entry;
use record::Record;
use std::alloc::Global;
use units::{Fault, Key, Keys, Parts, ShardNo, Stamp, TxnId, Value, Writes};

/// Writes an object a line: each entry with its offset, and last how the file ends.
pub fn dump_json(alloc: Global, entries: &[Entry], end: End) -> Result<String, Fault>
    ensures text { IfOk result (λ text. IsDumpJson entries.now end (string_bytes text)) }
    ensures memory { IfErr result (λ fault. fault ≡ Fault.Memory) }
{
    let mut text = lines_of(alloc, entries)?;
    push_end(&mut text, end)?;
    Ok(text)
}

// A line for each entry.
fn lines_of(alloc: Global, entries: &[Entry]) -> Result<String, Fault>
    ensures lines { IfOk result (λ text. AreEntries entries.now (string_bytes text)) }
    ensures memory { IfErr result (λ fault. fault ≡ Fault.Memory) }
{
    let mut text = String::new(alloc);
    for entry in entries {
        push_entry(&mut text, alloc, entry)?;
    }
    Ok(text)
}

fn push_entry(text: &mut String, alloc: Global, entry: &Entry) -> Result<(), Fault>
    ensures line { OnOk result ((words : List ℕ) × (string_bytes text.new
        ≡ string_bytes text.old ++ entry_json (entry.now.offset, words))) }
    ensures memory { IfErr result (λ fault. fault ≡ Fault.Memory) }
{
    let offset = entry.offset();
    let words = words_of(alloc, entry.item())?;
    write!(text, "{{\"offset\":{offset}{words}}}\n")?;
    Ok(())
}

// How the file ends, on a line.
fn push_end(text: &mut String, end: End) -> Result<(), Fault>
    ensures end { OnOk result (string_bytes text.new ≡ string_bytes text.old ++ end_json end) }
    ensures memory { IfErr result (λ fault. fault ≡ Fault.Memory) }
{
    match end {
        End::Closed(gate) => write!(text, "{{\"closed at\":{gate}}}\n")?,
        End::Torn(gate) => write!(text, "{{\"torn at\":{gate}}}\n")?,
    }
    Ok(())
}

// The members that tell of a record.
fn words_of(alloc: Global, record: &Record) -> Result<String, Fault>
    ensures { IfErr result (λ fault. fault ≡ Fault.Memory) }
{
    let mut words = String::new(alloc);
    push_record(&mut words, alloc, record)?;
    Ok(words)
}

// The kind of a record, and what it says.
fn push_record(text: &mut String, alloc: Global, record: &Record) -> Result<(), Fault>
    ensures memory { IfErr result (λ fault. fault ≡ Fault.Memory) }
{
    match record {
        Record::Opened { epoch } => push_number(text, "opened", epoch.number()),
        Record::Ceiling { at } => push_at(text, alloc, "ceiling", *at),
        Record::Horizon { at } => push_at(text, alloc, "horizon", *at),
        Record::Prepare(p) => {
            push_kind(text, "prepare", p.txn)?;
            push_coordinator(text, p.coordinator)?;
            push_stamp(text, alloc, "at", "date", p.at)?;
            push_sets(text, alloc, &p.reads, &p.writes)
        }
        Record::Commit(c) => {
            push_kind(text, "commit", c.txn)?;
            push_stamp(text, alloc, "at", "date", c.at)?;
            push_parts(text, c.parts)?;
            push_sets(text, alloc, &c.reads, &c.writes)
        }
        Record::Abort { txn } => push_kind(text, "abort", *txn),
        Record::Outcome { txn, outcome } => {
            push_kind(text, "outcome", *txn)?;
            push_outcome(text, alloc, *outcome)
        }
        Record::Settled { txn, at, parts } => {
            push_kind(text, "settled", *txn)?;
            push_stamp(text, alloc, "at", "date", *at)?;
            push_parts(text, *parts)
        }
        Record::Closed {
            txn,
            coordinator,
            outcome,
        } => {
            push_kind(text, "closed", *txn)?;
            push_coordinator(text, *coordinator)?;
            push_outcome(text, alloc, *outcome)
        }
        Record::Base {
            epoch,
            floor,
            horizon,
        } => {
            push_number(text, "base", epoch.number())?;
            push_stamp(text, alloc, "floor", "floor date", *floor)?;
            push_stamp(text, alloc, "horizon", "horizon date", *horizon)
        }
        Record::Version(version) => {
            push_at(text, alloc, "version", version.at)?;
            text.push_str(",")?;
            push_write(text, alloc, &version.key, &version.value)
        }
        Record::Retired { below } => push_below(text, "retired", *below),
    }
}

// A record with the number of an opening.
fn push_number(text: &mut String, kind: &str, epoch: u64) -> Result<(), Fault>
    ensures memory { IfErr result (λ fault. fault ≡ Fault.Memory) }
{
    write!(text, ",\"record\":\"{kind}\",\"epoch\":{epoch}")?;
    Ok(())
}

// A record with a timestamp.
fn push_at(text: &mut String, alloc: Global, kind: &str, at: Stamp) -> Result<(), Fault>
    ensures memory { IfErr result (λ fault. fault ≡ Fault.Memory) }
{
    write!(text, ",\"record\":\"{kind}\"")?;
    push_stamp(text, alloc, "at", "date", at)
}

// A record of a transaction.
fn push_kind(text: &mut String, kind: &str, txn: TxnId) -> Result<(), Fault>
    ensures memory { IfErr result (λ fault. fault ≡ Fault.Memory) }
{
    write!(text, ",\"record\":\"{kind}\",\"txn\":\"{txn}\"")?;
    Ok(())
}

// A record with the id below which all are meant.
fn push_below(text: &mut String, kind: &str, below: TxnId) -> Result<(), Fault>
    ensures memory { IfErr result (λ fault. fault ≡ Fault.Memory) }
{
    write!(text, ",\"record\":\"{kind}\",\"below\":\"{below}\"")?;
    Ok(())
}

fn push_coordinator(text: &mut String, coordinator: ShardNo) -> Result<(), Fault>
    ensures memory { IfErr result (λ fault. fault ≡ Fault.Memory) }
{
    write!(text, ",\"coordinator\":{coordinator}")?;
    Ok(())
}

fn push_stamp(
    text: &mut String,
    alloc: Global,
    name: &str,
    date_name: &str,
    at: Stamp,
) -> Result<(), Fault>
    ensures memory { IfErr result (λ fault. fault ≡ Fault.Memory) }
{
    let dated = dated(alloc, name, date_name, at)?;
    write!(text, ",{dated}")?;
    Ok(())
}

// How a transaction ended.
fn push_outcome(text: &mut String, alloc: Global, outcome: Option<Stamp>) -> Result<(), Fault>
    ensures memory { IfErr result (λ fault. fault ≡ Fault.Memory) }
{
    match outcome {
        Some(at) => {
            text.push_str(",\"outcome\":\"committed\"")?;
            push_stamp(text, alloc, "at", "date", at)
        }
        None => {
            text.push_str(",\"outcome\":\"aborted\"")?;
            Ok(())
        }
    }
}

// The numbers of the shards.
fn push_parts(text: &mut String, parts: Parts) -> Result<(), Fault>
    ensures memory { IfErr result (λ fault. fault ≡ Fault.Memory) }
{
    text.push_str(",\"parts\":[")?;
    let mut mark = "";
    let mut rest = parts.mask();
    for number in 0..16u16 {
        if rest % 2 == 1 {
            write!(text, "{mark}{number}")?;
            mark = ",";
        }
        rest /= 2;
    }
    text.push_str("]")?;
    Ok(())
}

// What a transaction reads and writes.
fn push_sets(text: &mut String, alloc: Global, reads: &Keys, writes: &Writes) -> Result<(), Fault>
    ensures memory { IfErr result (λ fault. fault ≡ Fault.Memory) }
{
    text.push_str(",\"reads\":[")?;
    let mut mark = "";
    for key in reads.as_slice() {
        let key = spelled_json(alloc, key.as_bytes())?;
        write!(text, "{mark}{key}")?;
        mark = ",";
    }
    text.push_str("],\"writes\":[")?;
    mark = "";
    for write in writes.as_slice() {
        write!(text, "{mark}{{")?;
        push_write(text, alloc, &write.key, &write.value)?;
        text.push_str("}")?;
        mark = ",";
    }
    text.push_str("]")?;
    Ok(())
}

// A key and its value, or `null` for an erasure.
fn push_write(
    text: &mut String,
    alloc: Global,
    key: &Key,
    value: &Option<Value>,
) -> Result<(), Fault>
    ensures memory { IfErr result (λ fault. fault ≡ Fault.Memory) }
{
    let key = spelled_json(alloc, key.as_bytes())?;
    let value = value_json(alloc, value)?;
    write!(text, "\"key\":{key},\"value\":{value}")?;
    Ok(())
}
