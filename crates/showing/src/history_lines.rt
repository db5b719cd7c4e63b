//! A history and a value as text.
ghost use Rattle.std.specs.Prelude.{◌≡◌, ◌++◌, ◌<◌, IfOk, IfErr, OnOk, codes, string_bytes};
ghost use Rattle.showing.specs.HistoryTexts.{found_text, from_line, history_text, mark_of, settled_mark, stamp_of, told_line, told_lines, txn_word, value_text};

use crate::shard_log::Found;
use crate::told::{Standing, Told};
use requests::push_spelled;
use std::alloc::Global;
use units::{Fault, Stamp, TxnId, Value};

/// Writes from when on a history is whole, unless it is from the first, and a line for each write of a key. A line has its timestamp, its
/// transaction, or a dash if none is known, its value, and how it stands, if it is no version.
pub fn history_text(alloc: Global, from: Option<Stamp>, told: &[Told]) -> Result<String, Fault>
    ensures text { IfOk result (λ text. string_bytes text ≡ history_text from told.now) }
    ensures memory { IfErr result (λ fault. fault ≡ Fault.Memory) }
{
    let mut text = from_line(alloc, from)?;
    push_lines(&mut text, alloc, told)?;
    Ok(text)
}

// From when on a log is whole, as a line, unless that is from the first.
fn from_line(alloc: Global, from: Option<Stamp>) -> Result<String, Fault>
    ensures text { IfOk result (λ text. string_bytes text ≡ from_line from) }
    ensures memory { IfErr result (λ fault. fault ≡ Fault.Memory) }
{
    match from {
        Some(from) if from.micros() > 0 => Ok(format!(in alloc; "whole from {from}\n")?),
        _ => Ok(String::new(alloc)),
    }
}

// The lines of some writes.
fn push_lines(text: &mut String, alloc: Global, told: &[Told]) -> Result<(), Fault>
    ensures lines { OnOk result
        (string_bytes text.new ≡ string_bytes text.old ++ told_lines told.now) }
    ensures memory { IfErr result (λ fault. fault ≡ Fault.Memory) }
{
    for write in told {
        push_line(text, alloc, write)?;
    }
    Ok(())
}

/// Writes what was found of a key as a line: `=` and the value, or `none`, and a mark if that is not settled. The value is spelled as the lines of a
/// service spell it.
pub fn found_line(alloc: Global, found: &Found) -> Result<String, Fault>
    ensures text { IfOk result (λ text. string_bytes text ≡ found_text found.now) }
    ensures memory { IfErr result (λ fault. fault ≡ Fault.Memory) }
{
    let value = value_text(alloc, &found.value)?;
    let mark = settled_mark(found.is_settled);
    Ok(format!(in alloc; "{value}{mark}\n")?)
}

fn settled_mark(is_settled: bool) -> &'static str
    ensures { result.now ≡ settled_mark is_settled }
{
    if is_settled { "" } else { " not settled yet" }
}

// The line of a write.
fn push_line(text: &mut String, alloc: Global, told: &Told) -> Result<(), Fault>
    ensures line { OnOk result
        (string_bytes text.new ≡ string_bytes text.old ++ told_line told.now) }
    ensures memory { IfErr result (λ fault. fault ≡ Fault.Memory) }
{
    let at = stamp_of(told.standing);
    let txn = txn_word(alloc, told.txn)?;
    let value = value_text(alloc, &told.value)?;
    let mark = mark_of(told.standing);
    write!(text, "{at} {txn} {value}{mark}\n")?;
    Ok(())
}

// A transaction, or what stands for one that is not known.
fn txn_word(alloc: Global, txn: Option<TxnId>) -> Result<String, Fault>
    ensures text { IfOk result (λ text. string_bytes text ≡ txn_word txn) }
    ensures memory { IfErr result (λ fault. fault ≡ Fault.Memory) }
{
    match txn {
        Some(txn) => Ok(format!(in alloc; "{txn}")?),
        None => Ok(format!(in alloc; "-")?),
    }
}

/// Gives the timestamp of a write.
pub fn stamp_of(standing: Standing) -> Stamp
    ensures { result ≡ stamp_of standing }
{
    match standing {
        Standing::Installed(at) | Standing::Decided(at) | Standing::Promised(at) => at,
    }
}

fn mark_of(standing: Standing) -> &'static str
    ensures { result.now ≡ mark_of standing }
{
    match standing {
        Standing::Installed(_) => "",
        Standing::Decided(_) => " decided",
        Standing::Promised(_) => " in doubt",
    }
}

// A value, or what stands for none.
fn value_text(alloc: Global, value: &Option<Value>) -> Result<String, Fault>
    ensures text { IfOk result (λ text. string_bytes text ≡ value_text value.now) }
    ensures memory { IfErr result (λ fault. fault ≡ Fault.Memory) }
{
    let mut text = String::new(alloc);
    match value {
        Some(value) => {
            text.push_str("=")?;
            push_spelled(&mut text, value.as_bytes())?;
        }
        None => text.push_str("none")?,
    }
    Ok(text)
}
