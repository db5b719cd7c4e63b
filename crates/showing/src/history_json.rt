//! A history and a value as JSON.
ghost use Rattle.std.specs.Prelude.{◌≡◌, ◌++◌, ◌<◌, IfErr, IfOk, List, OnOk, map, string_bytes, ℕ};
ghost use Rattle.showing.specs.Json.{AreWrites, IsHistoryOf, asked_json, bool_json, found_json, from_json, line_json, standing_json};

use crate::history_lines::stamp_of;
use crate::json::{dated, txn_json, value_json};
use crate::shard_log::Found;
use crate::told::{Standing, Told};
use std::alloc::Global;
use units::{Fault, Stamp};

/// Writes an object a line: from when on a history is whole, unless it is from the first; and each write of a key.
pub fn history_json(alloc: Global, from: Option<Stamp>, told: &[Told]) -> Result<String, Fault>
    ensures text { IfOk result (λ text. IsHistoryOf from told.now (string_bytes text)) }
    ensures memory { IfErr result (λ fault. fault ≡ Fault.Memory) }
{
    let rows = lines_of(alloc, told)?;
    let mut text = from_json(alloc, from)?;
    text.push_str(&rows)?;
    Ok(text)
}

// From when on a log is whole, on a line, unless that is from the first.
fn from_json(alloc: Global, from: Option<Stamp>) -> Result<String, Fault>
    ensures text { IfOk result
        (λ text. (date : List ℕ) × (string_bytes text ≡ from_json from date)) }
    ensures memory { IfErr result (λ fault. fault ≡ Fault.Memory) }
{
    match from {
        Some(from) if from.micros() > 0 => whole_json(alloc, from),
        _ => Ok(String::new(alloc)),
    }
}

fn whole_json(alloc: Global, from: Stamp) -> Result<String, Fault>
    requires { 0 < from }
    ensures text { IfOk result
        (λ text. (date : List ℕ) × (string_bytes text ≡ from_json (Some from) date)) }
    ensures memory { IfErr result (λ fault. fault ≡ Fault.Memory) }
{
    let dated = dated(alloc, "whole from", "date", from)?;
    Ok(format!(in alloc; "{{{dated}}}\n")?)
}

// A line for each write.
fn lines_of(alloc: Global, told: &[Told]) -> Result<String, Fault>
    ensures lines { IfOk result (λ text. AreWrites told.now (string_bytes text)) }
    ensures memory { IfErr result (λ fault. fault ≡ Fault.Memory) }
{
    let mut text = String::new(alloc);
    for write in told {
        push_line(&mut text, alloc, write)?;
    }
    Ok(text)
}

fn push_line(text: &mut String, alloc: Global, told: &Told) -> Result<(), Fault>
    ensures line { OnOk result ((date : List ℕ) × (string_bytes text.new
        ≡ string_bytes text.old ++ line_json (record { told = told.now; date = date }))) }
    ensures memory { IfErr result (λ fault. fault ≡ Fault.Memory) }
{
    let dated = dated(alloc, "at", "date", stamp_of(told.standing))?;
    let txn = txn_json(alloc, told.txn)?;
    let value = value_json(alloc, &told.value)?;
    let standing = standing_json(told.standing);
    write!(
        text,
        "{{{dated},\"txn\":{txn},\"value\":{value},\"standing\":\"{standing}\"}}\n"
    )?;
    Ok(())
}

fn standing_json(standing: Standing) -> &'static str
    ensures { result.now ≡ standing_json standing }
{
    match standing {
        Standing::Installed(_) => "version",
        Standing::Decided(_) => "decided",
        Standing::Promised(_) => "in doubt",
    }
}

/// Writes what was found of a key, at a timestamp or by the latest version, as an object on a line.
pub fn found_json(alloc: Global, at: &Option<Stamp>, found: &Found) -> Result<String, Fault>
    ensures text { IfOk result
        (λ text. (date : List ℕ) × (string_bytes text ≡ found_json at.now date found.now)) }
    ensures memory { IfErr result (λ fault. fault ≡ Fault.Memory) }
{
    let asked = asked_json(alloc, at)?;
    let value = value_json(alloc, &found.value)?;
    let settled = bool_json(found.is_settled);
    Ok(format!(in alloc; "{{{asked}\"value\":{value},\"settled\":{settled}}}\n")?)
}

fn bool_json(is_so: bool) -> &'static str
    ensures { result.now ≡ bool_json is_so }
{
    if is_so { "true" } else { "false" }
}

// The timestamp that was asked for, as members, if one was.
fn asked_json(alloc: Global, at: &Option<Stamp>) -> Result<String, Fault>
    ensures text { IfOk result
        (λ text. (date : List ℕ) × (string_bytes text ≡ asked_json at.now date)) }
    ensures memory { IfErr result (λ fault. fault ≡ Fault.Memory) }
{
    match at {
        Some(at) => {
            let dated = dated(alloc, "at", "date", *at)?;
            Ok(format!(in alloc; "{dated},")?)
        }
        None => Ok(String::new(alloc)),
    }
}
