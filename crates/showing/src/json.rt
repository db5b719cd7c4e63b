//! Members of JSON objects.
ghost use Rattle.std.specs.Prelude.{◌≡◌, IfErr, IfOk, List, string_bytes, ℕ};
ghost use Rattle.requests.specs.Spelling.{spelled};
ghost use Rattle.showing.specs.Json.{dated, quoted, txn_json, value_json};

use jiff::Timestamp;
use requests::push_spelled;
use serde_json::Value as Json;
use std::alloc::Global;
use units::{Fault, Stamp, TxnId, Value};

/// Writes a text as a JSON string.
pub fn quoted(alloc: Global, text: &str) -> Result<String, Fault>
    ensures text { IfOk result (λ json. string_bytes json ≡ quoted text.now) }
    ensures memory { IfErr result (λ fault. fault ≡ Fault.Memory) }
{
    let text = Json::try_from_str(alloc, text)?;
    Ok(text.to_string(alloc)?)
}

/// Writes bytes, spelled, as a JSON string.
pub fn spelled_json(alloc: Global, bytes: &[u8]) -> Result<String, Fault>
    ensures text { IfOk result (λ json. string_bytes json ≡ quoted (spelled bytes.now)) }
    ensures memory { IfErr result (λ fault. fault ≡ Fault.Memory) }
{
    let mut word = String::new(alloc);
    push_spelled(&mut word, bytes)?;
    quoted(alloc, &word)
}

/// Writes a value as a JSON string that spells it, or `null`.
pub fn value_json(alloc: Global, value: &Option<Value>) -> Result<String, Fault>
    ensures text { IfOk result (λ json. string_bytes json ≡ value_json value.now) }
    ensures memory { IfErr result (λ fault. fault ≡ Fault.Memory) }
{
    match value {
        Some(value) => spelled_json(alloc, value.as_bytes()),
        None => Ok(format!(in alloc; "null")?),
    }
}

/// Writes the id of a transaction as a JSON string, or `null`.
pub fn txn_json(alloc: Global, txn: Option<TxnId>) -> Result<String, Fault>
    ensures text { IfOk result (λ json. string_bytes json ≡ txn_json txn) }
    ensures memory { IfErr result (λ fault. fault ≡ Fault.Memory) }
{
    match txn {
        Some(txn) => Ok(format!(in alloc; "\"{txn}\"")?),
        None => Ok(format!(in alloc; "null")?),
    }
}

/// Writes a timestamp and its date as two members, of these names: microseconds, and ISO 8601 in UTC, or `null` after the year 9999.
pub fn dated(alloc: Global, name: &str, date_name: &str, at: Stamp) -> Result<String, Fault>
    ensures dated { IfOk result (λ text. (date : List ℕ)
        × (string_bytes text ≡ dated name.now date_name.now at date)) }
    ensures memory { IfErr result (λ fault. fault ≡ Fault.Memory) }
{
    let date = date_json(alloc, at)?;
    Ok(format!(in alloc; "\"{name}\":{at},\"{date_name}\":{date}")?)
}

// The date of a timestamp as a JSON string, or `null`.
fn date_json(alloc: Global, at: Stamp) -> Result<String, Fault>
    ensures { IfErr result (λ fault. fault ≡ Fault.Memory) }
{
    let Ok(micros) = i64::try_from(at.micros()) else {
        return Ok(format!(in alloc; "null")?);
    };
    match Timestamp::from_microsecond(micros) {
        Ok(instant) => Ok(format!(in alloc; "\"{instant}\"")?),
        Err(_) => Ok(format!(in alloc; "null")?),
    }
}
