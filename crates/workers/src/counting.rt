//! What a turn writes to a key that it has read.
ghost use Rattle.std.specs.Prelude.{◌≡◌, ◌+◌, ◌-◌, ◌<◌, ◌^◌, ℕ, None, Some, IfOk, IfErr};
ghost use Rattle.std.specs.Fmt.{decimal};

use std::alloc::Global;
use units::{Fault, Value};

/// Computes what a turn writes after a read: the decimal number one above the one that was read. No value, and a value that spells no number,
/// count as 0. The greatest number of 64 bits is written again.
pub fn next_value(alloc: Global, read: &Option<Value>) -> Result<Value, Fault>
    ensures none { read.now ≡ None → IfOk result (λ next. next ≡ decimal 1) }
    ensures number { (n : ℕ) → n < 2 ^ 64 - 1 → read.now ≡ Some (decimal n)
        → IfOk result (λ next. next ≡ decimal (n + 1)) }
    ensures memory { IfErr result (λ fault. fault ≡ Fault.Memory) }
{
    let count = match read {
        None => 0,
        Some(value) => number_in(value),
    };
    value_of(alloc, count.saturating_add(1))
}

// The number that a value spells in decimal digits, or 0.
fn number_in(value: &Value) -> u64
    ensures { (n : ℕ) → n < 2 ^ 64 → value.now ≡ decimal n → result ≡ n }
{
    match str::from_utf8(value.as_bytes()) {
        Ok(word) => word.parse::<u64>().unwrap_or(0),
        Err(_) => 0,
    }
}

// The value that spells a number.
fn value_of(alloc: Global, count: u64) -> Result<Value, Fault>
    ensures text { IfOk result (λ value. value ≡ decimal count) }
    ensures memory { IfErr result (λ fault. fault ≡ Fault.Memory) }
{
    let text = format!(in alloc; "{count}")?;
    Value::new(alloc, text.as_bytes())
}
