//! Values by type: how a value of a type is spelled in bytes, and read back.
ghost use Rattle.store.specs.Typed.{IsReadAs};
ghost use Rattle.std.specs.Prelude.{◌≡◌, ◌⊎◌, ℕ, List, IfErr, IfNone, IfOk, IfSome};

use std::alloc::Global;
use std::str;
use units::{Fault, Reason, Value};

/// A type whose values a store can hold. What is spelled is read back: `from_value` finds a value that is spelled by the same bytes.
pub trait Typed: Sized {
    ghost spelled: { Self → List ℕ };

    ghost is_spelt: { List ℕ → Type 0 };

    /// Spells a value. `BadRequest(Value)` if that takes more than 4,096 bytes, and `Memory` if memory runs out.
    fn to_value(&self, alloc: Global) -> Result<Value, Fault>
        ensures value { IfOk result (λ value. value ≡ spelled self.now) }
        ensures spelt { IfOk result (λ value. is_spelt value) }
        ensures refused { IfErr result
            (λ fault. (fault ≡ Fault.Memory) ⊎ (fault ≡ Fault.BadRequest Reason.Value)) };

    /// Reads a value: none if the bytes spell no value of this type. `Memory` if memory runs out.
    fn from_value(alloc: Global, value: &Value) -> Result<Option<Self>, Fault>
        ensures read { IfOk result (λ read. IfSome read (λ x. spelled x ≡ value.now)) }
        ensures none { IfOk result (λ read. IfNone read (is_spelt value.now → ⊥)) }
        ensures refused { IfErr result (λ fault. fault ≡ Fault.Memory) };
}

/// A number is spelled by eight bytes, the greatest digit first.
impl Typed for u64 {
    ghost use Rattle.std.specs.Prelude.{◌≡◌, length};
    ghost use Rattle.std.specs.Int.{to_be_bytes, w64};

    ghost spelled = { to_be_bytes w64 };

    ghost is_spelt = { λ bytes. length bytes ≡ 8 };

    fn to_value(&self, alloc: Global) -> Result<Value, Fault> {
        Value::new(alloc, &self.to_be_bytes())
    }

    fn from_value(_alloc: Global, value: &Value) -> Result<Option<u64>, Fault> {
        match <[u8; 8]>::try_from(value.as_bytes()) {
            Ok(bytes) => Ok(Some(u64::from_be_bytes(bytes))),
            Err(_) => Ok(None),
        }
    }
}

/// A list of bytes is spelled by these bytes.
impl Typed for Vec<u8> {
    ghost use Rattle.std.specs.Prelude.{⊤};

    ghost spelled = { λ bytes. bytes.items };

    ghost is_spelt = { λ _. ⊤ };

    fn to_value(&self, alloc: Global) -> Result<Value, Fault> {
        Value::new(alloc, self.as_slice())
    }

    fn from_value(alloc: Global, value: &Value) -> Result<Option<Vec<u8>>, Fault> {
        let mut bytes = Vec::new(alloc);
        bytes.extend_from_slice(value.as_bytes())?;
        Ok(Some(bytes))
    }
}

/// A text is spelled by its bytes in UTF-8.
impl Typed for String {
    ghost use Rattle.std.specs.Str.{IsUtf8};
    ghost use Rattle.std.specs.String.{string_bytes};

    ghost spelled = { string_bytes };

    ghost is_spelt = { IsUtf8 };

    fn to_value(&self, alloc: Global) -> Result<Value, Fault> {
        Value::new(alloc, self.as_str().as_bytes())
    }

    fn from_value(alloc: Global, value: &Value) -> Result<Option<String>, Fault> {
        match str::from_utf8(value.as_bytes()) {
            Ok(text) => Ok(Some(String::from_str(alloc, text)?)),
            Err(_) => Ok(None),
        }
    }
}

/// Reads a value by type, if there is one. A value that spells none of the type is refused as `BadRequest(Value)`, and `Memory` if memory runs
/// out.
pub(crate) fn read_as<T: Typed>(alloc: Global, value: Option<Value>) -> Result<Option<T>, Fault>
    ensures read { IfOk result (IsReadAs T.spelled value) }
    ensures refused { IfErr result
        (λ fault. (fault ≡ Fault.Memory) ⊎ (fault ≡ Fault.BadRequest Reason.Value)) }
{
    let Some(value) = value else {
        return Ok(None);
    };
    let read = T::from_value(alloc, &value);
    drop(value);
    match read {
        Ok(Some(read)) => Ok(Some(read)),
        Ok(None) => Err(Fault::BadRequest(Reason::Value)),
        Err(fault) => Err(fault),
    }
}
