//! Values.
ghost use Rattle.std.specs.Prelude.{◌≡◌, ◌≤◌, ◌<◌, ◌⊎◌, length, MatchResult, IfOk, IfErr};
ghost use Rattle.units.specs.Value.{bytes_of, IsText};

use crate::{Fault, Reason};
use std::alloc::Global;
use std::marker::Model;
use std::sync::Arc;

// At most so many bytes stand beside the count of the owners, in one block. Longer values stand in a second block.
const SHORT: usize = 24;

/// A value of at most 4,096 bytes. Copies share its bytes, and count who shares them.
pub struct Value {
    text: Text,
}

// The bytes. The length of a short text stands here, so that a copy need not wait for its block.
#[derive(Drop)]
enum Text {
    Short { bytes: Arc<[u8; SHORT]>, len: u8 },
    Long(Arc<Vec<u8>>),
}

impl Drop for Value {
    fn drop(self) {
        let Value { text: _ } = self;
    }
}

impl Model for Value {
    ghost use Rattle.std.specs.Prelude.{ℕ, List};
    ghost use Rattle.units.specs.Value.{bytes_of, IsText};

    ghost Value = { List ℕ };

    ghost view = { λ v. bytes_of v.text };

    ghost invariant = { λ v. IsText v.text };
}

impl Value {
    /// Makes the value of these bytes. `BadRequest(Value)` comes if they are more than 4,096. `Memory` comes if there
    /// is none for them.
    pub fn new(alloc: Global, bytes: &[u8]) -> Result<Value, Fault>
        ensures { MatchResult result (λ value. (value ≡ bytes.now) × (length bytes.now ≤ 4096))
            (λ fault. ((fault ≡ Fault.Memory) × (length bytes.now ≤ 4096))
            ⊎ ((fault ≡ Fault.BadRequest Reason.Value) × (4096 < length bytes.now))) }
    {
        if bytes.len() > 4096 {
            return Err(Fault::BadRequest(Reason::Value));
        }
        let text = if bytes.len() <= SHORT {
            short(alloc, bytes)?
        } else {
            Text::Long(Arc::new(alloc, bytes.to_vec(alloc)?)?)
        };
        Ok(Value { text })
    }

    /// Gives its bytes.
    pub fn as_bytes(&self) -> &[u8]
        ensures same { result.now ≡ self.now }
        ensures limit { length result.now ≤ 4096 }
    {
        match &self.text {
            Text::Short { bytes, len } => &bytes[..usize::from(*len)],
            Text::Long(bytes) => bytes.as_slice(),
        }
    }

    /// Copies the value. Both share its bytes. `Memory` comes if their owners cannot be counted any more.
    pub fn copy(&self) -> Result<Value, Fault>
        ensures same { IfOk result (λ value. value ≡ self.now) }
        ensures memory { IfErr result (λ fault. fault ≡ Fault.Memory) }
    {
        let text = match &self.text {
            Text::Short { bytes, len } => Text::Short {
                bytes: Arc::try_clone(bytes)?,
                len: *len,
            },
            Text::Long(bytes) => Text::Long(Arc::try_clone(bytes)?),
        };
        Ok(Value { text })
    }
}

// Makes the text of at most 24 bytes.
fn short(alloc: Global, bytes: &[u8]) -> Result<Text, Fault>
    requires { length bytes.now ≤ 24 }
    ensures text { IfOk result (λ text. (bytes_of text ≡ bytes.now) × IsText text) }
    ensures memory { IfErr result (λ fault. fault ≡ Fault.Memory) }
{
    let mut row = [0u8; SHORT];
    row[..bytes.len()].copy_from_slice(bytes);
    Ok(Text::Short {
        bytes: Arc::new(alloc, row)?,
        len: bytes.len() as u8,
    })
}

/// Copies a value, if there is one, as `Value::copy` does.
pub fn copy_value(value: &Option<Value>) -> Result<Option<Value>, Fault>
    ensures same { IfOk result (λ copy. copy ≡ value.now) }
    ensures memory { IfErr result (λ fault. fault ≡ Fault.Memory) }
{
    match value {
        None => Ok(None),
        Some(value) => Ok(Some(value.copy()?)),
    }
}
