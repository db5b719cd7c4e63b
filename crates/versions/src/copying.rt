//! Versions copied one by one.
ghost use Rattle.std.specs.Prelude.{◌≡◌, IfOk, IfErr};

use units::{Fault, Install};

/// An equal version, which shares its value.
pub fn copy_install(install: &Install) -> Result<Install, Fault>
    ensures same { IfOk result (λ copy. copy ≡ install.now) }
    ensures memory { IfErr result (λ fault. fault ≡ Fault.Memory) }
{
    let value = match &install.value {
        None => None,
        Some(value) => Some(value.copy()?),
    };
    Ok(Install {
        key: install.key,
        at: install.at,
        value,
    })
}
