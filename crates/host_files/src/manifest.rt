//! What a folder says of its store.
ghost use Rattle.std.specs.Prelude.{◌≡◌, IfErr};
ghost use Rattle.units.specs.declared.fault.Fault.TheVariants.{Memory};

use std::alloc::Global;
use units::{Fault, Key, Splits};

/// How many bytes of a manifest are read: 64 KiB. That of 16 shards takes no more than 6,000 bytes.
pub const MOST_MANIFEST: u64 = 1 << 16;

/// Writes the manifest of a store with these splits, and with the name that was drawn for it. It is a TOML text of the format's version, the
/// number of shards, the splits, and the name. In a split each byte but letters, digits, `_`, `-` and `.` is written as `\u00XX`.
pub fn manifest_text(alloc: Global, splits: &Splits, name: u64) -> Result<String, Fault>
    ensures { IfErr result (λ fault. fault ≡ Memory) }
{
    let head = head_of(alloc, splits)?;
    Ok(format!(in alloc; "{head}name = \"{name:016x}\"\n")?)
}

/// Tells whether a text is the manifest of a store with these splits, whatever its name is.
pub fn is_manifest_of(alloc: Global, text: &[u8], splits: &Splits) -> Result<bool, Fault>
    ensures { IfErr result (λ fault. fault ≡ Memory) }
{
    let head = head_of(alloc, splits)?;
    match text.strip_prefix(head.as_bytes()) {
        Some(line) => Ok(is_name_line(line)),
        None => Ok(false),
    }
}

// All of it but the name.
fn head_of(alloc: Global, splits: &Splits) -> Result<String, Fault>
    ensures { IfErr result (λ fault. fault ≡ Memory) }
{
    let keys = splits.as_slice();
    let shards = keys.len() + 1;
    let mut head = format!(in alloc; "version = 1\nshards = {shards}\nsplits = [")?;
    for (place, key) in keys.iter().enumerate() {
        if place > 0 {
            head.push_str(", ")?;
        }
        push_key(&mut head, key)?;
    }
    head.push_str("]\n")?;
    Ok(head)
}

// A key as a TOML text.
fn push_key(text: &mut String, key: &Key) -> Result<(), Fault>
    ensures { IfErr result (λ fault. fault ≡ Memory) }
{
    text.push('"')?;
    for byte in key.as_bytes() {
        push_byte(text, *byte)?;
    }
    text.push('"')?;
    Ok(())
}

fn push_byte(text: &mut String, byte: u8) -> Result<(), Fault>
    ensures { IfErr result (λ fault. fault ≡ Memory) }
{
    if byte.is_ascii_alphanumeric() || byte == b'_' || byte == b'-' || byte == b'.' {
        text.push(char::from(byte))?;
        return Ok(());
    }
    write!(text, "\\u{byte:04x}")?;
    Ok(())
}

// The line of a name: 16 hexadecimal digits.
fn is_name_line(line: &[u8]) -> bool {
    let Some(rest) = line.strip_prefix(b"name = \"".as_slice()) else {
        return false;
    };
    let Some(digits) = rest.strip_suffix(b"\"\n".as_slice()) else {
        return false;
    };
    digits.len() == 16 && digits.iter().all(|digit| digit.is_ascii_hexdigit())
}
