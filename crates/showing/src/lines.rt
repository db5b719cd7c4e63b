//! A dump as text.
ghost use Rattle.std.specs.Prelude.{◌≡◌, ◌++◌, IfOk, IfErr, map, codes, string_bytes};
ghost use Rattle.std.specs.Fmt.{decimal};
ghost use Rattle.std.specs.Prelude.{flat_map};
ghost use Rattle.showing.specs.Dumps.{IsDumpText, dump_line, end_text};

use crate::reading::End;
use gatelog::Entry;
use std::alloc::Global;
use texts::Text;
use units::Fault;

/// A line for each entry: its offset, and its record as texts tell it; and last how the file ends.
pub fn dump_text(alloc: Global, entries: &[Entry], end: End) -> Result<String, Fault>
    ensures text { IfOk result (λ text. IsDumpText entries.now end (string_bytes text)) }
    ensures memory { IfErr result (λ fault. fault ≡ Fault.Memory) }
{
    let told = told(alloc, entries)?;
    let lines = lines_of(alloc, &told);
    drop(told);
    let mut text = lines?;
    write!(text, "{end}\n")?;
    Ok(text)
}

// The offset of each entry, and its record as text.
fn told(alloc: Global, entries: &[Entry]) -> Result<Vec<(u64, String)>, Fault>
    ensures offsets { IfOk result (λ told. map (λ t. t.0) told.items
        ≡ map (λ e. e.offset) entries.now) }
    ensures memory { IfErr result (λ fault. fault ≡ Fault.Memory) }
{
    let mut told = Vec::new(alloc);
    for entry in entries {
        let offset = entry.offset();
        told.push((offset, words_of(alloc, entry)?))?;
    }
    Ok(told)
}

// The record of an entry as text.
fn words_of(alloc: Global, entry: &Entry) -> Result<String, Fault>
    ensures { IfErr result (λ fault. fault ≡ Fault.Memory) }
{
    let record = Text(entry.item());
    Ok(format!(in alloc; "{record}")?)
}

// A line for each.
fn lines_of(alloc: Global, told: &[(u64, String)]) -> Result<String, Fault>
    ensures lines { IfOk result (λ text. string_bytes text
        ≡ flat_map dump_line (map (λ t. (t.0, string_bytes t.1)) told.now)) }
    ensures memory { IfErr result (λ fault. fault ≡ Fault.Memory) }
{
    let mut text = String::new(alloc);
    for (offset, words) in told {
        write!(text, "{offset} {words}\n")?;
    }
    Ok(text)
}
