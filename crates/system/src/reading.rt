//! Texts and logs in files.
ghost use Rattle.std.specs.Prelude.{◌≡◌, ◌⊎◌, ◌≤◌, ◌^◌, IfOk, IfErr, OnOk, length, map, string_bytes};
ghost use Rattle.system.specs.Named.{AreNamed, WasMigrated};
ghost use Rattle.system.specs.Refusals.{IsNotMigrated};
ghost use Rattle.units.specs.declared.fault.Fault.TheVariants.{BadRequest, Device, Memory};

use crate::kept::Files;
use gatelog::{GateLog, is_old, migrate};
use std::alloc::Global;
use units::{Fault, Reason};

/// The greatest length of a text: 256 MiB. Of a longer file one byte more is read.
pub const MOST_TEXT: u64 = 1 << 28;

/// Reads the text of a file. A text of more than 256 MiB, and bytes that are no UTF-8, are refused for the reason that is given.
pub fn read_text<F: Files>(
    alloc: Global,
    files: &F,
    path: &str,
    no_text: Reason,
) -> Result<String, Fault>
    ensures refused { IfErr result
        (λ fault. (fault ≡ Memory) ⊎ ((fault ≡ Device) ⊎ (fault ≡ BadRequest no_text))) }
    ensures limit { IfOk result (λ text. length (string_bytes text) ≤ 2 ^ 28) }
{
    let bytes = files.read(alloc, path, MOST_TEXT + 1)?;
    text_of(bytes, no_text)
}

// Some bytes as a text, if they are one and not too many.
fn text_of(bytes: Vec<u8>, no_text: Reason) -> Result<String, Fault>
    ensures refused { IfErr result (λ fault. fault ≡ BadRequest no_text) }
    ensures limit { IfOk result (λ text. length (string_bytes text) ≤ 2 ^ 28) }
{
    if bytes.len() as u64 > MOST_TEXT {
        return Err(Fault::BadRequest(no_text));
    }
    String::from_utf8(bytes).map_err(|_error| Fault::BadRequest(no_text))
}

/// Makes a file with a new log. `Device` if there is something of that name, or if the system refuses.
pub fn format_file<F: Files>(alloc: Global, files: &F, path: &str) -> Result<(), Fault>
    ensures { IfErr result (λ fault. (fault ≡ Memory) ⊎ (fault ≡ Device)) }
{
    let file = files.create(alloc, path)?;
    match GateLog::format(file) {
        Ok(_) => Ok(()),
        Err((fault, file)) => {
            files.give_back(file);
            Err(fault)
        }
    }
}

/// Makes a file with the records of another one, which holds a log of version 1 and stays as it is. What is wrong with the old file counts
/// first, and then nothing is made. After that it is `Device` if there is something of the new name.
pub fn migrate_file<F: Files>(alloc: Global, files: &F, old: &str, new: &str) -> Result<(), Fault>
    // The new file has the records of the old one.
    ensures migrated { OnOk result (WasMigrated F.Log.keeps_model F.Log.file F.Log.clock
        F.Log.since (F.is_named files.now) old.now new.now) }
    ensures refused { IfErr result IsNotMigrated }
{
    let mut first = files.open(alloc, old)?;
    is_old(alloc, &mut first)?;
    let second = files.create(alloc, new)?;
    match migrate(alloc, &mut first, second) {
        Ok(_) => Ok(()),
        Err((fault, second)) => {
            files.give_back(second);
            Err(fault)
        }
    }
}

/// Opens some files to be read, in their order. All of them read as they stand at one moment after they were opened.
pub fn open_all<F: Files>(alloc: Global, files: &F, paths: &[&str]) -> Result<Vec<F::Log>, Fault>
    ensures named { IfOk result (λ opened.
        AreNamed (F.is_named files.now) (map (λ path. path.now) paths.now) opened.items) }
    ensures all { IfOk result (λ opened. length opened.items ≡ length paths.now) }
    ensures refused { IfErr result (λ fault. (fault ≡ Memory) ⊎ (fault ≡ Device)) }
{
    let mut opened = Vec::new(alloc);
    for path in paths {
        opened.push(files.open(alloc, path)?)?;
    }
    files.at_one_moment(alloc, &mut opened)?;
    Ok(opened)
}
