//! The commands `history` and `get`: what the log of a store says of a key.
ghost use Rattle.std.specs.Prelude.{◌≡◌, ◌⊎◌, ◌<◌, List, ℕ, None, Err, IfOk, IfErr, string_bytes};
ghost use Rattle.std.specs.Io.KnownBytes.{Appends};
ghost use Rattle.disk.specs.File.{surface};
ghost use Rattle.units.specs.declared.fault.Fault.{Fault};
ghost use Rattle.commands.specs.Faults.{FailsAs};
ghost use Rattle.commands.specs.OnDisks.{IsHistoryAsIn, IsHistoryAsOf, IsOfKey, IsRawIn, IsValueAsOf};
ghost use Rattle.commands.specs.Replies.{IsHistoryAs, IsToldOf};
ghost use Rattle.output.specs.Failures.{FailsFor};
ghost use Rattle.output.specs.Streams.{failures_of, writer_of};
ghost use Rattle.output.specs.declared.failure.Failure.TheVariants.{Refused};
ghost use Rattle.showing.specs.HistoryTexts.{IsAValue, IsNotTold, IsValueIn};
ghost use Rattle.showing.specs.Json.{IsAJsonValue, IsJsonValueIn};

use crate::printing::{print_text, print_value};
use crate::store_folder::open_of_key;
use command_line::Form;
use disk::Disk;
use output::{Failure, Stream};
use showing::{Found, history_told, history_told_json, read_value, value_told, value_told_json};
use std::alloc::Global;
use std::io::Write;
use system::Files;
use units::{Fault, Key, Setup, Stamp, Value};

/// What the store in a folder says of a key, by the log that the key is in: as lines of text, or as JSON.
pub fn history<F: Files>(
    alloc: Global,
    dir: &str,
    key: &Key,
    json: bool,
    files: &F,
) -> Result<String, Fault>
    ensures text { IfOk result (λ text. IsHistoryAs json (string_bytes text)) }
    // It is that of the log of the key's shard.
    ensures told { IfOk result (λ text. IsHistoryAsOf F.Log.keeps_model F.Log.file
        (F.is_named files.now) json dir.now key.now (string_bytes text)) }
    ensures refused { IfErr result IsNotTold }
{
    let (setup, log) = open_of_key(alloc, files, dir, key)?;
    let text = history_in(alloc, log, &setup, key, json);
    drop(setup);
    text
}

// What the log of a shard says of a key.
fn history_in<D: Disk + Drop>(
    alloc: Global,
    disk: D,
    setup: &Setup,
    key: &Key,
    json: bool,
) -> Result<String, Fault>
    ensures text { IfOk result (λ text. IsHistoryAs json (string_bytes text)) }
    ensures told { D.keeps_model → IfOk result (λ text. IsHistoryAsIn json setup.now
        key.now (surface (D.file disk)).seen (string_bytes text)) }
    ensures refused { IfErr result IsNotTold }
{
    if json {
        history_told_json(alloc, disk, setup, key)
    } else {
        history_told(alloc, disk, setup, key)
    }
}

/// Prints the value of a key in the store in a folder, at a timestamp or by the latest version. As a line of text or of JSON it gives 0. Of the
/// bytes alone it gives 0, or 1 if there is no value.
pub fn run_get<F: Files, O: Write>(
    alloc: Global,
    dir: &str,
    key: &Key,
    at: Option<Stamp>,
    form: Form,
    files: &F,
    out: &mut Stream<O>,
) -> Result<u8, Failure>
    ensures status { IfOk result (λ status. (status ≡ 0) ⊎ (status ≡ 1)) }
    ensures printed { IfOk result (λ status. (text : List ℕ) × IsToldOf form status text
        × Appends (O.contents (writer_of out.old)) (O.contents (writer_of out.new)) text) }
    // It is that of the log of the key's shard.
    ensures told { IfOk result (λ status. (text : List ℕ)
        × IsValueAsOf F.Log.keeps_model F.Log.file (F.is_named files.now)
        form dir.now key.now at status text
        × Appends (O.contents (writer_of out.old)) (O.contents (writer_of out.new)) text) }
    ensures failures { IfErr result
        (λ failure. FailsFor (failures_of out.old < failures_of out.new) failure None) }
    ensures numbered { IfErr result (FailsAs IsNotTold) }
    ensures counted { (fault : Fault) → result ≡ Err (Refused fault)
        → failures_of out.new ≡ failures_of out.old }
{
    match form {
        Form::Line => print_text(get(alloc, dir, key, at, files), out),
        Form::Json => print_text(get_json(alloc, dir, key, at, files), out),
        Form::Raw => print_value(get_raw(alloc, dir, key, at, files), out),
    }
}

// The value of a key in the store in a folder, at a timestamp or by the latest version, as a line.
fn get<F: Files>(
    alloc: Global,
    dir: &str,
    key: &Key,
    at: Option<Stamp>,
    files: &F,
) -> Result<String, Fault>
    ensures text { IfOk result (λ text. IsAValue (string_bytes text)) }
    ensures told { IfOk result (λ text. IsOfKey F.Log.keeps_model F.Log.file
        (F.is_named files.now) dir.now key.now
        (λ setup image. IsValueIn setup key.now at image (string_bytes text))) }
    ensures refused { IfErr result IsNotTold }
{
    let (setup, log) = open_of_key(alloc, files, dir, key)?;
    let text = value_told(alloc, log, &setup, key, at);
    drop(setup);
    text
}

// The same as JSON.
fn get_json<F: Files>(
    alloc: Global,
    dir: &str,
    key: &Key,
    at: Option<Stamp>,
    files: &F,
) -> Result<String, Fault>
    ensures text { IfOk result (λ text. IsAJsonValue (string_bytes text)) }
    ensures told { IfOk result (λ text. IsOfKey F.Log.keeps_model F.Log.file
        (F.is_named files.now) dir.now key.now
        (λ setup image. IsJsonValueIn setup key.now at image (string_bytes text))) }
    ensures refused { IfErr result IsNotTold }
{
    let (setup, log) = open_of_key(alloc, files, dir, key)?;
    let text = value_told_json(alloc, log, &setup, key, at);
    drop(setup);
    text
}

// The value of a key in the store in a folder, at a timestamp or by the latest version, if it has one.
fn get_raw<F: Files>(
    alloc: Global,
    dir: &str,
    key: &Key,
    at: Option<Stamp>,
    files: &F,
) -> Result<Option<Value>, Fault>
    ensures told { IfOk result (λ value. IsOfKey F.Log.keeps_model F.Log.file
        (F.is_named files.now) dir.now key.now
        (λ setup image. IsRawIn setup key.now at image value)) }
    ensures refused { IfErr result IsNotTold }
{
    let (setup, log) = open_of_key(alloc, files, dir, key)?;
    let value = value_alone(alloc, log, &setup, key, at);
    drop(setup);
    value
}

// The value of a key by the log of a shard.
fn value_alone<D: Disk + Drop>(
    alloc: Global,
    disk: D,
    setup: &Setup,
    key: &Key,
    at: Option<Stamp>,
) -> Result<Option<Value>, Fault>
    ensures told { D.keeps_model → IfOk result (λ value. IsRawIn setup.now key.now at
        (surface (D.file disk)).seen value) }
    ensures refused { IfErr result IsNotTold }
{
    let Found { value, .. } = read_value(alloc, disk, setup, key, at)?;
    Ok(value)
}
