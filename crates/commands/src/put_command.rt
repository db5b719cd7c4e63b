//! The command `put`: a write to the store in a folder.
ghost use Rattle.std.specs.Prelude.{◌≡◌, IfOk, IfErr, List, ℕ, string_bytes};
ghost use Rattle.command_line.specs.Views.{given_by};
ghost use Rattle.commands.specs.Faults.{IsNoValue, IsNotPut, IsUnputBy};
ghost use Rattle.commands.specs.Puts.{IsGiven, IsPutBy, put_status, put_text};
ghost use Rattle.client.specs.declared.ended.Ended.{Ended};

use crate::engine::{Engine, Put};
use crate::hints::Hints;
use crate::places::in_refused;
use crate::store_folder::splits_of;
use client::Ended;
use command_line::Source;
use std::alloc::Global;
use system::System;
use units::{Fault, Key, Splits, Value};

// A byte more than a value has.
const MOST_INPUT: u64 = 4097;

/// Commits the write of a value to a key, as a transaction of its own, in the store in a folder. Gives what became of it, as text, and 0 if
/// it is committed, else 1. A folder without the manifest of a store is refused, and nothing is made there. The value is had first: one of
/// more than 4,096 bytes is refused as `value`.
pub fn put<F: Hints, D, P: Fn(Global, Put<'_>) -> Result<Ended, Fault>>(
    alloc: Global,
    dir: &str,
    key: &Key,
    source: Source,
    system: &System<F, Engine<D, P>>,
) -> Result<(String, u8), Fault>
    requires { P.IsAlwaysCallable system.now.drive.put }
    ensures put { IfOk result (λ told. (value : List ℕ) × (ended : Ended)
        × IsGiven (given_by source) value
        × IsPutBy (P.post system.now.drive.put alloc) dir.now key.now value ended
        × (told.1 ≡ put_status ended) × (string_bytes told.0 ≡ put_text ended)) }
    ensures refused { IfErr result (IsNotPut (IsUnputBy (P.post system.now.drive.put alloc))) }
{
    let value = value_of(alloc, source, &system.files)?;
    put_value(alloc, dir, key, &value, system)
}

// The value that a source has.
fn value_of<F: Hints>(alloc: Global, source: Source, files: &F) -> Result<Value, Fault>
    ensures given { IfOk result (IsGiven (given_by source)) }
    ensures refused { IfErr result IsNoValue }
{
    match source {
        Source::Word(value) => Ok(value),
        Source::Input => Ok(Value::new(alloc, &files.input(alloc, MOST_INPUT)?)?),
    }
}

// A value of the store in a folder.
fn put_value<F: Hints, D, P: Fn(Global, Put<'_>) -> Result<Ended, Fault>>(
    alloc: Global,
    dir: &str,
    key: &Key,
    value: &Value,
    system: &System<F, Engine<D, P>>,
) -> Result<(String, u8), Fault>
    requires { P.IsAlwaysCallable system.now.drive.put }
    ensures put { IfOk result (λ told. (ended : Ended)
        × IsPutBy (P.post system.now.drive.put alloc) dir.now key.now value.now ended
        × (told.1 ≡ put_status ended) × (string_bytes told.0 ≡ put_text ended)) }
    ensures refused { IfErr result (IsNotPut (IsUnputBy (P.post system.now.drive.put alloc))) }
{
    let ended = put_in(alloc, dir, key, value, system)?;
    told(alloc, ended)
}

// What became of the write.
fn put_in<F: Hints, D, P: Fn(Global, Put<'_>) -> Result<Ended, Fault>>(
    alloc: Global,
    dir: &str,
    key: &Key,
    value: &Value,
    system: &System<F, Engine<D, P>>,
) -> Result<Ended, Fault>
    requires { P.IsAlwaysCallable system.now.drive.put }
    ensures put { IfOk result
        (IsPutBy (P.post system.now.drive.put alloc) dir.now key.now value.now) }
    ensures refused { IfErr result (IsNotPut (IsUnputBy (P.post system.now.drive.put alloc))) }
{
    let splits = splits_of(alloc, &system.files, dir)?;
    let write = Put {
        folder: dir,
        splits: &splits,
        key,
        value,
    };
    let ended = (system.drive.put)(alloc, write);
    tell_failure(alloc, &system.files, dir, &splits, &ended);
    drop(splits);
    ended
}

// If no shard said what became of the write, tells which log failed meanwhile, and why, if that is known.
fn tell_failure<F: Hints>(
    alloc: Global,
    files: &F,
    dir: &str,
    splits: &Splits,
    ended: &Result<Ended, Fault>,
) {
    if let Ok(Ended::Unknown(_)) = ended {
        if let Some(place) = in_refused(alloc, files, dir, splits) {
            files.hint(&place);
        }
    }
}

// What is printed of it, and the status.
fn told(alloc: Global, ended: Ended) -> Result<(String, u8), Fault>
    ensures text { IfOk result (λ told. string_bytes told.0 ≡ put_text ended) }
    ensures status { IfOk result (λ told. told.1 ≡ put_status ended) }
    ensures memory { IfErr result (λ fault. fault ≡ Fault.Memory) }
{
    match ended {
        Ended::Committed(at) => Ok((format!(in alloc; "committed {at}\n")?, 0)),
        Ended::Aborted => Ok((format!(in alloc; "aborted\n")?, 1)),
        Ended::Unknown(txn) => Ok((format!(in alloc; "unknown {txn}\n")?, 1)),
    }
}
