//! Schedules, line by line.
ghost use Rattle.std.specs.Prelude.{◌≡◌, ◌≤◌, ◌+◌, [], length, IfErr, OnOk};
ghost use Rattle.script.specs.Refusals.{IsNoSchedule};
ghost use Rattle.texts.specs.Refusals.{IsNoText};

use crate::events::event;
use playing::{Config, Event};
use std::alloc::Global;
use texts::{Kind, LineReader, NO_WORD, Values};
use units::{Fault, Key, Splits, Stride};

/// Reads the shards and the events of a text. A line outside the grammar is refused as `syntax`, with its number from 1. If the head ends
/// early, the number is that of the first line that it lacks. Splits that do not ascend are refused as `splits`.
pub fn schedule(alloc: Global, text: &str) -> Result<(Config, Vec<Event>), Fault>
    ensures { IfErr result IsNoSchedule }
{
    let mut reader = LineReader::of(text);
    let config = config(alloc, &mut reader)?;
    let mut events = Vec::new(alloc);
    match add_events(alloc, &mut reader, &mut events) {
        Ok(()) => Ok((config, events)),
        Err(fault) => {
            drop(events);
            drop(config);
            Err(fault)
        }
    }
}

// Puts in the events of the lines that are left.
fn add_events(
    alloc: Global,
    reader: &mut LineReader<'_>,
    events: &mut Vec<Event>,
) -> Result<(), Fault>
    ensures { IfErr result IsNoText }
{
    for _ in 0..u64::MAX {
        let Some(words) = reader.next(alloc)? else {
            break;
        };
        let event = event(alloc, &words);
        drop(words);
        match event {
            Ok(event) => events.push(event)?,
            Err(fault) => return Err(reader.fault(fault)),
        }
    }
    Ok(())
}

// The shards, by the first lines.
fn config(alloc: Global, reader: &mut LineReader<'_>) -> Result<Config, Fault>
    ensures { IfErr result IsNoSchedule }
{
    let mut keys = Vec::new(alloc);
    let config = config_of(alloc, reader, &mut keys);
    drop(keys);
    config
}

// The same, with a list for the keys of the splits.
fn config_of(
    alloc: Global,
    reader: &mut LineReader<'_>,
    keys: &mut Vec<Key>,
) -> Result<Config, Fault>
    requires { keys.old.items ≡ [] }
    ensures { IfErr result IsNoSchedule }
{
    let mut values = Values::none();
    read_head(alloc, reader, &mut values, "shards", Kind::Number)?;
    add_splits(alloc, reader, values.number, keys)?;
    read_head(alloc, reader, &mut values, "stride", Kind::Number)?;
    let Some(stride) = Stride::new(values.number) else {
        return Err(reader.fault(NO_WORD));
    };
    let splits = Splits::new(alloc, keys)?;
    Ok(Config { splits, stride })
}

// Puts in one key fewer than there are shards.
fn add_splits(
    alloc: Global,
    reader: &mut LineReader<'_>,
    count: u64,
    keys: &mut Vec<Key>,
) -> Result<(), Fault>
    requires { keys.old.items ≡ [] }
    ensures few { OnOk result (length keys.new.items ≤ 15) }
    ensures refused { IfErr result IsNoText }
{
    if count == 0 || count > 16 {
        return Err(reader.fault(NO_WORD));
    }
    let mut values = Values::none();
    for _split in 1..count {
        read_head(alloc, reader, &mut values, "split", Kind::Key)?;
        keys.push(values.key)?;
    }
    Ok(())
}

// Reads the next line, which has to be this name and one word of a kind.
fn read_head(
    alloc: Global,
    reader: &mut LineReader<'_>,
    values: &mut Values,
    name: &str,
    kind: Kind,
) -> Result<(), Fault>
    ensures { IfErr result IsNoText }
{
    if let Some(word) = reader.head(alloc, name)? {
        if values.read_word(kind, word) {
            return Ok(());
        }
    }
    Err(reader.fault(NO_WORD))
}
