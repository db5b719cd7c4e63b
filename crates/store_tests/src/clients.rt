//! Stores over disks in memory, and what clients of theirs do.
use host_files::logs_in_memory;
use simdisk::SimDisk;
use std::alloc::Global;
use std::process::Abort;
use std::sync::Wait;
use std::time;
use std::time::{Duration, Instant};
use store::{Client, Ended, Halt, Options, Transaction, View};
use units::{Fault, Key, Splits, Stamp, Stride, Value};

/// A key of shard 0 and one of shard 1.
pub const KEYS: [&[u8]; 2] = [b"a", b"z"];

/// A write of a transaction: a key with its value, or with none if it is erased.
pub type Written<'w> = (&'w [u8], Option<&'w [u8]>);

/// Makes so many disks with an empty log.
pub fn disks_of(rt: &impl Abort, alloc: Global, logs: usize) -> Vec<SimDisk> {
    logs_in_memory(alloc, logs).ok().expect(rt, "logs")
}

/// Makes so many disks with an empty log. That of the shard fails at this of its calls from the opening on.
pub fn failing_disks(
    rt: &impl Abort,
    alloc: Global,
    logs: usize,
    shard: u8,
    call: u64,
) -> Vec<SimDisk> {
    let mut disks = disks_of(rt, alloc, logs);
    if let Some(disk) = disks.get_mut(usize::from(shard)) {
        disk.fail_next(call);
    }
    disks
}

/// Makes the splits of two shards, which part at `m`.
pub fn two_parts(rt: &impl Abort, alloc: Global) -> Splits {
    let split = Key::new(b"m").ok().expect(rt, "a key");
    Splits::new(alloc, &[split]).ok().expect(rt, "splits")
}

/// Makes the options of a store of so many clients over one shard.
pub fn of_one_shard(rt: &impl Abort, alloc: Global, clients: u64) -> Options {
    Options::new(Splits::new(alloc, &[]).ok().expect(rt, "splits"), clients)
}

/// Makes the options of a store of one client over two shards, which part at `m`. A client waits two seconds, so that what it hears in one
/// was told.
pub fn of_two_shards(rt: &impl Abort, alloc: Global, stride: u64) -> Options {
    let mut options = Options::new(two_parts(rt, alloc), 1);
    options.stride = Stride::new(stride).expect(rt, "a stride");
    options.patience = 100;
    options
}

/// Tells whether a transaction was committed.
pub fn is_committed(ended: &Result<Ended, Fault>) -> bool {
    matches!(ended, Ok(Ended::Committed { .. }))
}

/// Returns the timestamp of a transaction, if it was committed.
pub fn stamp_of(ended: &Result<Ended, Fault>) -> Option<Stamp> {
    match ended {
        Ok(Ended::Committed { at, .. }) => Some(*at),
        _ => None,
    }
}

/// Writes a value to keys in a transaction, and returns how it ended.
pub fn write<R: Wait + time::Clock>(
    alloc: Global,
    client: &mut Client<'_, R>,
    tries: u32,
    keys: &[&[u8]],
    value: &[u8],
) -> Result<Ended, Fault> {
    client.transact(tries, |tx: &mut Transaction<'_, R>| -> Result<(), Halt> {
        for key in keys {
            tx.put(&Key::new(key)?, Value::new(alloc, value)?)?;
        }
        Ok(())
    })
}

/// Writes a value to keys of two bytes in a transaction: to so many, from 0 on, that begin with this letter. Tells whether it was committed.
pub fn write_many<R: Wait + time::Clock>(
    alloc: Global,
    client: &mut Client<'_, R>,
    letter: u8,
    keys: u8,
    value: &[u8],
) -> bool {
    let ended = client.transact(5, |tx: &mut Transaction<'_, R>| -> Result<(), Halt> {
        for name in 0..keys {
            tx.put(&Key::new(&[letter, name])?, Value::new(alloc, value)?)?;
        }
        Ok(())
    });
    is_committed(&ended)
}

/// Writes and erases keys in a transaction. Returns its timestamp, if it was committed.
pub fn commit<R: Wait + time::Clock>(
    alloc: Global,
    client: &mut Client<'_, R>,
    writes: &[Written<'_>],
) -> Option<Stamp> {
    let ended = client.transact(5, |tx: &mut Transaction<'_, R>| -> Result<(), Halt> {
        for write in writes {
            let key = Key::new(write.0)?;
            match write.1 {
                Some(value) => tx.put(&key, Value::new(alloc, value)?)?,
                None => tx.erase(&key)?,
            }
        }
        Ok(())
    });
    stamp_of(&ended)
}

/// Writes 1 to keys in a transaction. Returns how it ended, if that took less than a second.
pub fn write_soon<R: Wait + time::Clock>(
    rt: &R,
    alloc: Global,
    client: &mut Client<'_, R>,
    keys: &[&[u8]],
) -> Option<Ended> {
    let start = Instant::now(rt).ok()?;
    let ended = write(alloc, client, 1, keys, b"1");
    if start.elapsed(rt).ok()? < Duration::from_secs(1) {
        ended.ok()
    } else {
        None
    }
}

/// Tells whether a view has this value at a key, or why it has none. Another value, or none, is told as `Room`, which no row has.
pub fn tells<R: Wait + time::Clock>(
    view: &mut View<'_, '_, R>,
    key: &[u8],
    value: &[u8],
) -> Result<(), Fault> {
    match view.get(&Key::new(key)?)? {
        Some(found) if found.as_bytes() == value => Ok(()),
        _ => Err(Fault::Room),
    }
}

/// Tells whether a view has this value at each of these keys, or why one has not.
pub fn tells_all<R: Wait + time::Clock>(
    view: &mut View<'_, '_, R>,
    keys: &[&[u8]],
    value: &[u8],
) -> Result<(), Fault> {
    for key in keys {
        tells(view, key, value)?;
    }
    Ok(())
}

/// Tells whether a new view of the client has this value at each of these keys, or why one has not.
pub fn sees<R: Wait + time::Clock>(
    client: &mut Client<'_, R>,
    keys: &[&[u8]],
    value: &[u8],
) -> Result<(), Fault> {
    match client.view() {
        Some(mut view) => tells_all(&mut view, keys, value),
        None => Err(Fault::TimeSpent),
    }
}

/// Returns the timestamp of a new view of the client, in microseconds, if it answers each of these keys.
pub fn answered_at<R: Wait + time::Clock>(
    client: &mut Client<'_, R>,
    keys: &[&[u8]],
) -> Option<u64> {
    let mut view = client.view()?;
    for key in keys {
        drop(view.get(&Key::new(key).ok()?).ok()?);
    }
    Some(view.at().micros())
}
