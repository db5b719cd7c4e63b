//! Looks at cores.
ghost use Rattle.std.specs.Prelude.{◌≡◌, IfOk, IfErr};
ghost use Rattle.shard.specs.Core.{seen};
ghost use Rattle.lives.specs.Looks.{look_core};

use crate::view::value_at;
use shard::Core;
use simdisk::SimDisk;
use std::alloc::Global;
use units::{Fault, Key, Seen, Stamp, Value};
use world::Reply;

/// Looks at a core by its own look, with room for the longest value. `Memory` if memory runs out.
pub fn look_at_core(
    alloc: Global,
    core: &Core<SimDisk>,
    key: &Key,
    at: Stamp,
) -> Result<Reply, Fault>
    ensures shown { IfOk result (λ reply. reply ≡ look_core (seen core.now) key.now at) }
    ensures memory { IfErr result (λ fault. fault ≡ Fault.Memory) }
{
    let mut buffer = [0; 4096];
    match core.look(key, at, &mut buffer) {
        Ok(Seen::Absent) => Ok(Reply::Shows(None)),
        Ok(Seen::Value(size)) => match Value::new(alloc, &buffer[..size]) {
            Ok(value) => Ok(Reply::Shows(Some(value))),
            Err(_) => Err(Fault::Memory),
        },
        // No value is longer, but no contract of a core says so.
        Err(Fault::Room) => match value_at(core.installs(), key, at) {
            Ok(value) => Ok(Reply::Shows(value)),
            Err(fault) => Err(fault),
        },
        Err(fault) => Ok(Reply::Refused(fault)),
    }
}
