//! The command `renew`.
ghost use Rattle.std.specs.Prelude.{◌≡◌, ◌⊎◌, IfOk};

use crate::refusal::Refusal;
use commands::splits_of;
use host_files::{HostFiles, Name};
use moving::{Sizes, renew};
use std::alloc::Global;
use std::fs::File;
use std::io::Write;
use std::random::RandomSource;
use std::rt;

/// Renews the logs of the closed store in a folder, and prints a line for each that was: its name, and its bytes before and after. Gives the status: 0,
/// or 2 if nobody reads the lines.
pub fn renew_folder<R: rt::Files<File = File> + Eprint + RandomSource, O: Write + Drop>(
    rt: &R,
    alloc: Global,
    dir: &str,
    keep: Option<u64>,
    output: O,
) -> Result<u8, Refusal>
    ensures { IfOk result (λ status. (status ≡ 0) ⊎ (status ≡ 2)) }
{
    let files = HostFiles::new(rt, false);
    let splits = match splits_of(alloc, &files, dir) {
        Ok(splits) => splits,
        Err(fault) => return Err(Refusal::of_manifest(alloc, &files, dir, fault)),
    };
    let mut sizes = Vec::new(alloc);
    let renewed = renew(rt, alloc, dir, &splits, keep, &mut sizes);
    drop(splits);
    let is_read = print_sizes(&sizes, output);
    match renewed {
        Ok(()) => Ok(if is_read { 0 } else { 2 }),
        Err(refused) => Err(Refusal::of_store(alloc, dir, refused)),
    }
}

// Prints a line for each log that was renewed. Says whether somebody reads them.
fn print_sizes<O: Write + Drop>(sizes: &[Sizes], output: O) -> bool {
    let mut output = output;
    for (shard, log) in sizes.iter().enumerate() {
        let Sizes { before, after } = *log;
        if writeln!(output, "{} {before} {after}", Name::Log(shard)).is_err() {
            return false;
        }
    }
    true
}
