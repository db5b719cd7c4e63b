//! The command `backup`.
ghost use Rattle.std.specs.Prelude.{◌≡◌, IfOk};

use crate::refusal::Refusal;
use commands::splits_of;
use host_files::HostFiles;
use moving::{NotBackedUp, Side, backup};
use std::alloc::Global;
use std::fs::File;
use std::rt;

/// Copies the store in a folder into another one.
pub fn backup_folder<R: rt::Files<File = File> + Eprint>(
    rt: &R,
    alloc: Global,
    dir: &str,
    to: &str,
) -> Result<u8, Refusal>
    ensures { IfOk result (λ status. status ≡ 0) }
{
    let files = HostFiles::new(rt, false);
    let splits = match splits_of(alloc, &files, dir) {
        Ok(splits) => splits,
        Err(fault) => return Err(Refusal::of_manifest(alloc, &files, dir, fault)),
    };
    match backup(rt, alloc, dir, &splits, to) {
        Ok(()) => Ok(0),
        Err(NotBackedUp { side, refused }) => Err(match side {
            Side::From => Refusal::of_store(alloc, dir, refused),
            Side::To => Refusal::of_store(alloc, to, refused),
        }),
    }
}
