//! An empty store is made in a folder.
use crate::opening::opened;
use crate::refusal::Refusal;
use commands::splits_of;
use filedisk::{Cause, cause_of};
use host_files::HostFiles;
use service_words::Choices;
use std::alloc::Global;
use std::fs::{self, File};
use std::io::{self, ErrorKind};
use std::path::Path;
use std::random::RandomSource;
use std::sync::Wait;
use std::thread::Threads;
use std::{rt, time};
use units::{Fault, Splits, Stride};

/// Makes an empty store in a folder, which is made if it is not there. A folder with a store is refused, as `Device`, and so is one in which
/// something stands in the place of its manifest.
pub fn make<
    R: rt::Files<File = File> + Eprint + RandomSource + Threads + Wait + time::Clock + Sync,
>(rt: &R, alloc: Global, dir: &str, splits: &Splits) -> Result<(), Refusal> {
    let files = HostFiles::new(rt, false);
    match splits_of(alloc, &files, dir) {
        Err(Fault::Device) => {}
        Err(Fault::Memory) => return Err(Refusal::from(Fault::Memory)),
        Err(_) => return Err(is_there(alloc, dir)),
        Ok(splits) => {
            drop(splits);
            return Err(is_there(alloc, dir));
        }
    }
    if let Err(cause) = make_dir(rt, dir) {
        return Err(Refusal::at(alloc, dir, cause));
    }
    let Some(stride) = Stride::new(0) else {
        return Err(Refusal::from(Fault::Device));
    };
    let choices = Choices {
        clients: 1,
        epsilon: 0,
        stride,
        keep: None,
        renew: None,
        shrink: None,
        retire: None,
        patience: 1,
        idle: 1_000,
    };
    match opened(rt, alloc, dir, splits, &choices, true) {
        Ok(store) => {
            drop(store);
            Ok(())
        }
        Err(refused) => Err(Refusal::of_store(alloc, dir, refused)),
    }
}

// The folder has a manifest, or what stands in its place.
fn is_there(alloc: Global, dir: &str) -> Refusal {
    match format!(in alloc; "{dir}/store.toml") {
        Ok(manifest) => Refusal::at(alloc, &manifest, Cause::Exists),
        Err(_) => Refusal::from(Fault::Memory),
    }
}

// Makes a folder, if it is not there. Its name is on the device then.
fn make_dir<R: rt::Files<File = File>>(rt: &R, dir: &str) -> Result<(), Cause> {
    match fs::create_dir(rt, dir) {
        Ok(()) => sync_folder(rt, dir),
        Err(error) if error.kind() == ErrorKind::AlreadyExists => Ok(()),
        Err(error) => Err(cause_of(&error)),
    }
}

// Waits until the names in the folder that a path stands in are on the device.
fn sync_folder<R: rt::Files<File = File>>(rt: &R, path: &str) -> Result<(), Cause> {
    let folder = match Path::new(path).parent() {
        Some(folder) if !folder.as_os_str().is_empty() => folder,
        _ => Path::new("."),
    };
    or_cause(or_cause(File::open(rt, folder))?.sync_all())
}

fn or_cause<T: Drop>(answer: io::Result<T>) -> Result<T, Cause> {
    match answer {
        Ok(value) => Ok(value),
        Err(error) => Err(cause_of(&error)),
    }
}
