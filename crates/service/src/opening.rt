//! A store in a folder is opened.
use crate::options::options_of;
use filedisk::Cause;
use service_words::Choices;
use std::alloc::Global;
use std::fs::File;
use std::random::RandomSource;
use std::rt::Files;
use std::sync::Wait;
use std::thread::Threads;
use std::time::Duration;
use std::{thread, time};
use store::{FolderStore, Refused, Store, Why};
use units::Splits;

// How often the folder is tried while another process has it open, and how long in between, in milliseconds: a second.
const TRIES: u32 = 50;

const REST: u64 = 20;

/// Opens the store in a folder. If another process has it open, it waits up to a second for that one to close it.
pub fn opened<'r, R: Files<File = File> + RandomSource + Threads + Wait + time::Clock + Sync>(
    rt: &'r R,
    alloc: Global,
    dir: &str,
    splits: &Splits,
    choices: &Choices,
    is_new: bool,
) -> Result<FolderStore<'r, R>, Refused> {
    for _try in 0..TRIES {
        match open_once(rt, alloc, dir, splits, choices, is_new) {
            Ok(store) => return Ok(store),
            Err(refused) => {
                if !is_in_use(&refused) {
                    return Err(refused);
                }
            }
        }
        thread::sleep(rt, Duration::from_millis(REST));
    }
    open_once(rt, alloc, dir, splits, choices, is_new)
}

// Whether another process has the folder or a log open.
fn is_in_use(refused: &Refused) -> bool {
    match refused.why {
        Some(Why::System(cause)) => cause == Cause::InUse,
        _ => false,
    }
}

fn open_once<'r, R: Files<File = File> + RandomSource + Threads + Wait + time::Clock + Sync>(
    rt: &'r R,
    alloc: Global,
    dir: &str,
    splits: &Splits,
    choices: &Choices,
    is_new: bool,
) -> Result<FolderStore<'r, R>, Refused> {
    match options_of(alloc, splits, choices) {
        Ok(options) => {
            if is_new {
                Store::make_folder(rt, alloc, dir, options)
            } else {
                Store::open_folder(rt, alloc, dir, options)
            }
        }
        Err(fault) => Err(Refused::from(fault)),
    }
}
