//! A store in a folder is opened for one client, who works alone.
use crate::opening::opened;
use crate::refusal::Refusal;
use commands::splits_of;
use host_files::HostFiles;
use service_words::Choices;
use std::alloc::Global;
use std::fs::File;
use std::random::RandomSource;
use std::sync::Wait;
use std::thread::Threads;
use std::{rt, time};
use store::{Client, FolderStore, Options, Store};
use units::{Fault, Reason};

/// Opens the store in a folder for one client.
pub fn opened_alone<
    'r,
    R: rt::Files<File = File> + Eprint + RandomSource + Threads + Wait + time::Clock + Sync,
>(rt: &'r R, alloc: Global, dir: &str) -> Result<FolderStore<'r, R>, Refusal> {
    let files = HostFiles::new(rt, false);
    let splits = match splits_of(alloc, &files, dir) {
        Ok(splits) => splits,
        Err(fault) => return Err(Refusal::of_manifest(alloc, &files, dir, fault)),
    };
    let defaults = Options::new(splits.copy(alloc)?, 1);
    let choices = Choices {
        clients: 1,
        epsilon: defaults.epsilon,
        stride: defaults.stride,
        keep: None,
        renew: None,
        shrink: None,
        retire: None,
        patience: defaults.patience,
        idle: 1_000,
    };
    drop(defaults);
    match opened(rt, alloc, dir, &splits, &choices, false) {
        Ok(store) => Ok(store),
        Err(refused) => Err(Refusal::of_store(alloc, dir, refused)),
    }
}

/// The one client.
pub fn only<R>(clients: Vec<Client<'_, R>>) -> Result<Client<'_, R>, Fault> {
    let mut clients = clients;
    clients.pop().ok_or(Fault::BadRequest(Reason::Settings))
}
