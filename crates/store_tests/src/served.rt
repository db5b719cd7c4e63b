//! Stores that are served to a client, to two, or to many on threads of their own.
use crate::clients::{is_committed, sees, write};
use disk::Disk;
use made::WrongRows;
use std::alloc::Global;
use std::fs::File;
use std::random::RandomSource;
use std::rt::Files;
use std::sync::Wait;
use std::sync::atomic::{AtomicU64, Ordering};
use std::thread::Threads;
use std::time::Duration;
use std::{thread, time};
use store::{Client, Fault, Options, Store};

/// What one client of a store does.
pub trait OneClient<R: Wait + time::Clock> {
    /// Goes on with the client, and notes what goes wrong. `None` if the client cannot go on, or the row that is being tried is wrong.
    fn work(
        &self,
        rt: &R,
        alloc: Global,
        client: &mut Client<'_, R>,
        wrong: &mut WrongRows,
    ) -> Option<()>;
}

/// What two clients of a store do.
pub trait TwoClients<R: Wait + time::Clock> {
    /// Goes on with the clients, and notes what goes wrong. `None` if they cannot go on, or the row that is being tried is wrong.
    fn work(
        &self,
        rt: &R,
        alloc: Global,
        one: &mut Client<'_, R>,
        other: &mut Client<'_, R>,
        wrong: &mut WrongRows,
    ) -> Option<()>;
}

/// What each client of a store does on a thread of its own.
pub trait EachClient<R: Wait + time::Clock> {
    /// Goes on with the client of this place, from 0 on. Tells whether all went well.
    fn work(&self, rt: &R, alloc: Global, place: u64, client: &mut Client<'_, R>) -> bool;
}

// Lends a client.
fn lend_one<R: Wait + time::Clock, W: OneClient<R>>(
    rt: &R,
    alloc: Global,
    clients: Vec<Client<'_, R>>,
    work: &W,
    wrong: &mut WrongRows,
) -> bool {
    let mut clients = clients;
    let Some(mut client) = clients.pop() else {
        return false;
    };
    drop(clients);
    let done = work.work(rt, alloc, &mut client, wrong);
    drop(client);
    done.is_some()
}

// Lends two clients.
fn lend_two<R: Wait + time::Clock, W: TwoClients<R>>(
    rt: &R,
    alloc: Global,
    clients: Vec<Client<'_, R>>,
    work: &W,
    wrong: &mut WrongRows,
) -> bool {
    let mut clients = clients;
    let (Some(mut one), Some(mut other)) = (clients.pop(), clients.pop()) else {
        return false;
    };
    drop(clients);
    let done = work.work(rt, alloc, &mut one, &mut other, wrong);
    drop(one);
    drop(other);
    done.is_some()
}

/// Lets each client work on a thread of its own. Returns how many of them went well.
pub fn lend_each<R: Threads + Wait + time::Clock + Sync, W: EachClient<R> + Sync>(
    rt: &R,
    alloc: Global,
    clients: Vec<Client<'_, R>>,
    work: &W,
) -> u64 {
    let places = AtomicU64::new(0);
    let well = AtomicU64::new(0);
    let done = thread::map_vec(
        rt,
        clients,
        &|client: Client<'_, R>| {
            let mut client = client;
            let place = places.fetch_add(1, Ordering::SeqCst);
            if work.work(rt, alloc, place, &mut client) {
                well.fetch_add(1, Ordering::SeqCst);
            }
            drop(client);
        },
    );
    drop(done);
    well.load(Ordering::SeqCst)
}

/// Waits until a number is as great as this, for ten seconds at most.
pub fn wait_for<R: Wait + time::Clock>(rt: &R, stage: &AtomicU64, at_least: u64) {
    for _milli in 0..10_000 {
        if stage.load(Ordering::SeqCst) >= at_least {
            return;
        }
        thread::sleep(rt, Duration::from_millis(1));
    }
}

/// Opens a store over disks, and serves it to a client. Notes a wrong row of this name if the store is refused, or if the work says so. Returns
/// the disks, if it was served.
pub fn serve_one<R: Threads + Wait + time::Clock + Sync, D: Disk + Drop + Send, W: OneClient<R>>(
    rt: &R,
    alloc: Global,
    disks: Vec<D>,
    options: Options,
    name: &str,
    work: &W,
    wrong: &mut WrongRows,
) -> Option<Vec<D>> {
    let Ok(store) = Store::open(rt, alloc, disks, options) else {
        wrong.unless(false, name);
        return None;
    };
    match store.serve(|clients: Vec<Client<'_, R>>| lend_one(rt, alloc, clients, work, wrong)) {
        Ok((done, disks)) => {
            wrong.unless(done, name);
            Some(disks)
        }
        Err(_) => {
            wrong.unless(false, name);
            None
        }
    }
}

/// `serve_one`, to two clients.
pub fn serve_two<R: Threads + Wait + time::Clock + Sync, D: Disk + Drop + Send, W: TwoClients<R>>(
    rt: &R,
    alloc: Global,
    disks: Vec<D>,
    options: Options,
    name: &str,
    work: &W,
    wrong: &mut WrongRows,
) -> Option<Vec<D>> {
    let Ok(store) = Store::open(rt, alloc, disks, options) else {
        wrong.unless(false, name);
        return None;
    };
    match store.serve(|clients: Vec<Client<'_, R>>| lend_two(rt, alloc, clients, work, wrong)) {
        Ok((done, disks)) => {
            wrong.unless(done, name);
            Some(disks)
        }
        Err(_) => {
            wrong.unless(false, name);
            None
        }
    }
}

/// Opens a store over disks, and serves it to all its clients, each on a thread of its own. Returns how many of them went well, if it was
/// served.
pub fn serve_each<
    R: Threads + Wait + time::Clock + Sync,
    D: Disk + Drop + Send,
    W: EachClient<R> + Sync,
>(rt: &R, alloc: Global, disks: Vec<D>, options: Options, work: &W) -> Option<u64> {
    let store = Store::open(rt, alloc, disks, options).ok()?;
    match store.serve(|clients: Vec<Client<'_, R>>| lend_each(rt, alloc, clients, work)) {
        Ok((well, disks)) => {
            drop(disks);
            Some(well)
        }
        Err(_) => None,
    }
}

/// Opens the store in a folder, and serves it to a client. Returns why it is refused, if it is. Else it notes a wrong row of this name if the
/// work says so.
pub fn serve_folder<
    R: Files<File = File, Dir = <HostRuntime as Files>::Dir>
        + RandomSource
        + Threads
        + Wait
        + time::Clock
        + Sync,
    W: OneClient<R>,
>(
    rt: &R,
    alloc: Global,
    path: &str,
    options: Options,
    name: &str,
    work: &W,
    wrong: &mut WrongRows,
) -> Result<(), Fault> {
    let store = match Store::open_folder(rt, alloc, path, options) {
        Ok(store) => store,
        Err(refused) => return Err(refused.fault),
    };
    match store.serve(|clients: Vec<Client<'_, R>>| lend_one(rt, alloc, clients, work, wrong)) {
        Ok((done, disks)) => {
            drop(disks);
            wrong.unless(done, name);
        }
        Err(_) => wrong.unless(false, name),
    }
    Ok(())
}

/// Opens the store in a folder, or makes it, and closes it at once. Returns why it is refused, if it is.
pub fn opened<R: Files<File = File> + RandomSource + Threads + Wait + time::Clock + Sync>(
    rt: &R,
    alloc: Global,
    path: &str,
    options: Options,
    makes: bool,
) -> Result<(), Fault> {
    let store = if makes {
        Store::make_folder(rt, alloc, path, options)
    } else {
        Store::open_folder(rt, alloc, path, options)
    };
    match store {
        Ok(store) => {
            drop(store);
            Ok(())
        }
        Err(refused) => Err(refused.fault),
    }
}

/// A client that looks whether a new view has this value at each of these keys.
pub struct Sees<'k> {
    /// The keys.
    pub keys: &'k [&'k [u8]],
    /// The value.
    pub value: &'k [u8],
}

impl<R: Wait + time::Clock> OneClient<R> for Sees<'_> {
    fn work(
        &self,
        _rt: &R,
        _alloc: Global,
        client: &mut Client<'_, R>,
        _wrong: &mut WrongRows,
    ) -> Option<()> {
        sees(client, self.keys, self.value).ok()
    }
}

/// A client that writes a value to keys in a transaction, which has to commit.
pub struct Commits<'k> {
    /// How often it is tried.
    pub tries: u32,
    /// The keys.
    pub keys: &'k [&'k [u8]],
    /// The value.
    pub value: &'k [u8],
}

impl<R: Wait + time::Clock> OneClient<R> for Commits<'_> {
    fn work(
        &self,
        _rt: &R,
        alloc: Global,
        client: &mut Client<'_, R>,
        _wrong: &mut WrongRows,
    ) -> Option<()> {
        if is_committed(&write(alloc, client, self.tries, self.keys, self.value)) {
            Some(())
        } else {
            None
        }
    }
}
