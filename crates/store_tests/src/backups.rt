//! Stores that are backed up while clients work, and what a backup leaves that is cut off.
use crate::clients::{KEYS, disks_of, is_committed, of_two_shards, two_parts};
use crate::faulty::Faulty;
use crate::served::{
    Commits, EachClient, OneClient, Sees, lend_each, opened, serve_folder, serve_one,
};
use crate::verdict::end;
use made::{Folder, WrongRows};
use moving::{Whole, backup};
use simdisk::SimDisk;
use std::alloc::Global;
use std::fs::File;
use std::process::Abort;
use std::random::RandomSource;
use std::rt::Files;
use std::sync::Wait;
use std::sync::atomic::{AtomicBool, Ordering};
use std::thread::Threads;
use std::time;
use store::{Client, Halt, Options, Store, Transaction};
use units::{Fault, Key, Splits};

// Accounts, two on each shard, and what each has at first.
const ACCOUNTS: [&[u8]; 4] = [b"a", b"b", b"y", b"z"];

const EACH: u64 = 1_000;

const TOTAL: u64 = 4 * EACH;

// The number of the copy that is made next stands there before it is begun.
const MARK: &[u8] = b"mark";

// The folders that get copies, one after the other.
const COPIES: [&str; 5] = ["0", "1", "2", "3", "4"];

// Puts a number to keys in a transaction. Tells whether it was committed.
fn put<R: Wait + time::Clock>(client: &mut Client<'_, R>, keys: &[&[u8]], number: u64) -> bool {
    let ended = client.transact(100, |tx: &mut Transaction<'_, R>| -> Result<(), Halt> {
        for key in keys {
            tx.put_as(&Key::new(key)?, &number)?;
        }
        Ok(())
    });
    is_committed(&ended)
}

// A client that puts what each account has at first.
#[derive(Clone, Copy)]
struct Filling;

impl<R: Wait + time::Clock> OneClient<R> for Filling {
    fn work(
        &self,
        _rt: &R,
        _alloc: Global,
        client: &mut Client<'_, R>,
        _wrong: &mut WrongRows,
    ) -> Option<()> {
        if put(client, &ACCOUNTS, EACH) {
            Some(())
        } else {
            None
        }
    }
}

// Moves one from an account to another.
fn transfer<R: Wait + time::Clock>(client: &mut Client<'_, R>, from: &[u8], to: &[u8]) -> bool {
    let ended = client.transact(100, |tx: &mut Transaction<'_, R>| -> Result<(), Halt> {
        let (from, to) = (Key::new(from)?, Key::new(to)?);
        let has = tx.get_as::<u64>(&from)?.unwrap_or(0);
        let gets = tx.get_as::<u64>(&to)?.unwrap_or(0);
        if has > 0 {
            tx.put_as(&from, &(has - 1))?;
            tx.put_as(&to, &gets.saturating_add(1))?;
        }
        Ok(())
    });
    ended.is_ok()
}

// Moves money until all copies are made.
fn tell_money<R: Wait + time::Clock>(
    client: &mut Client<'_, R>,
    place: usize,
    is_over: &AtomicBool,
) -> bool {
    for number in 0..100_000_usize {
        if is_over.load(Ordering::SeqCst) {
            return true;
        }
        let from = ACCOUNTS[number.wrapping_add(place) % 4];
        let to = ACCOUNTS[number.wrapping_mul(3).wrapping_add(1) % 4];
        if from != to && !transfer(client, from, to) {
            return false;
        }
    }
    true
}

// A store in a folder, of which copies are made while clients move money.
#[derive(Clone, Copy)]
struct Copying<'c> {
    files: &'c HostRuntime,
    folder: &'c str,
    splits: &'c Splits,
    copies: &'c [String],
    is_over: &'c AtomicBool,
}

// Makes the copies. Before each its number is committed.
fn copy_often<R: Wait + time::Clock>(
    alloc: Global,
    client: &mut Client<'_, R>,
    copying: &Copying<'_>,
) -> bool {
    for (place, copy) in copying.copies.iter().enumerate() {
        let is_marked = put(client, &[MARK], place as u64);
        let (folder, splits) = (copying.folder, copying.splits);
        if !is_marked || backup(copying.files, alloc, folder, splits, copy.as_str()).is_err() {
            return false;
        }
    }
    true
}

impl<R: Wait + time::Clock> EachClient<R> for Copying<'_> {
    // The first client makes the copies, the others move money.
    fn work(&self, _rt: &R, alloc: Global, place: u64, client: &mut Client<'_, R>) -> bool {
        if place > 0 {
            return tell_money(client, place as usize, self.is_over);
        }
        let copied = copy_often(alloc, client, self);
        self.is_over.store(true, Ordering::SeqCst);
        copied
    }
}

// A copy of this number.
#[derive(Clone, Copy)]
struct Copied {
    place: u64,
}

impl<R: Wait + time::Clock> OneClient<R> for Copied {
    // Whether all accounts have all money, and the number was put before the copy.
    fn work(
        &self,
        _rt: &R,
        _alloc: Global,
        client: &mut Client<'_, R>,
        wrong: &mut WrongRows,
    ) -> Option<()> {
        let mut view = client.view()?;
        let mut has = 0_u64;
        for account in &ACCOUNTS {
            let money = view.get_as::<u64>(&Key::new(account).ok()?).ok()?;
            has = has.saturating_add(money.unwrap_or(0));
        }
        let mark = view.get_as::<u64>(&Key::new(MARK).ok()?).ok()?;
        wrong.unless_at(
            has == TOTAL && mark == Some(self.place),
            "a copy",
            self.place,
        );
        Some(())
    }
}

// The options of a store of so many clients, which is made where there is none.
fn options(test: &impl Abort, alloc: Global, clients: u64, make: bool) -> Options {
    let mut options = Options::new(two_parts(test, alloc), clients);
    options.make = make;
    options
}

// Serves the store to its clients, which copy it and move money. Returns how many of them went well, if it is served.
fn copy_beside<
    R: Files<File = File, Dir = <HostRuntime as Files>::Dir>
        + RandomSource
        + Threads
        + Wait
        + time::Clock
        + Sync,
>(rt: &R, alloc: Global, options: Options, copying: &Copying<'_>) -> Option<u64> {
    let store = Store::open_folder(rt, alloc, copying.folder, options).ok()?;
    match store.serve(|clients: Vec<Client<'_, R>>| lend_each(rt, alloc, clients, copying)) {
        Ok((well, disks)) => {
            drop(disks);
            Some(well)
        }
        Err(_) => None,
    }
}

// The paths of the copies.
fn copies_in(test: &impl Abort, alloc: Global, folder: &Folder) -> Vec<String> {
    let mut copies = Vec::new(alloc);
    for name in &COPIES {
        let path = folder.path(alloc, *name).ok().expect(test, "memory");
        copies.push(path).ok().expect(test, "memory");
    }
    copies
}

// Fails if a copy that is made beside clients has a transaction in part, or lacks what was acknowledged before it was begun.
#[test]
fn copies_beside_clients_are_whole(rt: HostRuntime) {
    let alloc = rt.alloc();
    let folder = Folder::new(&rt).ok().expect(&rt, "a folder");
    let path = folder.path(alloc, ".").ok().expect(&rt, "memory");
    let copies = copies_in(&rt, alloc, &folder);
    let splits = two_parts(&rt, alloc);
    let mut wrong = WrongRows::none(alloc);
    let chosen = options(&rt, alloc, 1, true);
    let made = serve_folder(
        &rt,
        alloc,
        path.as_str(),
        chosen,
        "the accounts",
        &Filling,
        &mut wrong,
    );
    wrong.unless(made == Ok(()), "the store");
    let is_over = AtomicBool::new(false);
    let copying = Copying {
        files: &rt,
        folder: path.as_str(),
        splits: &splits,
        copies: copies.as_slice(),
        is_over: &is_over,
    };
    let well = copy_beside(&rt, alloc, options(&rt, alloc, 3, false), &copying);
    drop(splits);
    wrong.unless(well == Some(3), "the clients");
    for (place, copy) in copies.iter().enumerate() {
        let copied = Copied {
            place: place as u64,
        };
        let chosen = options(&rt, alloc, 1, false);
        let told = serve_folder(
            &rt,
            alloc,
            copy.as_str(),
            chosen,
            "a copy",
            &copied,
            &mut wrong,
        );
        wrong.unless_at(told == Ok(()), "a copy", place as u64);
    }
    drop(copies);
    drop(path);
    wrong.unless(folder.remove(&rt), "the folder");
    end(&rt, wrong);
}

// Fails if a backup of which any call fails leaves a store that opens, or one that ends well leaves none.
#[test]
fn a_backup_that_is_cut_off_is_no_store(rt: HostRuntime) {
    let folder = Folder::new(&rt).ok().expect(&rt, "a folder");
    let alloc = rt.alloc();
    let path = folder.path(alloc, ".").ok().expect(&rt, "memory");
    let mut wrong = WrongRows::none(alloc);
    let chosen = options(&rt, alloc, 1, true);
    let made = serve_folder(
        &rt,
        alloc,
        path.as_str(),
        chosen,
        "the accounts",
        &Filling,
        &mut wrong,
    );
    wrong.unless(made == Ok(()), "the store");
    let mut ended = false;
    for fails in 0..200_u64 {
        let copy = format!(in alloc; "{}/copy-{fails}", path.as_str())
            .ok()
            .expect(&rt, "memory");
        let faulty = Faulty::new(&rt, fails);
        let splits = two_parts(&rt, alloc);
        let backed_up = backup(&faulty, alloc, path.as_str(), &splits, copy.as_str());
        drop(splits);
        ended = !faulty.has_failed();
        drop(faulty);
        let chosen = options(&rt, alloc, 1, false);
        let opened = opened(&rt, alloc, copy.as_str(), chosen, false);
        let right = match backed_up {
            Ok(()) => opened == Ok(()),
            Err(_) => opened == Err(Fault::Device),
        };
        wrong.unless_at(right, "the copy of which this call failed", fails);
        drop(copy);
        if ended {
            break;
        }
    }
    wrong.unless(ended, "the number of calls");
    drop(path);
    wrong.unless(folder.remove(&rt), "the folder");
    end(&rt, wrong);
}

// A transaction over both shards.
static COMMIT: Commits<'static> = Commits {
    tries: 100,
    keys: &KEYS,
    value: b"1",
};

// What it wrote.
static SEEN: Sees<'static> = Sees {
    keys: &KEYS,
    value: b"1",
};

// Copies of the logs on these disks.
fn copies_of(test: &impl Abort, alloc: Global, disks: Vec<SimDisk>) -> Vec<SimDisk> {
    let whole = Whole::of(alloc, disks).ok().expect(test, "whole logs");
    let mut files = Vec::new(alloc);
    for _file in 0..2 {
        files.push(SimDisk::new(alloc)).ok().expect(test, "memory");
    }
    whole.copy_onto(alloc, files).ok().expect(test, "copies")
}

// Fails if logs are copied of which one lacks its part of a transaction, or a copy lacks what was committed.
#[test]
fn logs_of_two_moments_are_refused(rt: HostRuntime) {
    let alloc = rt.alloc();
    let mut wrong = WrongRows::none(alloc);
    let (disks, chosen) = (disks_of(&rt, alloc, 2), of_two_shards(&rt, alloc, 0));
    let served = serve_one(
        &rt,
        alloc,
        disks,
        chosen,
        "the transaction",
        &COMMIT,
        &mut wrong,
    );
    let copies = copies_of(&rt, alloc, served.expect(&rt, "a service"));
    let chosen = of_two_shards(&rt, alloc, 0);
    drop(serve_one(&rt, alloc, copies, chosen, "the copies", &SEEN, &mut wrong));
    // Shard 0 decides. Shard 1 has lost its promise.
    let (disks, chosen) = (disks_of(&rt, alloc, 2), of_two_shards(&rt, alloc, 0));
    let served = serve_one(
        &rt,
        alloc,
        disks,
        chosen,
        "the transaction",
        &COMMIT,
        &mut wrong,
    );
    let mut disks = served.expect(&rt, "a service");
    let mut older = disks_of(&rt, alloc, 1);
    if let (Some(disk), Some(old)) = (disks.get_mut(1), older.pop()) {
        *disk = old;
    }
    drop(older);
    let judged = Whole::of(alloc, disks);
    let refused = matches!(judged, Err(Fault::Damaged { offset: 0 }));
    drop(judged);
    wrong.unless(refused, "an older log");
    end(&rt, wrong);
}
