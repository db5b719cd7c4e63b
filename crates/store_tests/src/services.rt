//! Services over disks in memory: what a client is told if a shard's device fails, and from what a store goes on that is opened again.
use crate::clients::{
    KEYS, answered_at, disks_of, failing_disks, of_two_shards, write_many, write_soon,
};
use crate::served::{OneClient, serve_one};
use crate::verdict::end;
use made::WrongRows;
use simdisk::SimDisk;
use std::alloc::Global;
use std::process::Abort;
use std::sync::Wait;
use std::sync::atomic::{AtomicU64, Ordering};
use std::time::{Duration, Instant};
use std::{thread, time};
use store::{Client, Ended, Halt, Store, Transaction, Unopened};
use units::{Fault, Key, ShardNo};

// Which shard's disk fails, at which of its calls from the opening on, and how a transaction ends that writes there and on the other shard:
// shard 0 decides.
#[derive(Clone, Copy)]
struct Row {
    name: &'static str,
    shard: u8,
    call: u64,
    commits: bool,
}

static ROWS: [Row; 4] = [
    Row {
        name: "call 20 of shard 0",
        shard: 0,
        call: 20,
        commits: false,
    },
    Row {
        name: "call 21 of shard 0",
        shard: 0,
        call: 21,
        commits: false,
    },
    Row {
        name: "call 22 of shard 1",
        shard: 1,
        call: 22,
        commits: true,
    },
    Row {
        name: "call 23 of shard 1",
        shard: 1,
        call: 23,
        commits: true,
    },
];

// Further ones: what is in doubt holds its locks.
const FREE: [&[u8]; 2] = [b"b", b"y"];

// Whether a transaction that reads a key is refused as `Stopped`, within so many seconds.
fn is_refused<R: Wait + time::Clock>(
    rt: &R,
    client: &mut Client<'_, R>,
    tries: u32,
    key: &[u8],
    seconds: u64,
) -> bool {
    let Ok(start) = Instant::now(rt) else {
        return false;
    };
    let ended = client.transact(tries, |tx: &mut Transaction<'_, R>| -> Result<(), Halt> {
        drop(tx.get(&Key::new(key)?)?);
        Ok(())
    });
    match start.elapsed(rt) {
        Ok(took) => ended == Err(Fault::Stopped) && took < Duration::from_secs(seconds),
        Err(_) => false,
    }
}

// Writes to both shards until that is not told as committed within a second, 101 times at most. Returns what was told last.
fn write_till_stopped<R: Wait + time::Clock>(
    rt: &R,
    alloc: Global,
    client: &mut Client<'_, R>,
) -> Option<Ended> {
    let mut last = write_soon(rt, alloc, client, &KEYS);
    for _transaction in 0..100 {
        if !matches!(last, Some(Ended::Committed { .. })) {
            break;
        }
        last = write_soon(rt, alloc, client, &KEYS);
    }
    last
}

impl<R: Wait + time::Clock> OneClient<R> for Row {
    // Whether a transaction over both shards ends as the row says once the device has failed, and then those over one of them.
    fn work(
        &self,
        rt: &R,
        alloc: Global,
        client: &mut Client<'_, R>,
        _wrong: &mut WrongRows,
    ) -> Option<()> {
        let ended = match write_till_stopped(rt, alloc, client) {
            Some(Ended::Aborted { .. }) => self.commits,
            Some(Ended::Unknown { .. }) => !self.commits,
            _ => false,
        };
        let (failed, other, running) = if self.shard == 0 {
            (KEYS[0], FREE[1], 1)
        } else {
            (KEYS[1], FREE[0], 0)
        };
        let refused = is_refused(rt, client, 5, failed, 1);
        let last = write_soon(rt, alloc, client, &[other]);
        let commits = matches!(last, Some(Ended::Committed { .. }));
        let (failed, running) = (ShardNo::new(self.shard)?, ShardNo::new(running)?);
        let told = client.has_stopped(failed) && !client.has_stopped(running);
        if ended && refused && commits && told {
            Some(())
        } else {
            None
        }
    }
}

// Fails if a client hears nothing of a letter that a shard refuses, or if all shards have stopped with one.
#[test]
fn services_hear_of_stopped_shards(rt: HostRuntime) {
    let alloc = rt.alloc();
    let mut wrong = WrongRows::none(alloc);
    for row in &ROWS {
        let disks = failing_disks(&rt, alloc, 2, row.shard, row.call);
        let options = of_two_shards(&rt, alloc, 100_000);
        drop(serve_one(&rt, alloc, disks, options, row.name, row, &mut wrong));
    }
    end(&rt, wrong);
}

// Whether the numbers tell of one transaction that shard 1 has promised and not heard the end of, within two seconds of commits there. The stopped
// shard is opened again after a second, so they are to tell it before that.
fn is_counted<R: Wait + time::Clock>(rt: &R, alloc: Global, client: &mut Client<'_, R>) -> bool {
    for _commit in 0..100 {
        if let Some(numbers) = client.numbers().of(1) {
            if numbers.in_doubt == 1 && numbers.doubt_since > 0 {
                return true;
            }
        }
        // These keys of shard 1 are others than what is in doubt, which holds its locks. After a few such transactions the shard shows soon
        // what it has.
        let _ = write_many(alloc, client, b'n', 128, b"1");
        thread::sleep(rt, Duration::from_millis(20));
    }
    false
}

// Whether a transaction is refused as `Stopped` within two seconds, though it may be tried fifty times. It reads a key on the other shard,
// which a stopped shard has left in doubt. And whether that is counted.
#[derive(Clone, Copy)]
struct Doubting;

impl<R: Wait + time::Clock> OneClient<R> for Doubting {
    fn work(
        &self,
        rt: &R,
        alloc: Global,
        client: &mut Client<'_, R>,
        wrong: &mut WrongRows,
    ) -> Option<()> {
        drop(write_till_stopped(rt, alloc, client));
        let refused = is_refused(rt, client, 50, KEYS[1], 2);
        wrong.unless(refused, "a read of what is in doubt");
        let counted = is_counted(rt, alloc, client);
        wrong.unless(counted, "the number of what is in doubt");
        Some(())
    }
}

// Fails if a client tries on what a stopped shard has left in doubt.
#[test]
fn what_is_left_in_doubt_is_not_tried_on(rt: HostRuntime) {
    let alloc = rt.alloc();
    let mut wrong = WrongRows::none(alloc);
    let mut options = of_two_shards(&rt, alloc, 100_000);
    options.patience = 5;
    let disks = failing_disks(&rt, alloc, 2, 0, 20);
    drop(serve_one(
        &rt,
        alloc,
        disks,
        options,
        "a service",
        &Doubting,
        &mut wrong,
    ));
    end(&rt, wrong);
}

/// A client that looks what it finds in a store: the run of the ids of its transactions, and the timestamp of a view that answers some keys, or 0
/// if none does.
#[derive(Clone, Copy)]
pub struct Finding<'k> {
    /// The keys.
    pub keys: &'k [&'k [u8]],
    /// Gets the run.
    pub run: &'k AtomicU64,
    /// Gets the timestamp, in microseconds.
    pub at: &'k AtomicU64,
}

impl<R: Wait + time::Clock> OneClient<R> for Finding<'_> {
    fn work(
        &self,
        _rt: &R,
        _alloc: Global,
        client: &mut Client<'_, R>,
        _wrong: &mut WrongRows,
    ) -> Option<()> {
        let ended = client.transact(1, |tx: &mut Transaction<'_, R>| -> Result<(), Halt<u64>> {
            Err(Halt::Abandon(tx.id().run()))
        });
        let at = answered_at(client, self.keys).unwrap_or(0);
        self.at.store(at, Ordering::SeqCst);
        match ended {
            Ok(Ended::Abandoned(run)) => {
                self.run.store(run, Ordering::SeqCst);
                Some(())
            }
            _ => None,
        }
    }
}

// Fails if a store's ids begin anew, or its clock does: the log of shard 0 is ten seconds ahead of that. The clock is that of its clients, or
// that by which shard 1 is served, which nobody has looked at before.
#[test]
fn stores_go_on_from_their_logs(rt: HostRuntime) {
    let alloc = rt.alloc();
    let mut wrong = WrongRows::none(alloc);
    let (run, at) = (AtomicU64::new(0), AtomicU64::new(0));
    let finding = Finding {
        keys: &KEYS[..1],
        run: &run,
        at: &at,
    };
    let options = of_two_shards(&rt, alloc, 10_000_000);
    let disks = disks_of(&rt, alloc, 2);
    let served = serve_one(&rt, alloc, disks, options, "a client", &finding, &mut wrong);
    let disks = served.expect(&rt, "a service");
    let (first, then) = (run.load(Ordering::SeqCst), at.load(Ordering::SeqCst));
    let finding = Finding {
        keys: &KEYS,
        ..finding
    };
    let options = of_two_shards(&rt, alloc, 10_000_000);
    drop(serve_one(&rt, alloc, disks, options, "it again", &finding, &mut wrong));
    let (second, later) = (run.load(Ordering::SeqCst), at.load(Ordering::SeqCst));
    wrong.unless((first, second) == (1, 2), "the runs of ids");
    let ahead = then > 0 && later >= then.saturating_add(9_000_000);
    wrong.unless(ahead, "the clock");
    end(&rt, wrong);
}

// Fails if the refusal does not name the shard that is refused.
#[test]
fn refused_shards_are_named(rt: HostRuntime) {
    let alloc = rt.alloc();
    let mut disks = disks_of(&rt, alloc, 1);
    disks.push(SimDisk::new(alloc)).ok().expect(&rt, "memory");
    let unopened = match Store::open(&rt, alloc, disks, of_two_shards(&rt, alloc, 0)) {
        Ok(store) => {
            drop(store);
            rt.panic("a store over no log")
        }
        Err(unopened) => unopened,
    };
    let named = Unopened {
        shard: ShardNo::new(1),
        fault: Fault::NotALog,
    };
    let mut wrong = WrongRows::none(alloc);
    wrong.unless(unopened == named, "what is refused");
    let text = format!(in alloc; "{unopened}").ok().expect(&rt, "memory");
    let same = text.as_str() == "shard 1: 12 NotALog";
    drop(text);
    wrong.unless(same, "its text");
    end(&rt, wrong);
}
