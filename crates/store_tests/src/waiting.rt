//! Stores whose keys are locked when a client writes them, by another client or by what a log promises: the write goes on soon.
use crate::clients::{disks_of, of_one_shard, of_two_shards, write_soon};
use crate::served::{EachClient, OneClient, serve_each, serve_one, wait_for};
use crate::verdict::end;
use gatelog::GateLog;
use made::{WrongRows, id, key, shard, stamp};
use record::{Prepared, Record};
use simdisk::SimDisk;
use std::alloc::Global;
use std::process::Abort;
use std::sync::Wait;
use std::sync::atomic::{AtomicU64, Ordering};
use std::time::Duration;
use std::{thread, time};
use store::{Client, Ended, Halt, Transaction};
use units::{Epoch, Key, Keys, Value, Write, Writes};

// Whether a transaction that has read a key commits, or is given up.
struct Row {
    name: &'static str,
    commits: bool,
}

static ROWS: [Row; 2] = [
    Row {
        name: "it commits",
        commits: true,
    },
    Row {
        name: "it is given up",
        commits: false,
    },
];

// So many milliseconds it holds its lock.
const HELD: u64 = 50;

// Reads the key, says so, and ends a while after that.
fn hold<R: Wait + time::Clock>(
    rt: &R,
    client: &mut Client<'_, R>,
    has_read: &AtomicU64,
    row: &Row,
) -> bool {
    let ended = client.transact(1, |tx: &mut Transaction<'_, R>| -> Result<(), Halt> {
        drop(tx.get(&Key::new(b"a")?)?);
        has_read.store(1, Ordering::SeqCst);
        thread::sleep(rt, Duration::from_millis(HELD));
        if row.commits {
            Ok(())
        } else {
            Err(Halt::Abandon(()))
        }
    });
    match ended {
        Ok(Ended::Committed { .. }) => row.commits,
        Ok(Ended::Abandoned(())) => !row.commits,
        _ => false,
    }
}

// A row that two clients work, each on a thread. The number is 1 once the first has read.
#[derive(Clone, Copy)]
struct Worked<'w> {
    row: &'w Row,
    has_read: &'w AtomicU64,
}

impl<R: Wait + time::Clock> EachClient<R> for Worked<'_> {
    // Whether a client comes to what it is to. The second writes the key once the first has read it, and that has to commit within a second.
    fn work(&self, rt: &R, alloc: Global, place: u64, client: &mut Client<'_, R>) -> bool {
        if place == 0 {
            return hold(rt, client, self.has_read, self.row);
        }
        wait_for(rt, self.has_read, 1);
        let ended = write_soon(rt, alloc, client, &[b"a"]);
        matches!(ended, Some(Ended::Committed { .. }))
    }
}

// Fails if a shard is not told that a transaction is given up, or does not go on with what waits for it. Clients wait two seconds for what they
// ask.
#[test]
fn locks_are_given_back(rt: HostRuntime) {
    let alloc = rt.alloc();
    let mut wrong = WrongRows::none(alloc);
    for row in &ROWS {
        let mut options = of_one_shard(&rt, alloc, 2);
        options.patience = 100;
        let begun = AtomicU64::new(0);
        let worked = Worked {
            row,
            has_read: &begun,
        };
        let both = serve_each(&rt, alloc, disks_of(&rt, alloc, 1), options, &worked);
        wrong.unless(both == Some(2), row.name);
    }
    end(&rt, wrong);
}

// Puts a record into a log.
fn append(rt: &impl Abort, alloc: Global, log: &mut GateLog<SimDisk>, record: Record) {
    let staged = log.stage(alloc, record).ok().expect(rt, "memory");
    drop(log.append(staged).ok().expect(rt, "a record").spend());
}

// A disk whose log has, after an opening, a promise of shard 1 to write `z`, of a transaction that shard 0 decides, which has no outcome.
fn promised(rt: &impl Abort, alloc: Global) -> SimDisk {
    let mut writes = Vec::new(alloc);
    let write = Write {
        key: key(b'z'),
        value: Some(Value::new(alloc, b"0").ok().expect(rt, "memory")),
    };
    writes.push(write).ok().expect(rt, "memory");
    let promise = Record::Prepare(Prepared {
        txn: id(1),
        coordinator: shard(0),
        at: stamp(1),
        reads: Keys::none(alloc),
        writes: Writes::from_vec(writes).ok().expect(rt, "writes"),
    });
    let format = GateLog::format(SimDisk::new(alloc));
    let mut log = format.ok().expect(rt, "a log");
    let epoch = Epoch::first();
    append(rt, alloc, &mut log, Record::Opened { epoch });
    append(rt, alloc, &mut log, promise);
    log.into_disk()
}

// Whether a write of the key commits within a second.
#[derive(Clone, Copy)]
struct Asking;

impl<R: Wait + time::Clock> OneClient<R> for Asking {
    fn work(
        &self,
        rt: &R,
        alloc: Global,
        client: &mut Client<'_, R>,
        _wrong: &mut WrongRows,
    ) -> Option<()> {
        match write_soon(rt, alloc, client, &[b"z"]) {
            Some(Ended::Committed { .. }) => Some(()),
            _ => None,
        }
    }
}

// Fails if a shard does not ask how what it has promised ended.
#[test]
fn promises_are_asked_for(rt: HostRuntime) {
    let alloc = rt.alloc();
    let mut wrong = WrongRows::none(alloc);
    let mut disks = disks_of(&rt, alloc, 1);
    let pushed = disks.push(promised(&rt, alloc));
    pushed.ok().expect(&rt, "memory");
    let options = of_two_shards(&rt, alloc, 100_000);
    let name = "a write of what is promised";
    drop(serve_one(&rt, alloc, disks, options, name, &Asking, &mut wrong));
    end(&rt, wrong);
}
