//! Clients that wait: for slow devices, for long epsilons, and for each other. None is told `Unknown`, since nothing fails.
use crate::clients::{is_committed, two_parts, write};
use crate::served::{EachClient, serve_each, wait_for};
use crate::slow::slow_disks;
use crate::verdict::end;
use made::WrongRows;
use std::alloc::Global;
use std::process::Abort;
use std::sync::Wait;
use std::sync::atomic::{AtomicU64, Ordering};
use std::time::{Duration, Instant};
use std::{thread, time};
use store::{Client, Halt, Options, Transaction};
use units::{Key, Value};

// So many clients, each of which writes a key of its own to each of two shards so often. The devices' syncs take so many milliseconds, and
// the epsilon is in microseconds. No two clients are in each other's way, so each transaction commits at once, however long that takes.
struct Row {
    name: &'static str,
    clients: u64,
    turns: u64,
    millis: u64,
    epsilon: u64,
}

static ROWS: [Row; 2] = [
    Row {
        name: "16 clients at 5 milliseconds a sync",
        clients: 16,
        turns: 13,
        millis: 5,
        epsilon: 1_000,
    },
    Row {
        name: "2 clients and an epsilon of a fifth of a second",
        clients: 2,
        turns: 1,
        millis: 0,
        epsilon: 200_000,
    },
];

// Options of a store over two shards, which part at `m`.
fn options_of(rt: &impl Abort, alloc: Global, clients: u64, epsilon: u64) -> Options {
    let mut options = Options::new(two_parts(rt, alloc), clients);
    options.epsilon = epsilon;
    options
}

// Whether a transaction that writes a key of shard 0 and one of shard 1 commits, and its code ran once.
fn commits_at_once<R: Wait + time::Clock>(
    alloc: Global,
    client: &mut Client<'_, R>,
    number: u8,
) -> bool {
    let mut attempts = 0_u32;
    let ended = client.transact(5, |tx: &mut Transaction<'_, R>| -> Result<(), Halt> {
        attempts = attempts.saturating_add(1);
        for key in [[b'a', number], [b'z', number]] {
            tx.put(&Key::new(&key)?, Value::new(alloc, b"1")?)?;
        }
        Ok(())
    });
    attempts == 1 && is_committed(&ended)
}

impl<R: Wait + time::Clock> EachClient<R> for Row {
    // Whether all transactions of a client commit at once.
    fn work(&self, _rt: &R, alloc: Global, place: u64, client: &mut Client<'_, R>) -> bool {
        let own = (place % 64) as u8;
        let mut all = true;
        for _turn in 0..self.turns {
            all = commits_at_once(alloc, client, own) && all;
        }
        all
    }
}

// Fails if a client gives up a transaction that is under way at its shards, or tells it `Unknown`.
#[test]
fn clients_wait_for_slow_shards(rt: HostRuntime) {
    let alloc = rt.alloc();
    let mut wrong = WrongRows::none(alloc);
    for row in &ROWS {
        let options = options_of(&rt, alloc, row.clients, row.epsilon);
        let disks = slow_disks(&rt, alloc, 2, row.millis);
        let all = serve_each(&rt, alloc, disks, options, row);
        wrong.unless(all == Some(row.clients), row.name);
    }
    end(&rt, wrong);
}

// Adds one to a key of shard 0 and one of shard 1, by reads one after the other, with a rest between them in the first attempt.
fn add<R: Wait + time::Clock>(
    rt: &R,
    alloc: Global,
    client: &mut Client<'_, R>,
    begun: &AtomicU64,
) -> bool {
    let mut attempts = 0_u32;
    let ended = client.transact(50, |tx: &mut Transaction<'_, R>| -> Result<(), Halt> {
        attempts = attempts.saturating_add(1);
        drop(tx.get(&Key::new(b"a")?)?);
        begun.store(1, Ordering::SeqCst);
        if attempts == 1 {
            thread::sleep(rt, Duration::from_millis(50));
        }
        drop(tx.get(&Key::new(b"z")?)?);
        tx.put(&Key::new(b"z")?, Value::new(alloc, b"1")?)?;
        Ok(())
    });
    is_committed(&ended)
}

// Two clients that wait for each other. The number is 1 once the first has read.
#[derive(Clone, Copy)]
struct Meeting<'a>(&'a AtomicU64);

impl<R: Wait + time::Clock> EachClient<R> for Meeting<'_> {
    // Whether a client commits. The second writes both keys, once the first has read one: shard 1 promises that, and shard 0 waits for who has
    // read there, which is older.
    fn work(&self, rt: &R, alloc: Global, place: u64, client: &mut Client<'_, R>) -> bool {
        if place == 0 {
            return add(rt, alloc, client, self.0);
        }
        wait_for(rt, self.0, 1);
        is_committed(&write(alloc, client, 50, &[b"a", b"z"], b"2"))
    }
}

// Fails if clients that wait for each other go on waiting for longer than a second. They do so for no more than 160 milliseconds, after 50 of
// rest.
#[test]
fn deadlocks(rt: HostRuntime) {
    let alloc = rt.alloc();
    let (options, slow) = (
        options_of(&rt, alloc, 2, 1_000),
        slow_disks(&rt, alloc, 2, 0),
    );
    let begun = AtomicU64::new(0);
    let start = Instant::now(&rt).ok().expect(&rt, "a clock");
    let well = serve_each(&rt, alloc, slow, options, &Meeting(&begun));
    let took = start.elapsed(&rt).ok().expect(&rt, "a clock");
    let mut wrong = WrongRows::none(alloc);
    wrong.unless(well == Some(2), "both commit");
    wrong.unless(took < Duration::from_secs(1), "soon");
    end(&rt, wrong);
}
