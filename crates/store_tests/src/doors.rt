//! The door of a store: few transactions are open at first, and none is unknown though clients hardly wait for a silent shard.
use crate::clients::{is_committed, of_one_shard};
use crate::served::{EachClient, serve_each};
use crate::slow::slow_disks;
use crate::verdict::end;
use made::WrongRows;
use std::alloc::Global;
use std::sync::Wait;
use std::sync::atomic::{AtomicU64, Ordering};
use std::time::Duration;
use std::{thread, time};
use store::{Client, Halt, Transaction};
use units::{Key, Value};

// So many clients, each of which writes a key of its own so often, over a device whose syncs take so many milliseconds. A client waits for
// so many milliseconds for a silent shard, and the code of a transaction takes so many. So many transactions begin before the first has
// ended, at least and at most.
struct Row {
    name: &'static str,
    clients: u64,
    turns: u64,
    sync: u64,
    give_up: u64,
    code: u64,
    least: u64,
    most: u64,
}

static ROWS: [Row; 3] = [
    Row {
        name: "16 of 24 clients begin at once",
        clients: 24,
        turns: 1,
        sync: 0,
        give_up: 30_000,
        code: 40,
        least: 2,
        most: 16,
    },
    Row {
        name: "most of 12 clients begin at once",
        clients: 12,
        turns: 1,
        sync: 0,
        give_up: 30_000,
        code: 60,
        least: 6,
        most: 12,
    },
    Row {
        name: "64 clients that wait a fifth of a second, at 5 milliseconds a sync",
        clients: 64,
        turns: 4,
        sync: 5,
        give_up: 200,
        code: 0,
        least: 1,
        most: 64,
    },
];

// A row that is worked. All clients count the transactions whose code has ended, and those that began before that.
#[derive(Clone, Copy)]
struct Worked<'w> {
    row: &'w Row,
    ended: &'w AtomicU64,
    first: &'w AtomicU64,
}

impl<R: Wait + time::Clock> EachClient<R> for Worked<'_> {
    // Whether each transaction of a client commits. It writes the key of its place.
    fn work(&self, rt: &R, alloc: Global, place: u64, client: &mut Client<'_, R>) -> bool {
        let own = (place % 64) as u8;
        let mut all = true;
        for _turn in 0..self.row.turns {
            let ended = client.transact(20, |tx: &mut Transaction<'_, R>| -> Result<(), Halt> {
                if self.ended.load(Ordering::SeqCst) == 0 {
                    self.first.fetch_add(1, Ordering::SeqCst);
                }
                if self.row.code > 0 {
                    thread::sleep(rt, Duration::from_millis(self.row.code));
                }
                self.ended.fetch_add(1, Ordering::SeqCst);
                tx.put(&Key::new(&[own])?, Value::new(alloc, b"1")?)?;
                Ok(())
            });
            all = is_committed(&ended) && all;
        }
        all
    }
}

/// Shows how many transactions a store opens at once, and that none is unknown while a device is slow.
#[test]
fn doors_let_few_in(rt: HostRuntime) {
    let alloc = rt.alloc();
    let mut wrong = WrongRows::none(alloc);
    for row in &ROWS {
        let mut options = of_one_shard(&rt, alloc, row.clients);
        options.give_up = row.give_up;
        let (ended, first) = (AtomicU64::new(0), AtomicU64::new(0));
        let worked = Worked {
            row,
            ended: &ended,
            first: &first,
        };
        let disks = slow_disks(&rt, alloc, 1, row.sync);
        let all = serve_each(&rt, alloc, disks, options, &worked) == Some(row.clients);
        let first = first.load(Ordering::SeqCst);
        wrong.unless(all && first >= row.least && first <= row.most, row.name);
    }
    end(&rt, wrong);
}
