//! Clients that all read and write the same few keys: each goes on.
use crate::clients::{disks_of, of_one_shard};
use crate::served::{EachClient, serve_each};
use crate::verdict::end;
use made::WrongRows;
use std::alloc::Global;
use std::sync::Wait;
use std::time;
use std::time::{Duration, Instant};
use store::{Client, Ended, Halt, Transaction};
use units::Key;

// So many clients, each of which adds one to the numbers of two of so many keys, or of the only one, so often.
struct Row {
    name: &'static str,
    clients: u64,
    keys: u64,
    turns: u64,
}

static ROWS: [Row; 2] = [
    Row {
        name: "8 clients of one key",
        clients: 8,
        keys: 1,
        turns: 20,
    },
    Row {
        name: "16 clients of 4 keys",
        clients: 16,
        keys: 4,
        turns: 10,
    },
];

// Each transaction commits within so many attempts, and so many seconds.
const TRIES: u32 = 50;

const LONGEST: u64 = 2;

// One of the row's keys.
fn nth(row: &Row, number: u64) -> u8 {
    (number.checked_rem(row.keys).unwrap_or(0) % 4) as u8
}

// Whether a turn of a client commits in time.
fn goes_on<R: Wait + time::Clock>(
    rt: &R,
    client: &mut Client<'_, R>,
    row: &Row,
    turn: u64,
) -> bool {
    let one = nth(row, turn.wrapping_mul(7));
    let other = nth(row, turn.wrapping_mul(3).wrapping_add(1));
    let Ok(start) = Instant::now(rt) else {
        return false;
    };
    let ended = client.transact(TRIES, |tx: &mut Transaction<'_, R>| -> Result<(), Halt> {
        tx.add(&Key::new(&[b'a', one])?, 1)?;
        if other != one {
            tx.add(&Key::new(&[b'a', other])?, 1)?;
        }
        Ok(())
    });
    match (ended, start.elapsed(rt)) {
        (Ok(Ended::Committed { .. }), Ok(took)) => took < Duration::from_secs(LONGEST),
        _ => false,
    }
}

impl<R: Wait + time::Clock> EachClient<R> for Row {
    // Whether all turns of a client commit in time.
    fn work(&self, rt: &R, _alloc: Global, place: u64, client: &mut Client<'_, R>) -> bool {
        let first = place.wrapping_mul(self.turns);
        let mut all = true;
        for turn in 0..self.turns {
            all = goes_on(rt, client, self, first.wrapping_add(turn)) && all;
        }
        all
    }
}

/// Shows that clients of hot keys all go on: none is aborted after 50 attempts, and none is without a commit for two seconds.
#[test]
fn clients_of_hot_keys_go_on(rt: HostRuntime) {
    let alloc = rt.alloc();
    let mut wrong = WrongRows::none(alloc);
    for row in &ROWS {
        let options = of_one_shard(&rt, alloc, row.clients);
        let all = serve_each(&rt, alloc, disks_of(&rt, alloc, 1), options, row);
        wrong.unless(all == Some(row.clients), row.name);
    }
    end(&rt, wrong);
}
