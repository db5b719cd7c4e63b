//! Stores that forget keep few versions in memory, however many were written.
use crate::clients::{disks_of, of_one_shard, sees, write_many};
use crate::served::{OneClient, serve_one};
use crate::verdict::end;
use made::WrongRows;
use std::alloc::Global;
use std::sync::Wait;
use std::time::Duration;
use std::{thread, time};
use store::Client;

// How many microseconds are kept, and how many versions a shard has at least and at most after 6,000 were written.
struct Row {
    name: &'static str,
    keep: Option<u64>,
    least: u64,
    most: u64,
}

static ROWS: [Row; 2] = [
    Row {
        name: "all are kept for good",
        keep: None,
        least: 6_000,
        most: 6_000,
    },
    // What comes within the time that is kept stays too, and some a while longer.
    Row {
        name: "a tenth of a second is kept",
        keep: Some(100_000),
        least: 100,
        most: 4_500,
    },
];

// A commit each 20 milliseconds, of so many keys.
const COMMITS: u32 = 60;

const KEYS: u8 = 100;

const PAUSE: u64 = 20;

impl<R: Wait + time::Clock> OneClient<R> for Row {
    // Whether the shard has as many versions as the row says after all commits, and a view sees the last ones.
    fn work(
        &self,
        rt: &R,
        alloc: Global,
        client: &mut Client<'_, R>,
        _wrong: &mut WrongRows,
    ) -> Option<()> {
        let mut right = true;
        for _commit in 0..COMMITS {
            right = write_many(alloc, client, b'k', KEYS, b"1") && right;
            thread::sleep(rt, Duration::from_millis(PAUSE));
        }
        let seen = sees(client, &[&[b'k', 0], &[b'k', KEYS - 1]], b"1").is_ok();
        let versions = client.numbers().of(0)?.versions;
        if right && seen && self.least <= versions && versions <= self.most {
            Some(())
        } else {
            None
        }
    }
}

// Fails if a store that forgets keeps in memory what its horizon passed, or lets go what a view needs.
#[test]
fn what_is_forgotten_goes(rt: HostRuntime) {
    let alloc = rt.alloc();
    let mut wrong = WrongRows::none(alloc);
    for row in &ROWS {
        let mut options = of_one_shard(&rt, alloc, 1);
        options.keep = row.keep;
        let disks = disks_of(&rt, alloc, 1);
        drop(serve_one(&rt, alloc, disks, options, row.name, row, &mut wrong));
    }
    end(&rt, wrong);
}
