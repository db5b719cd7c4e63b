//! Stores that renew their logs: what the log of a shard begins with, and what is seen once it is opened again.
use crate::clients::{disks_of, is_committed, of_one_shard, write};
use crate::disks::held_by;
use crate::served::{OneClient, Sees, serve_one};
use crate::verdict::end;
use made::{FIRST_GATE, WrongRows};
use std::alloc::Global;
use std::process::Abort;
use std::sync::Wait;
use std::time::Duration;
use std::{thread, time};
use store::{Client, Options};

// How many microseconds are kept, by how many bytes a log has to grow, and whether it was turned over after a second of commits.
struct Row {
    name: &'static str,
    keep: Option<u64>,
    renew: Option<u64>,
    renewed: bool,
}

const KEPT: Option<u64> = Some(200_000);

static ROWS: [Row; 4] = [
    Row {
        name: "no log is renewed",
        keep: KEPT,
        renew: None,
        renewed: false,
    },
    Row {
        name: "a log that has grown by a thousand bytes",
        keep: KEPT,
        renew: Some(1_000),
        renewed: true,
    },
    Row {
        name: "one whose past is kept for good",
        keep: None,
        renew: Some(1_000),
        renewed: true,
    },
    Row {
        name: "a log that has not grown by so much",
        keep: KEPT,
        renew: Some(1_000_000),
        renewed: false,
    },
];

// A commit each ten milliseconds, of 73 bytes in the log.
const COMMITS: u32 = 100;

const PAUSE: u64 = 10;

// What was written.
static SEEN: Sees<'static> = Sees {
    keys: &[b"a"],
    value: b"1",
};

// The options of a store of one client, as the row says.
fn options_of(rt: &impl Abort, alloc: Global, row: &Row) -> Options {
    let mut options = of_one_shard(rt, alloc, 1);
    options.patience = 100;
    options.keep = row.keep;
    options.renew = row.renew;
    options
}

// Whether the numbers tell that the shard has forgotten something, or nothing if all is kept, and was never refused.
fn is_counted<R: Wait + time::Clock>(client: &Client<'_, R>, row: &Row) -> bool {
    match client.numbers().of(0) {
        Some(numbers) => {
            (numbers.forgets > 0) == row.keep.is_some()
                && numbers.turnovers_refused == 0
                && numbers.fault == 0
        }
        None => false,
    }
}

// Whether the numbers tell within ten seconds that the log was turned over, and stands in another area. The shard tells that when it shows
// something.
fn is_turned<R: Wait + time::Clock>(
    rt: &R,
    alloc: Global,
    client: &mut Client<'_, R>,
    row: &Row,
) -> bool {
    for _commit in 0..500 {
        drop(write(alloc, client, 5, &[b"a"], b"1"));
        if let Some(told) = client.numbers().of(0) {
            if told.turnovers > 0 {
                return told.turnovers_left() == 1_024_u64.saturating_sub(told.turnovers)
                    && (told.horizon > 0) == row.keep.is_some()
                    && told.area_begins > FIRST_GATE + 1
                    && told.log_bytes >= told.area_begins;
            }
        }
        thread::sleep(rt, Duration::from_millis(20));
    }
    false
}

impl<R: Wait + time::Clock> OneClient<R> for Row {
    // Whether all commits were made, and what was forgotten meanwhile is counted. If the log is renewed, that is told.
    fn work(
        &self,
        rt: &R,
        alloc: Global,
        client: &mut Client<'_, R>,
        _wrong: &mut WrongRows,
    ) -> Option<()> {
        let mut right = true;
        for _commit in 0..COMMITS {
            right = is_committed(&write(alloc, client, 5, &[b"a"], b"1")) && right;
            thread::sleep(rt, Duration::from_millis(PAUSE));
        }
        right = right && is_counted(client, self);
        if self.renewed {
            right = right && is_turned(rt, alloc, client, self);
        }
        if right { Some(()) } else { None }
    }
}

// Fails if a store renews no log, or each, or if what was written is not seen over a renewed one.
#[test]
fn logs_of_stores_are_renewed(rt: HostRuntime) {
    let alloc = rt.alloc();
    let mut wrong = WrongRows::none(alloc);
    for row in &ROWS {
        let options = options_of(&rt, alloc, row);
        let disks = disks_of(&rt, alloc, 1);
        if let Some(disks) = serve_one(&rt, alloc, disks, options, row.name, row, &mut wrong) {
            let (held, disks) = held_by(&rt, alloc, disks);
            wrong.unless((held.bases == 1) == row.renewed, row.name);
            let options = options_of(&rt, alloc, row);
            drop(serve_one(&rt, alloc, disks, options, row.name, &SEEN, &mut wrong));
        }
    }
    end(&rt, wrong);
}
