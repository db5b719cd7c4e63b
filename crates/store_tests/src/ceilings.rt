//! Shards that log few ceilings: a shard that is looked at two a second, and one that is only written to none.
use crate::clients::{KEYS, answered_at, disks_of, is_committed, two_parts, write};
use crate::disks::held_by;
use crate::served::{OneClient, serve_one};
use crate::verdict::end;
use made::WrongRows;
use std::alloc::Global;
use std::sync::Wait;
use std::sync::atomic::{AtomicU64, Ordering};
use std::time::{Duration, Instant};
use std::{thread, time};
use store::{Client, Options};

// What a client does at both shards each ten milliseconds: it writes, or opens a view; and how many ceilings each log has then for each
// second that has begun, and how many at least.
struct Row {
    name: &'static str,
    writes: bool,
    views: bool,
    least: usize,
    most: u64,
}

static ROWS: [Row; 3] = [
    Row {
        name: "views",
        writes: false,
        views: true,
        least: 1,
        most: 2,
    },
    Row {
        name: "writes",
        writes: true,
        views: false,
        least: 0,
        most: 0,
    },
    Row {
        name: "writes and views",
        writes: true,
        views: true,
        least: 1,
        most: 2,
    },
];

// So often, and so many milliseconds apart.
const TURNS: u32 = 110;

const PAUSE: u64 = 10;

// A row that is worked, and how many seconds have begun by its end.
#[derive(Clone, Copy)]
struct Worked<'w> {
    row: &'w Row,
    seconds: &'w AtomicU64,
}

impl<R: Wait + time::Clock> OneClient<R> for Worked<'_> {
    // Does what the row says.
    fn work(
        &self,
        rt: &R,
        alloc: Global,
        client: &mut Client<'_, R>,
        _wrong: &mut WrongRows,
    ) -> Option<()> {
        let start = Instant::now(rt).ok()?;
        let mut went = true;
        for _turn in 0..TURNS {
            if self.row.writes {
                went = went && is_committed(&write(alloc, client, 5, &KEYS, b"1"));
            }
            if self.row.views {
                went = went && answered_at(client, &KEYS).is_some();
            }
            thread::sleep(rt, Duration::from_millis(PAUSE));
        }
        let took = start.elapsed(rt).ok()?;
        let seconds = took.as_secs().checked_add(1)?;
        self.seconds.store(seconds, Ordering::SeqCst);
        if went { Some(()) } else { None }
    }
}

/// Shows how many ceilings shards log at the stride of new options.
#[test]
fn shards_log_few_ceilings(rt: HostRuntime) {
    let alloc = rt.alloc();
    let mut wrong = WrongRows::none(alloc);
    for row in &ROWS {
        let begun = AtomicU64::new(0);
        let worked = Worked {
            row,
            seconds: &begun,
        };
        let options = Options::new(two_parts(&rt, alloc), 1);
        let disks = disks_of(&rt, alloc, 2);
        let served = serve_one(&rt, alloc, disks, options, row.name, &worked, &mut wrong);
        let seconds = begun.load(Ordering::SeqCst);
        if let Some(disks) = served {
            let (held, disks) = held_by(&rt, alloc, disks);
            drop(disks);
            let few = held.most as u64 <= seconds.saturating_mul(row.most);
            wrong.unless(few && held.fewest >= row.least, row.name);
        }
    }
    end(&rt, wrong);
}
