//! Stores whose clock may be wrong: how long a commit takes at least.
use crate::clients::{disks_of, is_committed, of_one_shard, write};
use crate::served::{OneClient, serve_one};
use crate::verdict::end;
use made::WrongRows;
use std::alloc::Global;
use std::sync::Wait;
use std::time;
use std::time::{Duration, Instant};
use store::Client;

// How many microseconds the true time may be from the machine's clock, and how many milliseconds the quickest of some commits takes. That is
// at least twice the former, less one, and less than `most`. A client asks again only after 20 milliseconds in silence: what is told sooner
// was told unasked.
struct Row {
    name: &'static str,
    epsilon: u64,
    commits: u32,
    least: u64,
    most: u64,
}

static ROWS: [Row; 3] = [
    Row {
        name: "a millisecond",
        epsilon: 1_000,
        commits: 20,
        least: 1,
        most: 20,
    },
    Row {
        name: "ten milliseconds",
        epsilon: 10_000,
        commits: 1,
        least: 19,
        most: 2_000,
    },
    Row {
        name: "a tenth of a second",
        epsilon: 100_000,
        commits: 1,
        least: 199,
        most: 2_000,
    },
];

// How long a commit takes.
fn took<R: Wait + time::Clock>(
    rt: &R,
    alloc: Global,
    client: &mut Client<'_, R>,
) -> Option<Duration> {
    let start = Instant::now(rt).ok()?;
    if is_committed(&write(alloc, client, 1, &[b"a"], b"1")) {
        start.elapsed(rt).ok()
    } else {
        None
    }
}

impl<R: Wait + time::Clock> OneClient<R> for Row {
    // Whether the quickest of so many commits takes so long.
    fn work(
        &self,
        rt: &R,
        alloc: Global,
        client: &mut Client<'_, R>,
        _wrong: &mut WrongRows,
    ) -> Option<()> {
        let mut least = None;
        for _commit in 0..self.commits {
            least = match (least, took(rt, alloc, client)) {
                (Some(least), Some(took)) if least < took => Some(least),
                (_, took) => took,
            };
        }
        let least = least?;
        if least >= Duration::from_millis(self.least) && least < Duration::from_millis(self.most) {
            Some(())
        } else {
            None
        }
    }
}

// Fails if a store's clock has a smaller epsilon than its options, or if no client is told that its transaction has settled. The client of
// each store waits two seconds for what it asks.
#[test]
fn commits_wait_for_the_epsilon(rt: HostRuntime) {
    let alloc = rt.alloc();
    let mut wrong = WrongRows::none(alloc);
    for row in &ROWS {
        let mut options = of_one_shard(&rt, alloc, 1);
        options.epsilon = row.epsilon;
        options.patience = 100;
        let disks = disks_of(&rt, alloc, 1);
        drop(serve_one(&rt, alloc, disks, options, row.name, row, &mut wrong));
    }
    end(&rt, wrong);
}
