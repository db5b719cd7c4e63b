//! Stores that forget: a view that is older than what is kept is refused, and a young one is answered.
use crate::clients::{disks_of, is_committed, of_one_shard, sees, tells, write};
use crate::served::{TwoClients, serve_two};
use crate::verdict::end;
use made::WrongRows;
use std::alloc::Global;
use std::sync::Wait;
use std::time::{Duration, Instant};
use std::{thread, time};
use store::Client;
use units::Fault;

// How many microseconds are kept, and by how many bytes a log has to grow. How a view ends beside two seconds of later commits to the key
// that it reads, and how many milliseconds after its opening at least.
struct Row {
    name: &'static str,
    keep: Option<u64>,
    renew: Option<u64>,
    ends: Result<(), Fault>,
    least: u64,
}

static ROWS: [Row; 3] = [
    Row {
        name: "nothing is forgotten",
        keep: None,
        renew: None,
        ends: Ok(()),
        least: 2_000,
    },
    Row {
        name: "nothing is forgotten of logs that are renewed",
        keep: None,
        renew: Some(1_000),
        ends: Ok(()),
        least: 2_000,
    },
    Row {
        name: "half a second is kept",
        keep: Some(500_000),
        renew: None,
        ends: Err(Fault::TooOld),
        least: 400,
    },
];

// A commit each ten milliseconds.
const COMMITS: u32 = 200;

const PAUSE: u64 = 10;

impl<R: Wait + time::Clock> TwoClients<R> for Row {
    // Whether a view of the first value ends as the row says beside later commits, which are all made, and new views of both clients tell the
    // last value after it.
    fn work(
        &self,
        rt: &R,
        alloc: Global,
        reader: &mut Client<'_, R>,
        writer: &mut Client<'_, R>,
        _wrong: &mut WrongRows,
    ) -> Option<()> {
        let mut right = is_committed(&write(alloc, writer, 5, &[b"a"], b"1"));
        let start = Instant::now(rt).ok()?;
        let mut view = reader.view()?;
        let mut old = tells(&mut view, b"a", b"1");
        for _commit in 0..COMMITS {
            if old.is_err() {
                break;
            }
            right = right && is_committed(&write(alloc, writer, 5, &[b"a"], b"2"));
            thread::sleep(rt, Duration::from_millis(PAUSE));
            old = tells(&mut view, b"a", b"1");
        }
        drop(view);
        let took = start.elapsed(rt).ok()?;
        right = right && sees(reader, &[b"a"], b"2").is_ok() && sees(writer, &[b"a"], b"2").is_ok();
        if right && old == self.ends && took >= Duration::from_millis(self.least) {
            Some(())
        } else {
            None
        }
    }
}

// Fails if a store does not ask its shards to forget, or keeps less than it is told, or if only one client can look or is answered.
#[test]
fn old_views_are_refused_where_the_past_is_forgotten(rt: HostRuntime) {
    let alloc = rt.alloc();
    let mut wrong = WrongRows::none(alloc);
    for row in &ROWS {
        let mut options = of_one_shard(&rt, alloc, 2);
        options.patience = 100;
        options.keep = row.keep;
        options.renew = row.renew;
        let disks = disks_of(&rt, alloc, 1);
        drop(serve_two(&rt, alloc, disks, options, row.name, row, &mut wrong));
    }
    end(&rt, wrong);
}
