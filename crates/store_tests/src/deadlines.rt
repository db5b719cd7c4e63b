//! Transactions that have a deadline.
use crate::clients::{disks_of, of_one_shard};
use crate::served::{OneClient, serve_one};
use crate::verdict::end;
use made::WrongRows;
use std::alloc::Global;
use std::sync::Wait;
use std::time;
use std::time::{Duration, Instant};
use store::{Client, Ended, Halt, Key, Transaction, Value};

// How many milliseconds there are, whether the code asks to be run again each time, and how often it is run: as often as this, or more.
struct Row {
    name: &'static str,
    millis: u64,
    again: bool,
    runs: u32,
}

static ROWS: [Row; 3] = [
    Row {
        name: "no time is left, and the code goes to its end",
        millis: 0,
        again: false,
        runs: 1,
    },
    Row {
        name: "no time is left, and the code asks to be run again",
        millis: 0,
        again: true,
        runs: 1,
    },
    Row {
        name: "a fifth of a second is left",
        millis: 200,
        again: true,
        runs: 2,
    },
];

// Whether a transaction ends as the row says, soon, after so many runs of its code.
fn goes<R: Wait + time::Clock>(
    rt: &R,
    alloc: Global,
    client: &mut Client<'_, R>,
    row: &Row,
) -> bool {
    let Ok(start) = Instant::now(rt) else {
        return false;
    };
    let mut runs: u32 = 0;
    let within = Duration::from_millis(row.millis);
    let ended = client.transact_within(
        1_000_000,
        within,
        |tx: &mut Transaction<'_, R>| -> Result<(), Halt> {
            runs = runs.saturating_add(1);
            tx.put(&Key::new(b"a")?, Value::new(alloc, b"1")?)?;
            if row.again { Err(Halt::Again) } else { Ok(()) }
        },
    );
    let ends = match ended {
        Ok(Ended::Committed { .. }) => !row.again,
        Ok(Ended::Aborted { tries }) => row.again && tries == runs,
        _ => false,
    };
    let counted = if row.millis == 0 {
        runs == row.runs
    } else {
        runs >= row.runs
    };
    match start.elapsed(rt) {
        Ok(took) => ends && counted && took >= within && took < Duration::from_secs(5),
        Err(_) => false,
    }
}

impl<R: Wait + time::Clock> OneClient<R> for [Row; 3] {
    // Whether they all do.
    fn work(
        &self,
        rt: &R,
        alloc: Global,
        client: &mut Client<'_, R>,
        wrong: &mut WrongRows,
    ) -> Option<()> {
        for row in self {
            wrong.unless(goes(rt, alloc, client, row), row.name);
        }
        Some(())
    }
}

// It fails where an attempt begins after the deadline, where the first one is not made, or where one that commits is told as aborted.
#[test]
fn no_attempt_begins_after_the_deadline(rt: HostRuntime) {
    let alloc = rt.alloc();
    let mut wrong = WrongRows::none(alloc);
    let (disks, options) = (disks_of(&rt, alloc, 1), of_one_shard(&rt, alloc, 1));
    drop(serve_one(&rt, alloc, disks, options, "a service", &ROWS, &mut wrong));
    end(&rt, wrong);
}
