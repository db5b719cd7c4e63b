//! Stores over two shards: at which timestamp a view stands that is opened after a commit, and what views tell, also once the store is opened
//! again.
use crate::clients::{KEYS, answered_at, disks_of, of_two_shards, sees, stamp_of, write};
use crate::served::{OneClient, Sees, serve_one};
use crate::verdict::end;
use drive::MachineClock;
use made::WrongRows;
use std::alloc::Global;
use std::process::Abort;
use std::sync::Wait;
use std::time;
use store::{Client, Options};
use truetime::Clock;

// How many microseconds the true time may be from the machine's clock.
const EPSILON: u64 = 1_000;

// The options of the store: its logs are ahead by a tenth of a second at most.
fn options(rt: &impl Abort, alloc: Global) -> Options {
    let mut options = of_two_shards(rt, alloc, 100_000);
    options.epsilon = EPSILON;
    options
}

// The latest of a reading of the machine's clock.
fn latest<R: time::Clock>(rt: &R) -> Option<u64> {
    let mut clock = MachineClock {
        rt,
        epsilon: EPSILON,
    };
    match clock.now() {
        Some(now) => Some(now.latest().micros()),
        None => None,
    }
}

// What is so of a view after a commit. It stands no sooner, and between two readings of the machine's clock. A view tells what was written on
// both shards.
#[derive(Clone, Copy)]
struct Looking;

impl<R: Wait + time::Clock> OneClient<R> for Looking {
    fn work(
        &self,
        rt: &R,
        alloc: Global,
        client: &mut Client<'_, R>,
        wrong: &mut WrongRows,
    ) -> Option<()> {
        let since = stamp_of(&write(alloc, client, 5, &KEYS, b"1"))?;
        let before = latest(rt)?;
        let at = answered_at(client, &[])?;
        let after = latest(rt)?;
        let seen = sees(client, &KEYS, b"1").is_ok();
        let later = since.micros() <= at;
        wrong.unless(later, "a view stands no sooner than what is committed");
        let present = before <= at && at <= after;
        wrong.unless(present, "a view stands at the present");
        wrong.unless(seen, "a view tells what is committed");
        Some(())
    }
}

// What was written.
static SEEN: Sees<'static> = Sees {
    keys: &KEYS,
    value: b"1",
};

// Fails if the clock of a store is not the machine's, or a view stands by a reading from before. It also fails if the disks of a store that
// is closed are not handed back by shard.
#[test]
fn views_tell_what_was_committed(rt: HostRuntime) {
    let alloc = rt.alloc();
    let mut wrong = WrongRows::none(alloc);
    let (disks, options_then) = (disks_of(&rt, alloc, 2), options(&rt, alloc));
    let served = serve_one(
        &rt,
        alloc,
        disks,
        options_then,
        "a commit",
        &Looking,
        &mut wrong,
    );
    let disks = served.expect(&rt, "a service");
    let name = "the same once the store is opened again";
    drop(serve_one(
        &rt,
        alloc,
        disks,
        options(&rt, alloc),
        name,
        &SEEN,
        &mut wrong,
    ));
    end(&rt, wrong);
}
