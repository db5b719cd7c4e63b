//! A clock that is wrong: logs that are ahead of it, and one that is set back, or goes on by hours, while a store is served.
use crate::clients::{KEYS, disks_of, of_two_shards, stamp_of, write};
use crate::disks::logs_of;
use crate::past_views::tells_soon_at;
use crate::served::{Commits, OneClient, Sees, opened, serve_folder, serve_one};
use crate::verdict::end;
use host_files::logs_in;
use made::{Folder, WrongRows, is_text};
use std::alloc::Global;
use std::fs::File;
use std::process::Abort;
use std::random::RandomSource;
use std::rt::Files;
use std::sync::Wait;
use std::sync::atomic::{AtomicU64, Ordering};
use std::thread::Threads;
use std::time::{Clock, Duration, Instant};
use std::{io, thread};
use store::{Client, Expected, Fault, Name, Options, Refused, Stamp, Store, Why, refusal_of};

// How far the clock is wrong at first, in microseconds.
const WRONG: u64 = 5_000_000;

// An hour, in microseconds.
const HOUR: u64 = 3_600_000_000;

// By how much it is set back, in microseconds.
const BACK: u64 = 1_000_000;

// How far logs may be ahead of the clock beyond the stride, and the stride, in microseconds.
const AHEAD: u64 = 1_000_000;

const STRIDE: u64 = 100_000;

// A runtime whose clock is so many microseconds ahead of the machine's.
#[derive(Drop)]
struct Ahead<'a, R> {
    rt: &'a R,
    micros: &'a AtomicU64,
}

impl<R: Threads> Threads for Ahead<'_, R> {}

impl<R: Wait> Wait for Ahead<'_, R> {}

impl<R: Clock> Clock for Ahead<'_, R> {
    fn monotonic(&self) -> io::Result<Duration> {
        self.rt.monotonic()
    }

    fn since_1970(&self) -> io::Result<Duration> {
        let ahead = Duration::from_micros(self.micros.load(Ordering::SeqCst));
        Ok(self.rt.since_1970()?.saturating_add(ahead))
    }

    fn sleep(&self, duration: Duration) {
        self.rt.sleep(duration)
    }
}

// A commit to both shards.
static COMMIT: Commits<'static> = Commits {
    tries: 5,
    keys: &KEYS,
    value: b"1",
};

// What it wrote.
static SEEN: Sees<'static> = Sees {
    keys: &KEYS,
    value: b"1",
};

fn options(rt: &impl Abort, alloc: Global) -> Options {
    let mut options = of_two_shards(rt, alloc, STRIDE);
    options.ahead = AHEAD;
    options
}

// Opens it until it is not refused as `Future`, for ten seconds. Then a view has to have what was written.
fn opened_later<
    R: Files<File = File, Dir = <HostRuntime as Files>::Dir>
        + RandomSource
        + Threads
        + Wait
        + Clock
        + Sync
        + Abort,
>(rt: &R, alloc: Global, path: &str, wrong: &mut WrongRows) -> Result<(), Fault> {
    let name = "what was written";
    let mut told = serve_folder(rt, alloc, path, options(rt, alloc), name, &SEEN, wrong);
    for _try in 0..100 {
        if told != Err(Fault::Future) {
            break;
        }
        thread::sleep(rt, Duration::from_millis(100));
        told = serve_folder(rt, alloc, path, options(rt, alloc), name, &SEEN, wrong);
    }
    told
}

// Whether a refusal names a log and how far it is ahead, in these words: farther than it may be, and no farther than the clock was.
fn is_told(alloc: Global, refused: &Refused) -> bool {
    let (Some(Name::Log(_)), Some(Why::Ahead(micros))) = (refused.file, refused.why) else {
        return false;
    };
    let Ok(words) = format!(in alloc; "is {micros} microseconds ahead of the clock") else {
        return false;
    };
    let same = is_text(format!(in alloc; "{}", Why::Ahead(micros)), words.as_str());
    drop(words);
    same && micros > AHEAD + STRIDE && micros <= WRONG + STRIDE && refused.fault == Fault::Future
}

// Whether both logs have these bytes.
fn are_left(rt: &HostRuntime, folder: &Folder, logs: &[Vec<u8>; 2]) -> bool {
    let [first, second] = logs;
    folder.has(rt, "shard-0.log", first) && folder.has(rt, "shard-1.log", second)
}

// Fails if a store is opened whose logs are too far ahead of the clock, or if that is logged or told otherwise. It also fails if it is still
// refused once the clock has passed more of them.
#[test]
fn logs_ahead_of_the_clock(rt: HostRuntime) {
    let alloc = rt.alloc();
    let folder = Folder::new(&rt).ok().expect(&rt, "a folder");
    let path = folder.path(alloc, ".").ok().expect(&rt, "memory");
    let mut wrong = WrongRows::none(alloc);
    let micros = AtomicU64::new(WRONG);
    let ahead = Ahead {
        rt: &rt,
        micros: &micros,
    };
    let limits = options(&rt, alloc);
    let empty = logs_in(&rt, alloc, path.as_str(), &limits.splits, Expected::NoStore);
    let empty = empty.ok().expect(&rt, "empty logs");
    let options_then = options(&rt, alloc);
    drop(serve_one(
        &ahead,
        alloc,
        empty,
        options_then,
        "a commit",
        &COMMIT,
        &mut wrong,
    ));
    let logs = logs_of(&rt, &folder).expect(&rt, "logs");
    let first = opened(&rt, alloc, path.as_str(), options(&rt, alloc), false);
    wrong.unless(first == Err(Fault::Future), "logs that are ahead");
    let refused = refusal_of(&rt, alloc, path.as_str(), &limits);
    drop(limits);
    let told = match &refused {
        Some(refused) => is_told(alloc, refused),
        None => false,
    };
    wrong.unless(told, "what is told of them");
    wrong.unless(are_left(&rt, &folder, &logs), "nothing is logged");
    drop(logs);
    let later = opened_later(&rt, alloc, path.as_str(), &mut wrong);
    wrong.unless(later == Ok(()), "once the clock has passed more of them");
    drop(path);
    wrong.unless(folder.remove(&rt), "the folder");
    end(&rt, wrong);
}

// Fails if a store does not tell that its logs are ahead of the clock, or by how much, or if it does though the clock has passed them.
#[test]
fn leads_of_logs_are_told(rt: HostRuntime) {
    let alloc = rt.alloc();
    let mut wrong = WrongRows::none(alloc);
    let micros = AtomicU64::new(HOUR);
    let ahead = Ahead {
        rt: &rt,
        micros: &micros,
    };
    let (disks, options_then) = (disks_of(&rt, alloc, 2), options(&rt, alloc));
    let served = serve_one(
        &ahead,
        alloc,
        disks,
        options_then,
        "a commit",
        &COMMIT,
        &mut wrong,
    );
    let disks = served.expect(&rt, "a service");
    let store = Store::open(&ahead, alloc, disks, options(&rt, alloc)).ok();
    let store = store.expect(&rt, "a store");
    let first = store.ahead();
    micros.store(0, Ordering::SeqCst);
    let second = store.ahead();
    drop(store);
    let far = match second {
        Some(lead) => HOUR / 2 <= lead && lead <= HOUR + STRIDE,
        None => false,
    };
    wrong.unless(first == Some(0), "while the clock is past the logs");
    wrong.unless(far, "once it is set back by an hour");
    end(&rt, wrong);
}

// What is so of a commit after the clock was set back: it is later than the one before, and took as long as the clock needs to come back there.
#[derive(Clone, Copy)]
struct SettingBack<'a> {
    micros: &'a AtomicU64,
}

impl<R: Wait + Clock> OneClient<R> for SettingBack<'_> {
    fn work(
        &self,
        rt: &R,
        alloc: Global,
        client: &mut Client<'_, R>,
        wrong: &mut WrongRows,
    ) -> Option<()> {
        let first = stamp_of(&write(alloc, client, 5, &KEYS, b"1"))?;
        self.micros.store(WRONG - BACK, Ordering::SeqCst);
        let start = Instant::now(rt).ok()?;
        let second = stamp_of(&write(alloc, client, 5, &KEYS, b"1"))?;
        let took = start.elapsed(rt).ok()?;
        wrong.unless(first < second, "the order of the commits");
        let waited = took >= Duration::from_micros(BACK / 2);
        wrong.unless(waited, "the commit waits for the clock");
        let soon = took < Duration::from_secs(10);
        wrong.unless(soon, "it ends within what a client waits");
        Some(())
    }
}

// Fails if a transaction is told as unknown or aborted since the clock was set back by less than `give_up`, or commits at an earlier timestamp
// than one before it. It also fails if the commit does not wait for the clock.
#[test]
fn a_clock_that_is_set_back(rt: HostRuntime) {
    let alloc = rt.alloc();
    let micros = AtomicU64::new(WRONG);
    let ahead = Ahead {
        rt: &rt,
        micros: &micros,
    };
    let mut options = of_two_shards(&rt, alloc, STRIDE);
    options.give_up = 10_000;
    let mut wrong = WrongRows::none(alloc);
    let work = SettingBack { micros: &micros };
    let disks = disks_of(&rt, alloc, 2);
    drop(serve_one(
        &ahead,
        alloc,
        disks,
        options,
        "two commits",
        &work,
        &mut wrong,
    ));
    end(&rt, wrong);
}

// How far the clock goes on while a store is served, in microseconds: two hours.
const HOURS: u64 = 7_200_000_000;

// Whether the log of the first shard is turned over within ten seconds of commits.
fn is_turned<R: Wait + Clock>(rt: &R, alloc: Global, client: &mut Client<'_, R>) -> bool {
    for _commit in 0..500 {
        drop(write(alloc, client, 5, &KEYS, b"2"));
        if let Some(told) = client.numbers().of(0) {
            if told.turnovers > 0 {
                return true;
            }
        }
        thread::sleep(rt, Duration::from_millis(20));
    }
    false
}

// Whether a log was turned over two hours after a commit, and a view at the time of the commit is answered then.
#[derive(Clone, Copy)]
struct GoingOn<'a> {
    micros: &'a AtomicU64,
}

impl<R: Wait + Clock> OneClient<R> for GoingOn<'_> {
    fn work(
        &self,
        rt: &R,
        alloc: Global,
        client: &mut Client<'_, R>,
        wrong: &mut WrongRows,
    ) -> Option<()> {
        let first = stamp_of(&write(alloc, client, 5, &KEYS, b"1"))?;
        self.micros.store(HOURS, Ordering::SeqCst);
        let turned = is_turned(rt, alloc, client);
        let told = tells_soon_at(rt, client, first, &KEYS[..1], b"1");
        wrong.unless(turned && told == Ok(()), "a view of two hours ago");
        Some(())
    }
}

// Fails if a store that keeps the past for good forgets what is older than an hour once its logs are renewed.
#[test]
fn old_versions_stay_for_good(rt: HostRuntime) {
    let alloc = rt.alloc();
    let micros = AtomicU64::new(0);
    let ahead = Ahead {
        rt: &rt,
        micros: &micros,
    };
    let mut options = of_two_shards(&rt, alloc, STRIDE);
    options.renew = Some(1_000);
    let mut wrong = WrongRows::none(alloc);
    let work = GoingOn { micros: &micros };
    let disks = disks_of(&rt, alloc, 2);
    drop(serve_one(&ahead, alloc, disks, options, "a commit", &work, &mut wrong));
    end(&rt, wrong);
}
