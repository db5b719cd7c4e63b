//! Views at a time: what stood then, too early and too late.
use crate::clients::{KEYS, disks_of, of_two_shards, stamp_of, tells, tells_all, write};
use crate::served::{OneClient, serve_one};
use crate::verdict::end;
use made::WrongRows;
use std::alloc::Global;
use std::sync::Wait;
use std::time::{Duration, Instant};
use std::{thread, time};
use store::{Client, Fault, Stamp};

// How long is kept, in microseconds.
const KEEP: u64 = 1_000_000;

// What a view at that time tells of some keys.
fn tells_at<R: Wait + time::Clock>(
    client: &mut Client<'_, R>,
    at: Stamp,
    keys: &[&[u8]],
    value: &[u8],
) -> Result<(), Fault> {
    let mut view = client.view_at(at);
    tells_all(&mut view, keys, value)
}

// Whether a view at a time that has not come waits for so many milliseconds, and is then refused within a few seconds.
fn waits_for<R: Wait + time::Clock>(
    rt: &R,
    client: &mut Client<'_, R>,
    at: Stamp,
    millis: u64,
) -> Option<bool> {
    let wait = Duration::from_millis(millis);
    let start = Instant::now(rt).ok()?;
    let mut view = client.view_at(at);
    view.wait_at_most(wait);
    let told = tells(&mut view, KEYS[0], b"2");
    let took = start.elapsed(rt).ok()?;
    let in_time = took >= wait && took < Duration::from_secs(5);
    Some(told == Err(Fault::NotYet) && in_time)
}

/// Tells what a view at that time has at these keys, once it is served, within a second.
pub fn tells_soon_at<R: Wait + time::Clock>(
    rt: &R,
    client: &mut Client<'_, R>,
    at: Stamp,
    keys: &[&[u8]],
    value: &[u8],
) -> Result<(), Fault> {
    let mut told = tells_at(client, at, keys, value);
    for _look in 0..100 {
        if told != Err(Fault::NotYet) {
            break;
        }
        thread::sleep(rt, Duration::from_millis(10));
        told = tells_at(client, at, keys, value);
    }
    told
}

// What a view at that time tells once it is forgotten, within five seconds of commits.
fn tells_late_at<R: Wait + time::Clock>(
    rt: &R,
    alloc: Global,
    client: &mut Client<'_, R>,
    at: Stamp,
) -> Result<(), Fault> {
    let mut told = tells_at(client, at, &KEYS, b"1");
    for _commit in 0..500 {
        if told.is_err() {
            break;
        }
        drop(write(alloc, client, 5, &KEYS, b"3"));
        thread::sleep(rt, Duration::from_millis(10));
        told = tells_at(client, at, &KEYS, b"1");
    }
    told
}

// What views at a time tell: at the first of two commits, at the second, at a time that has not come, and at the first once it is forgotten. Beside it
// is whether a view at a time that has not come waits as long as it is told to.
#[derive(Clone, Copy)]
struct Looking;

impl<R: Wait + time::Clock> OneClient<R> for Looking {
    fn work(
        &self,
        rt: &R,
        alloc: Global,
        client: &mut Client<'_, R>,
        wrong: &mut WrongRows,
    ) -> Option<()> {
        let first = stamp_of(&write(alloc, client, 5, &KEYS, b"1"))?;
        let second = stamp_of(&write(alloc, client, 5, &KEYS, b"2"))?;
        let told = tells_soon_at(rt, client, first, &KEYS, b"1");
        wrong.unless(told == Ok(()), "at the first commit");
        let told = tells_soon_at(rt, client, second, &KEYS, b"2");
        wrong.unless(told == Ok(()), "at the second commit");
        let start = Instant::now(rt).ok()?;
        let later = Stamp::new(second.micros().saturating_add(60_000_000)).ok()?;
        let told = tells_at(client, later, &KEYS, b"2");
        let soon = start.elapsed(rt).ok()? < Duration::from_secs(1);
        wrong.unless(told == Err(Fault::NotYet), "in a minute");
        wrong.unless(soon, "at once");
        let waits = waits_for(rt, client, later, 300)?;
        wrong.unless(waits, "after it has waited");
        let told = tells_late_at(rt, alloc, client, first);
        let forgotten = told == Err(Fault::TooOld);
        wrong.unless(forgotten, "at the first commit, once it is forgotten");
        Some(())
    }
}

// It fails where a view at a time shows the present, waits unless it is told to or for another time, or tells what is forgotten.
#[test]
fn views_tell_the_past(rt: HostRuntime) {
    let alloc = rt.alloc();
    let mut wrong = WrongRows::none(alloc);
    let mut options = of_two_shards(&rt, alloc, 100_000);
    options.keep = Some(KEEP);
    let disks = disks_of(&rt, alloc, 2);
    drop(serve_one(&rt, alloc, disks, options, "views", &Looking, &mut wrong));
    end(&rt, wrong);
}
