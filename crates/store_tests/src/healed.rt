//! Stores that open a shard again whose device failed once.
use crate::clients::{KEYS, failing_disks, is_committed, of_two_shards, sees, tells, write};
use crate::served::{TwoClients, serve_two};
use crate::verdict::end;
use made::WrongRows;
use std::alloc::Global;
use std::sync::Wait;
use std::time::{Duration, Instant};
use std::{thread, time};
use store::Client;
use units::Key;

// At which of its calls from the opening on the disk of shard 1 fails: in a group of commits, or in what the shard does besides.
static CALLS: [u64; 4] = [30, 31, 32, 33];

// Writes the numbers from 1 on to a further key of shard 1, until that is refused. Returns the last number whose commit was told.
fn count_up<R: Wait + time::Clock>(alloc: Global, client: &mut Client<'_, R>) -> Option<u8> {
    for number in 1..100_u8 {
        let ended = write(alloc, client, 1, &[b"y"], &[number]);
        if !is_committed(&ended) {
            return Some(number - 1);
        }
    }
    None
}

// Writes to shard 1 until that is told as committed. Returns how long it took; `None` if it is not in 15 seconds.
fn commit_again<R: Wait + time::Clock>(
    rt: &R,
    alloc: Global,
    client: &mut Client<'_, R>,
) -> Option<Duration> {
    let start = Instant::now(rt).ok()?;
    for _try in 0..300 {
        if is_committed(&write(alloc, client, 1, &KEYS[1..], b"2")) {
            return start.elapsed(rt).ok();
        }
        thread::sleep(rt, Duration::from_millis(50));
    }
    None
}

// Whether a new view has at the further key the last number that was told, or the next one, of which nobody was told how it ended.
fn is_kept<R: Wait + time::Clock>(client: &mut Client<'_, R>, last: u8) -> Option<bool> {
    let mut view = client.view()?;
    let value = view.get(&Key::new(b"y").ok()?).ok()?;
    Some(match &value {
        Some(value) => match value.as_bytes() {
            [number] => *number == last || *number == last.saturating_add(1),
            _ => false,
        },
        None => last == 0,
    })
}

// What clients are told: commits to shard 1 are refused once its disk has failed, and go on after a second or more, and a few seconds at most. A view
// from before is answered as it was. A new view of each client sees what was committed after that, and the last commit from before.
#[derive(Clone, Copy)]
struct Healing;

impl<R: Wait + time::Clock> TwoClients<R> for Healing {
    fn work(
        &self,
        rt: &R,
        alloc: Global,
        other: &mut Client<'_, R>,
        writer: &mut Client<'_, R>,
        wrong: &mut WrongRows,
    ) -> Option<()> {
        let began = is_committed(&write(alloc, writer, 5, &KEYS, b"1"));
        let mut view = other.view()?;
        let first = tells(&mut view, KEYS[1], b"1").is_ok();
        let last = count_up(alloc, writer);
        let refused = !is_committed(&write(alloc, writer, 1, &KEYS[1..], b"2"));
        let took = commit_again(rt, alloc, writer);
        let before = first && tells(&mut view, KEYS[1], b"1").is_ok();
        drop(view);
        let (last, took) = (last?, took?);
        wrong.unless(began && refused, "a commit to the shard that has stopped");
        let soon = Duration::from_millis(500) < took && took < Duration::from_secs(8);
        wrong.unless(soon, "the first commit after that");
        wrong.unless(before, "a view from before");
        let seen = sees(writer, &KEYS[1..], b"2").is_ok();
        wrong.unless(seen, "a later view of the client that commits");
        let seen = sees(other, &KEYS[1..], b"2").is_ok();
        wrong.unless(seen, "a later view of the other client");
        let kept = is_kept(other, last) == Some(true);
        wrong.unless(kept, "the last commit from before");
        let counted = writer.numbers().of(1)?.restarts == 1;
        wrong.unless(counted, "the number of restarts");
        Some(())
    }
}

// It fails where a shard stays stopped, where a client keeps the viewers of the old board for new views, where an open view loses that board, and where
// a commit is lost.
#[test]
fn a_shard_is_opened_again(rt: HostRuntime) {
    let alloc = rt.alloc();
    let mut wrong = WrongRows::none(alloc);
    for call in &CALLS {
        let disks = failing_disks(&rt, alloc, 2, 1, *call);
        let mut options = of_two_shards(&rt, alloc, 100_000);
        options.clients = 2;
        drop(serve_two(&rt, alloc, disks, options, "views", &Healing, &mut wrong));
    }
    end(&rt, wrong);
}
