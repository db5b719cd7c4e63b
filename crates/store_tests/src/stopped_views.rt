//! Views of two shards, one of whose devices fails.
use crate::clients::{KEYS, failing_disks, is_committed, of_two_shards, sees, tells, write};
use crate::served::{TwoClients, serve_two};
use crate::verdict::end;
use made::WrongRows;
use std::alloc::Global;
use std::sync::Wait;
use std::time;
use std::time::{Duration, Instant};
use store::{Client, Fault};

// Writes to shard 1 until that is refused.
fn write_till_stopped<R: Wait + time::Clock>(alloc: Global, client: &mut Client<'_, R>) {
    for _transaction in 0..100 {
        if !is_committed(&write(alloc, client, 1, &KEYS[1..], b"2")) {
            return;
        }
    }
}

// What views tell after a commit to both shards: one that was opened before shard 1 stopped, of that shard; and a later one of both, and whether it
// took less than a second.
#[derive(Clone, Copy)]
struct Stopping;

impl<R: Wait + time::Clock> TwoClients<R> for Stopping {
    fn work(
        &self,
        rt: &R,
        alloc: Global,
        client: &mut Client<'_, R>,
        writer: &mut Client<'_, R>,
        wrong: &mut WrongRows,
    ) -> Option<()> {
        drop(write(alloc, writer, 5, &KEYS, b"1").ok()?);
        let mut view = client.view()?;
        tells(&mut view, KEYS[1], b"1").ok()?;
        write_till_stopped(alloc, writer);
        let before = tells(&mut view, KEYS[1], b"1");
        drop(view);
        let start = Instant::now(rt).ok()?;
        let running = sees(client, &KEYS[..1], b"1");
        let stopped = sees(client, &KEYS[1..], b"2");
        let soon = start.elapsed(rt).ok()? < Duration::from_secs(1);
        wrong.unless(before == Ok(()), "a view from before");
        wrong.unless(running == Ok(()), "a later one, of the shard that goes on");
        let refused = stopped == Err(Fault::Stopped);
        wrong.unless(refused, "a later one, of the shard that has stopped");
        wrong.unless(soon, "at once");
        Some(())
    }
}

// It fails where a view waits for a shard that has stopped, or where no view of that shard is answered any more.
#[test]
fn views_hear_of_stopped_shards(rt: HostRuntime) {
    let alloc = rt.alloc();
    let mut wrong = WrongRows::none(alloc);
    let mut options = of_two_shards(&rt, alloc, 100_000);
    options.clients = 2;
    let disks = failing_disks(&rt, alloc, 2, 1, 100);
    drop(serve_two(&rt, alloc, disks, options, "views", &Stopping, &mut wrong));
    end(&rt, wrong);
}
