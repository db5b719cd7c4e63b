//! Stores that retire ids: what their logs say of it, and what is seen beside and after it.
use crate::clients::{disks_of, is_committed, of_two_shards, write};
use crate::disks::held_by;
use crate::served::{Sees, TwoClients, serve_one, serve_two};
use crate::verdict::end;
use made::WrongRows;
use std::alloc::Global;
use std::process::Abort;
use std::sync::Wait;
use std::time::Duration;
use std::{thread, time};
use store::{Client, Halt, Key, Options, Transaction, Value};

// After how many ids a shard retires them, whether a transaction is open all the time, and whether each log says after some seconds of commits that
// ids were retired.
struct Row {
    name: &'static str,
    retire: Option<u64>,
    open: bool,
    retired: bool,
}

static ROWS: [Row; 4] = [
    Row {
        name: "no id is retired",
        retire: None,
        open: false,
        retired: false,
    },
    Row {
        name: "ids are retired once there are ten",
        retire: Some(10),
        open: false,
        retired: true,
    },
    Row {
        name: "there are not so many",
        retire: Some(1_000_000),
        open: false,
        retired: false,
    },
    Row {
        name: "a transaction is open all the time",
        retire: Some(10),
        open: true,
        retired: false,
    },
];

// A commit to both shards each ten milliseconds, for four seconds and more: a shard looks once a second, and retires at the third look.
const COMMITS: u32 = 400;

const PAUSE: u64 = 10;

// What was written.
static SEEN: Sees<'static> = Sees {
    keys: &[b"a", b"x"],
    value: b"1",
};

// The options of a store of two clients over two shards, as the row says.
fn options_of(rt: &impl Abort, alloc: Global, row: &Row) -> Options {
    let mut options = of_two_shards(rt, alloc, 1);
    options.clients = 2;
    options.retire = row.retire;
    options
}

// Whether all commits of a client are made.
fn commits<R: Wait + time::Clock>(rt: &R, alloc: Global, writer: &mut Client<'_, R>) -> bool {
    let mut wrote = true;
    for _commit in 0..COMMITS {
        wrote = is_committed(&write(alloc, writer, 5, &[b"a", b"x"], b"1")) && wrote;
        thread::sleep(rt, Duration::from_millis(PAUSE));
    }
    wrote
}

// Whether they are made while a transaction of another client is open, which commits after them.
fn commits_within<R: Wait + time::Clock>(
    rt: &R,
    alloc: Global,
    holder: &mut Client<'_, R>,
    writer: &mut Client<'_, R>,
) -> bool {
    let mut wrote = false;
    let ended = holder.transact(1, |tx: &mut Transaction<'_, R>| -> Result<(), Halt> {
        let key = Key::new(b"z")?;
        drop(tx.get(&key)?);
        wrote = commits(rt, alloc, writer);
        tx.put(&key, Value::new(alloc, b"2")?)?;
        Ok(())
    });
    wrote && is_committed(&ended)
}

impl<R: Wait + time::Clock> TwoClients<R> for Row {
    // Whether all commits that the row says are made.
    fn work(
        &self,
        rt: &R,
        alloc: Global,
        holder: &mut Client<'_, R>,
        writer: &mut Client<'_, R>,
        _wrong: &mut WrongRows,
    ) -> Option<()> {
        let wrote = if self.open {
            commits_within(rt, alloc, holder, writer)
        } else {
            commits(rt, alloc, writer)
        };
        if wrote { Some(()) } else { None }
    }
}

// Fails if a store retires no ids, or ids of which a client still speaks, or if what was written is lost by it.
#[test]
fn ids_of_stores_are_retired(rt: HostRuntime) {
    let alloc = rt.alloc();
    let mut wrong = WrongRows::none(alloc);
    for row in &ROWS {
        let options = options_of(&rt, alloc, row);
        let disks = disks_of(&rt, alloc, 2);
        if let Some(disks) = serve_two(&rt, alloc, disks, options, row.name, row, &mut wrong) {
            let (held, disks) = held_by(&rt, alloc, disks);
            let logs = if row.retired { 2 } else { 0 };
            wrong.unless(held.retired == logs, row.name);
            let options = options_of(&rt, alloc, row);
            drop(serve_one(&rt, alloc, disks, options, row.name, &SEEN, &mut wrong));
        }
    }
    end(&rt, wrong);
}
