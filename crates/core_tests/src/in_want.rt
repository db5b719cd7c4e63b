//! Clients that count silences, over a network in which memory was refused: they do not wait for what may be lost.
ghost use Rattle.std.specs.Prelude.{◌≡◌};

use crate::verdict::end;
use client::{Ended, Halt, Stop, Wire};
use crossbeam_channel::Receiver;
use letters::{Inboxes, Mail, Network, Post, Refused, Reply};
use made::{WrongRows, id, key, shard};
use std::alloc::Global;
use std::process::Abort;
use std::sync::Wait;
use std::time;
use std::time::{Duration, Instant};
use tickets::{Drawer, Tickets};
use units::{Fault, Run, Splits};

// What was refused in the network before, and whether its client goes by progress. A client whose node says nothing waits for a second then,
// or no longer than two silences.
struct Row {
    name: &'static str,
    refused: Option<Fault>,
    due: bool,
    progress: bool,
    soon: bool,
}

static ROWS: [Row; 5] = [
    Row {
        name: "nothing was refused",
        refused: None,
        due: false,
        progress: false,
        soon: false,
    },
    Row {
        name: "a node has no row for a letter",
        refused: Some(Fault::RowsFull),
        due: false,
        progress: false,
        soon: false,
    },
    Row {
        name: "a node has no memory for a letter",
        refused: Some(Fault::Memory),
        due: false,
        progress: false,
        soon: true,
    },
    Row {
        name: "a node has no memory for what is due",
        refused: None,
        due: true,
        progress: false,
        soon: true,
    },
    Row {
        name: "a client by progress asks again",
        refused: None,
        due: true,
        progress: true,
        soon: false,
    },
];

// So many silences of 20 milliseconds it waits, or so many milliseconds.
const SILENCES: u32 = 50;

const GIVE_UP: u64 = 1_000;

// Refuses what the row says.
fn refuse<R: Wait>(rt: &R, network: &Network, row: &Row) {
    if let Some(fault) = row.refused {
        let txn = id(7);
        network.refuse(
            rt,
            Refused {
                txn,
                shard: shard(1),
                fault,
            },
        );
    }
    if row.due {
        Mail { rt, network }.lack_memory();
    }
}

// How long a read takes that nobody answers, if its transaction is aborted.
fn read<'s, R: Wait + time::Clock>(
    rt: &R,
    wire: &mut Wire<'s, 's, R>,
    splits: &'s Splits,
    ids: &Tickets,
    drawer: &mut Drawer,
) -> Option<Duration>
    requires { drawer.old.source ≡ ids.now }
{
    let start = Instant::now(rt).ok()?;
    let run = Run::new(2)?;
    let mut tx = wire.begin(run, splits, ids, drawer).ok()?;
    let ran = match wire.get(&mut tx, &key(b'z')) {
        Ok(value) => {
            drop(value);
            Err(Halt::Abandon)
        }
        Err(halt) => Err(halt),
    };
    match (ran, wire.finish(tx, ran)) {
        (Err(Halt::Again), Ok(Ended::Aborted)) => start.elapsed(rt).ok(),
        _ => None,
    }
}

// How long a client of a row waits for its read.
fn waits<'x, R: Wait + time::Clock>(
    rt: &'x R,
    alloc: Global,
    network: &'x Network,
    stop: &'x Stop,
    inbox: Receiver<Reply>,
    splits: &'x Splits,
    ids: &Tickets,
    drawer: &mut Drawer,
    row: &Row,
) -> Option<Duration>
    requires { drawer.old.source ≡ ids.now }
{
    let wire = Wire::new(rt, alloc, network, stop, inbox, 0, SILENCES);
    let mut wire = if row.progress {
        wire.by_progress(GIVE_UP)
    } else {
        wire
    };
    let took = read(rt, &mut wire, splits, ids, drawer);
    drop(wire);
    took
}

// The same, with a source of numbers of its own.
fn waits_alone<'x, R: Wait + time::Clock>(
    rt: &'x R,
    alloc: Global,
    network: &'x Network,
    stop: &'x Stop,
    inbox: Receiver<Reply>,
    splits: &'x Splits,
    row: &Row,
) -> Option<Duration> {
    let Ok((ids, mut drawers)) = Tickets::new(alloc, 1) else {
        drop(inbox);
        return None;
    };
    let took = match drawers.pop() {
        Some(mut drawer) => {
            let took = waits(
                rt,
                alloc,
                network,
                stop,
                inbox,
                splits,
                &ids,
                &mut drawer,
                row,
            );
            drop(drawer);
            took
        }
        None => {
            drop(inbox);
            None
        }
    };
    drop(drawers);
    drop(ids);
    took
}

// Whether the client waits as the row says. Its node takes nothing.
fn goes<R: Wait + time::Clock + Abort>(rt: &R, alloc: Global, row: &Row) -> bool {
    let (network, inboxes) = Network::new(alloc, 2, 1).ok().expect(rt, "a network");
    let Inboxes { nodes, mut workers } = inboxes;
    let inbox = workers.pop().expect(rt, "an inbox");
    let splits = Splits::new(alloc, &[key(b'm')]).ok().expect(rt, "splits");
    let stop = Stop::new();
    refuse(rt, &network, row);
    let took = waits_alone(rt, alloc, &network, &stop, inbox, &splits, row);
    drop(stop);
    drop(splits);
    drop(nodes);
    drop(workers);
    drop(network);
    match took {
        Some(took) if row.soon => took < Duration::from_millis(500),
        Some(took) => took >= Duration::from_millis(GIVE_UP),
        None => false,
    }
}

/// Shows that a client which counts silences waits no longer once memory was refused in its network, and for no other reason.
#[test]
fn want_of_memory_ends_waiting(rt: HostRuntime) {
    let mut wrong = WrongRows::none(rt.alloc());
    for row in &ROWS {
        wrong.unless(goes(&rt, rt.alloc(), row), row.name);
    }
    end(&rt, wrong);
}
