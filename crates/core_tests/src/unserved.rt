//! Clients that hear at once when a shard refuses their letters.
ghost use Rattle.std.specs.Prelude.{◌≡◌};

use crate::cores::{Setting, plain};
use crate::given::{Given, message_of, reading};
use crate::nodes::{Alone, fresh_node};
use crate::verdict::end;
use client::{Ended, Halt, Stop, Wire};
use crossbeam_channel::Receiver;
use letters::{Inboxes, Letter, Mail, Network, Refused, Reply};
use made::{WrongRows, key, shard, stamp};
use message::{Address, Envelope};
use node::{Gate, Node};
use session::{Open, Tx};
use simdisk::SimDisk;
use std::alloc::Global;
use std::process::Abort;
use std::sync::Wait;
use std::thread::Threads;
use std::time::{Duration, Instant};
use std::{thread, time};
use tickets::{Drawer, Tickets};
use truetime::{Clock, Reading};
use units::{Fault, Run, ShardNo, Splits, Value};

// How a transaction ends.
#[derive(Clone, Copy, PartialEq, Eq)]
enum Ends {
    Committed,
    Aborted,
    Unknown,
    Refused(Fault),
}

// What became of the node of fresh shard 1. Its device may have failed, in a turnover or else in an advance. It may then hold its disk
// alone, because it could not be opened again, or its clock may have no reading. Then come how many transactions have a row there, and
// whether the client first hears that a letter of an earlier transaction was refused. The last two say how a transaction ends that reads
// and is then dropped, and, if there is one, another that only writes.
struct Row {
    name: &'static str,
    stops: bool,
    turns: bool,
    rests: bool,
    timeless: bool,
    rows: u16,
    late: bool,
    reads: Ends,
    writes: Option<Ends>,
}

static ROWS: [Row; 6] = [
    Row {
        name: "rows are full",
        stops: false,
        turns: false,
        rests: false,
        timeless: false,
        rows: 1_024,
        late: false,
        reads: Ends::Refused(Fault::RowsFull),
        writes: Some(Ends::Aborted),
    },
    Row {
        name: "a device has failed",
        stops: true,
        turns: false,
        rests: false,
        timeless: false,
        rows: 0,
        late: false,
        reads: Ends::Refused(Fault::Stopped),
        writes: Some(Ends::Unknown),
    },
    Row {
        name: "a device has failed in a turnover",
        stops: true,
        turns: true,
        rests: false,
        timeless: false,
        rows: 0,
        late: false,
        reads: Ends::Refused(Fault::Stopped),
        writes: Some(Ends::Unknown),
    },
    Row {
        name: "a disk alone",
        stops: true,
        turns: false,
        rests: true,
        timeless: false,
        rows: 0,
        late: false,
        reads: Ends::Refused(Fault::Stopped),
        writes: Some(Ends::Unknown),
    },
    Row {
        name: "a clock has no reading",
        stops: false,
        turns: false,
        rests: false,
        timeless: true,
        rows: 0,
        late: false,
        reads: Ends::Refused(Fault::TimeSpent),
        writes: None,
    },
    Row {
        name: "a refusal comes late",
        stops: false,
        turns: false,
        rests: false,
        timeless: false,
        rows: 0,
        late: true,
        reads: Ends::Aborted,
        writes: None,
    },
];

// A clock that always has this reading, or never has one.
#[derive(Clone, Copy)]
struct Told {
    now: Option<Reading>,
}

impl Clock for Told {
    fn now(&mut self) -> Option<Reading> {
        self.now
    }
}

// Lets all letters through.
#[derive(Clone, Copy)]
struct Through;

impl Gate for Through {
    fn before(&self, _shard: ShardNo, _n: u64) {}

    fn after(&self, _shard: ShardNo, _n: u64) {}
}

// A client that runs one transaction after the other.
#[derive(Drop)]
struct Caller<'s, R> {
    rt: &'s R,
    alloc: Global,
    wire: Wire<'s, 's, R>,
    splits: &'s Splits,
    ids: &'s Tickets,
    drawer: Drawer,
    run: Run,
    ghost drawn: { drawer.source ≡ ids.now },
}

impl<'s, R: Wait + time::Clock + Abort> Caller<'s, R> {
    // A new transaction.
    fn begin(&mut self) -> Tx<'s, Open> {
        let begun = self
            .wire
            .begin(self.run, self.splits, self.ids, &mut self.drawer);
        begun.ok().expect(self.rt, "a transaction")
    }

    // A transaction that reads, and is then dropped.
    fn read(&mut self) -> Ends {
        let mut tx = self.begin();
        let ran = match self.wire.get(&mut tx, &key(b'z')) {
            Ok(value) => {
                drop(value);
                Err(Halt::Abandon)
            }
            Err(halt) => Err(halt),
        };
        ends_of(self.wire.finish(tx, ran))
    }

    // A transaction that only writes, and closes.
    fn write(&mut self) -> Ends {
        let mut tx = self.begin();
        let value = Value::new(self.alloc, b"1").ok().expect(self.rt, "a value");
        let buffered = tx.buffer(key(b'z'), Some(value));
        assert!(self.rt; buffered.is_ok(), "a write");
        ends_of(self.wire.finish(tx, Ok(())))
    }

    // A transaction hears of a refused letter only later, and is aborted.
    fn be_late(&mut self, network: &Network) -> bool {
        let tx = self.begin();
        network.refuse(
            self.rt,
            Refused {
                txn: tx.txn(),
                shard: shard(1),
                fault: Fault::Stopped,
            },
        );
        ends_of(self.wire.finish(tx, Err(Halt::Abandon))) == Ends::Aborted
    }

    // Whether a transaction that reads, or one that writes, ends as expected within a second. That is a fraction of the four that its client
    // would wait.
    fn ends_as(&mut self, reads: bool, wanted: Ends) -> bool {
        let start = Instant::now(self.rt).ok().expect(self.rt, "a clock");
        let ends = if reads { self.read() } else { self.write() };
        let took = start.elapsed(self.rt).ok().expect(self.rt, "a clock");
        ends == wanted && took < Duration::from_secs(1)
    }

    // Whether each transaction ends as the row says: the late one, the one that reads, and the one that writes. After a read has ended, the
    // rows of the row are taken.
    fn goes(&mut self, network: &Network, row: &Row) -> [bool; 3] {
        if row.rows > 0 {
            self.read();
        }
        let late = !row.late || self.be_late(network);
        let reads = self.ends_as(true, row.reads);
        let writes = match row.writes {
            Some(wanted) => self.ends_as(false, wanted),
            None => true,
        };
        [late, reads, writes]
    }
}

// Makes of the node what the row says.
fn failed<'r, R: Wait + Abort>(
    wrong: &mut WrongRows,
    rt: &'r R,
    alloc: Global,
    node: &Node<SimDisk, &'r R>,
    row: &Row,
) {
    if row.stops {
        let failed = if row.turns {
            node.turn_over(rt).is_err()
        } else {
            let advanced = node.advance(rt, &reading(rt, 100, 110), stamp(100));
            let is_refused = advanced.is_err();
            drop(advanced);
            is_refused
        };
        wrong.unless_at(failed, row.name, 0);
    }
    if row.rests {
        let refused = node.restart(rt, rt, alloc, &Alone, 0);
        wrong.unless_at(refused.is_err(), row.name, 1);
        drop(refused);
    }
}

// Serves the node until the network closes.
fn serve<'r, R: Wait + time::Clock + Abort>(
    rt: &R,
    node: &Node<SimDisk, &'r R>,
    inbox: &Receiver<Letter>,
    network: &Network,
    row: &Row,
) {
    let mut post = Mail { rt, network };
    let mut clock = Told {
        now: if row.timeless {
            None
        } else {
            Some(reading(rt, 100, 110))
        },
    };
    node.serve(rt, inbox, &mut post, &mut clock, &Through);
}

// How it ended.
fn ends_of(ended: Result<Ended, Fault>) -> Ends {
    match ended {
        Ok(Ended::Committed(_)) => Ends::Committed,
        Ok(Ended::Aborted) => Ends::Aborted,
        Ok(Ended::Unknown(_)) => Ends::Unknown,
        Err(fault) => Ends::Refused(fault),
    }
}

// Whether each of the client's transactions ends as the row says. Then the network closes.
fn call<R: Wait + time::Clock + Abort>(
    rt: &R,
    alloc: Global,
    network: &Network,
    inbox: Receiver<Reply>,
    row: &Row,
) -> [bool; 3] {
    for number in 0..row.rows {
        let message = message_of(rt, alloc, Given::Read(number.saturating_add(1), b"z"));
        network.send(
            rt,
            Envelope {
                to: Address::Shard(shard(1)),
                message,
            },
        );
    }
    let splits = Splits::new(alloc, &[key(b'm')]).ok().expect(rt, "splits");
    let stop = Stop::new();
    let (ids, mut drawers) = Tickets::new(alloc, 1).ok().expect(rt, "tickets");
    let Some(drawer) = drawers.pop() else {
        rt.panic("no drawer")
    };
    let mut caller = Caller {
        rt,
        alloc,
        wire: Wire::new(rt, alloc, network, &stop, inbox, 0, 100),
        splits: &splits,
        ids: &ids,
        drawer,
        run: Run::new(2).expect(rt, "a run"),
    };
    let ends = caller.goes(network, row);
    drop(caller);
    drop(drawers);
    drop(ids);
    drop(stop);
    drop(splits);
    network.close(rt);
    ends
}

// Runs a client beside a node on a thread, as the row says.
fn go<R: Threads + Wait + time::Clock + Sync + Abort>(
    wrong: &mut WrongRows,
    rt: &R,
    alloc: Global,
    row: &Row,
) {
    let setting = Setting {
        fails: if row.stops { Some(3) } else { None },
        ..plain(1, 0)
    };
    let (node, viewers) = fresh_node(rt, rt, alloc, setting);
    drop(viewers);
    failed(wrong, rt, alloc, &node, row);
    let (network, inboxes) = Network::new(alloc, 2, 1).ok().expect(rt, "a network");
    let Inboxes {
        nodes: mut to_nodes,
        workers: mut to_callers,
    } = inboxes;
    let to_node = to_nodes.pop().expect(rt, "an inbox");
    let to_caller = to_callers.pop().expect(rt, "an inbox");
    drop(to_nodes);
    drop(to_callers);
    let (_, [late, reads, writes]) = thread::join(
        rt,
        || serve(rt, &node, &to_node, &network, row),
        || call(rt, alloc, &network, to_caller, row),
    );
    drop(to_node);
    drop(network);
    drop(node.close());
    wrong.unless_at(late, row.name, 2);
    wrong.unless_at(reads, row.name, 3);
    wrong.unless_at(writes, row.name, 4);
}

/// Shows that a client hears at once when a shard refuses its letter.
#[test]
fn refused_letters_are_heard(rt: HostRuntime) {
    let mut wrong = WrongRows::none(rt.alloc());
    for row in &ROWS {
        go(&mut wrong, &rt, rt.alloc(), row);
    }
    end(&rt, wrong);
}
