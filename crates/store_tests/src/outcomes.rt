//! How a transaction ended that nobody told of: what is asked later, by its id.
use crate::clients::{disks_of, of_one_shard, of_two_shards, write};
use crate::served::{OneClient, TwoClients, serve_one, serve_two};
use crate::slow::slow_disks;
use crate::verdict::end;
use made::WrongRows;
use std::alloc::Global;
use std::sync::Wait;
use std::time::{Duration, Instant};
use std::{thread, time};
use store::{Client, Ended, Fault, Outcome, TxnId};

// So many milliseconds a client waits for a shard that says nothing new.
const GIVE_UP: u64 = 50;

// An epsilon of so many microseconds: a commit waits for twice that, longer than its client does.
const EPSILON: u64 = 400_000;

// So many transactions whose end nobody told: one more than a client keeps.
const MANY: u8 = 17;

// A sync of a slow device takes so many milliseconds: longer than a client waits twice.
const SLOW: u64 = 200;

// How an outcome is told, without its timestamp.
#[derive(Clone, Copy, PartialEq, Eq)]
enum Told {
    Committed,
    Aborted,
    Open,
    Unknown,
}

fn kind_of(outcome: Result<Outcome, Fault>) -> Option<Told> {
    match outcome {
        Ok(Outcome::Committed(_)) => Some(Told::Committed),
        Ok(Outcome::Aborted) => Some(Told::Aborted),
        Ok(Outcome::Open) => Some(Told::Open),
        Ok(Outcome::Unknown) => Some(Told::Unknown),
        Err(_) => None,
    }
}

// The id of a transaction that writes to these keys, and whose end nobody told.
fn unknown<R: Wait + time::Clock>(
    alloc: Global,
    client: &mut Client<'_, R>,
    keys: &[&[u8]],
) -> Option<TxnId> {
    let ended = write(alloc, client, 1, keys, b"1");
    match &ended {
        Ok(Ended::Unknown { id }) => Some(*id),
        _ => None,
    }
}

// Whether it is right what is told of 17 transactions whose commits wait: of the last at once, and later of it, of the second and of the first.
// Another client is asked of the last too, and has to answer at once.
#[derive(Clone, Copy)]
struct Waiting;

impl<R: Wait + time::Clock> TwoClients<R> for Waiting {
    fn work(
        &self,
        rt: &R,
        alloc: Global,
        client: &mut Client<'_, R>,
        other: &mut Client<'_, R>,
        wrong: &mut WrongRows,
    ) -> Option<()> {
        let first = unknown(alloc, client, &[&[b'a', 0]])?;
        let second = unknown(alloc, client, &[&[b'a', 1]])?;
        let mut last = second;
        for number in 2..MANY {
            last = unknown(alloc, client, &[&[b'a', number]])?;
        }
        let told = kind_of(client.outcome(last));
        wrong.unless(told == Some(Told::Open), "at once");
        let start = Instant::now(rt).ok()?;
        let of_another = kind_of(other.outcome(last));
        let soon = start.elapsed(rt).ok()? < Duration::from_millis(GIVE_UP);
        thread::sleep(rt, Duration::from_micros(3 * EPSILON));
        let told = kind_of(client.outcome(first));
        wrong.unless(told == Some(Told::Unknown), "the first of 17");
        let told = kind_of(client.outcome(second));
        wrong.unless(told == Some(Told::Committed), "the second of 17");
        let told = kind_of(client.outcome(last));
        wrong.unless(told == Some(Told::Committed), "the last of 17");
        wrong.unless(of_another == Some(Told::Unknown), "of another client");
        wrong.unless(soon, "another client answers at once");
        Some(())
    }
}

// What is told later of a transaction on slow devices: one that writes to shard 0 alone commits; of one over both shards the deciding shard
// hears that it was given up before it hears the other's vote.
struct Late {
    name: &'static str,
    keys: &'static [&'static [u8]],
    told: Told,
}

static LATE: [Late; 2] = [
    Late {
        name: "on one slow device",
        keys: &[b"a"],
        told: Told::Committed,
    },
    Late {
        name: "on two slow devices",
        keys: &[b"a", b"z"],
        told: Told::Aborted,
    },
];

impl<R: Wait + time::Clock> OneClient<R> for Late {
    fn work(
        &self,
        rt: &R,
        alloc: Global,
        client: &mut Client<'_, R>,
        _wrong: &mut WrongRows,
    ) -> Option<()> {
        let id = unknown(alloc, client, self.keys)?;
        thread::sleep(rt, Duration::from_millis(10 * SLOW));
        if kind_of(client.outcome(id)) == Some(self.told) {
            Some(())
        } else {
            None
        }
    }
}

// Fails if an outcome is told that is not the transaction's: one that is open as aborted, say, or one that the client does not keep.
#[test]
fn outcomes_are_told_later(rt: HostRuntime) {
    let alloc = rt.alloc();
    let mut wrong = WrongRows::none(alloc);
    let mut options = of_one_shard(&rt, alloc, 2);
    options.epsilon = EPSILON;
    options.give_up = GIVE_UP;
    let disks = disks_of(&rt, alloc, 1);
    drop(serve_two(
        &rt,
        alloc,
        disks,
        options,
        "unknown ends",
        &Waiting,
        &mut wrong,
    ));
    for late in &LATE {
        let mut options = of_two_shards(&rt, alloc, 100_000);
        options.give_up = GIVE_UP;
        let slow = slow_disks(&rt, alloc, 2, SLOW);
        drop(serve_one(&rt, alloc, slow, options, late.name, late, &mut wrong));
    }
    end(&rt, wrong);
}
