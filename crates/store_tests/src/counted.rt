//! The numbers of a store that is served.
use crate::clients::{KEYS, disks_of, is_committed, of_two_shards, sees, write};
use crate::verdict::end;
use made::{FIRST_GATE, WrongRows};
use std::alloc::Global;
use std::sync::Wait;
use std::time;
use store::{Client, ClientNumbers, Ended, Halt, Key, ShardNumbers, Store, Transaction, Value};

// So many transactions write to shard 0 alone, and so many to both shards, which shard 0 decides.
const ALONE: u64 = 3;

const BOTH: u64 = 2;

// So many are abandoned after they have read and written at shard 0.
const ABANDONED: u64 = 4;

// A commit waits for two epsilons of a millisecond, in microseconds.
const EPSILONS: u64 = 2_000;

// Whether a transaction that reads and writes a key of shard 0 is abandoned.
fn is_abandoned<R: Wait + time::Clock>(alloc: Global, client: &mut Client<'_, R>) -> bool {
    let ended = client.transact(1, |tx: &mut Transaction<'_, R>| -> Result<(), Halt> {
        drop(tx.get(&Key::new(b"a")?)?);
        tx.put(&Key::new(b"a")?, Value::new(alloc, b"3")?)?;
        Err(Halt::Abandon(()))
    });
    ended == Ok(Ended::Abandoned(()))
}

// The lines that a text has to have: a kind, and a number of each shard.
static LINES: [&str; 12] = [
    "# TYPE spanner_shards_commits counter\n",
    "spanner_shards_commits{shard=\"0\"} 5\n",
    "spanner_shards_commits{shard=\"1\"} 0\n",
    "# TYPE spanner_shards_versions gauge\n",
    "spanner_shards_versions{shard=\"1\"} 2\n",
    "spanner_shards_stopped{shard=\"1\"} 0\n",
    "# TYPE spanner_shards_in_doubt gauge\n",
    "spanner_shards_turnovers_refused{shard=\"0\"} 0\n",
    "spanner_clients_attempts{client=\"0\"} 9\n",
    "# TYPE spanner_clients_closing_micros histogram\n",
    "spanner_clients_closing_micros_bucket{client=\"0\",le=\"+Inf\"} 5\n",
    "spanner_clients_closing_micros_count{client=\"0\"} 5\n",
];

fn has_lines(text: &str) -> bool {
    for line in &LINES {
        if !text.contains(*line) {
            return false;
        }
    }
    true
}

// Notes what is told wrong of the shards after the transactions. A view stands at this time after them.
fn are_told(first: &ShardNumbers, second: &ShardNumbers, at: u64, wrong: &mut WrongRows) {
    wrong.unless(first.commits == ALONE + BOTH, "commits of shard 0");
    wrong.unless(second.commits == 0, "commits of shard 1");
    wrong.unless(first.aborts == 0 && second.aborts == 0, "aborts");
    wrong.unless(first.versions == ALONE + BOTH, "versions of shard 0");
    wrong.unless(second.versions == BOTH, "versions of shard 1");
    let served = first.served >= at && second.served >= at;
    wrong.unless(served, "what is served");
    wrong.unless(first.taken > ALONE + BOTH + ABANDONED, "letters of shard 0");
    wrong.unless(first.advances > 0, "advances");
    let last = first.last >= at && second.last >= at;
    wrong.unless(last, "the last timestamps");
    wrong.unless(is_not_turned(first) && is_not_turned(second), "the logs");
    let none = !first.has_stopped && !second.has_stopped;
    wrong.unless(none, "none has stopped");
}

// What a client has counted after these transactions, if each ended as it should, once a view has seen what the last one wrote. Notes what else
// is told wrong.
fn told<R: Wait + time::Clock>(
    alloc: Global,
    clients: Vec<Client<'_, R>>,
    wrong: &mut WrongRows,
) -> Option<ClientNumbers> {
    let mut clients = clients;
    let mut client = clients.pop()?;
    drop(clients);
    let mut right = true;
    for _alone in 0..ALONE {
        right = right && is_committed(&write(alloc, &mut client, 5, &KEYS[..1], b"1"));
    }
    for _abandoned in 0..ABANDONED {
        right = right && is_abandoned(alloc, &mut client);
    }
    for _both in 0..BOTH {
        right = right && is_committed(&write(alloc, &mut client, 5, &KEYS, b"2"));
    }
    let at = client.view()?.at().micros();
    if !right || sees(&mut client, &KEYS, b"2").is_err() {
        return None;
    }
    let numbers = client.numbers();
    let text = numbers.text().ok()?;
    wrong.unless(has_lines(text.as_str()), "the text");
    drop(text);
    let shards = numbers.shards() == 2 && numbers.of(2).is_none();
    wrong.unless(shards, "the shards");
    are_told(&numbers.of(0)?, &numbers.of(1)?, at, wrong);
    let counted = numbers.of_client(0)?;
    wrong.unless(is_counted(&counted), "the client");
    drop(client);
    Some(counted)
}

// Whether a client has counted these transactions, each with one attempt, and closings within and beyond what a commit waits: two epsilons.
fn is_counted(told: &ClientNumbers) -> bool {
    let mut closings = 0_u64;
    for count in &told.closings {
        closings = closings.saturating_add(*count);
    }
    let commits = ALONE + BOTH;
    let attempts = commits + ABANDONED;
    let longest = told.longest;
    told.calls == attempts
        && told.attempts == attempts
        && told.retries() == 0
        && told.commits == commits
        && told.aborts == ABANDONED
        && told.unknown == 0
        && closings == commits
        && longest >= EPSILONS
        && told.closing_micros >= commits * EPSILONS
        && told.closing_micros <= commits.saturating_mul(longest)
        && is_between(told.percentile(50), EPSILONS, longest.saturating_mul(4))
        && is_between(told.percentile(100), EPSILONS, longest.saturating_mul(4))
}

fn is_between(told: Option<u64>, least: u64, most: u64) -> bool {
    match told {
        Some(micros) => least <= micros && micros <= most,
        None => false,
    }
}

// Whether a shard has forgotten nothing, and its log is in the first area of its file. No record stands before the first gate.
fn is_not_turned(told: &ShardNumbers) -> bool {
    told.horizon == 0
        && told.turnovers == 0
        && told.turnovers_left() == 1_024
        && FIRST_GATE <= told.area_begins
        && told.area_begins <= FIRST_GATE + 1
        && told.area_begins < told.log_bytes
}

// Fails if a number counts something else: an abandoned transaction as a commit, say, or a commit at two shards.
#[test]
fn numbers_are_counted(rt: HostRuntime) {
    let alloc = rt.alloc();
    let options = of_two_shards(&rt, alloc, 100_000);
    let store = Store::open(&rt, alloc, disks_of(&rt, alloc, 2), options);
    let store = store.ok().expect(&rt, "a store");
    let numbers = store.numbers().ok().expect(&rt, "numbers");
    let before = numbers.of(0).expect(&rt, "shard 0");
    let mut wrong = WrongRows::none(alloc);
    let served = store.serve(|clients: Vec<Client<'_, HostRuntime>>| told(
        alloc, clients, &mut wrong,
    ));
    let (told, disks) = served.ok().expect(&rt, "a service");
    drop(disks);
    let after = numbers.of_client(0);
    drop(numbers);
    wrong.unless(before.taken == 0, "nothing is counted before");
    wrong.unless(told.is_some(), "the transactions");
    wrong.unless(after == told, "the same is told after");
    end(&rt, wrong);
}
