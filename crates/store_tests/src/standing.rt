//! How shards stand, as the numbers of a store tell: which transactions have a row, which were ended by an older one, and how many letters wait.
use crate::clients::{disks_of, is_committed, of_one_shard, write};
use crate::served::{EachClient, serve_each, wait_for};
use crate::slow::slow_disks;
use crate::verdict::end;
use made::WrongRows;
use std::alloc::Global;
use std::ops::RangeInclusive;
use std::sync::Wait;
use std::sync::atomic::{AtomicBool, AtomicU64, Ordering};
use std::time::Duration;
use std::{thread, time};
use store::{Client, Halt, Numbers, Transaction};
use units::{Key, Value};

// The older transaction has begun; the younger one has read; its row was told; the older one has ended; the younger one has.
const BEGUN: u64 = 1;

const READ: u64 = 2;

const TOLD: u64 = 3;

const ENDED: u64 = 4;

const BOTH: u64 = 5;

// Whether the numbers tell of so many rows within ten seconds, while a client writes another key. A shard tells how it stands when it shows
// something.
fn has_rows<R: Wait + time::Clock>(
    rt: &R,
    alloc: Global,
    client: &mut Client<'_, R>,
    rows: RangeInclusive<u64>,
) -> bool {
    for _write in 0..500 {
        drop(write(alloc, client, 5, &[b"c"], b"1"));
        if let Some(numbers) = client.numbers().of(0) {
            if rows.contains(&numbers.rows) {
                return true;
            }
        }
        thread::sleep(rt, Duration::from_millis(20));
    }
    false
}

// Writes a key that a younger transaction has read meanwhile. Whether it commits.
fn be_older<R: Wait + time::Clock>(
    rt: &R,
    alloc: Global,
    client: &mut Client<'_, R>,
    stage: &AtomicU64,
) -> bool {
    let ended = client.transact(1, |tx: &mut Transaction<'_, R>| -> Result<(), Halt> {
        stage.store(BEGUN, Ordering::SeqCst);
        wait_for(rt, stage, TOLD);
        tx.put(&Key::new(b"a")?, Value::new(alloc, b"1")?)?;
        Ok(())
    });
    stage.store(ENDED, Ordering::SeqCst);
    is_committed(&ended)
}

// Reads a key, and another one once an older transaction has written the first. Whether it commits at its second attempt.
fn be_younger<R: Wait + time::Clock>(
    rt: &R,
    client: &mut Client<'_, R>,
    stage: &AtomicU64,
) -> bool {
    wait_for(rt, stage, BEGUN);
    let mut attempts = 0_u32;
    let ended = client.transact(50, |tx: &mut Transaction<'_, R>| -> Result<(), Halt> {
        attempts = attempts.saturating_add(1);
        drop(tx.get(&Key::new(b"a")?)?);
        if attempts == 1 {
            stage.store(READ, Ordering::SeqCst);
            wait_for(rt, stage, ENDED);
        }
        drop(tx.get(&Key::new(b"b")?)?);
        Ok(())
    });
    stage.store(BOTH, Ordering::SeqCst);
    attempts >= 2 && is_committed(&ended)
}

// Whether the numbers tell of a row while the older transaction waits, and of none once both have ended, and one wound is counted at least.
fn look_on<R: Wait + time::Clock>(
    rt: &R,
    alloc: Global,
    client: &mut Client<'_, R>,
    stage: &AtomicU64,
) -> bool {
    wait_for(rt, stage, READ);
    let had = has_rows(rt, alloc, client, 1..=3);
    stage.store(TOLD, Ordering::SeqCst);
    wait_for(rt, stage, BOTH);
    let wounds = match client.numbers().of(0) {
        Some(numbers) => numbers.wounds,
        None => 0,
    };
    had && wounds >= 1 && has_rows(rt, alloc, client, 0..=0)
}

// Three clients: of an older transaction, of a younger one, and one that looks on. The number is the stage that they have come to.
#[derive(Clone, Copy)]
struct Wounding<'a>(&'a AtomicU64);

impl<R: Wait + time::Clock> EachClient<R> for Wounding<'_> {
    fn work(&self, rt: &R, alloc: Global, place: u64, client: &mut Client<'_, R>) -> bool {
        match place {
            0 => be_older(rt, alloc, client, self.0),
            1 => be_younger(rt, client, self.0),
            _ => look_on(rt, alloc, client, self.0),
        }
    }
}

// Fails if no wound is counted, if no transaction has a row, or if one keeps its row.
#[test]
fn rows_and_wounds_are_told(rt: HostRuntime) {
    let alloc = rt.alloc();
    let mut wrong = WrongRows::none(alloc);
    let stage = AtomicU64::new(0);
    let options = of_one_shard(&rt, alloc, 3);
    let well = serve_each(
        &rt,
        alloc,
        disks_of(&rt, alloc, 1),
        options,
        &Wounding(&stage),
    );
    wrong.unless(well == Some(3), "rows and wounds");
    end(&rt, wrong);
}

// So many milliseconds a sync takes. A group of letters takes two, and others wait meanwhile.
const SYNC: u64 = 20;

// Whether the numbers tell within ten seconds that so many letters wait.
fn tells_waiting<R: time::Clock>(rt: &R, numbers: &Numbers, letters: RangeInclusive<u64>) -> bool {
    for _milli in 0..10_000 {
        if let Some(shard) = numbers.of(0) {
            if letters.contains(&shard.waiting) {
                return true;
            }
        }
        thread::sleep(rt, Duration::from_millis(1));
    }
    false
}

// Writes a key until a letter that waits was seen, 1,000 times at most.
fn write_on<R: Wait + time::Clock>(
    alloc: Global,
    client: &mut Client<'_, R>,
    key: &[u8],
    is_seen: &AtomicBool,
) {
    for _write in 0..1_000 {
        if is_seen.load(Ordering::SeqCst) {
            return;
        }
        drop(write(alloc, client, 5, &[key], b"1"));
    }
}

// Three clients, of which two write, each a key of its own. The third tells them once it has seen a letter that waits.
#[derive(Clone, Copy)]
struct Writing<'a>(&'a AtomicBool);

impl<R: Wait + time::Clock> EachClient<R> for Writing<'_> {
    // The third tells whether a letter waits while the others write, and none some time after that.
    fn work(&self, rt: &R, alloc: Global, place: u64, client: &mut Client<'_, R>) -> bool {
        if place < 2 {
            let key: &[u8] = if place == 0 { b"a" } else { b"b" };
            write_on(alloc, client, key, self.0);
            return true;
        }
        let numbers = client.numbers();
        let waits = tells_waiting(rt, numbers, 1..=1_000);
        self.0.store(waits, Ordering::SeqCst);
        waits && tells_waiting(rt, numbers, 0..=0)
    }
}

// Fails if the numbers never tell of a letter that waits, or always do.
#[test]
fn waiting_letters_are_told(rt: HostRuntime) {
    let alloc = rt.alloc();
    let mut wrong = WrongRows::none(alloc);
    let is_seen = AtomicBool::new(false);
    let (slow, options) = (slow_disks(&rt, alloc, 1, SYNC), of_one_shard(&rt, alloc, 3));
    let well = serve_each(&rt, alloc, slow, options, &Writing(&is_seen));
    wrong.unless(well == Some(3), "letters that wait");
    end(&rt, wrong);
}
