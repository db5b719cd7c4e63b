//! A long run over four shards, at the splits `g`, `m` and `s`: transactions of two writes each, one after the other. At
//! some of them a shard stops, by a crash or a failing call, and is opened again.
ghost use Rattle.std.specs.Prelude.{◌<◌, ◌^◌};

use crate::steps::{Does, FIRST, Step, Stop, config, play_steps};
use crate::verdict::end;
use commands::Report;
use disk::Fate;
use made::WrongRows;
use record::Record;
use std::alloc::Global;
use units::{Fault, Line};
use world::Reply;

// How many transactions there are, of ten events each.
const TRANSACTIONS: u32 = 1_000;

// The shards of a transaction, its coordinator and its other part, and the key that it writes at each.
static PAIRS: [(u8, u8, u8, u8); 4] = [
    (0, 1, b'a', b'h'),
    (1, 2, b'h', b'n'),
    (2, 3, b'n', b't'),
    (0, 3, b'a', b't'),
];

// What happens in a transaction: how long after its beginning, and of a delivery, which of its five messages comes. A session
// writes two keys and closes, which puts out a Commit and a Prepare. The Commit, the Prepare and the vote come, and the
// transaction is settled. The outcome comes, and the session hears its end.
static STORY: [(u64, Does, u64); 10] = [
    (0, Does::Begin, 0),
    (0, Does::Write, 0),
    (0, Does::Write, 0),
    (0, Does::Close, 0),
    (2, Does::Deliver, 0),
    (4, Does::Deliver, 1),
    (6, Does::Deliver, 2),
    (16, Does::Settle, 0),
    (18, Does::Deliver, 4),
    (19, Does::Deliver, 3),
];

// A device call of the outcome's append at the other part in which that shard crashes, or that fails. Each leaves the record.
static STOPS: [Stop; 5] = [
    Stop::CrashIn(4, Fate::Old),
    Stop::CrashIn(3, Fate::New),
    Stop::FailIn(3),
    Stop::CrashIn(2, Fate::New),
    Stop::CrashIn(2, Fate::Filled(0xa5)),
];

// The stop of each 21st transaction.
fn stop_of(number: u32) -> Stop {
    if number % 21 == 20 {
        STOPS[number as usize / 21 % 5]
    } else {
        Stop::Never
    }
}

// The time at which a transaction begins.
fn begins_at(number: u32) -> u64
    ensures { result < 2 ^ 37 }
{
    100 + 20 * number as u64
}

// The step of a transaction at a place of its story. If the transaction has a stop, the outcome comes with it, and then the shard is opened:
// the session does not hear its end.
fn step_at(number: u32, place: usize) -> Step {
    let (coordinator, part, first, second) = PAIRS[number as usize % 4];
    let (after, does, message) = STORY[place % 10];
    let mut step = FIRST;
    step.does = does;
    step.time = begins_at(number).saturating_add(after);
    step.earliest = step.time.saturating_sub(2);
    step.latest = step.time.saturating_add(1);
    step.shard = coordinator;
    step.txn = number as u64;
    step.number = message.saturating_add(5 * number as u64);
    (step.key, step.value) = if place == 1 {
        (first, b'1')
    } else {
        (second, b'2')
    };
    match stop_of(number) {
        Stop::Never => {}
        stop if place == 8 => {
            step.does = Does::Take;
            step.stop = stop;
            step.shard = part;
        }
        _ if place == 9 => {
            step.does = Does::Open;
            step.shard = part;
        }
        _ => {}
    }
    step
}

fn push_all(steps: &mut Vec<Step>) -> bool {
    for number in 0..TRANSACTIONS {
        for place in 0..10 {
            if steps.push(step_at(number, place)).is_err() {
                return false;
            }
        }
    }
    true
}

// The reply to an event, by the number of its transaction and its place there: what a stop says, or that it is done.
fn is_wanted(number: u32, place: usize, reply: &Reply) -> bool {
    let stop = if place == 8 {
        stop_of(number)
    } else {
        Stop::Never
    };
    match (stop, reply) {
        (Stop::Never, Reply::Done) => true,
        (Stop::CrashIn(_, _), Reply::Crashed) => true,
        (Stop::FailIn(_), Reply::Refused(Fault::Device)) => true,
        _ => false,
    }
}

fn are_wanted(replies: &[Reply]) -> bool {
    for number in 0..TRANSACTIONS {
        for place in 0..10 {
            match replies.get(10 * number as usize + place) {
                Some(reply) if is_wanted(number, place, reply) => {}
                _ => return false,
            }
        }
    }
    replies.len() == 10_000
}

// Each was acknowledged by its eighth event, at a timestamp just above the latest end of the reading of its Commit.
fn are_acknowledgements(lines: &[Line]) -> bool {
    for number in 0..TRANSACTIONS {
        match lines.get(2 * number as usize + 1) {
            Some(Line::Ack(txn, at, event))
                if txn.number() == number as u64
                    && at.micros() == begins_at(number) + 4
                    && *event == 10 * number as u64 + 7 => {}
            _ => return false,
        }
    }
    lines.len() == 2_000
}

// How many openings and outcomes there are among records.
fn counts_of(logs: &[Vec<Record>]) -> (u32, u32) {
    let (mut openings, mut outcomes): (u32, u32) = (0, 0);
    for log in logs {
        for item in log {
            match item {
                Record::Opened { .. } => openings = openings.saturating_add(1),
                Record::Outcome { .. } => outcomes = outcomes.saturating_add(1),
                _ => {}
            }
        }
    }
    (openings, outcomes)
}

// Goes over the report. Each of the two shards of a transaction has its outcome, and each stop made one opening more.
fn go_over(wrong: &mut WrongRows, report: &Report) {
    wrong.unless(are_wanted(&report.replies), "the replies");
    wrong.unless(are_acknowledgements(&report.lines), "the lines");
    let counted = counts_of(&report.logs) == (51, 2_000);
    wrong.unless(counted, "the logs");
}

fn play_all(wrong: &mut WrongRows, alloc: Global, steps: &mut Vec<Step>) {
    let Ok(config) = config(alloc, 4) else {
        return wrong.unless(false, "no shards");
    };
    let report = if push_all(steps) {
        play_steps(alloc, &config, steps)
    } else {
        Err(Fault::Memory)
    };
    drop(config);
    let Ok(report) = report else {
        return wrong.unless(false, "no report");
    };
    go_over(wrong, &report);
    drop(report);
}

// Fails if a run of 10,000 events with stops loses an outcome, an acknowledgement or a reply.
#[test]
fn ten_thousand_events(rt: HostRuntime) {
    let mut steps = Vec::new(rt.alloc());
    let mut wrong = WrongRows::none(rt.alloc());
    play_all(&mut wrong, rt.alloc(), &mut steps);
    drop(steps);
    end(&rt, wrong);
}
