//! Drawn runs whose logs are turned over at times. The run without these turnovers tells the same, but for what is said of them, and is
//! judged.
use crate::drawing::is_drawn;
use crate::drawn::play_one;
use crate::replying::are_due;
use crate::steps::{Does, Step, config, play_steps, unturned};
use crate::telling::{put_said, value_of};
use crate::totals::Totals;
use crate::verdict::end;
use commands::Report;
use made::WrongRows;
use record::Record;
use std::alloc::Global;
use units::Fault;
use world::{Config, Reply};

// What is there of turnovers: how many were done, in how many a shard crashed, and how many logs were renewed in the end.
#[derive(Clone, Copy)]
struct Turns {
    done: u64,
    crashed: u64,
    renewed: u64,
}

// The two replies are one.
fn is_same(one: &Reply, other: &Reply) -> bool {
    match (one, other) {
        (Reply::Done, Reply::Done) | (Reply::Crashed, Reply::Crashed) => true,
        (Reply::Refused(fault), Reply::Refused(why)) => *fault == *why,
        (Reply::Shows(value), Reply::Shows(known)) => value_of(value) == value_of(known),
        _ => false,
    }
}

// The reply to a turnover, and to the nudge in its place: the one is done if the other is refused. In all else both are one.
fn is_turned(one: &Reply, other: &Reply, turns: &mut Turns) -> bool {
    match (one, other) {
        (Reply::Done, Reply::Refused(Fault::Stranger)) => {
            turns.done = turns.done.saturating_add(1);
            true
        }
        (Reply::Crashed, Reply::Crashed) => {
            turns.crashed = turns.crashed.saturating_add(1);
            true
        }
        (Reply::Refused(Fault::Stopped), Reply::Refused(Fault::Stopped)) => true,
        _ => false,
    }
}

// All replies are as they are without turnovers.
fn are_same(report: &Report, plain: &Report, steps: &[Step], turns: &mut Turns) -> bool {
    for (step, (one, other)) in steps.iter().zip(report.replies.iter().zip(&plain.replies)) {
        let right = match step.does {
            Does::Turn => is_turned(one, other, turns),
            _ => is_same(one, other),
        };
        if !right {
            return false;
        }
    }
    report.replies.len() == plain.replies.len()
}

// The messages and the lines are as they are without turnovers.
fn says_same(alloc: Global, report: &Report, plain: &Report) -> bool {
    let mut told = Vec::new(alloc);
    let mut known = Vec::new(alloc);
    let mut right = put_said(&mut told, report).is_empty()
        && put_said(&mut known, plain).is_empty();
    right = right && told.len() == known.len();
    for (one, other) in told.iter().zip(&known) {
        right = right && *one == *other;
    }
    drop(told);
    drop(known);
    right
}

// Counts the logs that begin with a base.
fn count_renewed(logs: &[Vec<Record>], turns: &mut Turns) {
    for log in logs {
        if let Some(Record::Base { .. }) = log.first() {
            turns.renewed = turns.renewed.saturating_add(1);
        }
    }
}

// The first thing that is wrong with what a list comes to, beside what it comes to without turnovers.
fn compare(
    alloc: Global,
    report: &Report,
    plain: &Report,
    steps: &[Step],
    turns: &mut Turns,
) -> &'static str {
    let mut totals = Totals::none();
    count_renewed(&report.logs, turns);
    if !are_due(report, steps, &mut totals) {
        return "a reply";
    }
    if !are_same(report, plain, steps, turns) {
        return "a reply that differs";
    }
    if !says_same(alloc, report, plain) {
        return "what differs";
    }
    ""
}

// A list is played with its turnovers and without them.
fn play_both(
    alloc: Global,
    config: &Config,
    steps: &[Step],
    plain: &[Step],
    turns: &mut Turns,
) -> &'static str {
    let mut totals = Totals::none();
    let wrong = play_one(alloc, config, plain, &mut totals);
    if !wrong.is_empty() {
        return wrong;
    }
    let Ok(report) = play_steps(alloc, config, steps) else {
        return "an unlawful list";
    };
    let wrong = match play_steps(alloc, config, plain) {
        Ok(other) => {
            let wrong = compare(alloc, &report, &other, steps, turns);
            drop(other);
            wrong
        }
        Err(_) => "an unlawful list without turnovers",
    };
    drop(report);
    wrong
}

fn push_unturned(plain: &mut Vec<Step>, steps: &[Step]) -> bool {
    for step in steps {
        if plain.push(unturned(step)).is_err() {
            return false;
        }
    }
    true
}

// The list of a seed is drawn, with turnovers, and played.
fn turn_one(alloc: Global, seed: u64, shards: u64, turns: &mut Turns) -> &'static str {
    let Ok(config) = config(alloc, shards) else {
        return "no shards";
    };
    let mut steps = Vec::new(alloc);
    let mut plain = Vec::new(alloc);
    let wrong = if is_drawn(&mut steps, alloc, &config, seed, shards, true)
        && push_unturned(&mut plain, &steps)
    {
        play_both(alloc, &config, &steps, &plain, turns)
    } else {
        "no list"
    };
    drop(steps);
    drop(plain);
    drop(config);
    wrong
}

// Draws 30 lists from a seed on, over 1 to 3 shards in turn.
#[test]
fn turned_runs(rt: HostRuntime) {
    let mut turns = Turns {
        done: 0,
        crashed: 0,
        renewed: 0,
    };
    let mut wrong = WrongRows::none(rt.alloc());
    for number in 0..30 {
        let seed = 1_001 + number;
        let found = turn_one(rt.alloc(), seed, number % 3 + 1, &mut turns);
        wrong.unless_at(found.is_empty(), found, seed);
    }
    wrong.unless(turns.done >= 200, "turnovers");
    wrong.unless(turns.crashed >= 30, "crashes in turnovers");
    wrong.unless(turns.renewed >= 40, "renewals");
    end(&rt, wrong);
}
