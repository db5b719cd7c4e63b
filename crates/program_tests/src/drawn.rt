//! Drawn runs, 50 in a test: each list is lawful, and each report is judged by itself.
use crate::drawing::{LENGTH, is_drawn};
use crate::judging::judge;
use crate::replying::are_due;
use crate::steps::{Step, config, play_steps};
use crate::telling::{Told, put_report};
use crate::totals::Totals;
use crate::verdict::end;
use commands::Report;
use made::WrongRows;
use std::alloc::Global;
use std::process::Abort;
use world::Config;

// The first thing that is wrong with what a list comes to. Its lines and stops are counted too.
fn judge_report(
    told: &mut Vec<Told>,
    report: &Report,
    steps: &[Step],
    totals: &mut Totals,
) -> &'static str {
    let wrong = put_report(told, report);
    if !wrong.is_empty() {
        return wrong;
    }
    totals.count(told);
    if steps.len() != LENGTH {
        return "the length";
    }
    if !are_due(report, steps, totals) {
        return "the replies";
    }
    judge(told)
}

/// Plays a list, and judges it. Returns what is wrong, or an empty text.
pub fn play_one(
    alloc: Global,
    config: &Config,
    steps: &[Step],
    totals: &mut Totals,
) -> &'static str {
    let Ok(report) = play_steps(alloc, config, steps) else {
        return "an unlawful list";
    };
    let mut told = Vec::new(alloc);
    let wrong = judge_report(&mut told, &report, steps, totals);
    drop(told);
    drop(report);
    wrong
}

// The list of a seed is drawn, played, and judged.
fn draw_one(alloc: Global, seed: u64, shards: u64, totals: &mut Totals) -> &'static str {
    let Ok(config) = config(alloc, shards) else {
        return "no shards";
    };
    let mut steps = Vec::new(alloc);
    let wrong = if is_drawn(&mut steps, alloc, &config, seed, shards, false) {
        play_one(alloc, &config, &steps, totals)
    } else {
        "no list"
    };
    drop(steps);
    drop(config);
    wrong
}

// Draws 50 lists from a seed on, over 1 to 3 shards in turn.
fn draw_all(rt: &impl Abort, alloc: Global, first: u64) {
    let mut totals = Totals::none();
    let mut wrong = WrongRows::none(alloc);
    for number in 0..50 {
        let seed = first.saturating_add(number);
        let found = draw_one(alloc, seed, number % 3 + 1, &mut totals);
        wrong.unless_at(found.is_empty(), found, seed);
    }
    totals.go_over(&mut wrong);
    end(rt, wrong);
}

// Fails if the report of a drawn list contradicts itself: seeds 1 to 50.
#[test]
fn runs_from_1(rt: HostRuntime) {
    draw_all(&rt, rt.alloc(), 1);
}

// The same of the seeds 51 to 100.
#[test]
fn runs_from_51(rt: HostRuntime) {
    draw_all(&rt, rt.alloc(), 51);
}

// The same of the seeds 101 to 150.
#[test]
fn runs_from_101(rt: HostRuntime) {
    draw_all(&rt, rt.alloc(), 101);
}

// The same of the seeds 151 to 200.
#[test]
fn runs_from_151(rt: HostRuntime) {
    draw_all(&rt, rt.alloc(), 151);
}
