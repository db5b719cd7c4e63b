//! Numbers that threads draw.
ghost use Rattle.std.specs.Prelude.{◌≡◌, All};

use made::WrongRows;
use std::alloc::Global;
use std::thread;
use std::thread::Threads;
use tickets::{Drawer, Tickets};
use units::{Fault, Reason};

// Draws a thousand numbers. Those for which there is no memory are not in the list.
fn draw_many(tickets: &Tickets, alloc: Global, mut drawer: Drawer) -> Vec<u64>
    requires { drawer.source ≡ tickets.now }
{
    let mut drawn = Vec::new(alloc);
    for _draw in 0..1000 {
        if let Ok(n) = tickets.draw(&mut drawer) {
            let _ = drawn.push(n);
        }
    }
    drop(drawer);
    drawn
}

// Gives what all of them draw, each on a thread of its own.
fn draw_all<R: Threads + Sync>(
    rt: &R,
    alloc: Global,
    tickets: &Tickets,
    drawers: Vec<Drawer>,
) -> Vec<u64>
    requires { All (λ d. d.source ≡ tickets.now) drawers.items }
{
    let mut all = Vec::new(alloc);
    let lists = thread::map_vec(rt, drawers, &|drawer| draw_many(tickets, alloc, drawer));
    if let Ok(lists) = lists {
        for list in &lists {
            let _ = all.extend_from_slice(list.as_slice());
        }
        drop(lists);
    }
    all
}

// Tells whether these are 0, 1, 2 and so on.
fn count_up(numbers: &[u64]) -> bool {
    for (i, number) in numbers.iter().enumerate() {
        if i as u64 != *number {
            return false;
        }
    }
    true
}

// So many drawers, which draw on threads of their own, and how many numbers are drawn then. `None` means that there
// may not be so many.
struct Row {
    name: &'static str,
    drawers: usize,
    draws: Option<usize>,
}

static ROWS: [Row; 4] = [
    Row {
        name: "no drawer",
        drawers: 0,
        draws: None,
    },
    Row {
        name: "257 drawers",
        drawers: 257,
        draws: None,
    },
    Row {
        name: "one drawer draws 0, 1, 2 .. in turn",
        drawers: 1,
        draws: Some(1000),
    },
    Row {
        name: "eight threads draw each number once",
        drawers: 8,
        draws: Some(8000),
    },
];

// Tells whether so many drawers may be, and draw each number once.
fn are_drawn<R: Threads + Sync>(rt: &R, alloc: Global, row: &Row) -> bool {
    match Tickets::new(alloc, row.drawers) {
        Ok((tickets, drawers)) => {
            let mut all = draw_all(rt, alloc, &tickets, drawers);
            drop(tickets);
            let ordered = row.drawers == 1 || all.sort().is_ok();
            let drawn = ordered & (row.draws == Some(all.len())) & count_up(all.as_slice());
            drop(all);
            drawn
        }
        Err(fault) => row.draws.is_none() & (fault == Fault::BadRequest(Reason::Many)),
    }
}

/// Checks all rows.
pub fn go_over<R: Threads + Sync>(wrong: &mut WrongRows, rt: &R, alloc: Global) {
    for row in &ROWS {
        wrong.unless(are_drawn(rt, alloc, row), row.name);
    }
}
