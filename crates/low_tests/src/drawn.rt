//! Drawn requests for one account each. The rows answer them, and so does a plain table that goes over everybody.
use crate::crowd::account;
use crate::ids::{admits, ask, needs};
use crate::plain::{Modes, NOTHING, Plains, ends, first_ready, gives_way, is_granted, opens};
use made::id;
use rows::Rows;
use std::alloc::Global;
use units::Mode;

// Ends the younger ones in the way, and then grants the request or lets it wait. One that holds nothing and waits for
// nothing may have no row.
fn goes_on(plains: &mut Plains, number: usize, wanted: &Modes, granted: bool) {
    for at in 0..7 {
        if gives_way(plains, at, number, wanted) {
            plains[at] = NOTHING;
        }
    }
    let plain = &mut plains[number % 7];
    if granted {
        is_granted(plain, wanted);
    } else {
        plain.waits = *wanted;
    }
}

// Tells whether the rows answer what the plain table says, and lets both go on by it. Nobody waits for what is not
// shared.
fn agrees_on(
    rows: &mut Rows,
    alloc: Global,
    plains: &mut Plains,
    number: usize,
    at: usize,
    mode: Mode,
) -> bool {
    let txn = id((number % 7) as u16);
    let key = account((at % 5) as u16);
    let mut wanted = [None; 5];
    wanted[at % 5] = Some(mode);
    if rows.find(txn).is_none() && !admits(rows, alloc, txn) {
        return false;
    }
    let Ok(ended) = rows.wounded(alloc, txn, &needs(key, mode)) else {
        return false;
    };
    let same = ends(plains, number, &wanted, ended.as_slice());
    drop(ended);
    let free = opens(plains, number, &wanted);
    if free || mode == Mode::Shared {
        goes_on(plains, number, &wanted, free);
    }
    same && ask(rows, alloc, txn, key, mode) == Some(free)
}

// Takes out the transaction's row, if it has one.
fn leaves(rows: &mut Rows, plains: &mut Plains, number: usize) {
    let txn = id((number % 7) as u16);
    if rows.is_reading(txn) {
        rows.end(txn);
    }
    plains[number % 7] = NOTHING;
}

/// Tells whether the rows and the plain table agree on so many drawn requests and on who is ready.
pub fn agrees(rows: &mut Rows, alloc: Global, turns: u64) -> bool {
    let mut plains: Plains = [NOTHING; 7];
    let mut state = 1u64;
    for _ in 0..turns {
        state = state
            .wrapping_mul(6364136223846793005)
            .wrapping_add(1442695040888963407);
        let drawn = state >> 33;
        let number = (drawn % 7) as usize;
        let mode = if drawn / 7 % 2 == 0 {
            Mode::Shared
        } else {
            Mode::Exclusive
        };
        if drawn / 70 % 4 == 0 {
            leaves(rows, &mut plains, number);
        } else if !agrees_on(
            rows,
            alloc,
            &mut plains,
            number,
            (drawn / 14 % 5) as usize,
            mode,
        ) {
            return false;
        }
        if rows.ready() != first_ready(&plains) {
            return false;
        }
    }
    true
}
