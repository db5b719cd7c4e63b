//! Drawn requests for several accounts. The lock table answers them, and so does a plain table that goes over
//! everybody.
use crate::crowd::{Gets, account, comes_to};
use crate::tokens::{Acts, act_out, enters, leaves, release_all};
use locks::{Held, Table};
use made::{WrongRows, id};
use std::alloc::Global;
use units::{Asked, Lock, Mode, TxnId};

/// How a transaction holds or wants each account.
pub type Modes = [Option<Mode>; 5];

/// A transaction. Its place in the plain table is its number, and it has a claim all the time.
#[derive(Clone, Copy)]
pub struct Plain {
    held: Modes,
    pub waits: Modes,
    firm: bool,
}

/// Holds nothing, waits for nothing, and is not firm.
pub const NOTHING: Plain = Plain {
    held: [None; 5],
    waits: [None; 5],
    firm: false,
};

/// The plain table, of seven transactions.
pub type Plains = [Plain; 7];

// Tells whether one holds some account that the other wants, and they do not share it.
fn clash(held: &Modes, wanted: &Modes) -> bool {
    for at in 0..5 {
        if let Some(held) = held[at] {
            if let Some(wanted) = wanted[at] {
                if held == Mode::Exclusive || wanted == Mode::Exclusive {
                    return true;
                }
            }
        }
    }
    false
}

/// Tells whether the one at a place is ended by a request of another.
pub fn gives_way(plains: &Plains, at: usize, number: usize, wanted: &Modes) -> bool {
    let other = &plains[at % 7];
    number < at && !other.firm && clash(&other.held, wanted)
}

// Tells whether a request of another waits for the one at a place, whether it ends it or not.
fn is_in_way(plains: &Plains, at: usize, number: usize, wanted: &Modes) -> bool {
    let other = &plains[at % 7];
    at != number && (clash(&other.held, wanted) || (at < number && clash(&other.waits, wanted)))
}

/// Tells whether these are the ones that a request ends, by ascending number.
pub fn ends(plains: &Plains, number: usize, wanted: &Modes, ids: &[TxnId]) -> bool {
    let mut count = 0;
    for at in 0..7 {
        if gives_way(plains, at, number, wanted) {
            match ids.get(count) {
                Some(txn) if *txn == id(at as u16) => count += 1,
                _ => return false,
            }
        }
    }
    count == ids.len()
}

/// Tells whether nobody is in the way but those that are ended.
pub fn opens(plains: &Plains, number: usize, wanted: &Modes) -> bool {
    for at in 0..7 {
        if is_in_way(plains, at, number, wanted) && !gives_way(plains, at, number, wanted) {
            return false;
        }
    }
    true
}

/// Finds the first that waits, with nobody in its way.
pub fn first_ready(plains: &Plains) -> Option<TxnId> {
    for number in 0..7 {
        let waits = plains[number].waits;
        let mut blocked = waits == [None; 5];
        for at in 0..7 {
            blocked = blocked || is_in_way(plains, at, number, &waits);
        }
        if !blocked {
            return Some(id(number as u16));
        }
    }
    None
}

/// Gives it what it wants, and ends its wait.
pub fn is_granted(plain: &mut Plain, wanted: &Modes) {
    for at in 0..5 {
        if plain.held[at] != Some(Mode::Exclusive) && wanted[at].is_some() {
            plain.held[at] = wanted[at];
        }
    }
    plain.waits = [None; 5];
}

fn locks_of(alloc: Global, wanted: &Modes) -> Option<Vec<Lock>> {
    let mut locks = Vec::new(alloc);
    for at in 0..5 {
        if let Some(mode) = wanted[at] {
            let key = account(at as u16);
            let Ok(()) = locks.push(Lock { key, mode }) else {
                return None;
            };
        }
    }
    Some(locks)
}

// Tells whether the table says the same of a request beforehand as the plain one.
fn agrees_before(
    table: &Table,
    alloc: Global,
    plains: &Plains,
    number: usize,
    wanted: &Modes,
    locks: &[Lock],
) -> bool {
    let txn = id((number % 7) as u16);
    match table.wounded(alloc, txn, locks) {
        Ok(ids) => {
            let same = ends(plains, number, wanted, ids.as_slice());
            drop(ids);
            same && table.opens(txn, locks) == opens(plains, number, wanted)
        }
        Err(_) => false,
    }
}

// Releases those that a request ends, and lets them come again with nothing.
fn starts_anew(
    table: &mut Table,
    alloc: Global,
    tokens: &mut Vec<Held>,
    plains: &mut Plains,
    number: usize,
) -> bool {
    let at = number % 7;
    leaves(table, tokens, at as u16);
    plains[at] = NOTHING;
    enters(table, alloc, tokens, at as u16)
}

fn ends_all(
    table: &mut Table,
    alloc: Global,
    tokens: &mut Vec<Held>,
    plains: &mut Plains,
    number: usize,
    wanted: &Modes,
) -> bool {
    for at in 0..7 {
        if gives_way(plains, at, number, wanted) && !starts_anew(table, alloc, tokens, plains, at) {
            return false;
        }
    }
    true
}

// Tells whether the answer to a request is the plain table's, and lets that go on by it.
fn agrees_on(
    table: &mut Table,
    alloc: Global,
    tokens: &mut Vec<Held>,
    plains: &mut Plains,
    number: usize,
    wanted: &Modes,
    locks: &[Lock],
) -> bool {
    if !agrees_before(table, alloc, plains, number, wanted, locks) {
        return false;
    }
    let opens = opens(plains, number, wanted);
    match act_out(table, alloc, tokens, (number % 7) as u16, Acts::Asks(locks)) {
        Some(Asked::Granted) => {
            is_granted(&mut plains[number % 7], wanted);
            opens
        }
        Some(Asked::Waits) => {
            plains[number % 7].waits = *wanted;
            !opens
        }
        Some(Asked::Wounds(ids)) => {
            let same = ends(plains, number, wanted, ids.as_slice()) && !ids.as_slice().is_empty();
            drop(ids);
            same && ends_all(table, alloc, tokens, plains, number, wanted)
        }
        None => false,
    }
}

fn drawn_modes(drawn: u64) -> Modes {
    let mut modes = [None; 5];
    let mut left = drawn;
    for at in 0..5 {
        modes[at] = match left % 6 {
            0 => Some(Mode::Exclusive),
            1 => Some(Mode::Shared),
            2 => Some(Mode::Shared),
            _ => None,
        };
        left /= 6;
    }
    modes
}

// Lets a transaction ask for what is drawn.
fn asks(
    table: &mut Table,
    alloc: Global,
    tokens: &mut Vec<Held>,
    plains: &mut Plains,
    number: usize,
    drawn: u64,
) -> bool {
    let wanted = drawn_modes(drawn);
    match locks_of(alloc, &wanted) {
        Some(locks) => {
            let same = agrees_on(table, alloc, tokens, plains, number, &wanted, &locks);
            drop(locks);
            same
        }
        None => false,
    }
}

// Lets whoever is ready go on.
fn resumes(table: &mut Table, alloc: Global, tokens: &mut Vec<Held>, plains: &mut Plains) -> bool {
    match first_ready(plains) {
        Some(txn) => {
            let number = (txn.number() % 7) as usize;
            let plain = &mut plains[number];
            let wanted = plain.waits;
            is_granted(plain, &wanted);
            comes_to(
                table,
                alloc,
                tokens,
                number as u16,
                Acts::GoesOn,
                Gets::Granted,
            )
        }
        None => table.ready().is_none(),
    }
}

fn agrees_once(
    table: &mut Table,
    alloc: Global,
    tokens: &mut Vec<Held>,
    plains: &mut Plains,
    drawn: u64,
) -> bool {
    let number = (drawn % 7) as usize;
    let act = match drawn / 7 % 16 {
        0 => return starts_anew(table, alloc, tokens, plains, number),
        1 => {
            plains[number % 7].firm = true;
            Acts::BecomesFirm
        }
        2 => {
            plains[number % 7].waits = [None; 5];
            Acts::GivesItsWaitUp
        }
        3 | 4 => return resumes(table, alloc, tokens, plains),
        _ => return asks(table, alloc, tokens, plains, number, drawn / 112),
    };
    comes_to(
        table,
        alloc,
        tokens,
        (number % 7) as u16,
        act,
        Gets::Granted,
    )
}

fn agrees(table: &mut Table, alloc: Global, tokens: &mut Vec<Held>, turns: u64) -> bool {
    for number in 0..7 {
        if !enters(table, alloc, tokens, number) {
            return false;
        }
    }
    let mut plains: Plains = [NOTHING; 7];
    let mut state = 1u64;
    for _ in 0..turns {
        state = state
            .wrapping_mul(6364136223846793005)
            .wrapping_add(1442695040888963407);
        if !agrees_once(table, alloc, tokens, &mut plains, state >> 33) {
            return false;
        }
        if table.ready() != first_ready(&plains) {
            return false;
        }
    }
    true
}

/// Checks the drawn requests.
pub fn go_over(wrong: &mut WrongRows, alloc: Global) {
    let mut table = Table::new(alloc);
    let mut tokens = Vec::new(alloc);
    let told = agrees(&mut table, alloc, &mut tokens, 20_000);
    release_all(&mut table, tokens);
    drop(table);
    wrong.unless(told, "drawn requests for several accounts");
}
