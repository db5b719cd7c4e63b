//! The lock table with a crowd in it: a thousand transactions wait for one holder, or for a thousand.
use crate::checks::Row;
use crate::tokens::{Acts, act_out, enters, leaves, release_all};
use locks::{Held, Table};
use made::{WrongRows, id};
use std::alloc::Global;
use units::{Asked, Key, Lock, Mode};

// How many wait.
const CROWD: u16 = 1_000;

/// Makes the key of an account: these keys begin alike.
pub fn account(number: u16) -> Key {
    let [high, low] = number.to_be_bytes();
    match Key::new(&[b'a', b'c', b'c', b'o', b'u', b'n', b't', b'/', high, low]) {
        Ok(key) => key,
        Err(_) => unreachable!(),
    }
}

/// What comes of what a transaction does.
#[derive(Clone, Copy, PartialEq)]
pub enum Gets {
    Granted,
    Waits,
    /// It ends 1.2 alone.
    Wounds,
    /// It ends others, or there is no memory, or no token.
    Nothing,
}

/// Tells whether this comes of what a transaction does.
pub fn comes_to(
    table: &mut Table,
    alloc: Global,
    tokens: &mut Vec<Held>,
    number: u16,
    act: Acts<'_>,
    wanted: Gets,
) -> bool {
    let came = match act_out(table, alloc, tokens, number, act) {
        Some(Asked::Granted) => Gets::Granted,
        Some(Asked::Waits) => Gets::Waits,
        Some(Asked::Wounds(ids)) => {
            let alone = ids.as_slice() == [id(2)].as_slice();
            drop(ids);
            if alone { Gets::Wounds } else { Gets::Nothing }
        }
        None => Gets::Nothing,
    };
    came == wanted
}

/// So many transactions hold an account each, exclusive, and a thousand others wait for these in turn.
pub struct Crowd {
    name: &'static str,
    holders: u16,
    mode: Mode,
    // All go on when the one holder is released, and not one after another.
    at_once: bool,
    // The order in which they are released: each of a thousand numbers comes once.
    apart: u16,
}

/// Crowds whose waiters go on in turn, at once and apart.
pub static CROWDS: [Crowd; 3] = [
    // A transaction that writes goes on when the one before it is released, the oldest first.
    Crowd {
        name: "write in turn",
        holders: 1,
        mode: Mode::Exclusive,
        at_once: false,
        apart: 1,
    },
    // A transaction that reads goes on with all others that read, the oldest first.
    Crowd {
        name: "read at once",
        holders: 1,
        mode: Mode::Shared,
        at_once: true,
        apart: 1,
    },
    // The waiter whose holder is released goes on, and nobody else.
    Crowd {
        name: "go on apart",
        holders: CROWD,
        mode: Mode::Shared,
        at_once: false,
        apart: 7,
    },
];

// Lets all come that hold an account, or else all that wait for one, and tells whether each request gets that.
fn all_come(
    table: &mut Table,
    alloc: Global,
    tokens: &mut Vec<Held>,
    crowd: &Crowd,
    waits: bool,
) -> bool {
    let (first, count, mode, wanted) = if waits {
        (crowd.holders, CROWD, crowd.mode, Gets::Waits)
    } else {
        (0, crowd.holders, Mode::Exclusive, Gets::Granted)
    };
    for place in 0..count {
        let number = first.saturating_add(place);
        let key = account(place % crowd.holders.max(1));
        let needs = [Lock { key, mode }];
        if !enters(table, alloc, tokens, number)
            || !comes_to(table, alloc, tokens, number, Acts::Asks(&needs), wanted)
        {
            return false;
        }
    }
    true
}

// Lets the waiters go on, each in its turn.
fn all_go_on(table: &mut Table, alloc: Global, tokens: &mut Vec<Held>, crowd: &Crowd) -> bool {
    for turn in 0..CROWD {
        let number = turn.wrapping_mul(crowd.apart) % CROWD;
        if turn == 0 || !crowd.at_once {
            leaves(table, tokens, number);
        }
        let waiter = crowd.holders.saturating_add(number);
        if !comes_to(table, alloc, tokens, waiter, Acts::GoesOn, Gets::Granted) {
            return false;
        }
        if !crowd.at_once && table.ready().is_some() {
            return false;
        }
    }
    table.ready().is_none()
}

// Each crowd comes in a new table, in which nobody is left at the end.
impl Row for Crowd {
    fn tell(&self, wrong: &mut WrongRows, rt: &HostRuntime) {
        let alloc = rt.alloc();
        let (mut table, mut tokens) = (Table::new(alloc), Vec::new(alloc));
        let hold = all_come(&mut table, alloc, &mut tokens, self, false);
        let wait = all_come(&mut table, alloc, &mut tokens, self, true);
        let none = table.ready().is_none();
        let went = all_go_on(&mut table, alloc, &mut tokens, self);
        release_all(&mut table, tokens);
        let empty = !table.has(id(0)) & table.ready().is_none();
        drop(table);
        wrong.unless(hold & wait & none & went & empty, self.name);
    }
}
