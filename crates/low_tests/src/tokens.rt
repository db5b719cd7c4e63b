//! The tokens of the transactions of a lock table. Each is used only while the table has its claim.
use locks::{Held, Table};
use made::id;
use std::alloc::Global;
use units::{Asked, Lock};

/// Takes in a transaction that is not in the table, and keeps its token.
pub fn enters(table: &mut Table, alloc: Global, tokens: &mut Vec<Held>, number: u16) -> bool {
    let txn = id(number);
    if table.has(txn) {
        return false;
    }
    let Ok(()) = tokens.reserve(1) else {
        return false;
    };
    match table.enter(alloc, txn) {
        Ok(held) => {
            tokens.push_reserved(held);
            true
        }
        Err(_) => false,
    }
}

// Finds the place of a transaction's token.
fn place(tokens: &[Held], number: u16) -> Option<usize> {
    for (at, held) in tokens.iter().enumerate() {
        if held.txn() == id(number) {
            return Some(at);
        }
    }
    None
}

/// What a transaction does that stays in the table.
#[derive(Clone, Copy)]
pub enum Acts<'a> {
    Asks(&'a [Lock]),
    /// It becomes firm: from now on nobody ends it.
    BecomesFirm,
    GivesItsWaitUp,
    /// It is ready, and gets what it waits for.
    GoesOn,
}

/// Lets a transaction act, and gives what comes of it, if the transaction has a token. Of all but a request, that is
/// that it is granted.
pub fn act_out(
    table: &mut Table,
    alloc: Global,
    tokens: &mut [Held],
    number: u16,
    act: Acts<'_>,
) -> Option<Asked> {
    for held in tokens {
        if held.txn() == id(number) && table.has(held.txn()) {
            match act {
                Acts::Asks(needs) => return table.request(alloc, held, needs).ok(),
                Acts::BecomesFirm => table.firm(held),
                Acts::GivesItsWaitUp => table.withdraw(held),
                Acts::GoesOn => {
                    let goes = table.ready() == Some(held.txn()) && table.resume(held).is_ok();
                    if !goes {
                        return None;
                    }
                }
            }
            return Some(Asked::Granted);
        }
    }
    None
}

/// Releases the transaction, if it has a token.
pub fn leaves(table: &mut Table, tokens: &mut Vec<Held>, number: u16) {
    match place(tokens, number) {
        Some(at) => {
            if at < tokens.len() {
                table.release(tokens.remove(at));
            }
        }
        None => {}
    }
}

/// Releases all.
pub fn release_all(table: &mut Table, tokens: Vec<Held>) {
    let mut tokens = tokens;
    for _ in 0..tokens.len() {
        match tokens.pop() {
            Some(held) => table.release(held),
            None => {}
        }
    }
    tokens.destroy_empty();
}
