//! Requests. Each is done once, whatever happens: its own key is written with what it does.
use crate::stock::{ITEMS, WORKERS, key_of, moved};
use std::alloc::Global;
use std::sync::Wait;
use std::time;
use store::{Client, Ended, Fault, Halt, Outcome, Transaction};

/// A request of a worker by its number. Of each four one brings goods, two place an order, and one ships the first of these or cancels it.
#[derive(Clone, Copy)]
pub struct Request {
    pub worker: u32,
    pub number: u32,
}

/// Why a request is abandoned: it was done before, or there are too few goods.
#[derive(Clone, Copy, PartialEq, Eq)]
pub enum Why {
    Done,
    Short,
}

impl Request {
    // Its number among those of all workers, each of which has fewer than a million.
    fn place(self) -> u32 {
        let before = self.worker.wrapping_mul(1_000_000);
        before.wrapping_add(self.number)
    }

    // The item of a line of its order, and how many of it.
    fn line(self, line: u32) -> (u32, u64) {
        let Request { worker, number } = self;
        let item = worker.wrapping_mul(7).wrapping_add(number.wrapping_mul(3));
        let item = item.wrapping_add(line.wrapping_mul(5)) % ITEMS;
        let quantity = worker.wrapping_add(number).wrapping_add(line) % 5;
        (item, 1 + u64::from(quantity))
    }
}

// Moves the goods of an order from one place to another, each by its item, or to what its worker has shipped. Gives how many they are.
fn carry<R: Wait + time::Clock>(
    alloc: Global,
    tx: &mut Transaction<'_, R>,
    order: Request,
    from: &str,
    to: &str,
) -> Result<u64, Halt<Why>> {
    let mut carried = 0_u64;
    for line in 0..3 {
        let (item, quantity) = order.line(line);
        let number = if to == "out" { order.worker } else { item };
        let from = key_of(alloc, from, item)?;
        let to = key_of(alloc, to, number)?;
        let has = tx.get_as::<u64>(&from)?.unwrap_or(0);
        let gets = tx.get_as::<u64>(&to)?.unwrap_or(0);
        let Some((left, more)) = moved(has, gets, quantity) else {
            return Err(Halt::Abandon(Why::Short));
        };
        tx.put_as(&from, &left)?;
        tx.put_as(&to, &more)?;
        carried = carried.saturating_add(quantity);
    }
    Ok(carried)
}

// Brings goods to an item: they are in stock, and have come in.
fn bring<R: Wait + time::Clock>(
    alloc: Global,
    tx: &mut Transaction<'_, R>,
    item: u32,
    quantity: i64,
) -> Result<(), Halt<Why>> {
    tx.add(&key_of(alloc, "item", item)?, quantity)?;
    tx.add(&key_of(alloc, "in", item)?, quantity)?;
    Ok(())
}

// Does what a request asks for.
fn act<R: Wait + time::Clock>(
    alloc: Global,
    tx: &mut Transaction<'_, R>,
    request: Request,
) -> Result<(), Halt<Why>> {
    let Request { worker, number } = request;
    match number % 4 {
        0 => bring(alloc, tx, request.line(0).0, 10),
        1 | 2 => {
            let held = carry(alloc, tx, request, "item", "held")?;
            Ok(tx.put_as(&key_of(alloc, "order", request.place())?, &held)?)
        }
        _ => {
            let number = number.saturating_sub(2);
            let order = Request { worker, number };
            let key = key_of(alloc, "order", order.place())?;
            if tx.get(&key)?.is_some() {
                let to = if number % 8 == 1 { "out" } else { "item" };
                carry(alloc, tx, order, "held", to)?;
                tx.erase(&key)?;
            }
            Ok(())
        }
    }
}

// Sends a request, with no new attempt after ten seconds: its own key tells whether it was done. That of no worker fills the shelves.
fn send<R: Wait + time::Clock>(
    alloc: Global,
    client: &mut Client<'_, R>,
    request: Request,
) -> Result<Ended<(), Why>, Fault> {
    let key = key_of(alloc, "request", request.place())?;
    client.transact_within(
        100,
        time::Duration::from_secs(10),
        |tx: &mut Transaction<'_, R>| -> Result<(), Halt<Why>> {
            if tx.get(&key)?.is_some() {
                return Err(Halt::Abandon(Why::Done));
            }
            if request.worker == WORKERS {
                for item in 0..ITEMS {
                    bring(alloc, tx, item, 1_000)?;
                }
            } else {
                act(alloc, tx, request)?;
            }
            Ok(tx.put_as(&key, &1_u64)?)
        },
    )
}

/// Sends a request until it is told how it ended, 50 times at most. If nobody told that, the store is asked by its id. If it was not committed
/// then, it is sent again, which does nothing if it was done all the same.
pub fn settle<R: Wait + time::Clock>(
    alloc: Global,
    client: &mut Client<'_, R>,
    request: Request,
) -> Result<Ended<(), Why>, Fault> {
    let mut ended = send(alloc, client, request)?;
    for _sending in 1..50 {
        match ended {
            Ended::Committed { .. } | Ended::Abandoned(_) => break,
            Ended::Aborted { .. } => {}
            Ended::Unknown { id } => {
                if let Outcome::Committed(at) = client.outcome(id)? {
                    return Ok(Ended::Committed { at, id, value: () });
                }
            }
        }
        ended = send(alloc, client, request)?;
    }
    Ok(ended)
}
