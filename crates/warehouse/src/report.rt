//! The report: all of the warehouse at one timestamp.
ghost use Rattle.std.specs.Prelude.{◌≡◌, ◌+◌, IsTrue};

use crate::stock::key_of;
use std::alloc::Global;
use std::sync::Wait;
use std::time;
use store::{Client, Fault, Stamp, View};

/// What the warehouse has at a timestamp.
#[derive(Clone, Copy, PartialEq, Eq)]
pub struct Report {
    pub stock: u64,
    pub held: u64,
    /// What all open orders have together, and how many these are.
    pub ordered: u64,
    pub orders: u64,
    pub received: u64,
    pub shipped: u64,
    pub requests: u64,
}

impl Report {
    /// Tells whether what came in is there or was shipped, and what is held is what the open orders have.
    pub fn balances(&self) -> bool
        ensures { IsTrue result → (self.now.stock + self.now.held + self.now.shipped
            ≡ self.now.received) × (self.now.held ≡ self.now.ordered) }
    {
        let there = u128::from(self.stock) + u128::from(self.held) + u128::from(self.shipped);
        there == u128::from(self.received) && self.held == self.ordered
    }
}

// How many keys of a name have a number, and the sum of the numbers, by pages of 64 keys.
fn sum<R: Wait + time::Clock>(
    alloc: Global,
    view: &mut View<'_, '_, R>,
    name: &str,
) -> Result<(u64, u64), Fault> {
    let to = key_of(alloc, name, u32::MAX)?;
    let mut next = Some(key_of(alloc, name, 0)?);
    let (mut count, mut sum) = (0_u64, 0_u64);
    for _page in 0..1_000_000_u32 {
        let Some(from) = next else {
            break;
        };
        let page = view.keys(&from, Some(&to), 64)?;
        for key in &page.keys {
            count = count.saturating_add(1);
            sum = sum.saturating_add(view.get_as::<u64>(key)?.unwrap_or(0));
        }
        next = page.next;
        drop(page);
    }
    Ok((count, sum))
}

/// Makes the report of an earlier time, or of now, and tells the time. `NotYet`, which a retry heals, if a shard does not serve it in ten seconds.
pub fn report_at<R: Wait + time::Clock>(
    alloc: Global,
    client: &mut Client<'_, R>,
    at: Option<Stamp>,
) -> Result<(Stamp, Report), Fault> {
    let Some(now) = client.view() else {
        return Err(Fault::NotYet);
    };
    let at = at.unwrap_or(now.at());
    drop(now);
    let mut view = client.view_at(at);
    view.wait_at_most(time::Duration::from_secs(10));
    let (orders, ordered) = sum(alloc, &mut view, "order")?;
    let report = Report {
        stock: sum(alloc, &mut view, "item")?.1,
        held: sum(alloc, &mut view, "held")?.1,
        ordered,
        orders,
        received: sum(alloc, &mut view, "in")?.1,
        shipped: sum(alloc, &mut view, "out")?.1,
        requests: sum(alloc, &mut view, "request")?.0,
    };
    Ok((at, report))
}
