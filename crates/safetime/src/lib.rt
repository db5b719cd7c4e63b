//! The safe time of a shard, which is the greatest timestamp at which its versions may be read, and the ceilings that
//! let it serve.
#![tactic(auto)]

mod ceiling;
mod laws;

ghost use Rattle.std.specs.Prelude.{◌≡◌, ◌<◌, ◌-◌, ◌++◌, ◌∷◌, ◌==◌, [], min, max, length, All, IfOk, IfErr};
ghost use Rattle.std.specs.List.{position_or_len};
ghost use Rattle.safetime.specs.Safe.{safe_of, lifted};

pub use ceiling::needed;
pub use laws::order_does_not_matter;
use std::alloc::Global;
use std::marker::Model;
use units::{Fault, MOST_ROWS, Stamp};

/// The greatest timestamp assigned, applied or served, and the timestamps of the transactions that are not settled.
/// These are at most as many as a shard has rows.
#[derive(Drop)]
pub struct SafeTime {
    last: Stamp,
    holds: Vec<Stamp>,
}

impl Model for SafeTime {
    ghost use Rattle.std.specs.Prelude.{◌≤◌, ◌<◌, All, vec_capacity};
    ghost use Rattle.safetime.specs.Safe.{Times};
    ghost use Rattle.units.specs.Limits.{most_rows};

    ghost Value = { Times };

    ghost view = { λ a. record { last = a.last; holds = a.holds.items } };

    ghost invariant = { λ a. All (λ at. 0 < at) a.holds.items
        × (most_rows ≤ vec_capacity a.holds) };
}

impl SafeTime {
    /// Begins with no holds, and takes the memory for all of them. It is refused for want of memory alone.
    pub fn new(alloc: Global, last: Stamp) -> Result<SafeTime, Fault>
        ensures times { IfOk result (λ times. times ≡ record { last = last; holds = [] }) }
        ensures memory { IfErr result (λ fault. fault ≡ Fault.Memory) }
    {
        let holds = Vec::with_capacity(alloc, MOST_ROWS)?;
        Ok(SafeTime { last, holds })
    }

    /// Notes that a timestamp is given to a transaction.
    pub fn assign(&mut self, at: Stamp)
        ensures { self.new ≡ record self.old { last = max self.old.last at } }
    {
        self.raise(at);
    }

    /// Notes that a timestamp was applied or served.
    pub fn raise(&mut self, at: Stamp)
        ensures { self.new ≡ record self.old { last = max self.old.last at } }
    {
        self.last = self.last.later(at);
    }

    /// Holds the safe time below a timestamp.
    pub fn hold(&mut self, at: Stamp)
        requires above_zero { 0 < at }
        requires room { length self.old.holds < MOST_ROWS }
        ensures { self.new ≡ record self.old { holds = self.old.holds ++ at ∷ [] } }
    {
        self.holds.push_reserved(at);
    }

    /// Lifts one hold of a timestamp, if there is one.
    #[tactic(auto, using(crate::proofs::Lifts::remove_is_lifted, crate::proofs::Lifts::lifted_none))]
    pub fn lift(&mut self, at: Stamp)
        ensures { self.new ≡ record self.old { holds = lifted at self.old.holds } }
    {
        let at_place = place(&self.holds, at);
        if at_place < self.holds.len() {
            self.holds.remove(at_place);
        }
    }

    /// Gives the greatest timestamp assigned, applied or served.
    pub fn last(&self) -> Stamp
        ensures { result ≡ self.now.last }
    {
        self.last
    }

    /// Gives the safe time: the greatest timestamp at which versions may be read.
    pub fn safe(&self) -> Stamp
        ensures { result ≡ safe_of self.now }
    {
        safe_below(self.last, &self.holds)
    }
}

// Gives the least of the last timestamp and of those before the holds.
fn safe_below(last: Stamp, holds: &[Stamp]) -> Stamp
    requires { All (λ at. 0 < at) holds.now }
    ensures { result ≡ safe_of (record { last = last; holds = holds.now }) }
{
    let mut safe = last;
    for at in holds {
        safe = earlier(safe, before(*at));
    }
    safe
}

fn earlier(a: Stamp, b: Stamp) -> Stamp
    ensures { result ≡ min a b }
{
    if a < b { a } else { b }
}

// Gives the timestamp before this one.
fn before(at: Stamp) -> Stamp
    requires { 0 < at }
    ensures { result ≡ at - 1 }
{
    match Stamp::new(at.micros() - 1) {
        Ok(before) => before,
        Err(_) => unreachable!(),
    }
}

// Finds the first place of a timestamp, or gives the length.
fn place(holds: &[Stamp], at: Stamp) -> usize
    ensures { result ≡ position_or_len (λ hold. hold == at) holds.now }
{
    for (place, hold) in holds.iter().enumerate() {
        if *hold == at {
            return place;
        }
    }
    holds.len()
}
