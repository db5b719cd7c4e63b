//! The viewers of shards that were opened again, until the clients take them.
ghost use Rattle.std.specs.Prelude.{◌≡◌, All, IfErr, IfSome, IsTrue};
ghost use Rattle.store.specs.Views.{AreRenewed, home_at};

use board::{Home, Viewer};
use std::alloc::Global;
use std::sync::atomic::{AtomicU64, Ordering};
use std::sync::{Mutex, Wait};
use units::{Fault, Key, Splits};

/// New viewers for the clients of a store: those of each shard whose disk was opened again. A client sees by a count, without a lock, whether there is
/// something new.
#[derive(Drop)]
pub struct Offers {
    // How often something was offered.
    count: AtomicU64,
    // What was offered last, by shard.
    shards: Vec<Mutex<Option<Offer>>>,
}

// The viewers of a new board, all for the keys of one home: one for each client, until it has taken it.
#[derive(Drop)]
struct Offer {
    home: Home,
    viewers: Vec<Viewer>,
    // The clients that have taken theirs, a bit each.
    taken: u64,
    ghost at_home: { All (λ viewer. viewer.home ≡ home) viewers.items },
}

// So many clients a store has at most.
const MOST_CLIENTS: usize = 64;

impl Offer {
    // Whether its viewers are for the keys of this shard, between these splits.
    fn is_of(&self, splits: &Splits, shard: usize) -> bool
        ensures { IsTrue result → self.now.home ≡ home_at splits.now shard }
    {
        usize::from(self.home.shard.number()) == shard
            && are_same(self.home.splits.as_slice(), splits.as_slice())
    }

    // Gives a client its viewer, if it has not taken it yet.
    fn take(&mut self, client: usize) -> Option<Viewer>
        ensures { IfSome result (λ viewer. viewer.home ≡ self.old.home) }
    {
        let bit = 1_u64 << ((client % MOST_CLIENTS) as u32);
        if self.taken & bit != 0 {
            return None;
        }
        self.taken |= bit;
        self.viewers.pop()
    }
}

impl Offers {
    /// Nothing was offered yet, of so many shards.
    pub fn none(alloc: Global, shards: usize) -> Result<Offers, Fault>
        ensures { IfErr result (λ fault. fault ≡ Fault.Memory) }
    {
        let mut none = Vec::new(alloc);
        for _shard in 0..shards {
            none.push(Mutex::new(None))?;
        }
        Ok(Offers {
            count: AtomicU64::new(0),
            shards: none,
        })
    }

    /// Offers the viewers of a new board, one for each client, in the place of what was offered of this shard before.
    pub fn offer<W: Wait>(&self, rt: &W, shard: usize, home: Home, viewers: Vec<Viewer>)
        requires { All (λ viewer. viewer.home ≡ home) viewers.items }
    {
        let offer = Offer {
            home,
            viewers,
            taken: 0,
        };
        match self.shards.get(shard) {
            Some(place) => *place.lock(rt) = Some(offer),
            None => drop(offer),
        }
        self.count.fetch_add(1, Ordering::SeqCst);
    }

    /// Tells how often something was offered.
    pub fn count(&self) -> u64 {
        self.count.load(Ordering::SeqCst)
    }

    /// Tells whether each client has taken what was offered of this shard.
    pub fn are_taken<W: Wait>(&self, rt: &W, shard: usize) -> bool {
        let Some(place) = self.shards.get(shard) else {
            return true;
        };
        match &*place.lock(rt) {
            Some(offer) => offer.viewers.is_empty(),
            None => true,
        }
    }

    /// Gives a client its viewer of a shard, if one is offered that it has not taken. It shows the keys of that shard, between these splits.
    fn take<W: Wait>(&self, rt: &W, client: usize, splits: &Splits, shard: usize) -> Option<Viewer>
        ensures { IfSome result (λ viewer. viewer.home ≡ home_at splits.now shard) }
    {
        let mut place = self.shards.get(shard)?.lock(rt);
        match &mut *place {
            Some(offer) if offer.is_of(splits, shard) => offer.take(client),
            _ => None,
        }
    }

    /// Puts what a client has not taken yet in the place of its viewers, which are one of each shard, by shard.
    pub fn renew<W: Wait>(&self, rt: &W, client: usize, splits: &Splits, viewers: &mut Vec<Viewer>)
        ensures { AreRenewed splits.now viewers.old.items viewers.new.items }
    {
        for shard in 0..viewers.len() {
            if let Some(viewer) = self.take(rt, client, splits, shard) {
                viewers[shard] = viewer;
            }
        }
    }
}

// Whether these are the same keys.
fn are_same(one: &[Key], other: &[Key]) -> bool
    ensures { IsTrue result → one.now ≡ other.now }
{
    match (one.split_first(), other.split_first()) {
        (None, None) => true,
        (Some((first, rest)), Some((next, others))) => {
            first.as_bytes() == next.as_bytes() && are_same(rest, others)
        }
        _ => false,
    }
}
