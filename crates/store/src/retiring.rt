//! Of which ids an open store speaks, so that it can retire the others.
ghost use Rattle.std.specs.Prelude.{◌≡◌, IfErr};

use std::alloc::Global;
use std::sync::atomic::{AtomicU64, Ordering};
use units::{Fault, TxnId};

// The word of a client or a shard that speaks of nothing.
const NOTHING: u64 = u64::MAX;

/// Of which transactions the clients and the shards of an open store may still speak, by their numbers: all are of the store's run. Any thread
/// reads and writes it without a lock.
#[derive(Drop)]
pub(crate) struct Retiring {
    // A number that is not above that of the client's transaction.
    clients: Vec<AtomicU64>,
    // A number above all that were drawn and noted.
    next: AtomicU64,
    // No client speaks of a lower number any more.
    left: AtomicU64,
    // At each shard no transaction of a lower number is prepared, and none will be.
    shards: Vec<AtomicU64>,
}

impl Retiring {
    /// Nothing was drawn yet, and no shard has told anything.
    pub(crate) fn new(alloc: Global, shards: usize, clients: usize) -> Result<Retiring, Fault>
        ensures { IfErr result (λ fault. fault ≡ Fault.Memory) }
    {
        Ok(Retiring {
            clients: words(alloc, clients, NOTHING)?,
            next: AtomicU64::new(0),
            left: AtomicU64::new(0),
            shards: words(alloc, shards, 0)?,
        })
    }

    /// Notes that a client is about to draw a number. It will be above all that were drawn before, so none of these is noted in its place.
    pub(crate) fn draws(&self, client: usize) {
        self.speak(client, self.next.load(Ordering::SeqCst));
    }

    /// Tells whether all numbers below this one were drawn and noted.
    pub(crate) fn has_drawn(&self, number: u64) -> bool {
        number <= self.next.load(Ordering::SeqCst)
    }

    /// Notes the id that the client drew.
    pub(crate) fn drew(&self, client: usize, id: TxnId) {
        self.next.fetch_max(id.number() + 1, Ordering::SeqCst);
        self.speak(client, id.number());
    }

    /// Notes that the client speaks of an earlier transaction once more. `false` says that its id may be retired, so the client does not.
    pub(crate) fn speaks_again(&self, client: usize, id: TxnId) -> bool {
        self.speak(client, id.number());
        if id.number() < self.left.load(Ordering::SeqCst) {
            self.ends(client);
            return false;
        }
        true
    }

    /// Notes that the client speaks of no transaction any more.
    pub(crate) fn ends(&self, client: usize) {
        self.speak(client, NOTHING);
    }

    fn speak(&self, client: usize, number: u64) {
        if let Some(word) = self.clients.get(client) {
            word.store(number, Ordering::SeqCst);
        }
    }

    /// Finds a number such that no client speaks of a lower one, now or later. A client that speaks of an earlier one meanwhile is seen, or hears
    /// that it may not.
    pub(crate) fn left_by_clients(&self) -> u64 {
        let next = self.next.load(Ordering::SeqCst);
        let left = next.min(least(&self.clients));
        self.left.fetch_max(left, Ordering::SeqCst);
        left.min(least(&self.clients))
    }

    /// Notes that at a shard no transaction of a lower number is prepared, and that none will be.
    pub(crate) fn leaves(&self, shard: usize, number: u64) {
        if let Some(word) = self.shards.get(shard) {
            word.fetch_max(number, Ordering::SeqCst);
        }
    }

    /// Gives the greatest number such that no shard has or gets a transaction of a lower one that is prepared.
    pub(crate) fn left_by_shards(&self) -> u64 {
        least(&self.shards)
    }
}

// So many words with this number.
fn words(alloc: Global, count: usize, number: u64) -> Result<Vec<AtomicU64>, Fault>
    ensures { IfErr result (λ fault. fault ≡ Fault.Memory) }
{
    let mut words = Vec::new(alloc);
    for _word in 0..count {
        words.push(AtomicU64::new(number))?;
    }
    Ok(words)
}

// The least of these words.
fn least(words: &[AtomicU64]) -> u64 {
    let mut least = NOTHING;
    for word in words {
        least = least.min(word.load(Ordering::SeqCst));
    }
    least
}
