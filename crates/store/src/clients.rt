//! A client: it runs transactions, one at a time, and opens views.
ghost use Rattle.std.specs.Prelude.{◌≡◌, ◌⊎◌, ℕ, List, [], ◌∷◌, ◌++◌, IfErr, IfOk, IfSome, IsSome, IsTrue, MatchResult};
ghost use Rattle.message.specs.Ends.{End};
ghost use Rattle.message.specs.declared.message.Envelope.{Envelope};
ghost use Rattle.client.specs.Outcomes.{IsFound};
ghost use Rattle.store.specs.Attempts.{Attempt, CannotBegin, ComesTo, ComesWithin, Ends, HasTried, IsAtWork, IsCutShort, beginning, drew};
ghost use Rattle.store.specs.Views.{AreRenewed, IsPresent};

use crate::ended::{kept, ran_of, runs_again, told_of};
use crate::numbers::Numbers;
use crate::shared::Shared;
use crate::steady::ClientClock;
use crate::view::{MOST_BYTES, TRIES};
use crate::{Ended, Halt, Transaction, View};
use board::Viewer;
use client::{Halt as Halted, InDoubt, Outcome, Wire, Wires};
use crossbeam_channel::Receiver;
use letters::Reply;
use std::marker::Model;
use std::sync::Wait;
use std::time::{Duration, Instant};
use std::{thread, time};
use tickets::Drawer;
use units::{Fault, ShardNo, Stamp, TxnId};

/// A client of a store. It is one thread's at a time. Contracts see the run of its ids, the splits of its store, what it has drawn, and its
/// viewers. They see what was put out and heard of each of its attempts. Of its clock they see the epsilon, the timestamp from which it goes on,
/// and each reading that it gave.
#[derive(Drop)]
pub struct Client<'s, R> {
    pub(crate) rt: &'s R,
    pub(crate) shared: &'s Shared,
    pub(crate) inbox: Receiver<Reply>,
    pub(crate) number: usize,
    pub(crate) drawer: Drawer,
    pub(crate) past: Wires<'s, 's, R>,
    pub(crate) viewers: Vec<Viewer>,
    // How often new viewers had been offered when it took its last ones.
    pub(crate) renewed: u64,
    // Where its views read a value, one after the other.
    pub(crate) room: Box<[u8; MOST_BYTES]>,
    pub(crate) clock: ClientClock<'s, R>,
    pub(crate) patience: u32,
    // Its last transactions whose end nobody told.
    pub(crate) doubts: Vec<InDoubt<'s>>,
}

impl<'s, R> Model for Client<'s, R> {
    ghost use Rattle.std.specs.Prelude.{◌≡◌};
    ghost use Rattle.store.specs.Attempts.{Worker};

    ghost Value = { Worker };

    ghost view = { λ c. record {
      run = c.shared.now.run;
      splits = c.shared.now.splits;
      drawing = c.drawer;
      traffics = c.past;
      viewers = c.viewers.items;
      epsilon = c.clock.epsilon;
      from = c.clock.from;
      readings = c.clock.readings;
    } };

    ghost invariant = { λ c. c.drawer.source ≡ c.shared.now.ids };
}

// So many rounds a client waits at most for what others keep it from.
const LONGEST: u32 = 100;

// Clients that wait for one another are not to give up at the same time: so their patience differs, by their numbers.
const APART: usize = 4;

// So many transactions whose end nobody told a client keeps.
const MOST_DOUBTS: usize = 16;

// So many milliseconds a client rests before it runs an aborted transaction again, which is a younger one then and would mostly be in the way.
const REST_MILLIS: u64 = 2;

impl<'s, R: Wait + time::Clock> Client<'s, R> {
    /// Runs the code of a transaction and commits it. After each abort the code is run again, as a new transaction, so often in all as
    /// `tries` says: then it is `Aborted`, with that number. If the code gives `Ok`, its value comes with `Committed`. If it gives
    /// `Halt::Abandon` the transaction is given up at once, and its reason comes with `Abandoned`. A refusal that the code hands on is answered.
    ///
    /// Each attempt is a session of its own, which is closed only if its code gave `Ok`, and the answer is that of the last. Code that
    /// puts the transaction of another client in the place of its own is refused as a `Stranger`, and what it left is given up.
    ///
    /// - `Memory` if memory runs out, `RowsFull` if a shard at which the code reads has no free row: the same call may be answered later;
    /// - `Stopped` if such a shard has stopped, `TimeSpent` once the client has drawn 2^40 ids: open the store again;
    /// - `BadRequest(nothing)` if the code read nothing and wrote nothing, and each fault that the code hands on.
    pub fn transact<T: Drop, E: Drop, F: FnMut(&mut Transaction<'s, R>) -> Result<T, Halt<E>>>(
        &mut self,
        tries: u32,
        code: F,
    ) -> Result<Ended<T, E>, Fault>
        requires { F.IsAlwaysCallable code }
        ensures { (made : List (Attempt T E))
            × ((last : F) × HasTried F.FnMut self.old code made self.new last)
            × ComesTo tries self.new made result }
    {
        self.count_call();
        self.attempts(tries, None, code)
    }

    /// `transact`, but no attempt is begun once so much time has passed: then it is `Aborted`, as after the last of `tries`. The first attempt
    /// is made in any case. None is cut off: one that closes is waited for, and is never told as aborted for want of time. It is refused as
    /// `transact` is.
    pub fn transact_within<
        T: Drop,
        E: Drop,
        F: FnMut(&mut Transaction<'s, R>) -> Result<T, Halt<E>>,
    >(&mut self, tries: u32, within: Duration, code: F) -> Result<Ended<T, E>, Fault>
        requires { F.IsAlwaysCallable code }
        ensures { (made : List (Attempt T E))
            × ((last : F) × HasTried F.FnMut self.old code made self.new last)
            × ComesWithin tries self.new made result }
    {
        let deadline = Deadline::after(self.rt, within);
        self.count_call();
        self.attempts(tries, deadline, code)
    }

    // Counts a call that runs a transaction.
    fn count_call(&self) {
        if let Some(counts) = self.shared.numbers.counts_of_client(self.number) {
            counts.count_call();
        }
    }

    // Counts an attempt that has ended, and how long it took to close, if it was closed.
    fn count_attempt(&self, ended: &Result<client::Ended, Fault>, took: Option<Duration>) {
        if let Some(counts) = self.shared.numbers.counts_of_client(self.number) {
            counts.count_attempt(ended, took);
        }
    }

    // The attempts of a transaction, until a deadline has passed, if there is one.
    fn attempts<T: Drop, E: Drop, F: FnMut(&mut Transaction<'s, R>) -> Result<T, Halt<E>>>(
        &mut self,
        tries: u32,
        deadline: Option<Deadline>,
        mut code: F,
    ) -> Result<Ended<T, E>, Fault>
        requires { F.IsAlwaysCallable code }
        ensures { (made : List (Attempt T E))
            × ((last : F) × HasTried F.FnMut self.old code made self.new last)
            × (ComesTo tries self.new made result
            ⊎ (IsSome deadline × IsCutShort tries made result)) }
    {
        let mut patience = self.patience.saturating_add((self.number % APART) as u32);
        for before in 0..tries {
            let mut transaction = match self.begin(patience) {
                Ok(transaction) => transaction,
                Err(fault) => {
                    self.shared.numbers.retiring().ends(self.number);
                    return Err(fault);
                }
            };
            let own = transaction.id();
            let ran = code(&mut transaction);
            let ran = kept(own == transaction.id(), ran);
            let ended = self.finish(transaction, ran_of(&ran));
            if !runs_again(&ran, &ended) {
                return told_of(own, ran, ended);
            }
            drop(ran);
            if is_over(self.rt, &deadline) {
                return Ok(Ended::Aborted { tries: before + 1 });
            }
            patience = self.next_patience(patience);
            thread::sleep(self.rt, Duration::from_millis(REST_MILLIS));
        }
        Ok(Ended::Aborted { tries })
    }

    // How many rounds the next attempt waits: one more. If a shard has stopped it is one, since that may have left in doubt what it waits for.
    fn next_patience(&self, patience: u32) -> u32 {
        match self.shared.network.stopped_shard() {
            Some(_) => 1,
            None => patience.saturating_add(1).min(LONGEST),
        }
    }

    // A new transaction, which has passed the door.
    fn begin(&mut self, patience: u32) -> Result<Transaction<'s, R>, Fault>
        ensures { MatchResult result
            (λ t. (n : ℕ)
            × (t ≡ beginning self.old.splits (record { run = self.old.run; number = n }))
            × (self.new ≡ drew self.old n))
            (λ fault. (self.new ≡ self.old) × CannotBegin self.old fault) }
    {
        let shared = self.shared;
        let mut wire = self.wire(patience)?;
        shared.numbers.retiring().draws(self.number);
        let tx = wire.begin(shared.run, &shared.splits, &shared.ids, &mut self.drawer)?;
        shared.numbers.retiring().drew(self.number, tx.txn());
        shared.door.enter(self.rt);
        let alloc = shared.alloc;
        Ok(Transaction { wire, tx, alloc })
    }

    // A wire over which nothing was said.
    fn wire(&self, patience: u32) -> Result<Wire<'s, 's, R>, Fault>
        ensures none { IfOk result (λ wire. (wire.sent ≡ []) × (wire.heard ≡ [])) }
        ensures memory { IfErr result (λ fault. fault ≡ Fault.Memory) }
    {
        let shared = self.shared;
        let wire = Wire::new(
            self.rt,
            shared.alloc,
            &shared.network,
            &shared.stop,
            self.inbox.clone()?,
            self.number,
            patience,
        );
        Ok(wire.by_progress(shared.give_up))
    }

    // Ends a transaction whose code has run, which then leaves by the door.
    fn finish(
        &mut self,
        transaction: Transaction<'s, R>,
        ran: Result<(), Halted>,
    ) -> Result<client::Ended, Fault>
        ensures work { IsAtWork transaction.entry }
        ensures ended { (sent : List Envelope) × (heard : List End)
            × (self.new ≡ record self.old {
              traffics = self.old.traffics ++ (record {
                sent = transaction.entry.traffic.sent ++ sent;
                heard = transaction.entry.traffic.heard ++ heard;
              }) ∷ [];
            })
            × Ends transaction.entry.session ran sent heard result }
    {
        let start = closing_from(self.rt, ran.is_ok());
        let ended = self.end(transaction, ran);
        let took = since(self.rt, start);
        self.count_attempt(&ended, took);
        self.shared.door.leave(took);
        self.shared.numbers.retiring().ends(self.number);
        ended
    }

    // Ends a transaction whose code has run.
    fn end(
        &mut self,
        transaction: Transaction<'s, R>,
        ran: Result<(), Halted>,
    ) -> Result<client::Ended, Fault>
        ensures work { IsAtWork transaction.entry }
        ensures ended { (sent : List Envelope) × (heard : List End)
            × (self.new ≡ record self.old {
              traffics = self.old.traffics ++ (record {
                sent = transaction.entry.traffic.sent ++ sent;
                heard = transaction.entry.traffic.heard ++ heard;
              }) ∷ [];
            })
            × Ends transaction.entry.session ran sent heard result }
    {
        let Transaction {
            mut wire,
            tx,
            alloc: _,
        } = transaction;
        let ended = wire.finish(tx, ran);
        self.keep(wire.take_doubt());
        self.past.add(wire);
        ended
    }

    // Keeps a transaction whose end nobody told, beside the last ones before it.
    fn keep(&mut self, doubt: Option<InDoubt<'s>>)
        ensures { self.new ≡ self.old }
    {
        let Some(doubt) = doubt else {
            return;
        };
        if self.doubts.len() >= MOST_DOUBTS {
            drop(self.doubts.remove(0));
        }
        drop(self.doubts.push(doubt));
    }

    /// Asks how a transaction of this client ended, after `Ended::Unknown` named its id: the shard that decides says it from its log. The call
    /// waits as long as the client does for an end. The client keeps its last 16 such transactions, while there is memory. Of any other id, of one
    /// of another client, and of one that the store may have retired, the answer is `Unknown` at once.
    ///
    /// After `Open` and `Unknown` the same call may be answered later. If the shard that decides has stopped it is not, until
    /// its disk is opened again. `Memory` if memory runs out.
    pub fn outcome(&mut self, id: TxnId) -> Result<Outcome, Fault>
        ensures asked { MatchResult result
            (λ outcome. ((outcome ≡ Outcome.Unknown) × (self.new ≡ self.old))
            ⊎ ((sent : List Envelope) × (heard : List End)
            × (self.new ≡ record self.old {
              traffics = self.old.traffics ++ (record { sent = sent; heard = heard }) ∷ [];
            })
            × IsFound id outcome heard))
            (λ fault. (fault ≡ Fault.Memory) × (self.new ≡ self.old)) }
    {
        let mut asking = self.wire(self.patience)?;
        let Some(doubt) = doubt_of(&self.doubts, id) else {
            drop(asking);
            return Ok(Outcome::Unknown);
        };
        let retiring = self.shared.numbers.retiring();
        if !retiring.speaks_again(self.number, id) {
            drop(asking);
            return Ok(Outcome::Unknown);
        }
        let outcome = asking.ask(doubt);
        retiring.ends(self.number);
        self.past.add(asking);
        Ok(outcome)
    }

    // Takes the viewers of shards that were opened again, if some were offered since it took its last ones.
    fn renew(&mut self)
        ensures viewers { AreRenewed self.old.splits self.old.viewers self.new.viewers }
        ensures others { self.new ≡ record self.old { viewers = self.new.viewers } }
    {
        let shared = self.shared;
        let count = shared.offers.count();
        if count != self.renewed {
            self.renewed = count;
            shared
                .offers
                .renew(self.rt, self.number, &shared.splits, &mut self.viewers);
        }
    }

    /// A view of the whole store at the present: its timestamp is the latest of a reading of the client's clock that is taken now. There is
    /// none if that gives no reading. It looks at the new board of each shard that was opened again.
    pub fn view(&mut self) -> Option<View<'_, 's, R>>
        ensures present { IfSome result
            (λ view. IsPresent self.old view.readings.now.entries view.at) }
        ensures splits { IfSome result (λ view. view.shared.now.splits ≡ self.old.splits) }
        ensures viewers { IfSome result (λ view.
            AreRenewed self.old.splits self.old.viewers view.viewers.now.items) }
    {
        let now = self.clock.now()?;
        self.renew();
        Some(View {
            rt: self.rt,
            shared: self.shared,
            viewers: &mut self.viewers,
            room: &mut *self.room,
            at: now.latest(),
            tries: TRIES,
            readings: self.clock.readings(),
        })
    }

    /// Opens a view of the whole store at a timestamp, such as that of a commit or of an earlier view. Its `get` does not wait:
    ///
    /// - `TooOld`: the key's shard has forgotten that time (`Options::keep`), for good;
    /// - `NotYet`: the shard does not serve it yet, and is asked to. A time that has passed by the clock is served a few milliseconds later;
    /// - `Stopped`: the shard has stopped, and does not serve it before its disk is opened again. Then another view has to be opened.
    pub fn view_at(&mut self, at: Stamp) -> View<'_, 's, R>
        ensures at { result.at ≡ at }
        ensures splits { result.shared.now.splits ≡ self.old.splits }
        ensures viewers { AreRenewed self.old.splits self.old.viewers result.viewers.now.items }
    {
        self.renew();
        View {
            rt: self.rt,
            shared: self.shared,
            viewers: &mut self.viewers,
            room: &mut *self.room,
            at,
            tries: 1,
            readings: self.clock.readings(),
        }
    }

    /// Gives the numbers of the store, which any thread may read while the store is served.
    pub fn numbers(&self) -> &'s Numbers {
        let shared = self.shared;
        &*shared.numbers
    }

    /// Tells whether the shard has stopped, since its device failed. It takes no more, and views up to the time that it served go on. Its disk is opened
    /// again after a second, and then every ten seconds until that succeeds.
    pub fn has_stopped(&self, shard: ShardNo) -> bool {
        self.shared.network.has_stopped(shard)
    }
}

// The transaction with this id, if it is one of these.
fn doubt_of<'d, 's>(doubts: &'d [InDoubt<'s>], id: TxnId) -> Option<&'d InDoubt<'s>>
    ensures { IfSome result (λ doubt. doubt.now.tx.client.txn ≡ id) }
{
    for doubt in doubts {
        if doubt.txn() == id {
            return Some(doubt);
        }
    }
    None
}

// When no further attempt is begun: so long after that.
#[derive(Clone, Copy)]
struct Deadline {
    start: Instant,
    within: Duration,
}

impl Deadline {
    // So long after now. There is none if the machine's clock gives none.
    fn after<R: time::Clock>(rt: &R, within: Duration) -> Option<Deadline> {
        let start = Instant::now(rt).ok()?;
        Some(Deadline { start, within })
    }
}

// Whether a deadline has passed.
fn is_over<R: time::Clock>(rt: &R, deadline: &Option<Deadline>) -> bool
    ensures { IsTrue result → IsSome deadline.now }
{
    let Some(deadline) = deadline else {
        return false;
    };
    match deadline.start.elapsed(rt) {
        Ok(took) => took >= deadline.within,
        Err(_) => false,
    }
}

// The moment at which a transaction closes, if it does.
fn closing_from<R: time::Clock>(rt: &R, closes: bool) -> Option<Instant> {
    if closes { Instant::now(rt).ok() } else { None }
}

// How long ago a moment is, if there is one and the clock can be read.
fn since<R: time::Clock>(rt: &R, start: Option<Instant>) -> Option<Duration> {
    match start {
        Some(start) => start.elapsed(rt).ok(),
        None => None,
    }
}
