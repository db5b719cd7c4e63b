//! How a transaction closes, is given up, and ends.
ghost use Rattle.std.specs.Prelude.{◌≡◌, [], ◌++◌, map, true, false, not, ◌&&◌, MatchResult, IfOk, IfErr, IfNone, IfSome, option_to_list};
ghost use Rattle.units.specs.Ids.{same_id};
ghost use Rattle.units.specs.Keys.{shard_of};
ghost use Rattle.units.specs.Lists.{once, sorted};
ghost use Rattle.session.specs.Sessions.{asked_keys, is_none, IsClosing, IsOver, Goes, closes, closing_messages, gives_up, shards_told, asked_shards};
ghost use Rattle.session.specs.Shown.{IsDenied, farewells, finished_as, give_up_to, is_closing};

use crate::request::{Request, push_asked, push_taken};
use crate::{Closed, Closing, Finished, Ongoing, Open, Phase, Quitting, Tx};
use message::{Address, Done, Envelope, GiveUp, Message, Outbox};
use std::alloc::Global;
use std::marker::PhantomData;
use units::{Fault, Parts, Reason, ShardNo, TxnId};

impl<'s> Tx<'s, Open> {
    /// Closes the transaction: Commit goes to the least shard that was read or written, then Prepare to each other one, in order. A
    /// refusal returns the open transaction. `Nothing`: it has no read and no write, so give it up. `Awaited`: an answer is not taken
    /// yet, so take it first. `Doomed`: it can only give up.
    pub fn close(self, alloc: Global) -> Result<(Tx<'s, Closing>, Outbox), (Fault, Tx<'s, Open>)>
        ensures splits { IfOk result (λ r. r.0.splits ≡ self.entry.splits) }
        ensures step { MatchResult result
            (λ r. closes self.entry.splits self.entry.client ≡ Goes r.0.client r.1)
            (λ r. (r.1 ≡ self.entry) × IsDenied (closes self.entry.splits self.entry.client) r.0) }
    {
        match self.requests(alloc) {
            Ok(out) => Ok((self.into_phase(), out)),
            Err(fault) => Err((fault, self)),
        }
    }

    // The messages that close the transaction, if it may close.
    fn requests(&self, alloc: Global) -> Result<Outbox, Fault>
        ensures { MatchResult result
            (λ out. closes self.now.splits self.now.client ≡
            Goes (record self.now.client { stage = IsClosing }) out)
            (λ fault. IsDenied (closes self.now.splits self.now.client) fault) }
    {
        if self.is_blank() {
            return Err(Fault::BadRequest(Reason::Nothing));
        }
        if self.is_awaiting() {
            return Err(Fault::BadRequest(Reason::Awaited));
        }
        if self.is_doomed() {
            return Err(Fault::BadRequest(Reason::Doomed));
        }
        self.request().messages(alloc)
    }

    // Whether it has no read and no write.
    fn is_blank(&self) -> bool
        ensures { result ≡ (is_none (asked_keys self.now.client)
            && is_none self.now.client.writes) }
    {
        self.asked() == 0 && self.writes.is_empty()
    }

    // Whether an answer is not yet taken.
    fn is_awaiting(&self) -> bool
        ensures { result ≡ not (is_none self.now.client.awaited) }
    {
        !self.awaited.is_empty()
    }
}

impl<'s> Tx<'s, Closing> {
    /// Gives the transaction up after its closing, and asks once more how it ended. Each shard that takes part is told, in order, and then
    /// gets the closing messages again. The coordinator aborts a transaction that it does not know, and says so, or says that it was
    /// committed, and when. `take` accepts either. `Memory` returns the transaction as it was.
    #[tactic(auto, unfolding(crate::specs::Sessions::gives_up))]
    pub fn quit(self, alloc: Global) -> Result<(Tx<'s, Quitting>, Outbox), (Fault, Tx<'s, Closing>)>
        ensures splits { IfOk result (λ r. r.0.splits ≡ self.entry.splits) }
        ensures client { IfOk result
            (λ r. r.0.client ≡ record self.entry.client { stage = IsOver }) }
        ensures step { MatchResult result
            (λ r. (gives_up self.entry.splits self.entry.client ≡
            Goes r.0.client (farewells self.entry.splits self.entry.client))
            × (r.1 ≡ farewells self.entry.splits self.entry.client
            ++ closing_messages self.entry.splits self.entry.client))
            (λ r. (r.1 ≡ self.entry) × (r.0 ≡ Fault.Memory)) }
    {
        match self.partings(alloc) {
            Ok(out) => Ok((self.into_phase(), out)),
            Err(fault) => Err((fault, self)),
        }
    }

    // Tells the shards that the transaction is given up, and repeats the closing messages after that.
    fn partings(&self, alloc: Global) -> Result<Outbox, Fault>
        ensures same { IfOk result
            (λ out. out ≡ farewells self.now.splits self.now.client
            ++ closing_messages self.now.splits self.now.client) }
        ensures memory { IfErr result (λ fault. fault ≡ Fault.Memory) }
    {
        let farewells = self.farewells(alloc)?;
        let mut envelopes = farewells.into_vec();
        match self.again(alloc) {
            Ok(closing) => {
                let mut closing = closing.into_vec();
                envelopes.append(&mut closing)?;
                Ok(Outbox::from_vec(envelopes))
            }
            Err(fault) => {
                drop(envelopes);
                Err(fault)
            }
        }
    }
}

impl<'s, S: Closed> Tx<'s, S> {
    /// Makes the closing messages once more, for messages that were lost. They are the same each time. `Memory` if memory runs out.
    pub fn again(&self, alloc: Global) -> Result<Outbox, Fault>
        ensures same { IfOk result (λ out. out ≡ closing_messages self.now.splits self.now.client) }
        ensures memory { IfErr result (λ fault. fault ≡ Fault.Memory) }
    {
        let request = self.request();
        request.messages(alloc)
    }

    /// Takes the end of the transaction, and spends it. The end of another transaction is a `Stranger`, and changes nothing.
    pub fn take(self, done: &Done) -> Result<Finished, (Fault, Tx<'s, S>)>
        ensures { MatchResult result
            (λ finished. (same_id self.entry.client.txn done.now.txn ≡ true)
            × (finished ≡ finished_as done.now.outcome))
            (λ r. (r.1 ≡ self.entry) × (r.0 ≡ Fault.Stranger)
            × (same_id self.entry.client.txn done.now.txn ≡ false)) }
    {
        if !self.is_of(done.txn()) {
            return Err((Fault::Stranger, self));
        }
        self.spend();
        Ok(match done.outcome() {
            Some(at) => Finished::Committed(at),
            None => Finished::Aborted,
        })
    }
}

impl<'s, S: Ongoing> Tx<'s, S> {
    /// Gives the transaction up, and spends it. It tells each shard that was asked, or after the closing each one that takes part, in
    /// order. `Memory` returns the transaction as it was.
    #[tactic(auto, unfolding(crate::specs::Sessions::gives_up))]
    pub fn give_up(self, alloc: Global) -> Result<Outbox, (Fault, Tx<'s, S>)>
        ensures { MatchResult result
            (λ out. gives_up self.entry.splits self.entry.client ≡
            Goes (record self.entry.client { stage = IsOver }) out)
            (λ r. (r.1 ≡ self.entry) × (r.0 ≡ Fault.Memory)) }
    {
        match self.farewells(alloc) {
            Ok(out) => {
                self.spend();
                Ok(out)
            }
            Err(fault) => Err((fault, self)),
        }
    }

    // The messages that give the transaction up.
    fn farewells(&self, alloc: Global) -> Result<Outbox, Fault>
        ensures same { IfOk result
            (λ out. out ≡ map (give_up_to self.now.client.txn)
            (shards_told self.now.splits self.now.client)) }
        ensures memory { IfErr result (λ fault. fault ≡ Fault.Memory) }
    {
        let shards = match self.told(alloc)? {
            Some(parts) => parts.shards(alloc)?,
            None => Vec::new(alloc),
        };
        give_ups(alloc, self.txn, shards.as_slice())
    }

    // The shards that are told.
    fn told(&self, alloc: Global) -> Result<Option<Parts>, Fault>
        ensures none { IfOk result
            (λ parts. IfNone parts (shards_told self.now.splits self.now.client ≡ [])) }
        ensures some { IfOk result
            (λ parts. IfSome parts (λ ns. ns ≡ shards_told self.now.splits self.now.client)) }
        ensures memory { IfErr result (λ fault. fault ≡ Fault.Memory) }
    {
        if self.is_closing() {
            self.request().parts(alloc)
        } else {
            self.asked_parts(alloc)
        }
    }

    // Whether the closing messages are out.
    fn is_closing(&self) -> bool
        ensures { result ≡ is_closing self.now.client.stage }
    {
        let _phase = &self.phase;
        S::is_closing()
    }

    // The shards that were asked.
    fn asked_parts(&self, alloc: Global) -> Result<Option<Parts>, Fault>
        ensures none { IfOk result
            (λ parts. IfNone parts (asked_shards self.now.splits self.now.client ≡ [])) }
        ensures some { IfOk result
            (λ parts. IfSome parts (λ ns. ns ≡ asked_shards self.now.splits self.now.client)) }
        ensures memory { IfErr result (λ fault. fault ≡ Fault.Memory) }
    {
        let mut shards = Vec::new(alloc);
        push_taken(&mut shards, self.taken.as_slice())?;
        push_asked(&mut shards, self.splits, self.doom.as_slice())?;
        push_asked(&mut shards, self.splits, self.awaited.as_slice())?;
        Ok(Parts::of(shards.as_slice()))
    }
}

impl<'s, S: Phase> Tx<'s, S> {
    // The same transaction at another stage.
    fn into_phase<P: Phase>(self) -> Tx<'s, P>
        ensures splits { result.splits ≡ self.entry.splits }
        ensures client { result.client ≡ record self.entry.client { stage = P.stage } }
    {
        let Tx {
            splits,
            txn,
            doom,
            taken,
            awaited,
            writes,
            phase: _,
        } = self;
        Tx {
            splits,
            txn,
            doom,
            taken,
            awaited,
            writes,
            phase: PhantomData,
        }
    }

    // What it asks its shards to commit.
    fn request(&self) -> Request<'_>
        ensures splits { result.splits.now ≡ self.now.splits }
        ensures txn { result.txn ≡ self.now.client.txn }
        ensures taken { result.taken.now ≡ self.now.client.taken }
        ensures writes { result.writes.now ≡ self.now.client.writes }
    {
        Request {
            splits: self.splits,
            txn: self.txn,
            taken: self.taken.as_slice(),
            writes: self.writes.as_slice(),
        }
    }

    /// Spends the transaction without telling any shard.
    pub fn spend(self) {
        let Tx {
            splits: _,
            txn: _,
            doom: _,
            taken: _,
            awaited: _,
            writes: _,
            phase: _,
        } = self;
    }
}

// A message to each shard that the transaction is given up.
fn give_ups(alloc: Global, txn: TxnId, shards: &[ShardNo]) -> Result<Outbox, Fault>
    ensures same { IfOk result (λ out. out ≡ map (give_up_to txn) shards.now) }
    ensures memory { IfErr result (λ fault. fault ≡ Fault.Memory) }
{
    let mut envelopes = Vec::new(alloc);
    for shard in shards {
        envelopes.push(Envelope {
            to: Address::Shard(*shard),
            message: Message::GiveUp(GiveUp { txn }),
        })?;
    }
    Ok(Outbox::from_vec(envelopes))
}
