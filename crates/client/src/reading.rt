//! A transaction reads, at its client.
ghost use Rattle.std.specs.Prelude.{◌≡◌, ◌++◌, true, List, Some, None, map, IfErr, IfOk, IfNone, IfSome};
ghost use Rattle.units.specs.Keys.{same_key};
ghost use Rattle.units.specs.Lists.{first};
ghost use Rattle.message.specs.Ends.{End};
ghost use Rattle.message.specs.declared.message.Envelope.{Envelope};
ghost use Rattle.client.specs.Readings.{AreReads, HasRead, IsReading, SeenStays, is_read, seen};
ghost use Rattle.client.specs.Refusals.{IsReadHalt, IsStepFault, unserved};

use crate::hearing::Hearing;
use crate::{Halt, Wire};
use letters::Refused;
use message::{Address, Envelope, Message, Read};
use session::{Answered, Heard, Open, Tx};
use std::alloc::Global;
use std::sync::Wait;
use std::{slice, time};
use units::{Fault, Key, Reason, ShardNo, Value, Write, copy_value};

impl<'s, R: Wait + time::Clock> Wire<'_, 's, R> {
    /// Reads a key: what the transaction has written to it, or else what its shard answers, which is the same each time. It ends as `fetch`
    /// does if there is no answer.
    #[tactic(auto, using(crate::proofs::Refusals::halts_for))]
    pub fn get(&mut self, tx: &mut Tx<'s, Open>, key: &Key) -> Result<Option<Value>, Halt>
        ensures sent { (sent : List Envelope) × (self.new.sent ≡ self.old.sent ++ sent)
            × AreReads tx.old.client.txn sent }
        ensures heard { (heard : List End) × (self.new.heard ≡ self.old.heard ++ heard) }
        ensures splits { tx.new.splits ≡ tx.old.splits }
        ensures txn { tx.new.client.txn ≡ tx.old.client.txn }
        ensures read { HasRead tx.old.splits tx.old.client tx.new.client }
        ensures refused { IfErr result IsReadHalt }
        ensures value { IfOk result (λ value. seen tx.new.client key.now ≡ Some value) }
    {
        self.fetch(tx, slice::from_ref(key))?;
        Ok(value_of(tx, key)?)
    }

    /// Reads some keys, which are asked for together. It ends as `fetch` does if there is no answer.
    #[tactic(auto, using(crate::proofs::Refusals::halts_for))]
    pub fn get_all(
        &mut self,
        tx: &mut Tx<'s, Open>,
        keys: &[Key],
    ) -> Result<Vec<Option<Value>>, Halt>
        ensures sent { (sent : List Envelope) × (self.new.sent ≡ self.old.sent ++ sent)
            × AreReads tx.old.client.txn sent }
        ensures heard { (heard : List End) × (self.new.heard ≡ self.old.heard ++ heard) }
        ensures splits { tx.new.splits ≡ tx.old.splits }
        ensures txn { tx.new.client.txn ≡ tx.old.client.txn }
        ensures read { HasRead tx.old.splits tx.old.client tx.new.client }
        ensures refused { IfErr result IsReadHalt }
        ensures values { IfOk result
            (λ values. map Some values.items ≡ map (seen tx.new.client) keys.now) }
    {
        self.fetch(tx, keys)?;
        Ok(values_of(self.alloc, tx, keys)?)
    }

    /// Asks for some keys together, and waits for the answers. Each of these keys is then there for `get`. If it is not `Ok`, the code of the
    /// transaction should return that:
    ///
    /// - `Again`: the transaction is doomed, clients are to stop, or it has waited for as long as it may;
    /// - `Unserved`: a shard has refused a read of the transaction, or it has waited for as long as it may and a shard has stopped;
    /// - `Refused`: a call was refused, as for want of memory.
    pub fn fetch(&mut self, tx: &mut Tx<'s, Open>, keys: &[Key]) -> Result<(), Halt>
        ensures sent { (sent : List Envelope) × (self.new.sent ≡ self.old.sent ++ sent)
            × AreReads tx.old.client.txn sent }
        ensures heard { (heard : List End) × (self.new.heard ≡ self.old.heard ++ heard) }
        ensures splits { tx.new.splits ≡ tx.old.splits }
        ensures txn { tx.new.client.txn ≡ tx.old.client.txn }
        ensures read { HasRead tx.old.splits tx.old.client tx.new.client }
        ensures refused { IfErr result IsReadHalt }
    {
        for key in keys {
            ask(tx, key)?;
        }
        self.await_answers(tx)
    }

    // Sends what is asked for, and waits for all answers. After the word to stop nothing is sent.
    fn await_answers(&mut self, tx: &mut Tx<'s, Open>) -> Result<(), Halt>
        ensures reads { IsReading self.old self.new tx.old tx.new }
        ensures refused { IfErr result IsReadHalt }
    {
        if tx.awaited().is_empty() {
            return Ok(());
        }
        if self.stop.is_told() {
            return Err(Halt::Again);
        }
        self.send_awaited(tx, false);
        for _heard in self.rt.forever() {
            self.await_one(tx)?;
            if tx.awaited().is_empty() {
                return Ok(());
            }
        }
        unreachable!()
    }

    // Hears one message, or that a letter was refused, or nothing for a while.
    fn await_one(&mut self, tx: &mut Tx<'s, Open>) -> Result<(), Halt>
        ensures reads { IsReading self.old self.new tx.old tx.new }
        ensures refused { IfErr result IsReadHalt }
    {
        match self.hear() {
            Hearing::Heard(message) => {
                let taken = self.take(tx, &message);
                drop(message);
                taken
            }
            Hearing::Silence => {
                self.send_awaited(tx, true);
                Ok(())
            }
            Hearing::Refused(refused) => unserved(tx, &refused),
            Hearing::Enough => Err(self.why_enough()),
            Hearing::End(_) | Hearing::UnderWay => Ok(()),
        }
    }

    // Why the code of a transaction waits no longer. What it waits for may be in doubt for good, if a shard has stopped; or it is to be run
    // again.
    fn why_enough(&self) -> Halt
        ensures { IsReadHalt result }
    {
        match self.network.stopped_shard() {
            Some(shard) => Halt::Unserved {
                shard,
                fault: Fault::Stopped,
            },
            None => Halt::Again,
        }
    }

    // Takes a message if it is an answer, which may be to an earlier transaction. A shard passes over what is read there while an earlier
    // read waits. So what it has not answered is sent again, if nothing else has come.
    fn take(&mut self, tx: &mut Tx<'s, Open>, message: &Message) -> Result<(), Halt>
        ensures reads { IsReading self.old self.new tx.old tx.new }
        ensures refused { IfErr result IsReadHalt }
    {
        let Message::ReadAnswer(answer) = message else {
            return Ok(());
        };
        match tx.answered(answer) {
            Ok(Heard::Value(value)) => drop(value),
            Ok(Heard::Again) | Err(Fault::Stranger) => {}
            Ok(Heard::Doomed) => return Err(Halt::Again),
            Err(fault) => return Err(Halt::Refused(fault)),
        }
        self.send_awaited_of(tx, answer.from);
        Ok(())
    }

    // Sends each read whose answer is awaited, for the first time or again.
    fn send_awaited(&mut self, tx: &Tx<'s, Open>, again: bool)
        ensures sent { (sent : List Envelope) × (self.new.sent ≡ self.old.sent ++ sent)
            × AreReads tx.now.client.txn sent }
        ensures heard { self.new.heard ≡ self.old.heard }
    {
        for key in tx.awaited() {
            self.send(read_of(tx, key), again);
        }
    }

    // Sends each read of a shard whose answer is awaited, if nothing else has come.
    fn send_awaited_of(&mut self, tx: &Tx<'s, Open>, shard: ShardNo)
        ensures sent { (sent : List Envelope) × (self.new.sent ≡ self.old.sent ++ sent)
            × AreReads tx.now.client.txn sent }
        ensures heard { self.new.heard ≡ self.old.heard }
    {
        if !self.inbox.is_empty() {
            return;
        }
        for key in tx.awaited() {
            self.send_at(tx, key, shard);
        }
    }

    // Sends the read of a key, if it is the shard's.
    fn send_at(&mut self, tx: &Tx<'s, Open>, key: &Key, shard: ShardNo)
        ensures sent { (sent : List Envelope) × (self.new.sent ≡ self.old.sent ++ sent)
            × AreReads tx.now.client.txn sent }
        ensures heard { self.new.heard ≡ self.old.heard }
    {
        if tx.splits().shard_of(key) == shard {
            self.send(read_of(tx, key), false);
        }
    }
}

/// States that what a transaction sees of a key that it has read or written stays, whatever it reads after that.
pub fn seen_stays()
    ensures { SeenStays }
{}

// What it comes to that a letter was refused: the code of its transaction goes no further. It may be that of an earlier transaction.
fn unserved(tx: &Tx<'_, Open>, refused: &Refused) -> Result<(), Halt>
    ensures { result ≡ unserved tx.now.client.txn refused.now }
{
    if tx.txn() == refused.txn {
        Err(Halt::Unserved {
            shard: refused.shard,
            fault: refused.fault,
        })
    } else {
        Ok(())
    }
}

// The message that asks for a key.
fn read_of(tx: &Tx<'_, Open>, key: &Key) -> Envelope
    ensures { is_read tx.now.client.txn result ≡ true }
{
    Envelope {
        to: Address::Shard(tx.splits().shard_of(key)),
        message: Message::Read(Read {
            txn: tx.txn(),
            key: *key,
        }),
    }
}

// Asks for a key, unless that was done, or the transaction has written it. Nothing is sent.
#[tactic(auto, using(crate::proofs::Refusals::reads_halted))]
fn ask(tx: &mut Tx<'_, Open>, key: &Key) -> Result<(), Halt>
    ensures splits { tx.new.splits ≡ tx.old.splits }
    ensures txn { tx.new.client.txn ≡ tx.old.client.txn }
    ensures read { HasRead tx.old.splits tx.old.client tx.new.client }
    ensures refused { IfErr result IsReadHalt }
{
    if is_known(tx, key) {
        return Ok(());
    }
    let envelope = tx.read(*key)?;
    drop(envelope);
    Ok(())
}

// The key is written, or was asked for.
fn is_known(tx: &Tx<'_, Open>, key: &Key) -> bool {
    match (write_of(tx.writes(), key), answer_for(tx.taken(), key)) {
        (None, None) => is_among(tx.awaited(), key),
        _ => true,
    }
}

// The key is in the list.
fn is_among(keys: &[Key], key: &Key) -> bool {
    keys.contains(key)
}

// The write of a key.
fn write_of<'a>(writes: &'a [Write], key: &Key) -> Option<&'a Write>
    ensures none { IfNone result (first (λ w. same_key w.key key.now) writes.now ≡ None) }
    ensures some { IfSome result (λ w. first (λ v. same_key v.key key.now) writes.now ≡ Some w.now) }
{
    writes.iter().find(|write| write.key == *key)
}

// The answer for a key.
fn answer_for<'a>(taken: &'a [Answered], key: &Key) -> Option<&'a Answered>
    ensures none { IfNone result (first (λ a. same_key a.key key.now) taken.now ≡ None) }
    ensures some { IfSome result (λ a. first (λ b. same_key b.key key.now) taken.now ≡ Some a.now) }
{
    taken.iter().find(|answered| answered.key == *key)
}

// The value of a key that was written or answered. One that was not is `awaited`.
fn value_of(tx: &Tx<'_, Open>, key: &Key) -> Result<Option<Value>, Fault>
    ensures value { IfOk result (λ value. seen tx.now.client key.now ≡ Some value) }
    ensures refused { IfErr result IsStepFault }
{
    if let Some(write) = write_of(tx.writes(), key) {
        return Ok(copy_value(&write.value)?);
    }
    if let Some(answered) = answer_for(tx.taken(), key) {
        return Ok(copy_value(&answered.value)?);
    }
    Err(Fault::BadRequest(Reason::Awaited))
}

// The values of some keys.
fn values_of(alloc: Global, tx: &Tx<'_, Open>, keys: &[Key]) -> Result<Vec<Option<Value>>, Fault>
    ensures values { IfOk result
        (λ values. map Some values.items ≡ map (seen tx.now.client) keys.now) }
    ensures refused { IfErr result IsStepFault }
{
    let mut values = Vec::new(alloc);
    for key in keys {
        values.push(value_of(tx, key)?)?;
    }
    Ok(values)
}
