//! A transaction at its client.
ghost use Rattle.std.specs.Prelude.{◌≡◌, ◌⊎◌, ◌^◌, [], ◌∷◌, ◌++◌, length, true, false, not, ◌&&◌, nat_le, Option, MatchResult, IfOk, IfErr, OnOk};
ghost use Rattle.units.specs.Ids.{same_id};
ghost use Rattle.units.specs.Keys.{Bytes, has_key, writes_key};
ghost use Rattle.session.specs.Sessions.{Stage, IsOpen, IsClosing, IsOver, begun, reads, buffers, hears, asked_keys, was_answered, was_taken, is_doomed};
ghost use Rattle.session.specs.Sessions.{epochs_agree, Goes, Denies};
ghost use Rattle.session.specs.Shown.{Session, IsDenied, is_closing, heard_as};

use crate::lists::{drop_write, epochs_agree, has_key, insert_write, is_written, was_taken};
use crate::{Answered, Heard};
use message::{Address, Answer, Envelope, Message, Read, ReadAnswer};
use std::alloc::Global;
use std::marker::{Model, PhantomData};
use tickets::{Drawer, Tickets};
use units::{Fault, Key, Reason, Run, Splits, TxnId, Value, Write};

mod stages {
    /// What only the stages of this crate are.
    pub trait Stage {}
}

/// A stage of a transaction at its client: `Open`, `Closing` or `Quitting`. No other crate can add one.
pub trait Phase: stages::Stage {
    ghost stage: { Stage };

    /// Tells whether the closing messages are out.
    fn is_closing() -> bool
        ensures { result ≡ is_closing Self.stage };
}

/// A stage at which a transaction can be given up: `Open` or `Closing`.
pub trait Ongoing: Phase {}

/// A stage at which the closing messages are out and the end is awaited: `Closing` or `Quitting`.
pub trait Closed: Phase {}

/// The transaction reads and buffers writes.
pub struct Open;

impl stages::Stage for Open {}

impl Ongoing for Open {}

impl Phase for Open {
    ghost stage = { IsOpen };

    fn is_closing() -> bool {
        false
    }
}

/// The closing messages are out, and the end is awaited.
pub struct Closing;

impl stages::Stage for Closing {}

impl Ongoing for Closing {}

impl Closed for Closing {}

impl Phase for Closing {
    ghost stage = { IsClosing };

    fn is_closing() -> bool {
        true
    }
}

/// The transaction was given up after its closing, and its shards were asked once more how it ended. By the definition the session is
/// over: its client only hears what became of the transaction.
pub struct Quitting;

impl stages::Stage for Quitting {}

impl Closed for Quitting {}

impl Phase for Quitting {
    ghost stage = { IsOver };

    fn is_closing() -> bool {
        false
    }
}

/// A transaction, as its client sees it. Its reads do not see its own writes, which are buffered until it closes. It has to be spent,
/// by `take`, `give_up` or `spend`.
pub struct Tx<'s, S: Phase> {
    pub(crate) splits: &'s Splits,
    pub(crate) txn: TxnId,
    pub(crate) doom: Option<Key>,
    pub(crate) taken: Vec<Answered>,
    pub(crate) awaited: Vec<Key>,
    pub(crate) writes: Vec<Write>,
    pub(crate) phase: PhantomData<S>,
}

impl<'s, S: Phase> Model for Tx<'s, S> {
    ghost use Rattle.session.specs.Shown.{Session, IsWithinLimits};

    ghost Value = { Session };

    ghost view = { λ t. record {
      splits = t.splits.now;
      client = record {
        txn = t.txn;
        stage = S.stage;
        doom = t.doom;
        taken = t.taken.items;
        awaited = t.awaited.items;
        writes = t.writes.items;
      };
    } };

    ghost invariant = { λ t. IsWithinLimits t.taken.items t.awaited.items t.writes.items };
}

impl<'s> Tx<'s, Open> {
    /// Begins a transaction with this id. It keeps the splits, and takes no memory.
    pub fn begin(alloc: Global, txn: TxnId, splits: &'s Splits) -> Tx<'s, Open>
        ensures splits { result.splits ≡ splits.now }
        ensures begun { result.client ≡ begun txn }
    {
        Tx {
            splits,
            txn,
            doom: None,
            taken: Vec::new(alloc),
            awaited: Vec::new(alloc),
            writes: Vec::new(alloc),
            phase: PhantomData,
        }
    }

    /// Begins a transaction of a run, with a number that it draws. No two transactions of one run and one source share an id
    /// (`ids_stay_apart` of `tickets`). `TimeSpent` if the drawer has drawn 2^40 times; take another drawer.
    pub fn begin_drawn(
        alloc: Global,
        run: Run,
        splits: &'s Splits,
        tickets: &Tickets,
        drawer: &mut Drawer,
    ) -> Result<Tx<'s, Open>, Fault>
        requires { drawer.old.source ≡ tickets.now }
        ensures source { drawer.new.source ≡ drawer.old.source }
        ensures splits { IfOk result (λ tx. tx.splits ≡ splits.now) }
        ensures begun { IfOk result
            (λ tx. tx.client ≡ begun (record { run = run; number = tx.client.txn.number })) }
        ensures drawn { MatchResult result
            (λ tx. drawer.new.drawn ≡ drawer.old.drawn ++ tx.client.txn.number ∷ [])
            (λ fault. (fault ≡ Fault.TimeSpent) × (length drawer.old.drawn ≡ 2 ^ 40)
            × (drawer.new.drawn ≡ drawer.old.drawn)) }
    {
        let number = tickets.draw(drawer)?;
        match TxnId::new(run.number(), number) {
            Some(txn) => Ok(Tx::begin(alloc, txn, splits)),
            None => unreachable!(),
        }
    }

    /// Makes the message that asks the key's shard for its value. A `BadRequest` is `Many` after 128 keys, or `Doomed` if the transaction
    /// can only give up. It is `Again` if the key was answered, and `Awaited` if the answer is not taken yet. A shard ignores a read while
    /// an earlier read of the transaction waits there: send it again after the earlier one is answered.
    pub fn read(&mut self, key: Key) -> Result<Envelope, Fault>
        ensures splits { self.new.splits ≡ self.old.splits }
        ensures step { MatchResult result
            (λ envelope. reads self.old.splits key self.old.client ≡
            Goes self.new.client (envelope ∷ []))
            (λ fault. (self.new.client ≡ self.old.client)
            × IsDenied (reads self.old.splits key self.old.client) fault) }
    {
        self.may_read(&key)?;
        self.awaited.reserve(1)?;
        self.awaited.push_reserved(key);
        let shard = self.splits.shard_of(&key);
        Ok(Envelope {
            to: Address::Shard(shard),
            message: Message::Read(Read { txn: self.txn, key }),
        })
    }

    /// Takes an answer if it is awaited. Any other answer to this transaction changes nothing (`Heard::Again`), and an answer to another one
    /// is a `Stranger`. `Memory` leaves all as it was: take the answer again.
    pub fn answered(&mut self, answer: &ReadAnswer) -> Result<Heard, Fault>
        ensures splits { self.new.splits ≡ self.old.splits }
        ensures step { MatchResult result
            (λ heard. (same_id self.old.client.txn answer.now.txn ≡ true)
            × (self.new.client ≡
            hears answer.now.from answer.now.key answer.now.epoch answer.now.answer self.old.client)
            × (heard ≡ heard_as self.old.client answer.now.from answer.now.key answer.now.epoch
            answer.now.answer))
            (λ fault. (self.new.client ≡ self.old.client)
            × (((fault ≡ Fault.Stranger) × (same_id self.old.client.txn answer.now.txn ≡ false))
            ⊎ ((fault ≡ Fault.Memory) × (same_id self.old.client.txn answer.now.txn ≡ true)))) }
    {
        if !self.is_of(answer.txn) {
            return Err(Fault::Stranger);
        }
        if !self.expects(&answer.key) {
            return Ok(Heard::Again);
        }
        match &answer.answer {
            Answer::Refused => {
                self.doom_by(answer.key);
                Ok(Heard::Doomed)
            }
            Answer::Holds(value) => {
                if self.agrees(answer) {
                    self.take_value(answer, value)
                } else {
                    self.doom_by(answer.key);
                    Ok(Heard::Doomed)
                }
            }
        }
    }

    /// Buffers a write, or an erasure if there is no value; a later write of a key replaces the earlier one. A `BadRequest` is `Many` after
    /// 128 keys, and `Doomed` if the transaction can only give up.
    pub fn buffer(&mut self, key: Key, value: Option<Value>) -> Result<(), Fault>
        ensures splits { self.new.splits ≡ self.old.splits }
        ensures step { MatchResult result
            (λ _. buffers (record { key = key; value = value }) self.old.client ≡
            Goes self.new.client [])
            (λ fault. (self.new.client ≡ self.old.client)
            × IsDenied (buffers (record { key = key; value = value }) self.old.client) fault) }
    {
        self.may_buffer(&key)?;
        self.writes.reserve(1)?;
        drop_write(&mut self.writes, &key);
        insert_write(&mut self.writes, Write { key, value });
        Ok(())
    }

    /// Says that no awaited key was taken before. It does nothing.
    pub fn awaits_only_new(&self)
        ensures { (key : Bytes) → has_key self.now.client.awaited key ≡ true
            → was_taken self.now.client key ≡ false }
    {
        let _awaited = &self.awaited;
    }

    // The number of keys that were asked for.
    pub(crate) fn asked(&self) -> usize
        ensures { result ≡ length (asked_keys self.now.client) }
    {
        let doomed = if self.is_doomed() { 1 } else { 0 };
        self.taken.len() + doomed + self.awaited.len()
    }

    /// Tells whether the transaction can only give up.
    pub fn is_doomed(&self) -> bool
        ensures { result ≡ is_doomed self.now.client }
    {
        match &self.doom {
            Some(_) => true,
            None => false,
        }
    }

    // Whether the key's answer is not yet taken.
    fn awaits(&self, key: &Key) -> bool
        ensures { result ≡ has_key self.now.client.awaited key.now }
    {
        has_key(self.awaited.as_slice(), key)
    }

    // Whether the key's answer was taken: a value, or the answer that doomed the session.
    fn was_answered(&self, key: &Key) -> bool
        ensures { result ≡ was_answered self.now.client key.now }
    {
        if was_taken(self.taken.as_slice(), key) {
            return true;
        }
        match &self.doom {
            Some(doom) => key == doom,
            None => false,
        }
    }

    // Whether the key's answer is to be taken.
    fn expects(&self, key: &Key) -> bool
        ensures { result ≡ (has_key self.now.client.awaited key.now
            && not (is_doomed self.now.client)) }
    {
        self.awaits(key) && !self.is_doomed()
    }

    // Whether the answer has the epoch of its shard's other answers.
    fn agrees(&self, answer: &ReadAnswer) -> bool
        ensures { result ≡ epochs_agree self.now.client.taken answer.now.from answer.now.epoch }
    {
        epochs_agree(self.taken.as_slice(), answer.from, answer.epoch)
    }

    // Checks that the key may be asked for.
    fn may_read(&self, key: &Key) -> Result<(), Fault>
        ensures { MatchResult result
            (λ _. (nat_le 128 (length (asked_keys self.now.client)) ≡ false)
            × (was_answered self.now.client key.now ≡ false)
            × (has_key self.now.client.awaited key.now ≡ false)
            × (is_doomed self.now.client ≡ false))
            (λ fault. reads self.now.splits key.now self.now.client ≡ Denies fault) }
    {
        if self.asked() >= 128 {
            return Err(Fault::BadRequest(Reason::Many));
        }
        if self.was_answered(key) {
            return Err(Fault::BadRequest(Reason::Again));
        }
        if self.awaits(key) {
            return Err(Fault::BadRequest(Reason::Awaited));
        }
        if self.is_doomed() {
            return Err(Fault::BadRequest(Reason::Doomed));
        }
        Ok(())
    }

    // Whether 128 keys are written, and this is not one of them.
    fn is_full_for(&self, key: &Key) -> bool
        ensures { result ≡ (nat_le 128 (length self.now.client.writes)
            && not (writes_key self.now.client.writes key.now)) }
    {
        self.writes.len() >= 128 && !is_written(self.writes.as_slice(), key)
    }

    // Checks that the key may be written.
    fn may_buffer(&self, key: &Key) -> Result<(), Fault>
        ensures { MatchResult result
            (λ _. ((nat_le 128 (length self.now.client.writes)
            && not (writes_key self.now.client.writes key.now)) ≡ false)
            × (is_doomed self.now.client ≡ false))
            (λ fault. (value : Option Bytes)
            → buffers (record { key = key.now; value = value }) self.now.client ≡ Denies fault) }
    {
        if self.is_full_for(key) {
            return Err(Fault::BadRequest(Reason::Many));
        }
        if self.is_doomed() {
            return Err(Fault::BadRequest(Reason::Doomed));
        }
        Ok(())
    }
}

impl<'s, S: Phase> Tx<'s, S> {
    /// Returns the id of the transaction.
    pub fn txn(&self) -> TxnId
        ensures { result ≡ self.now.client.txn }
    {
        self.txn
    }

    /// Returns the splits of its shards.
    pub fn splits(&self) -> &'s Splits
        ensures { result.now ≡ self.now.splits }
    {
        self.splits
    }

    /// Returns the answers with a value that it took, in the order in which it took them.
    pub fn taken(&self) -> &[Answered]
        ensures { result.now ≡ self.now.client.taken }
    {
        self.taken.as_slice()
    }

    /// Returns the keys that it asked for, and whose answers it has not taken.
    pub fn awaited(&self) -> &[Key]
        ensures { result.now ≡ self.now.client.awaited }
    {
        self.awaited.as_slice()
    }

    /// Returns its writes, by ascending keys.
    pub fn writes(&self) -> &[Write]
        ensures { result.now ≡ self.now.client.writes }
    {
        self.writes.as_slice()
    }

    /// Tells whether it is this transaction.
    pub(crate) fn is_of(&self, txn: TxnId) -> bool
        ensures { result ≡ same_id self.now.client.txn txn }
    {
        self.txn == txn
    }
}
