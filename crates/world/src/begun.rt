//! A session that has begun.
ghost use Rattle.std.specs.Prelude.{◌≡◌, [], ◌∷◌, List, true, IfOk, IfErr, OnOk, option_to_list};
ghost use Rattle.units.specs.Ids.{same_id};
ghost use Rattle.units.specs.Keys.{Bytes};
ghost use Rattle.session.specs.Sessions.{Client, begun, reads, buffers, hears};
ghost use Rattle.world.specs.World.{read_lines};
ghost use Rattle.world.specs.Held.{IsBegun, Moves, Hears, Steps, asks, ends};

use message::{Done, Envelope, Outbox, ReadAnswer};
use session::{Closing, Heard, Open, Tx};
use std::alloc::Global;
use std::mem::replace;
use units::{Fault, Key, Line, Splits, Stamp, TxnId, Value, copy_value};

/// What a session is asked for. A write has a value, or `None` for an erasure.
#[derive(Clone, Copy)]
pub enum Step<'v> {
    Read(Key),
    Write(Key, &'v Option<Value>),
    Leave(Leave),
}

/// How a session comes to its end: it closes, gives up, or hears how its transaction ended, at a timestamp or with `None` for aborted.
#[derive(Clone, Copy)]
pub enum Leave {
    Close,
    Quit,
    Hear(Option<Stamp>),
}

/// A transaction in its stage. Nothing is kept of one that is over.
pub enum Held<'s> {
    Open(Tx<'s, Open>),
    Closing(Tx<'s, Closing>),
    Over,
}

/// A session that has begun, with the id of its transaction. It has to be spent, by `spend`.
pub struct Begun<'s> {
    pub txn: TxnId,
    pub held: Held<'s>,
}

impl<'s> Begun<'s> {
    /// Begins a session.
    pub fn new(alloc: Global, txn: TxnId, splits: &'s Splits) -> Begun<'s>
        ensures { IsBegun splits.now result (begun txn) }
    {
        Begun {
            txn,
            held: Held::Open(Tx::begin(alloc, txn, splits)),
        }
    }

    /// Carries out a step of the session, and returns its messages or the session's refusal.
    pub fn step(&mut self, alloc: Global, step: &Step<'_>) -> Result<Outbox, Fault>
        ensures { (splits : List Bytes) (c : Client) → IsBegun splits self.old c
            → Moves splits (asks splits step.now c) self.new c result }
    {
        match step {
            Step::Read(key) => match &mut self.held {
                Held::Open(tx) => ask(alloc, tx, *key),
                _ => Err(Fault::Stranger),
            },
            Step::Write(key, value) => match &mut self.held {
                Held::Open(tx) => buffer(alloc, tx, *key, value),
                _ => Err(Fault::Stranger),
            },
            Step::Leave(leave) => {
                let held = replace(&mut self.held, Held::Over);
                let (held, result) = held.leave(alloc, self.txn, *leave);
                replace(&mut self.held, held).spend();
                result
            }
        }
    }

    /// Takes an answer, in an open session. A value that it takes becomes a line of the report.
    pub fn hear(&mut self, answer: &ReadAnswer) -> Result<Option<Line>, Fault>
        requires { same_id self.old.txn answer.now.txn ≡ true }
        ensures { (splits : List Bytes) (c : Client) → IsBegun splits self.old c
            → Hears splits answer.now self.new c result }
    {
        let txn = self.txn;
        match &mut self.held {
            Held::Open(tx) => take_answer(tx, txn, answer),
            _ => Err(Fault::Stranger),
        }
    }
}

impl<'s> Held<'s> {
    // Leads the session of this id to its end.
    fn leave(self, alloc: Global, txn: TxnId, leave: Leave) -> (Held<'s>, Result<Outbox, Fault>)
        ensures { (splits : List Bytes) (c : Client)
            → IsBegun splits (record { txn = txn; held = self.entry }) c
            → Moves splits (ends splits leave c) (record { txn = txn; held = result.0 }) c
            result.1 }
    {
        match self {
            Held::Open(tx) => match leave {
                Leave::Close => match tx.close(alloc) {
                    Ok((tx, out)) => (Held::Closing(tx), Ok(out)),
                    Err((fault, tx)) => (Held::Open(tx), Err(fault)),
                },
                Leave::Quit => match tx.give_up(alloc) {
                    Ok(out) => (Held::Over, Ok(out)),
                    Err((fault, tx)) => (Held::Open(tx), Err(fault)),
                },
                Leave::Hear(_) => (Held::Open(tx), Err(Fault::Stranger)),
            },
            Held::Closing(tx) => match leave {
                Leave::Close => (Held::Closing(tx), Err(Fault::Stranger)),
                Leave::Quit => match tx.give_up(alloc) {
                    Ok(out) => (Held::Over, Ok(out)),
                    Err((fault, tx)) => (Held::Closing(tx), Err(fault)),
                },
                Leave::Hear(outcome) => match tx.take(&Done::said(txn, outcome)) {
                    Ok(_) => (Held::Over, Ok(Outbox::none(alloc))),
                    Err((fault, tx)) => (Held::Closing(tx), Err(fault)),
                },
            },
            Held::Over => (Held::Over, Err(Fault::Stranger)),
        }
    }

    /// Spends the session without telling any shard.
    pub fn spend(self) {
        match self {
            Held::Open(tx) => tx.spend(),
            Held::Closing(tx) => tx.spend(),
            Held::Over => {}
        }
    }
}

// Asks the key's shard.
fn ask(alloc: Global, tx: &mut Tx<'_, Open>, key: Key) -> Result<Outbox, Fault>
    ensures splits { tx.new.splits ≡ tx.old.splits }
    ensures step { Steps
        (reads tx.old.splits key tx.old.client) tx.new.client tx.old.client result }
{
    match tx.read(key) {
        Ok(envelope) => only(alloc, envelope),
        Err(fault) => Err(fault),
    }
}

// Buffers a write.
fn buffer(
    alloc: Global,
    tx: &mut Tx<'_, Open>,
    key: Key,
    value: &Option<Value>,
) -> Result<Outbox, Fault>
    ensures splits { tx.new.splits ≡ tx.old.splits }
    ensures step { Steps (buffers (record { key = key; value = value.now }) tx.old.client)
        tx.new.client tx.old.client result }
{
    match copy_value(value) {
        Ok(value) => match tx.buffer(key, value) {
            Ok(()) => Ok(Outbox::none(alloc)),
            Err(fault) => Err(fault),
        },
        Err(fault) => Err(fault),
    }
}

// Takes an answer, and makes a line of the value that it shows.
fn take_answer(
    tx: &mut Tx<'_, Open>,
    txn: TxnId,
    answer: &ReadAnswer,
) -> Result<Option<Line>, Fault>
    requires { same_id txn answer.now.txn ≡ true }
    ensures splits { tx.new.splits ≡ tx.old.splits }
    ensures client { OnOk result
        (tx.new.client ≡
        hears answer.now.from answer.now.key answer.now.epoch answer.now.answer tx.old.client) }
    ensures line { tx.old.client.txn ≡ txn
        → IfOk result (λ line. option_to_list line ≡
        read_lines tx.old.client tx.new.client answer.now.key answer.now.answer) }
    ensures memory { IfErr result (λ fault. fault ≡ Fault.Memory) }
{
    tx.awaits_only_new();
    match tx.answered(answer) {
        Ok(Heard::Value(value)) => Ok(Some(Line::Read(txn, answer.key, value))),
        Ok(Heard::Again) => Ok(None),
        Ok(Heard::Doomed) => Ok(None),
        Err(_) => Err(Fault::Memory),
    }
}

// An outbox of this message alone.
fn only(alloc: Global, envelope: Envelope) -> Result<Outbox, Fault>
    ensures same { IfOk result (λ out. out ≡ envelope ∷ []) }
    ensures memory { IfErr result (λ fault. fault ≡ Fault.Memory) }
{
    let mut envelopes = Vec::new(alloc);
    envelopes.push(envelope)?;
    Ok(Outbox::from_vec(envelopes))
}
