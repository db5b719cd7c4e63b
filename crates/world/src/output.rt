//! What a run has put out: its messages, and the lines of its report.
ghost use Rattle.std.specs.Prelude.{◌≡◌, ◌||◌, ◌++◌, [], IfErr, OnOk, true, flat_map, option_to_list};
ghost use Rattle.message.specs.declared.message.Envelope.{Envelope};
ghost use Rattle.units.specs.Ids.{Id};
ghost use Rattle.world.specs.Among.{is_among};
ghost use Rattle.world.specs.Told.{ack_by, ack_in, told_in};

use crate::Reply;
use indexmap::IndexSet;
use message::{Bag, Envelope, Message, Outbox};
use std::alloc::Global;
use units::{Fault, Key, Line, Stamp, TxnId, Value, copy_value};

/// The messages and the lines so far, the transactions whose commit their sessions were told, and the number of the present event.
#[derive(Drop)]
pub struct RunOutput {
    pub bag: Bag,
    pub told: IndexSet<TxnId>,
    pub lines: Vec<Line>,
    pub event: u64,
}

impl RunOutput {
    ghost use Rattle.world.specs.World.{World, put_out, note};
    ghost use Rattle.world.specs.Passed.{IsOutput};
    ghost use Rattle.world.specs.Comes.{HasHeard, HasReplied, Notes};

    /// Makes the output of a run before its first event.
    pub fn new(alloc: Global) -> RunOutput
        ensures { (result.bag ≡ []) × (result.told.keys ≡ []) × (result.lines.items ≡ [])
            × (result.event ≡ 0) }
    {
        RunOutput {
            bag: Bag::new(alloc),
            told: IndexSet::new(alloc),
            lines: Vec::new(alloc),
            event: 0,
        }
    }

    /// Puts out the messages, or replies with the refusal. `Memory` if memory runs out.
    pub fn reply(&mut self, answer: Result<Outbox, Fault>) -> Result<Reply, Fault>
        ensures { (w : World) → IsOutput self.old w → HasReplied w answer self.new result }
    {
        match answer {
            Ok(out) => {
                self.put_out(out)?;
                Ok(Reply::Done)
            }
            Err(Fault::Memory) => Err(Fault::Memory),
            Err(fault) => Ok(Reply::Refused(fault)),
        }
    }

    /// Adds the line if there is one, or replies with the refusal. `Memory` if memory runs out.
    pub fn reply_line(&mut self, answer: Result<Option<Line>, Fault>) -> Result<Reply, Fault>
        ensures { (w : World) → IsOutput self.old w → HasHeard w answer self.new result }
    {
        match answer {
            Ok(Some(line)) => match self.lines.push(line) {
                Ok(()) => Ok(Reply::Done),
                Err(_) => Err(Fault::Memory),
            },
            Ok(None) => Ok(Reply::Done),
            Err(Fault::Memory) => Err(Fault::Memory),
            Err(fault) => Ok(Reply::Refused(fault)),
        }
    }

    /// Adds a line for a look that was answered. `Memory` if memory runs out.
    pub fn note_look(&mut self, key: Key, at: Stamp, reply: Reply) -> Result<Reply, Fault>
        ensures { (w : World) → IsOutput self.old w → Notes w key at reply self.new result }
    {
        let Reply::Shows(value) = &reply else {
            return Ok(reply);
        };
        match self.note_shown(key, at, value) {
            Ok(()) => Ok(reply),
            Err(fault) => {
                drop(reply);
                Err(fault)
            }
        }
    }

    // Puts out messages. One that is the first to tell a session of its commit becomes a line.
    fn put_out(&mut self, out: Outbox) -> Result<(), Fault>
        ensures put { (w : World) → IsOutput self.old w
            → OnOk result (IsOutput self.new (put_out out w)) }
        ensures memory { IfErr result (λ fault. fault ≡ Fault.Memory) }
    {
        match push_acknowledged(&mut self.lines, &self.told, self.event, out.as_slice()) {
            Ok(()) => match note_told(&mut self.told, out.as_slice()) {
                Ok(()) => put_all(&mut self.bag, out),
                Err(fault) => {
                    drop(out);
                    Err(fault)
                }
            },
            Err(fault) => {
                drop(out);
                Err(fault)
            }
        }
    }

    // Adds a line for a look that showed a value.
    fn note_shown(&mut self, key: Key, at: Stamp, value: &Option<Value>) -> Result<(), Fault>
        ensures noted { (w : World) → IsOutput self.old w
            → OnOk result (IsOutput self.new (note (Line.Look key at value.now) w)) }
        ensures memory { IfErr result (λ fault. fault ≡ Fault.Memory) }
    {
        let value = copy_value(value)?;
        self.lines.push(Line::Look(key, at, value))?;
        Ok(())
    }
}

// Adds each message after the others.
fn put_all(bag: &mut Bag, out: Outbox) -> Result<(), Fault>
    ensures all { OnOk result (bag.new ≡ bag.old ++ out) }
    ensures memory { IfErr result (λ fault. fault ≡ Fault.Memory) }
{
    for envelope in out.into_vec() {
        bag.put(envelope)?;
    }
    Ok(())
}

// Adds the acknowledgements among new messages.
fn push_acknowledged(
    lines: &mut Vec<Line>,
    told: &IndexSet<TxnId>,
    event: u64,
    out: &[Envelope],
) -> Result<(), Fault>
    ensures lines { OnOk result
        (lines.new.items ≡ lines.old.items ++ flat_map (ack_in told.now.keys event) out.now) }
    ensures memory { IfErr result (λ fault. fault ≡ Fault.Memory) }
{
    for envelope in out {
        if let Some(line) = acknowledged(told, event, envelope) {
            lines.push(line)?;
        }
    }
    Ok(())
}

// Adds the transactions of whose commit new messages tell.
fn note_told(told: &mut IndexSet<TxnId>, out: &[Envelope]) -> Result<(), Fault>
    ensures told { (t : Id) → OnOk result (is_among told.new.keys t ≡
        (is_among told.old.keys t || is_among (flat_map told_in out.now) t)) }
    ensures memory { IfErr result (λ fault. fault ≡ Fault.Memory) }
{
    for envelope in out {
        if let Some(txn) = told_in(envelope) {
            told.insert(txn)?;
        }
    }
    Ok(())
}

// The acknowledgement in a message, if it is the first that tells a session of its commit.
fn acknowledged(told: &IndexSet<TxnId>, event: u64, envelope: &Envelope) -> Option<Line>
    ensures { option_to_list result ≡ ack_in told.now.keys event envelope.now }
{
    match &envelope.message {
        Message::Done(done) => acknowledged_by(told, event, done.txn(), done.outcome()),
        _ => None,
    }
}

// The acknowledgement in the end of a transaction.
fn acknowledged_by(
    told: &IndexSet<TxnId>,
    event: u64,
    txn: TxnId,
    outcome: Option<Stamp>,
) -> Option<Line>
    ensures { option_to_list result ≡ ack_by told.now.keys event txn outcome }
{
    match outcome {
        Some(at) => {
            if told.contains(&txn) {
                None
            } else {
                Some(Line::Ack(txn, at, event))
            }
        }
        None => None,
    }
}

// The transaction of whose commit a message tells its session.
fn told_in(envelope: &Envelope) -> Option<TxnId>
    ensures { option_to_list result ≡ told_in envelope.now }
{
    match &envelope.message {
        Message::Done(done) => match done.outcome() {
            Some(_) => Some(done.txn()),
            None => None,
        },
        _ => None,
    }
}
