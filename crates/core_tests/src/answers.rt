//! The expected answers of a core.
use message::{Address, Envelope, Message, Outbox};
use units::{Fault, Stamp};

/// A message by its kind, the shard to which it goes (9 for a session), and the number of its transaction. The last number is its
/// timestamp or epoch, or 0 if it has neither.
pub type Shape = (u8, u8, u64, u64);

/// The expected answer to an input: these messages, or this refusal.
#[derive(Clone, Copy)]
pub enum Told {
    Says(&'static [Shape]),
    Refused(Fault),
}

fn micros(at: Option<Stamp>) -> u64 {
    match at {
        Some(at) => at.micros(),
        None => 0,
    }
}

fn is_shaped(envelope: &Envelope, wanted: &Shape) -> bool {
    let to = match envelope.to {
        Address::Shard(shard) => shard.number(),
        Address::Session(_) => 9,
    };
    let (kind, number, at) = match &envelope.message {
        Message::Vote(vote) => (b'v', vote.txn.number(), micros(vote.vote)),
        Message::Outcome(told) => (b'o', told.txn.number(), micros(told.outcome)),
        Message::Done(done) => (b'd', done.txn().number(), micros(done.outcome())),
        Message::Ask(ask) => (b'a', ask.txn.number(), 0),
        Message::ReadAnswer(answer) => (b'r', answer.txn.number(), answer.epoch.number()),
        _ => (b'?', 0, 0),
    };
    kind == wanted.0 && to == wanted.1 && number == wanted.2 && at == wanted.3
}

/// Tells whether the messages have these shapes, in order, and there are no others.
pub fn are_shaped(out: &[Envelope], shapes: &[Shape]) -> bool {
    for (envelope, wanted) in out.iter().zip(shapes) {
        if !is_shaped(envelope, wanted) {
            return false;
        }
    }
    out.len() == shapes.len()
}

/// Tells whether the answer is the expected one.
pub fn is_told(answer: Result<Outbox, Fault>, told: Told) -> bool {
    match answer {
        Ok(out) => {
            let said = match told {
                Told::Says(shapes) => are_shaped(out.as_slice(), shapes),
                Told::Refused(_) => false,
            };
            drop(out);
            said
        }
        Err(why) => match told {
            Told::Refused(fault) => why == fault,
            Told::Says(_) => false,
        },
    }
}
