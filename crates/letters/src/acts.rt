//! One act of a node.
ghost use Rattle.std.specs.Prelude.{◌≡◌};
ghost use Rattle.letters.specs.Letters.{is_answer, is_unanswered, keeps, session_of};

use crate::letter::{Post, Refused, UnderWay};
use crate::serves::{Due, Serves};
use message::{Envelope, Input, Message, Outbox};
use std::sync::Wait;
use truetime::Clock;
use units::{Fault, MOST_ROWS, ShardNo, TxnId};

/// Gives the node an input, and posts what it puts out. If it refuses the letter of a session, that is posted. Returns whether it was taken.
pub fn act<N: Serves, W: Wait, P: Post, C: Clock>(
    node: &N,
    rt: &W,
    post: &mut P,
    clock: &mut C,
    input: Input,
) -> bool {
    let taken = taken(node, rt, post, clock, &input);
    drop(input);
    match taken {
        Some(outbox) => {
            post_all(post, outbox);
            true
        }
        None => false,
    }
}

/// Gives the node the message of a session, or any other input. Returns whether the node keeps what a session asks for. If the session has
/// sent that again, in a round, it is told so.
pub fn deliver<N: Serves, W: Wait, P: Post, C: Clock>(
    node: &N,
    rt: &W,
    post: &mut P,
    clock: &mut C,
    input: &Input,
    round: Option<u64>,
) -> bool {
    match taken(node, rt, post, clock, input) {
        Some(outbox) => hand_on(node, rt, post, input, outbox, round),
        None => false,
    }
}

/// Posts what an input has put out. Returns whether the node keeps what a session asks for. If the session has sent that again, in a round,
/// it is told so.
pub fn hand_on<N: Serves, W: Wait, P: Post>(
    node: &N,
    rt: &W,
    post: &mut P,
    input: &Input,
    outbox: Outbox,
    round: Option<u64>,
) -> bool {
    let keeps = keeps(input, outbox.as_slice());
    post_all(post, outbox);
    if let (true, Some(round), Some(txn)) = (keeps, round, session_of(input)) {
        post.assure(UnderWay {
            txn,
            shard: node.shard(),
            round,
            decided: is_decided(node, rt, txn),
        });
    }
    keeps
}

/// Tells the session whose letter an input is that a shard has refused it. Of an input that is no session's the post is told only if there was
/// no memory for it.
pub fn refuse<P: Post>(post: &mut P, shard: ShardNo, input: &Input, fault: Fault) {
    match session_of(input) {
        Some(txn) => post.refuse(Refused { txn, shard, fault }),
        None => note_lack(post, fault),
    }
}

/// Tells the post of a fault that is want of memory, and of no other.
pub fn note_lack<P: Post>(post: &mut P, fault: Fault) {
    if fault == Fault::Memory {
        post.lack_memory();
    }
}

// The node takes an input. If it refuses the letter of a session, the post is told.
fn taken<N: Serves, W: Wait, P: Post, C: Clock>(
    node: &N,
    rt: &W,
    post: &mut P,
    clock: &mut C,
    input: &Input,
) -> Option<Outbox> {
    match node.take(rt, clock, input) {
        Ok(outbox) => Some(outbox),
        Err(fault) => {
            refuse(post, node.shard(), input, fault);
            None
        }
    }
}

/// Posts what a node has put out.
pub fn post_all<P: Post>(post: &mut P, outbox: Outbox) {
    for envelope in outbox.into_vec() {
        post.post(envelope);
    }
}

// Whether the transaction is decided and not settled at the node.
fn is_decided<N: Serves, W: Wait>(node: &N, rt: &W, txn: TxnId) -> bool {
    for n in 0..MOST_ROWS {
        match node.due(rt, Due::Decided, n) {
            Some((found, _)) if found == txn => return true,
            Some(_) => {}
            None => return false,
        }
    }
    false
}

/// Tells whether a node that has taken a session's message keeps what that asks for: nothing of what it put out answers the session, and no
/// vote is refused.
pub fn keeps(input: &Input, out: &[Envelope]) -> bool
    ensures { result ≡ keeps input.now out.now }
{
    match input {
        Input::Deliver(Message::Read(read)) => is_unanswered(read.txn, out),
        Input::Deliver(Message::Prepare(prepare)) => is_unanswered(prepare.txn, out),
        Input::Deliver(Message::Commit(commit)) => is_unanswered(commit.txn, out),
        _ => false,
    }
}

// Whether none of some messages is an answer to what a transaction asks for.
fn is_unanswered(txn: TxnId, out: &[Envelope]) -> bool
    ensures { result ≡ is_unanswered txn out.now }
{
    for envelope in out {
        if is_answer(txn, envelope) {
            return false;
        }
    }
    true
}

// Whether a message answers what a transaction asks for: its read, or its end, or that it is not voted for.
fn is_answer(txn: TxnId, envelope: &Envelope) -> bool
    ensures { result ≡ is_answer txn envelope.now }
{
    match &envelope.message {
        Message::ReadAnswer(answer) => answer.txn == txn,
        Message::Done(done) => done.txn() == txn,
        Message::Vote(vote) => vote.vote.is_none() && vote.txn == txn,
        _ => false,
    }
}

/// Tells the transaction whose session has sent an input: that of a read, a prepare, a commit or a giving up.
pub fn session_of(input: &Input) -> Option<TxnId>
    ensures { result ≡ session_of input.now }
{
    match input {
        Input::Deliver(Message::Read(read)) => Some(read.txn),
        Input::Deliver(Message::Prepare(prepare)) => Some(prepare.txn),
        Input::Deliver(Message::Commit(commit)) => Some(commit.txn),
        Input::Deliver(Message::GiveUp(given)) => Some(given.txn),
        _ => None,
    }
}
