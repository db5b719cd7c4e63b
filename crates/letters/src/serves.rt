//! How a node is served.
use crate::chores::Chores;
use crate::gate::Gate;
use crate::gauges::Gauges;
use crate::kept::{Kept, Watched};
use crate::letter::{Letter, Post};
use crate::put_off::{Next, Waiting};
use crate::together::{Batch, take_all};
use crate::turns::Turns;
use crossbeam_channel::Receiver;
use message::{Input, Message, Outbox};
use std::alloc::Global;
use std::sync::Wait;
use std::time;
use std::time::{Duration, Instant};
use truetime::Clock;
use units::{Fault, ShardNo, Stamp, TxnId};

/// The standing of transactions that a node's chores ask for.
#[derive(Clone, Copy)]
pub enum Due {
    /// Decided and not settled.
    Decided,
    /// Prepared.
    Prepared,
}

/// What a node made of some inputs that it took together.
#[derive(Drop)]
pub struct Taken {
    /// Why each input was refused, in their order; `None` if it was taken.
    pub refusals: Vec<Option<Fault>>,
    /// What each input that was taken has put out, in their order. After that comes what each step has put out that was due.
    pub outboxes: Vec<Outbox>,
}

/// What a node does for the thread that serves it. Each call but `shard` is under the node's lock.
pub trait Serves {
    /// Gives the number of its shard.
    fn shard(&self) -> ShardNo;

    /// Takes an input at a reading that is taken under the lock. Returns what it puts out, or why it was refused: `TimeSpent` if the clock
    /// has no reading.
    fn take<W: Wait, C: Clock>(
        &self,
        rt: &W,
        clock: &mut C,
        input: &Input,
    ) -> Result<Outbox, Fault>;

    /// Takes some inputs together at one reading, which is taken under the lock. After them it takes what is due at that reading: waits that
    /// can be granted, and what is decided and has passed. Their records are logged together, and nothing that they put out is handed out
    /// before that.
    ///
    /// `None` says that nothing was done, since the node takes inputs one by one: it is stopped, or keeps a book. A fault is that of all
    /// inputs. `Memory`, and `TimeSpent` if the clock has no reading, say that nothing was done. After `Device` the node is stopped, and its
    /// log has all that the inputs log or nothing of it.
    fn take_all<W: Wait, C: Clock>(
        &self,
        rt: &W,
        clock: &mut C,
        inputs: &[Input],
    ) -> Result<Option<Taken>, Fault>;

    /// Tells whether a transaction waits whose wait can be granted.
    fn is_ready<W: Wait>(&self, rt: &W) -> bool;

    /// Gives the transaction with the least timestamp that is decided and not settled, with that timestamp.
    fn earliest_decided<W: Wait>(&self, rt: &W) -> Option<(TxnId, Stamp)>;

    /// Gives the n-th transaction of this standing, with the timestamp at which it is prepared or decided.
    fn due<W: Wait>(&self, rt: &W, due: Due, n: usize) -> Option<(TxnId, Stamp)>;

    /// Tells whether its device has failed, so that it takes nothing more.
    fn is_stopped<W: Wait>(&self, rt: &W) -> bool;

    /// Counts the versions of the shard.
    fn versions<W: Wait>(&self, rt: &W) -> usize;

    /// Tells how the shard stands.
    fn gauges<W: Wait>(&self, rt: &W) -> Gauges;

    /// Hears how many letters wait for it, each time before its chores.
    fn hear_waiting(&self, _letters: usize) {}

    /// Advances to the latest of a reading that is taken under the lock, and shows that. Returns the timestamp up to which it serves then;
    /// `None` if it was refused, or the clock has no reading.
    fn keep_up<W: Wait, C: Clock>(&self, rt: &W, clock: &mut C) -> Option<Stamp>;

    /// Shows what it has, up to the time that it serves already, without a record. Returns that time; `None` if it was refused, or the clock
    /// has no reading.
    fn publish<W: Wait, C: Clock>(&self, rt: &W, clock: &mut C) -> Option<Stamp>;

    /// Does one piece of what keeps its memory and its log small, if any is due. Returns whether there was a piece. It is asked before it shows
    /// something, and letters are taken between two pieces.
    fn tidy<W: Wait, C: Clock>(&self, _rt: &W, _clock: &mut C) -> bool {
        false
    }

    /// Is called while it is stopped, with its chores: 640 ms pass at most between two calls. It may open its disk again, and then it is not stopped any
    /// more. How often it tries that is up to it.
    fn heal<W: Wait, C: Clock>(&self, _rt: &W, _clock: &mut C) {}

    /// Gives the allocator of letters that wait.
    fn alloc(&self) -> Global;
}

// So many letters are taken in a row before a node does its chores and takes reads that wait.
const LETTERS_IN_A_ROW: u64 = 64;

// So many reads wait at most. While a device is slow, a worker sends one again each 20 milliseconds.
const READS_AT_MOST: usize = 1_024;

/// Serves the letters of the inbox until one says to close, or the inbox is closed. If the node refuses the letter of a session, the post is
/// told.
///
/// - **Chores**: the node does them whenever no letter is there, and then waits for a letter until more are due. While letters come, it does
///   them after 64 letters, or after the first letter that ends more than a millisecond after the last chores. After them the gate is told if
///   the node has stopped, and if it has gone on after that. One that is stopped is asked to heal.
/// - **Letters that are no reads** are taken together if they are there at the same time: 64 at most, besides those that a session has sent
///   again, and no more once they are to write a megabyte. Their records are logged together, and each is answered after that, in order. One
///   that a session has sent again takes the place of the one that waits. If the last groups took 2 ms or more, they wait for others, for
///   half of that time at most. They wait until those whom the node has answered have closed, or no letter has come for a while. What is
///   decided waits with them, and is settled in the same group.
/// - **Reads** are taken once no other letter is in the inbox: each by itself, 64 in a row. After each 64 letters up to 64 reads are taken,
///   also if other letters never cease. Reads of a key that is read to be written take turns: one waits until the transaction that has read
///   the key before it has closed, for 4 ms at most, or 100 ms if letters take long. While a commit waits for others, reads of the keys that
///   it writes wait for it in the same way.
pub fn serve<N: Serves, W: Wait + time::Clock, P: Post, C: Clock, G: Gate>(
    node: &N,
    rt: &W,
    inbox: &Receiver<Letter>,
    post: &mut P,
    clock: &mut C,
    gate: &G,
) {
    let mut round = round_of(node, rt);
    for _letter in rt.forever() {
        let is_due = inbox.is_empty()
            || round.in_a_row >= LETTERS_IN_A_ROW
            || round.chores.are_late(rt);
        let pause = if is_due {
            node.hear_waiting(inbox.len());
            tend(node, rt, post, clock, gate, &mut round)
        } else {
            Duration::ZERO
        };
        match round.reads.first_of(rt, inbox, &round.turns, pause) {
            Next::Take(letter) => {
                if !take_next(node, rt, inbox, post, clock, gate, &mut round, letter) {
                    return;
                }
            }
            Next::Nothing => {}
            Next::Gone => {
                take_gathered(node, rt, post, clock, gate, &mut round);
                return;
            }
        }
        if is_gathered(rt, &round) {
            take_gathered(node, rt, post, clock, gate, &mut round);
        }
    }
    unreachable!()
}

// Whether letters were gathered, and are to be taken: there are enough, or they wait for nothing more.
fn is_gathered<W: time::Clock>(rt: &W, round: &Round) -> bool {
    match &round.gathered {
        Some(batch) => batch.is_full() || round.kept.pace.gathers(rt) == Duration::ZERO,
        None => false,
    }
}

// What a node is in the midst of: its chores, the reads that wait to be taken, those that wait for a lock, and whose turn it is to read. It
// also counts the letters that were taken, and those since many in a row last let reads through, and notes whether it had stopped at its last chores.
#[derive(Drop)]
struct Round {
    chores: Chores,
    reads: Waiting,
    kept: Kept,
    turns: Turns,
    gathered: Option<Batch>,
    n: u64,
    in_a_row: u64,
    stopped: bool,
}

// Begins with nothing taken, and nothing that waits.
fn round_of<N: Serves, W: Wait>(node: &N, rt: &W) -> Round {
    Round {
        chores: Chores::new(node, rt),
        reads: Waiting::none(node.alloc(), READS_AT_MOST),
        kept: Kept::none(node.alloc()),
        turns: Turns::none(node.alloc()),
        gathered: None,
        n: 0,
        in_a_row: 0,
        stopped: false,
    }
}

// Does the chores, and tells the gate how the node stands. After many letters, reads that wait are taken first: chores that were late
// meanwhile do not put them off. Returns for how long nothing more is due.
fn tend<N: Serves, W: Wait + time::Clock, P: Post, C: Clock, G: Gate>(
    node: &N,
    rt: &W,
    post: &mut P,
    clock: &mut C,
    gate: &G,
    round: &mut Round,
) -> Duration {
    if round.in_a_row >= LETTERS_IN_A_ROW {
        take_reads(node, rt, post, clock, gate, round);
        round.in_a_row = 0;
    }
    round.kept.look_after(node, rt, post, clock);
    let pause = do_chores(node, rt, post, clock, round);
    if heals(node, rt, clock, gate, round) {
        return Duration::ZERO;
    }
    round.kept.pause(rt, pause)
}

// Tells the gate if the node has stopped, and asks a stopped one to heal. Returns whether it has gone on: the gate is told of that too, and its chores
// begin anew.
fn heals<N: Serves, W: Wait, C: Clock, G: Gate>(
    node: &N,
    rt: &W,
    clock: &mut C,
    gate: &G,
    round: &mut Round,
) -> bool {
    let had_stopped = round.stopped;
    round.stopped = node.is_stopped(rt);
    if !round.stopped {
        return false;
    }
    if !had_stopped {
        gate.stopped(node.shard());
    }
    node.heal(rt, clock);
    round.stopped = node.is_stopped(rt);
    if !round.stopped {
        round.chores = Chores::new(node, rt);
        gate.goes_on(node.shard());
    }
    !round.stopped
}

// Does what is due. Returns for how long nothing more is due.
fn do_chores<N: Serves, W: Wait + time::Clock, P: Post, C: Clock>(
    node: &N,
    rt: &W,
    post: &mut P,
    clock: &mut C,
    round: &mut Round,
) -> Duration {
    let hold = round.kept.pace.gathers(rt);
    if hold == Duration::ZERO {
        round.kept.pace.begin_group();
    }
    let slow = round.kept.pace.is_slow();
    let start = Instant::now(rt).ok();
    let mut post = Watched {
        post,
        kept: &mut round.kept,
    };
    let pause = round.chores.tend(node, rt, &mut post, clock, slow, hold);
    if round.chores.took_group() {
        round.kept.pace.end_group(rt, start);
    } else {
        round.kept.pace.end_other(rt, start);
    }
    if round.gathered.is_some() {
        pause.min(round.kept.pace.gathers(rt))
    } else {
        pause
    }
}

// Takes the reads that wait, in the order in which they came.
fn take_reads<N: Serves, W: Wait + time::Clock, P: Post, C: Clock, G: Gate>(
    node: &N,
    rt: &W,
    post: &mut P,
    clock: &mut C,
    gate: &G,
    round: &mut Round,
) {
    for _read in 0..LETTERS_IN_A_ROW {
        let Some(letter) = round.reads.next(rt, &round.turns) else {
            return;
        };
        take(node, rt, post, clock, gate, round, letter);
    }
}

// Takes a letter. With a read it takes the reads that wait and whose turn it is, one by one. With another message it takes together those that
// are there besides. Returns whether more are taken.
fn take_next<N: Serves, W: Wait + time::Clock, P: Post, C: Clock, G: Gate>(
    node: &N,
    rt: &W,
    inbox: &Receiver<Letter>,
    post: &mut P,
    clock: &mut C,
    gate: &G,
    round: &mut Round,
    letter: Letter,
) -> bool {
    round.kept.pace.hear(rt);
    match &letter {
        Letter::Look => take(node, rt, post, clock, gate, round, letter),
        Letter::Close => {
            take_gathered(node, rt, post, clock, gate, round);
            take(node, rt, post, clock, gate, round, letter)
        }
        Letter::Carry(Message::Read(_)) | Letter::Again(Message::Read(_), _) => {
            take(node, rt, post, clock, gate, round, letter);
            take_reads(node, rt, post, clock, gate, round);
            true
        }
        Letter::Carry(_) | Letter::Again(_, _) => {
            gather(node, rt, inbox, post, clock, gate, round, letter)
        }
    }
}

// Gathers a message that is no read, and those that are there besides. If there is no memory for that, it is taken by itself. Returns whether
// more are taken.
fn gather<N: Serves, W: Wait + time::Clock, P: Post, C: Clock, G: Gate>(
    node: &N,
    rt: &W,
    inbox: &Receiver<Letter>,
    post: &mut P,
    clock: &mut C,
    gate: &G,
    round: &mut Round,
    letter: Letter,
) -> bool {
    let gathered = match round.gathered.take() {
        Some(batch) => Some(batch),
        None => Batch::none(node.alloc()),
    };
    let Some(mut batch) = gathered else {
        return take(node, rt, post, clock, gate, round, letter);
    };
    batch.fill(rt, &mut round.reads, inbox, &mut round.kept.pace, letter);
    if round.kept.pace.gathers(rt) > Duration::ZERO {
        batch.hold_turns(rt, &mut round.turns);
    }
    round.gathered = Some(batch);
    true
}

// Takes the letters that were gathered, if there are any.
fn take_gathered<N: Serves, W: Wait + time::Clock, P: Post, C: Clock, G: Gate>(
    node: &N,
    rt: &W,
    post: &mut P,
    clock: &mut C,
    gate: &G,
    round: &mut Round,
) {
    let Some(batch) = round.gathered.take() else {
        return;
    };
    let start = Instant::now(rt).ok();
    batch.end_turns(&mut round.turns, &mut round.reads);
    round.kept.pace.begin_group();
    let first = round.n;
    round.n = take_all(node, rt, post, clock, gate, &mut round.kept, first, batch);
    round.in_a_row = round.in_a_row.saturating_add(round.n.saturating_sub(first));
    round.chores.took_letter(rt);
    round.kept.pace.end_group(rt, start);
    if let (Some(start), Ok(end)) = (start, Instant::now(rt)) {
        round.turns.note_pace(end.duration_since(start));
    }
}

// Takes a letter by itself, which is the next one of the gate. Returns whether more are taken. The word that a reader got `NotYet` only
// wakes the node.
fn take<N: Serves, W: Wait + time::Clock, P: Post, C: Clock, G: Gate>(
    node: &N,
    rt: &W,
    post: &mut P,
    clock: &mut C,
    gate: &G,
    round: &mut Round,
    letter: Letter,
) -> bool {
    round.in_a_row = round.in_a_row.saturating_add(1);
    gate.before(node.shard(), round.n);
    let goes_on = match letter {
        Letter::Carry(message) => {
            take_message(node, rt, post, clock, round, message, None);
            true
        }
        Letter::Again(message, asked) => {
            take_message(node, rt, post, clock, round, message, Some(asked));
            true
        }
        Letter::Look => true,
        Letter::Close => false,
    };
    gate.after(node.shard(), round.n);
    if round.n < Stamp::MAX {
        round.n += 1;
    }
    goes_on
}

// Takes a message, which a session may have sent again.
fn take_message<N: Serves, W: Wait + time::Clock, P: Post, C: Clock>(
    node: &N,
    rt: &W,
    post: &mut P,
    clock: &mut C,
    round: &mut Round,
    message: Message,
    asked: Option<u64>,
) {
    if let Message::Read(read) = &message {
        round.turns.begin(rt, read);
        round.kept.pace.begins(read.txn);
    }
    let input = Input::Deliver(message);
    round.kept.take(node, rt, post, clock, &input, asked);
    drop(input);
    round.chores.took_letter(rt);
}
