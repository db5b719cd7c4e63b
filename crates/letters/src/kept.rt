//! Transactions that a node keeps waiting, since others have their keys.
use crate::acts::{deliver, hand_on};
use crate::bell::left;
use crate::letter::{Post, Refused, UnderWay};
use crate::pace::Pace;
use crate::serves::Serves;
use message::{Envelope, Input, Message, Outbox, Read};
use std::alloc::Global;
use std::sync::Wait;
use std::time;
use std::time::{Duration, Instant};
use truetime::Clock;
use units::{Key, ShardNo, Stamp, TxnId};

// So many are kept in mind. The session of another one hears when it asks again.
const MOST: usize = 1_024;

// For so long a node does not look after them again.
fn moment() -> Duration {
    Duration::from_millis(1)
}

/// Transactions that wait with a read or a commit, each with a key that it waits for. It also notes whether another transaction has closed
/// since the node looked after them, and when it did that.
///
/// A transaction that closes may end some of them, and a node tells nobody of that. So the node is asked to read the key for each of them
/// again. It answers that it refuses if it has ended the transaction, and nothing while that waits.
#[derive(Drop)]
pub struct Kept {
    reads: Vec<Read>,
    disturbed: bool,
    looked: Option<Instant>,
    /// How long groups take, and whom the node has answered.
    pub pace: Pace,
}

impl Kept {
    /// Begins with none that waits.
    pub fn none(alloc: Global) -> Kept {
        Kept {
            reads: Vec::new(alloc),
            disturbed: false,
            looked: None,
            pace: Pace::none(alloc),
        }
    }

    // Notes that one more waits. It passes over it if 1,024 wait already, or there is no memory.
    fn add(&mut self, read: Read) {
        if self.reads.len() < MOST && !self.has(&read) {
            drop(self.reads.push(read));
        }
    }

    // Whether it waits already.
    fn has(&self, read: &Read) -> bool {
        for kept in self.reads.iter() {
            if kept.txn == read.txn && kept.key == read.key {
                return true;
            }
        }
        false
    }

    /// Gives the node an input, whose letter a session may have sent again. If its transaction waits with it, that is kept in mind.
    pub fn take<N: Serves, W: Wait, P: Post, C: Clock>(
        &mut self,
        node: &N,
        rt: &W,
        post: &mut P,
        clock: &mut C,
        input: &Input,
        asked: Option<u64>,
    ) {
        let waits = self.see_input(input);
        let mut post = Watched { post, kept: self };
        let keeps = deliver(node, rt, &mut post, clock, input, asked);
        if let (true, Some(read)) = (keeps, waits) {
            self.add(read);
        }
    }

    /// Hands on what an input has put out, whose letter a session may have sent again. If its transaction waits with it, that is kept in
    /// mind.
    pub fn answer<N: Serves, W: Wait, P: Post>(
        &mut self,
        node: &N,
        rt: &W,
        post: &mut P,
        input: &Input,
        outbox: Outbox,
        asked: Option<u64>,
    ) {
        let waits = self.see_input(input);
        let mut post = Watched { post, kept: self };
        let keeps = hand_on(node, rt, &mut post, input, outbox, asked);
        if let (true, Some(read)) = (keeps, waits) {
            self.add(read);
        }
    }

    // Looks at the message of an input, if it is one.
    fn see_input(&mut self, input: &Input) -> Option<Read> {
        match input {
            Input::Deliver(message) => self.see(message),
            _ => None,
        }
    }

    // Looks at a message that is about to be taken. A transaction that closes no longer waits with a read, and may end others. Returns the
    // key with which the transaction waits, if the node keeps the message.
    fn see(&mut self, message: &Message) -> Option<Read> {
        match message {
            Message::Read(read) => Some(*read),
            Message::Commit(commit) => {
                self.closes(commit.txn);
                let key = commit.writes.as_slice().first()?.key;
                Some(Read {
                    txn: commit.txn,
                    key,
                })
            }
            Message::Prepare(prepare) => {
                self.closes(prepare.txn);
                None
            }
            Message::GiveUp(given) => {
                self.closes(given.txn);
                None
            }
            _ => None,
        }
    }

    // The transaction closes.
    fn closes(&mut self, txn: TxnId) {
        self.disturbed = true;
        self.forget(txn, None);
    }

    // The transaction waits no more with a read: of this key, or of any.
    fn forget(&mut self, txn: TxnId, key: Option<Key>) {
        let mut at = 0;
        for _read in 0..self.reads.len() {
            match self.reads.get(at) {
                Some(read) if read.txn == txn && (key.is_none() || key == Some(read.key)) => {
                    drop(self.reads.remove(at));
                }
                Some(_) => at += 1,
                None => return,
            }
        }
    }

    /// Tells for how long nobody has to look after them, `pause` at most.
    pub fn pause<W: time::Clock>(&self, rt: &W, pause: Duration) -> Duration {
        if !self.disturbed || self.reads.is_empty() {
            return pause;
        }
        pause.min(left(rt, self.looked, moment()))
    }

    /// Asks the node for them again if it may have ended some of them, but at most once a millisecond.
    pub fn look_after<N: Serves, W: Wait + time::Clock, P: Post, C: Clock>(
        &mut self,
        node: &N,
        rt: &W,
        post: &mut P,
        clock: &mut C,
    ) {
        if !self.disturbed || left(rt, self.looked, moment()) > Duration::ZERO {
            return;
        }
        self.disturbed = false;
        self.looked = Instant::now(rt).ok();
        let mut at = 0;
        for _read in 0..self.reads.len() {
            let Some(read) = self.reads.get(at) else {
                return;
            };
            let again = Input::Deliver(Message::Read(*read));
            if deliver(node, rt, post, clock, &again, None) {
                at += 1;
            } else {
                drop(self.reads.remove(at));
            }
        }
    }
}

/// A post that also takes those out of `kept` whose answer goes by.
#[derive(Drop)]
pub struct Watched<'p, P> {
    /// The post that takes messages on.
    pub post: &'p mut P,
    /// The transactions that wait.
    pub kept: &'p mut Kept,
}

impl<P: Post> Post for Watched<'_, P> {
    fn post(&mut self, envelope: Envelope) {
        self.kept.pace.answered(&envelope);
        match &envelope.message {
            Message::ReadAnswer(answer) => self.kept.forget(answer.txn, Some(answer.key)),
            Message::Done(done) => self.kept.forget(done.txn(), None),
            _ => {}
        }
        self.post.post(envelope);
    }

    fn refuse(&mut self, refused: Refused) {
        self.post.refuse(refused);
    }

    fn lack_memory(&mut self) {
        self.post.lack_memory();
    }

    fn assure(&mut self, under_way: UnderWay) {
        self.post.assure(under_way);
    }

    fn is_looked_for(&self, shard: ShardNo) -> bool {
        self.post.is_looked_for(shard)
    }

    fn silence(&mut self, shard: ShardNo) {
        self.post.silence(shard);
    }

    fn tell(&mut self, shard: ShardNo, served: Stamp) {
        self.post.tell(shard, served);
    }
}
