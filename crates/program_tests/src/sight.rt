//! What is seen of a run, as plain numbers.
use lives::{Life, RunShard};
use message::{Address, Envelope, Message};

/// A message, by the number of the transaction that it is about, or 0.
#[derive(Clone, Copy)]
pub struct Sent {
    /// The shard that it is for, or 255 if it is for a session.
    pub shard: u8,
    /// The transaction of a commit or a vote, which is for its coordinator.
    pub coordinator: u64,
    /// The transaction of a prepare, which asks a part to promise.
    pub part: u64,
    /// The transaction of a reader that is answered.
    pub reader: u64,
}

/// A message for a session that is none of these.
pub static OTHER: Sent = Sent {
    shard: u8::MAX,
    coordinator: 0,
    part: 0,
    reader: 0,
};

/// Sees a message as numbers.
pub fn sent_of(envelope: &Envelope) -> Sent {
    let mut sent = OTHER;
    if let Address::Shard(shard) = envelope.to {
        sent.shard = shard.number();
    }
    match &envelope.message {
        Message::Commit(asked) => sent.coordinator = asked.txn.number(),
        Message::Vote(vote) => sent.coordinator = vote.txn.number(),
        Message::Prepare(asked) => sent.part = asked.txn.number(),
        Message::ReadAnswer(answer) => sent.reader = answer.txn.number(),
        _ => {}
    }
    sent
}

/// A shard of a run.
#[derive(Clone, Copy)]
pub struct Seen {
    /// Its core is up.
    pub is_up: bool,
    /// It is down.
    pub is_down: bool,
    /// How many views it made.
    pub views: u64,
    /// The first transaction that it has decided to commit and not settled, or 0.
    pub decided: u64,
    /// The time that it serves, or 0 while it is down.
    pub safe: u64,
}

/// What is seen of a run.
#[derive(Clone, Copy)]
pub struct Sight<'s> {
    /// The messages that were put out.
    pub sent: &'s [Sent],
    /// Its first three shards.
    pub shards: [Seen; 3],
}

impl Sight<'_> {
    /// Finds the first shard that is not up.
    pub fn resting(&self) -> Option<u8> {
        for number in 0..3 {
            if !self.shards[number as usize].is_up {
                return Some(number);
            }
        }
        None
    }

    /// Finds the first shard with a decision that is not settled, and its transaction, or 0.
    pub fn unsettled(&self) -> (u8, u64) {
        for number in 0..3 {
            let decided = self.shards[number as usize].decided;
            if decided > 0 {
                return (number, decided);
            }
        }
        (0, 0)
    }

    /// Finds the first message for a shard among the eight from a number on.
    pub fn next_for(&self, shard: u8, first: u64) -> Option<u64> {
        for number in first..first.saturating_add(8) {
            match self.sent.get(number as usize) {
                Some(sent) if sent.shard == shard => return Some(number),
                _ => {}
            }
        }
        None
    }
}

// The shard of a number. One that there is not needs no opening.
fn seen_at(shards: &[RunShard], number: usize) -> Seen {
    let mut seen = Seen {
        is_up: true,
        is_down: false,
        views: 0,
        decided: 0,
        safe: 0,
    };
    if let Some(shard) = shards.get(number) {
        seen.is_up = shard.is_up();
        seen.is_down = shard.is_down();
        seen.views = shard.views();
        if let Life::Up(core) = &shard.life {
            seen.safe = core.safe().micros();
            if let Some((txn, _)) = core.decided(0) {
                seen.decided = txn.number();
            }
        }
    }
    seen
}

/// Sees the first three shards as numbers.
pub fn seen_of(shards: &[RunShard]) -> [Seen; 3] {
    [seen_at(shards, 0), seen_at(shards, 1), seen_at(shards, 2)]
}

/// Adds the messages after those that were seen. Returns `false` if there is no memory for them.
pub fn push_sent(sent: &mut Vec<Sent>, envelopes: &[Envelope]) -> bool {
    for number in sent.len()..envelopes.len() {
        if sent.push(sent_of(&envelopes[number])).is_err() {
            return false;
        }
    }
    true
}
