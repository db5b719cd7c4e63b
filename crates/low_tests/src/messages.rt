//! Messages as they are printed, and the bag that takes them.
use crate::checks::is_printed;
use crate::text_logs::{keys_of, parts_of, value_of, writes_of};
use made::{WrongRows, id, key, shard, stamp};
use message::{
    Address, Answer, Ask, Bag, Commit, Done, Envelope, GiveUp, Message, Outcome, Prepare, Read,
    ReadAnswer, Reads, Vote,
};
use std::alloc::Global;
use texts::Text;
use units::{Epoch, ShardNo};

// The messages of a session, and then those of a shard.
enum Sent {
    Read,
    // With an epoch, and the keys that are read in it.
    Prepare(u64, &'static str),
    Commit,
    // By transaction 1.n.
    GiveUp(u16),
    Vote,
    RefusedVote,
    Outcome,
    Ask,
    NoValue,
    Value,
    RefusedRead,
    Done,
}

struct Row {
    sent: Sent,
    // To this shard, or else to the session.
    shard: Option<u8>,
    line: &'static str,
}

static ROWS: [Row; 16] = [
    Row {
        sent: Sent::Read,
        shard: Some(2),
        line: "shard 2 read 1.2 a",
    },
    Row {
        sent: Sent::Prepare(3, "z"),
        shard: Some(2),
        line: "shard 2 prepare 1.2 0 3 z y=1,z!",
    },
    Row {
        sent: Sent::Prepare(1, "z"),
        shard: Some(2),
        line: "shard 2 prepare 1.2 0 1 z y=1,z!",
    },
    Row {
        sent: Sent::Prepare(1, "-"),
        shard: Some(2),
        line: "shard 2 prepare 1.2 0 0 - y=1,z!",
    },
    Row {
        sent: Sent::Commit,
        shard: Some(2),
        line: "shard 2 commit 1.2 0,1 0 - a=1",
    },
    Row {
        sent: Sent::GiveUp(2),
        shard: Some(2),
        line: "shard 2 giveup 1.2",
    },
    Row {
        sent: Sent::GiveUp(5),
        shard: Some(0),
        line: "shard 0 giveup 1.5",
    },
    Row {
        sent: Sent::GiveUp(7),
        shard: Some(0),
        line: "shard 0 giveup 1.7",
    },
    Row {
        sent: Sent::Vote,
        shard: None,
        line: "session 1.2 vote 1 1.2 yes 200",
    },
    Row {
        sent: Sent::RefusedVote,
        shard: None,
        line: "session 1.2 vote 1 1.2 refused",
    },
    Row {
        sent: Sent::Outcome,
        shard: None,
        line: "session 1.2 outcome 1 1.2 committed 200",
    },
    Row {
        sent: Sent::Ask,
        shard: None,
        line: "session 1.2 ask 1 1.2",
    },
    Row {
        sent: Sent::NoValue,
        shard: None,
        line: "session 1.2 answer 1 1.2 a 3 none",
    },
    Row {
        sent: Sent::Value,
        shard: None,
        line: "session 1.2 answer 1 1.2 a 3 =7",
    },
    Row {
        sent: Sent::RefusedRead,
        shard: None,
        line: "session 1.2 answer 1 1.2 a 3 refused",
    },
    Row {
        sent: Sent::Done,
        shard: None,
        line: "session 1.2 done 1.2 aborted",
    },
];

fn epoch(number: u64) -> Epoch {
    Epoch::new(number).unwrap_or(Epoch::first())
}

// Makes the reads of these keys in an epoch, or none if there is no key.
fn reads(alloc: Global, number: u64, keys: &str) -> Reads {
    match Reads::new(epoch(number), keys_of(alloc, keys)) {
        Ok(reads) => reads,
        Err(_) => Reads::none(alloc),
    }
}

fn answer(answer: Answer) -> Message {
    Message::ReadAnswer(ReadAnswer {
        from: shard(1),
        txn: id(2),
        key: key(b'a'),
        epoch: epoch(3),
        answer,
    })
}

fn message(alloc: Global, sent: &Sent) -> Message {
    let (txn, from, at) = (id(2), shard(1), Some(stamp(200)));
    match sent {
        Sent::Read => Message::Read(Read {
            txn,
            key: key(b'a'),
        }),
        Sent::Prepare(number, keys) => Message::Prepare(Prepare {
            txn,
            coordinator: shard(0),
            reads: reads(alloc, *number, *keys),
            writes: writes_of(alloc, "y=1,z!"),
        }),
        Sent::Commit => Message::Commit(Commit {
            txn,
            parts: parts_of("0,1"),
            reads: Reads::none(alloc),
            writes: writes_of(alloc, "a=1"),
        }),
        Sent::GiveUp(number) => Message::GiveUp(GiveUp { txn: id(*number) }),
        Sent::Vote => Message::Vote(Vote {
            from,
            txn,
            vote: at,
        }),
        Sent::RefusedVote => Message::Vote(Vote {
            from,
            txn,
            vote: None,
        }),
        Sent::Outcome => Message::Outcome(Outcome {
            from,
            txn,
            outcome: at,
        }),
        Sent::Ask => Message::Ask(Ask { from, txn }),
        Sent::NoValue => answer(Answer::Holds(None)),
        Sent::Value => answer(Answer::Holds(value_of(alloc, "7"))),
        Sent::RefusedRead => answer(Answer::Refused),
        Sent::Done => Message::Done(Done::aborted(txn)),
    }
}

fn envelope(alloc: Global, row: &Row) -> Envelope {
    let to = match row.shard {
        // No line is to shard 15.
        Some(number) => Address::Shard(ShardNo::new(number).unwrap_or(shard(15))),
        None => Address::Session(id(2)),
    };
    Envelope {
        to,
        message: message(alloc, &row.sent),
    }
}

// Puts a message into the bag, and tells whether it gets the next number.
fn is_put(bag: &mut Bag, envelope: Envelope) -> bool {
    let number = bag.len();
    match bag.put(envelope) {
        Ok(found) => found == number,
        Err(_) => false,
    }
}

fn has(alloc: Global, bag: &Bag, number: u64, line: &str) -> bool {
    match bag.nth(number) {
        Some(envelope) => is_printed(alloc, &Text(envelope), line),
        None => false,
    }
}

/// Checks all rows, in one bag. Messages have numbers from 0 on.
pub fn go_over(wrong: &mut WrongRows, alloc: Global) {
    let mut bag = Bag::new(alloc);
    wrong.unless(bag.len() == 0, "no message");
    for row in &ROWS {
        wrong.unless(is_put(&mut bag, envelope(alloc, row)), row.line);
    }
    for (number, row) in ROWS.iter().enumerate() {
        wrong.unless(has(alloc, &bag, number as u64, row.line), row.line);
    }
    wrong.unless(bag.len() == 16 && bag.nth(16).is_none(), "16 messages");
    drop(bag);
}
