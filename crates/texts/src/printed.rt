//! The words of what is printed.
use crate::printed::Word::{
    Key, Keys, Number, Outcome, Parts, Plain, Shard, Stamp, Txn, Value, Version, Writes,
};
use message::{Address, Answer, Commit, Message, Prepare};
use record::Record;
use units::{Line, ShardNo, TxnId};

/// A word of a line that is printed, or none.
#[derive(Clone, Copy)]
pub enum Word<'t> {
    Nothing,
    Plain(&'t str),
    Number(u64),
    Shard(ShardNo),
    Txn(TxnId),
    Stamp(units::Stamp),
    Key(&'t units::Key),
    Keys(&'t units::Keys),
    Writes(&'t units::Writes),
    Version(&'t units::Install),
    Parts(&'t units::Parts),
    Value(&'t Option<units::Value>),
    Outcome(Option<units::Stamp>),
}

const NO: Word<'static> = Word::Nothing;

/// Gives the words of a record.
pub fn record_words(record: &Record) -> [Word<'_>; 6] {
    match record {
        Record::Opened { epoch } => [Plain("opened"), Number(epoch.number()), NO, NO, NO, NO],
        Record::Ceiling { at } => [Plain("ceiling"), Stamp(*at), NO, NO, NO, NO],
        Record::Prepare(p) => [
            Plain("prepare"),
            Txn(p.txn),
            Shard(p.coordinator),
            Stamp(p.at),
            Keys(&p.reads),
            Writes(&p.writes),
        ],
        Record::Commit(c) => [
            Plain("commit"),
            Txn(c.txn),
            Stamp(c.at),
            Parts(&c.parts),
            Keys(&c.reads),
            Writes(&c.writes),
        ],
        Record::Abort { txn } => [Plain("abort"), Txn(*txn), NO, NO, NO, NO],
        Record::Outcome { txn, outcome } => [
            Plain("outcome"),
            Txn(*txn),
            Outcome(*outcome),
            NO,
            NO,
            NO,
        ],
        Record::Horizon { at } => [Plain("horizon"), Stamp(*at), NO, NO, NO, NO],
        Record::Base {
            epoch,
            floor,
            horizon,
        } => [
            Plain("base"),
            Number(epoch.number()),
            Stamp(*floor),
            Stamp(*horizon),
            NO,
            NO,
        ],
        Record::Version(version) => [
            Plain("version"),
            Stamp(version.at),
            Version(version),
            NO,
            NO,
            NO,
        ],
        Record::Settled { txn, at, parts } => [
            Plain("settled"),
            Txn(*txn),
            Stamp(*at),
            Parts(parts),
            NO,
            NO,
        ],
        Record::Closed {
            txn,
            coordinator,
            outcome,
        } => [
            Plain("closed"),
            Txn(*txn),
            Shard(*coordinator),
            Outcome(*outcome),
            NO,
            NO,
        ],
        Record::Retired { below } => [Plain("retired"), Txn(*below), NO, NO, NO, NO],
    }
}

/// Gives the words of where a message goes.
pub fn address_words(address: Address) -> [Word<'static>; 2] {
    match address {
        Address::Shard(shard) => [Plain("shard"), Shard(shard)],
        Address::Session(txn) => [Plain("session"), Txn(txn)],
    }
}

/// Gives the words of a message.
pub fn message_words(message: &Message) -> [Word<'_>; 6] {
    match message {
        Message::Read(m) => [Plain("read"), Txn(m.txn), Key(&m.key), NO, NO, NO],
        Message::Prepare(m) => prepare_words(m),
        Message::Commit(m) => commit_words(m),
        Message::GiveUp(m) => [Plain("giveup"), Txn(m.txn), NO, NO, NO, NO],
        Message::Vote(m) => {
            let (vote, at) = match m.vote {
                Some(at) => (Plain("yes"), Stamp(at)),
                None => (Plain("refused"), NO),
            };
            [Plain("vote"), Shard(m.from), Txn(m.txn), vote, at, NO]
        }
        Message::Outcome(m) => [
            Plain("outcome"),
            Shard(m.from),
            Txn(m.txn),
            Outcome(m.outcome),
            NO,
            NO,
        ],
        Message::Ask(m) => [Plain("ask"), Shard(m.from), Txn(m.txn), NO, NO, NO],
        Message::ReadAnswer(m) => {
            let answer = match &m.answer {
                Answer::Holds(value) => Value(value),
                Answer::Refused => Plain("refused"),
            };
            [
                Plain("answer"),
                Shard(m.from),
                Txn(m.txn),
                Key(&m.key),
                Number(m.epoch.number()),
                answer,
            ]
        }
        Message::Done(m) => [
            Plain("done"),
            Txn(m.txn()),
            Outcome(m.outcome()),
            NO,
            NO,
            NO,
        ],
    }
}

fn prepare_words(m: &Prepare) -> [Word<'_>; 6] {
    [
        Plain("prepare"),
        Txn(m.txn),
        Shard(m.coordinator),
        Number(m.reads.epoch()),
        Keys(m.reads.keys()),
        Writes(&m.writes),
    ]
}

fn commit_words(m: &Commit) -> [Word<'_>; 6] {
    [
        Plain("commit"),
        Txn(m.txn),
        Parts(&m.parts),
        Number(m.reads.epoch()),
        Keys(m.reads.keys()),
        Writes(&m.writes),
    ]
}

/// Gives the words of a line of a report.
pub fn line_words(line: &Line) -> [Word<'_>; 4] {
    match line {
        Line::Begin(txn, moment) => [Plain("begin"), Txn(*txn), Number(*moment), NO],
        Line::Ack(txn, at, moment) => [Plain("ack"), Txn(*txn), Stamp(*at), Number(*moment)],
        Line::Read(txn, key, value) => [Plain("read"), Txn(*txn), Key(key), Value(value)],
        Line::Look(key, at, value) => [Plain("look"), Key(key), Stamp(*at), Value(value)],
    }
}
