//! What looks and reports show, and the verdict on a report.
use crate::{Key, Stamp, TxnId, Value};

/// What a look saw: no value, or a value of so many bytes at the front of the buffer.
#[derive(Clone, Copy, PartialEq, Eq)]
pub enum Seen {
    Absent,
    Value(usize),
}

/// A line of a report, in the order of events. `Begin`: a transaction began, at the event of this number. `Ack`: its
/// commit at a timestamp was acknowledged, at the event of this number. `Read`: a transaction read a key. `Look`: a
/// look at a key and a timestamp was answered.
pub enum Line {
    Begin(TxnId, u64),
    Ack(TxnId, Stamp, u64),
    Read(TxnId, Key, Option<Value>),
    Look(Key, Stamp, Option<Value>),
}

impl Drop for Line {
    fn drop(self) {
        match self {
            Line::Begin(_, _) | Line::Ack(_, _, _) => {}
            Line::Read(_, _, value) => drop(value),
            Line::Look(_, _, value) => drop(value),
        }
    }
}

/// The verdict on logs and the lines of a report: `Yes`, or the first fault. `Torn`: the transaction of this id is
/// not whole. `Lost`: the acknowledged commit of this id is missing. `WrongRead`: the line at this place shows a
/// wrong value. `WrongOrder`: the begin line at one place and the earlier acknowledgement at the other are out of
/// order. Places count from 0.
#[derive(Clone, Copy)]
pub enum Verdict {
    Yes,
    Torn(TxnId),
    Lost(TxnId),
    WrongRead(u64),
    WrongOrder(u64, u64),
}
