//! The laws of a step's versions and of the served time.
ghost use Rattle.protocol.specs.Step.{IsInLimit};
ghost use Rattle.std.specs.Prelude.{IsTrue};
ghost use Rattle.protocol.specs.Showable.{FreshIsShowable, StepKeepsShowable, TakenIsShowable, WritesAscend, record_ascends};

use message::{Input, Message};
use record::Record;

/// Says that no step lets the served time fall. What a step installs is above it, and above its key's earlier versions.
pub fn step_keeps_showable()
    ensures { StepKeepsShowable }
{}

/// Says that the versions of a fresh shard may be put on a board.
pub fn fresh_is_showable()
    ensures { FreshIsShowable }
{}

/// Says that the versions which a log leaves may be put on a board, if the log is accepted.
pub fn taken_is_showable()
    ensures { TakenIsShowable }
{}

/// Says that the writes of a promise or a decision ascend by key.
pub fn record_ascends(item: &Record)
    ensures { IsTrue (record_ascends item.now) }
{
    match item {
        Record::Prepare(prepared) => {
            let _ = prepared.writes.as_slice();
        }
        Record::Commit(committed) => {
            let _ = committed.writes.as_slice();
        }
        _ => {}
    }
}

/// Says that the writes of an input ascend by key, and that the timestamp which it names is within the limit.
pub fn writes_ascend(input: &Input)
    ensures order { WritesAscend input.now }
    ensures limit { IsInLimit input.now }
{
    match input {
        Input::Deliver(Message::Prepare(prepare)) => {
            let _ = prepare.writes.as_slice();
        }
        Input::Deliver(Message::Commit(commit)) => {
            let _ = commit.writes.as_slice();
        }
        Input::Advance(at) | Input::Forget(at) => {
            let _ = at.micros();
        }
        _ => {}
    }
}
