//! The events of a schedule, line by line.
use crate::forms::{FORMS, Happening};
use playing::{Act, Doing, Event};
use std::alloc::Global;
use texts::{NO_WORD, Values, number, value};
use units::Fault;

/// Reads the event of a line: its true time, and what happens.
pub fn event(alloc: Global, words: &[&str]) -> Result<Event, Fault> {
    let [time, words @ ..] = words else {
        return Err(NO_WORD);
    };
    let time = number(time)?;
    let mut values = Values::none();
    let act = match values.read_form(&FORMS, words) {
        Some((Happening::Write, [word])) => {
            let value = value(alloc, word)?;
            Act::Write(values.txn, values.key, Some(value))
        }
        Some((happening, [])) => act(happening, &values)?,
        Some((happening, words)) => stop_in(happening, &values, words)?,
        None => return Err(NO_WORD),
    };
    Ok(Event { time, act })
}

// What happens, if no more words follow its own.
fn act(happening: Happening, values: &Values) -> Result<Act, Fault> {
    match happening {
        Happening::Begin => Ok(Act::Begin(values.txn)),
        Happening::Close => Ok(Act::Close(values.txn)),
        Happening::Quit => Ok(Act::Quit(values.txn)),
        Happening::Read => Ok(Act::Read(values.txn, values.key)),
        Happening::Erase => Ok(Act::Write(values.txn, values.key, None)),
        Happening::Deliver => Ok(Act::Deliver(values.number, values.reading)),
        Happening::Look => Ok(Act::Look(values.shard, values.key, values.stamp)),
        Happening::View => Ok(Act::View(values.shard, values.number, values.key, values.stamp)),
        Happening::Crash => Ok(Act::Crash(values.shard)),
        _ => match doing(happening, values) {
            Some(doing) => Ok(Act::At(values.shard, doing)),
            None => Err(NO_WORD),
        },
    }
}

// A crash or a failure in the step that the words after its own tell. If they name no shard, as those of a delivery, it is the same one.
fn stop_in(happening: Happening, stop: &Values, words: &[&str]) -> Result<Act, Fault> {
    let mut values = *stop;
    let Some((inner, [])) = values.read_form(&FORMS, words) else {
        return Err(NO_WORD);
    };
    let Some(doing) = doing(inner, &values) else {
        return Err(NO_WORD);
    };
    match happening {
        Happening::CrashIn => Ok(Act::CrashIn(
            stop.shard,
            stop.number,
            stop.fate,
            values.shard,
            doing,
        )),
        Happening::FailIn => Ok(Act::FailIn(stop.shard, stop.number, values.shard, doing)),
        _ => Err(NO_WORD),
    }
}

// What a shard does.
fn doing(happening: Happening, values: &Values) -> Option<Doing> {
    match happening {
        Happening::Deliver => Some(Doing::Take(values.number, values.reading)),
        Happening::Resume => Some(Doing::Resume(values.reading)),
        Happening::Settle => Some(Doing::Settle(values.txn, values.reading)),
        Happening::Advance => Some(Doing::Advance(values.stamp, values.reading)),
        Happening::Nudge => Some(Doing::Nudge(values.txn, values.reading)),
        Happening::Forget => Some(Doing::Forget(values.stamp, values.reading)),
        Happening::Retire => Some(Doing::Retire(values.txn, values.reading)),
        Happening::Turn => Some(Doing::Turn),
        Happening::Open => Some(Doing::Open),
        _ => None,
    }
}
