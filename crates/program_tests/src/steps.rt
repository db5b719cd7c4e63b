//! Steps of a run as plain numbers, and what they come to: transactions of run 1 by their numbers, keys and values of one byte.
use commands::{Report, play};
use disk::Fate;
use std::alloc::Global;
use truetime::Reading;
use units::{Fault, Key, ShardNo, Splits, Stamp, Stride, TxnId, Value};
use world::{Act, Config, Doing, Event};

/// What happens, or, from `Take` on, what a shard does. `Take` is the delivery of a message to it.
#[derive(Clone, Copy)]
pub enum Does {
    Begin,
    Read,
    Write,
    Erase,
    Close,
    Quit,
    Deliver,
    Look,
    View,
    Crash,
    Take,
    Resume,
    Settle,
    Advance,
    Nudge,
    Forget,
    Turn,
    Open,
}

/// What befalls a shard in what it does: nothing, a crash in a device call, or the failure of one.
#[derive(Clone, Copy)]
pub enum Stop {
    /// Nothing.
    Never,
    /// A crash in the device call of this number, with the fate of the write under way.
    CrashIn(u64, Fate),
    /// The failure of the device call of this number.
    FailIn(u64),
}

/// A step, as plain numbers. What it does says which of them count.
#[derive(Clone, Copy)]
pub struct Step {
    /// The true time at which it happens.
    pub time: u64,
    /// What happens.
    pub does: Does,
    /// What befalls the shard in it.
    pub stop: Stop,
    /// The shard that does it.
    pub shard: u8,
    /// The number of the transaction, of run 1.
    pub txn: u64,
    /// The key, of one byte.
    pub key: u8,
    /// The value, of one byte.
    pub value: u8,
    /// The number of a message or a view.
    pub number: u64,
    /// The timestamp of a look, an advance or a horizon.
    pub at: u64,
    /// The earliest of the reading.
    pub earliest: u64,
    /// The latest of the reading.
    pub latest: u64,
}

/// The first step of a list, of which a drawn one makes the next.
pub static FIRST: Step = Step {
    time: 1_000,
    does: Does::Begin,
    stop: Stop::Never,
    shard: 0,
    txn: 0,
    key: b'a',
    value: b'0',
    number: 0,
    at: 0,
    earliest: 0,
    latest: 0,
};

// The number of a transaction that no list begins.
const UNBEGUN: u64 = 1_000_000_000;

// What a shard does.
fn doing(step: &Step, txn: TxnId, at: Stamp, now: Reading) -> Doing {
    match step.does {
        Does::Take => Doing::Take(step.number, now),
        Does::Settle => Doing::Settle(txn, now),
        Does::Advance => Doing::Advance(at, now),
        Does::Nudge => Doing::Nudge(txn, now),
        Does::Forget => Doing::Forget(at, now),
        Does::Turn => Doing::Turn,
        Does::Open => Doing::Open,
        _ => Doing::Resume(now),
    }
}

// What happens, if the numbers are within their limits.
fn act(alloc: Global, step: &Step) -> Result<Act, Fault> {
    let (Some(txn), Some(shard)) = (TxnId::new(1, step.txn), ShardNo::new(step.shard)) else {
        return Err(Fault::Stranger);
    };
    let key = Key::new(&[step.key])?;
    let at = Stamp::new(step.at)?;
    let now = Reading::new(Stamp::new(step.earliest)?, Stamp::new(step.latest)?)?;
    Ok(match step.does {
        Does::Begin => Act::Begin(txn),
        Does::Read => Act::Read(txn, key),
        Does::Write => Act::Write(txn, key, Some(Value::new(alloc, &[step.value])?)),
        Does::Erase => Act::Write(txn, key, None),
        Does::Close => Act::Close(txn),
        Does::Quit => Act::Quit(txn),
        Does::Deliver => Act::Deliver(step.number, now),
        Does::Look => Act::Look(shard, key, at),
        Does::View => Act::View(shard, step.number, key, at),
        Does::Crash => Act::Crash(shard),
        _ => match step.stop {
            Stop::Never => Act::At(shard, doing(step, txn, at, now)),
            Stop::CrashIn(call, fate) => {
                Act::CrashIn(shard, call, fate, shard, doing(step, txn, at, now))
            }
            Stop::FailIn(call) => Act::FailIn(shard, call, shard, doing(step, txn, at, now)),
        },
    })
}

/// Makes the event that a step is.
pub fn event(alloc: Global, step: &Step) -> Result<Event, Fault> {
    let act = act(alloc, step)?;
    Ok(Event {
        time: step.time,
        act,
    })
}

/// Makes the step of the list without turnovers. In the place of a turnover a transaction is nudged that nobody has begun: that is refused,
/// and makes no device call.
pub fn unturned(step: &Step) -> Step {
    let mut other = *step;
    if let Does::Turn = step.does {
        other.does = Does::Nudge;
        other.txn = UNBEGUN;
    }
    other
}

fn push_events(events: &mut Vec<Event>, alloc: Global, steps: &[Step]) -> Result<(), Fault> {
    for step in steps {
        events.push(event(alloc, step)?)?;
    }
    Ok(())
}

/// Plays some steps. Returns the report, or why they are not played.
pub fn play_steps(alloc: Global, config: &Config, steps: &[Step]) -> Result<Report, Fault> {
    let mut events = Vec::new(alloc);
    let report = match push_events(&mut events, alloc, steps) {
        Ok(()) => play(alloc, config, &events),
        Err(fault) => Err(fault),
    };
    drop(events);
    report
}

/// Makes one to four shards without a stride. They are split at the last ones of `g`, `m` and `s`, but two at `m`.
pub fn config(alloc: Global, shards: u64) -> Result<Config, Fault> {
    let (g, m, s) = (Key::new(b"g")?, Key::new(b"m")?, Key::new(b"s")?);
    let splits = match shards {
        1 => Splits::new(alloc, &[]),
        2 => Splits::new(alloc, &[m]),
        3 => Splits::new(alloc, &[m, s]),
        _ => Splits::new(alloc, &[g, m, s]),
    };
    match (splits, Stride::new(0)) {
        (Ok(splits), Some(stride)) => Ok(Config { splits, stride }),
        _ => Err(Fault::Memory),
    }
}
