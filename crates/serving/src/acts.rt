//! What one line makes of a transaction, of a view and of the store.
ghost use Rattle.std.specs.Prelude.{◌≡◌, None, Ok, Some};
ghost use Rattle.std.specs.Option.{option_copied};
ghost use Rattle.serving.specs.Talks.{IsActed, IsAsked, IsLooked, IsPaged, IsRead, IsWrote, answer_of_end, answer_of_last, answer_of_outcome, answer_of_write, end_of_write};

use requests::{Answer, Found, Request, committed};
use std::alloc::Global;
use std::mem::replace;
use std::sync::Wait;
use std::time;
use std::time::{Duration, Instant};
use store::{Client, Ended, Halt, Halted, Key, Outcome, Stamp, Transaction, TxnId, Value, View};
use units::Fault;

/// What a line makes of an open transaction: it is answered, and the transaction stays open; or the transaction is to end so.
#[derive(Drop)]
pub enum End {
    Stays(Answer),
    Ends(Result<(), Halt>),
}

/// Carries out one line of a transaction. For want of memory the transaction ends: so a `commit` that was sent along does not commit without
/// a write of it.
pub fn act<R: Wait + time::Clock>(
    tx: &mut Transaction<'_, R>,
    asked: &Result<Request, Fault>,
) -> End
    ensures splits { tx.new.session.splits ≡ tx.old.session.splits }
    ensures acted { IsActed tx.old.session.splits asked.now result
        tx.old.session.client tx.new.session.client }
{
    match asked {
        Ok(Request::Get(keys)) => read(tx, keys.as_slice()),
        Ok(Request::Put(key, value)) => put(tx, key, value),
        Ok(Request::Erase(key)) => erase(tx, key),
        Ok(Request::Commit) => End::Ends(Ok(())),
        Ok(Request::Abort) => End::Ends(Err(Halt::Abandon(()))),
        Ok(Request::Help) => End::Stays(Answer::Help),
        Ok(Request::Begin) => End::Stays(Answer::Misplaced),
        Ok(Request::View) => End::Stays(Answer::Misplaced),
        Ok(Request::ViewAt(_)) => End::Stays(Answer::Misplaced),
        Ok(Request::Keys(_, _, _)) => End::Stays(Answer::Misplaced),
        Ok(Request::End) => End::Stays(Answer::Misplaced),
        Ok(Request::Outcome(_)) => End::Stays(Answer::Misplaced),
        Ok(Request::Stats) => End::Stays(Answer::Misplaced),
        Ok(Request::Quit) => End::Stays(Answer::Misplaced),
        Err(Fault::Memory) => End::Ends(Err(Halt::Refused(Fault::Memory))),
        Err(fault) => End::Stays(Answer::Refused(*fault)),
    }
}

// The values of some keys, as the transaction sees them.
fn read<R: Wait + time::Clock>(tx: &mut Transaction<'_, R>, keys: &[Key]) -> End
    ensures splits { tx.new.session.splits ≡ tx.old.session.splits }
    ensures read { IsRead tx.old.session.splits keys.now result
        tx.old.session.client tx.new.session.client }
{
    match tx.get_all(keys) {
        Ok(values) => End::Stays(Answer::Values(values)),
        Err(Halted::Refused(fault)) => End::Stays(Answer::Refused(fault)),
        Err(halted) => End::Ends(Err(Halt::from(halted))),
    }
}

// A write of a value to a key.
fn put<R: Wait + time::Clock>(tx: &mut Transaction<'_, R>, key: &Key, value: &Value) -> End
    ensures splits { tx.new.session.splits ≡ tx.old.session.splits }
    ensures wrote { IsWrote (record { key = key.now; value = Some value.now }) result
        tx.old.session.client tx.new.session.client }
{
    match value.copy() {
        Ok(value) => put_copy(tx, key, value),
        Err(_) => End::Ends(Err(Halt::Refused(Fault::Memory))),
    }
}

fn put_copy<R: Wait + time::Clock>(tx: &mut Transaction<'_, R>, key: &Key, value: Value) -> End
    ensures splits { tx.new.session.splits ≡ tx.old.session.splits }
    ensures wrote { IsWrote (record { key = key.now; value = Some value }) result
        tx.old.session.client tx.new.session.client }
{
    wrote(tx.put(key, value))
}

// An erasure of a key.
fn erase<R: Wait + time::Clock>(tx: &mut Transaction<'_, R>, key: &Key) -> End
    ensures splits { tx.new.session.splits ≡ tx.old.session.splits }
    ensures wrote { IsWrote (record { key = key.now; value = None }) result
        tx.old.session.client tx.new.session.client }
{
    wrote(tx.erase(key))
}

// What a write comes to: it is answered, or the transaction is to end.
fn wrote(written: Result<(), Halted>) -> End
    ensures { result ≡ end_of_write written }
{
    match written {
        Ok(()) => End::Stays(Answer::Done),
        Err(Halted::Refused(Fault::Memory)) => End::Ends(Err(Halt::Refused(Fault::Memory))),
        Err(Halted::Refused(fault)) => End::Stays(Answer::Refused(fault)),
        Err(halted) => End::Ends(Err(Halt::from(halted))),
    }
}

/// What the last line of a transaction is answered: how that ended, or if none began, why.
pub fn answer_of_end(began: bool, ended: Result<Ended<()>, Fault>) -> Answer
    ensures { result ≡ answer_of_end began ended }
{
    if began {
        return answer_of_last(ended);
    }
    match ended {
        Ok(_) => Answer::Aborted,
        Err(fault) => Answer::Refused(fault),
    }
}

// What the last line of a transaction is answered that began.
fn answer_of_last(ended: Result<Ended<()>, Fault>) -> Answer
    ensures { result ≡ answer_of_last ended }
{
    match ended {
        Ok(ended) => answer_of(ended),
        Err(fault) => Answer::Over(fault),
    }
}

fn answer_of(ended: Ended<()>) -> Answer
    ensures { result ≡ answer_of_last (Ok ended) }
{
    match ended {
        Ended::Committed { at, id, value: () } => committed(at, id),
        Ended::Abandoned(()) | Ended::Aborted { .. } => Answer::Aborted,
        Ended::Unknown { id } => Answer::Unknown(id),
    }
}

/// Carries out one line of a view, which stays open.
pub fn look<R: Wait + time::Clock>(
    alloc: Global,
    view: &mut View<'_, '_, R>,
    asked: &Result<Request, Fault>,
) -> Answer
    ensures { IsLooked view.old.shared.now.splits view.old.viewers.now.items
        view.new.viewers.now.items view.old.at asked.now result }
{
    match asked {
        Ok(Request::Get(keys)) => values(seen(alloc, view, keys.as_slice())),
        Ok(Request::Keys(from, to, limit)) => page(alloc, view, from, to.as_ref(), *limit),
        Ok(Request::Help) => Answer::Help,
        Ok(_) => Answer::Misplaced,
        Err(fault) => Answer::Refused(*fault),
    }
}

/// Carries out one line that is neither in a transaction nor in a view, and opens neither.
pub fn carry_out<R: Wait + time::Clock>(
    rt: &R,
    alloc: Global,
    client: &mut Client<'_, R>,
    asked: &Result<Request, Fault>,
) -> Answer {
    match asked {
        Ok(Request::Get(keys)) => look_once(alloc, client, keys.as_slice()),
        Ok(Request::Put(key, value)) => write(rt, client, key, Some(value)),
        Ok(Request::Erase(key)) => write(rt, client, key, None),
        Ok(Request::Abort) => Answer::Aborted,
        Ok(Request::End) => Answer::Ended,
        Ok(Request::Outcome(id)) => outcome(client, *id),
        Ok(Request::Stats) => stats(client),
        Ok(Request::Help) => Answer::Help,
        Ok(_) => Answer::Misplaced,
        Err(fault) => Answer::Refused(*fault),
    }
}

// What some keys hold at the present.
fn look_once<R: Wait + time::Clock>(
    alloc: Global,
    client: &mut Client<'_, R>,
    keys: &[Key],
) -> Answer {
    match client.view() {
        Some(mut view) => values(seen(alloc, &mut view, keys)),
        None => Answer::Refused(Fault::Early),
    }
}

// How a transaction of the client ended.
fn outcome<R: Wait + time::Clock>(client: &mut Client<'_, R>, id: TxnId) -> Answer
    ensures { IsAsked client.old client.new id result }
{
    answer_of_outcome(client.outcome(id))
}

// What is answered of how a transaction ended.
fn answer_of_outcome(told: Result<Outcome, Fault>) -> Answer
    ensures { result ≡ answer_of_outcome told }
{
    match told {
        Ok(outcome) => Answer::Found(found(outcome)),
        Err(fault) => Answer::Refused(fault),
    }
}

fn found(outcome: Outcome) -> Found
    ensures { Answer.Found result ≡ answer_of_outcome (Ok outcome) }
{
    match outcome {
        Outcome::Committed(at) => found_at(at),
        Outcome::Aborted => Found::Aborted,
        Outcome::Open => Found::Open,
        Outcome::Unknown => Found::Unknown,
    }
}

fn found_at(at: Stamp) -> Found
    ensures { result ≡ Found.Committed at }
{
    Found::Committed(at)
}

// The numbers of the store.
fn stats<R: Wait + time::Clock>(client: &Client<'_, R>) -> Answer {
    match client.numbers().text() {
        Ok(text) => Answer::Text(text),
        Err(fault) => Answer::Refused(fault),
    }
}

// A page of the keys of a range that have a value in the view.
fn page<R: Wait + time::Clock>(
    alloc: Global,
    view: &mut View<'_, '_, R>,
    from: &Key,
    to: Option<&Key>,
    limit: u64,
) -> Answer
    ensures at { view.new.at ≡ view.old.at }
    ensures splits { view.new.shared.now.splits ≡ view.old.shared.now.splits }
    ensures listed { IsPaged view.old.shared.now.splits view.old.viewers.now.items
        view.new.viewers.now.items from.now (option_copied to.entry) view.old.at result }
{
    match view.keys(from, to, limit as usize) {
        Ok(page) => {
            let mut page = page;
            let keys = replace(&mut page.keys, Vec::new(alloc));
            Answer::Page(keys, page.next)
        }
        Err(fault) => Answer::Refused(fault),
    }
}

fn values(seen: Result<Vec<Option<Value>>, Fault>) -> Answer {
    match seen {
        Ok(values) => Answer::Values(values),
        Err(fault) => Answer::Refused(fault),
    }
}

// What a view shows of some keys.
fn seen<R: Wait + time::Clock>(
    alloc: Global,
    view: &mut View<'_, '_, R>,
    keys: &[Key],
) -> Result<Vec<Option<Value>>, Fault> {
    let mut values = Vec::new(alloc);
    for key in keys {
        values.push(view.get(key)?)?;
    }
    Ok(values)
}

// For how many milliseconds a write outside of a transaction is tried again.
const TRIED_MILLIS: u64 = 2_000;

// A write by a transaction of its own. One that is aborted is tried again for two seconds.
fn write<R: Wait + time::Clock>(
    rt: &R,
    client: &mut Client<'_, R>,
    key: &Key,
    value: Option<&Value>,
) -> Answer {
    let start = Instant::now(rt).ok();
    for _try in rt.forever() {
        let answer = write_once(client, key, value);
        match &answer {
            Answer::Aborted if !has_passed(rt, start) => {}
            _ => return answer,
        }
        drop(answer);
    }
    unreachable!()
}

// Whether two seconds have passed since then, or there is no telling.
fn has_passed<R: time::Clock>(rt: &R, start: Option<Instant>) -> bool {
    let Some(start) = start else {
        return true;
    };
    match start.elapsed(rt) {
        Ok(passed) => passed >= Duration::from_millis(TRIED_MILLIS),
        Err(_) => true,
    }
}

// One try of a write.
fn write_once<R: Wait + time::Clock>(
    client: &mut Client<'_, R>,
    key: &Key,
    value: Option<&Value>,
) -> Answer {
    let ended = client.transact(1, |tx: &mut Transaction<'_, R>| -> Result<(), Halt> {
        match value {
            Some(value) => tx.put(key, value.copy()?)?,
            None => tx.erase(key)?,
        }
        Ok(())
    });
    answer_of_write(ended)
}

// What a write by a transaction of its own is answered.
fn answer_of_write(ended: Result<Ended<()>, Fault>) -> Answer
    ensures { result ≡ answer_of_write ended }
{
    match ended {
        Err(fault) => Answer::Refused(fault),
        ended => answer_of_last(ended),
    }
}
