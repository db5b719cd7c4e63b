//! What one client is asked, and answers.
ghost use Rattle.std.specs.Prelude.{◌≡◌, IfOk, MatchOption, OnOk};
ghost use Rattle.serving.specs.Talks.{IsLate, IsLine, IsOver, IsSpoken, IsTried};

use crate::acts::{End, act, answer_of_end, carry_out, look};
use crate::asks::{Asks, Exchange, Heard};
use requests::{Answer, Request};
use std::alloc::Global;
use std::sync::Wait;
use std::time;
use store::{Client, Halt, Transaction, View};
use units::Fault;

/// Why no more lines of a transaction are taken.
#[derive(Drop)]
pub enum Last {
    /// This line ends it, and is answered by how it ended.
    Asked(Result<Request, Fault>),
    /// No line came for too long: the next one is answered `aborted`.
    Silence,
    /// No more will come.
    Nothing,
    /// A line could not be answered.
    Failed(Fault),
}

/// Answers all that is asked of a client.
pub fn attend<A: Asks, R: Wait + time::Clock>(
    rt: &R,
    alloc: Global,
    asks: &mut A,
    client: &mut Client<'_, R>,
) -> Result<(), Fault> {
    for _line in rt.forever() {
        let Heard::Asked(asked) = asks.next() else {
            return Ok(());
        };
        match &asked {
            Ok(Request::Begin) => {
                if let Some(last) = within(rt, asks, client, asked)? {
                    asks.answer(last)?;
                }
            }
            Ok(Request::View) => view(rt, alloc, asks, client, asked)?,
            Ok(Request::ViewAt(at)) => {
                let mut view = client.view_at(*at);
                look_on(rt, alloc, asks, &mut view, asked)?;
            }
            _ => {
                let answer = carry_out(rt, alloc, client, &asked);
                asks.answer(Exchange { asked, answer })?;
            }
        }
    }
    unreachable!()
}

// A transaction of the lines that follow, by one try. Gives the line that is still to be answered, with its answer.
fn within<A: Asks, R: Wait + time::Clock>(
    rt: &R,
    asks: &mut A,
    client: &mut Client<'_, R>,
    begin: Result<Request, Fault>,
) -> Result<Option<Exchange>, Fault>
    ensures { IfOk result (IsTried client.old client.new) }
{
    let mut begin = Some(begin);
    let mut last = Last::Nothing;
    let ended = client.transact(1, |tx: &mut Transaction<'_, R>| -> Result<(), Halt> {
        let (why, ran) = open(rt, asks, tx, begin.take());
        last = why;
        ran
    });
    let answer = answer_of_end(begin.is_none(), ended);
    if let Some(asked) = begin {
        drop(last);
        return Ok(Some(Exchange { asked, answer }));
    }
    match last {
        Last::Asked(asked) => Ok(Some(Exchange { asked, answer })),
        Last::Silence => {
            answer_late(asks)?;
            Ok(None)
        }
        Last::Nothing => Ok(None),
        Last::Failed(fault) => Err(fault),
    }
}

// Answers the next line of a transaction that was idle for too long, and given up.
fn answer_late<A: Asks>(asks: &mut A) -> Result<(), Fault>
    ensures { OnOk result (IsLate (A.said asks.old) (A.said asks.new)) }
{
    match asks.next() {
        Heard::Asked(asked) => {
            let answer = Answer::Aborted;
            asks.answer(Exchange { asked, answer })
        }
        _ => Ok(()),
    }
}

// Tells that a transaction has begun, and goes on with its lines.
fn open<A: Asks, R: Wait + time::Clock>(
    rt: &R,
    asks: &mut A,
    tx: &mut Transaction<'_, R>,
    begin: Option<Result<Request, Fault>>,
) -> (Last, Result<(), Halt>) {
    let Some(asked) = begin else {
        return (Last::Nothing, Err(Halt::Abandon(())));
    };
    let answer = Answer::Begun(tx.id());
    match asks.answer(Exchange { asked, answer }) {
        Ok(()) => talk_in(rt, asks, tx),
        Err(fault) => (Last::Failed(fault), Err(Halt::Abandon(()))),
    }
}

/// The lines of a transaction, until it is to end. They alone lead its session, and each is answered, but the one that ends it.
pub fn talk_in<A: Asks, R: Wait + time::Clock>(
    rt: &R,
    asks: &mut A,
    tx: &mut Transaction<'_, R>,
) -> (Last, Result<(), Halt>)
    ensures splits { tx.new.session.splits ≡ tx.old.session.splits }
    ensures spoken { IsSpoken tx.old.session.splits (A.said asks.old) (A.said asks.new)
        result.0 result.1 tx.old.session.client tx.new.session.client }
{
    for _line in rt.forever() {
        match take_line(asks, tx) {
            None => {}
            Some(over) => return over,
        }
    }
    unreachable!()
}

// One line of a transaction: it is answered, or the transaction is to end.
fn take_line<A: Asks, R: Wait + time::Clock>(
    asks: &mut A,
    tx: &mut Transaction<'_, R>,
) -> Option<(Last, Result<(), Halt>)>
    ensures splits { tx.new.session.splits ≡ tx.old.session.splits }
    ensures line { MatchOption result
        (IsLine tx.old.session.splits (A.said asks.old) (A.said asks.new)
        tx.old.session.client tx.new.session.client)
        (λ over. (A.said asks.new ≡ A.said asks.old)
        × IsOver tx.old.session.splits over.0 over.1
        tx.old.session.client tx.new.session.client) }
{
    match asks.next_of_open() {
        Heard::Asked(asked) => take(asks, tx, asked),
        Heard::Silence => Some((Last::Silence, Err(Halt::Abandon(())))),
        Heard::Nothing => Some((Last::Nothing, Err(Halt::Abandon(())))),
    }
}

// What a line makes of a transaction, which is answered where it goes on.
fn take<A: Asks, R: Wait + time::Clock>(
    asks: &mut A,
    tx: &mut Transaction<'_, R>,
    asked: Result<Request, Fault>,
) -> Option<(Last, Result<(), Halt>)>
    ensures splits { tx.new.session.splits ≡ tx.old.session.splits }
    ensures line { MatchOption result
        (IsLine tx.old.session.splits (A.said asks.old) (A.said asks.new)
        tx.old.session.client tx.new.session.client)
        (λ over. (A.said asks.new ≡ A.said asks.old)
        × IsOver tx.old.session.splits over.0 over.1
        tx.old.session.client tx.new.session.client) }
{
    match act(tx, &asked) {
        End::Stays(answer) => match asks.answer(Exchange { asked, answer }) {
            Ok(()) => None,
            Err(fault) => Some((Last::Failed(fault), Err(Halt::Abandon(())))),
        },
        End::Ends(ran) => Some((Last::Asked(asked), ran)),
    }
}

// A view of the present, and what is asked of it.
fn view<A: Asks, R: Wait + time::Clock>(
    rt: &R,
    alloc: Global,
    asks: &mut A,
    client: &mut Client<'_, R>,
    asked: Result<Request, Fault>,
) -> Result<(), Fault> {
    let Some(mut view) = client.view() else {
        let answer = Answer::Refused(Fault::Early);
        return asks.answer(Exchange { asked, answer });
    };
    look_on(rt, alloc, asks, &mut view, asked)
}

// Tells the time of a view, and what is asked of it then.
fn look_on<A: Asks, R: Wait + time::Clock>(
    rt: &R,
    alloc: Global,
    asks: &mut A,
    view: &mut View<'_, '_, R>,
    asked: Result<Request, Fault>,
) -> Result<(), Fault> {
    let answer = Answer::At(view.at());
    asks.answer(Exchange { asked, answer })?;
    for _line in rt.forever() {
        let Heard::Asked(asked) = asks.next() else {
            return Ok(());
        };
        if let Ok(Request::End) = &asked {
            let answer = Answer::Ended;
            return asks.answer(Exchange { asked, answer });
        }
        let answer = look(alloc, view, &asked);
        asks.answer(Exchange { asked, answer })?;
    }
    unreachable!()
}
