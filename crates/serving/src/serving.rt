//! A store is served to lines.
ghost use Rattle.std.specs.Thread.{IsSync, IsSend};

use crate::conversation::attend;
use crate::desk::Desk;
use crate::lines::{Line, next_line};
use crate::prompt::Open;
use crate::talk::Talk;
use crossbeam_channel::{Sender, bounded};
use growing::Growing;
use requests::{Answer, of_client};
use std::alloc::Global;
use std::io::{BufReader, Read, Write};
use std::sync::Wait;
use std::thread::{Scope, Threads};
use std::time::Duration;
use std::{thread, time};
use store::{Client, Ended, Fault, Halt, Reason, Transaction};

// 64 lines of a client wait at most, then no more is read until one is answered: the one that its thread is at, so many after it, and the
// one for which there is no room.
const ROOM: usize = 62;

// How much is read at once.
const BURST: usize = 1 << 16;

/// How the lines of a stream ended.
#[derive(Clone, Copy, PartialEq, Eq)]
pub enum Served {
    /// They ended, and each was answered.
    All,
    /// This client asked for the end, and each line before was answered.
    Quit(u64),
    /// Nobody reads the answers, or one was lost.
    Gone,
}

/// Answers the lines of a stream until its end or `quit`, each client on a thread of its own. A transaction for which no line comes for
/// so many milliseconds is given up.
pub fn serve<
    'a,
    'c: 'a,
    R: Threads + Wait + time::Clock + Sync,
    I: Read + Drop,
    W: Write + Drop + Send,
>(
    rt: &'a R,
    alloc: Global,
    clients: Vec<Client<'c, R>>,
    idle_millis: u64,
    input: I,
    desk: &'a Desk<W>,
) -> Result<Served, Fault> {
    let mut clients = clients;
    desk.ready(rt, run_of(clients.as_mut_slice()))?;
    thread::scope(
        thread::scope_env(),
        rt,
        |scope| -> Result<Served, Fault>
            requires { IsSync R.row × IsSend W.row }
        {
            let mut inboxes = Vec::new(alloc);
            let started = start(scope, rt, alloc, clients, idle_millis, desk, &mut inboxes);
            let served = match started {
                Ok(()) => hand_out(rt, alloc, input, desk, &inboxes),
                Err(fault) => {
                    drop(input);
                    Err(fault)
                }
            };
            drop(inboxes);
            served
        },
    )
}

// The run of the clients' ids: that of a transaction which does nothing.
fn run_of<R: Wait + time::Clock>(clients: &mut [Client<'_, R>]) -> u64 {
    let Some(client) = clients.first_mut() else {
        return 0;
    };
    let ended = client.transact(1, |tx: &mut Transaction<'_, R>| -> Result<(), Halt<u64>> {
        Err(Halt::Abandon(tx.id().run()))
    });
    match ended {
        Ok(Ended::Abandoned(run)) => run,
        _ => 0,
    }
}

// Starts a thread for each client.
fn start<'s, 'e, 'c: 'e, R: Threads + Wait + time::Clock + Sync, W: Write + Drop + Send>(
    scope: &'s Scope<'s, &'e ()>,
    rt: &'e R,
    alloc: Global,
    clients: Vec<Client<'c, R>>,
    idle_millis: u64,
    desk: &'e Desk<W>,
    inboxes: &mut Vec<Sender<Vec<u8>>>,
) -> Result<(), Fault> {
    for client in clients {
        let (sender, inbox) = bounded(alloc, ROOM)?;
        let number = inboxes.len() as u64;
        inboxes.push(sender)?;
        let (said, _) = Growing::twins();
        let mut talk = Talk {
            rt,
            alloc,
            number,
            inbox,
            desk,
            idle: Duration::from_millis(idle_millis),
            open: Open::Nothing,
            said,
        };
        let mut client = client;
        let spawned = scope.spawn(move || {
            if attend(rt, alloc, &mut talk, &mut client).is_err() {
                desk.give_up(rt);
            }
        });
        if spawned.is_err() {
            return Err(Fault::Memory);
        }
    }
    Ok(())
}

// Reads lines, and hands each to its client.
fn hand_out<R: Wait, I: Read + Drop, W: Write + Drop>(
    rt: &R,
    alloc: Global,
    input: I,
    desk: &Desk<W>,
    inboxes: &[Sender<Vec<u8>>],
) -> Result<Served, Fault> {
    let Ok(mut stream) = BufReader::with_capacity(alloc, BURST, input) else {
        return Err(Fault::Memory);
    };
    for _line in 0..u64::MAX {
        let quits = match next_line(alloc, &mut stream)? {
            Line::None => return Ok(Served::All),
            Line::Front(line) => hand(rt, alloc, &line, true, desk, inboxes)?,
            Line::Text(line) => hand(rt, alloc, &line, false, desk, inboxes)?,
        };
        if let Some(client) = quits {
            return Ok(Served::Quit(client));
        }
        if desk.is_gone(rt) {
            return Ok(Served::Gone);
        }
    }
    Ok(Served::All)
}

// Hands a line to its client; in the place of one that is too long, the empty one, which is refused. Gives the client that asks for the end.
fn hand<R: Wait, W: Write + Drop>(
    rt: &R,
    alloc: Global,
    line: &[u8],
    is_long: bool,
    desk: &Desk<W>,
    inboxes: &[Sender<Vec<u8>>],
) -> Result<Option<u64>, Fault> {
    let (client, rest) = of_client(line);
    let Some(inbox) = inboxes.get(client as usize) else {
        desk.tell(
            rt,
            client,
            &Answer::Refused(Fault::BadRequest(Reason::Command)),
        )?;
        return Ok(None);
    };
    if is_long {
        drop(inbox.send(rt, Vec::new(alloc)));
        return Ok(None);
    }
    if rest == b"quit".as_slice() {
        return Ok(Some(client));
    }
    drop(inbox.send(rt, rest.to_vec(alloc)?));
    Ok(None)
}
