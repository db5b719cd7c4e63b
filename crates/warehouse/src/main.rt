//! A warehouse over a store: eight workers bring goods, place orders, and ship or cancel them in threads. A report adds all up at one timestamp.
#![tactic(auto)]

ghost use Rattle.std.specs.Thread.{IsSync, IsSend};

mod report;
mod request;
mod stock;

use moving::backup;
use report::report_at;
use request::{Request, Why, settle};
use std::alloc::Global;
use std::fs::File;
use std::process::ExitCode;
use std::random::RandomSource;
use std::sync::Wait;
use std::thread::Threads;
use std::{env, rt, thread, time};
use stock::{WORKERS, key_of, splits};
use store::{Client, Ended, Fault, Options, Reason, Refused, RefusedIn, Stamp, Store};

/// What is to be done in which folder, and the folder that gets a backup, if there is to be one.
#[derive(Drop)]
struct Todo {
    folder: String,
    requests: u32,
    copy: Option<String>,
}

fn main(rt: HostRuntime) -> ExitCode {
    let Some(todo) = words(&rt) else {
        let _ = eprintln!(rt; "warehouse: {}", Fault::BadRequest(Reason::Command));
        return ExitCode::from(2);
    };
    match serve(&rt, &rt, rt.alloc(), &todo) {
        Ok(right) => ExitCode::from(if right { 0 } else { 1 }),
        Err(refused) => {
            let folder = todo.folder.as_str();
            let fault = refused.fault;
            let _ = eprintln!(rt; "warehouse: {fault} --> {}", RefusedIn { folder, refused });
            ExitCode::from(2)
        }
    }
}

// `warehouse FOLDER REQUESTS [COPY]`: so many requests of each worker, and as many reports. Then a backup, while workers work.
fn words(rt: &HostRuntime) -> Option<Todo> {
    let mut words = env::args(rt).ok()?;
    drop(words.next());
    let folder = words.next()?;
    let requests = words.next()?.as_str().parse::<u32>().ok()?;
    let copy = words.next();
    Some(Todo {
        folder,
        requests,
        copy,
    })
}

fn serve<
    R: rt::Files<File = File, Dir = <HostRuntime as rt::Files>::Dir>
        + RandomSource
        + Threads
        + Wait
        + time::Clock
        + Sync
        + Print
        + Eprint,
>(rt: &R, host: &HostRuntime, alloc: Global, todo: &Todo) -> Result<bool, Refused> {
    let mut options = Options::new(splits(alloc)?, u64::from(WORKERS) + 2);
    options.make = true;
    let store = Store::open_folder(rt, alloc, todo.folder.as_str(), options)?;
    if let Some(lead) = store.ahead() {
        let _ = eprintln!(rt; "the logs are {lead} microseconds ahead of the clock");
    }
    let (right, disks) = store.serve(|clients: Vec<Client<'_, R>>| work(
        rt, host, alloc, clients, todo,
    ))?;
    drop(disks);
    Ok(right?)
}

// Fills the shelves, lets one client report while the workers work, and tells what came of it.
fn work<R: Threads + Wait + time::Clock + Sync + Print + Eprint>(
    rt: &R,
    host: &HostRuntime,
    alloc: Global,
    mut clients: Vec<Client<'_, R>>,
    todo: &Todo,
) -> Result<bool, Fault> {
    let Some(mut last) = clients.pop() else {
        return Ok(false);
    };
    let (worker, number) = (WORKERS, 0);
    let _ = settle(alloc, &mut last, Request { worker, number })?;
    let mut jobs = Vec::new(alloc);
    for client in clients {
        jobs.push((jobs.len() as u64, client))?;
    }
    let done = thread::map_vec(
        rt,
        jobs,
        &|job: (u64, Client<'_, R>)| -> Result<u64, Fault>
            requires { IsSync R.row }
        {
            let (place, mut client) = job;
            match u32::try_from(place) {
                Ok(worker) if worker < WORKERS => take_requests(alloc, &mut client, worker, todo),
                _ => report_often(host, alloc, &mut client, todo),
            }
        },
    )?;
    let mut wrong = 0_u64;
    for did in done {
        wrong = wrong.saturating_add(did?);
    }
    tell(rt, alloc, &mut last, wrong)
}

// Sends the requests of a worker. One that is done is sent again, and has to be abandoned as done. Counts how often it is not.
fn take_requests<R: Wait + time::Clock>(
    alloc: Global,
    client: &mut Client<'_, R>,
    worker: u32,
    todo: &Todo,
) -> Result<u64, Fault> {
    let mut wrong = 0_u64;
    for number in 0..todo.requests {
        let request = Request { worker, number };
        let is_done = matches!(settle(alloc, client, request)?, Ended::Committed { .. });
        if is_done && settle(alloc, client, request)? != Ended::Abandoned(Why::Done) {
            wrong = wrong.saturating_add(1);
        }
    }
    Ok(wrong)
}

// Makes the reports, each once more at its time, then the backup. Counts reports that do not balance or say otherwise then, and a refused backup.
fn report_often<R: Wait + time::Clock>(
    host: &HostRuntime,
    alloc: Global,
    client: &mut Client<'_, R>,
    todo: &Todo,
) -> Result<u64, Fault> {
    let mut wrong = 0_u64;
    for _report in 0..todo.requests {
        let (at, told) = report_at(alloc, client, None)?;
        let (_, again) = report_at(alloc, client, Some(at))?;
        if !told.balances() || again != told {
            wrong = wrong.saturating_add(1);
        }
    }
    if let Some(copy) = &todo.copy {
        let (from, to) = (todo.folder.as_str(), copy.as_str());
        if let Err(not) = backup(host, alloc, from, &splits(alloc)?, to) {
            let _ = eprintln!(host; "warehouse: no backup in {to}: {}", not.refused.fault);
            wrong = wrong.saturating_add(1);
        }
    }
    Ok(wrong)
}

// Tells what the warehouse has, how often the stock of an item has changed, and how much was wrong. The numbers of the store go to standard error.
fn tell<R: Wait + time::Clock + Print + Eprint>(
    rt: &R,
    alloc: Global,
    client: &mut Client<'_, R>,
    wrong: u64,
) -> Result<bool, Fault> {
    let (at, last) = report_at(alloc, client, None)?;
    let balance = if last.balances() { "balances" } else { "WRONG" };
    let item = key_of(alloc, "item", 7)?;
    let mut then = client.view_at(at);
    let history = then.versions(&item, Stamp::zero(), at, usize::MAX)?;
    let changes = history.versions.len().saturating_sub(1);
    let _ = println!(rt;
        "received {} stock {} held {} shipped {} {balance}",
        last.received, last.stock, last.held, last.shipped
    );
    let _ = println!(rt;
        "requests {} orders {} changes of item 7 {changes} wrong {wrong}",
        last.requests, last.orders
    );
    let _ = eprint!(rt; "{}", client.numbers().text()?);
    Ok(wrong == 0 && last.balances())
}
