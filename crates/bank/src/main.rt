//! A bank over a store: tellers move money between accounts in threads, and an auditor adds up all accounts at one timestamp.
#![tactic(auto)]

ghost use Rattle.std.specs.Thread.{IsSync, IsSend};

mod accounts;
mod staff;

use accounts::{ACCOUNTS, key_of, open_accounts};
use staff::{Did, audit, move_money};
use std::alloc::Global;
use std::fs::File;
use std::io::Write;
use std::process::ExitCode;
use std::random::RandomSource;
use std::sync::Wait;
use std::thread::Threads;
use std::{env, rt, thread, time};
use store::{Client, Fault, Options, Reason, Refused, RefusedIn, Splits, Store};

/// How many tellers there are, besides one auditor.
const TELLERS: u64 = 3;

/// For how many microseconds the past is kept if logs are renewed: ten seconds, longer than any audit takes.
const KEEP: u64 = 10_000_000;

/// How much is to be done.
#[derive(Clone, Copy)]
struct Todo {
    transfers: u32,
    /// By how many bytes a log grows before it is renewed; `None` if it is not.
    renew: Option<u64>,
}

fn main(rt: HostRuntime) -> ExitCode {
    let Some((folder, todo)) = words(&rt) else {
        let _ = writeln!(rt.stderr(), "bank: {}", Fault::BadRequest(Reason::Command));
        return ExitCode::from(2);
    };
    let done = serve(&rt, rt.alloc(), folder.as_str(), todo);
    let status = match done {
        Ok(done) => tell(&rt, done),
        Err(refused) => {
            let folder = folder.as_str();
            let fault = refused.fault;
            let told = RefusedIn { folder, refused };
            let _ = writeln!(rt.stderr(), "bank: {fault} --> {told}");
            ExitCode::from(2)
        }
    };
    drop(folder);
    status
}

/// What was done, and the numbers of the store after it.
#[derive(Drop)]
struct Done {
    did: Did,
    numbers: String,
}

// Says what was done, and whether it was right.
fn tell(rt: &HostRuntime, done: Done) -> ExitCode {
    let Done { did, numbers } = done;
    let _ = write!(rt.stderr(), "{numbers}");
    drop(numbers);
    let Did {
        moved,
        refused,
        dropped,
        unknown,
        audits,
        wrong,
    } = did;
    let _ = writeln!(
        rt.stderr(),
        "moved {moved} refused {refused} dropped {dropped} unknown {unknown}"
    );
    let printed = println!(rt; "audits {audits} wrong {wrong}");
    if printed.is_ok() && wrong == 0 {
        ExitCode::from(0)
    } else {
        ExitCode::from(1)
    }
}

// `bank FOLDER TRANSFERS [BYTES]`: each teller tries so many transfers, and the auditor adds up as often. A log that has grown by so many
// bytes is renewed.
fn words(rt: &HostRuntime) -> Option<(String, Todo)> {
    let mut words = env::args(rt).ok()?;
    drop(words.next());
    let folder = words.next()?;
    let count = words.next()?;
    let transfers = count.as_str().parse::<u32>().ok()?;
    let renew = match words.next() {
        Some(bytes) => Some(bytes.as_str().parse::<u64>().ok()?),
        None => None,
    };
    Some((folder, Todo { transfers, renew }))
}

fn serve<
    R: rt::Files<File = File, Dir = <HostRuntime as rt::Files>::Dir>
        + RandomSource
        + Threads
        + Wait
        + time::Clock
        + Sync,
>(rt: &R, alloc: Global, folder: &str, todo: Todo) -> Result<Done, Refused> {
    let splits = Splits::new(alloc, &[key_of(ACCOUNTS / 2)?])?;
    let mut options = Options::new(splits, TELLERS + 1);
    options.make = true;
    if todo.renew.is_some() {
        options.keep = Some(KEEP);
        options.renew = todo.renew;
        options.shrink = todo.renew;
    }
    let store = Store::open_folder(rt, alloc, folder, options)?;
    let (done, disks) = store.serve(|clients: Vec<Client<'_, R>>| work(
        rt,
        alloc,
        clients,
        todo.transfers,
    ))?;
    drop(disks);
    Ok(done?)
}

// Opens the accounts, and lets the last client audit while the others move money.
fn work<R: Threads + Wait + time::Clock + Sync>(
    rt: &R,
    alloc: Global,
    mut clients: Vec<Client<'_, R>>,
    transfers: u32,
) -> Result<Done, Fault> {
    let Some(mut first) = clients.pop() else {
        return Ok(done_by(alloc, Did::nothing()));
    };
    if !open_accounts(&mut first)? {
        return Ok(done_by(alloc, Did::nothing().with_audit(0)));
    }
    let numbers = first.numbers();
    let mut jobs = Vec::new(alloc);
    for client in clients {
        jobs.push((jobs.len() as u64 + 1, client))?;
    }
    jobs.push((0, first))?;
    let done = thread::map_vec(
        rt,
        jobs,
        &|job: (u64, Client<'_, R>)| -> Result<Did, Fault>
            requires { IsSync R.row }
        {
            let (seed, mut client) = job;
            if seed == 0 {
                audit(&mut client, transfers)
            } else {
                move_money(&mut client, seed, transfers)
            }
        },
    )?;
    let mut all = Did::nothing();
    for did in done {
        all = all.and(did?);
    }
    let numbers = numbers.text()?;
    Ok(Done { did: all, numbers })
}

// What was done before a number was counted.
fn done_by(alloc: Global, did: Did) -> Done {
    let numbers = String::new(alloc);
    Done { did, numbers }
}
