//! The command `import`.
ghost use Rattle.std.specs.Prelude.{◌≡◌, ◌⊎◌, IfOk};

use crate::alone::{only, opened_alone};
use crate::refusal::Refusal;
use moving::{Imported, Stop, import};
use pairs::{Commas, Lines, Pairs};
use std::alloc::Global;
use std::fs::File;
use std::io::{BufReader, Read, Write};
use std::random::RandomSource;
use std::sync::Wait;
use std::thread::Threads;
use std::{rt, time};
use store::Client;
use units::{Fault, Reason};

/// Puts the keys and values that come on `input` into the store in a folder, and prints how many. Gives the status: 0, or 1 if a transaction does not
/// surely stand. A line that is none is refused by its number, after the number of those that were put.
pub fn import_folder<
    R: rt::Files<File = File, Dir = <HostRuntime as rt::Files>::Dir>
        + Eprint
        + RandomSource
        + Threads
        + Wait
        + time::Clock
        + Sync,
    I: Read + Drop,
    O: Write + Drop,
>(rt: &R, alloc: Global, dir: &str, csv: bool, input: I, output: O) -> Result<u8, Refusal>
    ensures { IfOk result (λ status. (status ≡ 0) ⊎ (status ≡ 1)) }
{
    let imported = if csv {
        let mut rows = Commas::of(alloc, input);
        put_from(rt, alloc, dir, &mut rows)?
    } else {
        let mut lines = Lines::of(alloc, buffered(alloc, input)?);
        put_from(rt, alloc, dir, &mut lines)?
    };
    let mut output = output;
    let Imported { pairs, stop } = imported;
    let _ = writeln!(output, "imported {pairs}");
    match stop {
        Some(stop) => stopped(alloc, stop, output),
        None => Ok(0),
    }
}

// Puts the keys and values that come from a text into the store in a folder.
fn put_from<
    R: rt::Files<File = File, Dir = <HostRuntime as rt::Files>::Dir>
        + Eprint
        + RandomSource
        + Threads
        + Wait
        + time::Clock
        + Sync,
    P: Pairs,
>(rt: &R, alloc: Global, dir: &str, source: &mut P) -> Result<Imported, Refusal> {
    let store = opened_alone(rt, alloc, dir)?;
    let (imported, disks) = store.serve(|clients: Vec<Client<'_, R>>| put_pairs(
        alloc, clients, source,
    ))?;
    drop(disks);
    Ok(imported?)
}

// The same by the one client.
fn put_pairs<R: Wait + time::Clock, P: Pairs>(
    alloc: Global,
    clients: Vec<Client<'_, R>>,
    source: &mut P,
) -> Result<Imported, Fault> {
    let mut client = only(clients)?;
    Ok(import(alloc, &mut client, source))
}

// What is printed of an import that has stopped: 1, or why it is refused.
fn stopped<O: Write + Drop>(alloc: Global, stop: Stop, output: O) -> Result<u8, Refusal>
    ensures { IfOk result (λ status. status ≡ 1) }
{
    let mut output = output;
    match stop {
        Stop::Aborted => {
            let _ = writeln!(output, "aborted");
            Ok(1)
        }
        Stop::Unknown(id) => {
            let _ = writeln!(output, "unknown {id}");
            Ok(1)
        }
        Stop::Refused(fault) => Err(of_line(alloc, fault)),
    }
}

fn buffered<I: Read + Drop>(alloc: Global, input: I) -> Result<BufReader<I>, Fault> {
    match BufReader::new(alloc, input) {
        Ok(reader) => Ok(reader),
        Err(_) => Err(Fault::Memory),
    }
}

// Refuses a line by its number, if the fault has one.
fn of_line(alloc: Global, fault: Fault) -> Refusal {
    let told = match fault {
        Fault::BadRequest(Reason::Syntax(line)) => {
            format!(in alloc; "--> standard input:{line}").ok()
        }
        Fault::Device => format!(in alloc; "--> standard input").ok(),
        _ => None,
    };
    Refusal { fault, told }
}
