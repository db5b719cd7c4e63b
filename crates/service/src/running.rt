//! The commands over an open store are carried out.
ghost use Rattle.std.specs.Prelude.{◌≡◌, ◌⊎◌, IfOk};

use crate::backing_up::backup_folder;
use crate::exporting::export_folder;
use crate::importing::import_folder;
use crate::making::make;
use crate::opening::opened;
use crate::refusal::Refusal;
use crate::renewing::renew_folder;
use commands::splits_of;
use host_files::{HostFiles, failed_log};
use requests::Answer;
use service_words::{Asked, Choices, service_asked};
use serving::{Desk, Served, serve};
use std::alloc::Global;
use std::fs::File;
use std::io::{Read, Write};
use std::random::RandomSource;
use std::sync::Wait;
use std::thread::Threads;
use std::{rt, time};
use store::Client;

/// Whether a command line is one of `make`, `serve`, `export`, `import`, `backup` or `renew`, and does not ask for help.
pub fn is_service(words: &[&str]) -> bool {
    match words {
        [first, rest @ ..] => is_named(*first) && !asks_help(rest),
        [] => false,
    }
}

fn is_named(word: &str) -> bool {
    matches!(
        word,
        "make" | "serve" | "export" | "import" | "backup" | "renew"
    )
}

// Whether one of the words, before any `--`, asks for help.
fn asks_help(words: &[&str]) -> bool {
    for word in words {
        if *word == "--" {
            return false;
        }
        if *word == "-h" || *word == "--help" {
            return true;
        }
    }
    false
}

/// Carries out such a command line. `make` and `backup` print nothing. `serve` answers the lines of `input` on `output`; on a
/// terminal it prompts for them. `export` prints keys and values on `output`, and tells their number on `errors`. `import` reads them from `input`, and
/// prints how many it has put on `output`. `renew` prints the sizes of logs there. Gives the status: 0, or 2 at a fault, or if nobody reads the
/// answers, or 1 if an import was cut short by a transaction that does not surely stand. A fault is printed as a line on `errors`. A second line
/// tells the file in which it lies, or what is wrong with the words; after words, a third tells how they are called.
pub fn service<
    R: rt::Files<File = File, Dir = <HostRuntime as rt::Files>::Dir>
        + Eprint
        + RandomSource
        + Threads
        + Wait
        + time::Clock
        + Sync,
    I: Read + Drop,
    O: Write + Drop + Send,
    E: Write,
>(
    rt: &R,
    alloc: Global,
    words: &[&str],
    is_terminal: bool,
    input: I,
    output: O,
    errors: &mut E,
) -> u8
    ensures { (result ≡ 0) ⊎ (result ≡ 1) ⊎ (result ≡ 2) }
{
    match carried_out(rt, alloc, words, is_terminal, input, output, errors) {
        Ok(status) => status,
        Err(refusal) => {
            let Refusal { fault, told } = refusal;
            let _ = writeln!(errors, "fault: {fault}");
            if let Some(told) = told {
                let _ = writeln!(errors, "{told}");
            }
            2
        }
    }
}

// The status of a command that was not refused.
fn carried_out<
    R: rt::Files<File = File, Dir = <HostRuntime as rt::Files>::Dir>
        + Eprint
        + RandomSource
        + Threads
        + Wait
        + time::Clock
        + Sync,
    I: Read + Drop,
    O: Write + Drop + Send,
    E: Write,
>(
    rt: &R,
    alloc: Global,
    words: &[&str],
    is_terminal: bool,
    input: I,
    output: O,
    errors: &mut E,
) -> Result<u8, Refusal>
    ensures { IfOk result (λ status. (status ≡ 0) ⊎ (status ≡ 1) ⊎ (status ≡ 2)) }
{
    let asked = match service_asked(alloc, words) {
        Ok(asked) => asked,
        Err(fault) => return Err(Refusal::of_words(alloc, words, fault)),
    };
    match asked {
        Asked::Make { dir, splits } => {
            make(rt, alloc, dir, &splits)?;
            Ok(0)
        }
        Asked::Serve { dir, choices } => {
            let desk = Desk::new(alloc, output, is_terminal);
            let served = serve_folder(rt, alloc, dir, choices, input, &desk);
            drop(desk);
            if served? { Ok(0) } else { Ok(2) }
        }
        Asked::Export { dir, at, csv } => export_folder(rt, alloc, dir, at, csv, output, errors),
        Asked::Import { dir, csv } => import_folder(rt, alloc, dir, csv, input, output),
        Asked::Backup { dir, to } => backup_folder(rt, alloc, dir, to),
        Asked::Renew { dir, keep } => renew_folder(rt, alloc, dir, keep, output),
    }
}

// Serves the store in a folder.
fn serve_folder<
    R: rt::Files<File = File, Dir = <HostRuntime as rt::Files>::Dir>
        + Eprint
        + RandomSource
        + Threads
        + Wait
        + time::Clock
        + Sync,
    I: Read + Drop,
    O: Write + Drop + Send,
>(
    rt: &R,
    alloc: Global,
    dir: &str,
    choices: Choices,
    input: I,
    desk: &Desk<O>,
) -> Result<bool, Refusal> {
    let files = HostFiles::new(rt, false);
    let splits = match splits_of(alloc, &files, dir) {
        Ok(splits) => splits,
        Err(fault) => return Err(Refusal::of_manifest(alloc, &files, dir, fault)),
    };
    let store = match opened(rt, alloc, dir, &splits, &choices, false) {
        Ok(store) => store,
        Err(refused) => return Err(Refusal::of_store(alloc, dir, refused)),
    };
    let idle = choices.idle;
    let (served, disks) = store.serve(|clients: Vec<Client<'_, R>>| serve(
        rt, alloc, clients, idle, input, desk,
    ))?;
    let failed = failed_log(&disks);
    drop(disks);
    if let Served::Quit(client) = served? {
        desk.tell(rt, client, &Answer::Closed)?;
    }
    match failed {
        Some(refused) => Err(Refusal::of_store(alloc, dir, refused)),
        None => Ok(!desk.is_gone(rt)),
    }
}
