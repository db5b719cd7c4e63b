//! A write to a store in a folder of the machine, on its threads.
ghost use Rattle.std.specs.Prelude.{◌≡◌, None, IfErr, IfOk, MatchResult};
ghost use Rattle.cli.specs.Written.{IsPut, IsUnwritten, IsWritten, Puts, end_told};

use commands::{Ended, Put};
use host_files::{Noted, failed_log};
use std::alloc::Global;
use std::fs::File;
use std::random::RandomSource;
use std::sync::Wait;
use std::thread::Threads;
use std::{rt, time};
use store::{Client, Halt, Options, Store, Transaction};
use units::{Fault, Key, Reason, Splits, Value};

// How often the write is tried. No other client is there, but what the store was in the midst of when it was closed may abort it.
const TRIES: u32 = 5;

// How often 20 milliseconds may pass in silence: two seconds, since a store that was opened again waits until the last ceiling has passed.
const PATIENCE: u32 = 100;

/// Opens the store, commits the write as a transaction of its own, closes the store, and returns what became of the write. A refusal for want
/// of memory may come after the commit: it does not say that the write stands nowhere. If the store is not opened, or a log
/// fails, it is noted why.
pub fn put_in_store<
    R: rt::Files<File = File, Dir = <HostRuntime as rt::Files>::Dir>
        + RandomSource
        + Threads
        + Wait
        + time::Clock
        + Sync,
>(rt: &R, alloc: Global, write: Put<'_>, noted: &Noted) -> Result<Ended, Fault>
    ensures written { IfOk result (IsWritten write.entry.folder.now write.entry.key.now
        write.entry.value.now) }
    ensures refused { IfErr result IsUnwritten }
{
    let Put {
        folder,
        splits,
        key,
        value,
    } = write;
    let store = match Store::open_folder(rt, alloc, folder, options_of(alloc, splits)?) {
        Ok(store) => store,
        Err(refused) => {
            let fault = refused.fault;
            noted.note(refused);
            return Err(fault);
        }
    };
    let (ended, disks) = store.serve(
        |clients: Vec<Client<'_, R>>| -> Result<Ended, Fault>
            ensures { MatchResult result (IsPut key.entry.now value.entry.now) IsUnwritten }
        { commit(clients, key, value) },
    )?;
    if let Some(refused) = failed_log(&disks) {
        noted.note(refused);
    }
    drop(disks);
    ended
}

// One client, who waits that long. Its commit waits for the epsilon of every store, and nothing is forgotten for it. A new folder gets a store.
fn options_of(alloc: Global, splits: &Splits) -> Result<Options, Fault>
    ensures splits { IfOk result (λ options. options.splits ≡ splits.now) }
    ensures times { IfOk result
        (λ options. (options.epsilon ≡ 1000) × (options.patience ≡ 100)) }
    ensures all { IfOk result (λ options. (options.clients ≡ 1) × (options.keep ≡ None)
        × (options.renew ≡ None) × (options.retire ≡ None)) }
    ensures memory { IfErr result (λ fault. fault ≡ Fault.Memory) }
{
    let mut options = Options::new(splits.copy(alloc)?, 1);
    options.patience = PATIENCE;
    options.renew = None;
    options.shrink = None;
    options.retire = None;
    options.make = true;
    Ok(options)
}

// What became of the write, by one of the clients. A store that lends none is refused as `settings`.
fn commit<R: Wait + time::Clock>(
    clients: Vec<Client<'_, R>>,
    key: &Key,
    value: &Value,
) -> Result<Ended, Fault>
    ensures { MatchResult result (IsPut key.now value.now) IsUnwritten }
{
    let mut clients = clients;
    let Some(mut client) = clients.pop() else {
        return Err(Fault::BadRequest(Reason::Settings));
    };
    let told = client.transact(
        TRIES,
        |tx: &mut Transaction<'_, R>| -> Result<(), Halt>
            ensures { Puts key.entry.now value.entry.now tx.old result tx.new }
        {
            tx.put(key, value.copy()?)?;
            Ok(())
        },
    );
    match told {
        Ok(told) => Ok(end_told(told)),
        Err(fault) => Err(fault),
    }
}

// How a put ended. Its code never abandons it.
fn end_told(told: store::Ended<()>) -> Ended
    ensures { result ≡ end_told told }
{
    match told {
        store::Ended::Committed { at, .. } => Ended::Committed(at),
        store::Ended::Abandoned(()) | store::Ended::Aborted { .. } => Ended::Aborted,
        store::Ended::Unknown { id } => Ended::Unknown(id),
    }
}
