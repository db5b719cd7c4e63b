//! The command `export`.
ghost use Rattle.std.specs.Prelude.{◌≡◌, ◌⊎◌, IfOk};

use crate::alone::{only, opened_alone};
use crate::refusal::Refusal;
use moving::{Form, export};
use output::{Failure, Stream};
use std::alloc::Global;
use std::fs::File;
use std::io::Write;
use std::random::RandomSource;
use std::sync::Wait;
use std::thread::Threads;
use std::time::Duration;
use std::{rt, time};
use store::Client;
use units::{Fault, Stamp};

// For how many seconds a view at a timestamp waits until it is served.
const WAIT: u64 = 3;

// What was exported, and at which timestamp.
#[derive(Clone, Copy)]
struct Exported {
    pairs: u64,
    at: Stamp,
}

/// Writes the keys and values of the store in a folder, of the present or of a timestamp, and tells on `errors` how many they are. Gives the status:
/// 0, or 2 if nobody reads them.
pub fn export_folder<
    R: rt::Files<File = File, Dir = <HostRuntime as rt::Files>::Dir>
        + Eprint
        + RandomSource
        + Threads
        + Wait
        + time::Clock
        + Sync,
    O: Write + Drop,
    E: Write,
>(
    rt: &R,
    alloc: Global,
    dir: &str,
    at: Option<Stamp>,
    csv: bool,
    output: O,
    errors: &mut E,
) -> Result<u8, Refusal>
    ensures { IfOk result (λ status. (status ≡ 0) ⊎ (status ≡ 2)) }
{
    let store = opened_alone(rt, alloc, dir)?;
    let mut out = Stream::new(output);
    let form = form_of(csv);
    let (exported, disks) = store.serve(|clients: Vec<Client<'_, R>>| write_pairs(
        alloc, clients, at, form, &mut out,
    ))?;
    drop(disks);
    drop(out);
    match exported {
        Ok(Exported { pairs, at }) => {
            let _ = writeln!(errors, "exported {pairs} at {at}");
            Ok(0)
        }
        Err(Failure::Unwritten) => Ok(2),
        Err(Failure::Refused(fault)) => Err(Refusal::from(fault)),
    }
}

fn form_of(csv: bool) -> Form {
    if csv { Form::Rows } else { Form::Lines }
}

// Opens a view by the one client, and writes it.
fn write_pairs<R: Wait + time::Clock, O: Write>(
    alloc: Global,
    clients: Vec<Client<'_, R>>,
    at: Option<Stamp>,
    form: Form,
    out: &mut Stream<O>,
) -> Result<Exported, Failure> {
    let mut client = only(clients)?;
    let mut view = match at {
        Some(at) => client.view_at(at),
        None => match client.view() {
            Some(view) => view,
            None => return Err(Failure::Refused(Fault::NotYet)),
        },
    };
    view.wait_at_most(Duration::from_secs(WAIT));
    let pairs = export(alloc, &mut view, form, out)?;
    let at = view.at();
    Ok(Exported { pairs, at })
}
