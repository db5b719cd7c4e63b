//! How transactions end, and what is told of that: a value, a reason, a number of tries.
use crate::clients::{disks_of, of_one_shard, sees};
use crate::served::{OneClient, serve_one};
use crate::verdict::end;
use made::WrongRows;
use std::alloc::Global;
use std::sync::Wait;
use std::time;
use store::{Client, Ended, Fault, Halt, Key, Transaction, Value};

// Why the code abandons its transaction.
#[derive(Clone, Copy, PartialEq, Eq)]
enum Why {
    Odd,
    Even,
}

// What the code does in its n-th run, the first of which is 1.
#[derive(Clone, Copy)]
enum Does {
    Ends,
    Asks,
    Abandons(Why),
    AsksThenEnds,
    AsksThenAbandons(Why),
    Fails,
}

// What is told, without ids and timestamps, and how often the code was run. The value is the number of the run.
#[derive(Clone, Copy, PartialEq, Eq)]
enum Told {
    Value(u32),
    Reason(Why),
    Tries(u32),
    Fault(Fault),
    Nothing,
}

struct Row {
    name: &'static str,
    tries: u32,
    does: Does,
    told: Told,
    runs: u32,
}

static ROWS: [Row; 8] = [
    Row {
        name: "it ends",
        tries: 5,
        does: Does::Ends,
        told: Told::Value(1),
        runs: 1,
    },
    Row {
        name: "it asks to be run again each time",
        tries: 3,
        does: Does::Asks,
        told: Told::Tries(3),
        runs: 3,
    },
    Row {
        name: "it may not be tried",
        tries: 0,
        does: Does::Ends,
        told: Told::Tries(0),
        runs: 0,
    },
    Row {
        name: "it is abandoned",
        tries: 5,
        does: Does::Abandons(Why::Odd),
        told: Told::Reason(Why::Odd),
        runs: 1,
    },
    Row {
        name: "it is abandoned for another reason",
        tries: 5,
        does: Does::Abandons(Why::Even),
        told: Told::Reason(Why::Even),
        runs: 1,
    },
    Row {
        name: "it ends in its second run",
        tries: 5,
        does: Does::AsksThenEnds,
        told: Told::Value(2),
        runs: 2,
    },
    Row {
        name: "it is abandoned in its second and last run",
        tries: 2,
        does: Does::AsksThenAbandons(Why::Even),
        told: Told::Reason(Why::Even),
        runs: 2,
    },
    Row {
        name: "a call is refused",
        tries: 5,
        does: Does::Fails,
        told: Told::Fault(Fault::Room),
        runs: 1,
    },
];

// What the code gives in a run.
fn ran(does: Does, run: u32) -> Result<u32, Halt<Why>> {
    match does {
        Does::Ends => Ok(run),
        Does::Asks => Err(Halt::Again),
        Does::Abandons(why) => Err(Halt::Abandon(why)),
        Does::AsksThenEnds if run > 1 => Ok(run),
        Does::AsksThenAbandons(why) if run > 1 => Err(Halt::Abandon(why)),
        Does::AsksThenEnds | Does::AsksThenAbandons(_) => Err(Halt::Again),
        Does::Fails => Err(Halt::Refused(Fault::Room)),
    }
}

// Whether a transaction that writes a key is told as the row says, and stands if that is a value.
fn goes<R: Wait + time::Clock>(alloc: Global, client: &mut Client<'_, R>, row: &Row) -> bool {
    let key = row.name.as_bytes();
    let mut runs: u32 = 0;
    let ended = client.transact(
        row.tries,
        |tx: &mut Transaction<'_, R>| -> Result<u32, Halt<Why>> {
            runs = runs.saturating_add(1);
            tx.put(&Key::new(key)?, Value::new(alloc, b"1")?)?;
            ran(row.does, runs)
        },
    );
    let told = match ended {
        Ok(Ended::Committed { value, .. }) => Told::Value(value),
        Ok(Ended::Abandoned(why)) => Told::Reason(why),
        Ok(Ended::Aborted { tries }) => Told::Tries(tries),
        Ok(Ended::Unknown { .. }) => Told::Nothing,
        Err(fault) => Told::Fault(fault),
    };
    let stands = sees(client, &[key], b"1").is_ok();
    told == row.told && runs == row.runs && stands == matches!(row.told, Told::Value(_))
}

impl<R: Wait + time::Clock> OneClient<R> for [Row; 8] {
    // Whether all rows go so.
    fn work(
        &self,
        _rt: &R,
        alloc: Global,
        client: &mut Client<'_, R>,
        wrong: &mut WrongRows,
    ) -> Option<()> {
        for row in self {
            wrong.unless(goes(alloc, client, row), row.name);
        }
        Some(())
    }
}

// Fails if an abandoned transaction is told as aborted or stands, if another value or reason is told, or another number of tries.
#[test]
fn ends_have_reasons(rt: HostRuntime) {
    let alloc = rt.alloc();
    let mut wrong = WrongRows::none(alloc);
    let (disks, options) = (disks_of(&rt, alloc, 1), of_one_shard(&rt, alloc, 1));
    drop(serve_one(&rt, alloc, disks, options, "a service", &ROWS, &mut wrong));
    end(&rt, wrong);
}
