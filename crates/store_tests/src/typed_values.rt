//! Values that are written and read by type.
use crate::clients::{disks_of, of_two_shards};
use crate::served::{OneClient, serve_one};
use crate::verdict::end;
use made::WrongRows;
use std::alloc::Global;
use std::sync::Wait;
use std::time;
use store::{Client, Ended, Halt, Halted, Transaction};
use units::{Fault, Key, Reason};

const NO_VALUE: Fault = Fault::BadRequest(Reason::Value);

// What a transaction reads of what it has written by type.
#[derive(Clone, Copy)]
struct Read {
    number: bool,
    text: bool,
    bytes: bool,
    none: bool,
    sum: bool,
    too_small: bool,
    other: bool,
}

const NOTHING: Read = Read {
    number: false,
    text: false,
    bytes: false,
    none: false,
    sum: false,
    too_small: false,
    other: false,
};

// Writes by type, and reads that.
fn write_and_read<R: Wait + time::Clock>(
    alloc: Global,
    tx: &mut Transaction<'_, R>,
) -> Result<Read, Halt> {
    let (a, b, z) = (Key::new(b"a")?, Key::new(b"b")?, Key::new(b"z")?);
    tx.put_as(&a, &7_u64)?;
    let text = String::from_str(alloc, "gr\u{fc}n")?;
    tx.put_as(&z, &text)?;
    drop(text);
    let mut read = NOTHING;
    read.number = tx.get_as::<u64>(&a)? == Some(7);
    let found = tx.get_as::<String>(&z)?;
    read.text = matches!(&found, Some(text) if text.as_str() == "gr\u{fc}n");
    drop(found);
    let found = tx.get_as::<Vec<u8>>(&a)?;
    read.bytes =
        matches!(&found, Some(bytes) if bytes.as_slice() == [0, 0, 0, 0, 0, 0, 0, 7].as_slice());
    drop(found);
    read.none = tx.get_as::<u64>(&b)?.is_none();
    read.sum = tx.add(&a, -3)? == 4 && tx.add(&b, 5)? == 5;
    read.too_small = tx.add(&a, -5) == Err(Halted::Refused(NO_VALUE));
    read.other = tx.get_as::<u64>(&z) == Err(Halted::Refused(NO_VALUE));
    Ok(read)
}

// Whether a view has the numbers.
fn has_numbers<R: Wait + time::Clock>(client: &mut Client<'_, R>) -> Result<bool, Fault> {
    let Some(mut view) = client.view() else {
        return Err(Fault::TimeSpent);
    };
    let (a, b) = (Key::new(b"a")?, Key::new(b"b")?);
    Ok(view.get_as::<u64>(&a)? == Some(4) && view.get_as::<u64>(&b)? == Some(5))
}

// What a transaction and a view read.
#[derive(Clone, Copy)]
struct Typing;

impl<R: Wait + time::Clock> OneClient<R> for Typing {
    fn work(
        &self,
        _rt: &R,
        alloc: Global,
        client: &mut Client<'_, R>,
        wrong: &mut WrongRows,
    ) -> Option<()> {
        let ended = client.transact(5, |tx: &mut Transaction<'_, R>| -> Result<Read, Halt> {
            write_and_read(alloc, tx)
        });
        let read = match &ended {
            Ok(Ended::Committed { value, .. }) => *value,
            _ => return None,
        };
        wrong.unless(read.number, "a number");
        wrong.unless(read.text, "a text");
        wrong.unless(read.bytes, "bytes");
        wrong.unless(read.none, "a key without a value");
        wrong.unless(read.sum, "a sum");
        wrong.unless(read.too_small, "a sum below 0");
        wrong.unless(read.other, "a value of another type");
        wrong.unless(has_numbers(client) == Ok(true), "in a view");
        Some(())
    }
}

// Fails if what was written by type is read otherwise.
#[test]
fn values_have_types(rt: HostRuntime) {
    let alloc = rt.alloc();
    let mut wrong = WrongRows::none(alloc);
    let (disks, options) = (disks_of(&rt, alloc, 2), of_two_shards(&rt, alloc, 100_000));
    drop(serve_one(&rt, alloc, disks, options, "values", &Typing, &mut wrong));
    end(&rt, wrong);
}
