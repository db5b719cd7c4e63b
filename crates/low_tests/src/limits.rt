//! The small types: their limits and orders, and the texts of faults.
use crate::checks::is_printed;
use crate::text_logs::{key_of, keys_of, txn_of};
use made::WrongRows;
use std::alloc::Global;
use texts::{Text, number};
use units::{Epoch, Fault, Key, Reason, Run, ShardNo, Splits, Stamp, Value};

struct Printed {
    fault: Fault,
    text: &'static str,
}

static PRINTED: [Printed; 6] = [
    Printed {
        fault: Fault::BadRequest(Reason::Stamp),
        text: "7 BadRequest(stamp)",
    },
    Printed {
        fault: Fault::BadRequest(Reason::Syntax(4)),
        text: "7 BadRequest(syntax 4)",
    },
    Printed {
        fault: Fault::Damaged { offset: 22 },
        text: "11 Damaged at 22",
    },
    Printed {
        fault: Fault::TimeSpent,
        text: "4 TimeSpent",
    },
    Printed {
        fault: Fault::Stranger,
        text: "14 Stranger",
    },
    Printed {
        fault: Fault::TooOld,
        text: "15 TooOld",
    },
];

// What is made of a number.
enum Made {
    // A key of so many bytes.
    Key,
    Value,
    Stamp,
    Epoch,
    Run,
    ShardNo,
}

// The numbers at the limits, and the fault with which those beyond are refused, if there is one.
struct Limit {
    what: &'static str,
    made: Made,
    taken: &'static [u64],
    refused: &'static [u64],
    fault: Option<Fault>,
}

static LIMITS: [Limit; 6] = [
    Limit {
        what: "a key",
        made: Made::Key,
        taken: &[1, 64],
        refused: &[0, 65],
        fault: Some(Fault::BadRequest(Reason::Key)),
    },
    Limit {
        what: "a value",
        made: Made::Value,
        taken: &[0, 4096],
        refused: &[4097],
        fault: Some(Fault::BadRequest(Reason::Value)),
    },
    Limit {
        what: "a timestamp",
        made: Made::Stamp,
        taken: &[Stamp::MAX],
        refused: &[4_611_686_018_427_387_904],
        fault: Some(Fault::BadRequest(Reason::Stamp)),
    },
    Limit {
        what: "an epoch",
        made: Made::Epoch,
        taken: &[1, Stamp::MAX],
        refused: &[0, 4_611_686_018_427_387_904],
        fault: None,
    },
    Limit {
        what: "a run",
        made: Made::Run,
        taken: &[1, Stamp::MAX],
        refused: &[0, 4_611_686_018_427_387_904],
        fault: None,
    },
    Limit {
        what: "a shard",
        made: Made::ShardNo,
        taken: &[15],
        refused: &[16],
        fault: None,
    },
];

// Gives the fault of a key of so many bytes, or else of a value, if it is refused.
fn fault_of(alloc: Global, len: usize, key: bool) -> Option<Fault> {
    let Ok(bytes) = vec![in alloc; 7u8; len] else {
        return Some(Fault::Memory);
    };
    let fault = if key {
        Key::new(&bytes).err()
    } else {
        Value::new(alloc, &bytes).err()
    };
    drop(bytes);
    fault
}

// Tells whether it is made, and gives the fault if it is refused with one.
fn answer_of(alloc: Global, made: &Made, number: u64) -> (bool, Option<Fault>) {
    let fault = match made {
        Made::Key => fault_of(alloc, number as usize, true),
        Made::Value => fault_of(alloc, number as usize, false),
        Made::Stamp => Stamp::new(number).err(),
        Made::Epoch => return (Epoch::new(number).is_some(), None),
        Made::Run => return (Run::new(number).is_some(), None),
        Made::ShardNo => return (ShardNo::new(number.min(255) as u8).is_some(), None),
    };
    (fault.is_none(), fault)
}

fn all_are(alloc: Global, made: &Made, numbers: &[u64], answer: (bool, Option<Fault>)) -> bool {
    for number in numbers {
        if answer_of(alloc, made, *number) != answer {
            return false;
        }
    }
    true
}

fn are_ordered(alloc: Global) -> bool {
    let old = txn_of("1.10");
    let young = txn_of("2.9");
    (old == txn_of("1.10"))
        & (old != young)
        & (old < young)
        & (young > old)
        & is_printed(alloc, &old, "1.10")
}

// Gives the shards of `a`, `ab` and `b`, if these keys may be the splits.
fn shards(alloc: Global, first: Key, second: Key) -> Option<[u8; 3]> {
    match Splits::new(alloc, &[first, second]) {
        Ok(splits) => {
            let shards = [
                splits.shard_of(&key_of("a")).number(),
                splits.shard_of(&key_of("ab")).number(),
                splits.shard_of(&key_of("b")).number(),
            ];
            drop(splits);
            Some(shards)
        }
        Err(_) => None,
    }
}

// Tells whether a list of keys is printed so. Keys that do not ascend are no list.
fn are_listed(alloc: Global, keys: &str, text: &str) -> bool {
    let keys = keys_of(alloc, keys);
    let printed = is_printed(alloc, &Text(&keys), text);
    drop(keys);
    printed
}

fn go_by_bytes(alloc: Global) -> bool {
    let a = key_of("a");
    let ab = key_of("ab");
    let b = key_of("b");
    (a < ab)
        & (ab < b)
        & (b > ab)
        & (shards(alloc, ab, b) == Some([0, 1, 2]))
        & shards(alloc, b, ab).is_none()
        & are_listed(alloc, "a,b", "a,b")
        & are_listed(alloc, "b,a", "-")
}

// Tells whether the number of a fault stands first in its text.
fn is_numbered(row: &Printed) -> bool {
    let word = match row.text.split_once(' ') {
        Some((word, _)) => word,
        None => row.text,
    };
    number(word) == Ok(u64::from(row.fault.number()))
}

/// Checks all rows.
pub fn go_over(wrong: &mut WrongRows, alloc: Global) {
    for row in &PRINTED {
        let printed = is_printed(alloc, &row.fault, row.text);
        wrong.unless(printed && is_numbered(row), row.text);
    }
    for row in &LIMITS {
        let kept = all_are(alloc, &row.made, row.taken, (true, None))
            && all_are(alloc, &row.made, row.refused, (false, row.fault));
        wrong.unless(kept, row.what);
    }
    wrong.unless(are_ordered(alloc), "1.10 and 2.9");
    wrong.unless(go_by_bytes(alloc), "a, ab and b");
}
