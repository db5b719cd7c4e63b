//! Records and lines as they are printed, and lines that are refused.
use crate::checks::are_printed;
use crate::text_logs::reads;
use made::WrongRows;
use std::alloc::Global;
use texts::lines;
use units::{Fault, Reason};

// One of each kind, with empty and longer lists.
static RECORDS: &str = "opened 1
ceiling 4611686018427387903
prepare 1.2 0 200 - z=2
prepare 7.0 3 201 a,b c=1,d!
commit 1.1 111 0 - a=1
commit 1.2 200 0,1,15 a -
abort 3.9
outcome 1.1 committed 111
outcome 1.2 aborted
horizon 0
horizon 200
base 1 111 0
base 4611686018427387903 4611686018427387903 200
version 111 a=1
version 0 key_1!
settled 1.1 111 0
settled 7.3 200 1,15
closed 1.2 0 committed 200
closed 7.3 15 aborted
retired 1.9
retired 7.0
";

// How many lines a text has, or else the number of the line that is refused, from 1.
struct Row {
    text: &'static str,
    read: Result<usize, u64>,
}

static ROWS: [Row; 11] = [
    // One of each kind.
    Row {
        text: "begin 1.1 0
ack 1.1 111 5
read 1.1 a none
read 1.1 a =Z_9
look a 111 none
look key_1 0 =1
",
        read: Ok(6),
    },
    Row {
        text: "",
        read: Ok(0),
    },
    Row {
        text: "\n",
        read: Err(1),
    },
    Row {
        text: "begin 1.1",
        read: Err(1),
    },
    Row {
        text: "begin 1.1 0\nlook a 5 =1",
        read: Err(2),
    },
    Row {
        text: "begin 1.1 0\n\nbegin 1.2 1\n",
        read: Err(2),
    },
    Row {
        text: "begin 0.1 0\n",
        read: Err(1),
    },
    Row {
        text: "ack 1.1 4611686018427387904 5\n",
        read: Err(1),
    },
    Row {
        text: "look a 5 1\n",
        read: Err(1),
    },
    Row {
        text: "look a-b 5 =1\n",
        read: Err(1),
    },
    Row {
        text: "begin 1.1 00\n",
        read: Err(1),
    },
];

// Tells whether so many lines are read, and each is printed as it was; or whether the text is refused.
fn is_read(alloc: Global, row: &Row) -> bool {
    match lines(alloc, row.text) {
        Ok(found) => {
            let same = row.read == Ok(found.len())
                && are_printed(alloc, found.as_slice(), row.text);
            drop(found);
            same
        }
        Err(fault) => match row.read {
            Ok(_) => false,
            Err(line) => fault == Fault::BadRequest(Reason::Syntax(line)),
        },
    }
}

/// Checks all rows.
pub fn go_over(wrong: &mut WrongRows, alloc: Global) {
    let mut log = Vec::new(alloc);
    let printed = reads(alloc, RECORDS, &mut log) && log.len() == 21;
    drop(log);
    wrong.unless(printed, "a record of each kind");
    for row in &ROWS {
        wrong.unless(is_read(alloc, row), row.text);
    }
}
