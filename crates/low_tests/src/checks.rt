//! What the tests end with, and the checks that several of them use.
use made::WrongRows;
pub use made::{Row, go_over, go_over_all, is_text};
use message::Envelope;
use record::Record;
use spelling::encode;
use std::alloc::Global;
use std::fmt::Display;
use std::process::Abort;
use texts::Text;
use units::{Line, Value};

/// Ends the test with all wrong rows, if there are any.
pub fn end(rt: &impl Abort, wrong: WrongRows) {
    assert!(rt; wrong.is_none(), "{}", wrong.text());
    drop(wrong);
}

/// Tells whether the thing is printed as this text.
pub fn is_printed(alloc: Global, thing: &impl Display, text: &str) -> bool {
    is_text(thing.to_string(alloc), text)
}

/// What is printed as one line.
pub trait Printed {
    fn is_line(&self, alloc: Global, line: &str) -> bool;
}

impl Printed for Record {
    fn is_line(&self, alloc: Global, line: &str) -> bool {
        is_printed(alloc, &Text(self), line)
    }
}

impl Printed for Line {
    fn is_line(&self, alloc: Global, line: &str) -> bool {
        is_printed(alloc, &Text(self), line)
    }
}

impl Printed for Envelope {
    fn is_line(&self, alloc: Global, line: &str) -> bool {
        is_printed(alloc, &Text(self), line)
    }
}

/// Tells whether these are printed as the lines of a text, one after another.
pub fn are_printed<T: Printed>(alloc: Global, items: &[T], text: &str) -> bool {
    let mut wanted = text.lines();
    for item in items {
        match wanted.next() {
            Some(line) if item.is_line(alloc, line) => {}
            _ => return false,
        }
    }
    wanted.next().is_none()
}

/// Tells whether these are the bytes of a record.
pub fn is_spelled(alloc: Global, item: &Record, bytes: &[u8]) -> bool {
    let Ok(found) = encode(alloc, item) else {
        return false;
    };
    let same = found.as_slice() == bytes;
    drop(found);
    same
}

/// Gives the one byte of a value that was found.
pub fn byte(found: Option<&Value>) -> Option<u8> {
    let Some(value) = found else {
        return None;
    };
    match value.as_bytes() {
        [byte] => Some(*byte),
        _ => None,
    }
}
