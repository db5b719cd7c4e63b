//! The end of a test.
use made::WrongRows;
use std::process::Abort;

/// Ends the test with all wrong rows, if there are any.
pub fn end(rt: &impl Abort, wrong: WrongRows) {
    assert!(rt; wrong.is_none(), "{}", wrong.text());
    drop(wrong);
}
