//! What a test ends with.
use made::WrongRows;
use std::process::Abort;

/// Ends the test if rows are wrong, and names all of them.
pub fn end(rt: &impl Abort, wrong: WrongRows) {
    assert!(rt; wrong.is_none(), "{}", wrong.text());
    drop(wrong);
}
