//! How keys and values stand in a text.
ghost use Rattle.std.specs.Prelude.{◌≡◌, IfOk};
ghost use Rattle.moving.specs.Exports.{head, text};

use pairs::{Pair, header, lines_of, rows_of};
use std::alloc::Global;
use units::Fault;

/// How keys and values stand in a text.
#[derive(Clone, Copy, PartialEq, Eq)]
pub enum Form {
    /// A line for each: the key, a blank and the value, both spelled.
    Lines,
    /// Comma-separated values: the header `key,value`, and a row for each.
    Rows,
}

impl Form {
    /// What stands before the first pair.
    pub fn head(self, alloc: Global) -> Result<Vec<u8>, Fault>
        ensures { IfOk result (λ bytes. bytes.items ≡ head self) }
    {
        match self {
            Form::Lines => Ok(Vec::new(alloc)),
            Form::Rows => header(alloc),
        }
    }

    /// The text of some pairs.
    pub fn text(self, alloc: Global, pairs: &[Pair]) -> Result<Vec<u8>, Fault>
        ensures { IfOk result (λ bytes. bytes.items ≡ text self pairs.now) }
    {
        match self {
            Form::Lines => lines_of(alloc, pairs),
            Form::Rows => rows_of(alloc, pairs),
        }
    }
}
