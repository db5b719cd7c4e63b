//! The rule of a board, and what its steps tell.
use crate::board_copy::BoardCopy;
use crate::entry::BoardEntry;
use atomic_table::{Join, Split};
use crossbeam_utils::rule::{Outcome, Protocol};

/// The states of the board that a thread knows of: a list of entries, that list with what is prepared, and which board it is.
/// No value of it is made: a clause reads an array as a list, of any length.
pub type SeenStates = [([BoardEntry; 0], [BoardEntry; 0], (u64, u64)); 0];

/// The rule that a board has one list, which only grows.
pub struct OneList;

impl Protocol<BoardCopy, SeenStates> for OneList {
    ghost use Rattle.std.specs.Prelude.{[]};
    ghost use Rattle.board.specs.OneList.{KeepsOneList};

    ghost holds = { KeepsOneList };

    ghost first = { [] };
}

/// A step at which a thread sees the board's list.
pub struct SeesList;

impl Outcome<BoardCopy, SeenStates> for SeesList {
    ghost use Rattle.board.specs.OneList.{Sees};

    ghost then = { Sees };
}

/// A note of all that a thread knows.
pub struct Note;

impl Split<SeenStates> for Note {
    ghost left = { λ known. known };

    ghost right = { λ known. known };
}

impl Join<SeenStates> for Note {
    ghost use Rattle.std.specs.Prelude.{◌++◌, []};

    ghost both = { λ known told. known ++ told };

    ghost spent = { [] };
}
