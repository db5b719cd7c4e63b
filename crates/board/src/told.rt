//! Published of a board's list.
ghost use Rattle.std.specs.Prelude.{◌≡◌, ◌≢◌};
ghost use Rattle.board.specs.Board.{safe_on};

use crate::entry::BoardEntry;
use growing::Beginning;
use std::marker::Model;
use units::Stamp;

/// News of a list that a publisher has published, as both copies of the board have had it. It takes no room for the list.
#[derive(Drop)]
pub struct Told {
    /// The list as the first copy has had it.
    pub(crate) first: Beginning<BoardEntry>,
    /// The list as the second copy has had it.
    pub(crate) second: Beginning<BoardEntry>,
    safe: Stamp,
}

impl Model for Told {
    ghost use Rattle.std.specs.Prelude.{◌≡◌, true, false};
    ghost use Rattle.board.specs.Board.{safe_on};
    ghost use Rattle.board.specs.Views.{Published};

    ghost Value = { Published };

    ghost view = { λ t. record { board = t.first.names; list = t.first.entries } };

    ghost invariant = { λ t. (t.first.second ≡ false) × (t.second.second ≡ true) × (t.second.names ≡ t.first.names)
        × (t.second.entries ≡ t.first.entries) × (t.safe ≡ safe_on t.first.entries) };
}

impl Told {
    /// Makes news of a list, as one copy has had it, which is the second one or not, and as the other has.
    pub(crate) fn of(
        is_second: bool,
        one: Beginning<BoardEntry>,
        other: Beginning<BoardEntry>,
        safe: Stamp,
    ) -> Told
        requires sides { (one.second ≡ is_second) × (other.second ≢ is_second) }
        requires same { (other.names ≡ one.names) × (other.entries ≡ one.entries) }
        requires safe { safe ≡ safe_on one.entries }
        ensures { result ≡ record { board = one.names; list = one.entries } }
    {
        if is_second {
            Told {
                first: other,
                second: one,
                safe,
            }
        } else {
            Told {
                first: one,
                second: other,
                safe,
            }
        }
    }

    /// Gives the last safe timestamp of the list.
    pub fn safe(&self) -> Stamp
        ensures { result ≡ safe_on self.now.list }
    {
        self.safe
    }
}
