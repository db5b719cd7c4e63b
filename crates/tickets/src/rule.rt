//! The rule of a ticket source, and its steps. Contracts alone use what is here.
use atomic_table::{Play, Split, TableRule};

/// What a seat knows: for how many drawers it stands, and which numbers it has drawn. No value of it is made. A clause reads an
/// array as a list of any length.
pub struct Hand {
    pub drawers: u64,
    pub drawn: [u64; 0],
}

/// The rule: the numbers below the word are drawn, each once.
pub struct Counter;

impl TableRule<u8, Hand, ()> for Counter {
    ghost use Rattle.std.specs.Prelude.{[]};
    ghost use Rattle.tickets.specs.Draws.{IsDrawn};

    ghost holds = { λ _. IsDrawn };

    ghost first = { λ _. record { drawers = 256; drawn = [] } };
}

/// The step of a draw.
pub struct Drawn;

impl Play<u8, Hand> for Drawn {
    ghost use Rattle.tickets.specs.Draws.{Draws};

    ghost then = { Draws };
}

/// The step that splits one drawer off.
pub struct OneDrawer;

impl Split<Hand> for OneDrawer {
    ghost use Rattle.std.specs.Prelude.{◌-◌, []};

    ghost left = { λ hand. record { drawers = hand.drawers - 1; drawn = hand.drawn } };

    ghost right = { λ _. record { drawers = 1; drawn = [] } };
}
