//! What each of a client's wires has put out and heard.
ghost use Rattle.std.specs.Prelude.{◌≡◌, [], ◌∷◌, ◌++◌};

use crate::Wire;
use growing::Growing;
use std::marker::Model;

/// The wires that a client had, one for each attempt. It exists in proofs alone: contracts see what each has put out and heard.
#[derive(Drop)]
pub struct Wires<'r, 's, R> {
    past: Growing<Wire<'r, 's, R>>,
}

impl<'r, 's, R> Model for Wires<'r, 's, R> {
    ghost use Rattle.std.specs.Prelude.{List};
    ghost use Rattle.client.specs.Traffic.{Traffic};

    ghost Value = { List Traffic };

    ghost view = { λ w. w.past.entries };
}

impl<'r, 's, R> Wires<'r, 's, R> {
    /// Begins with no wire.
    pub fn none() -> Wires<'r, 's, R>
        ensures { result ≡ [] }
    {
        let (past, _) = Growing::twins();
        Wires { past }
    }

    /// Adds a wire that has put out and heard all that it will.
    pub fn add(&mut self, wire: Wire<'r, 's, R>)
        ensures { self.new ≡ self.old ++ wire.entry ∷ [] }
    {
        self.past.add(&wire);
        drop(wire);
    }
}
