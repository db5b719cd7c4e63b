//! Where keys and values come from.
ghost use Rattle.std.specs.Prelude.{◌≡◌, ◌++◌, List, MatchResult};
ghost use Rattle.std.specs.Option.{option_to_list};
ghost use Rattle.pairs.specs.declared.pair.Pair.{Pair};

use crate::Pair;
use std::alloc::Global;
use units::Fault;

/// Where keys and values come from, one after the other.
pub trait Pairs {
    /// All that it has given, in order.
    ghost given: { Self → List Pair };

    /// Gives the next one: `None` if there are no more. What is none is refused as `BadRequest(Syntax)`, with its line from 1; `Device` if the
    /// stream fails.
    fn next(&mut self, alloc: Global) -> Result<Option<Pair>, Fault>
        ensures { MatchResult result
            (λ found. given self.new ≡ given self.old ++ option_to_list found)
            (λ fault. given self.new ≡ given self.old) };

    /// Tells the line of the last one that was given, from 1; 0 if none was.
    fn line(&self) -> u64;
}
