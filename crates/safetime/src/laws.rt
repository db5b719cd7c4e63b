//! The laws of holds.
ghost use Rattle.safetime.specs.Laws.{OrderDoesNotMatter, HoldAddsOne, LiftTakesOne};

/// States that the safe time follows from how often each timestamp is held, in whatever order. A hold adds one of its
/// timestamp, and a lift takes one away.
pub fn order_does_not_matter()
    ensures order { OrderDoesNotMatter }
    ensures hold { HoldAddsOne }
    ensures lift { LiftTakesOne }
{}
