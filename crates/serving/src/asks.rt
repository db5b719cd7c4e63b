//! Who asks one client.
ghost use Rattle.std.specs.Prelude.{◌≡◌, List, [], ◌∷◌, ◌++◌, MatchResult};
ghost use Rattle.serving.specs.declared.asks.Exchange.{Exchange};

use requests::{Answer, Request};
use units::Fault;

/// A line of a client: what it asks for, or why it is refused; and its answer.
#[derive(Drop)]
pub struct Exchange {
    pub asked: Result<Request, Fault>,
    pub answer: Answer,
}

/// What is heard of who asks.
#[derive(Drop)]
pub enum Heard {
    /// A line: what it asks for, or why it is refused.
    Asked(Result<Request, Fault>),
    /// No line came while a transaction was open, for as long as one may be idle.
    Silence,
    /// No more will come.
    Nothing,
}

/// Who asks one client, line by line, and hears an answer to each. What was said so far exists in proofs alone.
pub trait Asks {
    ghost said: { Self → List Exchange };

    /// What is asked next. It waits until something is.
    fn next(&mut self) -> Heard
        ensures { said self.new ≡ said self.old };

    /// What is asked next of an open transaction. It waits no longer than one may be idle.
    fn next_of_open(&mut self) -> Heard
        ensures { said self.new ≡ said self.old };

    /// Answers what was asked last, which goes with its answer.
    fn answer(&mut self, exchange: Exchange) -> Result<(), Fault>
        ensures { MatchResult result
            (λ _. said self.new ≡ said self.old ++ exchange ∷ [])
            (λ _. said self.new ≡ said self.old) };
}
