//! Why a command did not come to its end.
use units::Fault;

/// Why a command failed. A refusal is printed; after a write that failed nothing is.
#[derive(Clone, Copy)]
pub enum Failure {
    /// The command was refused for this fault.
    Refused(Fault),
    /// A write to an output failed.
    Unwritten,
}

impl From<Fault> for Failure {
    ghost use Rattle.std.specs.Prelude.{◌≡◌};
    ghost use Rattle.output.specs.declared.failure.Failure.TheVariants.{Refused};

    ghost from_gives = { λ fault failure. failure ≡ Refused fault };

    fn from(fault: Fault) -> Failure {
        Failure::Refused(fault)
    }
}
