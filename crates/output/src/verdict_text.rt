//! How a verdict is printed.
ghost use Rattle.std.specs.Prelude.{◌≡◌, Some};
ghost use Rattle.output.specs.Verdicts.{exit_status, text_of};

use std::fmt;
use units::Verdict;

/// A verdict, to be printed: `yes`, or the fault, as `no torn 1.2`.
#[derive(Clone, Copy)]
pub struct VerdictText(pub Verdict);

impl fmt::Display for VerdictText {
    ghost output = { λ v. Some (text_of v.0) };

    fn fmt<W: fmt::Write>(&self, f: &mut fmt::Formatter<W>) -> fmt::Result {
        match self.0 {
            Verdict::Yes => f.write_str("yes"),
            Verdict::Torn(txn) => write!(f, "no torn {txn}"),
            Verdict::Lost(txn) => write!(f, "no lost {txn}"),
            Verdict::WrongRead(line) => write!(f, "no read {line}"),
            Verdict::WrongOrder(begin, ack) => write!(f, "no order {begin} {ack}"),
        }
    }
}

/// Gives the exit status of a command with a verdict: 0 for yes, and 1 for no.
pub fn status_of(verdict: Verdict) -> u8
    ensures { result ≡ exit_status verdict }
{
    match verdict {
        Verdict::Yes => 0,
        Verdict::Torn(_) | Verdict::Lost(_) => 1,
        Verdict::WrongRead(_) | Verdict::WrongOrder(_, _) => 1,
    }
}
