//! The acknowledgements of a report, by the moments at which they came.
ghost use Rattle.std.specs.List.{list_any};
ghost use Rattle.std.specs.Prelude.{◌≡◌, ℕ, IfOk, IfErr};
ghost use Rattle.units.specs.Lists.{gather};
ghost use Rattle.record.specs.Verdict.{is_late_ack};
ghost use Rattle.inspector.specs.Acks.{AscendsByMoment, as_ack, is_late_by, raised_acks};

use std::alloc::Global;
use units::{Fault, Line, Stamp};

/// An acknowledgement: the number of its event, and a timestamp in microseconds.
#[derive(Clone, Copy)]
pub struct Ack {
    pub moment: u64,
    pub at: u64,
}

/// Lists the acknowledgements of all lines, ascending by moment, each with the greatest timestamp up to there.
pub fn acks_by_moment(alloc: Global, lines: &[Line]) -> Result<Vec<Ack>, Fault>
    ensures order { IfOk result (λ acks. AscendsByMoment acks.items) }
    ensures late { IfOk result
        (λ acks. (moment at : ℕ)
        → is_late_by moment at acks.items ≡ list_any (is_late_ack moment at) lines.now) }
    ensures memory { IfErr result (λ fault. fault ≡ Fault.Memory) }
{
    let mut acks = acks_of(alloc, lines)?;
    acks.sort_by_key(|ack| ack.moment)?;
    raised(alloc, &acks)
}

fn acks_of(alloc: Global, lines: &[Line]) -> Result<Vec<Ack>, Fault>
    ensures acks { IfOk result (λ acks. acks.items ≡ gather as_ack lines.now) }
    ensures memory { IfErr result (λ fault. fault ≡ Fault.Memory) }
{
    let mut acks = Vec::new(alloc);
    for line in lines {
        if let Line::Ack(_, at, moment) = line {
            acks.push(Ack {
                moment: *moment,
                at: at.micros(),
            })?;
        }
    }
    Ok(acks)
}

// Gives each the greatest timestamp up to there.
fn raised(alloc: Global, acks: &[Ack]) -> Result<Vec<Ack>, Fault>
    ensures raised { IfOk result (λ found. found.items ≡ raised_acks 0 acks.now) }
    ensures memory { IfErr result (λ fault. fault ≡ Fault.Memory) }
{
    let mut found = Vec::new(alloc);
    let mut top = 0;
    for ack in acks {
        top = ack.at.max(top);
        found.push(Ack {
            moment: ack.moment,
            at: top,
        })?;
    }
    Ok(found)
}

/// Tells whether one came before a moment, at a timestamp that is not below a given one.
pub fn is_late_by(acks: &[Ack], moment: u64, at: Stamp) -> bool
    requires { AscendsByMoment acks.now }
    ensures { result ≡ is_late_by moment at acks.now }
{
    let count = acks.partition_point(|ack| ack.moment < moment);
    if count == 0 {
        return false;
    }
    at.micros() <= acks[count - 1].at
}
