//! The text of a report.
ghost use Rattle.std.specs.Prelude.{◌≡◌, IfErr};

use crate::plays::Played;
use output::VerdictText;
use playing::{Reply, Report};
use std::alloc::Global;
use std::fmt;
use texts::Text;
use units::Fault;

/// Writes the text of a report, with the verdict on it.
pub fn report(alloc: Global, played: &Played) -> Result<String, Fault>
    ensures { IfErr result (λ fault. fault ≡ Fault.Memory) }
{
    Ok(format!(in alloc; "{played}")?)
}

impl fmt::Display for Played {
    fn fmt<W: fmt::Write>(&self, f: &mut fmt::Formatter<W>) -> fmt::Result {
        write_events(f, &self.report)?;
        for (shard, log) in self.report.logs.iter().enumerate() {
            writeln!(f, "log {shard}")?;
            for item in log {
                writeln!(f, "{}", Text(item))?;
            }
        }
        writeln!(f, "lines")?;
        for line in &self.report.lines {
            writeln!(f, "{}", Text(line))?;
        }
        writeln!(f, "verdict {}", VerdictText(self.verdict))
    }
}

// Each event with its reply, and after it the messages that it put out.
fn write_events<W: fmt::Write>(f: &mut fmt::Formatter<W>, report: &Report) -> fmt::Result {
    let envelopes = report.bag.as_slice();
    let mut first = 0;
    for (event, (reply, count)) in report.replies.iter().zip(&report.counts).enumerate() {
        writeln!(f, "event {event} {}", Told(reply))?;
        let end = envelopes.len().min(*count as usize);
        for number in first..end {
            if let Some(envelope) = envelopes.get(number) {
                writeln!(f, "put {number} {}", Text(envelope))?;
            }
        }
        first = end;
    }
    Ok(())
}

// A reply, to be printed.
#[derive(Drop)]
struct Told<'r>(&'r Reply);

impl fmt::Display for Told<'_> {
    fn fmt<W: fmt::Write>(&self, f: &mut fmt::Formatter<W>) -> fmt::Result {
        match self.0 {
            Reply::Done => f.write_str("ok"),
            Reply::Refused(fault) => write!(f, "refused {fault}"),
            Reply::Shows(value) => write!(f, "{}", Text(value)),
            Reply::Crashed => f.write_str("crashed"),
        }
    }
}
