//! What is printed to whoever asks for help or for the version.
ghost use Rattle.std.specs.Prelude.{◌≡◌, ◌<◌, IfErr, IfOk, OnOk};
ghost use Rattle.std.specs.Io.KnownBytes.{Appends};
ghost use Rattle.output.specs.Streams.{failures_of, writer_of};
ghost use Rattle.output.specs.declared.failure.Failure.TheVariants.{Unwritten};

use output::{Failure, Stream};
use std::io::Write;

/// Prints a text that is there already, and gives status 0.
pub fn tell<O: Write>(text: &str, out: &mut Stream<O>) -> Result<u8, Failure>
    ensures status { IfOk result (λ status. status ≡ 0) }
    ensures printed { OnOk result
        (Appends (O.contents (writer_of out.old)) (O.contents (writer_of out.new)) text.now) }
    ensures unwritten { IfErr result
        (λ failure. (failure ≡ Unwritten) × (failures_of out.old < failures_of out.new)) }
{
    out.print(text)?;
    Ok(0)
}
