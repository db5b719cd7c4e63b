//! How what a command came to is printed.
ghost use Rattle.std.specs.Prelude.{◌≡◌, ◌<◌, Ok, Err, IfOk, IfErr, MatchResult, string_bytes};
ghost use Rattle.std.specs.Io.KnownBytes.{Appends};
ghost use Rattle.commands.specs.Replies.{raw_status, raw_text};
ghost use Rattle.output.specs.declared.failure.Failure.TheVariants.{Refused, Unwritten};
ghost use Rattle.output.specs.Streams.{failures_of, writer_of};

use output::{Failure, Stream};
use std::io::Write;
use units::{Fault, Value};

/// Prints a text, and gives the status beside it. A refusal is passed on, and nothing is printed of it.
pub fn print<O: Write>(
    told: Result<(String, u8), Fault>,
    out: &mut Stream<O>,
) -> Result<u8, Failure>
    ensures printed { IfOk told (λ told. MatchResult result
        (λ status. (status ≡ told.1)
        × Appends (O.contents (writer_of out.old)) (O.contents (writer_of out.new))
        (string_bytes told.0))
        (λ failure. (failure ≡ Unwritten) × (failures_of out.old < failures_of out.new))) }
    ensures refused { IfErr told (λ fault. (result ≡ Err (Refused fault)) × (out.new ≡ out.old)) }
{
    let (text, status) = told?;
    out.print(&text)?;
    Ok(status)
}

/// Prints a text, and gives 0. A refusal is passed on, and nothing is printed of it.
pub fn print_text<O: Write>(told: Result<String, Fault>, out: &mut Stream<O>) -> Result<u8, Failure>
    ensures printed { IfOk told (λ text. MatchResult result
        (λ status. (status ≡ 0)
        × Appends (O.contents (writer_of out.old)) (O.contents (writer_of out.new))
        (string_bytes text))
        (λ failure. (failure ≡ Unwritten) × (failures_of out.old < failures_of out.new))) }
    ensures refused { IfErr told (λ fault. (result ≡ Err (Refused fault)) × (out.new ≡ out.old)) }
{
    out.print(&told?)?;
    Ok(0)
}

/// Prints the bytes of a value, and gives 0, or 1 if there is none. A refusal is passed on, and nothing is printed of it.
pub fn print_value<O: Write>(
    told: Result<Option<Value>, Fault>,
    out: &mut Stream<O>,
) -> Result<u8, Failure>
    ensures printed { IfOk told (λ value. MatchResult result
        (λ status. (status ≡ raw_status value)
        × Appends (O.contents (writer_of out.old)) (O.contents (writer_of out.new))
        (raw_text value))
        (λ failure. (failure ≡ Unwritten) × (failures_of out.old < failures_of out.new))) }
    ensures refused { IfErr told (λ fault. (result ≡ Err (Refused fault)) × (out.new ≡ out.old)) }
{
    match told? {
        Some(value) => {
            out.print_bytes(value.as_bytes())?;
            Ok(0)
        }
        None => {
            out.print_bytes(&[])?;
            Ok(1)
        }
    }
}

/// Of a command that prints nothing: 0, or the refusal.
pub fn done(made: Result<(), Fault>) -> Result<u8, Failure>
    ensures { MatchResult made (λ _. result ≡ Ok 0) (λ fault. result ≡ Err (Refused fault)) }
{
    made?;
    Ok(0)
}
