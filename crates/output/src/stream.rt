//! A stream that the program prints to.
ghost use Rattle.std.specs.Prelude.{◌≡◌, ◌+◌, ◌≤◌, IfErr, OnOk};
ghost use Rattle.std.specs.Io.KnownBytes.{Appends};
ghost use Rattle.output.specs.Streams.{fault_line};
ghost use Rattle.output.specs.declared.failure.Failure.TheVariants.{Unwritten};

use crate::failure::Failure;
use counts::Count;
use std::io::Write;
use units::Fault;

/// A writer, and how many writes to it have failed. Only proofs see that number, and nothing else raises it.
#[derive(Drop)]
pub struct Stream<W: Write> {
    writer: W,
    failures: Count,
}

impl<W: Write> Stream<W> {
    ghost use Rattle.output.specs.Streams.{writer_of, failures_of};

    /// Creates a stream over a writer; none of its writes has failed.
    pub fn new(writer: W) -> Stream<W>
        ensures over { writer_of result ≡ writer }
        ensures none { failures_of result ≡ 0 }
    {
        Stream {
            writer,
            failures: Count::none(),
        }
    }

    /// Gives back the writer, with what was printed.
    pub fn into_writer(self) -> W
        ensures { result ≡ writer_of self }
    {
        let Stream {
            writer,
            failures: _,
        } = self;
        writer
    }

    /// Prints a text.
    pub fn print(&mut self, text: &str) -> Result<(), Failure>
        ensures printed { OnOk result
            (Appends (W.contents (writer_of self.old)) (W.contents (writer_of self.new)) text.now) }
        ensures unwritten { IfErr result (λ failure. failure ≡ Unwritten) }
        ensures failed { IfErr result (λ _. failures_of self.new ≡ failures_of self.old + 1) }
        ensures kept { failures_of self.old ≤ failures_of self.new }
        ensures quiet { OnOk result (failures_of self.new ≡ failures_of self.old) }
    {
        self.print_bytes(text.as_bytes())
    }

    /// Prints some bytes.
    pub fn print_bytes(&mut self, bytes: &[u8]) -> Result<(), Failure>
        ensures printed { OnOk result
            (Appends (W.contents (writer_of self.old)) (W.contents (writer_of self.new)) bytes.now) }
        ensures unwritten { IfErr result (λ failure. failure ≡ Unwritten) }
        ensures failed { IfErr result (λ _. failures_of self.new ≡ failures_of self.old + 1) }
        ensures kept { failures_of self.old ≤ failures_of self.new }
        ensures quiet { OnOk result (failures_of self.new ≡ failures_of self.old) }
    {
        match self.writer.write_all(bytes) {
            Ok(()) => Ok(()),
            Err(_) => {
                self.failures.rise();
                Err(Failure::Unwritten)
            }
        }
    }

    /// Prints the line of a fault, piece by piece, so that it needs no memory.
    pub fn print_fault(&mut self, fault: Fault) -> Result<(), Failure>
        ensures printed { OnOk result
            (Appends (W.contents (writer_of self.old)) (W.contents (writer_of self.new))
            (fault_line fault)) }
        ensures unwritten { IfErr result (λ failure. failure ≡ Unwritten) }
        ensures failed { IfErr result (λ _. failures_of self.new ≡ failures_of self.old + 1) }
        ensures kept { failures_of self.old ≤ failures_of self.new }
        ensures quiet { OnOk result (failures_of self.new ≡ failures_of self.old) }
    {
        match writeln!(self.writer, "fault: {fault}") {
            Ok(()) => Ok(()),
            Err(_) => {
                self.failures.rise();
                Err(Failure::Unwritten)
            }
        }
    }
}
