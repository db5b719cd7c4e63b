//! Who is told the place of a fault.
ghost use Rattle.std.specs.Prelude.{◌≡◌, ◌⊎◌, IfErr};
ghost use Rattle.units.specs.declared.fault.Fault.TheVariants.{Device, Memory};

use crate::places::place_of;
use host_files::HostFiles;
use std::alloc::Global;
use std::fs::File;
use std::io::{Error, ErrorKind, Input, Read};
use std::rt;
use system::Files;
use units::Fault;

/// Files, with the standard streams beside what a command prints: one is told lines on, and one gives a value.
pub trait Hints: Files {
    /// Tells a line.
    fn hint(&self, line: &str);

    /// The bytes of standard input, so many at most, which may be waited for. What the system refuses is `Device`.
    fn input(&self, alloc: Global, most: u64) -> Result<Vec<u8>, Fault>
        ensures { IfErr result (λ fault. (fault ≡ Memory) ⊎ (fault ≡ Device)) };
}

impl<R: rt::Files<File = File> + Eprint + Input> Hints for HostFiles<'_, R> {
    fn hint(&self, line: &str) {
        let _told = self.rt.eprintln(line);
    }

    fn input(&self, alloc: Global, most: u64) -> Result<Vec<u8>, Fault> {
        let mut bytes = Vec::new(alloc);
        match self.rt.reader().take(most).read_to_end(&mut bytes) {
            Ok(_) => Ok(bytes),
            Err(error) => Err(fault_of(&error)),
        }
    }
}

// Why standard input was not read.
fn fault_of(error: &Error) -> Fault
    ensures { (result ≡ Memory) ⊎ (result ≡ Device) }
{
    match error.kind() {
        ErrorKind::OutOfMemory => Fault::Memory,
        _ => Fault::Device,
    }
}

/// Tells where the fault of a command lies, or what is wrong with its words, if that is known.
pub fn tell_place<F: Hints>(alloc: Global, files: &F, words: &[&str], fault: Fault) {
    if let Some(place) = place_of(alloc, files, words, fault) {
        files.hint(&place);
    }
}
