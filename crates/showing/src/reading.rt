//! What the file of a log holds.
ghost use Rattle.std.specs.Prelude.{◌≡◌, ◌⊎◌, ◌<◌, ◌++◌, Ok, Err, Some, IfOk, IfErr, IsTrue, codes};
ghost use Rattle.std.specs.Fmt.{decimal};
ghost use Rattle.disk.specs.File.{surface};
ghost use Rattle.disk.specs.Moments.{HasCause};
ghost use Rattle.gatelog.specs.Log.{is_no_log};
ghost use Rattle.showing.specs.Dumps.{dump_of, end_behind, end_text};

use disk::Disk;
use gatelog::{Entry, GateLog};
use std::alloc::Global;
use std::fmt;
use units::Fault;

/// What stands after the last record of a log.
#[derive(Clone, Copy)]
pub enum End {
    /// A closed gate at this offset, which is the last byte of the file.
    Closed(u64),
    /// A gate at this offset that is not open, and more: what is left of a record that was not finished.
    Torn(u64),
}

impl fmt::Display for End {
    ghost output = { λ end. Some (end_text end) };

    fn fmt<W: fmt::Write>(&self, f: &mut fmt::Formatter<W>) -> fmt::Result {
        match self {
            End::Closed(gate) => write!(f, "closed at {gate}"),
            End::Torn(gate) => write!(f, "torn at {gate}"),
        }
    }
}

/// The records of a log, each with the offset of its gate, and how the file ends.
#[derive(Drop)]
pub struct Dump {
    pub entries: Vec<Entry>,
    pub end: End,
}

/// What the file of a log holds. Whether its records follow one another is not asked. Nothing is written.
pub fn read_dump<D: Disk + Drop>(alloc: Global, disk: D) -> Result<Dump, Fault>
    ensures dump { D.keeps_model → IfOk result (λ dump.
        dump_of (surface (D.file disk)).seen ≡ Ok (dump.entries.items, dump.end)) }
    ensures refused { IfErr result (λ fault. (fault ≡ Fault.Memory)
        ⊎ (((fault ≡ Fault.Device) × ((back : D) × (D.failures disk < D.failures back)))
        ⊎ (IsTrue (is_no_log fault)
        × (D.keeps_model → dump_of (surface (D.file disk)).seen ≡ Err fault)))) }
{
    match GateLog::open(alloc, disk) {
        Ok((log, entries)) => {
            let gate = log.gate();
            let mut disk = log.into_disk();
            let end = read_end(&mut disk, gate)?;
            Ok(Dump { entries, end })
        }
        Err((fault, disk)) => {
            drop(disk);
            Err(fault)
        }
    }
}

// What stands at a gate that is not open.
fn read_end<D: Disk>(disk: &mut D, gate: u64) -> Result<End, Fault>
    ensures end { D.keeps_model → IfOk result (λ end.
        end ≡ end_behind gate (surface (D.file disk.old)).seen) }
    ensures cause { HasCause (D.failures disk.old) (D.failures disk.new) result }
{
    let len = disk.len();
    if len <= gate || len - gate != 1 {
        return Ok(End::Torn(gate));
    }
    let mut byte = [1];
    disk.read_at(gate, &mut byte)?;
    if byte == [0] {
        Ok(End::Closed(gate))
    } else {
        Ok(End::Torn(gate))
    }
}
