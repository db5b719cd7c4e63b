//! Laying out a log's file.
ghost use Rattle.std.specs.Prelude.{◌≡◌, ◌⊎◌, ◌≤◌, ◌<◌, ◌++◌, List, ℕ, length, drop, IfErr, OnOk};
ghost use Rattle.disk.specs.File.{surface};
ghost use Rattle.disk.specs.Image.{MayLeave, IsSynced};
ghost use Rattle.disk.specs.declared.plan.FailurePlan.TheVariants.{Never, AfterWrite};
ghost use Rattle.gatelog.specs.Frames.{header};
ghost use Rattle.gatelog.specs.Laid.{HoldsBehind, WasLaid};

use crate::frame::HEADER;
use disk::Disk;
use frames::write_and_sync;
use units::Fault;

/// Makes a file these bytes, synced, and then puts the header in the place of the first eight, and syncs. If it is
/// refused for `Memory`, the file is as it was.
pub fn lay_out<D: Disk>(disk: &mut D, bytes: &[u8]) -> Result<(), Fault>
    requires { 8 ≤ length bytes.now }
    ensures done { OnOk result
        (D.keeps_model → ((surface (D.file disk.new)).seen ≡ header ++ drop 8 bytes.now)
        × IsSynced (surface (D.file disk.new))) }
    // After the first sync a crash leaves the bytes that follow the first eight.
    ensures laid { OnOk result (D.keeps_model → WasLaid D.file D.clock D.since bytes.now
        (HoldsBehind bytes.now) disk.old disk.new) }
    // So does a crash after a call that is armed there, and fails.
    ensures late { (call : ℕ) → D.obeys → D.keeps_model → D.plan disk.old ≡ AfterWrite call
        → 2 ≤ call → IfErr result (λ fault. fault ≡ Fault.Device → (image : List ℕ)
        → MayLeave (surface (D.file disk.new)) image → HoldsBehind bytes.now image) }
    // With no call armed, the device does not fail.
    ensures planned { D.obeys → D.plan disk.old ≡ Never →
        IfErr result (λ fault. fault ≡ Fault.Memory) × (D.plan disk.new ≡ Never) }
    ensures failures_stay { D.failures disk.old ≤ D.failures disk.new }
    ensures cause { IfErr result (λ fault.
        ((fault ≡ Fault.Memory) × (D.file disk.new ≡ D.file disk.old)
        × (D.plan disk.new ≡ D.plan disk.old))
        ⊎ ((fault ≡ Fault.Device) × (D.failures disk.old < D.failures disk.new))) }
{
    disk.reserve(bytes.len() as u64 + 8)?;
    disk.cut(0)?;
    write_and_sync(disk, 0, bytes)?;
    write_and_sync(disk, 0, &HEADER)
}
