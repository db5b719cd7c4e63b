//! A file as the log sees it: what a read gives, and what a crash may leave.
#![tactic(auto)]

ghost use Rattle.std.specs.Prelude.{◌≡◌, ◌≤◌, ◌+◌, List, ℕ, length, take, drop, OnOk, OnErr, IfErr, IsErr, IsTrue, if◌then◌else◌};
ghost use Rattle.units.specs.declared.fault.Fault.TheVariants.{Memory};
ghost use Rattle.disk.specs.declared.plan.FailurePlan.{FailurePlan};
ghost use Rattle.disk.specs.Image.{MayLeave, after_write, after_cut, after_sync, tried_write, tried_cut, IsWithin};
ghost use Rattle.disk.specs.File.{File, wrote, tried, cut, surface, with_change, synced};
ghost use Rattle.disk.specs.Planned.{fails, next, at_write, armed, IsAsPlanned};
ghost use Rattle.disk.specs.Moments.{Elapses, HasCause};

mod plan;

pub use plan::{FailurePlan, Fate};
use units::Fault;

/// One file on a device, with what a crash may leave of it. Lengths and offsets are in bytes. `reserve` fails with
/// `Fault::Memory`, and every other call with `Fault::Device`.
pub trait Disk {
    /// Says that disks of this type keep the disk model.
    ghost keeps_model: { Type 0 };

    /// Says that disks of this type fail only by their plan, as long as they have room.
    ghost obeys: { Type 0 };

    /// What the last sync left, and the changes since.
    ghost file: { Self → File };

    /// The moment, as a number that does not fall.
    ghost clock: { Self → ℕ };

    /// What a crash may have left at some moment from that one on, within a call or between two.
    ghost since: { Self → ℕ → List ℕ → Type 0 };

    /// How often the device has failed.
    ghost failures: { Self → ℕ };

    /// Which call is to fail.
    ghost plan: { Self → FailurePlan };

    /// Says that so many more changes and syncs, of so many bytes in all, need no memory.
    ghost has_room: { Self → ℕ → ℕ → Type 0 };

    /// Gives the length of the file, in bytes.
    fn len(&self) -> u64
        ensures { keeps_model → result ≡ length (surface (file self.now)).seen };

    /// Takes memory ahead for at most 8 changes and syncs, which change so many bytes in all. `Memory` comes if there
    /// is none.
    fn reserve(&mut self, bytes: u64) -> Result<(), Fault>
        ensures room { OnOk result (obeys → has_room self.new 8 bytes) }
        ensures cause { IfErr result (λ fault. fault ≡ Memory) }
        ensures same { file self.new ≡ file self.old }
        ensures plan { plan self.new ≡ plan self.old }
        ensures time { Elapses file clock since failures self.old self.new };

    /// Fills the buffer with the bytes from an offset on. All of the range lies in the file.
    fn read_at(&mut self, at: u64, buffer: &mut [u8]) -> Result<(), Fault>
        requires { keeps_model → at + length buffer.old ≤ length (surface (file self.old)).seen }
        ensures planned { obeys → IsAsPlanned (fails (plan self.old)) result }
        ensures plan { plan self.new ≡ next (plan self.old) }
        ensures room { (calls bytes : ℕ) → has_room self.old calls bytes
            → has_room self.new calls bytes }
        ensures bytes { OnOk result
            (keeps_model → buffer.new ≡
            take (length buffer.old) (drop at (surface (file self.old)).seen)) }
        ensures same { file self.new ≡ file self.old }
        ensures time { Elapses file clock since failures self.old self.new }
        ensures cause { HasCause (failures self.old) (failures self.new) result };

    /// Writes bytes at an offset, over what is there and past the end. The offset is at most the length. A crash
    /// before the next sync may lose the write or tear it.
    fn write_at(&mut self, at: u64, bytes: &[u8]) -> Result<(), Fault>
        requires { keeps_model → at ≤ length (surface (file self.old)).seen }
        ensures planned { (calls more : ℕ)
            → has_room self.old (calls + 1) (length bytes.now + more) →
            IsAsPlanned (fails (at_write (plan self.old))) result × has_room self.new calls more
            × (file self.new ≡
            with_change (if fails (at_write (plan self.old)) then tried at bytes.now
            else wrote at bytes.now)
            (file self.old)) }
        ensures plan { plan self.new ≡ next (at_write (plan self.old)) }
        ensures fails { obeys → IsTrue (fails (at_write (plan self.old))) → IsErr result }
        ensures failed { obeys
            → OnErr result ((surface (file self.new)).seen ≡ (surface (file self.old)).seen) }
        ensures written { OnOk result
            (keeps_model → surface (file self.new) ≡
            after_write at bytes.now (surface (file self.old))) }
        ensures crash { keeps_model
            → IsWithin (tried_write at (length bytes.now) (surface (file self.old)))
            (surface (file self.new)) }
        ensures time { Elapses file clock since failures self.old self.new }
        ensures cause { HasCause (failures self.old) (failures self.new) result };

    /// Cuts the file to a length in bytes, which is at most its own. A crash before the next sync may undo the cut.
    fn cut(&mut self, len: u64) -> Result<(), Fault>
        requires { keeps_model → len ≤ length (surface (file self.old)).seen }
        ensures planned { (calls more : ℕ) → has_room self.old (calls + 1) more →
            IsAsPlanned (fails (plan self.old)) result × has_room self.new calls more
            × (file self.new ≡
            (if fails (plan self.old) then file self.old
            else with_change (cut len) (file self.old))) }
        ensures plan { plan self.new ≡ next (plan self.old) }
        ensures fails { obeys → IsTrue (fails (plan self.old)) → IsErr result }
        ensures failed { obeys → OnErr result (file self.new ≡ file self.old) }
        ensures done { OnOk result
            (keeps_model → surface (file self.new) ≡ after_cut len (surface (file self.old))) }
        ensures crash { keeps_model → IsWithin (tried_cut len (surface (file self.old)))
            (surface (file self.new)) }
        ensures time { Elapses file clock since failures self.old self.new }
        ensures cause { HasCause (failures self.old) (failures self.new) result };

    /// Syncs the file: after it, a crash leaves what a read gives now.
    fn sync(&mut self) -> Result<(), Fault>
        ensures planned { (calls more : ℕ) → has_room self.old (calls + 1) more →
            IsAsPlanned (fails (plan self.old)) result × has_room self.new calls more
            × (file self.new ≡
            (if fails (plan self.old) then file self.old else synced (file self.old))) }
        ensures plan { plan self.new ≡ next (plan self.old) }
        ensures fails { obeys → IsTrue (fails (plan self.old)) → IsErr result }
        ensures failed { obeys → OnErr result (file self.new ≡ file self.old) }
        ensures durable { OnOk result
            (keeps_model → surface (file self.new) ≡ after_sync (surface (file self.old))) }
        ensures crash { keeps_model → IsWithin (surface (file self.old)) (surface (file self.new)) }
        ensures time { Elapses file clock since failures self.old self.new }
        ensures cause { HasCause (failures self.old) (failures self.new) result };

    /// Plans a failure, for tests. Of the calls `read_at`, `write_at`, `cut` and `sync`, one fails once: the one that
    /// comes so many calls after the next `write_at`, which is 0. With `None` none does. It does nothing on a real
    /// file.
    fn arm(&mut self, call: Option<u64>)
        ensures plan { obeys → plan self.new ≡ armed call }
        ensures room { (calls bytes : ℕ) → has_room self.old calls bytes
            → has_room self.new calls bytes }
        ensures same { file self.new ≡ file self.old }
        ensures failures { failures self.new ≡ failures self.old }
        ensures time { Elapses file clock since failures self.old self.new };

    /// Room for more is room for less.
    ghost room_less: { (disk : Self) (calls bytes fewer less : ℕ) → fewer ≤ calls → less ≤ bytes
        → has_room disk calls bytes → has_room disk fewer less };

    /// What a crash may leave now is among what it may have left since an earlier moment.
    ghost counts_now: { (disk : Self) (moment : ℕ) (image : List ℕ) → moment ≤ clock disk
        → MayLeave (surface (file disk)) image → since disk moment image };

    /// What a read gives now is among what a crash may leave now.
    ghost reads_now: { (disk : Self) → MayLeave (surface (file disk)) (surface (file disk)).seen };

    /// What a crash may have left since this very moment is what it may leave now.
    ghost only_now: { (disk : Self) (image : List ℕ) → since disk (clock disk) image
        → MayLeave (surface (file disk)) image };
}
