//! What a core does with an input, and what it answers.
ghost use Rattle.std.specs.Prelude.{◌≡◌};
ghost use Rattle.disk.specs.File.{surface};
ghost use Rattle.book.specs.Books.{HasBookRoom, IsBookFull};
ghost use Rattle.shard.specs.Booked.{HasEntered, IsCrowded};
ghost use Rattle.shard.specs.Core.{seen, book_of};
ghost use Rattle.shard.specs.Look.{IsLook, safe_at};
ghost use Rattle.shard.specs.On.{HasStepped, step_of};
ghost use Rattle.shard.specs.Settled.{IsDurablySettled};

use disk::Disk;
use message::{Input, Outbox};
use shard::Core;
use std::alloc::Global;
use truetime::Reading;
use units::{Fault, Key, Seen, Stamp};

/// Takes an input as the step of the definitions, or refuses it, and leaves what the contract says.
pub fn on<D: Disk>(
    core: &mut Core<D>,
    alloc: Global,
    now: &Reading,
    input: &Input,
) -> Result<Outbox, Fault>
    ensures stepped { HasBookRoom (seen core.old).setup.book (book_of core.old) →
        HasStepped D.keeps_model D.obeys D.file D.clock D.since D.failures D.plan
        (seen core.old) (seen core.new) (step_of (seen core.old) now.now input.now) result }
    ensures crowded { IsBookFull (seen core.old).setup.book (book_of core.old)
        → IsCrowded (seen core.old) (seen core.new)
        (step_of (seen core.old) now.now input.now) result }
    ensures settled { IsDurablySettled D.keeps_model
        (surface (D.file (seen core.new).disk)) input.now result }
    ensures entered { HasEntered (book_of core.old)
        (book_of core.new) now.now input.now result }
{
    core.on(alloc, now, input)
}

/// Answers a look exactly if its timestamp is safe and not below the horizon, with the value at that timestamp.
pub fn look<D: Disk>(core: &Core<D>, key: &Key, at: Stamp, buffer: &mut [u8]) -> Result<Seen, Fault>
    ensures { IsLook (seen core.now) key.now at buffer.old buffer.new result }
{
    core.look(key, at, buffer)
}

/// Returns the greatest timestamp at which looks are answered.
pub fn safe<D: Disk>(core: &Core<D>) -> Stamp
    ensures { result ≡ safe_at (seen core.now) }
{
    core.safe()
}
