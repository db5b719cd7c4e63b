//! Versions that no look needs are let go.
ghost use Rattle.std.specs.Prelude.{◌≡◌, IfErr, OnOk};
ghost use Rattle.ledger.specs.Turned.{held_facts};
ghost use Rattle.shard.specs.Held.{without_passed};

use crate::machine::Machine;
use crate::shard_core::Core;
use disk::Disk;
use std::alloc::Global;
use units::Fault;

impl<D: Disk> Core<D> {
    ghost use Rattle.shard.specs.Core.{seen, book_of};

    /// Lets the versions go that no look from the horizon up needs: of each key those below its newest that is not above the horizon. The
    /// others come together, in order by key and timestamp, as in a renewed log. The log stays, and what it holds. A core that keeps a book lets
    /// nothing go, since the book replays to what it had. `Memory` if there is none for the new list: then nothing goes.
    pub fn let_go(&mut self, alloc: Global) -> Result<(), Fault>
        ensures core { OnOk result (seen self.new ≡ record (seen self.old) {
          facts = without_passed (book_of self.old) (seen self.old).facts;
        }) }
        ensures book { book_of self.new ≡ book_of self.old }
        ensures refused { IfErr result
            (λ fault. (fault ≡ Fault.Memory) × (seen self.new ≡ seen self.old)) }
    {
        if self.book.is_some() {
            return Ok(());
        }
        self.machine.let_go(alloc)
    }
}

impl<D: Disk> Machine<D> {
    ghost use Rattle.shard.specs.Core.{seen_machine};

    // Lets the versions go that no look from the horizon up needs.
    fn let_go(&mut self, alloc: Global) -> Result<(), Fault>
        ensures facts { OnOk result (seen_machine self.new ≡
            record (seen_machine self.old) { facts = held_facts (seen_machine self.old).facts }) }
        ensures refused { IfErr result
            (λ fault. (fault ≡ Fault.Memory) × (seen_machine self.new ≡ seen_machine self.old)) }
    {
        self.state.let_go(alloc)
    }
}
