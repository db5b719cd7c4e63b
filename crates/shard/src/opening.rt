//! What an opening builds from the entries of a log, as a scan hands them over.
ghost use Rattle.std.specs.Prelude.{◌≡◌, ◌⊎◌, ◌++◌, ◌∷◌, [], Some, None, IsTrue, IfOk, IfErr, OnOk};
ghost use Rattle.std.specs.List.{list_all};
ghost use Rattle.book.specs.Books.{new_book};
ghost use Rattle.protocol.specs.Showable.{record_ascends};
ghost use Rattle.record.specs.Accepted.{Accepted, taken};
ghost use Rattle.shard.specs.Beginnings.{begun_in, found_in};
ghost use Rattle.recovery.specs.Recovered.{IsRebuilt, IsSoundlyRebuilt, fault_in, items};
ghost use Rattle.recovery.specs.Taken.{taken_by, setup_of};
ghost use Rattle.units.specs.declared.setup.Setup.{Setup};

use crate::begun::{Begun, Found};
use crate::booking::book_of_records;
use book::Book;
use gatelog::{Entry, Sink};
use memory::State;
use protocol::record_ascends;
use record::Record;
use recovery::Rebuild;
use std::alloc::Global;
use units::{Book as Setting, Fault, Setup};

/// The state that the entries leave, and their records for the book, if one is to be kept. It has to be spent.
pub(crate) struct Opening {
    rebuild: Rebuild,
    setting: Setting,
    found: Vec<Record>,
    begun: Found,
    ghost told: { setting ≡ (setup_of rebuild).book },
    ghost noted: { new_book setting found.items ≡ new_book setting (items (taken_by rebuild)) },
    ghost ascends: { IsTrue (list_all (λ e. record_ascends e.item) (taken_by rebuild)) },
    ghost begins: { begun ≡ found_in (taken_by rebuild) },
}

impl Opening {
    ghost use Rattle.shard.specs.Taking.{entries_in, told_to};

    /// Begins without an entry. `Memory` if memory runs out.
    pub(crate) fn new(alloc: Global, setup: &Setup) -> Result<Opening, Fault>
        ensures setup { IfOk result (λ made. told_to made ≡ setup.now) }
        ensures none { IfOk result (λ made. entries_in made ≡ []) }
        ensures memory { IfErr result (λ fault. fault ≡ Fault.Memory) }
    {
        Ok(Opening {
            rebuild: Rebuild::new(alloc, setup)?,
            setting: setup.book,
            found: Vec::new(alloc),
            begun: Found::nothing(),
        })
    }

    /// Tells where the log begins, which ends at this gate.
    pub(crate) fn begun(&self, gate: u64) -> Begun
        ensures { result ≡ begun_in (entries_in self.now) gate }
    {
        self.begun.up_to(gate)
    }

    /// Returns the state that the records leave and the book that is begun, or why the log is refused.
    pub(crate) fn finish(self, alloc: Global) -> Result<(Option<State>, Option<Book>), Fault>
        ensures found { IfOk result
            (λ left. IsRebuilt (told_to self) (items (entries_in self)) left.0) }
        ensures sound { IfOk result (λ left. IsSoundlyRebuilt (told_to self) left.0) }
        ensures accepted { OnOk result (taken (told_to self) (items (entries_in self)) ≡ Accepted) }
        ensures book { IfOk result
            (λ left. left.1 ≡ new_book (told_to self).book (items (entries_in self))) }
        ensures ascends { IsTrue (list_all (λ e. record_ascends e.item) (entries_in self)) }
        ensures refused { IfErr result (λ fault. (fault ≡ Fault.Memory)
            ⊎ (fault_in (taken (told_to self) (items (entries_in self))) (entries_in self) ≡ Some fault)) }
    {
        let Opening {
            rebuild,
            setting,
            found,
            begun: _,
        } = self;
        let state = match rebuild.finish() {
            Ok(state) => state,
            Err(fault) => {
                drop(found);
                return Err(fault);
            }
        };
        match book_of_records(alloc, setting, found) {
            Ok(book) => Ok((state, book)),
            Err(fault) => {
                if let Some(state) = state {
                    state.stop();
                }
                Err(fault)
            }
        }
    }

    /// Drops all that was built.
    pub(crate) fn stop(self) {
        let Opening {
            rebuild,
            setting: _,
            found,
            begun: _,
        } = self;
        rebuild.stop();
        drop(found);
    }
}

impl Sink for Opening {
    ghost use Rattle.recovery.specs.Taken.{taken_by, setup_of};

    ghost Told = { Setup };

    ghost told = { λ opening. setup_of opening.rebuild };

    ghost taken = { λ opening. taken_by opening.rebuild };

    fn take(&mut self, alloc: Global, entry: Entry) -> Result<(), Fault> {
        record_ascends(entry.item());
        let begun = self.begun.and(&entry);
        if let Setting::On(_) = self.setting {
            let copy = entry.item().copy(alloc)?;
            self.found.push(copy)?;
        }
        self.begun = begun;
        self.rebuild.take_over(alloc, entry)
    }
}
