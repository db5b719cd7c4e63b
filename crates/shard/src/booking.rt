//! The book of a core: it is begun at the opening, and gets a page for each input that is accepted.
ghost use Rattle.std.specs.Prelude.{◌≡◌, ◌⊎◌, ◌<◌, ◌≤◌, length, IsFalse, IfOk, IfErr, OnOk};
ghost use Rattle.disk.specs.File.{surface};
ghost use Rattle.book.specs.Books.{new_book, with_page};
ghost use Rattle.memory.specs.Plans.{plan_of};
ghost use Rattle.protocol.specs.Plan.{carried};
ghost use Rattle.protocol.specs.Step.{Does, facts_after};
ghost use Rattle.recovery.specs.Recovered.{items};
ghost use Rattle.shard.specs.Armed.{HasPlace};
ghost use Rattle.shard.specs.Booked.{IsCrowded};
ghost use Rattle.shard.specs.Core.{seen_machine};
ghost use Rattle.shard.specs.Due.{IsDue};
ghost use Rattle.shard.specs.Logs.{records_in, and_logged, KeepsRecords};
ghost use Rattle.shard.specs.On.{HasStepped, IsLogFull};

use crate::machine::Machine;
use book::{Book, Page};
use disk::Disk;
use memory::Step;
use message::{Input, Outbox};
use record::Record;
use std::alloc::Global;
use truetime::Reading;
use units::{Book as Setting, Fault};

// The book of an opening that found these records, if the shard is to keep one.
pub(crate) fn book_of_records(
    alloc: Global,
    setting: Setting,
    found: Vec<Record>,
) -> Result<Option<Book>, Fault>
    ensures new { IfOk result (λ book. book ≡ new_book setting found.items) }
    ensures memory { IfErr result (λ fault. fault ≡ Fault.Memory) }
{
    match setting {
        Setting::Off => {
            drop(found);
            Ok(None)
        }
        Setting::On(capacity) => {
            let Ok(book) = Book::new(alloc, capacity, found) else {
                return Err(Fault::Memory);
            };
            Ok(Some(book))
        }
    }
}

// The page of an input that would be accepted. Its memory is taken only if the log has room for the record, and the book for the page.
fn page_of<D: Disk>(
    machine: &Machine<D>,
    book: &Book,
    alloc: Global,
    now: &Reading,
    input: &Input,
    step: &Step,
) -> Result<Page, Fault>
    ensures page { IfOk result
        (λ page. page ≡ record { input = input.now; now = now.now; outbox = step.now.plan.outbox }) }
    ensures room { OnOk result (length book.now.pages < book.now.capacity) }
    ensures cause { IfErr result
        (λ fault. ((fault ≡ Fault.TimeSpent)
        × IsLogFull (seen_machine machine.now).gate step.now.logged)
        ⊎ (HasPlace (seen_machine machine.now).gate step.now.logged
        × (((fault ≡ Fault.BookFull) × (book.now.capacity ≤ length book.now.pages))
        ⊎ ((fault ≡ Fault.Memory) × (length book.now.pages < book.now.capacity))))) }
{
    if !machine.has_place(step) {
        return Err(Fault::TimeSpent);
    }
    if book.is_full() {
        return Err(Fault::BookFull);
    }
    Page::of(alloc, now, input, &step.plan.outbox)
}

// Carries out the step of an input, and adds its page. All memory is taken before.
pub(crate) fn write_page<D: Disk>(
    machine: &mut Machine<D>,
    book: &mut Book,
    alloc: Global,
    now: &Reading,
    input: &Input,
    step: Step,
) -> Result<Outbox, Fault>
    requires running { IsFalse (seen_machine machine.old).stopped }
    requires stands { D.keeps_model
        → KeepsRecords (surface (D.file (seen_machine machine.old).disk))
        (records_in (surface (D.file (seen_machine machine.old).disk)).seen) }
    requires due { IsDue machine.old.state step }
    ensures room { OnOk result (length book.old.pages < book.old.capacity) }
    ensures stepped { length book.old.pages < book.old.capacity →
        HasStepped D.keeps_model D.obeys D.file D.clock D.since D.failures D.plan
        (seen_machine machine.old) (seen_machine machine.new)
        (Does step.logged (carried
        (plan_of machine.old.state.memory.rows step) machine.old.state.memory) step.plan.outbox)
        result }
    ensures crowded { book.old.capacity ≤ length book.old.pages
        → IsCrowded (seen_machine machine.old) (seen_machine machine.new)
        (Does step.logged (carried
        (plan_of machine.old.state.memory.rows step) machine.old.state.memory) step.plan.outbox)
        result }
    ensures durable { OnOk result
        (D.keeps_model → KeepsRecords (surface (D.file (seen_machine machine.new).disk))
        (and_logged (records_in
        (surface (D.file (seen_machine machine.old).disk)).seen) step.logged)) }
    ensures out { IfOk result (λ out. out ≡ step.plan.outbox) }
    ensures page { IfOk result
        (λ out. book.new ≡ with_page book.old
        (record { input = input.now; now = now.now; outbox = out })) }
    ensures kept { IfErr result (λ fault. book.new ≡ book.old) }
    ensures order { IfErr result (λ fault. fault ≡ Fault.Memory
        → HasPlace (seen_machine machine.old).gate step.logged
        × (length book.old.pages < book.old.capacity)) }
{
    let page = match page_of(machine, book, alloc, now, input, &step) {
        Ok(page) => page,
        Err(fault) => {
            drop(step);
            return Err(fault);
        }
    };
    match machine.carry_out(alloc, step) {
        Ok(outbox) => {
            book.push(page);
            Ok(outbox)
        }
        Err(fault) => {
            drop(page);
            Err(fault)
        }
    }
}
