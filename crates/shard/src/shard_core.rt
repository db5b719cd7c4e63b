//! The core of a shard.
ghost use Rattle.std.specs.Prelude.{◌≡◌, ◌⊎◌, ◌<◌, ◌^◌, [], ◌∷◌, Ok, Err, IsFalse, IfOk, IfErr, length, ◌≤◌, List, ℕ};
ghost use Rattle.std.specs.Option.{option_copied};
ghost use Rattle.disk.specs.File.{surface};
ghost use Rattle.disk.specs.Image.{MayLeave};
ghost use Rattle.disk.specs.Moments.{LeavesOnly};
ghost use Rattle.disk.specs.Planned.{armed};
ghost use Rattle.book.specs.Books.{HasBookRoom, IsBookFull, IsBookOf, new_book};
ghost use Rattle.gatelog.specs.Slots.{slot_count};
ghost use Rattle.memory.specs.Kept.{start_of};
ghost use Rattle.memory.specs.Plans.{plan_of};
ghost use Rattle.protocol.specs.Rows.{claims};
ghost use Rattle.protocol.specs.Sound.{IsSound};
ghost use Rattle.protocol.specs.Step.{plan_input};
ghost use Rattle.memory.specs.RowTable.{nth_prepared, nth_decided, decided_row, IsEarliest};
ghost use Rattle.units.specs.Lists.{gather};
ghost use Rattle.protocol.specs.Showable.{IsShowable};
ghost use Rattle.shard.specs.Agrees.{AgreesWithLog};
ghost use Rattle.shard.specs.Armed.{HasPlace};
ghost use Rattle.shard.specs.Beginnings.{IsBegunIn};
ghost use Rattle.shard.specs.Booked.{HasEntered, IsCrowded, IsFirst, stand_of};
ghost use Rattle.shard.specs.Due.{IsDue};
ghost use Rattle.shard.specs.Logs.{records_in, KeepsRecords};
ghost use Rattle.shard.specs.On.{HasStepped, step_of};
ghost use Rattle.ledger.specs.Keeps.{IsLasting};
ghost use Rattle.ledger.specs.Ledger.{AreInOrder};
ghost use Rattle.shard.specs.Opened.{HasOpened, HasNotOpened};
ghost use Rattle.shard.specs.Turned.{HasTurned};
ghost use Rattle.shard.specs.Look.{IsLook, safe_at};
ghost use Rattle.shard.specs.Settled.{IsDurablySettled};
ghost use Rattle.units.specs.Locks.{ready};

use crate::begun::Begun;
use crate::booking::write_page;
use crate::machine::Machine;
use crate::opening::Opening;
use book::{Book, a_page_is_a_step};
use disk::Disk;
use gatelog::GateLog;
use ledger::{Places, taken_lasts};
use memory::Step;
use message::{Input, Outbox};
use protocol::{own_refusals, taken_is_showable};
use record::{Record, accepted_follows, learn_agrees, learnt_agrees};
use std::alloc::Global;
use truetime::Reading;
use units::{Epoch, Fault, Install, Key, Seen, Setup, Stamp, TxnId, may_look, show};

/// A shard by itself: its log, its state in memory, and its book if it was told to keep one. Once a device call has failed in it, it is
/// stopped and refuses each input. It has to be spent, by `stop`.
pub struct Core<D: Disk> {
    pub(crate) machine: Machine<D>,
    pub(crate) book: Option<Book>,
    pub(crate) begun: Begun,
    ghost replays: { ∥ IsBookOf machine.state.setup book (record { facts = machine.state.facts; memory = machine.state.memory }) ∥₁ },
}

impl<D: Disk> Core<D> {
    ghost use Rattle.shard.specs.Core.{seen, seen_machine, book_of, begun_of};

    /// Opens the log of a disk: it rebuilds the state from the records, and logs the next opening. A refusal returns the disk. It is
    /// `Memory`, `Device`, or `NotALog`, `Damaged` or `Stranger` if the file holds no log of this shard. `TimeSpent` says that no epoch is
    /// left, or no room for the opening.
    pub fn open(alloc: Global, disk: D, setup: Setup) -> Result<Core<D>, (Fault, D)>
        ensures opened { IfOk result
            (λ core. HasOpened D.keeps_model D.obeys D.file D.clock D.since D.failures D.plan disk
            setup (seen core)) }
        // Its book, if it is to keep one, has the records that were found, and no page.
        ensures book { IfOk result
            (λ core. D.keeps_model → (records : List Record)
            → records_in (surface (D.file disk)).seen ≡ Ok records
            → book_of core ≡ new_book setup.book records) }
        ensures begun { IfOk result (λ core. D.keeps_model
            → IsBegunIn (surface (D.file disk)).seen (begun_of core)) }
        ensures refused { IfErr result
            (λ refused. HasNotOpened D.keeps_model D.obeys D.file D.clock D.since D.failures D.plan
            disk setup refused.0 refused.1) }
    {
        learnt_agrees();
        learn_agrees();
        accepted_follows();
        taken_is_showable();
        taken_lasts();
        let mut opening = match Opening::new(alloc, &setup) {
            Ok(opening) => opening,
            Err(fault) => return Err((fault, disk)),
        };
        let gate_log = match GateLog::scan(alloc, disk, &mut opening) {
            Ok(gate_log) => gate_log,
            Err(refused) => {
                opening.stop();
                return Err(refused);
            }
        };
        let begun = opening.begun(gate_log.gate());
        match opening.finish(alloc) {
            Ok((state, book)) => match state {
                Some(state) => Core::with_book(
                    Machine::take_up(alloc, gate_log, state),
                    book,
                    begun,
                ),
                None => Core::with_book(Machine::begin(alloc, gate_log, setup), book, begun),
            },
            Err(fault) => Err((fault, gate_log.into_disk())),
        }
    }

    // A machine with its book, if the machine was made.
    fn with_book(
        made: Result<Machine<D>, (Fault, D)>,
        book: Option<Book>,
        begun: Begun,
    ) -> Result<Core<D>, (Fault, D)>
        requires { IfOk made (λ machine. ∥ IsBookOf (seen_machine machine).setup book
            (stand_of (seen_machine machine)) ∥₁) }
        ensures made { IfOk result (λ core. (made ≡ Ok core.machine) × (book_of core ≡ book)) }
        ensures begun { IfOk result (λ core. begun_of core ≡ begun) }
        ensures refused { IfErr result (λ refused. made ≡ Err refused) }
    {
        match made {
            Ok(machine) => Ok(Core {
                machine,
                book,
                begun,
            }),
            Err(refused) => {
                drop(book);
                Err(refused)
            }
        }
    }

    /// Takes an input: a message or a chore. It logs at most one record, and returns the messages to be sent. All memory is taken before
    /// the record is written. A refusal leaves all as it was, except for `Device`: the core is then stopped, and each input is `Stopped`.
    /// If the core keeps a book, an accepted input adds a page. Once the book is full, an input that would be accepted is `BookFull`.
    pub fn on(&mut self, alloc: Global, now: &Reading, input: &Input) -> Result<Outbox, Fault>
        ensures stepped { HasBookRoom (seen self.old).setup.book (book_of self.old) →
            HasStepped D.keeps_model D.obeys D.file D.clock D.since D.failures D.plan
            (seen self.old) (seen self.new) (step_of (seen self.old) now.now input.now) result }
        ensures crowded { IsBookFull (seen self.old).setup.book (book_of self.old)
            → IsCrowded (seen self.old) (seen self.new)
            (step_of (seen self.old) now.now input.now) result }
        ensures settled { IsDurablySettled D.keeps_model
            (surface (D.file (seen self.new).disk)) input.now result }
        ensures entered { HasEntered (book_of self.old)
            (book_of self.new) now.now input.now result }
    {
        own_refusals();
        match self.machine.plan(alloc, now, input) {
            Ok(step) => self.enter(alloc, now, input, step),
            Err(fault) => Err(self.first_refusal(fault)),
        }
    }

    /// Turns the log over: it writes a renewed log of the core's facts into a new area of the file, which the next slot then names. The
    /// state and the book stay as they are. All memory is taken before the file is changed. `TimeSpent` if no slot is left, or the file
    /// would grow beyond 2^40 bytes. If no slot is left, no record is made.
    pub fn turn_over(&mut self, alloc: Global) -> Result<(), Fault>
        ensures turned { HasTurned D.keeps_model D.obeys D.file D.clock D.since D.failures D.plan
            (seen self.old) (seen self.new) result }
        ensures book { book_of self.new ≡ book_of self.old }
        ensures spent { IsFalse (seen self.old).stopped → slot_count ≤ (seen self.old).slot
            → result ≡ Err Fault.TimeSpent }
    {
        self.machine.turn_over(alloc)
    }

    // The refusal of a plan. A full book comes before `Memory`, except near the log's limit: there a full log would come before both,
    // and the record may not have been made.
    fn first_refusal(&self, fault: Fault) -> Fault
        ensures room { HasBookRoom (seen self.now).setup.book (book_of self.now)
            → result ≡ fault }
        ensures full { IsBookFull (seen self.now).setup.book (book_of self.now)
            → IsFirst (seen self.now).gate fault result }
    {
        match &self.book {
            Some(book)
                if fault == Fault::Memory
                    && book.is_full()
                    && !self.machine.gate_log.is_near_limit() => { Fault::BookFull }
            _ => fault,
        }
    }

    // Carries out the step of an input, and adds its page if a book is kept.
    fn enter(
        &mut self,
        alloc: Global,
        now: &Reading,
        input: &Input,
        step: Step,
    ) -> Result<Outbox, Fault>
        requires running { IsFalse (seen self.old).stopped }
        requires stands { D.keeps_model
            → KeepsRecords (surface (D.file (seen self.old).disk))
            (records_in (surface (D.file (seen self.old).disk)).seen) }
        requires planned { plan_input self.old.machine.state.setup
            (start_of self.old.machine.state) now.now input.now ≡ Ok
            (plan_of self.old.machine.state.memory.rows step) }
        requires due { IsDue self.old.machine.state step }
        ensures stepped { HasBookRoom (seen self.old).setup.book (book_of self.old) →
            HasStepped D.keeps_model D.obeys D.file D.clock D.since D.failures D.plan
            (seen self.old) (seen self.new) (step_of (seen self.old) now.now input.now) result }
        ensures crowded { IsBookFull (seen self.old).setup.book (book_of self.old)
            → IsCrowded (seen self.old) (seen self.new)
            (step_of (seen self.old) now.now input.now) result }
        ensures settled { IsDurablySettled D.keeps_model
            (surface (D.file (seen self.new).disk)) input.now result }
        ensures entered { HasEntered (book_of self.old)
            (book_of self.new) now.now input.now result }
        ensures order { IfErr result (λ fault. fault ≡ Fault.Memory
            → HasPlace (seen self.old).gate step.logged
            × HasBookRoom (seen self.old).setup.book (book_of self.old)) }
    {
        a_page_is_a_step();
        match &mut self.book {
            None => self.machine.carry_out(alloc, step),
            Some(book) => write_page(&mut self.machine, book, alloc, now, input, step),
        }
    }

    /// Returns the oldest transaction that waits and would be granted now: `Resume` goes on with it.
    pub fn ready(&self) -> Option<TxnId>
        ensures { result ≡ ready (claims (seen self.now).memory.rows) }
    {
        self.machine.state.ready()
    }

    /// Returns how many transactions have a row here: 1,024 at most.
    pub fn rows(&self) -> usize
        ensures { result ≡ length (seen self.now).memory.rows }
    {
        self.machine.state.rows()
    }

    /// Returns the n-th prepared transaction, from 0 by ascending id, and its prepare timestamp.
    pub fn prepared(&self, n: usize) -> Option<(TxnId, Stamp)>
        ensures { result ≡ nth_prepared (seen self.now).memory.rows n }
    {
        self.machine.state.nth_prepared(n)
    }

    /// Returns the n-th transaction that is decided and not settled, from 0 by ascending id, and its commit timestamp.
    pub fn decided(&self, n: usize) -> Option<(TxnId, Stamp)>
        ensures { result ≡ nth_decided (seen self.now).memory.rows n }
    {
        self.machine.state.nth_decided(n)
    }

    /// Returns a transaction that is decided and not settled, with the least commit timestamp, and that timestamp. `None` if there is none.
    pub fn earliest_decided(&self) -> Option<(TxnId, Stamp)>
        ensures { IsEarliest (gather decided_row (seen self.now).memory.rows) result }
    {
        self.machine.state.earliest_decided()
    }

    /// Looks up the value of a key at a timestamp, and puts it at the front of the buffer. A stopped core still answers. `Stranger` if the
    /// key is another shard's, `TooOld` below the horizon, `NotYet` above the safe time, `Room` if the buffer is too short.
    pub fn look(&self, key: &Key, at: Stamp, buffer: &mut [u8]) -> Result<Seen, Fault>
        ensures { IsLook (seen self.now) key.now at buffer.old buffer.new result }
    {
        let state = &self.machine.state;
        may_look(state.setup().owns(key), state.horizon(), state.safe(), at)?;
        show(state.value_at(key, at), buffer)
    }

    /// Returns the horizon, below which no value is read, 0 if there is none.
    pub fn horizon(&self) -> Stamp
        ensures { result ≡ (seen self.now).facts.horizon }
    {
        self.machine.state.horizon()
    }

    /// Returns the safe time: the greatest timestamp at which looks are answered.
    pub fn safe(&self) -> Stamp
        ensures { result ≡ safe_at (seen self.now) }
    {
        self.machine.state.safe()
    }

    /// Returns the greatest timestamp that was assigned, applied or served.
    pub fn last(&self) -> Stamp
        ensures { result ≡ (seen self.now).memory.last }
    {
        self.machine.state.last()
    }

    /// Returns the offset of the closed gate in the file, in bytes: the log ends there.
    pub fn gate(&self) -> u64
        ensures { result ≡ (seen self.now).gate }
    {
        self.machine.gate_log.gate()
    }

    /// Returns how often the file was turned over: 1,024 times at most.
    pub fn turnovers(&self) -> u64
        ensures { result ≡ (seen self.now).slot }
    {
        self.machine.gate_log.slot()
    }

    /// Tells where the log began when it was opened.
    pub fn begun(&self) -> Begun
        ensures { result ≡ begun_of self.now }
    {
        self.begun
    }

    /// Returns the epoch: how often the log was opened.
    pub fn epoch(&self) -> Epoch
        ensures { result ≡ (seen self.now).facts.epoch }
    {
        self.machine.state.epoch()
    }

    /// Returns the versions, in the log's order.
    pub fn installs(&self) -> &[Install]
        ensures { result.now ≡ (seen self.now).facts.installs }
    {
        self.machine.state.installs()
    }

    /// Returns the places of the versions in order, by key and timestamp.
    pub fn places(&self) -> &Places
        ensures { AreInOrder (seen self.now).facts result.now }
    {
        self.machine.state.places()
    }

    /// Returns the book, if the core keeps one. Replayed from the state that the opening left, its pages lead to what the core knows and
    /// keeps, and put out the messages that stand in them.
    pub fn book(&self) -> Option<&Book>
        ensures same { option_copied result ≡ book_of self.now }
        ensures replays { ∥ IsBookOf (seen self.now).setup (book_of self.now)
            (stand_of (seen self.now)) ∥₁ }
    {
        self.book.as_ref()
    }

    /// Arms a device call for tests: the one that comes this many calls after the next append begins fails once. `None` disarms it. This
    /// goes to the disk and changes nothing else, even in a stopped core.
    pub fn arm(&mut self, call: Option<u64>)
        ensures plan { D.obeys → D.plan (seen self.new).disk ≡ armed call }
        ensures log { ((seen self.new).gate ≡ (seen self.old).gate)
            × ((seen self.new).stopped ≡ (seen self.old).stopped) }
        ensures slot { (seen self.new).slot ≡ (seen self.old).slot }
        ensures state { ((seen self.new).setup ≡ (seen self.old).setup)
            × ((seen self.new).facts ≡ (seen self.old).facts)
            × ((seen self.new).memory ≡ (seen self.old).memory) }
        ensures file { (D.file (seen self.new).disk ≡ D.file (seen self.old).disk)
            × (D.failures (seen self.new).disk ≡ D.failures (seen self.old).disk) }
        ensures book { book_of self.new ≡ book_of self.old }
        ensures any_moment { LeavesOnly D.clock D.since (seen self.old).disk (seen self.new).disk
            (MayLeave (surface (D.file (seen self.old).disk))) }
    {
        self.machine.gate_log.arm(call);
    }

    /// Ends the core, and returns its disk as it is.
    pub fn stop(self) -> D
        ensures { result ≡ (seen self).disk }
    {
        let Core {
            machine,
            book,
            begun: _,
        } = self;
        drop(book);
        machine.stop()
    }
}

// What a core says about itself.
impl<D: Disk> Core<D> {
    ghost use Rattle.shard.specs.Core.{seen, book_of};

    /// Returns what the shard was told when it was opened.
    pub fn setup(&self) -> &Setup
        ensures { result.now ≡ (seen self.now).setup }
    {
        self.machine.state.setup()
    }

    /// Tells whether the device failed, so that each input is refused. Open the disk again once the cause is gone.
    pub fn is_stopped(&self) -> bool
        ensures { result ≡ (seen self.now).stopped }
    {
        self.machine.gate_log.is_stopped()
    }

    /// Says that its rows, facts and locks agree, its versions may be put on a board, its facts may be renewed, and its book replays. The
    /// facts are alike to those of its log; in a stopped core, to those of the log before the call that stopped it. It does nothing.
    pub fn is_sound(&self)
        ensures sound { ∥ IsSound (seen self.now).setup.shard (seen self.now).facts
            (seen self.now).memory ∥₁ }
        ensures showable { IsShowable (seen self.now).facts (seen self.now).memory }
        ensures lasting { IsLasting (seen self.now).facts }
        ensures agrees { D.keeps_model → ∥ AgreesWithLog (seen self.now).stopped
            (surface (D.file (seen self.now).disk)) (seen self.now).facts ∥₁ }
        ensures replays { ∥ IsBookOf (seen self.now).setup (book_of self.now)
            (stand_of (seen self.now)) ∥₁ }
    {}
}
