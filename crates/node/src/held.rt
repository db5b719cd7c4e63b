//! What lies under a node's lock.
ghost use Rattle.std.specs.Prelude.{◌≡◌, ◌⊎◌, IfOk, IfErr, OnOk, IfSome, IfNone, IsSome, IsTrue, length, option_map};
ghost use Rattle.board.specs.Board.{first_entries};
ghost use Rattle.node.specs.DeskFaults.{refuses_input, refuses_advance, refuses_horizon, refuses_turnover};
ghost use Rattle.node.specs.InStep.{IsCount, IsNoDesk, home_of};
ghost use Rattle.node.specs.Faults.{RefusesRestart};
ghost use Rattle.node.specs.Grouped.{HasTakenIn, HasStoppedIn, IsOneByOneIn};
ghost use Rattle.node.specs.Moved.{HasMovedIn, HasNotMovedIn};
ghost use Rattle.node.specs.Restart.{AreOnNewBoard, HasRestarted, HasNotRestarted, is_at_rest, disk_of_place, told_of};
ghost use Rattle.node.specs.Seen.{seen_place};
ghost use Rattle.node.specs.Standing.{gauges_in};
ghost use Rattle.node.specs.Under.{IsDeskOf, IsUnder, IsEarliestIn, Became, HasDelivered, HasAdvancedIn, HasNotAdvancedIn, HasKeptUp, HasNotKeptUp, HasKeptIn};
ghost use Rattle.node.specs.Under.{HasLetGoIn, HasTurnedIn, HasRenewedIn, HasPublished, HasNotPublished, served_in};
ghost use Rattle.node.specs.Under.{is_ready_in, due_in, versions_in};
ghost use Rattle.shard.specs.Core.{seen, book_of};
ghost use Rattle.shard.specs.Look.{safe_at};
ghost use Rattle.shard.specs.On.{CoreView};

use crate::desk::Desk;
use crate::folder::LogFolder;
use crate::place::Place;
use crate::rest::Restarted;
use board::{Home, Told, Viewer, check_viewers};
use disk::Disk;
use letters::{Due, Gauges, Taken};
use message::{Input, Outbox};
use shard::Core;
use std::alloc::Global;
use std::sync::Wait;
use truetime::Reading;
use units::{Fault, Setup, Stamp, TxnId};

/// What the lock of a node guards. Whenever the lock is free, the place is there, and its core, if it has one, was told the same setup.
#[derive(Drop)]
pub struct Held<D: Disk + Drop, R: Wait + Drop> {
    /// What the shard is told when it is opened.
    pub setup: Setup,
    /// The desk, or the disk of one that was stopped.
    pub place: Option<Place<D, R>>,
    ghost there: { IsSome place },
    ghost told: { told_of setup (option_map seen_place place) ≡ setup },
}

impl<D: Disk + Drop, R: Wait + Drop> Held<D, R> {
    ghost use Rattle.node.specs.SeenHeld.{seen_held};

    /// Serves a core, and makes so many viewers of its board. If that is refused, the core comes back.
    pub fn new(
        rt: R,
        alloc: Global,
        core: Core<D>,
        n: usize,
    ) -> Result<(Held<D, R>, Vec<Viewer>), (Fault, Core<D>)>
        ensures setup { IfOk result (λ made. (seen_held made.0).setup ≡ (seen core).setup) }
        ensures desk { IfOk result (λ made. IsUnder (seen_held made.0)
            (λ place. IsDeskOf place (seen core) (book_of core) n made.1.items)) }
        ensures count { OnOk result (IsCount n) }
        ensures viewers { IfOk result (λ made. length made.1.items ≡ n) }
        ensures board { IfOk result (λ made. AreOnNewBoard n (seen core).setup
            (first_entries (seen core).facts.installs (safe_at (seen core))
            (seen core).facts.horizon) made.1.items) }
        ensures refused { IfErr result
            (λ refused. IsNoDesk n refused.0 × (seen refused.1 ≡ seen core)
            × (book_of refused.1 ≡ book_of core)) }
    {
        if let Err(fault) = check_viewers(n) {
            return Err((fault, core));
        }
        let setup = match core.setup().copy(alloc) {
            Ok(setup) => setup,
            Err(fault) => return Err((fault, core)),
        };
        match Desk::new(rt, alloc, core, n) {
            Ok((desk, viewers)) => {
                let place = Some(Place::Serving(desk));
                Ok((Held { setup, place }, viewers))
            }
            Err(refused) => {
                drop(setup);
                Err(refused)
            }
        }
    }

    /// Takes a step of the core. A disk alone refuses as a stopped core does.
    pub fn deliver(&mut self, now: &Reading, input: &Input) -> Result<Outbox, Fault>
        ensures delivered { Became (seen_held self.old) (seen_held self.new)
            (λ old. λ new. HasDelivered D.keeps_model D.obeys D.file D.clock D.since D.failures D.plan
            old new now.now input.now result) }
        ensures faults { IfErr result (λ fault. IsTrue (refuses_input fault)) }
    {
        match &mut self.place {
            Some(Place::Serving(desk)) => desk.deliver(now, input),
            Some(Place::Resting(_)) | None => Err(Fault::Stopped),
        }
    }

    /// Takes some inputs as a group, and after them what is due (`Desk::take_all`). `None` says that nothing was done, since a core that is
    /// stopped or keeps a book takes inputs one by one, and so does a disk alone. `Memory` says the same. After `Device` the disk is left
    /// alone, beside a board that shows what was published.
    pub fn take_all(&mut self, now: &Reading, inputs: &[Input]) -> Result<Option<Taken>, Fault>
        ensures taken { IfOk result (λ taken. IfSome taken (λ taken.
            Became (seen_held self.old) (seen_held self.new) (λ old. λ new.
            HasTakenIn D.keeps_model D.file D.clock D.since D.failures
            old new now.now inputs.now taken))) }
        ensures none { IfOk result (λ taken. IfNone taken
            (Became (seen_held self.old) (seen_held self.new) (λ old. λ new.
            (new ≡ old) × IsOneByOneIn old))) }
        ensures refused { IfErr result (λ fault.
            Became (seen_held self.old) (seen_held self.new) (λ old. λ new.
            ((fault ≡ Fault.Memory) × (new ≡ old)) ⊎ ((fault ≡ Fault.Device)
            × HasStoppedIn D.keeps_model D.file D.clock D.since D.failures
            old new now.now inputs.now))) }
    {
        let Some(place) = self.place.take() else {
            unreachable!()
        };
        let (place, taken) = place.take_all(now, inputs);
        self.place = Some(place);
        taken
    }

    /// Advances the core and publishes its board. A disk alone refuses as a stopped core does.
    pub fn advance(&mut self, now: &Reading, to: Stamp) -> Result<Told, Fault>
        ensures advanced { IfOk result (λ told. Became (seen_held self.old) (seen_held self.new)
            (λ old. λ new. HasAdvancedIn D.keeps_model D.obeys D.file D.clock D.since D.failures D.plan
            old new now.now to told)) }
        ensures refused { IfErr result (λ fault. Became (seen_held self.old) (seen_held self.new)
            (λ old. λ new. HasNotAdvancedIn D.keeps_model D.obeys D.file D.clock D.since D.failures D.plan
            old new now.now to fault)) }
        ensures faults { IfErr result (λ fault. IsTrue (refuses_advance fault)) }
    {
        match &mut self.place {
            Some(Place::Serving(desk)) => desk.advance(now, to),
            Some(Place::Resting(_)) | None => Err(Fault::Stopped),
        }
    }

    /// Advances to the latest of the reading, and shows that. Returns the timestamp up to which it serves then; `None` if it was refused.
    pub fn keep_up(&mut self, now: &Reading) -> Option<Stamp>
        ensures kept { IfSome result (λ safe. Became (seen_held self.old) (seen_held self.new)
            (λ old. λ new. HasKeptUp D.keeps_model D.obeys D.file D.clock D.since D.failures D.plan
            old new now.now safe)) }
        ensures refused { IfNone result (Became (seen_held self.old) (seen_held self.new)
            (λ old. λ new. HasNotKeptUp D.keeps_model D.obeys D.file D.clock D.since D.failures D.plan
            old new now.now)) }
    {
        match self.advance(now, now.latest()) {
            Ok(told) => Some(told.safe()),
            Err(_) => None,
        }
    }

    /// Publishes what the core has, up to the time that it serves already (`Desk::publish`). Returns the timestamp up to which it serves then;
    /// `None` if it was refused.
    pub fn publish(&mut self, now: &Reading) -> Option<Stamp>
        ensures published { IfSome result
            (λ safe. Became (seen_held self.old) (seen_held self.new)
            (λ old. λ new. HasPublished D.keeps_model D.obeys D.file D.clock D.since D.failures D.plan
            old new now.now safe)) }
        ensures refused { IfNone result (Became (seen_held self.old) (seen_held self.new)
            (λ old. λ new. HasNotPublished D.keeps_model D.obeys D.file D.clock D.since D.failures D.plan
            old new now.now)) }
    {
        match self.show(now) {
            Ok(told) => Some(told.safe()),
            Err(_) => None,
        }
    }

    // Publishes what the core has. A disk alone refuses as a stopped core does.
    fn show(&mut self, now: &Reading) -> Result<Told, Fault>
        ensures shown { IfOk result (λ told. Became (seen_held self.old) (seen_held self.new)
            (λ old. λ new. HasAdvancedIn D.keeps_model D.obeys D.file D.clock D.since D.failures D.plan
            old new now.now (served_in old now.now) told)) }
        ensures refused { IfErr result (λ fault. Became (seen_held self.old) (seen_held self.new)
            (λ old. λ new. HasNotAdvancedIn D.keeps_model D.obeys D.file D.clock D.since D.failures D.plan
            old new now.now (served_in old now.now) fault)) }
    {
        match &mut self.place {
            Some(Place::Serving(desk)) => desk.publish(now),
            Some(Place::Resting(_)) | None => Err(Fault::Stopped),
        }
    }

    /// Raises the core's horizon, but keeps so many microseconds (`Desk::keep_for`). A disk alone refuses as a stopped core does.
    pub fn keep_for(&mut self, now: &Reading, micros: u64) -> Result<(), Fault>
        ensures kept { Became (seen_held self.old) (seen_held self.new)
            (λ old. λ new. HasKeptIn D.keeps_model D.obeys D.file D.clock D.since D.failures D.plan
            old new now.now micros result) }
        ensures faults { IfErr result (λ fault. IsTrue (refuses_horizon fault)) }
    {
        match &mut self.place {
            Some(Place::Serving(desk)) => desk.keep_for(now, micros),
            Some(Place::Resting(_)) | None => Err(Fault::Stopped),
        }
    }

    /// Lets versions of the core go (`Desk::let_go`). A disk alone has none, and says no.
    pub fn let_go(&mut self) -> Result<bool, Fault>
        ensures gone { IfOk result (λ went. Became (seen_held self.old) (seen_held self.new)
            (λ old. λ new. HasLetGoIn went old new)) }
        ensures refused { IfErr result (λ fault. (fault ≡ Fault.Memory)
            × Became (seen_held self.old) (seen_held self.new) (λ old. λ new. new ≡ old)) }
    {
        match &mut self.place {
            Some(Place::Serving(desk)) => desk.let_go(),
            Some(Place::Resting(_)) | None => Ok(false),
        }
    }

    /// Turns the log of the core over. A disk alone refuses as a stopped core does.
    pub fn turn_over(&mut self) -> Result<(), Fault>
        ensures turned { Became (seen_held self.old) (seen_held self.new)
            (λ old. λ new. HasTurnedIn D.keeps_model D.obeys D.file D.clock D.since D.failures D.plan
            old new result) }
        ensures faults { IfErr result (λ fault. IsTrue (refuses_turnover fault)) }
    {
        match &mut self.place {
            Some(Place::Serving(desk)) => desk.turn_over(),
            Some(Place::Resting(_)) | None => Err(Fault::Stopped),
        }
    }

    /// Raises the horizon, and turns the log over if it has grown (`Desk::renew`). A disk alone refuses as a stopped core does.
    pub fn renew(&mut self, now: &Reading, micros: u64, least: u64) -> Result<(), Fault>
        ensures renewed { Became (seen_held self.old) (seen_held self.new)
            (λ old. λ new. HasRenewedIn D.keeps_model D.obeys D.file D.clock D.since D.failures D.plan
            old new now.now micros least result) }
        ensures faults { IfErr result (λ fault. IsTrue (refuses_horizon fault)) }
    {
        match &mut self.place {
            Some(Place::Serving(desk)) => desk.renew(now, micros, least),
            Some(Place::Resting(_)) | None => Err(Fault::Stopped),
        }
    }

    /// Puts a renewed log in a new disk in the place of the log, and goes on there (`Desk::move_on`). A disk alone says no. After `Device` either the
    /// desk is as it was, and no renewed log was made; or a disk is left alone, beside a board that shows what was published.
    pub fn move_on<F: LogFolder<D>>(
        &mut self,
        folder: &F,
        least: u64,
        beyond: u64,
    ) -> Result<bool, Fault>
        ensures moved { IfOk result (λ moved. Became (seen_held self.old) (seen_held self.new)
            (λ old. λ new. HasMovedIn D.keeps_model D.file least beyond moved old new)) }
        ensures refused { IfErr result (λ fault. Became (seen_held self.old) (seen_held self.new)
            (λ old. λ new. HasNotMovedIn least beyond fault old new)) }
        ensures faults { IfErr result (λ fault. IsTrue (refuses_turnover fault)) }
    {
        let Some(place) = self.place.take() else {
            unreachable!()
        };
        let (place, moved) = place.move_on(folder, least, beyond);
        self.place = Some(place);
        moved
    }

    /// Tells whether a transaction waits whose wait can be granted.
    pub fn is_ready(&self) -> bool
        ensures { IsUnder (seen_held self.now) (λ place. result ≡ is_ready_in place) }
    {
        match &self.place {
            Some(Place::Serving(desk)) => desk.core().ready().is_some(),
            Some(Place::Resting(_)) | None => false,
        }
    }

    /// Gives the n-th transaction of this standing, with the timestamp at which it is prepared or decided.
    pub fn due(&self, due: Due, n: usize) -> Option<(TxnId, Stamp)>
        ensures { IsUnder (seen_held self.now) (λ place. result ≡ due_in place due n) }
    {
        let Some(Place::Serving(desk)) = &self.place else {
            return None;
        };
        match due {
            Due::Decided => desk.core().decided(n),
            Due::Prepared => desk.core().prepared(n),
        }
    }

    /// Gives the transaction with the least timestamp that is decided and not settled, with that timestamp. A disk alone has none.
    pub fn earliest_decided(&self) -> Option<(TxnId, Stamp)>
        ensures { IsUnder (seen_held self.now) (λ place. IsEarliestIn place result) }
    {
        match &self.place {
            Some(Place::Serving(desk)) => desk.core().earliest_decided(),
            Some(Place::Resting(_)) | None => None,
        }
    }

    /// Tells whether the core is stopped. A disk alone is.
    pub fn is_stopped(&self) -> bool
        ensures { IsUnder (seen_held self.now) (λ place. result ≡ is_at_rest place) }
    {
        match &self.place {
            Some(Place::Serving(desk)) => desk.core().is_stopped(),
            Some(Place::Resting(_)) | None => true,
        }
    }

    /// Counts the versions of the core. A disk alone has none.
    pub fn versions(&self) -> usize
        ensures { IsUnder (seen_held self.now) (λ place. result ≡ versions_in place) }
    {
        match &self.place {
            Some(Place::Serving(desk)) => desk.core().installs().len(),
            Some(Place::Resting(_)) | None => 0,
        }
    }

    /// Tells how the core stands. A disk alone is not served.
    pub fn gauges(&self) -> Gauges
        ensures { IsUnder (seen_held self.now) (λ place. result ≡ gauges_in place) }
    {
        match &self.place {
            Some(Place::Serving(desk)) => desk.gauges(),
            Some(Place::Resting(_)) | None => Gauges::none(),
        }
    }

    /// Gives the keys of the shard, as it was told them.
    pub fn home(&self, alloc: Global) -> Result<Home, Fault>
        ensures home { IfOk result (λ home. home ≡ home_of (seen_held self.now).setup) }
        ensures memory { IfErr result (λ fault. fault ≡ Fault.Memory) }
    {
        let splits = self.setup.splits.copy(alloc)?;
        let shard = self.setup.shard;
        Ok(Home { splits, shard })
    }

    /// Opens the disk of the shard again that its folder finds, as the shard was told before, with a new board and so many viewers (`Place::restart`).
    pub fn restart<F: LogFolder<D>>(
        &mut self,
        rt: R,
        alloc: Global,
        folder: &F,
        n: usize,
    ) -> Result<Restarted<R>, Fault>
        ensures restarted { IfOk result (λ made. Became (seen_held self.old) (seen_held self.new)
            (λ old. λ new. HasRestarted D.keeps_model D.obeys D.file D.clock D.since D.failures D.plan
            F.may_find old new (seen_held self.old).setup n made.viewers.items made.former)) }
        ensures refused { IfErr result (λ fault. Became (seen_held self.old) (seen_held self.new)
            (λ old. λ new. HasNotRestarted D.keeps_model D.obeys D.file D.clock D.since D.failures D.plan
            F.may_find old new (seen_held self.old).setup n fault)) }
        ensures board { IfOk result (λ made. (core : CoreView D) × AreOnNewBoard n
            (seen_held self.old).setup (first_entries core.facts.installs (safe_at core)
            core.facts.horizon) made.viewers.items) }
        ensures count { OnOk result (IsCount n) }
        ensures viewers { IfOk result (λ made. length made.viewers.items ≡ n) }
        ensures faults { IfErr result (λ fault. RefusesRestart n fault) }
    {
        let Some(place) = self.place.take() else {
            unreachable!()
        };
        let (place, made) = place.restart(rt, alloc, folder, &self.setup, n);
        self.place = Some(place);
        made
    }

    /// Ends the desk, and gives its disk back as it is.
    pub fn close(self) -> D
        ensures { IsUnder (seen_held self) (λ place. result ≡ disk_of_place place) }
    {
        let Held { setup, place } = self;
        drop(setup);
        match place {
            Some(place) => place.close(),
            None => unreachable!(),
        }
    }
}
