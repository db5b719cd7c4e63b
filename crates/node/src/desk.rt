//! The core of a shard, and the publisher of its board.
ghost use Rattle.std.specs.Prelude.{◌≡◌, ◌<◌, ◌+◌, ◌++◌, Some, true, length, min, IfOk, IfErr, IfSome, IfNone, IsTrue, OnOk};
ghost use Rattle.board.specs.Board.{first_entries, horizon_on, is_board, AreInOrder};
ghost use Rattle.disk.specs.File.{surface};
ghost use Rattle.node.specs.DeskFaults.{refuses_input, refuses_advance, refuses_horizon, refuses_turnover};
ghost use Rattle.node.specs.InStep.{InStep, IsInStep, IsNewBoard, AreOnBoard, IsNoDesk, StillShows, ShowsAll, HasAdvanced, HasNotAdvanced, HasTaken};
ghost use Rattle.node.specs.InStep.{HasKept, HasLetGo, IsCount, horizon_for as horizon_kept, served_by};
ghost use Rattle.node.specs.Moved.{HasMoved, HasMovedIf, IsLeftOf, IsLong, IsUnmoved, tried_of};
ghost use Rattle.node.specs.Opening.{HasNoDesk, IsBegun};
ghost use Rattle.node.specs.Standing.{gauges_of};
ghost use Rattle.node.specs.Renewed.{HasTurnedOver, HasRenewed, IsFoundIn, found_at};
ghost use Rattle.shard.specs.Core.{seen, book_of, begun_of};
ghost use Rattle.shard.specs.Look.{safe_at};
ghost use Rattle.shard.specs.Opened.{HasOpened};
ghost use Rattle.shard.specs.Settled.{IsDurablySettled};

use crate::folder::LogFolder;
use crate::group::take_group;
use crate::measure::Measure;
use crate::rest::Rest;
use board::{Places, Publisher, Told, Viewer, check_viewers, copy_install, start};
use disk::Disk;
use letters::{Gauges, Taken};
use message::{Input, Outbox};
use protocol::{own_refusals, step_keeps_showable, writes_ascend};
use shard::Core;
use std::alloc::Global;
use std::sync::Wait;
use truetime::Reading;
use units::{Fault, Install, Setup, Stamp};

/// The core of a shard with the publisher of its board (the desk). The board shows what the first versions of the core say, from the core's
/// horizon up. Its served time and its horizon are at most the core's. The handle `R` is for the publisher, which waits for viewers. The core's
/// log is measured when the desk is made, by where the log begins, and at each turnover.
pub struct Desk<D: Disk + Drop, R: Wait + Drop> {
    alloc: Global,
    core: Core<D>,
    publisher: Publisher<R>,
    handed: usize,
    told: Stamp,
    measure: Measure,
    ghost in_step: { IsInStep (seen core) handed publisher },
    ghost horizon: { horizon_on (publisher.published ++ publisher.pending) ≡ told },
}

impl<D: Disk + Drop, R: Wait + Drop> Drop for Desk<D, R> {
    fn drop(self) {
        drop(self.close());
    }
}

impl<D: Disk + Drop, R: Wait + Drop> Desk<D, R> {
    ghost use Rattle.node.specs.SeenDesk.{seen_desk};
    ghost use Rattle.node.specs.SeenRest.{seen_rest};
    ghost use Rattle.node.specs.Grouped.{HasTakenTogether, HasStoppedTogether, IsOneByOne};

    /// Makes a desk for a core, and so many viewers of its board. The board shows the core's versions, its horizon and its served time.
    pub fn new(
        rt: R,
        alloc: Global,
        core: Core<D>,
        n: usize,
    ) -> Result<(Desk<D, R>, Vec<Viewer>), (Fault, Core<D>)>
        ensures core { IfOk result
            (λ made. ((seen_desk made.0).core ≡ seen core)
            × ((seen_desk made.0).book ≡ book_of core)) }
        ensures board { IfOk result (λ made.
            IsNewBoard (seen_desk made.0).board
            (first_entries (seen core).facts.installs (safe_at (seen core))
            (seen core).facts.horizon)) }
        ensures viewers { IfOk result
            (λ made. AreOnBoard n (seen core).setup (seen_desk made.0).board made.1.items) }
        ensures measure { IfOk result
            (λ made. (seen_desk made.0).measure ≡ found_at (begun_of core)) }
        ensures count { OnOk result (IsCount n) }
        ensures refused { IfErr result
            (λ refused. IsNoDesk n refused.0 × (seen refused.1 ≡ seen core)
            × (book_of refused.1 ≡ book_of core)) }
    {
        core.is_sound();
        let handed = core.installs().len();
        let told = core.horizon();
        let measure = Measure::found(core.begun());
        match board_of(
            rt,
            alloc,
            core.setup(),
            core.installs(),
            core.places(),
            core.safe(),
            told,
            n,
        ) {
            Ok((publisher, viewers)) => Ok((
                Desk {
                    alloc,
                    core,
                    publisher,
                    handed,
                    told,
                    measure,
                },
                viewers,
            )),
            Err(fault) => Err((fault, core)),
        }
    }

    /// Opens the shard whose log a disk holds, as a core opens it, and makes so many viewers of its board. The next opening is logged.
    ///
    /// If it is refused, the disk comes back: as it was if no board has so many viewers, and with the opening logged if memory for the board
    /// is refused.
    pub fn open(
        rt: R,
        alloc: Global,
        disk: D,
        setup: &Setup,
        n: usize,
    ) -> Result<(Desk<D, R>, Vec<Viewer>), (Fault, D)>
        ensures opened { IfOk result
            (λ made. HasOpened D.keeps_model D.obeys D.file D.clock D.since D.failures D.plan
            disk setup.now (seen_desk made.0).core) }
        ensures book { IfOk result
            (λ made. IsBegun D.keeps_model D.obeys D.file D.clock D.since D.failures D.plan
            disk setup.now (seen_desk made.0).book) }
        ensures board { IfOk result (λ made. IsNewBoard (seen_desk made.0).board
            (first_entries (seen_desk made.0).core.facts.installs
            (safe_at (seen_desk made.0).core) (seen_desk made.0).core.facts.horizon)) }
        ensures viewers { IfOk result
            (λ made. AreOnBoard n setup.now (seen_desk made.0).board made.1.items) }
        ensures measure { IfOk result (λ made. D.keeps_model
            → IsFoundIn (surface (D.file disk)).seen (seen_desk made.0).measure) }
        ensures count { OnOk result (IsCount n) }
        ensures refused { IfErr result
            (λ refused. HasNoDesk D.keeps_model D.obeys D.file D.clock D.since D.failures D.plan
            disk setup.now n refused.0 refused.1) }
    {
        if let Err(fault) = check_viewers(n) {
            return Err((fault, disk));
        }
        let told = match setup.copy(alloc) {
            Ok(told) => told,
            Err(fault) => return Err((fault, disk)),
        };
        let core = match Core::open(alloc, disk, told) {
            Ok(core) => core,
            Err(refused) => return Err(refused),
        };
        match Desk::new(rt, alloc, core, n) {
            Ok(made) => Ok(made),
            Err((fault, core)) => Err((fault, core.stop())),
        }
    }

    /// Takes the step of the core, with its page if a book is kept. The board stays as it is.
    pub fn deliver(&mut self, now: &Reading, input: &Input) -> Result<Outbox, Fault>
        ensures stepped { HasTaken D.keeps_model D.obeys D.file D.clock D.since D.failures D.plan
            (seen_desk self.old).core (seen_desk self.new).core (seen_desk self.old).book
            (seen_desk self.new).book now.now input.now result }
        ensures settled { IsDurablySettled D.keeps_model
            (surface (D.file (seen_desk self.new).core.disk)) input.now result }
        ensures board { (seen_desk self.new).board ≡ (seen_desk self.old).board }
        ensures measure { (seen_desk self.new).measure ≡ (seen_desk self.old).measure }
        ensures faults { IfErr result (λ fault. IsTrue (refuses_input fault)) }
    {
        own_refusals();
        step_keeps_showable();
        writes_ascend(input);
        self.core.is_sound();
        self.core.on(self.alloc, now, input)
    }

    /// Takes some inputs as a group, and after them what is due at the reading: waits that can be granted, and settlings, 128 at most. Each is
    /// the step of the core on what those before it leave. Their records are appended together, and what they put out is handed out after
    /// that. The board stays.
    ///
    /// An input that is refused is left out. `Memory` says that nothing was done. `None` says the same of a core that is stopped or keeps a
    /// book: it takes inputs one by one. If the device fails, the disk is left, and the board: viewers go on with what was published.
    pub fn take_all(
        self,
        now: &Reading,
        inputs: &[Input],
    ) -> Result<(Desk<D, R>, Result<Option<Taken>, Fault>), Rest<D, R>>
        ensures taken { IfOk result (λ done. IfOk done.1 (λ taken. IfSome taken
            (HasTakenTogether D.keeps_model D.file D.clock D.since D.failures
            (seen_desk self) (seen_desk done.0) now.now inputs.now))) }
        ensures none { IfOk result (λ done. IfOk done.1 (λ taken. IfNone taken
            ((seen_desk done.0 ≡ seen_desk self) × IsOneByOne (seen_desk self)))) }
        ensures refused { IfOk result (λ done. IfErr done.1 (λ fault.
            (fault ≡ Fault.Memory) × (seen_desk done.0 ≡ seen_desk self))) }
        ensures failed { IfErr result (λ rest.
            HasStoppedTogether D.keeps_model D.file D.clock D.since D.failures
            (seen_desk self) (seen_rest rest) now.now inputs.now) }
    {
        if self.core.book().is_some() {
            return Ok((self, Ok(None)));
        }
        let Ok(refusals) = Vec::with_capacity(self.alloc, inputs.len()) else {
            return Ok((self, Err(Fault::Memory)));
        };
        let Desk {
            alloc,
            core,
            publisher,
            handed,
            told,
            measure,
        } = self;
        match core.gather(alloc) {
            Ok(ahead) => match take_group(ahead, alloc, now, inputs, refusals) {
                Ok((core, taken)) => {
                    core.is_sound();
                    let desk = Desk {
                        alloc,
                        core,
                        publisher,
                        handed,
                        told,
                        measure,
                    };
                    Ok((desk, Ok(Some(taken))))
                }
                Err(disk) => {
                    let publisher = Some(publisher);
                    Err(Rest { disk, publisher })
                }
            },
            Err(core) => {
                drop(refusals);
                let desk = Desk {
                    alloc,
                    core,
                    publisher,
                    handed,
                    told,
                    measure,
                };
                Ok((desk, Ok(None)))
            }
        }
    }

    /// Raises the core's horizon, but keeps so many microseconds of the past. The horizon is that much before the earliest of the reading,
    /// and not above the time that is served. If the core's horizon is not below it, nothing happens. The next advance tells the board.
    pub fn keep_for(&mut self, now: &Reading, micros: u64) -> Result<(), Fault>
        ensures kept { HasKept D.keeps_model D.obeys D.file D.clock D.since D.failures D.plan
            (seen_desk self.old) (seen_desk self.new) now.now micros result }
        ensures faults { IfErr result (λ fault. IsTrue (refuses_horizon fault)) }
    {
        let served = self.core.safe();
        let at = horizon_for(served, now.earliest(), micros);
        if at <= self.core.horizon() {
            return Ok(());
        }
        let input = Input::Forget(at);
        let taken = self.deliver(now, &input);
        drop(input);
        drop(taken?);
        Ok(())
    }

    /// Turns the core's log over, and measures it. The board and the book stay as they are.
    pub fn turn_over(&mut self) -> Result<(), Fault>
        ensures turned { HasTurnedOver D.keeps_model D.obeys D.file D.clock D.since D.failures D.plan
            (seen_desk self.old) (seen_desk self.new) result }
        ensures faults { IfErr result (λ fault. IsTrue (refuses_turnover fault)) }
    {
        let before = self.core.gate();
        let turned = self.core.turn_over(self.alloc);
        self.measure = self.measure.behind(before, self.core.gate(), &turned);
        turned
    }

    /// Lets the core's versions go that no look from its horizon up needs (`Core::let_go`), if the board has all of the core. Returns whether it
    /// had. The board stays, and shows what it showed.
    pub fn let_go(&mut self) -> Result<bool, Fault>
        ensures gone { IfOk result
            (λ went. HasLetGo went (seen_desk self.old) (seen_desk self.new)) }
        ensures refused { IfErr result
            (λ fault. (fault ≡ Fault.Memory) × (seen_desk self.new ≡ seen_desk self.old)) }
    {
        if self.handed < self.core.installs().len() {
            return Ok(false);
        }
        self.core.is_sound();
        match self.core.let_go(self.alloc) {
            Ok(()) => {
                self.handed = self.core.installs().len();
                Ok(true)
            }
            Err(fault) => Err(fault),
        }
    }

    /// Calls `keep_for`, and turns the log over if it has grown. If `keep_for` is refused, so is this, and the log is not turned over.
    ///
    /// It has grown if it is longer by `least` bytes or more than when a turnover was last tried. It also has to be longer by more than it held
    /// after its last turnover, also if that was before the shard was opened.
    pub fn renew(&mut self, now: &Reading, micros: u64, least: u64) -> Result<(), Fault>
        ensures renewed { HasRenewed D.keeps_model D.obeys D.file D.clock D.since D.failures D.plan
            (seen_desk self.old) (seen_desk self.new) now.now micros least result }
        ensures faults { IfErr result (λ fault. IsTrue (refuses_horizon fault)) }
    {
        self.keep_for(now, micros)?;
        if !self.measure.has_grown(self.core.gate(), least) {
            return Ok(());
        }
        self.turn_over()
    }

    /// Writes a renewed log into a new disk, puts that in the place of the core's log, and goes on there. Returns whether it did. The log has to have
    /// grown, as `renew` has it, and to begin more than so many bytes into its file, and more than twice what it held.
    ///
    /// If there is no new disk, or it does not get the place, nothing happens. If the renewed log is refused the log stays, and is not tried again
    /// until it has grown anew. If nobody knows which of the disks has the place, the former one is left, and the board, as after a group that failed.
    pub fn move_on<F: LogFolder<D>>(
        self,
        folder: &F,
        least: u64,
        beyond: u64,
    ) -> Result<(Desk<D, R>, Result<bool, Fault>), Rest<D, R>>
        ensures moved { IfOk result (λ done. IfOk done.1 (λ moved.
            HasMoved D.keeps_model D.file least beyond moved (seen_desk self) (seen_desk done.0))) }
        ensures refused { IfOk result (λ done. IfErr done.1 (λ fault.
            IsLong (seen_desk self) least beyond
            × IsUnmoved (seen_desk self) (seen_desk done.0) fault)) }
        ensures left { IfErr result (λ rest.
            IsLong (seen_desk self) least beyond × IsLeftOf (seen_desk self) (seen_rest rest)) }
    {
        let is_long = self.measure.has_grown(self.core.gate(), least)
            && self.measure.lies_far(beyond);
        if !is_long {
            return Ok((self, Ok(false)));
        }
        match folder.draft(self.core.setup().shard) {
            Some(draft) => self.move_into(draft, folder),
            None => Ok((self, Ok(false))),
        }
    }

    // The same, with a new disk.
    fn move_into<F: LogFolder<D>>(
        self,
        draft: D,
        folder: &F,
    ) -> Result<(Desk<D, R>, Result<bool, Fault>), Rest<D, R>>
        ensures moved { IfOk result (λ done. IfOk done.1 (λ moved.
            HasMovedIf D.keeps_model D.file moved (seen_desk self) (seen_desk done.0))) }
        ensures refused { IfOk result (λ done. IfErr done.1
            (IsUnmoved (seen_desk self) (seen_desk done.0))) }
        ensures left { IfErr result (λ rest. IsLeftOf (seen_desk self) (seen_rest rest)) }
    {
        let renewed = match self.core.renew_into(self.alloc, draft) {
            Ok(renewed) => renewed,
            Err((fault, draft)) => {
                drop(draft);
                return Ok((self.has_tried(fault), Err(fault)));
            }
        };
        match folder.put_in_place(self.core.setup().shard) {
            Ok(true) => {
                let Desk {
                    alloc,
                    core,
                    publisher,
                    handed,
                    told,
                    measure: _,
                } = self;
                let (core, former) = core.move_to(renewed);
                drop(former);
                let measure = Measure::found(core.begun());
                Ok((
                    Desk {
                        alloc,
                        core,
                        publisher,
                        handed,
                        told,
                        measure,
                    },
                    Ok(true),
                ))
            }
            Ok(false) => {
                drop(renewed.into_disk());
                Ok((self, Ok(false)))
            }
            Err(_) => {
                drop(renewed.into_disk());
                Err(self.leave())
            }
        }
    }

    // Its log is measured as after a turnover that was refused.
    fn has_tried(self, fault: Fault) -> Desk<D, R>
        ensures { seen_desk result ≡ tried_of (seen_desk self) fault }
    {
        let mut desk = self;
        let gate = desk.core.gate();
        desk.measure = desk.measure.behind(gate, gate, &Err(fault));
        desk
    }

    /// Ends it. The disk is left as it is, and the board.
    pub(crate) fn leave(self) -> Rest<D, R>
        ensures disk { (seen_rest result).disk ≡ (seen_desk self).core.disk }
        ensures board { (seen_rest result).board ≡ Some (seen_desk self).board }
    {
        let Desk {
            alloc: _,
            core,
            publisher,
            handed: _,
            told: _,
            measure: _,
        } = self;
        Rest {
            disk: core.stop(),
            publisher: Some(publisher),
        }
    }

    /// Advances the core, and publishes its new versions, its served time, and its horizon if that was raised. If memory for the board is
    /// refused, the core has advanced all the same, and the board shows what it showed until a later advance.
    pub fn advance(&mut self, now: &Reading, to: Stamp) -> Result<Told, Fault>
        ensures advanced { IfOk result
            (HasAdvanced D.keeps_model D.obeys D.file D.clock D.since D.failures D.plan
            (seen_desk self.old) (seen_desk self.new) now.now to) }
        ensures refused { IfErr result
            (HasNotAdvanced D.keeps_model D.obeys D.file D.clock D.since D.failures D.plan
            (seen_desk self.old) (seen_desk self.new) now.now to) }
        ensures faults { IfErr result (λ fault. IsTrue (refuses_advance fault)) }
    {
        let input = Input::Advance(to);
        let told = self.deliver(now, &input);
        drop(input);
        drop(told?);
        show(
            self.core.installs(),
            self.core.safe(),
            self.core.horizon(),
            &mut self.publisher,
            &mut self.handed,
            &mut self.told,
            self.alloc,
        )
    }

    /// Publishes what the core has, up to the time that it serves already, or to the latest of the reading if that is earlier. The core logs
    /// no ceiling for it, and serves no more than before. It is refused as `advance` is.
    pub fn publish(&mut self, now: &Reading) -> Result<Told, Fault>
        ensures published { IfOk result
            (HasAdvanced D.keeps_model D.obeys D.file D.clock D.since D.failures D.plan
            (seen_desk self.old) (seen_desk self.new) now.now
            (served_by (seen_desk self.old).core now.now)) }
        ensures refused { IfErr result
            (HasNotAdvanced D.keeps_model D.obeys D.file D.clock D.since D.failures D.plan
            (seen_desk self.old) (seen_desk self.new) now.now
            (served_by (seen_desk self.old).core now.now)) }
        ensures faults { IfErr result (λ fault. IsTrue (refuses_advance fault)) }
    {
        let to = earlier(self.core.safe(), now.latest());
        self.advance(now, to)
    }

    /// Gives the core, to be read.
    pub fn core(&self) -> &Core<D>
        ensures core { seen result.now ≡ (seen_desk self.now).core }
        ensures book { book_of result.now ≡ (seen_desk self.now).book }
    {
        &self.core
    }

    /// Tells how the core stands.
    pub fn gauges(&self) -> Gauges
        ensures { result ≡ gauges_of (seen_desk self.now) }
    {
        Gauges {
            is_stopped: self.core.is_stopped(),
            rows: self.core.rows(),
            versions: self.core.installs().len(),
            last: self.core.last(),
            horizon: self.core.horizon(),
            log_ends: self.core.gate(),
            area_begins: self.measure.begins,
            turnovers: self.core.turnovers(),
        }
    }

    /// Ends the desk and its board, and gives the disk back as it is.
    pub fn close(self) -> D
        ensures { result ≡ (seen_desk self).core.disk }
    {
        let Desk {
            alloc: _,
            core,
            publisher,
            handed: _,
            told: _,
            measure: _,
        } = self;
        drop(publisher);
        core.stop()
    }
}

// The earlier of two timestamps.
fn earlier(one: Stamp, other: Stamp) -> Stamp
    ensures { result ≡ min one other }
{
    if one < other { one } else { other }
}

/// The horizon that keeps so many microseconds, by what is served and the earliest of a reading.
pub(crate) fn horizon_for(served: Stamp, earliest: Stamp, micros: u64) -> Stamp
    ensures { result ≡ horizon_kept served earliest micros }
{
    match Stamp::new(earliest.micros().saturating_sub(micros)) {
        Ok(at) if at < served => at,
        Ok(_) => served,
        Err(_) => unreachable!(),
    }
}

// The board of a shard that is set up so, with its versions, its served time and its horizon, and so many viewers.
fn board_of<R: Wait + Drop>(
    rt: R,
    alloc: Global,
    setup: &Setup,
    installs: &[Install],
    places: &Places,
    safe: Stamp,
    horizon: Stamp,
    n: usize,
) -> Result<(Publisher<R>, Vec<Viewer>), Fault>
    requires lawful { is_board (first_entries installs.now safe horizon) ≡ true }
    requires order { AreInOrder installs.now horizon places.now }
    ensures board { IfOk result
        (λ made. IsNewBoard made.0 (first_entries installs.now safe horizon)) }
    ensures viewers { IfOk result (λ made. AreOnBoard n setup.now made.0 made.1.items) }
    ensures count { OnOk result (IsCount n) }
    ensures refused { IfErr result (λ fault. IsNoDesk n fault) }
{
    check_viewers(n)?;
    let splits = setup.splits.copy(alloc)?;
    let shard = setup.shard;
    start(rt, alloc, installs, places, safe, horizon, splits, shard, n)
}

// Hands the board the versions that it lacks, the horizon if it was raised, and the served time, and publishes them.
fn show<R: Wait + Drop>(
    installs: &[Install],
    safe: Stamp,
    horizon: Stamp,
    publisher: &mut Publisher<R>,
    handed: &mut usize,
    told: &mut Stamp,
    alloc: Global,
) -> Result<Told, Fault>
    requires step { InStep installs.now safe handed.old horizon
        (publisher.old.published ++ publisher.old.pending) }
    requires told { horizon_on (publisher.old.published ++ publisher.old.pending) ≡ told.old }
    ensures step { InStep installs.now safe handed.new horizon
        (publisher.new.published ++ publisher.new.pending) }
    ensures told { horizon_on (publisher.new.published ++ publisher.new.pending) ≡ told.new }
    ensures shown { IfOk result
        (λ news. ShowsAll installs.now safe horizon publisher.old publisher.new news) }
    ensures refused { IfErr result
        (λ fault. (fault ≡ Fault.Memory) × StillShows publisher.old publisher.new) }
{
    hand_over(installs, safe, horizon, publisher, handed, alloc)?;
    hand_horizon(installs, safe, horizon, publisher, *handed, told)?;
    publisher.safe(safe)?;
    publisher.publish()
}

// Hands the versions to the board that it was not handed yet.
fn hand_over<R: Wait + Drop>(
    installs: &[Install],
    safe: Stamp,
    horizon: Stamp,
    publisher: &mut Publisher<R>,
    handed: &mut usize,
    alloc: Global,
) -> Result<(), Fault>
    requires { InStep installs.now safe handed.old horizon
        (publisher.old.published ++ publisher.old.pending) }
    ensures step { InStep installs.now safe handed.new horizon
        (publisher.new.published ++ publisher.new.pending) }
    ensures horizon { horizon_on (publisher.new.published ++ publisher.new.pending)
        ≡ horizon_on (publisher.old.published ++ publisher.old.pending) }
    ensures published { StillShows publisher.old publisher.new }
    ensures all { OnOk result (handed.new ≡ length installs.now) }
    ensures memory { IfErr result (λ fault. fault ≡ Fault.Memory) }
{
    while *handed < installs.len() {
        hand_one(installs, safe, horizon, publisher, handed, alloc)?;
    }
    Ok(())
}

// Hands the board the next version.
fn hand_one<R: Wait + Drop>(
    installs: &[Install],
    safe: Stamp,
    horizon: Stamp,
    publisher: &mut Publisher<R>,
    handed: &mut usize,
    alloc: Global,
) -> Result<(), Fault>
    requires step { InStep installs.now safe handed.old horizon
        (publisher.old.published ++ publisher.old.pending) }
    requires left { handed.old < length installs.now }
    ensures step { InStep installs.now safe handed.new horizon
        (publisher.new.published ++ publisher.new.pending) }
    ensures horizon { horizon_on (publisher.new.published ++ publisher.new.pending)
        ≡ horizon_on (publisher.old.published ++ publisher.old.pending) }
    ensures published { StillShows publisher.old publisher.new }
    ensures count { OnOk result (handed.new ≡ handed.old + 1) }
    ensures memory { IfErr result (λ fault. fault ≡ Fault.Memory) }
{
    let install = copy_install(&installs[*handed])?;
    publisher.install(install)?;
    *handed += 1;
    Ok(())
}

// Hands the board, which has all versions, the horizon if it is above the one that the board was told.
fn hand_horizon<R: Wait + Drop>(
    installs: &[Install],
    safe: Stamp,
    horizon: Stamp,
    publisher: &mut Publisher<R>,
    handed: usize,
    told: &mut Stamp,
) -> Result<(), Fault>
    requires step { InStep installs.now safe handed horizon
        (publisher.old.published ++ publisher.old.pending) }
    requires all { handed ≡ length installs.now }
    requires told { horizon_on (publisher.old.published ++ publisher.old.pending) ≡ told.old }
    ensures step { InStep installs.now safe handed horizon
        (publisher.new.published ++ publisher.new.pending) }
    ensures told { horizon_on (publisher.new.published ++ publisher.new.pending) ≡ told.new }
    ensures published { StillShows publisher.old publisher.new }
    ensures raised { OnOk result (told.new ≡ horizon) }
    ensures memory { IfErr result (λ fault. fault ≡ Fault.Memory) }
{
    if *told >= horizon {
        return Ok(());
    }
    publisher.horizon(horizon)?;
    *told = horizon;
    Ok(())
}
