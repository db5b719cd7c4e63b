//! A desk, or the disk of one that was stopped.
ghost use Rattle.std.specs.Prelude.{◌≡◌, ◌⊎◌, length, IfOk, IfErr, IfSome, IfNone, IsTrue, OnOk, Some};
ghost use Rattle.units.specs.declared.setup.Setup.{Setup};
ghost use Rattle.node.specs.InStep.{IsCount};
ghost use Rattle.node.specs.DeskFaults.{refuses_turnover};
ghost use Rattle.node.specs.Faults.{RefusesRestart};
ghost use Rattle.board.specs.Board.{first_entries};
ghost use Rattle.shard.specs.Look.{safe_at};
ghost use Rattle.shard.specs.On.{CoreView};

use crate::desk::Desk;
use crate::folder::LogFolder;
use crate::rest::{Rest, Restarted};
use board::check_viewers;
use disk::Disk;
use letters::Taken;
use message::Input;
use std::alloc::Global;
use std::sync::Wait;
use truetime::Reading;
use units::{Fault, Reason, Setup};

/// A desk; or the disk alone, after a group has stopped the desk, or the desk was closed to be opened again and that was refused.
#[derive(Drop)]
pub enum Place<D: Disk + Drop, R: Wait + Drop> {
    /// The desk, which serves or is stopped.
    Serving(Desk<D, R>),
    /// The disk, after the desk was stopped.
    Resting(Rest<D, R>),
}

impl<D: Disk + Drop, R: Wait + Drop> Place<D, R> {
    ghost use Rattle.node.specs.Seen.{seen_place};
    ghost use Rattle.node.specs.Grouped.{HasTakenIn, HasStoppedIn, IsOneByOneIn};
    ghost use Rattle.node.specs.Moved.{HasMovedIn, HasNotMovedIn};
    ghost use Rattle.node.specs.Restart.{AreOnNewBoard, HasRestarted, HasNotRestarted, disk_of_place, told_of};

    /// Opens the disk of a stopped shard again that its folder finds, as a core is opened, with a new board and so many viewers. The publisher of the old
    /// board comes with them, if that is still shown. A desk that is not stopped is refused as `again`, and stays.
    ///
    /// After any other refusal the disk is there alone, beside the old board. If the folder finds no disk, that is `Device`.
    pub fn restart<F: LogFolder<D>>(
        self,
        rt: R,
        alloc: Global,
        folder: &F,
        setup: &Setup,
        n: usize,
    ) -> (Place<D, R>, Result<Restarted<R>, Fault>)
        ensures restarted { IfOk result.1
            (λ made. HasRestarted D.keeps_model D.obeys D.file D.clock D.since D.failures D.plan
            F.may_find (seen_place self) (seen_place result.0) setup.now n
            made.viewers.items made.former) }
        ensures board { IfOk result.1 (λ made. (core : CoreView D) × AreOnNewBoard n setup.now
            (first_entries core.facts.installs (safe_at core) core.facts.horizon)
            made.viewers.items) }
        ensures refused { IfErr result.1
            (HasNotRestarted D.keeps_model D.obeys D.file D.clock D.since D.failures D.plan
            F.may_find (seen_place self) (seen_place result.0) setup.now n) }
        ensures count { OnOk result.1 (IsCount n) }
        ensures viewers { IfOk result.1 (λ made. length made.viewers.items ≡ n) }
        ensures faults { IfErr result.1 (λ fault. RefusesRestart n fault) }
    {
        let rest = match self {
            Place::Serving(desk) => {
                if !desk.core().is_stopped() {
                    return (Place::Serving(desk), Err(Fault::BadRequest(Reason::Again)));
                }
                desk.leave()
            }
            Place::Resting(rest) => rest,
        };
        if let Err(fault) = check_viewers(n) {
            return (Place::Resting(rest), Err(fault));
        }
        let Rest { disk, publisher } = rest;
        let disk = match folder.find(setup.shard, disk) {
            Ok(disk) => disk,
            Err(disk) => {
                let rest = Rest { disk, publisher };
                return (Place::Resting(rest), Err(Fault::Device));
            }
        };
        match Desk::open(rt, alloc, disk, setup, n) {
            Ok((desk, viewers)) => {
                let former = publisher;
                (Place::Serving(desk), Ok(Restarted { viewers, former }))
            }
            Err((fault, disk)) => {
                let rest = Rest { disk, publisher };
                (Place::Resting(rest), Err(fault))
            }
        }
    }

    /// Takes some inputs as a group, as a desk does (`Desk::take_all`). A disk alone takes them one by one, which refuses each as a stopped
    /// core does.
    pub fn take_all(
        self,
        now: &Reading,
        inputs: &[Input],
    ) -> (Place<D, R>, Result<Option<Taken>, Fault>)
        ensures taken { IfOk result.1 (λ taken. IfSome taken
            (HasTakenIn D.keeps_model D.file D.clock D.since D.failures
            (seen_place self) (seen_place result.0) now.now inputs.now)) }
        ensures none { IfOk result.1 (λ taken. IfNone taken
            ((seen_place result.0 ≡ seen_place self) × IsOneByOneIn (seen_place self))) }
        ensures refused { IfErr result.1 (λ fault. ((fault ≡ Fault.Memory)
            × (seen_place result.0 ≡ seen_place self)) ⊎ ((fault ≡ Fault.Device)
            × HasStoppedIn D.keeps_model D.file D.clock D.since D.failures
            (seen_place self) (seen_place result.0) now.now inputs.now)) }
        ensures told { (setup : Setup) → told_of setup (Some (seen_place self)) ≡ setup
            → told_of setup (Some (seen_place result.0)) ≡ setup }
    {
        match self {
            Place::Serving(desk) => match desk.take_all(now, inputs) {
                Ok((desk, taken)) => (Place::Serving(desk), taken),
                Err(rest) => (Place::Resting(rest), Err(Fault::Device)),
            },
            Place::Resting(rest) => (Place::Resting(rest), Ok(None)),
        }
    }

    /// Puts a renewed log in a new disk in the place of the log, and goes on there (`Desk::move_on`). A disk alone stays where it is.
    pub fn move_on<F: LogFolder<D>>(
        self,
        folder: &F,
        least: u64,
        beyond: u64,
    ) -> (Place<D, R>, Result<bool, Fault>)
        ensures moved { IfOk result.1 (λ moved. HasMovedIn D.keeps_model D.file
            least beyond moved (seen_place self) (seen_place result.0)) }
        ensures refused { IfErr result.1 (λ fault. HasNotMovedIn
            least beyond fault (seen_place self) (seen_place result.0)) }
        ensures faults { IfErr result.1 (λ fault. IsTrue (refuses_turnover fault)) }
        ensures told { (setup : Setup) → told_of setup (Some (seen_place self)) ≡ setup
            → told_of setup (Some (seen_place result.0)) ≡ setup }
    {
        match self {
            Place::Serving(desk) => match desk.move_on(folder, least, beyond) {
                Ok((desk, moved)) => (Place::Serving(desk), moved),
                Err(left) => (Place::Resting(left), Err(Fault::Device)),
            },
            Place::Resting(rest) => (Place::Resting(rest), Ok(false)),
        }
    }

    /// Ends the desk, and gives its disk back as it is.
    pub fn close(self) -> D
        ensures { result ≡ disk_of_place (seen_place self) }
    {
        match self {
            Place::Serving(desk) => desk.close(),
            Place::Resting(rest) => rest.into_disk(),
        }
    }
}
