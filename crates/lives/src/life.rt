//! A core while it is up, and its disk while it is down.

ghost use Rattle.std.specs.Prelude.{◌≡◌, Some, true, not, IfOk, IfErr, OnErr, OnOk};
ghost use Rattle.units.specs.declared.setup.Setup.{Setup};
ghost use Rattle.shard.specs.Core.{seen};
ghost use Rattle.world.specs.World.{ShardNow, input_of, turns};
ghost use Rattle.lives.specs.Inputs.{IsNoInput, goes_on, has_input};
ghost use Rattle.world.specs.Lawful.{is_up};
ghost use Rattle.lives.specs.Lives.{HoldsLog, LivesAs, crash_by};
ghost use Rattle.lives.specs.Carries.{Carries, DoesInput, OpensDisk, TurnsOver};

use disk::{Disk, Fate};
use message::{Envelope, Input, Outbox};
use shard::Core;
use simdisk::{Choice, SimDisk};
use std::alloc::Global;
use std::mem::replace;
use truetime::Reading;
use units::{Book, Fault, Setup, ShardNo, Splits, Stride};
use world::{Doing, Reply};

/// The core of a shard, which runs or was stopped by its device, or the disk of a shard that is down. It has to be spent.
pub enum Life {
    Up(Core<SimDisk>),
    Down(SimDisk),
}

impl Life {
    /// Tells whether the shard runs.
    pub fn is_up(&self) -> bool
        ensures { (setup : Setup) (s : ShardNow) → LivesAs setup s self.now
            → result ≡ is_up s.state }
    {
        match self {
            Life::Up(core) => !core.is_stopped(),
            Life::Down(_) => false,
        }
    }

    /// Ends it, and returns its disk as it is.
    #[tactic(none)]
    pub fn into_disk(self) -> SimDisk
        ensures { (setup : Setup) (s : ShardNow) → LivesAs setup s self → HoldsLog s result }
    {
        match self {
            Life::Up(core) => core.stop(),
            Life::Down(disk) => disk,
        }
    }

    /// Crashes it. The oldest change that is not synced has this fate. `Memory` leaves it as it was.
    pub fn crash(&mut self, alloc: Global, fate: Fate) -> Result<Reply, Fault>
        ensures crashed { (setup : Setup) (s : ShardNow) → LivesAs setup s self.old
            → OnOk result (LivesAs setup (crash_by fate s) self.new) }
        ensures reply { IfOk result (λ reply. reply ≡ Reply.Crashed) }
        ensures memory { IfErr result (λ fault. fault ≡ Fault.Memory) }
        ensures same { OnErr result (self.new ≡ self.old) }
    {
        let mut fates = Vec::new(alloc);
        fates.push(fate)?;
        let disk = replace(self, Life::Down(SimDisk::new(alloc))).into_disk();
        let disk = disk.crash(&Choice::from_vec(fates));
        drop(replace(self, Life::Down(disk)).into_disk());
        Ok(Reply::Crashed)
    }

    /// Carries out what a shard does. A device call of its append or its turnover, by its number from 0, is armed to fail if one is given.
    #[tactic(none)]
    pub fn carry(
        &mut self,
        alloc: Global,
        setup: &Setup,
        bag: &[Envelope],
        call: Option<u64>,
        doing: &Doing,
    ) -> Result<Outbox, Fault>
        ensures { (s : ShardNow) → LivesAs setup.now s self.old
            → Carries setup.now bag.now s call doing.now self.old self.new result }
    {
        if opens(doing) {
            if self.is_up() {
                return Err(Fault::Stopped);
            }
            let disk = replace(self, Life::Down(SimDisk::new(alloc))).into_disk();
            let (life, result) = open(disk, alloc, setup, call);
            drop(replace(self, life).into_disk());
            return result;
        }
        match self {
            Life::Up(core) => {
                if turns(doing) {
                    turn_over(core, alloc, call)
                } else {
                    do_input(core, alloc, bag, call, doing)
                }
            }
            Life::Down(_) => Err(Fault::Stopped),
        }
    }
}

// Turns the log of a core over, with a device call armed if one is given. Afterwards no call is armed.
#[tactic(none)]
fn turn_over(core: &mut Core<SimDisk>, alloc: Global, call: Option<u64>) -> Result<Outbox, Fault>
    ensures { TurnsOver (seen core.old) (seen core.new) call result }
{
    core.arm(call);
    let result = core.turn_over(alloc);
    core.arm(None);
    match result {
        Ok(()) => Ok(Outbox::none(alloc)),
        Err(fault) => Err(fault),
    }
}

// Gives a core its input, with a device call of the append armed if one is given. Afterwards no call is armed.
#[tactic(none)]
fn do_input(
    core: &mut Core<SimDisk>,
    alloc: Global,
    bag: &[Envelope],
    call: Option<u64>,
    doing: &Doing,
) -> Result<Outbox, Fault>
    requires { has_input doing.now ≡ true }
    ensures { DoesInput (seen core.old) (seen core.new) bag.now call doing.now result }
{
    match input_of(alloc, bag, doing) {
        Ok((now, input)) => {
            core.arm(call);
            let result = core.on(alloc, &now, &input);
            core.arm(None);
            drop(input);
            result
        }
        Err(fault) => Err(fault),
    }
}

// Opens a disk, with a device call of the append armed if one is given. After a refusal or a failure it stays down.
#[tactic(none)]
fn open(
    disk: SimDisk,
    alloc: Global,
    setup: &Setup,
    call: Option<u64>,
) -> (Life, Result<Outbox, Fault>)
    ensures { OpensDisk disk setup.now call result.0 result.1 }
{
    let mut disk = disk;
    let told = match setup.copy(alloc) {
        Ok(told) => told,
        Err(fault) => return (Life::Down(disk), Err(fault)),
    };
    disk.arm(call);
    match Core::open(alloc, disk, told) {
        Ok(core) => {
            let mut core = core;
            core.arm(None);
            (Life::Up(core), Ok(Outbox::none(alloc)))
        }
        Err((fault, back)) => {
            let mut back = back;
            back.arm(None);
            (Life::Down(back), Err(fault))
        }
    }
}

/// Makes a setup with memory of its own. `Memory` if memory runs out.
pub fn setup_with(
    alloc: Global,
    shard: ShardNo,
    splits: &Splits,
    stride: Stride,
    book: Book,
) -> Result<Setup, Fault>
    ensures same { IfOk result (λ told. told ≡ record {
      shard = shard;
      splits = splits.now;
      stride = stride;
      book = book;
    }) }
    ensures memory { IfErr result (λ fault. fault ≡ Fault.Memory) }
{
    match splits.copy(alloc) {
        Ok(splits) => Ok(Setup {
            shard,
            splits,
            stride,
            book,
        }),
        Err(fault) => Err(fault),
    }
}

/// Tells whether this is an opening.
pub fn opens(doing: &Doing) -> bool
    ensures { result ≡ not (goes_on doing.now) }
{
    match doing {
        Doing::Open => true,
        Doing::Take(_, _) | Doing::Resume(_) | Doing::Settle(_, _) => false,
        Doing::Advance(_, _) | Doing::Nudge(_, _) | Doing::Forget(_, _) => false,
        Doing::Retire(_, _) | Doing::Turn => false,
    }
}

// Whether this is a turnover.
fn turns(doing: &Doing) -> bool
    ensures { result ≡ turns doing.now }
{
    match doing {
        Doing::Turn => true,
        Doing::Take(_, _) | Doing::Resume(_) | Doing::Settle(_, _) => false,
        Doing::Advance(_, _) | Doing::Nudge(_, _) | Doing::Forget(_, _) => false,
        Doing::Retire(_, _) | Doing::Open => false,
    }
}

// The input of what a shard does, with its reading. A message that was not put out is refused.
fn input_of(alloc: Global, bag: &[Envelope], doing: &Doing) -> Result<(Reading, Input), Fault>
    requires { has_input doing.now ≡ true }
    ensures found { IfOk result (λ p. input_of bag.now doing.now ≡ Some (p.0, p.1)) }
    ensures cause { IfErr result (λ fault. IsNoInput (input_of bag.now doing.now) fault) }
{
    match doing {
        Doing::Take(number, now) => match bag.get(*number as usize) {
            Some(envelope) => match envelope.message.copy(alloc) {
                Ok(message) => Ok((*now, Input::Deliver(message))),
                Err(fault) => Err(fault),
            },
            None => Err(Fault::Stopped),
        },
        Doing::Resume(now) => Ok((*now, Input::Resume)),
        Doing::Settle(txn, now) => Ok((*now, Input::Settle(*txn))),
        Doing::Advance(at, now) => Ok((*now, Input::Advance(*at))),
        Doing::Nudge(txn, now) => Ok((*now, Input::Nudge(*txn))),
        Doing::Forget(at, now) => Ok((*now, Input::Forget(*at))),
        Doing::Retire(below, now) => Ok((*now, Input::Retire(*below))),
        Doing::Turn | Doing::Open => unreachable!(),
    }
}
