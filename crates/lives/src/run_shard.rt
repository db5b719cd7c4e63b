//! A shard of a run: what there is of it, and the views that it has made.
ghost use Rattle.std.specs.Prelude.{◌≡◌, ◌≢◌, ◌++◌, ◌≤◌, ℕ, Some, Err, true, not, IfOk, IfErr, OnOk, length, map};
ghost use Rattle.units.specs.declared.setup.Setup.{Setup};
ghost use Rattle.world.specs.World.{ShardNow, effect, fresh_shard, makes_view, setup_of};
ghost use Rattle.world.specs.declared.event.Config.{Config};
ghost use Rattle.lives.specs.Lives.{HoldsLog, disk_log};
ghost use Rattle.lives.specs.Carries.{IsOrderly};
ghost use Rattle.lives.specs.Fleet.{IsOn};
ghost use Rattle.lives.specs.Shows.{BeginsAt, StandsFor};
ghost use Rattle.lives.specs.Spots.{AreSpots};

use crate::life::{Life, opens, setup_with};
use crate::looking::look_at_core;
use crate::spots::{Spots, add};
use crate::view::{View, begin_with, behind};
use disk::Fate;
use gatelog::{Entry, GateLog};
use indexmap::IndexMap;
use message::{Envelope, Outbox};
use record::Record;
use simdisk::SimDisk;
use std::alloc::Global;
use units::{Book, Fault, Install, Key, Setup, ShardNo, Stamp, copy_value};
use world::{Config, Doing, Reply};

/// A shard of a run: its setup, its core or disk, and every version that a core of it ever showed. `spots` has the places of each
/// key's versions, `from` is the place of the last core's first version, and the views count into the versions. It has to be spent.
pub struct RunShard {
    pub setup: Setup,
    pub life: Life,
    pub installs: Vec<Install>,
    pub spots: Spots,
    pub from: usize,
    pub views: Vec<View>,
}

// The shard of a number.
fn numbered(number: usize) -> ShardNo
    requires { number ≤ 15 }
    ensures { result ≡ number }
{
    match ShardNo::new(number as u8) {
        Some(shard) => shard,
        None => unreachable!(),
    }
}

impl RunShard {
    ghost use Rattle.std.specs.Prelude.{nat_eq};
    ghost use Rattle.units.specs.Keys.{shard_of};
    ghost use Rattle.world.specs.Lawful.{is_down, is_up};
    ghost use Rattle.world.specs.declared.event.Doing.{Doing};
    ghost use Rattle.lives.specs.Shows.{Acts, NotesOfLife, crashed_within, look_by};

    /// Makes the shard of a number on a new disk, formatted and opened, with its first view. It keeps no book. `Memory` if memory runs out.
    pub fn fresh(alloc: Global, config: &Config, number: usize) -> Result<RunShard, Fault>
        requires { number ≤ 15 }
        ensures fresh { IfOk result
            (λ shard. StandsFor (setup_of config.now number) shard fresh_shard) }
        ensures memory { IfErr result (λ fault. fault ≡ Fault.Memory) }
    {
        let shard = numbered(number);
        let setup = match setup_with(alloc, shard, &config.splits, config.stride, Book::Off) {
            Ok(setup) => setup,
            Err(fault) => return Err(fault),
        };
        let log = match GateLog::format(SimDisk::new(alloc)) {
            Ok(log) => log,
            Err((fault, disk)) => {
                drop(setup);
                drop(disk);
                return Err(fault);
            }
        };
        let mut shard = RunShard {
            setup,
            life: Life::Down(log.into_disk()),
            installs: Vec::new(alloc),
            spots: IndexMap::new(alloc),
            from: 0,
            views: Vec::new(alloc),
        };
        match shard.act(alloc, &[], None, &Doing::Open) {
            Ok(out) => {
                drop(out);
                Ok(shard)
            }
            Err(fault) => {
                drop(shard.into_disk());
                Err(fault)
            }
        }
    }

    /// Tells whether it runs.
    pub fn is_up(&self) -> bool
        ensures { (setup : Setup) (s : ShardNow) → StandsFor setup self.now s
            → result ≡ is_up s.state }
    {
        self.life.is_up()
    }

    /// Tells whether it is down.
    pub fn is_down(&self) -> bool
        ensures { (setup : Setup) (s : ShardNow) → StandsFor setup self.now s
            → result ≡ is_down s.state }
    {
        match self.life {
            Life::Up(_) => false,
            Life::Down(_) => true,
        }
    }

    /// Returns how many views it has made.
    pub fn views(&self) -> u64
        ensures { (setup : Setup) (s : ShardNow) → StandsFor setup self.now s
            → result ≡ length s.views }
    {
        self.views.len() as u64
    }

    /// Carries out what the shard does. A device call of it, by its number from 0, is armed to fail if one is given.
    pub fn act(
        &mut self,
        alloc: Global,
        bag: &[Envelope],
        call: Option<u64>,
        doing: &Doing,
    ) -> Result<Outbox, Fault>
        ensures { (setup : Setup) (s : ShardNow) → StandsFor setup self.old s
            → Acts setup bag.now s call doing.now self.new result }
    {
        match self.life.carry(alloc, &self.setup, bag, call, doing) {
            Ok(out) => match self.note(alloc, doing) {
                Ok(()) => Ok(out),
                Err(fault) => {
                    drop(out);
                    Err(fault)
                }
            },
            Err(fault) => Err(fault),
        }
    }

    // Adds the versions that its core shows newly, and the view that was made.
    fn note(&mut self, alloc: Global, doing: &Doing) -> Result<(), Fault>
        ensures noted { OnOk result (NotesOfLife doing.now self.old self.new self.old.life) }
        ensures memory { IfErr result (λ fault. fault ≡ Fault.Memory) }
    {
        let Life::Up(core) = &self.life else {
            return Ok(());
        };
        let shown = core.installs();
        let from = begins_at(doing, self.from, &self.installs, shown);
        let known = self.installs.len().saturating_sub(from);
        push_copies(
            &mut self.installs,
            &mut self.spots,
            alloc,
            behind(shown, known),
        )?;
        self.from = from;
        if makes_view(doing) {
            self.views.push(View::of(core, from))?;
        }
        Ok(())
    }

    /// Crashes the shard, in a device call of what it does, by the call's number from 0, or between events with `None`. The oldest change
    /// that is not synced has this fate.
    pub fn crash(
        &mut self,
        alloc: Global,
        bag: &[Envelope],
        within: Option<(u64, Doing)>,
        fate: Fate,
    ) -> Result<Reply, Fault>
        ensures crashed { (setup : Setup) (s : ShardNow) → StandsFor setup self.old s
            → ((call : ℕ) (doing : Doing) → within ≡ Some (call, doing)
            → IsOrderly setup s (effect setup bag.now s doing))
            → OnOk result (StandsFor setup self.new (crashed_within setup bag.now within fate s)) }
        ensures reply { IfOk result (λ reply. reply ≡ Reply.Crashed) }
        ensures memory { IfErr result (λ fault. fault ≡ Fault.Memory) }
    {
        match within {
            Some((call, doing)) => {
                let answer = self.life.carry(alloc, &self.setup, bag, Some(call), &doing);
                match unless_memory(answer) {
                    Ok(()) => self.life.crash(alloc, fate),
                    Err(fault) => Err(fault),
                }
            }
            None => self.life.crash(alloc, fate),
        }
    }

    /// Looks at a view, by its number from 0, or at what the shard shows now. `Memory` if memory runs out.
    pub fn look(
        &self,
        alloc: Global,
        view: Option<u64>,
        is_here: bool,
        key: &Key,
        at: Stamp,
    ) -> Result<Reply, Fault>
        ensures shown { (setup : Setup) (s : ShardNow) → StandsFor setup self.now s
            → is_here ≡ nat_eq (shard_of setup.splits key.now) setup.shard
            → IfOk result (λ reply. reply ≡ look_by setup s view key.now at) }
        ensures memory { IfErr result (λ fault. fault ≡ Fault.Memory) }
    {
        match view {
            Some(number) => match self.views.get(number as usize) {
                Some(view) => view.look(&self.installs, &self.spots, is_here, key, at),
                None => Ok(Reply::Refused(Fault::Stranger)),
            },
            None => match &self.life {
                Life::Up(core) => look_at_core(alloc, core, key, at),
                Life::Down(_) => Ok(Reply::Refused(Fault::Stopped)),
            },
        }
    }

    /// Ends it, and returns its disk as it is.
    pub fn into_disk(self) -> SimDisk
        ensures { (setup : Setup) (s : ShardNow) → StandsFor setup self s → HoldsLog s result }
    {
        let RunShard {
            setup,
            life,
            installs,
            spots,
            from: _,
            views,
        } = self;
        drop(setup);
        drop(installs);
        drop(spots);
        drop(views);
        life.into_disk()
    }
}

/// Returns a disk, with the log that a read of it gives.
pub fn read_back(alloc: Global, disk: SimDisk) -> Result<(SimDisk, Vec<Record>), Fault>
    ensures disk { IfOk result (λ r. IsOn r.0 r.1.items) }
    ensures log { (s : ShardNow) → HoldsLog s disk
        → IfOk result (λ r. r.1.items ≡ disk_log s) }
    ensures memory { (s : ShardNow) → HoldsLog s disk
        → IfErr result (λ fault. fault ≡ Fault.Memory) }
{
    match GateLog::open(alloc, disk) {
        Ok((log, entries)) => {
            let mut records = Vec::new(alloc);
            let copied = copy_records(&mut records, alloc, &entries);
            drop(entries);
            let disk = log.into_disk();
            match copied {
                Ok(()) => Ok((disk, records)),
                Err(fault) => {
                    drop(records);
                    drop(disk);
                    Err(fault)
                }
            }
        }
        Err((fault, disk)) => {
            drop(disk);
            Err(fault)
        }
    }
}

// Adds copies of the records of a log to a list.
fn copy_records(records: &mut Vec<Record>, alloc: Global, entries: &[Entry]) -> Result<(), Fault>
    ensures same { OnOk result
        (records.new.items ≡ records.old.items ++ map (λ e. e.item) entries.now) }
    ensures memory { IfErr result (λ fault. fault ≡ Fault.Memory) }
{
    for entry in entries {
        records.reserve(1)?;
        let record = entry.item().copy(alloc)?;
        records.push_reserved(record);
    }
    Ok(())
}

// Adds copies of versions to a list, and their places.
fn push_copies(
    installs: &mut Vec<Install>,
    spots: &mut Spots,
    alloc: Global,
    more: &[Install],
) -> Result<(), Fault>
    ensures all { OnOk result (installs.new.items ≡ installs.old.items ++ more.now) }
    ensures spots { OnOk result (AreSpots installs.old.items spots.old.entries
        → AreSpots installs.new.items spots.new.entries) }
    ensures memory { IfErr result (λ fault. fault ≡ Fault.Memory) }
{
    for install in more {
        add(spots, alloc, installs.len(), install)?;
        installs.reserve(1)?;
        let value = copy_value(&install.value)?;
        installs.push_reserved(Install {
            key: install.key,
            at: install.at,
            value,
        });
    }
    Ok(())
}

// Ignores any answer but `Memory`.
fn unless_memory(answer: Result<Outbox, Fault>) -> Result<(), Fault>
    ensures other { OnOk result (answer ≢ Err Fault.Memory) }
    ensures memory { IfErr result (λ fault. fault ≡ Fault.Memory) }
{
    match answer {
        Ok(out) => {
            drop(out);
            Ok(())
        }
        Err(Fault::Memory) => Err(Fault::Memory),
        Err(_) => Ok(()),
    }
}

// The place at which the versions of a core begin after what a shard did. An opened core shows the versions of the core before it, and
// maybe more, so it shares them. If it shows others, they are a list of their own.
fn begins_at(doing: &Doing, from: usize, installs: &[Install], shown: &[Install]) -> usize
    ensures { BeginsAt doing.now from installs.now shown.now result }
{
    if !opens(doing) {
        return from;
    }
    if from <= installs.len() && begin_with(shown, behind(installs, from)) {
        return from;
    }
    installs.len()
}

// Whether it makes a view, as an opening and an advance do.
fn makes_view(doing: &Doing) -> bool
    ensures { result ≡ makes_view doing.now }
{
    match doing {
        Doing::Open | Doing::Advance(_, _) => true,
        Doing::Take(_, _) | Doing::Resume(_) | Doing::Settle(_, _) => false,
        Doing::Nudge(_, _) | Doing::Forget(_, _) | Doing::Retire(_, _) => false,
        Doing::Turn => false,
    }
}
