//! A core that a failing group has stopped.
ghost use Rattle.std.specs.Prelude.{◌≡◌, ◌≤◌};
ghost use Rattle.std.specs.Option.{option_copied};
ghost use Rattle.units.specs.Versions.{at_time};
ghost use Rattle.shard.specs.Groups.{IsSince};
ghost use Rattle.shard.specs.Look.{IsLookBy};

use disk::Disk;
use gatelog::GateLog;
use memory::State;
use units::{Fault, Install, Key, Seen, Setup, Stamp, Value, may_look, show};

/// A core whose device failed while a group was appended. It takes no input. Its looks are answered as before the group, since its log may
/// have the group or not until it is opened again. It has to be spent, by `stop`.
pub struct Halted<D: Disk> {
    pub(crate) gate_log: GateLog<D>,
    pub(crate) state: State,
    pub(crate) served: Stamp,
    pub(crate) versions: usize,
    ghost since: { ∥ IsSince served versions state.facts state.memory ∥₁ },
}

impl<D: Disk> Halted<D> {
    ghost use Rattle.shard.specs.Gathered.{seen_halted};

    /// The value of a key at a timestamp that was served before the group and is not below the horizon, put at the front of the buffer.
    pub fn look(&self, key: &Key, at: Stamp, buffer: &mut [u8]) -> Result<Seen, Fault>
        ensures { IsLookBy (seen_halted self.now).looks key.now at buffer.old buffer.new result }
    {
        may_look(
            self.state.setup().owns(key),
            self.state.horizon(),
            self.served,
            at,
        )?;
        show(self.value_at(key, at), buffer)
    }

    // The value of a key at a timestamp that was served before the group.
    fn value_at(&self, key: &Key, at: Stamp) -> Option<&Value>
        requires horizon { (seen_halted self.now).looks.horizon ≤ at }
        requires served { at ≤ (seen_halted self.now).looks.served }
        ensures { option_copied result ≡ at_time (seen_halted self.now).looks.installs key.now at }
    {
        self.state.value_at(key, at)
    }

    /// What the shard was told when it was opened.
    pub fn setup(&self) -> &Setup
        ensures { result.now ≡ (seen_halted self.now).looks.setup }
    {
        self.state.setup()
    }

    /// Gives the horizon, below which no value is read: 0 if there is none.
    pub fn horizon(&self) -> Stamp
        ensures { result ≡ (seen_halted self.now).looks.horizon }
    {
        self.state.horizon()
    }

    /// The greatest timestamp at which reads are answered: what was served before the group.
    pub fn safe(&self) -> Stamp
        ensures { result ≡ (seen_halted self.now).looks.served }
    {
        self.served
    }

    /// The versions of before the group, in the log's order.
    pub fn installs(&self) -> &[Install]
        ensures { result.now ≡ (seen_halted self.now).looks.installs }
    {
        &self.state.installs()[..self.versions]
    }

    /// Ends it, and gives its disk back as it is.
    pub fn stop(self) -> D
        ensures { result ≡ (seen_halted self).disk }
    {
        let Halted {
            gate_log,
            state,
            served: _,
            versions: _,
        } = self;
        state.stop();
        gate_log.into_disk()
    }
}
