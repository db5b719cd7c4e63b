//! How a state is made and ended, and look-ups of its rows.
ghost use Rattle.std.specs.Prelude.{◌≡◌, ◌<◌, ◌≤◌, [], ◌∷◌, IsTrue, IfOk, IfErr, length};
ghost use Rattle.record.specs.Facts.{facts_of, learn};
ghost use Rattle.facts.specs.Stages.{follows_next, stage_after, stage_of};
ghost use Rattle.facts.specs.declared.stage.Stage.{Stage};
ghost use Rattle.ledger.specs.Ledger.{CanInstall};
ghost use Rattle.rows.specs.RowTable.{nth_prepared, nth_decided, decided_row, IsEarliest};
ghost use Rattle.units.specs.Lists.{gather};

use crate::state::State;
use ledger::{Ended, Ledger};
use record::Record;
use rows::Rows;
use safetime::SafeTime;
use std::alloc::Global;
use units::{Epoch, Fault, Setup, ShardNo, Stamp, TxnId};

impl State {
    /// Makes the state of a renewed log's base, before any version. `Memory` if memory runs out.
    pub fn based(
        alloc: Global,
        setup: Setup,
        epoch: Epoch,
        floor: Stamp,
        horizon: Stamp,
    ) -> Result<State, Fault>
        requires { (0 < epoch) × (horizon ≤ floor) }
        ensures setup { IfOk result (λ s. s.setup ≡ setup) }
        ensures facts { IfOk result
            (λ s. s.facts ≡ learn (facts_of []) (Record.Base epoch floor horizon)) }
        ensures stage { IfOk result (λ s. s.stage ≡ Stage.Head) }
        ensures empty { IfOk result
            (λ s. s.memory ≡ record { last = floor; rows = []; ended = [] }) }
        ensures memory { IfErr result (λ fault. fault ≡ Fault.Memory) }
    {
        let base = Record::Base {
            epoch,
            floor,
            horizon,
        };
        State::begun(alloc, setup, base, floor)
    }

    /// Makes the state of a log whose first opening is logged. `Memory` if memory runs out.
    pub fn fresh(alloc: Global, setup: Setup) -> Result<State, Fault>
        ensures setup { IfOk result (λ s. s.setup ≡ setup) }
        ensures facts { IfOk result (λ s. s.facts ≡ facts_of (Record.Opened 1 ∷ [])) }
        ensures stage { IfOk result (λ s. s.stage ≡ Stage.Open) }
        ensures empty { IfOk result (λ s. s.memory ≡ record { last = 0; rows = []; ended = [] }) }
        ensures memory { IfErr result (λ fault. fault ≡ Fault.Memory) }
    {
        let first = Record::Opened {
            epoch: Epoch::first(),
        };
        State::begun(alloc, setup, first, Stamp::zero())
    }

    // A state without rows, of a log that holds its first record alone.
    fn begun(alloc: Global, setup: Setup, first: Record, last: Stamp) -> Result<State, Fault>
        requires begins { IsTrue (follows_next setup.shard (stage_of []) (facts_of []) first) }
        requires installs { CanInstall (facts_of []) first }
        requires opened { 0 < (learn (facts_of []) first).epoch }
        ensures setup { IfOk result (λ s. s.setup ≡ setup) }
        ensures facts { IfOk result (λ s. s.facts ≡ learn (facts_of []) first) }
        ensures stage { IfOk result (λ s. s.stage ≡ stage_after (stage_of []) first) }
        ensures empty { IfOk result
            (λ s. s.memory ≡ record { last = last; rows = []; ended = [] }) }
        ensures memory { IfErr result (λ fault. fault ≡ Fault.Memory) }
    {
        let Ok(ledger) = begun_ledger(alloc, setup.shard, first) else {
            drop(setup);
            return Err(Fault::Memory);
        };
        let Ok(times) = SafeTime::new(alloc, last) else {
            drop(setup);
            drop(ledger);
            return Err(Fault::Memory);
        };
        match Rows::new(alloc) {
            Ok(rows) => Ok(State {
                setup,
                ledger,
                rows,
                ended: Ended::none(alloc),
                times,
            }),
            Err(fault) => {
                drop(setup);
                drop(ledger);
                drop(times);
                Err(fault)
            }
        }
    }

    /// Ends the state, and spends the tokens of its rows. It takes no memory.
    pub fn stop(self) {
        let State {
            setup: _,
            ledger,
            rows,
            ended,
            times,
        } = self;
        rows.stop();
        drop(ledger);
        drop(ended);
        drop(times);
    }

    /// Returns the number of rows.
    pub fn rows(&self) -> usize
        ensures { result ≡ length self.now.memory.rows }
    {
        self.rows.len()
    }

    /// Returns the n-th prepared transaction, from 0 by ascending id, and its prepare timestamp.
    pub fn nth_prepared(&self, n: usize) -> Option<(TxnId, Stamp)>
        ensures { result ≡ nth_prepared self.now.memory.rows n }
    {
        self.rows.nth_prepared(n)
    }

    /// Returns the n-th decided transaction, from 0 by ascending id, and its commit timestamp.
    pub fn nth_decided(&self, n: usize) -> Option<(TxnId, Stamp)>
        ensures { result ≡ nth_decided self.now.memory.rows n }
    {
        self.rows.nth_decided(n)
    }

    /// Returns a decided transaction with the least commit timestamp, and that timestamp. `None` if none is decided.
    pub fn earliest_decided(&self) -> Option<(TxnId, Stamp)>
        ensures { IsEarliest (gather decided_row self.now.memory.rows) result }
    {
        self.rows.earliest_decided()
    }
}

// The ledger of a log that holds its first record alone.
fn begun_ledger(alloc: Global, shard: ShardNo, first: Record) -> Result<Ledger, Fault>
    requires begins { IsTrue (follows_next shard (stage_of []) (facts_of []) first) }
    requires installs { CanInstall (facts_of []) first }
    ensures shard { IfOk result (λ ledger. ledger.shard ≡ shard) }
    ensures facts { IfOk result (λ ledger. ledger.facts ≡ learn (facts_of []) first) }
    ensures stage { IfOk result (λ ledger. ledger.stage ≡ stage_after (stage_of []) first) }
    ensures memory { IfErr result (λ fault. fault ≡ Fault.Memory) }
{
    let mut ledger = Ledger::new(alloc, shard);
    match ledger.reserve() {
        Ok(()) => {
            ledger.learn(first);
            Ok(ledger)
        }
        Err(fault) => {
            drop(ledger);
            drop(first);
            Err(fault)
        }
    }
}
