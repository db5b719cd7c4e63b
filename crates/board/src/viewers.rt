//! The viewers of those who look at all shards.
ghost use Rattle.std.specs.Prelude.{◌≡◌, ◌++◌, ◌∷◌, [], List, length, IfErr, IfOk, OnOk};
ghost use Rattle.board.specs.Dealing.{AreDealt, lists_of};
ghost use Rattle.board.specs.Views.{AreViewers, Viewing};

use crate::viewer::Viewer;
use std::alloc::Global;
use units::Fault;

/// What workers look through.
#[derive(Drop)]
pub struct Viewers {
    /// The viewers of each worker, by its number: one of each shard, by the shard's number.
    pub by_worker: Vec<Vec<Viewer>>,
}

impl Viewers {
    /// Begins with so many workers that have no viewer yet.
    pub fn none(alloc: Global, workers: usize) -> Result<Viewers, Fault>
        ensures viewers { IfOk result (λ viewers. length viewers.by_worker.items ≡ workers) }
        ensures empty { IfOk result (λ viewers. AreDealt [] (lists_of viewers)) }
        ensures memory { IfErr result (λ fault. fault ≡ Fault.Memory) }
    {
        let mut by_worker = Vec::new(alloc);
        for _worker in 0..workers {
            by_worker.push(Vec::new(alloc))?;
        }
        Ok(Viewers { by_worker })
    }

    /// Gives each worker one viewer of the next shard.
    pub fn deal(&mut self, viewers: Vec<Viewer>) -> Result<(), Fault>
        ensures workers { length self.new.by_worker.items ≡ length self.old.by_worker.items }
        ensures dealt { OnOk result ((all : List Viewing) (one : Viewing)
            → AreDealt all (lists_of self.old)
            → AreViewers (length self.old.by_worker.items) one viewers.items
            → AreDealt (all ++ one ∷ []) (lists_of self.new)) }
        ensures memory { IfErr result (λ fault. fault ≡ Fault.Memory) }
    {
        let mut viewers = viewers;
        for own in self.by_worker.iter_mut() {
            if let Some(viewer) = viewers.pop() {
                own.push(viewer)?;
            }
        }
        Ok(())
    }
}
