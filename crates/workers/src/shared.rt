//! What the workers of a drive share.
ghost use Rattle.std.specs.Prelude.{◌≡◌, All, length, IfErr, IfOk};

use crate::course::Course;
use client::Stop;
use letters::{Inboxes, Network};
use std::alloc::Global;
use tickets::{Drawer, Tickets};
use units::{Fault, Run, Splits};

/// What all workers of a drive share.
#[derive(Drop)]
pub struct Shared {
    /// The allocator of all that they take.
    pub alloc: Global,
    /// The run of their ids.
    pub run: Run,
    /// The splits between the shards.
    pub splits: Splits,
    /// What carries their letters, and the answers.
    pub network: Network,
    /// The source of the ids' numbers.
    pub ids: Tickets,
    /// The source of the moments of lines.
    pub moments: Tickets,
    /// The word that workers are to end.
    pub stop: Stop,
}

/// What each worker draws its numbers with, by its number.
#[derive(Drop)]
pub struct Drawers {
    /// One for the ids of its transactions.
    pub ids: Vec<Drawer>,
    /// One for the moments of its lines.
    pub moments: Vec<Drawer>,
}

impl Shared {
    /// Makes what the workers of a course share, over so many nodes.
    pub fn new(
        alloc: Global,
        course: Course,
        run: Run,
        splits: &Splits,
        nodes: usize,
    ) -> Result<(Shared, Inboxes, Drawers), Fault>
        ensures inboxes { IfOk result (λ made. length made.1.workers.items ≡ course.workers) }
        ensures ids { IfOk result (λ made. (length made.2.ids.items ≡ course.workers)
            × All (λ drawer. drawer.source ≡ made.0.ids) made.2.ids.items) }
        ensures moments { IfOk result (λ made. (length made.2.moments.items ≡ course.workers)
            × All (λ drawer. drawer.source ≡ made.0.moments) made.2.moments.items) }
        ensures memory { IfErr result (λ fault. fault ≡ Fault.Memory) }
    {
        let workers = course.workers as usize;
        let splits = splits.copy(alloc)?;
        let (ids, id_drawers) = Tickets::new(alloc, workers)?;
        let (moments, moment_drawers) = Tickets::new(alloc, workers)?;
        let (network, inboxes) = Network::new(alloc, nodes, workers)?;
        let shared = Shared {
            alloc,
            run,
            splits,
            network,
            ids,
            moments,
            stop: Stop::new(),
        };
        let drawers = Drawers {
            ids: id_drawers,
            moments: moment_drawers,
        };
        Ok((shared, inboxes, drawers))
    }
}
