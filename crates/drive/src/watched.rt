//! What a drive is told of its nodes.
use client::Stop;
use letters::Gate;
use progress::Watch;
use units::ShardNo;

/// A gate that letters go through. It also tells the watch and the workers when a node has stopped.
#[derive(Drop)]
pub struct Watched<'a, G, W> {
    /// The gate that is told of each letter.
    pub gate: &'a G,
    /// What is told which shard has stopped.
    pub watch: &'a W,
    /// What tells the workers to stop.
    pub stop: &'a Stop,
}

impl<G: Gate, W: Watch> Gate for Watched<'_, G, W> {
    fn before(&self, shard: ShardNo, n: u64) {
        self.gate.before(shard, n);
    }

    fn after(&self, shard: ShardNo, n: u64) {
        self.gate.after(shard, n);
    }

    fn stopped(&self, shard: ShardNo) {
        self.stop.tell();
        self.watch.stopped(usize::from(shard.number()));
        self.gate.stopped(shard);
    }
}
