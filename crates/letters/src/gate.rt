//! What is told when letters go through a node.
use units::ShardNo;

/// What is told of the letters of each node. Its calls are made outside the node's lock.
pub trait Gate {
    /// Is called before the n-th letter of a shard, from 0.
    fn before(&self, shard: ShardNo, n: u64);

    /// Is called after the n-th letter of a shard.
    fn after(&self, shard: ShardNo, n: u64);

    /// Is called when the node's device has failed, so that it takes no more. Each stop is told once.
    fn stopped(&self, _shard: ShardNo) {}

    /// Is called when a node that has stopped takes letters again, since its disk was opened again.
    fn goes_on(&self, _shard: ShardNo) {}
}
