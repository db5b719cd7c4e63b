//! Where the logs of shards stand, so that one can go on in a new disk, or is opened anew.
ghost use Rattle.std.specs.Prelude.{IfOk};

use units::{Fault, ShardNo};

/// Where the logs of shards stand, each in a disk of its own. A shard whose log has become long goes on in a new disk, which then takes the place of
/// its former one.
pub trait LogFolder<D> {
    /// Gives a new, empty disk for the log of a shard, beside that log. `None` if there is none: then the log stays where it is.
    fn draft(&self, shard: ShardNo) -> Option<D>;

    /// Puts the disk that was drafted last for a shard in the place of its log. What it holds is on the device already. Returns whether it is there:
    /// then it is found by whoever opens the shard later, whatever crash comes. If not, the former disk is found.
    ///
    /// `Device` says that nobody knows which of the two is found after a crash. Then none of them may take a record, until the device is sure.
    fn put_in_place(&self, shard: ShardNo) -> Result<bool, Fault>;

    /// Says which disk `find` may give for a former one.
    ghost may_find: { D → D → Type 0 };

    /// Gives the disk of a stopped shard, opened anew by its name. So it is the disk that a crash leaves, and it may take records. `Err` gives the former
    /// one back: then no disk of the shard may be opened now, and the same call may be answered later.
    fn find(&self, shard: ShardNo, former: D) -> Result<D, D>
        ensures { IfOk result (may_find former) };
}
