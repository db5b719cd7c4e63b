//! The places in which the logs of a store stand.
use filedisk::FileDisk;
use host_files::{draft_beside, open_anew, put_in_place};
use node::LogFolder;
use std::alloc::Global;
use std::fs::File;
use std::rt::Files;
use units::{Fault, ShardNo};

/// The logs of a store that was opened over disks: each stays in its disk.
#[derive(Drop)]
pub struct NoFolder;

impl<D> LogFolder<D> for NoFolder {
    ghost use Rattle.std.specs.Prelude.{◌≡◌};

    ghost may_find = { λ former disk. disk ≡ former };

    fn draft(&self, _shard: ShardNo) -> Option<D> {
        None
    }

    fn put_in_place(&self, _shard: ShardNo) -> Result<bool, Fault> {
        Ok(false)
    }

    fn find(&self, _shard: ShardNo, former: D) -> Result<D, D> {
        Ok(former)
    }
}

/// The folder of a store whose logs are files. A log that has become long goes on in a new file, which gets its name.
#[derive(Drop)]
pub struct LogFiles<'r, R> {
    pub(crate) rt: &'r R,
    pub(crate) alloc: Global,
    pub(crate) path: String,
}

impl<R: Files<File = File>> LogFolder<FileDisk> for LogFiles<'_, R> {
    ghost use Rattle.std.specs.Prelude.{◌≡◌, false};
    ghost use Rattle.filedisk.specs.State.{file_is_torn};

    // No sync of it has failed since it was opened.
    ghost may_find = { λ former disk. file_is_torn disk ≡ false };

    fn draft(&self, shard: ShardNo) -> Option<FileDisk> {
        let shard = usize::from(shard.number());
        draft_beside(self.rt, self.alloc, &self.path, shard).ok()
    }

    fn put_in_place(&self, shard: ShardNo) -> Result<bool, Fault> {
        let shard = usize::from(shard.number());
        match put_in_place(self.rt, self.alloc, &self.path, shard) {
            Ok(placed) => Ok(placed),
            Err(refused) => Err(refused.fault),
        }
    }

    fn find(&self, shard: ShardNo, former: FileDisk) -> Result<FileDisk, FileDisk> {
        let shard = usize::from(shard.number());
        open_anew(self.rt, self.alloc, &self.path, shard, former)
    }
}
