//! A drive over a folder whose log loses what it has told meanwhile.
use crate::disks::settings_in;
use drive::run;
use letters::Gate;
use made::{FIRST_GATE, Folder};
use units::ShardNo;

// The log of the only shard.
const LOG: &str = "shard-0.log";

// The letter after which it is lost: by then some transactions have committed, and many are to come.
const LETTER: u64 = 30;

// Closes the gate of the first record of the log after a letter, so that it reads as empty.
#[derive(Clone, Copy)]
struct Losing<'a> {
    rt: &'a HostRuntime,
    folder: &'a Folder,
}

impl Gate for Losing<'_> {
    fn before(&self, _shard: ShardNo, _n: u64) {}

    // The log goes on after the closed gate, and nothing of it is read.
    fn after(&self, _shard: ShardNo, n: u64) {
        if n == LETTER {
            if let Ok(mut log) = self.folder.read(self.rt, LOG) {
                if let Some(gate) = log.get_mut(FIRST_GATE as usize) {
                    *gate = 0;
                }
                let _ = self.folder.put(self.rt, LOG, &log);
                drop(log);
            }
        }
    }
}

// Fails if a drive over files says yes whatever its logs have lost.
#[test]
fn a_drive_that_lost_its_log(rt: HostRuntime) {
    let folder = Folder::new(&rt).ok().expect(&rt, "a folder");
    let settings = settings_in(&rt, &rt, &folder, "shards = 1\nsplits = []", 50);
    let gate = Losing {
        rt: &rt,
        folder: &folder,
    };
    let told = run(&rt, rt.alloc(), &settings, &gate);
    drop(settings);
    let text = told.expect(&rt, "a drive");
    let lost = text.starts_with("committed ") && text.contains("\nverdict no lost 1.");
    drop(text);
    assert!(rt; folder.remove(&rt) && lost);
}
