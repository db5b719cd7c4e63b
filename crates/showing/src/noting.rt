//! What an opening would refuse of logs in files.
use gatelog::GateLog;
use recovery::rebuild;
use std::alloc::Global;
use system::{Files, Note};
use units::{Book, Fault, Key, Setup, ShardNo, Splits, Stride};

/// Tells of each log of shards 0, 1 and so on that an opening would refuse as damaged though it is judged. Its locks or its versions
/// don't fit beside each other, or more rows stand than a shard has. Which keys belong to a shard is not asked. If nobody wants
/// that told, nothing is read.
pub fn note_refusals<F: Files>(alloc: Global, files: &F, logs: &[&str]) {
    if !files.wants_notes() {
        return;
    }
    for (shard, path) in logs.iter().enumerate() {
        if let Ok(Some(fault)) = refusal(alloc, files, path, shard) {
            files.tell(Note { shard, fault });
        }
    }
}

// How an opening would refuse the log in a file. A log that is no log at all has its fault elsewhere.
fn refusal<F: Files>(
    alloc: Global,
    files: &F,
    path: &str,
    shard: usize,
) -> Result<Option<Fault>, Fault> {
    let disk = files.open(alloc, path)?;
    let entries = match GateLog::open(alloc, disk) {
        Ok((log, entries)) => {
            drop(log.into_disk());
            entries
        }
        Err((fault, disk)) => {
            drop(disk);
            return Err(fault);
        }
    };
    let setup = setup_of(alloc, shard)?;
    let rebuilt = rebuild(alloc, &entries, &setup);
    drop(setup);
    drop(entries);
    match rebuilt {
        Ok(Some(state)) => {
            state.stop();
            Ok(None)
        }
        Ok(None) => Ok(None),
        Err(Fault::Damaged { offset }) => Ok(Some(Fault::Damaged { offset })),
        Err(fault) => Err(fault),
    }
}

// A shard of this number that has all keys, but for some of zeros alone.
fn setup_of(alloc: Global, shard: usize) -> Result<Setup, Fault> {
    let Some(number) = u8::try_from(shard).ok().and_then(ShardNo::new) else {
        return Err(Fault::Stranger);
    };
    let mut keys = Vec::new(alloc);
    for length in 0..shard.min(15) {
        keys.push(Key::new(&[0; 16][..length + 1])?)?;
    }
    let splits = Splits::new(alloc, &keys)?;
    let Some(stride) = Stride::new(0) else {
        return Err(Fault::Stranger);
    };
    Ok(Setup {
        shard: number,
        splits,
        stride,
        book: Book::Off,
    })
}
