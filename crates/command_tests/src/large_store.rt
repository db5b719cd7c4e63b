//! A store of four shards with large values and long logs: what its clients read, and what each command tells of its files.
use crate::command_lines::{DONE, Output, Step, furnished, go_over, put};
use crate::large_values::{KEYS, hot_value, is_of_round, key_of, keys_of, value_of};
use crate::verdict::end;
use made::{Folder, WrongRows};
use std::alloc::Global;
use std::fs::File;
use std::process::Abort;
use std::random::RandomSource;
use std::rt::Files;
use std::sync::Wait;
use std::thread::Threads;
use std::time;
use store::{Client, Ended, FolderStore, Halt, Options, Store, Transaction};
use units::{Fault, Key, Splits};

const CLIENTS: u64 = 3;

// Twenty rounds, each of which writes each key in one transaction. The versions of the hot key take more than 4 MiB of one log.
const FIRST: Life = Life {
    from: 0,
    to: 10,
    hot: 0,
};

const SECOND: Life = Life {
    from: 10,
    to: 20,
    hot: 1_100,
};

const AGAIN: Life = Life {
    from: 20,
    to: 20,
    hot: 0,
};

// What the rounds left: one byte, none, 24 and 25 bytes, an erased key, and one that nobody wrote.
static LEFT: [Step; 6] = [
    Step {
        lines: &["get ./. o-14"],
        output: Output::Is("=f\n"),
        ..DONE
    },
    Step {
        lines: &["get ./. h-13"],
        output: Output::Is("=\n"),
        ..DONE
    },
    Step {
        lines: &["get ./. u-15"],
        output: Output::Is("=gggggggggggggggggggggggg\n"),
        ..DONE
    },
    Step {
        lines: &["get ./. b-0"],
        output: Output::Is("=rrrrrrrrrrrrrrrrrrrrrrrrr\n"),
        ..DONE
    },
    Step {
        lines: &["get ./. o-2", "get ./. u-1"],
        output: Output::Is("none\n"),
        ..DONE
    },
    Step {
        lines: &["inspect ./no.lines ./shard-0.log ./shard-1.log ./shard-2.log ./shard-3.log"],
        output: Output::Yes,
        ..DONE
    },
];

// Of the logs as they were written, and of an older log of the last shard, which lacks its parts of later rounds.
static WRITTEN: [Step; 5] = [
    Step {
        lines: &["history ./. b-hot"],
        output: Output::Lines(1_100),
        ..DONE
    },
    Step {
        lines: &["history ./. h-13", "history ./. u-15"],
        output: Output::Lines(20),
        ..DONE
    },
    Step {
        lines: &["dump ./shard-0.log"],
        output: Output::Over(1_120),
        ..DONE
    },
    Step {
        lines: &["inspect ./no.lines ./shard-0.log ./shard-1.log ./shard-2.log ./older.log"],
        output: Output::Begins("no torn "),
        status: 1,
        ..DONE
    },
    Step {
        lines: &[
            "compact ./shard-0.log ./shard-0.new",
            "compact ./shard-1.log ./shard-1.new",
            "compact ./shard-2.log ./shard-2.new",
            "compact ./shard-3.log ./shard-3.new",
        ],
        ..DONE
    },
];

// Of the new files, once they have the names of the old ones: a version, and how its transaction ended, is a record each.
static SWAPPED: [Step; 3] = [
    Step {
        lines: &["history ./. b-hot"],
        output: Output::Lines(1_100),
        ..DONE
    },
    Step {
        lines: &["history ./. h-13", "history ./. u-15"],
        output: Output::Lines(20),
        ..DONE
    },
    Step {
        lines: &["dump ./shard-0.log"],
        output: Output::Over(1_740),
        ..DONE
    },
];

static NAMES: [(&str, &str); 4] = [
    ("shard-0.new", "shard-0.log"),
    ("shard-1.new", "shard-1.log"),
    ("shard-2.new", "shard-2.log"),
    ("shard-3.new", "shard-3.log"),
];

fn left() -> &'static [Step] {
    &LEFT
}

// Writes what a round gives each key, in one transaction.
fn writes<R: Wait + time::Clock>(alloc: Global, client: &mut Client<'_, R>, round: u64) -> bool {
    let ended = client.transact(20, |tx: &mut Transaction<'_, R>| -> Result<(), Halt> {
        for number in 0..KEYS {
            let key = key_of(alloc, number)?;
            match value_of(alloc, number, round)? {
                Some(value) => tx.put(&key, value)?,
                None => tx.erase(&key)?,
            }
        }
        Ok(())
    });
    matches!(ended, Ok(Ended::Committed { .. }))
}

// Whether one transaction reads what the round gave each key.
fn reads<R: Wait + time::Clock>(
    alloc: Global,
    client: &mut Client<'_, R>,
    keys: &[Key],
    round: u64,
) -> bool {
    let ended = client.transact(20, |tx: &mut Transaction<'_, R>| -> Result<(), Halt> {
        let mut number = 0u64;
        for found in tx.get_all(keys)? {
            if !is_of_round(alloc, number, round, &found)? {
                return Err(Halt::Abandon(()));
            }
            number = number.saturating_add(1);
        }
        if number == KEYS {
            Ok(())
        } else {
            Err(Halt::Abandon(()))
        }
    });
    matches!(ended, Ok(Ended::Committed { .. }))
}

// Whether a view does.
fn views<R: Wait + time::Clock>(
    alloc: Global,
    client: &mut Client<'_, R>,
    keys: &[Key],
    round: u64,
) -> Result<bool, Fault> {
    let Some(mut view) = client.view() else {
        return Err(Fault::TimeSpent);
    };
    let mut number = 0u64;
    for key in keys {
        let found = view.get(key)?;
        if !is_of_round(alloc, number, round, &found)? {
            return Ok(false);
        }
        number = number.saturating_add(1);
    }
    Ok(true)
}

// Whether both do.
fn shows<R: Wait + time::Clock>(
    alloc: Global,
    client: &mut Client<'_, R>,
    keys: &[Key],
    round: u64,
) -> bool {
    reads(alloc, client, keys, round) && views(alloc, client, keys, round) == Ok(true)
}

// Writes so many versions of the hot key, each in a transaction of its own.
fn heats<R: Wait + time::Clock>(alloc: Global, client: &mut Client<'_, R>, versions: u64) -> bool {
    for number in 0..versions {
        let ended = client.transact(20, |tx: &mut Transaction<'_, R>| -> Result<(), Halt> {
            tx.put(&Key::new(b"b-hot")?, hot_value(alloc, number)?)?;
            Ok(())
        });
        if !matches!(ended, Ok(Ended::Committed { .. })) {
            return false;
        }
    }
    true
}

// What a service does: the rounds from one on that are below another, and then so many versions of the hot key.
#[derive(Clone, Copy)]
struct Life {
    from: u64,
    to: u64,
    hot: u64,
}

// Whether clients in turn write the rounds of a life, and read before each and at the end what the last round gave.
fn lives<R: Wait + time::Clock>(alloc: Global, clients: Vec<Client<'_, R>>, life: Life) -> bool {
    let mut clients = clients;
    let Ok(keys) = keys_of(alloc) else {
        return false;
    };
    for round in life.from..=life.to {
        let Some(client) = clients.get_mut((round % CLIENTS) as usize) else {
            return false;
        };
        if round > 0 && !shows(alloc, client, &keys, round.saturating_sub(1)) {
            return false;
        }
        if round < life.to && !writes(alloc, client, round) {
            return false;
        }
    }
    match clients.first_mut() {
        Some(client) => heats(alloc, client, life.hot),
        None => false,
    }
}

// A store of four shards in the folder, made when it is opened first.
fn opened<'r, R: Files<File = File> + RandomSource + Threads + Wait + time::Clock + Sync + Abort>(
    rt: &'r R,
    alloc: Global,
    folder: &str,
) -> FolderStore<'r, R> {
    let mut splits = Vec::new(alloc);
    for split in ["g", "n", "t"] {
        let key = Key::new(split.as_bytes()).ok().expect(rt, "a key");
        splits.push(key).ok().expect(rt, "memory");
    }
    let splits = Splits::new(alloc, &splits).ok().expect(rt, "splits");
    let mut options = Options::new(splits, CLIENTS);
    options.make = true;
    let store = Store::open_folder(rt, alloc, folder, options);
    store.ok().expect(rt, "a store")
}

// Whether a life goes so over a store that is opened for it.
fn goes<
    R: Files<File = File, Dir = <HostRuntime as Files>::Dir>
        + RandomSource
        + Threads
        + Wait
        + time::Clock
        + Sync
        + Abort,
>(rt: &R, alloc: Global, folder: &str, life: Life) -> bool {
    let store = opened(rt, alloc, folder);
    match store.serve(|clients: Vec<Client<'_, R>>| lives(alloc, clients, life)) {
        Ok((right, disks)) => {
            drop(disks);
            right
        }
        Err(_) => false,
    }
}

// Copies the log of the last shard.
fn copy_log(rt: &HostRuntime, test: &impl Abort, folder: &Folder) {
    let bytes = folder.read(rt, "shard-3.log").ok().expect(test, "a log");
    put(rt, test, folder, "older.log", &bytes);
    drop(bytes);
}

// It fails if a large value, a long transaction, a long log or one of the shards is not kept, or a command tells something else of the files:
// also once the logs are compacted, and the store goes on over the new files.
#[test]
fn a_large_store(rt: HostRuntime) {
    let alloc = rt.alloc();
    let folder = furnished(&rt, &rt);
    let path = folder.path(alloc, ".").ok().expect(&rt, "memory");
    let dir = path.as_str();
    let mut wrong = WrongRows::none(alloc);
    wrong.unless(goes(&rt, alloc, dir, FIRST), "the first rounds");
    copy_log(&rt, &rt, &folder);
    wrong.unless(goes(&rt, alloc, dir, SECOND), "the other rounds");
    wrong.unless(goes(&rt, alloc, dir, AGAIN), "the store, opened again");
    go_over(wrong.of("left"), &rt, &rt, &folder, left());
    go_over(wrong.of("written"), &rt, &rt, &folder, &WRITTEN);
    for (new, old) in &NAMES {
        folder.rename(&rt, new, old).ok().expect(&rt, new);
    }
    go_over(wrong.of("compacted"), &rt, &rt, &folder, left());
    go_over(wrong.of("swapped"), &rt, &rt, &folder, &SWAPPED);
    wrong.unless(
        goes(&rt, alloc, dir, AGAIN),
        "the store over compacted logs",
    );
    drop(path);
    wrong.unless(folder.remove(&rt), "the folder");
    end(&rt, wrong);
}
