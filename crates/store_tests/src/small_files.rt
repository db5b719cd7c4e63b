//! Stores whose logs go on in new files, or stay in theirs, and what is left of a file if a call fails meanwhile.
use crate::clients::{is_committed, of_one_shard, sees, write};
use crate::faulty::Faulty;
use crate::served::{OneClient, Sees, serve_folder};
use crate::verdict::end;
use disk::Disk;
use host_files::{draft_beside, put_in_place};
use made::{FIRST_GATE, Folder, WrongRows};
use std::alloc::Global;
use std::process::Abort;
use std::sync::Wait;
use std::time::Duration;
use std::{thread, time};
use store::{Client, Options};

// How far into its file a log may begin, how often the file was turned over after all commits, at least and at most, and whether its
// log begins right after its slots.
struct Row {
    name: &'static str,
    shrink: Option<u64>,
    turnovers: (u64, u64),
    is_small: bool,
}

static ROWS: [Row; 3] = [
    Row {
        name: "a log that stays in its file",
        shrink: None,
        turnovers: (2, 1_000),
        is_small: false,
    },
    Row {
        name: "one that does not begin so far into it",
        shrink: Some(1_000_000),
        turnovers: (2, 1_000),
        is_small: false,
    },
    Row {
        name: "one that goes on in a new file each time",
        shrink: Some(0),
        turnovers: (1, 1),
        is_small: true,
    },
];

// So many commits at least, and at most, one each five milliseconds, of 73 bytes in the log. A shard looks at its log about once a second.
const COMMITS: u32 = 60;

const MOST_COMMITS: u32 = 6_000;

const PAUSE: u64 = 5;

// By so many bytes a log grows before it is renewed.
const GROWTH: u64 = 2_000;

// The options of a row. A store is made where there is none.
fn options_of(test: &impl Abort, alloc: Global, row: &Row) -> Options {
    let mut options = of_one_shard(test, alloc, 1);
    options.renew = Some(GROWTH);
    options.shrink = row.shrink;
    options.patience = 100;
    options.make = true;
    options
}

// Makes commits until the shard tells that its log was turned over so often, or as many as there may be. `None` if one was not acknowledged.
fn write_until<R: Wait + time::Clock>(
    rt: &R,
    alloc: Global,
    client: &mut Client<'_, R>,
    least: u64,
) -> Option<()> {
    for commit in 0..MOST_COMMITS {
        if !is_committed(&write(alloc, client, 5, &[b"a"], b"1")) {
            return None;
        }
        if COMMITS <= commit && client.numbers().of(0)?.turnovers >= least {
            return Some(());
        }
        thread::sleep(rt, Duration::from_millis(PAUSE));
    }
    Some(())
}

impl<R: Wait + time::Clock> OneClient<R> for Row {
    // Whether all commits are acknowledged, a view sees the last one, and the file of the shard is then as the row says.
    fn work(
        &self,
        rt: &R,
        alloc: Global,
        client: &mut Client<'_, R>,
        _wrong: &mut WrongRows,
    ) -> Option<()> {
        let (least, most) = self.turnovers;
        write_until(rt, alloc, client, least)?;
        let last = is_committed(&write(alloc, client, 5, &[b"a"], b"2"));
        let seen = sees(client, &[b"a"], b"2").is_ok();
        let numbers = client.numbers().of(0)?;
        let right = last
            && seen
            && least <= numbers.turnovers
            && numbers.turnovers <= most
            && numbers.turnovers_refused == 0
            && (numbers.area_begins == FIRST_GATE + 1) == self.is_small;
        if right { Some(()) } else { None }
    }
}

// What was committed last.
static LAST: Sees<'static> = Sees {
    keys: &[b"a"],
    value: b"2",
};

// Fails if a log that goes on in a new file is not found there, or one goes on in a new file that is to stay.
#[test]
fn files_stay_small(rt: HostRuntime) {
    let alloc = rt.alloc();
    let mut wrong = WrongRows::none(alloc);
    for row in &ROWS {
        let folder = Folder::new(&rt).ok().expect(&rt, "a folder");
        let path = folder.path(alloc, ".").ok().expect(&rt, "memory");
        let path_in = path.as_str();
        let options = options_of(&rt, alloc, row);
        let made = serve_folder(&rt, alloc, path_in, options, row.name, row, &mut wrong);
        let options = options_of(&rt, alloc, row);
        let again = serve_folder(&rt, alloc, path_in, options, row.name, &LAST, &mut wrong);
        wrong.unless(made == Ok(()) && again == Ok(()), row.name);
        drop(path);
        wrong.unless(folder.remove(&rt), "the folder");
    }
    end(&rt, wrong);
}

const FORMER: &[u8] = b"former";

const NEW: &[u8] = b"new";

// Puts a new file in the place of a log while a call fails. Whether it has the place, or which refusal comes, and whether a call failed.
fn placed(rt: &HostRuntime, alloc: Global, path: &str, fails: u64) -> (Option<bool>, bool) {
    let faulty = Faulty::new(rt, fails);
    let placed = match draft_beside(&faulty, alloc, path, 0) {
        Ok(mut file) => {
            let wrote = file.write_at(0, NEW).is_ok() && file.sync().is_ok();
            drop(file);
            if wrote {
                put_in_place(&faulty, alloc, path, 0).ok()
            } else {
                Some(false)
            }
        }
        Err(_) => Some(false),
    };
    (placed, faulty.has_failed())
}

// Whether the log is the new file if that has the place, the former one if it has not, and one of the two if nobody knows.
fn is_left(rt: &HostRuntime, folder: &Folder, placed: Option<bool>) -> bool {
    let is_new = folder.has(rt, "shard-0.log", NEW);
    let is_former = folder.has(rt, "shard-0.log", FORMER);
    match placed {
        Some(true) => is_new,
        Some(false) => is_former,
        None => is_new || is_former,
    }
}

// Fails if a log's name leads to no file, to the new one before that has the place, or to the former one after that. Each call fails in turn, and
// then none.
#[test]
fn a_log_is_the_former_file_or_the_new_one(rt: HostRuntime) {
    let alloc = rt.alloc();
    let mut right = true;
    let mut ended = false;
    for fails in 0..100 {
        let folder = Folder::new(&rt).ok().expect(&rt, "a folder");
        let path = folder.path(alloc, ".").ok().expect(&rt, "memory");
        let put = folder.put(&rt, "shard-0.log", FORMER).is_ok();
        let (placed, failed) = placed(&rt, alloc, path.as_str(), fails);
        drop(path);
        right = right && put && is_left(&rt, &folder, placed) && (failed || placed == Some(true));
        right = folder.remove(&rt) && right;
        ended = !failed;
        if ended {
            break;
        }
    }
    assert!(rt; right && ended);
}
