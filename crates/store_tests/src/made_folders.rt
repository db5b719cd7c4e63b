//! Stores that are made in a folder, and opened.
use crate::clients::{KEYS, of_one_shard};
use crate::served::{opened, serve_folder};
use crate::services::Finding;
use crate::verdict::end;
use made::{Folder, WrongRows, is_text};
use std::sync::atomic::{AtomicU64, Ordering};
use store::{Expected, Name, refusal_in};
use units::{Fault, Splits};

// What is done in one folder, one row after the other, and how it ends.
#[derive(Clone, Copy)]
enum Does {
    Open,
    Make,
    Either,
}

struct Row {
    name: &'static str,
    does: Does,
    ends: Result<(), Fault>,
}

static ROWS: [Row; 6] = [
    Row {
        name: "an empty folder is opened",
        does: Does::Open,
        ends: Err(Fault::Device),
    },
    Row {
        name: "it is opened once more: nothing was made",
        does: Does::Open,
        ends: Err(Fault::Device),
    },
    Row {
        name: "a store is made",
        does: Does::Make,
        ends: Ok(()),
    },
    Row {
        name: "it is made again",
        does: Does::Make,
        ends: Err(Fault::Device),
    },
    Row {
        name: "it is opened",
        does: Does::Open,
        ends: Ok(()),
    },
    Row {
        name: "it is opened, or made",
        does: Does::Either,
        ends: Ok(()),
    },
];

// Whether the manifest is told as what is wrong, in these words.
fn is_told(rt: &HostRuntime, folder: &str, expected: Expected, words: &str) -> bool {
    let alloc = rt.alloc();
    let Ok(splits) = Splits::new(alloc, &[]) else {
        return false;
    };
    let refused = refusal_in(rt, alloc, folder, &splits, expected);
    drop(splits);
    let Some(refused) = refused else {
        return false;
    };
    match (refused.file, refused.why) {
        (Some(Name::Manifest), Some(why)) => is_text(format!(in alloc; "{why}"), words),
        _ => false,
    }
}

// It fails where a folder without a store is opened, where one is left by that, or where a store is made over another.
#[test]
fn stores_are_made_or_opened(rt: HostRuntime) {
    let folder = Folder::new(&rt).ok().expect(&rt, "a folder");
    let path = folder.path(rt.alloc(), ".").ok().expect(&rt, "memory");
    let mut wrong = WrongRows::none(rt.alloc());
    wrong.unless(
        is_told(&rt, path.as_str(), Expected::Store, "no store is there"),
        "what an empty folder is refused for",
    );
    for row in &ROWS {
        let mut options = of_one_shard(&rt, rt.alloc(), 1);
        options.make = matches!(row.does, Does::Either);
        let makes = matches!(row.does, Does::Make);
        let ended = opened(&rt, rt.alloc(), path.as_str(), options, makes);
        wrong.unless(ended == row.ends, row.name);
    }
    wrong.unless(
        is_told(&rt, path.as_str(), Expected::NoStore, "is there already"),
        "what a store is refused for that is to be made",
    );
    drop(path);
    wrong.unless(folder.remove(&rt), "the folder");
    end(&rt, wrong);
}

// Fails if the ids of a store in a folder begin anew once it is opened again, or views go back.
#[test]
fn folders_go_on_from_their_logs(rt: HostRuntime) {
    let alloc = rt.alloc();
    let folder = Folder::new(&rt).ok().expect(&rt, "a folder");
    let path = folder.path(alloc, ".").ok().expect(&rt, "memory");
    let mut wrong = WrongRows::none(alloc);
    let (run, at) = (AtomicU64::new(0), AtomicU64::new(0));
    let finding = Finding {
        keys: &KEYS[..1],
        run: &run,
        at: &at,
    };
    let mut found = [(0, 0), (0, 0)];
    for told in &mut found {
        let mut options = of_one_shard(&rt, alloc, 1);
        options.make = true;
        let name = "a client";
        let served = serve_folder(
            &rt,
            alloc,
            path.as_str(),
            options,
            name,
            &finding,
            &mut wrong,
        );
        wrong.unless(served == Ok(()), "a store");
        *told = (run.load(Ordering::SeqCst), at.load(Ordering::SeqCst));
    }
    drop(path);
    let [(first, then), (second, later)] = found;
    wrong.unless((first, second) == (1, 2), "the runs of ids");
    wrong.unless(then > 0 && later > then, "the times of views");
    wrong.unless(folder.remove(&rt), "the folder");
    end(&rt, wrong);
}
