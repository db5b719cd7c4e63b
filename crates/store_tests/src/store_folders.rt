//! Folders of a store of two shards, which part at `m`: what is taken, what is refused, and what is left under which name.
use crate::clients::two_parts;
use crate::disks::{logs_of, settings_in};
use crate::faulty::Faulty;
use crate::folder_scenes::{MADE, Named, Scene, beside, emptied, logs, stores, strange, strangers};
use crate::verdict::end;
use drive::drive_shards;
use host_files::{Expected, Noted, logs_in};
use made::{Folder, WrongRows, with_slots};
use settings::Settings;
use std::alloc::Global;
use std::fs::{self, File};
use std::os::unix::fs::symlink;
use std::process::Abort;
use std::random::RandomSource;
use std::rt::Files;
use std::sync::Wait;
use std::thread::Threads;
use std::time;
use units::Fault;

// The path of a name in a folder.
fn path_of(rt: &HostRuntime, test: &impl Abort, folder: &Folder, name: &str) -> String {
    folder.path(rt.alloc(), name).ok().expect(test, "memory")
}

// Puts the files of a scene into a folder.
fn furnish(rt: &HostRuntime, test: &impl Abort, folder: &Folder, scene: &Scene) {
    for (name, bytes) in scene.files {
        let whole = with_slots(rt.alloc(), bytes).ok().expect(test, "memory");
        let put = folder.put(rt, name, &whole);
        drop(whole);
        put.ok().expect(test, name);
    }
    if let Some(link) = scene.link {
        let path = path_of(rt, test, folder, link);
        let made = symlink(rt, "precious", path.as_str());
        drop(path);
        made.ok().expect(test, link);
    }
}

// Whether a file has these bytes.
fn has(rt: &HostRuntime, test: &impl Abort, folder: &Folder, named: &Named) -> bool {
    let whole = with_slots(rt.alloc(), named.1).ok().expect(test, "memory");
    let same = folder.has(rt, named.0, &whole);
    drop(whole);
    same
}

// Whether nothing has a name.
fn lacks(rt: &HostRuntime, test: &impl Abort, folder: &Folder, name: &str) -> bool {
    let path = path_of(rt, test, folder, name);
    let found = fs::symlink_metadata(rt, path.as_str());
    drop(path);
    found.is_err()
}

// Whether a folder is as the scene leaves it.
fn is_left(rt: &HostRuntime, test: &impl Abort, folder: &Folder, scene: &Scene) -> bool {
    for named in scene.left {
        if !has(rt, test, folder, named) {
            return false;
        }
    }
    for name in scene.gone {
        if !lacks(rt, test, folder, name) {
            return false;
        }
    }
    scene.refused.is_some() || !lacks(rt, test, folder, "store.toml")
}

// Why the logs of a folder are refused, while a call of the runtime fails, if one does; and whether one did.
fn asked(
    rt: &HostRuntime,
    test: &impl Abort,
    folder: &Folder,
    fails: u64,
) -> (Option<Fault>, bool) {
    let faulty = Faulty::new(rt, fails);
    let path = path_of(rt, test, folder, ".");
    let splits = two_parts(test, rt.alloc());
    let logs = logs_in(
        &faulty,
        rt.alloc(),
        path.as_str(),
        &splits,
        Expected::Either,
    );
    drop(path);
    drop(splits);
    let fault = match logs {
        Ok(logs) => {
            drop(logs);
            None
        }
        Err(refused) => Some(refused.fault),
    };
    (fault, faulty.has_failed())
}

// Whether a scene goes as it should, while each of its calls fails in turn and then none. It tells what is refused, or `Device`, and the call
// after it goes as if none had failed.
fn goes(rt: &HostRuntime, test: &impl Abort, scene: &Scene) -> bool {
    for fails in 0..200 {
        let folder = Folder::new(rt).ok().expect(test, "a folder");
        furnish(rt, test, &folder, scene);
        let (fault, failed) = asked(rt, test, &folder, fails);
        let first = fault == scene.refused || failed && fault == Some(Fault::Device);
        let (again, _) = asked(rt, test, &folder, u64::MAX);
        let right = first && again == scene.refused && is_left(rt, test, &folder, scene);
        if !folder.remove(rt) || !right {
            return false;
        }
        if !failed {
            return true;
        }
    }
    false
}

// Fails if a folder is taken, refused or left otherwise than its scene says.
#[test]
fn folders(rt: HostRuntime) {
    let mut wrong = WrongRows::none(rt.alloc());
    for scenes in [
        stores(),
        logs(),
        strangers(),
        beside(),
        emptied(),
        strange(),
    ] {
        for scene in scenes {
            wrong.unless(goes(&rt, &rt, scene), scene.what);
        }
    }
    end(&rt, wrong);
}

// While another has the lock of a folder its logs are refused, and nothing is made in it; then they are given.
#[test]
fn locked_folders(rt: HostRuntime) {
    let folder = Folder::new(&rt).ok().expect(&rt, "a folder");
    let path = path_of(&rt, &rt, &folder, ".");
    let held = File::open(&rt, path.as_str())
        .ok()
        .expect(&rt, "the folder");
    drop(path);
    let mut right = held.try_lock().is_ok();
    let (locked, _) = asked(&rt, &rt, &folder, u64::MAX);
    for name in MADE {
        right = right && lacks(&rt, &rt, &folder, name);
    }
    drop(held);
    let (free, _) = asked(&rt, &rt, &folder, u64::MAX);
    right = right && locked == Some(Fault::Device) && free.is_none();
    assert!(rt; folder.remove(&rt) && right);
}

// The manifest of a new store.
fn new_manifest(rt: &HostRuntime, test: &impl Abort) -> Vec<u8> {
    let folder = Folder::new(rt).ok().expect(test, "a folder");
    let (fault, _) = asked(rt, test, &folder, u64::MAX);
    let manifest = folder.read(rt, "store.toml").ok();
    let right = folder.remove(rt) && fault.is_none();
    assert!(test; right);
    manifest.expect(test, "a manifest")
}

// Each new store has a name of its own.
#[test]
fn names_of_stores(rt: HostRuntime) {
    let first = new_manifest(&rt, &rt);
    let second = new_manifest(&rt, &rt);
    let same = first.as_slice() == second.as_slice();
    drop(first);
    drop(second);
    assert!(rt; !same);
}

// The shards of a drive of four transactions.
const SHARDS: &str = "shards = 2\nsplits = [\"k0001\"]";

// Whether a drive over a folder goes well: it has committed something, and its verdict is yes. Or why it is refused.
fn driven<R: Files<File = File> + RandomSource + Threads + Wait + time::Clock + Sync>(
    rt: &R,
    alloc: Global,
    settings: &Settings,
) -> Result<bool, Fault> {
    match drive_shards(rt, alloc, settings, None::<Vec<u8>>, false, &Noted::none()) {
        Ok(driven) => {
            let text = driven.text.as_str();
            let some = text.starts_with("committed ") && !text.starts_with("committed 0\n");
            let well = some && text.ends_with("\nverdict yes\n");
            drop(driven);
            Ok(well)
        }
        Err(none) => {
            let fault = none.fault;
            drop(none);
            Err(fault)
        }
    }
}

// What a log has after what it was.
fn rest_of<'a>(before: &[u8], after: &'a [u8]) -> Option<&'a [u8]> {
    let (_, kept) = before.split_last()?;
    after.strip_prefix(kept)
}

// Whether a log begins with what it was, and goes on with the second opening.
fn goes_on(before: &[u8], after: &[u8]) -> bool {
    match rest_of(before, after) {
        Some(rest) => rest.starts_with(b"\xa5\0\0\0\x09\x01\0\0\0\0\0\0\0\x02".as_slice()),
        None => false,
    }
}

// A second drive over one folder opens run 2, and loses nothing of the first.
#[test]
fn a_second_drive(rt: HostRuntime) {
    let folder = Folder::new(&rt).ok().expect(&rt, "a folder");
    let settings = settings_in(&rt, &rt, &folder, SHARDS, 4);
    let once = driven(&rt, rt.alloc(), &settings);
    let [first, second] = logs_of(&rt, &folder).expect(&rt, "logs");
    let twice = driven(&rt, rt.alloc(), &settings);
    let [first_again, second_again] = logs_of(&rt, &folder).expect(&rt, "logs");
    drop(settings);
    let went = goes_on(&first, &first_again) && goes_on(&second, &second_again);
    drop(first);
    drop(second);
    drop(first_again);
    drop(second_again);
    assert!(rt; folder.remove(&rt) && went && once == Ok(true) && twice == Ok(true));
}

// A log that is emptied between two drives is refused, and no drive makes it anew; the other one loses nothing.
#[test]
fn an_emptied_log(rt: HostRuntime) {
    let folder = Folder::new(&rt).ok().expect(&rt, "a folder");
    let settings = settings_in(&rt, &rt, &folder, SHARDS, 4);
    let once = driven(&rt, rt.alloc(), &settings);
    let [first, second] = logs_of(&rt, &folder).expect(&rt, "logs");
    drop(second);
    let put = folder.put(&rt, "shard-1.log", b"");
    put.ok().expect(&rt, "an empty file");
    let twice = driven(&rt, rt.alloc(), &settings);
    drop(settings);
    let after = folder.read(&rt, "shard-0.log").ok().expect(&rt, "a log");
    let kept = rest_of(&first, &after).is_some() && folder.has(&rt, "shard-1.log", b"");
    drop(first);
    drop(after);
    let refused = once == Ok(true) && twice == Err(Fault::NotALog);
    assert!(rt; folder.remove(&rt) && refused && kept);
}
