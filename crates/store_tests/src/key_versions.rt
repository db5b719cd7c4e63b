//! Versions of a key in a view: in ranges of time, in parts, up to the view's time, and once they are forgotten.
use crate::clients::{commit, disks_of, of_two_shards};
use crate::served::{OneClient, serve_one};
use crate::verdict::end;
use made::WrongRows;
use std::alloc::Global;
use std::sync::Wait;
use std::time::Duration;
use std::{thread, time};
use store::{Client, Fault, Install, Key, Stamp};

// How long is kept, in microseconds.
const KEEP: u64 = 10_000_000;

// The timestamps of the commits.
#[derive(Drop)]
struct Times {
    at: [Stamp; 4],
}

// A key of shard 1 after each of four commits. The second writes another key, the third erases the key.
const COMMITS: [[(&[u8], Option<&[u8]>); 1]; 4] = [
    [(b"x", Some(b"1"))],
    [(b"y", Some(b"2"))],
    [(b"x", None)],
    [(b"x", Some(b"4"))],
];

// What a key has from the time of one commit to that of another, in a view at the time of a third, in parts. Each version is the number of its
// commit and its value; no value is empty.
struct Row {
    name: &'static str,
    view: usize,
    key: &'static [u8],
    from: usize,
    to: usize,
    limit: usize,
    versions: &'static [(usize, &'static [u8])],
}

static ROWS: [Row; 9] = [
    Row {
        name: "all",
        view: 3,
        key: b"x",
        from: 0,
        to: 3,
        limit: usize::MAX,
        versions: &[(0, b"1"), (2, b""), (3, b"4")],
    },
    Row {
        name: "all, one by one",
        view: 3,
        key: b"x",
        from: 0,
        to: 3,
        limit: 1,
        versions: &[(0, b"1"), (2, b""), (3, b"4")],
    },
    Row {
        name: "all, two by two",
        view: 3,
        key: b"x",
        from: 0,
        to: 3,
        limit: 2,
        versions: &[(0, b"1"), (2, b""), (3, b"4")],
    },
    Row {
        name: "from a time between two versions",
        view: 3,
        key: b"x",
        from: 1,
        to: 3,
        limit: 2,
        versions: &[(1, b"1"), (2, b""), (3, b"4")],
    },
    Row {
        name: "up to before the newest",
        view: 3,
        key: b"x",
        from: 0,
        to: 2,
        limit: 100,
        versions: &[(0, b"1"), (2, b"")],
    },
    Row {
        name: "up to a time after the view's",
        view: 2,
        key: b"x",
        from: 0,
        to: 3,
        limit: 100,
        versions: &[(0, b"1"), (2, b"")],
    },
    Row {
        name: "at one time",
        view: 3,
        key: b"x",
        from: 2,
        to: 2,
        limit: 1,
        versions: &[(2, b"")],
    },
    Row {
        name: "a range that ends before it begins",
        view: 3,
        key: b"x",
        from: 3,
        to: 0,
        limit: 1,
        versions: &[],
    },
    Row {
        name: "a key that has had nothing",
        view: 3,
        key: b"z",
        from: 0,
        to: 3,
        limit: 1,
        versions: &[(0, b"")],
    },
];

// Whether a version of a row's key is this one of the row.
fn is_listed(
    version: &Install,
    row: &Row,
    expected: Option<&(usize, &[u8])>,
    times: &Times,
) -> bool {
    let Some((place, bytes)) = expected else {
        return false;
    };
    let value = match &version.value {
        Some(value) => value.as_bytes(),
        None => b"",
    };
    version.key.as_bytes() == row.key
        && times.at.get(*place) == Some(&version.at)
        && value == *bytes
}

// Whether the view of a row's time tells the versions of the row once it is served, in parts that are no longer than it says.
fn lists<R: Wait + time::Clock>(
    client: &mut Client<'_, R>,
    row: &Row,
    times: &Times,
) -> Result<bool, Fault> {
    let mut view = client.view_at(times.at[row.view % 4]);
    view.wait_at_most(Duration::from_secs(2));
    let key = Key::new(row.key)?;
    let to = times.at[row.to % 4];
    let mut next = Some(times.at[row.from % 4]);
    let mut found = 0_usize;
    let mut right = true;
    for _part in 0..20 {
        let Some(from) = next else {
            break;
        };
        let history = view.versions(&key, from, to, row.limit)?;
        right = right && history.versions.len() <= row.limit;
        for version in &history.versions {
            right = right && is_listed(version, row, row.versions.get(found), times);
            found = found.saturating_add(1);
        }
        next = history.next;
        drop(history);
    }
    Ok(right && next.is_none() && found == row.versions.len())
}

// Why the versions of the first row are refused in a view that does not wait, from the first commit to so much later than that of the view.
fn refused<R: Wait + time::Clock>(
    client: &mut Client<'_, R>,
    times: &Times,
    later: u64,
) -> Option<Fault> {
    let at = Stamp::new(times.at[3].micros().saturating_add(later)).ok()?;
    let mut view = client.view_at(at);
    match view.versions(&Key::new(b"x").ok()?, times.at[0], at, 1) {
        Ok(history) => {
            drop(history);
            None
        }
        Err(fault) => Some(fault),
    }
}

// Whether the first commit is too old for a history within 30 seconds of further ones.
fn is_forgotten<R: Wait + time::Clock>(
    rt: &R,
    alloc: Global,
    client: &mut Client<'_, R>,
    times: &Times,
) -> bool {
    for _commit in 0..300 {
        if refused(client, times, 0) == Some(Fault::TooOld) {
            return true;
        }
        let _ = commit(alloc, client, &COMMITS[1]);
        thread::sleep(rt, Duration::from_millis(100));
    }
    false
}

impl<R: Wait + time::Clock> OneClient<R> for [Row; 9] {
    // Whether all rows go so.
    fn work(
        &self,
        rt: &R,
        alloc: Global,
        client: &mut Client<'_, R>,
        wrong: &mut WrongRows,
    ) -> Option<()> {
        let times = Times {
            at: [
                commit(alloc, client, &COMMITS[0])?,
                commit(alloc, client, &COMMITS[1])?,
                commit(alloc, client, &COMMITS[2])?,
                commit(alloc, client, &COMMITS[3])?,
            ],
        };
        for row in self {
            wrong.unless(lists(client, row, &times) == Ok(true), row.name);
        }
        let early = refused(client, &times, 60_000_000) == Some(Fault::NotYet);
        wrong.unless(early, "a time that has not come");
        let old = is_forgotten(rt, alloc, client, &times);
        wrong.unless(old, "a time that is forgotten");
        Some(())
    }
}

/// Shows that a view tells each version of a key in a range of time, once and in order, and none after the view's time.
#[test]
fn views_tell_versions(rt: HostRuntime) {
    let alloc = rt.alloc();
    let mut wrong = WrongRows::none(alloc);
    let mut options = of_two_shards(&rt, alloc, 100_000);
    options.keep = Some(KEEP);
    let disks = disks_of(&rt, alloc, 2);
    drop(serve_one(
        &rt,
        alloc,
        disks,
        options,
        "four commits",
        &ROWS,
        &mut wrong,
    ));
    end(&rt, wrong);
}
