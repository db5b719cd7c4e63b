//! Pages of keys at a time: over both shards, without erased keys and later ones, in ranges.
use crate::clients::{commit, disks_of, of_two_shards};
use crate::served::{OneClient, serve_one};
use crate::verdict::end;
use made::WrongRows;
use std::alloc::Global;
use std::sync::Wait;
use std::time;
use std::time::Duration;
use store::{Client, Fault, Key, Stamp};

// The keys of a range at the time of the first commit or of the second, by pages. No end is an empty key. Each letter is a key.
struct Row {
    name: &'static str,
    second: bool,
    from: &'static [u8],
    to: &'static [u8],
    limit: usize,
    keys: &'static [u8],
}

// The first commit writes a, b, m and z. The second erases b, and writes n. Shards part at m.
const FIRST: [(&[u8], Option<&[u8]>); 4] = [
    (b"a", Some(b"1")),
    (b"b", Some(b"")),
    (b"m", Some(b"3")),
    (b"z", Some(b"4")),
];

const SECOND: [(&[u8], Option<&[u8]>); 2] = [(b"b", None), (b"n", Some(b"5"))];

static ROWS: [Row; 9] = [
    Row {
        name: "all, one by one",
        second: false,
        from: b"\0",
        to: b"",
        limit: 1,
        keys: b"abmz",
    },
    Row {
        name: "all, two by two",
        second: false,
        from: b"\0",
        to: b"",
        limit: 2,
        keys: b"abmz",
    },
    Row {
        name: "all, without a limit",
        second: false,
        from: b"\0",
        to: b"",
        limit: usize::MAX,
        keys: b"abmz",
    },
    Row {
        name: "after an erasure and one key more",
        second: true,
        from: b"\0",
        to: b"",
        limit: 2,
        keys: b"amnz",
    },
    Row {
        name: "from a key to before another",
        second: false,
        from: b"b",
        to: b"z",
        limit: 100,
        keys: b"bm",
    },
    Row {
        name: "the same later",
        second: true,
        from: b"b",
        to: b"z",
        limit: 100,
        keys: b"mn",
    },
    Row {
        name: "from the first key of a shard",
        second: true,
        from: b"m",
        to: b"",
        limit: 1,
        keys: b"mnz",
    },
    Row {
        name: "to before the first key of a shard",
        second: true,
        from: b"a",
        to: b"m",
        limit: 1,
        keys: b"a",
    },
    Row {
        name: "a range that ends before it begins",
        second: true,
        from: b"z",
        to: b"a",
        limit: 1,
        keys: b"",
    },
];

// Whether a view at a time, which waits so many seconds for that to be served, lists the keys of a row, in pages that are no longer than it says.
fn lists<R: Wait + time::Clock>(
    client: &mut Client<'_, R>,
    at: Stamp,
    seconds: u64,
    row: &Row,
) -> Result<bool, Fault> {
    let mut view = client.view_at(at);
    view.wait_at_most(Duration::from_secs(seconds));
    let to = Key::new(row.to).ok();
    let mut next = Key::new(row.from).ok();
    let mut found = 0_usize;
    let mut right = true;
    for _page in 0..20 {
        let Some(from) = next else {
            break;
        };
        let page = view.keys(&from, to.as_ref(), row.limit)?;
        right = right && page.keys.len() <= row.limit;
        for key in &page.keys {
            right = right && row.keys.get(found) == key.as_bytes().first();
            found = found.saturating_add(1);
        }
        next = page.next;
        drop(page);
    }
    Ok(right && next.is_none() && found == row.keys.len())
}

impl<R: Wait + time::Clock> OneClient<R> for [Row; 9] {
    // Whether all rows go so.
    fn work(
        &self,
        _rt: &R,
        alloc: Global,
        client: &mut Client<'_, R>,
        wrong: &mut WrongRows,
    ) -> Option<()> {
        let first = commit(alloc, client, &FIRST)?;
        let second = commit(alloc, client, &SECOND)?;
        for row in self {
            let at = if row.second { second } else { first };
            wrong.unless(lists(client, at, 2, row) == Ok(true), row.name);
        }
        let later = Stamp::new(second.micros().saturating_add(60_000_000)).ok()?;
        let early = lists(client, later, 0, &self[0]) == Err(Fault::NotYet);
        wrong.unless(early, "a time that has not come");
        Some(())
    }
}

/// Shows that pages of keys have each key with a value at their time, once and in order, over all shards.
#[test]
fn views_list_keys(rt: HostRuntime) {
    let alloc = rt.alloc();
    let mut wrong = WrongRows::none(alloc);
    let (disks, options) = (disks_of(&rt, alloc, 2), of_two_shards(&rt, alloc, 100_000));
    drop(serve_one(&rt, alloc, disks, options, "two commits", &ROWS, &mut wrong));
    end(&rt, wrong);
}
