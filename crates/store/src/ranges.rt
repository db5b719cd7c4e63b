//! Pages of keys over all shards.
ghost use Rattle.std.specs.Prelude.{◌≡◌, ◌<◌, ◌&&◌, IfErr, IfOk};
ghost use Rattle.std.specs.Option.{option_copied};
ghost use Rattle.units.specs.Keys.{key_before};
ghost use Rattle.board.specs.Pages.{is_before as is_before_end};
ghost use Rattle.store.specs.Ranges.{IsListedBy, IsListing, IsShardEnd, IsUnlistedBy};

use crate::shared::Shared;
use crate::view::PAUSE;
use board::{KeyPage, Viewer};
use std::sync::Wait;
use std::time;
use std::time::Duration;
use units::{Fault, Key, ShardNo, Stamp};

fn is_before(key: &Key, to: Option<&Key>) -> bool
    ensures { result ≡ is_before_end key.now (option_copied to.entry) }
{
    match to {
        Some(end) => key < end,
        None => true,
    }
}

// Tells whether a split comes after a key and before both ends.
fn is_nearer(split: &Key, from: &Key, to: Option<&Key>, nearest: Option<&Key>) -> bool
    ensures { result ≡ (key_before from.now split.now
        && is_before_end split.now (option_copied to.entry)
        && is_before_end split.now (option_copied nearest.entry)) }
{
    is_before(from, Some(split)) & is_before(split, to) & is_before(split, nearest)
}

// The split that comes next after a key, if it is before the end of a range.
pub(crate) fn split_after<'a>(splits: &'a [Key], from: &Key, to: Option<&Key>) -> Option<&'a Key>
    ensures { IsShardEnd splits.now from.now (option_copied to.entry) (option_copied result) }
{
    let Some((split, rest)) = splits.split_first() else {
        return None;
    };
    let nearest = split_after(rest, from, to);
    if is_nearer(split, from, to, nearest) {
        Some(split)
    } else {
        nearest
    }
}

// What a viewer lists of a range of keys at a timestamp, once its shard serves that: as long as a `get` of the first key looks for that.
pub(crate) fn listed<R: Wait + time::Clock>(
    rt: &R,
    shared: &Shared,
    viewer: &mut Viewer,
    shard: ShardNo,
    from: &Key,
    to: Option<&Key>,
    at: Stamp,
    limit: usize,
    tries: u32,
) -> Result<KeyPage, Fault>
    requires { 0 < tries }
    ensures listed { IfOk result (λ page. IsListing viewer.old viewer.new from.now
        (option_copied to.entry) at page.keys.items page.next) }
    ensures refused { IfErr result (IsUnlistedBy viewer.old viewer.new from.now at) }
{
    let longest = Duration::from_millis(if tries > 1 { PAUSE } else { 0 });
    for _try in 0..tries {
        let has_stopped = shared.network.has_stopped(shard);
        match viewer.keys(shared.alloc, from, to, at, limit) {
            Ok(page) => return Ok(page),
            Err(Fault::NotYet) => {
                if has_stopped {
                    return Err(Fault::Stopped);
                }
                shared.network.await_served(rt, shard, at, longest);
            }
            Err(fault) => return Err(fault),
        }
    }
    Err(Fault::NotYet)
}

// The first page of a range over all shards: of the keys of one shard, with the split as the next key if that shard has no more.
pub(crate) fn page_of<R: Wait + time::Clock>(
    rt: &R,
    shared: &Shared,
    viewer: &mut Viewer,
    from: &Key,
    to: Option<&Key>,
    at: Stamp,
    limit: usize,
    tries: u32,
) -> Result<KeyPage, Fault>
    requires { 0 < tries }
    ensures listed { IfOk result (λ page. IsListedBy shared.now.splits viewer.old viewer.new from.now
        (option_copied to.entry) at page.keys.items page.next) }
    ensures refused { IfErr result (IsUnlistedBy viewer.old viewer.new from.now at) }
{
    let shard = shared.splits.shard_of(from);
    let split = split_after(shared.splits.as_slice(), from, to);
    let end = split.or(to);
    let mut page = listed(rt, shared, viewer, shard, from, end, at, limit, tries)?;
    page.next = page.next.or(split.copied());
    Ok(page)
}
