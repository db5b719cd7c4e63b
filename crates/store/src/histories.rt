//! What a key has had up to a view's time.
ghost use Rattle.std.specs.Prelude.{◌≡◌, ◌<◌, filter, nat_le, IfErr, IfOk};
ghost use Rattle.store.specs.Histories.{IsToldBy, IsUntoldBy, earlier};

use crate::shared::Shared;
use crate::view::PAUSE;
use board::{History, Viewer};
use std::sync::Wait;
use std::time;
use std::time::Duration;
use units::{Fault, Install, Key, ShardNo, Stamp};

// The earlier of two times.
fn earlier(a: Stamp, b: Stamp) -> Stamp
    ensures { result ≡ earlier a b }
{
    if a <= b { a } else { b }
}

// Keeps the versions that are not after a time. A board tells no later ones, but its contract does not say so.
fn cut_off(versions: &mut Vec<Install>, to: Stamp)
    ensures { versions.new.items ≡ filter (λ version. nat_le version.at to) versions.old.items }
{
    versions.retain(|version| version.at <= to);
}

// What a viewer tells of a key from a first time to a last, once its shard serves both: as long as a `get` at the last looks for that.
fn told<R: Wait + time::Clock>(
    rt: &R,
    shared: &Shared,
    viewer: &mut Viewer,
    shard: ShardNo,
    key: &Key,
    from: Stamp,
    to: Stamp,
    limit: usize,
    tries: u32,
) -> Result<History, Fault>
    requires { 0 < tries }
    ensures told { IfOk result (λ history. IsToldBy viewer.old viewer.new key.now from to
        history.versions.items history.next) }
    ensures refused { IfErr result (IsUntoldBy viewer.old viewer.new key.now from to) }
{
    let longest = Duration::from_millis(if tries > 1 { PAUSE } else { 0 });
    for _try in 0..tries {
        let has_stopped = shared.network.has_stopped(shard);
        match viewer.history(shared.alloc, key, from, to, limit) {
            Ok(mut history) => {
                cut_off(&mut history.versions, to);
                return Ok(history);
            }
            Err(Fault::NotYet) => {
                if has_stopped {
                    return Err(Fault::Stopped);
                }
                shared.network.await_served(rt, shard, to, longest);
            }
            Err(fault) => return Err(fault),
        }
    }
    Err(Fault::NotYet)
}

// The same up to a view's time, if the last time is not before that.
pub(crate) fn told_up_to<R: Wait + time::Clock>(
    rt: &R,
    shared: &Shared,
    viewer: &mut Viewer,
    shard: ShardNo,
    key: &Key,
    from: Stamp,
    to: Stamp,
    at: Stamp,
    limit: usize,
    tries: u32,
) -> Result<History, Fault>
    requires { 0 < tries }
    ensures told { IfOk result (λ history. IsToldBy viewer.old viewer.new key.now from
        (earlier to at) history.versions.items history.next) }
    ensures refused { IfErr result (IsUntoldBy viewer.old viewer.new key.now from
        (earlier to at)) }
{
    let last = earlier(to, at);
    told(rt, shared, viewer, shard, key, from, last, limit, tries)
}
