//! The keys and values of a view are written as text.
ghost use Rattle.std.specs.Prelude.{◌≡◌, ◌++◌, IfOk, List, Some, None, [], ◌∷◌, length, map};
ghost use Rattle.std.specs.Io.KnownBytes.{Appends};
ghost use Rattle.board.specs.Views.{Viewing};
ghost use Rattle.output.specs.Streams.{writer_of};
ghost use Rattle.moving.specs.Exports.{ArePages, AreTold, IsPageFrom, Page, head, least, pairs_on, text};

use crate::Form;
use output::{Failure, Stream};
use pairs::Pair;
use std::alloc::Global;
use std::io::Write;
use std::sync::Wait;
use std::time;
use store::View;
use units::{Fault, Key};

// So many keys a page has at most.
const PAGE: usize = 256;

/// Writes each key that has a value in a view, with that value, in the order of the keys. Gives how many they are. A failed write is `Unwritten`; else
/// it is refused as a page or a value of the view is. What was written before that stands.
pub fn export<R: Wait + time::Clock, W: Write>(
    alloc: Global,
    view: &mut View<'_, '_, R>,
    form: Form,
    out: &mut Stream<W>,
) -> Result<u64, Failure>
    ensures at { view.new.at ≡ view.old.at }
    // Pages of the view, one after the other, from the least key to the end: these are written, with the head before them, and counted.
    ensures exported { IfOk result (λ count. (pages : List Page)
        × ArePages view.old.shared.now.splits view.old.at view.old.viewers.now.items (Some least)
        pages None view.new.viewers.now.items
        × Appends (W.contents (writer_of out.old)) (W.contents (writer_of out.new))
        (head form ++ text form (pairs_on pages))
        × (count ≡ length (pairs_on pages))) }
{
    out.print_bytes(&form.head(alloc)?)?;
    let mut exported = 0_u64;
    let mut next = Some(Key::new(b"\x00")?);
    for _page in 0..u64::MAX {
        let Some(from) = next else {
            return Ok(exported);
        };
        let (pairs, after) = page_from(alloc, view, &from)?;
        out.print_bytes(&form.text(alloc, &pairs)?)?;
        let Some(sum) = exported.checked_add(pairs.len() as u64) else {
            break;
        };
        exported = sum;
        next = after;
    }
    Err(Failure::Refused(Fault::TimeSpent))
}

// The page of the view from a key on, and where the next one begins.
fn page_from<R: Wait + time::Clock>(
    alloc: Global,
    view: &mut View<'_, '_, R>,
    from: &Key,
) -> Result<(Vec<Pair>, Option<Key>), Fault>
    ensures at { view.new.at ≡ view.old.at }
    ensures splits { view.new.shared.now.splits ≡ view.old.shared.now.splits }
    ensures page { IfOk result (λ page. IsPageFrom view.old.shared.now.splits view.old.at
        view.old.viewers.now.items from.now
        (record { pairs = page.0.items; next = page.1 }) view.new.viewers.now.items) }
{
    let page = view.keys(from, None, PAGE)?;
    let pairs = pairs_of(alloc, view, &page.keys)?;
    Ok((pairs, page.next))
}

// The pairs of some keys that have values in a view. If one has none it is refused.
fn pairs_of<R: Wait + time::Clock>(
    alloc: Global,
    view: &mut View<'_, '_, R>,
    keys: &[Key],
) -> Result<Vec<Pair>, Fault>
    ensures at { view.new.at ≡ view.old.at }
    ensures splits { view.new.shared.now.splits ≡ view.old.shared.now.splits }
    ensures keys { IfOk result (λ pairs. map (λ pair. pair.key) pairs.items ≡ keys.now) }
    ensures told { IfOk result (λ pairs. AreTold view.old.shared.now.splits view.old.at
        view.old.viewers.now.items pairs.items view.new.viewers.now.items) }
{
    let mut pairs = Vec::new(alloc);
    for key in keys {
        let Some(value) = view.get(key)? else {
            return Err(Fault::NotYet);
        };
        pairs.push(Pair { key: *key, value })?;
    }
    Ok(pairs)
}
