//! Pages of the keys that have a value.
ghost use Rattle.std.specs.Prelude.{◌≡◌, OnOk, IfOk, is_some};
ghost use Rattle.std.specs.Option.{option_copied};
ghost use Rattle.board.specs.Pages.{IsPage, GoesOn, value_by, cut_off as before_end, is_before as is_before_end};

use crate::home::Home;
use std::alloc::{AllocError, Global};
use units::{Key, Stamp};
use versions::Versions;

/// Keys that have a value, ascending, and where the next page begins.
pub struct KeyPage {
    /// The keys.
    pub keys: Vec<Key>,
    /// The first key of the next page: `None` if there are no more keys.
    pub next: Option<Key>,
}

impl Drop for KeyPage {
    fn drop(self) {
        let KeyPage { keys: _, next: _ } = self;
    }
}

fn is_before(key: &Key, to: Option<&Key>) -> bool
    ensures { result ≡ is_before_end key.now (option_copied to.entry) }
{
    match to {
        Some(end) => key < end,
        None => true,
    }
}

// The key, if it is before the end.
fn cut_off(key: Option<Key>, to: Option<&Key>) -> Option<Key>
    ensures { result ≡ before_end key (option_copied to.entry) }
{
    let key = key?;
    if is_before(&key, to) { Some(key) } else { None }
}

// Tells whether a key belongs here and has a value.
fn has_value(versions: &Versions, home: &Home, key: &Key, at: Stamp) -> bool
    ensures { result ≡ is_some (value_by home.now versions.now.installs at key.now) }
{
    home.has(key) && versions.at(key, at).is_some()
}

// Lists the next key if it has a value, and goes on to the key after it.
fn visit(
    versions: &Versions,
    home: &Home,
    to: Option<&Key>,
    at: Stamp,
    page: &mut KeyPage,
) -> Result<(), AllocError>
    ensures { OnOk result (GoesOn (value_by home.now versions.now.installs at)
        (option_copied to.entry) page.old.keys.items page.old.next page.new.keys.items page.new.next) }
{
    let Some(key) = page.next else {
        return Ok(());
    };
    if has_value(versions, home, &key, at) {
        page.keys.push(key)?;
    }
    page.next = cut_off(versions.next_key(&key), to);
    Ok(())
}

// The first page of a range, of keys that these versions give a value at a timestamp. It visits so many keys at most, and at least one.
pub(crate) fn first_page(
    alloc: Global,
    versions: &Versions,
    home: &Home,
    from: &Key,
    to: Option<&Key>,
    at: Stamp,
    limit: usize,
) -> Result<KeyPage, AllocError>
    ensures { IfOk result (λ page. IsPage (value_by home.now versions.now.installs at)
        from.now (option_copied to.entry) page.keys.items page.next) }
{
    let mut page = KeyPage {
        keys: Vec::new(alloc),
        next: cut_off(Some(*from), to),
    };
    visit(versions, home, to, at, &mut page)?;
    for _visit in 1..limit {
        if page.next.is_none() {
            break;
        }
        visit(versions, home, to, at, &mut page)?;
    }
    Ok(page)
}
