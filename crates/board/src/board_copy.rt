//! One of the two copies of a board.
ghost use Rattle.std.specs.Prelude.{◌≡◌, true, false, Some, [], ◌∷◌, ◌++◌, length, IsTrue, MatchResult, IfOk, IfErr, IsOk, OnOk, ◌⊎◌};
ghost use mathlib.Core.List.{IsPrefix};
ghost use Rattle.board.specs.Board.{safe_on, has_safe, is_board, shown_at, MatchesEntries};
ghost use Rattle.std.specs.Option.{option_copied};
ghost use Rattle.board.specs.Look.{look_answer, look_buffer};
ghost use Rattle.board.specs.Histories.{IsHistory};
ghost use Rattle.board.specs.Pages.{IsPage, IsServed, IsUnlisted, value_at_home};
ghost use Rattle.board.specs.State.{AddsVersion, Forgets, Takes};

use crate::change::BoardChange;
use crate::entry::BoardEntry;
use crate::history::{History, first_part};
use crate::home::Home;
use crate::pages::{KeyPage, first_page};
use growing::{Beginning, Growing};
use left_right::Absorb;
use std::alloc::{AllocError, Global};
use std::marker::Model;
use units::{Fault, Install, Key, Seen, Stamp, may_look, show};
use versions::{Versions, copy_install, forgotten_is_not_missed};

/// What readers see. The list of entries itself exists in proofs alone.
#[derive(Drop)]
pub struct BoardCopy {
    list: Growing<BoardEntry>,
    // The list with the entries that are prepared.
    ahead: Growing<BoardEntry>,
    second: bool,
    // The versions of that list, perhaps without some that the horizon of what is shown lets go. Those that are only prepared are above
    // each timestamp at which it is looked.
    versions: Versions,
    safe: Stamp,
    prepared_safe: Stamp,
    horizon: Stamp,
    prepared_horizon: Stamp,
    // How many versions were left when it last looked which can go, and whether it did so when it last showed more.
    left: usize,
    looked: bool,
}

impl Model for BoardCopy {
    ghost use Rattle.std.specs.Prelude.{◌≡◌, length};
    ghost use mathlib.Core.List.{IsPrefix};
    ghost use Rattle.versions.specs.Places.{SameFrom};
    ghost use Rattle.board.specs.Board.{versions_on, safe_on, horizon_on};
    ghost use Rattle.board.specs.State.{Page};

    ghost Value = { Page };

    ghost view = { λ s. record {
      board = s.list.names;
      second = s.list.second;
      list = s.list.entries;
      ahead = s.ahead.entries;
    } };

    ghost invariant = { λ s. (s.second ≡ s.list.second) × IsPrefix s.list.entries s.ahead.entries
        × SameFrom (horizon_on s.list.entries) s.versions.installs (versions_on s.ahead.entries)
        × (s.safe ≡ safe_on s.list.entries) × (s.prepared_safe ≡ safe_on s.ahead.entries)
        × (s.horizon ≡ horizon_on s.list.entries)
        × (s.prepared_horizon ≡ horizon_on s.ahead.entries) };
}

impl Absorb<BoardChange> for BoardCopy {
    ghost use Rattle.board.specs.State.{board_state, after_board_change};

    // A clause reads an array as a list, of any length.
    type State = ([BoardEntry; 0], [BoardEntry; 0], (u64, u64));

    ghost state = { board_state };

    ghost applied = { after_board_change };

    fn absorb_first(&mut self, change: &BoardChange, other: &BoardCopy) -> Result<(), AllocError> {
        match change {
            BoardChange::Prepare(entry) => match self.prepare(entry) {
                Ok(()) => Ok(()),
                Err(_) => Err(AllocError),
            },
            BoardChange::Commit => {
                self.commit(other.looked);
                Ok(())
            }
        }
    }
}

impl BoardCopy {
    /// Makes a copy with these versions, which shows all that is noted ahead. `second` says which of the two copies it is.
    pub(crate) fn open(
        list: Growing<BoardEntry>,
        ahead: Growing<BoardEntry>,
        second: bool,
        versions: Versions,
        safe: Stamp,
        horizon: Stamp,
    ) -> BoardCopy
        requires begun { (list.entries ≡ []) × (list.second ≡ second) }
        requires first { MatchesEntries versions.installs safe horizon ahead.entries }
        ensures { result ≡ record {
          board = list.names;
          second = second;
          list = ahead.entries;
          ahead = ahead.entries;
        } }
    {
        let mut list = list;
        list.follow(&ahead);
        BoardCopy {
            list,
            ahead,
            second,
            versions,
            safe,
            prepared_safe: safe,
            horizon,
            prepared_horizon: horizon,
            left: 0,
            looked: false,
        }
    }

    /// Prepares a copy of the entry. `Memory` if there is none for it, or if a version is not above its key's others; then it is not taken.
    pub(crate) fn prepare(&mut self, entry: &BoardEntry) -> Result<(), Fault>
        ensures { Takes self.old
            (record self.old { ahead = self.old.ahead ++ entry.now ∷ [] }) result self.new }
    {
        match entry {
            BoardEntry::Installed(install) => {
                add_version(&mut self.versions, install, self.horizon)?;
                self.ahead.add(entry);
            }
            BoardEntry::Safe(at) => {
                self.prepared_safe = *at;
                self.ahead.add(entry);
            }
            BoardEntry::Horizon(at) => {
                self.prepared_horizon = self.prepared_horizon.later(*at);
                self.ahead.add(entry);
            }
        }
        Ok(())
    }

    /// Shows what is prepared. If its horizon rose, it lets go the versions that are no longer needed, but not before there are half as many more
    /// as were left the last time. It does not if it `waits`: the other copy has just looked at all of its own, and both at once would keep a
    /// shard from its letters for twice as long. It takes no memory.
    pub(crate) fn commit(&mut self, waits: bool)
        ensures { self.new ≡ record self.old { list = self.old.ahead } }
    {
        self.looked = forget(
            &mut self.versions,
            &mut self.left,
            self.horizon,
            self.prepared_horizon,
            waits,
        );
        self.safe = self.prepared_safe;
        self.horizon = self.prepared_horizon;
        self.list.follow(&self.ahead);
    }

    /// Tells which of the two copies of a board this is.
    pub(crate) fn is_second(&self) -> bool
        ensures { result ≡ self.now.second }
    {
        self.second
    }

    /// Gives the last safe timestamp.
    pub(crate) fn safe(&self) -> Stamp
        ensures { result ≡ safe_on self.now.list }
    {
        self.safe
    }

    /// Gives the list so far.
    pub(crate) fn so_far(&self) -> Beginning<BoardEntry>
        ensures { (result.entries ≡ self.now.list) × (result.names ≡ self.now.board)
            × (result.second ≡ self.now.second) }
    {
        self.list.so_far()
    }

    /// Shows that the list begins with a list that both copies of the board have had.
    pub(crate) fn begins_with(&self, first: &Beginning<BoardEntry>, second: &Beginning<BoardEntry>)
        requires sides { (first.now.second ≡ false) × (second.now.second ≡ true) }
        requires same { (second.now.names ≡ first.now.names)
            × (second.now.entries ≡ first.now.entries) }
        requires board { first.now.names ≡ self.now.board }
        ensures { IsPrefix first.now.entries self.now.list }
    {
        if self.second {
            self.list.begins_with(second);
        } else {
            self.list.begins_with(first);
        }
    }

    /// Puts the value of a key at a timestamp at the front of the buffer.
    pub(crate) fn look(
        &self,
        home: &Home,
        key: &Key,
        at: Stamp,
        buffer: &mut [u8],
    ) -> Result<Seen, Fault>
        requires lawful { is_board self.now.ahead ≡ true }
        requires safe { has_safe self.now.list ≡ true }
        ensures answer { result ≡ look_answer home.now self.now.list key.now at
            (length buffer.old) }
        ensures buffer { buffer.new ≡ look_buffer home.now self.now.list key.now at buffer.old }
    {
        may_look(home.has(key), self.horizon, self.safe, at)?;
        show(self.versions.at(key, at), buffer)
    }

    /// Gives the first page of a range of keys that have a value at a timestamp. It is refused as a look for the first key of the range is, or
    /// for want of memory.
    pub(crate) fn keys(
        &self,
        alloc: Global,
        home: &Home,
        from: &Key,
        to: Option<&Key>,
        at: Stamp,
        limit: usize,
    ) -> Result<KeyPage, Fault>
        requires lawful { is_board self.now.ahead ≡ true }
        requires safe { has_safe self.now.list ≡ true }
        ensures page { IfOk result (λ page. IsPage (value_at_home home.now self.now.list at)
            from.now (option_copied to.entry) page.keys.items page.next) }
        ensures served { IsOk result → IsServed home.now self.now.list from.now at }
        ensures refused { IfErr result (IsUnlisted home.now self.now.list from.now at) }
    {
        may_look(home.has(from), self.horizon, self.safe, at)?;
        Ok(first_page(alloc, &self.versions, home, from, to, at, limit)?)
    }

    /// Tells what a key has from a first time to a last. It is refused as a look for the key is at one of the two, or for want of memory.
    pub(crate) fn history(
        &self,
        alloc: Global,
        home: &Home,
        key: &Key,
        from: Stamp,
        to: Stamp,
        limit: usize,
    ) -> Result<History, Fault>
        requires lawful { is_board self.now.ahead ≡ true }
        requires safe { has_safe self.now.list ≡ true }
        ensures history { IfOk result (λ history. IsHistory (shown_at self.now.list key.now)
            key.now from to history.versions.items history.next) }
        ensures served { IsOk result → IsServed home.now self.now.list key.now from
            × IsServed home.now self.now.list key.now to }
        ensures refused { IfErr result (λ fault. IsUnlisted home.now self.now.list key.now from fault
            ⊎ IsUnlisted home.now self.now.list key.now to fault) }
    {
        may_look(home.has(key), self.horizon, self.safe, from)?;
        may_look(home.has(key), self.horizon, self.safe, to)?;
        let history = first_part(alloc, &self.versions, key, from, to, limit)?;
        Ok(history)
    }
}

// Adds a copy of a version, which is above its key's others. One that the horizon passed may go for it.
fn add_version(versions: &mut Versions, install: &Install, horizon: Stamp) -> Result<(), Fault>
    ensures added { OnOk result
        (AddsVersion horizon versions.old.installs versions.new.installs install.now) }
    ensures refused { IfErr result
        (λ fault. (fault ≡ Fault.Memory) × (versions.new.installs ≡ versions.old.installs)) }
{
    forgotten_is_not_missed();
    let Ok(()) = versions.reserve(1) else {
        return Err(Fault::Memory);
    };
    if !versions.takes(&install.key, install.at) {
        return Err(Fault::Memory);
    }
    let Ok(copy) = copy_install(install) else {
        return Err(Fault::Memory);
    };
    let Install { key, at, value } = copy;
    versions.install_from(key, at, value, horizon);
    Ok(())
}

// Forgets the versions below a horizon, if it is above the one before, that is due and it does not wait. No want of memory refuses it. Returns
// whether it was due.
fn forget(
    versions: &mut Versions,
    left: &mut usize,
    before: Stamp,
    horizon: Stamp,
    waits: bool,
) -> bool
    ensures { Forgets versions.old.installs versions.new.installs before horizon }
{
    forgotten_is_not_missed();
    if before < horizon && !waits {
        versions.forget_if_due(horizon, left)
    } else {
        false
    }
}
