//! A reader of a board, which never waits.
ghost use Rattle.std.specs.Prelude.{◌≡◌, ◌≢◌, ◌≤◌, [], ◌∷◌, Err};
ghost use mathlib.Core.List.{IsPrefix};
ghost use Rattle.board.specs.Board.{safe_on};
ghost use Rattle.std.specs.Option.{option_copied};
ghost use Rattle.board.specs.Histories.{ToldBy};
ghost use Rattle.board.specs.Pages.{ListedBy};
ghost use Rattle.growing.specs.Owns.{longer_of};
ghost use Rattle.board.specs.Views.{LookedBy, new_viewer};
ghost use Rattle.std.specs.Arc.{arc_value};
ghost use Rattle.left_right.specs.Sides.{view};

use crate::board_copy::BoardCopy;
use crate::entry::BoardEntry;
use crate::history::History;
use crate::home::Home;
use crate::pages::KeyPage;
use crate::rule::{OneList, SeenStates, SeesList};
use crate::told::Told;
use growing::Beginning;
use left_right::reader::Reader;
use std::alloc::Global;
use std::marker::Model;
use std::sync::Arc;
use units::{Fault, Key, Seen, Stamp};

/// What a thread reads a board with. It never waits.
pub struct Viewer {
    reader: Option<Reader<BoardCopy, SeenStates, OneList>>,
    home: Arc<Home, Global>,
    // The longest list that was told, as the two copies have had it.
    first: Beginning<BoardEntry>,
    second: Beginning<BoardEntry>,
}

impl Drop for Viewer {
    fn drop(self) {
        let Viewer {
            reader: _,
            home: _,
            first: _,
            second: _,
        } = self;
    }
}

impl Model for Viewer {
    ghost use Rattle.std.specs.Prelude.{◌≡◌, true, false, [], unwrap_or, option_map, IsSome};
    ghost use Rattle.std.specs.Arc.{arc_value};
    ghost use Rattle.left_right.specs.Sides.{view as knowledge};
    ghost use Rattle.board.specs.Views as views;

    ghost Value = { views.Viewing };

    ghost view = { λ v. record {
      board = v.first.names;
      told = v.first.entries;
      home = arc_value v.home;
      seen = views.newest_of (unwrap_or (option_map (λ r. knowledge r.place) v.reader) []);
    } };

    ghost invariant = { λ v. IsSome v.reader
        × views.IsOneState (unwrap_or (option_map (λ r. knowledge r.place) v.reader) [])
        v.first.names
        × (v.first.second ≡ false) × (v.second.second ≡ true)
        × (v.second.names ≡ v.first.names) × (v.second.entries ≡ v.first.entries) };
}

impl Viewer {
    /// Makes a viewer that knows of the list that was told.
    pub(crate) fn over(
        reader: Reader<BoardCopy, SeenStates, OneList>,
        home: Arc<Home, Global>,
        told: &Told,
    ) -> Viewer
        requires { view reader.place ≡ (told.now.list, told.now.list, told.now.board) ∷ [] }
        ensures { result ≡ new_viewer told.now.board told.now.list (arc_value home) }
    {
        Viewer {
            reader: Some(reader),
            home,
            first: told.first.again(),
            second: told.second.again(),
        }
    }

    /// Makes each later look see a list that begins with what was told.
    pub fn learn(&mut self, told: &Told)
        requires { told.now.board ≡ self.old.board }
        ensures new { self.new ≡ record self.old { told = longer_of self.old.told told.now.list } }
        ensures begins { IsPrefix self.old.told self.new.told
            × IsPrefix told.now.list self.new.told }
    {
        self.first = self.first.longer(&told.first);
        self.second = self.second.longer(&told.second);
    }

    /// Looks at a key at a timestamp, by the board's list at one step, and puts its value at the front of the buffer. The refusals, the first
    /// that holds counts:
    ///
    /// - `Stopped`: the publisher has ended. Get a viewer of the new board.
    /// - `Stranger`: the key is another shard's.
    /// - `TooOld`: the timestamp is below the horizon. That is for good, so take a later one.
    /// - `NotYet`: it is above the safe timestamp. Look again later.
    /// - `Room`: the value is longer than the buffer, which stays as it is.
    pub fn look(&mut self, key: &Key, at: Stamp, buffer: &mut [u8]) -> Result<Seen, Fault>
        ensures same { (self.new.board ≡ self.old.board) × (self.new.home ≡ self.old.home)
            × (self.new.told ≡ self.old.told) }
        ensures answer { result ≢ Err Fault.Stopped
            → LookedBy self.old key.now at buffer.old result self.new buffer.new }
        ensures stopped { result ≡ Err Fault.Stopped → (self.new ≡ self.old)
            × (buffer.new ≡ buffer.old) }
        ensures told { at ≤ safe_on self.old.told → result ≢ Err Fault.NotYet }
    {
        let reader = self.reader.take().unwrap();
        match reader.enter_as::<SeesList>() {
            Ok(reading) => {
                let shown = reading.get();
                shown.begins_with(&self.first, &self.second);
                let seen = shown.look(&self.home, key, at, buffer);
                self.reader = Some(reading.leave());
                seen
            }
            Err(reader) => {
                self.reader = Some(reader);
                Err(Fault::Stopped)
            }
        }
    }

    /// Gives the keys that have a value at a timestamp, by the board's list at one step: those of this shard that are not before `from` and are
    /// before `to`, ascending. It visits `limit` keys at most, and at least one; keys that are erased count too. Where the page ends before
    /// the range, `next` is the first key of the next page.
    ///
    /// It is refused as a look for `from` is, or as `Memory`.
    pub fn keys(
        &mut self,
        alloc: Global,
        from: &Key,
        to: Option<&Key>,
        at: Stamp,
        limit: usize,
    ) -> Result<KeyPage, Fault>
        ensures same { (self.new.board ≡ self.old.board) × (self.new.home ≡ self.old.home)
            × (self.new.told ≡ self.old.told) }
        ensures answer { result ≢ Err Fault.Stopped
            → ListedBy self.old from.now (option_copied to.entry) at result self.new }
        ensures stopped { result ≡ Err Fault.Stopped → self.new ≡ self.old }
        ensures told { at ≤ safe_on self.old.told → result ≢ Err Fault.NotYet }
    {
        let reader = self.reader.take().unwrap();
        match reader.enter_as::<SeesList>() {
            Ok(reading) => {
                let shown = reading.get();
                shown.begins_with(&self.first, &self.second);
                let page = shown.keys(alloc, &self.home, from, to, at, limit);
                self.reader = Some(reading.leave());
                page
            }
            Err(reader) => {
                self.reader = Some(reader);
                Err(Fault::Stopped)
            }
        }
    }

    /// Tells what a key has from a first time to a last, by the board's list at one step: its value at the first time, and each later version.
    /// So many at most, and at least one. If there are more, `next` is the time of the next version.
    ///
    /// It is refused as a look for the key is at the first time or at the last, or as `Memory`.
    pub fn history(
        &mut self,
        alloc: Global,
        key: &Key,
        from: Stamp,
        to: Stamp,
        limit: usize,
    ) -> Result<History, Fault>
        ensures same { (self.new.board ≡ self.old.board) × (self.new.home ≡ self.old.home)
            × (self.new.told ≡ self.old.told) }
        ensures answer { result ≢ Err Fault.Stopped
            → ToldBy self.old key.now from to result self.new }
        ensures stopped { result ≡ Err Fault.Stopped → self.new ≡ self.old }
        ensures told { (from ≤ safe_on self.old.told) × (to ≤ safe_on self.old.told)
            → result ≢ Err Fault.NotYet }
    {
        let reader = self.reader.take().unwrap();
        match reader.enter_as::<SeesList>() {
            Ok(reading) => {
                let shown = reading.get();
                shown.begins_with(&self.first, &self.second);
                let history = shown.history(alloc, &self.home, key, from, to, limit);
                self.reader = Some(reading.leave());
                history
            }
            Err(reader) => {
                self.reader = Some(reader);
                Err(Fault::Stopped)
            }
        }
    }
}
