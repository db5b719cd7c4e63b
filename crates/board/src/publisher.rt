//! What publishes the list of a board.
ghost use Rattle.std.specs.Prelude.{◌≡◌};
ghost use Rattle.board.specs.State.{Takes};
ghost use Rattle.board.specs.Views.{MayAccept, accepting, PublishesAll};

use crate::entry::BoardEntry;
use crate::press::Press;
use crate::told::Told;
use std::marker::Model;
use std::sync::Wait;
use units::{Fault, Install, Stamp};

/// What publishes the list of a board. It keeps the handle, since its drop waits for viewers that look. From then on looks are refused as
/// `Stopped`.
pub struct Publisher<R: Wait + Drop> {
    press: Option<Press>,
    rt: R,
}

impl<R: Wait + Drop> Drop for Publisher<R> {
    fn drop(self) {
        let Self { press, rt } = self;
        if let Some(press) = press {
            press.close(&rt);
        }
    }
}

impl<R: Wait + Drop> Model for Publisher<R> {
    ghost use Rattle.std.specs.Prelude.{[], unwrap_or, IsSome};
    ghost use Rattle.board.specs.Views.{Publishing};

    ghost Value = { Publishing };

    ghost view = { λ p. unwrap_or p.press (record { board = (0, 0); published = []; pending = [] }) };

    ghost invariant = { λ p. IsSome p.press };
}

impl<R: Wait + Drop> Publisher<R> {
    /// Publishes by a writer between two calls.
    pub(crate) fn over(rt: R, press: Press) -> Publisher<R>
        ensures { result ≡ press }
    {
        Publisher {
            press: Some(press),
            rt,
        }
    }

    /// Accepts an entry, which viewers see once it is published. `Memory` if there is none for it.
    fn add(&mut self, entry: BoardEntry) -> Result<(), Fault>
        requires { MayAccept self.old entry }
        ensures { Takes self.old (accepting self.old entry) result self.new }
    {
        match &mut self.press {
            Some(press) => press.add(entry),
            None => Err(Fault::Memory),
        }
    }

    /// Accepts a version, which viewers see once it is published.
    pub fn install(&mut self, install: Install) -> Result<(), Fault>
        requires { MayAccept self.old (BoardEntry.Installed install) }
        ensures { Takes self.old
            (accepting self.old (BoardEntry.Installed install)) result self.new }
    {
        self.add(BoardEntry::Installed(install))
    }

    /// Accepts a timestamp up to which looks are answered once it is published.
    pub fn safe(&mut self, at: Stamp) -> Result<(), Fault>
        requires { MayAccept self.old (BoardEntry.Safe at) }
        ensures { Takes self.old (accepting self.old (BoardEntry.Safe at)) result self.new }
    {
        self.add(BoardEntry::Safe(at))
    }

    /// Accepts a timestamp below which no look is answered any more. Once it is published, the copies forget the versions that no look from
    /// it up needs.
    pub fn horizon(&mut self, at: Stamp) -> Result<(), Fault>
        requires { MayAccept self.old (BoardEntry.Horizon at) }
        ensures { Takes self.old (accepting self.old (BoardEntry.Horizon at)) result self.new }
    {
        self.add(BoardEntry::Horizon(at))
    }

    /// Shows viewers the accepted entries too, all at one step. It waits for viewers that still look at the former list. If memory is
    /// refused, they see what they saw, and the entries are still to come: call it again.
    pub fn publish(&mut self) -> Result<Told, Fault>
        ensures { PublishesAll self.old result self.new }
    {
        let Some(press) = self.press.take() else {
            return Err(Fault::Memory);
        };
        let (press, result) = press.publish(&self.rt);
        if let Some(other) = self.press.replace(press) {
            other.close(&self.rt);
        }
        result
    }
}
