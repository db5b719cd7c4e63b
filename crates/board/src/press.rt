//! The writer of a board, with its two copies.
ghost use Rattle.std.specs.Prelude.{◌≡◌, true, [], ◌∷◌, ◌++◌, drop, IsTrue, OnOk};
ghost use mathlib.Core.List.{IsPrefix};
ghost use Rattle.board.specs.Board.{is_board};
ghost use Rattle.left_right.specs.Sides.{view};
ghost use Rattle.board.specs.State.{board_state, Takes, is_quiet, newly_prepared, pending_of};
ghost use Rattle.board.specs.Views.{MayAccept, accepting, PublishesAll};
ghost use Rattle.board.specs.Publications.{IsPublished, IsFinished};
ghost use Rattle.board.specs.Showing.{MayShow, ShowingGives};

use crate::board_copy::BoardCopy;
use crate::change::BoardChange;
use crate::entry::BoardEntry;
use crate::rule::{OneList, SeenStates, SeesList};
use crate::told::Told;
use left_right::writer::Writer;
use std::alloc::AllocError;
use std::marker::Model;
use std::sync::Wait;
use units::Fault;

/// What writes the two copies of a board.
pub(crate) type BoardWriter = Writer<BoardCopy, BoardChange, SeenStates, OneList>;

/// Brings the spare copy up with all that came, and shows it. If memory is refused, it shows what it showed.
fn step<R: Wait>(rt: &R, writer: BoardWriter) -> (BoardWriter, Result<(), AllocError>)
    requires { MayShow writer.desk.shown.value (drop writer.behind writer.log.items) }
    ensures values { ShowingGives writer.desk.shown.value result.0.desk.shown.value
        (drop writer.behind writer.log.items) (drop result.0.behind result.0.log.items) result.1 }
    ensures view { OnOk result.1 (view result.0.desk.place ≡ board_state
        result.0.desk.shown.value ∷ []) }
{
    writer.publish_as::<SeesList, R>(rt)
}

/// Prepares in the spare copy what it lacks, and shows that copy, by the same list. Returns whether there was memory for all.
fn prepare<R: Wait>(rt: &R, writer: BoardWriter) -> (BoardWriter, bool)
    requires quiet { is_quiet (drop writer.behind writer.log.items) ≡ true }
    requires lawful { is_board
        (writer.desk.shown.value.ahead ++ newly_prepared (drop writer.behind writer.log.items)) ≡
        true }
    ensures list { (result.0.desk.shown.value.list ≡ writer.desk.shown.value.list)
        × (result.0.desk.shown.value.board ≡ writer.desk.shown.value.board) }
    ensures ahead { result.0.desk.shown.value.ahead ++ newly_prepared
        (drop result.0.behind result.0.log.items)
        ≡ writer.desk.shown.value.ahead ++ newly_prepared (drop writer.behind writer.log.items) }
    ensures longer { IsPrefix writer.desk.shown.value.ahead result.0.desk.shown.value.ahead }
    ensures quiet { is_quiet (drop result.0.behind result.0.log.items) ≡ true }
    ensures done { IsTrue result.1 → drop result.0.behind result.0.log.items ≡ [] }
{
    let (writer, prepared) = step(rt, writer);
    (writer, prepared.is_ok())
}

/// Shows viewers what is prepared. There is memory for that already.
fn commit<R: Wait>(rt: &R, writer: BoardWriter) -> BoardWriter
    requires commit { drop writer.behind writer.log.items ≡ BoardChange.Commit ∷ [] }
    requires longer { IsPrefix writer.desk.shown.value.list writer.desk.shown.value.ahead }
    ensures state { board_state result.desk.shown.value ≡ (
      writer.desk.shown.value.ahead,
      writer.desk.shown.value.ahead,
      writer.desk.shown.value.board,
    ) }
    ensures none { drop result.behind result.log.items ≡ [] }
{
    let mut writer = writer;
    for _ in rt.forever() {
        let (next, shown) = step(rt, writer);
        writer = next;
        if shown.is_ok() {
            return writer;
        }
    }
    unreachable!()
}

/// Shows a new board by the other copy, once: nobody looks at it yet. If memory is refused, it shows what it showed.
pub(crate) fn begin<R: Wait>(rt: &R, writer: BoardWriter) -> (BoardWriter, Result<(), AllocError>)
    requires none { drop writer.behind writer.log.items ≡ [] }
    ensures state { board_state result.0.desk.shown.value ≡ board_state writer.desk.shown.value }
    ensures none { drop result.0.behind result.0.log.items ≡ [] }
    ensures view { OnOk result.1
        (view result.0.desk.place ≡ board_state writer.desk.shown.value ∷ []) }
{
    step(rt, writer)
}

/// Shows the list by the other copy too, so that both have it, and gives news of it. It waits for viewers that still look at that copy.
fn settle<R: Wait>(rt: &R, writer: BoardWriter) -> (BoardWriter, Told)
    requires none { drop writer.behind writer.log.items ≡ [] }
    ensures state { board_state result.0.desk.shown.value ≡ board_state writer.desk.shown.value }
    ensures none { drop result.0.behind result.0.log.items ≡ [] }
    ensures told { result.1 ≡
        record { board = writer.desk.shown.value.board; list = writer.desk.shown.value.list } }
    ensures view { view result.0.desk.place ≡ board_state writer.desk.shown.value ∷ [] }
{
    let was_second = writer.published().is_second();
    let one = writer.published().so_far();
    let safe = writer.published().safe();
    let mut writer = writer;
    for _ in rt.forever() {
        let (next, published) = step(rt, writer);
        writer = next;
        if published.is_ok() && writer.published().is_second() != was_second {
            let other = writer.published().so_far();
            return (writer, Told::of(was_second, one, other, safe));
        }
    }
    unreachable!()
}

/// Shows viewers the accepted entries too, by both copies, and gives news of that list. Both copies prepare them first, so that nothing is
/// shown if memory is refused.
fn show<R: Wait>(rt: &R, writer: BoardWriter) -> (BoardWriter, Result<Told, Fault>)
    requires quiet { is_quiet (drop writer.behind writer.log.items) ≡ true }
    requires longer { IsPrefix writer.desk.shown.value.list writer.desk.shown.value.ahead }
    requires lawful { is_board
        (writer.desk.shown.value.list ++ pending_of writer.desk.shown.value
        (drop writer.behind writer.log.items)) ≡ true }
    ensures { IsPublished writer.desk.shown.value
        (drop writer.behind writer.log.items) result.1 result.0.desk.shown.value
        (drop result.0.behind result.0.log.items) }
{
    let (writer, one) = prepare(rt, writer);
    let (writer, other) = prepare(rt, writer);
    if !one || !other {
        return (writer, Err(Fault::Memory));
    }
    finish(rt, writer)
}

// Both copies have prepared all that was accepted.
fn finish<R: Wait>(rt: &R, mut writer: BoardWriter) -> (BoardWriter, Result<Told, Fault>)
    requires none { drop writer.behind writer.log.items ≡ [] }
    requires longer { IsPrefix writer.desk.shown.value.list writer.desk.shown.value.ahead }
    ensures { IsFinished writer.desk.shown.value result.1 result.0.desk.shown.value
        (drop result.0.behind result.0.log.items) }
{
    match writer.append(BoardChange::Commit) {
        Ok(()) => {
            let (writer, told) = settle(rt, commit(rt, writer));
            (writer, Ok(told))
        }
        Err(_) => (writer, Err(Fault::Memory)),
    }
}

/// The writer between two calls.
pub(crate) struct Press {
    writer: Writer<BoardCopy, BoardChange, SeenStates, OneList>,
}

impl Model for Press {
    ghost use Rattle.std.specs.Prelude.{◌≡◌, true, ◌++◌, drop};
    ghost use mathlib.Core.List.{IsPrefix};
    ghost use Rattle.board.specs.Board.{is_board};
    ghost use Rattle.board.specs.State.{is_quiet, pending_of};
    ghost use Rattle.board.specs.Views.{Publishing};

    ghost Value = { Publishing };

    ghost view = { λ p. record {
      board = p.writer.desk.shown.value.board;
      published = p.writer.desk.shown.value.list;
      pending = pending_of p.writer.desk.shown.value (drop p.writer.behind p.writer.log.items);
    } };

    ghost invariant = { λ p. (is_quiet (drop p.writer.behind p.writer.log.items) ≡ true)
        × IsPrefix p.writer.desk.shown.value.list p.writer.desk.shown.value.ahead
        × (is_board (p.writer.desk.shown.value.list
        ++ pending_of p.writer.desk.shown.value (drop p.writer.behind p.writer.log.items)) ≡ true) };
}

impl Press {
    /// Begins with a writer both of whose copies show the same list, with nothing prepared.
    pub(crate) fn over(writer: BoardWriter) -> Press
        requires none { drop writer.behind writer.log.items ≡ [] }
        requires same { writer.desk.shown.value.ahead ≡ writer.desk.shown.value.list }
        requires lawful { is_board writer.desk.shown.value.list ≡ true }
        ensures { result ≡
            record {
              board = writer.desk.shown.value.board;
              published =
                  writer.desk.shown.value.list;
              pending = [];
            } }
    {
        Press { writer }
    }

    /// Accepts an entry, which viewers see once it is published.
    pub(crate) fn add(&mut self, entry: BoardEntry) -> Result<(), Fault>
        requires { MayAccept self.old entry }
        ensures { Takes self.old (accepting self.old entry) result self.new }
    {
        match self.writer.append(BoardChange::Prepare(entry)) {
            Ok(()) => Ok(()),
            Err(_) => Err(Fault::Memory),
        }
    }

    /// Shows viewers all accepted entries (`show`).
    pub(crate) fn publish<R: Wait>(self, rt: &R) -> (Press, Result<Told, Fault>)
        ensures { PublishesAll self result.1 result.0 }
    {
        let Press { writer } = self;
        let (writer, result) = show(rt, writer);
        (Press { writer }, result)
    }

    /// Ends the board. Viewers that look from then on are refused as `Stopped`.
    pub(crate) fn close<R: Wait>(self, rt: &R) {
        let Press { writer } = self;
        writer.take(rt);
    }
}
