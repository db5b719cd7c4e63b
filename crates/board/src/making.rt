//! A new board.
ghost use Rattle.std.specs.Prelude.{◌≡◌, ◌<◌, ◌≤◌, true, false, [], ◌∷◌, ◌++◌, length, drop, All, IfOk, ◌⊎◌, IfErr, OnOk};
ghost use Rattle.std.specs.Arc.{arc_value};
ghost use Rattle.board.specs.Board.{first_entries, horizon_entries, is_board, AreInOrder};
ghost use Rattle.board.specs.State.{HasList};
ghost use Rattle.board.specs.Views.{new_viewer, AreViewers};
ghost use Rattle.left_right.specs.Sides.{view};

use crate::board_copy::BoardCopy;
use crate::entry::BoardEntry;
use crate::home::Home;
use crate::press::{BoardWriter, Press, begin};
use crate::publisher::Publisher;
use crate::rule::Note;
use crate::told::Told;
use crate::viewer::Viewer;
use growing::Growing;
use left_right::writer::Writer;
use std::alloc::{AllocError, Global};
use std::sync::{Arc, Wait};
use units::{Fault, Install, Reason, ShardNo, Splits, Stamp};
use versions::{Places, Versions, copy_install};

/// The greatest number of viewers of a board.
pub const MOST_VIEWERS: usize = 64;

/// Refuses a number of viewers that no board has, as `many`: none, or more than 64.
pub fn check_viewers(n: usize) -> Result<(), Fault>
    ensures fits { OnOk result ((0 < n) × (n ≤ 64)) }
    ensures many { IfErr result
        (λ fault. (fault ≡ Fault.BadRequest Reason.Many) × ((n ≡ 0) ⊎ (64 < n))) }
{
    if n == 0 || n > MOST_VIEWERS {
        return Err(Fault::BadRequest(Reason::Many));
    }
    Ok(())
}

// A viewer that knows of what the writer knows of.
fn viewer(
    writer: &mut BoardWriter,
    home: &Arc<Home, Global>,
    told: &Told,
) -> Result<Viewer, AllocError>
    requires { view writer.old.desk.place ≡ (told.now.list, told.now.list, told.now.board) ∷ [] }
    ensures viewer { IfOk result
        (λ v. v ≡ new_viewer told.now.board told.now.list (arc_value home.now)) }
    ensures writer { (writer.new.desk.shown ≡ writer.old.desk.shown)
        × (writer.new.log ≡ writer.old.log)
        × (writer.new.behind ≡ writer.old.behind)
        × (view writer.new.desk.place ≡ view writer.old.desk.place) }
{
    let mut reader = writer.factory().reader()?;
    let home = Arc::try_clone(home)?;
    reader.learn::<Note>(writer.tell::<Note>());
    Ok(Viewer::over(reader, home, told))
}

fn viewers(
    writer: &mut BoardWriter,
    alloc: Global,
    home: &Arc<Home, Global>,
    told: &Told,
    n: usize,
) -> Result<Vec<Viewer>, AllocError>
    requires { view writer.old.desk.place ≡ (told.now.list, told.now.list, told.now.board) ∷ [] }
    ensures viewers { IfOk result (λ v.
        AreViewers n (new_viewer told.now.board told.now.list (arc_value home.now)) v.items) }
    ensures writer { (writer.new.desk.shown ≡ writer.old.desk.shown)
        × (writer.new.log ≡ writer.old.log)
        × (writer.new.behind ≡ writer.old.behind) }
{
    let mut viewers = Vec::new(alloc);
    for _made in 0..n {
        viewers.push(viewer(writer, home, told)?)?;
    }
    Ok(viewers)
}

/// Makes a board for the keys of one shard, and so many viewers, 1 to 64. Its list begins with the installs; then comes the horizon, if it is
/// above 0, and then the safe timestamp. The places say in which order the installs come by key and timestamp, so no
/// place is searched for.
pub fn start<R: Wait + Drop>(
    rt: R,
    alloc: Global,
    installs: &[Install],
    places: &Places,
    safe: Stamp,
    horizon: Stamp,
    splits: Splits,
    shard: ShardNo,
    n: usize,
) -> Result<(Publisher<R>, Vec<Viewer>), Fault>
    requires lawful { is_board (first_entries installs.now safe horizon) ≡ true }
    requires order { AreInOrder installs.now horizon places.now }
    ensures publisher { IfOk result
        (λ r. (r.0.published ≡ first_entries installs.now safe horizon) × (r.0.pending ≡ [])) }
    ensures viewers { IfOk result
        (λ r. AreViewers n (new_viewer r.0.board (first_entries installs.now safe horizon)
        (record { splits = splits; shard = shard })) r.1.items) }
    ensures many { (n ≡ 0) ⊎ (64 < n) → result ≡ Err (Fault.BadRequest Reason.Many) }
    ensures refused { (0 < n) × (n ≤ 64) → IfErr result (λ e. e ≡ Fault.Memory) }
{
    check_viewers(n)?;
    let home = Home { splits, shard };
    make(rt, alloc, installs, places, safe, horizon, home, n)
}

// Notes an entry in both lists.
fn note(first: &mut Growing<BoardEntry>, second: &mut Growing<BoardEntry>, entry: &BoardEntry)
    ensures first { first.new.entries ≡ first.old.entries ++ entry.now ∷ [] }
    ensures second { second.new.entries ≡ second.old.entries ++ entry.now ∷ [] }
{
    first.add(entry);
    second.add(entry);
}

// Notes a horizon in both lists, where it is above 0.
fn note_horizon(first: &mut Growing<BoardEntry>, second: &mut Growing<BoardEntry>, horizon: Stamp)
    ensures first { first.new.entries ≡ first.old.entries ++ horizon_entries horizon }
    ensures second { second.new.entries ≡ second.old.entries ++ horizon_entries horizon }
{
    if horizon.micros() > 0 {
        note(first, second, &BoardEntry::Horizon(horizon));
    }
}

// Notes the first entries of a board in both lists.
fn note_all(
    first: &mut Growing<BoardEntry>,
    second: &mut Growing<BoardEntry>,
    installs: &[Install],
    safe: Stamp,
    horizon: Stamp,
) -> Result<(), Fault>
    requires none { (first.old.entries ≡ []) × (second.old.entries ≡ []) }
    ensures first { OnOk result (first.new.entries ≡ first_entries installs.now safe horizon) }
    ensures second { OnOk result (second.new.entries ≡ first_entries installs.now safe horizon) }
    ensures memory { IfErr result (λ fault. fault ≡ Fault.Memory) }
{
    for install in installs {
        let entry = BoardEntry::Installed(copy_install(install)?);
        note(first, second, &entry);
        drop(entry);
    }
    note_horizon(first, second, horizon);
    note(first, second, &BoardEntry::Safe(safe));
    Ok(())
}

// Both copies, which share the values of the versions.
fn copies(
    alloc: Global,
    installs: &[Install],
    places: &Places,
    safe: Stamp,
    horizon: Stamp,
) -> Result<(BoardCopy, BoardCopy), Fault>
    requires { AreInOrder installs.now horizon places.now }
    ensures memory { IfErr result (λ fault. fault ≡ Fault.Memory) }
    ensures first { IfOk result (λ c. HasList c.0 (first_entries installs.now safe horizon)) }
    ensures second { IfOk result (λ c. HasList c.1 (first_entries installs.now safe horizon)) }
    ensures board { IfOk result (λ c. c.1.board ≡ c.0.board) }
    ensures sides { IfOk result (λ c. (c.0.second ≡ false) × (c.1.second ≡ true)) }
{
    let (first, second) = Growing::twins();
    let (mut one, mut other) = Growing::twins();
    note_all(&mut one, &mut other, installs, safe, horizon)?;
    let versions = Versions::of(alloc, installs, places)?;
    let copy = versions.copy(alloc)?;
    Ok((
        BoardCopy::open(first, one, false, versions, safe, horizon),
        BoardCopy::open(second, other, true, copy, safe, horizon),
    ))
}

fn make<R: Wait + Drop>(
    rt: R,
    alloc: Global,
    installs: &[Install],
    places: &Places,
    safe: Stamp,
    horizon: Stamp,
    home: Home,
    n: usize,
) -> Result<(Publisher<R>, Vec<Viewer>), Fault>
    requires lawful { is_board (first_entries installs.now safe horizon) ≡ true }
    requires order { AreInOrder installs.now horizon places.now }
    requires count { (0 < n) × (n ≤ 64) }
    ensures memory { IfErr result (λ fault. fault ≡ Fault.Memory) }
    ensures publisher { IfOk result
        (λ r. (r.0.published ≡ first_entries installs.now safe horizon) × (r.0.pending ≡ [])) }
    ensures viewers { IfOk result (λ r.
        AreViewers n (new_viewer r.0.board (first_entries installs.now safe horizon) home) r.1.items) }
{
    let home = Arc::new(alloc, home)?;
    let (first, second) = copies(alloc, installs, places, safe, horizon)?;
    let told = Told::of(false, first.so_far(), second.so_far(), first.safe());
    let writer = Writer::new(alloc, first, second, n)?;
    let (mut writer, shown) = begin(&rt, writer);
    if shown.is_err() {
        writer.take(&rt);
        return Err(Fault::Memory);
    }
    match viewers(&mut writer, alloc, &home, &told, n) {
        Ok(viewers) => Ok((Publisher::over(rt, Press::over(writer)), viewers)),
        Err(_) => {
            writer.take(&rt);
            Err(Fault::Memory)
        }
    }
}
