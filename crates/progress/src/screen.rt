//! Lines on a terminal, each written over the one before.
ghost use Rattle.std.specs.Prelude.{◌≡◌, ◌⊎◌, [], ◌+◌, ◌-◌, ◌<◌, ◌≤◌, ◌++◌, ◌∷◌, IfOk, IsFalse, IsTrue, min, length, replicate, string_bytes};
ghost use Rattle.progress.specs.Tally.{abort_of, commit_of};

use crate::pace::Pace;
use crate::progress::Progress;
use crate::table::push_blanks;
use crate::turn::Turn;
use std::alloc::{AllocError, Global};
use std::io;
use std::io::Write;

/// A writer to a terminal, with what is shown there. A write that fails is ignored, and so is a line for which there is no memory.
#[derive(Drop)]
pub struct Screen<W: Write> {
    writer: W,
    progress: Progress,
    pace: Pace,
    // How many bytes the last line on the terminal has.
    shown: usize,
    // Nothing is shown before the end.
    is_quiet: bool,
}

impl<W: Write> Screen<W> {
    ghost use Rattle.progress.specs.Screens.{is_quiet, last_of, tally_of, writer_of};

    /// Makes a screen for so many turns, of which none is done. Nothing is shown yet.
    pub fn new(alloc: Global, writer: W, turns: u64) -> Screen<W>
        ensures writer { writer_of result ≡ writer }
        ensures turns { ((tally_of result).turns ≡ turns) × ((tally_of result).done ≡ 0) }
        ensures last { last_of result ≡ 0 }
        ensures loud { IsFalse (is_quiet result) }
    {
        Screen {
            writer,
            progress: Progress::new(alloc, turns),
            pace: Pace::new(),
            shown: 0,
            is_quiet: false,
        }
    }

    /// So many turns, of which none is done. No turn is shown before the end, but what is told is.
    pub fn quiet(alloc: Global, writer: W, turns: u64) -> Screen<W>
        ensures writer { writer_of result ≡ writer }
        ensures turns { ((tally_of result).turns ≡ turns) × ((tally_of result).done ≡ 0) }
        ensures last { last_of result ≡ 0 }
        ensures quiet { IsTrue (is_quiet result) }
    {
        Screen {
            writer,
            progress: Progress::new(alloc, turns),
            pace: Pace::new(),
            shown: 0,
            is_quiet: true,
        }
    }

    /// Counts a turn that ended at a time in microseconds since the start, and shows a line if one is due. A turn beyond the number of
    /// turns is ignored.
    pub fn turned(&mut self, alloc: Global, turn: Turn, micros: u64)
        ensures turns { (tally_of self.new).turns ≡ (tally_of self.old).turns }
        ensures done { (tally_of self.new).done
            ≡ min ((tally_of self.old).done + 1) (tally_of self.old).turns }
        ensures counted { (tally_of self.old).done < (tally_of self.old).turns →
            ((tally_of self.new).commits.count ≡ (tally_of self.old).commits.count
            + length (commit_of turn.ended turn.micros))
            × ((tally_of self.new).aborts.count ≡ (tally_of self.old).aborts.count
            + length (abort_of turn.ended turn.micros)) }
        ensures looks { (tally_of self.new).looks ≡ (tally_of self.old).looks }
        ensures early { micros < last_of self.old + 200000
            → (last_of self.new ≡ last_of self.old) × (writer_of self.new ≡ writer_of self.old) }
        ensures shown { last_of self.old + 200000 ≤ micros → last_of self.new ≡ micros }
        ensures same { is_quiet self.new ≡ is_quiet self.old }
        ensures quiet { IsTrue (is_quiet self.old) → writer_of self.new ≡ writer_of self.old }
    {
        if !self.progress.is_done() {
            let _ = self.progress.count(turn);
        }
        if self.pace.is_due(micros) && !self.is_quiet {
            let _ = self.show(alloc, micros);
        }
    }

    /// Counts a look that was answered after so many microseconds. One beyond the number of turns is ignored.
    pub fn looked(&mut self, micros: u64)
        ensures turns { (tally_of self.new).turns ≡ (tally_of self.old).turns }
        ensures done { (tally_of self.new).done ≡ (tally_of self.old).done }
        ensures looks { (tally_of self.new).looks.count
            ≡ min ((tally_of self.old).looks.count + 1) (tally_of self.old).turns }
        ensures kept { ((tally_of self.new).looks.micros ≡ (tally_of self.old).looks.micros)
            ⊎ ((tally_of self.new).looks.micros
            ≡ (tally_of self.old).looks.micros ++ micros ∷ []) }
        ensures ended { ((tally_of self.new).commits ≡ (tally_of self.old).commits)
            × ((tally_of self.new).aborts ≡ (tally_of self.old).aborts) }
        ensures last { last_of self.new ≡ last_of self.old }
        ensures writer { writer_of self.new ≡ writer_of self.old }
        ensures same { is_quiet self.new ≡ is_quiet self.old }
    {
        if !self.progress.has_looked() {
            let _ = self.progress.count_look(micros);
        }
    }

    /// Shows a line that stays.
    pub fn tell(&mut self, alloc: Global, line: &str)
        ensures tally { tally_of self.new ≡ tally_of self.old }
        ensures last { last_of self.new ≡ last_of self.old }
        ensures same { is_quiet self.new ≡ is_quiet self.old }
    {
        let _ = self.write_over(alloc, line, "\n");
        self.shown = 0;
    }

    fn show(&mut self, alloc: Global, micros: u64) -> io::Result<()>
        ensures tally { tally_of self.new ≡ tally_of self.old }
        ensures last { last_of self.new ≡ last_of self.old }
        ensures same { is_quiet self.new ≡ is_quiet self.old }
    {
        let line = self.progress.line(alloc, micros)?;
        self.write_over(alloc, &line, "")?;
        self.shown = line.len();
        Ok(())
    }

    // Writes a line over the one before. A quiet screen has none, so that there is nothing to go back over.
    fn write_over(&mut self, alloc: Global, line: &str, end: &str) -> io::Result<()>
        ensures tally { tally_of self.new ≡ tally_of self.old }
        ensures last { last_of self.new ≡ last_of self.old }
        ensures same { is_quiet self.new ≡ is_quiet self.old }
    {
        let text = if self.is_quiet {
            format!(in alloc; "{line}{end}")?
        } else {
            over(alloc, line, self.shown, end)?
        };
        self.writer.write_all(text.as_bytes())
    }

    /// Shows the last line, for a drive that took so many microseconds, and the table, and returns the writer. If nothing was counted,
    /// nothing is shown.
    pub fn finish(self, alloc: Global, micros: u64) -> W {
        let mut screen = self;
        if screen.progress.is_new() {
            return screen.into_writer();
        }
        if let Ok(line) = screen.progress.line(alloc, micros) {
            let _ = screen.write_over(alloc, &line, "\n");
        }
        let Screen {
            mut writer,
            progress,
            pace: _,
            shown: _,
            is_quiet: _,
        } = screen;
        if let Ok(table) = progress.table(alloc) {
            let _ = writer.write_all(table.as_bytes());
        }
        writer
    }

    fn into_writer(self) -> W
        ensures { result ≡ writer_of self }
    {
        let Screen {
            writer,
            progress: _,
            pace: _,
            shown: _,
            is_quiet: _,
        } = self;
        writer
    }
}

// A line with its end, which covers the line of `shown` bytes before it.
fn over(alloc: Global, line: &str, shown: usize, end: &str) -> Result<String, AllocError>
    ensures { IfOk result (λ text. string_bytes text ≡ 13 ∷ (line.now
        ++ (replicate (shown - length line.now) 32 ++ end.now))) }
{
    let mut text = String::new(alloc);
    text.push_str("\r")?;
    text.push_str(line)?;
    push_blanks(&mut text, line.len(), shown)?;
    text.push_str(end)?;
    Ok(text)
}
