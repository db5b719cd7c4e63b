//! The rows of a test's tables that do not hold.
use std::alloc::Global;
use std::fmt::Write;

// At most this many rows are named; the others are only counted.
const NAMED: u64 = 100;

/// Collects the rows that do not hold, in all tables of a test, so that the test names them all at once.
#[derive(Drop)]
pub struct WrongRows {
    area: &'static str,
    count: u64,
    text: String,
}

impl WrongRows {
    /// Begins with no wrong row.
    pub fn none(alloc: Global) -> WrongRows {
        WrongRows {
            area: "",
            count: 0,
            text: String::new(alloc),
        }
    }

    /// Says that the rows from here on are of this area.
    pub fn of(&mut self, area: &'static str) -> &mut WrongRows {
        self.area = area;
        self
    }

    /// Counts the row as wrong unless it holds. It counts even if there is no memory for its name.
    pub fn unless(&mut self, holds: bool, row: &str) {
        if !holds {
            self.add(row);
        }
    }

    /// Counts the row as wrong unless it holds at a place, and names the place by its number.
    pub fn unless_at(&mut self, holds: bool, row: &str, place: u64) {
        if !holds && self.add(row) {
            let _ = write!(self.text, " ({place})");
        }
    }

    // Counts a wrong row, and tells whether it is named.
    fn add(&mut self, row: &str) -> bool {
        self.count = self.count.saturating_add(1);
        let colon = if self.area.is_empty() { "" } else { ": " };
        self.count <= NAMED && write!(self.text, "\n{}{colon}{row}", self.area).is_ok()
    }

    /// Tells whether each row holds.
    pub fn is_none(&self) -> bool {
        self.count == 0
    }

    /// Returns a line for each wrong row that is named, with its area if it has one.
    pub fn text(&self) -> &str {
        self.text.as_str()
    }
}
