//! Tables of tests: rows that tell by their names whether they hold.
use crate::wrong_rows::WrongRows;
use std::alloc::AllocError;

/// A row of a table of tests.
pub trait Row {
    /// Notes the row by its name if it does not hold.
    fn tell(&self, wrong: &mut WrongRows, rt: &HostRuntime);
}

/// Checks the rows of an area.
pub fn go_over<R: Row>(wrong: &mut WrongRows, rt: &HostRuntime, area: &'static str, rows: &[R]) {
    let wrong = wrong.of(area);
    for row in rows {
        row.tell(wrong, rt);
    }
}

/// Checks the rows of an area that stand in several tables.
pub fn go_over_all<R: Row>(
    wrong: &mut WrongRows,
    rt: &HostRuntime,
    area: &'static str,
    tables: &[&[R]],
) {
    for rows in tables {
        go_over(wrong, rt, area, *rows);
    }
}

/// Tells whether there is memory for the text, and it is this one.
pub fn is_text(text: Result<String, AllocError>, wanted: &str) -> bool {
    match text {
        Ok(text) => {
            let same = text.as_str() == wanted;
            drop(text);
            same
        }
        Err(_) => false,
    }
}
