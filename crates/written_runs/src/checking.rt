//! The rows of a file are checked, and what is wrong is told.
use crate::comparing::difference;
use crate::outcomes::outcome;
use std::fs;

/// Says what is wrong with a row of a file, or with what has no rows, and counts it.
pub fn tell(rt: &HostRuntime, file: &str, name: &str, wanted: &str, came: &str) -> u64 {
    let _ = println!(rt; "{file}: {name}: wanted {wanted:?}, came {came:?}");
    1
}

/// Goes over the rows of a file, and counts what is wrong: rows of which something else comes, or the file itself.
pub fn wrong_in_file(rt: &HostRuntime, file: &str) -> u64 {
    let Ok(text) = fs::read_to_string(rt, file) else {
        return tell(rt, file, "the file", "rows", "no text");
    };
    let wrong = wrong_in_text(rt, file, text.as_str());
    drop(text);
    wrong
}

// An empty line parts two rows.
fn wrong_in_text(rt: &HostRuntime, file: &str, text: &str) -> u64 {
    let mut wrong = 0_u64;
    let mut has_rows = false;
    for part in text.trim_end().split("\n\n") {
        if let Some((_, row)) = part.split_once("== ") {
            has_rows = true;
            wrong = wrong.saturating_add(wrong_in_row(rt, file, row));
        } else if part.contains("-- ") || !part.starts_with('#') {
            wrong = wrong.saturating_add(tell(rt, file, "a row without a name", "== ", part));
        }
    }
    if has_rows {
        wrong
    } else {
        tell(rt, file, "the file", "rows", "none")
    }
}

// Plays a row, which begins with its name. Says what is wrong with it, and counts that.
fn wrong_in_row(rt: &HostRuntime, file: &str, row: &str) -> u64 {
    let (name, said) = row.split_once('\n').unwrap_or((row, ""));
    let (schedule, wanted) = said.split_once("-- ").unwrap_or((said, ""));
    let text = outcome(rt.alloc(), schedule);
    let (wanted, came) = difference(wanted, text.as_str());
    let wrong = if wanted == came {
        0
    } else {
        tell(rt, file, name, wanted, came)
    };
    drop(text);
    wrong
}
