//! What commands ask of the system: files, and threads.
#![tactic(auto)]

mod asked;
mod kept;
mod notes;
mod reading;

pub use asked::{Driven, NoVerdict, System};
pub use kept::Files;
pub use notes::Note;
pub use reading::{MOST_TEXT, format_file, migrate_file, open_all, read_text};
